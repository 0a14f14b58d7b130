// Orders in which vertices are tried: the walk, the order that a list gives, and one order of either kind.

#![tactic(auto)]

pub mod any;
pub mod filed;
mod open;
pub mod walk;
