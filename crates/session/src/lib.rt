// What the desk has in hand, and what commands do with it.

#![tactic(auto)]

pub mod answer;
mod hall;
pub mod session;
mod text;
