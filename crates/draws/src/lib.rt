// Draws: cycle popping over a plan and its arrows.
#![tactic(auto)]

mod change;
pub mod draw;
mod sight;
mod trail;
