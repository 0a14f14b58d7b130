// The calls that read an ended draw.

#![tactic(auto)]

mod ended;
pub mod reseat;
pub mod tree;
