// The vocabulary of drain trees: plans, arrow sources, orders, what draws are made of, what checking a tree answers, and faults.

#![tactic(auto)]

pub mod draw;
pub mod fault;
pub mod order;
pub mod plan;
pub mod source;
pub mod tree;
