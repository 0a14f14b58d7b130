// The check of a tree against any plan.

#![tactic(auto)]

pub mod check;
