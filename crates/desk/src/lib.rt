// The desk: a draw with its list of records and its order as one value.

#![tactic(auto)]

pub mod running;
