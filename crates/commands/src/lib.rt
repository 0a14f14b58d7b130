// What the words of a sheet's line ask for.

#![tactic(auto)]

mod args;
pub mod command;
mod keyword;
pub mod scope;
