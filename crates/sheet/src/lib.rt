// Does the commands of a sheet, one after the other, and words the answers.

#![tactic(auto)]

mod line;
pub mod whole;
