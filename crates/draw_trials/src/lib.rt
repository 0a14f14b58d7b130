// Examples and limits of draws. They stand apart, since a crate with tests is proved twice.

#![tactic(auto)]

#[cfg(test)]
mod limits;
#[cfg(test)]
mod turns;
