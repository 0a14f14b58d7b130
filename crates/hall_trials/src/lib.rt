// Examples and limits of plans, arrows, orders and words. They stand apart, since a crate with tests is proved twice.

#![tactic(auto)]

#[cfg(test)]
mod arrows;
#[cfg(test)]
mod halls;
#[cfg(test)]
mod picking;
#[cfg(test)]
mod words;
