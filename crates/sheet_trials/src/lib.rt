// Examples and limits of lines and sheets. They stand apart, since a crate with tests is proved twice.

#![tactic(auto)]

#[cfg(test)]
mod lines;
#[cfg(test)]
mod sheets;
