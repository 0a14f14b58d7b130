// A program over a sheet: it reads lines from standard input, or takes the one command on its command line.

#![tactic(auto)]

pub mod program;
