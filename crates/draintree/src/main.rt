// The program for plans and trees.

#![tactic(auto)]

use commands::scope::Scope;
use console::program;
use std::process::ExitCode;

fn main(rt: HostRuntime) -> ExitCode {
    program::run(&rt, Scope::Halls, "draintree")
}
