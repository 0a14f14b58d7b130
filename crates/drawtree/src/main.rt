// The program for plans, trees and draws.

#![tactic(auto)]

use commands::scope::Scope;
use console::program;
use std::process::ExitCode;

fn main(rt: HostRuntime) -> ExitCode {
    program::run(&rt, Scope::Draws, "drawtree")
}
