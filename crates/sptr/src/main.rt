//! `sptr`: scripts of shared and weak pointers, and graphs of owners, from standard input or a file
//! to standard output.
#![tactic(auto)]

mod answers;
mod command;
mod commands;
mod orders;
mod process;
mod serve;
mod sources;

use process::serve_process;
use script_stepper::Output;
use std::process::ExitCode;

fn main(rt: HostRuntime) -> ExitCode {
    let mut input = rt.stdin();
    let mut output = Output::new(rt.stdout());
    let mut faults = Output::new(rt.stderr());
    ExitCode::from(serve_process(&rt, &mut input, &mut output, &mut faults))
}
