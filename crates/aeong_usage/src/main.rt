//! The same program as `aeong`. It is here for its stored run, in which words behind the first are no command.
#![tactic(auto)]

use graph_shell::run_program;
use std::process::ExitCode;
use wire_line::{Reading, Writing};

fn main(rt: HostRuntime) -> ExitCode {
    let mut input = Reading::new(rt.stdin());
    let mut output = Writing::new(rt.stdout());
    run_program(&rt, &mut input, &mut output)
}
