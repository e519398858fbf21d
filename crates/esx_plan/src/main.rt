//! The program: it does what its words ask for, and ends with the status of that.
#![tactic(auto)]

use esx_program::{exit_code, run};
use std::process::ExitCode;

fn main(rt: HostRuntime) -> ExitCode {
    let errors = rt.stderr();
    let ended = run(&rt, &errors);
    exit_code(&rt, &errors, ended)
}
