//! The shell.
#![tactic(auto)]

use rc_host::arguments;
use rc_process::{refuse, run};
use std::process::ExitCode;

fn main(rt: HostRuntime) -> ExitCode {
    match arguments(&rt) {
        Ok(arguments) => run(rt, &arguments),
        Err(error) => refuse(&rt, error),
    }
}
