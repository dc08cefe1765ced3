//! Calls of the world on Linux, and runs of the shell as a process of its own: the answers, how it ends, and what it
//! writes. With arguments, this program is itself the shell: after a first word `rc` with the others, and else with all
//! of them, as when a shell starts itself.
#![tactic(auto)]

mod answers;
mod call_rows;
mod calls;
mod launches;
mod run_rows;
mod runs;

use anyhow::Result;
use rc_host::{arguments, own_path};
use rc_process::{refuse, run};
use std::process::ExitCode;
use std::{env, process};

/// Prints whether the rows of this file are as expected.
fn report(rt: &HostRuntime, file: &str, are_well: bool) -> Result<()> {
    let result = if are_well {
        "as wanted"
    } else {
        "not as wanted"
    };
    println!(rt; "{file}: {result}")?;
    Ok(())
}

/// Checks the rows of each file, and prints whether they are as expected.
fn check_all(rt: HostRuntime) -> Result<()> {
    for file in ["files.calls", "children.calls"] {
        report(&rt, file, call_rows::check_file(rt, rt.alloc(), file)?)?;
    }
    let this = own_path(rt.alloc(), env::current_exe(&rt), process::id(rt.process()))?;
    report(&rt, "runs.rows", runs::check_all(&rt, &this)?)
}

fn main(rt: HostRuntime) -> Result<ExitCode> {
    let arguments = match arguments(&rt) {
        Ok(arguments) => arguments,
        Err(error) => return Ok(refuse(&rt, error)),
    };
    match arguments.as_slice() {
        [] => {
            check_all(rt)?;
            Ok(ExitCode::SUCCESS)
        }
        [first, further @ ..] if first.as_str() == "rc" => Ok(run(rt, further)),
        all => Ok(run(rt, all)),
    }
}
