//! The result of the program, for its process.
ghost use Rattle.std.specs.Prelude.{◌≡◌, IfOk, OnErr};
ghost use Rattle.std.specs.Process.{exit_status};

use crate::run_error::RunError;
use std::process::ExitCode;

/// Prints the line of an error to descriptor 2, and returns the exit code.
pub fn report<R: Eprint>(rt: &R, run: Result<u8, RunError<'_>>) -> ExitCode
    ensures ended { IfOk run.entry (λ status. exit_status result ≡ status) }
    ensures failed { OnErr run.entry (exit_status result ≡ 1) }
{
    match run {
        Ok(status) => ExitCode::from(status),
        Err(error) => {
            let _ = rt.eprintln(error);
            ExitCode::FAILURE
        }
    }
}
