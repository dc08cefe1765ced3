//! Results of Linux as answers of a world.
ghost use Rattle.std.specs.Prelude.{◌≡◌, ◌≢◌, ◌↔◌, Ok, Err, IfOk, IsOk, IfSome, IsSomeAnd, MatchResult};
ghost use Rattle.std.specs.Fs.{IsDir, file_type};
ghost use Rattle.std.specs.Process.{child_status};
ghost use Rattle.rc_model.specs.declared.call.Fault.TheVariants.{Halt};
ghost use Rattle.rc_host.specs.Answers.{ending_of, IsProgram, FindsKind};
ghost use Rattle.rc_world.specs.Faults.{fault_at};

use crate::launches::linux_child::LinuxChild;
use rc_world::{Ending, Fault, Kind, fault_of};
use std::fs::Metadata;
use std::io;
use std::os::unix::fs::PermissionsExt;
use std::process::{Child, ExitStatus};

/// The bits of a file's mode that let its owner, its group or all others execute it.
const EXECUTE: u32 = 0o111;

/// Answers a call with this result of Linux.
pub(crate) fn answer<T>(said: io::Result<T>) -> Result<T, Fault>
    ensures same { MatchResult said (λ value. result ≡ Ok value) (λ error. result ≡ Err (fault_at error)) }
    ensures answered { result ≢ Err Halt }
{
    match said {
        Ok(value) => Ok(value),
        Err(error) => Err(fault_of(&error)),
    }
}

/// Waits for the end of the child, and returns how it ended. A child whose end is known ends the same way.
pub(crate) fn end_of(child: &mut Child<LinuxChild>) -> Result<Ending, Fault>
    ensures recorded { IfOk result (λ ending.
        IsSomeAnd (child_status child.new) (λ status. ending ≡ ending_of status)) }
    ensures again { IfSome (child_status child.old) (λ status. result ≡ Ok (ending_of status)) }
    ensures answered { result ≢ Err Halt }
{
    ended(child.wait())
}

/// How a child ended, by the result of the wait for it.
fn ended(status: io::Result<ExitStatus>) -> Result<Ending, Fault>
    ensures { MatchResult status (λ status. result ≡ Ok (ending_of status)) (λ error. result ≡ Err (fault_at error)) }
{
    match answer(status) {
        Ok(status) => Ok(ending_of(status)),
        Err(fault) => Err(fault),
    }
}

fn ending_of(status: ExitStatus) -> Ending
    ensures { result ≡ ending_of status }
{
    match status.code() {
        Some(code) => Ending::Code(code as u8),
        None => Ending::Signal,
    }
}

/// The kind of a path, by its metadata.
pub(crate) fn kind_found(said: io::Result<Metadata>) -> Result<Kind, Fault>
    ensures same { MatchResult said (λ found. IfOk result (FindsKind found))
        (λ error. result ≡ Err (fault_at error)) }
    ensures found { IfOk said (λ _. IsOk result) }
    ensures answered { result ≢ Err Halt }
{
    match answer(said) {
        Ok(found) => Ok(kind_of(&found)),
        Err(fault) => Err(fault),
    }
}

fn kind_of(found: &Metadata) -> Kind
    ensures directory { (result ≡ Kind.Directory) ↔ IsDir (file_type found.now) }
    ensures program { (result ≡ Kind.Program) ↔ IsProgram found.now }
{
    if found.is_dir() {
        Kind::Directory
    } else if found.is_file() && found.permissions().mode() & EXECUTE != 0 {
        Kind::Program
    } else {
        Kind::Other
    }
}
