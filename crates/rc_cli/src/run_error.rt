//! Why a run failed.
ghost use Rattle.std.specs.Prelude.{◌≡◌, Some};
ghost use Rattle.rc_cli.specs.Errors.{error_at, error_line};
ghost use Rattle.rc_world.specs.Faults.{fault_at};

use rc_model::SyntaxFault;
use rc_world::{Fault, fault_of};
use std::alloc::AllocError;
use std::error::Error;
use std::{fmt, io};

/// Why a run of the program failed. Its `Display` is the line that the program prints, without a newline.
#[derive(Clone, Copy, Debug, PartialEq)]
pub enum RunError<'a> {
    /// The arguments are not a valid request.
    Usage,
    /// The file of this name couldn't be read: that of the script, or `standard input`.
    CannotRead(&'a str),
    Syntax(SyntaxFault),
    /// What was handed over doesn't read back.
    BadImage,
    NoMemory,
    /// The script took too many instructions.
    Limit,
    /// The world did not answer.
    Halted,
}

impl<'a> From<AllocError> for RunError<'a> {
    ghost use Rattle.rc_cli.specs.declared.run_error.RunError.TheVariants.{NoMemory};

    ghost from_gives = { λ _ error. error ≡ NoMemory };

    fn from(_: AllocError) -> RunError<'a> {
        RunError::NoMemory
    }
}

impl<'a> RunError<'a> {
    /// The error for an error of the system: out of memory, or else `other`.
    pub(crate) fn at(error: &io::Error, other: RunError<'a>) -> RunError<'a>
        ensures { result ≡ error_at (fault_at error.now) other.entry }
    {
        match fault_of(error) {
            Fault::NoMemory => RunError::NoMemory,
            _ => other,
        }
    }
}

impl fmt::Display for RunError<'_> {
    ghost output = { λ error. Some (error_line error) };

    fn fmt<W: fmt::Write>(&self, f: &mut fmt::Formatter<W>) -> fmt::Result {
        match self {
            RunError::Usage => f.write_str("rc: usage: rc [-e] [-c text | file] [arg ...]"),
            RunError::CannotRead(name) => write!(f, "rc: cannot read {name}"),
            RunError::Syntax(fault) => write!(f, "rc: {fault}"),
            RunError::BadImage => f.write_str("rc: bad image"),
            RunError::NoMemory => f.write_str("rc: no memory"),
            RunError::Limit => f.write_str("rc: limit"),
            RunError::Halted => f.write_str("rc: halted"),
        }
    }
}

impl Error for RunError<'_> {}
