//! The faults of inputs, and why there is no result for one.

ghost use Rattle.std.specs.Prelude.{◌≡◌, Some};
ghost use Rattle.rc_model.specs.Run.Lists.{list_words};
ghost use Rattle.rc_model.specs.Syntax.Faults.{error_words, fault_words, kind_words};

use std::alloc::{AllocError, AllocFailed};
use std::{error, fmt};
use thiserror::Error;

/// What is wrong with a script.
#[derive(Clone, Copy, Debug, PartialEq)]
pub enum FaultKind {
    /// The script has more than 1,048,576 bytes.
    TooLong,
    /// The script is not UTF-8.
    NotText,
    ZeroByte,
    /// A quote is not closed.
    OpenQuote,
    /// A `[` after an operator names no descriptor of the language.
    BadDescriptor,
    /// A here document lacks its last line.
    OpenHere,
    /// A token that no script can have at this place.
    Unexpected,
    /// An `if not` does not follow an `if`.
    IfNot,
    TooDeep,
    TooManyStages,
}

impl fmt::Display for FaultKind {
    ghost output = { λ kind. Some (kind_words kind) };

    fn fmt<W: fmt::Write>(&self, f: &mut fmt::Formatter<W>) -> fmt::Result {
        f.write_str(match self {
            FaultKind::TooLong => "too long",
            FaultKind::NotText => "not UTF-8",
            FaultKind::ZeroByte => "zero byte",
            FaultKind::OpenQuote => "open quote",
            FaultKind::BadDescriptor => "bad descriptor",
            FaultKind::OpenHere => "open here document",
            FaultKind::Unexpected => "unexpected",
            FaultKind::IfNot => "misplaced if not",
            FaultKind::TooDeep => "too deep",
            FaultKind::TooManyStages => "too many stages",
        })
    }
}

/// A fault of a script, with its line. Lines count from 1; a fault of the whole text is at line 0.
#[derive(Clone, Copy, Debug, PartialEq)]
pub struct SyntaxFault {
    pub kind: FaultKind,
    pub line: usize,
}

impl fmt::Display for SyntaxFault {
    ghost output = { λ fault. Some (fault_words fault) };

    fn fmt<W: fmt::Write>(&self, f: &mut fmt::Formatter<W>) -> fmt::Result {
        let SyntaxFault { kind, line } = *self;
        write!(f, "line {line}: {kind}")
    }
}

impl error::Error for SyntaxFault {}

/// What is wrong with a list of tokens.
#[derive(Clone, Copy, Debug)]
pub enum DescentFault {
    /// A token that no script can have at this place.
    Unexpected,
    /// An `if not` does not follow an `if`.
    IfNot,
    /// The tree has too many levels.
    TooDeep,
    /// A pipeline of the tree has too many stages.
    TooManyStages,
}

/// What is wrong with an image: the first fault from left to right of one that is read, or that one to be written is
/// too large.
#[derive(Clone, Copy, Debug, PartialEq, Error)]
pub enum ImageFault {
    /// An image begins differently, or a place has no tag of the wanted sort.
    #[error("bad tag")]
    BadTag,
    /// A number or a text is not spelled correctly, or a list is too short or too long.
    #[error("bad length")]
    BadLength,
    /// There is something after the tree.
    #[error("something after the tree")]
    Trailing,
    /// A node is below the deepest level.
    #[error("too deep")]
    TooDeep,
    /// The image is of another version.
    #[error("another version")]
    Version,
    /// An argument or an entry would have more than 100,000 bytes, or an image more than 16 pieces.
    #[error("too large")]
    TooLarge,
}

/// Why two lists can't be joined.
#[derive(Clone, Copy, Debug)]
pub enum ListFault {
    /// One list is empty, and the other is not.
    EmptyConcat,
    /// The counts differ, and neither is 1.
    CountMismatch,
}

impl ListFault {
    /// Returns the fault in words, as a shell reports it.
    pub fn words(self) -> &'static str
        ensures { result.now ≡ list_words self }
    {
        match self {
            ListFault::EmptyConcat => "empty list in concatenation",
            ListFault::CountMismatch => "list lengths differ in concatenation",
        }
    }
}

impl fmt::Display for ListFault {
    ghost output = { λ fault. Some (list_words fault) };

    fn fmt<W: fmt::Write>(&self, f: &mut fmt::Formatter<W>) -> fmt::Result {
        f.write_str(self.words())
    }
}

impl error::Error for ListFault {}

/// Why there is no result for an input: it has a fault, or memory ran out.
#[derive(Clone, Copy, Debug, PartialEq)]
pub enum InputError<F> {
    Fault(F),
    NoMemory,
}

impl<F: fmt::Display> fmt::Display for InputError<F> {
    ghost output = { λ error. error_words F.output error };

    fn fmt<W: fmt::Write>(&self, f: &mut fmt::Formatter<W>) -> fmt::Result {
        match self {
            InputError::Fault(fault) => fault.fmt(f),
            InputError::NoMemory => f.write_str("out of memory"),
        }
    }
}

impl<F: error::Error> error::Error for InputError<F> {}

impl From<SyntaxFault> for InputError<SyntaxFault> {
    ghost use Rattle.rc_model.specs.declared.fault.InputError.TheVariants.{Fault};

    ghost from_gives = { λ fault e. e ≡ Fault fault };

    fn from(fault: SyntaxFault) -> Self {
        InputError::Fault(fault)
    }
}

impl<F> From<AllocError> for InputError<F> {
    ghost use Rattle.rc_model.specs.declared.fault.InputError.TheVariants.{NoMemory};

    ghost from_gives = { λ _ e. e ≡ NoMemory };

    fn from(_: AllocError) -> Self {
        InputError::NoMemory
    }
}

impl<F, T: Drop> From<AllocFailed<T>> for InputError<F> {
    ghost use Rattle.rc_model.specs.declared.fault.InputError.TheVariants.{NoMemory};

    ghost from_gives = { λ _ e. e ≡ NoMemory };

    fn from(_: AllocFailed<T>) -> Self {
        InputError::NoMemory
    }
}
