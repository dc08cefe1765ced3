//! Why a family is not begun, and why a step is refused.

use std::alloc::AllocError;
use thiserror::Error;

/// Why a step of a family was not made, or a family not begun. Nothing has changed.
#[derive(Clone, Copy, Debug, Drop, PartialEq, Error)]
pub enum FamilyFault {
    /// There is no process of this number.
    #[error("no such process")]
    NoProcess,
    /// The script of the process has ended, so that no call of it wants an answer.
    #[error("the process has ended")]
    Ended,
    /// The answer does not fit the pending call: it is of another kind, of more than 4096 bytes, `Halt` or `NoMemory`.
    #[error("the answer does not fit the call")]
    WrongKind,
    /// The process, or the one that the step would append, has run as many instructions as the limit.
    #[error("the limit is met")]
    Limit,
    #[error("out of memory")]
    NoMemory,
}

impl From<AllocError> for FamilyFault {
    ghost use Rattle.std.specs.Prelude.{◌≡◌};
    ghost use Rattle.rc_shell.specs.declared.family.family_fault.FamilyFault.TheVariants.{NoMemory};

    ghost from_gives = { λ _ f. f ≡ NoMemory };

    fn from(_: AllocError) -> Self {
        FamilyFault::NoMemory
    }
}
