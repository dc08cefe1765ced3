//! Launches of children, and why work over a world stops.

ghost use Rattle.std.specs.Prelude.{◌≡◌};
ghost use Rattle.rc_world.specs.declared.starts.Stop.TheVariants.{NoMemory};

use rc_model::Slots;
use rc_text::Text;
use std::alloc::{AllocError, AllocFailed};

/// The program of a launch: this shell, or the one at a path.
pub enum Program {
    Shell,
    Path(String),
}

impl Drop for Program {
    fn drop(self) {
        match self {
            Program::Shell | Program::Path(_) => (),
        }
    }
}

/// A child to be started. Its arguments don't include its name, and each entry of its environment is a `NAME=VALUE`.
pub struct Launch {
    pub program: Program,
    pub args: Vec<Text>,
    pub env: Vec<Text>,
    pub slots: Slots,
}

impl Drop for Launch {
    fn drop(self) {
        let Launch {
            program: _,
            args: _,
            env: _,
            slots: _,
        } = self;
    }
}

impl Clone for Launch {
    ghost use Rattle.std.specs.Prelude.{◌≡◌};
    ghost use Rattle.rc_world.specs.Views.{launch_of};

    ghost is_clone = { λ l m. launch_of m ≡ launch_of l };

    #[tactic(auto, using(crate::proofs::Copies::same_texts))]
    fn clone(&self) -> Result<Launch, AllocError> {
        let program = match &self.program {
            Program::Shell => Program::Shell,
            Program::Path(path) => Program::Path(path.clone()?),
        };
        Ok(Launch {
            program,
            args: self.args.clone()?,
            env: self.env.clone()?,
            slots: self.slots,
        })
    }
}

/// Why work over a world stopped: no call is made after it.
#[derive(Clone, Copy, PartialEq)]
pub enum Stop {
    /// A call was not answered, since the world has stopped.
    Halt,
    /// Memory ran out.
    NoMemory,
}

impl From<AllocError> for Stop {
    ghost from_gives = { λ _ e. e ≡ NoMemory };

    fn from(_: AllocError) -> Self {
        Stop::NoMemory
    }
}

impl<T: Drop> From<AllocFailed<T>> for Stop {
    ghost from_gives = { λ _ e. e ≡ NoMemory };

    fn from(_: AllocFailed<T>) -> Self {
        Stop::NoMemory
    }
}
