//! The calls of a world and their answers, as values.

ghost use Rattle.std.specs.Prelude.{◌≡◌};
ghost use Rattle.rc_model.specs.Run.Calls.{is_halt, refused};
ghost use Rattle.rc_world.specs.Tapes.{refusal};
ghost use Rattle.rc_world.specs.Views.{answer_of};

use crate::{ChildNo, Ending, Fault, Handle, Kind, Launch, Mode, Slot};
use std::alloc::AllocError;

/// A call of a world with its arguments.
pub enum Call {
    Open(String, Mode),
    Here(String),
    Pipe,
    Close(Handle),
    Read(Handle),
    Write(Slot, Vec<u8>),
    Start(Launch),
    Wait(ChildNo),
    List(String),
    Probe(String),
    Chdir(String),
}

impl Drop for Call {
    fn drop(self) {
        match self {
            Call::Open(_, _)
            | Call::Here(_)
            | Call::Pipe
            | Call::Close(_)
            | Call::Read(_)
            | Call::Write(_, _)
            | Call::Start(_)
            | Call::Wait(_)
            | Call::List(_)
            | Call::Probe(_)
            | Call::Chdir(_) => (),
        }
    }
}

impl Clone for Call {
    ghost use Rattle.std.specs.Prelude.{◌≡◌};
    ghost use Rattle.rc_world.specs.Views.{call_of};

    ghost is_clone = { λ c d. call_of d ≡ call_of c };

    fn clone(&self) -> Result<Call, AllocError> {
        match self {
            Call::Open(path, mode) => Ok(Call::Open(path.clone()?, *mode)),
            Call::Here(text) => Ok(Call::Here(text.clone()?)),
            Call::Pipe => Ok(Call::Pipe),
            Call::Close(handle) => Ok(Call::Close(*handle)),
            Call::Read(handle) => Ok(Call::Read(*handle)),
            Call::Write(slot, text) => Ok(Call::Write(*slot, text.clone()?)),
            Call::Start(launch) => Ok(Call::Start(launch.clone()?)),
            Call::Wait(child) => Ok(Call::Wait(*child)),
            Call::List(path) => Ok(Call::List(path.clone()?)),
            Call::Probe(path) => Ok(Call::Probe(path.clone()?)),
            Call::Chdir(path) => Ok(Call::Chdir(path.clone()?)),
        }
    }
}

/// An answer to a call.
#[derive(Drop)]
pub enum Answer {
    File(Handle),
    /// The read end and the write end of a pipe.
    Pair(Handle, Handle),
    Done,
    Bytes(Vec<u8>),
    Child(ChildNo),
    Ended(Ending),
    Names(Vec<String>),
    Found(Kind),
    Refused(Fault),
}

impl Clone for Answer {
    ghost use Rattle.std.specs.Prelude.{◌≡◌};
    ghost use Rattle.rc_world.specs.Views.{answer_of};

    ghost is_clone = { λ a b. answer_of b ≡ answer_of a };

    #[tactic(auto, using(crate::proofs::Copies::same_strings))]
    fn clone(&self) -> Result<Answer, AllocError> {
        match self {
            Answer::File(handle) => Ok(Answer::File(*handle)),
            Answer::Pair(reader, writer) => Ok(Answer::Pair(*reader, *writer)),
            Answer::Done => Ok(Answer::Done),
            Answer::Bytes(bytes) => Ok(Answer::Bytes(bytes.clone()?)),
            Answer::Child(child) => Ok(Answer::Child(*child)),
            Answer::Ended(ending) => Ok(Answer::Ended(*ending)),
            Answer::Names(names) => Ok(Answer::Names(names.clone()?)),
            Answer::Found(kind) => Ok(Answer::Found(*kind)),
            Answer::Refused(fault) => Ok(Answer::Refused(*fault)),
        }
    }
}

impl Answer {
    pub(crate) fn is_halt(&self) -> bool
        ensures { result ≡ is_halt (answer_of self.now) }
    {
        matches!(self, Answer::Refused(Fault::Halt))
    }

    /// The fault that replaces this answer when another kind was wanted.
    pub(crate) fn fault(&self) -> Fault
        ensures { refused result ≡ refusal (answer_of self.now) }
    {
        match self {
            Answer::Refused(Fault::NoMemory) => Fault::Other,
            Answer::Refused(fault) => *fault,
            _ => Fault::Other,
        }
    }
}
