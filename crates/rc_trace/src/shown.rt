//! Calls and answers as they are shown, without a copy of what they hold.

ghost use Rattle.std.specs.Prelude.{◌≡◌, IfOk};
ghost use Rattle.rc_model.specs.Run.Calls.{was_made};
ghost use Rattle.rc_trace.specs.Views.{shown_call, shown_answer};
ghost use Rattle.rc_world.specs.Views.{call_of};

use rc_world::{Call, ChildNo, Ending, Fault, Handle, Kind, Launch, Mode, Slot};
use std::alloc::{AllocError, Global};

/// A call of a world, as it is shown.
#[derive(Clone, Copy)]
pub enum ShownCall<'a> {
    Open(&'a str, Mode),
    Here(&'a str),
    Pipe,
    Close(Handle),
    Read(Handle),
    Write(Slot, &'a [u8]),
    Start(&'a Launch),
    Wait(ChildNo),
    List(&'a str),
    Probe(&'a str),
    Chdir(&'a str),
}

impl<'a> ShownCall<'a> {
    /// The same call, as it is shown.
    pub fn of(call: &'a Call) -> ShownCall<'a>
        ensures { shown_call result ≡ call_of call.now }
    {
        match call {
            Call::Open(path, mode) => ShownCall::Open(path.as_str(), *mode),
            Call::Here(text) => ShownCall::Here(text.as_str()),
            Call::Pipe => ShownCall::Pipe,
            Call::Close(file) => ShownCall::Close(*file),
            Call::Read(file) => ShownCall::Read(*file),
            Call::Write(slot, text) => ShownCall::Write(*slot, text.as_slice()),
            Call::Start(launch) => ShownCall::Start(launch),
            Call::Wait(child) => ShownCall::Wait(*child),
            Call::List(path) => ShownCall::List(path.as_str()),
            Call::Probe(path) => ShownCall::Probe(path.as_str()),
            Call::Chdir(path) => ShownCall::Chdir(path.as_str()),
        }
    }

    /// The same call, with texts of its own.
    pub(crate) fn copy(self, alloc: Global) -> Result<Call, AllocError>
        ensures { IfOk result (λ call. call_of call ≡ shown_call self.entry) }
    {
        Ok(match self {
            ShownCall::Open(path, mode) => Call::Open(String::from_str(alloc, path)?, mode),
            ShownCall::Here(text) => Call::Here(String::from_str(alloc, text)?),
            ShownCall::Pipe => Call::Pipe,
            ShownCall::Close(file) => Call::Close(file),
            ShownCall::Read(file) => Call::Read(file),
            ShownCall::Write(slot, text) => Call::Write(slot, Vec::from_slice(alloc, text)?),
            ShownCall::Start(launch) => Call::Start(launch.clone()?),
            ShownCall::Wait(child) => Call::Wait(child),
            ShownCall::List(path) => Call::List(String::from_str(alloc, path)?),
            ShownCall::Probe(path) => Call::Probe(String::from_str(alloc, path)?),
            ShownCall::Chdir(path) => Call::Chdir(String::from_str(alloc, path)?),
        })
    }
}

/// What a call was answered, as it is shown.
#[derive(Clone, Copy)]
pub enum ShownAnswer<'a> {
    File(Handle),
    /// The read end and the write end of a pipe.
    Pair(Handle, Handle),
    Done,
    Bytes(&'a [u8]),
    Child(ChildNo),
    Ended(Ending),
    Names(&'a [String]),
    Found(Kind),
    Refused(Fault),
}

impl ShownAnswer<'_> {
    /// Whether the call was made: it was not if memory was refused.
    pub(crate) fn was_made(self) -> bool
        ensures { result ≡ was_made (shown_answer self.entry) }
    {
        !matches!(self, ShownAnswer::Refused(Fault::NoMemory))
    }
}
