//! The results of calls as answers that are shown.

ghost use Rattle.std.specs.Prelude.{◌≡◌};
ghost use Rattle.rc_trace.specs.Views.{shown_answer};
ghost use Rattle.rc_world.specs.Views.{file_answer, pair_answer, done_answer, bytes_answer};
ghost use Rattle.rc_world.specs.Views.{child_answer, ending_answer, names_answer, kind_answer};

use crate::shown::ShownAnswer;
use rc_world::{ChildNo, Ending, Fault, Handle, Kind};

pub(crate) fn of_file(said: &Result<Handle, Fault>) -> ShownAnswer<'static>
    ensures { shown_answer result ≡ file_answer said.now }
{
    match said {
        Ok(file) => ShownAnswer::File(*file),
        Err(fault) => ShownAnswer::Refused(*fault),
    }
}

pub(crate) fn of_pair(said: &Result<(Handle, Handle), Fault>) -> ShownAnswer<'static>
    ensures { shown_answer result ≡ pair_answer said.now }
{
    match said {
        Ok((reader, writer)) => ShownAnswer::Pair(*reader, *writer),
        Err(fault) => ShownAnswer::Refused(*fault),
    }
}

pub(crate) fn of_done(said: &Result<(), Fault>) -> ShownAnswer<'static>
    ensures { shown_answer result ≡ done_answer said.now }
{
    match said {
        Ok(()) => ShownAnswer::Done,
        Err(fault) => ShownAnswer::Refused(*fault),
    }
}

pub(crate) fn of_bytes(said: &Result<Vec<u8>, Fault>) -> ShownAnswer<'_>
    ensures { shown_answer result ≡ bytes_answer said.now }
{
    match said {
        Ok(bytes) => ShownAnswer::Bytes(bytes.as_slice()),
        Err(fault) => ShownAnswer::Refused(*fault),
    }
}

pub(crate) fn of_child(said: &Result<ChildNo, Fault>) -> ShownAnswer<'static>
    ensures { shown_answer result ≡ child_answer said.now }
{
    match said {
        Ok(child) => ShownAnswer::Child(*child),
        Err(fault) => ShownAnswer::Refused(*fault),
    }
}

pub(crate) fn of_ending(said: &Result<Ending, Fault>) -> ShownAnswer<'static>
    ensures { shown_answer result ≡ ending_answer said.now }
{
    match said {
        Ok(ending) => ShownAnswer::Ended(*ending),
        Err(fault) => ShownAnswer::Refused(*fault),
    }
}

pub(crate) fn of_names(said: &Result<Vec<String>, Fault>) -> ShownAnswer<'_>
    ensures { shown_answer result ≡ names_answer said.now }
{
    match said {
        Ok(names) => ShownAnswer::Names(names.as_slice()),
        Err(fault) => ShownAnswer::Refused(*fault),
    }
}

pub(crate) fn of_kind(said: &Result<Kind, Fault>) -> ShownAnswer<'static>
    ensures { shown_answer result ≡ kind_answer said.now }
{
    match said {
        Ok(kind) => ShownAnswer::Found(*kind),
        Err(fault) => ShownAnswer::Refused(*fault),
    }
}
