//! Whether an answer fits a call.

ghost use Rattle.rc_model.specs.Run.Plans.{IsAnswered};
ghost use Rattle.rc_world.specs.Views.{answer_of, call_of};
ghost use Rattle.rc_shell.specs.ReplayEnds.{Tells};

use rc_model::limits::LONGEST_READ;
use rc_world::{Answer, Call, Fault};

/// Whether an answer fits a call.
pub(crate) fn fits(call: &Call, answer: &Answer) -> bool
    ensures { Tells (IsAnswered (call_of call.now) (answer_of answer.now)) result }
{
    match answer {
        Answer::File(_) => matches!(call, Call::Open(_, _) | Call::Here(_)),
        Answer::Pair(_, _) => matches!(call, Call::Pipe),
        Answer::Done => matches!(call, Call::Close(_) | Call::Write(_, _) | Call::Chdir(_)),
        Answer::Bytes(bytes) => matches!(call, Call::Read(_)) && bytes.len() <= LONGEST_READ,
        Answer::Child(_) => matches!(call, Call::Start(_)),
        Answer::Ended(_) => matches!(call, Call::Wait(_)),
        Answer::Names(_) => matches!(call, Call::List(_)),
        Answer::Found(_) => matches!(call, Call::Probe(_)),
        Answer::Refused(fault) => !matches!(fault, Fault::Halt | Fault::NoMemory),
    }
}
