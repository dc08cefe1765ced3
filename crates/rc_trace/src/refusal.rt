//! Which call is refused.
//!
//! Its fault is `Denied`, since which one it is changes nothing for a script. It is not passed on, except a close: the
//! definitions take a file as closed whatever is answered, and a write end that stayed open would keep its readers
//! waiting. Later calls are counted below 2^64; a further one is not made, as if memory was refused.

ghost use Rattle.std.specs.Prelude.{◌≡◌, IfOk, IfErr, OnErr};
ghost use Rattle.rc_model.specs.Run.Calls.{was_made};
ghost use Rattle.rc_model.specs.declared.call.Fault.TheVariants.{NoMemory};
ghost use Rattle.rc_trace.specs.Refusals.{CanCount, Counts, Refuses, is_due};
ghost use Rattle.rc_trace.specs.Views.{shown_answer, shown_call};

use crate::shown::{ShownAnswer, ShownCall};
use rc_world::{Call, Fault, Handle};
use std::alloc::Global;

/// Which call is refused.
#[derive(Drop)]
pub enum Refusal {
    Never,
    /// The call that comes after this many others.
    After(u64),
    /// A call was refused, and this many were made since.
    Done(Call, u64),
    /// The close of this file was refused, and this many calls were made since.
    Closed(Handle, u64),
}

impl Refusal {
    /// Whether the next call is refused. If no further call can be counted, none is made: this counts as memory
    /// that was refused.
    pub(crate) fn is_due(&self) -> Result<bool, Fault>
        ensures due { IfOk result (λ due. due ≡ is_due self.now) }
        ensures counts { IfOk result (λ _. CanCount self.now) }
        ensures full { OnErr result (¬ CanCount self.now) }
        ensures err { IfErr result (λ fault. fault ≡ NoMemory) }
    {
        match self {
            Refusal::Never => Ok(false),
            Refusal::After(others) => Ok(*others == 0),
            Refusal::Done(_, since) | Refusal::Closed(_, since) => {
                if *since == u64::MAX {
                    Err(Fault::NoMemory)
                } else {
                    Ok(false)
                }
            }
        }
    }

    /// Refuses a call, and returns why. If memory is refused, the call counts as not made.
    pub(crate) fn refuse(&mut self, alloc: Global, call: ShownCall<'_>) -> Fault
        ensures { Refuses self.old self.new (shown_call call.entry) result }
    {
        match call.copy(alloc) {
            Ok(call) => {
                *self = Refusal::Done(call, 0);
                Fault::Denied
            }
            Err(_) => Fault::NoMemory,
        }
    }

    /// Counts a call that was passed on, if it was made.
    pub(crate) fn count(&mut self, answer: ShownAnswer<'_>)
        requires { CanCount self.old }
        ensures { Counts self.old self.new (was_made (shown_answer answer.entry)) }
    {
        if answer.was_made() {
            match self {
                Refusal::Never => {}
                Refusal::After(others) => *others = others.saturating_sub(1),
                Refusal::Done(_, since) => *since = since.saturating_add(1),
                Refusal::Closed(_, since) => *since = since.saturating_add(1),
            }
        }
    }
}
