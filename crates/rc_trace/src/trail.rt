//! The calls that were shown, for proofs alone.

ghost use Rattle.std.specs.Prelude.{◌≡◌, List, [], ◌++◌};
ghost use Rattle.std.specs.Borrow.{ftrue};
ghost use Rattle.rc_model.specs.Run.Calls.{Event, recorded_by};
ghost use Rattle.rc_trace.specs.Views.{shown_answer, shown_call};

use crate::shown::{ShownAnswer, ShownCall};
use std::marker::Model;

/// The calls that were shown, with their answers. It takes no memory, and its functions do nothing at run time.
#[derive(Drop)]
pub struct Trail {
    pub ghost events: { List Event },
}

impl Model for Trail {
    ghost also_owns = { λ _. ftrue };
}

impl Trail {
    pub(crate) fn new() -> Trail
        ensures { result.events ≡ [] }
    {
        Trail {}
    }

    /// The trail with one call more, if it was made.
    pub(crate) fn and(&self, _call: &ShownCall<'_>, _answer: &ShownAnswer<'_>) -> Trail
        ensures { result.events ≡ self.now.events ++ recorded_by (shown_call _call.now) (shown_answer _answer.now) }
    {
        Trail {}
    }
}
