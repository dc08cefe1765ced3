//! The laws of tapes: a tape records what its answers determine.
#![tactic(auto)]

ghost use Rattle.law_tapes.specs.Tapes.{CallsAreOnTape, NewTapesHaveAll, TapesRecord};

/// Up to its first halt, a tape records its calls with the answers that it had left, in their order.
pub fn tapes_record()
    ensures { TapesRecord }
{}

/// The same for one call.
pub fn calls_are_on_tape()
    ensures { CallsAreOnTape }
{}

/// A tape that has recorded nothing has all its answers left.
pub fn new_tapes_have_all()
    ensures { NewTapesHaveAll }
{}
