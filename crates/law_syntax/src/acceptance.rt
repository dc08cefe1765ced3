//! Laws of whole scripts. Each function does nothing: its contract is the law.

ghost use Rattle.rc_model.specs.Mirrors.ParsingLaws.{AcceptedAreWellFormed, IsDecided, IsNeverBoth};
ghost use Rattle.rc_model.specs.Mirrors.TreeOfText.{FindsTheTree};
ghost use Rattle.rc_model.specs.Mirrors.FirstFault.{FaultRefuses, FaultlessIsAccepted};

/// The tree of a text, as a function, is found exactly if the text is an accepted script with that tree.
pub fn tree_of_text()
    ensures { FindsTheTree }
{}

/// Each script is accepted or refused.
pub fn is_decided()
    ensures { IsDecided }
{}

/// No script is both.
pub fn is_never_both()
    ensures { IsNeverBoth }
{}

/// The tree of an accepted script is well formed.
pub fn accepted_are_well_formed()
    ensures { AcceptedAreWellFormed }
{}

/// The first fault of a script, as a function, is a reason why it is refused.
pub fn fault_refuses()
    ensures { FaultRefuses }
{}

/// A script has no first fault exactly if it is accepted.
pub fn faultless_is_accepted()
    ensures { FaultlessIsAccepted }
{}
