//! What a script hands over: each shell that it starts reads back what it was handed.
#![tactic(auto)]

ghost use Rattle.rc_model.specs.Handed.HandedLaws.{AcceptedAreProper, EndsAreProper, ScriptsReadBack};
ghost use Rattle.rc_model.specs.Handed.HandedLaws.{TracesEndProper, TracesReadBack};
ghost use Rattle.law_handed.specs.Kept.{CodeKeepsProper};
ghost use Rattle.rc_model.specs.Handed.Started.{TracesStartByRule};

/// The tree of an accepted script is proper.
pub fn accepted_are_scripts()
    ensures { AcceptedAreProper }
{}

/// The code of a proper tree keeps only proper trees.
pub fn code_keeps_proper()
    ensures { CodeKeepsProper }
{}

/// From a proper tree and a proper state, and whatever the answers, each shell that a script starts reads back what
/// it was handed.
pub fn scripts_read_back()
    ensures { ScriptsReadBack }
{}

/// The state at the end of a script is proper, if its tree and first state are.
pub fn ends_are_proper()
    ensures { EndsAreProper }
{}

/// In a trace that begins as a script means, each shell that is started reads back what it was handed.
pub fn traces_read_back()
    ensures { TracesReadBack }
{}

/// In a trace that begins as a script means, each shell that is started is handed the command and the state of the rule
/// that starts it there, and reads them back.
pub fn traces_start_by_rule()
    ensures { TracesStartByRule }
{}

/// If a trace ends as a script means, the state at its end is proper.
pub fn traces_end_proper()
    ensures { TracesEndProper }
{}
