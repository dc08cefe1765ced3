//! The laws of the machine: the code of a script simulates its meaning, and the other way round.
#![tactic(auto)]

ghost use Rattle.rc_model.specs.Run.Calls.{Answer};
ghost use Rattle.rc_model.specs.Run.Script.{Agrees};
ghost use Rattle.rc_model.specs.Run.State.{State};
ghost use Rattle.rc_model.specs.Syntax.Tree.{Node, cmd};
ghost use Rattle.law_machine.specs.Limits.{EnoughIsNoLimit, LimitsEnd, SomeAreEnough};
ghost use Rattle.std.specs.Prelude.{List};

/// The code of a script does what the script means, for all answers.
pub fn machine_agrees()
    ensures { (c : Node cmd) (s : State) (given : List Answer) → Agrees c s given }
{}

/// If the meaning of a script ends or waits over some answers, a run on a tape of them doesn't stop at a limit that is
/// high enough.
pub fn limits_end()
    ensures { LimitsEnd }
{}

/// If the meaning ends or waits, some number of instructions is enough.
pub fn some_are_enough()
    ensures { SomeAreEnough }
{}

/// A limit that is enough for the answers of a tape is not reached there.
pub fn enough_is_no_limit()
    ensures { EnoughIsNoLimit }
{}
