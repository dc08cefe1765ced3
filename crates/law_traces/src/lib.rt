//! The laws of the traces of one shell: nothing is lost.
#![tactic(auto)]

ghost use Rattle.rc_model.specs.Family.Accounts.{AreFreshAnswers, IsFresh, NothingLost, NothingLeft};
ghost use Rattle.rc_model.specs.Run.Calls.{Event, calls, answers};
ghost use Rattle.rc_model.specs.Run.Plans.{calls_made};
ghost use Rattle.rc_model.specs.Run.Script.{EndsAsMeant, IsBegunAsMeant, IsPrefix, script};
ghost use Rattle.rc_model.specs.Run.State.{State};
ghost use Rattle.rc_model.specs.Syntax.Tree.{Node, cmd};
ghost use Rattle.std.specs.Prelude.{List, ℕ, ◌↔◌};

/// Over fresh answers a script loses nothing: each call names only what is held or owed, at most one write end is
/// held at a time, and a child is waited for when no end of its pipeline is held.
pub fn nothing_is_lost()
    ensures { (c : Node cmd) (s : State) (trace : List Event) →
        IsBegunAsMeant c s trace → IsFresh s trace → NothingLost s trace }
{}

/// At the end of a script, over fresh answers, no file is held, and the children that are owed are those of the
/// background list.
pub fn nothing_is_left()
    ensures { (c : Node cmd) (s : State) (trace : List Event) (t : State) →
        EndsAsMeant c s trace t → IsFresh s trace → NothingLeft s trace t }
{}

/// The answers of a script's trace are fresh for the script exactly if they are fresh by the trace alone.
pub fn fresh_alike()
    ensures { (n : ℕ) (c : Node cmd) (s : State) (trace : List Event) →
        IsPrefix (calls trace) (calls_made (script n c s (answers trace))) →
        AreFreshAnswers n c s (answers trace) ↔ IsFresh s trace }
{}
