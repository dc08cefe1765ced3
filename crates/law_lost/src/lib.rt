//! The code of a script loses nothing.
#![tactic(auto)]

ghost use Rattle.rc_model.specs.Family.Accounts.{IsFresh, NothingLost, NothingLeft};
ghost use Rattle.rc_model.specs.Run.Calls.{Event};
ghost use Rattle.rc_model.specs.Code.Machine.{exec, begin};
ghost use Rattle.rc_model.specs.Run.Plans.{Plan, Goes, done_with};
ghost use Rattle.rc_model.specs.Run.State.{State};
ghost use Rattle.rc_model.specs.Syntax.Tree.{Node, cmd};
ghost use Rattle.std.specs.Prelude.{List, ℕ};

/// Wherever the code of a script stops, over fresh answers nothing is lost: each of its calls named only what was
/// held or owed.
pub fn code_loses_nothing()
    ensures { (m : ℕ) (c : Node cmd) (s : State) (trace : List Event) (p : Plan State) →
        Goes (exec m (begin c s)) trace p → IsFresh s trace → NothingLost s trace }
{}

/// If the code ends, over fresh answers, no file is held, and the children that are owed are those of the background
/// list.
pub fn code_leaves_nothing()
    ensures { (m : ℕ) (c : Node cmd) (s t : State) (trace : List Event) →
        Goes (exec m (begin c s)) trace (done_with t) → IsFresh s trace → NothingLeft s trace t }
{}
