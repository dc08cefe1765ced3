//! The laws of plans: a plan that goes on by some events makes their calls when it is played over their answers.
#![tactic(auto)]

ghost use Rattle.std.specs.Prelude.{◌≡◌, ◌++◌, ◌∷◌, [], List};
ghost use Rattle.rc_model.specs.Run.Calls.{Call, Answer, Event, event, answers, calls, refused};
ghost use Rattle.rc_model.specs.Run.Plans.{Plan, done_with, ask, cut, Goes, Ends, Waits, Cut, play};
ghost use Rattle.rc_model.specs.declared.call.Fault.TheVariants.{Halt};

/// Two runs, of which the second starts where the first stopped, are one run.
#[tactic(auto, using(crate::proofs::Goes::goes_append))]
pub fn runs_join<X>()
    ensures { (p q r : Plan X) (before next : List Event) → Goes p before q → Goes q next r
        → Goes p (before ++ next) r }
{}

/// Over the answers of a run to its end, a plan makes the calls of the run, ends with its value and uses all the
/// answers.
#[tactic(auto, using(crate::proofs::Plays::ends_over))]
pub fn a_run_to_the_end_plays<X>()
    ensures { (p : Plan X) (trace : List Event) (x : X) → Goes p trace (done_with x)
        → play p (answers trace) ≡ Ends (calls trace) x [] }
{}

/// Over the answers of a run to a call, a plan makes the calls of the run and waits on that call.
#[tactic(auto, using(crate::proofs::Plays::waits_over))]
pub fn a_run_to_a_call_plays<X>()
    ensures { (p : Plan X) (trace : List Event) (c : Call) (go : Answer → Plan X) → Goes p trace (ask c go)
        → play p (answers trace) ≡ Waits (calls trace ++ c ∷ []) }
{}

/// If the last call of a run was answered by a halt, the plan makes the same calls over its answers and waits on that
/// last one.
#[tactic(auto, using(crate::proofs::Plays::halts_over))]
pub fn a_run_to_a_halt_plays<X>()
    ensures { (p : Plan X) (before : List Event) (c : Call) (go : Answer → Plan X) → Goes p before (ask c go)
        → let trace = before ++ event c (refused Halt) ∷ [] in play p (answers trace) ≡ Waits (calls trace) }
{}

/// Over the answers of a run to a cut, a plan makes the calls of the run and is cut.
#[tactic(auto, using(crate::proofs::Plays::cut_over))]
pub fn a_run_to_a_cut_plays<X>()
    ensures { (p : Plan X) (trace : List Event) → Goes p trace cut → play p (answers trace) ≡ Cut (calls trace) }
{}
