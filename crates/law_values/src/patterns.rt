//! The laws of patterns and file names: the functions implement the relations.

ghost use Rattle.std.specs.Prelude.{◌≡◌, ◌↔◌, ℕ, Bool, true, List, Some};
ghost use Rattle.rc_model.specs.Syntax.Words.{Word, has_pattern};
ghost use Rattle.rc_model.specs.Run.Patterns.{matches};
ghost use Rattle.rc_model.specs.Run.Matching.{Matches};
ghost use Rattle.rc_model.specs.Mirrors.Greedy.{greedy};
ghost use Rattle.rc_model.specs.Run.Calls.{Call, Answer, Event};
ghost use Rattle.rc_model.specs.Run.Plans.{Plan, done_with, Goes};
ghost use Rattle.rc_model.specs.Run.State.{State};
ghost use Rattle.rc_model.specs.Run.Shell.{ShellResult, Next};
ghost use Rattle.rc_model.specs.Run.FileNames.{names_of, expanded};
ghost use Rattle.rc_model.specs.Run.PathNames.{Agreeing, AllExpand, Expands};

/// The matching function implements the relation.
pub fn matches_by_rule()
    ensures { (e : Bool) (w : Word) (t : List ℕ) → (matches w t e ≡ true) ↔ Matches e w t }
{}

/// The greedy matcher returns within as many moves as the product of both lengths, and agrees with the other.
pub fn greedy_matches()
    ensures { (e : Bool) (w : Word) (t : List ℕ) → greedy e w t ≡ Some (matches w t e) }
{}

/// The calls of expansion find the names that the word stands for by their answers.
pub fn names_by_rule()
    ensures { (w : Word) (s : State) (trace : List Event) (r : ShellResult (List Word)) (answers : Call → Answer) →
        has_pattern w ≡ true → Goes (names_of w s) trace (done_with r) → Agreeing answers trace →
        (ws : List Word) × (r ≡ Next ws s) × Expands answers w ws }
{}

/// Expansion makes no call twice: for each of its traces there is a world in which each call has one answer, that of
/// the trace.
pub fn names_ask_once()
    ensures { (w : Word) (s : State) (trace : List Event) (q : Plan (ShellResult (List Word))) →
        Goes (names_of w s) trace q → (answers : Call → Answer) × Agreeing answers trace }
{}

/// Words are expanded from left to right, each to what it stands for by the answers to its own calls.
pub fn expanded_by_rule()
    ensures { (ws : List Word) (s : State) (trace : List Event) (r : ShellResult (List Word)) →
        Goes (expanded ws s) trace (done_with r) → (vs : List Word) × (r ≡ Next vs s) × AllExpand ws trace vs }
{}

/// The answers determine what a word becomes.
pub fn one_expansion()
    ensures { (answers : Call → Answer) (w : Word) (us vs : List Word) →
        Expands answers w us → Expands answers w vs → us ≡ vs }
{}
