//! The laws of values: lists, patterns and file names. The functions implement the relations.
#![tactic(auto)]

mod patterns;

ghost use Rattle.std.specs.Prelude.{◌≡◌, ◌↔◌, ℕ, Bool, List, Result};
ghost use Rattle.rc_model.specs.Syntax.Words.{Word};
ghost use Rattle.rc_model.specs.Run.Lists.{concatenated, selected_by, split};
ghost use Rattle.rc_model.specs.Run.Splitting.{Splits, AreMembers};
ghost use Rattle.rc_model.specs.Run.Joining.{Joins};
ghost use Rattle.rc_model.specs.Run.Selecting.{Selects};
ghost use Rattle.rc_model.specs.declared.fault.ListFault.{ListFault};

pub use patterns::{
    expanded_by_rule, greedy_matches, matches_by_rule, names_ask_once, names_by_rule, one_expansion,
};

/// Splitting a text returns its members.
pub fn split_by_rule()
    ensures { (text separators : List ℕ) (texts : List (List ℕ)) →
        (texts ≡ split text separators) ↔ AreMembers text separators texts }
{}

/// A text has one list of members.
pub fn one_split()
    ensures { (p : ℕ → Bool) (cs : List ℕ) (ms ns : List (List ℕ)) → Splits p cs ms → Splits p cs ns → ms ≡ ns }
{}

/// Joining two lists returns the result of the rule of joining.
pub fn concat_by_rule()
    ensures { (xs ys : List Word) (r : Result (List Word) ListFault) → (r ≡ concatenated xs ys) ↔ Joins xs ys r }
{}

/// A subscript selects the members at the places that it names.
pub fn select_by_rule()
    ensures { (value : List (List ℕ)) (text : List ℕ) (r : List (List ℕ)) →
        (r ≡ selected_by value text) ↔ Selects value text r }
{}
