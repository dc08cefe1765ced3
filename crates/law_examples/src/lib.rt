//! Worked examples of the definitions: the calls of scripts and how they end, by meaning and by code. The first is a
//! contract, the others are in `proofs/`, by subject.
#![tactic(auto)]

ghost use Rattle.std.specs.Prelude.{[], ◌∷◌, codes};
ghost use Rattle.law_examples.specs.Shown.{Performs, fresh, runs, usual};

/// A program is found in the path, started with the environment, and waited for.
pub fn echo_hello()
    ensures { Performs (codes "echo hello") fresh (runs (codes "echo") (codes "hello" ∷ []) usual 7 0) [] }
{}
