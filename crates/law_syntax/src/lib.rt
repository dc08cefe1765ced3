//! The laws of syntax: texts and their tokens, the descent and the trees of the grammar, and accepted scripts.
#![tactic(auto)]

mod acceptance;
mod bytes;
mod parts;
mod tokens;
mod uniqueness;

ghost use Rattle.rc_model.specs.Mirrors.ParsingLaws.{FindsOnlyTrees, FindsEachTree, HasOneTree, HasNoTree};
ghost use Rattle.rc_model.specs.Mirrors.ParsingLaws.{HasTooManyStages, IsTooDeep, HasSoundTrees};

pub use acceptance::{
    accepted_are_well_formed, fault_refuses, faultless_is_accepted, is_decided, is_never_both,
    tree_of_text,
};
pub use bytes::{characters_by_bytes, in_pieces};
pub use parts::{parts_join, parts_split, phrases_extend, phrases_leave_tails};
pub use tokens::{here_pieces, reading, spelling};
pub use uniqueness::one_tree;

/// The descent finds only trees of accepted scripts.
pub fn finds_only_trees()
    ensures { FindsOnlyTrees }
{}

/// The descent finds the tree of each accepted script.
pub fn finds_each_tree()
    ensures { FindsEachTree }
{}

/// An accepted script has no other tree.
pub fn has_one_tree()
    ensures { HasOneTree }
{}

/// If a token is unexpected, or an `if not` misplaced, there is no tree of any size.
pub fn has_no_tree()
    ensures { HasNoTree }
{}

/// Too many stages are found only if a pipeline has them.
pub fn has_too_many_stages()
    ensures { HasTooManyStages }
{}

/// Too many levels are found only if the tree has them.
pub fn is_too_deep()
    ensures { IsTooDeep }
{}

/// A tree of spelled lexemes is sound, unless it has too many stages.
pub fn has_sound_trees()
    ensures { HasSoundTrees }
{}
