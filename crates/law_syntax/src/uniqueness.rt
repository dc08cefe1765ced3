//! The law that a list of lexemes has at most one tree. The function does nothing: its contract is the law.

ghost use Rattle.law_syntax.specs.Trees.{HasOneTreeAtMost};

/// A list of lexemes has at most one tree, of any size.
pub fn one_tree()
    ensures { HasOneTreeAtMost }
{}
