//! Laws of printed texts. Each function does nothing: its contract is the law.

ghost use Rattle.law_print.specs.Printed.{PrintedTokensLaw, WrittenTreesLaw};

/// Each tree that a text has can be written.
pub fn written_trees()
    ensures { WrittenTreesLaw }
{}

/// The text of each tree that can be written has tokens, with the lexemes of the tree.
pub fn printed_tokens()
    ensures { PrintedTokensLaw }
{}
