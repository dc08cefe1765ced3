//! Laws of scripts that are read in parts. Each function does nothing: its contract is the law.

ghost use Rattle.law_syntax.specs.Parts.{ExtendsPhrases, JoinsParts, LeavesTails, SplitsParts};

/// A phrase before the last of the tokens so far is the same phrase when more tokens follow.
pub fn phrases_extend()
    ensures { ExtendsPhrases }
{}

/// What is left after a phrase is the end of its tokens.
pub fn phrases_leave_tails()
    ensures { LeavesTails }
{}

/// The lexemes of two parts of a text are those of the whole, if the first part ends with the token of a newline.
pub fn parts_join()
    ensures { JoinsParts }
{}

/// The second of two such parts has the lexemes that the whole has after those of the first.
pub fn parts_split()
    ensures { SplitsParts }
{}
