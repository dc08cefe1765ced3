//! Laws of tokens. Each function does nothing: its contract is the law.

ghost use Rattle.rc_model.specs.Mirrors.Reading.{ReadingLaw};
ghost use Rattle.rc_model.specs.Mirrors.Spelling.{SpellingLaw};
ghost use Rattle.rc_model.specs.Syntax.HerePieces.{HerePiecesByRule};

/// Each text has one list of tokens or one first fault, and the machine over characters finds it.
pub fn reading()
    ensures { ReadingLaw }
{}

/// Words are words, names are names, and descriptors are those of the language, in the tokens of each text.
pub fn spelling()
    ensures { SpellingLaw }
{}

/// The pieces that are computed for the body of a here document are those of the rule.
pub fn here_pieces()
    ensures { HerePiecesByRule }
{}
