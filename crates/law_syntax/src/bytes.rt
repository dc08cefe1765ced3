//! Laws of the machine over bytes. Each function does nothing: its contract is the law.

ghost use Rattle.law_syntax.specs.ByteLaws.{BytesLaw, PiecesLaw};

/// The bytes of a text are read as its characters are.
pub fn characters_by_bytes()
    ensures { BytesLaw }
{}

/// A text can be read in pieces.
pub fn in_pieces()
    ensures { PiecesLaw }
{}
