//! The lexer for a text that comes in pieces.

ghost use Rattle.std.specs.Prelude.{◌≡◌, ◌++◌, List, ℕ, [], OnErr, OnOk};
ghost use Rattle.std.specs.Str.{IsUtf8};
ghost use Rattle.rc_lexer.specs.Answers.{IsLexed};

use crate::pieces::Pieces;
use crate::{ScriptError, Token};
use std::alloc::{AllocError, Global};
use std::marker::Model;

/// The text so far.
pub struct Lexer {
    pieces: Pieces,
}

impl Drop for Lexer {
    fn drop(self) {
        let Lexer { pieces: _ } = self;
    }
}

impl Model for Lexer {
    ghost Value = { List ℕ };

    ghost view = { λ l. l.pieces };

    ghost invariant = { λ l. IsUtf8 l.pieces };
}

impl Lexer {
    /// A lexer without text.
    pub fn new(alloc: Global) -> Self
        ensures { result ≡ [] }
    {
        Lexer {
            pieces: Pieces::new(alloc),
        }
    }

    /// Adds a piece. If memory runs out, the text stays as it was.
    pub fn feed(&mut self, piece: &str) -> Result<(), AllocError>
        ensures ok { OnOk result (self.new ≡ self.old ++ piece.now) }
        ensures err { OnErr result (self.new ≡ self.old) }
    {
        self.pieces.feed(piece.as_bytes())
    }

    /// Returns the tokens of the text, or its first fault. A byte 0 is looked for first.
    pub fn finish(self) -> Result<Vec<Token>, ScriptError>
        ensures { IsLexed self result }
    {
        let Lexer { pieces } = self;
        let (_, tokens) = pieces.finish();
        tokens
    }
}

/// Returns the tokens of the script, or its first fault.
pub fn lex(alloc: Global, script: &str) -> Result<Vec<Token>, ScriptError>
    ensures { IsLexed script.now result }
{
    let mut lexer = Lexer::new(alloc);
    lexer.feed(script)?;
    lexer.finish()
}
