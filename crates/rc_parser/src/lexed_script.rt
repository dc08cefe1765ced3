//! The text of a script with its tokens.

ghost use Rattle.std.specs.Prelude.{◌≡◌, ◌≤◌, ℕ, IfErr, IfOk, List, length};
ghost use Rattle.rc_lexer.specs.Reads.{Finishes};
ghost use Rattle.rc_lexer.specs.Views.{tokens_of};
ghost use Rattle.rc_model.specs.Syntax.Accepted.{HasTokens, longest_script};
ghost use Rattle.rc_parser.specs.Faults.{Refuses};

use crate::text::checked;
use crate::token_stream::Source;
use rc_lexer::{ScriptError, Token};
use std::marker::Model;

/// The text of a script, which has these tokens.
pub struct LexedScript {
    text: Vec<u8>,
    tokens: Vec<Token>,
}

impl Drop for LexedScript {
    fn drop(self) {
        let LexedScript { text: _, tokens: _ } = self;
    }
}

impl Model for LexedScript {
    ghost Value = { List ℕ };

    ghost view = { λ s. s.text.items };

    ghost invariant = { λ s. HasTokens s.text.items (tokens_of s.text.items s.tokens.items) };
}

impl LexedScript {
    /// The script of a text that is short enough, given the result of the lexer.
    pub(crate) fn new(
        text: Vec<u8>,
        tokens: Result<Vec<Token>, ScriptError>,
    ) -> Result<LexedScript, ScriptError>
        requires short { length text.items ≤ longest_script }
        requires tokens { Finishes text.items tokens }
        ensures text { IfOk result (λ script. script ≡ text.items) }
        ensures refused { IfErr result (λ e. Refuses e text.items) }
    {
        checked(&text)?;
        let tokens = tokens?;
        Ok(LexedScript { text, tokens })
    }

    /// The text and the tokens, as the parser takes them.
    pub fn source(&self) -> Source<'_>
        ensures text { result.script.now ≡ self.now }
        ensures tokens { HasTokens self.now (tokens_of self.now result.tokens.now) }
    {
        Source {
            script: self.text.as_slice(),
            tokens: self.tokens.as_slice(),
        }
    }
}
