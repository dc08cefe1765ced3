//! The lines of the bodies of here documents.

ghost use Rattle.std.specs.Prelude.{◌≡◌, ◌<◌, ◌≤◌, ◌+◌, ◌^◌, length};
ghost use Rattle.rc_lexer.specs.Spans as spans;
ghost use Rattle.rc_lexer.specs.Machine.{Takes, line_of, pending_in};
ghost use Rattle.rc_lexer.specs.declared.lexer_state.LexerState.TheVariants as state;

use crate::ScriptError;
use crate::byte_classes::ByteClass;
use crate::lexer_state::tokens::span_between;
use crate::lexer_state::{LexerState, Reading};
use rc_model::{Place, Previous};

impl Reading {
    /// The state at the beginning of a line.
    #[inline(always)]
    pub(crate) fn begin_line(&self, at: usize) -> LexerState
        ensures { result ≡ line_of self.now.pending.items at }
    {
        if self.pending.is_empty() {
            LexerState::Between(Previous::Apart)
        } else {
            LexerState::Body {
                start: at,
                line: at,
            }
        }
    }

    /// Reads a byte in the body of a here document.
    #[inline(always)]
    pub(crate) fn continue_body(
        &mut self,
        script: &[u8],
        body: usize,
        line: usize,
        place: Place,
        b: u8,
        class: ByteClass,
    ) -> Result<LexerState, ScriptError>
        requires byte { place.byte < 2 ^ 63 }
        requires line { place.line < 2 ^ 63 + 1 }
        requires order { line ≤ place.byte }
        requires within { place.byte ≤ length script.now }
        ensures { Takes self.old self.new result
            (spans.step script.now (state.Body body line) self.old.dollars.items (pending_in self.old) place b class) }
    {
        let Some(first) = self.pending.front() else {
            return self.begin_token(Previous::Apart, place, b, class);
        };
        match class {
            ByteClass::LineEnd => {
                let next = place.byte + 1;
                if &script[line..place.byte] != first.mark.as_slice() {
                    return Ok(LexerState::Body {
                        start: body,
                        line: next,
                    });
                }
                self.bodies.push(span_between(body, line)?)?;
                let _ = self.pending.pop_front();
                Ok(self.begin_line(next))
            }
            _ => Ok(LexerState::Body { start: body, line }),
        }
    }
}
