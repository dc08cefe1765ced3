//! The machine that reads a script byte by byte.

ghost use Rattle.std.specs.Prelude.{◌≡◌, ◌<◌, ◌≤◌, ◌+◌, ◌^◌, length};
ghost use Rattle.rc_lexer.specs.SpanLaws.{Stands};
ghost use Rattle.rc_lexer.specs.Machine.{TakesStep, left};

use crate::ScriptError;
use crate::byte_classes::ByteClass;
use crate::lexer_state::{LexerState, Reading};
use crate::previous::after_blank;
use rc_model::{Place, Previous};

impl Reading {
    /// Reads one more byte.
    #[inline(always)]
    pub(crate) fn step(
        &mut self,
        script: &[u8],
        state: LexerState,
        place: Place,
        b: u8,
        class: ByteClass,
    ) -> Result<LexerState, ScriptError>
        requires byte { place.byte < 2 ^ 63 }
        requires line { place.line < 2 ^ 63 + 1 }
        requires within { place.byte ≤ length script.now }
        requires stands { Stands script.now place.byte state }
        ensures { TakesStep script.now state place b class self.old self.new result }
    {
        match state {
            LexerState::Between(previous) => self.begin_token(previous, place, b, class),
            LexerState::Comment => match class {
                ByteClass::LineEnd => self.begin_token(Previous::Apart, place, b, class),
                _ => Ok(state),
            },
            LexerState::Backslash(start) => match class {
                ByteClass::LineEnd => Ok(LexerState::Between(after_blank(start.previous))),
                _ => self.continue_word(script, start, place, b, class),
            },
            LexerState::WordBackslash(start, stop) => match class {
                ByteClass::LineEnd => self.end_continued(script, start, stop, place, b),
                _ => self.continue_word(script, start, place, b, class),
            },
            LexerState::Word(start) => self.continue_word(script, start, place, b, class),
            LexerState::Name(start) => self.continue_name(start, place, b, class),
            LexerState::Quoted(start) => match class {
                ByteClass::Quote => Ok(LexerState::Closed(start)),
                _ => Ok(state),
            },
            LexerState::Closed(start) => match class {
                ByteClass::Quote => Ok(LexerState::Quoted(start)),
                _ => self.end_word(script, true, start, place, b, class),
            },
            LexerState::Operator(start, op) => self.continue_operator(start, op, place, b, class),
            LexerState::Body { start, line } => self.continue_body(
                script, start, line, place, b, class,
            ),
        }
    }

    /// Reads one more byte, and leaves the state that this leads to.
    #[inline(never)]
    fn step_in_place(
        &mut self,
        script: &[u8],
        state: &mut LexerState,
        place: Place,
        b: u8,
        class: ByteClass,
    ) -> Result<(), ScriptError>
        requires byte { place.byte < 2 ^ 63 }
        requires line { place.line < 2 ^ 63 + 1 }
        requires within { place.byte ≤ length script.now }
        requires stands { Stands script.now place.byte state.old }
        ensures { TakesStep script.now state.old place b class self.old self.new (left state.new result) }
    {
        *state = self.step(script, *state, place, b, class)?;
        Ok(())
    }

    /// Reads one more byte, and leaves the state that this leads to, at the least cost between tokens and in words.
    #[inline(always)]
    pub(crate) fn step_lightly(
        &mut self,
        script: &[u8],
        state: &mut LexerState,
        place: Place,
        b: u8,
        class: ByteClass,
    ) -> Result<(), ScriptError>
        requires byte { place.byte < 2 ^ 63 }
        requires line { place.line < 2 ^ 63 + 1 }
        requires within { place.byte ≤ length script.now }
        requires stands { Stands script.now place.byte state.old }
        ensures { TakesStep script.now state.old place b class self.old self.new (left state.new result) }
    {
        match *state {
            LexerState::Between(previous) => {
                self.begin_in_place(state, previous, place, b, class)?;
                Ok(())
            }
            LexerState::Word(start) => self.continue_word_in_place(
                script, state, start, place, b, class,
            ),
            _ => self.step_in_place(script, state, place, b, class),
        }
    }
}
