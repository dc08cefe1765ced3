//! What a byte begins, continues or ends: words, names, quoted words and backslashes.

ghost use Rattle.std.specs.Prelude.{◌≡◌, ◌<◌, ◌≤◌, ◌+◌, ◌^◌, ◌++◌, [], false, length, Ok, IfOk};
ghost use Rattle.rc_model.specs.Mirrors.Reading.{without_here};
ghost use Rattle.rc_lexer.specs.Spans as spans;
ghost use Rattle.rc_lexer.specs.Machine.{Takes, left, pending_in};
ghost use Rattle.rc_lexer.specs.declared.lexer_state.LexerState.TheVariants as state;
ghost use Rattle.rc_lexer.specs.declared.byte_classes.ByteClass.TheVariants as byte_class;

use crate::byte_classes::{ByteClass, alone_kind, is_name_byte};
use crate::lexer_state::tokens::{after_byte, token_between};
use crate::lexer_state::{LexerState, Reading, TokenStart};
use crate::operators::first_op;
use crate::previous::{after_blank, after_token, begins_name, meaning_after, without_here};
use crate::{ScriptError, TokenKind};
use rc_model::{Place, Previous};
use std::alloc::AllocError;

impl Reading {
    /// Adds a token of one byte, and returns the context that it leaves.
    #[inline(always)]
    pub(crate) fn push_one(
        &mut self,
        previous: Previous,
        place: Place,
        b: u8,
    ) -> Result<Previous, AllocError>
        requires byte { place.byte < 2 ^ 63 }
        requires line { place.line < 2 ^ 63 + 1 }
        ensures { IfOk result (λ after. Takes self.old self.new (Ok (state.Between after))
            (spans.begin previous (pending_in self.old) place b byte_class.Alone)) }
    {
        self.push_bare_here(previous)?;
        let before = without_here(previous);
        let kind = meaning_after(before, alone_kind(b));
        self.push_token(before, kind, place, after_byte(place, b))?;
        Ok(after_token(before, kind))
    }

    /// Adds a newline, which ends a command.
    #[inline(always)]
    pub(crate) fn push_newline(
        &mut self,
        previous: Previous,
        place: Place,
        b: u8,
    ) -> Result<LexerState, AllocError>
        requires byte { place.byte < 2 ^ 63 }
        requires line { place.line < 2 ^ 63 + 1 }
        ensures { IfOk result (λ s. Takes self.old self.new (Ok s)
            (spans.begin previous (pending_in self.old) place b byte_class.LineEnd)) }
    {
        self.push_bare_here(previous)?;
        let next = after_byte(place, b);
        self.tokens
            .push(token_between(TokenKind::Newline, place, next)?)?;
        Ok(self.begin_line(next.byte))
    }

    /// Begins an operator, and returns where it begins and the context before it.
    #[inline(always)]
    pub(crate) fn begin_operator(
        &mut self,
        previous: Previous,
        place: Place,
    ) -> Result<TokenStart, AllocError>
        ensures value { IfOk result (λ start. start ≡ spans.starts (without_here previous) place) }
        ensures tokens { IfOk result (λ start.
            self.new.tokens.items ≡ self.old.tokens.items ++ spans.bare_here previous) }
        ensures bodies { IfOk result (λ start. self.new.bodies.items ≡ self.old.bodies.items) }
        ensures pending { IfOk result (λ start. self.new.pending.items ≡ self.old.pending.items) }
        ensures dollars { IfOk result (λ start. self.new.dollars.items ≡ []) }
    {
        self.push_bare_here(previous)?;
        self.dollars.clear();
        Ok(TokenStart {
            previous: without_here(previous),
            place,
        })
    }

    /// Begins a token with this byte, and leaves the state that this leads to.
    #[inline(always)]
    pub(crate) fn begin_in_place(
        &mut self,
        state: &mut LexerState,
        previous: Previous,
        place: Place,
        b: u8,
        class: ByteClass,
    ) -> Result<(), AllocError>
        requires byte { place.byte < 2 ^ 63 }
        requires line { place.line < 2 ^ 63 + 1 }
        ensures { IfOk result (λ done. Takes self.old self.new (Ok state.new)
            (spans.begin previous (pending_in self.old) place b class)) }
    {
        match class {
            ByteClass::Blank => *state = LexerState::Between(after_blank(previous)),
            ByteClass::Quote => *state = LexerState::Quoted(TokenStart { previous, place }),
            ByteClass::Backslash => *state = LexerState::Backslash(TokenStart { previous, place }),
            ByteClass::Ordinary if begins_name(previous, b) => *state = LexerState::Name(place),
            ByteClass::Ordinary => *state = LexerState::Word(TokenStart { previous, place }),
            ByteClass::Hash => {
                self.push_bare_here(previous)?;
                *state = LexerState::Comment;
            }
            ByteClass::Begins => {
                let start = self.begin_operator(previous, place)?;
                *state = LexerState::Operator(start, first_op(b));
            }
            ByteClass::Alone => {
                let after = self.push_one(previous, place, b)?;
                *state = LexerState::Between(after);
            }
            ByteClass::LineEnd => *state = self.push_newline(previous, place, b)?,
        }
        Ok(())
    }

    /// Begins a token with this byte.
    #[inline(never)]
    pub(crate) fn begin_token(
        &mut self,
        previous: Previous,
        place: Place,
        b: u8,
        class: ByteClass,
    ) -> Result<LexerState, ScriptError>
        requires byte { place.byte < 2 ^ 63 }
        requires line { place.line < 2 ^ 63 + 1 }
        ensures { Takes self.old self.new result (spans.begin previous (pending_in self.old) place b class) }
    {
        let mut state = LexerState::Between(previous);
        self.begin_in_place(&mut state, previous, place, b, class)?;
        Ok(state)
    }

    /// Reads the byte after a word so far, and leaves the state that this leads to.
    #[inline(always)]
    pub(crate) fn continue_word_in_place(
        &mut self,
        script: &[u8],
        state: &mut LexerState,
        start: TokenStart,
        place: Place,
        b: u8,
        class: ByteClass,
    ) -> Result<(), ScriptError>
        requires byte { place.byte < 2 ^ 63 }
        requires line { place.line < 2 ^ 63 + 1 }
        requires order { start.place.byte ≤ place.byte }
        requires within { place.byte ≤ length script.now }
        ensures { Takes self.old self.new (left state.new result)
            (spans.in_word script.now start (pending_in self.old) place b class) }
    {
        match class {
            ByteClass::Ordinary => *state = LexerState::Word(start),
            ByteClass::Backslash => *state = LexerState::WordBackslash(start, place),
            _ => return self.end_word_in_place(script, state, start, place, b, class),
        }
        Ok(())
    }

    /// Ends a word at the byte after it, and leaves the state that this leads to.
    #[inline(always)]
    fn end_word_in_place(
        &mut self,
        script: &[u8],
        state: &mut LexerState,
        start: TokenStart,
        place: Place,
        b: u8,
        class: ByteClass,
    ) -> Result<(), ScriptError>
        requires byte { place.byte < 2 ^ 63 }
        requires line { place.line < 2 ^ 63 + 1 }
        requires order { start.place.byte ≤ place.byte }
        requires within { place.byte ≤ length script.now }
        ensures { Takes self.old self.new (left state.new result)
            (spans.ends_word false script.now start (pending_in self.old) place b class) }
    {
        let after = self.push_word(script, false, start, place)?;
        self.begin_in_place(state, after, place, b, class)?;
        Ok(())
    }

    /// Ends a word, quoted or not, at the byte after it.
    pub(crate) fn end_word(
        &mut self,
        script: &[u8],
        quoted: bool,
        start: TokenStart,
        place: Place,
        b: u8,
        class: ByteClass,
    ) -> Result<LexerState, ScriptError>
        requires byte { place.byte < 2 ^ 63 }
        requires line { place.line < 2 ^ 63 + 1 }
        requires order { start.place.byte ≤ place.byte }
        requires within { place.byte ≤ length script.now }
        ensures { Takes self.old self.new result
            (spans.ends_word quoted script.now start (pending_in self.old) place b class) }
    {
        let after = self.push_word(script, quoted, start, place)?;
        self.begin_token(after, place, b, class)
    }

    /// Reads the byte after a word so far.
    pub(crate) fn continue_word(
        &mut self,
        script: &[u8],
        start: TokenStart,
        place: Place,
        b: u8,
        class: ByteClass,
    ) -> Result<LexerState, ScriptError>
        requires byte { place.byte < 2 ^ 63 }
        requires line { place.line < 2 ^ 63 + 1 }
        requires order { start.place.byte ≤ place.byte }
        requires within { place.byte ≤ length script.now }
        ensures { Takes self.old self.new result
            (spans.in_word script.now start (pending_in self.old) place b class) }
    {
        match class {
            ByteClass::Ordinary => Ok(LexerState::Word(start)),
            ByteClass::Backslash => Ok(LexerState::WordBackslash(start, place)),
            _ => self.end_word(script, false, start, place, b, class),
        }
    }

    /// Ends a word at a backslash and newline, which are a blank.
    #[inline(always)]
    pub(crate) fn end_continued(
        &mut self,
        script: &[u8],
        start: TokenStart,
        stop: Place,
        place: Place,
        b: u8,
    ) -> Result<LexerState, ScriptError>
        requires order { start.place.byte ≤ stop.byte }
        requires within { stop.byte ≤ length script.now }
        ensures { Takes self.old self.new result
            (spans.step script.now (state.WordBackslash start stop) self.old.dollars.items (pending_in self.old)
            place b byte_class.LineEnd) }
    {
        let _ = self.push_word(script, false, start, stop)?;
        Ok(LexerState::Between(Previous::Apart))
    }

    /// Reads the byte after a name so far.
    #[inline(always)]
    pub(crate) fn continue_name(
        &mut self,
        start: Place,
        place: Place,
        b: u8,
        class: ByteClass,
    ) -> Result<LexerState, ScriptError>
        requires byte { place.byte < 2 ^ 63 }
        requires line { place.line < 2 ^ 63 + 1 }
        ensures { Takes self.old self.new result
            (spans.step [] (state.Name start) self.old.dollars.items (pending_in self.old) place b class) }
    {
        if is_name_byte(b) {
            return Ok(LexerState::Name(start));
        }
        self.tokens
            .push(token_between(TokenKind::Name, start, place)?)?;
        self.begin_token(Previous::Name, place, b, class)
    }
}
