//! `$`s whose name is still to come, and the ends of operators.

ghost use Rattle.std.specs.Prelude.{◌||◌, ◌==◌, ◌≡◌, ◌<◌, ◌≤◌, ◌+◌, ◌^◌, ◌++◌, [], OnOk};
ghost use Rattle.rc_model.specs.Syntax.Tokens as model;
ghost use Rattle.rc_lexer.specs.Spans as spans;
ghost use Rattle.rc_lexer.specs.Trie.{next_op};
ghost use Rattle.rc_lexer.specs.Machine.{PushedDollars, Takes, pending_in};

use crate::byte_classes::{ByteClass, is_name_byte};
use crate::lexer_state::tokens::token_between;
use crate::lexer_state::{LexerState, Reading, TokenStart};
use crate::operators::Op;
use crate::previous::{after_token, meaning_after};
use crate::{ScriptError, Token, TokenKind, fault};
use rc_model::{FaultKind, Place, Previous};
use std::alloc::AllocError;

/// Whether the name of `$`s begins with the byte, quoted or not.
pub(crate) fn begins_dollar_name(b: u8) -> bool
    ensures { result ≡ (model.is_name_char b || (b == 39)) }
{
    is_name_byte(b) || b == b'\''
}

/// Adds the `$`s to the tokens, as bare ones.
#[inline(always)]
fn push_as_bare(tokens: &mut Vec<Token>, dollars: &[Token]) -> Result<(), AllocError>
    ensures { OnOk result (tokens.new.items ≡ tokens.old.items ++ spans.bare dollars.now) }
{
    for dollar in dollars {
        tokens.push(Token {
            kind: TokenKind::BareDollar,
            span: dollar.span,
            line: dollar.line,
        })?;
    }
    Ok(())
}

impl Reading {
    /// Ends `$`s that have no name.
    #[inline(always)]
    pub(crate) fn push_bare_dollars(&mut self) -> Result<(), AllocError>
        ensures { OnOk result (PushedDollars spans.bare self.old self.new) }
    {
        push_as_bare(&mut self.tokens, self.dollars.as_slice())?;
        self.dollars.clear();
        Ok(())
    }

    /// Ends `$`s that have a name.
    fn push_named_dollars(&mut self) -> Result<(), AllocError>
        ensures { OnOk result (PushedDollars (λ dollars. dollars) self.old self.new) }
    {
        self.tokens.extend_from_slice(self.dollars.as_slice())?;
        self.dollars.clear();
        Ok(())
    }

    /// Reads the byte after `$`s whose name is still to come.
    pub(crate) fn continue_dollars(
        &mut self,
        place: Place,
        b: u8,
        class: ByteClass,
    ) -> Result<LexerState, ScriptError>
        requires byte { place.byte < 2 ^ 63 }
        requires line { place.line < 2 ^ 63 + 1 }
        ensures { Takes self.old self.new result
            (spans.after_dollars self.old.dollars.items (pending_in self.old) place b class) }
    {
        if begins_dollar_name(b) {
            self.push_named_dollars()?;
            return self.begin_token(Previous::Dollar, place, b, class);
        }
        if b == b'$' {
            return Ok(LexerState::Operator(
                TokenStart {
                    previous: Previous::Dollar,
                    place,
                },
                Op::Dollar0,
            ));
        }
        self.push_bare_dollars()?;
        self.begin_token(Previous::Apart, place, b, class)
    }

    /// Ends an operator at the byte after it.
    #[inline(always)]
    pub(crate) fn end_operator(
        &mut self,
        start: TokenStart,
        kind: Option<TokenKind>,
        place: Place,
        b: u8,
        class: ByteClass,
    ) -> Result<LexerState, ScriptError>
        requires byte { place.byte < 2 ^ 63 }
        requires line { place.line < 2 ^ 63 + 1 }
        ensures { Takes self.old self.new result
            (spans.end_operator start self.old.dollars.items kind (pending_in self.old) place b class) }
    {
        let TokenStart {
            previous,
            place: first,
        } = start;
        let Some(kind) = kind else {
            return Err(fault(FaultKind::BadDescriptor, first.line));
        };
        match kind {
            TokenKind::BareHere => self.begin_token(Previous::Here(first, place), place, b, class),
            TokenKind::Dollar => {
                self.push_caret(previous, TokenKind::Dollar, first)?;
                self.dollars.push(token_between(kind, first, place)?)?;
                self.continue_dollars(place, b, class)
            }
            TokenKind::DollarCount | TokenKind::DollarFlat => {
                self.push_caret(previous, TokenKind::Dollar, first)?;
                self.push_bare_dollars()?;
                self.dollars.push(token_between(kind, first, place)?)?;
                self.continue_dollars(place, b, class)
            }
            _ => {
                let meaning = meaning_after(previous, kind);
                self.push_token(previous, meaning, first, place)?;
                self.begin_token(after_token(previous, meaning), place, b, class)
            }
        }
    }

    /// Reads the byte after an operator so far.
    #[inline(always)]
    pub(crate) fn continue_operator(
        &mut self,
        start: TokenStart,
        op: Op,
        place: Place,
        b: u8,
        class: ByteClass,
    ) -> Result<LexerState, ScriptError>
        requires byte { place.byte < 2 ^ 63 }
        requires line { place.line < 2 ^ 63 + 1 }
        ensures { Takes self.old self.new result
            (spans.in_operator start op self.old.dollars.items (next_op op b) (pending_in self.old) place b class) }
    {
        if let Some(next) = op.next(b) {
            return Ok(LexerState::Operator(start, next));
        }
        self.end_operator(start, op.kind(), place, b, class)
    }
}
