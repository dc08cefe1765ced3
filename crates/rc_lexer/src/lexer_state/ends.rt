//! The end of a text, and the bodies of here documents in their tokens.

ghost use Rattle.std.specs.Prelude.{◌≡◌, ◌<◌, ◌≤◌, ◌+◌, ◌^◌, ℕ, List, ◌∷◌, map, false, length};
ghost use Rattle.rc_model.specs.Syntax.Tokens as model;
ghost use Rattle.rc_lexer.specs.Spans as spans;
ghost use Rattle.rc_lexer.specs.SpanLaws.{Stands};
ghost use Rattle.rc_lexer.specs.Views.{slice_at, token_of, tokens_of};
ghost use Rattle.rc_lexer.specs.Ends as ends;
ghost use Rattle.rc_lexer.specs.Ends.{Ends, IsClosed};
ghost use Rattle.rc_lexer.specs.Machine.{dollars_in, pending_in};
ghost use Rattle.rc_lexer.specs.declared.lexer_state.LexerState.TheVariants as state;

use crate::lexer_state::tokens::{span_between, token_between};
use crate::lexer_state::{LexerState, Reading, TokenStart};
use crate::previous::meaning_after;
use crate::{ScriptError, Span, Token, TokenKind, fault};
use rc_model::{FaultKind, Place};

/// Gives the token the next body, if it is a here document, and returns the bodies after that.
fn with_body(token: Token, bodies: &[Span]) -> (Token, &[Span])
    ensures { (script : List ℕ) (ts : List model.Token) →
        model.filled (token_of script token ∷ ts) (map (slice_at script) bodies.now)
        ≡ token_of script result.0 ∷ model.filled ts (map (slice_at script) result.1.now) }
{
    let TokenKind::HereDoc { is_quoted, .. } = token.kind else {
        return (token, bodies);
    };
    let Some((body, rest)) = bodies.split_first() else {
        return (token, bodies);
    };
    let kind = TokenKind::HereDoc {
        is_quoted,
        body: *body,
    };
    let token = Token {
        kind,
        span: token.span,
        line: token.line,
    };
    (token, rest)
}

/// Gives each here document the next body.
fn fill_bodies(tokens: &mut [Token], bodies: &[Span])
    ensures { (script : List ℕ) → tokens_of script tokens.new
        ≡ model.filled (tokens_of script tokens.old) (map (slice_at script) bodies.now) }
{
    if bodies.is_empty() {
        return;
    }
    let mut left = bodies;
    for token in tokens.iter_mut() {
        let (filled, rest) = with_body(*token, left);
        *token = filled;
        left = rest;
    }
}

impl Reading {
    /// Fails if a here document still has no body.
    fn expect_none_pending(&self) -> Result<(), ScriptError>
        ensures { IsClosed (pending_in self.now) result }
    {
        match self.pending.front() {
            None => Ok(()),
            Some(first) => Err(fault(FaultKind::OpenHere, first.line)),
        }
    }

    /// Ends the text after a word.
    fn finish_word(
        &mut self,
        script: &[u8],
        quoted: bool,
        start: TokenStart,
        place: Place,
    ) -> Result<(), ScriptError>
        requires order { start.place.byte ≤ place.byte }
        requires within { place.byte ≤ length script.now }
        ensures { Ends self.old self.new result (ends.ended quoted script.now start (pending_in self.old) place) }
    {
        let _ = self.push_word(script, quoted, start, place)?;
        self.expect_none_pending()
    }

    /// Ends the text after an operator.
    fn finish_operator(
        &mut self,
        start: TokenStart,
        kind: Option<TokenKind>,
        place: Place,
    ) -> Result<(), ScriptError>
        ensures { Ends self.old self.new result
            (ends.finish_operator start self.old.dollars.items kind (pending_in self.old) place) }
    {
        let Some(kind) = kind else {
            return Err(fault(FaultKind::BadDescriptor, start.place.line));
        };
        let meaning = meaning_after(start.previous, kind);
        self.push_bare_dollars()?;
        self.push_token(start.previous, meaning, start.place, place)?;
        self.expect_none_pending()
    }

    /// Ends the text in a body, whose last line is the mark, if there is one.
    fn finish_body(
        &mut self,
        script: &[u8],
        body: usize,
        line: usize,
        place: Place,
    ) -> Result<(), ScriptError>
        requires order { line ≤ place.byte }
        requires within { place.byte ≤ length script.now }
        ensures { Ends self.old self.new result
            (ends.finish script.now (state.Body body line) self.old.dollars.items (pending_in self.old) place) }
    {
        let Some(first) = self.pending.front() else {
            return Ok(());
        };
        let last = &script[line..place.byte];
        if last.is_empty() || last != first.mark.as_slice() {
            return Err(fault(FaultKind::OpenHere, first.line));
        }
        self.bodies.push(span_between(body, line)?)?;
        let _ = self.pending.pop_front();
        self.expect_none_pending()
    }

    /// Ends the text in this state.
    pub(crate) fn finish(
        &mut self,
        script: &[u8],
        state: LexerState,
        place: Place,
    ) -> Result<(), ScriptError>
        requires stands { Stands script.now place.byte state }
        requires within { place.byte ≤ length script.now }
        ensures { Ends self.old self.new result
            (ends.finish script.now state (dollars_in state self.old) (pending_in self.old) place) }
    {
        match state {
            LexerState::Between(previous) => {
                self.push_bare_here(previous)?;
                self.expect_none_pending()
            }
            LexerState::Comment => self.expect_none_pending(),
            LexerState::Backslash(start) | LexerState::Word(start) => self.finish_word(
                script, false, start, place,
            ),
            LexerState::WordBackslash(start, _) => self.finish_word(script, false, start, place),
            LexerState::Name(start) => {
                self.tokens
                    .push(token_between(TokenKind::Name, start, place)?)?;
                self.expect_none_pending()
            }
            LexerState::Quoted(start) => Err(fault(FaultKind::OpenQuote, start.place.line)),
            LexerState::Closed(start) => self.finish_word(script, true, start, place),
            LexerState::Operator(start, op) => self.finish_operator(start, op.kind(), place),
            LexerState::Body { start, line } => self.finish_body(script, start, line, place),
        }
    }

    /// Returns the tokens, with the bodies of the here documents.
    pub(crate) fn into_tokens(self) -> Vec<Token>
        ensures { (script : List ℕ) → tokens_of script result.items
            ≡ model.filled (tokens_of script self.tokens.items) (map (slice_at script) self.bodies.items) }
    {
        let Reading {
            alloc: _,
            mut tokens,
            dollars: _,
            bodies,
            pending: _,
        } = self;
        fill_bodies(tokens.as_mut_slice(), bodies.as_slice());
        tokens
    }
}
