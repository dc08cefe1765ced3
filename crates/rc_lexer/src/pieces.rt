//! A text that comes in pieces, cut anywhere, even within a character.

ghost use Rattle.std.specs.Prelude.{◌≡◌, ◌<◌, ◌+◌, ◌^◌, ◌++◌, List, ℕ, [], length};
ghost use Rattle.std.specs.Prelude.{MatchOption, Some, None, OnErr, OnOk};
ghost use Rattle.rc_model.specs.Mirrors.Reading as reading;
ghost use Rattle.rc_lexer.specs.Reads.{HasOutcome, Finishes, HasRead, IsReading, ReadsOn, left_at};

use crate::byte_classes::class_of;
use crate::lexer_state::tokens::after_byte;
use crate::lexer_state::{LexerState, Reading};
use crate::plain::{line_end, read_plain};
use crate::{ScriptError, Token, fault};
use rc_model::{FaultKind, InputError, Place, Previous, SyntaxFault};
use std::alloc::{AllocError, Global};
use std::marker::Model;

/// Reads on to the end of the text.
fn read_on(
    reading: &mut Reading,
    text: &[u8],
    state: LexerState,
    place: Place,
) -> Result<(LexerState, Place), ScriptError>
    requires short { length text.now < 2 ^ 63 }
    requires read { HasRead text.now reading.old state place }
    ensures { ReadsOn text.now reading.new result }
{
    let mut state = state;
    let mut place = place;
    while place.byte < text.len() {
        let b = text[place.byte];
        state = reading.step(text, state, place, b, class_of(b))?;
        place = after_byte(place, b);
        match state {
            LexerState::Between(previous) => {
                (state, place) = read_plain(reading, text, previous, place)?;
            }
            LexerState::Body { start, line } => {
                place = line_end(reading, text, start, line, place);
            }
            _ => {}
        }
    }
    Ok((state, place))
}

/// Reads the one byte that is left of the text. If a text comes byte by byte, each byte costs no more than this.
fn read_last(
    reading: &mut Reading,
    text: &[u8],
    state: &mut LexerState,
    place: &mut Place,
) -> Result<(), ScriptError>
    requires short { length text.now < 2 ^ 63 }
    requires read { HasRead text.now reading.old state.old place.old }
    requires last { place.old.byte + 1 ≡ length text.now }
    ensures { ReadsOn text.now reading.new (left_at state.new place.new result) }
{
    let b = text[place.byte];
    reading.step_lightly(text, state, *place, b, class_of(b))?;
    *place = after_byte(*place, b);
    Ok(())
}

/// Reads on to the end of the text, from the state and the place where the reading is.
fn read_rest(
    reading: &mut Reading,
    text: &[u8],
    state: &mut LexerState,
    place: &mut Place,
) -> Result<(), ScriptError>
    requires short { length text.now < 2 ^ 63 }
    requires read { HasRead text.now reading.old state.old place.old }
    ensures { ReadsOn text.now reading.new (left_at state.new place.new result) }
{
    let (end_state, end) = read_on(reading, text, *state, *place)?;
    *state = end_state;
    *place = end;
    Ok(())
}

/// Reads what is left of the text, often one byte.
fn read_more(
    reading: &mut Reading,
    text: &[u8],
    state: &mut LexerState,
    place: &mut Place,
) -> Result<(), ScriptError>
    requires short { length text.now < 2 ^ 63 }
    requires read { HasRead text.now reading.old state.old place.old }
    ensures { ReadsOn text.now reading.new (left_at state.new place.new result) }
{
    if place.byte + 1 == text.len() {
        return read_last(reading, text, state, place);
    }
    read_rest(reading, text, state, place)
}

/// Discards what was read.
#[inline(never)]
fn begin_anew(reading: &mut Reading, state: &mut LexerState, place: &mut Place)
    ensures { (text : List ℕ) → HasRead text reading.new state.new place.new }
{
    *reading = Reading::new(reading.alloc);
    *state = LexerState::Between(Previous::Apart);
    *place = Place { byte: 0, line: 1 };
}

/// Adds a piece, often of one byte, to the text.
fn add(text: &mut Vec<u8>, piece: &[u8]) -> Result<(), AllocError>
    ensures ok { OnOk result (text.new.items ≡ text.old.items ++ piece.now) }
    ensures err { OnErr result (text.new.items ≡ text.old.items) }
{
    match piece {
        [b] => Ok(text.push(*b)?),
        _ => text.extend_from_slice(piece),
    }
}

/// Reads the rest of the text, which is complete.
fn finish_reading(
    reading: Reading,
    text: &[u8],
    state: LexerState,
    place: Place,
) -> Result<Vec<Token>, ScriptError>
    requires short { length text.now < 2 ^ 63 }
    requires read { HasRead text.now reading state place }
    ensures { HasOutcome text.now result }
{
    let mut reading = reading;
    let (state, place) = read_on(&mut reading, text, state, place)?;
    reading.finish(text, state, place)?;
    Ok(reading.into_tokens())
}

/// The line of the first byte 0.
fn zero_line(text: &[u8]) -> Option<usize>
    requires { length text.now < 2 ^ 63 }
    ensures { MatchOption result (reading.zero_line 1 text.now ≡ None)
        (λ line. reading.zero_line 1 text.now ≡ Some line) }
{
    if !text.contains(&0) {
        return None;
    }
    let mut line = 1usize;
    for b in text {
        if *b == 0 {
            return Some(line);
        }
        if *b == b'\n' {
            line += 1;
        }
    }
    None
}

/// Returns the tokens of a text that was read so far, or its first fault.
fn finished(
    reading: Reading,
    text: &[u8],
    state: LexerState,
    place: Place,
    found: Option<SyntaxFault>,
) -> Result<Vec<Token>, ScriptError>
    requires short { length text.now < 2 ^ 63 }
    requires read { IsReading text.now reading state place found }
    ensures { Finishes text.now result }
{
    if let Some(line) = zero_line(text) {
        return Err(fault(FaultKind::ZeroByte, line));
    }
    if let Some(found) = found {
        return Err(InputError::Fault(found));
    }
    finish_reading(reading, text, state, place)
}

/// Returns the tokens of a text that is there as a whole, or its first fault. A byte 0 is looked for first.
pub fn lex_bytes(alloc: Global, text: &[u8]) -> Result<Vec<Token>, ScriptError>
    ensures { Finishes text.now result }
{
    let state = LexerState::Between(Previous::Apart);
    let place = Place { byte: 0, line: 1 };
    finished(Reading::new(alloc), text, state, place, None)
}

/// The text so far, and what was read of it.
pub struct Pieces {
    text: Vec<u8>,
    reading: Reading,
    state: LexerState,
    place: Place,
    fault: Option<SyntaxFault>,
}

impl Drop for Pieces {
    fn drop(self) {
        let Pieces {
            text: _,
            reading: _,
            state: _,
            place: _,
            fault: _,
        } = self;
    }
}

impl Model for Pieces {
    ghost Value = { List ℕ };

    ghost view = { λ l. l.text.items };

    ghost invariant = { λ l. IsReading l.text.items l.reading l.state l.place l.fault };
}

impl Pieces {
    /// A lexer without text.
    pub fn new(alloc: Global) -> Self
        ensures { result ≡ [] }
    {
        Pieces {
            text: Vec::new(alloc),
            reading: Reading::new(alloc),
            state: LexerState::Between(Previous::Apart),
            place: Place { byte: 0, line: 1 },
            fault: None,
        }
    }

    /// Adds a piece. If memory runs out, the text stays as it was.
    pub fn feed(&mut self, piece: &[u8]) -> Result<(), AllocError>
        ensures ok { OnOk result (self.new ≡ self.old ++ piece.now) }
        ensures err { OnErr result (self.new ≡ self.old) }
    {
        let before = self.text.len();
        add(&mut self.text, piece)?;
        if self.fault.is_some() {
            return Ok(());
        }
        match read_more(
            &mut self.reading,
            self.text.as_slice(),
            &mut self.state,
            &mut self.place,
        ) {
            Ok(()) => {}
            Err(InputError::Fault(fault)) => self.fault = Some(fault),
            // What was read is discarded, and is read again with the next piece.
            Err(InputError::NoMemory) => {
                self.text.truncate(before);
                begin_anew(&mut self.reading, &mut self.state, &mut self.place);
                return Err(AllocError);
            }
        }
        Ok(())
    }

    /// Returns the text, and its tokens or its first fault. A byte 0 is looked for first.
    pub fn finish(self) -> (Vec<u8>, Result<Vec<Token>, ScriptError>)
        ensures text { result.0.items ≡ self }
        ensures tokens { Finishes self result.1 }
    {
        let Pieces {
            text,
            reading,
            state,
            place,
            fault,
        } = self;
        let tokens = finished(reading, text.as_slice(), state, place, fault);
        (text, tokens)
    }
}
