//! Tokens and blanks that are read many bytes at once, as far as they end in the text.

ghost use Rattle.std.specs.Prelude.{◌≡◌, ◌<◌, ◌≤◌, ◌^◌, false, true, None, [], IfOk, length, slice_index};
ghost use Rattle.rc_model.specs.Syntax.Tokens.{is_name_char};
ghost use Rattle.rc_lexer.specs.Spans.{EndsQuoted, EndsWord, IsWhole, byte_class, in_quotes};
ghost use Rattle.rc_lexer.specs.Trie.{next_op};
ghost use Rattle.rc_lexer.specs.declared.lexer_state.LexerState.TheVariants as state;
ghost use Rattle.rc_lexer.specs.Reads.{HasRead};

use crate::TokenKind;
use crate::byte_classes::{ByteClass, class_of, is_name_byte};
use crate::lexer_state::dollars::begins_dollar_name;
use crate::lexer_state::tokens::{after_byte, token_between};
use crate::lexer_state::{LexerState, Reading, TokenStart};
use crate::operators::{Op, first_op};
use crate::previous::{after_blank, begins_name};
use rc_model::{Place, Previous};
use std::alloc::AllocError;

/// The place up to which a word goes on, and whether it ends there. At a backslash and at the end of the text what
/// follows decides that.
fn word_end(reading: &Reading, text: &[u8], start: TokenStart, place: Place) -> (Place, bool)
    requires short { length text.now < 2 ^ 63 }
    requires read { HasRead text.now reading.now (state.Word start) place }
    ensures read { HasRead text.now reading.now (state.Word start) result.0 }
    ensures on { place.byte ≤ result.0.byte }
    ensures within { result.1 ≡ true → result.0.byte < length text.now }
    ensures ends { result.1 ≡ true → EndsWord (byte_class (slice_index text.now result.0.byte)) }
{
    let mut place = place;
    while place.byte < text.len() {
        let b = text[place.byte];
        match class_of(b) {
            ByteClass::Ordinary => place = after_byte(place, b),
            ByteClass::Backslash => return (place, false),
            _ => return (place, true),
        }
    }
    (place, false)
}

/// Reads the rest of a word, and adds it if it ends in the text.
fn read_word(
    reading: &mut Reading,
    text: &[u8],
    start: TokenStart,
    place: Place,
) -> Result<(LexerState, Place), AllocError>
    requires short { length text.now < 2 ^ 63 }
    requires read { HasRead text.now reading.old (state.Word start) place }
    ensures { IfOk result (λ x. HasRead text.now reading.new x.0 x.1 × (place.byte ≤ x.1.byte)) }
{
    let (end, is_ended) = word_end(reading, text, start, place);
    if !is_ended {
        return Ok((LexerState::Word(start), end));
    }
    let after = reading.push_word(text, false, start, end)?;
    Ok((LexerState::Between(after), end))
}

/// The end of a name that has begun, if it is in the text yet.
fn name_end(reading: &Reading, text: &[u8], start: Place, place: Place) -> Place
    requires short { length text.now < 2 ^ 63 }
    requires read { HasRead text.now reading.now (state.Name start) place }
    ensures read { HasRead text.now reading.now (state.Name start) result }
    ensures on { place.byte ≤ result.byte }
    ensures ends { result.byte < length text.now → is_name_char (slice_index text.now result.byte) ≡ false }
{
    let mut place = place;
    while place.byte < text.len() {
        let b = text[place.byte];
        if !is_name_byte(b) {
            return place;
        }
        place = after_byte(place, b);
    }
    place
}

/// Reads the rest of a name, and adds it if it ends in the text.
fn read_name(
    reading: &mut Reading,
    text: &[u8],
    start: Place,
    place: Place,
) -> Result<(LexerState, Place), AllocError>
    requires short { length text.now < 2 ^ 63 }
    requires read { HasRead text.now reading.old (state.Name start) place }
    ensures { IfOk result (λ x. HasRead text.now reading.new x.0 x.1 × (place.byte ≤ x.1.byte)) }
{
    let end = name_end(reading, text, start, place);
    if end.byte >= text.len() {
        return Ok((LexerState::Name(start), end));
    }
    reading
        .tokens
        .push(token_between(TokenKind::Name, start, end)?)?;
    Ok((LexerState::Between(Previous::Name), end))
}

/// An operator that has begun, as far as the text has it, and its end.
fn operator_end(
    reading: &Reading,
    text: &[u8],
    start: TokenStart,
    op: Op,
    place: Place,
) -> (Op, Place)
    requires short { length text.now < 2 ^ 63 }
    requires read { HasRead text.now reading.now (state.Operator start op) place }
    ensures read { HasRead text.now reading.now (state.Operator start result.0) result.1 }
    ensures on { place.byte ≤ result.1.byte }
    ensures ends { result.1.byte < length text.now → next_op result.0 (slice_index text.now result.1.byte) ≡ None }
{
    let mut op = op;
    let mut place = place;
    while place.byte < text.len() {
        let b = text[place.byte];
        match op.next(b) {
            Some(next) => op = next,
            None => return (op, place),
        }
        place = after_byte(place, b);
    }
    (op, place)
}

/// Whether an operator of this kind is a token whatever stands before and after it.
fn is_whole(kind: TokenKind) -> bool
    ensures { result ≡ true → IsWhole kind }
{
    matches!(
        kind,
        TokenKind::Ampersand
            | TokenKind::AndAnd
            | TokenKind::OrOr
            | TokenKind::Bar(_)
            | TokenKind::Redirection(_, _)
            | TokenKind::CopyTo { .. }
    )
}

/// Reads the rest of an operator, and adds it if it ends in the text. A `$` is added if its name follows.
fn read_operator(
    reading: &mut Reading,
    text: &[u8],
    start: TokenStart,
    op: Op,
    place: Place,
) -> Result<(LexerState, Place), AllocError>
    requires short { length text.now < 2 ^ 63 }
    requires read { HasRead text.now reading.old (state.Operator start op) place }
    requires dollars { reading.old.dollars.items ≡ [] }
    ensures { IfOk result (λ x. HasRead text.now reading.new x.0 x.1 × (place.byte ≤ x.1.byte)) }
{
    let (op, end) = operator_end(reading, text, start, op, place);
    let unread = LexerState::Operator(start, op);
    if end.byte >= text.len() {
        return Ok((unread, end));
    }
    let Some(kind) = op.kind() else {
        return Ok((unread, end));
    };
    match kind {
        TokenKind::Dollar if begins_dollar_name(text[end.byte]) => {
            reading.push_token(start.previous, TokenKind::Dollar, start.place, end)?;
            Ok((LexerState::Between(Previous::Dollar), end))
        }
        _ if is_whole(kind) => {
            reading.tokens.push(token_between(kind, start.place, end)?)?;
            Ok((LexerState::Between(Previous::Apart), end))
        }
        _ => Ok((unread, end)),
    }
}

/// The end of a quoted word that has begun, if it is in the text yet, and whether a quote is directly before it that
/// ends the word unless another follows.
fn quoted_end(
    reading: &Reading,
    text: &[u8],
    start: TokenStart,
    is_closed: bool,
    place: Place,
) -> (bool, Place)
    requires short { length text.now < 2 ^ 63 }
    requires read { HasRead text.now reading.now (in_quotes start is_closed) place }
    ensures read { HasRead text.now reading.now (in_quotes start result.0) result.1 }
    ensures on { place.byte ≤ result.1.byte }
    ensures ends { result.1.byte < length text.now → EndsQuoted result.0 (slice_index text.now result.1.byte) }
{
    let mut is_closed = is_closed;
    let mut place = place;
    while place.byte < text.len() {
        let b = text[place.byte];
        match class_of(b) {
            ByteClass::Quote => is_closed = !is_closed,
            _ if is_closed => return (is_closed, place),
            _ => {}
        }
        place = after_byte(place, b);
    }
    (is_closed, place)
}

/// Reads the rest of a quoted word, and adds it if it ends in the text.
fn read_quoted(
    reading: &mut Reading,
    text: &[u8],
    start: TokenStart,
    place: Place,
) -> Result<(LexerState, Place), AllocError>
    requires short { length text.now < 2 ^ 63 }
    requires read { HasRead text.now reading.old (state.Quoted start) place }
    ensures { IfOk result (λ x. HasRead text.now reading.new x.0 x.1 × (place.byte ≤ x.1.byte)) }
{
    let (is_closed, end) = quoted_end(reading, text, start, false, place);
    if end.byte < text.len() {
        let after = reading.push_word(text, true, start, end)?;
        return Ok((LexerState::Between(after), end));
    }
    if is_closed {
        return Ok((LexerState::Closed(start), end));
    }
    Ok((LexerState::Quoted(start), end))
}

/// Reads the rest of a comment, up to its newline, if that is in the text yet.
fn read_comment(reading: &Reading, text: &[u8], place: Place) -> (LexerState, Place)
    requires short { length text.now < 2 ^ 63 }
    requires read { HasRead text.now reading.now state.Comment place }
    ensures read { HasRead text.now reading.now result.0 result.1 }
    ensures on { place.byte ≤ result.1.byte }
{
    let mut place = place;
    while place.byte < text.len() {
        let b = text[place.byte];
        match class_of(b) {
            ByteClass::LineEnd => return (LexerState::Between(Previous::Apart), place),
            _ => place = after_byte(place, b),
        }
    }
    (LexerState::Comment, place)
}

/// The end of a line in the body of a here document, if it is in the text yet.
pub(crate) fn line_end(
    reading: &Reading,
    text: &[u8],
    body: usize,
    line: usize,
    place: Place,
) -> Place
    requires short { length text.now < 2 ^ 63 }
    requires read { HasRead text.now reading.now (state.Body body line) place }
    ensures read { HasRead text.now reading.now (state.Body body line) result }
    ensures on { place.byte ≤ result.byte }
{
    if reading.pending.is_empty() {
        return place;
    }
    let mut place = place;
    while place.byte < text.len() {
        let b = text[place.byte];
        match class_of(b) {
            ByteClass::LineEnd => return place,
            _ => place = after_byte(place, b),
        }
    }
    place
}

/// Reads a blank, a comment or a token, as far as the text has it.
#[inline(always)]
fn read_token(
    reading: &mut Reading,
    text: &[u8],
    previous: Previous,
    place: Place,
) -> Result<(LexerState, Place), AllocError>
    requires short { length text.now < 2 ^ 63 }
    requires read { HasRead text.now reading.old (state.Between previous) place }
    requires within { place.byte < length text.now }
    ensures { IfOk result (λ x. HasRead text.now reading.new x.0 x.1 × (place.byte < x.1.byte)) }
{
    let b = text[place.byte];
    let next = after_byte(place, b);
    match class_of(b) {
        ByteClass::Blank => Ok((LexerState::Between(after_blank(previous)), next)),
        ByteClass::Alone => {
            let after = reading.push_one(previous, place, b)?;
            Ok((LexerState::Between(after), next))
        }
        ByteClass::LineEnd => {
            let state = reading.push_newline(previous, place, b)?;
            Ok((state, next))
        }
        ByteClass::Begins => {
            let start = reading.begin_operator(previous, place)?;
            read_operator(reading, text, start, first_op(b), next)
        }
        ByteClass::Ordinary if begins_name(previous, b) => read_name(reading, text, place, next),
        ByteClass::Ordinary => read_word(reading, text, TokenStart { previous, place }, next),
        ByteClass::Quote => read_quoted(reading, text, TokenStart { previous, place }, next),
        ByteClass::Hash => {
            reading.push_bare_here(previous)?;
            Ok(read_comment(reading, text, next))
        }
        ByteClass::Backslash => Ok((LexerState::Backslash(TokenStart { previous, place }), next)),
    }
}

/// Reads blanks, comments and tokens, up to one that begins with a backslash or doesn't end in the text.
pub(crate) fn read_plain(
    reading: &mut Reading,
    text: &[u8],
    previous: Previous,
    place: Place,
) -> Result<(LexerState, Place), AllocError>
    requires short { length text.now < 2 ^ 63 }
    requires read { HasRead text.now reading.old (state.Between previous) place }
    ensures { IfOk result (λ x. HasRead text.now reading.new x.0 x.1 × (place.byte ≤ x.1.byte)) }
{
    let mut previous = previous;
    let mut place = place;
    while place.byte < text.len() {
        let (state, next) = read_token(reading, text, previous, place)?;
        let LexerState::Between(after) = state else {
            return Ok((state, next));
        };
        previous = after;
        place = next;
    }
    Ok((LexerState::Between(previous), place))
}
