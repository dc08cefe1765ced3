//! Reading the parts of an image that have no command or argument inside.

ghost use Rattle.rc_tree.specs.View.{arg_tree, redir_tree, piece_tree, pieces_tree};
ghost use Rattle.rc_model.specs.Syntax.Faults.{Gives};
ghost use Rattle.rc_spelling.specs.Steps.{string_by, text_by, only_by, word_by, quoted_by, copy_by, piece_by, here_by};
ghost use Rattle.rc_spelling.specs.Steps.{slot_by, background_by, logic_by, list_by, count_from};

use crate::image_error::ImageError;
use crate::image_numbers::{count_at, count_from, first};
use rc_model::{ImageFault, InputError, Logic};
use rc_tree::{Arg, LiteralText, Piece, Redir};
use std::alloc::{AllocError, Global};

/// This many bytes, if they are a text without byte 0.
#[tactic(auto, using(crate::proofs::Strings::strings))]
fn string_at(count: usize, bytes: &[u8]) -> Result<(&str, &[u8]), ImageError>
    ensures { Gives (λ x. (x.0.now, x.1.now)) result (string_by count bytes.now) }
{
    if count > bytes.len() {
        return Err(InputError::Fault(ImageFault::BadLength));
    }
    let (front, rest) = bytes.split_at(count);
    if front.contains(&0) {
        return Err(InputError::Fault(ImageFault::BadLength));
    }
    match str::from_utf8(front) {
        Ok(text) => Ok((text, rest)),
        Err(_) => Err(InputError::Fault(ImageFault::BadLength)),
    }
}

/// A text, after its length in bytes.
#[tactic(auto, unfolding(crate::specs::Steps::text_by))]
pub(crate) fn text_at(bytes: &[u8]) -> Result<(&str, &[u8]), ImageError>
    ensures { Gives (λ x. (x.0.now, x.1.now)) result (text_by bytes.now) }
{
    let (length, rest) = count_at(b':', bytes)?;
    string_at(length, rest)
}

/// An unquoted word, which isn't empty.
#[tactic(auto, using(crate::proofs::Strings::words), unfolding(crate::specs::Steps::word_by))]
pub(crate) fn word(alloc: Global, bytes: &[u8]) -> Result<(Arg, &[u8]), ImageError>
    ensures { Gives (λ x. (arg_tree x.0, x.1.now)) result (word_by bytes.now) }
{
    let (text, rest) = text_at(bytes)?;
    if text.is_empty() {
        return Err(InputError::Fault(ImageFault::BadLength));
    }
    Ok((
        Arg::Lit {
            quoted: false,
            text: LiteralText::of(alloc, text)?,
        },
        rest,
    ))
}

/// A quoted word.
#[tactic(auto, using(rc_tree::specs::View::tree_walks), unfolding(crate::specs::Steps::quoted_by))]
pub(crate) fn quoted(alloc: Global, bytes: &[u8]) -> Result<(Arg, &[u8]), ImageError>
    ensures { Gives (λ x. (arg_tree x.0, x.1.now)) result (quoted_by bytes.now) }
{
    let (text, rest) = text_at(bytes)?;
    Ok((
        Arg::Lit {
            quoted: true,
            text: LiteralText::of(alloc, text)?,
        },
        rest,
    ))
}

/// The descriptor that a command writes to.
#[inline(always)]
#[tactic(auto, unfolding(crate::specs::Steps::slot_by))]
pub(crate) fn slot(bytes: &[u8]) -> Result<(u8, &[u8]), ImageError>
    ensures { Gives (λ x. (x.0, x.1.now)) result (slot_by bytes.now) }
{
    let (byte, rest) = first(bytes)?;
    match byte {
        b'1' => Ok((1, rest)),
        b'2' => Ok((2, rest)),
        _ => Err(InputError::Fault(ImageFault::BadTag)),
    }
}

/// This byte and no other.
#[tactic(auto, unfolding(crate::specs::Steps::only_by))]
fn only(mark: u8, bytes: &[u8]) -> Result<(u8, &[u8]), ImageError>
    ensures { Gives (λ x. (x.0, x.1.now)) result (only_by mark bytes.now) }
{
    let (byte, rest) = first(bytes)?;
    if byte == mark {
        Ok((byte, rest))
    } else {
        Err(InputError::Fault(ImageFault::BadTag))
    }
}

/// A copy of one such descriptor to the other.
#[tactic(auto, using(rc_tree::specs::View::tree_walks), unfolding(crate::specs::Steps::copy_by))]
pub(crate) fn copy(bytes: &[u8]) -> Result<(Redir, &[u8]), ImageError>
    ensures { Gives (λ x. (redir_tree x.0, x.1.now)) result (copy_by bytes.now) }
{
    let (to, rest) = first(bytes)?;
    match to {
        b'1' => {
            let (_, rest) = only(b'2', rest)?;
            Ok((Redir::Copy { to: 1, from: 2 }, rest))
        }
        b'2' => {
            let (_, rest) = only(b'1', rest)?;
            Ok((Redir::Copy { to: 2, from: 1 }, rest))
        }
        _ => Err(InputError::Fault(ImageFault::BadTag)),
    }
}

/// The mark of an item: whether it runs in the background.
#[inline(always)]
#[tactic(auto, unfolding(crate::specs::Steps::background_by))]
pub(crate) fn background(bytes: &[u8]) -> Result<(bool, &[u8]), ImageError>
    ensures { Gives (λ x. (x.0, x.1.now)) result (background_by bytes.now) }
{
    let (byte, rest) = first(bytes)?;
    match byte {
        b';' => Ok((false, rest)),
        b'&' => Ok((true, rest)),
        _ => Err(InputError::Fault(ImageFault::BadTag)),
    }
}

/// The mark of an operand: how it is joined to those before it.
#[inline(always)]
#[tactic(auto, unfolding(crate::specs::Steps::logic_by))]
pub(crate) fn logic(bytes: &[u8]) -> Result<(Logic, &[u8]), ImageError>
    ensures { Gives (λ x. (x.0, x.1.now)) result (logic_by bytes.now) }
{
    let (byte, rest) = first(bytes)?;
    match byte {
        b'&' => Ok((Logic::And, rest)),
        b'|' => Ok((Logic::Or, rest)),
        _ => Err(InputError::Fault(ImageFault::BadTag)),
    }
}

/// A piece of a here document.
#[tactic(auto, unfolding(crate::specs::Steps::piece_by))]
fn piece(alloc: Global, bytes: &[u8]) -> Result<(Piece, &[u8]), ImageError>
    ensures { Gives (λ x. (piece_tree x.0, x.1.now)) result (piece_by bytes.now) }
{
    let (byte, rest) = first(bytes)?;
    match byte {
        b't' => {
            let (text, rest) = text_at(rest)?;
            Ok((Piece::Text(String::from_str(alloc, text)?), rest))
        }
        b'v' => {
            let (name, rest) = text_at(rest)?;
            Ok((Piece::Name(String::from_str(alloc, name)?), rest))
        }
        _ => Err(InputError::Fault(ImageFault::BadTag)),
    }
}

/// Pieces of a here document.
#[tactic(auto, using(crate::proofs::Turns::lists))]
fn pieces(alloc: Global, bytes: &[u8]) -> Result<(Vec<Piece>, &[u8]), ImageError>
    ensures { Gives (λ x. (pieces_tree x.0.items, x.1.now)) result (list_by (count_from 0) piece_by bytes.now) }
{
    let (count, mut rest) = count_from(0, bytes)?;
    let mut pieces = Vec::new(alloc);
    for _ in 0..count {
        let (piece, after) = piece(alloc, rest)?;
        pieces.push(piece)?;
        rest = after;
    }
    Ok((pieces, rest))
}

/// A here document.
#[tactic(auto, using(crate::proofs::Turns::here_docs), unfolding(crate::specs::Steps::here_by))]
pub(crate) fn here(alloc: Global, bytes: &[u8]) -> Result<(Redir, &[u8]), ImageError>
    ensures { Gives (λ x. (redir_tree x.0, x.1.now)) result (here_by bytes.now) }
{
    let (pieces, rest) = pieces(alloc, bytes)?;
    Ok((Redir::Here(pieces), rest))
}
