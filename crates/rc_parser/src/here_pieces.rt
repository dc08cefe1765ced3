//! The pieces of a here document.

ghost use Rattle.std.specs.Prelude.{◌≡◌, ◌++◌, IfOk, OnOk, string_bytes};
ghost use Rattle.std.specs.Char.{encode_utf8};
ghost use Rattle.rc_model.specs.Syntax.Tokens.{is_name_char};
ghost use Rattle.rc_model.specs.Syntax.HereDocs.{begun_after, ended_by, with_text, with_last, pieces_of};
ghost use Rattle.rc_tree.specs.View.{pieces_tree};
ghost use Rattle.rc_parser.specs.Begun.{begun_of};

use rc_text::{first_char, is_name_char};
use rc_tree::Piece;
use std::alloc::{AllocError, Global};

/// What has begun: a text, a text with a `$` after it, or a name.
#[derive(Drop)]
pub(crate) enum Begun {
    Plain(String),
    Dollar(String),
    Naming(String),
}

/// The pieces of a body, whose mark is quoted or not.
#[tactic(auto, using(crate::proofs::Pieces::pieces))]
pub(crate) fn pieces(alloc: Global, quoted: bool, body: &str) -> Result<Vec<Piece>, AllocError>
    ensures { IfOk result (λ v. pieces_tree v.items ≡ pieces_of quoted body.now) }
{
    let mut pieces = Vec::new(alloc);
    if quoted {
        let mut text = String::new(alloc);
        text.push_str(body)?;
        push_text(&mut pieces, text)?;
        return Ok(pieces);
    }
    let mut begun = Begun::Plain(String::new(alloc));
    let mut rest = body;
    while let Some((c, after)) = first_char(rest) {
        begun = next(alloc, &mut pieces, begun, c)?;
        rest = after;
    }
    finish(&mut pieces, begun)?;
    Ok(pieces)
}

/// A text with one more character.
fn with_char(mut text: String, c: char) -> Result<String, AllocError>
    ensures { IfOk result (λ s. string_bytes s ≡ string_bytes text ++ encode_utf8 c) }
{
    text.push(c)?;
    Ok(text)
}

/// What has begun after one more character. A piece that it ends is pushed.
#[tactic(auto, using(rc_tree::specs::View::tree_lists))]
fn next(alloc: Global, pieces: &mut Vec<Piece>, begun: Begun, c: char) -> Result<Begun, AllocError>
    ensures begun { IfOk result (λ b. begun_of b ≡ begun_after (begun_of begun) c) }
    ensures pieces { OnOk result (pieces_tree pieces.new.items
        ≡ ended_by (begun_of begun) c (pieces_tree pieces.old.items)) }
{
    match begun {
        Begun::Plain(text) => {
            if c == '$' {
                return Ok(Begun::Dollar(text));
            }
            Ok(Begun::Plain(with_char(text, c)?))
        }
        Begun::Dollar(text) => {
            if is_name_char(c) {
                push_text(pieces, text)?;
                return Ok(Begun::Naming(with_char(String::new(alloc), c)?));
            }
            let text = with_char(text, '$')?;
            if c == '$' {
                return Ok(Begun::Plain(text));
            }
            Ok(Begun::Plain(with_char(text, c)?))
        }
        Begun::Naming(name) => {
            if is_name_char(c) {
                return Ok(Begun::Naming(with_char(name, c)?));
            }
            pieces.push(Piece::Name(name))?;
            let text = String::new(alloc);
            if c == '^' {
                return Ok(Begun::Plain(text));
            }
            if c == '$' {
                return Ok(Begun::Dollar(text));
            }
            Ok(Begun::Plain(with_char(text, c)?))
        }
    }
}

/// Adds a text as a piece, unless it is empty.
#[tactic(auto, using(crate::proofs::Pieces::texts))]
fn push_text(pieces: &mut Vec<Piece>, text: String) -> Result<(), AllocError>
    ensures { OnOk result (pieces_tree pieces.new.items
        ≡ with_text (pieces_tree pieces.old.items) (string_bytes text)) }
{
    if text.len() != 0 {
        pieces.push(Piece::Text(text))?;
    }
    Ok(())
}

/// Adds the last piece.
#[tactic(auto, using(rc_tree::specs::View::tree_lists))]
fn finish(pieces: &mut Vec<Piece>, begun: Begun) -> Result<(), AllocError>
    ensures { OnOk result (pieces_tree pieces.new.items ≡ with_last (begun_of begun) (pieces_tree pieces.old.items)) }
{
    match begun {
        Begun::Plain(text) => push_text(pieces, text),
        Begun::Dollar(text) => {
            let text = with_char(text, '$')?;
            push_text(pieces, text)
        }
        Begun::Naming(name) => {
            pieces.push(Piece::Name(name))?;
            Ok(())
        }
    }
}
