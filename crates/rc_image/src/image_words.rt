//! Reading images from their words.

ghost use Rattle.std.specs.Prelude.{◌≡◌, ◌∷◌, IfOk, map, min, ◌-◌, ◌^◌, string_bytes};
ghost use Rattle.std.specs.List.{concat};
ghost use Rattle.std.specs.Str.{bytes_eq};
ghost use Rattle.std.specs.Cmp.Lexicographic.{pointwise};
ghost use Rattle.rc_model.specs.Run.Numbers.{digits_value};
ghost use Rattle.rc_model.specs.Handed.WordsReading.{read_pieces};
ghost use Rattle.rc_tree.specs.View.{cmd_tree};
ghost use Rattle.rc_model.specs.Syntax.Faults.{Gives};
ghost use Rattle.rc_image.specs.Images.{in_one, in_pieces};

use crate::beginning::{MARK, PIECES_MARK, beginning_fault};
use crate::image_pieces::words_of;
use crate::{ImageError, ImageFault, InputError, read_boxed};
use rc_model::limits::LONGEST_ARGUMENT;
use rc_spelling::read_spelling;
use rc_tree::Cmd;
use std::alloc::{AllocError, Global};

/// The number with these digits, or the greatest one if it is too large.
fn claimed(digits: &[u8]) -> usize
    ensures { result ≡ min (digits_value 0 digits.now) (2 ^ 64 - 1) }
{
    let mut number: usize = 0;
    for digit in digits {
        number = number
            .saturating_mul(10)
            .saturating_add(digit.saturating_sub(b'0') as usize);
    }
    number
}

/// Joins the texts.
fn joined(alloc: Global, texts: &[String]) -> Result<String, AllocError>
    ensures { IfOk result (λ text. string_bytes text ≡ concat (map string_bytes texts.now)) }
{
    let mut all = String::new(alloc);
    for text in texts {
        all.push_str(text)?;
    }
    Ok(all)
}

/// Whether the words are this one and these pieces.
#[tactic(auto, using(crate::proofs::Claims::these))]
fn are_these(words: &[String], first: &str, pieces: &[String]) -> bool
    ensures { result ≡ pointwise bytes_eq (map string_bytes words.now) (first.now ∷ map string_bytes pieces.now) }
{
    match words.split_first() {
        Some((word, others)) => word.as_str() == first && others == pieces,
        None => false,
    }
}

/// The tree of an image in one word.
#[tactic(auto, using(crate::proofs::Claims::ones))]
fn read_one(alloc: Global, word: &str) -> Result<(Box<Cmd>, usize), ImageError>
    ensures { Gives (λ x. (cmd_tree x.0.value, x.1)) result (in_one word.now) }
{
    if word.len() > LONGEST_ARGUMENT {
        return Err(InputError::Fault(ImageFault::BadLength));
    }
    Ok((read_boxed(alloc, word)?, 1))
}

/// The tree of an image in pieces. Its words must be those in which it would be written.
#[tactic(auto, using(crate::proofs::Claims::severals))]
fn read_several(
    alloc: Global,
    first: &str,
    pieces: &[String],
) -> Result<(Box<Cmd>, usize), ImageError>
    ensures { Gives (λ x. (cmd_tree x.0.value, x.1)) result (in_pieces first.now (map string_bytes pieces.now)) }
{
    let spelling = joined(alloc, pieces)?;
    match words_of(alloc, &spelling) {
        Ok(words) if are_these(&words, first, pieces) => {
            Ok((read_spelling(alloc, spelling.as_bytes())?, pieces.len() + 1))
        }
        Err(InputError::NoMemory) => Err(InputError::NoMemory),
        _ => Err(InputError::Fault(ImageFault::BadLength)),
    }
}

/// The tree of the first of these words, in a box, and how many of them it takes.
#[tactic(auto, using(std::proofs::lemmas::Grind::common_steps))]
pub(crate) fn read_words(alloc: Global, words: &[String]) -> Result<(Box<Cmd>, usize), ImageError>
    ensures { Gives (λ x. (cmd_tree x.0.value, x.1)) result (read_pieces (map string_bytes words.now)) }
{
    let Some((first, rest)) = words.split_first() else {
        return Err(InputError::Fault(ImageFault::BadTag));
    };
    if first.starts_with(MARK) {
        return read_one(alloc, first);
    }
    let Some(digits) = first.strip_prefix(PIECES_MARK) else {
        return Err(InputError::Fault(beginning_fault(first)));
    };
    let count = claimed(digits.as_bytes()).min(rest.len());
    let (pieces, _) = rest.split_at(count);
    read_several(alloc, first, pieces)
}

/// The tree of the first of these words, and how many of them it takes.
#[tactic(auto, using(std::proofs::lemmas::Grind::common_steps))]
pub fn read_pieces(alloc: Global, words: &[String]) -> Result<(Cmd, usize), ImageError>
    ensures { Gives (λ x. (cmd_tree x.0, x.1)) result (read_pieces (map string_bytes words.now)) }
{
    let (cmd, taken) = read_words(alloc, words)?;
    Ok((Box::into_inner(cmd), taken))
}
