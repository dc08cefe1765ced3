//! Output of a command, as text.
ghost use Rattle.std.specs.Prelude.{◌≡◌, map, string_bytes, IfOk};
ghost use Rattle.rc_model.specs.Run.Acts.{output_text};
ghost use Rattle.rc_model.specs.Run.Lists.{split};

use crate::members::Members;
use bstr::ByteSlice;
use std::alloc::{AllocError, Global};

/// Decodes UTF-8, without NUL bytes and with U+FFFD for each invalid sequence.
#[tactic(auto, using(crate::proofs::Decoding::decoding))]
pub fn lossy(alloc: Global, bytes: &[u8]) -> Result<String, AllocError>
    ensures { IfOk result (λ text. string_bytes text ≡ output_text bytes.now) }
{
    let mut text = String::new(alloc);
    if !bytes.contains(&0) {
        bytes.to_str_lossy_into(&mut text)?;
        return Ok(text);
    }
    let kept: Vec<u8> = bytes.iter().copied().filter(|b| *b != 0).collect(alloc)?;
    kept.as_slice().to_str_lossy_into(&mut text)?;
    Ok(text)
}

/// Decodes UTF-8, without NUL bytes and with U+FFFD for each invalid sequence. If the bytes are a text without NUL,
/// none is copied.
#[tactic(auto, using(crate::proofs::Decoding::whole_text))]
pub fn into_lossy(alloc: Global, bytes: Vec<u8>) -> Result<String, AllocError>
    ensures { IfOk result (λ text. string_bytes text ≡ output_text bytes.items) }
{
    if bytes.contains(&0) {
        return lossy(alloc, &bytes);
    }
    match String::from_utf8(bytes) {
        Ok(text) => Ok(text),
        Err(error) => lossy(alloc, error.as_bytes()),
    }
}

/// Returns the longest runs of characters that are not separators.
pub fn split(alloc: Global, text: &str, separators: &str) -> Result<Vec<String>, AllocError>
    ensures { IfOk result (λ members. map string_bytes members.items ≡ split text.now separators.now) }
{
    let mut members = Members::new(alloc, text, separators)?;
    let mut texts = Vec::new(alloc);
    while let Some(member) = members.next() {
        texts.push(String::from_str(alloc, member)?)?;
    }
    Ok(texts)
}
