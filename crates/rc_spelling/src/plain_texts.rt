//! Texts in a spelling that is only looked at. Most of them are ASCII, which is seen byte by byte.

ghost use Rattle.std.specs.Prelude.{◌≡◌, ◌&&◌, IfSome, Ok, nat_lt};
ghost use Rattle.std.specs.List.{list_all};
ghost use Rattle.rc_spelling.specs.Steps.{text_by};

use crate::image_numbers::count_at;
use crate::leaves::text_at;

/// Whether all of these are ASCII, and none is byte 0.
#[inline(always)]
fn is_plain(bytes: &[u8]) -> bool
    ensures { result ≡ list_all (λ byte. nat_lt 0 byte && nat_lt byte 128) bytes.now }
{
    bytes.iter().all(|byte| *byte > 0 && *byte < 128)
}

/// A text of ASCII, after its length in bytes.
#[inline(always)]
#[tactic(auto, using(crate::proofs::Plain::plain), unfolding(crate::specs::Steps::text_by))]
fn plain_text(bytes: &[u8]) -> Option<(&[u8], &[u8])>
    ensures { IfSome result (λ x. text_by bytes.now ≡ Ok (x.0.now, x.1.now)) }
{
    let Ok((length, rest)) = count_at(b':', bytes) else {
        return None;
    };
    if length > rest.len() {
        return None;
    }
    let (text, after) = rest.split_at(length);
    if is_plain(text) {
        return Some((text, after));
    }
    None
}

/// Any text, after its length in bytes.
#[inline(never)]
fn any_text(bytes: &[u8]) -> Option<(&[u8], &[u8])>
    ensures { IfSome result (λ x. text_by bytes.now ≡ Ok (x.0.now, x.1.now)) }
{
    match text_at(bytes) {
        Ok((text, rest)) => Some((text.as_bytes(), rest)),
        Err(_) => None,
    }
}

/// A text, after its length in bytes, and the bytes after it.
#[inline(always)]
pub(crate) fn text_here(bytes: &[u8]) -> Option<(&[u8], &[u8])>
    ensures { IfSome result (λ x. text_by bytes.now ≡ Ok (x.0.now, x.1.now)) }
{
    match plain_text(bytes) {
        Some(found) => Some(found),
        None => any_text(bytes),
    }
}
