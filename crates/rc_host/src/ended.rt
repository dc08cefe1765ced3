//! Texts in a sequence, each terminated by a byte 0.
ghost use Rattle.std.specs.Prelude.{◌≡◌, ◌==◌, ◌++◌, ◌∷◌, [], IfOk, OnOk, MatchOption, count_by, map, string_bytes};
ghost use Rattle.rc_host.specs.Names.{named, entered, kept, ended_from};

use bstr::ByteSlice;
use std::alloc::AllocError;
use std::str;

/// The sort of the texts.
#[derive(Clone, Copy)]
pub(crate) enum Sort {
    /// The names of files.
    Names,
    /// The entries of an environment.
    Entries,
}

/// Adds the texts in the bytes that are of use, and returns how many there are in all. A name that is `.`, `..` or no
/// UTF-8 is of no use, nor is an entry that is no UTF-8.
pub(crate) fn push_ended(
    texts: &mut Vec<String>,
    bytes: &[u8],
    sort: Sort,
) -> Result<usize, AllocError>
    ensures kept { OnOk result (map string_bytes texts.new.items
        ≡ map string_bytes texts.old.items ++ ended_from sort [] bytes.now) }
    ensures count { IfOk result (λ count. count ≡ count_by (λ byte. byte == 0) bytes.now) }
{
    let mut rest = bytes;
    let mut count = 0usize;
    while let Some(length) = rest.find_byte(0) {
        push_kept(texts, &rest[..length], sort)?;
        rest = &rest[length + 1..];
        count += 1;
    }
    Ok(count)
}

/// Adds the text, if it is of use.
fn push_kept(texts: &mut Vec<String>, bytes: &[u8], sort: Sort) -> Result<(), AllocError>
    ensures { OnOk result (map string_bytes texts.new.items
        ≡ map string_bytes texts.old.items ++ kept sort bytes.now) }
{
    let Some(text) = kept_text(bytes, sort) else {
        return Ok(());
    };
    let text = String::from_str(*texts.allocator(), text)?;
    texts.push(text)?;
    Ok(())
}

/// The text, if it is of use.
fn kept_text(bytes: &[u8], sort: Sort) -> Option<&str>
    ensures { MatchOption result (kept sort bytes.now ≡ []) (λ text. kept sort bytes.now ≡ text.now ∷ []) }
{
    match sort {
        Sort::Names => file_name(bytes),
        Sort::Entries => entry_text(bytes),
    }
}

/// The name of a file; none if it is not UTF-8, and for `.` and `..`.
fn file_name(name: &[u8]) -> Option<&str>
    ensures { MatchOption result (named name.now ≡ []) (λ text. named name.now ≡ text.now ∷ []) }
{
    let Ok(text) = str::from_utf8(name) else {
        return None;
    };
    if text == "." || text == ".." {
        return None;
    }
    Some(text)
}

/// The entry of an environment; none if it is not UTF-8.
fn entry_text(entry: &[u8]) -> Option<&str>
    ensures { MatchOption result (entered entry.now ≡ []) (λ text. entered entry.now ≡ text.now ∷ []) }
{
    let Ok(text) = str::from_utf8(entry) else {
        return None;
    };
    Some(text)
}
