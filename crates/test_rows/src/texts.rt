//! The notation of texts. After a backslash `n` is a newline, `t` a tab, `s` a space, `0`, `1` and `2` are these bytes,
//! `f`, `e` and `c` the bytes 0xff, 0xe2 and 0xc3, and `\` is itself; and `(20*a\)` after one is 20 times `a`.

use std::alloc::{AllocError, Global};
use std::str;

/// The byte for a byte after a backslash.
fn escaped(byte: u8) -> u8 {
    match byte {
        b'n' => b'\n',
        b't' => b'\t',
        b's' => b' ',
        b'0' => 0,
        b'1' => 1,
        b'2' => 2,
        b'f' => 0xff,
        b'e' => 0xe2,
        b'c' => 0xc3,
        _ => byte,
    }
}

/// Adds a text without repetitions.
fn add(bytes: &mut Vec<u8>, written: &str) -> Result<(), AllocError> {
    let mut is_escaped = false;
    for byte in written.bytes() {
        if is_escaped {
            bytes.push(escaped(byte))?;
            is_escaped = false;
        } else if byte == b'\\' {
            is_escaped = true;
        } else {
            bytes.push(byte)?;
        }
    }
    Ok(())
}

/// The count of a repetition, starting at this number, the text that is repeated, and what follows it.
fn repetition(written: &str) -> Option<(usize, &str, &str)> {
    let (repetition, after) = written.split_once("\\)")?;
    let (times, once) = repetition.split_once('*')?;
    match times.parse::<usize>() {
        Ok(times) => Some((times, once, after)),
        Err(_) => None,
    }
}

/// Adds a text, from the number of a repetition, and returns whether it is a valid one.
fn add_repeated(bytes: &mut Vec<u8>, written: &str) -> Result<bool, AllocError> {
    let Some((times, once, after)) = repetition(written) else {
        return Ok(false);
    };
    for _ in 0..times {
        add(bytes, once)?;
    }
    add(bytes, after)?;
    Ok(true)
}

/// Adds a text, and returns whether each repetition is valid.
fn add_all(bytes: &mut Vec<u8>, written: &str) -> Result<bool, AllocError> {
    let mut parts = written.split("\\(");
    if let Some(first) = parts.next() {
        add(bytes, first)?;
    }
    for part in parts {
        if !add_repeated(bytes, part)? {
            return Ok(false);
        }
    }
    Ok(true)
}

/// Parses bytes; `None` if a repetition is not valid.
pub fn bytes(alloc: Global, written: &str) -> Result<Option<Vec<u8>>, AllocError> {
    let mut bytes = Vec::new(alloc);
    let is_well = add_all(&mut bytes, written)?;
    Ok(if is_well { Some(bytes) } else { None })
}

/// Parses a text; `None` if a repetition is not valid, or the bytes are not UTF-8.
pub fn text(alloc: Global, written: &str) -> Result<Option<String>, AllocError> {
    let Some(bytes) = bytes(alloc, written)? else {
        return Ok(None);
    };
    match str::from_utf8(&bytes) {
        Ok(text) => Ok(Some(String::from_str(alloc, text)?)),
        Err(_) => Ok(None),
    }
}

/// Parses texts with spaces between them; `None` if one is not valid. `''` is an empty one.
pub fn list(alloc: Global, written: &str) -> Result<Option<Vec<String>>, AllocError> {
    let mut list = Vec::new(alloc);
    for word in written.split_whitespace() {
        let word = if word == "''" { "" } else { word };
        let Some(text) = text(alloc, word)? else {
            return Ok(None);
        };
        list.push(text)?;
    }
    Ok(Some(list))
}
