//! Finding bytes in a text.

/// The place of the first byte of a text that is one of these.
pub(crate) fn find_any(text: &[u8], sought: &[u8]) -> Option<usize> {
    for (place, byte) in text.iter().enumerate() {
        if sought.contains(byte) {
            return Some(place);
        }
    }
    None
}

/// Whether a text has one of these bytes.
pub(crate) fn has_any(text: &[u8], sought: &[u8]) -> bool {
    find_any(text, sought).is_some()
}

/// Whether each byte of a text is one of these, or a letter or a digit.
pub(crate) fn is_plain(text: &[u8], others: &[u8]) -> bool {
    for byte in text {
        if !byte.is_ascii_alphanumeric() && !others.contains(byte) {
            return false;
        }
    }
    true
}

/// Whether a text is of digits alone, and not empty.
pub(crate) fn is_number(text: &[u8]) -> bool {
    for byte in text {
        if !byte.is_ascii_digit() {
            return false;
        }
    }
    !text.is_empty()
}

/// The place of these bytes in a text, where they first stand.
pub(crate) fn find(text: &[u8], sought: &[u8]) -> Option<usize> {
    for place in 0..text.len() {
        if text[place..].starts_with(sought) {
            return Some(place);
        }
    }
    None
}

/// Whether a text has these bytes.
pub(crate) fn has(text: &[u8], sought: &[u8]) -> bool {
    find(text, sought).is_some()
}

/// The text before the first byte that is one of these, or all of it.
pub(crate) fn before<'a>(text: &'a [u8], ends: &[u8]) -> &'a [u8] {
    let length = find_any(text, ends).unwrap_or(text.len());
    &text[..length.min(text.len())]
}

/// The text after this place.
pub(crate) fn after(text: &[u8], place: usize) -> &[u8] {
    text.get(place..).unwrap_or(b"")
}
