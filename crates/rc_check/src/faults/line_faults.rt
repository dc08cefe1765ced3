//! The places of faults that a script has before it has tokens. Only their lines are known: each is looked for on its
//! line.

use std::str;

/// The spellings of a descriptor after an operator, from the operator's last character.
const DESCRIPTORS: [&str; 7] = ["|[1]", "|[2]", ">[1]", ">[2]", ">[1=2]", ">[2=1]", "<[0]"];

/// The fault that is looked for on a line.
#[derive(Clone, Copy)]
pub(crate) enum Sought {
    /// An operator with a descriptor that isn't in the language.
    BadDescriptor,
    HereDoc,
}

impl Sought {
    /// Whether it is at the beginning of this text.
    fn begins(self, text: &[u8]) -> bool {
        match self {
            Sought::BadDescriptor => has_bad_descriptor(text),
            Sought::HereDoc => text.starts_with(b"<<"),
        }
    }
}

/// Whether a text begins with the end of an operator and a `[` that begins no descriptor of the language.
fn has_bad_descriptor(text: &[u8]) -> bool {
    if !matches!(text, [b'|' | b'>' | b'<', b'[', ..]) {
        return false;
    }
    for descriptor in DESCRIPTORS {
        if text.starts_with(descriptor.as_bytes()) {
            return false;
        }
    }
    true
}

/// The first place of the fault on the line of this number, or the end of the text.
pub(crate) fn first_on_line(text: &[u8], line: usize, sought: Sought) -> usize {
    let mut number = 1usize;
    for (place, byte) in text.iter().enumerate() {
        if number == line && sought.begins(&text[place..]) {
            return place;
        }
        if *byte == b'\n' {
            number = number.saturating_add(1);
        }
    }
    text.len()
}

/// The place of the quote that is open at the end of a text: the first one of its last run of odd length, since a run
/// of even length is inside a quoted word or is one.
pub(crate) fn open_quote(text: &[u8]) -> usize {
    let mut place = text.len();
    // the number of quotes directly before the byte
    let mut run = 0usize;
    for (at, byte) in text.iter().enumerate() {
        if *byte == b'\'' {
            run = run.saturating_add(1);
        } else {
            place = if run % 2 == 1 {
                at.saturating_sub(run)
            } else {
                place
            };
            run = 0;
        }
    }
    if run % 2 == 1 {
        text.len().saturating_sub(run)
    } else {
        place
    }
}

/// The place of the first byte 0, or the end of the text.
pub(crate) fn zero_byte(text: &[u8]) -> usize {
    text.iter()
        .position(|byte| *byte == 0)
        .unwrap_or(text.len())
}

/// The number of bytes from the start that are UTF-8.
pub(crate) fn valid_length(text: &[u8]) -> usize {
    match str::from_utf8(text) {
        Ok(_) => text.len(),
        Err(error) => error.valid_up_to(),
    }
}
