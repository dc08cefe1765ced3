//! A part of a script as it is shown: what would act on a terminal, or isn't to be seen, is escaped.

use std::alloc::AllocError;

/// Appends a part of a script. Control characters other than tabs, marks of direction and characters without width are
/// written as `\u{202e}`, and bytes that are not UTF-8 as `\xff`.
pub fn push_escaped(out: &mut String, part: &[u8]) -> Result<(), AllocError> {
    for chunk in part.utf8_chunks() {
        for character in chunk.valid().chars() {
            push_character(out, character)?;
        }
        for byte in chunk.invalid() {
            write!(out, "\\x{byte:02x}")?;
        }
    }
    Ok(())
}

fn push_character(out: &mut String, character: char) -> Result<(), AllocError> {
    if is_shown(character) {
        return out.push(character);
    }
    let code = u32::from(character);
    write!(out, "\\u{{{code:x}}}")
}

/// Whether a character is shown as it is.
fn is_shown(character: char) -> bool {
    !matches!(
        character,
        '\0'..='\x08'
            | '\n'..='\x1f'
            | '\x7f'..='\u{9f}'
            | '\u{ad}'
            | '\u{61c}'
            | '\u{200b}'..='\u{200f}'
            | '\u{2028}'..='\u{202e}'
            | '\u{2060}'..='\u{206f}'
            | '\u{feff}'
    )
}
