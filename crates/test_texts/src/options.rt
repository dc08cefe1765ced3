//! The options of a row, each on a line: its kind, and after a space its value.

use crate::row_error::RowError;
use crate::row_texts::text;
use std::alloc::Global;

/// The kind of an option, and its value.
pub fn cut(option: &str) -> (&str, &str) {
    option.split_once(' ').unwrap_or((option, ""))
}

/// The value of the first option of this kind, if there is one.
pub fn first<'a>(options: &'a str, wanted: &str) -> Option<&'a str> {
    for option in options.lines() {
        let (kind, said) = cut(option);
        if kind == wanted {
            return Some(said);
        }
    }
    None
}

/// Whether there is an option of this kind.
pub fn has(options: &str, wanted: &str) -> bool {
    first(options, wanted).is_some()
}

/// The values of the options of this kind.
pub fn all(alloc: Global, options: &str, wanted: &str) -> Result<Vec<String>, RowError> {
    let mut texts = Vec::new(alloc);
    for option in options.lines() {
        let (kind, said) = cut(option);
        if kind == wanted {
            texts.push(text(alloc, said)?)?;
        }
    }
    Ok(texts)
}
