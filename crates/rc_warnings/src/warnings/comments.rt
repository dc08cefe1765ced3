//! The comments of a script that turn warnings off.

use crate::warnings::kind::{NAMES, WarningKind};
use std::alloc::{AllocError, Global};
use std::str;

/// The beginning of a comment that turns warnings off, on its line or on the line before: their names with commas or
/// blanks between them, a colon and a reason follow.
const OFF: &str = "# rccheck: off ";

/// The comments of a script that turn warnings off.
#[derive(Drop)]
pub(crate) struct Comments<'a> {
    /// What follows the beginning of the comment in each line.
    lines: Vec<Option<&'a str>>,
    /// The beginnings of the lines whose comments name no warning, or give no reason.
    wrong: Vec<usize>,
}

impl<'a> Comments<'a> {
    /// The comments of a script.
    pub(crate) fn new(alloc: Global, script: &'a [u8]) -> Result<Comments<'a>, AllocError> {
        let mut comments = Comments {
            lines: Vec::new(alloc),
            wrong: Vec::new(alloc),
        };
        if let Ok(text) = str::from_utf8(script) {
            comments.read(text)?;
        }
        Ok(comments)
    }

    /// Reads the lines of a text.
    fn read(&mut self, text: &'a str) -> Result<(), AllocError> {
        let mut place = 0usize;
        for line in text.split('\n') {
            let comment = after_off(line);
            if matches!(comment, Some(comment) if !is_right(comment)) {
                self.wrong.push(place)?;
            }
            self.lines.push(comment)?;
            place = place.saturating_add(line.len()).saturating_add(1);
        }
        Ok(())
    }

    /// The beginnings of the lines whose comments name no warning, or give no reason.
    pub(crate) fn wrong(&self) -> &[usize] {
        &self.wrong
    }

    /// Whether a warning of this kind is turned off in the line of this number, by that line or the one before.
    pub(crate) fn turn_off(&self, kind: WarningKind, line: usize) -> bool {
        self.name(kind, line) || self.name(kind, line.wrapping_sub(1))
    }

    /// Whether the line of this number names this kind.
    fn name(&self, kind: WarningKind, line: usize) -> bool {
        match self.lines.get(line.wrapping_sub(1)) {
            Some(Some(comment)) => turns_off(comment, kind),
            _ => false,
        }
    }
}

/// What follows the beginning of a comment that turns warnings off.
fn after_off(line: &str) -> Option<&str> {
    Some(line.split_once(OFF)?.1)
}

/// The names of the comment, if it gives a reason.
fn names(comment: &str) -> Option<&str> {
    let (names, reason) = comment.split_once(':')?;
    (!reason.trim().is_empty()).then_some(names)
}

/// Whether the comment turns off warnings of this kind.
fn turns_off(comment: &str, kind: WarningKind) -> bool {
    let Some(names) = names(comment) else {
        return false;
    };
    for name in names.split([' ', ',']) {
        if name == kind.name {
            return true;
        }
    }
    false
}

/// Whether the comment gives a reason, and each of its names is that of a warning.
fn is_right(comment: &str) -> bool {
    let Some(names) = names(comment) else {
        return false;
    };
    for name in names.split([' ', ',']) {
        if !name.is_empty() && !is_known(name) {
            return false;
        }
    }
    true
}

/// Whether a warning has this name.
fn is_known(name: &str) -> bool {
    for known in &NAMES {
        if name == *known {
            return true;
        }
    }
    false
}
