//! A warning.

use crate::warnings::kind::WarningKind;
use crate::warnings::repair::Repair;

/// A warning, with the byte of the script where it is.
#[derive(Clone, Copy)]
pub struct Warning {
    pub kind: WarningKind,
    pub place: usize,
    /// The line whose comment, or that before, turns it off.
    pub(crate) line: usize,
    /// What to write in its place.
    pub repair: Repair,
}
