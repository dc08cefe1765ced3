//! The fault of a script: its place, and what was probably meant.

pub(crate) mod findings;
pub(crate) mod line_faults;
pub(crate) mod places;
