//! How parts of a script are shown.

pub(crate) mod escaped;
