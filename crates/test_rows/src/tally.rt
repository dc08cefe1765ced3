//! The number of rows of a file, and which differ.

use std::alloc::AllocError;

/// The number of rows of a file that were compared, and of those that differ.
#[derive(Clone, Copy)]
pub struct Tally {
    rows: usize,
    differing: usize,
}

impl Tally {
    /// A tally before the first row.
    pub fn new() -> Tally {
        Tally {
            rows: 0,
            differing: 0,
        }
    }

    /// Counts a row that is as expected.
    pub fn add_equal(&mut self) {
        self.rows = self.rows.saturating_add(1);
    }

    /// Counts a row that differs, and writes its result in place of the expected one.
    pub fn add_differing(
        &mut self,
        out: &mut String,
        written: &str,
        came: &str,
        wanted: &str,
    ) -> Result<(), AllocError> {
        self.rows = self.rows.saturating_add(1);
        self.differing = self.differing.saturating_add(1);
        write!(out, "{written}: {came} in place of {wanted}\n")
    }

    /// Writes whether each row of the file is as expected, or how many of them differ.
    pub fn report(&self, out: &mut String, file: &str) -> Result<(), AllocError> {
        match (self.rows, self.differing) {
            (0, _) => write!(out, "{file}: no rows\n"),
            (_, 0) => write!(out, "{file}: as wanted\n"),
            (rows, differing) => write!(out, "{file}: {differing} of {rows} rows differ\n"),
        }
    }
}
