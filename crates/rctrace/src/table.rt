//! The table of the runs in which a call was refused.

use std::fmt;

/// The titles of the table.
pub(crate) const TITLES: &str = "  call status output  files   refused";

/// What a `!` in the table means.
pub(crate) const LEGEND: &str =
    "! ended with status 0, but with other output or files than without a refusal";

/// What a run with a call refused has come to.
#[derive(Drop)]
pub(crate) struct Outcome {
    pub(crate) number: usize,
    /// The call that was refused.
    pub(crate) call: String,
    /// How the script ended.
    pub(crate) status: String,
    /// Whether the output is that of the run without a refusal.
    pub(crate) same_output: bool,
    /// Whether the files are those of that run.
    pub(crate) same_files: bool,
    /// The files that are there in place of none.
    pub(crate) left: Vec<String>,
}

impl Outcome {
    /// Whether the script ended as if all had gone well, but has done something else.
    pub(crate) fn is_silent(&self) -> bool {
        self.status.as_str() == "0" && !(self.same_output && self.same_files)
    }
}

impl fmt::Display for Outcome {
    fn fmt<W: fmt::Write>(&self, f: &mut fmt::Formatter<W>) -> fmt::Result {
        let mark = if self.is_silent() { "!" } else { " " };
        let (number, status) = (self.number, self.status.as_str());
        let (output, files) = (compared(self.same_output), compared(self.same_files));
        let call = self.call.as_str();
        write!(
            f,
            "{mark} {number:>4} {status:>6} {output:<7} {files:<7} {call}"
        )?;
        if self.left.is_empty() {
            return Ok(());
        }
        f.write_str("; leaves")?;
        for name in &self.left {
            write!(f, " {name}")?;
        }
        Ok(())
    }
}

fn compared(is_same: bool) -> &'static str {
    if is_same { "same" } else { "differs" }
}

/// The file that is only in the second directory, if a line of diff(1) says so.
pub(crate) fn only_in<'a>(line: &'a str, directory: &str) -> Option<(&'a str, &'a str)> {
    let (inside, name) = line
        .strip_prefix("Only in ")?
        .strip_prefix(directory)?
        .split_once(": ")?;
    Some((inside, name))
}
