//! The faults of a script and their places, the report on them or on its warnings, and its canonical form.
#![tactic(auto)]

mod canonical_form;
mod faults;
mod positions;
mod report;
mod verdicts;

pub use canonical_form::{Canonical, canonical_of};
pub use faults::findings::{Finding, first_fault};
pub use positions::{Position, position_of};
pub use rc_model::{FaultKind, SyntaxFault};
pub use rc_warnings::{Advice, Repair, Warning, WarningKind, warnings_of};
pub use report::{Report, report_of};
pub use verdicts::{Verdict, status_of};
