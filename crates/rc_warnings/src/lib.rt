//! What is seldom meant: warnings for accepted scripts, and the probable causes of refused ones. Both go by tokens.
#![tactic(auto)]

mod bytes;
mod causes;
mod foreign;
mod lexed;
mod rules;
mod shown;
mod warnings;

pub use causes::advice::Advice;
pub use causes::advising::advice_at;
pub use shown::escaped::push_escaped;
pub use warnings::kind::WarningKind;
pub use warnings::repair::Repair;
pub use warnings::walk::{MOST_WARNINGS, warnings_in, warnings_of};
pub use warnings::warning::Warning;
