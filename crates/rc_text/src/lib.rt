//! Texts, words and lists of words.
#![tactic(auto)]

mod characters;
mod members;
mod numbers;
mod output;
mod selection;
mod texts;
mod values;
mod words;

pub use characters::{first_char, is_name_char};
pub use members::{Members, Output};
pub use numbers::number_of;
pub use output::{into_lossy, lossy, split};
pub use rc_model::InputError;
pub use selection::select;
pub use texts::Text;
pub use values::{flat, is_true};
pub use words::concatenation::{concat, concat_words};
pub use words::lists::{List, count, spaced_unmarked};
pub use words::literal::{Ch, Literal, any_pattern};
pub use words::quoting::{push_quoted, quote, unquote};
pub use words::{Word, joined_text};
