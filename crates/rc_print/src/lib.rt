//! The text of a tree.
#![tactic(auto)]

mod form;
mod here_inside;
mod printed;
mod printing;

pub use printed::{PrintFault, print};
pub use rc_model::InputError;
