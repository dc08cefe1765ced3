//! The laws of printed trees: each can be written, and reads back. The functions do nothing: the contract of each is a
//! law.
#![tactic(auto)]

mod written;

ghost use Rattle.rc_model.specs.Mirrors.ParsingLaws.{RoundTrip};

pub use written::{printed_tokens, written_trees};

/// Each tree of a text is that of its print.
pub fn round_trip()
    ensures { RoundTrip }
{}
