//! The abstract syntax tree of a script: its types, copies, depth and well-formedness.
#![tactic(auto)]

mod clone;
mod depth;
mod empty;
mod literal_text;
mod nodes;
mod soundness;
mod types;

pub use clone::clone_tree;
pub use depth::is_within;
pub use empty::is_empty;
pub use literal_text::LiteralText;
pub use nodes::{push_item, push_link, push_stage, shared};
pub use rc_model::{InputError, Logic, Mode};
pub use soundness::well_formed;
pub use types::{Arg, Branch, Cmd, Item, Piece, Redir, Stage};
