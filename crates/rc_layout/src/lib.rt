//! The layout of a script: one command a line, blocks indented by a tab, comments where they stand, here documents and
//! quoted words as they are.
//!
//! It is found by the tokens, and proved by the tree: what was written is parsed and the trees are compared, so that a
//! mistake can only refuse a script, and never changes one. They are compared by their spellings in images, of which
//! each tree has one, so that no comparison of trees had to be written.
//!
//! What decides a layout is the same before and after it: whether there is a newline between two braces, and how many
//! commands and how many bytes of tokens are there. Lines that the author has broken after an operator stay broken. So
//! a layout is its own layout, which is tested, and not proved. A `;` after a control form without a command stays,
//! since a newline in its place would make the next command its own.
#![tactic(auto)]

mod arrangement;
mod laying;
mod layout;
mod reading;
mod same_tree;

pub use layout::{LayoutError, LayoutFault, laid_out};
pub use rc_model::{FaultKind, InputError, SyntaxFault};
