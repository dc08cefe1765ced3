//! Parts of a configuration: the frames of calls, and scopes.

use crate::stack::Stack;
use rc_code::Code;
use rc_text::Text;
use rc_world::ChildNo;

/// The place where a body was called.
#[derive(Drop)]
pub(crate) struct Frame {
    pub caller: Code,
    pub place: usize,
    /// Whether the call bound `$*`.
    pub binds: bool,
}

/// A scope, which ends later.
#[derive(Drop)]
pub(crate) enum Scope {
    Local,
    /// A loop, with the members that are left.
    Loop {
        name: String,
        rest: Stack<Text>,
        bound: bool,
    },
    /// The newest redirection.
    Redirection,
    /// A pipeline before its last stage, whose read end is the newest redirection.
    Pipeline {
        children: Vec<ChildNo>,
    },
}
