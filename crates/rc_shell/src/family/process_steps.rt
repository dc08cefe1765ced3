//! The shells of a family, and its steps.

use rc_scope::State;
use rc_tree::Cmd;
use rc_world::{Answer, Call};

/// A shell of a family.
#[derive(Drop)]
pub(crate) struct Process {
    /// The command that it was handed.
    pub cmd: Cmd,
    pub state: State,
    /// Its call that wants an answer, or none if it has ended.
    pub pending: Option<Call>,
}

/// A step that was made.
#[derive(Drop)]
pub(crate) struct FamilyStep {
    pub process: usize,
    pub call: Call,
    pub answer: Answer,
}

/// The changes of a step.
#[derive(Drop)]
pub(crate) struct Change {
    /// The call that the step answers, for the list of steps.
    pub kept: Call,
    /// The same call, for the caller.
    pub answered: Call,
    /// The next call of the process that was answered.
    pub pending: Option<Call>,
    /// The shell that was started, if any.
    pub child: Option<Process>,
}
