//! The pipelines of a code.

/// A pipeline, as the instruction at its start needs it. It stands beside the instructions, since a place in the code
/// and a number would need more room than an instruction has.
#[derive(Clone, Copy)]
pub struct Pipeline {
    /// The number of its stages before the last one.
    pub stages: u32,
    /// The place after it.
    pub end: u32,
}
