//! What Linux is asked for when a child is started, as the launch has it.
use rc_text::Text;
use rc_world::Slots;

/// A program with its arguments, its whole environment and its descriptors, each an open file or one of this process's
/// own. Its texts are borrowed from the launch.
#[derive(Clone, Copy)]
pub struct Plan<'a> {
    pub program: &'a str,
    pub args: &'a [Text],
    pub env: &'a [Text],
    pub slots: Slots,
}
