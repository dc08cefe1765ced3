//! The notation for calls.

use rc_trace::{ShownCall, push_call};
use rc_world::Call;
use std::alloc::AllocError;

/// Writes a call with its arguments.
pub fn write_call(out: &mut String, call: &Call) -> Result<(), AllocError> {
    push_call(out, ShownCall::of(call))
}
