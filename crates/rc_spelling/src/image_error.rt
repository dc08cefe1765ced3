//! Why there is no image.

use rc_model::{ImageFault, InputError};

/// Why there is no image, or no tree for one: its first fault from left to right, or memory ran out.
pub type ImageError = InputError<ImageFault>;
