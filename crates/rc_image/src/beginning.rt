//! The beginning of an image.

ghost use Rattle.std.specs.Prelude.{◌≡◌};
ghost use Rattle.rc_image.specs.Images.{version_here, fault_here};

use rc_model::ImageFault;
use rc_spelling::{begins_number, number};

/// The mark of an image in one word.
pub(crate) const MARK: &str = "rc1;";

/// The mark of the first word of an image in pieces.
pub(crate) const PIECES_MARK: &str = "rc2;";

/// The start of the marks of all versions.
const VERSION_MARK: &str = "rc";

/// Whether the text begins with the digits of a version and a `;`.
#[tactic(auto, using(crate::proofs::Beginnings::versions))]
fn has_version(bytes: &[u8]) -> bool
    ensures { result ≡ version_here bytes.now }
{
    if !begins_number(bytes) {
        return false;
    }
    let Some((_, rest)) = number(bytes) else {
        return false;
    };
    match rest.split_first() {
        Some((byte, _)) => *byte == b';',
        None => false,
    }
}

/// The fault of a text that doesn't begin like an image.
#[tactic(auto, using(crate::proofs::Beginnings::faults))]
pub(crate) fn beginning_fault(text: &str) -> ImageFault
    ensures { result ≡ fault_here text.now }
{
    let Some(rest) = text.strip_prefix(VERSION_MARK) else {
        return ImageFault::BadTag;
    };
    if has_version(rest.as_bytes()) {
        ImageFault::Version
    } else {
        ImageFault::BadTag
    }
}
