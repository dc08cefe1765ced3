//! The text of a script.

ghost use Rattle.std.specs.Prelude.{◌≡◌, ◌≤◌, length, IfOk, IfErr, IsUtf8, Some};
ghost use Rattle.rc_model.specs.Syntax.Accepted.{line_of, longest_script};
ghost use Rattle.rc_model.specs.Mirrors.FirstFault.{first_fault};

use rc_model::{FaultKind, SyntaxFault};
use std::str;

/// The script as text, if it is UTF-8.
#[tactic(auto, using(crate::proofs::Texts::texts))]
pub(crate) fn checked(script: &[u8]) -> Result<&str, SyntaxFault>
    requires { length script.now ≤ longest_script }
    ensures text { IfOk result (λ s. s.now ≡ script.now) }
    ensures utf8 { IfOk result (λ s. IsUtf8 s.now) }
    ensures refused { IfErr result (λ f. first_fault script.now ≡ Some f) }
{
    str::from_utf8(script).map_err(|error| SyntaxFault {
        kind: FaultKind::NotText,
        line: line_of(script, error.valid_up_to()),
    })
}

/// The line of the byte at this offset.
pub(crate) fn line_of(script: &[u8], place: usize) -> usize
    requires inside { place ≤ length script.now }
    requires short { length script.now ≤ longest_script }
    ensures { result ≡ line_of script.now place }
{
    script[..place].iter().filter(|b| **b == b'\n').count() + 1
}
