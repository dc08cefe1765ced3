//! The text of a tree.

ghost use Rattle.std.specs.Prelude.{◌≡◌, OnOk, IfOk, IsErrOf, true, false, string_bytes};
ghost use Rattle.rc_model.specs.Syntax.Printing.{printed, has_here};
ghost use Rattle.rc_tree.specs.View.{cmd_tree};

use crate::here_inside::has_here;
use crate::printing::print_cmd;
use rc_model::InputError;
use rc_tree::Cmd;
use std::alloc::Global;
use thiserror::Error;

/// Why a tree has no text.
#[derive(Clone, Copy, Debug, Error)]
pub enum PrintFault {
    #[error("a here document is inside")]
    HereInside,
}

/// Prints a tree. The text parses to the same tree, if that was parsed from a script and the text is no longer than a
/// script may be.
pub fn print(alloc: Global, cmd: &Cmd) -> Result<String, InputError<PrintFault>>
    ensures text { IfOk result (λ text. string_bytes text ≡ printed (cmd_tree cmd.now)) }
    ensures without { OnOk result (has_here (cmd_tree cmd.now) ≡ false) }
    ensures inside { IsErrOf result (InputError.Fault PrintFault.HereInside) → has_here (cmd_tree cmd.now) ≡ true }
{
    if has_here(cmd) {
        return Err(InputError::Fault(PrintFault::HereInside));
    }
    let mut out = String::new(alloc);
    print_cmd(&mut out, cmd, false)?;
    Ok(out)
}
