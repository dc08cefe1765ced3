//! The compiler: from the tree of a command to its bytecode.
#![tactic(auto)]

mod code;
mod compiler;
mod emission;
mod fusion;
mod instruction_numbers;
mod interned_words;
mod listing;
mod names;
mod pipelines;

ghost use Rattle.std.specs.Prelude.{◌≡◌, false, IfOk, OnOk};
ghost use Rattle.rc_model.specs.Code.Layout.{code, cmd_code, Do, Return, ◌⨾◌};
ghost use Rattle.rc_model.specs.Handed.Proper.{IsProperTree};
ghost use Rattle.rc_tree.specs.View.{cmd_tree};
ghost use Rattle.rc_code.specs.Views.{code_of};
ghost use Rattle.rc_code.specs.Writing.{Writes};

pub use code::{Code, Op};
pub use compiler::Compiler;
use emission::emit_commands::emit_cmd;
pub use fusion::Fused;
use fusion::Runs;
use listing::Listing;
pub use names::{has_digits, is_name, is_readable};
pub use pipelines::Pipeline;
use rc_tree::Cmd;
use std::alloc::{AllocError, Global};

/// Compiles a command into code, which ends with a `Return`.
pub fn compile(alloc: Global, cmd: &Cmd) -> Result<Code, AllocError>
    requires { IsProperTree (cmd_tree cmd.now) }
    ensures { IfOk result (λ done. code_of done ≡ code (cmd_tree cmd.now)) }
{
    let mut listing = Listing::empty(alloc);
    let written = emit_whole(alloc, &mut listing, cmd);
    Code::of(alloc, listing, written, Runs::Often)
}

/// Emits a whole command, with its `Return`.
#[tactic(auto, using(crate::proofs::Parts::emitting))]
fn emit_whole(alloc: Global, code: &mut Listing, cmd: &Cmd) -> Result<(), AllocError>
    ensures { OnOk result (Writes code.old code.new (cmd_code (cmd_tree cmd.now) false ⨾ Do Return)) }
{
    emit_cmd(alloc, code, cmd, false)?;
    code.put(Op::Return)
}
