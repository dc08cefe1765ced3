//! The code of forms without a command that is compiled with them.

ghost use Rattle.std.specs.Prelude.{OnOk};
ghost use Rattle.rc_model.specs.Syntax.Tree as tree;
ghost use Rattle.rc_model.specs.Code.Layout.{Do, assign_by, cmd_code, unlocal};
ghost use Rattle.rc_tree.specs.View.{cmd_tree, arg_tree, args_tree, pairs_tree, redir_tree, redirs_tree};
ghost use Rattle.rc_code.specs.Writing.{Writes};
ghost use Rattle.rc_code.specs.Emission.{star_code, members_code, pairs_alone, redir_code, redirs_alone};
ghost use Rattle.rc_code.specs.Emission.{subject_code, match_code, define_code, undefine_code, subshell_code};

use crate::code::Op;
use crate::emission::emit_args::{emit_arg, emit_list};
use crate::emission::kept::{kept_part, kept_pieces};
use crate::fusion::Fused;
use crate::instruction_numbers::in_32_bits;
use crate::listing::Listing;
use rc_tree::{Arg, Cmd, Redir};
use std::alloc::{AllocError, Global};
use std::rc::Rc;

/// Emits a simple command, with a check unless it is guarded.
#[tactic(auto, using(crate::proofs::Parts::emitting))]
pub(crate) fn emit_simple(
    alloc: Global,
    code: &mut Listing,
    words: &[Arg],
    guarded: bool,
) -> Result<(), AllocError>
    ensures { OnOk result (Writes code.old code.new (cmd_code (tree.Simple (args_tree words.now)) guarded)) }
{
    emit_list(alloc, code, words)?;
    code.put(Op::Glob(Fused::Alone))?;
    code.put(Op::Run)?;
    if guarded { Ok(()) } else { code.put(Op::Check) }
}

/// Emits the list and the name of a `for` over `$*`.
#[tactic(auto, using(crate::proofs::Parts::emitting))]
pub(crate) fn emit_star(alloc: Global, code: &mut Listing, name: &Arg) -> Result<(), AllocError>
    ensures { OnOk result (Writes code.old code.new (star_code (arg_tree name.now))) }
{
    code.put_word(alloc, "*", false)?;
    code.put(Op::Value)?;
    emit_arg(alloc, code, name)
}

/// Emits the list and the name of a `for`.
#[tactic(auto, using(crate::proofs::Parts::emitting))]
pub(crate) fn emit_members(
    alloc: Global,
    code: &mut Listing,
    words: &[Arg],
    name: &Arg,
) -> Result<(), AllocError>
    ensures { OnOk result (Writes code.old code.new (members_code (args_tree words.now) (arg_tree name.now))) }
{
    emit_list(alloc, code, words)?;
    code.put(Op::Glob(Fused::Alone))?;
    emit_arg(alloc, code, name)
}

/// An assignment: a bare one stays, another ends with a command.
#[tactic(auto, using(crate::proofs::Parts::emitting))]
fn put_assign(code: &mut Listing, bare: bool) -> Result<(), AllocError>
    ensures { OnOk result (Writes code.old code.new (Do (assign_by bare))) }
{
    if bare {
        code.put(Op::Assign)
    } else {
        code.put(Op::Local)
    }
}

/// Assignments, one after the other.
#[tactic(auto, using(crate::proofs::Parts::emitting))]
pub(crate) fn emit_pairs(
    alloc: Global,
    code: &mut Listing,
    pairs: &[(Arg, Arg)],
    bare: bool,
) -> Result<(), AllocError>
    ensures { OnOk result (Writes code.old code.new (pairs_alone (pairs_tree pairs.now) bare)) }
{
    for pair in pairs {
        emit_arg(alloc, code, &pair.0)?;
        emit_arg(alloc, code, &pair.1)?;
        code.put(Op::Glob(Fused::Alone))?;
        put_assign(code, bare)?;
    }
    Ok(())
}

#[tactic(auto, using(crate::proofs::Parts::emitting))]
pub(crate) fn emit_redirs(
    alloc: Global,
    code: &mut Listing,
    redirs: &[Redir],
) -> Result<(), AllocError>
    ensures { OnOk result (Writes code.old code.new (redirs_alone (redirs_tree redirs.now))) }
{
    for redir in redirs {
        emit_redir(alloc, code, redir)?;
    }
    Ok(())
}

#[tactic(auto, using(crate::proofs::Parts::emitting))]
fn emit_redir(alloc: Global, code: &mut Listing, redir: &Redir) -> Result<(), AllocError>
    ensures { OnOk result (Writes code.old code.new (redir_code (redir_tree redir.now))) }
{
    match redir {
        Redir::Open { mode, slot, file } => {
            emit_arg(alloc, code, file)?;
            code.put(Op::Glob(Fused::Alone))?;
            code.put(Op::Open {
                mode: *mode,
                slot: *slot,
            })
        }
        Redir::Copy { to, from } => code.put(Op::Copy {
            to: *to,
            from: *from,
        }),
        Redir::Here(pieces) => {
            let number = code.keep(kept_pieces(alloc, pieces)?)?;
            code.put(Op::Here(number))
        }
    }
}

/// Emits the end of the locals of a command.
#[tactic(auto, using(crate::proofs::Parts::emitting))]
pub(crate) fn emit_unlocal(code: &mut Listing, bare: bool, count: usize) -> Result<(), AllocError>
    ensures { OnOk result (Writes code.old code.new (unlocal bare count)) }
{
    if bare {
        Ok(())
    } else {
        code.put(Op::Unlocal(in_32_bits(count)?))
    }
}

#[tactic(auto, using(crate::proofs::Parts::emitting))]
pub(crate) fn emit_subject(
    alloc: Global,
    code: &mut Listing,
    subject: &Arg,
) -> Result<(), AllocError>
    ensures { OnOk result (Writes code.old code.new (subject_code (arg_tree subject.now))) }
{
    emit_arg(alloc, code, subject)?;
    code.put(Op::Subject)
}

#[tactic(auto, using(crate::proofs::Parts::emitting))]
pub(crate) fn emit_match(
    alloc: Global,
    code: &mut Listing,
    subject: &Arg,
    patterns: &[Arg],
) -> Result<(), AllocError>
    ensures { OnOk result (Writes code.old code.new (match_code (arg_tree subject.now) (args_tree patterns.now))) }
{
    emit_subject(alloc, code, subject)?;
    emit_list(alloc, code, patterns)?;
    code.put(Op::Match)
}

/// Emits a definition: the body is kept, and is not compiled before the function is called.
#[tactic(auto, using(crate::proofs::Parts::emitting))]
pub(crate) fn emit_define(
    alloc: Global,
    code: &mut Listing,
    names: &[Arg],
    body: &Rc<Cmd>,
) -> Result<(), AllocError>
    ensures { OnOk result (Writes code.old code.new (define_code (args_tree names.now) (cmd_tree body.now.value))) }
{
    emit_list(alloc, code, names)?;
    let number = code.keep(kept_part(body)?)?;
    code.put(Op::Define(number))
}

#[tactic(auto, using(crate::proofs::Parts::emitting))]
pub(crate) fn emit_undefine(
    alloc: Global,
    code: &mut Listing,
    names: &[Arg],
) -> Result<(), AllocError>
    ensures { OnOk result (Writes code.old code.new (undefine_code (args_tree names.now))) }
{
    emit_list(alloc, code, names)?;
    code.put(Op::Undefine)
}

#[tactic(auto, using(crate::proofs::Parts::emitting))]
pub(crate) fn emit_subshell(code: &mut Listing, body: &Rc<Cmd>) -> Result<(), AllocError>
    ensures { OnOk result (Writes code.old code.new (subshell_code (cmd_tree body.now.value))) }
{
    let number = code.keep(kept_part(body)?)?;
    code.put(Op::Subshell(number))
}
