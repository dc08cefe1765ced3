//! The code of arguments.

ghost use Rattle.std.specs.Prelude.{OnOk};
ghost use Rattle.rc_model.specs.Code.Layout.{arg_code, parts_code};
ghost use Rattle.rc_tree.specs.View.{arg_tree, args_tree};
ghost use Rattle.rc_code.specs.Writing.{Writes};
ghost use Rattle.rc_code.specs.Emission.{list_code};

use crate::code::Op;
use crate::emission::kept::kept_part;
use crate::fusion::Fused;
use crate::listing::Listing;
use rc_tree::Arg;
use std::alloc::{AllocError, Global};

#[cycle(emit)]
#[tactic(auto, using(crate::proofs::Parts::emitting))]
pub(crate) fn emit_arg(alloc: Global, code: &mut Listing, arg: &Arg) -> Result<(), AllocError>
    ensures { OnOk result (Writes code.old code.new (arg_code (arg_tree arg.now))) }
{
    match arg {
        Arg::Lit { text, quoted } => code.put_word(alloc, text.as_str(), *quoted),
        Arg::Concat(parts) => emit_parts(alloc, code, parts),
        Arg::Paren(words) => emit_list(alloc, code, words),
        Arg::Var(name) => {
            emit_arg(alloc, code, name)?;
            code.put(Op::Value)
        }
        Arg::Count(name) => {
            emit_arg(alloc, code, name)?;
            code.put(Op::Count)
        }
        Arg::Flat(name) => {
            emit_arg(alloc, code, name)?;
            code.put(Op::Flat)
        }
        Arg::Sub(name, subscripts) => {
            emit_arg(alloc, code, name)?;
            emit_list(alloc, code, subscripts)?;
            code.put(Op::Select)
        }
        Arg::Back(body) => {
            let number = code.keep(kept_part(body)?)?;
            code.put(Op::Back(number))
        }
    }
}

/// Emits the words as one list.
#[cycle(emit)]
#[tactic(auto, using(crate::proofs::Parts::emitting))]
pub(crate) fn emit_list(alloc: Global, code: &mut Listing, words: &[Arg]) -> Result<(), AllocError>
    ensures { OnOk result (Writes code.old code.new (list_code (args_tree words.now))) }
{
    code.put(Op::Nil(Fused::Alone))?;
    for word in words {
        emit_arg(alloc, code, word)?;
        code.put(Op::Join)?;
    }
    Ok(())
}

/// Emits the parts of a word that has several.
#[cycle(emit)]
#[tactic(auto, using(crate::proofs::Parts::emitting))]
fn emit_parts(alloc: Global, code: &mut Listing, parts: &[Arg]) -> Result<(), AllocError>
    ensures { OnOk result (Writes code.old code.new (parts_code (args_tree parts.now))) }
{
    let Some((first, further)) = parts.split_first() else {
        return code.put(Op::Nil(Fused::Alone));
    };
    emit_arg(alloc, code, first)?;
    for part in further {
        emit_arg(alloc, code, part)?;
        code.put(Op::Concat)?;
    }
    Ok(())
}
