//! A compiler to which the items of a script come one after the other, so that no tree holds them all.

ghost use Rattle.std.specs.Prelude.{◌≡◌, IfOk, IsErr, None, OnErr, OnOk};
ghost use Rattle.rc_model.specs.Code.Layout.{code};
ghost use Rattle.rc_model.specs.Handed.Proper.{IsProperTree};
ghost use Rattle.rc_model.specs.Syntax.Tree as tree;
ghost use Rattle.rc_model.specs.Syntax.Tree.{Many, Seq, none, snoc};
ghost use Rattle.rc_tree.specs.View.{item_tree};
ghost use Rattle.rc_code.specs.Compiled.{HasCompiled, code_so_far};
ghost use Rattle.rc_code.specs.Views.{code_of};

use crate::code::{Code, Op};
use crate::emission::emit_commands::emit_items;
use crate::fusion::Runs;
use crate::listing::Listing;
use rc_tree::Item;
use std::alloc::{AllocError, Global};
use std::slice;

/// From this number of instructions on a script is taken for one that runs once. A shorter one, as of an `eval`, may be
/// run again.
const LONG_SCRIPT: usize = 1024;

/// The code of the items so far.
pub struct Compiler {
    alloc: Global,
    listing: Listing,
    /// Whether memory was refused for an item, which may be written in part.
    is_spent: bool,
}

impl Drop for Compiler {
    fn drop(self) {
        let Compiler {
            alloc: _,
            listing: _,
            is_spent: _,
        } = self;
    }
}

impl Compiler {
    /// A compiler without items.
    #[tactic(auto, using(crate::proofs::Items::compiling))]
    pub fn new(alloc: Global) -> Self
        ensures { HasCompiled none result }
    {
        Compiler {
            alloc,
            listing: Listing::empty(alloc),
            is_spent: false,
        }
    }

    /// Compiles one more item. Once memory is refused, the compiler takes no more items.
    #[tactic(auto, using(crate::proofs::Items::compiling))]
    pub fn add(&mut self, item: &Item) -> Result<(), AllocError>
        ensures ok { (items : Many tree.item) → HasCompiled items self.old →
            OnOk result (HasCompiled (snoc items (item_tree item.now)) self.new) }
        ensures err { OnErr result (code_so_far self.new ≡ None) }
        ensures spent { code_so_far self.old ≡ None → IsErr result }
    {
        if self.is_spent {
            return Err(AllocError);
        }
        self.is_spent = true;
        emit_items(self.alloc, &mut self.listing, slice::from_ref(item), false)?;
        self.is_spent = false;
        Ok(())
    }

    /// The code of all items as a script, which ends with a `Return`.
    pub fn finish(self) -> Result<Code, AllocError>
        requires { (items : Many tree.item) × HasCompiled items self × IsProperTree (Seq items) }
        ensures { (items : Many tree.item) → HasCompiled items self →
            IfOk result (λ done. code_of done ≡ code (Seq items)) }
    {
        let Compiler {
            alloc,
            mut listing,
            is_spent: _,
        } = self;
        let written = listing.put(Op::Return);
        let runs = if listing.ops.len() < LONG_SCRIPT {
            Runs::Often
        } else {
            Runs::Once
        };
        Code::of(alloc, listing, written, runs)
    }
}
