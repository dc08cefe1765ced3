//! The instructions, and the code that holds them.

ghost use Rattle.std.specs.Prelude.{◌≡◌, ◌<◌, ◌^◌, IfOk, IfSome, IsOk, IsSome, OnOk, length, option_map, slice_get};
ghost use Rattle.std.specs.Option.{option_copied};
ghost use Rattle.law_handed.specs.Kept.{AllKeptProper};
ghost use Rattle.rc_model.specs.Handed.Proper.{IsProperTree};
ghost use Rattle.rc_tree.specs.View.{cmd_tree, stages_tree, pieces_tree};
ghost use Rattle.rc_code.specs.Fusion.{AreFused, IsTagged, fused_prop, tag_of};
ghost use Rattle.rc_code.specs.Listings.{listing_of};
ghost use Rattle.rc_code.specs.Names.{IsNamed, op_of, pipeline_at};
ghost use Rattle.rc_code.specs.ProperCode.{kept_prop};
ghost use Rattle.rc_code.specs.Words.{word_at};

use crate::fusion::{Fused, Runs, fuse};
use crate::listing::Listing;
use crate::pipelines::Pipeline;
use rc_text::Literal;
use rc_tree::{Cmd, Mode, Piece, Stage};
use std::alloc::{AllocError, Global};
use std::rc::Rc;

/// One instruction, in eight bytes. A place in the code has 32 bits, and so has the number of what stands beside it.
#[derive(Clone, Copy)]
pub enum Op {
    /// Pushes the empty list.
    Nil(Fused),
    /// Pushes a list of one word, that of this number.
    Word(Fused, u32),
    /// Pops two lists and pushes the first followed by the second.
    Join,
    /// Pops two lists and pushes their concatenation, word by word.
    Concat,
    /// Pops the name of a variable and pushes its members.
    Value,
    /// Pops the name of a variable and pushes the number of its members.
    Count,
    /// Pops the name of a variable and pushes its members as one word.
    Flat,
    /// Pops the name of a variable and a list of subscripts, and pushes the members that they select.
    Select,
    /// Pops a list and pushes its words, with file names in place of patterns.
    Glob(Fused),
    /// Pushes the output of the tree at this index.
    Back(u32),
    /// Pops a list and runs it as a simple command.
    Run,
    /// Ends a strict shell after a simple command that failed.
    Check,
    /// Pops a list and pushes its members as the one word that patterns are matched against.
    Subject,
    /// Pops a list.
    Drop,
    /// Pops the patterns of a case, and jumps to this place if none of them matches the subject, which stays.
    Case(u32),
    /// Pops a subject and its patterns, and sets the status by whether one of them matches.
    Match,
    /// Jumps to this place.
    Jump(u32),
    /// Jumps to this place if the status is true.
    IfTrue(u32),
    /// Jumps to this place if the status is not true.
    IfFalse(u32),
    /// Sets the status to null, which is true.
    SetNull,
    /// Turns a true status into `false`, and any other into null.
    Invert,
    /// If the status is not true, sets the flag of `if not` and jumps to this place.
    If(u32),
    /// Clears the flag of `if not`.
    WasTrue,
    /// Jumps to this place if the flag of `if not` is clear.
    IfNot(u32),
    /// Pops a list and a name, and begins a loop that assigns each member to the name.
    For,
    /// Begins the next turn of a loop, or ends the loop and jumps to this place.
    Next(u32),
    /// Pops a name and a list, which becomes the value of the variable.
    Assign,
    /// Pops a name and a list, which is the value of the variable until the local ends.
    Local,
    /// Ends this many locals.
    Unlocal(u32),
    /// Pops a list of names, and defines each as a function with the tree at this index.
    Define(u32),
    /// Pops a list of names, and removes their functions.
    Undefine,
    /// Pops the name of a file, and opens it in place of this descriptor.
    Open { mode: Mode, slot: u8 },
    /// Makes one descriptor a copy of the other.
    Copy { to: u8, from: u8 },
    /// Passes the here document at this index on as standard input.
    Here(u32),
    /// Ends this many redirections.
    Unredir(u32),
    /// Starts the stages of the pipeline of this number. If one is refused, jumps past the pipeline.
    Stages(u32),
    /// Ends a pipeline: waits for its stages, and sets the status by theirs.
    EndPipe,
    /// Runs the tree at this index in a subshell and waits for it.
    Subshell(u32),
    /// Starts the tree at this index in the background.
    Background(u32),
    /// Returns from a body to its caller, or ends the script.
    Return,
}

const _: () = prove!(size_of::<Op>() == 8);

/// What is kept beside the instructions.
pub(crate) enum Kept {
    Tree(Rc<Cmd>),
    Stages(Rc<Vec<Stage>>),
    Pieces(Vec<Piece>),
}

impl Drop for Kept {
    fn drop(self) {
        match self {
            Kept::Tree(_) | Kept::Stages(_) | Kept::Pieces(_) => (),
        }
    }
}

/// The instructions of a command, and the parts of its tree that they keep. It is immutable, so it is shared.
pub struct Code {
    listing: Rc<Listing>,
    ghost proper: { AllKeptProper (listing_of listing.value).kept } by { kept_prop (listing_of listing.value).kept },
    ghost fused: { AreFused listing.value } by { fused_prop listing.value },
}

impl Drop for Code {
    fn drop(self) {
        let Code { listing: _ } = self;
    }
}

impl Clone for Code {
    ghost use Rattle.std.specs.Prelude.{◌≡◌};
    ghost use Rattle.rc_code.specs.Views.{code_of};

    ghost is_clone = { λ c d. code_of d ≡ code_of c };

    /// Another handle to the code. It fails only if the code has too many owners.
    #[tactic(auto, unfolding(crate::specs::Views::code_of))]
    fn clone(&self) -> Result<Code, AllocError> {
        Ok(Code {
            listing: self.listing.clone()?,
        })
    }
}

impl Code {
    ghost use Rattle.rc_code.specs.Views.{code_of, names_of, tree_at, stages_at, pieces_at};

    /// Freezes a listing into code, if all of it was written.
    #[tactic(auto, unfolding(crate::specs::Views::code_of))]
    pub(crate) fn of(
        alloc: Global,
        mut listing: Listing,
        written: Result<(), AllocError>,
        runs: Runs,
    ) -> Result<Code, AllocError>
        requires { OnOk written (AllKeptProper (listing_of listing).kept) }
        ensures whole { OnOk result (IsOk written) }
        ensures code { IfOk result (λ code. code_of code ≡ listing_of listing) }
    {
        written?;
        fuse(&mut listing, runs);
        Ok(Code {
            listing: Rc::new(alloc, listing)?,
        })
    }

    /// The instruction at a place, or none past the end.
    #[tactic(auto, unfolding(crate::specs::Views::code_of, crate::specs::Views::names_of, crate::specs::Listings::listing_of))]
    pub fn op(&self, place: usize) -> Option<&Op>
        ensures op { option_map (op_of (names_of self.now)) (option_copied result)
            ≡ slice_get (code_of self.now).ops place }
        ensures named { IfSome (option_copied result) (λ op. IsNamed (names_of self.now) op) }
        ensures tagged { IfSome (option_copied result) (λ op. IsTagged (code_of self.now).ops place (tag_of op)) }
        ensures within { IsSome result → place < 2 ^ 63 }
    {
        self.listing.ops.get(place)
    }

    /// The word of this number.
    #[tactic(auto, unfolding(crate::specs::Views::names_of))]
    pub fn word(&self, number: u32) -> &Rc<Literal>
        requires { number < length (names_of self.now).words }
        ensures { result.now.value ≡ word_at (names_of self.now).words number }
    {
        self.listing.words.literal(number)
    }

    /// The pipeline of this number.
    #[tactic(auto, unfolding(crate::specs::Views::names_of))]
    pub fn pipeline(&self, number: u32) -> Pipeline
        requires { number < length (names_of self.now).pipelines }
        ensures { result ≡ pipeline_at (names_of self.now).pipelines number }
    {
        self.listing.pipelines[number as usize]
    }

    /// The tree at this index, which is well formed, or `None` if it isn't that of a tree.
    pub fn tree(&self, number: usize) -> Option<&Rc<Cmd>>
        ensures tree { option_map (λ tree. cmd_tree tree.value) (option_copied result)
            ≡ tree_at (code_of self.now) number }
        ensures proper { IfSome (option_copied result) (λ tree. IsProperTree (cmd_tree tree.value)) }
    {
        self.found_tree(number)
    }

    /// What is kept at this index, if that is a tree.
    #[tactic(auto, unfolding(crate::specs::Views::code_of, crate::specs::Listings::listing_of))]
    fn found_tree(&self, number: usize) -> Option<&Rc<Cmd>>
        ensures { option_map (λ tree. cmd_tree tree.value) (option_copied result) ≡ tree_at (code_of self.now) number }
    {
        match self.listing.kept.get(number) {
            Some(Kept::Tree(tree)) => Some(tree),
            _ => None,
        }
    }

    /// The stages at this index, or `None` if it isn't that of stages.
    #[tactic(auto, unfolding(crate::specs::Views::code_of, crate::specs::Listings::listing_of))]
    pub fn stages(&self, number: usize) -> Option<&[Stage]>
        ensures { option_map stages_tree (option_copied result) ≡ stages_at (code_of self.now) number }
    {
        match self.listing.kept.get(number) {
            Some(Kept::Stages(stages)) => Some(stages),
            _ => None,
        }
    }

    /// The here document at this index, or `None` if it isn't that of one.
    #[tactic(auto, unfolding(crate::specs::Views::code_of, crate::specs::Listings::listing_of))]
    pub fn pieces(&self, number: usize) -> Option<&[Piece]>
        ensures { option_map pieces_tree (option_copied result) ≡ pieces_at (code_of self.now) number }
    {
        match self.listing.kept.get(number) {
            Some(Kept::Pieces(pieces)) => Some(pieces),
            _ => None,
        }
    }
}
