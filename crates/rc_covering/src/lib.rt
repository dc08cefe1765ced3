//! Which of the shell's own descriptors the redirections around a command leave in use.
#![tactic(auto)]

ghost use Rattle.std.specs.Prelude.{◌≡◌, IfSome};
ghost use Rattle.law_descriptors.specs.Covering.{if_opens, opens_in, opens_of, slots_in, slots_after};
ghost use Rattle.rc_model.specs.Run.Calls.{plain, slot_of, with_slot};
ghost use Rattle.rc_model.specs.Syntax.Tree.{Many, redir, more};
ghost use Rattle.rc_tree.specs.View.{cmd_tree, body_tree, redir_tree, redirs_tree};

use rc_model::{Handle, PLAIN_SLOTS, Slot, Slots};
use rc_redir::{slot_of, with_slot};
use rc_tree::{Cmd, Redir};

/// The redirections around a command.
#[derive(Clone, Copy)]
pub struct Covering {
    /// The number of files that they open.
    pub files: u32,
    /// The descriptors after the last of these is opened. Each file counts as that of handle 0.
    pub slots: Slots,
}

/// The redirections around a command, perhaps inside assignments. `None`: they open more files than can be counted.
pub fn covering_of(cmd: &Cmd) -> Option<Covering>
    ensures files { IfSome result (λ covering. covering.files ≡ opens_of (cmd_tree cmd.now)) }
    ensures slots { IfSome result (λ covering. covering.slots ≡ slots_after (cmd_tree cmd.now) plain) }
{
    covering_from(cmd, PLAIN_SLOTS)
}

/// The redirections around a command with these descriptors.
#[cycle(cover)]
#[tactic(auto, using(crate::proofs::Opens::steps))]
fn covering_from(cmd: &Cmd, slots: Slots) -> Option<Covering>
    ensures files { IfSome result (λ covering. covering.files ≡ opens_of (cmd_tree cmd.now)) }
    ensures slots { IfSome result (λ covering. covering.slots ≡ slots_after (cmd_tree cmd.now) slots) }
{
    match cmd {
        Cmd::Assign(_, body) => {
            let inner = covering_under(body, slots)?;
            Some(unless_opened(slots, inner))
        }
        Cmd::Redirect(redirs, body) => {
            let inner = covering_from(body, slots_in(redirs, slots))?;
            let files = opens_in(redirs, inner.files)?;
            Some(Covering {
                files,
                slots: inner.slots,
            })
        }
        Cmd::Empty
        | Cmd::Seq(_)
        | Cmd::Simple(_)
        | Cmd::Pipeline(..)
        | Cmd::AndOr(..)
        | Cmd::Not(_)
        | Cmd::Subshell(_)
        | Cmd::If(..)
        | Cmd::IfNot(_)
        | Cmd::While(..)
        | Cmd::ForAll(..)
        | Cmd::For(..)
        | Cmd::Switch(..)
        | Cmd::Match(..)
        | Cmd::Define(..)
        | Cmd::Undefine(_)
        | Cmd::Brace(_) => Some(Covering { files: 0, slots }),
    }
}

/// The redirections around what stands under assignments.
#[cycle(cover)]
#[tactic(auto, using(crate::proofs::Opens::steps))]
fn covering_under(body: &Option<Box<Cmd>>, slots: Slots) -> Option<Covering>
    ensures files { IfSome result (λ covering. covering.files ≡ opens_of (body_tree body.now)) }
    ensures slots { IfSome result (λ covering. covering.slots ≡ slots_after (body_tree body.now) slots) }
{
    match body {
        None => Some(Covering { files: 0, slots }),
        Some(cmd) => covering_from(cmd, slots),
    }
}

/// These descriptors, unless files are opened within.
fn unless_opened(slots: Slots, inner: Covering) -> Covering
    ensures files { result.files ≡ inner.files }
    ensures slots { result.slots ≡ if_opens inner.files slots inner.slots }
{
    if inner.files == 0 {
        Covering { files: 0, slots }
    } else {
        inner
    }
}

/// The number of files that these redirections open, with this many inside.
#[tactic(auto, using(crate::proofs::Opens::steps))]
fn opens_in(redirs: &[Redir], inner: u32) -> Option<u32>
    ensures { IfSome result (λ files. files ≡ opens_in (redirs_tree redirs.now) inner) }
{
    let mut files = inner;
    for redir in redirs {
        files = opens_one(redir, files)?;
    }
    Some(files)
}

/// One file more, if the redirection opens one.
#[tactic(auto, using(crate::proofs::Opens::steps))]
fn opens_one(redirection: &Redir, files: u32) -> Option<u32>
    ensures { IfSome result (λ n. (rest : Many redir)
        → opens_in (more (redir_tree redirection.now) rest) files ≡ opens_in rest n) }
{
    match redirection {
        Redir::Open { .. } | Redir::Here(_) => files.checked_add(1),
        Redir::Copy { .. } => Some(files),
    }
}

/// The descriptors after these redirections.
#[tactic(auto, using(crate::proofs::Opens::steps))]
fn slots_in(redirs: &[Redir], slots: Slots) -> Slots
    ensures { result ≡ slots_in (redirs_tree redirs.now) slots }
{
    let mut after = slots;
    for redir in redirs {
        after = slots_after_one(redir, after);
    }
    after
}

/// The descriptors after a redirection.
#[tactic(auto, using(crate::proofs::Opens::steps))]
fn slots_after_one(redirection: &Redir, slots: Slots) -> Slots
    ensures { (rest : Many redir) → slots_in (more (redir_tree redirection.now) rest) slots ≡ slots_in rest result }
{
    let file = Slot::To(Handle(0));
    match redirection {
        Redir::Open { slot, .. } => with_slot(slots, *slot, file),
        Redir::Copy { to, from } => with_slot(slots, *to, slot_of(slots, *from)),
        Redir::Here(_) => with_slot(slots, 0, file),
    }
}
