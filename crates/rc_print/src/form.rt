//! The text of a command apart from that of its parts: order, operators and separators.

ghost use Rattle.std.specs.Prelude.{◌≡◌, ◌++◌, OnErr, OnOk, string_bytes, codes, if◌then◌else◌};
ghost use Rattle.rc_model.specs.Syntax.Printing.{stands_first, begins_with_case, begin_with_case, literal, bar, sign};
ghost use Rattle.rc_model.specs.Syntax.Printing.{opening, copying};
ghost use Rattle.rc_tree.specs.View.{cmd_tree, arg_tree, args_tree};

use rc_model::{Logic, Mode};
use rc_text::push_quoted;
use rc_tree::{Arg, Cmd};
use std::alloc::AllocError;

/// Whether redirections follow the command.
#[tactic(auto, using(rc_tree::specs::View::tree_walks))]
pub(crate) fn stands_first(cmd: &Cmd, begins: bool) -> bool
    ensures { result ≡ stands_first (cmd_tree cmd.now) begins }
{
    match cmd {
        Cmd::Simple(words) => !(begins && begin_with_case(words)),
        Cmd::Brace(_) | Cmd::Switch(_, _) => true,
        _ => false,
    }
}

#[cycle(begin)]
#[tactic(auto, using(rc_tree::specs::View::tree_walks))]
fn begins_with_case(arg: &Arg) -> bool
    ensures { result ≡ begins_with_case (arg_tree arg.now) }
{
    match arg {
        Arg::Lit { text, quoted } => !*quoted && text.as_str() == "case",
        Arg::Concat(parts) => begin_with_case(parts),
        _ => false,
    }
}

#[cycle(begin)]
#[tactic(auto, using(rc_tree::specs::View::tree_walks))]
fn begin_with_case(words: &[Arg]) -> bool
    ensures { result ≡ begin_with_case (args_tree words.now) }
{
    match words {
        [first, ..] => begins_with_case(first),
        [] => false,
    }
}

/// The separator between an item and the next one.
pub(crate) fn separator(background: bool) -> &'static str
    ensures { result.now ≡ (if background then codes " " else codes "; ") }
{
    if background { " " } else { "; " }
}

/// The bar after a stage.
pub(crate) fn bar(slot: u8) -> &'static str
    ensures { result.now ≡ bar slot }
{
    if slot == 2 { " |[2] " } else { " | " }
}

/// How `&&` and `||` are spelled.
pub(crate) fn sign(logic: Logic) -> &'static str
    ensures { result.now ≡ sign logic }
{
    match logic {
        Logic::And => " && ",
        Logic::Or => " || ",
    }
}

/// The operator before the name of a file.
pub(crate) fn opening(mode: Mode, slot: u8) -> &'static str
    ensures { result.now ≡ opening mode slot }
{
    match (mode, slot) {
        (Mode::Read, _) => "< ",
        (Mode::Write, 2) => ">[2] ",
        (Mode::Write, _) => "> ",
        (Mode::Append, 2) => ">>[2] ",
        (Mode::Append, _) => ">> ",
    }
}

/// A copy of a descriptor.
pub(crate) fn copying(to: u8, from: u8) -> &'static str
    ensures { result.now ≡ copying to from }
{
    if to == 2 { ">[2=1]" } else { ">[1=2]" }
}

/// Writes a word as a script spells it.
pub(crate) fn print_literal(out: &mut String, text: &str, quoted: bool) -> Result<(), AllocError>
    ensures ok { OnOk result (string_bytes out.new ≡ string_bytes out.old ++ literal text.now quoted) }
    ensures err { OnErr result (string_bytes out.new ≡ string_bytes out.old) }
{
    if quoted {
        push_quoted(out, text)
    } else {
        out.push_str(text)
    }
}
