//! The spelling of a tree in images: writing it, and reading it.
#![tactic(auto)]

mod check;
mod image_error;
mod image_numbers;
mod leaves;
mod marks;
mod node_reader;
mod nodes;
mod plain_texts;
mod shape;
mod tree_reader;

ghost use Rattle.std.specs.Prelude.{◌≡◌, ◌++◌, [], IfOk, OnOk, string_bytes};
ghost use Rattle.std.specs.Fmt.{decimal};
ghost use Rattle.rc_model.specs.Syntax.Tree.{count};
ghost use Rattle.rc_model.specs.Syntax.Tree as t;
ghost use Rattle.rc_model.specs.Handed.Image.{node_image, many_image, list_image, text_image, literal_mark};
ghost use Rattle.rc_model.specs.Handed.Image.{item_mark, logic_mark, opening_mark};
ghost use Rattle.rc_tree.specs.View.{cmd_tree, body_tree, arg_tree, redir_tree, piece_tree, pieces_tree};
ghost use Rattle.rc_tree.specs.View.{args_tree, items_tree, pairs_tree, redirs_tree, stages_tree, links_tree};
ghost use Rattle.rc_tree.specs.View.{branches_tree};

pub use check::check_spelling;
pub use image_error::ImageError;
pub use image_numbers::{begins_number, number};
use rc_tree::{Arg, Branch, Cmd, Item, Logic, Mode, Piece, Redir, Stage};
use std::alloc::AllocError;
pub use tree_reader::read_spelling;

/// Writes a number.
fn push_number(out: &mut String, number: usize) -> Result<(), AllocError>
    ensures { OnOk result (string_bytes out.new ≡ string_bytes out.old ++ decimal number) }
{
    let digits = number.to_string(*out.allocator())?;
    out.push_str(&digits)
}

/// Writes a text, after its length in bytes.
fn push_text(out: &mut String, text: &str) -> Result<(), AllocError>
    ensures { OnOk result (string_bytes out.new ≡ string_bytes out.old ++ text_image text.now) }
{
    push_number(out, text.len())?;
    out.push_str(":")?;
    out.push_str(text)
}

/// Writes the length of a list.
fn push_count(out: &mut String, count: usize) -> Result<(), AllocError>
    ensures { OnOk result (string_bytes out.new ≡ string_bytes out.old ++ list_image count []) }
{
    push_number(out, count)?;
    out.push_str(",")
}

/// The mark of a word, which is different for a quoted one.
fn literal_mark(quoted: bool) -> &'static str
    ensures { result.now ≡ literal_mark quoted }
{
    if quoted { "q" } else { "w" }
}

/// The mark of an item, which is different in the background.
fn item_mark(background: bool) -> &'static str
    ensures { result.now ≡ item_mark background }
{
    if background { "&" } else { ";" }
}

/// The marks of `&&` and `||`.
fn logic_mark(logic: Logic) -> &'static str
    ensures { result.now ≡ logic_mark logic }
{
    match logic {
        Logic::And => "&",
        Logic::Or => "|",
    }
}

/// Writes the mode of an opened file, and its descriptor.
fn push_opening(out: &mut String, mode: Mode, slot: u8) -> Result<(), AllocError>
    ensures { OnOk result (string_bytes out.new ≡ string_bytes out.old ++ opening_mark mode slot) }
{
    match mode {
        Mode::Read => out.push_str("<"),
        Mode::Write => {
            out.push_str(">")?;
            push_number(out, slot as usize)
        }
        Mode::Append => {
            out.push_str("+")?;
            push_number(out, slot as usize)
        }
    }
}

/// Writes a piece of a here document.
#[tactic(auto, using(crate::proofs::Spelling::spelling))]
fn push_piece(out: &mut String, piece: &Piece) -> Result<(), AllocError>
    ensures { OnOk result (string_bytes out.new ≡ string_bytes out.old ++ node_image (piece_tree piece.now)) }
{
    match piece {
        Piece::Text(text) => {
            out.push_str("t")?;
            push_text(out, text)
        }
        Piece::Name(name) => {
            out.push_str("v")?;
            push_text(out, name)
        }
    }
}

#[tactic(auto, using(crate::proofs::Spelling::spelling))]
fn push_pieces(out: &mut String, pieces: &[Piece]) -> Result<(), AllocError>
    ensures { OnOk result (string_bytes out.new ≡ string_bytes out.old
        ++ list_image (count (pieces_tree pieces.now)) (many_image (pieces_tree pieces.now))) }
{
    push_count(out, pieces.len())?;
    for piece in pieces {
        push_piece(out, piece)?;
    }
    Ok(())
}

/// Appends the spelling of a command to a text, which is gone if memory is refused, since it may have a part of it
/// then.
pub fn push_spelling(mut text: String, cmd: &Cmd) -> Result<String, AllocError>
    ensures { IfOk result (λ spelled. string_bytes spelled ≡ string_bytes text ++ node_image (cmd_tree cmd.now)) }
{
    push_cmd(&mut text, cmd)?;
    Ok(text)
}

#[cycle(spell)]
#[tactic(auto, using(crate::proofs::Spelling::spelling))]
fn push_cmd(out: &mut String, cmd: &Cmd) -> Result<(), AllocError>
    ensures { OnOk result (string_bytes out.new ≡ string_bytes out.old ++ node_image (cmd_tree cmd.now)) }
{
    match cmd {
        Cmd::Empty => out.push_str("e"),
        Cmd::Seq(items) => {
            out.push_str("s")?;
            push_items(out, items)
        }
        Cmd::Simple(words) => push_marked_args(out, "c", words),
        Cmd::Assign(pairs, body) => push_assign(out, pairs, body),
        Cmd::Redirect(redirs, body) => push_redirect(out, redirs, body),
        Cmd::Pipeline(stages, last) => push_pipeline(out, stages, last),
        Cmd::AndOr(first, links) => push_and_or(out, first, links),
        Cmd::Not(body) => push_marked(out, "!", body),
        Cmd::Subshell(body) => push_marked(out, "@", body),
        Cmd::If(condition, body) => push_conditional(out, "i", condition, body),
        Cmd::IfNot(body) => push_marked(out, "n", body),
        Cmd::While(condition, body) => push_conditional(out, "w", condition, body),
        Cmd::ForAll(name, body) => {
            push_marked_arg(out, "f", name)?;
            push_cmd(out, body)
        }
        Cmd::For(name, words, body) => push_for(out, name, words, body),
        Cmd::Switch(subject, branches) => {
            push_marked_arg(out, "S", subject)?;
            push_branches(out, branches)
        }
        Cmd::Match(subject, patterns) => {
            push_marked_arg(out, "~", subject)?;
            push_args(out, patterns)
        }
        Cmd::Define(names, body) => {
            push_marked_args(out, "d", names)?;
            push_cmd(out, body)
        }
        Cmd::Undefine(names) => push_marked_args(out, "u", names),
        Cmd::Brace(body) => push_marked(out, "b", body),
    }
}

#[cycle(spell)]
#[tactic(auto, using(crate::proofs::Spelling::spelling))]
fn push_assign(
    out: &mut String,
    pairs: &[(Arg, Arg)],
    body: &Option<Box<Cmd>>,
) -> Result<(), AllocError>
    ensures { OnOk result (string_bytes out.new ≡ string_bytes out.old
        ++ node_image (t.Assign (pairs_tree pairs.now) (body_tree body.now))) }
{
    out.push_str("=")?;
    push_pairs(out, pairs)?;
    match body {
        None => out.push_str("e"),
        Some(body) => push_cmd(out, body),
    }
}

#[cycle(spell)]
#[tactic(auto, using(crate::proofs::Spelling::spelling))]
fn push_redirect(out: &mut String, redirs: &[Redir], body: &Cmd) -> Result<(), AllocError>
    ensures { OnOk result (string_bytes out.new ≡ string_bytes out.old
        ++ node_image (t.Redirect (redirs_tree redirs.now) (cmd_tree body.now))) }
{
    out.push_str("r")?;
    push_redirs(out, redirs)?;
    push_cmd(out, body)
}

#[cycle(spell)]
#[tactic(auto, using(crate::proofs::Spelling::spelling))]
fn push_pipeline(out: &mut String, stages: &[Stage], last: &Cmd) -> Result<(), AllocError>
    ensures { OnOk result (string_bytes out.new ≡ string_bytes out.old
        ++ node_image (t.Pipeline (stages_tree stages.now) (cmd_tree last.now))) }
{
    out.push_str("p")?;
    push_stages(out, stages)?;
    push_cmd(out, last)
}

#[cycle(spell)]
#[tactic(auto, using(crate::proofs::Spelling::spelling))]
fn push_and_or(out: &mut String, first: &Cmd, links: &[(Logic, Cmd)]) -> Result<(), AllocError>
    ensures { OnOk result (string_bytes out.new ≡ string_bytes out.old
        ++ node_image (t.AndOr (cmd_tree first.now) (links_tree links.now))) }
{
    push_marked(out, "a", first)?;
    push_links(out, links)
}

/// Writes a tag, a condition and the command that it governs.
#[cycle(spell)]
fn push_conditional(
    out: &mut String,
    tag: &str,
    condition: &Cmd,
    body: &Cmd,
) -> Result<(), AllocError>
    ensures { OnOk result (string_bytes out.new ≡ string_bytes out.old
        ++ (tag.now ++ (node_image (cmd_tree condition.now) ++ node_image (cmd_tree body.now)))) }
{
    push_marked(out, tag, condition)?;
    push_cmd(out, body)
}

#[cycle(spell)]
#[tactic(auto, using(crate::proofs::Spelling::spelling))]
fn push_for(out: &mut String, name: &Arg, words: &[Arg], body: &Cmd) -> Result<(), AllocError>
    ensures { OnOk result (string_bytes out.new ≡ string_bytes out.old
        ++ node_image (t.For (arg_tree name.now) (args_tree words.now) (cmd_tree body.now))) }
{
    push_marked_arg(out, "F", name)?;
    push_args(out, words)?;
    push_cmd(out, body)
}

/// Writes a tag and a command.
#[cycle(spell)]
fn push_marked(out: &mut String, tag: &str, cmd: &Cmd) -> Result<(), AllocError>
    ensures { OnOk result (string_bytes out.new ≡ string_bytes out.old ++ (tag.now ++ node_image (cmd_tree cmd.now))) }
{
    out.push_str(tag)?;
    push_cmd(out, cmd)
}

/// Writes a tag and an argument.
#[cycle(spell)]
fn push_marked_arg(out: &mut String, tag: &str, arg: &Arg) -> Result<(), AllocError>
    ensures { OnOk result (string_bytes out.new ≡ string_bytes out.old ++ (tag.now ++ node_image (arg_tree arg.now))) }
{
    out.push_str(tag)?;
    push_arg(out, arg)
}

/// Writes a tag and a list of arguments.
#[cycle(spell)]
fn push_marked_args(out: &mut String, tag: &str, args: &[Arg]) -> Result<(), AllocError>
    ensures { OnOk result (string_bytes out.new ≡ string_bytes out.old
        ++ (tag.now ++ list_image (count (args_tree args.now)) (many_image (args_tree args.now)))) }
{
    out.push_str(tag)?;
    push_args(out, args)
}

#[cycle(spell)]
#[tactic(auto, using(crate::proofs::Spelling::spelling))]
fn push_arg(out: &mut String, arg: &Arg) -> Result<(), AllocError>
    ensures { OnOk result (string_bytes out.new ≡ string_bytes out.old ++ node_image (arg_tree arg.now)) }
{
    match arg {
        Arg::Lit { text, quoted } => {
            out.push_str(literal_mark(*quoted))?;
            push_text(out, text.as_str())
        }
        Arg::Concat(parts) => push_marked_args(out, "^", parts),
        Arg::Paren(words) => push_marked_args(out, "(", words),
        Arg::Var(name) => push_marked_arg(out, "$", name),
        Arg::Count(name) => push_marked_arg(out, "#", name),
        Arg::Flat(name) => push_marked_arg(out, "\"", name),
        Arg::Sub(name, subscripts) => {
            push_marked_arg(out, "[", name)?;
            push_args(out, subscripts)
        }
        Arg::Back(body) => push_marked(out, "`", body),
    }
}

#[cycle(spell)]
#[tactic(auto, using(crate::proofs::Spelling::spelling))]
fn push_redir(out: &mut String, redir: &Redir) -> Result<(), AllocError>
    ensures { OnOk result (string_bytes out.new ≡ string_bytes out.old ++ node_image (redir_tree redir.now)) }
{
    match redir {
        Redir::Open { mode, slot, file } => {
            push_opening(out, *mode, *slot)?;
            push_arg(out, file)
        }
        Redir::Copy { to, from } => {
            out.push_str("=")?;
            push_number(out, *to as usize)?;
            push_number(out, *from as usize)
        }
        Redir::Here(pieces) => {
            out.push_str("h")?;
            push_pieces(out, pieces)
        }
    }
}

#[cycle(spell)]
#[tactic(auto, using(crate::proofs::Spelling::spelling))]
fn push_args(out: &mut String, args: &[Arg]) -> Result<(), AllocError>
    ensures { OnOk result (string_bytes out.new ≡ string_bytes out.old
        ++ list_image (count (args_tree args.now)) (many_image (args_tree args.now))) }
{
    push_count(out, args.len())?;
    for arg in args {
        push_arg(out, arg)?;
    }
    Ok(())
}

#[cycle(spell)]
#[tactic(auto, using(crate::proofs::Spelling::spelling))]
fn push_items(out: &mut String, items: &[Item]) -> Result<(), AllocError>
    ensures { OnOk result (string_bytes out.new ≡ string_bytes out.old
        ++ list_image (count (items_tree items.now)) (many_image (items_tree items.now))) }
{
    push_count(out, items.len())?;
    for item in items {
        out.push_str(item_mark(item.background))?;
        push_cmd(out, &item.cmd)?;
    }
    Ok(())
}

#[cycle(spell)]
#[tactic(auto, using(crate::proofs::Spelling::spelling))]
fn push_pairs(out: &mut String, pairs: &[(Arg, Arg)]) -> Result<(), AllocError>
    ensures { OnOk result (string_bytes out.new ≡ string_bytes out.old
        ++ list_image (count (pairs_tree pairs.now)) (many_image (pairs_tree pairs.now))) }
{
    push_count(out, pairs.len())?;
    for pair in pairs {
        push_arg(out, &pair.0)?;
        push_arg(out, &pair.1)?;
    }
    Ok(())
}

#[cycle(spell)]
#[tactic(auto, using(crate::proofs::Spelling::spelling))]
fn push_redirs(out: &mut String, redirs: &[Redir]) -> Result<(), AllocError>
    ensures { OnOk result (string_bytes out.new ≡ string_bytes out.old
        ++ list_image (count (redirs_tree redirs.now)) (many_image (redirs_tree redirs.now))) }
{
    push_count(out, redirs.len())?;
    for redir in redirs {
        push_redir(out, redir)?;
    }
    Ok(())
}

#[cycle(spell)]
#[tactic(auto, using(crate::proofs::Spelling::spelling))]
fn push_stages(out: &mut String, stages: &[Stage]) -> Result<(), AllocError>
    ensures { OnOk result (string_bytes out.new ≡ string_bytes out.old
        ++ list_image (count (stages_tree stages.now)) (many_image (stages_tree stages.now))) }
{
    push_count(out, stages.len())?;
    for stage in stages {
        push_number(out, stage.slot as usize)?;
        push_cmd(out, &stage.cmd)?;
    }
    Ok(())
}

#[cycle(spell)]
#[tactic(auto, using(crate::proofs::Spelling::spelling))]
fn push_links(out: &mut String, links: &[(Logic, Cmd)]) -> Result<(), AllocError>
    ensures { OnOk result (string_bytes out.new ≡ string_bytes out.old
        ++ list_image (count (links_tree links.now)) (many_image (links_tree links.now))) }
{
    push_count(out, links.len())?;
    for link in links {
        out.push_str(logic_mark(link.0))?;
        push_cmd(out, &link.1)?;
    }
    Ok(())
}

#[cycle(spell)]
#[tactic(auto, using(crate::proofs::Spelling::spelling))]
fn push_branches(out: &mut String, branches: &[Branch]) -> Result<(), AllocError>
    ensures { OnOk result (string_bytes out.new ≡ string_bytes out.old
        ++ list_image (count (branches_tree branches.now)) (many_image (branches_tree branches.now))) }
{
    push_count(out, branches.len())?;
    for branch in branches {
        push_args(out, &branch.patterns)?;
        push_cmd(out, &branch.body)?;
    }
    Ok(())
}
