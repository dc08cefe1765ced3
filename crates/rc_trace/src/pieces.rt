//! What shells are to run, as a script would write it.

ghost use Rattle.std.specs.Prelude.{◌≡◌, ◌++◌, IfOk, OnOk, map, option_map, string_bytes};
ghost use Rattle.rc_model.specs.Handed.Arguments.{after_mark, options};
ghost use Rattle.rc_text.specs.Texts.{text_bytes};
ghost use Rattle.rc_trace.specs.Starts.{in_braces, is_braced, piece_text, pieces_text, shell_text, shell_words};
ghost use Rattle.rc_trace.specs.Starts.{strict_text, text_of, tree_text};
ghost use Rattle.rc_trace.specs.Views.{piece_of};
ghost use Rattle.rc_tree.specs.View.{cmd_tree};

use crate::quotes::{past, push_visible_text, push_words};
use rc_model::InputError;
use rc_print::print;
use rc_spelling::read_spelling;
use rc_text::Text;
use rc_tree::Cmd;
use std::alloc::{AllocError, Global};

/// The mark of an image in one piece.
const MARK: &str = "rc1;";

/// Writes what a shell is to run.
#[tactic(auto, unfolding(crate::specs::Starts::shell_text))]
pub(crate) fn push_shell(out: &mut String, args: &[Text], images: bool) -> Result<(), AllocError>
    ensures { OnOk result (string_bytes out.new
        ≡ string_bytes out.old ++ shell_text images (map text_bytes args.now)) }
{
    if images {
        return push_shell_words(out, args);
    }
    match piece(args) {
        None => push_shell_words(out, args),
        Some((strict, words)) => push_pieces(out, args, strict, words),
    }
}

/// Writes what a shell is to run, by the words of its image and those after it.
fn push_pieces(
    out: &mut String,
    args: &[Text],
    strict: bool,
    words: &[Text],
) -> Result<(), AllocError>
    ensures { OnOk result (string_bytes out.new ≡ string_bytes out.old
        ++ pieces_text (map text_bytes args.now) strict (map text_bytes words.now)) }
{
    let Some((image, others)) = words.split_first() else {
        return push_shell_words(out, args);
    };
    let text = tree_text(*out.allocator(), image.as_str())?;
    push_piece(out, args, strict, text, others)
}

/// Writes the shell itself, with its arguments as they are.
fn push_shell_words(out: &mut String, args: &[Text]) -> Result<(), AllocError>
    ensures { OnOk result (string_bytes out.new ≡ string_bytes out.old ++ shell_words (map text_bytes args.now)) }
{
    out.push_str("the shell")?;
    push_words(out, args)
}

/// Writes the text of what a shell is to run, and its arguments; or its arguments as they are, if there is
/// no text.
fn push_piece(
    out: &mut String,
    args: &[Text],
    strict: bool,
    text: Option<String>,
    words: &[Text],
) -> Result<(), AllocError>
    ensures { OnOk result (string_bytes out.new ≡ string_bytes out.old ++ piece_text (map text_bytes args.now) strict
        (option_map (λ t. string_bytes t) text) (map text_bytes words.now)) }
{
    let Some(text) = text else {
        return push_shell_words(out, args);
    };
    out.push_str(strict_text(strict))?;
    push_visible_text(out, &text)?;
    push_words(out, words)
}

/// `-e`, where a command that fails ends the shell.
fn strict_text(strict: bool) -> &'static str
    ensures { result.now ≡ strict_text strict }
{
    if strict { "-e " } else { "" }
}

/// Whether a command that fails ends a shell with these arguments, and the words of what it is to run with those after
/// them.
fn piece(args: &[Text]) -> Option<(bool, &[Text])>
    ensures { option_map piece_of result ≡ options (map text_bytes args.now) }
{
    match args {
        [option, others @ ..] if option.as_str() == "-e" => after_mark(true, others),
        _ => after_mark(false, args),
    }
}

/// The words after `-S`.
fn after_mark(strict: bool, words: &[Text]) -> Option<(bool, &[Text])>
    ensures { option_map piece_of result ≡ after_mark strict (map text_bytes words.now) }
{
    match words {
        [mark, others @ ..] if mark.as_str() == "-S" => Some((strict, others)),
        _ => None,
    }
}

/// The text of the tree of an image in one piece, if it has one.
#[tactic(auto, unfolding(crate::specs::Starts::tree_text))]
fn tree_text(alloc: Global, image: &str) -> Result<Option<String>, AllocError>
    ensures { IfOk result (λ text. option_map (λ t. string_bytes t) text ≡ tree_text image.now) }
{
    let Some(spelling) = past(MARK, image) else {
        return Ok(None);
    };
    match read_spelling(alloc, spelling.as_bytes()) {
        Ok(tree) => text_of(alloc, &tree),
        Err(InputError::Fault(_)) => Ok(None),
        Err(InputError::NoMemory) => Err(AllocError),
    }
}

/// The text of a tree, in braces; one with a here document inside has none.
fn text_of(alloc: Global, tree: &Cmd) -> Result<Option<String>, AllocError>
    ensures { IfOk result (λ text. option_map (λ t. string_bytes t) text ≡ text_of (cmd_tree tree.now)) }
{
    match print(alloc, tree) {
        Ok(text) => Ok(Some(in_braces(alloc, tree, text)?)),
        Err(InputError::Fault(_)) => Ok(None),
        Err(InputError::NoMemory) => Err(AllocError),
    }
}

/// The text of a tree in braces, which some have already.
fn in_braces(alloc: Global, tree: &Cmd, text: String) -> Result<String, AllocError>
    ensures { IfOk result (λ all. string_bytes all ≡ in_braces (cmd_tree tree.now) (string_bytes text)) }
{
    if is_braced(tree) {
        return Ok(text);
    }
    format!(in alloc; "{{{text}}}")
}

/// Whether the text of a tree has braces.
#[tactic(auto, using(rc_tree::specs::View::tree_walks))]
fn is_braced(tree: &Cmd) -> bool
    ensures { result ≡ is_braced (cmd_tree tree.now) }
{
    match tree {
        Cmd::Brace(_) => true,
        _ => false,
    }
}
