//! Printing each form of a tree.

ghost use Rattle.std.specs.Prelude.{◌≡◌, ◌++◌, [], OnOk, IfOk, true, false, string_bytes, codes};
ghost use Rattle.rc_model.specs.Syntax.Tree as t;
ghost use Rattle.rc_model.specs.Syntax.Printing.{cmd_text, arg_text, redir_text, arg_texts, pair_texts, redir_texts};
ghost use Rattle.rc_model.specs.Syntax.Printing.{stages_text, links_text, item_lines, branch_lines, branch_items};
ghost use Rattle.rc_model.specs.Syntax.Printing.{body_lines};
ghost use Rattle.rc_print.specs.Lines.{led, trailed, lines_after, parting_after};
ghost use Rattle.rc_tree.specs.View.{cmd_tree, body_tree, arg_tree, redir_tree};
ghost use Rattle.rc_tree.specs.View.{args_tree, items_tree, pairs_tree, redirs_tree, stages_tree, links_tree};
ghost use Rattle.rc_tree.specs.View.{branches_tree};

use crate::form::{bar, copying, opening, print_literal, separator, sign, stands_first};
use rc_model::Logic;
use rc_tree::{Arg, Branch, Cmd, Item, Redir, Stage, is_empty};
use std::alloc::AllocError;

/// Writes a command. `begins` means that an item of a branch begins with it.
#[cycle(print)]
#[tactic(auto, using(crate::proofs::Texts::writing))]
pub(crate) fn print_cmd(out: &mut String, cmd: &Cmd, begins: bool) -> Result<(), AllocError>
    ensures { OnOk result (string_bytes out.new ≡ string_bytes out.old ++ cmd_text (cmd_tree cmd.now) begins) }
{
    match cmd {
        Cmd::Empty => Ok(()),
        Cmd::Seq(items) => {
            print_items(out, items, "", begins, false)?;
            Ok(())
        }
        Cmd::Simple(words) => print_args(out, words, "", " "),
        Cmd::Assign(pairs, body) => print_assign(out, pairs, body),
        Cmd::Redirect(redirs, body) => print_redirect(out, redirs, body, begins),
        Cmd::Pipeline(stages, last) => print_pipeline(out, stages, last, begins),
        Cmd::AndOr(first, links) => print_and_or(out, first, links, begins),
        Cmd::Not(body) => print_after(out, "! ", body),
        Cmd::Subshell(body) => print_after(out, "@ ", body),
        Cmd::If(condition, body) => print_conditional(out, "if(", condition, body),
        Cmd::IfNot(body) => print_after(out, "if not ", body),
        Cmd::While(condition, body) => print_conditional(out, "while(", condition, body),
        Cmd::ForAll(name, body) => {
            print_arg_after(out, "for(", name)?;
            print_after(out, ") ", body)
        }
        Cmd::For(name, words, body) => print_for(out, name, words, body),
        Cmd::Switch(subject, branches) => print_switch(out, subject, branches),
        Cmd::Match(subject, patterns) => print_match(out, subject, patterns),
        Cmd::Define(names, body) => {
            print_words_after(out, "fn ", names)?;
            print_braced(out, " {", body)
        }
        Cmd::Undefine(names) => print_words_after(out, "fn ", names),
        Cmd::Brace(body) => print_braced(out, "{", body),
    }
}

/// Writes assignments, and their command after a blank, if it has a text.
#[cycle(print)]
#[tactic(auto, using(crate::proofs::Texts::writing))]
fn print_assign(
    out: &mut String,
    pairs: &[(Arg, Arg)],
    body: &Option<Box<Cmd>>,
) -> Result<(), AllocError>
    ensures { OnOk result (string_bytes out.new
        ≡ string_bytes out.old ++ cmd_text (t.Assign (pairs_tree pairs.now) (body_tree body.now)) false) }
{
    print_pairs(out, pairs)?;
    match body {
        None => Ok(()),
        Some(body) => {
            if is_empty(body) {
                Ok(())
            } else {
                print_after(out, " ", body)
            }
        }
    }
}

/// Writes redirections and their command, in the order that the command needs.
#[cycle(print)]
#[tactic(auto, using(crate::proofs::Texts::writing))]
fn print_redirect(
    out: &mut String,
    redirs: &[Redir],
    body: &Cmd,
    begins: bool,
) -> Result<(), AllocError>
    ensures { OnOk result (string_bytes out.new
        ≡ string_bytes out.old ++ cmd_text (t.Redirect (redirs_tree redirs.now) (cmd_tree body.now)) begins) }
{
    if is_empty(body) {
        print_redirs(out, redirs, "")
    } else if stands_first(body, begins) {
        print_cmd(out, body, false)?;
        print_redirs(out, redirs, " ")
    } else {
        print_redirs_before(out, redirs)?;
        print_cmd(out, body, false)
    }
}

#[cycle(print)]
#[tactic(auto, using(crate::proofs::Texts::writing))]
fn print_pipeline(
    out: &mut String,
    stages: &[Stage],
    last: &Cmd,
    begins: bool,
) -> Result<(), AllocError>
    ensures { OnOk result (string_bytes out.new
        ≡ string_bytes out.old ++ cmd_text (t.Pipeline (stages_tree stages.now) (cmd_tree last.now)) begins) }
{
    print_stages(out, stages, begins)?;
    print_cmd(out, last, false)
}

#[cycle(print)]
#[tactic(auto, using(crate::proofs::Texts::writing))]
fn print_and_or(
    out: &mut String,
    first: &Cmd,
    links: &[(Logic, Cmd)],
    begins: bool,
) -> Result<(), AllocError>
    ensures { OnOk result (string_bytes out.new
        ≡ string_bytes out.old ++ cmd_text (t.AndOr (cmd_tree first.now) (links_tree links.now)) begins) }
{
    print_cmd(out, first, begins)?;
    print_links(out, links)
}

/// Writes `text`, which ends with an opening parenthesis, the condition, a closing parenthesis and the body.
#[cycle(print)]
fn print_conditional(
    out: &mut String,
    text: &str,
    condition: &Cmd,
    body: &Cmd,
) -> Result<(), AllocError>
    ensures { OnOk result (string_bytes out.new ≡ string_bytes out.old ++ (text.now
        ++ (cmd_text (cmd_tree condition.now) false ++ (codes ") " ++ cmd_text (cmd_tree body.now) false)))) }
{
    print_after(out, text, condition)?;
    print_after(out, ") ", body)
}

#[cycle(print)]
#[tactic(auto, using(crate::proofs::Texts::writing))]
fn print_for(out: &mut String, name: &Arg, words: &[Arg], body: &Cmd) -> Result<(), AllocError>
    ensures { OnOk result (string_bytes out.new ≡ string_bytes out.old
        ++ cmd_text (t.For (arg_tree name.now) (args_tree words.now) (cmd_tree body.now)) false) }
{
    print_arg_after(out, "for(", name)?;
    print_words_after(out, " in ", words)?;
    print_after(out, ") ", body)
}

#[cycle(print)]
#[tactic(auto, using(crate::proofs::Texts::writing))]
fn print_switch(out: &mut String, subject: &Arg, branches: &[Branch]) -> Result<(), AllocError>
    ensures { OnOk result (string_bytes out.new
        ≡ string_bytes out.old ++ cmd_text (t.Switch (arg_tree subject.now) (branches_tree branches.now)) false) }
{
    print_arg_after(out, "switch ", subject)?;
    out.push_str(" {")?;
    print_branches(out, branches)?;
    out.push_str("}")
}

#[cycle(print)]
#[tactic(auto, using(crate::proofs::Texts::writing))]
fn print_match(out: &mut String, subject: &Arg, patterns: &[Arg]) -> Result<(), AllocError>
    ensures { OnOk result (string_bytes out.new
        ≡ string_bytes out.old ++ cmd_text (t.Match (arg_tree subject.now) (args_tree patterns.now)) false) }
{
    print_arg_after(out, "~ ", subject)?;
    print_args(out, patterns, " ", " ")
}

#[cycle(print)]
fn print_words_after(out: &mut String, text: &str, words: &[Arg]) -> Result<(), AllocError>
    ensures { OnOk result (string_bytes out.new
        ≡ string_bytes out.old ++ (text.now ++ led [] (codes " ") (arg_texts (args_tree words.now)))) }
{
    out.push_str(text)?;
    print_args(out, words, "", " ")
}

#[cycle(print)]
fn print_after(out: &mut String, text: &str, cmd: &Cmd) -> Result<(), AllocError>
    ensures { OnOk result (string_bytes out.new
        ≡ string_bytes out.old ++ (text.now ++ cmd_text (cmd_tree cmd.now) false)) }
{
    out.push_str(text)?;
    print_cmd(out, cmd, false)
}

#[cycle(print)]
fn print_braced(out: &mut String, text: &str, cmd: &Cmd) -> Result<(), AllocError>
    ensures { OnOk result
        (string_bytes out.new
        ≡ string_bytes out.old ++ (text.now ++ (cmd_text (cmd_tree cmd.now) false ++ codes "}"))) }
{
    out.push_str(text)?;
    print_cmd(out, cmd, false)?;
    out.push_str("}")
}

#[cycle(print)]
fn print_arg_after(out: &mut String, text: &str, arg: &Arg) -> Result<(), AllocError>
    ensures { OnOk result (string_bytes out.new ≡ string_bytes out.old ++ (text.now ++ arg_text (arg_tree arg.now))) }
{
    out.push_str(text)?;
    print_arg(out, arg)
}

#[cycle(print)]
#[tactic(auto, using(crate::proofs::Texts::writing))]
fn print_arg(out: &mut String, arg: &Arg) -> Result<(), AllocError>
    ensures { OnOk result (string_bytes out.new ≡ string_bytes out.old ++ arg_text (arg_tree arg.now)) }
{
    match arg {
        Arg::Lit { text, quoted } => print_literal(out, text.as_str(), *quoted),
        Arg::Concat(parts) => print_args(out, parts, "", "^"),
        Arg::Paren(words) => {
            out.push_str("(")?;
            print_args(out, words, "", " ")?;
            out.push_str(")")
        }
        Arg::Var(name) => print_arg_after(out, "$", name),
        Arg::Count(name) => print_arg_after(out, "$#", name),
        Arg::Flat(name) => print_arg_after(out, "$\"", name),
        Arg::Sub(name, subscripts) => {
            print_arg_after(out, "$", name)?;
            out.push_str("(")?;
            print_args(out, subscripts, "", " ")?;
            out.push_str(")")
        }
        Arg::Back(body) => print_braced(out, "`{", body),
    }
}

#[cycle(print)]
#[tactic(auto, using(crate::proofs::Texts::writing))]
fn print_redir(out: &mut String, redir: &Redir) -> Result<(), AllocError>
    ensures { OnOk result (string_bytes out.new ≡ string_bytes out.old ++ redir_text (redir_tree redir.now)) }
{
    match redir {
        Redir::Open { mode, slot, file } => print_arg_after(out, opening(*mode, *slot), file),
        Redir::Copy { to, from } => out.push_str(copying(*to, *from)),
        // No tree that is printed has one.
        Redir::Here(_) => Ok(()),
    }
}

/// Writes `between` before the first argument and `mark` before each further one.
#[cycle(print)]
#[tactic(auto, using(crate::proofs::Texts::writing))]
fn print_args(out: &mut String, args: &[Arg], between: &str, mark: &str) -> Result<(), AllocError>
    ensures { OnOk result
        (string_bytes out.new ≡ string_bytes out.old ++ led between.now mark.now (arg_texts (args_tree args.now))) }
{
    let mut between = between;
    for arg in args {
        out.push_str(between)?;
        print_arg(out, arg)?;
        between = mark;
    }
    Ok(())
}

#[cycle(print)]
#[tactic(auto, using(crate::proofs::Texts::writing))]
fn print_pairs(out: &mut String, pairs: &[(Arg, Arg)]) -> Result<(), AllocError>
    ensures { OnOk result
        (string_bytes out.new ≡ string_bytes out.old ++ led [] (codes " ") (pair_texts (pairs_tree pairs.now))) }
{
    let mut between = "";
    for pair in pairs {
        print_arg_after(out, between, &pair.0)?;
        print_arg_after(out, "=", &pair.1)?;
        between = " ";
    }
    Ok(())
}

#[cycle(print)]
#[tactic(auto, using(crate::proofs::Texts::writing))]
fn print_redirs(out: &mut String, redirs: &[Redir], between: &str) -> Result<(), AllocError>
    ensures { OnOk result
        (string_bytes out.new
        ≡ string_bytes out.old ++ led between.now (codes " ") (redir_texts (redirs_tree redirs.now))) }
{
    let mut between = between;
    for redir in redirs {
        out.push_str(between)?;
        print_redir(out, redir)?;
        between = " ";
    }
    Ok(())
}

#[cycle(print)]
#[tactic(auto, using(crate::proofs::Texts::writing))]
fn print_redirs_before(out: &mut String, redirs: &[Redir]) -> Result<(), AllocError>
    ensures { OnOk result (string_bytes out.new
        ≡ string_bytes out.old ++ trailed (redir_texts (redirs_tree redirs.now))) }
{
    for redir in redirs {
        print_redir(out, redir)?;
        out.push_str(" ")?;
    }
    Ok(())
}

#[cycle(print)]
#[tactic(auto, using(crate::proofs::Texts::writing))]
fn print_stages(out: &mut String, stages: &[Stage], begins: bool) -> Result<(), AllocError>
    ensures { OnOk result (string_bytes out.new ≡ string_bytes out.old ++ stages_text (stages_tree stages.now) begins) }
{
    let mut begins = begins;
    for stage in stages {
        print_cmd(out, &stage.cmd, begins)?;
        out.push_str(bar(stage.slot))?;
        begins = false;
    }
    Ok(())
}

#[cycle(print)]
#[tactic(auto, using(crate::proofs::Texts::writing))]
fn print_links(out: &mut String, links: &[(Logic, Cmd)]) -> Result<(), AllocError>
    ensures { OnOk result (string_bytes out.new ≡ string_bytes out.old ++ links_text (links_tree links.now)) }
{
    for link in links {
        print_after(out, sign(link.0), &link.1)?;
    }
    Ok(())
}

/// Writes items with `between` before the first one, and returns the separator before a further one. `begins` means
/// that an item of a branch begins with the first item, `others` that one begins with each other item.
#[cycle(print)]
#[tactic(auto, using(crate::proofs::Texts::writing))]
fn print_items<'a>(
    out: &mut String,
    items: &[Item],
    between: &'a str,
    begins: bool,
    others: bool,
) -> Result<&'a str, AllocError>
    ensures written { OnOk result
        (string_bytes out.new ≡ string_bytes out.old ++ lines_after between.now
        (item_lines (items_tree items.now) begins others)) }
    ensures after { IfOk result (λ text. text.now
        ≡ parting_after between.now (item_lines (items_tree items.now) begins others)) }
{
    let mut between = between;
    let mut begins = begins;
    for item in items {
        out.push_str(between)?;
        print_cmd(out, &item.cmd, begins)?;
        if item.background {
            out.push_str(" &")?;
        }
        between = separator(item.background);
        begins = others;
    }
    Ok(between)
}

#[cycle(print)]
#[tactic(auto, using(crate::proofs::Texts::writing))]
fn print_branches(out: &mut String, branches: &[Branch]) -> Result<(), AllocError>
    ensures { OnOk result
        (string_bytes out.new ≡ string_bytes out.old ++ lines_after [] (branch_lines (branches_tree branches.now))) }
{
    let mut between = "";
    for branch in branches {
        out.push_str(between)?;
        out.push_str("case")?;
        print_args(out, &branch.patterns, " ", " ")?;
        between = print_body(out, &branch.body)?;
    }
    Ok(())
}

/// Writes what follows a case line, and returns the separator before a further line.
#[cycle(print)]
#[tactic(auto, using(crate::proofs::Texts::writing))]
fn print_body(out: &mut String, body: &Cmd) -> Result<&'static str, AllocError>
    ensures written { OnOk result
        (string_bytes out.new
        ≡ string_bytes out.old
        ++ lines_after (codes "; ")
        (body_lines (cmd_tree body.now) (branch_items (cmd_tree body.now)) (cmd_text (cmd_tree body.now) true))) }
    ensures after { IfOk result
        (λ text. text.now
        ≡ parting_after (codes "; ")
        (body_lines (cmd_tree body.now) (branch_items (cmd_tree body.now)) (cmd_text (cmd_tree body.now) true))) }
{
    match body {
        Cmd::Seq(items) => print_items(out, items, "; ", true, true),
        _ => {
            out.push_str("; ")?;
            print_cmd(out, body, true)?;
            Ok("; ")
        }
    }
}
