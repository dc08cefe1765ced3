//! A tree as a text. A list of commands is in brackets, any other form in parentheses after its name.

use rc_tree::{Arg, Branch, Cmd, Item, Logic, Mode, Piece, Redir, Stage};
use std::alloc::{AllocError, Global};

/// The tree as a text.
pub fn dump(alloc: Global, cmd: &Cmd) -> Result<String, AllocError> {
    let mut out = String::new(alloc);
    dump_cmd(&mut out, cmd)?;
    Ok(out)
}

/// The beginning of a form.
fn opening(cmd: &Cmd) -> &'static str {
    match cmd {
        Cmd::Empty => "(",
        Cmd::Seq(_) => "[",
        Cmd::Simple(_) => "(run",
        Cmd::Assign(_, _) => "(set",
        Cmd::Redirect(_, _) => "(redirect",
        Cmd::Pipeline(_, _) => "(pipe",
        Cmd::AndOr(_, _) => "(and-or ",
        Cmd::Not(_) => "(!",
        Cmd::Subshell(_) => "(@",
        Cmd::If(_, _) => "(if",
        Cmd::IfNot(_) => "(if-not",
        Cmd::While(_, _) => "(while",
        Cmd::ForAll(_, _) => "(for-all ",
        Cmd::For(_, _, _) => "(for ",
        Cmd::Switch(_, _) => "(switch ",
        Cmd::Match(_, _) => "(~ ",
        Cmd::Define(_, _) => "(fn",
        Cmd::Undefine(_) => "(undefine",
        Cmd::Brace(_) => "(brace",
    }
}

#[cycle(dump)]
fn dump_cmd(out: &mut String, cmd: &Cmd) -> Result<(), AllocError> {
    out.push_str(opening(cmd))?;
    match cmd {
        Cmd::Seq(items) => {
            dump_items(out, items)?;
            out.push(']')
        }
        _ => {
            dump_parts(out, cmd)?;
            out.push(')')
        }
    }
}

#[cycle(dump)]
fn dump_parts(out: &mut String, cmd: &Cmd) -> Result<(), AllocError> {
    match cmd {
        Cmd::Empty | Cmd::Seq(_) => Ok(()),
        Cmd::Simple(words) | Cmd::Undefine(words) => dump_args(out, words),
        Cmd::Assign(pairs, body) => dump_assign(out, pairs, body),
        Cmd::Redirect(redirs, body) => dump_redirect(out, redirs, body),
        Cmd::Pipeline(stages, last) => dump_pipeline(out, stages, last),
        Cmd::AndOr(first, links) => {
            dump_cmd(out, first)?;
            dump_links(out, links)
        }
        Cmd::Not(body) | Cmd::IfNot(body) | Cmd::Brace(body) => dump_last(out, body),
        Cmd::Subshell(body) => dump_last(out, body),
        Cmd::If(condition, body) | Cmd::While(condition, body) => {
            dump_last(out, condition)?;
            dump_last(out, body)
        }
        Cmd::ForAll(name, body) => {
            dump_arg(out, name)?;
            dump_last(out, body)
        }
        Cmd::For(name, words, body) => dump_for(out, name, words, body),
        Cmd::Switch(subject, branches) => {
            dump_arg(out, subject)?;
            dump_branches(out, branches)
        }
        Cmd::Match(subject, patterns) => {
            dump_arg(out, subject)?;
            dump_args(out, patterns)
        }
        Cmd::Define(names, body) => {
            dump_args(out, names)?;
            dump_last(out, body)
        }
    }
}

#[cycle(dump)]
fn dump_last(out: &mut String, cmd: &Cmd) -> Result<(), AllocError> {
    out.push(' ')?;
    dump_cmd(out, cmd)
}

#[cycle(dump)]
fn dump_items(out: &mut String, items: &[Item]) -> Result<(), AllocError> {
    let mut is_first = true;
    for item in items {
        if !is_first {
            out.push(' ')?;
        }
        if item.background {
            out.push_str("& ")?;
        }
        dump_cmd(out, &item.cmd)?;
        is_first = false;
    }
    Ok(())
}

#[cycle(dump)]
fn dump_args(out: &mut String, args: &[Arg]) -> Result<(), AllocError> {
    for arg in args {
        out.push(' ')?;
        dump_arg(out, arg)?;
    }
    Ok(())
}

#[cycle(dump)]
fn dump_assign(
    out: &mut String,
    pairs: &[(Arg, Arg)],
    body: &Option<Box<Cmd>>,
) -> Result<(), AllocError> {
    for pair in pairs {
        out.push_str(" (")?;
        dump_arg(out, &pair.0)?;
        out.push(' ')?;
        dump_arg(out, &pair.1)?;
        out.push(')')?;
    }
    match body {
        None => out.push_str(" ()"),
        Some(body) => dump_last(out, body),
    }
}

#[cycle(dump)]
fn dump_redirect(out: &mut String, redirs: &[Redir], body: &Cmd) -> Result<(), AllocError> {
    for redir in redirs {
        out.push_str(" (")?;
        dump_redir(out, redir)?;
        out.push(')')?;
    }
    dump_last(out, body)
}

#[cycle(dump)]
fn dump_pipeline(out: &mut String, stages: &[Stage], last: &Cmd) -> Result<(), AllocError> {
    for stage in stages {
        out.push(' ')?;
        dump_cmd(out, &stage.cmd)?;
        out.push_str(" |")?;
        out.push_str(slot(stage.slot))?;
    }
    dump_last(out, last)
}

#[cycle(dump)]
fn dump_links(out: &mut String, links: &[(Logic, Cmd)]) -> Result<(), AllocError> {
    for link in links {
        out.push_str(match link.0 {
            Logic::And => " && ",
            Logic::Or => " || ",
        })?;
        dump_cmd(out, &link.1)?;
    }
    Ok(())
}

#[cycle(dump)]
fn dump_for(out: &mut String, name: &Arg, words: &[Arg], body: &Cmd) -> Result<(), AllocError> {
    dump_arg(out, name)?;
    dump_group(out, " (list", words)?;
    dump_last(out, body)
}

#[cycle(dump)]
fn dump_branches(out: &mut String, branches: &[Branch]) -> Result<(), AllocError> {
    for branch in branches {
        out.push_str(" (case")?;
        dump_args(out, &branch.patterns)?;
        dump_last(out, &branch.body)?;
        out.push(')')?;
    }
    Ok(())
}

#[cycle(dump)]
fn dump_arg(out: &mut String, arg: &Arg) -> Result<(), AllocError> {
    match arg {
        Arg::Lit {
            text,
            quoted: false,
        } => out.push_str(text.as_str()),
        Arg::Lit { text, quoted: true } => dump_quoted(out, text.as_str()),
        Arg::Concat(parts) => dump_group(out, "(^", parts),
        Arg::Paren(words) => dump_group(out, "(list", words),
        Arg::Var(name) => dump_named(out, "($ ", name),
        Arg::Count(name) => dump_named(out, "($# ", name),
        Arg::Flat(name) => dump_named(out, "($\" ", name),
        Arg::Sub(name, subscripts) => {
            out.push_str("(sub ")?;
            dump_arg(out, name)?;
            dump_args(out, subscripts)?;
            out.push(')')
        }
        Arg::Back(body) => {
            out.push_str("(back")?;
            dump_last(out, body)?;
            out.push(')')
        }
    }
}

#[cycle(dump)]
fn dump_group(out: &mut String, opening: &str, args: &[Arg]) -> Result<(), AllocError> {
    out.push_str(opening)?;
    dump_args(out, args)?;
    out.push(')')
}

#[cycle(dump)]
fn dump_named(out: &mut String, opening: &str, name: &Arg) -> Result<(), AllocError> {
    out.push_str(opening)?;
    dump_arg(out, name)?;
    out.push(')')
}

#[cycle(dump)]
fn dump_redir(out: &mut String, redir: &Redir) -> Result<(), AllocError> {
    match redir {
        Redir::Open {
            mode,
            slot: number,
            file,
        } => {
            out.push_str(match mode {
                Mode::Read => "< ",
                Mode::Write => "> ",
                Mode::Append => ">> ",
            })?;
            out.push_str(slot(*number))?;
            out.push(' ')?;
            dump_arg(out, file)
        }
        Redir::Copy { to, from } => {
            out.push_str("copy ")?;
            out.push_str(slot(*to))?;
            out.push(' ')?;
            out.push_str(slot(*from))
        }
        Redir::Here(pieces) => dump_pieces(out, pieces),
    }
}

fn dump_pieces(out: &mut String, pieces: &[Piece]) -> Result<(), AllocError> {
    out.push_str("here")?;
    for piece in pieces {
        out.push(' ')?;
        match piece {
            Piece::Text(text) => dump_quoted(out, text)?,
            Piece::Name(name) => {
                out.push('$')?;
                out.push_str(name)?;
            }
        }
    }
    Ok(())
}

fn dump_quoted(out: &mut String, text: &str) -> Result<(), AllocError> {
    out.push('\'')?;
    out.push_str(text)?;
    out.push('\'')
}

fn slot(number: u8) -> &'static str {
    match number {
        0 => "0",
        1 => "1",
        2 => "2",
        _ => "?",
    }
}
