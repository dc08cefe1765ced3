//! The types of the abstract syntax tree. Their drops are written out, so that code that drops a tree calls them, and
//! what they do is proved here alone.

use crate::literal_text::LiteralText;
use rc_model::{Logic, Mode};
use std::rc::Rc;

/// A command.
#[cycle(tree)]
pub enum Cmd {
    Empty,
    Seq(Vec<Item>),
    Simple(Vec<Arg>),
    /// Without a command, or with an empty one, they are plain assignments, else they are local to the command.
    Assign(Vec<(Arg, Arg)>, Option<Box<Cmd>>),
    Redirect(Vec<Redir>, Box<Cmd>),
    /// The last stage is separate.
    Pipeline(Rc<Vec<Stage>>, Box<Cmd>),
    AndOr(Box<Cmd>, Vec<(Logic, Cmd)>),
    Not(Box<Cmd>),
    Subshell(Rc<Cmd>),
    If(Box<Cmd>, Box<Cmd>),
    IfNot(Box<Cmd>),
    While(Box<Cmd>, Box<Cmd>),
    /// A `for` over `$*`.
    ForAll(Arg, Box<Cmd>),
    For(Arg, Vec<Arg>, Box<Cmd>),
    Switch(Arg, Vec<Branch>),
    Match(Arg, Vec<Arg>),
    Define(Vec<Arg>, Rc<Cmd>),
    Undefine(Vec<Arg>),
    Brace(Box<Cmd>),
}

impl Drop for Cmd {
    #[cycle(drop)]
    fn drop(self) {
        match self {
            Cmd::Empty
            | Cmd::Seq(_)
            | Cmd::Simple(_)
            | Cmd::Assign(_, _)
            | Cmd::Redirect(_, _)
            | Cmd::Pipeline(_, _)
            | Cmd::AndOr(_, _)
            | Cmd::Not(_)
            | Cmd::Subshell(_)
            | Cmd::If(_, _)
            | Cmd::IfNot(_)
            | Cmd::While(_, _)
            | Cmd::ForAll(_, _)
            | Cmd::For(_, _, _)
            | Cmd::Switch(_, _)
            | Cmd::Match(_, _)
            | Cmd::Define(_, _)
            | Cmd::Undefine(_)
            | Cmd::Brace(_) => (),
        }
    }
}

/// An item of a sequence.
#[cycle(tree)]
pub struct Item {
    pub cmd: Cmd,
    pub background: bool,
}

impl Drop for Item {
    #[cycle(drop)]
    fn drop(self) {
        let Item {
            cmd: _,
            background: _,
        } = self;
    }
}

/// A stage of a pipeline, with the descriptor that goes into the pipe.
#[cycle(tree)]
pub struct Stage {
    pub cmd: Cmd,
    pub slot: u8,
}

impl Drop for Stage {
    #[cycle(drop)]
    fn drop(self) {
        let Stage { cmd: _, slot: _ } = self;
    }
}

/// A case line of a `switch`, with the commands that follow it.
#[cycle(tree)]
pub struct Branch {
    pub patterns: Vec<Arg>,
    pub body: Box<Cmd>,
}

impl Drop for Branch {
    #[cycle(drop)]
    fn drop(self) {
        let Branch {
            patterns: _,
            body: _,
        } = self;
    }
}

/// An argument of a command.
#[cycle(tree)]
pub enum Arg {
    Lit { quoted: bool, text: LiteralText },
    Concat(Vec<Arg>),
    Paren(Vec<Arg>),
    Var(Box<Arg>),
    Count(Box<Arg>),
    Flat(Box<Arg>),
    Sub(Box<Arg>, Vec<Arg>),
    Back(Rc<Cmd>),
}

/// An argument moves whole wherever it is put into a list, so it stays small: the mark of a literal fills the room that
/// its text leaves.
const _: () = prove!(size_of::<Arg>() == 40);

impl Drop for Arg {
    #[cycle(drop)]
    fn drop(self) {
        match self {
            Arg::Lit { quoted: _, text: _ }
            | Arg::Concat(_)
            | Arg::Paren(_)
            | Arg::Var(_)
            | Arg::Count(_)
            | Arg::Flat(_)
            | Arg::Sub(_, _)
            | Arg::Back(_) => (),
        }
    }
}

/// A redirection.
#[cycle(tree)]
pub enum Redir {
    Open { mode: Mode, slot: u8, file: Arg },
    Copy { to: u8, from: u8 },
    Here(Vec<Piece>),
}

impl Drop for Redir {
    #[cycle(drop)]
    fn drop(self) {
        match self {
            Redir::Open {
                mode: _,
                slot: _,
                file: _,
            }
            | Redir::Copy { to: _, from: _ }
            | Redir::Here(_) => (),
        }
    }
}

/// A piece of a here document: a literal text, or the name of a variable.
pub enum Piece {
    Text(String),
    Name(String),
}

impl Drop for Piece {
    fn drop(self) {
        match self {
            Piece::Text(_) | Piece::Name(_) => (),
        }
    }
}
