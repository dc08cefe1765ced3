//! What follows the mark of a node.

use rc_model::Mode;

/// What follows the mark of a command.
#[derive(Clone, Copy)]
pub(crate) enum CmdShape {
    /// Nothing.
    Empty,
    /// Items.
    Seq,
    /// A command and the operands that are joined to it.
    AndOr,
    /// A command.
    Body(BodyShape),
    /// Two commands.
    Bodies(BodiesShape),
    /// Arguments, at least one.
    Words(WordsShape),
    /// A list and a command.
    Front(FrontShape),
    /// An argument and more.
    Subject(SubjectShape),
}

/// A node that has one command.
#[derive(Clone, Copy)]
pub(crate) enum BodyShape {
    Not,
    Subshell,
    IfNot,
    Brace,
}

/// A node that has two commands.
#[derive(Clone, Copy)]
pub(crate) enum BodiesShape {
    If,
    While,
}

/// A node that has arguments.
#[derive(Clone, Copy)]
pub(crate) enum WordsShape {
    Simple,
    Undefine,
}

/// A node that has a list and a command.
#[derive(Clone, Copy)]
pub(crate) enum FrontShape {
    Assign,
    Redirect,
    Pipeline,
    Define,
}

/// A node that begins with an argument.
#[derive(Clone, Copy)]
pub(crate) enum SubjectShape {
    ForAll,
    For,
    Switch,
    Match,
}

/// What follows the mark of an argument.
#[derive(Clone, Copy)]
pub(crate) enum ArgShape {
    /// The text of a word.
    Word,
    /// The text of a quoted word.
    Quoted,
    /// Parts, at least two.
    Concat,
    /// Arguments.
    Paren,
    /// An argument.
    Name(NameShape),
    /// An argument and arguments.
    Sub,
    /// A command.
    Back,
}

/// A node that has the name of a variable.
#[derive(Clone, Copy)]
pub(crate) enum NameShape {
    Var,
    Count,
    Flat,
}

/// What follows the mark of a redirection.
#[derive(Clone, Copy)]
pub(crate) enum RedirShape {
    /// The file that is read.
    Input,
    /// The descriptor, and the file that is written.
    Output(Mode),
    /// Two descriptors.
    Copy,
    /// Pieces.
    Here,
}

/// A node of a list, except an argument.
#[derive(Clone, Copy)]
pub(crate) enum Part {
    /// A mark and a command.
    Item,
    /// Two arguments.
    Pair,
    /// What its own mark says.
    Redir,
    /// A descriptor and a command.
    Stage,
    /// A mark and a command.
    Link,
    /// Arguments and a command.
    Branch,
}
