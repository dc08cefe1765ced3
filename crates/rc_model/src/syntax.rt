//! Small parts of the language.

ghost use Rattle.std.specs.Prelude.{◌≡◌};
ghost use Rattle.rc_model.specs.Syntax.Ahead.{keyword};

/// Whether a command runs if the one before was true, or if it was not.
#[derive(Clone, Copy, PartialEq)]
pub enum Logic {
    And,
    Or,
}

/// A place in a script: the number of bytes before it, and its line.
#[derive(Clone, Copy)]
pub struct Place {
    pub byte: usize,
    pub line: usize,
}

/// The context directly before a place.
#[derive(Clone, Copy)]
pub enum Previous {
    /// Nothing that matters to what follows.
    Apart,
    Word,
    Quoted,
    Name,
    /// A `$` with its name still to come.
    Dollar,
    /// A `<<` between these places, with its mark still to come.
    Here(Place, Place),
}

/// The class of a character outside of quotes and comments.
#[derive(Clone, Copy)]
pub enum Class {
    Operates,
    Blank,
    LineEnd,
    Hash,
    Quote,
    Backslash,
    Ordinary,
}

/// The keywords, and `Plain` for any other word.
#[derive(Clone, Copy)]
pub enum Keyword {
    For,
    In,
    While,
    If,
    Not,
    Switch,
    Fn,
    Match,
    Bang,
    At,
    Plain,
}

impl Keyword {
    /// Returns the keyword that an unquoted word is.
    pub fn named(word: &str) -> Keyword
        ensures { result ≡ keyword word.now }
    {
        match word {
            "for" => Keyword::For,
            "in" => Keyword::In,
            "while" => Keyword::While,
            "if" => Keyword::If,
            "not" => Keyword::Not,
            "switch" => Keyword::Switch,
            "fn" => Keyword::Fn,
            "~" => Keyword::Match,
            "!" => Keyword::Bang,
            "@" => Keyword::At,
            _ => Keyword::Plain,
        }
    }
}
