//! The roles of tokens.

/// What a pair of brackets encloses.
#[derive(Clone, Copy, PartialEq)]
pub(crate) enum Bracket {
    /// The whole script, which has no brackets.
    Script,
    /// Commands, in braces.
    Block,
    /// The branches of a `switch`.
    Switch,
    /// The commands of a backquote.
    Backquote,
    /// The commands of a condition, in parentheses.
    Condition,
    /// Words, in parentheses.
    Words,
}

/// What a token does.
#[derive(Clone, Copy, PartialEq)]
pub(crate) enum Part {
    /// It is a word, a part of one or an operator.
    Plain,
    /// It is not written.
    Nothing,
    Open(Bracket),
    Close,
    /// It begins a case line.
    Case,
    /// It ends a command, and is not written.
    End,
    /// It ends a command, and is written.
    WrittenEnd,
    /// It is a newline after `&&`, `||` or a bar.
    GoesOn,
    /// It is a newline before the command or the brace of a control form.
    Headed,
    /// It is a newline between words in parentheses.
    Between,
}

/// What a token is to the layout.
#[derive(Clone, Copy)]
pub(crate) struct Role {
    pub(crate) part: Part,
    /// Whether it is a further part of the argument before it.
    pub(crate) continues: bool,
    /// Whether a blank precedes it if it stays on the line.
    pub(crate) is_apart: bool,
    /// Whether it opens brackets whose commands have lines of their own, or is a bar that ends its line.
    pub(crate) is_broken: bool,
    /// Whether a case line comes next, after newlines and comments.
    pub(crate) leads_to_case: bool,
}

impl Role {
    /// The role of a token that stands by itself.
    pub(crate) fn new(part: Part) -> Role {
        Role {
            part,
            continues: false,
            is_apart: true,
            is_broken: false,
            leads_to_case: false,
        }
    }
}

/// Marks what comes before case lines.
pub(crate) fn mark_cases(roles: &mut [Role]) {
    let mut is_case = false;
    for role in roles.iter_mut().rev() {
        if role.part == Part::End {
            role.leads_to_case = is_case;
        } else {
            is_case = role.part == Part::Case;
        }
    }
}
