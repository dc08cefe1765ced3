//! What may follow a token inside its brackets.

use crate::reading::roles::Part;

/// What may come next.
#[derive(Clone, Copy, PartialEq)]
pub(crate) enum Expectation {
    /// An item of a list.
    Item,
    /// A command, after `&&`, `||` or a bar.
    Operand,
    /// The command of a control form, or none.
    Body,
    /// A command, after an assignment, a redirection, `!` or `@`.
    Prefixed,
    /// More of the first argument of a command.
    First,
    /// The argument of an assignment, or of a redirection before a command.
    Value,
    /// More of a command.
    Inside,
    /// The condition of an `if` or a `while`, or `not`.
    Condition,
    /// The head of a `for`.
    Head,
    /// The subject of a `switch`, and its brace.
    Subject,
}

impl Expectation {
    /// Whether a command begins here, so that a keyword is one.
    pub(crate) fn begins_command(self) -> bool {
        matches!(
            self,
            Expectation::Item | Expectation::Operand | Expectation::Body | Expectation::Prefixed
        )
    }

    /// What may follow a part of an argument that comes here.
    pub(crate) fn after_part(self) -> Expectation {
        if self.begins_command() {
            Expectation::First
        } else {
            self
        }
    }

    /// What may come if the argument has ended.
    pub(crate) fn after_argument(self) -> Expectation {
        match self {
            Expectation::Value => Expectation::Prefixed,
            Expectation::First => Expectation::Inside,
            _ => self,
        }
    }

    /// What a newline is here, among commands.
    pub(crate) fn newline(self) -> Part {
        match self {
            Expectation::Operand => Part::GoesOn,
            Expectation::Body | Expectation::Subject => Part::Headed,
            _ => Part::End,
        }
    }
}
