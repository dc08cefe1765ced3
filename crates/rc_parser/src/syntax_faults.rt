//! Why the tokens of a script have no tree.

ghost use Rattle.std.specs.Prelude.{◌≡◌, ◌≤◌, length};
ghost use Rattle.rc_model.specs.Syntax.Accepted.{longest_script};
ghost use Rattle.rc_lexer.specs.Views.{tokens_of};
ghost use Rattle.rc_model.specs.Mirrors.FirstFault.{line_left, placed};

use crate::text::line_of;
use crate::token_stream::token_faults::TokenFault;
use rc_lexer::Token;
use rc_model::{DescentFault, FaultKind, SyntaxFault};

/// The fault of a script whose tokens have this fault.
pub(crate) fn syntax_fault(script: &[u8], tokens: &[Token], found: TokenFault) -> SyntaxFault
    requires { length script.now ≤ longest_script }
    ensures { result ≡ placed (line_left script.now (tokens_of script.now tokens.now) found.left) found.fault }
{
    let line = line_at(script, tokens, found.left);
    match found.fault {
        DescentFault::Unexpected => SyntaxFault {
            kind: FaultKind::Unexpected,
            line,
        },
        DescentFault::IfNot => SyntaxFault {
            kind: FaultKind::IfNot,
            line,
        },
        DescentFault::TooDeep => SyntaxFault {
            kind: FaultKind::TooDeep,
            line: 0,
        },
        DescentFault::TooManyStages => SyntaxFault {
            kind: FaultKind::TooManyStages,
            line,
        },
    }
}

/// The line of the first token that is left, or of the end of the script.
fn line_at(script: &[u8], tokens: &[Token], left: usize) -> usize
    requires { length script.now ≤ longest_script }
    ensures { result ≡ line_left script.now (tokens_of script.now tokens.now) left }
{
    match tokens.get(tokens.len().saturating_sub(left)) {
        Some(token) => token.line as usize,
        None => line_of(script, script.len()),
    }
}
