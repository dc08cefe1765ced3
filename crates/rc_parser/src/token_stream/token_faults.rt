//! What is wrong with tokens.

ghost use Rattle.std.specs.Prelude.{◌≡◌, length};
ghost use Rattle.rc_parser.specs.Tokens.{lexemes_of};

use crate::token_stream::Tokens;
use rc_model::{DescentFault, InputError};

/// A fault of the tokens, with how many of them were left there.
#[derive(Clone, Copy, Debug)]
pub struct TokenFault {
    pub fault: DescentFault,
    pub left: usize,
}

/// Why there is no tree: the first fault of the tokens, or memory was refused.
pub type TokenError = InputError<TokenFault>;

/// The fault at the first of the tokens that are left.
pub(crate) fn fault_at(fault: DescentFault, left: Tokens<'_>) -> TokenError
    ensures { result ≡ InputError.Fault (record { fault = fault; left = length (lexemes_of left.entry) }) }
{
    InputError::Fault(TokenFault {
        fault,
        left: left.len(),
    })
}
