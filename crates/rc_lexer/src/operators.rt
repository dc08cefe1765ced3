//! Operators of more than one byte, as far as they have been read.

ghost use Rattle.std.specs.Prelude.{◌≡◌};
ghost use Rattle.rc_lexer.specs.Trie.{first_op, next_op, op_kind};

use crate::TokenKind;
use rc_model::Mode;

/// An operator so far.
#[derive(Clone, Copy)]
pub(crate) enum Op {
    /// `&`
    And1,
    /// `&&`
    And2,
    /// `|`
    Bar0,
    /// `||`
    BarBar,
    /// `|[`
    BarOpen,
    /// `|[1`
    BarOne,
    /// `|[2`
    BarTwo,
    /// `|[1]`
    BarOneEnd,
    /// `|[2]`
    BarTwoEnd,
    /// `>`
    Out0,
    /// `>[`
    OutOpen,
    /// `>[1`
    OutOne,
    /// `>[2`
    OutTwo,
    /// `>[1]`
    OutOneEnd,
    /// `>[2]`
    OutTwoEnd,
    /// `>[1=`
    OutOneIs,
    /// `>[2=`
    OutTwoIs,
    /// `>[1=2`
    OutOneTwo,
    /// `>[2=1`
    OutTwoOne,
    /// `>[1=2]`
    OutOneTwoEnd,
    /// `>[2=1]`
    OutTwoOneEnd,
    /// `>>`
    App0,
    /// `>>[`
    AppOpen,
    /// `>>[1`
    AppOne,
    /// `>>[2`
    AppTwo,
    /// `>>[1]`
    AppOneEnd,
    /// `>>[2]`
    AppTwoEnd,
    /// `<`
    In0,
    /// `<[`
    InOpen,
    /// `<[0`
    InZero,
    /// `<[0]`
    InZeroEnd,
    /// `<<`
    Here0,
    /// `<<[`
    HereOpen,
    /// `<<[0`
    HereZero,
    /// `<<[0]`
    HereZeroEnd,
    /// `$`
    Dollar0,
    /// `$#`
    DollarHash,
    /// `$"`
    DollarQuote,
}

/// The operator that begins with this byte.
pub(crate) fn first_op(b: u8) -> Op
    ensures { result ≡ first_op b }
{
    match b {
        b'&' => Op::And1,
        b'|' => Op::Bar0,
        b'>' => Op::Out0,
        b'<' => Op::In0,
        _ => Op::Dollar0,
    }
}

impl Op {
    /// The operator with one more byte, if some operator begins this way.
    pub(crate) fn next(self, b: u8) -> Option<Op>
        ensures { result ≡ next_op self b }
    {
        match self {
            Op::And1 if b == b'&' => Some(Op::And2),
            Op::Bar0 => match b {
                b'|' => Some(Op::BarBar),
                b'[' => Some(Op::BarOpen),
                _ => None,
            },
            Op::BarOpen => match b {
                b'1' => Some(Op::BarOne),
                b'2' => Some(Op::BarTwo),
                _ => None,
            },
            Op::BarOne if b == b']' => Some(Op::BarOneEnd),
            Op::BarTwo if b == b']' => Some(Op::BarTwoEnd),
            Op::Out0 => match b {
                b'[' => Some(Op::OutOpen),
                b'>' => Some(Op::App0),
                _ => None,
            },
            Op::OutOpen => match b {
                b'1' => Some(Op::OutOne),
                b'2' => Some(Op::OutTwo),
                _ => None,
            },
            Op::OutOne => match b {
                b']' => Some(Op::OutOneEnd),
                b'=' => Some(Op::OutOneIs),
                _ => None,
            },
            Op::OutTwo => match b {
                b']' => Some(Op::OutTwoEnd),
                b'=' => Some(Op::OutTwoIs),
                _ => None,
            },
            Op::OutOneIs if b == b'2' => Some(Op::OutOneTwo),
            Op::OutTwoIs if b == b'1' => Some(Op::OutTwoOne),
            Op::OutOneTwo if b == b']' => Some(Op::OutOneTwoEnd),
            Op::OutTwoOne if b == b']' => Some(Op::OutTwoOneEnd),
            Op::App0 if b == b'[' => Some(Op::AppOpen),
            Op::AppOpen => match b {
                b'1' => Some(Op::AppOne),
                b'2' => Some(Op::AppTwo),
                _ => None,
            },
            Op::AppOne if b == b']' => Some(Op::AppOneEnd),
            Op::AppTwo if b == b']' => Some(Op::AppTwoEnd),
            Op::In0 => match b {
                b'[' => Some(Op::InOpen),
                b'<' => Some(Op::Here0),
                _ => None,
            },
            Op::InOpen if b == b'0' => Some(Op::InZero),
            Op::InZero if b == b']' => Some(Op::InZeroEnd),
            Op::Here0 if b == b'[' => Some(Op::HereOpen),
            Op::HereOpen if b == b'0' => Some(Op::HereZero),
            Op::HereZero if b == b']' => Some(Op::HereZeroEnd),
            Op::Dollar0 => match b {
                b'#' => Some(Op::DollarHash),
                b'"' => Some(Op::DollarQuote),
                _ => None,
            },
            _ => None,
        }
    }

    /// The token with this spelling, if there is one.
    pub(crate) fn kind(self) -> Option<TokenKind>
        ensures { result ≡ op_kind self }
    {
        match self {
            Op::And1 => Some(TokenKind::Ampersand),
            Op::And2 => Some(TokenKind::AndAnd),
            Op::Bar0 => Some(TokenKind::Bar(1)),
            Op::BarBar => Some(TokenKind::OrOr),
            Op::BarOneEnd => Some(TokenKind::Bar(1)),
            Op::BarTwoEnd => Some(TokenKind::Bar(2)),
            Op::Out0 => Some(TokenKind::Redirection(Mode::Write, 1)),
            Op::OutOneEnd => Some(TokenKind::Redirection(Mode::Write, 1)),
            Op::OutTwoEnd => Some(TokenKind::Redirection(Mode::Write, 2)),
            Op::OutOneTwoEnd => Some(TokenKind::CopyTo { to: 1, from: 2 }),
            Op::OutTwoOneEnd => Some(TokenKind::CopyTo { to: 2, from: 1 }),
            Op::App0 => Some(TokenKind::Redirection(Mode::Append, 1)),
            Op::AppOneEnd => Some(TokenKind::Redirection(Mode::Append, 1)),
            Op::AppTwoEnd => Some(TokenKind::Redirection(Mode::Append, 2)),
            Op::In0 => Some(TokenKind::Redirection(Mode::Read, 0)),
            Op::InZeroEnd => Some(TokenKind::Redirection(Mode::Read, 0)),
            Op::Here0 => Some(TokenKind::BareHere),
            Op::HereZeroEnd => Some(TokenKind::BareHere),
            Op::Dollar0 => Some(TokenKind::Dollar),
            Op::DollarHash => Some(TokenKind::DollarCount),
            Op::DollarQuote => Some(TokenKind::DollarFlat),
            _ => None,
        }
    }
}
