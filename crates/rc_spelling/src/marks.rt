//! The marks at the beginning of nodes.

ghost use Rattle.std.specs.Prelude.{◌≡◌};
ghost use Rattle.rc_model.specs.Syntax.Faults.{Gives};
ghost use Rattle.rc_spelling.specs.Shapes.{cmd_shape, arg_shape, redir_shape, mark_by};

use crate::image_error::ImageError;
use crate::image_numbers::first;
use crate::shape::{
    ArgShape, BodiesShape, BodyShape, CmdShape, FrontShape, NameShape, RedirShape, SubjectShape,
    WordsShape,
};
use rc_model::{ImageFault, InputError, Mode};

/// The shape of a command, by its mark.
#[inline(always)]
#[tactic(auto, unfolding(crate::specs::Shapes::cmd_shape))]
fn cmd_shape(mark: u8) -> Option<CmdShape>
    ensures { result ≡ cmd_shape mark }
{
    match mark {
        b'e' => Some(CmdShape::Empty),
        b's' => Some(CmdShape::Seq),
        b'c' => Some(CmdShape::Words(WordsShape::Simple)),
        b'=' => Some(CmdShape::Front(FrontShape::Assign)),
        b'r' => Some(CmdShape::Front(FrontShape::Redirect)),
        b'p' => Some(CmdShape::Front(FrontShape::Pipeline)),
        b'a' => Some(CmdShape::AndOr),
        b'!' => Some(CmdShape::Body(BodyShape::Not)),
        b'@' => Some(CmdShape::Body(BodyShape::Subshell)),
        b'i' => Some(CmdShape::Bodies(BodiesShape::If)),
        b'n' => Some(CmdShape::Body(BodyShape::IfNot)),
        b'w' => Some(CmdShape::Bodies(BodiesShape::While)),
        b'f' => Some(CmdShape::Subject(SubjectShape::ForAll)),
        b'F' => Some(CmdShape::Subject(SubjectShape::For)),
        b'S' => Some(CmdShape::Subject(SubjectShape::Switch)),
        b'~' => Some(CmdShape::Subject(SubjectShape::Match)),
        b'd' => Some(CmdShape::Front(FrontShape::Define)),
        b'u' => Some(CmdShape::Words(WordsShape::Undefine)),
        b'b' => Some(CmdShape::Body(BodyShape::Brace)),
        _ => None,
    }
}

/// The shape of an argument, by its mark.
#[inline(always)]
#[tactic(auto, unfolding(crate::specs::Shapes::arg_shape))]
fn arg_shape(mark: u8) -> Option<ArgShape>
    ensures { result ≡ arg_shape mark }
{
    match mark {
        b'w' => Some(ArgShape::Word),
        b'q' => Some(ArgShape::Quoted),
        b'^' => Some(ArgShape::Concat),
        b'(' => Some(ArgShape::Paren),
        b'$' => Some(ArgShape::Name(NameShape::Var)),
        b'#' => Some(ArgShape::Name(NameShape::Count)),
        b'"' => Some(ArgShape::Name(NameShape::Flat)),
        b'[' => Some(ArgShape::Sub),
        b'`' => Some(ArgShape::Back),
        _ => None,
    }
}

/// The shape of a redirection, by its mark.
#[inline(always)]
#[tactic(auto, unfolding(crate::specs::Shapes::redir_shape))]
fn redir_shape(mark: u8) -> Option<RedirShape>
    ensures { result ≡ redir_shape mark }
{
    match mark {
        b'<' => Some(RedirShape::Input),
        b'>' => Some(RedirShape::Output(Mode::Write)),
        b'+' => Some(RedirShape::Output(Mode::Append)),
        b'=' => Some(RedirShape::Copy),
        b'h' => Some(RedirShape::Here),
        _ => None,
    }
}

/// The mark of a command.
#[inline(always)]
#[tactic(auto, unfolding(crate::specs::Shapes::mark_by))]
pub(crate) fn cmd_mark(bytes: &[u8]) -> Result<(CmdShape, &[u8]), ImageError>
    ensures { Gives (λ x. (x.0, x.1.now)) result (mark_by cmd_shape bytes.now) }
{
    let (mark, rest) = first(bytes)?;
    match cmd_shape(mark) {
        Some(shape) => Ok((shape, rest)),
        None => Err(InputError::Fault(ImageFault::BadTag)),
    }
}

/// The mark of an argument.
#[inline(always)]
#[tactic(auto, unfolding(crate::specs::Shapes::mark_by))]
pub(crate) fn arg_mark(bytes: &[u8]) -> Result<(ArgShape, &[u8]), ImageError>
    ensures { Gives (λ x. (x.0, x.1.now)) result (mark_by arg_shape bytes.now) }
{
    let (mark, rest) = first(bytes)?;
    match arg_shape(mark) {
        Some(shape) => Ok((shape, rest)),
        None => Err(InputError::Fault(ImageFault::BadTag)),
    }
}

/// The mark of a redirection.
#[inline(always)]
#[tactic(auto, unfolding(crate::specs::Shapes::mark_by))]
pub(crate) fn redir_mark(bytes: &[u8]) -> Result<(RedirShape, &[u8]), ImageError>
    ensures { Gives (λ x. (x.0, x.1.now)) result (mark_by redir_shape bytes.now) }
{
    let (mark, rest) = first(bytes)?;
    match redir_shape(mark) {
        Some(shape) => Ok((shape, rest)),
        None => Err(InputError::Fault(ImageFault::BadTag)),
    }
}
