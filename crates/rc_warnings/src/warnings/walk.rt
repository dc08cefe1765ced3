//! The warnings of a script, without those that its comments turn off.

ghost use Rattle.std.specs.Prelude.{◌≤◌, length, IfOk, OnOk};
ghost use Rattle.rc_warnings.specs.Warnings.{AreIn};

use crate::lexed::contexts::contexts_of;
use crate::lexed::script_tokens::{Tokens, tokens_of};
use crate::rules::lines::{carriage_returns, interpreter};
use crate::rules::{View, warning_at, warning_before};
use crate::warnings::comments::Comments;
use crate::warnings::kind::WarningKind;
use crate::warnings::overview::Overview;
use crate::warnings::repair::Repair;
use crate::warnings::warning::Warning;
use rc_lexer::Token;
use std::alloc::{AllocError, Global};

/// The greatest number of warnings of a script. A script with more has one for nearly each of its commands, so that
/// nobody would read them all.
pub const MOST_WARNINGS: usize = 1000;

/// The first warnings of a script: those of its comments and its lines, those of its tokens in their order, and those
/// of what ends; none if it has no tokens.
pub fn warnings_of(alloc: Global, script: &[u8]) -> Result<Vec<Warning>, AllocError>
    ensures { IfOk result (λ warnings. AreIn script.now warnings.items) }
{
    let all = tokens_of(alloc, script)?;
    warnings_in(alloc, script, &all)
}

/// The first warnings of a script with these tokens.
pub fn warnings_in(alloc: Global, script: &[u8], all: &[Token]) -> Result<Vec<Warning>, AllocError>
    ensures { IfOk result (λ warnings. AreIn script.now warnings.items) }
{
    let contexts = contexts_of(alloc, script, all)?;
    let tokens = Tokens {
        script,
        all,
        contexts: &contexts,
    };
    let comments = Comments::new(alloc, script)?;
    let mut warnings = of_lines(alloc, script, &comments)?;
    add_all(alloc, &mut warnings, script, tokens, &comments)?;
    Ok(warnings)
}

/// Adds the warnings of the tokens of a script.
fn add_all(
    alloc: Global,
    warnings: &mut Vec<Warning>,
    script: &[u8],
    tokens: Tokens<'_>,
    comments: &Comments<'_>,
) -> Result<(), AllocError>
    requires { AreIn script.now warnings.old.items }
    ensures { OnOk result (AreIn script.now warnings.new.items) }
{
    let overview = Overview::new(alloc, tokens)?;
    let view = View {
        tokens,
        overview: &overview,
    };
    for index in 0..tokens.all.len() {
        if warnings.len() >= MOST_WARNINGS {
            return Ok(());
        }
        push(warnings, script, comments, warning_at(view, index))?;
    }
    add_ends(warnings, script, view, comments)
}

/// Adds the warnings of what ends at tokens of a script. They are added after the others, so that both are in the order
/// of their places, and lines are counted in linear time.
fn add_ends(
    warnings: &mut Vec<Warning>,
    script: &[u8],
    view: View<'_, '_>,
    comments: &Comments<'_>,
) -> Result<(), AllocError>
    requires { AreIn script.now warnings.old.items }
    ensures { OnOk result (AreIn script.now warnings.new.items) }
{
    for index in 0..view.tokens.all.len().saturating_add(1) {
        push(warnings, script, comments, warning_before(view, index))?;
    }
    Ok(())
}

/// The warnings of the comments and the lines of a script.
fn of_lines(
    alloc: Global,
    script: &[u8],
    comments: &Comments<'_>,
) -> Result<Vec<Warning>, AllocError>
    ensures { IfOk result (λ warnings. AreIn script.now warnings.items) }
{
    let mut warnings = Vec::new(alloc);
    for place in comments.wrong() {
        push(&mut warnings, script, comments, Some(off(*place)))?;
    }
    push(&mut warnings, script, comments, interpreter(script))?;
    push(&mut warnings, script, comments, carriage_returns(script))?;
    Ok(warnings)
}

/// The warning of a comment at this place.
fn off(place: usize) -> Warning {
    Warning {
        kind: WarningKind::OFF,
        place,
        line: 0,
        repair: Repair::of("write a name of the manual, a colon and a reason"),
    }
}

/// Adds a warning, if it is not turned off, and there are not too many before it.
fn push(
    warnings: &mut Vec<Warning>,
    script: &[u8],
    comments: &Comments<'_>,
    found: Option<Warning>,
) -> Result<(), AllocError>
    requires { AreIn script.now warnings.old.items }
    ensures { OnOk result (AreIn script.now warnings.new.items) }
{
    let Some(warning) = found else {
        return Ok(());
    };
    if warnings.len() < MOST_WARNINGS && !comments.turn_off(warning.kind, warning.line) {
        let place = warning.place.min(script.len());
        warnings.push(Warning { place, ..warning })?;
    }
    Ok(())
}
