//! Writing a layout, token by token.

use crate::laying::gaps::Gap;
use crate::laying::lines::Lines;
use crate::laying::source::Source;
use crate::reading::roles::{Part, Role};
use crate::reading::survey::roles_of;
use rc_lexer::{Token, TokenKind};
use std::alloc::{AllocError, Global};

/// What is between the last token or comment and the next one.
#[derive(Clone, Copy, PartialEq)]
pub(crate) enum Pause {
    /// Nothing but blanks.
    Inline,
    /// An opening bracket, or the beginning of the script.
    Opened,
    /// The end of a command.
    Ended,
    /// The end of a command, which is written.
    WrittenEnd,
    /// A line that goes on after an operator.
    GoesOn,
    /// A newline before the command or the brace of a control form.
    Headed,
    /// The same, after a comment on a line of its own.
    Below,
    /// A newline between words in parentheses.
    Between,
}

/// Brackets that are open.
#[derive(Clone, Copy)]
pub(crate) struct Frame {
    /// The depth of the line that opens them, and of the lines inside.
    pub(crate) outer_depth: usize,
    pub(crate) depth: usize,
    /// How much deeper the lines of the present command are, by the control forms whose commands are on lines of
    /// their own.
    pub(crate) deeper: usize,
    pub(crate) has_lines: bool,
}

/// The layout so far.
#[derive(Drop)]
pub(crate) struct Writer<'a> {
    pub(crate) source: Source<'a>,
    pub(crate) lines: Lines<'a>,
    pub(crate) frame: Frame,
    pub(crate) outer: Vec<Frame>,
    /// How far the script has been read, and where the here documents of the line end in it.
    place: usize,
    bodies_end: usize,
    pub(crate) pause: Pause,
    /// The newlines since the last token or comment.
    pub(crate) newlines: usize,
    /// Whether the last thing written is a comment, or an opening bracket.
    pub(crate) is_after_comment: bool,
    pub(crate) is_after_opening: bool,
}

/// The layout of a script.
pub(crate) fn layout_of(alloc: Global, source: Source<'_>) -> Result<Vec<u8>, AllocError> {
    let roles = roles_of(alloc, source)?;
    let mut writer = Writer::new(alloc, source);
    for (token, role) in source.tokens.iter().zip(&roles) {
        writer.read(*token, *role)?;
    }
    writer.finish()
}

impl<'a> Writer<'a> {
    fn new(alloc: Global, source: Source<'a>) -> Writer<'a> {
        Writer {
            source,
            lines: Lines::new(alloc, source),
            frame: Frame {
                outer_depth: 0,
                depth: 0,
                deeper: 0,
                has_lines: true,
            },
            outer: Vec::new(alloc),
            place: 0,
            bodies_end: 0,
            pause: Pause::Opened,
            newlines: 0,
            is_after_comment: false,
            is_after_opening: true,
        }
    }

    /// Reads a token, with what is before it.
    fn read(&mut self, token: Token, role: Role) -> Result<(), AllocError> {
        let gap = self.gap(token.span.start as usize);
        self.place = token.span.stop as usize;
        if !gap.comment.is_empty() {
            self.comment(gap, role)?;
        }
        if matches!(token.kind, TokenKind::Newline) {
            self.newlines = self.newlines.saturating_add(1);
            self.place = self.place.max(self.bodies_end);
        }
        if let TokenKind::HereDoc { body, .. } = token.kind {
            self.bodies_end = self.source.line_end(body.stop as usize).saturating_add(1);
        }
        self.act(token, role, gap)
    }

    /// What is between the last token and the one at this offset.
    fn gap(&self, start: usize) -> Gap<'a> {
        Gap::new(self.source.part(self.place, start))
    }

    /// What is after the last token.
    pub(crate) fn last_gap(&self) -> Gap<'a> {
        self.gap(self.source.script.len())
    }

    /// Does what a token does.
    fn act(&mut self, token: Token, role: Role, gap: Gap<'_>) -> Result<(), AllocError> {
        match role.part {
            Part::Nothing => {}
            Part::End => self.pause_by(Pause::Ended),
            Part::GoesOn => self.pause_by(Pause::GoesOn),
            Part::Headed => self.pause_by(Pause::Headed),
            Part::Between => self.pause_between(),
            _ => self.write(token, role, gap)?,
        }
        Ok(())
    }

    /// Pauses, if nothing else is a pause.
    fn pause_by(&mut self, pause: Pause) {
        if self.pause == Pause::Inline {
            self.pause = pause;
        }
    }

    /// Pauses between words, or before the first one.
    fn pause_between(&mut self) {
        if self.pause == Pause::Inline || self.pause == Pause::Opened {
            self.pause = Pause::Between;
        }
    }

    /// Writes a token.
    fn write(&mut self, token: Token, role: Role, gap: Gap<'_>) -> Result<(), AllocError> {
        if self.breaks_line(role) {
            self.break_line(role.part)?;
        } else {
            self.join(role, gap)?;
        }
        if role.part == Part::Close {
            self.close();
        }
        self.lines.push_token(token)?;
        self.forget(Pause::Inline);
        self.after(role)
    }
}
