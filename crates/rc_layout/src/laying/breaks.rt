//! Where the lines of a layout end.

use crate::laying::gaps::Gap;
use crate::laying::writer::{Frame, Pause, Writer};
use crate::reading::roles::{Bracket, Part, Role};
use std::alloc::AllocError;
use std::mem;

impl Writer<'_> {
    /// Whether a token begins a line.
    pub(crate) fn breaks_line(&self, role: Role) -> bool {
        if self.is_after_comment {
            return true;
        }
        if role.continues {
            return false;
        }
        match self.pause {
            Pause::Inline => role.part == Part::Close && self.frame.has_lines,
            Pause::Opened | Pause::Ended | Pause::WrittenEnd => self.frame.has_lines,
            Pause::Headed => !matches!(role.part, Part::Open(Bracket::Block | Bracket::Switch)),
            Pause::GoesOn | Pause::Below | Pause::Between => true,
        }
    }

    /// Begins a line for what has this part, after an empty one if there is one in the script.
    pub(crate) fn break_line(&mut self, part: Part) -> Result<(), AllocError> {
        if self.keeps_empty_line(part) {
            self.lines.end()?;
        }
        let depth = self.next_depth(part);
        self.lines.go_to(depth)
    }

    /// Whether an empty line is kept.
    fn keeps_empty_line(&self, part: Part) -> bool {
        let separates = matches!(
            self.pause,
            Pause::Opened | Pause::Ended | Pause::WrittenEnd | Pause::Between
        );
        separates && self.newlines > 1 && !self.is_after_opening && part != Part::Close
    }

    /// The depth of the next line, which begins with what has this part.
    fn next_depth(&mut self, part: Part) -> usize {
        let Frame {
            outer_depth,
            depth,
            deeper,
            ..
        } = self.frame;
        match (part, self.pause) {
            (Part::Close, _) => outer_depth,
            (Part::Case, _) => outer_depth,
            (_, Pause::GoesOn) => depth.saturating_add(deeper).saturating_add(1),
            (_, Pause::Headed) => {
                let below = self.lines.depth.saturating_add(1);
                self.frame.deeper = below.saturating_sub(depth);
                below
            }
            (_, Pause::Below) => self.lines.depth,
            _ => {
                self.frame.deeper = 0;
                depth
            }
        }
    }

    /// Writes what is between a token and the one before it on its line.
    pub(crate) fn join(&mut self, role: Role, gap: Gap<'_>) -> Result<(), AllocError> {
        if self.pause == Pause::Ended && role.part != Part::Close {
            return self.lines.push(b"; ");
        }
        if !role.is_apart || self.lines.is_empty() {
            return Ok(());
        }
        if self.pause == Pause::Inline && gap.continues_line() {
            let Frame { depth, deeper, .. } = self.frame;
            return self
                .lines
                .continue_at(depth.saturating_add(deeper).saturating_add(1));
        }
        self.lines.push(b" ")
    }

    /// Notes what comes after a token that is written.
    pub(crate) fn after(&mut self, role: Role) -> Result<(), AllocError> {
        match role.part {
            Part::Open(bracket) => self.open(bracket, role.is_broken)?,
            Part::WrittenEnd => self.pause = Pause::WrittenEnd,
            _ if role.is_broken => self.pause = Pause::GoesOn,
            _ => {}
        }
        Ok(())
    }

    /// Opens brackets, whose commands have lines of their own or not.
    fn open(&mut self, bracket: Bracket, has_lines: bool) -> Result<(), AllocError> {
        let outer_depth = self.lines.depth;
        let is_indented = has_lines || bracket == Bracket::Words;
        let inner = Frame {
            outer_depth,
            depth: outer_depth.saturating_add(usize::from(is_indented)),
            deeper: 0,
            has_lines,
        };
        self.outer.push(mem::replace(&mut self.frame, inner))?;
        self.pause = Pause::Opened;
        self.is_after_opening = true;
        Ok(())
    }

    /// Closes brackets.
    pub(crate) fn close(&mut self) {
        if let Some(frame) = self.outer.pop() {
            self.frame = frame;
        }
    }

    /// Writes a comment, at the end of the line or on one of its own.
    pub(crate) fn comment(&mut self, gap: Gap<'_>, role: Role) -> Result<(), AllocError> {
        if self.newlines == 0 && !self.lines.is_empty() {
            self.lines.push(blanks_before_comment(gap))?;
        } else {
            let is_before_case = role.leads_to_case;
            self.break_line(if is_before_case {
                Part::Case
            } else {
                Part::Plain
            })?;
            if self.pause == Pause::Headed {
                self.pause = Pause::Below;
            }
        }
        self.lines.push(gap.comment)?;
        let pause = self.pause;
        self.forget(pause);
        self.is_after_comment = true;
        Ok(())
    }

    /// Begins anew to note what comes next.
    pub(crate) fn forget(&mut self, pause: Pause) {
        self.pause = pause;
        self.newlines = 0;
        self.is_after_comment = false;
        self.is_after_opening = false;
    }

    /// Ends the layout.
    pub(crate) fn finish(self) -> Result<Vec<u8>, AllocError> {
        let mut writer = self;
        let gap = writer.last_gap();
        if !gap.comment.is_empty() {
            writer.comment(gap, Role::new(Part::End))?;
        }
        let Writer { mut lines, .. } = writer;
        if !lines.is_empty() {
            lines.end()?;
        }
        Ok(lines.into_text())
    }
}

/// What is before a comment at the end of a line.
fn blanks_before_comment<'a>(gap: Gap<'a>) -> &'a [u8] {
    if gap.blanks.is_empty() || gap.continues_line() {
        b" ".as_slice()
    } else {
        gap.blanks
    }
}
