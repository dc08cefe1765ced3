//! The lines that show the calls of a process.
//!
//! A line is written once the call was answered, with one write at the end of the file, so that those of several
//! processes don't mix. One that can't be made or written is left out, and the shell goes on.

ghost use Rattle.std.specs.Prelude.{◌≡◌, ◌++◌, IfOk, IsTrue, MatchResult, [], string_bytes};
ghost use Rattle.std.specs.Io.KnownBytes.{Appends};
ghost use Rattle.rc_model.specs.Run.Calls.{recorded_by};
ghost use Rattle.rc_trace.specs.Texts.{line_text};
ghost use Rattle.rc_trace.specs.Views.{shown_answer, shown_call, style_of};
ghost use Rattle.rc_trace.specs.Written.{AreShown, IsWritten};

use crate::call_texts::{push_answer, push_shown};
use crate::manner::Manner;
use crate::shown::{ShownAnswer, ShownCall};
use crate::trail::Trail;
use std::alloc::{AllocError, Global};
use std::io::Write;
use std::snapshot::Snapshot;

/// What the calls of a process are written to, a line each.
#[derive(Drop)]
pub struct Lines<O: Write> {
    alloc: Global,
    process: String,
    manner: Manner,
    out: O,
    is_whole: bool,
    /// The calls that were shown.
    trail: Trail,
    /// What they are written to, as it was before the first.
    first: Snapshot<O>,
    ghost shown: { AreShown is_whole (string_bytes process) (style_of manner) (O.contents first.value)
        (O.contents out) trail.events },
}

impl<O: Write> Lines<O> {
    ghost use Rattle.rc_trace.specs.Lines.{first_of, is_whole, out_of, process_of, style_in, trail_of};

    /// Lines that begin with the name of the process, and show launches so. Each is written at once.
    pub fn new(alloc: Global, process: String, manner: Manner, out: O) -> Lines<O>
        ensures process { process_of result ≡ string_bytes process }
        ensures style { style_in result ≡ style_of manner }
        ensures out { out_of result ≡ out }
        ensures first { first_of result ≡ out }
        ensures none { trail_of result ≡ [] }
        ensures whole { IsTrue (is_whole result) }
    {
        let first = Snapshot::of(&out);
        Lines {
            alloc,
            process,
            manner,
            out,
            is_whole: true,
            trail: Trail::new(),
            first,
        }
    }

    /// Whether each line could be written so far.
    pub fn is_whole(&self) -> bool
        ensures { result ≡ is_whole self.now }
    {
        self.is_whole
    }

    /// What the lines were written to.
    pub fn into_out(self) -> O
        ensures out { result ≡ out_of self }
        ensures shown { AreShown (is_whole self) (process_of self) (style_in self) (O.contents (first_of self))
            (O.contents result) (trail_of self) }
    {
        let Lines { out, .. } = self;
        out
    }

    /// The same lines, as they are before the first call of a world.
    pub(crate) fn begun(self) -> Lines<O>
        ensures process { process_of result ≡ process_of self }
        ensures style { style_in result ≡ style_in self }
        ensures out { out_of result ≡ out_of self }
        ensures first { first_of result ≡ out_of self }
        ensures none { trail_of result ≡ [] }
        ensures whole { is_whole result ≡ is_whole self }
    {
        let Lines {
            alloc,
            process,
            manner,
            out,
            is_whole,
            ..
        } = self;
        let first = Snapshot::of(&out);
        Lines {
            alloc,
            process,
            manner,
            out,
            is_whole,
            trail: Trail::new(),
            first,
        }
    }

    /// Writes the line of a call that was made, and nothing for one that was not. If a line can't be written, the
    /// lines are no longer whole.
    pub(crate) fn show(&mut self, call: ShownCall<'_>, answer: ShownAnswer<'_>)
        ensures process { process_of self.new ≡ process_of self.old }
        ensures style { style_in self.new ≡ style_in self.old }
        ensures before { IsTrue (is_whole self.new) → IsTrue (is_whole self.old) }
        ensures written { IsTrue (is_whole self.new) → IsWritten (process_of self.old) (style_in self.old)
            (O.contents (out_of self.old)) (O.contents (out_of self.new)) (shown_call call.entry)
            (shown_answer answer.entry) }
        ensures first { first_of self.new ≡ first_of self.old }
        ensures trail { trail_of self.new
            ≡ trail_of self.old ++ recorded_by (shown_call call.entry) (shown_answer answer.entry) }
    {
        if answer.was_made() {
            let line = self.line(call, answer);
            let is_written = write_line(&mut self.out, line);
            self.is_whole &= is_written;
            self.trail = self.trail.and(&call, &answer);
        }
    }

    /// The line of a call with its answer.
    fn line(&self, call: ShownCall<'_>, answer: ShownAnswer<'_>) -> Result<String, AllocError>
        ensures { IfOk result (λ line. string_bytes line ≡ line_text (process_of self.now) (style_in self.now)
            (shown_call call.entry) (shown_answer answer.entry)) }
    {
        let mut line = String::from_str(self.alloc, &self.process)?;
        line.push_str(" ")?;
        push_shown(&mut line, &self.manner, call)?;
        line.push_str(" > ")?;
        push_answer(&mut line, answer)?;
        line.push_str("\n")?;
        Ok(line)
    }
}

/// Writes a line, if it could be made, and says whether it was written.
fn write_line<O: Write>(out: &mut O, line: Result<String, AllocError>) -> bool
    ensures { IsTrue result → MatchResult line
        (λ text. Appends (O.contents out.old) (O.contents out.new) (string_bytes text)) (λ _. ⊥) }
{
    let Ok(line) = line else {
        return false;
    };
    match out.write_all(line.as_bytes()) {
        Ok(()) => true,
        Err(_) => false,
    }
}
