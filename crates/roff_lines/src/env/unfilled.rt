//! Text lines that are finished as they stand, where words aren't measured.

ghost use Rattle.std.specs.Prelude.{◌≡◌, ℕ, ◌<◌, ◌≤◌, IfSome, length, slice_index_or, take, true};
ghost use Rattle.std.specs.Borrow.{sem};
ghost use Rattle.roff_lines.specs.Clauses.{finished_of, gaps_in, shaped};
ghost use Rattle.roff_lines.specs.Env.Tells.{GoesOn, IsRun};
ghost use Rattle.roff_lines.specs.Env.Unfilled.{AreWords};

use super::{Env, counted};
use crate::lanes::{gaps_of_step, run_of_step};
use crate::shape::Shape;
use page_model::Line;
use roff_num::lanes::STEP;
use std::mem;

impl Env {
    ghost use Rattle.roff_lines.specs.Env.Rests.{Rests};
    ghost use Rattle.roff_lines.specs.Env.Unfilled.{EndsLine, PutsLines, line_of, with_line_put};

    /// Whether words aren't measured, and none stands in the pending line.
    #[inline(always)]
    pub fn puts_lines(&self) -> bool
        ensures { result ≡ true → PutsLines self.now }
    {
        !self.has_line && !self.settings.fills() && !self.is_in_field()
    }

    /// How many gaps are among so many bytes in front, if a line of the input may end behind them
    /// that is finished as it stands: words aren't measured, none stands in the pending line, the
    /// bytes are words with one blank between two of them, and the limit on the pending line lets
    /// them through.
    #[inline(always)]
    pub fn line_gaps(&self, bytes: &[u8], count: usize) -> Option<u64>
        requires { count ≤ length bytes.now }
        ensures { IfSome result (λ gaps. EndsLine bytes.now count gaps self.now) }
    {
        if !self.puts_lines() || count > self.cap - self.word.len() {
            return None;
        }
        gaps_of_words(bytes, count)
    }

    /// Adds so many bytes in front, among which are so many gaps, and ends the open word and a line
    /// of the input. Returns the line that this finishes.
    #[inline(always)]
    pub fn put_line(&mut self, bytes: &[u8], count: usize, gaps: u64) -> Line<'_>
        requires { EndsLine bytes.now count gaps self.old }
        ensures* stands { sem 𝓛 (Rests self.entry
            (λ n. n ≡ with_line_put (take count bytes.now) self.entry.now)) }
        ensures line { finished_of result ≡ line_of (take count bytes.now) self.old }
    {
        let shape = self.finish_line(bytes, count, gaps);
        shape.over(self.finished.as_slice())
    }

    /// Adds so many bytes in front, among which are so many gaps, and ends the open word and a line
    /// of the input. Returns how the line is laid out that this finishes.
    #[inline(always)]
    fn finish_line(&mut self, bytes: &[u8], count: usize, gaps: u64) -> Shape
        requires { EndsLine bytes.now count gaps self.old }
        ensures kept { self.new ≡ with_line_put (take count bytes.now) self.old }
        ensures line { shaped result self.new.finished ≡ line_of (take count bytes.now) self.old }
    {
        self.word.extend(bytes, count, count as u64, gaps);
        mem::swap(&mut self.finished, &mut self.word);
        self.word.clear();
        self.indent = match self.temporary_indent {
            Some(indent) => indent,
            None => self.settings.indent,
        };
        self.temporary_indent = None;
        self.is_open = false;
        self.blanks = 0;
        self.has_glyph = false;
        self.ends_sentence = false;
        self.place = 0;
        let shape = Shape::of(self.settings, false, self.indent, &self.finished);
        self.last_width = shape.width();
        self.settings = counted(self.settings);
        shape
    }
}

/// How many gaps are among so many bytes in front, if these are words with one blank between two of
/// them, whose bytes are characters by themselves, and steps lie there.
#[inline(never)]
fn gaps_of_words(bytes: &[u8], count: usize) -> Option<u64>
    requires { count ≤ length bytes.now }
    ensures { IfSome result (λ gaps. AreWords bytes.now count gaps) }
{
    if count == 0 || !is_character(bytes[0]) || bytes[count - 1] == b' ' {
        return None;
    }
    let (read, gaps) = run_by_steps(bytes, count);
    if read < count { None } else { Some(gaps) }
}

/// How many bytes in front are such words behind the first one, at most so many, as far as steps
/// lie there, and how many gaps are among them.
#[inline(always)]
fn run_by_steps(bytes: &[u8], count: usize) -> (usize, u64)
    requires some { 0 < count }
    requires text { count ≤ length bytes.now }
    requires first { GoesOn 32 (slice_index_or bytes.now 0 0) }
    ensures few { result.0 ≤ count }
    ensures run { IsRun bytes.now result.0 }
    ensures gaps { gaps_in (take result.0 bytes.now) ≡ result.1 }
{
    let mut read = 1;
    let mut gaps = 0;
    while read < count && bytes.len() - read >= STEP {
        let run = run_of_step(bytes, read).min(count - read);
        gaps += gaps_of_step(bytes, read, run);
        read += run;
        if run < STEP {
            break;
        }
    }
    (read, gaps)
}

/// Whether a byte is a character by itself, and above the blank.
#[inline(always)]
fn is_character(byte: u8) -> bool
    ensures { result ≡ true → GoesOn 32 byte }
{
    byte > b' ' && byte < 0x80
}
