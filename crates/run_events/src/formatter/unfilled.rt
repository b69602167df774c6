//! Text lines that stand in front up to their newlines, and are told and ended at once, where words
//! aren't measured.

ghost use Rattle.std.specs.Prelude.{◌≡◌, [], ◌∷◌, true, IfSome};
ghost use Rattle.run_events.specs.Clauses.{LineEnd, Text};
ghost use Rattle.run_events.specs.Formatter.Unfilled.{PutsBehind, PutsLine, StandsLine};
ghost use Rattle.run_events.specs.Formatter.Unfilled.{StandsNear};
ghost use Rattle.page_model.specs.declared.event.Event.TheVariants.{Count};
ghost use Rattle.roff_lines.specs.Env.Unfilled.{PutsLines};

use super::Formatter;
use super::fronts::told_at_once;
use super::text_events::place_line;
use crate::halt::Halt;
use crate::sprung::{Sprung, further};
use input_source::text_in_front;
use page_bytes::ByteSink;

impl Formatter {
    /// Whether words aren't measured, and none stands in the pending line.
    #[inline(always)]
    pub fn puts_lines(&self) -> bool
        ensures { result ≡ true → PutsLines self.now.composer.environments.in_force.lines }
    {
        self.composer.environments.in_force.lines.puts_lines()
    }

    /// How many bytes of plain text stand in front up to a newline, and how many gaps are among
    /// them, if they can be told with the end of the line at once.
    #[inline(always)]
    pub fn line_in_front(&self, front: &[u8]) -> Option<(usize, u64)>
        ensures { IfSome result (λ line. StandsLine front.now line.0 line.1 self.now) }
    {
        if !self.composer.pages.takes_text() {
            return None;
        }
        let near = told_at_once(front);
        let count = text_in_front(near);
        if count >= near.len() || near[count] != b'\n' {
            return None;
        }
        match self
            .composer
            .environments
            .in_force
            .lines
            .line_gaps(near, count)
        {
            None => None,
            Some(gaps) => Some((count, gaps)),
        }
    }

    /// Tells so many bytes in front, among which are so many gaps, ends the open word and a line of
    /// the input, places the line that this finishes, and counts it.
    ///
    /// # Errors
    ///
    /// [`Halt`] if a limit refuses the line, the output failed, or the last page ended.
    #[inline(always)]
    pub fn put_line<O: ByteSink>(
        &mut self,
        front: &[u8],
        count: usize,
        gaps: u64,
        out: &mut O,
    ) -> Result<Option<Sprung>, Halt>
        requires { StandsLine front.now count gaps self.old }
        ensures { PutsLine front.now count self.old self.new
            (O.sunk out.old) (O.sunk out.new) result }
    {
        let near = told_at_once(front);
        further(self.put_and_count(near, count, gaps, out), 1)
    }

    /// Tells so many of these bytes, among which are so many gaps, behind the end of the open word,
    /// ends a line of the input, places the line that this finishes, and counts it. No more bytes
    /// are given than are told at once at the most.
    #[inline(always)]
    fn put_and_count<O: ByteSink>(
        &mut self,
        near: &[u8],
        count: usize,
        gaps: u64,
        out: &mut O,
    ) -> Result<Option<Sprung>, Halt>
        requires { StandsNear near.now count gaps self.old }
        ensures { PutsBehind (Text LineEnd ∷ Text Count ∷ []) near.now count self.old self.new
            (O.sunk out.old) (O.sunk out.new) result }
    {
        match self.put_near(near, count, gaps, out) {
            Ok(None) => further(self.count(), 1),
            Ok(Some(sprung)) => Ok(Some(sprung)),
            Err(halt) => Err(halt),
        }
    }

    /// Tells so many of these bytes, among which are so many gaps, behind the end of the open word,
    /// ends a line of the input, and places the line that this finishes. It isn't counted yet.
    #[inline(always)]
    fn put_near<O: ByteSink>(
        &mut self,
        near: &[u8],
        count: usize,
        gaps: u64,
        out: &mut O,
    ) -> Result<Option<Sprung>, Halt>
        requires { StandsNear near.now count gaps self.old }
        ensures { PutsBehind (Text LineEnd ∷ []) near.now count self.old self.new
            (O.sunk out.old) (O.sunk out.new) result }
    {
        let line = self
            .composer
            .environments
            .in_force
            .lines
            .put_line(near, count, gaps);
        place_line(&mut self.composer.pages, &mut self.composer.due, line, out)
    }
}
