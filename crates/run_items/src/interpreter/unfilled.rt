//! Text lines that stand in front up to their newlines, and are told and ended at once.

ghost use Rattle.run_events.specs.Formatter.Unfilled.{StandsLine};
ghost use Rattle.run_items.specs.Unfilled.{EndsFront};

use super::Interpreter;
use page_bytes::ByteSink;
use run_events::{Halt, Sprung};
use run_model::Step;

impl Interpreter {
    /// Tells so many bytes in front of a text line, among which are so many gaps, and does what the
    /// newline behind them means. Returns what that sprang.
    ///
    /// # Errors
    ///
    /// [`Halt`] where that ends the run, or meets a limit or a fault of the output.
    #[inline(always)]
    pub fn end_front<O: ByteSink>(
        &mut self,
        front: &[u8],
        count: usize,
        gaps: u64,
        out: &mut O,
    ) -> Result<Option<Sprung>, Halt>
        requires { StandsLine front.now count gaps self.old.formatter }
        ensures { EndsFront front.now count self.old self.new
            (O.sunk out.old) (O.sunk out.new) result }
    {
        self.reader.begin_next_line();
        match self.formatter.put_line(front, count, gaps, out) {
            Ok(None) => Ok(None),
            Ok(Some(sprung)) => {
                self.reader.keep_step(Step::LineEnd);
                Ok(Some(sprung))
            }
            Err(halt) => Err(halt),
        }
    }
}
