//! Ends of what is half read, of lines, and of the input.

ghost use Rattle.std.specs.Prelude.{◌≡◌, []};
ghost use Rattle.run_items.specs.Clauses.{DoesTaking, closing_events, sinks, end_taking};
ghost use Rattle.run_items.specs.Clauses.{LineStart, StandFor, Sunk, escape_ended};
ghost use Rattle.roff_num.specs.declared.limits.Limits.{Limits as LimitsOf};
ghost use Rattle.run_model.specs.Output.{PageHistory};
ghost use Rattle.run_model.specs.Reading.Calls.{last_called};
ghost use Rattle.run_model.specs.Reading.Ends.{is_unfinished};
ghost use Rattle.run_model.specs.Reading.Items.{PageInput, PageUnread, going_on, meaning_events};
ghost use Rattle.run_model.specs.Registers.{AllRegisters};
ghost use Rattle.run_model.specs.Run.{known_at};
ghost use Rattle.page_bytes.specs.Told.{told_by};

use super::Interpreter;
use page_bytes::{ByteSink, MessageSink};
use read_steps::{end_escape, end_line_of_input};
use roff_scan::Unread;
use run_events::{Halt, Sprung};
use run_model::{PageEvent, Phase};

impl Interpreter {
    /// Ends what is half read, before a newline that stays or at the end of the input, and performs
    /// what that means. Returns what it sprang.
    ///
    /// # Errors
    ///
    /// As those of [`Interpreter::take`].
    pub fn take_escape_end<O: ByteSink, E: MessageSink>(
        &mut self,
        unread: &mut Unread<PageEvent>,
        out: &mut O,
        err: &mut E,
    ) -> Result<Option<Sprung>, Halt>
        ensures { DoesTaking (λ k. escape_ended k self.old.reader.reading unread.old.input) []
            self.old self.new unread.old unread.new
            (sinks (O.sunk out.old) (told_by E.MessageSink err.old))
            (sinks (O.sunk out.new) (told_by E.MessageSink err.new)) result }
    {
        match end_escape(&mut self.reader, &self.formatter.composer, unread) {
            Ok(step) => self.perform_seldom(step, unread.line(), out, err),
            Err(limit) => Err(Halt::Refused(limit)),
        }
    }

    /// Ends the line that is unfinished where the input ends, and performs what that means. Returns
    /// what it sprang.
    ///
    /// # Errors
    ///
    /// As those of [`Interpreter::take`].
    pub fn end_input_line<O: ByteSink, E: MessageSink>(
        &mut self,
        unread: &mut Unread<PageEvent>,
        out: &mut O,
        err: &mut E,
    ) -> Result<Option<Sprung>, Halt>
        ensures { DoesTaking (λ k. end_taking k self.old.reader.reading unread.old.input) []
            self.old self.new unread.old unread.new
            (sinks (O.sunk out.old) (told_by E.MessageSink err.old))
            (sinks (O.sunk out.new) (told_by E.MessageSink err.new)) result }
    {
        match end_line_of_input(&mut self.reader, &self.formatter.composer, unread) {
            Ok(step) => self.perform(step, unread.line(), out, err),
            Err(limit) => Err(Halt::Refused(limit)),
        }
    }

    /// Whether a line is to end where the input does, in this phase of the run.
    pub fn is_unfinished(&self, phase: Phase) -> bool
        ensures { (l : LimitsOf) (h : PageHistory) (rs : AllRegisters) (i : PageInput)
            → StandFor l h self.now.formatter.composer
            → result ≡ is_unfinished phase (known_at h rs i) self.now.reader.reading }
    {
        let environments = &self.formatter.composer.environments;
        let left = match phase {
            Phase::Reading => environments.interrupted_line().is_some(),
            Phase::LastMacro => environments.interrupted_line().is_some(),
            Phase::Closing => false,
        };
        self.reader.is_unfinished(left)
    }

    /// The last macro is read behind the input, if there is one.
    ///
    /// # Errors
    ///
    /// [`Halt::Refused`] if a limit has no room for it.
    pub fn read_last_macro(
        &mut self,
        unread: &mut Unread<PageEvent>,
    ) -> Result<Option<Sprung>, Halt>
        ensures { (out err : Sunk) → DoesTaking
            (λ k. going_on (last_called self.old.reader.registers.all.last_macro unread.old.input)
            LineStart) []
            self.old self.new unread.old unread.new (sinks out err) (sinks out err) result }
    {
        match self.reader.read_last_macro(unread) {
            Ok(_) => Ok(None),
            Err(limit) => Err(Halt::Refused(limit)),
        }
    }

    /// The run closes: the pending line is placed, and the last page is ejected. Returns what that
    /// sprang.
    ///
    /// # Errors
    ///
    /// [`Halt`] where that ends the run, or meets a limit or a fault of the output.
    pub fn finish<O: ByteSink>(&mut self, out: &mut O) -> Result<Option<Sprung>, Halt>
        ensures { (u : PageUnread) (err : Sunk) → DoesTaking
            (λ k. meaning_events u.input LineStart closing_events) [] self.old self.new u u
            (sinks (O.sunk out.old) err) (sinks (O.sunk out.new) err) result }
    {
        self.reader.close();
        self.perform_each(out)
    }
}
