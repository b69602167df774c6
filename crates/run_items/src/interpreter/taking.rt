//! A byte that was taken: it is read, and its step is performed.

ghost use Rattle.std.specs.Prelude.{◌≡◌, []};
ghost use Rattle.run_items.specs.Clauses.{DoesMeaning, DoesTaking, sinks, byte_taking};
ghost use Rattle.run_model.specs.Events.Steps.{events_of, messages_of};
ghost use Rattle.run_model.specs.declared.line_state.LineState.TheVariants.{Text as InText};
ghost use Rattle.page_bytes.specs.Told.{told_by};

use super::Interpreter;
use page_bytes::{ByteSink, MessageSink};
use read_steps::{read, read_half, read_on_line};
use roff_scan::Unread;
use run_events::{Halt, Sprung};
use run_model::{PageEvent, Step, TextLine};

impl Interpreter {
    /// Reads a byte that was taken of the unread input, and performs what it means. Returns what
    /// that sprang.
    ///
    /// # Errors
    ///
    /// [`Halt`] if a limit refuses it or its message can't be told, or where its events end the run
    /// or meet a limit or a fault of the output.
    #[inline(always)]
    pub fn take<O: ByteSink, E: MessageSink>(
        &mut self,
        byte: u8,
        unread: &mut Unread<PageEvent>,
        out: &mut O,
        err: &mut E,
    ) -> Result<Option<Sprung>, Halt>
        ensures { DoesTaking (λ k. byte_taking k self.old.reader.reading unread.old.input byte) []
            self.old self.new unread.old unread.new
            (sinks (O.sunk out.old) (told_by E.MessageSink err.old))
            (sinks (O.sunk out.new) (told_by E.MessageSink err.new)) result }
    {
        match read(&mut self.reader, byte, &self.formatter.composer, unread) {
            Ok(step) => self.perform(step, unread.line(), out, err),
            Err(limit) => Err(Halt::Refused(limit)),
        }
    }

    /// Reads a byte on this text line, where nothing is half read, and performs what it means.
    /// Returns what that sprang.
    ///
    /// # Errors
    ///
    /// As those of [`Interpreter::take`].
    #[inline(always)]
    pub fn take_on_line<O: ByteSink, E: MessageSink>(
        &mut self,
        line: TextLine,
        byte: u8,
        unread: &mut Unread<PageEvent>,
        out: &mut O,
        err: &mut E,
    ) -> Result<Option<Sprung>, Halt>
        requires line { self.old.reader.reading ≡ InText line }
        requires none_half { unread.old.input.escapes ≡ [] }
        ensures { DoesTaking (λ k. byte_taking k self.old.reader.reading unread.old.input byte) []
            self.old self.new unread.old unread.new
            (sinks (O.sunk out.old) (told_by E.MessageSink err.old))
            (sinks (O.sunk out.new) (told_by E.MessageSink err.new)) result }
    {
        match read_on_line(
            &mut self.reader,
            line,
            byte,
            &self.formatter.composer,
            unread,
        ) {
            Ok(step) => self.perform(step, unread.line(), out, err),
            Err(limit) => Err(Halt::Refused(limit)),
        }
    }

    /// Reads a byte that was taken where something is half read, and performs what it means: most
    /// often nothing. Returns what that sprang.
    ///
    /// # Errors
    ///
    /// As those of [`Interpreter::take`].
    #[inline(always)]
    pub fn take_half<O: ByteSink, E: MessageSink>(
        &mut self,
        byte: u8,
        unread: &mut Unread<PageEvent>,
        out: &mut O,
        err: &mut E,
    ) -> Result<Option<Sprung>, Halt>
        ensures { DoesTaking (λ k. byte_taking k self.old.reader.reading unread.old.input byte) []
            self.old self.new unread.old unread.new
            (sinks (O.sunk out.old) (told_by E.MessageSink err.old))
            (sinks (O.sunk out.new) (told_by E.MessageSink err.new)) result }
    {
        match read_half(&mut self.reader, byte, &self.formatter.composer, unread) {
            Ok(step) => self.perform_seldom(step, unread.line(), out, err),
            Err(limit) => Err(Halt::Refused(limit)),
        }
    }

    /// Does what an item means that ended on this line of the input: most often nothing.
    #[inline(always)]
    pub(super) fn perform_seldom<O: ByteSink, E: MessageSink>(
        &mut self,
        step: Step,
        line: u32,
        out: &mut O,
        err: &mut E,
    ) -> Result<Option<Sprung>, Halt>
        ensures { DoesMeaning line (messages_of self.old.reader.meaning.message step)
            (events_of self.old.reader.meaning.events step) self.old self.new
            (sinks (O.sunk out.old) (told_by E.MessageSink err.old))
            (sinks (O.sunk out.new) (told_by E.MessageSink err.new)) result }
    {
        match step {
            Step::Nothing => self.perform(Step::Nothing, line, out, err),
            _ => self.perform_any(step, line, out, err),
        }
    }

    /// Does what an item means that ended on this line of the input, whatever it means.
    #[inline(never)]
    fn perform_any<O: ByteSink, E: MessageSink>(
        &mut self,
        step: Step,
        line: u32,
        out: &mut O,
        err: &mut E,
    ) -> Result<Option<Sprung>, Halt>
        ensures { DoesMeaning line (messages_of self.old.reader.meaning.message step)
            (events_of self.old.reader.meaning.events step) self.old self.new
            (sinks (O.sunk out.old) (told_by E.MessageSink err.old))
            (sinks (O.sunk out.new) (told_by E.MessageSink err.new)) result }
    {
        self.perform(step, line, out, err)
    }
}
