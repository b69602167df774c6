//! A run under way: what each item of the input does.

ghost use Rattle.std.specs.Prelude.{◌≡◌, ℕ, []};
ghost use Rattle.run_model.specs.Run.{ahead_taken, byte_taken, in_front_taken, item_read};
ghost use Rattle.input_model.specs.Input.{DoAhead};
ghost use Rattle.run_turns.specs.Clauses.{seen};
ghost use Rattle.page_bytes.specs.Told.{told_by};

mod ending;
mod half_read;
mod settling;
mod springing;
mod texts;

use page_bytes::{ByteSink, MessageSink};
use roff_num::Limits;
use roff_scan::{ByteSource, Item, Unread};
use run_events::Halt;
use run_items::Interpreter;
use run_model::{PageEvent, Phase, Status};

/// A run under way.
#[derive(Drop)]
pub struct Running {
    /// The limits of the run.
    pub limits: Limits,
    /// How far it is with its input, the last macro and the close.
    pub phase: Phase,
    /// What reads, and performs what is read.
    pub interpreter: Interpreter,
    /// The input that isn't taken yet.
    pub unread: Unread<PageEvent>,
}

impl Running {
    ghost use Rattle.run_items.specs.Room.{SeesOn};
    ghost use Rattle.run_turns.specs.Running.Turning.{DoesItem, TurnsOver};

    /// Takes an item off a text line, where nothing is half read: most often a byte that stands
    /// ready, whether it is waited for or not.
    #[inline(always)]
    pub fn turn_other<S: ByteSource, O: ByteSink, E: MessageSink>(
        &mut self,
        source: &mut S,
        out: &mut O,
        err: &mut E,
    ) -> Result<(), Status>
        requires none_half { self.old.unread.input.escapes ≡ [] }
        ensures { TurnsOver S.ByteSource O.ByteSink E.MessageSink (λ s. item_read self.old.limits s)
            source.old source.new out.old out.new err.old err.new self.old self.new result }
    {
        let line = self.unread.line();
        match self.unread.take_ready(source) {
            Some(byte) => self.take(byte, line, out, err),
            None => self.turn_line(source, out, err),
        }
    }

    /// Takes the item in front, where nothing is half read and no byte stands ready, or what waits
    /// for one looks at what is in front. An `Err` is the status of a run that ended.
    #[inline(never)]
    pub fn turn_line<S: ByteSource, O: ByteSink, E: MessageSink>(
        &mut self,
        source: &mut S,
        out: &mut O,
        err: &mut E,
    ) -> Result<(), Status>
        requires none_half { self.old.unread.input.escapes ≡ [] }
        ensures { TurnsOver S.ByteSource O.ByteSink E.MessageSink (λ s. item_read self.old.limits s)
            source.old source.new out.old out.new err.old err.new self.old self.new result }
    {
        if self.interpreter.reader.waits_alone(&self.unread) {
            self.turn_looking(source, out, err)
        } else {
            self.turn_item(source, out, err)
        }
    }

    /// Takes the item in front, whatever is half read: most often a byte that stands ready.
    #[inline(always)]
    fn turn_in_front<S: ByteSource, O: ByteSink, E: MessageSink>(
        &mut self,
        source: &mut S,
        out: &mut O,
        err: &mut E,
    ) -> Result<(), Status>
        requires { SeesOn self.old.unread.input }
        ensures { TurnsOver S.ByteSource O.ByteSink E.MessageSink
            (λ s. in_front_taken self.old.limits s.input.ahead s)
            source.old source.new out.old out.new err.old err.new self.old self.new result }
    {
        let line = self.unread.line();
        match self.unread.take_ready(source) {
            Some(byte) => self.take(byte, line, out, err),
            None => self.turn_item(source, out, err),
        }
    }

    /// Takes the item in front, whatever it is.
    #[inline(never)]
    fn turn_item<S: ByteSource, O: ByteSink, E: MessageSink>(
        &mut self,
        source: &mut S,
        out: &mut O,
        err: &mut E,
    ) -> Result<(), Status>
        requires { SeesOn self.old.unread.input }
        ensures { TurnsOver S.ByteSource O.ByteSink E.MessageSink
            (λ s. in_front_taken self.old.limits s.input.ahead s)
            source.old source.new out.old out.new err.old err.new self.old self.new result }
    {
        let line = self.unread.line();
        match self.unread.take(source) {
            Item::Byte(byte) => self.take(byte, line, out, err),
            Item::End => Ok(()),
            Item::Return(back) => {
                self.go_back(back);
                Ok(())
            }
            Item::Do(event) => self.perform(event, line, out, err),
            Item::Note(note) => self.tell_note(&note, line, err),
            Item::SourceEnd => self.end_input(out, err),
            Item::Fault => Err(self.source_failed(err)),
            Item::Stop(limit) => Err(Status::Limit(limit)),
            Item::Refused(limit) => Err(self.halted(Halt::Refused(limit), line, line, err)),
        }
    }

    /// Takes a byte; the byte before it stood on this line.
    #[inline(always)]
    pub fn take<O: ByteSink, E: MessageSink>(
        &mut self,
        byte: u8,
        line_before: u32,
        out: &mut O,
        err: &mut E,
    ) -> Result<(), Status>
        ensures { (failures : ℕ) → DoesItem line_before (byte_taken byte) self.old self.new
            (seen failures (O.sunk out.old) (told_by E.MessageSink err.old))
            (seen failures (O.sunk out.new) (told_by E.MessageSink err.new)) result }
    {
        let line = self.unread.line();
        match self.interpreter.take(byte, &mut self.unread, out, err) {
            Ok(sprung) => self.go_on(sprung, out, err),
            Err(halt) => Err(self.halted(halt, line_before, line, err)),
        }
    }

    /// Performs an event that was put back.
    fn perform<O: ByteSink, E: MessageSink>(
        &mut self,
        event: PageEvent,
        line_before: u32,
        out: &mut O,
        err: &mut E,
    ) -> Result<(), Status>
        ensures { (failures : ℕ) → DoesItem line_before (ahead_taken (DoAhead event))
            self.old self.new (seen failures (O.sunk out.old) (told_by E.MessageSink err.old))
            (seen failures (O.sunk out.new) (told_by E.MessageSink err.new)) result }
    {
        let line = self.unread.line();
        self.interpreter.reader.interrupt(&mut self.unread);
        match self.interpreter.perform_waiting(event, out) {
            Ok(sprung) => self.go_on(sprung, out, err),
            Err(halt) => Err(self.halted(halt, line_before, line, err)),
        }
    }
}
