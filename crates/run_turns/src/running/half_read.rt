//! What is half read: it takes the item in front, waits for a byte, or decides.

ghost use Rattle.std.specs.Prelude.{◌≡◌, ℕ};
ghost use Rattle.run_model.specs.Run.{awaited, byte_taken, in_front_taken, item_read};
ghost use Rattle.input_model.specs.Shown.{SeesByte, seen_ahead};
ghost use Rattle.roff_scan.specs.Unread.Calls.{Looks};
ghost use Rattle.run_turns.specs.Clauses.{seen};
ghost use Rattle.page_bytes.specs.Told.{told_by};

use super::Running;
use page_bytes::{ByteSink, MessageSink};
use roff_scan::{ByteSource, Sight, Waiting};
use run_model::Status;

impl Running {
    ghost use Rattle.run_items.specs.Room.{SeesOn};
    ghost use Rattle.run_turns.specs.Running.Turning.{DoesItem, TurnsOver};

    /// Takes the item in front where something is half read, or waits for a byte, or a condition
    /// that is read decides. An `Err` is the status of a run that ended.
    #[inline(always)]
    pub fn turn_half_read<S: ByteSource, O: ByteSink, E: MessageSink>(
        &mut self,
        source: &mut S,
        out: &mut O,
        err: &mut E,
    ) -> Result<(), Status>
        ensures { TurnsOver S.ByteSource O.ByteSink E.MessageSink (λ s. item_read self.old.limits s)
            source.old source.new out.old out.new err.old err.new self.old self.new result }
    {
        match self.interpreter.reader.waiting(&self.unread) {
            Waiting::Takes => self.turn_in_front(source, out, err),
            Waiting::Waits => self.turn_waiting(source, out, err),
            Waiting::Decides => self.end_escape(out, err),
        }
    }

    /// What is half read waits: what stands in front stays, and ends it, or is taken. Most often it
    /// is a byte that is taken.
    #[inline(never)]
    fn turn_waiting<S: ByteSource, O: ByteSink, E: MessageSink>(
        &mut self,
        source: &mut S,
        out: &mut O,
        err: &mut E,
    ) -> Result<(), Status>
        ensures { TurnsOver S.ByteSource O.ByteSink E.MessageSink
            (λ s. awaited self.old.limits (seen_ahead s.input.ahead) s)
            source.old source.new out.old out.new err.old err.new self.old self.new result }
    {
        let line = self.unread.line();
        match self.unread.take_waiting(source) {
            Some(byte) => self.take_half(byte, line, out, err),
            None => self.turn_looking(source, out, err),
        }
    }

    /// What waits looks at the first byte behind any ends of texts.
    #[inline(always)]
    pub(super) fn turn_looking<S: ByteSource, O: ByteSink, E: MessageSink>(
        &mut self,
        source: &mut S,
        out: &mut O,
        err: &mut E,
    ) -> Result<(), Status>
        ensures { TurnsOver S.ByteSource O.ByteSink E.MessageSink
            (λ s. awaited self.old.limits (seen_ahead s.input.ahead) s)
            source.old source.new out.old out.new err.old err.new self.old self.new result }
    {
        match self.unread.look_ahead(source) {
            Some(byte) => self.turn_seeing(byte, source, out, err),
            None => self.turn_asking(source, out, err),
        }
    }

    /// Goes on with what waits where this byte is seen ahead: the byte ends it, or the item in
    /// front is taken.
    #[inline(always)]
    fn turn_seeing<S: ByteSource, O: ByteSink, E: MessageSink>(
        &mut self,
        byte: u8,
        source: &mut S,
        out: &mut O,
        err: &mut E,
    ) -> Result<(), Status>
        requires { Looks (S.gives source.old) (S.gives source.old)
            self.old.unread self.old.unread (SeesByte byte) }
        ensures { TurnsOver S.ByteSource O.ByteSink E.MessageSink
            (λ s. awaited self.old.limits (seen_ahead s.input.ahead) s)
            source.old source.new out.old out.new err.old err.new self.old self.new result }
    {
        if self.unread.is_ended_by(Some(byte)) {
            return self.end_escape(out, err);
        }
        self.turn_above(source, out, err)
    }

    /// Goes on with what waits where no byte is known to stand ahead: the source is asked for one.
    #[inline(never)]
    fn turn_asking<S: ByteSource, O: ByteSink, E: MessageSink>(
        &mut self,
        source: &mut S,
        out: &mut O,
        err: &mut E,
    ) -> Result<(), Status>
        ensures { TurnsOver S.ByteSource O.ByteSink E.MessageSink
            (λ s. awaited self.old.limits (seen_ahead s.input.ahead) s)
            source.old source.new out.old out.new err.old err.new self.old self.new result }
    {
        let line = self.unread.line();
        let seen = match self.unread.look(source) {
            Sight::Byte(byte) => Some(byte),
            Sight::Nothing => None,
            Sight::SourceEnd => None,
            Sight::Note(note) => return self.tell_note(&note, line, err),
            Sight::Fault => return Err(self.source_failed(err)),
            Sight::Stop(limit) => return Err(Status::Limit(limit)),
        };
        if self.unread.is_ended_by(seen) {
            return self.end_escape(out, err);
        }
        self.turn_above(source, out, err)
    }

    /// Takes the item in front above what is half read: often the end of a text.
    #[inline(always)]
    fn turn_above<S: ByteSource, O: ByteSink, E: MessageSink>(
        &mut self,
        source: &mut S,
        out: &mut O,
        err: &mut E,
    ) -> Result<(), Status>
        requires { SeesOn self.old.unread.input }
        ensures { TurnsOver S.ByteSource O.ByteSink E.MessageSink
            (λ s. in_front_taken self.old.limits s.input.ahead s)
            source.old source.new out.old out.new err.old err.new self.old self.new result }
    {
        if self.unread.pass_end() {
            return Ok(());
        }
        self.turn_item(source, out, err)
    }

    /// Takes a byte where something is half read; the byte before it stood on this line.
    #[inline(always)]
    fn take_half<O: ByteSink, E: MessageSink>(
        &mut self,
        byte: u8,
        line_before: u32,
        out: &mut O,
        err: &mut E,
    ) -> Result<(), Status>
        ensures { (failures : ℕ) → DoesItem line_before (byte_taken byte) self.old self.new
            (seen failures (O.sunk out.old) (told_by E.MessageSink err.old))
            (seen failures (O.sunk out.new) (told_by E.MessageSink err.new)) result }
    {
        let line = self.unread.line();
        match self.interpreter.take_half(byte, &mut self.unread, out, err) {
            Ok(sprung) => self.go_on(sprung, out, err),
            Err(halt) => Err(self.halted(halt, line_before, line, err)),
        }
    }
}
