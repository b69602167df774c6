//! Ends of what is half read, of the input, and of the run.

ghost use Rattle.std.specs.Prelude.{◌≡◌, ℕ, true, Result, OnOk};
ghost use Rattle.run_model.specs.Run.{escape_ends, input_ended, phase_ended};
ghost use Rattle.run_turns.specs.Clauses.{OutcomeOf, Sunk, Tape, Puts, Seen, seen, message_line};
ghost use Rattle.run_turns.specs.Clauses.{Beginning, ReadFailed, Device, StandFor};
ghost use Rattle.roff_num.specs.declared.limits.Limits.{Limits as LimitsOf};
ghost use Rattle.run_model.specs.Output.{PageHistory};
ghost use Rattle.run_model.specs.declared.phase.Phase.TheVariants.{Reading, LastMacro};
ghost use Rattle.page_bytes.specs.Told.{told_by};

use super::Running;
use page_bytes::{ByteSink, MessageSink, SinkFault};
use roff_scan::Note;
use run_events::Halt;
use run_items::halt::status;
use run_items::report::{report, tell};
use run_model::{Message, Phase, Status};

impl Running {
    ghost use Rattle.run_turns.specs.Running.Turning.{DoesItem, MayEnd, MayGoOn};
    ghost use Rattle.run_items.specs.Ending.{input_ends};
    ghost use Rattle.run_turns.specs.Running.Telling.{TellsOrHalts};
    ghost use Rattle.run_items.specs.Halting.{Halts, line_told};

    /// Ends what is half read, before what stays.
    pub(super) fn end_escape<O: ByteSink, E: MessageSink>(
        &mut self,
        out: &mut O,
        err: &mut E,
    ) -> Result<(), Status>
        ensures { (failures : ℕ) → DoesItem self.old.unread.input.line escape_ends self.old self.new
            (seen failures (O.sunk out.old) (told_by E.MessageSink err.old))
            (seen failures (O.sunk out.new) (told_by E.MessageSink err.new)) result }
    {
        let line = self.unread.line();
        match self.interpreter.take_escape_end(&mut self.unread, out, err) {
            Ok(sprung) => self.go_on(sprung, out, err),
            Err(halt) => Err(self.halted(halt, line, line, err)),
        }
    }

    /// The end of the input: what is half read ends first, then an unfinished line, and then the
    /// phase.
    #[inline(never)]
    pub(super) fn end_input<O: ByteSink, E: MessageSink>(
        &mut self,
        out: &mut O,
        err: &mut E,
    ) -> Result<(), Status>
        ensures acts { MayEnd self.old → (failures : ℕ)
            → DoesItem self.old.unread.input.line input_ends self.old self.new
            (seen failures (O.sunk out.old) (told_by E.MessageSink err.old))
            (seen failures (O.sunk out.new) (told_by E.MessageSink err.new)) result }
        ensures goes_on { (l : LimitsOf) (h : PageHistory)
            → StandFor l h self.old.interpreter.formatter.composer
            → OnOk result (MayGoOn self.old h) }
    {
        if self.unread.has_open_escape() {
            return self.end_escape(out, err);
        }
        if self.interpreter.is_unfinished(self.phase) {
            return self.end_line(out, err);
        }
        match self.phase {
            Phase::Reading => self.read_last_macro(out, err),
            Phase::LastMacro => self.finish(out, err),
            Phase::Closing => Err(Status::Done),
        }
    }

    /// Reads the last macro behind the input, if there is one.
    fn read_last_macro<O: ByteSink, E: MessageSink>(
        &mut self,
        out: &mut O,
        err: &mut E,
    ) -> Result<(), Status>
        requires { self.old.phase ≡ Reading }
        ensures { (failures : ℕ) → DoesItem self.old.unread.input.line (phase_ended Reading)
            self.old self.new
            (seen failures (O.sunk out.old) (told_by E.MessageSink err.old))
            (seen failures (O.sunk out.new) (told_by E.MessageSink err.new)) result }
    {
        let line = self.unread.line();
        self.phase = Phase::LastMacro;
        match self.interpreter.read_last_macro(&mut self.unread) {
            Ok(sprung) => self.go_on(sprung, out, err),
            Err(halt) => Err(self.halted(halt, line, line, err)),
        }
    }

    /// Ends an unfinished line, with nothing half read.
    fn end_line<O: ByteSink, E: MessageSink>(
        &mut self,
        out: &mut O,
        err: &mut E,
    ) -> Result<(), Status>
        ensures { (failures : ℕ) → DoesItem self.old.unread.input.line (input_ended true)
            self.old self.new
            (seen failures (O.sunk out.old) (told_by E.MessageSink err.old))
            (seen failures (O.sunk out.new) (told_by E.MessageSink err.new)) result }
    {
        let line = self.unread.line();
        match self.interpreter.end_input_line(&mut self.unread, out, err) {
            Ok(sprung) => self.go_on(sprung, out, err),
            Err(halt) => Err(self.halted(halt, line, line, err)),
        }
    }

    /// Places the pending line behind the last macro, with nothing half read.
    fn finish<O: ByteSink, E: MessageSink>(
        &mut self,
        out: &mut O,
        err: &mut E,
    ) -> Result<(), Status>
        requires { self.old.phase ≡ LastMacro }
        ensures { (failures : ℕ) → DoesItem self.old.unread.input.line (phase_ended LastMacro)
            self.old self.new
            (seen failures (O.sunk out.old) (told_by E.MessageSink err.old))
            (seen failures (O.sunk out.new) (told_by E.MessageSink err.new)) result }
    {
        let line = self.unread.line();
        self.phase = Phase::Closing;
        match self.interpreter.finish(out) {
            Ok(sprung) => self.go_on(sprung, out, err),
            Err(halt) => Err(self.halted(halt, line, line, err)),
        }
    }

    /// How a run ends that was halted. The byte before its last item stood on the first line, and
    /// the last byte taken stands on the second.
    #[inline(never)]
    pub fn halted<E: MessageSink>(
        &self,
        halt: Halt,
        line_before: u32,
        line: u32,
        err: &mut E,
    ) -> Status
        ensures { (t : Beginning) (left : Tape) (start : Seen) (failures : ℕ) (out : Sunk)
            → Halts self.now.limits t left (line_told halt line_before line) halt
            start (seen failures out (told_by E.MessageSink err.old))
            → OutcomeOf self.now.limits t left result start
            (seen failures out (told_by E.MessageSink err.new)) }
    {
        let told = match halt {
            Halt::Refused(_) => line_before,
            _ => line,
        };
        status(halt, self.limits, told, err)
    }

    /// Tells a message of the source's, if there is room for it. The byte before it stood on this
    /// line. An `Err` is the status of a run that ended.
    #[inline(never)]
    pub(super) fn tell_note<E: MessageSink>(
        &self,
        note: &Note,
        line: u32,
        err: &mut E,
    ) -> Result<(), Status>
        ensures { TellsOrHalts self.now.limits line note.now.items
            (told_by E.MessageSink err.old) (told_by E.MessageSink err.new) result }
    {
        match tell(note, err) {
            Ok(()) => Ok(()),
            Err(halt) => Err(self.halted(halt, line, line, err)),
        }
    }

    /// The source failed: the status of the run.
    #[inline(never)]
    pub(super) fn source_failed<E: MessageSink>(&self, err: &mut E) -> Status
        ensures status { result ≡ Device }
        ensures report { (r : Result (Unit {0}) SinkFault) × Puts (told_by E.MessageSink err.old)
            (told_by E.MessageSink err.new)
            (message_line self.now.unread.input.line ReadFailed) r }
    {
        let _ = report(Message::ReadFailed, self.unread.line(), err);
        Status::Device
    }
}
