//! What is due before anything more is taken.

ghost use Rattle.std.specs.Prelude.{◌≡◌, ℕ, Err, Some, false, true};
ghost use Rattle.run_turns.specs.Clauses.{LineStart, Sunk, seen, due, Leaves, Tells};
ghost use Rattle.run_model.specs.Reading.Returns.{behind_return};
ghost use Rattle.page_bytes.specs.Told.{told_by};

use super::Running;
use page_bytes::MessageSink;
use run_items::report::{report_abort, tell_text};
use run_model::{Due, Phase, Status};

impl Running {
    ghost use Rattle.run_turns.specs.Running.Turning.{DoesDue};
    ghost use Rattle.run_turns.specs.Running.Leaving.{DropsAhead, GoesBack, LeavesInput};

    /// Does what is due before anything more is taken. An `Err` is the status of a run that ended.
    #[inline(always)]
    pub fn do_due<E: MessageSink>(&mut self, err: &mut E) -> Result<(), Status>
        ensures { (failures : ℕ) (out : Sunk) → DoesDue self.old self.new
            (seen failures out (told_by E.MessageSink err.old))
            (seen failures out (told_by E.MessageSink err.new)) result }
    {
        match self.interpreter.reader.due() {
            None => Ok(()),
            Some(due) => self.carry_out(due, err),
        }
    }

    /// Does this, which is due. An `Err` is the status of a run that ended.
    #[inline(never)]
    fn carry_out<E: MessageSink>(&mut self, what: Due, err: &mut E) -> Result<(), Status>
        requires { due self.old.interpreter.reader.reading ≡ Some what }
        ensures { (failures : ℕ) (out : Sunk) → DoesDue self.old self.new
            (seen failures out (told_by E.MessageSink err.old))
            (seen failures out (told_by E.MessageSink err.new)) result }
    {
        match what {
            Due::Tells { aborts: true } => Err(self.abort(err)),
            Due::Tells { aborts: false } => self.tell_held_text(err),
            Due::Leaves => {
                self.leave_input();
                Ok(())
            }
        }
    }

    /// Leaves the input, and reads what all ends of bodies lead back to. As the run closes nothing
    /// is left, and a line begins.
    fn leave_input(&mut self)
        requires { due self.old.interpreter.reader.reading ≡ Some Leaves }
        ensures { LeavesInput self.old self.new }
    {
        self.interpreter.reader.begin_next_line();
        match self.phase {
            Phase::Closing => {}
            Phase::Reading => self.drop_ahead(),
            Phase::LastMacro => self.drop_ahead(),
        }
    }

    /// Drops what stands ahead of the source, of which nothing more is taken, and reads what all
    /// ends of bodies lead back to.
    fn drop_ahead(&mut self)
        requires { self.old.interpreter.reader.reading ≡ LineStart }
        ensures { DropsAhead self.old self.new }
    {
        let back = self.unread.leave();
        self.go_back(back);
    }

    /// The end of a body, with the number of what it leads back to: that is read on, and a text
    /// line is the one that goes on.
    pub(super) fn go_back(&mut self, back: u8)
        ensures { GoesBack (behind_return back self.old.interpreter.reader.reading)
            self.old self.new }
    {
        self.interpreter.reader.end_call(back);
        self.resume();
    }

    /// What is gone back to goes on, if it is a text line.
    fn resume(&mut self)
        ensures { GoesBack self.old.interpreter.reader.reading self.old self.new }
    {
        if self.interpreter.reader.reading().is_text() {
            self.interpreter.formatter.resume();
        }
    }

    /// Tells a message, if there is room for it.
    fn tell_held_text<E: MessageSink>(&mut self, err: &mut E) -> Result<(), Status>
        requires { due self.old.interpreter.reader.reading ≡ Some (Tells false) }
        ensures { (failures : ℕ) (out : Sunk) → DoesDue self.old self.new
            (seen failures out (told_by E.MessageSink err.old))
            (seen failures out (told_by E.MessageSink err.new)) result }
    {
        match tell_text(self.unread.begun(), err) {
            Ok(()) => {
                self.unread.begin_arguments();
                self.interpreter.reader.begin_next_line();
                Ok(())
            }
            Err(halt) => {
                let line = self.unread.line();
                Err(self.halted(halt, line, line, err))
            }
        }
    }

    /// A message ends the run: its status.
    fn abort<E: MessageSink>(&self, err: &mut E) -> Status
        requires { due self.now.interpreter.reader.reading ≡ Some (Tells true) }
        ensures { (failures : ℕ) (out : Sunk) → DoesDue self.now self.now
            (seen failures out (told_by E.MessageSink err.old))
            (seen failures out (told_by E.MessageSink err.new))
            (Err result) }
    {
        match report_abort(self.unread.begun(), err) {
            Ok(()) => Status::Aborted,
            Err(_) => Status::Device,
        }
    }
}
