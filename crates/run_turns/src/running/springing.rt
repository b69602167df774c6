//! What is done behind an event that stopped the others: the text of a diversion changes, and then
//! a macro that sprang is read, or the others are performed.

ghost use Rattle.run_turns.specs.Clauses.{Sunk, seen};
ghost use Rattle.std.specs.Prelude.{ℕ, ◌≡◌, ◌≤◌, [], None, Some, drop};
ghost use Rattle.run_events.specs.Formatter.Sprung.{event_going_on, left_behind};
ghost use Rattle.run_events.specs.declared.sprung.Left.TheVariants.{GoesOn as GoesOnLeft};
ghost use Rattle.page_bytes.specs.Told.{told_by};

use super::Running;
use page_bytes::{ByteSink, MessageSink};
use page_model::LayoutEvent;
use roff_num::ShortName;
use run_events::{Halt, Left, Sprung};
use run_model::{PageEvent, Status};

/// An event stops its list no more than so often: each of 256 events may four times.
const MOST_STOPS: u32 = 1024;

impl Running {
    ghost use Rattle.run_turns.specs.Running.Springing.{GoesOn, GoesOnSettled, PutsBack};
    ghost use Rattle.run_turns.specs.Running.Springing.{Settles};
    ghost use Rattle.run_turns.specs.Running.Springing.{StopsNext, StopsNextSettled};

    /// Goes on behind the events of an item, of which one may have stopped the others.
    #[inline(always)]
    pub fn go_on<O: ByteSink, E: MessageSink>(
        &mut self,
        sprung: Option<Sprung>,
        out: &mut O,
        err: &mut E,
    ) -> Result<(), Status>
        ensures { (failures : ℕ) → GoesOn sprung self.old self.new
            (seen failures (O.sunk out.old) (told_by E.MessageSink err.old))
            (seen failures (O.sunk out.new) (told_by E.MessageSink err.new)) result }
    {
        match sprung {
            None => Ok(()),
            Some(sprung) => self.go_on_behind_event(sprung, out, err),
        }
    }

    /// Goes on behind an event that stopped those behind it, which are performed then. One of them
    /// may stop once more: fewer of them are left each time, or the open word or field ends.
    #[cold]
    #[inline(never)]
    fn go_on_behind_event<O: ByteSink, E: MessageSink>(
        &mut self,
        first: Sprung,
        out: &mut O,
        err: &mut E,
    ) -> Result<(), Status>
        ensures { (failures : ℕ) → GoesOn (Some first) self.old self.new
            (seen failures (O.sunk out.old) (told_by E.MessageSink err.old))
            (seen failures (O.sunk out.new) (told_by E.MessageSink err.new)) result }
    {
        let mut sprung = first;
        let mut left = MOST_STOPS;
        while left > 0 {
            left -= 1;
            match self.go_on_once(sprung, out, err) {
                Ok(None) => return Ok(()),
                Ok(Some(next)) => sprung = next,
                Err(status) => return Err(status),
            }
        }
        Ok(())
    }

    /// Goes on behind an event that stopped those behind it, up to one of these that stops the
    /// others: that one is returned.
    fn go_on_once<O: ByteSink, E: MessageSink>(
        &mut self,
        sprung: Sprung,
        out: &mut O,
        err: &mut E,
    ) -> Result<Option<Sprung>, Status>
        ensures { (failures : ℕ) → StopsNext sprung self.old self.new
            (seen failures (O.sunk out.old) (told_by E.MessageSink err.old))
            (seen failures (O.sunk out.new) (told_by E.MessageSink err.new)) result }
    {
        match self.settle(sprung, err) {
            Ok(()) => self.go_on_settled(sprung, out, err),
            Err(status) => Err(status),
        }
    }

    /// Changes the text of a diversion, if that is due.
    fn settle<E: MessageSink>(&mut self, sprung: Sprung, err: &mut E) -> Result<(), Status>
        ensures { (failures : ℕ) (out : Sunk) → Settles sprung self.old self.new
            (seen failures out (told_by E.MessageSink err.old))
            (seen failures out (told_by E.MessageSink err.new)) result }
    {
        match sprung.why {
            Left::Springs => Ok(()),
            Left::GoesOn => Ok(()),
            Left::Diverts => {
                let line = self.unread.line();
                match self.interpreter.change_text(&mut self.unread) {
                    Ok(()) => Ok(()),
                    Err(limit) => Err(self.halted(Halt::Limit(limit), line, line, err)),
                }
            }
        }
    }

    /// Goes on where no text is to change any more: a macro that sprang is read, or the others are
    /// performed.
    fn go_on_settled<O: ByteSink, E: MessageSink>(
        &mut self,
        sprung: Sprung,
        out: &mut O,
        err: &mut E,
    ) -> Result<Option<Sprung>, Status>
        ensures { (failures : ℕ) → StopsNextSettled sprung self.old self.new
            (seen failures (O.sunk out.old) (told_by E.MessageSink err.old))
            (seen failures (O.sunk out.new) (told_by E.MessageSink err.new)) result }
    {
        match self.interpreter.formatter.composer.due.sprung {
            Some(name) => match self.spring(name, sprung, err) {
                Ok(()) => Ok(None),
                Err(status) => Err(status),
            },
            None => self.perform_left(sprung, out, err),
        }
    }

    /// Performs the others, up to one that stops those behind it: that is returned.
    fn perform_left<O: ByteSink, E: MessageSink>(
        &mut self,
        sprung: Sprung,
        out: &mut O,
        err: &mut E,
    ) -> Result<Option<Sprung>, Status>
        requires { self.old.interpreter.formatter.composer.due.sprung ≡ None }
        ensures { (failures : ℕ) → StopsNextSettled sprung self.old self.new
            (seen failures (O.sunk out.old) (told_by E.MessageSink err.old))
            (seen failures (O.sunk out.new) (told_by E.MessageSink err.new)) result }
    {
        let line = self.unread.line();
        match self.interpreter.perform_left(sprung.left, out) {
            Ok(next) => Ok(next),
            Err(halt) => Err(self.halted(halt, line, line, err)),
        }
    }

    /// Puts the events back that were left, and reads a macro that sprang.
    fn spring<E: MessageSink>(
        &mut self,
        name: ShortName,
        sprung: Sprung,
        err: &mut E,
    ) -> Result<(), Status>
        requires { self.old.interpreter.formatter.composer.due.sprung ≡ Some name }
        ensures { (failures : ℕ) (out : Sunk) → GoesOnSettled sprung self.old self.new
            (seen failures out (told_by E.MessageSink err.old))
            (seen failures out (told_by E.MessageSink err.new)) result }
    {
        self.put_left_back(sprung);
        let line = self.unread.line();
        match self.interpreter.reader.spring(name, &mut self.unread) {
            Ok(()) => Ok(()),
            Err(limit) => Err(self.halted(Halt::Limit(limit), line, line, err)),
        }
    }

    /// Puts the events back that are left of those that the reader keeps: the last one first. An
    /// eject in front of them may go on.
    fn put_left_back(&mut self, sprung: Sprung)
        ensures { PutsBack (left_behind sprung self.old.interpreter.reader.meaning.events)
            self.old self.new }
    {
        let first = sprung.left as usize;
        match sprung.why {
            Left::Springs => self.put_back(first),
            Left::Diverts => self.put_back(first),
            Left::GoesOn => self.put_going_on(sprung),
        }
    }

    /// Puts the events back that were left, behind one that goes on.
    fn put_going_on(&mut self, sprung: Sprung)
        requires { sprung.why ≡ GoesOnLeft }
        ensures { PutsBack (left_behind sprung self.old.interpreter.reader.meaning.events)
            self.old self.new }
    {
        let first = sprung.left as usize;
        self.put_back(first + 1);
        if let Some(event) = self.interpreter.reader.event(first) {
            let event = self.interpreter.reader.keep_title_of(going_on(event));
            self.unread.put_back(event);
        }
    }

    /// Puts the events back that the reader keeps, from an index on: the last one first. A title
    /// among them is kept.
    fn put_back(&mut self, first: usize)
        ensures { PutsBack (drop first self.old.interpreter.reader.meaning.events)
            self.old self.new }
    {
        let mut index = self.end_of_events(first);
        while index > first {
            index -= 1;
            if let Some(event) = self.interpreter.reader.event(index) {
                let event = self.interpreter.reader.keep_title_of(event);
                self.unread.put_back(event);
            }
        }
    }

    /// The index behind the last event that the reader keeps, of those from an index on.
    fn end_of_events(&self, first: usize) -> usize
        ensures reached { first ≤ result }
        ensures end { drop result self.now.interpreter.reader.meaning.events ≡ [] }
    {
        let mut index = first;
        while self.interpreter.reader.event(index).is_some() {
            index += 1;
        }
        index
    }
}

/// How an event goes on behind a macro that it sprang, if it is an eject.
fn going_on(event: PageEvent) -> PageEvent
    ensures { result ≡ event_going_on event }
{
    match event {
        PageEvent::Page(LayoutEvent::Eject(asked)) => PageEvent::Page(LayoutEvent::EjectOn(asked)),
        PageEvent::Page(LayoutEvent::EjectTo(asked, _)) => {
            PageEvent::Page(LayoutEvent::EjectOn(asked))
        }
        _ => event,
    }
}
