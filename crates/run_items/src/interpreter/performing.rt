//! What is meant is done: the message is told, and the events are performed.

ghost use Rattle.std.specs.Prelude.{[], ◌≡◌, ◌∷◌, if◌then◌else◌};
ghost use Rattle.run_model.specs.Events.Steps.{events_of, messages_of};
ghost use Rattle.run_items.specs.Clauses.{option_to_list, message_lines, DoesMeaning};
ghost use Rattle.run_items.specs.Clauses.{DoesEvent, PerformsAll, PerformsLeft, Tells};
ghost use Rattle.run_items.specs.Clauses.{sinks};
ghost use Rattle.run_model.specs.declared.event.PageEvent.TheVariants.{Title};
ghost use Rattle.page_bytes.specs.Told.{told_by};

use super::Interpreter;
use crate::report::tell;
use page_bytes::{ByteSink, MessageSink};
use run_events::{Halt, Sprung};
use run_model::{Message, PageEvent, Step, WhichTitle};

impl Interpreter {
    /// Does what an item means that ended on this line of the input: its message is reported, and
    /// then its events are performed, up to one that stops the list.
    #[inline(always)]
    pub(super) fn perform<O: ByteSink, E: MessageSink>(
        &mut self,
        step: Step,
        line: u32,
        out: &mut O,
        err: &mut E,
    ) -> Result<Option<Sprung>, Halt>
        ensures { DoesMeaning line (messages_of self.old.reader.meaning.message step)
            (events_of self.old.reader.meaning.events step) self.old self.new
            (sinks (O.sunk out.old) (told_by E.MessageSink err.old))
            (sinks (O.sunk out.new) (told_by E.MessageSink err.new)) result }
    {
        match step {
            Step::Meaning => self.report_and_perform(line, out, err),
            _ => self.perform_line(step, out),
        }
    }

    /// Does what an item means of which the reader keeps the meaning: its message is reported on
    /// this line of the input, and then its events are performed, up to one that stops the list.
    #[inline(never)]
    fn report_and_perform<O: ByteSink, E: MessageSink>(
        &mut self,
        line: u32,
        out: &mut O,
        err: &mut E,
    ) -> Result<Option<Sprung>, Halt>
        ensures { DoesMeaning line (option_to_list self.old.reader.meaning.message)
            self.old.reader.meaning.events self.old self.new
            (sinks (O.sunk out.old) (told_by E.MessageSink err.old))
            (sinks (O.sunk out.new) (told_by E.MessageSink err.new)) result }
    {
        match report_message(self.reader.message(), line, err) {
            Ok(()) => self.perform_each(out),
            Err(halt) => Err(halt),
        }
    }

    /// Performs the events of the meaning that the reader keeps, one after another, up to one that
    /// stops the list.
    #[inline(always)]
    pub(super) fn perform_each<O: ByteSink>(&mut self, out: &mut O) -> Result<Option<Sprung>, Halt>
        ensures { PerformsAll self.old.reader.meaning.events self.old self.new
            (O.sunk out.old) (O.sunk out.new) result }
    {
        if !self.reader.begins_with_break() {
            return self.perform_behind(false, out);
        }
        match self.formatter.perform_step(Step::Break, out) {
            Ok(None) => self.perform_behind(true, out),
            Ok(Some(sprung)) => Ok(Some(sprung)),
            Err(halt) => Err(halt),
        }
    }

    /// Performs the events of the meaning that the reader keeps behind its break, if one came, up
    /// to one that stops the list. Often a parameter is set, and nothing else.
    #[inline(always)]
    fn perform_behind<O: ByteSink>(
        &mut self,
        breaks: bool,
        out: &mut O,
    ) -> Result<Option<Sprung>, Halt>
        ensures { PerformsLeft (if breaks then 2 else 0) self.old self.new
            (O.sunk out.old) (O.sunk out.new) result }
    {
        match self.reader.setting_behind(breaks) {
            Some(param) => {
                self.formatter.set(param);
                Ok(None)
            }
            None => self.perform_from(if breaks { 2 } else { 0 }, out),
        }
    }

    /// Performs the events of the meaning that the reader keeps from an index on, up to one that
    /// stops the list. Those in front of it are performed already.
    #[inline(always)]
    fn perform_from<O: ByteSink>(
        &mut self,
        begin: usize,
        out: &mut O,
    ) -> Result<Option<Sprung>, Halt>
        ensures { PerformsLeft begin self.old self.new (O.sunk out.old) (O.sunk out.new) result }
    {
        let mut index = begin;
        while let Some(event) = self.reader.event(index) {
            match self.perform_event(event, out) {
                Ok(None) => index += 1,
                Ok(Some(sprung)) => return Ok(Some(sprung.further(index as u8))),
                Err(halt) => return Err(halt),
            }
        }
        Ok(None)
    }

    /// Performs those of the events that the reader keeps that are left from an index on.
    ///
    /// # Errors
    ///
    /// [`Halt`] where one of them ends the run, or meets a limit or a fault of the output.
    pub fn perform_left<O: ByteSink>(
        &mut self,
        begin: u8,
        out: &mut O,
    ) -> Result<Option<Sprung>, Halt>
        ensures { PerformsLeft begin self.old self.new (O.sunk out.old) (O.sunk out.new) result }
    {
        self.perform_from(begin as usize, out)
    }

    /// Performs the events of a step that has a name of its own, up to one that stops the list:
    /// then the reader keeps them.
    #[inline(always)]
    pub(super) fn perform_line<O: ByteSink>(
        &mut self,
        step: Step,
        out: &mut O,
    ) -> Result<Option<Sprung>, Halt>
        ensures { PerformsAll (events_of [] step) self.old self.new
            (O.sunk out.old) (O.sunk out.new) result }
    {
        match self.formatter.perform_step(step, out) {
            Ok(None) => Ok(None),
            Ok(Some(sprung)) => {
                self.reader.keep_step(step);
                Ok(Some(sprung))
            }
            Err(halt) => Err(halt),
        }
    }

    /// Performs an event that was put back: where it is left once more the reader keeps it. Returns
    /// where it stopped, if it did.
    ///
    /// # Errors
    ///
    /// [`Halt`] where it ends the run, or meets a limit or a fault of the output.
    pub fn perform_waiting<O: ByteSink>(
        &mut self,
        event: PageEvent,
        out: &mut O,
    ) -> Result<Option<Sprung>, Halt>
        ensures { PerformsAll (event ∷ []) self.old self.new
            (O.sunk out.old) (O.sunk out.new) result }
    {
        match self.perform_event(event, out) {
            Ok(None) => Ok(None),
            Ok(Some(sprung)) => {
                self.reader.keep_event(event);
                Ok(Some(sprung))
            }
            Err(halt) => Err(halt),
        }
    }

    /// Performs an event, and before it what comes before it.
    fn perform_event<O: ByteSink>(
        &mut self,
        event: PageEvent,
        out: &mut O,
    ) -> Result<Option<Sprung>, Halt>
        ensures { DoesEvent event self.old self.new
            (O.sunk out.old) (O.sunk out.new) result }
    {
        match event {
            PageEvent::Text(event) => self.formatter.perform_text(event, out),
            PageEvent::Interrupt(line) => {
                self.formatter.interrupt(line);
                Ok(None)
            }
            PageEvent::Environment(number) => self.formatter.switch_to(number),
            PageEvent::Back => {
                self.formatter.switch_back();
                Ok(None)
            }
            PageEvent::InputTrap(trap) => {
                self.formatter.set_input_trap(trap);
                Ok(None)
            }
            PageEvent::Page(event) => self.formatter.perform_on_page(event, out),
            PageEvent::Title(which) => self.place_title(which, out),
        }
    }

    /// Places a title with the text, and the page's number in the format, that the registers keep.
    fn place_title<O: ByteSink>(
        &mut self,
        which: WhichTitle,
        out: &mut O,
    ) -> Result<Option<Sprung>, Halt>
        ensures { DoesEvent (Title which) self.old self.new
            (O.sunk out.old) (O.sunk out.new) result }
    {
        let format = self.reader.page_format();
        self.formatter
            .place_title(which, self.reader.title(which), format, out)
    }
}

/// Writes the message of an effect, if it has one.
fn report_message<E: MessageSink>(
    message: Option<Message>,
    line: u32,
    err: &mut E,
) -> Result<(), Halt>
    ensures { Tells (told_by E.MessageSink err.old) (told_by E.MessageSink err.new)
        (message_lines line (option_to_list message)) result }
{
    match message {
        None => Ok(()),
        Some(message) => tell(&message.line(line), err),
    }
}
