//! What an item means, where that isn't told by the name of its step.

ghost use Rattle.std.specs.Prelude.{◌≡◌, ◌≤◌, ◌∷◌, [], None, IfSome, drop, slice_get, true, false};
ghost use Rattle.page_model.specs.declared.event.Event.TheVariants.{Break, Set, WordEnd};
ghost use Rattle.run_model.specs.declared.event.PageEvent.TheVariants.{Text};
ghost use Rattle.run_model.specs.Events.Lines.{line_events};
ghost use Rattle.run_model.specs.Requests.Effects.{behind_break};
ghost use Rattle.read_meaning.specs.Events.{around_break, request_events, stops_set};
ghost use Rattle.read_meaning.specs.Meaning.{IsWithoutBreak, nothing_kept, resumed_if};

use crate::events::{RequestEvents, RequestedEvents, Stops};
use page_model::{Event, Param};
use run_model::{LineEvents, Message, PageEvent};
use std::marker::Model;

/// A message, if there is one, and events: those of a text line, which may go on with an
/// interrupted one, or those of a request.
#[derive(Drop)]
pub struct Meaning {
    message: Option<Message>,
    resumes: bool,
    line: LineEvents,
    is_request: bool,
    requested: RequestedEvents,
}

impl Model for Meaning {
    ghost use Rattle.read_meaning.specs.Meaning.{MeaningKept, kept_events};

    ghost Value = { MeaningKept };

    ghost view = { λ m. record {
      message = m.message;
      events = kept_events m.is_request m.requested.items m.resumes m.line;
    } };
}

impl Meaning {
    /// Nothing.
    pub fn new() -> Self
        ensures { result ≡ nothing_kept }
    {
        Meaning {
            message: None,
            resumes: false,
            line: LineEvents::Nothing,
            is_request: false,
            requested: RequestedEvents::new(),
        }
    }

    /// Keeps a message, if there is one, and the events of a text line, which may go on with an
    /// interrupted one.
    pub fn keep_line(&mut self, message: Option<Message>, resumes: bool, line: LineEvents)
        ensures { self.new
            ≡ record { message = message; events = resumed_if resumes (line_events line) } }
    {
        self.message = message;
        self.resumes = resumes;
        self.line = line;
        self.is_request = false;
    }

    /// Keeps a message, if there is one, and the events of a request: one in front of its break, if
    /// there is one, those of the break, if it breaks, and these behind it.
    pub fn keep_request(
        &mut self,
        message: Option<Message>,
        before: Option<PageEvent>,
        breaks: bool,
        behind: RequestEvents,
    )
        ensures { self.new ≡ record {
          message = message;
          events = around_break before breaks (request_events behind);
        } }
    {
        self.message = message;
        self.requested.keep(before, breaks, behind);
        self.is_request = true;
    }

    /// Keeps the events of a break, if there is one, and behind it those that set these stops in
    /// place of those in force.
    pub fn keep_stops(&mut self, breaks: bool, stops: Stops)
        ensures { self.new
            ≡ record { message = None; events = behind_break breaks (stops_set stops.items) } }
    {
        self.message = None;
        self.requested.keep_stops(breaks, stops);
        self.is_request = true;
    }

    /// The message, if there is one.
    pub fn message(&self) -> Option<Message>
        ensures { result ≡ self.now.message }
    {
        self.message
    }

    /// Whether the events begin with those of a break.
    #[inline(always)]
    pub fn begins_with_break(&self) -> bool
        ensures begins { result ≡ true
            → self.now.events ≡ Text WordEnd ∷ Text Break ∷ drop 2 self.now.events }
        ensures others { result ≡ false → IsWithoutBreak self.now.events }
    {
        self.is_request && self.requested.begin_with_break()
    }

    /// The parameter that the events set behind those of a break, if one is to come, where they are
    /// no others.
    #[inline(always)]
    pub fn setting_behind(&self, breaks: bool) -> Option<Param>
        ensures { IfSome result
            (λ param. self.now.events ≡ behind_break breaks (Text (Set param) ∷ [])) }
    {
        if !self.is_request {
            return None;
        }
        self.requested.setting_behind(breaks)
    }

    /// The event at an index, if there are so many: 36 at most.
    #[inline(always)]
    pub fn event(&self, index: usize) -> Option<PageEvent>
        ensures at { result ≡ slice_get self.now.events index }
        ensures few { IfSome result (λ event. index ≤ 35) }
    {
        if self.is_request {
            return self.requested.at(index);
        }
        match (self.resumes, index) {
            (false, _) => self.line.at(index),
            (true, 0) => Some(PageEvent::Text(Event::Resume)),
            (true, _) => self.line.at(index - 1),
        }
    }
}
