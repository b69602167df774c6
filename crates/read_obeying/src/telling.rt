//! The meaning that is kept of a request: a message, and events.

ghost use Rattle.std.specs.Prelude.{◌≡◌, ◌∷◌, []};
ghost use Rattle.std.specs.Option.{option_to_list};
ghost use Rattle.input_arguments.specs.ArgumentList.{listed};
ghost use Rattle.page_model.specs.declared.event.Event.TheVariants.{Set};
ghost use Rattle.read_meaning.specs.Events.{around_break, request_events};
ghost use Rattle.run_model.specs.Events.Steps.{events_of, messages_of};
ghost use Rattle.run_model.specs.Requests.Effects.{behind_break, meant_by};
ghost use Rattle.run_model.specs.Requests.Tabs.{tab_stops};
ghost use Rattle.run_model.specs.declared.event.PageEvent.TheVariants.{Text};

use page_model::{Event, Param};
use read_meaning::{Meaning, RequestEvents};
use read_requests::tab_stops;
use roff_scan::ArgumentList;
use run_model::{LineEvents, Message, PageEvent, Step};

/// A message is reported.
pub(crate) fn report(meaning: &mut Meaning, message: Message) -> Step
    ensures says { messages_of meaning.new.message result ≡ message ∷ [] }
    ensures none { events_of meaning.new.events result ≡ [] }
{
    meaning.keep_line(Some(message), false, LineEvents::Nothing);
    Step::Meaning
}

/// A message is reported, if there is one.
#[inline(always)]
pub(crate) fn say(meaning: &mut Meaning, message: Option<Message>) -> Step
    ensures says { messages_of meaning.new.message result ≡ option_to_list message }
    ensures none { events_of meaning.new.events result ≡ [] }
{
    match message {
        None => Step::Nothing,
        Some(message) => report(meaning, message),
    }
}

/// Keeps the event that sets a parameter, behind a break, if there is one.
#[inline(always)]
pub(crate) fn set_always(meaning: &mut Meaning, breaks: bool, param: Param) -> Step
    ensures says { messages_of meaning.new.message result ≡ [] }
    ensures kept { events_of meaning.new.events result
        ≡ behind_break breaks (Text (Set param) ∷ []) }
{
    happen(meaning, breaks, PageEvent::Text(Event::Set(param)))
}

/// Keeps an event, behind a break, if there is one.
#[inline(always)]
pub(crate) fn happen(meaning: &mut Meaning, breaks: bool, event: PageEvent) -> Step
    ensures says { messages_of meaning.new.message result ≡ [] }
    ensures kept { events_of meaning.new.events result ≡ behind_break breaks (event ∷ []) }
{
    keep(meaning, None, None, breaks, RequestEvents::One(event))
}

/// Keeps a message, if there is one, an event in front of a break, if there is one, those of the
/// break, if there is one, and these behind it.
#[inline(always)]
pub(crate) fn keep(
    meaning: &mut Meaning,
    message: Option<Message>,
    before: Option<PageEvent>,
    breaks: bool,
    events: RequestEvents,
) -> Step
    ensures says { messages_of meaning.new.message result ≡ option_to_list message }
    ensures kept { events_of meaning.new.events result
        ≡ around_break before breaks (request_events events) }
{
    meaning.keep_request(message, before, breaks, events);
    Step::Meaning
}

/// Keeps the events of a break, if there is one, and behind it those that set these stops, if they
/// are good.
pub(crate) fn keep_stops(meaning: &mut Meaning, breaks: bool, given: ArgumentList<'_>) -> Step
    ensures says { messages_of meaning.new.message result
        ≡ (meant_by breaks (tab_stops (listed given.entry))).messages }
    ensures kept { events_of meaning.new.events result
        ≡ (meant_by breaks (tab_stops (listed given.entry))).events }
{
    match tab_stops(given) {
        Some(stops) => {
            meaning.keep_stops(breaks, stops);
            Step::Meaning
        }
        None => report(meaning, Message::BadNumber),
    }
}
