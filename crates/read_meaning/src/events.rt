//! The events of a request, as code keeps them.

ghost use Rattle.std.specs.Prelude.{◌≡◌, ◌≤◌, ◌∷◌, [], true, drop, map, IfSome, slice_get};
ghost use Rattle.std.specs.Prelude.{if◌then◌else◌, false};
ghost use Rattle.read_meaning.specs.Events.{around_break, request_events, stop_at, stops_set};
ghost use Rattle.read_meaning.specs.Events.{BreakNotFirst, stops_or_few};
ghost use Rattle.page_model.specs.declared.event.Event.TheVariants.{Break, Set, WordEnd};
ghost use Rattle.run_model.specs.declared.event.PageEvent.TheVariants.{Text};
ghost use Rattle.run_model.specs.Requests.Effects.{behind_break};

use arrayvec::ArrayVec;
use page_model::{Event, Param, TabStop};
use run_model::PageEvent;
use std::marker::Model;

/// The events of a request behind its break, but for tab stops.
#[derive(Clone, Copy)]
pub enum RequestEvents {
    /// None.
    Nothing,
    /// This one.
    One(PageEvent),
    /// These two.
    Two(PageEvent, PageEvent),
}

/// Tab stops.
pub type Stops = ArrayVec<TabStop, 32>;

/// The events of a request: one in front of its break, if there is one, those of its break, if it
/// breaks, and behind them a few, or those of tab stops. The stops are large and seldom set: they
/// stay where they are until others are.
#[derive(Drop)]
pub struct RequestedEvents {
    before: Option<PageEvent>,
    breaks: bool,
    behind: RequestEvents,
    sets_stops: bool,
    stops: Stops,
}

impl Model for RequestedEvents {
    ghost use Rattle.read_meaning.specs.Events.Kept.{Told, told_by};

    ghost Value = { Told };

    ghost view = { told_by };
}

impl RequestedEvents {
    /// None.
    pub fn new() -> Self
        ensures { result.items ≡ [] }
    {
        RequestedEvents {
            before: None,
            breaks: false,
            behind: RequestEvents::Nothing,
            sets_stops: false,
            stops: Stops::new(),
        }
    }

    /// Keeps one in front of a break, if there is one, those of the break, if there is one, and
    /// these behind it.
    pub fn keep(&mut self, before: Option<PageEvent>, breaks: bool, behind: RequestEvents)
        ensures { self.new.items ≡ around_break before breaks (request_events behind) }
    {
        self.before = before;
        self.breaks = breaks;
        self.behind = behind;
        self.sets_stops = false;
    }

    /// Keeps those of a break, if there is one, and behind it those that set these stops in place
    /// of those in force.
    pub fn keep_stops(&mut self, breaks: bool, stops: Stops)
        ensures { self.new.items ≡ behind_break breaks (stops_set stops.items) }
    {
        self.before = None;
        self.breaks = breaks;
        self.sets_stops = true;
        self.stops = stops;
    }

    /// Whether they begin with those of a break.
    #[inline(always)]
    pub fn begin_with_break(&self) -> bool
        ensures begins { result ≡ true
            → self.now.items ≡ Text WordEnd ∷ Text Break ∷ drop 2 self.now.items }
        ensures others { result ≡ false → BreakNotFirst self.now.items }
    {
        self.before.is_none() && self.breaks
    }

    /// The parameter that they set behind those of a break, if one is to come, where they are no
    /// others.
    #[inline(always)]
    pub fn setting_behind(&self, breaks: bool) -> Option<Param>
        ensures { IfSome result
            (λ param. self.now.items ≡ behind_break breaks (Text (Set param) ∷ [])) }
    {
        if self.before.is_some() {
            return None;
        }
        if self.sets_stops {
            return None;
        }
        if self.breaks != breaks {
            return None;
        }
        match &self.behind {
            RequestEvents::One(PageEvent::Text(Event::Set(param))) => Some(*param),
            _ => None,
        }
    }

    /// The event at an index, if there are so many: 36 at most.
    #[inline(always)]
    pub fn at(&self, index: usize) -> Option<PageEvent>
        ensures at { result ≡ slice_get self.now.items index }
        ensures few { IfSome result (λ event. index ≤ 35) }
    {
        match (&self.before, index) {
            (None, _) => broken_at(
                self.breaks,
                &self.behind,
                self.sets_stops,
                &self.stops,
                index,
            ),
            (Some(event), 0) => Some(*event),
            (Some(_), _) => {
                broken_at(
                    self.breaks,
                    &self.behind,
                    self.sets_stops,
                    &self.stops,
                    index - 1,
                )
            }
        }
    }
}

/// The event at an index of a break, if there is one, and what is kept behind it.
#[inline(always)]
fn broken_at(
    breaks: bool,
    few: &RequestEvents,
    sets_stops: bool,
    stops: &Stops,
    index: usize,
) -> Option<PageEvent>
    ensures at { result ≡ slice_get (behind_break breaks
        (stops_or_few sets_stops stops.now.items few.now)) index }
    ensures few { IfSome result (λ event. index ≤ 34) }
{
    if !breaks {
        return kept_at(few, sets_stops, stops, index);
    }
    if index == 0 {
        return Some(PageEvent::Text(Event::WordEnd));
    }
    break_at(few, sets_stops, stops, index - 1)
}

/// The event at an index of a break and what is kept behind it.
fn break_at(few: &RequestEvents, sets_stops: bool, stops: &Stops, index: usize) -> Option<PageEvent>
    ensures at { result
        ≡ slice_get (Text Break ∷ stops_or_few sets_stops stops.now.items few.now) index }
    ensures few { IfSome result (λ event. index ≤ 33) }
{
    if index == 0 {
        return Some(PageEvent::Text(Event::Break));
    }
    kept_at(few, sets_stops, stops, index - 1)
}

/// The event at an index of those that set these stops, if they are set, or of a few.
fn kept_at(few: &RequestEvents, sets_stops: bool, stops: &Stops, index: usize) -> Option<PageEvent>
    ensures at { result ≡ slice_get
        (stops_or_few sets_stops stops.now.items few.now) index }
    ensures few { IfSome result (λ event. index ≤ 32) }
{
    if sets_stops {
        stops_at(stops, index)
    } else {
        few_at(few, index)
    }
}

/// The event at an index of a few.
fn few_at(few: &RequestEvents, index: usize) -> Option<PageEvent>
    ensures at { result ≡ slice_get (request_events few.now) index }
    ensures few { IfSome result (λ event. index ≤ 32) }
{
    match (few, index) {
        (RequestEvents::One(event), 0) => Some(*event),
        (RequestEvents::Two(first, _), 0) => Some(*first),
        (RequestEvents::Two(_, second), 1) => Some(*second),
        _ => None,
    }
}

/// The event at an index of those that set these stops in place of those in force.
fn stops_at(stops: &Stops, index: usize) -> Option<PageEvent>
    ensures at { result ≡ slice_get (stops_set stops.now.items) index }
    ensures few { IfSome result (λ event. index ≤ 32) }
{
    if index == 0 {
        return Some(PageEvent::Text(Event::Set(Param::NoStops)));
    }
    stop_at(stops, index - 1)
}

/// The event of the stop at an index.
fn stop_at(stops: &Stops, index: usize) -> Option<PageEvent>
    ensures at { result ≡ slice_get (map stop_at stops.now.items) index }
    ensures few { IfSome result (λ event. index ≤ 31) }
{
    match stops.get(index) {
        Some(stop) => Some(PageEvent::Text(Event::Set(stop.param()))),
        None => None,
    }
}
