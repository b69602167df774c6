//! What is known of the stops of a page (manual, section 7.5).

ghost use Rattle.std.specs.Prelude.{◌≡◌, ℕ, ◌≤◌, ◌++◌, ◌∷◌, [], List, length, vec_capacity};
ghost use Rattle.std.specs.Prelude.{IfSome, Some, ◌<◌};
ghost use Rattle.page_model.specs.declared.trap.Trap.{Trap};
ghost use Rattle.page_model.specs.Stops.{next_stop};
ghost use Rattle.roff_pages.specs.Pages.KnownStops.{AreKnown, BeginsWith, IsNext, AreNext};
ghost use Rattle.roff_pages.specs.Pages.KnownStops.{kept_stop};

use crate::sought::Sought;
use crate::traps::{first_on_top, index_of, nearer_stop, next_stop, place_of};
use page_model::Trap;
use roff_num::ShortName;

/// The next stop beyond a place: a trap, or the page's end.
#[derive(Clone, Copy)]
pub struct Stop {
    /// Where it lies, in lines.
    pub place: u64,
    /// The place in turn of the first trap there, where it lies before the page's end.
    pub trap: usize,
}

/// The next stop beyond a place, with that place.
#[derive(Clone, Copy)]
pub struct Beyond {
    /// The place.
    pub from: u64,
    /// The stop.
    pub stop: Stop,
}

/// What a page begins with.
#[derive(Clone, Copy)]
pub struct Top {
    /// The name of the first trap at its beginning.
    pub name: Option<ShortName>,
    /// The next stop beyond it.
    pub stop: Stop,
}

/// What is known of a page's stops.
#[derive(Drop)]
pub struct Stops {
    /// The place in turn of the first trap at the next stop, where that lies before the page's
    /// end.
    pub trap: usize,
    /// Stops that were looked for: the one beyond a trap stands at the trap's place in turn.
    pub beyond: Vec<Beyond>,
    /// What a page begins with, if that was looked for.
    pub top: Option<Top>,
}

impl Stops {
    /// Looks for the next stop beyond a place, and forgets all others. Answers where it lies.
    pub(crate) fn look(&mut self, lines: u32, place: u64, traps: &[Trap]) -> u64
        ensures stop { result ≡ next_stop lines place traps.now }
        ensures known { AreKnown lines result traps.now self.new }
        ensures capacity { vec_capacity self.new.beyond ≡ vec_capacity self.old.beyond }
    {
        let stop = stop_beyond(lines, place, traps);
        self.beyond.clear();
        self.top = None;
        self.trap = stop.trap;
        stop.place
    }

    /// The next stop beyond a place as one trap more is planted, behind so many others, where the
    /// stop was known. All others are forgotten. Answers where it lies.
    pub(crate) fn plant(
        &mut self,
        lines: u32,
        place: u64,
        stop: u64,
        trap: Trap,
        count: usize,
    ) -> u64
        ensures stop { (traps : List Trap) → stop ≡ next_stop lines place traps
            → result ≡ next_stop lines place (traps ++ trap ∷ []) }
        ensures known { (traps : List Trap) → count ≡ length traps
            → stop ≡ next_stop lines place traps → AreKnown lines stop traps self.old
            → AreKnown lines result (traps ++ trap ∷ []) self.new }
        ensures capacity { vec_capacity self.new.beyond ≡ vec_capacity self.old.beyond }
    {
        self.beyond.clear();
        self.top = None;
        let nearer = nearer_stop(place, place_of(lines, trap.place), stop);
        if nearer < stop {
            self.trap = count;
        }
        nearer
    }

    /// Goes on from the next stop, a trap at this place, to the one beyond it. Answers where that
    /// lies.
    pub(crate) fn pass(&mut self, lines: u32, place: u64, traps: &[Trap]) -> u64
        requires known { AreKnown lines place traps.now self.old }
        requires room { length traps.now ≤ vec_capacity self.old.beyond }
        ensures stop { result ≡ next_stop lines place traps.now }
        ensures known { AreKnown lines result traps.now self.new }
        ensures same { IfSome (kept_stop self.old.trap place self.old.beyond.items)
            (λ stop. self.new ≡ record self.old { trap = stop.trap }) }
        ensures kept { self.old.trap < length traps.now
            → kept_stop self.old.trap place self.new.beyond.items
            ≡ Some (record { place = result; trap = self.new.trap }) }
        ensures capacity { vec_capacity self.old.beyond ≤ vec_capacity self.new.beyond }
    {
        if let Some(stop) = known_beyond(self.beyond.as_slice(), self.trap, place) {
            self.trap = stop.trap;
            return stop.place;
        }
        let stop = stop_beyond(lines, place, traps);
        let found = Beyond { from: place, stop };
        keep(&mut self.beyond, self.trap, found, traps.len());
        self.trap = stop.trap;
        stop.place
    }

    /// Goes to a page's beginning. Answers what it begins with.
    pub(crate) fn begin(&mut self, lines: u32, traps: &[Trap]) -> Top
        ensures top { (stop : ℕ) → AreKnown lines stop traps.now self.old
            → BeginsWith lines traps.now result }
        ensures known { (stop : ℕ) → AreKnown lines stop traps.now self.old
            → AreKnown lines result.stop.place traps.now self.new }
        ensures kept { IfSome self.old.top (λ top. result ≡ top) }
        ensures after { self.new ≡ record self.old {
          trap = result.stop.trap;
          top = Some result;
        } }
    {
        if let Some(top) = self.top {
            self.trap = top.stop.trap;
            return top;
        }
        let top = top_of(lines, traps);
        self.top = Some(top);
        self.trap = top.stop.trap;
        top
    }
}

/// What a page with these traps begins with.
fn top_of(lines: u32, traps: &[Trap]) -> Top
    ensures { BeginsWith lines traps.now result }
{
    Top {
        name: first_on_top(lines, traps),
        stop: stop_beyond(lines, 0, traps),
    }
}

/// The next stop beyond a place.
fn stop_beyond(lines: u32, place: u64, traps: &[Trap]) -> Stop
    ensures { IsNext lines place traps.now result }
{
    let stop = next_stop(lines, place, traps);
    if stop >= u64::from(lines) {
        return Stop {
            place: stop,
            trap: 0,
        };
    }
    Stop {
        place: stop,
        trap: index_of(traps, Sought::Lying(lines, stop)),
    }
}

/// The stop beyond a place, if it was looked for from this trap.
fn known_beyond(beyond: &[Beyond], trap: usize, place: u64) -> Option<Stop>
    ensures next { (lines : ℕ) (traps : List Trap) → AreNext lines traps beyond.now
        → IfSome result (IsNext lines place traps) }
    ensures kept { result ≡ kept_stop trap place beyond.now }
{
    if trap >= beyond.len() {
        return None;
    }
    let known = beyond[trap];
    if known.from == place {
        return Some(known.stop);
    }
    None
}

/// Keeps the stop beyond a trap, and no more than so many.
fn keep(beyond: &mut Vec<Beyond>, trap: usize, found: Beyond, most: usize)
    requires room { most ≤ vec_capacity beyond.old }
    requires few { length beyond.old.items ≤ most }
    ensures beyond { (lines : ℕ) (traps : List Trap) → AreNext lines traps beyond.old.items
        → IsNext lines found.from traps found.stop → AreNext lines traps beyond.new.items }
    ensures kept { trap < most
        → kept_stop trap found.from beyond.new.items ≡ Some found.stop }
    ensures few { length beyond.new.items ≤ most }
    ensures capacity { vec_capacity beyond.old ≤ vec_capacity beyond.new }
{
    let wanted = trap.saturating_add(1).min(most);
    while beyond.len() < wanted {
        beyond.push(found).unwrap();
    }
    if trap < beyond.len() {
        beyond[trap] = found;
    }
}
