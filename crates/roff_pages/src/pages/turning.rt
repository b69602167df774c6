//! Where a page ends, and the next one begins (manual, section 3).

ghost use Rattle.std.specs.Prelude.{◌≡◌, ◌+◌, ◌^◌, List, length, None, min, false};
ghost use Rattle.std.specs.Prelude.{if◌then◌else◌};
ghost use Rattle.page_model.specs.Layout.{Box, Layout};
ghost use Rattle.page_model.specs.declared.layout_event.LayoutEvent.TheVariants.{Begin};
ghost use Rattle.page_model.specs.Happenings.{Does};
ghost use Rattle.page_model.specs.Turning.{is_in_ranges, number_behind, one_more};
ghost use Rattle.page_model.specs.Turning.{page_begun, turned, turned_if_full};
ghost use Rattle.page_model.specs.Springs.{first_met, is_on_top, is_passed, springs_on_page};
ghost use Rattle.roff_pages.specs.Pages.Advancing.{sprung_by, way_on, with_lines};
ghost use Rattle.roff_pages.specs.Pages.KnownStops.{name_at};

use super::{MOST_BEGUN, MOST_COUNTED, Pages};
use crate::traps::{first_passed, name_at};
use roff_num::{Num, ShortName};

impl Pages {
    ghost use Rattle.roff_pages.specs.Pages.Stands.{StandsAs, Happens, SameLimits};

    /// Begins the first page. The macro is sprung that is planted at a page's beginning.
    pub fn begin(&mut self) -> Option<ShortName>
        ensures happens { Happens (Does Begin) self.old self.new }
        ensures springs { (L : Layout) → StandsAs L self.old
            → result ≡ springs_on_page (Does Begin) L }
    {
        let sprung = self.begin_page();
        if self.is_over { None } else { sprung }
    }

    /// Behind so many lines that were written, told how far the next stop is: the page has them,
    /// the next one gets this number, if it gets one, and no-space mode is so. Answers what
    /// springs.
    #[inline(always)]
    pub(super) fn put_lines(
        &mut self,
        lines: u64,
        way: u64,
        next: Option<Num>,
        no_space: bool,
    ) -> Option<ShortName>
        requires { way ≡ way_on self.old }
        ensures stands { (L : Layout) (boxes : List Box) → StandsAs L self.old
            → length boxes ≡ lines → StandsAs (turned_if_full
            (with_lines boxes (record L { next = next; no_space = no_space }))) self.new }
        ensures springs { (L : Layout) (boxes : List Box) → StandsAs L self.old
            → length boxes ≡ lines
            → result ≡ sprung_by boxes (record L { next = next; no_space = no_space }) }
        ensures limits { SameLimits self.old self.new }
        ensures written { self.new.written ≡ self.old.written }
        ensures diverted { self.new.diversions ≡ self.old.diversions }
    {
        self.next = next;
        self.no_space = no_space;
        self.free = 0;
        self.advance(lines, way)
    }

    /// The page with so many lines more, told how far the next stop is: it ends where it is full.
    /// Answers what springs.
    #[inline(always)]
    fn advance(&mut self, lines: u64, way: u64) -> Option<ShortName>
        requires { way ≡ way_on self.old }
        ensures stands { (L : Layout) (boxes : List Box) → StandsAs L self.old
            → length boxes ≡ lines → StandsAs (turned_if_full (with_lines boxes L)) self.new }
        ensures springs { (L : Layout) (boxes : List Box) → StandsAs L self.old
            → length boxes ≡ lines → result ≡ sprung_by boxes L }
        ensures limits { SameLimits self.old self.new }
        ensures written { self.new.written ≡ self.old.written }
        ensures diverted { self.new.diversions ≡ self.old.diversions }
    {
        if lines < way {
            self.place += lines;
            self.free = 0;
            return None;
        }
        self.advance_past_stop(lines)
    }

    /// The page with so many lines more, which may come to its next stop: it ends where it is full.
    /// Answers what springs.
    #[inline(never)]
    fn advance_past_stop(&mut self, lines: u64) -> Option<ShortName>
        ensures stands { (L : Layout) (boxes : List Box) → StandsAs L self.old
            → length boxes ≡ lines → StandsAs (turned_if_full (with_lines boxes L)) self.new }
        ensures springs { (L : Layout) (boxes : List Box) → StandsAs L self.old
            → length boxes ≡ lines → result ≡ sprung_by boxes L }
        ensures limits { SameLimits self.old self.new }
        ensures written { self.new.written ≡ self.old.written }
        ensures diverted { self.new.diversions ≡ self.old.diversions }
    {
        let from = self.place;
        self.place = self.place_behind(lines);
        self.free = 0;
        if self.place >= u64::from(self.length) {
            self.stop = u64::from(self.length);
            return self.turn();
        }
        if self.place == self.stop {
            let trap = self.stops.trap;
            self.stop = self
                .stops
                .pass(self.length, self.place, self.traps.as_slice());
            return self.sprung_at(trap);
        }
        self.stop = self
            .stops
            .look(self.length, self.place, self.traps.as_slice());
        self.passed_since(from)
    }

    /// The place behind so many lines more, in lines, up to the greatest that is counted.
    #[inline(always)]
    fn place_behind(&self, lines: u64) -> u64
        ensures { result ≡ min (self.now.place + lines) (2 ^ 33) }
    {
        self.place.saturating_add(lines).min(MOST_COUNTED)
    }

    /// What was passed since the page had come to a place, if it isn't over.
    fn passed_since(&self, from: u64) -> Option<ShortName>
        ensures { result ≡ (if self.now.is_over then None
            else first_met (is_passed from self.now.place) self.now.length self.now.traps) }
    {
        if self.is_over {
            return None;
        }
        first_passed(self.length, from, self.place, self.traps.as_slice())
    }

    /// The name of the trap of this place in turn, if the page isn't over.
    fn sprung_at(&self, trap: usize) -> Option<ShortName>
        ensures { result ≡ (if self.now.is_over then None else name_at trap self.now.traps) }
    {
        if self.is_over {
            return None;
        }
        name_at(self.traps.as_slice(), trap)
    }

    /// Ends the page: the next one begins, but in the closing phase. Answers what springs.
    pub(super) fn turn(&mut self) -> Option<ShortName>
        ensures stands { (L : Layout) → StandsAs L self.old → StandsAs (turned L) self.new }
        ensures springs { (L : Layout) → StandsAs L self.old
            → result ≡ (if (turned L).is_over then None else first_met is_on_top L.length L.traps) }
        ensures limits { SameLimits self.old self.new }
        ensures written { self.new.written ≡ self.old.written }
        ensures diverted { self.new.diversions ≡ self.old.diversions }
    {
        if self.is_closing {
            self.is_over = true;
            return None;
        }
        let sprung = self.begin_page();
        if self.is_over { None } else { sprung }
    }

    /// Begins a page. Answers what is met at its beginning.
    fn begin_page(&mut self) -> Option<ShortName>
        ensures stands { (L : Layout) → StandsAs L self.old → StandsAs (page_begun L) self.new }
        ensures met { (L : Layout) → StandsAs L self.old
            → result ≡ first_met is_on_top L.length L.traps }
        ensures over { self.new.is_over ≡ self.old.is_over }
        ensures limits { SameLimits self.old self.new }
        ensures written { self.new.written ≡ self.old.written }
        ensures diverted { self.new.diversions ≡ self.old.diversions }
    {
        let number = number_behind(self.next, self.number);
        self.begun = (self.begun + 1).min(MOST_BEGUN);
        self.number = number;
        self.next = None;
        self.place = 0;
        self.is_listed = is_in_ranges(self.ranges.as_slice(), number);
        let top = self.stops.begin(self.length, self.traps.as_slice());
        self.stop = top.stop.place;
        self.free = 0;
        top.name
    }
}

/// The number of the next page: the one that was set, or one more.
fn number_behind(next: Option<Num>, number: Num) -> Num
    ensures { result ≡ number_behind next number }
{
    match next {
        Some(next) => next,
        None => one_more(number),
    }
}

/// A number and one more, up to the greatest one.
fn one_more(number: Num) -> Num
    ensures { result ≡ one_more number }
{
    if number.0 < i32::MAX {
        Num(number.0 + 1)
    } else {
        number
    }
}

/// Whether a page of this number is written: it lies in a range, or there is none.
fn is_in_ranges(ranges: &[(Num, Num)], number: Num) -> bool
    ensures { result ≡ is_in_ranges ranges.now number }
{
    if ranges.is_empty() {
        return true;
    }
    let mut rest = ranges;
    while let Some((range, others)) = rest.split_first() {
        if range.0.0 <= number.0 && number.0 <= range.1.0 {
            return true;
        }
        rest = others;
    }
    false
}
