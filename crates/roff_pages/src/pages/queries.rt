//! What may be asked of pages (manual, section 8). Lengths are in lines, widths in columns.

ghost use Rattle.std.specs.Prelude.{◌≡◌, ◌<◌, ◌^◌, [], true, false, length, min, option_map};
ghost use Rattle.page_model.specs.Layout.{Layout};
ghost use Rattle.page_model.specs.Queries.{nl, place_now, way_to_trap, diversion_name};
ghost use Rattle.page_model.specs.Queries.{is_diverting, takes_text};
ghost use Rattle.roff_pages.specs.Pages.Innermost.{name_and_way};

use super::Pages;
use crate::traps::way_in_diversion;
use roff_num::{Num, ShortName};

impl Pages {
    ghost use Rattle.roff_pages.specs.Pages.Counted.{counted};
    ghost use Rattle.roff_pages.specs.Pages.Stands.{StandsAs};

    /// The place on the page; none before the first page begins. No more than 2^33 lines are
    /// counted.
    pub fn nl(&self) -> Option<u64>
        ensures { (L : Layout) → StandsAs L self.now → result ≡ option_map counted (nl L) }
    {
        if self.begun == 0 {
            return None;
        }
        Some(self.place)
    }

    /// How many pages were begun. No more than 2^32 are counted.
    pub fn begun(&self) -> u64
        ensures { (L : Layout) → StandsAs L self.now → result ≡ min L.begun (2 ^ 32) }
    {
        self.begun
    }

    /// The place where text goes: in the innermost open diversion, or on the page. No more than
    /// 2^33 lines are counted.
    pub fn place_now(&self) -> u64
        ensures { (L : Layout) → StandsAs L self.now → result ≡ counted (place_now L) }
    {
        match self.innermost {
            Some(diversion) => diversion.height,
            None => self.place,
        }
    }

    /// The page's number.
    pub fn number(&self) -> Num
        ensures { (L : Layout) → StandsAs L self.now → result ≡ L.number }
    {
        self.number
    }

    /// The page length.
    pub fn length(&self) -> u32
        ensures { (L : Layout) → StandsAs L self.now → result ≡ L.length }
    {
        self.length
    }

    /// The page offset.
    pub fn offset(&self) -> u32
        ensures { (L : Layout) → StandsAs L self.now → result ≡ L.offset }
    {
        self.offset
    }

    /// The page offset before the last one that was set.
    pub fn previous_offset(&self) -> u32
        ensures { (L : Layout) → StandsAs L self.now → result ≡ L.previous_offset }
    {
        self.previous_offset
    }

    /// The height of the diversion that ended last. No more than 2^33 lines are counted.
    pub fn height(&self) -> u64
        ensures { (L : Layout) → StandsAs L self.now → result ≡ counted L.height }
    {
        self.height
    }

    /// The width of the diversion that ended last: that of its widest line. No more than 2^33
    /// columns are counted.
    pub fn width(&self) -> u64
        ensures { (L : Layout) → StandsAs L self.now → result ≡ counted L.width }
    {
        self.width
    }

    /// How far the next trap is where text goes, or the page's end; none in a diversion whose trap
    /// doesn't lie ahead.
    pub fn way_to_trap(&self) -> Option<u64>
        ensures { (L : Layout) → StandsAs L self.now → result ≡ way_to_trap L }
    {
        match self.innermost {
            Some(diversion) => way_in_diversion(diversion.height, diversion.trap),
            None => Some(self.way()),
        }
    }

    /// The name of the innermost open diversion.
    pub fn diversion_name(&self) -> Option<ShortName>
        ensures { (L : Layout) → StandsAs L self.now → result ≡ diversion_name L }
    {
        match self.innermost {
            Some(diversion) => Some(diversion.name),
            None => None,
        }
    }

    /// How many diversions are open.
    pub fn diversion_count(&self) -> usize
        ensures layout { (L : Layout) → StandsAs L self.now → result ≡ length L.diversions }
        ensures count { result ≡ length self.now.diversions }
    {
        match self.innermost {
            Some(_) => self.outer.len() + 1,
            None => 0,
        }
    }

    /// The name of the innermost open diversion, and whether its text is to be appended to what the
    /// name has.
    pub fn innermost(&self) -> Option<(ShortName, bool)>
        ensures { (L : Layout) → StandsAs L self.now → result ≡ name_and_way L.diversions }
    {
        match self.innermost {
            Some(diversion) => Some((diversion.name, diversion.appends)),
            None => None,
        }
    }

    /// Whether a diversion is open.
    pub fn is_diverting(&self) -> bool
        ensures layout { (L : Layout) → StandsAs L self.now → result ≡ is_diverting L }
        ensures open { result ≡ true → 0 < length self.now.diversions }
        ensures closed { result ≡ false → self.now.diversions ≡ [] }
    {
        self.innermost.is_some()
    }

    /// Whether text may be taken without a page beginning.
    pub fn takes_text(&self) -> bool
        ensures { (L : Layout) → StandsAs L self.now → result ≡ takes_text L }
    {
        if self.begun != 0 {
            return true;
        }
        self.innermost.is_some()
    }

    /// Whether the closing phase has begun.
    pub fn is_closing(&self) -> bool
        ensures { (L : Layout) → StandsAs L self.now → result ≡ L.is_closing }
    {
        self.is_closing
    }

    /// Whether the last page has ended in the closing phase.
    pub fn is_over(&self) -> bool
        ensures { (L : Layout) → StandsAs L self.now → result ≡ L.is_over }
    {
        self.is_over
    }
}
