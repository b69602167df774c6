//! Spacing, and ejecting pages (manual, sections 3 and 5.3).

ghost use Rattle.std.specs.Prelude.{◌≡◌, ◌<◌, ◌≤◌, ◌^◌, [], OnOk, IfErr, nat_lt, ◌&&◌, ◌==◌};
ghost use Rattle.std.specs.Prelude.{if◌then◌else◌, replicate};
ghost use Rattle.page_model.specs.Layout.{Empty, Layout};
ghost use Rattle.page_model.specs.declared.layout_event.LayoutEvent.TheVariants.{EjectLast};
ghost use Rattle.page_model.specs.declared.layout_event.LayoutEvent.TheVariants.{EjectOn, Need};
ghost use Rattle.page_model.specs.declared.layout_event.LayoutEvent.TheVariants.{Space};
ghost use Rattle.page_model.specs.Happenings.{Does, ejecting};
ghost use Rattle.roff_pages.specs.Pages.Printing.{BoxedTo, HappensWriting, IsUnprinted, Printed};
ghost use Rattle.roff_pages.specs.Pages.Printing.{if_listed};
ghost use Rattle.roff_pages.specs.Pages.Advancing.{way_on};

use super::Pages;
use page_bytes::{ByteSink, PageFault};
use roff_num::{Num, ShortName};

impl Pages {
    ghost use Rattle.roff_pages.specs.Pages.Stands.{StandsAs, SameLimits};
    ghost use Rattle.roff_pages.specs.Pages.Kept.{Kept};

    /// Spaces so many lines on the page, up to the next trap or its end, unless no-space mode is
    /// on. No diversion is open.
    ///
    /// # Errors
    ///
    /// [`PageFault`] if the limit on the output would be passed, or the sink fails.
    pub fn space<O: ByteSink>(
        &mut self,
        lines: u32,
        out: &mut O,
    ) -> Result<Option<ShortName>, PageFault>
        requires { self.old.diversions ≡ [] }
        ensures { HappensWriting (Does (Space lines)) self.old self.new
            (O.sunk out.old) (O.sunk out.new) result }
    {
        let sprung = self.space_up_to_stop(lines, out);
        self.look_ahead();
        sprung
    }

    /// Spaces so many lines up to the next stop, and leaves out of account what may be placed
    /// freely behind them.
    #[inline(always)]
    fn space_up_to_stop<O: ByteSink>(
        &mut self,
        lines: u32,
        out: &mut O,
    ) -> Result<Option<ShortName>, PageFault>
        requires { self.old.diversions ≡ [] }
        ensures { HappensWriting (Does (Space lines)) self.old self.new
            (O.sunk out.old) (O.sunk out.new) result }
    {
        if self.no_space {
            return Ok(None);
        }
        let next = self.next;
        let count = self.way().min(u64::from(lines));
        self.put_blank_lines(count, next, false, out)
    }

    /// Spaces what is left up to the next trap or the page's end, if that is less than so many
    /// lines. No diversion is open.
    ///
    /// # Errors
    ///
    /// [`PageFault`] if the limit on the output would be passed, or the sink fails.
    pub fn need<O: ByteSink>(
        &mut self,
        lines: u32,
        out: &mut O,
    ) -> Result<Option<ShortName>, PageFault>
        requires { self.old.diversions ≡ [] }
        ensures { HappensWriting (Does (Need lines)) self.old self.new
            (O.sunk out.old) (O.sunk out.new) result }
    {
        let next = self.next;
        let no_space = self.no_space;
        let count = needed(self.way(), lines);
        self.put_blank_lines(count, next, mode_behind(no_space, count), out)
    }

    /// Ejects the page that is the one of this number in turn, up to the next trap or its end,
    /// unless no-space mode is on and no number is given; the next page gets the number.
    ///
    /// # Errors
    ///
    /// [`PageFault`] if the limit on the output would be passed, or the sink fails.
    pub fn eject<O: ByteSink>(
        &mut self,
        asked: u32,
        number: Option<Num>,
        out: &mut O,
    ) -> Result<Option<ShortName>, PageFault>
        ensures { HappensWriting (Does (ejecting asked number)) self.old self.new
            (O.sunk out.old) (O.sunk out.new) result }
    {
        if self.begun != u64::from(asked) {
            return Ok(None);
        }
        let next = self.next;
        let no_space = self.no_space;
        let way = self.way();
        match number {
            Some(_) => self.put_blank_lines(way, number, no_space, out),
            None => {
                if no_space {
                    return Ok(None);
                }
                self.put_blank_lines(way, next, false, out)
            }
        }
    }

    /// Goes on ejecting that page, behind a macro that was sprung.
    ///
    /// # Errors
    ///
    /// [`PageFault`] if the limit on the output would be passed, or the sink fails.
    pub fn eject_on<O: ByteSink>(
        &mut self,
        asked: u32,
        out: &mut O,
    ) -> Result<Option<ShortName>, PageFault>
        ensures { HappensWriting (Does (EjectOn asked)) self.old self.new
            (O.sunk out.old) (O.sunk out.new) result }
    {
        if u64::from(asked) != self.begun {
            return Ok(None);
        }
        let next = self.next;
        let no_space = self.no_space;
        let way = self.way();
        self.put_blank_lines(way, next, no_space, out)
    }

    /// Ejects the page at the end of the closing phase. The layout is over if no page was begun, or
    /// nothing stands on it.
    ///
    /// # Errors
    ///
    /// [`PageFault`] if the limit on the output would be passed, or the sink fails.
    pub fn eject_last<O: ByteSink>(&mut self, out: &mut O) -> Result<Option<ShortName>, PageFault>
        ensures { HappensWriting (Does EjectLast) self.old self.new
            (O.sunk out.old) (O.sunk out.new) result }
    {
        if self.begun == 0 || self.place == 0 {
            self.is_over = true;
            return Ok(None);
        }
        let next = self.next;
        let no_space = self.no_space;
        let way = self.way();
        self.put_blank_lines(way, next, no_space, out)
    }

    /// How far the next stop is.
    #[inline(always)]
    pub(super) fn way(&self) -> u64
        ensures way { result ≡ way_on self.now }
        ensures most { result ≤ 2 ^ 32 }
        ensures short { self.now.length < 2 ^ 32 }
    {
        self.stop.saturating_sub(self.place)
    }

    /// Puts so many blank lines on the page. The next page gets this number, if it gets one, and
    /// no-space mode is so.
    fn put_blank_lines<O: ByteSink>(
        &mut self,
        count: u64,
        next: Option<Num>,
        no_space: bool,
        out: &mut O,
    ) -> Result<Option<ShortName>, PageFault>
        requires { count ≤ 2 ^ 32 }
        ensures did { (L : Layout) → StandsAs L self.old
            → BoxedTo (record L { next = next; no_space = no_space }) (replicate count Empty)
            result self.old self.new (O.sunk out.old) (O.sunk out.new) }
        ensures limits { SameLimits self.old self.new }
    {
        match self.write_blank_lines(count, out) {
            Ok(()) => {
                let way = self.way();
                Ok(self.put_lines(count, way, next, no_space))
            }
            Err(fault) => Err(fault),
        }
    }

    /// Writes so many blank lines, if the page is written.
    fn write_blank_lines<O: ByteSink>(&mut self, count: u64, out: &mut O) -> Result<(), PageFault>
        requires { count ≤ 2 ^ 32 }
        ensures ok { OnOk result (Printed self.old self.new (O.sunk out.old) (O.sunk out.new)
            (if_listed self.old.is_listed (replicate count 10))) }
        ensures err { IfErr result (λ f. IsUnprinted f self.old self.new
            (O.sunk out.old) (O.sunk out.new)
            (if_listed self.old.is_listed (replicate count 10))) }
        ensures kept { self.new ≡ record self.old { written = self.new.written } }
    {
        if !self.is_listed {
            return Ok(());
        }
        if self.written + count > u64::from(self.output) {
            return Err(PageFault::Output);
        }
        match self.block.put_newlines(count, out) {
            Ok(()) => {
                self.written += count;
                self.free = 0;
                Ok(())
            }
            Err(_) => Err(PageFault::Sink),
        }
    }
}

/// How much is spaced where so many lines are needed and the stop is so far.
pub(super) fn needed(way: u64, lines: u32) -> u64
    ensures count { result ≡ (if nat_lt way lines then way else 0) }
    ensures most { result ≤ way }
{
    if way < u64::from(lines) { way } else { 0 }
}

/// No-space mode behind so many lines.
pub(super) fn mode_behind(no_space: bool, count: u64) -> bool
    ensures { result ≡ (no_space && count == 0) }
{
    if count == 0 { no_space } else { false }
}
