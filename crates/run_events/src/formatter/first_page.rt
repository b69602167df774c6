//! The first page: which events begin it.

ghost use Rattle.std.specs.Prelude.{◌≡◌, true, Ok, Some};
ghost use Rattle.roff_num.specs.declared.limits.Limits.{Limits as LimitsOf};
ghost use Rattle.run_events.specs.Clauses.{BeginsFor, BeginsPage, Page, ReadyFor};
ghost use Rattle.run_events.specs.Clauses.{StandFor, Text, sprung_before, with_sprung};
ghost use Rattle.run_model.specs.Environments.{PageHistory};
ghost use Rattle.run_model.specs.Springs.{is_paged, needs_page};
ghost use Rattle.run_model.specs.PageEvents.{PageEvent};

use super::Formatter;
use crate::halt::Halt;
use crate::sprung::Sprung;
use page_model::{Event, LayoutEvent};
use roff_num::ShortName;

impl Formatter {
    /// A macro was sprung in front of an event, which waits behind it.
    #[cold]
    #[inline(never)]
    pub(super) fn stopped_by(&mut self, name: ShortName) -> Result<Option<Sprung>, Halt>
        ensures due { self.new ≡ with_sprung name self.old }
        ensures is { result ≡ Ok (Some sprung_before) }
    {
        self.composer.due.sprung = Some(name);
        Ok(Some(Sprung::in_front()))
    }

    /// Begins the first page in front of an event that needs one, unless text may be taken. Returns
    /// the macro that it springs, if it springs one: the event waits behind it.
    #[inline(always)]
    pub(super) fn begin_first(&mut self) -> Option<ShortName>
        ensures { (e : PageEvent) → ((h : PageHistory) → needs_page h e ≡ true)
            → ReadyFor e self.old self.new result }
    {
        if self.composer.pages.takes_text() {
            return None;
        }
        self.begin_page()
    }

    /// Begins the first page in front of an event of the text, if it needs one, unless text may be
    /// taken. Returns the macro that it springs, if it springs one: the event waits behind it.
    #[inline(always)]
    pub(super) fn begin_first_for(&mut self, event: Event) -> Option<ShortName>
        ensures { ReadyFor (Text event) self.old self.new result }
    {
        if self.composer.pages.takes_text() {
            return None;
        }
        self.begin_page_for(event)
    }

    /// Begins the first page in front of an event of pages, if it needs one, unless text may be
    /// taken. Returns the macro that it springs, if it springs one: the event waits behind it.
    pub(super) fn begin_first_on(&mut self, event: LayoutEvent) -> Option<ShortName>
        ensures { ReadyFor (Page event) self.old self.new result }
    {
        if self.composer.pages.takes_text() {
            return None;
        }
        if needs_page(event) {
            return self.begin_page();
        }
        None
    }

    /// Begins the first page. Returns the macro that springs at its beginning, if one does.
    #[cold]
    #[inline(never)]
    fn begin_page(&mut self) -> Option<ShortName>
        ensures { BeginsPage self.old self.new result }
    {
        self.composer.pages.begin()
    }

    /// Begins it if this event of the text needs a page.
    #[cold]
    #[inline(never)]
    fn begin_page_for(&mut self, event: Event) -> Option<ShortName>
        ensures { BeginsFor (Text event) self.old self.new result }
    {
        if self.needs_page_for(event) {
            return self.begin_page();
        }
        None
    }

    /// Whether an event of the text needs a page: a glyph or tab; a break, before the closing
    /// phase; and what finishes a line.
    fn needs_page_for(&self, event: Event) -> bool
        ensures { (l : LimitsOf) (h : PageHistory) → StandFor l h self.now.composer
            → result ≡ needs_page h (Text event) }
    {
        let finishes = self.composer.environments.in_force.lines.finishes(event);
        match event {
            Event::Print(_) => true,
            Event::Tab => true,
            Event::Break => !self.composer.pages.is_closing() || finishes,
            _ => finishes,
        }
    }
}

/// Whether an event of the pages needs one.
fn needs_page(event: LayoutEvent) -> bool
    ensures { result ≡ is_paged event }
{
    matches!(
        event,
        LayoutEvent::Space(_)
            | LayoutEvent::Need(_)
            | LayoutEvent::Eject(_)
            | LayoutEvent::EjectTo(..)
    )
}
