//! The events of pages.

ghost use Rattle.std.specs.Prelude.{◌≡◌, [], ◌∷◌, true};
ghost use Rattle.page_model.specs.Happenings.{Does, is_eject_event};
ghost use Rattle.page_model.specs.Layout.{Layout};
ghost use Rattle.roff_pages.specs.Pages.Stands.{StandsAs};
ghost use Rattle.run_events.specs.Formatter.Paging.{ejects_still};
ghost use Rattle.run_events.specs.Formatter.Setting.{halted_within, may_put};
ghost use Rattle.page_model.specs.Springs.{is_on_top};
ghost use Rattle.run_events.specs.Clauses.{DoesOnPage, IsOfTraps, PutsBy, PutsByEvent};
ghost use Rattle.run_events.specs.Clauses.{PutsNothing, PutsOnPage, StopsSprung, blank_due};
ghost use Rattle.run_events.specs.Clauses.{Page, PerformsEvents, SetsOnPage, halted_by};
ghost use Rattle.run_events.specs.Clauses.{noted_by};
ghost use Rattle.page_model.specs.declared.layout_event.LayoutEvent.TheVariants.{Need, Space};

use super::Formatter;
use super::diverting::{close, divert, divert_need, divert_space, end_divert};
use crate::halt::Halt;
use crate::sprung::{Sprung, left_going_on};
use page_bytes::ByteSink;
use page_model::LayoutEvent;
use roff_num::{Limit, ShortName};
use roff_pages::{PageFault, Pages};
use run_state::Due;

impl Formatter {
    /// Spaces so many lines.
    pub(super) fn space<O: ByteSink>(
        &mut self,
        lines: u32,
        out: &mut O,
    ) -> Result<Option<Sprung>, Halt>
        ensures { PerformsEvents (Page (Space lines) ∷ []) self.old self.new
            (O.sunk out.old) (O.sunk out.new) result }
    {
        match self.begin_first() {
            Some(name) => self.stopped_by(name),
            None => space_on(&mut self.composer.pages, &mut self.composer.due, lines, out),
        }
    }

    /// Performs an event of the pages.
    ///
    /// # Errors
    ///
    /// [`Halt`] if a limit refuses it, the output failed, or the last page ended.
    pub fn perform_on_page<O: ByteSink>(
        &mut self,
        event: LayoutEvent,
        out: &mut O,
    ) -> Result<Option<Sprung>, Halt>
        ensures { PerformsEvents (Page event ∷ []) self.old self.new
            (O.sunk out.old) (O.sunk out.new) result }
    {
        match self.begin_first_on(event) {
            Some(name) => self.stopped_by(name),
            None => do_on_page(&mut self.composer.pages, &mut self.composer.due, event, out),
        }
    }
}

/// Does an event to pages of which one was begun, where it needs one.
fn do_on_page<O: ByteSink>(
    pages: &mut Pages,
    due: &mut Due,
    event: LayoutEvent,
    out: &mut O,
) -> Result<Option<Sprung>, Halt>
    ensures { DoesOnPage event pages.old pages.new due.old due.new
        (O.sunk out.old) (O.sunk out.new) result }
{
    if !may_put(event) {
        return set_on_page(pages, due, event);
    }
    put_on_page(pages, due, event, out)
}

/// Does an event that may put something.
fn put_on_page<O: ByteSink>(
    pages: &mut Pages,
    due: &mut Due,
    event: LayoutEvent,
    out: &mut O,
) -> Result<Option<Sprung>, Halt>
    requires { may_put event ≡ true }
    ensures { PutsByEvent event pages.old pages.new due.old due.new
        (O.sunk out.old) (O.sunk out.new) result }
{
    match event {
        LayoutEvent::Space(lines) => space_on(pages, due, lines, out),
        LayoutEvent::Need(lines) => need_on(pages, due, lines, out),
        _ => eject_on_page(pages, due, event, out),
    }
}

/// Ejects a page, and goes on behind what that sprang where the page hasn't ended.
fn eject_on_page<O: ByteSink>(
    pages: &mut Pages,
    due: &mut Due,
    event: LayoutEvent,
    out: &mut O,
) -> Result<Option<Sprung>, Halt>
    requires { is_eject_event event ≡ true }
    ensures { PutsByEvent event pages.old pages.new due.old due.new
        (O.sunk out.old) (O.sunk out.new) result }
{
    let put = eject(pages, event, out);
    let done = done_on(pages, due, put);
    left_going_on(done, ejects_still(pages, event))
}

/// Whether an event is an eject, and the page that it ejects hasn't ended: where that ended, the
/// next one begins at its top.
fn ejects_still(pages: &Pages, event: LayoutEvent) -> bool
    ensures { (L : Layout) → StandsAs L pages.now → result ≡ ejects_still event L }
{
    match event {
        LayoutEvent::Eject(_) => !is_on_top(pages.nl()),
        LayoutEvent::EjectTo(..) => !is_on_top(pages.nl()),
        LayoutEvent::EjectOn(_) => !is_on_top(pages.nl()),
        LayoutEvent::EjectLast => !is_on_top(pages.nl()),
        _ => false,
    }
}

/// Whether a place is at the top of a page.
fn is_on_top(place: Option<u64>) -> bool
    ensures { result ≡ is_on_top place }
{
    match place {
        Some(place) => place == 0,
        None => false,
    }
}

/// Whether an event may put something.
fn may_put(event: LayoutEvent) -> bool
    ensures { result ≡ may_put event }
{
    matches!(
        event,
        LayoutEvent::Space(_)
            | LayoutEvent::Need(_)
            | LayoutEvent::Eject(_)
            | LayoutEvent::EjectTo(..)
            | LayoutEvent::EjectOn(_)
            | LayoutEvent::EjectLast
    )
}

/// Ejects a page.
fn eject<O: ByteSink>(
    pages: &mut Pages,
    event: LayoutEvent,
    out: &mut O,
) -> Result<Option<ShortName>, PageFault>
    requires { is_eject_event event ≡ true }
    ensures { PutsBy (Does event) pages.old pages.new (O.sunk out.old) (O.sunk out.new) result }
{
    match event {
        LayoutEvent::Eject(asked) => pages.eject(asked, None, out),
        LayoutEvent::EjectTo(asked, number) => pages.eject(asked, Some(number), out),
        LayoutEvent::EjectOn(asked) => pages.eject_on(asked, out),
        LayoutEvent::EjectLast => pages.eject_last(out),
        _ => Ok(None),
    }
}

/// Spaces so many lines, in the innermost open diversion or on the page.
fn space_on<O: ByteSink>(
    pages: &mut Pages,
    due: &mut Due,
    lines: u32,
    out: &mut O,
) -> Result<Option<Sprung>, Halt>
    ensures { PutsOnPage (Does (Space lines)) (blank_due (Space lines)) pages.old pages.new
        due.old due.new (O.sunk out.old) (O.sunk out.new) result }
{
    if pages.is_diverting() {
        return divert_space(pages, due, lines);
    }
    let spaced = pages.space(lines, out);
    done_on(pages, due, spaced)
}

/// Spaces what is left of so many lines that are needed, there or here.
fn need_on<O: ByteSink>(
    pages: &mut Pages,
    due: &mut Due,
    lines: u32,
    out: &mut O,
) -> Result<Option<Sprung>, Halt>
    ensures { PutsOnPage (Does (Need lines)) (blank_due (Need lines)) pages.old pages.new
        due.old due.new (O.sunk out.old) (O.sunk out.new) result }
{
    if pages.is_diverting() {
        return divert_need(pages, due, lines);
    }
    let spaced = pages.need(lines, out);
    done_on(pages, due, spaced)
}

/// Sets something of the pages: an event that puts nothing. A page may begin with it.
fn set_on_page(pages: &mut Pages, due: &mut Due, event: LayoutEvent) -> Result<Option<Sprung>, Halt>
    requires { PutsNothing event }
    ensures { SetsOnPage event pages.old pages.new due.new result }
{
    match event {
        LayoutEvent::ListPages(first, last) => pages.list_pages(first, last),
        LayoutEvent::Begin => return Ok(Sprung::by(due, pages.begin())),
        LayoutEvent::Close => return close(pages, due),
        LayoutEvent::Length(lines) => pages.set_length(lines),
        LayoutEvent::Offset(columns) => pages.set_offset(columns),
        LayoutEvent::Next(number) => pages.set_next(number),
        LayoutEvent::Number(number) => pages.set_number(number),
        LayoutEvent::NoSpace(on) => pages.set_no_space(on),
        _ => return set_trap(pages, due, event),
    }
    Ok(None)
}

/// Plants, moves or removes a trap, or opens or ends a diversion: an event that puts nothing.
fn set_trap(pages: &mut Pages, due: &mut Due, event: LayoutEvent) -> Result<Option<Sprung>, Halt>
    requires { IsOfTraps event }
    ensures { SetsOnPage event pages.old pages.new due.new result }
{
    match event {
        LayoutEvent::Plant(trap) => within_limit(pages.plant(trap)),
        LayoutEvent::Divert(name, appends) => divert(pages, due, name, appends),
        LayoutEvent::Uproot(place) => {
            pages.uproot(place);
            Ok(None)
        }
        LayoutEvent::MoveTrap(name, place) => {
            pages.move_trap(name, place);
            Ok(None)
        }
        LayoutEvent::RemoveTrap(name) => {
            pages.remove_trap(name);
            Ok(None)
        }
        LayoutEvent::DiversionTrap(trap) => {
            pages.diversion_trap(Some(trap));
            Ok(None)
        }
        LayoutEvent::NoDiversionTrap => {
            pages.diversion_trap(None);
            Ok(None)
        }
        LayoutEvent::EndDivert => end_divert(pages, due),
        _ => Ok(None),
    }
}

/// What was set, or the limit that refused it.
fn within_limit(done: Result<(), Limit>) -> Result<Option<Sprung>, Halt>
    ensures { result ≡ halted_within done }
{
    match done {
        Ok(()) => Ok(None),
        Err(limit) => Err(Halt::Limit(limit)),
    }
}

/// What was put on pages was done, and sprang this, if anything: with the last page the run ends.
#[inline(always)]
pub(super) fn done_on(
    pages: &Pages,
    due: &mut Due,
    done: Result<Option<ShortName>, PageFault>,
) -> Result<Option<Sprung>, Halt>
    ensures halts { (L : Layout) → StandsAs L pages.now → result ≡ halted_by done L.is_over }
    ensures noted { due.new ≡ noted_by done due.old }
    ensures stops { StopsSprung result due.new }
{
    match done {
        Ok(name) => {
            let sprung = Sprung::by(due, name);
            if pages.is_over() {
                return Err(Halt::Over);
            }
            Ok(sprung)
        }
        Err(PageFault::Output) => Err(Halt::Limit(Limit::Output)),
        Err(PageFault::Sink) => Err(Halt::Output),
    }
}
