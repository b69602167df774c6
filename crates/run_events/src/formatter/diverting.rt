//! What happens to diversions. What becomes of their texts is due behind each event.

ghost use Rattle.std.specs.Prelude.{◌<◌, length};
ghost use Rattle.run_events.specs.Clauses.{PutsIn, PutsOnPage, SetsOnPage, Sunk};
ghost use Rattle.run_events.specs.Clauses.{blank_due, finished_of, line_due};
ghost use Rattle.page_model.specs.Happenings.{Does, Places};
ghost use Rattle.page_model.specs.declared.layout_event.LayoutEvent.TheVariants.{Close, Divert};
ghost use Rattle.page_model.specs.declared.layout_event.LayoutEvent.TheVariants.{EndDivert};
ghost use Rattle.page_model.specs.declared.layout_event.LayoutEvent.TheVariants.{Need, Space};

use super::paging::done_on;
use crate::halt::Halt;
use crate::sprung::Sprung;
use page_model::Line;
use roff_num::ShortName;
use roff_pages::Pages;
use run_state::{Due, DueText};

/// Puts a line in the innermost open diversion.
#[cold]
#[inline(never)]
pub(super) fn divert_line(
    pages: &mut Pages,
    due: &mut Due,
    line: Line<'_>,
) -> Result<Option<Sprung>, Halt>
    requires { 0 < length pages.old.diversions }
    ensures { (told : Sunk) →
        PutsIn (Places (finished_of line.entry)) (line_due (finished_of line.entry))
        pages.old pages.new due.new told told result }
{
    let blank_lines = pages.blank_behind(line.after);
    due.text = DueText::Line {
        lead: line.lead,
        spare: line.spare,
        gaps: line.gaps,
        blank_lines,
    };
    due.sprung = pages.divert_line(line);
    Ok(Some(Sprung::diverting()))
}

/// Spaces so many lines in it.
#[cold]
#[inline(never)]
pub(super) fn divert_space(
    pages: &mut Pages,
    due: &mut Due,
    lines: u32,
) -> Result<Option<Sprung>, Halt>
    requires { 0 < length pages.old.diversions }
    ensures { (told : Sunk) → PutsOnPage (Does (Space lines)) (blank_due (Space lines))
        pages.old pages.new due.old due.new told told result }
{
    let count = pages.blank_spaced(lines);
    let name = pages.divert_space(lines);
    if count == 0 {
        return done_on(pages, due, Ok(name));
    }
    due.text = DueText::BlankLines(count);
    due.sprung = name;
    Ok(Some(Sprung::diverting()))
}

/// Spaces in it what is left of so many lines that are needed.
#[cold]
#[inline(never)]
pub(super) fn divert_need(
    pages: &mut Pages,
    due: &mut Due,
    lines: u32,
) -> Result<Option<Sprung>, Halt>
    requires { 0 < length pages.old.diversions }
    ensures { (told : Sunk) → PutsOnPage (Does (Need lines)) (blank_due (Need lines))
        pages.old pages.new due.old due.new told told result }
{
    let count = pages.blank_needed(lines);
    let name = pages.divert_need(lines);
    if count == 0 {
        return done_on(pages, due, Ok(name));
    }
    due.text = DueText::BlankLines(count);
    due.sprung = name;
    Ok(Some(Sprung::diverting()))
}

/// Opens a diversion.
pub(super) fn divert(
    pages: &mut Pages,
    due: &mut Due,
    name: ShortName,
    appends: bool,
) -> Result<Option<Sprung>, Halt>
    ensures { SetsOnPage (Divert name appends) pages.old pages.new due.new result }
{
    match pages.divert(name, appends) {
        Ok(()) => {
            due.text = DueText::Begins;
            due.sprung = None;
            Ok(Some(Sprung::diverting()))
        }
        Err(limit) => Err(Halt::Limit(limit)),
    }
}

/// Ends the innermost open diversion, if there is one.
pub(super) fn end_divert(pages: &mut Pages, due: &mut Due) -> Result<Option<Sprung>, Halt>
    ensures { SetsOnPage EndDivert pages.old pages.new due.new result }
{
    match pages.innermost() {
        None => {
            pages.end_divert();
            Ok(None)
        }
        Some((name, appends)) => {
            pages.end_divert();
            due.text = DueText::Ends {
                index: pages.diversion_count(),
                name,
                appends,
            };
            due.sprung = None;
            Ok(Some(Sprung::diverting()))
        }
    }
}

/// Begins the closing phase: open diversions are dropped.
pub(super) fn close(pages: &mut Pages, due: &mut Due) -> Result<Option<Sprung>, Halt>
    ensures { SetsOnPage Close pages.old pages.new due.new result }
{
    let diverts = pages.is_diverting();
    pages.close();
    if !diverts {
        return Ok(None);
    }
    due.text = DueText::Drops;
    due.sprung = None;
    Ok(Some(Sprung::diverting()))
}
