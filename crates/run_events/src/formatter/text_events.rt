//! The events of the text, and those of a text line one behind another.

ghost use Rattle.std.specs.Prelude.{[], ◌∷◌, ◌++◌, option_map};
ghost use Rattle.run_model.specs.Reading.TextLines.{blank_line, leading_glyph};
ghost use Rattle.run_events.specs.Clauses.{finished_of, Gap, Print, WordEnd, LineEnd, Break};
ghost use Rattle.page_model.specs.declared.event.Event.TheVariants.{Count};
ghost use Rattle.page_model.specs.Happenings.{Places};
ghost use Rattle.page_model.specs.declared.layout_event.LayoutEvent.TheVariants.{Space};
ghost use Rattle.run_events.specs.Clauses.{EndsOpenWord, EndsWordFirst};
ghost use Rattle.run_events.specs.Clauses.{PerformsEvents, PerformsOne, PerformsStanding};
ghost use Rattle.run_events.specs.Clauses.{PerformsUnfielded};
ghost use Rattle.run_events.specs.Clauses.{PutsFinished, PutsOnPage, line_due};
ghost use Rattle.run_events.specs.Clauses.{Page, Text, Sunk};

use super::Formatter;
use super::diverting::divert_line;
use super::paging::done_on;
use crate::halt::Halt;
use crate::sprung::{Sprung, further};
use page_bytes::ByteSink;
use page_model::{Event, Glyph, Line};
use roff_pages::Pages;
use run_state::Due;

impl Formatter {
    /// Prints a glyph behind so many leading blanks.
    #[inline(always)]
    pub(super) fn glyph_behind(
        &mut self,
        leading: u32,
        glyph: Glyph,
    ) -> Result<Option<Sprung>, Halt>
        ensures { (told : Sunk) →
            PerformsEvents (leading_glyph leading ++ Text (Print glyph) ∷ [])
            self.old self.new told told result }
    {
        if leading == 0 {
            return self.glyph(glyph);
        }
        match self.glyph(Glyph::Blanks(leading)) {
            Ok(None) => further(self.glyph(glyph), 1),
            Ok(Some(sprung)) => Ok(Some(sprung)),
            Err(halt) => Err(halt),
        }
    }

    /// Ends the open word, and breaks.
    #[inline(always)]
    pub(super) fn break_behind_word<O: ByteSink>(
        &mut self,
        out: &mut O,
    ) -> Result<Option<Sprung>, Halt>
        ensures { PerformsEvents (Text WordEnd ∷ Text Break ∷ []) self.old self.new
            (O.sunk out.old) (O.sunk out.new) result }
    {
        match self.end_word(out) {
            Ok(None) => further(self.break_behind_field(out), 1),
            Ok(Some(sprung)) => Ok(Some(sprung)),
            Err(halt) => Err(halt),
        }
    }

    /// The end of a text line that isn't blank: the open word ends, and the line counts.
    #[inline(always)]
    pub(super) fn end_text_line<O: ByteSink>(&mut self, out: &mut O) -> Result<Option<Sprung>, Halt>
        ensures { PerformsEvents (Text WordEnd ∷ Text LineEnd ∷ Text Count ∷ []) self.old self.new
            (O.sunk out.old) (O.sunk out.new) result }
    {
        match self.end_word(out) {
            Ok(None) => further(self.end_and_count(out), 1),
            Ok(Some(sprung)) => Ok(Some(sprung)),
            Err(halt) => Err(halt),
        }
    }

    /// Ends a line of the input, which counts.
    #[inline(always)]
    fn end_and_count<O: ByteSink>(&mut self, out: &mut O) -> Result<Option<Sprung>, Halt>
        ensures { PerformsStanding (Text LineEnd ∷ Text Count ∷ []) self.old self.new
            (O.sunk out.old) (O.sunk out.new) result }
    {
        match self.line_end_behind_field(out) {
            Ok(None) => further(self.count(), 1),
            Ok(Some(sprung)) => Ok(Some(sprung)),
            Err(halt) => Err(halt),
        }
    }

    /// The end of a blank line: the open word ends, and a break and a blank line come.
    pub(super) fn blank_line<O: ByteSink>(&mut self, out: &mut O) -> Result<Option<Sprung>, Halt>
        ensures { PerformsEvents blank_line self.old self.new
            (O.sunk out.old) (O.sunk out.new) result }
    {
        match self.end_word(out) {
            Ok(None) => further(self.break_and_space(out), 1),
            Ok(Some(sprung)) => Ok(Some(sprung)),
            Err(halt) => Err(halt),
        }
    }

    /// Breaks, and writes a blank line.
    #[inline(always)]
    fn break_and_space<O: ByteSink>(&mut self, out: &mut O) -> Result<Option<Sprung>, Halt>
        ensures { PerformsStanding (Text Break ∷ Page (Space 1) ∷ []) self.old self.new
            (O.sunk out.old) (O.sunk out.new) result }
    {
        match self.break_behind_field(out) {
            Ok(None) => further(self.space(1, out), 1),
            Ok(Some(sprung)) => Ok(Some(sprung)),
            Err(halt) => Err(halt),
        }
    }

    /// Prints a glyph.
    #[inline(always)]
    pub(super) fn glyph(&mut self, glyph: Glyph) -> Result<Option<Sprung>, Halt>
        ensures { (told : Sunk) →
            PerformsEvents (Text (Print glyph) ∷ []) self.old self.new told told result }
    {
        match self.begin_first() {
            Some(name) => self.stopped_by(name),
            None => match self.composer.environments.in_force.lines.glyph(glyph) {
                Ok(()) => Ok(None),
                Err(limit) => Err(Halt::Limit(limit)),
            },
        }
    }

    /// A text line counts: it may be the last that the input-line trap waits for.
    #[inline(always)]
    pub(super) fn count(&mut self) -> Result<Option<Sprung>, Halt>
        ensures { (told : Sunk) →
            PerformsEvents (Text Count ∷ []) self.old self.new told told result }
    {
        let name = self.composer.environments.count();
        Ok(Sprung::by(&mut self.composer.due, name))
    }

    /// Ends the open word, behind which a gap of one blank stands.
    #[inline(always)]
    pub(super) fn gap_behind_word<O: ByteSink>(
        &mut self,
        out: &mut O,
    ) -> Result<Option<Sprung>, Halt>
        ensures { PerformsEvents (Text WordEnd ∷ Text (Gap 1) ∷ []) self.old self.new
            (O.sunk out.old) (O.sunk out.new) result }
    {
        match self.end_word(out) {
            Ok(None) => {
                self.composer.environments.in_force.lines.gap(1);
                Ok(None)
            }
            Ok(Some(sprung)) => Ok(Some(sprung)),
            Err(halt) => Err(halt),
        }
    }

    /// Ends the word that is open, if one is: what stands behind a macro that sprang may find one.
    /// Where that springs a macro, what stands behind it is left.
    fn end_open_word<O: ByteSink>(&mut self, out: &mut O) -> Result<Option<Sprung>, Halt>
        ensures { EndsOpenWord self.old self.new (O.sunk out.old) (O.sunk out.new) result }
    {
        if !self.composer.environments.in_force.lines.has_open_word() {
            return Ok(None);
        }
        match self.end_word(out) {
            Ok(None) => Ok(None),
            Ok(Some(sprung)) => Ok(Some(sprung.before_event())),
            Err(halt) => Err(halt),
        }
    }

    /// Ends the word that is open, if one is, and then a gap stands.
    pub(super) fn gap_behind_own<O: ByteSink>(
        &mut self,
        blanks: u32,
        out: &mut O,
    ) -> Result<Option<Sprung>, Halt>
        ensures { PerformsOne (Text (Gap blanks)) self.old self.new
            (O.sunk out.old) (O.sunk out.new) result }
    {
        match self.end_open_word(out) {
            Ok(None) => {
                self.composer.environments.in_force.lines.gap(blanks);
                Ok(None)
            }
            Ok(Some(sprung)) => Ok(Some(sprung)),
            Err(halt) => Err(halt),
        }
    }

    /// Ends the open field, if one is open, the word that is open, if one is, and then a line of
    /// the input.
    pub(super) fn line_end_behind_own<O: ByteSink>(
        &mut self,
        out: &mut O,
    ) -> Result<Option<Sprung>, Halt>
        ensures { PerformsOne (Text LineEnd) self.old self.new
            (O.sunk out.old) (O.sunk out.new) result }
    {
        if let Err(limit) = self.composer.environments.in_force.lines.end_field() {
            return Err(Halt::Limit(limit));
        }
        match self.end_open_word(out) {
            Ok(None) => self.end_line(out),
            Ok(Some(sprung)) => Ok(Some(sprung)),
            Err(halt) => Err(halt),
        }
    }

    /// Ends the open field, if one is open, the word that is open, if one is, and breaks.
    pub(super) fn break_behind_own<O: ByteSink>(
        &mut self,
        out: &mut O,
    ) -> Result<Option<Sprung>, Halt>
        ensures { PerformsOne (Text Break) self.old self.new
            (O.sunk out.old) (O.sunk out.new) result }
    {
        if let Err(limit) = self.composer.environments.in_force.lines.end_field() {
            return Err(Halt::Limit(limit));
        }
        match self.end_open_word(out) {
            Ok(None) => self.brk(out),
            Ok(Some(sprung)) => Ok(Some(sprung)),
            Err(halt) => Err(halt),
        }
    }

    /// Ends a line of the input behind a word's end, and before it the open field, if one is open.
    #[inline(always)]
    fn line_end_behind_field<O: ByteSink>(&mut self, out: &mut O) -> Result<Option<Sprung>, Halt>
        ensures { PerformsStanding (Text LineEnd ∷ []) self.old self.new
            (O.sunk out.old) (O.sunk out.new) result }
    {
        if self.composer.environments.in_force.lines.is_in_field() {
            return self.line_end_in_field(out);
        }
        self.end_line(out)
    }

    /// Ends a line of the input behind a word's end, and before it the open field.
    #[cold]
    #[inline(never)]
    fn line_end_in_field<O: ByteSink>(&mut self, out: &mut O) -> Result<Option<Sprung>, Halt>
        ensures { PerformsOne (Text LineEnd) self.old self.new
            (O.sunk out.old) (O.sunk out.new) result }
    {
        self.line_end_behind_own(out)
    }

    /// Breaks behind a word's end, and before that ends the open field, if one is open.
    #[inline(always)]
    fn break_behind_field<O: ByteSink>(&mut self, out: &mut O) -> Result<Option<Sprung>, Halt>
        ensures { PerformsStanding (Text Break ∷ []) self.old self.new
            (O.sunk out.old) (O.sunk out.new) result }
    {
        if self.composer.environments.in_force.lines.is_in_field() {
            return self.break_in_field(out);
        }
        self.brk(out)
    }

    /// Breaks behind a word's end, and before that ends the open field.
    #[cold]
    #[inline(never)]
    fn break_in_field<O: ByteSink>(&mut self, out: &mut O) -> Result<Option<Sprung>, Halt>
        ensures { PerformsOne (Text Break) self.old self.new
            (O.sunk out.old) (O.sunk out.new) result }
    {
        self.break_behind_own(out)
    }

    /// Ends the open word, and places the line that it finishes. It may be the event to do, or come
    /// before that.
    pub(super) fn end_word<O: ByteSink>(&mut self, out: &mut O) -> Result<Option<Sprung>, Halt>
        ensures performs { PerformsEvents (Text WordEnd ∷ []) self.old self.new
            (O.sunk out.old) (O.sunk out.new) result }
        ensures own { EndsWordFirst self.old self.new (O.sunk out.old) (O.sunk out.new) result }
    {
        match self.begin_first_for(Event::WordEnd) {
            Some(name) => self.stopped_by(name),
            None => {
                let line = self.composer.environments.in_force.lines.end_word();
                put_finished(&mut self.composer.pages, &mut self.composer.due, line, out)
            }
        }
    }

    /// Ends a line of the input, where no field is open, and places the line that it finishes.
    pub(super) fn end_line<O: ByteSink>(&mut self, out: &mut O) -> Result<Option<Sprung>, Halt>
        ensures { PerformsUnfielded (Text LineEnd) self.old self.new
            (O.sunk out.old) (O.sunk out.new) result }
    {
        match self.begin_first_for(Event::LineEnd) {
            Some(name) => self.stopped_by(name),
            None => {
                let line = self.composer.environments.in_force.lines.end_line();
                put_finished(&mut self.composer.pages, &mut self.composer.due, line, out)
            }
        }
    }

    /// Finishes the pending line, where no field is open, and places it.
    pub(super) fn brk<O: ByteSink>(&mut self, out: &mut O) -> Result<Option<Sprung>, Halt>
        ensures { PerformsUnfielded (Text Break) self.old self.new
            (O.sunk out.old) (O.sunk out.new) result }
    {
        match self.begin_first_for(Event::Break) {
            Some(name) => self.stopped_by(name),
            None => {
                let line = self.composer.environments.in_force.lines.brk();
                put_finished(&mut self.composer.pages, &mut self.composer.due, line, out)
            }
        }
    }
}

/// Places the line that an event finished, if it finished one.
#[inline(always)]
pub(super) fn put_finished<O: ByteSink>(
    pages: &mut Pages,
    due: &mut Due,
    line: Option<Line<'_>>,
    out: &mut O,
) -> Result<Option<Sprung>, Halt>
    ensures { PutsFinished (option_map finished_of line.entry) pages.old pages.new
        due.old due.new (O.sunk out.old) (O.sunk out.new) result }
{
    match line {
        None => Ok(None),
        Some(line) => place_line(pages, due, line, out),
    }
}

/// Places a line, with which the last page may end.
#[inline(always)]
pub(super) fn place_line<O: ByteSink>(
    pages: &mut Pages,
    due: &mut Due,
    line: Line<'_>,
    out: &mut O,
) -> Result<Option<Sprung>, Halt>
    ensures { PutsOnPage (Places (finished_of line.entry)) (line_due (finished_of line.entry))
        pages.old pages.new due.old due.new (O.sunk out.old) (O.sunk out.new) result }
{
    if pages.is_diverting() {
        return divert_line(pages, due, line);
    }
    let placed = pages.place(line, out);
    done_on(pages, due, placed)
}
