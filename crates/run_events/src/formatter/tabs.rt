//! Tabs, and the ends of the fields that they open.

ghost use Rattle.std.specs.Prelude.{[], ◌∷◌, ◌++◌, ◌≡◌, None};
ghost use Rattle.run_model.specs.Reading.TextLines.{leading_glyph};
ghost use Rattle.page_model.specs.declared.event.Event.TheVariants.{FieldEnd};
ghost use Rattle.page_model.specs.declared.glyph.Glyph.TheVariants.{Blanks};
ghost use Rattle.run_events.specs.Clauses.{PerformsEvents, Print, Sunk, Tab, Text};

use super::Formatter;
use super::text_events::put_finished;
use crate::halt::Halt;
use crate::sprung::{Sprung, further};
use page_bytes::ByteSink;
use page_model::Glyph;

impl Formatter {
    /// Moves to the next tab stop behind so many leading blanks.
    #[inline(always)]
    pub(super) fn tab_behind<O: ByteSink>(
        &mut self,
        leading: u32,
        out: &mut O,
    ) -> Result<Option<Sprung>, Halt>
        ensures { PerformsEvents (leading_glyph leading ++ Text Tab ∷ []) self.old self.new
            (O.sunk out.old) (O.sunk out.new) result }
    {
        if leading > 0 {
            return self.tab_behind_blanks(leading, out);
        }
        self.tab(out)
    }

    /// Moves to the next tab stop behind leading blanks.
    #[cold]
    #[inline(never)]
    fn tab_behind_blanks<O: ByteSink>(
        &mut self,
        leading: u32,
        out: &mut O,
    ) -> Result<Option<Sprung>, Halt>
        ensures { PerformsEvents (Text (Print (Blanks leading)) ∷ Text Tab ∷ []) self.old self.new
            (O.sunk out.old) (O.sunk out.new) result }
    {
        match self.glyph(Glyph::Blanks(leading)) {
            Ok(None) => further(self.tab(out), 1),
            Ok(Some(sprung)) => Ok(Some(sprung)),
            Err(halt) => Err(halt),
        }
    }

    /// Moves to the next tab stop, and places the line that this finishes.
    #[inline(always)]
    pub(super) fn tab<O: ByteSink>(&mut self, out: &mut O) -> Result<Option<Sprung>, Halt>
        ensures { PerformsEvents (Text Tab ∷ []) self.old self.new
            (O.sunk out.old) (O.sunk out.new) result }
    {
        if self.composer.environments.in_force.lines.is_in_field() {
            return self.tab_in_field(out);
        }
        self.tab_outside()
    }

    /// Moves to the next tab stop where no field is open, which finishes no line.
    fn tab_outside(&mut self) -> Result<Option<Sprung>, Halt>
        requires { self.old.composer.environments.in_force.lines.field ≡ None }
        ensures { (told : Sunk) →
            PerformsEvents (Text Tab ∷ []) self.old self.new told told result }
    {
        match self.begin_first() {
            Some(name) => self.stopped_by(name),
            None => match self.composer.environments.in_force.lines.tab_outside() {
                Ok(()) => Ok(None),
                Err(limit) => Err(Halt::Limit(limit)),
            },
        }
    }

    /// Moves to the next tab stop behind an open field, and places the line that this finishes.
    #[cold]
    #[inline(never)]
    fn tab_in_field<O: ByteSink>(&mut self, out: &mut O) -> Result<Option<Sprung>, Halt>
        ensures { PerformsEvents (Text Tab ∷ []) self.old self.new
            (O.sunk out.old) (O.sunk out.new) result }
    {
        match self.begin_first() {
            Some(name) => self.stopped_by(name),
            None => match self.composer.environments.in_force.lines.tab() {
                Ok(line) => {
                    put_finished(&mut self.composer.pages, &mut self.composer.due, line, out)
                }
                Err(limit) => Err(Halt::Limit(limit)),
            },
        }
    }

    /// Ends the open field, if one is open.
    pub(super) fn end_field(&mut self) -> Result<Option<Sprung>, Halt>
        ensures { (told : Sunk) →
            PerformsEvents (Text FieldEnd ∷ []) self.old self.new told told result }
    {
        match self.composer.environments.in_force.lines.end_field() {
            Ok(()) => Ok(None),
            Err(limit) => Err(Halt::Limit(limit)),
        }
    }
}
