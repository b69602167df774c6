//! Events by their kinds.

ghost use Rattle.std.specs.Prelude.{[], ◌∷◌, Ok, None};
ghost use Rattle.page_model.specs.declared.event.Event.TheVariants.{Resume, Set};
ghost use Rattle.run_model.specs.Events.Steps.{events_of};
ghost use Rattle.run_events.specs.Clauses.{PerformsEvents, PerformsOne};
ghost use Rattle.run_events.specs.Clauses.{Back, Environment, Interrupt, SetsTrap, Sunk, Text};

use super::Formatter;
use crate::halt::Halt;
use crate::sprung::Sprung;
use page_bytes::ByteSink;
use page_model::{Event, Glyph, Param};
use run_model::{EnvironmentNumber, InputTrap, Step, TextLine};

impl Formatter {
    /// Performs the events of a step that has a name of its own, up to one that springs a macro.
    ///
    /// # Errors
    ///
    /// [`Halt`] if a limit refuses one of them, the output failed, or the last page ended.
    #[inline(always)]
    pub fn perform_step<O: ByteSink>(
        &mut self,
        step: Step,
        out: &mut O,
    ) -> Result<Option<Sprung>, Halt>
        ensures { PerformsEvents (events_of [] step) self.old self.new
            (O.sunk out.old) (O.sunk out.new) result }
    {
        match step {
            Step::Nothing => Ok(None),
            Step::Glyph(byte, leading) => self.glyph_behind(leading, Glyph::Printed(byte)),
            Step::Tab(leading) => self.tab_behind(leading, out),
            Step::Gap => self.gap_behind_word(out),
            Step::Break => self.break_behind_word(out),
            Step::LineEnd => self.end_text_line(out),
            Step::BlankLine => self.blank_line(out),
            Step::Meaning => Ok(None),
        }
    }

    /// Performs an event of the text, and before it the ends of an open field and an open word,
    /// where these come before it.
    ///
    /// # Errors
    ///
    /// [`Halt`] if a limit refuses it, the output failed, or the last page ended.
    pub fn perform_text<O: ByteSink>(
        &mut self,
        event: Event,
        out: &mut O,
    ) -> Result<Option<Sprung>, Halt>
        ensures { PerformsOne (Text event) self.old self.new
            (O.sunk out.old) (O.sunk out.new) result }
    {
        match event {
            Event::Print(glyph) => self.glyph(glyph),
            Event::Tab => self.tab(out),
            Event::FieldEnd => self.end_field(),
            Event::WordEnd => self.end_word(out),
            Event::Gap(blanks) => self.gap_behind_own(blanks, out),
            Event::LineEnd => self.line_end_behind_own(out),
            Event::Count => self.count(),
            Event::Break => self.break_behind_own(out),
            Event::Interrupt => {
                self.composer.environments.in_force.lines.interrupt();
                Ok(None)
            }
            Event::Resume => {
                self.composer.environments.in_force.lines.resume();
                Ok(None)
            }
            Event::Set(param) => {
                self.composer.environments.in_force.lines.set(param);
                Ok(None)
            }
        }
    }

    /// Sets a parameter of the environment in force.
    #[inline(always)]
    pub fn set(&mut self, param: Param)
        ensures { (told : Sunk) →
            PerformsEvents (Text (Set param) ∷ []) self.old self.new told told (Ok None) }
    {
        self.composer.environments.in_force.lines.set(param);
    }

    /// Leaves the environment in force for another.
    ///
    /// # Errors
    ///
    /// [`Halt::Limit`] if more would be left than may.
    pub fn switch_to(&mut self, number: EnvironmentNumber) -> Result<Option<Sprung>, Halt>
        ensures { (told : Sunk) →
            PerformsEvents (Environment number ∷ []) self.old self.new told told result }
    {
        match self.composer.environments.switch_to(number) {
            Ok(()) => Ok(None),
            Err(limit) => Err(Halt::Limit(limit)),
        }
    }

    /// Goes back to the environment that was left last, if one was.
    pub fn switch_back(&mut self)
        ensures { (told : Sunk) → PerformsEvents (Back ∷ []) self.old self.new told told (Ok None) }
    {
        self.composer.environments.switch_back();
    }

    /// The line of the environment in force is interrupted, on which this stands.
    pub fn interrupt(&mut self, line: TextLine)
        ensures { (told : Sunk) →
            PerformsEvents (Interrupt line ∷ []) self.old self.new told told (Ok None) }
    {
        self.composer.environments.interrupt(line);
    }

    /// A text line goes on in the environment in force, whichever was interrupted there.
    pub fn resume(&mut self)
        ensures { (told : Sunk) →
            PerformsEvents (Text Resume ∷ []) self.old self.new told told (Ok None) }
    {
        self.composer.environments.in_force.lines.resume();
    }

    /// The environment in force has this input-line trap from now on, or none.
    pub fn set_input_trap(&mut self, trap: Option<InputTrap>)
        ensures { (told : Sunk) →
            PerformsEvents (SetsTrap trap ∷ []) self.old self.new told told (Ok None) }
    {
        self.composer.environments.set_input_trap(trap);
    }
}
