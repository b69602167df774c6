//! The names of strings that are defined.

ghost use Rattle.std.specs.Prelude.{◌≢◌, Some};
ghost use Rattle.input_model.specs.declared.place.Place.TheVariants.{BehindQuote};
ghost use Rattle.input_escapes.specs.declared.open_escape.CopyUnit.TheVariants.{Byte};
ghost use Rattle.read_lines.specs.Clauses.{ComposerOf, TakesAs, arguments_given};
ghost use Rattle.read_lines.specs.Clauses.{name_read};
ghost use Rattle.read_lines.specs.Clauses.{string_line_ended, string_name_behind};
ghost use Rattle.read_lines.specs.Clauses.{string_name_or_text, string_name_unit};
ghost use Rattle.read_lines.specs.Clauses.{name_at as name_given_at};

use super::Reader;
use read_names::{begin_string, empty_string, first_bytes, first_name};
use roff_num::Limit;
use roff_scan::{CopyUnit, Unread};
use run_model::{LineState, PageEvent, Purpose, Step};

impl Reader {
    /// A unit of a string's name; one in quotes ends before all but a quote.
    ///
    /// # Errors
    ///
    /// A limit that it would pass; what was changed then is of no more use.
    pub fn read_unit_of_string_name(
        &mut self,
        appends: bool,
        unit: CopyUnit,
        unread: &mut Unread<PageEvent>,
    ) -> Result<Step, Limit>
        ensures { (es : ComposerOf)
            → TakesAs (λ k. string_name_unit unread.old.input appends unit)
            es self.old self.new unread.old unread.new result }
    {
        match unit {
            CopyUnit::Byte(b'\n') => self.end_string_line(appends, unread),
            CopyUnit::Byte(b'"') => self.read_name_or_string(appends, unit, unread),
            _ => {
                unread.settle();
                self.read_name_or_string(appends, unit, unread)
            }
        }
    }

    /// A unit where a string's name may be whole: the first one of its text, or one of the name.
    fn read_name_or_string(
        &mut self,
        appends: bool,
        unit: CopyUnit,
        unread: &mut Unread<PageEvent>,
    ) -> Result<Step, Limit>
        requires line_goes_on { unit ≢ Byte 10 }
        requires apart { unit ≢ Byte 34 → unread.old.input.arguments.place ≢ BehindQuote }
        ensures { (es : ComposerOf)
            → TakesAs (λ k. string_name_or_text unread.old.input appends unit
            (name_read unread.old.input))
            es self.old self.new unread.old unread.new result }
    {
        match first_name(unread.arguments()) {
            Some(name) => {
                unread.stays_within();
                if unread.is_store_full(first_bytes(name, unit)) {
                    return Err(Limit::Store);
                }
                begin_string(name, unread)?;
                self.read_unit_of_string(name, appends, true, unit, unread)
            }
            None => {
                unread.hold(unit)?;
                self.begin_text_if_named(appends, unread)
            }
        }
    }

    /// Behind a unit of a string's name: where the name is whole its text comes.
    fn begin_text_if_named(
        &mut self,
        appends: bool,
        unread: &mut Unread<PageEvent>,
    ) -> Result<Step, Limit>
        ensures { (es : ComposerOf)
            → TakesAs (λ k. string_name_behind unread.old.input appends
            (name_read unread.old.input))
            es self.old self.new unread.old unread.new result }
    {
        match first_name(unread.arguments()) {
            Some(name) => {
                begin_string(name, unread)?;
                Ok(self.read_on(LineState::Collecting(Purpose::StringText {
                    name,
                    appends,
                    is_front: true,
                })))
            }
            None => Ok(self.read_on(LineState::Collecting(Purpose::StringName { appends }))),
        }
    }

    /// The line of a string ends where its name is read.
    ///
    /// # Errors
    ///
    /// A limit that it would pass; what was changed then is of no more use.
    pub fn end_string_line(
        &mut self,
        appends: bool,
        unread: &mut Unread<PageEvent>,
    ) -> Result<Step, Limit>
        ensures { (es : ComposerOf)
            → TakesAs (λ k. string_line_ended unread.old.input appends
            (name_given_at 0 (arguments_given unread.old.input)))
            es self.old self.new unread.old unread.new result }
    {
        unread.finish_arguments();
        let given = first_name(unread.arguments());
        unread.begin_arguments();
        unread.stays_within();
        if let Some(Some(name)) = given {
            empty_string(name, appends, unread)?;
        }
        Ok(self.read_on(LineState::LineStart))
    }
}
