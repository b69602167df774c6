//! The arguments of requests, and the names that they give.

ghost use Rattle.read_lines.specs.Clauses.{ComposerOf, TakesAs, going_on};
ghost use Rattle.read_lines.specs.Clauses.{holding};
ghost use Rattle.read_lines.specs.Clauses.{no_unit_found};

use super::Reader;
use roff_num::Limit;
use roff_scan::{CopyUnit, Found, Unread};
use run_model::{LineState, PageEvent, Step};
use run_state::Composer;

impl Reader {
    /// A unit of an argument is held, and this is read on.
    ///
    /// # Errors
    ///
    /// A limit that it would pass; what was changed then is of no more use.
    pub fn hold(
        &mut self,
        unit: CopyUnit,
        reading: LineState,
        unread: &mut Unread<PageEvent>,
    ) -> Result<Step, Limit>
        ensures { (es : ComposerOf)
            → TakesAs (λ k. going_on (holding unit unread.old.input) reading)
            es self.old self.new unread.old unread.new result }
    {
        unread.hold(unit)?;
        Ok(self.read_on(reading))
    }

    /// Something behind the name of a request that is no unit of an argument, and decides nothing.
    ///
    /// # Errors
    ///
    /// A limit that it would pass; what was changed then is of no more use.
    #[inline(always)]
    pub fn read_in_arguments(
        &mut self,
        reading: LineState,
        found: Found,
        composer: &Composer,
        unread: &mut Unread<PageEvent>,
    ) -> Result<Step, Limit>
        ensures { TakesAs (λ k. no_unit_found k unread.old.input reading found)
            composer.now self.old self.new unread.old unread.new result }
    {
        match found {
            Found::Holds(unit) => self.hold_text(unit, reading, unread),
            Found::Asks(purpose, name) => {
                self.reading = reading;
                self.ask(purpose, name, composer, unread)
            }
            Found::Measures(width) => self.measure(width, reading, unread),
            Found::Tells(remark) => Ok(self.tell(remark, reading)),
            _ => Ok(self.read_on(reading)),
        }
    }
}
