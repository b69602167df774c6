//! The texts of messages.

ghost use Rattle.std.specs.Prelude.{false};
ghost use Rattle.read_lines.specs.Clauses.{Collecting, ComposerOf, Telling, TakesAs};
ghost use Rattle.read_lines.specs.Clauses.{going_on, holding_plain};
ghost use Rattle.read_lines.specs.Clauses.{message_unit};

use super::Reader;
use roff_num::Limit;
use roff_scan::{CopyUnit, Unread};
use run_model::{LineState, PageEvent, Purpose, Step};

impl Reader {
    /// A unit of a message's text: in front of it blanks are dropped; a newline ends it.
    ///
    /// # Errors
    ///
    /// A limit that it would pass; what was changed then is of no more use.
    pub fn read_unit_of_message(
        &mut self,
        aborts: bool,
        is_front: bool,
        unit: CopyUnit,
        unread: &mut Unread<PageEvent>,
    ) -> Result<Step, Limit>
        ensures { (es : ComposerOf)
            → TakesAs (λ k. message_unit unread.old.input aborts is_front unit)
            es self.old self.new unread.old unread.new result }
    {
        match unit {
            CopyUnit::Byte(b'\n') => Ok(self.read_on(LineState::Told { aborts })),
            CopyUnit::Byte(b' ') if is_front => Ok(self.read_on(LineState::Collecting(
                Purpose::Telling {
                    aborts,
                    is_front: true,
                },
            ))),
            _ => self.hold_plain(unit, aborts, unread),
        }
    }

    /// A unit of a message's text is held.
    fn hold_plain(
        &mut self,
        unit: CopyUnit,
        aborts: bool,
        unread: &mut Unread<PageEvent>,
    ) -> Result<Step, Limit>
        ensures { (es : ComposerOf)
            → TakesAs (λ k. going_on (holding_plain unit unread.old.input)
            (Collecting (Telling aborts false)))
            es self.old self.new unread.old unread.new result }
    {
        unread.hold_plain(unit)?;
        Ok(self.read_on(LineState::Collecting(Purpose::Telling {
            aborts,
            is_front: false,
        })))
    }
}
