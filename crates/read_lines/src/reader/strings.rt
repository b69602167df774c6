//! The texts of strings that are defined.

ghost use Rattle.read_lines.specs.Clauses.{ComposerOf, TakesAs};
ghost use Rattle.read_lines.specs.Clauses.{string_unit};

use super::Reader;
use read_names::{enter_string, grow_string};
use roff_num::{Limit, ShortName};
use roff_scan::{CopyUnit, Unread};
use run_model::{LineState, PageEvent, Purpose, Step};

impl Reader {
    /// A unit of a string's text: in front of it blanks are dropped, and then one quote; a newline
    /// ends it.
    ///
    /// # Errors
    ///
    /// A limit that it would pass; what was changed then is of no more use.
    pub fn read_unit_of_string(
        &mut self,
        name: Option<ShortName>,
        appends: bool,
        is_front: bool,
        unit: CopyUnit,
        unread: &mut Unread<PageEvent>,
    ) -> Result<Step, Limit>
        ensures { (es : ComposerOf)
            → TakesAs (λ k. string_unit unread.old.input name appends is_front unit)
            es self.old self.new unread.old unread.new result }
    {
        let text = |is_front| {
            LineState::Collecting(Purpose::StringText {
                name,
                appends,
                is_front,
            })
        };
        match unit {
            CopyUnit::Byte(b'\n') => {
                enter_string(name, appends, unread)?;
                Ok(self.read_on(LineState::LineStart))
            }
            CopyUnit::Byte(b' ') if is_front => Ok(self.read_on(text(true))),
            CopyUnit::Byte(b'"') if is_front => Ok(self.read_on(text(false))),
            _ => {
                grow_string(name, unit, unread)?;
                Ok(self.read_on(text(false)))
            }
        }
    }
}
