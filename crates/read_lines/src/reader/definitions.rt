//! Lines by which macros are defined, or that are ignored.

ghost use Rattle.read_lines.specs.Clauses.{ComposerOf, TakesAs, arguments_given};
ghost use Rattle.read_lines.specs.Clauses.{lines_begun};
ghost use Rattle.read_lines.specs.Clauses.{definition_begun};

use super::Reader;
use read_names::{begin_string, short_name_at};
use roff_num::{Limit, ShortName};
use roff_scan::Unread;
use run_model::{LineState, LinesFor, PageEvent, Purpose, Step};

impl Reader {
    /// The end of the line of a request by which lines are defined, or ignored.
    ///
    /// # Errors
    ///
    /// A limit that it would pass; what was changed then is of no more use.
    pub fn begin_lines(
        &mut self,
        lines: LinesFor,
        unread: &mut Unread<PageEvent>,
    ) -> Result<Step, Limit>
        ensures { (es : ComposerOf)
            → TakesAs (λ k. lines_begun unread.old.input lines (arguments_given unread.old.input))
            es self.old self.new unread.old unread.new result }
    {
        unread.finish_arguments();
        let first = short_name_at(0, unread.arguments());
        let second = short_name_at(1, unread.arguments());
        match (lines, first) {
            (LinesFor::Nobody, end) => self.begin_definition(None, false, end.flatten(), unread),
            (LinesFor::Macro { appends }, Some(Some(name))) => {
                self.begin_definition(Some(name), appends, second.flatten(), unread)
            }
            (LinesFor::Macro { .. }, _) => {
                unread.begin_arguments();
                Ok(self.read_on(LineState::LineStart))
            }
        }
    }

    /// The text of a definition is begun, if a name gets it.
    fn begin_definition(
        &mut self,
        name: Option<ShortName>,
        appends: bool,
        end: Option<ShortName>,
        unread: &mut Unread<PageEvent>,
    ) -> Result<Step, Limit>
        ensures { (es : ComposerOf)
            → TakesAs (λ k. definition_begun unread.old.input name appends end)
            es self.old self.new unread.old unread.new result }
    {
        begin_string(name, unread)?;
        Ok(self.read_on(LineState::Collecting(Purpose::Defining {
            name,
            appends,
            end,
            matched: Some(0),
        })))
    }
}
