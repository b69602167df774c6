//! The request that sets the indent.

ghost use Rattle.std.specs.Prelude.{Ok};
ghost use Rattle.read_obeying.specs.Acting.{Acts, kept};
ghost use Rattle.run_model.specs.Registers.Capped.{Capped};
ghost use Rattle.run_model.specs.declared.request.Request.TheVariants.{Indent};

use crate::telling::{report, set_always};
use page_model::Param;
use read_meaning::Meaning;
use read_requests::length_wanted;
use roff_scan::Unread;
use run_model::{Message, PageEvent, Step};
use run_state::Composer;

/// Sets the indent to the length that the first argument gives; to the previous one where none is
/// given.
pub(crate) fn set_indent(
    meaning: &mut Meaning,
    breaks: bool,
    composer: &Composer,
    unread: &Unread<PageEvent>,
) -> Step
    ensures { (registers : Capped) → Acts breaks Indent composer.now
        (kept registers meaning.old) (kept registers meaning.new)
        unread.now unread.now (Ok result) }
{
    let settings = composer.environments.in_force.lines.settings();
    let arguments = unread.arguments();
    match length_wanted(settings.indent, settings.previous_indent, arguments.get(0)) {
        Ok(columns) => set_always(meaning, breaks, Param::Indent(columns)),
        Err(_) => report(meaning, Message::BadNumber),
    }
}
