//! What is read behind a request's name.

ghost use Rattle.read_steps.specs.Clauses.{TakesAs};
ghost use Rattle.read_steps.specs.Clauses.{unit_found};

use crate::line_ends::end_arguments;
use read_lines::Reader;
use roff_num::Limit;
use roff_scan::{CopyUnit, Unread};
use run_model::{LineState, PageEvent, Purpose, Request, Step};
use run_state::Composer;

/// A unit behind a request's name: a newline ends the line, and all else is held.
#[inline(always)]
pub(crate) fn read_unit(
    reader: &mut Reader,
    breaks: bool,
    request: Request,
    unit: CopyUnit,
    composer: &Composer,
    unread: &mut Unread<PageEvent>,
) -> Result<Step, Limit>
    ensures { TakesAs (λ k. unit_found k unread.old.input breaks request unit)
        composer.now reader.old reader.new unread.old unread.new result }
{
    match unit {
        CopyUnit::Byte(b'\n') => end_arguments(reader, breaks, request, composer, unread),
        _ => {
            let reading = LineState::Collecting(Purpose::Arguments { breaks, request });
            reader.hold(unit, reading, unread)
        }
    }
}
