//! How what ends a run early is told.

ghost use Rattle.std.specs.Prelude.{ℕ};
ghost use Rattle.run_items.specs.Clauses.{Beginning, Tape, OutcomeOf, Seen, seen, Halts};
ghost use Rattle.run_items.specs.Clauses.{Sunk};
ghost use Rattle.page_bytes.specs.Told.{told_by};

use crate::report::report;
use page_bytes::MessageSink;
use roff_num::Limits;
use run_events::Halt;
use run_model::{Message, Status};

/// How a run ends that was halted on this line. A limit and a fault of the output are reported.
pub fn status<E: MessageSink>(halt: Halt, limits: Limits, line: u32, err: &mut E) -> Status
    ensures { (t : Beginning) (left : Tape) (before : Seen) (failures : ℕ) (out : Sunk)
        → Halts limits t left line halt before (seen failures out (told_by E.MessageSink err.old))
        → OutcomeOf limits t left result before
        (seen failures out (told_by E.MessageSink err.new)) }
{
    match halt {
        Halt::Limit(limit) | Halt::Refused(limit) => {
            let message = Message::LimitReached(limit, limits.value(limit));
            match report(message, line, err) {
                Ok(()) => Status::Limit(limit),
                Err(_) => Status::Device,
            }
        }
        Halt::Output => {
            let _ = report(Message::WriteFailed, line, err);
            Status::Device
        }
        Halt::Over => Status::Done,
        Halt::Messages => Status::Device,
    }
}
