//! What is given to a run, before anything is read.

ghost use Rattle.std.specs.Prelude.{◌≡◌, ℕ, [], IfErr, OnOk};
ghost use Rattle.roff_engine.specs.Clauses.{Outcome, Sunk, Tape, pages_given, seen};
ghost use Rattle.run_model.specs.Output.{PageHistory, written};
ghost use Rattle.run_model.specs.Run.{initial, stopped_by, with_registers};
ghost use Rattle.run_model.specs.declared.start.Start.{Start as StartOf};
ghost use Rattle.input_model.specs.declared.looked.Looked.TheVariants.{Nothing};
ghost use Rattle.page_bytes.specs.Told.{told_by};
ghost use Rattle.run_turns.specs.Running.Turning.{state_at};
ghost use Rattle.roff_engine.specs.Starting.{Begins, HasRoom, SetsGiven};

use page_bytes::MessageSink;
use roff_num::{Limit, Num};
use run_events::Halt;
use run_model::{Start, Status};
use run_turns::Running;

/// Sets the registers that are given. An `Err` is the status of a run that ended: the limit on
/// names refused one.
pub(crate) fn begin<E: MessageSink>(
    running: &mut Running,
    start: &Start,
    err: &mut E,
) -> Result<(), Status>
    ensures begins { OnOk result
        (Begins (pages_given start.now) running.old running.new start.now.registers.items) }
    ensures err { OnOk result (err.new ≡ err.old) }
    ensures ends { HasRoom running.old → running.old.unread.looked ≡ Nothing → (tape : Tape)
        → initial running.old.limits start.now tape
        ≡ with_registers running.old.limits start.now.registers.items
        (state_at tape running.old (pages_given start.now) [])
        → (failures : ℕ) (out : Sunk) → IfErr result (λ status.
        Outcome running.old.limits start.now tape tape status
        (seen failures out (told_by E.MessageSink err.old))
        (seen failures out (told_by E.MessageSink err.new))) }
{
    match set_registers(running, start.registers.as_slice()) {
        Ok(()) => Ok(()),
        Err(limit) => Err(refuse(running, limit, err)),
    }
}

/// Sets these registers, one after another.
///
/// # Errors
///
/// [`Limit::Names`] if more names than may would have a register: those before it are set then.
fn set_registers(running: &mut Running, given: &[(u8, Num)]) -> Result<(), Limit>
    ensures { SetsGiven running.old running.new given.now result }
{
    let mut rest = given;
    while let Some((first, others)) = rest.split_first() {
        match running.interpreter.give(first.0, first.1) {
            Ok(()) => rest = others,
            Err(limit) => return Err(limit),
        }
    }
    Ok(())
}

/// A limit refused what is given: the status of the run.
#[inline(never)]
fn refuse<E: MessageSink>(running: &Running, limit: Limit, err: &mut E) -> Status
    ensures { (given : StartOf) (tape : Tape) (h : PageHistory) (failures : ℕ) (out : Sunk)
        → running.now.unread.looked ≡ Nothing → written h ≡ []
        → initial running.now.limits given tape
        ≡ stopped_by running.now.limits limit (state_at tape running.now h [])
        → Outcome running.now.limits given tape tape result
        (seen failures out (told_by E.MessageSink err.old))
        (seen failures out (told_by E.MessageSink err.new)) }
{
    let line = running.unread.line();
    running.halted(Halt::Refused(limit), line, line, err)
}
