//! Ends of control lines, whose newlines were taken with their bytes.

ghost use Rattle.std.specs.Prelude.{◌≡◌, ℕ, []};
ghost use Rattle.input_source.specs.Bytes.{newline};
ghost use Rattle.run_model.specs.Run.{byte_taken};
ghost use Rattle.run_model.specs.declared.line_state.LineState.TheVariants.{Collecting};
ghost use Rattle.run_model.specs.declared.purpose.Purpose.TheVariants.{Arguments, Calling};
ghost use Rattle.run_model.specs.declared.request.Request.TheVariants.{Break};
ghost use Rattle.run_shortcuts.specs.Clauses.{seen};
ghost use Rattle.page_bytes.specs.Told.{told_by};
ghost use Rattle.run_turns.specs.Running.Turning.{DoesItem, going_on};

use page_bytes::{ByteSink, MessageSink};
use roff_num::ShortName;
use run_model::{LineState, Purpose, Request, Status};
use run_turns::Running;

/// Ends a control line, whose newline was taken. Where the run goes on a line begins.
#[inline(always)]
pub(crate) fn end_control_line<O: ByteSink, E: MessageSink>(
    run: &mut Running,
    out: &mut O,
    err: &mut E,
) -> Result<bool, Status>
    ensures { (failures : ℕ) → DoesItem run.old.unread.input.line (byte_taken newline)
        run.old run.new (seen failures (O.sunk out.old) (told_by E.MessageSink err.old))
        (seen failures (O.sunk out.new) (told_by E.MessageSink err.new)) (going_on result) }
{
    match end_held_line(run, out, err) {
        Ok(()) => Ok(true),
        Err(status) => Err(status),
    }
}

/// Ends a control line, whose newline was taken, by what the line is.
#[inline(always)]
fn end_held_line<O: ByteSink, E: MessageSink>(
    run: &mut Running,
    out: &mut O,
    err: &mut E,
) -> Result<(), Status>
    ensures { (failures : ℕ) → DoesItem run.old.unread.input.line (byte_taken newline)
        run.old run.new (seen failures (O.sunk out.old) (told_by E.MessageSink err.old))
        (seen failures (O.sunk out.new) (told_by E.MessageSink err.new)) result }
{
    if run.unread.has_open_escape() {
        return end_any_line(run, out, err);
    }
    match run.interpreter.reader.reading() {
        LineState::Collecting(Purpose::Calling { name }) => end_call_line(run, name, out, err),
        LineState::Collecting(
            Purpose::Arguments {
                breaks,
                request: Request::Break,
            },
        ) => end_break(run, breaks, out, err),
        LineState::Collecting(Purpose::Arguments { breaks, request }) => {
            end_request(run, breaks, request, out, err)
        }
        _ => end_any_line(run, out, err),
    }
}

/// Ends a line of any kind, whose newline was taken.
#[inline(never)]
fn end_any_line<O: ByteSink, E: MessageSink>(
    run: &mut Running,
    out: &mut O,
    err: &mut E,
) -> Result<(), Status>
    ensures { (failures : ℕ) → DoesItem run.old.unread.input.line (byte_taken newline)
        run.old run.new (seen failures (O.sunk out.old) (told_by E.MessageSink err.old))
        (seen failures (O.sunk out.new) (told_by E.MessageSink err.new)) result }
{
    let line = run.unread.line();
    run.take(b'\n', line, out, err)
}

/// Ends a line that calls this body, whose newline was taken.
#[inline(never)]
fn end_call_line<O: ByteSink, E: MessageSink>(
    run: &mut Running,
    name: ShortName,
    out: &mut O,
    err: &mut E,
) -> Result<(), Status>
    requires line { run.old.interpreter.reader.reading ≡ Collecting (Calling name) }
    requires none_half { run.old.unread.input.escapes ≡ [] }
    ensures { (failures : ℕ) → DoesItem run.old.unread.input.line (byte_taken newline)
        run.old run.new (seen failures (O.sunk out.old) (told_by E.MessageSink err.old))
        (seen failures (O.sunk out.new) (told_by E.MessageSink err.new)) result }
{
    let line = run.unread.line();
    match run
        .interpreter
        .end_call_line(name, &mut run.unread, out, err)
    {
        Ok(sprung) => run.go_on(sprung, out, err),
        Err(halt) => Err(run.halted(halt, line, line, err)),
    }
}

/// Ends the line of a break, whose newline was taken.
#[inline(never)]
fn end_break<O: ByteSink, E: MessageSink>(
    run: &mut Running,
    breaks: bool,
    out: &mut O,
    err: &mut E,
) -> Result<(), Status>
    requires line { run.old.interpreter.reader.reading ≡ Collecting (Arguments breaks Break) }
    requires none_half { run.old.unread.input.escapes ≡ [] }
    ensures { (failures : ℕ) → DoesItem run.old.unread.input.line (byte_taken newline)
        run.old run.new (seen failures (O.sunk out.old) (told_by E.MessageSink err.old))
        (seen failures (O.sunk out.new) (told_by E.MessageSink err.new)) result }
{
    let line = run.unread.line();
    match run.interpreter.end_break(breaks, &mut run.unread, out, err) {
        Ok(sprung) => run.go_on(sprung, out, err),
        Err(halt) => Err(run.halted(halt, line, line, err)),
    }
}

/// Ends the line of this request, whose newline was taken.
#[inline(never)]
fn end_request<O: ByteSink, E: MessageSink>(
    run: &mut Running,
    breaks: bool,
    request: Request,
    out: &mut O,
    err: &mut E,
) -> Result<(), Status>
    requires line { run.old.interpreter.reader.reading
        ≡ Collecting (Arguments breaks request) }
    requires none_half { run.old.unread.input.escapes ≡ [] }
    ensures { (failures : ℕ) → DoesItem run.old.unread.input.line (byte_taken newline)
        run.old run.new (seen failures (O.sunk out.old) (told_by E.MessageSink err.old))
        (seen failures (O.sunk out.new) (told_by E.MessageSink err.new)) result }
{
    let line = run.unread.line();
    match run
        .interpreter
        .end_request(breaks, request, &mut run.unread, out, err)
    {
        Ok(sprung) => run.go_on(sprung, out, err),
        Err(halt) => Err(run.halted(halt, line, line, err)),
    }
}
