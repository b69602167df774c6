//! Lines behind the name of a request or a body: bytes that are held in arguments, with escapes
//! among them, and a comment that ends the line.

ghost use Rattle.std.specs.Prelude.{◌≡◌};
ghost use Rattle.read_shortcuts.specs.Runs.{IsRun, run_holding};
ghost use Rattle.run_turns.specs.Running.Turning.{ComesOver, going_on, says_fewer};

use crate::fronts::{hold_named, take_arguments};
use crate::line_ends::end_control_line;
use crate::passing::pass_end;
use page_bytes::{ByteSink, MessageSink};
use read_arguments::take_comment;
use roff_scan::{BehindHeld, ByteSource};
use run_model::Status;
use run_turns::Running;

/// Takes bytes together that stand in front and are held in arguments, as long as fewer than so
/// many are whole, where there is a bound, and what [`pass_behind`] takes behind them. Returns
/// whether it took any but bytes.
#[inline(always)]
pub(crate) fn pass_arguments<S: ByteSource, O: ByteSink, E: MessageSink>(
    run: &mut Running,
    most: Option<usize>,
    source: &mut S,
    out: &mut O,
    err: &mut E,
) -> Result<bool, Status>
    requires { IsRun (run_holding most) run.old.interpreter.reader.reading
        run.old.unread.input.escapes }
    ensures { ComesOver S.ByteSource O.ByteSink E.MessageSink (says_fewer result)
        source.old source.new out.old out.new err.old err.new
        run.old run.new (going_on result) }
{
    let behind = take_arguments(run, most, source);
    pass_behind(run, most, behind, source, out, err)
}

/// Takes what [`pass_standing`] does, where what stands in front is no other byte. Returns whether
/// it took any.
#[inline(always)]
pub(crate) fn pass_behind<S: ByteSource, O: ByteSink, E: MessageSink>(
    run: &mut Running,
    most: Option<usize>,
    behind: BehindHeld,
    source: &mut S,
    out: &mut O,
    err: &mut E,
) -> Result<bool, Status>
    requires { IsRun (run_holding most) run.old.interpreter.reader.reading
        run.old.unread.input.escapes }
    ensures { ComesOver S.ByteSource O.ByteSink E.MessageSink (says_fewer result)
        source.old source.new out.old out.new err.old err.new
        run.old run.new (going_on result) }
{
    match behind {
        BehindHeld::Newline => Ok(false),
        BehindHeld::Other => Ok(false),
        _ => pass_standing(run, most, behind, source, out, err),
    }
}

/// Takes what stands in front of arguments: the escape of a register, a string or an argument, with
/// bytes of its text and behind it; a comment, which ends the line; or the end of a text. Returns
/// whether it took one of these, and behind an escape whether another one may stand there.
#[inline(never)]
fn pass_standing<S: ByteSource, O: ByteSink, E: MessageSink>(
    run: &mut Running,
    most: Option<usize>,
    behind: BehindHeld,
    source: &mut S,
    out: &mut O,
    err: &mut E,
) -> Result<bool, Status>
    requires { IsRun (run_holding most) run.old.interpreter.reader.reading
        run.old.unread.input.escapes }
    ensures { ComesOver S.ByteSource O.ByteSink E.MessageSink (says_fewer result)
        source.old source.new out.old out.new err.old err.new
        run.old run.new (going_on result) }
{
    match behind {
        BehindHeld::Named => pass_named(run, most, source, out, err),
        _ => pass_last(run, behind, source, out, err),
    }
}

/// Takes the escape of a register, a string or an argument that stands whole in front of arguments,
/// with bytes of its text and behind it, and what [`pass_last`] takes behind these. Returns whether
/// it took that, or another escape may stand there.
#[inline(always)]
fn pass_named<S: ByteSource, O: ByteSink, E: MessageSink>(
    run: &mut Running,
    most: Option<usize>,
    source: &mut S,
    out: &mut O,
    err: &mut E,
) -> Result<bool, Status>
    requires { IsRun (run_holding most) run.old.interpreter.reader.reading
        run.old.unread.input.escapes }
    ensures { ComesOver S.ByteSource O.ByteSink E.MessageSink (says_fewer result)
        source.old source.new out.old out.new err.old err.new
        run.old run.new (going_on result) }
{
    if !hold_named(run, most, source) {
        return Ok(false);
    }
    match take_arguments(run, most, source) {
        BehindHeld::Named => Ok(true),
        behind => pass_last(run, behind, source, out, err),
    }
}

/// Takes a comment that stands in front behind arguments, and ends their line; or the end of a
/// text. Returns whether it took either.
#[inline(always)]
fn pass_last<S: ByteSource, O: ByteSink, E: MessageSink>(
    run: &mut Running,
    behind: BehindHeld,
    source: &mut S,
    out: &mut O,
    err: &mut E,
) -> Result<bool, Status>
    ensures { ComesOver S.ByteSource O.ByteSink E.MessageSink (says_fewer result)
        source.old source.new out.old out.new err.old err.new
        run.old run.new (going_on result) }
{
    match behind {
        BehindHeld::Comment => end_comment(run, source, out, err),
        BehindHeld::End => Ok(pass_end(run)),
        _ => Ok(false),
    }
}

/// Takes a comment that stands in front behind arguments, and ends their line. Returns whether it
/// did.
#[inline(never)]
fn end_comment<S: ByteSource, O: ByteSink, E: MessageSink>(
    run: &mut Running,
    source: &mut S,
    out: &mut O,
    err: &mut E,
) -> Result<bool, Status>
    ensures { ComesOver S.ByteSource O.ByteSink E.MessageSink (says_fewer result)
        source.old source.new out.old out.new err.old err.new
        run.old run.new (going_on result) }
{
    if !take_comment(&run.interpreter.reader, &mut run.unread, source) {
        return Ok(false);
    }
    end_control_line(run, out, err)
}
