//! A step of a run: bytes that are taken together, or else what is due and a turn.

ghost use Rattle.std.specs.Prelude.{◌≡◌, [], None};
ghost use Rattle.run_model.specs.Run.{item_read};
ghost use Rattle.roff_engine.specs.Clauses.{due, falls_told, going_on};
ghost use Rattle.run_turns.specs.Running.Turning.{ComesOver, TurnsOver, says_fewer};
ghost use Rattle.run_model.specs.declared.line_state.LineState.TheVariants.{Text as InText};

use page_bytes::{ByteSink, MessageSink};
use roff_scan::ByteSource;
use run_model::{LineState, Status, TextLine};
use run_shortcuts::{begin_text_at_once, pass_over, tell_behind};
use run_turns::Running;

/// Takes bytes at once that stand in front, or else does what is due, and takes an item of the
/// input or ends what is half read. If the bytes in front were told, or a text line ended before
/// them, that is done at once. Returns whether that is so behind it. An `Err` is the status of a
/// run that ended.
#[inline(always)]
pub(crate) fn step<S: ByteSource, O: ByteSink, E: MessageSink>(
    run: &mut Running,
    is_told: bool,
    source: &mut S,
    out: &mut O,
    err: &mut E,
) -> Result<bool, Status>
    ensures { ComesOver S.ByteSource O.ByteSink E.MessageSink (falls_told is_told result)
        source.old source.new out.old out.new err.old err.new
        run.old run.new (going_on result) }
{
    match pass_untold(run, is_told, source, out, err) {
        Ok(passed) => {
            if passed {
                Ok(false)
            } else {
                do_due_and_turn(run, is_told, source, out, err)
            }
        }
        Err(status) => Err(status),
    }
}

/// What [`pass_over`] does, unless the bytes in front were told.
#[inline(always)]
fn pass_untold<S: ByteSource, O: ByteSink, E: MessageSink>(
    run: &mut Running,
    is_told: bool,
    source: &mut S,
    out: &mut O,
    err: &mut E,
) -> Result<bool, Status>
    ensures { ComesOver S.ByteSource O.ByteSink E.MessageSink (says_fewer result)
        source.old source.new out.old out.new err.old err.new
        run.old run.new (going_on result) }
{
    if is_told {
        return Ok(false);
    }
    pass_over(run, source, out, err)
}

/// Does what is due, and then takes an item of the input or ends what is half read.
#[inline(always)]
fn do_due_and_turn<S: ByteSource, O: ByteSink, E: MessageSink>(
    run: &mut Running,
    is_told: bool,
    source: &mut S,
    out: &mut O,
    err: &mut E,
) -> Result<bool, Status>
    ensures { ComesOver S.ByteSource O.ByteSink E.MessageSink (falls_told is_told result)
        source.old source.new out.old out.new err.old err.new
        run.old run.new (going_on result) }
{
    match run.do_due(err) {
        Ok(()) => turn(run, is_told, source, out, err),
        Err(status) => Err(status),
    }
}

/// Takes an item of the input, or ends what is half read; nothing is due. Behind a text line it
/// doesn't where a control line may begin. Returns whether bytes in front are told behind it.
#[inline(always)]
fn turn<S: ByteSource, O: ByteSink, E: MessageSink>(
    run: &mut Running,
    is_told: bool,
    source: &mut S,
    out: &mut O,
    err: &mut E,
) -> Result<bool, Status>
    requires { due run.old.interpreter.reader.reading ≡ None }
    ensures { ComesOver S.ByteSource O.ByteSink E.MessageSink (falls_told is_told result)
        source.old source.new out.old out.new err.old err.new
        run.old run.new (going_on result) }
{
    if run.unread.has_open_escape() {
        untold(run.turn_half_read(source, out, err))
    } else {
        turn_beginning(run, is_told, source, out, err)
    }
}

/// Makes a turn where nothing is half read. A text line that begins is put at once, or its front is
/// told before. Returns whether bytes in front are told behind it.
#[inline(always)]
fn turn_beginning<S: ByteSource, O: ByteSink, E: MessageSink>(
    run: &mut Running,
    is_told: bool,
    source: &mut S,
    out: &mut O,
    err: &mut E,
) -> Result<bool, Status>
    requires none_due { due run.old.interpreter.reader.reading ≡ None }
    requires none_half { run.old.unread.input.escapes ≡ [] }
    ensures { ComesOver S.ByteSource O.ByteSink E.MessageSink (falls_told is_told result)
        source.old source.new out.old out.new err.old err.new
        run.old run.new (going_on result) }
{
    match begin_text_at_once(run, source, out, err) {
        Ok(passed) => {
            if passed.begins_line() {
                Ok(true)
            } else if is_told & passed.is_nothing() {
                Ok(false)
            } else {
                turn_alone(run, source, out, err)
            }
        }
        Err(status) => Err(status),
    }
}

/// Takes an item of the input alone, where nothing is half read. Returns whether bytes in front are
/// told behind it.
#[inline(always)]
fn turn_alone<S: ByteSource, O: ByteSink, E: MessageSink>(
    run: &mut Running,
    source: &mut S,
    out: &mut O,
    err: &mut E,
) -> Result<bool, Status>
    requires none_half { run.old.unread.input.escapes ≡ [] }
    ensures { TurnsOver S.ByteSource O.ByteSink E.MessageSink (λ s. item_read run.old.limits s)
        source.old source.new out.old out.new err.old err.new
        run.old run.new (going_on result) }
{
    match run.interpreter.reader.reading() {
        LineState::Text(line) => turn_text(run, line, source, out, err),
        LineState::LineStart => turn_first(run, source, out, err),
        _ => untold(run.turn_other(source, out, err)),
    }
}

/// Takes the item in front on this text line, where nothing is half read: most often a byte that
/// stands ready, behind which bytes are told. Returns whether they are.
#[inline(always)]
fn turn_text<S: ByteSource, O: ByteSink, E: MessageSink>(
    run: &mut Running,
    line: TextLine,
    source: &mut S,
    out: &mut O,
    err: &mut E,
) -> Result<bool, Status>
    requires line { run.old.interpreter.reader.reading ≡ InText line }
    requires none_half { run.old.unread.input.escapes ≡ [] }
    ensures { TurnsOver S.ByteSource O.ByteSink E.MessageSink (λ s. item_read run.old.limits s)
        source.old source.new out.old out.new err.old err.new
        run.old run.new (going_on result) }
{
    let line_before = run.unread.line();
    match run.unread.take_ready(source) {
        Some(byte) => match run.take_text(line, byte, line_before, out, err) {
            Ok(()) => tell_behind(run, byte, source, out, err),
            Err(status) => Err(status),
        },
        None => untold(run.turn_line(source, out, err)),
    }
}

/// Takes the item in front where a line begins, and nothing is half read: most often a byte that
/// stands ready, behind which bytes are told. Returns whether they are.
#[inline(always)]
fn turn_first<S: ByteSource, O: ByteSink, E: MessageSink>(
    run: &mut Running,
    source: &mut S,
    out: &mut O,
    err: &mut E,
) -> Result<bool, Status>
    requires none_half { run.old.unread.input.escapes ≡ [] }
    ensures { TurnsOver S.ByteSource O.ByteSink E.MessageSink (λ s. item_read run.old.limits s)
        source.old source.new out.old out.new err.old err.new
        run.old run.new (going_on result) }
{
    let line_before = run.unread.line();
    match run.unread.take_ready(source) {
        Some(byte) => match run.take_first(byte, line_before, out, err) {
            Ok(()) => tell_behind(run, byte, source, out, err),
            Err(status) => Err(status),
        },
        None => untold(run.turn_line(source, out, err)),
    }
}

/// A run that goes on where no bytes in front are told, or that ended.
#[inline(always)]
fn untold(done: Result<(), Status>) -> Result<bool, Status>
    ensures { going_on result ≡ done }
{
    match done {
        Ok(()) => Ok(false),
        Err(status) => Err(status),
    }
}
