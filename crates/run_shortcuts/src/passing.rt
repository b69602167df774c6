//! Bytes that are taken at once: those that change nothing, and fronts of control lines.

ghost use Rattle.std.specs.Prelude.{◌≡◌, [], true, false, None};
ghost use Rattle.read_shortcuts.specs.ControlFronts.{BeginsControl, TakesAtBeginning};
ghost use Rattle.read_shortcuts.specs.Runs.{IsRun};
ghost use Rattle.roff_scan.specs.declared.run_kind.RunKind.TheVariants.{Dropped as DroppedRun};
ghost use Rattle.run_model.specs.Reading.Returns.{behind_return};
ghost use Rattle.run_model.specs.Stages.{EndsByNewline};
ghost use Rattle.input_escapes.specs.declared.open_escape.Waiting.TheVariants.{Takes};
ghost use Rattle.input_model.specs.Unread.{IsWithin};
ghost use Rattle.roff_scan.specs.Unread.Calls.{PassesEnd, PassesReturn};
ghost use Rattle.run_shortcuts.specs.Clauses.{due, waiting_in};
ghost use Rattle.run_turns.specs.Running.Turning.{ComesOver, GoesPastOver, going_on, says_fewer};

use crate::arguments::{pass_arguments, pass_behind};
use crate::conditions::pass_condition;
use crate::copied::{copy_run, take_lines};
use crate::fronts::{
    put_string, take_branch_blanks, take_run, take_string_front, take_string_name,
    take_title_front, tell_line,
};
use crate::line_ends::end_control_line;
use page_bytes::{ByteSink, MessageSink};
use read_lines::CALL_ARGUMENTS;
use read_shortcuts::{
    ControlRead, RunKind, begins_apart, begins_control_line, read_control_front, read_short_front,
    run_kind,
};
use roff_scan::ByteSource;
use run_model::Status;
use run_turns::Running;

/// Takes bytes at once that stand in front: those of a control line, and those that [`pass_line`]
/// takes. Returns whether a line begins behind them.
#[inline(always)]
pub fn pass_over<S: ByteSource, O: ByteSink, E: MessageSink>(
    run: &mut Running,
    source: &mut S,
    out: &mut O,
    err: &mut E,
) -> Result<bool, Status>
    ensures { ComesOver S.ByteSource O.ByteSink E.MessageSink (says_fewer result)
        source.old source.new out.old out.new err.old err.new
        run.old run.new (going_on result) }
{
    if begins_control_line(&run.interpreter.reader) && !run.unread.has_open_escape() {
        pass_control_line(run, source, out, err)
    } else {
        pass_line(run, source, out, err)
    }
}

/// Takes the front of a control line at once, if it stands in front, and then bytes behind it, or
/// takes the end of a call. Returns whether a line begins behind them.
#[inline(never)]
fn pass_control_line<S: ByteSource, O: ByteSink, E: MessageSink>(
    run: &mut Running,
    source: &mut S,
    out: &mut O,
    err: &mut E,
) -> Result<bool, Status>
    requires begins { BeginsControl run.old.interpreter.reader.reading }
    requires none_due { due run.old.interpreter.reader.reading ≡ None }
    requires takes { TakesAtBeginning run.old.interpreter.reader.reading }
    requires none_half { run.old.unread.input.escapes ≡ [] }
    ensures { ComesOver S.ByteSource O.ByteSink E.MessageSink (says_fewer result)
        source.old source.new out.old out.new err.old err.new
        run.old run.new (going_on result) }
{
    take_branch_blanks(run, source);
    pass_control_front(run, source, out, err)
}

/// Takes the front of a control line at once, where one may begin behind blanks, and then bytes
/// behind it, or takes the end of a call. Returns whether a line begins behind them.
#[inline(always)]
fn pass_control_front<S: ByteSource, O: ByteSink, E: MessageSink>(
    run: &mut Running,
    source: &mut S,
    out: &mut O,
    err: &mut E,
) -> Result<bool, Status>
    requires begins { BeginsControl run.old.interpreter.reader.reading }
    requires none_due { due run.old.interpreter.reader.reading ≡ None }
    requires takes { TakesAtBeginning run.old.interpreter.reader.reading }
    requires none_half { run.old.unread.input.escapes ≡ [] }
    ensures { ComesOver S.ByteSource O.ByteSink E.MessageSink (says_fewer result)
        source.old source.new out.old out.new err.old err.new
        run.old run.new (going_on result) }
{
    match read_control_front(
        &mut run.interpreter.reader,
        &run.interpreter.formatter.composer,
        &mut run.unread,
        source,
    ) {
        ControlRead::Nothing => Ok(pass_return(run)),
        ControlRead::Escape => Ok(put_string(run, source)),
        ControlRead::Short => pass_short_name(run, source, out, err),
        ControlRead::Front => pass_behind_front(run, source, out, err),
        ControlRead::Dropped => Ok(true),
        ControlRead::Condition => Ok(pass_condition(run, source)),
        ControlRead::Decided => Ok(true),
        ControlRead::Held(behind) => pass_behind(run, None, behind, source, out, err),
        ControlRead::HeldForCall(behind) => {
            pass_behind(run, Some(CALL_ARGUMENTS - 1), behind, source, out, err)
        }
        ControlRead::HeldToEnd => end_control_line(run, out, err),
    }
}

/// Takes the front of a control line at once whose name has one byte, if it stands in front, and
/// then bytes behind it. Returns whether a line begins behind them.
#[inline(never)]
fn pass_short_name<S: ByteSource, O: ByteSink, E: MessageSink>(
    run: &mut Running,
    source: &mut S,
    out: &mut O,
    err: &mut E,
) -> Result<bool, Status>
    requires begins { BeginsControl run.old.interpreter.reader.reading }
    requires none_due { due run.old.interpreter.reader.reading ≡ None }
    requires none_half { run.old.unread.input.escapes ≡ [] }
    ensures { ComesOver S.ByteSource O.ByteSink E.MessageSink (says_fewer result)
        source.old source.new out.old out.new err.old err.new
        run.old run.new (going_on result) }
{
    match read_short_front(&mut run.interpreter.reader, &mut run.unread, source) {
        ControlRead::HeldToEnd => end_control_line(run, out, err),
        ControlRead::Dropped => Ok(true),
        ControlRead::Held(behind) => pass_behind(run, None, behind, source, out, err),
        ControlRead::HeldForCall(behind) => {
            pass_behind(run, Some(CALL_ARGUMENTS - 1), behind, source, out, err)
        }
        _ => pass_behind_front(run, source, out, err),
    }
}

/// What [`pass_line`] does. A function of its own, as what it does in place is then put into place
/// too.
#[inline(never)]
fn pass_behind_front<S: ByteSource, O: ByteSink, E: MessageSink>(
    run: &mut Running,
    source: &mut S,
    out: &mut O,
    err: &mut E,
) -> Result<bool, Status>
    ensures { ComesOver S.ByteSource O.ByteSink E.MessageSink (says_fewer result)
        source.old source.new out.old out.new err.old err.new
        run.old run.new (going_on result) }
{
    pass_line(run, source, out, err)
}

/// Takes the end of a call at once, if it stands in front. Returns whether it did.
#[inline(always)]
fn pass_return(run: &mut Running) -> bool
    ensures passes { result ≡ true → PassesReturn run.old.unread run.new.unread }
    ensures within { result ≡ true → IsWithin run.new.unread }
    ensures reads { result ≡ true → run.new ≡ record run.old {
      interpreter = record run.old.interpreter {
        reader = record run.old.interpreter.reader {
          reading = behind_return 0 run.old.interpreter.reader.reading;
        };
      };
      unread = run.new.unread;
    } }
    ensures unchanged { result ≡ false → run.new ≡ run.old }
{
    if !run.unread.pass_return() {
        return false;
    }
    run.unread.stays_within();
    run.interpreter.reader.end_call(0);
    true
}

/// Takes bytes in front that do alike, and then the newline or the end of a text behind them.
/// Returns whether it took that.
#[inline(always)]
fn pass_line<S: ByteSource, O: ByteSink, E: MessageSink>(
    run: &mut Running,
    source: &mut S,
    out: &mut O,
    err: &mut E,
) -> Result<bool, Status>
    ensures { ComesOver S.ByteSource O.ByteSink E.MessageSink (says_fewer result)
        source.old source.new out.old out.new err.old err.new
        run.old run.new (going_on result) }
{
    match run_kind(&run.interpreter.reader, &run.unread) {
        Some(RunKind::Arguments) => pass_arguments(run, None, source, out, err),
        Some(RunKind::CallArguments(most)) => pass_arguments(run, Some(most), source, out, err),
        Some(kind) => Ok(pass_run(run, kind, source)),
        None => Ok(pass_no_run(run, source)),
    }
}

/// Takes what [`pass_apart`] does where such may stand in front, or else the end of a text. Returns
/// whether it took any of these but bytes.
#[inline(always)]
fn pass_no_run<S: ByteSource>(run: &mut Running, source: &mut S) -> bool
    ensures { GoesPastOver S.ByteSource result source.old source.new run.old run.new }
{
    if begins_apart(&run.interpreter.reader) {
        pass_apart(run, source)
    } else {
        pass_end(run)
    }
}

/// Takes lines of a definition in front; or bytes of a string's name, of the beginning of its text,
/// or of a title's part, and then the end of a text behind them. Returns whether it took any of
/// these but such bytes.
#[inline(never)]
fn pass_apart<S: ByteSource>(run: &mut Running, source: &mut S) -> bool
    ensures { GoesPastOver S.ByteSource result source.old source.new run.old run.new }
{
    if take_lines(run, source) {
        return true;
    }
    take_string_name(run, source);
    take_string_front(run, source);
    take_title_front(run, source);
    pass_end(run)
}

/// Takes bytes in front that do this, and then the newline or the end of a text behind them.
/// Returns whether it took that.
#[inline(always)]
fn pass_run<S: ByteSource>(run: &mut Running, kind: RunKind, source: &mut S) -> bool
    requires { IsRun kind run.old.interpreter.reader.reading run.old.unread.input.escapes }
    ensures { GoesPastOver S.ByteSource result source.old source.new run.old run.new }
{
    match kind {
        RunKind::Dropped { within_block } => pass_dropped(run, within_block, source),
        RunKind::Condition => pass_condition(run, source),
        _ => {
            if take_bytes(run, kind, source) {
                return true;
            }
            pass_end(run)
        }
    }
}

/// Takes bytes in front that do this, and the escape of a register or a string behind those of text
/// or of arguments. Returns whether it took that, or lines of a definition.
#[inline(always)]
fn take_bytes<S: ByteSource>(run: &mut Running, kind: RunKind, source: &mut S) -> bool
    requires { IsRun kind run.old.interpreter.reader.reading run.old.unread.input.escapes }
    ensures { GoesPastOver S.ByteSource result source.old source.new run.old run.new }
{
    match kind {
        RunKind::Text => tell_line(run, source),
        RunKind::Definition => copy_run(run, kind, source),
        RunKind::Ignored => copy_run(run, kind, source),
        _ => {
            take_run(run, kind, source);
            false
        }
    }
}

/// Takes the end of a text at once, if it stands in front, and nothing is due or waits for what
/// follows. Returns whether it did.
#[inline(always)]
pub(crate) fn pass_end(run: &mut Running) -> bool
    ensures none_due { result ≡ true → due run.old.interpreter.reader.reading ≡ None }
    ensures takes { result ≡ true → waiting_in run.old.interpreter.reader.reading
        run.old.unread.input ≡ Takes }
    ensures passes { result ≡ true → PassesEnd run.old.unread run.new.unread }
    ensures within { result ≡ true → IsWithin run.new.unread }
    ensures unchanged { result ≡ false → run.new ≡ run.old }
    ensures others { run.new ≡ record run.old { unread = run.new.unread } }
{
    if run.unread.is_none_ahead() || !run.interpreter.reader.takes_any(&run.unread) {
        return false;
    }
    let is_passed = run.unread.pass_end();
    run.unread.stays_within();
    is_passed
}

/// Takes bytes that change nothing, and the newline behind them if it ends the line. Returns
/// whether it took that.
#[inline(never)]
fn pass_dropped<S: ByteSource>(run: &mut Running, within_block: bool, source: &mut S) -> bool
    requires { IsRun (DroppedRun within_block) run.old.interpreter.reader.reading
        run.old.unread.input.escapes }
    ensures { GoesPastOver S.ByteSource result source.old source.new run.old run.new }
{
    let kind = RunKind::Dropped { within_block };
    read_shortcuts::take_run(&mut run.interpreter.reader, kind, &mut run.unread, source);
    if !within_block && !run.unread.has_open_escape() {
        end_dropped(run, source)
    } else {
        false
    }
}

/// Takes a newline at once that ends the line, if it stands in front. Returns whether it did.
#[inline(always)]
fn end_dropped<S: ByteSource>(run: &mut Running, source: &mut S) -> bool
    requires ends { EndsByNewline run.old.interpreter.reader.reading }
    requires none_due { due run.old.interpreter.reader.reading ≡ None }
    requires none_half { run.old.unread.input.escapes ≡ [] }
    ensures { GoesPastOver S.ByteSource result source.old source.new run.old run.new }
{
    if !run.unread.pass_newline(source) {
        return false;
    }
    run.unread.stays_within();
    run.interpreter.reader.begin_next_line();
    true
}
