//! Runs: bytes in front that do alike, and are taken together.

ghost use Rattle.std.specs.Prelude.{◌≡◌, ◌≤◌, [], false, true};
ghost use Rattle.run_shortcuts.specs.BehindText.{begins_above_controls, behind_ready, behind_text};
ghost use Rattle.read_shortcuts.specs.Registers.{IsTextAhead};
ghost use Rattle.run_shortcuts.specs.Beginning.{TellsText};
ghost use Rattle.read_shortcuts.specs.Runs.{IsRun, ready_allowed, run_holding};
ghost use Rattle.input_model.specs.Unread.{asks_to_take};
ghost use Rattle.roff_scan.specs.declared.run_kind.RunKind.TheVariants.{Text as TextRun};
ghost use Rattle.run_turns.specs.Running.Turning.{GoesPastOver};

use crate::glyphs::{tell_line_behind, tell_text_behind};
use crate::passing::pass_end;
use crate::stepping::tell_other;
use read_shortcuts::{RunKind, TextAhead, pass_text, run_half_read, run_kind, text_ahead};
use roff_scan::{BehindHeld, ByteSource};
use run_turns::Running;

/// What lies behind bytes that were told.
#[derive(Clone, Copy)]
pub(crate) enum Behind {
    /// What wasn't looked at, as none was told.
    Untold,
    /// A backslash and the letter of a register, a string or an argument.
    Named,
    /// Another backslash.
    Escape,
    /// Anything else, or nothing that is seen.
    Other,
}

/// Takes bytes that stand in front and do this; none of text, which are told.
#[inline(always)]
pub(crate) fn take_run<S: ByteSource>(run: &mut Running, kind: RunKind, source: &mut S)
    requires { IsRun kind run.old.interpreter.reader.reading run.old.unread.input.escapes }
    ensures { GoesPastOver S.ByteSource false source.old source.new run.old run.new }
{
    read_shortcuts::take_run(&mut run.interpreter.reader, kind, &mut run.unread, source);
}

/// Takes blanks together that stand in front where a branch begins, and nothing is half read.
#[inline(always)]
pub(crate) fn take_branch_blanks<S: ByteSource>(run: &mut Running, source: &mut S)
    requires none_half { run.old.unread.input.escapes ≡ [] }
    ensures none_half { run.new.unread.input.escapes ≡ [] }
    ensures others { run.new ≡ record run.old { unread = run.new.unread } }
    ensures past { GoesPastOver S.ByteSource false source.old source.new run.old run.new }
{
    read_shortcuts::take_branch_blanks(&run.interpreter.reader, &mut run.unread, source);
}

/// Takes bytes of a title's part together that stand in front, where a title is read.
#[inline(always)]
pub(crate) fn take_title_front<S: ByteSource>(run: &mut Running, source: &mut S)
    ensures { GoesPastOver S.ByteSource false source.old source.new run.old run.new }
{
    read_steps::take_title_front(&mut run.interpreter.reader, &mut run.unread, source);
}

/// Takes bytes of a string's name together that stand in front, where one is read.
#[inline(always)]
pub(crate) fn take_string_name<S: ByteSource>(run: &mut Running, source: &mut S)
    ensures { GoesPastOver S.ByteSource false source.old source.new run.old run.new }
{
    read_shortcuts::take_string_name(&run.interpreter.reader, &mut run.unread, source);
}

/// Takes bytes of a string's text together that stand in front, where it begins.
#[inline(always)]
pub(crate) fn take_string_front<S: ByteSource>(run: &mut Running, source: &mut S)
    ensures { GoesPastOver S.ByteSource false source.old source.new run.old run.new }
{
    read_shortcuts::take_string_front(&mut run.interpreter.reader, &mut run.unread, source);
}

/// Takes bytes together that stand in front and are held in arguments, as long as fewer than so
/// many are whole, where there is a bound. Returns what stands behind them.
#[inline(always)]
pub(crate) fn take_arguments<S: ByteSource>(
    run: &mut Running,
    most: Option<usize>,
    source: &mut S,
) -> BehindHeld
    requires { IsRun (run_holding most) run.old.interpreter.reader.reading
        run.old.unread.input.escapes }
    ensures past { GoesPastOver S.ByteSource false source.old source.new run.old run.new }
    ensures half { run.new.unread.input.escapes ≡ run.old.unread.input.escapes }
    ensures reads { run.new.interpreter ≡ run.old.interpreter }
{
    read_shortcuts::take_arguments(&run.interpreter.reader, most, &mut run.unread, source)
}

/// Takes the escape of a register or an argument that stands whole in front of arguments, and holds
/// its text; or that of a string, which is put in front. Returns whether it did.
#[inline(always)]
pub(crate) fn hold_named<S: ByteSource>(
    run: &mut Running,
    most: Option<usize>,
    source: &mut S,
) -> bool
    requires { IsRun (run_holding most) run.old.interpreter.reader.reading
        run.old.unread.input.escapes }
    ensures further { GoesPastOver S.ByteSource result source.old source.new
        run.old run.new }
    ensures half { run.new.unread.input.escapes ≡ run.old.unread.input.escapes }
    ensures reads { run.new.interpreter ≡ run.old.interpreter }
{
    if hold_text(run, most, source) {
        return true;
    }
    put_string(run, source)
}

/// Takes the escape of a register or an argument that stands whole in front of arguments, and holds
/// its text. Returns whether it did.
#[inline(always)]
fn hold_text<S: ByteSource>(run: &mut Running, most: Option<usize>, source: &mut S) -> bool
    requires { IsRun (run_holding most) run.old.interpreter.reader.reading
        run.old.unread.input.escapes }
    ensures further { GoesPastOver S.ByteSource result source.old source.new
        run.old run.new }
    ensures half { run.new.unread.input.escapes ≡ run.old.unread.input.escapes }
    ensures reads { run.new.interpreter ≡ run.old.interpreter }
{
    read_shortcuts::hold_text(
        &run.interpreter.reader,
        most,
        &run.interpreter.formatter.composer,
        &mut run.unread,
        source,
    )
}

/// Takes the escape of a register or an argument that stands whole in front on a text line, steps a
/// register that is to be, and tells its text; or that of a string, and tells text of that. Returns
/// whether it did.
#[inline(never)]
pub(crate) fn take_named<S: ByteSource>(run: &mut Running, source: &mut S) -> bool
    requires { IsRun TextRun run.old.interpreter.reader.reading run.old.unread.input.escapes }
    ensures further { GoesPastOver S.ByteSource result source.old source.new
        run.old run.new }
    ensures half { run.new.unread.input.escapes ≡ run.old.unread.input.escapes }
    ensures reads { run.new.interpreter.reader.reading
        ≡ run.old.interpreter.reader.reading }
    ensures more { run.old.unread.input.charge ≤ run.new.unread.input.charge }
{
    match text_ahead(&run.interpreter.reader, &run.unread, source) {
        Some(ahead) => {
            tell_named(run, ahead, source);
            true
        }
        None => tell_other(run, source),
    }
}

/// Takes the escape of a string that stands whole in front on a text line, tells bytes of plain
/// text with which the string begins, and takes its end, if that stands behind them. Returns
/// whether it did.
#[inline(always)]
pub(crate) fn tell_string<S: ByteSource>(run: &mut Running, source: &mut S) -> bool
    requires { IsRun TextRun run.old.interpreter.reader.reading run.old.unread.input.escapes }
    ensures further { GoesPastOver S.ByteSource result source.old source.new
        run.old run.new }
    ensures half { run.new.unread.input.escapes ≡ run.old.unread.input.escapes }
    ensures reads { run.new.interpreter.reader ≡ run.old.interpreter.reader }
    ensures more { run.old.unread.input.charge ≤ run.new.unread.input.charge }
{
    if !put_string(run, source) {
        return false;
    }
    let _ = tell_front(run, source);
    let _ = pass_end(run);
    true
}

/// Takes the escape of a string that stands whole in front, where text or arguments are read or a
/// line begins, and puts the string in front. Returns whether it did.
#[inline(always)]
pub(crate) fn put_string<S: ByteSource>(run: &mut Running, source: &mut S) -> bool
    ensures further { GoesPastOver S.ByteSource result source.old source.new
        run.old run.new }
    ensures half { run.new.unread.input.escapes ≡ run.old.unread.input.escapes }
    ensures reads { run.new.interpreter ≡ run.old.interpreter }
    ensures more { run.old.unread.input.charge ≤ run.new.unread.input.charge }
{
    read_shortcuts::put_string(&run.interpreter.reader, &mut run.unread, source)
}

/// Tells the text of the register or the argument whose escape stands in front.
#[inline(always)]
fn tell_named<S: ByteSource>(run: &mut Running, ahead: TextAhead, source: &mut S)
    requires run { IsRun TextRun run.old.interpreter.reader.reading
        run.old.unread.input.escapes }
    requires ahead { IsTextAhead ahead run.old.interpreter.reader.reading
        (S.ready source.old) run.old.unread }
    ensures further { GoesPastOver S.ByteSource true source.old source.new
        run.old run.new }
    ensures half { run.new.unread.input.escapes ≡ run.old.unread.input.escapes }
    ensures reads { run.new.interpreter.reader ≡ run.old.interpreter.reader }
    ensures more { run.old.unread.input.charge ≤ run.new.unread.input.charge }
{
    let text = pass_text(
        &run.interpreter.reader,
        ahead,
        &run.interpreter.formatter.composer,
        &mut run.unread,
        source,
    );
    let bytes = text.as_slice();
    let count = run.interpreter.formatter.text_front(bytes);
    let _ = run.unread.push_read(bytes, count);
    run.unread.stays_within();
}

/// Takes bytes of plain text that stand in front, and tells them; then takes the escape of a
/// register or a string behind them, or reads its front. Returns whether it took a whole one.
#[inline(always)]
pub(crate) fn tell_line<S: ByteSource>(run: &mut Running, source: &mut S) -> bool
    requires { IsRun TextRun run.old.interpreter.reader.reading run.old.unread.input.escapes }
    ensures { GoesPastOver S.ByteSource result source.old source.new run.old run.new }
{
    match tell_front(run, source) {
        Behind::Untold => false,
        Behind::Other => false,
        Behind::Escape => tell_line_behind(run, source),
        Behind::Named => read_named(run, source),
    }
}

/// Tells bytes of plain text together that stand in front, if a text line goes on with them, and
/// takes or reads what [`tell_line`] does behind them; or takes leading blanks. Returns whether it
/// did, and no escape stands behind them.
#[inline(always)]
pub(crate) fn tell_on<S: ByteSource>(run: &mut Running, source: &mut S) -> bool
    ensures { GoesPastOver S.ByteSource false source.old source.new run.old run.new }
{
    match run_kind(&run.interpreter.reader, &run.unread) {
        Some(RunKind::Text) => tell_text(run, source),
        Some(RunKind::Blanks) => {
            take_run(run, RunKind::Blanks, source);
            true
        }
        _ => false,
    }
}

/// Tells bytes of plain text that stand in front on a text line, and takes or reads what stands
/// behind them. Returns whether no escape does.
#[inline(always)]
fn tell_text<S: ByteSource>(run: &mut Running, source: &mut S) -> bool
    requires { IsRun TextRun run.old.interpreter.reader.reading run.old.unread.input.escapes }
    ensures { GoesPastOver S.ByteSource false source.old source.new run.old run.new }
{
    match tell_front(run, source) {
        Behind::Untold => true,
        Behind::Other => true,
        Behind::Escape => tell_text_behind(run, source),
        Behind::Named => {
            let _ = read_named(run, source);
            false
        }
    }
}

/// Reads the front of an escape, as far as one stands in front. It took no whole one.
#[inline(always)]
pub(crate) fn read_escape<S: ByteSource>(run: &mut Running, source: &mut S) -> bool
    ensures { GoesPastOver S.ByteSource result source.old source.new run.old run.new }
{
    if let Some(kind) = run_half_read(&run.interpreter.reader, &run.unread) {
        take_run(run, kind, source);
    }
    false
}

/// Takes the escape of a register or a string in front, and tells text behind that, or reads the
/// front of one. Returns whether it took a whole one.
#[inline(always)]
pub(crate) fn read_named<S: ByteSource>(run: &mut Running, source: &mut S) -> bool
    requires { IsRun TextRun run.old.interpreter.reader.reading run.old.unread.input.escapes }
    ensures { GoesPastOver S.ByteSource result source.old source.new run.old run.new }
{
    if take_named(run, source) {
        return tell_rest(run, source);
    }
    read_escape(run, source)
}

/// Tells bytes of plain text that stand in front. Returns whether an escape stands behind them.
#[inline(always)]
fn tell_rest<S: ByteSource>(run: &mut Running, source: &mut S) -> bool
    requires { IsRun TextRun run.old.interpreter.reader.reading run.old.unread.input.escapes }
    ensures { GoesPastOver S.ByteSource false source.old source.new run.old run.new }
{
    match tell_front(run, source) {
        Behind::Untold => false,
        Behind::Other => false,
        Behind::Escape => true,
        Behind::Named => true,
    }
}

/// Takes bytes of plain text together that stand in front, and tells them: as many as no limit
/// refuses, and none that finishes a line. Returns what lies behind them, as far as is seen.
#[inline(never)]
pub(crate) fn tell_front<S: ByteSource>(run: &mut Running, source: &mut S) -> Behind
    requires { IsRun TextRun run.old.interpreter.reader.reading run.old.unread.input.escapes }
    ensures past { GoesPastOver S.ByteSource false source.old source.new run.old run.new }
    ensures half { run.new.unread.input.escapes ≡ run.old.unread.input.escapes }
    ensures reads { run.new.interpreter.reader ≡ run.old.interpreter.reader }
    ensures behind { asks_to_take run.old.unread ≡ true → result
        ≡ behind_ready (S.ready source.old) run.old.unread run.new.unread }
    ensures more { run.old.unread.input.charge ≤ run.new.unread.input.charge }
    ensures told { asks_to_take run.old.unread ≡ true
        → begins_above_controls (ready_allowed run.old.unread (S.ready source.old)) ≡ true
        → TellsText (ready_allowed run.old.unread (S.ready source.old)) run.old run.new }
{
    let front = run.unread.front(source);
    if !begins_above_controls(front) {
        return Behind::Other;
    }
    let count = run.interpreter.formatter.text_front(front);
    let behind = behind_text(front, count);
    run.unread.pass(source, count);
    behind
}

/// Whether these bytes begin with one that isn't a control byte. Few fronts behind a tab do.
#[inline(always)]
fn begins_above_controls(bytes: &[u8]) -> bool
    ensures { result ≡ begins_above_controls bytes.now }
{
    match bytes {
        [first, ..] => *first >= b' ',
        [] => false,
    }
}

/// What stands at this place of some bytes.
#[inline(always)]
pub(crate) fn behind_text(bytes: &[u8], place: usize) -> Behind
    ensures { result ≡ behind_text bytes.now place }
{
    if place > bytes.len() {
        return Behind::Other;
    }
    match bytes.split_at(place).1 {
        [b'\\', b'n' | b'*' | b'$', ..] => Behind::Named,
        [b'\\', ..] => Behind::Escape,
        _ => Behind::Other,
    }
}
