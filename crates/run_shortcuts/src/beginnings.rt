//! Text that is told at once where a text line begins, and behind a byte of one.

ghost use Rattle.std.specs.Prelude.{◌≡◌, [], None, Ok, false, true};
ghost use Rattle.run_shortcuts.specs.Clauses.{LineStart, StandFor, due, going_on};
ghost use Rattle.roff_num.specs.declared.limits.Limits.{Limits as LimitsOf};
ghost use Rattle.run_model.specs.Environments.{PageHistory, interrupted_line};
ghost use Rattle.run_shortcuts.specs.Beginning.{BeginWithText, NoneGoesOn, StandsText};
ghost use Rattle.run_shortcuts.specs.Beginning.{TellsText, begins_text};
ghost use Rattle.run_shortcuts.specs.Passed.{begins_behind, line_begun};
ghost use Rattle.run_shortcuts.specs.declared.fronts.Behind.TheVariants.{Named, Untold};
ghost use Rattle.run_shortcuts.specs.declared.passed.Passed.TheVariants.{Not, On};
ghost use Rattle.read_shortcuts.specs.Runs.{IsRun, ready_allowed};
ghost use Rattle.roff_scan.specs.declared.run_kind.RunKind.TheVariants.{Text as TextRun};
ghost use Rattle.run_turns.specs.Running.Turning.{ComesOver, GoesPastOver, says_fewer};

use crate::fronts::{Behind, behind_text, take_named, tell_on};
use crate::glyphs::begin_with_glyph;
use crate::passed::Passed;
use crate::unfilled::end_line_at_once;
use page_bytes::{ByteSink, MessageSink};
use roff_scan::ByteSource;
use run_model::{LineState, Status, TextLine};
use run_turns::Running;

/// Tells a text line that stands in front where one begins, and ends it; or bytes of plain text of
/// its front, if no interrupted line goes on: as many as no limit refuses, and none that finishes a
/// line.
#[inline(always)]
pub fn begin_text_at_once<S: ByteSource, O: ByteSink, E: MessageSink>(
    run: &mut Running,
    source: &mut S,
    out: &mut O,
    err: &mut E,
) -> Result<Passed, Status>
    requires none_due { due run.old.interpreter.reader.reading ≡ None }
    requires none_half { run.old.unread.input.escapes ≡ [] }
    ensures none_due { line_begun result ≡ Ok false
        → due run.new.interpreter.reader.reading ≡ None }
    ensures none_half { line_begun result ≡ Ok false → run.new.unread.input.escapes ≡ [] }
    ensures further { ComesOver S.ByteSource O.ByteSink E.MessageSink
        (says_fewer (line_begun result)) source.old source.new out.old out.new err.old err.new
        run.old run.new (going_on (line_begun result)) }
    ensures some { run.old.interpreter.reader.reading ≡ LineStart
        → StandsText (S.ready source.old) run.old → NoneGoesOn run.old
        → result ≡ Ok Not → ⊥ }
    ensures told { run.old.interpreter.reader.reading ≡ LineStart
        → StandsText (S.ready source.old) run.old → NoneGoesOn run.old
        → result ≡ Ok On
        → TellsText (ready_allowed run.old.unread (S.ready source.old)) run.old run.new }
{
    match run.interpreter.reader.reading() {
        LineState::LineStart => begin_or_end_line(run, source, out, err),
        _ => Ok(Passed::On),
    }
}

/// Tells a text line that stands in front where one begins, and ends it, or tells its front.
#[inline(always)]
fn begin_or_end_line<S: ByteSource, O: ByteSink, E: MessageSink>(
    run: &mut Running,
    source: &mut S,
    out: &mut O,
    err: &mut E,
) -> Result<Passed, Status>
    requires begins { run.old.interpreter.reader.reading ≡ LineStart }
    requires none_half { run.old.unread.input.escapes ≡ [] }
    ensures none_due { line_begun result ≡ Ok false
        → due run.new.interpreter.reader.reading ≡ None }
    ensures none_half { line_begun result ≡ Ok false → run.new.unread.input.escapes ≡ [] }
    ensures further { ComesOver S.ByteSource O.ByteSink E.MessageSink
        (says_fewer (line_begun result)) source.old source.new out.old out.new err.old err.new
        run.old run.new (going_on (line_begun result)) }
    ensures some { StandsText (S.ready source.old) run.old → NoneGoesOn run.old
        → result ≡ Ok Not → ⊥ }
    ensures told { StandsText (S.ready source.old) run.old → NoneGoesOn run.old
        → result ≡ Ok On
        → TellsText (ready_allowed run.old.unread (S.ready source.old)) run.old run.new }
{
    match end_line_at_once(run, source, out, err) {
        Ok(Passed::Not) => Ok(begin_text_line(run, source)),
        Ok(Passed::On) => Ok(Passed::On),
        Ok(Passed::Line) => Ok(Passed::Line),
        Err(status) => Err(status),
    }
}

/// Tells bytes of plain text that stand in front where a line begins, and takes the escape of a
/// register or a string behind them. Where it tells nothing a control line may begin instead.
#[inline(always)]
fn begin_text_line<S: ByteSource>(run: &mut Running, source: &mut S) -> Passed
    requires begins { run.old.interpreter.reader.reading ≡ LineStart }
    requires none_half { run.old.unread.input.escapes ≡ [] }
    ensures none_due { due run.new.interpreter.reader.reading ≡ None }
    ensures none_half { run.new.unread.input.escapes ≡ [] }
    ensures past { GoesPastOver S.ByteSource false source.old source.new run.old run.new }
    ensures line { begins_behind result ≡ false }
    ensures some { StandsText (S.ready source.old) run.old → NoneGoesOn run.old
        → result ≡ Not → ⊥ }
    ensures told { StandsText (S.ready source.old) run.old → NoneGoesOn run.old
        → TellsText (ready_allowed run.old.unread (S.ready source.old)) run.old run.new }
{
    match begin_text(run, source) {
        Behind::Untold => Passed::Not,
        Behind::Named => {
            let _ = take_named(run, source);
            Passed::On
        }
        _ => Passed::On,
    }
}

/// Tells bytes of plain text that stand in front where a line begins, if no interrupted one goes
/// on. Returns what lies behind them, or that a control line may begin.
#[inline(always)]
fn begin_text<S: ByteSource>(run: &mut Running, source: &mut S) -> Behind
    requires begins { run.old.interpreter.reader.reading ≡ LineStart }
    requires none_half { run.old.unread.input.escapes ≡ [] }
    ensures none_due { due run.new.interpreter.reader.reading ≡ None }
    ensures none_half { run.new.unread.input.escapes ≡ [] }
    ensures prints { result ≡ Named → IsRun TextRun run.new.interpreter.reader.reading
        run.new.unread.input.escapes }
    ensures past { GoesPastOver S.ByteSource false source.old source.new run.old run.new }
    ensures some { StandsText (S.ready source.old) run.old → NoneGoesOn run.old
        → result ≡ Untold → ⊥ }
    ensures told { StandsText (S.ready source.old) run.old → NoneGoesOn run.old
        → TellsText (ready_allowed run.old.unread (S.ready source.old)) run.old run.new }
{
    let environments = &run.interpreter.formatter.composer.environments;
    match environments.interrupted_line() {
        Some(_) => Behind::Untold,
        None => begin_line(run, source),
    }
}

/// Tells bytes of plain text that stand in front where a line begins, and no interrupted one goes
/// on. Returns what lies behind them, or that a control line may begin.
#[inline(always)]
fn begin_line<S: ByteSource>(run: &mut Running, source: &mut S) -> Behind
    requires begins { run.old.interpreter.reader.reading ≡ LineStart }
    requires none_half { run.old.unread.input.escapes ≡ [] }
    requires none_goes_on { (l : LimitsOf) (h : PageHistory)
        → StandFor l h run.old.interpreter.formatter.composer → interrupted_line h ≡ None }
    ensures none_due { due run.new.interpreter.reader.reading ≡ None }
    ensures none_half { run.new.unread.input.escapes ≡ [] }
    ensures prints { result ≡ Named → IsRun TextRun run.new.interpreter.reader.reading
        run.new.unread.input.escapes }
    ensures past { GoesPastOver S.ByteSource false source.old source.new run.old run.new }
    ensures some { StandsText (S.ready source.old) run.old → result ≡ Untold → ⊥ }
    ensures told { StandsText (S.ready source.old) run.old
        → TellsText (ready_allowed run.old.unread (S.ready source.old)) run.old run.new }
{
    let front = run.unread.front(source);
    if !begin_with_text(front) {
        let instead = instead_of_text(front);
        return begin_with_glyph(run, instead, source);
    }
    let count = run.interpreter.formatter.text_front(front);
    let behind = behind_text(front, count);
    run.unread.pass(source, count);
    if count > 0 {
        run.interpreter.reader.go_on(LineState::Text(BEHIND_GLYPH));
        behind
    } else {
        Behind::Other
    }
}

/// Tells bytes of plain text that stand in front behind this byte of a text line, or tells and ends
/// the line. Returns whether they are told as far as they can be; behind a newline they are told at
/// the next turn.
#[inline(always)]
pub fn tell_behind<S: ByteSource, O: ByteSink, E: MessageSink>(
    run: &mut Running,
    byte: u8,
    source: &mut S,
    out: &mut O,
    err: &mut E,
) -> Result<bool, Status>
    ensures { ComesOver S.ByteSource O.ByteSink E.MessageSink false
        source.old source.new out.old out.new err.old err.new
        run.old run.new (going_on result) }
{
    if byte == b'\n' {
        return Ok(true);
    }
    match end_line_at_once(run, source, out, err) {
        Ok(Passed::Not) => Ok(tell_on(run, source)),
        Ok(Passed::On) => Ok(true),
        Ok(Passed::Line) => Ok(true),
        Err(status) => Err(status),
    }
}

/// A text line behind a glyph.
pub(crate) const BEHIND_GLYPH: TextLine = TextLine {
    has_glyph: true,
    has_other: false,
    has_brace: false,
    leading: 0,
};

/// What lies in front where no text line begins with a printed byte: a blank, a tab or a newline,
/// or what a control line may begin with.
#[inline(always)]
fn instead_of_text(bytes: &[u8]) -> Behind
    ensures { result ≡ Named → ⊥ }
{
    match bytes {
        [b' ', ..] => Behind::Other,
        [b'\t', ..] => Behind::Other,
        [b'\n', ..] => Behind::Other,
        _ => Behind::Untold,
    }
}

/// Whether a text line begins with the first of these bytes, and it is printed.
#[inline(always)]
pub(crate) fn begin_with_text(bytes: &[u8]) -> bool
    ensures text { result ≡ true → BeginWithText bytes.now }
    ensures other { result ≡ false → BeginWithText bytes.now → ⊥ }
{
    match bytes {
        [first, ..] => begins_text(*first),
        [] => false,
    }
}

/// Whether a text line begins with this byte, and it is printed.
#[inline(always)]
fn begins_text(byte: u8) -> bool
    ensures { result ≡ begins_text byte }
{
    byte > b' ' && byte != 127 && byte != b'\\' && byte != b'.' && byte != b'\''
}
