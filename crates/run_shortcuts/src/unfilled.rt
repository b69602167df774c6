//! Text lines that stand in front up to their newlines, and are told and ended at once, where words
//! aren't measured.

ghost use Rattle.std.specs.Prelude.{◌≡◌, ℕ, [], IfSome, None, Ok, true};
ghost use Rattle.run_shortcuts.specs.Clauses.{StandFor, Sunk, going_on, seen};
ghost use Rattle.run_shortcuts.specs.Passed.{line_begun};
ghost use Rattle.run_shortcuts.specs.declared.passed.Passed.TheVariants.{Not, On};
ghost use Rattle.roff_num.specs.declared.limits.Limits.{Limits as LimitsOf};
ghost use Rattle.run_model.specs.Environments.{PageHistory, interrupted_line};
ghost use Rattle.run_shortcuts.specs.Unfilled.{LineInFront, ReadsText};
ghost use Rattle.run_items.specs.Performing.{DoesTaking, sinks};
ghost use Rattle.run_items.specs.Unfilled.{told_as};
ghost use Rattle.run_items.specs.declared.interpreter.Interpreter.{Interpreter as InterpreterOf};
ghost use Rattle.run_events.specs.declared.formatter.Formatter.{Formatter as FormatterOf};
ghost use Rattle.run_model.specs.Reading.{byte_taking};
ghost use Rattle.run_model.specs.Run.{byte_taken};
ghost use Rattle.run_model.specs.declared.line_state.LineState.TheVariants.{Text as InText};
ghost use Rattle.run_model.specs.declared.line_state.TextLine.{TextLine as TextLineOf};
ghost use Rattle.input_source.specs.Bytes.{newline};
ghost use Rattle.page_bytes.specs.Told.{told_by};
ghost use Rattle.run_turns.specs.Running.Turning.{ComesOver, DoesItem, says_fewer};

use crate::beginnings::begin_with_text;
use crate::passed::{Passed, ended_behind};
use page_bytes::{ByteSink, MessageSink};
use roff_scan::ByteSource;
use run_events::{Halt, Sprung};
use run_items::Interpreter;
use run_model::{LineState, Status};
use run_turns::Running;

/// Tells a text line that stands in front up to its newline, ends it, and places the line that this
/// finishes, where words aren't measured. Else nothing happens.
#[inline(always)]
pub(crate) fn end_line_at_once<S: ByteSource, O: ByteSink, E: MessageSink>(
    run: &mut Running,
    source: &mut S,
    out: &mut O,
    err: &mut E,
) -> Result<Passed, Status>
    ensures ends { ComesOver S.ByteSource O.ByteSink E.MessageSink
        (says_fewer (line_begun result)) source.old source.new out.old out.new err.old err.new
        run.old run.new (going_on (line_begun result)) }
    ensures unchanged { result ≡ Ok Not → (run.new ≡ run.old) × (source.new ≡ source.old) }
    ensures sinks { result ≡ Ok Not → (out.new ≡ out.old) × (err.new ≡ err.old) }
    ensures all { result ≡ Ok On → ⊥ }
{
    if !run.interpreter.formatter.puts_lines() || run.unread.has_open_escape() {
        return Ok(Passed::Not);
    }
    end_line_in_front(run, source, out, err)
}

/// Tells and ends a text line that stands in front up to its newline, where nothing is half read.
/// Else nothing happens.
#[inline(never)]
fn end_line_in_front<S: ByteSource, O: ByteSink, E: MessageSink>(
    run: &mut Running,
    source: &mut S,
    out: &mut O,
    err: &mut E,
) -> Result<Passed, Status>
    requires none_half { run.old.unread.input.escapes ≡ [] }
    ensures ends { ComesOver S.ByteSource O.ByteSink E.MessageSink
        (says_fewer (line_begun result)) source.old source.new out.old out.new err.old err.new
        run.old run.new (going_on (line_begun result)) }
    ensures unchanged { result ≡ Ok Not → (run.new ≡ run.old) × (source.new ≡ source.old) }
    ensures sinks { result ≡ Ok Not → (out.new ≡ out.old) × (err.new ≡ err.old) }
    ensures all { result ≡ Ok On → ⊥ }
{
    let front = run.unread.front(source);
    match line_in(&run.interpreter, front) {
        None => Ok(Passed::Not),
        Some((count, gaps)) => {
            let done = run.interpreter.end_front(front, count, gaps, out);
            run.unread.pass_line(source, count);
            ended_behind(go_on_behind(run, done, out, err))
        }
    }
}

/// Goes on behind a newline that was taken, by what became of its events.
#[inline(always)]
fn go_on_behind<O: ByteSink, E: MessageSink>(
    run: &mut Running,
    done: Result<Option<Sprung>, Halt>,
    out: &mut O,
    err: &mut E,
) -> Result<(), Status>
    ensures { (failures : ℕ) (was : InterpreterOf) (told : FormatterOf) (line : TextLineOf)
        (out_old : Sunk)
        → DoesTaking (λ k. byte_taking k (InText line) run.old.unread.input newline) []
        (told_as was told (InText line)) run.old.interpreter run.old.unread run.old.unread
        (sinks out_old (told_by E.MessageSink err.old))
        (sinks (O.sunk out.old) (told_by E.MessageSink err.old)) done
        → DoesItem run.old.unread.input.line (byte_taken newline)
        (record run.old { interpreter = told_as was told (InText line) }) run.new
        (seen failures out_old (told_by E.MessageSink err.old))
        (seen failures (O.sunk out.new) (told_by E.MessageSink err.new)) result }
{
    let line = run.unread.line();
    match done {
        Ok(sprung) => run.go_on(sprung, out, err),
        Err(halt) => Err(run.halted(halt, line, line, err)),
    }
}

/// How many of these bytes in front stand before the newline of a text line that can be told and
/// ended at once, and how many gaps are among them.
#[inline(always)]
fn line_in(interpreter: &Interpreter, front: &[u8]) -> Option<(usize, u64)>
    ensures { IfSome result (λ line. LineInFront front.now line.0 line.1 interpreter.now) }
{
    if !reads_text(interpreter, front) {
        return None;
    }
    interpreter.formatter.line_in_front(front)
}

/// Whether these bytes in front are read as those of a text line, behind a glyph or from the first
/// one on.
#[inline(always)]
fn reads_text(interpreter: &Interpreter, front: &[u8]) -> bool
    ensures { result ≡ true → ReadsText front.now interpreter.now }
{
    match interpreter.reader.reading() {
        LineState::Text(line) => line.has_glyph && line.leading == 0,
        LineState::LineStart => begin_with_text(front) && begins_line(interpreter),
        _ => false,
    }
}

/// Whether no interrupted line goes on.
#[inline(always)]
fn begins_line(interpreter: &Interpreter) -> bool
    ensures { result ≡ true → (l : LimitsOf) (h : PageHistory)
        → StandFor l h interpreter.now.formatter.composer → interrupted_line h ≡ None }
{
    match interpreter
        .formatter
        .composer
        .environments
        .interrupted_line()
    {
        Some(_) => false,
        None => true,
    }
}
