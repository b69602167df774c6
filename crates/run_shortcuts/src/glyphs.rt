//! Glyphs of a text line that escapes print, told at once, and escapes that print nothing.

ghost use Rattle.std.specs.Prelude.{◌≡◌, [], None, false};
ghost use Rattle.std.specs.Option.{option_copied};
ghost use Rattle.run_state.specs.Composer.Standing.{StandFor};
ghost use Rattle.roff_num.specs.declared.limits.Limits.{Limits as LimitsOf};
ghost use Rattle.run_model.specs.Environments.{PageHistory, interrupted_line};
ghost use Rattle.run_model.specs.Reading.Ends.{due};
ghost use Rattle.run_model.specs.declared.line_state.LineState.TheVariants.{LineStart};
ghost use Rattle.read_shortcuts.specs.Runs.{IsRun};
ghost use Rattle.read_shortcuts.specs.Glyphs.{glyph_in_front, glyph_of_letter, glyph_of_name};
ghost use Rattle.read_shortcuts.specs.Glyphs.{is_behind_glyph, named_glyph, only_glyph};
ghost use Rattle.read_shortcuts.specs.Glyphs.{with_length};
ghost use Rattle.roff_scan.specs.declared.run_kind.RunKind.TheVariants.{Text as TextRun};
ghost use Rattle.run_turns.specs.Running.Turning.{GoesPastOver};
ghost use Rattle.run_shortcuts.specs.declared.fronts.Behind.TheVariants.{Named};

use crate::beginnings::BEHIND_GLYPH;
use crate::fronts::{Behind, read_escape, read_named, tell_front};
use input_escapes::character;
use page_model::Glyph;
use read_shortcuts::{are_argument_bytes, silent_escape, take_silent_escape};
use roff_scan::ByteSource;
use run_model::{LineState, TextLine};
use run_turns::Running;

/// A text line behind an escape alone that prints nothing.
const BEHIND_FIRST_SILENT: TextLine = TextLine {
    has_glyph: false,
    has_other: true,
    has_brace: false,
    leading: 0,
};

/// So many glyphs are told one behind another at the most, each with the text behind it.
const MOST_GLYPHS: u32 = 64;

/// Tells the glyphs whose escapes stand in front, and takes escapes that print nothing, with the
/// plain text behind each. Returns what lies behind them.
#[inline(never)]
fn tell_glyphs<S: ByteSource>(run: &mut Running, source: &mut S) -> Behind
    requires { IsRun TextRun run.old.interpreter.reader.reading run.old.unread.input.escapes }
    ensures past { GoesPastOver S.ByteSource false source.old source.new run.old run.new }
    ensures run { IsRun TextRun run.new.interpreter.reader.reading
        run.new.unread.input.escapes }
{
    let mut left = MOST_GLYPHS;
    while left > 0 {
        left -= 1;
        if !tell_escape(run, source) {
            return Behind::Escape;
        }
        match tell_front(run, source) {
            Behind::Escape => {}
            behind => return behind,
        }
    }
    Behind::Escape
}

/// Tells glyphs whose escapes stand in front, with the text behind them, and then takes or reads
/// what stands behind these.
#[inline(always)]
pub(crate) fn tell_line_behind<S: ByteSource>(run: &mut Running, source: &mut S) -> bool
    requires { IsRun TextRun run.old.interpreter.reader.reading run.old.unread.input.escapes }
    ensures { GoesPastOver S.ByteSource result source.old source.new run.old run.new }
{
    match tell_glyphs(run, source) {
        Behind::Untold => false,
        Behind::Other => false,
        Behind::Escape => read_escape(run, source),
        Behind::Named => read_named(run, source),
    }
}

/// Tells glyphs whose escapes stand in front, with the text behind them, and then takes or reads
/// what stands behind these. Returns whether no escape does.
#[inline(always)]
pub(crate) fn tell_text_behind<S: ByteSource>(run: &mut Running, source: &mut S) -> bool
    requires { IsRun TextRun run.old.interpreter.reader.reading run.old.unread.input.escapes }
    ensures { GoesPastOver S.ByteSource false source.old source.new run.old run.new }
{
    match tell_glyphs(run, source) {
        Behind::Untold => true,
        Behind::Other => true,
        Behind::Escape => {
            let _ = read_escape(run, source);
            false
        }
        Behind::Named => {
            let _ = read_named(run, source);
            false
        }
    }
}

/// Tells the glyph whose escape stands in front, or takes an escape that prints nothing. Returns
/// whether it did.
#[inline(always)]
fn tell_escape<S: ByteSource>(run: &mut Running, source: &mut S) -> bool
    requires { IsRun TextRun run.old.interpreter.reader.reading run.old.unread.input.escapes }
    ensures past { GoesPastOver S.ByteSource false source.old source.new run.old run.new }
    ensures run { IsRun TextRun run.new.interpreter.reader.reading
        run.new.unread.input.escapes }
{
    if tell_glyph(run, source) {
        return true;
    }
    pass_silent(run, source)
}

/// Takes an escape that prints nothing and stands whole in front behind a glyph. Returns whether it
/// did.
#[inline(always)]
fn pass_silent<S: ByteSource>(run: &mut Running, source: &mut S) -> bool
    requires { IsRun TextRun run.old.interpreter.reader.reading run.old.unread.input.escapes }
    ensures past { GoesPastOver S.ByteSource false source.old source.new run.old run.new }
    ensures run { IsRun TextRun run.new.interpreter.reader.reading
        run.new.unread.input.escapes }
{
    if !is_behind_glyph(run) {
        return false;
    }
    take_silent_escape(&mut run.interpreter.reader, &mut run.unread, source)
}

/// Tells the glyph whose escape stands in front. Returns whether it did: behind a glyph of a text
/// line, where no limit refuses it, and no page begins with it.
#[inline(always)]
fn tell_glyph<S: ByteSource>(run: &mut Running, source: &mut S) -> bool
    requires { IsRun TextRun run.old.interpreter.reader.reading run.old.unread.input.escapes }
    ensures past { GoesPastOver S.ByteSource false source.old source.new run.old run.new }
    ensures half { run.new.unread.input.escapes ≡ run.old.unread.input.escapes }
    ensures reads { run.new.interpreter.reader ≡ run.old.interpreter.reader }
{
    if !is_behind_glyph(run) {
        return false;
    }
    match glyph_in_front(run.unread.front(source)) {
        None => false,
        Some((glyph, length)) => {
            if !run.interpreter.formatter.tell_glyph(glyph) {
                return false;
            }
            run.unread.pass(source, length);
            true
        }
    }
}

/// Tells the glyph whose escape stands in front where a line begins, and what [`tell_glyphs`] does
/// behind it; or takes an escape that prints nothing and stands there. Returns what lies behind
/// that, or this where neither stands there.
#[inline(never)]
pub(crate) fn begin_with_glyph<S: ByteSource>(
    run: &mut Running,
    instead: Behind,
    source: &mut S,
) -> Behind
    requires begins { run.old.interpreter.reader.reading ≡ LineStart }
    requires none_half { run.old.unread.input.escapes ≡ [] }
    requires none_goes_on { (l : LimitsOf) (h : PageHistory)
        → StandFor l h run.old.interpreter.formatter.composer → interrupted_line h ≡ None }
    requires instead { instead ≡ Named → ⊥ }
    ensures none_due { due run.new.interpreter.reader.reading ≡ None }
    ensures none_half { run.new.unread.input.escapes ≡ [] }
    ensures prints { result ≡ Named → IsRun TextRun run.new.interpreter.reader.reading
        run.new.unread.input.escapes }
    ensures past { GoesPastOver S.ByteSource false source.old source.new run.old run.new }
{
    match glyph_in_front(run.unread.front(source)) {
        None => begin_behind_silent(run, instead, source),
        Some((glyph, length)) => {
            if !run.interpreter.formatter.tell_glyph(glyph) {
                return Behind::Other;
            }
            run.unread.pass(source, length);
            run.interpreter.reader.go_on(LineState::Text(BEHIND_GLYPH));
            tell_behind_glyph(run, source)
        }
    }
}

/// Takes an escape that prints nothing and stands in front where a line begins. Returns that
/// nothing was looked at behind it, or this where none stands there.
#[inline(always)]
fn begin_behind_silent<S: ByteSource>(run: &mut Running, instead: Behind, source: &mut S) -> Behind
    requires begins { run.old.interpreter.reader.reading ≡ LineStart }
    requires none_half { run.old.unread.input.escapes ≡ [] }
    requires none_goes_on { (l : LimitsOf) (h : PageHistory)
        → StandFor l h run.old.interpreter.formatter.composer → interrupted_line h ≡ None }
    requires instead { instead ≡ Named → ⊥ }
    ensures none_due { due run.new.interpreter.reader.reading ≡ None }
    ensures none_half { run.new.unread.input.escapes ≡ [] }
    ensures named { result ≡ Named → ⊥ }
    ensures past { GoesPastOver S.ByteSource false source.old source.new run.old run.new }
{
    let length = silent_escape(run.unread.front(source));
    if length == 0 {
        return instead;
    }
    run.unread.pass(source, length);
    run.interpreter
        .reader
        .go_on(LineState::Text(BEHIND_FIRST_SILENT));
    Behind::Other
}

/// Tells plain text, and glyphs that escapes print, with the text behind them, and takes escapes
/// that print nothing. Returns what lies behind them.
#[inline(always)]
fn tell_behind_glyph<S: ByteSource>(run: &mut Running, source: &mut S) -> Behind
    requires { IsRun TextRun run.old.interpreter.reader.reading run.old.unread.input.escapes }
    ensures past { GoesPastOver S.ByteSource false source.old source.new run.old run.new }
    ensures run { IsRun TextRun run.new.interpreter.reader.reading
        run.new.unread.input.escapes }
{
    match tell_front(run, source) {
        Behind::Untold => Behind::Other,
        Behind::Other => Behind::Other,
        Behind::Named => Behind::Named,
        Behind::Escape => match tell_glyphs(run, source) {
            Behind::Untold => Behind::Other,
            behind => behind,
        },
    }
}

/// Whether a text line goes on behind a glyph.
#[inline(always)]
fn is_behind_glyph(run: &Running) -> bool
    ensures { result ≡ is_behind_glyph run.now.interpreter.reader.reading }
{
    match run.interpreter.reader.reading {
        LineState::Text(line) => line.has_glyph && line.leading == 0,
        _ => false,
    }
}

/// The glyph whose escape these bytes begin with, if they begin with a whole one, and how many
/// bytes it has.
#[inline(always)]
fn glyph_in_front(bytes: &[u8]) -> Option<(Glyph, usize)>
    ensures { result ≡ glyph_in_front bytes.now }
{
    match bytes {
        [b'\\', b'(', name @ ..] => with_length(named_glyph(name), 4),
        [b'\\', letter, ..] => with_length(glyph_of_letter(*letter), 2),
        _ => None,
    }
}

/// A glyph, and how many bytes its escape has.
#[inline(always)]
fn with_length(glyph: Option<Glyph>, length: usize) -> Option<(Glyph, usize)>
    ensures { result ≡ with_length glyph length }
{
    match glyph {
        Some(glyph) => Some((glyph, length)),
        None => None,
    }
}

/// The glyph of the character with whose name these bytes begin, if it prints one alone.
#[inline(always)]
fn named_glyph(name: &[u8]) -> Option<Glyph>
    ensures { result ≡ named_glyph name.now }
{
    match name {
        [first, second, ..] => glyph_of_name(*first, *second),
        _ => None,
    }
}

/// The glyph of the character that has these two bytes as its name, if it prints one alone.
fn glyph_of_name(first: u8, second: u8) -> Option<Glyph>
    ensures { result ≡ glyph_of_name first second }
{
    if !are_argument_bytes(first, second) {
        return None;
    }
    only_glyph(character(&[first, second]))
}

/// The glyph that a character's text is, if it has one byte.
#[inline(always)]
fn only_glyph(text: Option<&[u8]>) -> Option<Glyph>
    ensures { result ≡ only_glyph (option_copied text.entry) }
{
    match text {
        Some([byte]) => Some(Glyph::Printed(*byte)),
        _ => None,
    }
}

/// The glyph that this letter prints behind a backslash, if it prints one that is told at once.
#[inline(always)]
fn glyph_of_letter(letter: u8) -> Option<Glyph>
    ensures { result ≡ glyph_of_letter letter }
{
    match letter {
        b' ' => Some(Glyph::Blanks(1)),
        b'0' => Some(Glyph::Blanks(1)),
        b'&' => Some(Glyph::Blanks(0)),
        b'e' => Some(Glyph::Printed(b'\\')),
        b'\\' => Some(Glyph::Printed(b'\\')),
        b'-' => Some(Glyph::Printed(b'-')),
        b'.' => Some(Glyph::Printed(b'.')),
        b'\'' => Some(Glyph::Printed(b'\'')),
        b'`' => Some(Glyph::Printed(b'`')),
        _ => None,
    }
}
