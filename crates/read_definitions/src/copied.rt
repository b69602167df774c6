//! Lines of a definition, and ignored ones, that are copied together as they stand.

ghost use Rattle.std.specs.Prelude.{◌≡◌, ◌≤◌, ◌+◌, ◌&&◌, ◌==◌, ◌∷◌, [], ℕ, false, length, take};
ghost use Rattle.std.specs.Prelude.{true};
ghost use Rattle.input_model.specs.Unread.{asks_to_take};
ghost use Rattle.input_escapes.specs.EscapeLaws.{begins_reading};
ghost use Rattle.input_source.specs.Bytes.{backslash, dot, is_text_byte};
ghost use Rattle.read_definitions.specs.CopiedLines.{Copies, CopiesFirst, CopiesOn, CopiesSome};
ghost use Rattle.read_definitions.specs.CopiedLines.{CopiesTo, is_doubled};
ghost use Rattle.read_definitions.specs.CopiedLines.{TakesLines, goes_on_behind_dot, is_behind_dot};
ghost use Rattle.read_definitions.specs.CopiedLines.{is_copied_byte, is_dot, is_kept_escape};
ghost use Rattle.read_definitions.specs.CopiedLines.{is_space, keeps_escape, kept_of};
ghost use Rattle.read_definitions.specs.CopiedLines.{lines_at, lines_read, matched_at};
ghost use Rattle.read_definitions.specs.CopiedLines.{reads_lines, second_of_mark};
ghost use Rattle.read_shortcuts.specs.Stages.{ReadsPast};
ghost use Rattle.run_model.specs.declared.line_state.LineState.TheVariants.{Collecting};

use read_lines::Reader;
use roff_num::ShortName;
use roff_scan::{ByteSource, Unread, text_in_front};
use run_model::{LineState, PageEvent, Purpose};

/// Lines of a definition, as they are read: what gets them, if anything does, whether they are put
/// behind that, the name that the last line has, and whether a line begins.
#[derive(Clone, Copy)]
struct Lines {
    name: Option<ShortName>,
    appends: bool,
    end: Option<ShortName>,
    begins: bool,
}

/// Takes bytes together that stand ready where the lines of a definition are read, or ignored ones,
/// and are copied: as they stand, up to a line that may be the last one, or an escape that isn't
/// kept; and two backslashes behind them as one. Returns whether it did.
#[inline(never)]
pub fn take_lines<S: ByteSource>(
    reader: &mut Reader,
    unread: &mut Unread<PageEvent>,
    source: &mut S,
) -> bool
    ensures past { ReadsPast (S.gives source.old) (S.gives source.new)
        reader.old reader.new unread.old unread.new }
    ensures on { result ≡ true → CopiesOn reader.old reader.new unread.old unread.new }
    ensures unchanged { result ≡ false
        → (reader.new ≡ reader.old) × (unread.new ≡ unread.old) }
    ensures whole { (lines : Lines) → reader.old.reading ≡ reads_lines lines
        → unread.old.input.escapes ≡ [] → asks_to_take unread.old ≡ true
        → TakesLines lines (S.ready source.old) unread.old unread.new }
    ensures notes { S.notes source.new ≤ S.notes source.old }
    ensures failures { S.failures source.new ≡ S.failures source.old }
{
    match lines_read(reader.reading()) {
        Some(lines) => copy_lines(reader, lines, unread, source),
        None => {
            unread.stays_within();
            false
        }
    }
}

/// Takes bytes together that stand ready where these lines are read, and are copied. Returns
/// whether it did.
#[inline(always)]
fn copy_lines<S: ByteSource>(
    reader: &mut Reader,
    lines: Lines,
    unread: &mut Unread<PageEvent>,
    source: &mut S,
) -> bool
    requires reads { reader.old.reading ≡ reads_lines lines }
    ensures past { ReadsPast (S.gives source.old) (S.gives source.new)
        reader.old reader.new unread.old unread.new }
    ensures on { result ≡ true → CopiesOn reader.old reader.new unread.old unread.new }
    ensures unchanged { result ≡ false
        → (reader.new ≡ reader.old) × (unread.new ≡ unread.old) }
    ensures whole { unread.old.input.escapes ≡ [] → asks_to_take unread.old ≡ true
        → TakesLines lines (S.ready source.old) unread.old unread.new }
    ensures notes { S.notes source.new ≤ S.notes source.old }
    ensures failures { S.failures source.new ≡ S.failures source.old }
{
    unread.stays_within();
    if unread.has_open_escape() {
        return false;
    }
    if !unread.is_none_ahead() {
        return false;
    }
    let second = second_of_mark(lines.end);
    let (text, count, begins) = piece_len(unread.front(source), second, lines.begins);
    if count == 0 {
        return false;
    }
    let kept = kept_of(lines.name, text);
    if unread.is_store_full(kept) {
        return false;
    }
    unread.copy_front(source, kept, count);
    unread.stays_within();
    reader.go_on(reads_lines(Lines {
        name: lines.name,
        appends: lines.appends,
        end: lines.end,
        begins,
    }));
    true
}

/// The lines that are read, if the lines of a definition are, and none of the last one's mark was.
#[inline(always)]
fn lines_read(reading: LineState) -> Option<Lines>
    ensures { result ≡ lines_read reading }
{
    match reading {
        LineState::Collecting(purpose) => lines_for(purpose),
        _ => None,
    }
}

/// The lines that are collected for this, if none of the last one's mark was read.
#[inline(always)]
fn lines_for(purpose: Purpose) -> Option<Lines>
    ensures { result ≡ lines_read (Collecting purpose) }
{
    match purpose {
        Purpose::Defining {
            name,
            appends,
            end,
            matched,
        } => lines_at(name, appends, end, matched),
        _ => None,
    }
}

/// The lines of a definition, where so many bytes of the mark were read, if that is none.
#[inline(always)]
fn lines_at(
    name: Option<ShortName>,
    appends: bool,
    end: Option<ShortName>,
    matched: Option<u8>,
) -> Option<Lines>
    ensures { result ≡ lines_at name appends end matched }
{
    match matched {
        None => Some(Lines {
            name,
            appends,
            end,
            begins: false,
        }),
        Some(matched) => {
            if matched == 0 {
                Some(Lines {
                    name,
                    appends,
                    end,
                    begins: true,
                })
            } else {
                None
            }
        }
    }
}

/// What is read where these lines are.
#[inline(always)]
fn reads_lines(lines: Lines) -> LineState
    ensures { result ≡ reads_lines lines }
{
    LineState::Collecting(Purpose::Defining {
        name: lines.name,
        appends: lines.appends,
        end: lines.end,
        matched: matched_at(lines.begins),
    })
}

/// How many bytes of the mark stand in front of a line, where it begins: none.
#[inline(always)]
fn matched_at(begins: bool) -> Option<u8>
    ensures { result ≡ matched_at begins }
{
    if begins { Some(0) } else { None }
}

/// The second byte of the mark of the line that ends a definition.
#[inline(always)]
fn second_of_mark(end: Option<ShortName>) -> u8
    ensures { result ≡ second_of_mark end }
{
    match end {
        None => b'.',
        Some(name) => name.first,
    }
}

/// How many of so many bytes are kept: none if no name gets them.
#[inline(always)]
fn kept_of(name: Option<ShortName>, count: usize) -> usize
    ensures { result ≡ kept_of name count }
{
    match name {
        None => 0,
        Some(_) => count,
    }
}

/// How long the text is as which the first of these bytes are copied, how many these are, and
/// whether a line begins behind them: all that are copied as they stand, and two backslashes behind
/// them as one.
#[inline(always)]
fn piece_len(bytes: &[u8], second: u8, begins: bool) -> (usize, usize, bool)
    ensures { CopiesTo second begins bytes.now result.2 result.0 result.1 }
{
    let (count, last) = copied_len(bytes, second, begins);
    if is_doubled(bytes.split_at(count).1) {
        return (count + 1, count + 2, false);
    }
    (count, count, last)
}

/// Whether these bytes begin with two backslashes.
#[inline(always)]
fn is_doubled(bytes: &[u8]) -> bool
    ensures { result ≡ is_doubled bytes.now }
{
    matches!(bytes, [b'\\', b'\\', ..])
}

/// How many of these bytes are copied as they stand, from where a line begins or from within one,
/// and whether a line begins behind them.
#[inline(always)]
fn copied_len(bytes: &[u8], second: u8, begins: bool) -> (usize, bool)
    ensures { CopiesFirst second begins result.1 result.0 bytes.now }
{
    let mut count = 0;
    let mut last = begins;
    while count < bytes.len() {
        let (more, next) = part_len(bytes.split_at(count).1, second, last);
        if more == 0 {
            return (count, last);
        }
        count += more;
        last = next;
    }
    (count, last)
}

/// How many bytes of the first part of these are copied, and whether a line begins behind them: of
/// a run of plain text, a tab, a newline, an escape that is kept, or a dot where a line begins and
/// the byte behind it.
#[inline(always)]
fn part_len(bytes: &[u8], second: u8, begins: bool) -> (usize, bool)
    ensures { CopiesSome second begins result.1 result.0 bytes.now }
{
    match bytes.split_first() {
        None => (0, begins),
        Some((first, rest)) => {
            if is_dot(begins, *first) {
                return dotted_len(rest, second);
            }
            if *first == b'\\' {
                return escape_len(rest, begins);
            }
            if is_space(*first) {
                return (1, *first == b'\n');
            }
            let count = text_in_front(bytes);
            (count, begins && count == 0)
        }
    }
}

/// How many bytes are copied of a dot with which a line begins and of the byte behind it, the first
/// of these, and whether a line begins behind them.
#[inline(always)]
fn dotted_len(rest: &[u8], second: u8) -> (usize, bool)
    ensures few { result.0 ≤ length rest.now + 1 }
    ensures copies { Copies second true (take result.0 (dot ∷ rest.now)) result.1 }
    ensures none { result.0 ≡ 0 → goes_on_behind_dot second rest.now ≡ false }
{
    match rest.split_first() {
        None => (0, true),
        Some((next, _)) => {
            if is_behind_dot(second, *next) {
                (2, *next == b'\n')
            } else {
                (0, true)
            }
        }
    }
}

/// How many bytes are copied of a backslash and of the byte behind it, the first of these, and
/// whether a line begins behind them.
#[inline(always)]
fn escape_len(rest: &[u8], begins: bool) -> (usize, bool)
    ensures few { result.0 ≤ length rest.now + 1 }
    ensures copies { (second : ℕ) → Copies second begins (take result.0 (backslash ∷ rest.now))
        result.1 }
    ensures none { result.0 ≡ 0 → keeps_escape rest.now ≡ false }
{
    match rest.split_first() {
        None => (0, begins),
        Some((next, _)) => {
            if is_kept_escape(*next) {
                (2, false)
            } else {
                (0, begins)
            }
        }
    }
}

/// Whether copy mode keeps the escape of a byte with its backslash.
#[inline(always)]
fn is_kept_escape(byte: u8) -> bool
    ensures { result ≡ is_kept_escape byte }
{
    is_text_byte(byte) && !(begins_reading(byte) || (byte == b'.' || byte == b't'))
}

/// Whether the byte behind a backslash begins something to be read: a name, a width or a comment.
#[inline(always)]
fn begins_reading(byte: u8) -> bool
    ensures { result ≡ begins_reading byte }
{
    matches!(byte, b'n' | b'*' | b'$' | b'w' | b'"')
}

/// Whether a byte is a dot where a line begins.
#[inline(always)]
fn is_dot(begins: bool, byte: u8) -> bool
    ensures { result ≡ is_dot begins byte }
{
    begins && byte == b'.'
}

/// Whether a byte is copied behind a dot with which a line begins.
#[inline(always)]
fn is_behind_dot(second: u8, byte: u8) -> bool
    ensures { result ≡ is_behind_dot second byte }
{
    byte != second && is_copied_byte(byte)
}

/// Whether a byte is a newline or a tab.
#[inline(always)]
fn is_space(byte: u8) -> bool
    ensures { result ≡ is_space byte }
{
    byte == b'\n' || byte == b'\t'
}

/// Whether a byte is copied as it stands, wherever it stands in a line.
#[inline(always)]
fn is_copied_byte(byte: u8) -> bool
    ensures { result ≡ is_copied_byte byte }
{
    is_text_byte(byte) || is_space(byte)
}

/// Whether a byte is one of plain text.
#[inline(always)]
fn is_text_byte(byte: u8) -> bool
    ensures { result ≡ is_text_byte byte }
{
    byte >= b' ' && byte != 127 && byte != b'\\'
}
