//! Escapes on a text line that print nothing, read at once where they stand ready.

ghost use Rattle.std.specs.Prelude.{◌≡◌, ◌≤◌, [], true, false, if◌then◌else◌, nat_lt};
ghost use Rattle.input_model.specs.Unread.{asks_to_take};
ghost use Rattle.input_source.specs.Bytes.{is_digit};
ghost use Rattle.read_shortcuts.specs.SilentEscapes.{are_argument_bytes, begins_long_size};
ghost use Rattle.read_shortcuts.specs.SilentEscapes.{behind_silent, font_escape, long_font};
ghost use Rattle.read_shortcuts.specs.SilentEscapes.{long_size, names_font, silent_behind};
ghost use Rattle.read_shortcuts.specs.SilentEscapes.{silent_escape, size_escape, takes_silent};
ghost use Rattle.read_shortcuts.specs.Runs.{ready_allowed};
ghost use Rattle.read_shortcuts.specs.Stages.{ReadsPast};
ghost use Rattle.run_model.specs.declared.line_state.LineState.TheVariants.{Text as InText};

use input_source::is_argument_byte;
use read_lines::Reader;
use roff_scan::{ByteSource, Unread};
use run_model::{LineState, PageEvent, TextLine};

/// Takes the escape of a font or a size, or another that prints nothing, if it stands whole in
/// front on a text line where nothing is half read (manual, sections 2.2 and 2.3). Returns whether
/// it did.
#[inline(always)]
pub fn take_silent_escape<S: ByteSource>(
    reader: &mut Reader,
    unread: &mut Unread<PageEvent>,
    source: &mut S,
) -> bool
    requires { unread.old.input.escapes ≡ [] }
    ensures past { ReadsPast (S.gives source.old) (S.gives source.new)
        reader.old reader.new unread.old unread.new }
    ensures reads { reader.new.reading
        ≡ (if result then behind_silent reader.old.reading else reader.old.reading) }
    ensures half { unread.new.input.escapes ≡ [] }
    ensures whole { asks_to_take unread.old ≡ true → result
        ≡ takes_silent reader.old.reading (ready_allowed unread.old (S.ready source.old)) }
    ensures notes { S.notes source.new ≤ S.notes source.old }
    ensures failures { S.failures source.new ≡ S.failures source.old }
{
    match reader.reading() {
        LineState::Text(line) => take_silent_escape_on(reader, line, unread, source),
        _ => {
            unread.stays_within();
            false
        }
    }
}

/// Takes the escape that prints nothing and stands whole in front on this text line. Returns
/// whether it did.
#[inline(always)]
fn take_silent_escape_on<S: ByteSource>(
    reader: &mut Reader,
    line: TextLine,
    unread: &mut Unread<PageEvent>,
    source: &mut S,
) -> bool
    requires half { unread.old.input.escapes ≡ [] }
    requires line { reader.old.reading ≡ InText line }
    ensures past { ReadsPast (S.gives source.old) (S.gives source.new)
        reader.old reader.new unread.old unread.new }
    ensures reads { reader.new.reading
        ≡ (if result then InText (record line { has_other = true }) else reader.old.reading) }
    ensures half { unread.new.input.escapes ≡ [] }
    ensures whole { asks_to_take unread.old ≡ true → result
        ≡ nat_lt 0 (silent_escape (ready_allowed unread.old (S.ready source.old))) }
    ensures notes { S.notes source.new ≤ S.notes source.old }
    ensures failures { S.failures source.new ≡ S.failures source.old }
{
    let length = silent_escape(unread.front(source));
    if length == 0 {
        unread.stays_within();
        return false;
    }
    unread.pass(source, length);
    unread.stays_within();
    reader.go_on(LineState::Text(TextLine {
        has_other: true,
        ..line
    }));
    true
}

/// How many bytes the escape has that stands whole in front of these and prints nothing, whatever
/// stands behind it: `\fB`, `\f(CW`, `\s0`, `\s-1`, `\s10`, `\%`, `\|` or `\^`. 0 where none does.
#[inline(always)]
pub fn silent_escape(bytes: &[u8]) -> usize
    ensures { result ≡ silent_escape bytes.now }
{
    match bytes {
        [b'\\', behind @ ..] => silent_behind(behind),
        _ => 0,
    }
}

/// How many bytes the escape has that these begin with behind its backslash.
#[inline(always)]
fn silent_behind(bytes: &[u8]) -> usize
    ensures { result ≡ silent_behind bytes.now }
{
    match bytes {
        [b'f', name @ ..] => font_escape(name),
        [b's', size @ ..] => size_escape(size),
        [b'%' | b'|' | b'^', ..] => 2,
        _ => 0,
    }
}

/// How many bytes the escape of a font has with whose name these begin.
#[inline(always)]
fn font_escape(name: &[u8]) -> usize
    ensures { result ≡ font_escape name.now }
{
    match name {
        [b'(', behind @ ..] => long_font(behind),
        [byte, ..] => length_if(names_font(*byte), 3),
        [] => 0,
    }
}

/// How many bytes the escape of a font has whose name of two bytes these begin with.
#[inline(always)]
fn long_font(name: &[u8]) -> usize
    ensures { result ≡ long_font name.now }
{
    match name {
        [first, second, ..] => length_if(are_argument_bytes(*first, *second), 5),
        _ => 0,
    }
}

/// How many bytes the escape of a size has with which these begin.
#[inline(always)]
fn size_escape(size: &[u8]) -> usize
    ensures { result ≡ size_escape size.now }
{
    match size {
        [first, behind @ ..] => {
            if begins_long_size(*first) {
                long_size(behind)
            } else {
                length_if(is_digit(*first), 3)
            }
        }
        [] => 0,
    }
}

/// How many bytes the escape of a size of two bytes has whose second one these begin with.
#[inline(always)]
fn long_size(digits: &[u8]) -> usize
    ensures { result ≡ long_size digits.now }
{
    match digits {
        [digit, ..] => length_if(is_digit(*digit), 4),
        [] => 0,
    }
}

/// This length where an escape is whole.
#[inline(always)]
fn length_if(is_whole: bool, length: usize) -> usize
    ensures { result ≡ (if is_whole then length else 0) }
{
    if is_whole { length } else { 0 }
}

/// Whether a byte is the whole name of a font.
#[inline(always)]
fn names_font(byte: u8) -> bool
    ensures { result ≡ names_font byte }
{
    is_argument_byte(byte) && byte != b'('
}

/// Whether two bytes may be a name behind a parenthesis.
#[inline(always)]
pub fn are_argument_bytes(first: u8, second: u8) -> bool
    ensures { result ≡ are_argument_bytes first second }
{
    is_argument_byte(first) && is_argument_byte(second)
}

/// Whether a second byte belongs to a size behind this one: a sign, or a digit from 1 to 3.
#[inline(always)]
fn begins_long_size(byte: u8) -> bool
    ensures { result ≡ begins_long_size byte }
{
    byte == b'+' || byte == b'-' || (byte >= b'1' && byte <= b'3')
}

/// Whether a byte is a digit.
#[inline(always)]
fn is_digit(byte: u8) -> bool
    ensures { result ≡ is_digit byte }
{
    byte >= b'0' && byte <= b'9'
}
