//! What the lines of a table's data are (Lesk, "Tbl": Data).

ghost use Rattle.std.specs.Prelude.{◌≡◌, ◌==◌, ◌&&◌, not, drop, [], ◌∷◌, if◌then◌else◌};
ghost use Rattle.input_source.specs.Bytes.{backslash};
ghost use Rattle.tbl_layout.specs.Data.{fields, is_command};
ghost use Rattle.tbl_layout.specs.DataLines.{begins_format, behind_first};
ghost use Rattle.input_source.specs.Bytes.{behind_blanks};
ghost use Rattle.tbl_layout.specs.DataLines.{block_kind_ends_row, block_line_kind, ends_in_block};
ghost use Rattle.tbl_layout.specs.DataLines.{ends_row, field_kind, is_repeated, kind_ends_row};
ghost use Rattle.tbl_layout.specs.DataLines.{kind_under};
ghost use Rattle.tbl_layout.specs.DataLines.{line_kind, opens_block, other_line_kind, sign_byte};
ghost use Rattle.tbl_layout.specs.declared.data_lines.FieldKind.TheVariants.{Repeated, Text};
ghost use Rattle.tbl_layout.specs.Widths.{width_in_text};

use crate::data::{field_len, is_opening};
use crate::rule_keys::kind_of_key;
use crate::widths::width_in_text;
use memchr::memrchr;
use tbl_format::format::Key;

/// What a rule is drawn with.
#[derive(Clone, Copy)]
pub enum RuleSign {
    /// A single line, `-`.
    Single,
    /// A double one, `=`.
    Double,
}

/// What a whole line of the data is, where no text block is open.
#[derive(Clone, Copy)]
pub enum LineKind {
    /// A rule over the whole table: `_` or `=` alone.
    Rule(RuleSign),
    /// `.T&`: a further format follows.
    Formats,
    /// A command.
    Command,
    /// A row, or the first line of one.
    Row,
}

/// What a field is.
#[derive(Clone, Copy)]
pub enum FieldKind {
    /// A text.
    Text,
    /// A rule over its column: `_` or `=` alone.
    Ruled(RuleSign),
    /// `\_`: a rule as wide as the widest text of its column.
    Short,
    /// `\R` and a byte of one column: that is repeated over its column.
    Repeated(u8),
    /// `\^`: the field above goes on.
    Above,
}

/// What a whole line is, where a text block is open.
#[derive(Clone, Copy)]
pub enum BlockLineKind {
    /// `T}`: the block ends, and fields may follow.
    End,
    /// A request.
    Request,
    /// A line of its text.
    Text,
}

/// What a whole line is, where no text block is open.
pub fn line_kind(line: &[u8]) -> LineKind
    ensures { result ≡ line_kind line.now }
{
    match line {
        [b'_'] => LineKind::Rule(RuleSign::Single),
        [b'='] => LineKind::Rule(RuleSign::Double),
        _ => other_line_kind(line),
    }
}

/// What a line is that is no rule.
fn other_line_kind(line: &[u8]) -> LineKind
    ensures { result ≡ other_line_kind line.now }
{
    if begins_format(line) {
        return LineKind::Formats;
    }
    if is_command(line) {
        LineKind::Command
    } else {
        LineKind::Row
    }
}

/// Whether a line is `.T&`.
fn begins_format(line: &[u8]) -> bool
    ensures { result ≡ begins_format line.now }
{
    match line {
        [b'.', b'T', b'&'] => true,
        [b'.', b'T', b'&', byte, ..] => *byte == b' ' || *byte == b'\t',
        _ => false,
    }
}

/// Whether a line is a command: it begins with a dot, and no digit follows.
fn is_command(line: &[u8]) -> bool
    ensures { result ≡ is_command line.now }
{
    match line {
        [b'.', byte, ..] => !byte.is_ascii_digit(),
        [b'.'] => true,
        _ => false,
    }
}

/// What a whole line is, where a text block is open.
pub fn block_line_kind(line: &[u8]) -> BlockLineKind
    ensures { result ≡ block_line_kind line.now }
{
    match line {
        [b'T', b'}', ..] => BlockLineKind::End,
        [b'.', ..] => BlockLineKind::Request,
        _ => BlockLineKind::Text,
    }
}

/// What a field is.
pub fn field_kind(field: &[u8]) -> FieldKind
    ensures { result ≡ field_kind field.now }
{
    match field {
        [b'_'] => FieldKind::Ruled(RuleSign::Single),
        [b'='] => FieldKind::Ruled(RuleSign::Double),
        [b'\\', b'_'] => FieldKind::Short,
        [b'\\', b'^'] => FieldKind::Above,
        [b'\\', b'R', byte] => repeated_kind(*byte),
        _ => FieldKind::Text,
    }
}

/// What a field is under a key: a rule key and `^` take it, whatever it is.
pub fn kind_under(key: Key, field: &[u8]) -> FieldKind
    ensures { result ≡ kind_under key field.now }
{
    match kind_of_key(key) {
        Some(kind) => kind,
        None => field_kind(field),
    }
}

/// What `\R` and a byte are.
fn repeated_kind(byte: u8) -> FieldKind
    ensures { result ≡ (if is_repeated (byte ∷ []) then Repeated byte else Text) }
{
    if is_repeated(byte) {
        FieldKind::Repeated(byte)
    } else {
        FieldKind::Text
    }
}

/// The byte that a rule is drawn with.
pub fn sign_byte(sign: RuleSign) -> u8
    ensures { result ≡ sign_byte sign }
{
    match sign {
        RuleSign::Single => b'-',
        RuleSign::Double => b'=',
    }
}

/// Whether a byte behind `\R` is repeated: it has one column.
fn is_repeated(byte: u8) -> bool
    ensures { result ≡ (width_in_text byte == 1 && not (byte == backslash)) }
{
    width_in_text(byte) == 1 && byte != b'\\'
}

/// Whether a field opens a text block: it is `T{`, with blanks around it or without.
pub fn opens_block(field: &[u8]) -> bool
    ensures { result ≡ opens_block field.now }
{
    is_opening(behind_blanks(field))
}

/// A text behind the blanks at its front.
fn behind_blanks(text: &[u8]) -> &[u8]
    ensures { result.now ≡ behind_blanks text.now }
{
    for at in 0..text.len() {
        if text[at] != b' ' {
            return &text[at..];
        }
    }
    &text[text.len()..]
}

/// Whether the last field of a text opens a text block.
pub fn ends_in_block(separator: u8, text: &[u8]) -> bool
    ensures { result ≡ ends_in_block (fields separator text.now) }
{
    match memrchr(separator, text) {
        Some(at) => opens_block(&text[at + 1..]),
        None => opens_block(text),
    }
}

/// Whether a row or a command ends with a whole line; in a text block or not.
pub fn ends_row(is_in_block: bool, separator: u8, line: &[u8]) -> bool
    ensures { result ≡ ends_row is_in_block separator line.now }
{
    if is_in_block {
        block_line_ends_row(separator, line)
    } else {
        line_ends_row(separator, line)
    }
}

/// Whether a row or a command ends with a whole line, where no text block is open.
fn line_ends_row(separator: u8, line: &[u8]) -> bool
    ensures { result ≡ kind_ends_row (line_kind line.now) separator line.now }
{
    match line_kind(line) {
        LineKind::Rule(_) => true,
        LineKind::Formats => false,
        LineKind::Command => true,
        LineKind::Row => !ends_in_block(separator, line),
    }
}

/// Whether a row ends with a whole line, where a text block is open: it closes that, and opens no
/// other.
fn block_line_ends_row(separator: u8, line: &[u8]) -> bool
    ensures { result ≡ block_kind_ends_row (block_line_kind line.now) separator line.now }
{
    match line {
        [b'T', b'}', rest @ ..] => !opens_behind_first(separator, rest),
        _ => false,
    }
}

/// Whether the last of the fields behind the first opens a text block.
fn opens_behind_first(separator: u8, text: &[u8]) -> bool
    ensures { result ≡ ends_in_block (behind_first (fields separator text.now)) }
{
    let len = field_len(separator, text);
    if len < text.len() {
        return ends_in_block(separator, &text[len + 1..]);
    }
    false
}
