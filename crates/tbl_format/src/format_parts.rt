//! What a byte of a format does in each part of a row (Lesk, "Tbl": Format).

ghost use Rattle.std.specs.Prelude.{◌≡◌, ◌≤◌, ◌+◌, length};
ghost use Rattle.tbl_format.specs.FormatSteps.{again, among_keys, among_others, at_closing};
ghost use Rattle.tbl_format.specs.FormatSteps.{at_font, at_macro, at_size, at_width, behind};
ghost use Rattle.tbl_format.specs.FormatSteps.{behind_font, behind_key, behind_macro, between};
ghost use Rattle.tbl_format.specs.FormatSteps.{columns_of, fault, in_brackets, in_font};
ghost use Rattle.tbl_format.specs.FormatSteps.{in_macro, in_number, in_width_digits, signed, sized};
ghost use Rattle.tbl_format.specs.FormatSteps.{to, width_of};
ghost use Rattle.tbl_format.specs.Format.{greater};

use crate::format::{FormatPlace, RowPart, Standing, is_between, key_of, separates_rows};
use crate::format_step::{Does, FormatStep};
use roff_num::{Scale, eval, round_h};
use tbl_options::option_words::as_small;

/// Keys, bars, and the ends of rows and of the format.
pub(crate) fn among_keys(byte: u8) -> FormatStep
    ensures { result ≡ among_keys byte }
{
    match key_of(byte) {
        Some(key) => FormatStep::behind(Does::AddKey(key)),
        None => among_others(byte),
    }
}

/// All of these but keys.
pub(crate) fn among_others(byte: u8) -> FormatStep
    ensures { result ≡ among_others byte }
{
    if is_between(byte) {
        return FormatStep::between(Does::Nothing);
    }
    if separates_rows(byte) {
        return FormatStep::between(Does::EndRow);
    }
    match byte {
        b'|' => FormatStep::between(Does::AddBar),
        b'.' => FormatStep {
            place: FormatPlace::AtEnd,
            does: Does::EndFormat,
            is_again: false,
        },
        _ => FormatStep::fault(),
    }
}

/// Numbers and letters, which stand behind a key alone.
pub(crate) fn behind_key(byte: u8) -> FormatStep
    ensures { result ≡ behind_key byte }
{
    if byte.is_ascii_digit() {
        return FormatStep::to(RowPart::Number(u32::from(byte - b'0')));
    }
    if is_between(byte) {
        return FormatStep::behind(Does::Nothing);
    }
    match as_small(byte) {
        b'w' => FormatStep::to(RowPart::AtWidth),
        b'e' => FormatStep::behind(Does::Equalize),
        b'z' => FormatStep::behind(Does::DropWidth),
        b't' => FormatStep::behind(Does::Stand(Standing::Top)),
        b'd' => FormatStep::behind(Does::Stand(Standing::Bottom)),
        b'f' => FormatStep::to(RowPart::AtFont),
        b'p' | b'v' => FormatStep::to(RowPart::AtSize),
        b'b' | b'i' | b'u' => FormatStep::behind(Does::Nothing),
        b'm' => FormatStep::to(RowPart::AtMacro(byte)),
        b'x' => FormatStep::behind(Does::LeaveOut(byte)),
        _ => among_keys(byte),
    }
}

/// The greatest number; greater ones read as that.
const GREATEST_NUMBER: u64 = 2_147_483_647;

/// A number, which is digits alone.
pub(crate) fn in_number(number: u32, byte: u8) -> FormatStep
    ensures { result ≡ in_number number byte }
{
    if byte.is_ascii_digit() {
        let more = u64::from(number) * 10 + u64::from(byte - b'0');
        return FormatStep::to(RowPart::Number(more.min(GREATEST_NUMBER) as u32));
    }
    FormatStep::again(Does::Separate(number))
}

/// Behind `w`: brackets or digits.
pub(crate) fn at_width(front: &[u8], byte: u8) -> FormatStep
    ensures { result ≡ at_width front.now byte }
{
    if byte == b'(' {
        return FormatStep::to(RowPart::Brackets(front.len() + 1, 0));
    }
    if byte.is_ascii_digit() {
        return FormatStep::to(RowPart::WidthDigits(front.len()));
    }
    FormatStep::fault()
}

/// The digits of a width.
pub(crate) fn in_width_digits(from: usize, front: &[u8], byte: u8) -> FormatStep
    requires { from ≤ length front.now }
    ensures { result ≡ in_width_digits from front.now byte }
{
    if byte.is_ascii_digit() {
        return FormatStep::to(RowPart::WidthDigits(from));
    }
    match width_of(&front[from..]) {
        Some(columns) => FormatStep::again(Does::Widen(columns)),
        None => FormatStep::fault(),
    }
}

/// The brackets of a width.
pub(crate) fn in_brackets(from: usize, depth: usize, front: &[u8], byte: u8) -> FormatStep
    requires { from + depth ≤ length front.now }
    ensures { result ≡ in_brackets from depth front.now byte }
{
    match byte {
        b'\n' => FormatStep::fault(),
        b'(' => FormatStep::to(RowPart::Brackets(from, depth + 1)),
        b')' => at_closing(from, depth, front),
        _ => FormatStep::to(RowPart::Brackets(from, depth)),
    }
}

/// A `)` there.
pub(crate) fn at_closing(from: usize, depth: usize, front: &[u8]) -> FormatStep
    requires { from + depth ≤ length front.now }
    ensures { result ≡ at_closing from depth front.now }
{
    if depth > 0 {
        return FormatStep::to(RowPart::Brackets(from, depth - 1));
    }
    match width_of(&front[from..]) {
        Some(columns) => FormatStep::behind(Does::Widen(columns)),
        None => FormatStep::fault(),
    }
}

/// The columns that a text asks for, if it is an expression: below 0 none.
pub(crate) fn width_of(text: &[u8]) -> Option<u32>
    ensures { result ≡ width_of text.now }
{
    match eval(text, 0, Scale::Columns, None) {
        Ok((length, behind)) => {
            if behind == text.len() {
                Some(columns_of(round_h(length.0)))
            } else {
                None
            }
        }
        Err(_) => None,
    }
}

/// A length in basic units, as columns of the page: below 0 none.
pub(crate) fn columns_of(length: i32) -> u32
    ensures { result ≡ columns_of length }
{
    match u32::try_from(length) {
        Ok(length) => length / 24,
        Err(_) => 0,
    }
}

/// Behind `f`: brackets or a byte.
pub(crate) fn at_font(byte: u8) -> FormatStep
    ensures { result ≡ at_font byte }
{
    match byte {
        b'\n' => FormatStep::fault(),
        b'(' => FormatStep::to(RowPart::InFont),
        _ => FormatStep::to(RowPart::BehindFont),
    }
}

/// Behind the byte of a font: a capital, if there is one.
pub(crate) fn behind_font(byte: u8) -> FormatStep
    ensures { result ≡ behind_font byte }
{
    if byte >= b'A' && byte <= b'Z' {
        FormatStep::behind(Does::Nothing)
    } else {
        FormatStep::again(Does::Nothing)
    }
}

/// The brackets of a font.
pub(crate) fn in_font(byte: u8) -> FormatStep
    ensures { result ≡ in_font byte }
{
    match byte {
        b'\n' => FormatStep::fault(),
        b')' => FormatStep::behind(Does::Nothing),
        _ => FormatStep::to(RowPart::InFont),
    }
}

/// Behind `m`: brackets or two bytes.
pub(crate) fn at_macro(letter: u8, byte: u8) -> FormatStep
    ensures { result ≡ at_macro letter byte }
{
    match byte {
        b'\n' => FormatStep::fault(),
        b'(' => FormatStep::to(RowPart::InMacro(letter)),
        _ => FormatStep::to(RowPart::BehindMacro(letter)),
    }
}

/// The second of the two bytes.
pub(crate) fn behind_macro(letter: u8, byte: u8) -> FormatStep
    ensures { result ≡ behind_macro letter byte }
{
    match byte {
        b'\n' => FormatStep::fault(),
        _ => FormatStep::behind(Does::LeaveOut(letter)),
    }
}

/// The brackets of a macro.
pub(crate) fn in_macro(letter: u8, byte: u8) -> FormatStep
    ensures { result ≡ in_macro letter byte }
{
    match byte {
        b'\n' => FormatStep::fault(),
        b')' => FormatStep::behind(Does::LeaveOut(letter)),
        _ => FormatStep::to(RowPart::InMacro(letter)),
    }
}

/// Behind `p` or `v`: a sign, if there is one, and a digit.
pub(crate) fn at_size(byte: u8) -> FormatStep
    ensures { result ≡ at_size byte }
{
    match byte {
        b'+' | b'-' => FormatStep::to(RowPart::Signed),
        _ => signed(byte),
    }
}

/// The first digit behind it.
pub(crate) fn signed(byte: u8) -> FormatStep
    ensures { result ≡ signed byte }
{
    if byte.is_ascii_digit() {
        FormatStep::to(RowPart::Sized)
    } else {
        FormatStep::fault()
    }
}

/// Further digits.
pub(crate) fn sized(byte: u8) -> FormatStep
    ensures { result ≡ sized byte }
{
    if byte.is_ascii_digit() {
        FormatStep::to(RowPart::Sized)
    } else {
        FormatStep::again(Does::Nothing)
    }
}
