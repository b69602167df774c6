//! The formats of registers: how a value is written.

ghost use Rattle.std.specs.Prelude.{◌≡◌, ◌+◌, ◌^◌, ◌≤◌, ◌++◌, drop, length, min, replicate};
ghost use Rattle.roff_num.specs.Clauses.{is_ascii_digit, list_all, str_to_ascii_uppercase};
ghost use Rattle.roff_num.specs.Clauses.{array_vec_len, format_of, is_field, letter_format};
ghost use Rattle.roff_num.specs.Clauses.{alphabetic_text, decimal_field, register_text, roman_text};
ghost use Rattle.roff_num.specs.Clauses.{size_text, digit_of, hundreds, ones, roman, tens};
ghost use Rattle.roff_num.specs.Clauses.{thousands, word};

use crate::num::Num;
use arrayvec::ArrayVec;
use itoa::Buffer;

/// The text of a number: a sign and up to 32 digits, or fewer letters.
pub type NumText = ArrayVec<u8, 48>;

/// How a register's value is written (manual, section 8).
#[derive(Clone, Copy, Debug, PartialEq, Eq)]
pub enum Format {
    /// Digits, with zeros in front up to so many; at most 32 digits count. `1` is plain decimal.
    Decimal(u8),
    /// `i`, `ii`, `iii`, `iv`: 1 to 3999, all other values in decimal.
    RomanLower,
    /// `I`, `II`, `III`, `IV`: 1 to 3999, all other values in decimal.
    RomanUpper,
    /// `0`, then `a` to `z`, `aa`, `ab`, up to `zz`, `aaa`.
    AlphaLower,
    /// `0`, then `A` to `Z`, `AA`, `AB`, up to `ZZ`, `AAA`.
    AlphaUpper,
}

/// The most digits of a field.
const MOST_DIGITS: usize = 32;

/// The greatest number that is written in Roman digits.
const GREATEST_ROMAN: u32 = 3999;

/// The most letters of a number of at most 2147483648.
const MOST_LETTERS: usize = 7;

/// The format that a text names: one of the letters `i`, `I`, `a` and `A`, or 1 to 32 digits for a
/// field of as many. None if it is no format.
pub fn read_format(text: &[u8]) -> Option<Format>
    ensures { result ≡ format_of text.now }
{
    if is_field(text) {
        return Some(Format::Decimal(text.len() as u8));
    }
    match text {
        [letter] => letter_format(*letter),
        _ => None,
    }
}

/// Writes a value in a format, in place of what the text held. A negative value is `-` and the text
/// of its size.
pub fn write_num(value: Num, format: Format, text: &mut NumText)
    ensures { text.new.items ≡ register_text format value.0 }
{
    text.clear();
    if value.0 < 0 {
        text.push(b'-');
    }
    push_size(value.0.unsigned_abs(), format, text);
}

/// Puts the text of a number without sign at a text's end, where there is room for it.
fn push_size(size: u32, format: Format, text: &mut NumText)
    requires size { size ≤ 2 ^ 31 }
    requires room { array_vec_len text.old ≤ 16 }
    ensures { text.new.items ≡ text.old.items ++ size_text format size }
{
    match format {
        Format::Decimal(digits) => push_decimal(size, digits, text),
        _ => push_all(size_text(size, format).as_slice(), text),
    }
}

/// Whether a text is 1 to 32 digits.
fn is_field(text: &[u8]) -> bool
    ensures { result ≡ is_field text.now }
{
    if text.is_empty() {
        return false;
    }
    text.len() <= MOST_DIGITS && are_digits(text)
}

/// Whether a text has no byte but digits.
fn are_digits(text: &[u8]) -> bool
    ensures { result ≡ list_all is_ascii_digit text.now }
{
    text.iter().all(|byte| byte.is_ascii_digit())
}

/// The format that a letter names.
fn letter_format(letter: u8) -> Option<Format>
    ensures { result ≡ letter_format letter }
{
    match letter {
        b'i' => Some(Format::RomanLower),
        b'I' => Some(Format::RomanUpper),
        b'a' => Some(Format::AlphaLower),
        b'A' => Some(Format::AlphaUpper),
        _ => None,
    }
}

/// The text of a number without sign.
fn size_text(size: u32, format: Format) -> NumText
    requires { size ≤ 2 ^ 31 }
    ensures text { result.items ≡ size_text format size }
    ensures short { array_vec_len result ≤ 32 }
{
    match format {
        Format::Decimal(digits) => decimal_field(size, digits),
        Format::RomanLower => roman_text(size),
        Format::RomanUpper => capitals(roman_text(size).as_slice()),
        Format::AlphaLower => alphabetic_text(size),
        Format::AlphaUpper => capitals(alphabetic_text(size).as_slice()),
    }
}

/// A number in decimal, with zeros in front up to so many digits.
fn decimal_field(size: u32, digits: u8) -> NumText
    ensures text { result.items ≡ decimal_field (min digits 32) size }
    ensures short { array_vec_len result ≤ 32 }
{
    let mut text = NumText::new();
    push_decimal(size, digits, &mut text);
    text
}

/// Puts a number in decimal, with zeros in front up to so many digits, at a text's end, where there
/// is room for it.
#[inline(always)]
fn push_decimal(size: u32, digits: u8, text: &mut NumText)
    requires { array_vec_len text.old ≤ 16 }
    ensures text { text.new.items ≡ text.old.items ++ decimal_field (min digits 32) size }
    ensures short { array_vec_len text.new ≤ array_vec_len text.old + 32 }
{
    if digits == 1 && size < 10 {
        text.push(b'0' + size as u8);
        return;
    }
    let mut buffer = Buffer::new();
    let decimal = buffer.format(size).as_bytes();
    let width = MOST_DIGITS.min(digits as usize);
    push_zeros(width.saturating_sub(decimal.len()), text);
    push_all(decimal, text);
}

/// Puts zeros at a text's end, where there is room for them.
fn push_zeros(count: usize, text: &mut NumText)
    requires { array_vec_len text.old + count ≤ 48 }
    ensures { text.new.items ≡ text.old.items ++ replicate count 48 }
{
    for _ in 0..count {
        text.push(b'0');
    }
}

/// A number in Roman digits; past 3999 and at 0 in decimal.
fn roman_text(size: u32) -> NumText
    ensures text { result.items ≡ roman_text size }
    ensures short { array_vec_len result ≤ 32 }
{
    match size {
        1..=GREATEST_ROMAN => roman(size),
        _ => decimal_field(size, 0),
    }
}

/// A number in Roman digits.
#[tactic(auto, unfolding(crate::specs::Roman::roman))]
fn roman(size: u32) -> NumText
    ensures text { result.items ≡ roman size }
    ensures short { array_vec_len result ≤ 16 }
{
    let mut text = NumText::new();
    push_all(thousands(size / 1000), &mut text);
    push_all(hundreds(size / 100 % 10), &mut text);
    push_all(tens(size / 10 % 10), &mut text);
    push_all(ones(size % 10), &mut text);
    text
}

fn thousands(digit: u32) -> &'static [u8]
    ensures digit { result.now ≡ digit_of thousands digit }
    ensures short { length result.now ≤ 4 }
{
    match digit {
        1 => b"m",
        2 => b"mm",
        3 => b"mmm",
        _ => b"",
    }
}

fn hundreds(digit: u32) -> &'static [u8]
    ensures digit { result.now ≡ digit_of hundreds digit }
    ensures short { length result.now ≤ 4 }
{
    match digit {
        1 => b"c",
        2 => b"cc",
        3 => b"ccc",
        4 => b"cd",
        5 => b"d",
        6 => b"dc",
        7 => b"dcc",
        8 => b"dccc",
        9 => b"cm",
        _ => b"",
    }
}

fn tens(digit: u32) -> &'static [u8]
    ensures digit { result.now ≡ digit_of tens digit }
    ensures short { length result.now ≤ 4 }
{
    match digit {
        1 => b"x",
        2 => b"xx",
        3 => b"xxx",
        4 => b"xl",
        5 => b"l",
        6 => b"lx",
        7 => b"lxx",
        8 => b"lxxx",
        9 => b"xc",
        _ => b"",
    }
}

fn ones(digit: u32) -> &'static [u8]
    ensures digit { result.now ≡ digit_of ones digit }
    ensures short { length result.now ≤ 4 }
{
    match digit {
        1 => b"i",
        2 => b"ii",
        3 => b"iii",
        4 => b"iv",
        5 => b"v",
        6 => b"vi",
        7 => b"vii",
        8 => b"viii",
        9 => b"ix",
        _ => b"",
    }
}

/// A number as a word over `a` to `z`; 0 is `0`.
fn alphabetic_text(size: u32) -> NumText
    requires { size ≤ 2 ^ 31 }
    ensures text { result.items ≡ alphabetic_text size }
    ensures short { array_vec_len result ≤ 7 }
{
    let mut text = NumText::new();
    if size == 0 {
        text.push(b'0');
        return text;
    }
    let (letters, start) = letters_of(size);
    push_all(&letters[start..], &mut text);
    text
}

/// The letters of a number, at the end of an array, and where they begin.
fn letters_of(size: u32) -> ([u8; MOST_LETTERS], usize)
    requires { size ≤ 2 ^ 31 }
    ensures start { result.1 ≤ 7 }
    ensures letters { drop result.1 result.0 ≡ word size }
{
    let mut letters = [0; MOST_LETTERS];
    let mut start = MOST_LETTERS;
    let mut left = size;
    while left > 0 {
        left -= 1;
        start -= 1;
        letters[start] = b'a' + (left % 26) as u8;
        left /= 26;
    }
    (letters, start)
}

/// Puts bytes at a text's end, where there is room for them.
fn push_all(bytes: &[u8], text: &mut NumText)
    requires { array_vec_len text.old + length bytes.now ≤ 48 }
    ensures { text.new.items ≡ text.old.items ++ bytes.now }
{
    for byte in bytes {
        text.push(*byte);
    }
}

/// A text with its letters as capitals.
fn capitals(bytes: &[u8]) -> NumText
    requires { length bytes.now ≤ 32 }
    ensures { result.items ≡ str_to_ascii_uppercase bytes.now }
{
    let mut text = NumText::new();
    for byte in bytes {
        text.push(byte.to_ascii_uppercase());
    }
    text
}
