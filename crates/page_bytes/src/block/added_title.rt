//! A title that is added to a block at once.

ghost use Rattle.std.specs.Prelude.{◌≡◌, ◌+◌, ◌<◌, ◌≤◌, ◌^◌, ◌++◌, ◌∷◌, [], ℕ, List, true};
ghost use Rattle.std.specs.Prelude.{if◌then◌else◌, ◌==◌};
ghost use Rattle.std.specs.Prelude.{length, vec_capacity};
ghost use Rattle.page_model.specs.Columns.{device_line, spaces, trimmed};
ghost use Rattle.page_model.specs.Glyphs.{glyph_blank, text_width};
ghost use Rattle.page_bytes.specs.TitleLeft.{title_of};
ghost use Rattle.page_model.specs.Titles.{part_text, title_text};

use super::BLOCK;
use crate::title::{TitleLine, gaps_in_title};
use crate::title_part::{PAGE_NUMBER, measure_part};
use page_model::UNPADDABLE;

/// Adds to an empty block the bytes of a title behind so many columns. Tells whether it had room
/// for all.
#[inline(never)]
pub(super) fn add_title(bytes: &mut Vec<u8>, title: &TitleLine<'_>, columns: u64) -> bool
    requires capacity { 8192 ≤ vec_capacity bytes.old }
    requires empty { bytes.old.items ≡ [] }
    requires some { 0 < length title.now.number.now }
    requires width { let number = title.now.number.now in
        text_width (part_text number title.now.left.now)
        + text_width (part_text number title.now.centre.now)
        + text_width (part_text number title.now.right.now) + title.now.length < 2 ^ 64 }
    ensures capacity { vec_capacity bytes.old ≤ vec_capacity bytes.new }
    ensures whole { result ≡ true → bytes.new.items
        ≡ device_line columns (title_text (title_of title.now)) }
{
    let title = *title;
    let number = title.number;
    let left = measure_part(title.left, number);
    let centre = measure_part(title.centre, number);
    let right = measure_part(title.right, number);
    let (centre_gap, right_gap) = gaps_in_title(title, left.width, centre.width, right.width);
    if !add_part(bytes, columns, title.left, number, left.is_plain) {
        return false;
    }
    if !add_part(bytes, centre_gap, title.centre, number, centre.is_plain) {
        return false;
    }
    if !add_part(bytes, right_gap, title.right, number, right.is_plain) {
        return false;
    }
    cut_blanks(bytes);
    if bytes.len() >= BLOCK {
        return false;
    }
    bytes.push(b'\n').unwrap();
    true
}

/// Adds to those of a block so many blanks and the bytes of a title's part, which may be printed as
/// it stands. Tells whether it had room for all.
#[inline(always)]
fn add_part(bytes: &mut Vec<u8>, blanks: u64, part: &[u8], number: &[u8], is_plain: bool) -> bool
    requires capacity { 8192 ≤ vec_capacity bytes.old }
    requires few { length bytes.old.items ≤ 8192 }
    requires plain { is_plain ≡ true → part_text number.now part.now ≡ part.now }
    ensures capacity { vec_capacity bytes.old ≤ vec_capacity bytes.new }
    ensures few { length bytes.new.items ≤ 8192 }
    ensures whole { result ≡ true → bytes.new.items
        ≡ bytes.old.items ++ (spaces blanks ++ part_text number.now part.now) }
{
    if blanks > (BLOCK - bytes.len()) as u64 {
        return false;
    }
    let end = bytes.len() + blanks as usize;
    bytes.resize(end, b' ').unwrap();
    if is_plain {
        return add_text(bytes, part);
    }
    add_part_text(bytes, part, number)
}

/// Adds to those of a block the bytes of a text. Tells whether it had room for all.
#[inline(always)]
fn add_text(bytes: &mut Vec<u8>, text: &[u8]) -> bool
    requires capacity { 8192 ≤ vec_capacity bytes.old }
    requires few { length bytes.old.items ≤ 8192 }
    ensures capacity { vec_capacity bytes.old ≤ vec_capacity bytes.new }
    ensures few { length bytes.new.items ≤ 8192 }
    ensures whole { result ≡ true → bytes.new.items ≡ bytes.old.items ++ text.now }
{
    if text.len() > BLOCK - bytes.len() {
        return false;
    }
    bytes.extend_from_slice(text).unwrap();
    true
}

/// Adds to those of a block the bytes of a title's part as they are printed. Tells whether it had
/// room for all.
#[inline(never)]
fn add_part_text(bytes: &mut Vec<u8>, part: &[u8], number: &[u8]) -> bool
    requires capacity { 8192 ≤ vec_capacity bytes.old }
    requires few { length bytes.old.items ≤ 8192 }
    ensures capacity { vec_capacity bytes.old ≤ vec_capacity bytes.new }
    ensures few { length bytes.new.items ≤ 8192 }
    ensures whole { result ≡ true → bytes.new.items
        ≡ bytes.old.items ++ part_text number.now part.now }
{
    let mut rest = part;
    while let Some((&byte, behind)) = rest.split_first() {
        if !add_part_byte(bytes, byte, number) {
            return false;
        }
        rest = behind;
    }
    true
}

/// Adds to those of a block one byte of a title's part as it is printed; a page number is added
/// whole. Tells whether it had room for that.
#[inline(always)]
fn add_part_byte(bytes: &mut Vec<u8>, byte: u8, number: &[u8]) -> bool
    requires capacity { 8192 ≤ vec_capacity bytes.old }
    requires few { length bytes.old.items ≤ 8192 }
    ensures capacity { vec_capacity bytes.old ≤ vec_capacity bytes.new }
    ensures few { length bytes.new.items ≤ 8192 }
    ensures whole { result ≡ true → (rest : List ℕ)
        → bytes.new.items ++ part_text number.now rest
        ≡ bytes.old.items ++ part_text number.now (byte ∷ rest) }
{
    if byte == PAGE_NUMBER {
        return add_text(bytes, number);
    }
    if bytes.len() >= BLOCK {
        return false;
    }
    bytes.push(printed_byte(byte)).unwrap();
    true
}

/// A byte of a part that doesn't stand for the page number, as it is printed.
#[inline(always)]
fn printed_byte(byte: u8) -> u8
    ensures { result ≡ (if byte == glyph_blank then 32 else byte) }
{
    if byte == UNPADDABLE { b' ' } else { byte }
}

/// Cuts the blanks at the end of a text.
#[inline(always)]
#[tactic(auto, using(crate::proofs::TitleParts::trimmed_push))]
fn cut_blanks(bytes: &mut Vec<u8>)
    requires capacity { 8192 ≤ vec_capacity bytes.old }
    requires few { length bytes.old.items ≤ 8192 }
    ensures capacity { vec_capacity bytes.old ≤ vec_capacity bytes.new }
    ensures few { length bytes.new.items ≤ 8192 }
    ensures cut { bytes.new.items ≡ trimmed bytes.old.items }
{
    while let Some(last) = bytes.pop() {
        if last != b' ' {
            bytes.push(last).unwrap();
            return;
        }
    }
}
