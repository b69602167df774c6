//! What a diversion keeps of a title.

ghost use Rattle.std.specs.Prelude.{◌≡◌, ◌+◌, ◌-◌, ◌<◌, ◌^◌, ◌∷◌, ℕ, List, length, min};
ghost use Rattle.page_model.specs.Diverted.{diverted, escaped, escaped_byte};
ghost use Rattle.page_model.specs.Glyphs.{text_width};
ghost use Rattle.page_model.specs.Titles.{part_text, title_text};
ghost use Rattle.page_bytes.specs.DivertedBytes.{TakesEscaped};
ghost use Rattle.page_bytes.specs.TitleLeft.{title_of};
ghost use Rattle.page_bytes.specs.TitleParts.{HasNoBlank};

use crate::diverted_bytes::front_of;
use crate::line_bytes::Piece;
use crate::title::TitleLine;
use crate::title_bytes::{TitleBytes, title_gaps};
use crate::title_part::PAGE_NUMBER;
use page_model::UNPADDABLE;
use std::marker::Model;

/// The bytes of a title in the text of a diversion: as those of a line are, with the blanks at its
/// end.
#[derive(Drop)]
pub(crate) struct DivertedTitle<'a> {
    /// Bytes that come before those of the title.
    due: &'a [u8],
    /// What is left of the title as it is printed, and its newline.
    printed: TitleBytes<'a>,
}

impl<'a> Model for DivertedTitle<'a> {
    ghost use Rattle.std.specs.Prelude.{ℕ, List};
    ghost use Rattle.page_bytes.specs.TitleBytes.{diverted_left};

    ghost Value = { List ℕ };

    ghost view = { diverted_left };
}

impl<'a> DivertedTitle<'a> {
    /// The bytes of a title.
    pub(crate) fn of(title: TitleLine<'a>) -> Self
        requires some { 0 < length title.number.now }
        requires shown { HasNoBlank title.number.now }
        requires width { let number = title.number.now in
            text_width (part_text number title.left.now)
            + text_width (part_text number title.centre.now)
            + text_width (part_text number title.right.now) + title.length < 2 ^ 64 }
        ensures { result ≡ diverted (title_text (title_of title.entry)) }
    {
        DivertedTitle {
            due: b"\\&",
            printed: TitleBytes::of(title),
        }
    }

    /// Takes a piece, at most so many bytes, of which each blank is two: `\ `. It is empty only
    /// where nothing is left or `most` is 0.
    pub(crate) fn take_piece(&mut self, most: usize) -> Piece<'a>
        ensures { TakesEscaped most result.blanks result.glyphs.now self.old self.new }
    {
        if !self.due.is_empty() {
            let (glyphs, due) = front_of(self.due, most);
            self.due = due;
            return Piece { blanks: 0, glyphs };
        }
        let blanks = self.printed.take_blanks(most / 2);
        let glyphs = self.printed.take_plain(most - 2 * blanks);
        if blanks + glyphs.len() > 0 {
            return Piece { blanks, glyphs };
        }
        let (glyphs, due) = front_of(self.printed.take_escaped(), most);
        self.due = due;
        Piece { blanks: 0, glyphs }
    }
}

/// How many bytes a diversion keeps of a title. No more than `u64::MAX` are counted.
pub fn diverted_title_len(title: TitleLine<'_>) -> u64
    requires some { 0 < length title.number.now }
    requires width { let number = title.number.now in
        text_width (part_text number title.left.now)
        + text_width (part_text number title.centre.now)
        + text_width (part_text number title.right.now) + title.length < 2 ^ 64 }
    ensures { result ≡ min (length (diverted (title_text (title_of title.entry)))) (2 ^ 64 - 1) }
{
    let most = u128::from(u64::MAX);
    let (centre_gap, right_gap) = title_gaps(title);
    let left = kept_of_part(title.left, title.number);
    let centre = kept_of_part(title.centre, title.number);
    let right = kept_of_part(title.right, title.number);
    let blanks = u128::from(centre_gap) + u128::from(right_gap);
    let parts = u128::from(left) + u128::from(centre) + u128::from(right);
    (3 + 2 * blanks + parts).min(most) as u64
}

/// How many bytes a diversion keeps of a part of a title. No more than `u64::MAX` are counted.
fn kept_of_part(part: &[u8], number: &[u8]) -> u64
    ensures { result ≡ min (length (escaped (part_text number.now part.now))) (2 ^ 64 - 1) }
{
    let number_len = kept_of_text(number);
    let mut count: u64 = 0;
    let mut rest = part;
    while let Some((&byte, behind)) = rest.split_first() {
        count = count.saturating_add(kept_in_part(byte, number, number_len));
        rest = behind;
    }
    count
}

/// How many bytes it keeps of a byte of a part, told how many of the page number.
fn kept_in_part(byte: u8, number: &[u8], number_len: u64) -> u64
    requires { number_len ≡ min (length (escaped number.now)) (2 ^ 64 - 1) }
    ensures { (rest : List ℕ) (count : ℕ)
        → min (count + length (escaped (part_text number.now (byte ∷ rest)))) (2 ^ 64 - 1)
        ≡ min (count + result + length (escaped (part_text number.now rest))) (2 ^ 64 - 1) }
{
    let _ = number;
    if byte == PAGE_NUMBER {
        return number_len;
    }
    if byte == UNPADDABLE {
        return 2;
    }
    kept_of_byte(byte)
}

/// How many bytes it keeps of a text. No more than `u64::MAX` are counted.
fn kept_of_text(text: &[u8]) -> u64
    ensures { result ≡ min (length (escaped text.now)) (2 ^ 64 - 1) }
{
    let mut count: u64 = 0;
    let mut rest = text;
    while let Some((&byte, behind)) = rest.split_first() {
        count = count.saturating_add(kept_of_byte(byte));
        rest = behind;
    }
    count
}

/// How many bytes it keeps of a byte as it is printed.
fn kept_of_byte(byte: u8) -> u64
    ensures { result ≡ length (escaped_byte byte) }
{
    if byte == b' ' || byte == b'\\' { 2 } else { 1 }
}
