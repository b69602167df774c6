//! The parts of titles, piece by piece.

ghost use Rattle.std.specs.Prelude.{◌≡◌, ◌+◌, ◌<◌, ◌≤◌, ◌^◌, ◌++◌, ◌∷◌, ℕ, List, [], length};
ghost use Rattle.std.specs.Prelude.{take, true};
ghost use Rattle.page_model.specs.Glyphs.{text_width};
ghost use Rattle.page_model.specs.Columns.{spaces};
ghost use Rattle.page_model.specs.Titles.{part_text};
ghost use Rattle.page_bytes.specs.TitleParts.{HasNoBlank, blank_bytes_in_front};
ghost use Rattle.page_bytes.specs.TitleParts.{is_blank_byte, shown_in_front};
ghost use Rattle.std.proofs.Props.{props};

use page_model::UNPADDABLE;
use roff_num::width_of_byte;

/// The byte of a title's part that stands for the page number.
pub const PAGE_NUMBER: u8 = 0x01;

/// What comes next of a title.
#[derive(Clone, Copy)]
pub struct TitlePiece<'a> {
    /// How many blanks.
    pub blanks: u128,
    /// The bytes behind them, none of which is a blank.
    pub glyphs: &'a [u8],
}

/// What is left of a part of a title.
#[derive(Drop)]
pub(crate) struct PartText<'a> {
    /// The blanks in front of it.
    blanks: u64,
    part: &'a [u8],
    number: &'a [u8],
    ghost some: { 0 < length number.now },
    ghost shown: { HasNoBlank number.now } by { Prim.hlevel props },
}

impl<'a> PartText<'a> {
    ghost use Rattle.page_bytes.specs.TitleLeft.{part_left};

    /// A part behind so many blanks.
    pub(crate) fn of(blanks: u64, part: &'a [u8], number: &'a [u8]) -> Self
        requires some { 0 < length number.now }
        requires shown { HasNoBlank number.now }
        ensures { part_left result ≡ spaces blanks ++ part_text number.now part.now }
    {
        PartText {
            blanks,
            part,
            number,
        }
    }

    /// Takes blanks and the bytes behind them; no bytes only where nothing is left.
    pub(crate) fn take(&mut self) -> TitlePiece<'a>
        ensures taken { spaces result.blanks ++ (result.glyphs.now ++ part_left self.new)
            ≡ part_left self.old }
        ensures shown { HasNoBlank result.glyphs.now }
        ensures end { length result.glyphs.now ≡ 0 → part_left self.new ≡ [] }
        ensures few { result.blanks < 2 ^ 65 }
    {
        let (blank, behind) = self.part.split_at(count_of_blanks(self.part));
        let blanks = u128::from(self.blanks) + blank.len() as u128;
        self.blanks = 0;
        let Some((&byte, rest)) = behind.split_first() else {
            self.part = behind;
            return TitlePiece {
                blanks,
                glyphs: &[],
            };
        };
        if byte == PAGE_NUMBER {
            self.part = rest;
            return TitlePiece {
                blanks,
                glyphs: self.number,
            };
        }
        let (glyphs, rest) = behind.split_at(count_of_shown(behind));
        self.part = rest;
        TitlePiece { blanks, glyphs }
    }
}

/// How a part of a title is printed.
#[derive(Clone, Copy)]
pub(crate) struct PartMeasure {
    /// How wide it is, in columns.
    pub(crate) width: u64,
    /// Whether it is printed as it stands.
    pub(crate) is_plain: bool,
}

/// How a part of a title is printed.
#[inline(always)]
pub(crate) fn measure_part(part: &[u8], number: &[u8]) -> PartMeasure
    requires { text_width (part_text number.now part.now) < 2 ^ 64 }
    ensures width { result.width ≡ text_width (part_text number.now part.now) }
    ensures plain { result.is_plain ≡ true → part_text number.now part.now ≡ part.now }
{
    if is_plain(part) {
        return PartMeasure {
            width: part.len() as u64,
            is_plain: true,
        };
    }
    PartMeasure {
        width: width_of_part(part, number),
        is_plain: false,
    }
}

/// Whether each byte of a part is printed as it stands, and is a character of its own.
#[inline(always)]
fn is_plain(part: &[u8]) -> bool
    ensures text { result ≡ true → (number : List ℕ) → part_text number part.now ≡ part.now }
    ensures width { result ≡ true → text_width part.now ≡ length part.now }
{
    let mut rest = part;
    while let Some((&byte, behind)) = rest.split_first() {
        if !is_plain_byte(byte) {
            return false;
        }
        rest = behind;
    }
    true
}

/// Whether a byte of a part is printed as it stands, and is a character of its own.
#[inline(always)]
fn is_plain_byte(byte: u8) -> bool
    ensures text { result ≡ true → (number rest : List ℕ)
        → part_text number (byte ∷ rest) ≡ byte ∷ part_text number rest }
    ensures width { result ≡ true → (rest : List ℕ)
        → text_width (byte ∷ rest) ≡ 1 + text_width rest }
{
    byte > PAGE_NUMBER && byte < 0x80
}

/// How wide a part of a title is, in columns.
#[inline(never)]
pub(crate) fn width_of_part(part: &[u8], number: &[u8]) -> u64
    requires { text_width (part_text number.now part.now) < 2 ^ 64 }
    ensures { result ≡ text_width (part_text number.now part.now) }
{
    let mut width = 0;
    let mut rest = part;
    while let Some((&byte, behind)) = rest.split_first() {
        width += width_in_part(byte, number);
        rest = behind;
    }
    width
}

/// How wide a byte of a part is, in columns.
#[inline(always)]
fn width_in_part(byte: u8, number: &[u8]) -> u64
    requires { byte ≡ 1 → text_width number.now < 2 ^ 64 }
    ensures { (rest : List ℕ) → text_width (part_text number.now (byte ∷ rest))
        ≡ result + text_width (part_text number.now rest) }
{
    if byte == PAGE_NUMBER {
        return width_of_text(number);
    }
    width_of_byte(byte)
}

/// How wide a text is, in columns.
fn width_of_text(text: &[u8]) -> u64
    requires { text_width text.now < 2 ^ 64 }
    ensures { result ≡ text_width text.now }
{
    let mut width = 0;
    let mut rest = text;
    while let Some((&byte, behind)) = rest.split_first() {
        width += width_of_byte(byte);
        rest = behind;
    }
    width
}

/// How many bytes in front of a part stand for blanks.
fn count_of_blanks(part: &[u8]) -> usize
    ensures part { result ≤ length part.now }
    ensures blanks { take result part.now ≡ blank_bytes_in_front part.now }
{
    let mut count = 0;
    while count < part.len() && is_blank(part[count]) {
        count += 1;
    }
    count
}

/// How many bytes in front of a part are printed as themselves, and are no blanks.
fn count_of_shown(part: &[u8]) -> usize
    ensures part { result ≤ length part.now }
    ensures shown { take result part.now ≡ shown_in_front part.now }
{
    let mut count = 0;
    while count < part.len() && !is_blank(part[count]) && part[count] != PAGE_NUMBER {
        count += 1;
    }
    count
}

/// Whether a byte of a part stands for a blank.
fn is_blank(byte: u8) -> bool
    ensures { result ≡ is_blank_byte byte }
{
    byte == UNPADDABLE || byte == b' '
}
