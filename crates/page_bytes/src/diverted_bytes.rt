//! What a diversion keeps of a finished line.

ghost use Rattle.std.specs.Prelude.{◌≡◌, ◌-◌, ◌<◌, ◌≤◌, ◌^◌, ◌++◌, count_by, length, min};
ghost use Rattle.page_model.specs.Columns.{added_columns, finished_of, printed};
ghost use Rattle.page_model.specs.Diverted.{diverted};
ghost use Rattle.page_model.specs.Glyphs.{gaps_in};
ghost use Rattle.page_bytes.specs.DivertedBytes.{TakesEscaped, is_doubled};

use crate::line_bytes::{LineBytes, Piece, is_blank};
use page_model::{GAP, Line};
use std::marker::Model;

/// The bytes of a line in the text of a diversion (manual, section 7.3): `\&`, the line with each
/// blank as `\ ` and each backslash as `\e`, and a newline. Trailing blanks are kept.
#[derive(Drop)]
pub struct DivertedBytes<'a> {
    /// Bytes that come before those of the line.
    due: &'a [u8],
    /// What is left of the line as it is printed, and its newline.
    printed: LineBytes<'a>,
}

impl<'a> Model for DivertedBytes<'a> {
    ghost use Rattle.std.specs.Prelude.{ℕ, List, ◌++◌};
    ghost use Rattle.page_model.specs.Diverted.{escaped};

    ghost Value = { List ℕ };

    ghost view = { λ a. a.due.now ++ escaped a.printed };
}

impl<'a> DivertedBytes<'a> {
    /// The bytes of a line.
    pub fn of(line: Line<'a>) -> Self
        ensures { result ≡ diverted (printed (finished_of line.entry)) }
    {
        DivertedBytes {
            due: b"\\&",
            printed: LineBytes::printed(line),
        }
    }

    /// Takes a piece, at most so many bytes, of which each blank is two: `\ `. It is empty only
    /// where nothing is left or `most` is 0.
    pub fn take_piece(&mut self, most: usize) -> Piece<'a>
        ensures { TakesEscaped most result.blanks result.glyphs.now self.old self.new }
    {
        if !self.due.is_empty() {
            let (glyphs, due) = front_of(self.due, most);
            self.due = due;
            return Piece { blanks: 0, glyphs };
        }
        let blanks = self.printed.take_blanks(most / 2);
        let glyphs = self.printed.take_plain(most - 2 * blanks);
        if blanks + glyphs.len() > 0 {
            return Piece { blanks, glyphs };
        }
        let (glyphs, due) = front_of(self.printed.take_escaped(), most);
        self.due = due;
        Piece { blanks: 0, glyphs }
    }
}

impl Iterator for DivertedBytes<'_> {
    ghost use Rattle.std.specs.Iterator.{YieldsFirst, item_count};

    type Item = u8;

    ghost next_gives = { YieldsFirst (λ s. s) };

    ghost remaining = { item_count (λ s. s) };

    fn next(&mut self) -> Option<u8> {
        if let Some((&byte, due)) = self.due.split_first() {
            self.due = due;
            return Some(byte);
        }
        let (&byte, due) = self.printed.take_escaped().split_first()?;
        self.due = due;
        Some(byte)
    }
}

/// The bytes in front, at most so many, and the others.
pub(crate) fn front_of(bytes: &[u8], most: usize) -> (&[u8], &[u8])
    ensures whole { result.0.now ++ result.1.now ≡ bytes.now }
    ensures most { length result.0.now ≤ most }
    ensures some { 0 < most → 0 < length bytes.now → 0 < length result.0.now }
{
    bytes.split_at(most.min(bytes.len()))
}

/// How many bytes [`DivertedBytes`] gives of a line. No more than `u64::MAX` are counted.
pub fn diverted_len(line: Line<'_>) -> u64
    ensures { result ≡ min (length (diverted (printed (finished_of line.entry)))) (2 ^ 64 - 1) }
{
    let most = u128::from(u64::MAX);
    let (doubled, gaps) = doubled_and_gaps(line.text);
    let added = columns_added(line.spare, line.gaps, gaps);
    let blanks = (u128::from(line.lead) + added).min(most);
    let bytes = 3 + 2 * blanks + line.text.len() as u128 + u128::from(doubled);
    bytes.min(most) as u64
}

/// How many bytes of a text a diversion keeps as two, and how many gaps it has.
fn doubled_and_gaps(text: &[u8]) -> (u64, u64)
    ensures doubled { result.0 ≡ count_by is_doubled text.now }
    ensures gaps { result.1 ≡ gaps_in text.now }
{
    let mut doubled = 0;
    let mut gaps = 0;
    for byte in text {
        if is_doubled(*byte) {
            doubled += 1;
        }
        if *byte == GAP {
            gaps += 1;
        }
    }
    (doubled, gaps)
}

/// Whether a diversion keeps two bytes of a byte.
fn is_doubled(byte: u8) -> bool
    ensures { result ≡ is_doubled byte }
{
    is_blank(byte) || byte == b'\\'
}

/// The columns that adjusting adds in front of a gap, in all.
fn columns_added(spare: u64, gaps: u64, gap: u64) -> u128
    ensures { result ≡ added_columns spare gaps gap }
{
    if gaps == 0 {
        return 0;
    }
    u128::from(gap) * u128::from(spare) / u128::from(gaps)
}
