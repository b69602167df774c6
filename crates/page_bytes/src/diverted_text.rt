//! What one happening adds to the text of a diversion.

ghost use Rattle.std.specs.Prelude.{◌≡◌, ◌+◌, ◌*◌, ◌-◌, ◌<◌, ◌≤◌, ◌^◌, ◌++◌, length, min};
ghost use Rattle.std.specs.Prelude.{[], replicate, take};
ghost use Rattle.page_model.specs.Columns.{finished_of, printed, spaces};
ghost use Rattle.page_model.specs.Diverted.{diverted, escaped};
ghost use Rattle.page_model.specs.Glyphs.{text_width};
ghost use Rattle.page_model.specs.Titles.{part_text, title_text};
ghost use Rattle.page_bytes.specs.DivertedBytes.{TakesEscaped};
ghost use Rattle.page_bytes.specs.TitleLeft.{title_of};
ghost use Rattle.page_bytes.specs.TitleParts.{HasNoBlank};

use crate::diverted_bytes::{DivertedBytes, diverted_len};
use crate::diverted_title::DivertedTitle;
use crate::line_bytes::Piece;
use crate::title::TitleLine;
use page_model::Line;
use std::marker::Model;

/// The bytes that a line, a title or blank lines add to the text of a diversion (manual, section
/// 7.3), a buffer after another.
#[derive(Drop)]
pub struct DivertedText<'a> {
    first: FirstLine<'a>,
    /// The newlines of the blank lines behind it.
    newlines: u64,
}

/// What is left of the line in front of blank lines, if there is one.
#[derive(Drop)]
enum FirstLine<'a> {
    /// Of a finished line.
    OfLine(DivertedBytes<'a>),
    /// Of a title.
    OfTitle(DivertedTitle<'a>),
    /// There is none.
    NoLine,
}

impl<'a> Model for DivertedText<'a> {
    ghost use Rattle.std.specs.Prelude.{ℕ, List};
    ghost use Rattle.page_bytes.specs.DivertedText.{text_left};

    ghost Value = { List ℕ };

    ghost view = { text_left };
}

impl<'a> DivertedText<'a> {
    /// The bytes of a line, and of so many blank lines behind it, whatever it has itself.
    pub fn of_line(line: Line<'a>, blank_lines: u64) -> Self
        ensures { result
            ≡ diverted (printed (finished_of line.entry)) ++ replicate blank_lines 10 }
    {
        DivertedText {
            first: FirstLine::OfLine(DivertedBytes::of(line)),
            newlines: blank_lines,
        }
    }

    /// The bytes of a title.
    pub fn of_title(title: TitleLine<'a>) -> Self
        requires some { 0 < length title.number.now }
        requires shown { HasNoBlank title.number.now }
        requires width { let number = title.number.now in
            text_width (part_text number title.left.now)
            + text_width (part_text number title.centre.now)
            + text_width (part_text number title.right.now) + title.length < 2 ^ 64 }
        ensures { result ≡ diverted (title_text (title_of title.entry)) }
    {
        DivertedText {
            first: FirstLine::OfTitle(DivertedTitle::of(title)),
            newlines: 0,
        }
    }

    /// The bytes of so many blank lines.
    pub fn blank_lines(count: u64) -> Self
        ensures { result ≡ replicate count 10 }
    {
        DivertedText {
            first: FirstLine::NoLine,
            newlines: count,
        }
    }

    /// Takes bytes into the front of a buffer, as many as it has room for, and tells how many: none
    /// only where none are left.
    pub fn fill(&mut self, buffer: &mut [u8; 256]) -> usize
        ensures within { result ≤ 256 }
        ensures whole { take result buffer.new ++ self.new ≡ self.old }
        ensures some { 0 < length self.old → 0 < result }
    {
        let end = self.first.fill(buffer);
        let newlines = self.newlines.min((256 - end) as u64);
        put_newlines(buffer, end, newlines as usize);
        self.newlines -= newlines;
        end + newlines as usize
    }
}

impl<'a> FirstLine<'a> {
    ghost use Rattle.page_bytes.specs.DivertedText.{first_left};

    /// Takes bytes into the front of a buffer, as many as it has room for, and tells how many.
    fn fill(&mut self, buffer: &mut [u8]) -> usize
        ensures same { length buffer.new ≡ length buffer.old }
        ensures within { result ≤ length buffer.old }
        ensures whole { take result buffer.new ++ first_left self.new ≡ first_left self.old }
        ensures end { result < length buffer.old → first_left self.new ≡ [] }
    {
        let mut end = 0;
        loop {
            let piece = self.take_piece(buffer.len() - end);
            let count = put_piece(buffer, end, piece.blanks, piece.glyphs);
            if count == 0 {
                return end;
            }
            end += count;
        }
    }

    /// Takes a piece, at most so many bytes.
    fn take_piece(&mut self, most: usize) -> Piece<'a>
        ensures { TakesEscaped most result.blanks result.glyphs.now (first_left self.old)
            (first_left self.new) }
    {
        match self {
            FirstLine::OfLine(line) => line.take_piece(most),
            FirstLine::OfTitle(title) => title.take_piece(most),
            FirstLine::NoLine => Piece {
                blanks: 0,
                glyphs: &[],
            },
        }
    }
}

/// How many bytes [`DivertedText::of_line`] gives. No more than `u64::MAX` are counted.
pub fn diverted_text_len(line: Line<'_>, blank_lines: u64) -> u64
    ensures { result ≡ min (length (diverted (printed (finished_of line.entry))
        ++ replicate blank_lines 10)) (2 ^ 64 - 1) }
{
    diverted_len(line).saturating_add(blank_lines)
}

/// Writes blanks and bytes behind them to a place of a buffer, each blank as a diversion keeps it.
/// Tells how many bytes it wrote.
fn put_piece(buffer: &mut [u8], place: usize, blanks: usize, glyphs: &[u8]) -> usize
    requires { place + (2 * blanks + length glyphs.now) ≤ length buffer.old }
    ensures count { result ≡ 2 * blanks + length glyphs.now }
    ensures same { length buffer.new ≡ length buffer.old }
    ensures written { take (place + result) buffer.new
        ≡ take place buffer.old ++ (escaped (spaces blanks) ++ glyphs.now) }
{
    let behind = place + 2 * blanks;
    put_blanks(buffer, place, blanks);
    put_glyphs(buffer, behind, glyphs);
    2 * blanks + glyphs.len()
}

/// Writes so many blanks to a place of a buffer, each as a diversion keeps it.
fn put_blanks(buffer: &mut [u8], place: usize, count: usize)
    requires { place + 2 * count ≤ length buffer.old }
    ensures same { length buffer.new ≡ length buffer.old }
    ensures written { take (place + 2 * count) buffer.new
        ≡ take place buffer.old ++ escaped (spaces count) }
{
    for written in 0..count {
        buffer[place + 2 * written] = b'\\';
        buffer[place + 2 * written + 1] = b' ';
    }
}

/// Writes bytes to a place of a buffer.
fn put_glyphs(buffer: &mut [u8], place: usize, glyphs: &[u8])
    requires { place + length glyphs.now ≤ length buffer.old }
    ensures same { length buffer.new ≡ length buffer.old }
    ensures written { take (place + length glyphs.now) buffer.new
        ≡ take place buffer.old ++ glyphs.now }
{
    buffer[place..place + glyphs.len()].copy_from_slice(glyphs);
}

/// Writes so many newlines to a place of a buffer.
fn put_newlines(buffer: &mut [u8], place: usize, count: usize)
    requires { place + count ≤ length buffer.old }
    ensures same { length buffer.new ≡ length buffer.old }
    ensures written { take (place + count) buffer.new
        ≡ take place buffer.old ++ replicate count 10 }
{
    for written in 0..count {
        buffer[place + written] = b'\n';
    }
}
