//! What a finished line writes.

ghost use Rattle.std.specs.Prelude.{◌≡◌, ◌++◌, replicate, ℕ};
ghost use Rattle.page_model.specs.Columns.{device_line, finished_of, line_bytes, printed};
ghost use Rattle.page_bytes.specs.LineBytes.Fronts.{is_blank_mark, without_blanks};
ghost use Rattle.page_bytes.specs.LineBytes.Shares.{shared_out};

mod escaping;
mod pieces;
mod spreading;
mod steps;

pub(crate) use escaping::count_of_plain;
use page_model::{FURTHER_BLANK, GAP, Line, UNPADDABLE};
use std::marker::Model;

/// The bytes that a line writes: its lead, its text with the blanks spread, a newline, and its
/// blank lines. Trailing blanks are left out.
#[derive(Drop)]
pub struct LineBytes<'a> {
    /// What is left of the text.
    text: &'a [u8],
    /// The blanks before it.
    blanks: u128,
    /// How many gaps were passed.
    passed: u64,
    /// The columns that adjusting adds to each gap.
    each: u64,
    /// Those that are left over, one for some of the gaps.
    rest: u64,
    /// How many gaps there are; one where there is none.
    gaps: u64,
    /// What is over of the rest: where it reaches the gaps, one gets a column more.
    over: u64,
    /// The newlines behind it.
    newlines: u128,
}

/// How the spare columns of a line are shared out, at a place of its text.
#[derive(Clone, Copy)]
struct Sharing {
    /// The columns that each gap gets.
    each: u64,
    /// Those that are left over.
    rest: u64,
    gaps: u64,
    /// How many gaps were passed.
    passed: u64,
    /// What is over of the rest.
    over: u64,
}

/// How far a text was written.
#[derive(Clone, Copy)]
struct Written {
    /// How many bytes of the text.
    taken: usize,
    /// Where what was written ends.
    end: usize,
    /// How many gaps were passed.
    passed: u64,
    /// What is over of the rest there.
    over: u64,
}

/// What is taken of a line's bytes at once.
#[derive(Clone, Copy)]
pub struct Piece<'a> {
    /// How many blanks.
    pub blanks: usize,
    /// The bytes of the glyphs behind them, as they are written.
    pub glyphs: &'a [u8],
}

impl<'a> Model for LineBytes<'a> {
    ghost use Rattle.std.specs.Prelude.{ℕ, List};
    ghost use Rattle.page_bytes.specs.LineBytes.Left.{IsShared, bytes_left};

    ghost Value = { List ℕ };

    ghost view = { bytes_left };

    ghost invariant = { IsShared };
}

impl<'a> LineBytes<'a> {
    /// The bytes of a line.
    pub fn of(line: Line<'a>) -> Self
        ensures { result ≡ line_bytes (finished_of line.entry) }
    {
        Self::behind_columns(line, 0, line.after)
    }

    /// The bytes of a line behind so many columns more, such as the page offset, and then so many
    /// blank lines in place of its own.
    pub fn behind_columns(line: Line<'a>, columns: u64, after: u64) -> Self
        ensures { result
            ≡ device_line columns (printed (finished_of line.entry)) ++ replicate after 10 }
    {
        let text = without_trailing_blanks(line.text);
        let (each, rest, gaps) = shares(line.spare, line.gaps);
        let lead = u128::from(columns) + u128::from(line.lead);
        LineBytes {
            text,
            blanks: if text.is_empty() { 0 } else { lead },
            passed: 0,
            each,
            rest,
            gaps,
            over: 0,
            newlines: u128::from(after) + 1,
        }
    }
}

impl Iterator for LineBytes<'_> {
    ghost use Rattle.std.specs.Iterator.{YieldsFirst, item_count};

    type Item = u8;

    ghost next_gives = { YieldsFirst (λ s. s) };

    ghost remaining = { item_count (λ s. s) };

    fn next(&mut self) -> Option<u8> {
        if self.take_blank() {
            return Some(b' ');
        }
        let Some((&byte, rest)) = self.text.split_first() else {
            if self.newlines == 0 {
                return None;
            }
            self.newlines -= 1;
            return Some(b'\n');
        };
        self.text = rest;
        Some(byte)
    }
}

/// What each of the gaps gets of the spare columns, what is left over, and the number of the gaps:
/// nothing, and one gap, where there is none.
fn shares(spare: u64, gaps: u64) -> (u64, u64, u64)
    ensures { result ≡ shared_out spare gaps }
{
    if gaps == 0 {
        return (0, 0, 1);
    }
    (spare / gaps, spare % gaps, gaps)
}

/// A text up to its last glyph that is no blank.
#[tactic(auto, using(crate::proofs::Blanks::without_blanks_push))]
fn without_trailing_blanks(text: &[u8]) -> &[u8]
    ensures { result.now ≡ without_blanks text.now }
{
    let mut front = text;
    while let Some((last, others)) = front.split_last() {
        if !is_blank(*last) {
            break;
        }
        front = others;
    }
    front
}

/// Whether a byte of a text stands for a blank.
pub(crate) fn is_blank(byte: u8) -> bool
    ensures { result ≡ is_blank_mark byte }
{
    byte == GAP || byte == FURTHER_BLANK || byte == UNPADDABLE
}
