//! The measures of text blocks (Lesk, "Tbl": Text Blocks).

ghost use Rattle.std.specs.Prelude.{◌≡◌, ◌-◌, ◌<◌, ◌≤◌, ◌^◌, length, min, slice_range};
ghost use Rattle.tbl_layout.specs.Spans.{has_least, least_of, measure_of};

use crate::bars::Bars;
use crate::columns::all_gaps;
use tbl_format::format::Asked;

/// By what text blocks are filled.
#[derive(Clone, Copy)]
pub struct Filling<'a> {
    /// The bars of the table's picture.
    pub bars: Bars,
    /// How long a line of the page is, in columns.
    pub line_length: u32,
    /// What is asked of each column of the table.
    pub asked: &'a [Asked],
}

impl Filling<'_> {
    /// The measure of the blocks of a cell that goes from one column up to another, in columns of
    /// the page.
    pub fn measure(self, from: usize, end: usize) -> u32
        requires order { from ≤ end }
        requires within { end ≤ length self.asked.now }
        requires few { length self.asked.now < 2 ^ 32 }
        ensures { result ≡ measure_of self.entry.bars self.entry.line_length
            (length self.entry.asked.now) (slice_range self.entry.asked.now from end) }
    {
        block_measure(
            self.bars,
            self.line_length,
            self.asked.len(),
            &self.asked[from..end],
        )
    }
}

/// The measure of the blocks of a cell, in columns of the page: so much is asked of the cell's own
/// columns, and the table has so many.
fn block_measure(bars: Bars, line_length: u32, count: usize, asked: &[Asked]) -> u32
    requires cell { length asked.now ≤ count }
    requires few { count < 2 ^ 32 }
    ensures { result ≡ measure_of bars line_length count asked.now }
{
    if has_least(asked) {
        let width = least_of(asked).saturating_add(all_gaps(bars, asked));
        return width.min(4_294_967_295) as u32;
    }
    let part = u64::from(line_length) * asked.len() as u64 / (count as u64 + 1);
    part.max(1) as u32
}

/// Whether a width is asked of any of these columns.
fn has_least(asked: &[Asked]) -> bool
    ensures { result ≡ has_least asked.now }
{
    for column in asked {
        if column.least.is_some() {
            return true;
        }
    }
    false
}

/// The widths that are asked of columns together, or 2^64 - 1 if they are more.
fn least_of(asked: &[Asked]) -> usize
    ensures { result ≡ min (least_of asked.now) (2 ^ 64 - 1) }
{
    let mut width: usize = 0;
    for column in asked {
        width = width.saturating_add(column.least.unwrap_or(0) as usize);
    }
    width
}
