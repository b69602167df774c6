//! What is told of the rows that are kept.

ghost use Rattle.std.specs.Prelude.{◌≡◌, ◌<◌, ◌≤◌, ◌^◌, length, drop};
ghost use Rattle.tbl_format.specs.KeyCounts.{Counts};
ghost use Rattle.roff_num.specs.Lists.{last_end};
ghost use Rattle.tbl_format.specs.RowsServed.{all_rows, first_format, row_at};

use super::FormatRows;
use crate::cells::columns_of;
use crate::format::{Asked, FormatKey, FormatPlace};
use crate::key_count::KeyCount;
use crate::part_starts::part_start;

impl FormatRows {
    ghost use Rattle.tbl_format.specs.Format.{columns_of_keys};
    ghost use Rattle.tbl_format.specs.FormatRows.{AreWithin};

    /// Where its reading stands.
    pub fn place(&self) -> FormatPlace
        ensures { result ≡ self.now.format.place }
    {
        self.place
    }

    /// How many columns the table has.
    pub fn columns(&self) -> usize
        ensures value { result ≡ length self.now.format.asked }
        ensures few { result < 2 ^ 32 }
    {
        self.asked.len()
    }

    /// For each column what its keys ask for it.
    pub fn asked(&self) -> &[Asked]
        ensures value { result.now ≡ self.now.format.asked }
        ensures few { length result.now < 2 ^ 32 }
    {
        self.asked.as_slice()
    }

    /// The most bars in front of a row's first key.
    pub fn front_bars(&self) -> u8
        ensures { result ≡ self.now.format.front }
    {
        self.front
    }

    /// How many rows of this format are whole.
    pub fn rows(&self) -> usize
        ensures { result ≡ length self.now.format.rows }
    {
        self.ends.len() - self.first
    }

    /// The keys of one of its rows.
    pub fn row(&self, at: usize) -> &[FormatKey]
        requires { at < length self.now.format.rows }
        ensures { result.now ≡ first_format (drop at self.now.format.rows) }
    {
        let row = self.first + at;
        &self.keys.as_slice()[part_start(self.ends.as_slice(), row)..self.ends[row]]
    }

    /// How many rows of all formats are whole.
    pub fn all_rows(&self) -> usize
        ensures { result ≡ length (all_rows self.now.format) }
    {
        self.ends.len()
    }

    /// How many of them are of formats before this one.
    pub fn earlier_rows(&self) -> usize
        ensures { result ≡ length self.now.format.earlier }
    {
        self.first
    }

    /// The keys of one of them.
    pub fn row_of_all(&self, at: usize) -> &[FormatKey]
        requires { at < length (all_rows self.now.format) }
        ensures keys { result.now ≡ (row_at (all_rows self.now.format) at).keys }
        ensures within { AreWithin (length self.now.format.asked) result.now }
    {
        &self.keys.as_slice()[part_start(self.ends.as_slice(), at)..self.ends[at]]
    }

    /// How many bars stand behind the last of them.
    pub fn bars_of_all(&self, at: usize) -> u8
        requires { at < length (all_rows self.now.format) }
        ensures { result ≡ (row_at (all_rows self.now.format) at).bars }
    {
        self.row_bars[at]
    }

    /// What counts of its keys.
    pub fn count(&self) -> KeyCount
        ensures value { Counts self.now.format result }
        ensures row { result.row ≤ result.columns }
    {
        KeyCount {
            place: self.place,
            is_further: self.first > 0,
            has_row: self.ends.len() > self.first,
            row: self.row_columns(),
            bars: self.bars,
            columns: self.asked.len(),
        }
    }

    /// How many columns the row begun has.
    pub(super) fn row_columns(&self) -> usize
        ensures value { result ≡ columns_of_keys self.now.format.row }
        ensures few { result ≤ length self.now.format.asked }
    {
        columns_of(&self.keys.as_slice()[last_end(self.ends.as_slice())..])
    }

    /// How many keys the row begun has.
    pub(super) fn row_len(&self) -> usize
        ensures { result ≡ length self.now.format.row }
    {
        self.keys.len() - last_end(self.ends.as_slice())
    }
}

/// Where the last row ends.
fn last_end(ends: &[usize]) -> usize
    ensures { result ≡ last_end 0 ends.now }
{
    match ends.last() {
        Some(end) => *end,
        None => 0,
    }
}
