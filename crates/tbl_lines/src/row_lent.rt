//! A row whose lines are given, with its cells.

ghost use Rattle.std.specs.Prelude.{◌≡◌, suc, ◌+◌, ◌-◌, ◌<◌, ◌∷◌, drop, get_or, length};
ghost use Rattle.tbl_format.specs.Cells.{end_of, start_of};
ghost use Rattle.tbl_kept.specs.Rows.{no_column};
ghost use Rattle.tbl_lines.specs.PictureLines.{bars_at_edge, bars_between};
ghost use Rattle.tbl_format.specs.FormatLaws.{bars_among};
ghost use Rattle.tbl_lines.specs.RowsWalked.{IsNarrow};
ghost use Rattle.tbl_lines.specs.RowsLent.{LiesInColumns, lent_columns, lent_format};

use crate::fronts::Front;
use tbl_format::cells::{cell_count, end_of, start_of};
use tbl_format::format::FormatKey;
use tbl_layout::bars::{Bars, edge_bars, inner_bars};
use tbl_layout::columns::Column;
use tbl_layout::entry::Entry;

/// A row, lent.
#[derive(Clone, Copy)]
pub struct RowLent<'a> {
    /// The bars of the table's picture.
    pub bars: Bars,
    /// How wide it is.
    pub width: usize,
    /// The table's bytes.
    pub bytes: &'a [u8],
    /// The keys of the row of the formats that serves it.
    pub keys: &'a [FormatKey],
    /// How many bars it has behind the last of them.
    pub last_bars: u8,
    /// The table's columns.
    pub columns: &'a [Column],
    /// The fields that it has: rule keys behind them rule their cells still.
    pub entries: &'a [Entry],
    /// How many lines it has.
    pub height: u32,
    /// Whether each of its cells has one column.
    pub is_plain: bool,
    /// What stands in front of each cell, and behind the last, if its keys don't say that.
    pub fronts: Option<&'a [Front]>,
}

/// How many bars stand in front of the key of a cell of a row, or behind the last, of which there
/// are so many.
pub fn bars_among(keys: &[FormatKey], last_bars: u8, at: usize) -> u8
    ensures { result ≡ bars_among keys.now last_bars at }
{
    if at < keys.len() {
        keys[at].bars
    } else if at == keys.len() {
        last_bars
    } else {
        0
    }
}

impl RowLent<'_> {
    /// How many cells it has.
    pub fn cells(&self) -> usize
        requires { LiesInColumns self.now }
        ensures { result ≡ length (lent_columns self.now) }
    {
        if self.is_plain {
            self.columns.len()
        } else {
            cell_count(self.keys, self.columns.len())
        }
    }

    /// Behind which column a cell begins.
    // It is called for each cell.
    #[inline(always)]
    pub fn start_of(&self, cell: usize) -> usize
        requires lies { LiesInColumns self.now }
        requires within { cell < length (lent_columns self.now) }
        ensures { result ≡ start_of self.now.keys.now cell }
    {
        if self.is_plain {
            cell
        } else {
            start_of(self.keys, cell)
        }
    }

    /// The columns of a cell as one.
    // It is called for each cell.
    #[inline(always)]
    pub fn cell(&self, cell: usize) -> Column
        requires lies { LiesInColumns self.now }
        requires within { cell < length (lent_columns self.now) }
        ensures at { drop cell (lent_columns self.now)
            ≡ result ∷ drop (suc cell) (lent_columns self.now) }
        ensures narrow { IsNarrow result }
    {
        let mut column = self.columns[self.start_of(cell)];
        if !self.is_plain {
            column.width = self.width_of(cell, column.start);
        }
        column
    }

    /// How wide a cell is that begins at a column of the page.
    // Most rows have cells of one column alone.
    #[inline(never)]
    fn width_of(&self, cell: usize, start: usize) -> usize
        requires lies { LiesInColumns self.now }
        requires within { cell < length (lent_columns self.now) }
        ensures { let last
            = get_or self.now.columns.now (end_of self.now.keys.now cell - 1) no_column in
            result ≡ last.start + last.width - start }
    {
        let last = self.columns[end_of(self.keys, cell) - 1];
        (last.start + last.width).saturating_sub(start)
    }

    /// How many bars stand in front of a cell, or behind the last.
    pub fn edge_bars(&self, at: usize) -> u8
        ensures { result ≡ bars_at_edge self.now.bars.boxing (lent_format self.now) at }
    {
        edge_bars(self.bars.boxing, bars_among(self.keys, self.last_bars, at))
    }

    /// How many bars stand in front of a cell that isn't the first.
    pub fn bars_between(&self, at: usize) -> u8
        ensures { result ≡ bars_between self.now.bars.boxing (lent_format self.now) at }
    {
        inner_bars(self.bars.boxing, bars_among(self.keys, self.last_bars, at))
    }
}
