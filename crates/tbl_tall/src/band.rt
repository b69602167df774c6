//! The lines of rules between two rows through which cells go: where they are ruled, and the bars
//! that they show (Lesk, "Tbl": Formatting).

ghost use Rattle.std.specs.List.{AllByRecursion};
ghost use Rattle.std.specs.Prelude.{◌≡◌, ℕ, ◌+◌, ◌-◌, ◌<◌, ◌≤◌, ◌^◌, List, length, get_or};
ghost use Rattle.std.specs.Prelude.{IfOk, None, false, map, nat_lt, true};
ghost use Rattle.tbl_format.specs.Cells.{AreCells};
ghost use Rattle.tbl_format.specs.Format.{columns_of_keys};
ghost use Rattle.tbl_format.specs.RowsServed.{all_rows};
ghost use Rattle.tbl_layout.specs.declared.bars.Bars.{Bars};
ghost use Rattle.tbl_layout.specs.declared.columns.Column.{Column};
ghost use Rattle.tbl_lines.specs.CellsLeft.{Left, goes_on};
ghost use Rattle.tbl_lines.specs.LinesLeft.{Beside, Nothing, OfRow, Over, is_free};
ghost use Rattle.tbl_lines.specs.LinesLeft.{over_at, overs, own_bars, rules_boundary};
ghost use Rattle.tbl_lines.specs.LinesLeft.{rules_column, sign_at};
ghost use Rattle.tbl_lines.specs.PictureLines.{RuleLine};
ghost use Rattle.tbl_line_cells.specs.KeptCells.{AllLeft, behind_rules};

mod met;

use crate::shown_bars::{push_nothing, push_owner, push_shown, push_through};
use std::alloc::{AllocError, Global};
use tbl_format::format_rows::FormatRows;
use tbl_kept::rows::key_at;
use tbl_layout::bars::{edge_bars, inner_bars};
use tbl_layout::data_lines::RuleSign;
use tbl_layout::rule_keys::rule_sign;
use tbl_line_cells::cells::CellLeft;
use tbl_lines::row_lent::bars_among;
use tbl_options::options::Boxing;

/// The lines of rules in front of a row. Boundaries are those in front of columns, and the one
/// behind the last.
#[derive(Drop)]
pub struct Band {
    /// How many rules over the whole picture there are, and behind them rows of rule keys: the
    /// first among the rows of all formats, and how many.
    wholes: usize,
    first: usize,
    count: usize,
    /// How many of them were given.
    at: usize,
    /// The cell of each column that goes through them, if one does.
    through: Vec<Option<usize>>,
    /// How many bars the line above shows at each boundary.
    above: Vec<u8>,
    /// How many bars the first line of the row below shows at each boundary.
    below: Vec<u8>,
    /// How many bars meet or stand at each boundary on the line that is given.
    pub counts: Vec<u8>,
}

impl Band {
    ghost use Rattle.tbl_tall.specs.Bands.{AlikeLines, AlikeOvers, BandFits, BandStands};
    ghost use Rattle.tbl_tall.specs.Bands.{GoThrough, BandHasRoom, ShowBars, band_line, is_cut};
    ghost use Rattle.tbl_tall.specs.Bands.{kept_band, line_given, lines_behind};
    ghost use Rattle.tbl_line_cells.specs.LinesDrawn.{keys_in};
    ghost use Rattle.tbl_tall.specs.Bands.{rest_shown, wholes_left};

    /// Room for a table of so many columns.
    pub fn new(alloc: Global, columns: usize) -> Result<Self, AllocError>
        requires { columns < 2 ^ 32 }
        ensures { IfOk result (λ b. BandHasRoom b columns) }
    {
        Ok(Band {
            wholes: 0,
            first: 0,
            count: 0,
            at: 0,
            through: Vec::with_capacity(alloc, columns)?,
            above: Vec::with_capacity(alloc, columns + 1)?,
            below: Vec::with_capacity(alloc, columns + 1)?,
            counts: Vec::with_capacity(alloc, columns + 1)?,
        })
    }

    /// How many rules over the whole picture are left to give.
    pub fn wholes_left(&self) -> usize
        ensures { result ≡ wholes_left (kept_band self.now) }
    {
        self.wholes.saturating_sub(self.at)
    }

    /// Whether a line is left to give.
    pub fn has_line(&self) -> bool
        ensures { result ≡ nat_lt self.now.at (self.now.wholes + self.now.count) }
    {
        self.at < self.wholes || self.at - self.wholes < self.count
    }

    /// Nothing stands above them, in a table of so many columns.
    pub fn begin_nothing(&mut self, columns: usize)
        requires small { columns < 2 ^ 32 }
        requires room { BandHasRoom self.old columns }
        ensures above { (boxing : Boxing) → ShowBars boxing columns self.new.above.items Nothing }
        ensures rest { kept_band self.new
            ≡ record (kept_band self.old) { above = self.new.above.items } }
        ensures room { (many : ℕ) → BandHasRoom self.old many → BandHasRoom self.new many }
    {
        self.above.clear();
        push_nothing(&mut self.above, columns + 1);
    }

    /// A line stands above them on which these cells are left.
    pub fn begin(&mut self, cells: &[CellLeft], last_bars: u8, boxing: Boxing)
        requires cells { AreCells 0 (keys_in cells.now) }
        requires some { 0 < length cells.now }
        requires small { columns_of_keys (keys_in cells.now) < 2 ^ 32 }
        requires room { BandHasRoom self.old (columns_of_keys (keys_in cells.now)) }
        ensures above { (bytes : List ℕ) (lefts : List Left) → AllLeft bytes cells.now lefts
            → ShowBars boxing (columns_of_keys (keys_in cells.now)) self.new.above.items
            (OfRow lefts last_bars) }
        ensures rest { kept_band self.new
            ≡ record (kept_band self.old) { above = self.new.above.items } }
        ensures room { (many : ℕ) → BandHasRoom self.old many → BandHasRoom self.new many }
    {
        self.above.clear();
        push_shown(&mut self.above, cells, last_bars, boxing, 0);
    }

    /// The line that stands below them stands above those that come.
    pub fn turn(&mut self)
        ensures above { self.new.above.items ≡ self.old.below.items }
        ensures room { (many : ℕ) → BandHasRoom self.old many → BandHasRoom self.new many }
    {
        std::mem::swap(&mut self.above, &mut self.below);
    }

    /// So many rules over the whole picture, and so many rows of rule keys, from one of all rows of
    /// formats on.
    pub fn set_lines(&mut self, wholes: usize, first: usize, count: usize)
        ensures lines { kept_band self.new ≡ record (kept_band self.old) {
          wholes = wholes;
          first = first;
          count = count;
          at = 0;
        } }
        ensures room { (many : ℕ) → BandHasRoom self.old many → BandHasRoom self.new many }
    {
        self.wholes = wholes;
        self.first = first;
        self.count = count;
        self.at = 0;
    }

    /// No row stands below them.
    pub fn end_nothing(&mut self, columns: usize)
        requires small { columns < 2 ^ 32 }
        requires room { BandHasRoom self.old columns }
        ensures below { (boxing : Boxing) → ShowBars boxing columns self.new.below.items Nothing }
        ensures through { (cells : List Left) (all : List Column)
            → AllByRecursion (λ (l : Left). goes_on l ≡ false) cells
            → GoThrough self.new.through.items (overs 0 cells all) }
        ensures columns { length self.new.through.items ≡ columns }
        ensures rest { kept_band self.new ≡ record (kept_band self.old) {
          through = self.new.through.items;
          below = self.new.below.items;
        } }
        ensures room { (many : ℕ) → BandHasRoom self.old many → BandHasRoom self.new many }
    {
        self.below.clear();
        push_nothing(&mut self.below, columns + 1);
        self.through.clear();
        push_owner(&mut self.through, None, columns);
    }

    /// A row stands below them of which these cells are left in front of them.
    pub fn end(&mut self, cells: &[CellLeft], last_bars: u8, boxing: Boxing)
        requires cells { AreCells 0 (keys_in cells.now) }
        requires some { 0 < length cells.now }
        requires small { columns_of_keys (keys_in cells.now) < 2 ^ 32 }
        requires room { BandHasRoom self.old (columns_of_keys (keys_in cells.now)) }
        requires lines { self.old.wholes + self.old.count < 2 ^ 62 }
        ensures below { (bytes : List ℕ) (lefts : List Left) → AllLeft bytes cells.now lefts
            → ShowBars boxing (columns_of_keys (keys_in cells.now)) self.new.below.items
            (OfRow (map (behind_rules (self.old.wholes + self.old.count)) lefts) last_bars) }
        ensures through { (bytes : List ℕ) (lefts : List Left) (columns : List Column)
            → AllLeft bytes cells.now lefts → length columns ≡ columns_of_keys (keys_in cells.now)
            → GoThrough self.new.through.items (overs 0 lefts columns) }
        ensures columns { length self.new.through.items ≡ columns_of_keys (keys_in cells.now) }
        ensures rest { kept_band self.new ≡ record (kept_band self.old) {
          through = self.new.through.items;
          below = self.new.below.items;
        } }
        ensures room { (many : ℕ) → BandHasRoom self.old many → BandHasRoom self.new many }
    {
        let rules = (self.wholes + self.count) as u128;
        self.below.clear();
        push_shown(&mut self.below, cells, last_bars, boxing, rules);
        self.through.clear();
        push_through(&mut self.through, cells);
    }

    /// How the next line is drawn over a column, if it rules that.
    pub fn sign(
        &self,
        format: &FormatRows,
        whole: Option<RuleSign>,
        column: usize,
    ) -> Option<RuleSign>
        requires fits { BandFits (all_rows format.now.format) (kept_band self.now) }
        requires column { column < length self.now.through.items }
        requires line { self.now.at < self.now.wholes + self.now.count }
        requires keys { whole ≡ None → self.now.wholes ≤ self.now.at }
        ensures { (all : List Over) → GoThrough self.now.through.items all → result
            ≡ sign_at (line_given (all_rows format.now.format) (kept_band self.now) whole)
            (over_at all column) column }
    {
        if self.through[column].is_some() {
            return None;
        }
        match whole {
            Some(sign) => Some(sign),
            None => rule_sign(key_at(format.row_of_all(self.row_at(self.at)), column)),
        }
    }

    /// The row of rule keys that a line is.
    fn row_at(&self, at: usize) -> usize
        requires { self.now.first + (at - self.now.wholes) < 2 ^ 64 }
        ensures { result ≡ self.now.first + (at - self.now.wholes) }
    {
        self.first + at.saturating_sub(self.wholes)
    }

    /// Whether no cell goes through a column.
    fn is_open(&self, column: usize) -> bool
        requires { column < length self.now.through.items }
        ensures { (all : List Over) → GoThrough self.now.through.items all
            → result ≡ is_free (over_at all column) }
    {
        self.through[column].is_none()
    }

    /// Whether a line rules a column, through which no cell goes.
    fn is_over(&self, format: &FormatRows, at: usize, column: usize) -> bool
        requires fits { BandFits (all_rows format.now.format) (kept_band self.now) }
        requires line { at < self.now.wholes + self.now.count }
        requires column { column < length self.now.through.items }
        ensures { (all : List Over) → GoThrough self.now.through.items all → result
            ≡ rules_column (band_line (all_rows format.now.format) (kept_band self.now) at) all
            column }
    {
        self.is_open(column)
            && (at < self.wholes || column < format.row_of_all(self.row_at(at)).len())
    }

    /// Whether a line rules the places of bars at a boundary.
    fn is_ruled(&self, format: &FormatRows, at: usize, boundary: usize) -> bool
        requires fits { BandFits (all_rows format.now.format) (kept_band self.now) }
        requires line { at < self.now.wholes + self.now.count }
        requires boundary { boundary ≤ length self.now.through.items }
        ensures { (all : List Over) → GoThrough self.now.through.items all → result
            ≡ rules_boundary (length self.now.through.items)
            (band_line (all_rows format.now.format) (kept_band self.now) at) all boundary }
    {
        let last = self.through.len();
        if boundary == 0 {
            return at < self.wholes && self.is_open(0);
        }
        if boundary == last {
            return at < self.wholes && self.is_open(last - 1);
        }
        self.is_over(format, at, boundary - 1) || self.is_over(format, at, boundary)
    }

    /// Whether a boundary stands within a cell that goes through the lines.
    fn is_inside(&self, boundary: usize) -> bool
        requires { boundary ≤ length self.now.through.items }
        ensures { result ≡ is_cut self.now.through.items boundary }
    {
        if boundary == 0 || boundary == self.through.len() {
            return false;
        }
        match (self.through[boundary - 1], self.through[boundary]) {
            (Some(cell), Some(next)) => cell == next,
            _ => false,
        }
    }

    /// How many bars a line has itself at a boundary that it doesn't rule.
    fn own(&self, format: &FormatRows, boxing: Boxing, at: usize, boundary: usize) -> u8
        requires fits { BandFits (all_rows format.now.format) (kept_band self.now) }
        requires line { at < self.now.wholes + self.now.count }
        ensures { result ≡ own_bars boxing (length self.now.through.items)
            (band_line (all_rows format.now.format) (kept_band self.now) at) boundary }
    {
        if at < self.wholes {
            return 0;
        }
        let row = self.row_at(at);
        let bars = bars_among(format.row_of_all(row), format.bars_of_all(row), boundary);
        if boundary == 0 || boundary == self.through.len() {
            edge_bars(boxing, bars)
        } else {
            inner_bars(boxing, bars)
        }
    }
}
