//! The lines of a row, on which cells of several rows stand (Lesk, "Tbl": Formatting).

ghost use Rattle.std.specs.Prelude.{◌≡◌, ℕ, suc, ◌-◌, ◌<◌, ◌≤◌, ◌^◌, List, [], ◌∷◌, ◌++◌};
ghost use Rattle.std.specs.Prelude.{length, drop, take, vec_capacity};
ghost use Rattle.std.specs.List.{slice_range};
ghost use Rattle.tbl_format.specs.FormatRows.{AreWithin};
ghost use Rattle.tbl_layout.specs.Spans.{as_one, cells_of};
ghost use Rattle.tbl_layout.specs.Widths.{inner_bars};
ghost use Rattle.tbl_layout.specs.declared.bars.Bars.{Bars};
ghost use Rattle.tbl_lines.specs.CellsLeft.{Left};
ghost use Rattle.tbl_lines.specs.LinesLeft.{Shown, between, bars_there, crossed_or_not, end_by};
ghost use Rattle.tbl_lines.specs.LinesLeft.{joined_here, row_cut, row_line, row_shown, shown};
ghost use Rattle.tbl_lines.specs.PictureLines.{Cell};
ghost use Rattle.tbl_lines.specs.RowsLeft.{cell_of_front};
ghost use Rattle.tbl_lines.specs.RowsWalked.{AreNarrow, HasBars, IsNarrow};
ghost use Rattle.tbl_line_cells.specs.KeptCells.{AllLeft, AreKept, IsLeft};
ghost use Rattle.tbl_line_cells.specs.LaidCells.{on_line};
ghost use Rattle.tbl_line_cells.specs.LinesDrawn.{CutOn, Draws, LineHasRoom, KeepsRow};
ghost use Rattle.tbl_line_cells.specs.LinesDrawn.{RowIsLaid, SoFar};
ghost use Rattle.tbl_line_cells.specs.LinesDrawn.{kept_line};
ghost use Rattle.tbl_line_cells.specs.LinesDrawn.{keys_in};

use crate::cells::CellLeft;
use crate::laid_cells::{laid, laid_within};
use crate::line_cells::LineCells;
use input_escapes::OpenEscapes;
use tbl_layout::bars::{Bars, edge_bars, inner_bars};
use tbl_layout::columns::{Column, bar_place};
use tbl_layout::data_lines::RuleSign;
use tbl_layout::entry::EntryKind;
use tbl_lines::fronts::Front;
use tbl_lines::row_columns::joint;
use tbl_options::options::Boxing;

impl LineCells {
    /// The next line of a row with these cells.
    pub fn lay_row(
        &mut self,
        escapes: &mut OpenEscapes,
        bytes: &[u8],
        cells: &[CellLeft],
        last_bars: u8,
        columns: &[Column],
        bars: Bars,
        width: usize,
    )
        requires some { 0 < length cells.now }
        requires within { AreWithin (length columns.now) (keys_in cells.now) }
        requires narrow { AreNarrow columns.now }
        requires few { length columns.now < 2 ^ 32 }
        requires wide { width < 2 ^ 32 }
        requires kept { AreKept bytes.now cells.now }
        requires room { LineHasRoom (length columns.now) self.old }
        ensures draws { (lefts : List Left) → AllLeft bytes.now cells.now lefts
            → Draws bytes.now bars width (kept_line self.new)
            (row_line (record { bars = bars; width = width; columns = columns.now }) last_bars
            lefts) }
        ensures cut { (lefts : List Left) → AllLeft bytes.now cells.now lefts
            → CutOn (length columns.now) (kept_line self.new)
            (row_cut (record { bars = bars; width = width; columns = columns.now }) last_bars
            lefts) }
        ensures escapes { escapes.new.room ≡ escapes.old.room }
        ensures few { length self.new.entries.items ≤ length columns.now }
        ensures signs { self.new.signs ≡ self.old.signs }
        ensures room { (room : ℕ) → LineHasRoom room self.old → LineHasRoom room self.new }
    {
        self.clear();
        self.lay_all(cells, last_bars, columns, bars.boxing, width);
        self.cut_all(escapes, bytes, columns, bars.has_any, width);
        self.order();
        self.finish();
    }

    /// All cells of a row, and what stands in front of them and behind the last.
    fn lay_all(
        &mut self,
        cells: &[CellLeft],
        last_bars: u8,
        columns: &[Column],
        boxing: Boxing,
        width: usize,
    )
        requires some { 0 < length cells.now }
        requires within { AreWithin (length columns.now) (keys_in cells.now) }
        requires narrow { AreNarrow columns.now }
        requires empty { self.old.cells.items ≡ [] }
        requires no_front { self.old.fronts.items ≡ [] }
        requires room { LineHasRoom (length columns.now) self.old }
        ensures so_far { (bytes : List ℕ) (bars : Bars) (lefts : List Left) → bars.boxing ≡ boxing
            → AllLeft bytes cells.now lefts → SoFar bytes (kept_line self.old) [] []
            → RowIsLaid bytes (record { bars = bars; width = width; columns = columns.now })
            (kept_line self.new) last_bars lefts }
        ensures keeps { KeepsRow self.old self.new }
        ensures count { length self.new.cells.items ≡ length cells.now }
        ensures count_fronts { length self.new.fronts.items ≡ suc (length cells.now) }
    {
        let left = edge_bars(boxing, cells[0].key.bars);
        self.push_front(bars_at(0, left));
        let column = self.lay_cells(cells, columns, boxing);
        let last = &cells[cells.len() - 1];
        self.push_cell(last, column, column.start + column.width);
        let right = edge_bars(boxing, last_bars);
        self.push_front(bars_at(width.saturating_sub(right as usize), right));
    }

    /// All cells of a row but the last, and what stands between them. Answers the columns of that.
    fn lay_cells(&mut self, cells: &[CellLeft], columns: &[Column], boxing: Boxing) -> Column
        requires some { 0 < length cells.now }
        requires within { AreWithin (length columns.now) (keys_in cells.now) }
        requires narrow { AreNarrow columns.now }
        requires empty { self.old.cells.items ≡ [] }
        requires one { length self.old.fronts.items ≡ 1 }
        requires room { LineHasRoom (length columns.now) self.old }
        ensures narrow { IsNarrow result }
        ensures last { drop (length cells.now - 1) (cells_of (keys_in cells.now) columns.now)
            ≡ result ∷ drop (length cells.now) (cells_of (keys_in cells.now) columns.now) }
        ensures so_far { (bytes : List ℕ) (lefts : List Left) (fronts : List Cell)
            → AllLeft bytes cells.now lefts → SoFar bytes (kept_line self.old) [] fronts
            → let all = cells_of (keys_in cells.now) columns.now in
            SoFar bytes (kept_line self.new)
            (take (length cells.now - 1) (row_shown boxing lefts all))
            (fronts ++ between boxing lefts all) }
        ensures line { self.new ≡ record self.old {
          cells = self.new.cells;
          has_running = self.new.has_running;
          fronts = self.new.fronts;
        } }
        ensures count { suc (length self.new.cells.items) ≡ length cells.now }
        ensures count_fronts { length self.new.fronts.items ≡ length cells.now }
        ensures capacity { vec_capacity self.new.cells ≡ vec_capacity self.old.cells }
        ensures capacity_fronts { vec_capacity self.new.fronts ≡ vec_capacity self.old.fronts }
    {
        let mut column = as_one(columns, 0, cells[0].key.end as usize);
        for at in 0..cells.len() - 1 {
            let cell = &cells[at];
            let next_cell = &cells[at + 1];
            let next = as_one(columns, cell.key.end as usize, next_cell.key.end as usize);
            self.lay_between(boxing, cell, next_cell, column, next);
            column = next;
        }
        column
    }

    /// A cell of a row, and what stands behind it, in front of the next one.
    fn lay_between(
        &mut self,
        boxing: Boxing,
        cell: &CellLeft,
        next_cell: &CellLeft,
        column: Column,
        next: Column,
    )
        requires narrow { IsNarrow column }
        requires narrow_next { IsNarrow next }
        requires room { length self.old.cells.items < vec_capacity self.old.cells }
        requires room_fronts { length self.old.fronts.items < vec_capacity self.old.fronts }
        ensures so_far { (bytes : List ℕ) (l m : Left) (done : List Shown) (fronts : List Cell)
            → IsLeft bytes cell.now l → IsLeft bytes next_cell.now m
            → SoFar bytes (kept_line self.old) done fronts
            → let bars = inner_bars boxing m.key.bars in
            SoFar bytes (kept_line self.new)
            (done ++ shown l column (end_by (joined_here l m) bars column next) ∷ [])
            (fronts ++ crossed_or_not (joined_here l m) bars column next ∷ []) }
        ensures line { self.new ≡ record self.old {
          cells = self.new.cells;
          has_running = self.new.has_running;
          fronts = self.new.fronts;
        } }
        ensures count { length self.new.cells.items ≡ suc (length self.old.cells.items) }
        ensures count_fronts { length self.new.fronts.items
            ≡ suc (length self.old.fronts.items) }
        ensures capacity { vec_capacity self.new.cells ≡ vec_capacity self.old.cells }
        ensures capacity_fronts { vec_capacity self.new.fronts ≡ vec_capacity self.old.fronts }
    {
        let bars = inner_bars(boxing, next_cell.key.bars);
        let joined = cell.joined(*next_cell);
        self.push_cell(cell, column, end_by(joined, bars, column, next));
        self.push_front(front_between(joined, bars, column, next));
    }

    /// A cell, whose rule, if it is one, ends at a column of the page.
    // It is called for each cell.
    #[inline(always)]
    pub fn push_cell(&mut self, cell: &CellLeft, column: Column, end: usize)
        requires narrow { IsNarrow column }
        requires end { end < 2 ^ 32 }
        requires room { length self.old.cells.items < vec_capacity self.old.cells }
        ensures so_far { (bytes : List ℕ) (l : Left) (done : List Shown) (fronts : List Cell)
            → IsLeft bytes cell.now l → SoFar bytes (kept_line self.old) done fronts
            → SoFar bytes (kept_line self.new) (done ++ shown l column end ∷ []) fronts }
        ensures line { self.new ≡ record self.old {
          cells = self.new.cells;
          has_running = self.new.has_running;
        } }
        ensures count { length self.new.cells.items ≡ suc (length self.old.cells.items) }
        ensures capacity { vec_capacity self.new.cells ≡ vec_capacity self.old.cells }
    {
        match cell.entry.kind {
            EntryKind::Ruled(_) => self.push_any(cell, column, end),
            _ => {
                if cell.lead == 0 && !cell.runs_on(column) {
                    self.cells.push_reserved(laid_within(*cell, column));
                } else {
                    self.push_any(cell, column, end);
                }
            }
        }
    }

    /// A cell that may be a rule, begin below the line, or run on. Its rule, if it is one, ends at
    /// a column of the page.
    // Such a cell is rare.
    #[inline(never)]
    fn push_any(&mut self, cell: &CellLeft, column: Column, end: usize)
        requires narrow { IsNarrow column }
        requires end { end < 2 ^ 32 }
        requires room { length self.old.cells.items < vec_capacity self.old.cells }
        ensures so_far { (bytes : List ℕ) (l : Left) (done : List Shown) (fronts : List Cell)
            → IsLeft bytes cell.now l → SoFar bytes (kept_line self.old) done fronts
            → SoFar bytes (kept_line self.new) (done ++ shown l column end ∷ []) fronts }
        ensures line { self.new ≡ record self.old {
          cells = self.new.cells;
          has_running = self.new.has_running;
        } }
        ensures count { length self.new.cells.items ≡ suc (length self.old.cells.items) }
        ensures capacity { vec_capacity self.new.cells ≡ vec_capacity self.old.cells }
    {
        let laid = laid(*cell, column, end);
        self.has_running = self.has_running || laid.runs_on.is_some();
        self.cells.push_reserved(laid);
    }
}

/// The columns of a cell as one.
pub fn as_one(columns: &[Column], start: usize, end: usize) -> Column
    requires order { start < end }
    requires within { end ≤ length columns.now }
    requires narrow { AreNarrow columns.now }
    ensures value { result ≡ as_one (slice_range columns.now start end) }
    ensures narrow { IsNarrow result }
{
    let mut column = columns[start];
    let last = columns[end - 1];
    column.width = (last.start + last.width).saturating_sub(column.start);
    column
}

/// Where a rule over a cell ends: one that is drawn alike goes on with it, up to the bars between
/// them.
fn end_by(joined: Option<RuleSign>, bars: u8, column: Column, next: Column) -> usize
    requires narrow { IsNarrow column }
    requires narrow_next { IsNarrow next }
    ensures value { result ≡ end_by joined bars column next }
    ensures most { result < 2 ^ 32 }
{
    match joined {
        Some(_) => joint(bars, column, next),
        None => column.start + column.width,
    }
}

/// What stands between two cells, with so many bars between them: a rule that goes on crosses
/// them.
fn front_between(joined: Option<RuleSign>, bars: u8, column: Column, next: Column) -> Front
    requires { IsNarrow column }
    ensures shows { on_line (cell_of_front result)
        ≡ on_line (crossed_or_not joined bars column next) }
    ensures some { HasBars result }
{
    if bars == 0 {
        return Front::Nothing;
    }
    let place = bar_place(bars, column, next);
    match joined {
        Some(sign) => Front::Crossed(place, bars, sign, next.start),
        None => Front::Bars(place, bars),
    }
}

/// So many bars that begin at a column of the page.
pub fn bars_at(at: usize, count: u8) -> Front
    ensures shows { on_line (cell_of_front result) ≡ on_line (bars_there at count) }
    ensures some { HasBars result }
{
    if count == 0 {
        Front::Nothing
    } else {
        Front::Bars(at, count)
    }
}
