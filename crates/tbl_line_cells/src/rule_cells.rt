//! Lines of rules in front of a row, through which cells of it may go (Lesk, "Tbl": Formatting).

ghost use Rattle.std.specs.Prelude.{◌≡◌, ℕ, suc, nat_lt, ◌+◌, ◌<◌, ◌≤◌, ◌^◌, ◌&&◌};
ghost use Rattle.std.specs.Prelude.{List, [], ◌∷◌, ◌++◌, drop, get_or, length, None};
ghost use Rattle.std.specs.Prelude.{true, not, vec_capacity, if◌then◌else◌};
ghost use Rattle.tbl_layout.specs.Columns.{bar_place};
ghost use Rattle.tbl_layout.specs.declared.bars.Bars.{Bars};
ghost use Rattle.tbl_lines.specs.CellsLeft.{Left};
ghost use Rattle.tbl_lines.specs.LinesLeft.{Beside, Shown, front_between, if_ruled};
ghost use Rattle.tbl_lines.specs.LinesLeft.{bars_met, if_drawn, over_at, over_shown};
ghost use Rattle.tbl_lines.specs.LinesLeft.{overs, rule_cut, rule_line_left};
ghost use Rattle.tbl_lines.specs.PictureLines.{Cell, RuleLine, Sheet};
ghost use Rattle.tbl_lines.specs.RowsWalked.{AreNarrow, IsNarrow};
ghost use Rattle.tbl_line_cells.specs.LinesDrawn.{CutOn, Draws, LineHasRoom, KeepsRow, SoFar};
ghost use Rattle.tbl_line_cells.specs.LinesDrawn.{kept_line};
ghost use Rattle.tbl_line_cells.specs.LinesDrawn.{keys_in};
ghost use Rattle.tbl_line_cells.specs.RulesDrawn.{Cover, HasColumn, LaidTo, RuleGiven, RuleIsGiven};
ghost use Rattle.tbl_line_cells.specs.RulesDrawn.{RuleIsLaid, StandsAs};
ghost use Rattle.tbl_line_cells.specs.RulesDrawn.{begin_from, edge_drawn, front_list};
ghost use Rattle.tbl_line_cells.specs.RulesDrawn.{is_whole_line};

use crate::cells::CellLeft;
use crate::laid_cells::{drawn_at, nothing_ruled, repeated};
use crate::line_cells::LineCells;
use crate::row_cells::{as_one, bars_at};
use crate::rule_places::{bars_begin, end_of, left_end, right_end, rule_begin, rule_end};
use input_escapes::OpenEscapes;
use tbl_layout::columns::{Column, bar_place, bars_end};
use tbl_layout::data_lines::RuleSign;
use tbl_lines::fronts::Front;

impl LineCells {
    /// A line of rules in front of a row with these cells, at whose boundaries so many bars meet or
    /// stand.
    pub fn lay_rule(
        &mut self,
        escapes: &mut OpenEscapes,
        bytes: &[u8],
        cells: &[CellLeft],
        counts: &[u8],
        columns: &[Column],
        is_whole: bool,
        width: usize,
    )
        requires some { 0 < length columns.now }
        requires few { length columns.now < 2 ^ 32 }
        requires cover { Cover 0 (length columns.now) (keys_in cells.now) }
        requires signs { length self.old.signs.items ≡ length columns.now }
        requires counts { length counts.now ≡ length columns.now + 1 }
        requires narrow { AreNarrow columns.now }
        requires wide { width < 2 ^ 32 }
        requires room { LineHasRoom (length columns.now) self.old }
        requires given { RuleIsGiven bytes.now cells.now self.old.signs.items counts.now
            columns.now is_whole }
        ensures draws { (lefts : List Left) (bars : Bars) (line : RuleLine)
            (above below : Beside) → is_whole ≡ is_whole_line line
            → RuleGiven bytes.now cells.now self.old.signs.items counts.now columns.now lefts bars
            line above below
            → let s : Sheet = record { bars = bars; width = width; columns = columns.now } in
            Draws bytes.now (record bars { has_any = true }) width (kept_line self.new)
            (rule_line_left s line lefts above below) }
        ensures cut { (lefts : List Left) (bars : Bars) (line : RuleLine)
            (above below : Beside) → is_whole ≡ is_whole_line line
            → RuleGiven bytes.now cells.now self.old.signs.items counts.now columns.now lefts bars
            line above below
            → let s : Sheet = record { bars = bars; width = width; columns = columns.now } in
            CutOn (length columns.now) (kept_line self.new) (rule_cut s line lefts above below) }
        ensures escapes { escapes.new.room ≡ escapes.old.room }
        ensures few { length self.new.entries.items ≤ length columns.now }
        ensures room { (room : ℕ) → LineHasRoom room self.old → LineHasRoom room self.new }
    {
        self.clear();
        self.lay_ruled(cells, counts, columns, is_whole, width);
        self.cut_all(escapes, bytes, columns, true, width);
        self.order();
        self.finish();
    }

    /// What stands over all columns and between them, with the edges of the picture.
    fn lay_ruled(
        &mut self,
        cells: &[CellLeft],
        counts: &[u8],
        columns: &[Column],
        is_whole: bool,
        width: usize,
    )
        requires some { 0 < length columns.now }
        requires few { length columns.now < 2 ^ 32 }
        requires cover { Cover 0 (length columns.now) (keys_in cells.now) }
        requires signs { length self.old.signs.items ≡ length columns.now }
        requires counts { length counts.now ≡ length columns.now + 1 }
        requires narrow { AreNarrow columns.now }
        requires wide { width < 2 ^ 32 }
        requires empty { self.old.cells.items ≡ [] }
        requires no_front { self.old.fronts.items ≡ [] }
        requires room { LineHasRoom (length columns.now) self.old }
        ensures laid { (bytes : List ℕ) (lefts : List Left) (bars : Bars) (line : RuleLine)
            (above below : Beside) → is_whole ≡ is_whole_line line
            → RuleGiven bytes cells.now self.old.signs.items counts.now columns.now lefts bars
            line above below → SoFar bytes (kept_line self.old) [] []
            → RuleIsLaid bytes (record { bars = bars; width = width; columns = columns.now })
            (kept_line self.new) line lefts above below }
        ensures keeps { KeepsRow self.old self.new }
        ensures few { length self.new.cells.items ≤ length columns.now }
    {
        let left = counts[0];
        let last = counts[columns.len()];
        let right = width.saturating_sub(last as usize);
        let is_left = rules_edge(is_whole, cells[0]);
        let is_right = rules_edge(is_whole, cells[cells.len() - 1]);
        self.push_front(edge(is_left, 0, left));
        let from = left_end(is_left, left, columns);
        let to = right_end(is_right, right, columns);
        self.lay_columns(cells, counts, columns, from, to);
        self.push_front(edge(is_right, right, last));
    }

    /// What stands over all columns, the first of which is ruled from a place on, and the last up
    /// to one, and between them.
    fn lay_columns(
        &mut self,
        cells: &[CellLeft],
        counts: &[u8],
        columns: &[Column],
        from: usize,
        to: usize,
    )
        requires some { 0 < length columns.now }
        requires cover { Cover 0 (length columns.now) (keys_in cells.now) }
        requires signs { length self.old.signs.items ≡ length columns.now }
        requires counts { length counts.now ≡ length columns.now + 1 }
        requires narrow { AreNarrow columns.now }
        requires small { from < 2 ^ 32 }
        requires small_to { to < 2 ^ 32 }
        requires room { length columns.now ≤ vec_capacity self.old.cells }
        requires front_room { length columns.now < vec_capacity self.old.fronts }
        requires none { self.old.cells.items ≡ [] }
        requires one { length self.old.fronts.items ≡ 1 }
        ensures laid { (bytes : List ℕ) (lefts : List Left) (bars : Bars) (width : ℕ)
            (line : RuleLine) (above below : Beside) (edge : Cell)
            → RuleGiven bytes cells.now self.old.signs.items counts.now columns.now lefts bars line
            above below → SoFar bytes (kept_line self.old) [] (edge ∷ [])
            → LaidTo bytes (kept_line self.new)
            (record { bars = bars; width = width; columns = columns.now })
            lefts line above below edge from to (length columns.now) }
        ensures line { self.new ≡ record self.old {
          cells = self.new.cells;
          has_running = self.new.has_running;
          fronts = self.new.fronts;
        } }
        ensures few { length self.new.cells.items ≤ length columns.now }
        ensures few_fronts { length self.new.fronts.items ≤ length columns.now }
        ensures capacity { vec_capacity self.new.cells ≡ vec_capacity self.old.cells }
        ensures front_capacity { vec_capacity self.new.fronts ≡ vec_capacity self.old.fronts }
    {
        let mut cell = 0;
        for at in 0..columns.len() {
            let next = cell_behind(cells, cell, at);
            let begin = rule_begin(columns, from, at);
            let end = rule_end(columns, to, at);
            self.lay_over(cells, columns, cell, at, begin, end);
            self.lay_front(cells, counts, columns, cell, next, at);
            cell = next;
        }
    }

    /// What stands over a column of a cell, which is ruled from a place up to another, or goes
    /// through the line.
    fn lay_over(
        &mut self,
        cells: &[CellLeft],
        columns: &[Column],
        cell: usize,
        at: usize,
        from: usize,
        to: usize,
    )
        requires cover { Cover 0 (length columns.now) (keys_in cells.now) }
        requires signs { length self.old.signs.items ≡ length columns.now }
        requires within { at < length columns.now }
        requires column { HasColumn (keys_in cells.now) cell at }
        requires narrow { AreNarrow columns.now }
        requires small { from < 2 ^ 32 }
        requires small_to { to < 2 ^ 32 }
        requires room { length self.old.cells.items < vec_capacity self.old.cells }
        ensures so_far { (bytes : List ℕ) (counts : List ℕ) (lefts : List Left) (bars : Bars)
            (line : RuleLine) (above below : Beside) (done : List Shown) (fronts : List Cell)
            → RuleGiven bytes cells.now self.old.signs.items counts columns.now lefts bars line
            above below → SoFar bytes (kept_line self.old) done fronts
            → SoFar bytes (kept_line self.new) (done
            ++ over_shown line at (over_at (overs 0 lefts columns.now) at) from to) fronts }
        ensures line { self.new
            ≡ record self.old { cells = self.new.cells; has_running = self.new.has_running } }
        ensures few { length self.new.cells.items ≤ suc (length self.old.cells.items) }
        ensures capacity { vec_capacity self.new.cells ≡ vec_capacity self.old.cells }
    {
        if !cells[cell].goes_on() {
            self.push_ruled(at, from, to);
        } else if at == begin_of(cells, cell) {
            let column = as_one(columns, at, begin_of(cells, cell + 1));
            self.push_cell(&cells[cell], column, column.start + column.width);
        }
    }

    /// A column that the line rules, or not, from a place up to another.
    fn push_ruled(&mut self, at: usize, from: usize, to: usize)
        requires within { at < length self.old.signs.items }
        requires small { from < 2 ^ 32 }
        requires small_to { to < 2 ^ 32 }
        requires room { length self.old.cells.items < vec_capacity self.old.cells }
        ensures so_far { (bytes : List ℕ) (done : List Shown) (fronts : List Cell)
            → SoFar bytes (kept_line self.old) done fronts → SoFar bytes (kept_line self.new)
            (done ++ if_drawn (get_or self.old.signs.items at None) from to) fronts }
        ensures line { self.new ≡ record self.old { cells = self.new.cells } }
        ensures count { length self.new.cells.items ≡ suc (length self.old.cells.items) }
        ensures capacity { vec_capacity self.new.cells ≡ vec_capacity self.old.cells }
    {
        match self.signs[at] {
            Some(sign) => {
                self.push_drawn(drawn_at(from, to.saturating_sub(from)), repeated(sign));
            }
            None => {
                self.push_drawn(drawn_at(from, 0), nothing_ruled());
            }
        }
    }

    /// What stands between a column of a cell and the next one, which another has or the same:
    /// within one nothing does.
    fn lay_front(
        &mut self,
        cells: &[CellLeft],
        counts: &[u8],
        columns: &[Column],
        cell: usize,
        next: usize,
        at: usize,
    )
        requires cover { Cover 0 (length columns.now) (keys_in cells.now) }
        requires signs { length self.old.signs.items ≡ length columns.now }
        requires counts { length counts.now ≡ length columns.now + 1 }
        requires within { at < length columns.now }
        requires column { HasColumn (keys_in cells.now) cell at }
        requires next { at + 1 < length columns.now
            → HasColumn (keys_in cells.now) next (at + 1) }
        requires narrow { AreNarrow columns.now }
        requires room { at + 1 < length columns.now
            → length self.old.fronts.items < vec_capacity self.old.fronts }
        ensures so_far { (bytes : List ℕ) (lefts : List Left) (bars : Bars) (width : ℕ)
            (line : RuleLine) (above below : Beside) (done : List Shown) (fronts : List Cell)
            → RuleGiven bytes cells.now self.old.signs.items counts.now columns.now lefts bars line
            above below → SoFar bytes (kept_line self.old) done fronts
            → let s : Sheet = record { bars = bars; width = width; columns = columns.now } in
            SoFar bytes (kept_line self.new) done (fronts
            ++ front_list s line (overs 0 lefts columns.now) above below at
            (drop at columns.now)) }
        ensures line { self.new ≡ record self.old { fronts = self.new.fronts } }
        ensures few { length self.new.fronts.items ≤ suc (length self.old.fronts.items) }
        ensures last { at + 1 ≡ length columns.now
            → self.new.fronts.items ≡ self.old.fronts.items }
        ensures capacity { vec_capacity self.new.fronts ≡ vec_capacity self.old.fronts }
    {
        if at + 1 < columns.len() {
            if !is_within(cells, next, at + 1) {
                self.push_front(self.front_of(cells, counts, columns, cell, next, at));
            }
        }
    }

    /// What stands between two columns of cells.
    fn front_of(
        &self,
        cells: &[CellLeft],
        counts: &[u8],
        columns: &[Column],
        cell: usize,
        next: usize,
        at: usize,
    ) -> Front
        requires cover { Cover 0 (length columns.now) (keys_in cells.now) }
        requires signs { length self.now.signs.items ≡ length columns.now }
        requires counts { length counts.now ≡ length columns.now + 1 }
        requires within { at + 1 < length columns.now }
        requires column { HasColumn (keys_in cells.now) cell at }
        requires next { HasColumn (keys_in cells.now) next (at + 1) }
        requires narrow { AreNarrow columns.now }
        ensures stands { (bytes : List ℕ) (lefts : List Left) (bars : Bars) (line : RuleLine)
            (above below : Beside) (c d : Column) (others : List Column)
            → RuleGiven bytes cells.now self.now.signs.items counts.now columns.now lefts bars line
            above below → drop at columns.now ≡ c ∷ d ∷ others
            → let all = overs 0 lefts columns.now in
            let count = bars_met bars (length columns.now) line all above below (suc at) in
            StandsAs result
            (front_between line at (over_at all at) (over_at all (suc at)) count c d) }
    {
        let (column, behind) = (columns[at], columns[at + 1]);
        let count = counts[at + 1];
        if !cells[cell].goes_on() {
            let to = bars_end(column, behind);
            return ruled(self.signs[at], end_of(column), to, count, column, behind);
        }
        if !cells[next].goes_on() {
            let (from, to) = (bars_begin(column, behind), bars_end(column, behind));
            return ruled(self.signs[at + 1], from, to, count, column, behind);
        }
        let joined = cells[cell].joined(cells[next]);
        ruled(joined, end_of(column), behind.start, count, column, behind)
    }
}

/// Whether a line of rules rules an edge beside a cell.
fn rules_edge(is_whole: bool, cell: CellLeft) -> bool
    ensures { result ≡ (is_whole && not (nat_lt 0 cell.rows)) }
{
    is_whole && !cell.goes_on()
}

/// Behind how many columns a cell begins.
fn begin_of(cells: &[CellLeft], cell: usize) -> usize
    requires { cell ≤ length cells.now }
    ensures { result ≡ begin_from 0 cell (keys_in cells.now) }
{
    if cell == 0 {
        0
    } else {
        cells[cell - 1].key.end as usize
    }
}

/// The cell that has the column behind one of a cell.
fn cell_behind(cells: &[CellLeft], cell: usize, at: usize) -> usize
    requires column { HasColumn (keys_in cells.now) cell at }
    requires small { at + 1 < 2 ^ 64 }
    ensures { (count : ℕ) → Cover 0 count (keys_in cells.now)
        → at + 1 < count → HasColumn (keys_in cells.now) result (at + 1) }
{
    if at + 1 == begin_of(cells, cell + 1) {
        cell + 1
    } else {
        cell
    }
}

/// Whether a column is a further one of a cell that goes through the line.
fn is_within(cells: &[CellLeft], cell: usize, at: usize) -> bool
    requires column { HasColumn (keys_in cells.now) cell at }
    ensures { (c : CellLeft) → result
        ≡ (nat_lt 0 (get_or cells.now cell c).rows
        && nat_lt (begin_from 0 cell (keys_in cells.now)) at) }
{
    cells[cell].goes_on() && begin_of(cells, cell) < at
}

/// A rule from a place up to another one, which so many bars between two columns cross; or these.
fn ruled(
    sign: Option<RuleSign>,
    from: usize,
    to: usize,
    count: u8,
    column: Column,
    next: Column,
) -> Front
    requires { IsNarrow column }
    ensures { from ≤ bar_place count column next → bar_place count column next + count ≤ to
        → StandsAs result (if_ruled sign from count column next to) }
{
    let place = bar_place(count, column, next);
    match sign {
        Some(sign) => Front::Ruled(from, sign, place, count, to),
        None => bars_at(place, count),
    }
}

/// An edge, whose bars are crossed or not.
fn edge(is_ruled: bool, at: usize, count: u8) -> Front
    requires { at < 2 ^ 32 }
    ensures { StandsAs result (edge_drawn is_ruled at count) }
{
    if is_ruled && count > 0 {
        Front::Ruled(at, RuleSign::Single, at, count, at + count as usize)
    } else {
        bars_at(at, count)
    }
}
