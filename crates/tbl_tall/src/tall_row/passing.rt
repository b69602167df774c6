//! The lines of the row that comes next, and those of rules in front of it: laid, and given.

ghost use Rattle.std.specs.List.{AllByRecursion};
ghost use Rattle.std.specs.Prelude.{◌≡◌, ℕ, suc, ◌-◌, ◌<◌, ◌≤◌, ◌^◌, List, length, map, nat_lt};
ghost use Rattle.std.specs.Prelude.{true};
ghost use Rattle.std.specs.Prelude.{◌+◌, [], None, get_or, vec_capacity};
ghost use Rattle.tbl_format.specs.Cells.{AreCells};
ghost use Rattle.tbl_format.specs.Format.{FormatRow, columns_of_keys};
ghost use Rattle.tbl_format.specs.RowsServed.{all_rows};
ghost use Rattle.tbl_layout.specs.Entries.{Element};
ghost use Rattle.tbl_lines.specs.CellsLeft.{Left, behind_line, bars_at_end};
ghost use Rattle.tbl_lines.specs.LinesLeft.{Beside, OfRow, OfRules, overs, row_cut, row_line};
ghost use Rattle.tbl_lines.specs.LinesLeft.{Over, over_at, rule_cut, rule_line_left, sign_at};
ghost use Rattle.tbl_lines.specs.PictureLeft.{through_rule};
ghost use Rattle.tbl_lines.specs.PictureLines.{RuleLine, Sheet};
ghost use Rattle.tbl_lines.specs.RulePlaces.{HasPlaces, HavePlaces};
ghost use Rattle.tbl_tall.specs.Bands.{BandFits, GoThrough, BandHasRoom, ShowBars};
ghost use Rattle.tbl_tall.specs.Bands.{kept_band, line_given};
ghost use Rattle.tbl_line_cells.specs.LinesDrawn.{keys_in};
ghost use Rattle.tbl_line_cells.specs.KeptCells.{AllLeft, AreKept, IsLeft};
ghost use Rattle.tbl_line_cells.specs.LinesDrawn.{CutOn, Draws};
ghost use Rattle.tbl_tall.specs.RowsPassed.{IsKept, passed};
ghost use Rattle.tbl_line_cells.specs.declared.cells.CellLeft.{CellLeft as OneCell};

use super::TallRow;
use crate::band::Band;
use input_escapes::OpenEscapes;
use tbl_format::format_rows::FormatRows;
use tbl_layout::bars::Bars;
use tbl_layout::columns::Column;
use tbl_layout::data_lines::RuleSign;
use tbl_line_cells::cells::CellLeft;
use tbl_options::options::Boxing;

impl TallRow {
    ghost use Rattle.tbl_tall.specs.LinesNext.{CanLayRow, CanLayRule};
    ghost use Rattle.tbl_tall.specs.TallRows.{Comes, LineIsNext};
    ghost use Rattle.tbl_tall.specs.TallRows.{RowEnded, RowStands, RuleComes, RuleIsNext};
    ghost use Rattle.tbl_tall.specs.TallRows.{SignIs, below_rule};
    ghost use Rattle.tbl_tall.specs.BandLaws.{HasLinePlaces, NextPlaces};

    /// A line of rules in front of the row was given.
    pub fn pass_rule(
        &mut self,
        escapes: &mut OpenEscapes,
        bytes: &[u8],
        format: &FormatRows,
        boxing: Boxing,
    )
        requires next { RuleIsNext bytes.now (all_rows format.now.format) self.old }
        ensures comes { (s : Sheet) (heights : List ℕ) (cells : List Left) (above : Beside)
            (elements rest : List Element) (line : RuleLine) → s.bars.boxing ≡ boxing
            → Comes bytes.now (all_rows format.now.format) s self.old heights cells above elements
            → RuleComes elements line rest → HasLinePlaces s line
            → Comes bytes.now (all_rows format.now.format) s self.new heights
            (map through_rule cells) (OfRules line (overs 0 cells s.columns) above) rest }
        ensures come { self.new.come ≡ self.old.come }
        ensures room { self.new.room ≡ self.old.room }
        ensures escapes { escapes.new.room ≡ escapes.old.room }
    {
        pass_cells(self.cells.as_mut_slice(), escapes, bytes, true);
        self.band.pass(format, boxing);
    }

    /// A line of the row was given. Answers whether another one follows.
    pub fn pass_line(&mut self, escapes: &mut OpenEscapes, bytes: &[u8], boxing: Boxing) -> bool
        requires next { LineIsNext bytes.now self.old }
        ensures stands { (s : Sheet) (format : FormatRow) (cells : List Left) (more : ℕ)
            → RowStands bytes.now s self.old format cells (suc more)
            → RowStands bytes.now s self.new format (map behind_line cells) more }
        ensures ended { (s : Sheet) (format : FormatRow) (cells : List Left)
            → s.bars.boxing ≡ boxing → HasPlaces s.bars.front s.columns format
            → RowStands bytes.now s self.old format cells 1
            → RowEnded bytes.now s self.new (map behind_line cells)
            (OfRow cells (bars_at_end (length s.columns) format)) }
        ensures more { result ≡ nat_lt 0 self.new.lines_left }
        ensures come { self.new.come ≡ self.old.come }
        ensures room { self.new.room ≡ self.old.room }
        ensures escapes { escapes.new.room ≡ escapes.old.room }
    {
        keep_bars(
            &mut self.band,
            self.lines_left,
            self.is_first,
            self.cells.as_slice(),
            self.last_bars,
            boxing,
        );
        pass_cells(self.cells.as_mut_slice(), escapes, bytes, false);
        self.lines_left = one_less(self.lines_left);
        self.is_first = false;
        self.lines_left > 0
    }

    /// The next line of rules in front of the row: one over the whole picture, or of rule keys.
    pub fn lay_rule(
        &mut self,
        escapes: &mut OpenEscapes,
        bytes: &[u8],
        format: &FormatRows,
        columns: &[Column],
        bars: Bars,
        whole: Option<RuleSign>,
        width: usize,
    )
        requires next { CanLayRule bytes.now (all_rows format.now.format) (record {
          bars = bars;
          width = width;
          columns = columns.now;
        }) self.old whole }
        ensures draws { (heights : List ℕ) (cells : List Left) (above : Beside)
            (elements rest : List Element) (line : RuleLine)
            → let s : Sheet = record { bars = bars; width = width; columns = columns.now } in
            HavePlaces (all_rows format.now.format) s → NextPlaces s elements
            → Comes bytes.now (all_rows format.now.format) s self.old heights cells above elements
            → RuleComes elements line rest → SignIs whole line
            → Draws bytes.now (record bars { has_any = true }) width self.new.line
            (rule_line_left s line cells above (below_rule s line cells rest)) }
        ensures cut { (heights : List ℕ) (cells : List Left) (above : Beside)
            (elements rest : List Element) (line : RuleLine)
            → let s : Sheet = record { bars = bars; width = width; columns = columns.now } in
            HavePlaces (all_rows format.now.format) s → NextPlaces s elements
            → Comes bytes.now (all_rows format.now.format) s self.old heights cells above elements
            → RuleComes elements line rest → SignIs whole line
            → CutOn (length columns.now) self.new.line
            (rule_cut s line cells above (below_rule s line cells rest)) }
        ensures escapes { escapes.new.room ≡ escapes.old.room }
        ensures few { length self.new.line.entries ≤ length columns.now }
        ensures comes { (bytes : List ℕ) (s : Sheet) (heights : List ℕ) (cells : List Left)
            (above : Beside) (elements : List Element)
            → Comes bytes (all_rows format.now.format) s self.old heights cells above elements
            → Comes bytes (all_rows format.now.format) s self.new heights cells above elements }
        ensures come { self.new.come ≡ self.old.come }
        ensures room { self.new.room ≡ self.old.room }
    {
        self.band.count(format, bars);
        self.line.clear_rule();
        let count = columns.len();
        fill_signs(&mut self.line.signs, &self.band, format, whole, count);
        self.line.lay_rule(
            escapes,
            bytes,
            self.cells.as_slice(),
            self.band.counts.as_slice(),
            columns,
            whole.is_some(),
            width,
        );
    }

    /// The next line of the row.
    pub fn lay_row(
        &mut self,
        escapes: &mut OpenEscapes,
        bytes: &[u8],
        columns: &[Column],
        bars: Bars,
        width: usize,
    )
        requires next { CanLayRow bytes.now (record {
          bars = bars;
          width = width;
          columns = columns.now;
        }) self.old }
        ensures draws { (format : FormatRow) (cells : List Left) (lines : ℕ)
            → let s : Sheet = record { bars = bars; width = width; columns = columns.now } in
            RowStands bytes.now s self.old format cells lines
            → Draws bytes.now bars width self.new.line
            (row_line s (bars_at_end (length s.columns) format) cells) }
        ensures cut { (format : FormatRow) (cells : List Left) (lines : ℕ)
            → let s : Sheet = record { bars = bars; width = width; columns = columns.now } in
            RowStands bytes.now s self.old format cells lines
            → CutOn (length columns.now) self.new.line
            (row_cut s (bars_at_end (length s.columns) format) cells) }
        ensures escapes { escapes.new.room ≡ escapes.old.room }
        ensures few { length self.new.line.entries ≤ length columns.now }
        ensures same { self.new ≡ record self.old { line = self.new.line } }
    {
        self.line.lay_row(
            escapes,
            bytes,
            self.cells.as_slice(),
            self.last_bars,
            columns,
            bars,
            width,
        );
    }
}

/// How the next line of rules is drawn over each of so many columns.
fn fill_signs(
    signs: &mut Vec<Option<RuleSign>>,
    band: &Band,
    format: &FormatRows,
    whole: Option<RuleSign>,
    columns: usize,
)
    requires fits { BandFits (all_rows format.now.format) (kept_band band.now) }
    requires columns { columns ≡ length band.now.through.items }
    requires line { band.now.at < band.now.wholes + band.now.count }
    requires keys { whole ≡ None → band.now.wholes ≤ band.now.at }
    requires none { signs.old.items ≡ [] }
    requires room { columns ≤ vec_capacity signs.old }
    ensures signs { (all : List Over) → GoThrough band.now.through.items all → (column : ℕ)
        → column < columns → get_or signs.new.items column None
        ≡ sign_at (line_given (all_rows format.now.format) (kept_band band.now) whole)
        (over_at all column) column }
    ensures many { length signs.new.items ≡ columns }
    ensures capacity { vec_capacity signs.new ≡ vec_capacity signs.old }
{
    for column in 0..columns {
        let sign = band.sign(format, whole, column);
        signs.push_reserved(sign);
    }
}

/// A line was given on which all of these cells stand, or those alone that go on.
fn pass_cells(cells: &mut [CellLeft], escapes: &mut OpenEscapes, bytes: &[u8], is_rule: bool)
    requires kept { AreKept bytes.now cells.old }
    ensures left { (lefts : List Left) → AllLeft bytes.now cells.old lefts
        → AllLeft bytes.now cells.new (map (passed is_rule) lefts) }
    ensures come { (n : ℕ) → AllByRecursion (λ (c : OneCell). c.rows ≤ n) cells.old
        → AllByRecursion (λ (c : OneCell). c.rows ≤ n) cells.new }
    ensures many { length cells.new ≡ length cells.old }
    ensures room { escapes.new.room ≡ escapes.old.room }
{
    for at in 0..cells.len() {
        let cell = &mut cells[at];
        pass_cell(cell, escapes, bytes, is_rule);
    }
}

/// A line was given on which this cell stands, or only if it goes on, where it is a line of rules.
fn pass_cell(cell: &mut CellLeft, escapes: &mut OpenEscapes, bytes: &[u8], is_rule: bool)
    requires kept { IsKept bytes.now cell.old }
    ensures left { (l : Left) → IsLeft bytes.now cell.old l
        → IsLeft bytes.now cell.new (passed is_rule l) }
    ensures rows { cell.new.rows ≡ cell.old.rows }
    ensures room { escapes.new.room ≡ escapes.old.room }
{
    if is_rule && !cell.goes_on() {
        return;
    }
    cell.pass_line(escapes, bytes);
}

/// The bars of a row's last line are kept, if of so many lines that is the next one. Those of its
/// first line are kept below the lines of rules.
fn keep_bars(
    band: &mut Band,
    lines: u32,
    is_first: bool,
    cells: &[CellLeft],
    last_bars: u8,
    boxing: Boxing,
)
    requires cells { AreCells 0 (keys_in cells.now) }
    requires some { 0 < length cells.now }
    requires small { columns_of_keys (keys_in cells.now) < 2 ^ 32 }
    requires room { BandHasRoom band.old (columns_of_keys (keys_in cells.now)) }
    ensures above { lines ≡ 1 → (bytes : List ℕ) (lefts : List Left) → AllLeft bytes cells.now lefts
        → (is_first ≡ true → ShowBars boxing (columns_of_keys (keys_in cells.now))
        band.old.below.items (OfRow lefts last_bars))
        → ShowBars boxing (columns_of_keys (keys_in cells.now)) band.new.above.items
        (OfRow lefts last_bars) }
    ensures room { (many : ℕ) → BandHasRoom band.old many → BandHasRoom band.new many }
{
    if lines != 1 {
        return;
    }
    if is_first {
        band.turn();
    } else {
        band.begin(cells, last_bars, boxing);
    }
}

/// One line less than so many, or none.
fn one_less(lines: u32) -> u32
    ensures { result ≡ lines - 1 }
{
    lines.saturating_sub(1)
}
