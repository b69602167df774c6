//! The cells of the row that comes next, some of which go on with those of the row above, and the
//! lines of rules in front of it (Lesk, "Tbl": Format).

ghost use Rattle.std.specs.Prelude.{◌≡◌, ℕ, suc, ◌+◌, ◌<◌, ◌≤◌, ◌^◌, [], List, drop, length};
ghost use Rattle.std.specs.Prelude.{IfOk, IfSome, None, is_some, nat_lt, true};
ghost use Rattle.tbl_format.specs.RowsServed.{all_rows, row_at};
ghost use Rattle.tbl_kept.specs.Rows.{Row, RowsLaid, elements_of};
ghost use Rattle.tbl_kept.specs.RowsLaying.{element_at};
ghost use Rattle.tbl_layout.specs.Entries.{Element};
ghost use Rattle.tbl_layout.specs.declared.entry.Entry.{Entry};
ghost use Rattle.tbl_lines.specs.CellsLeft.{Left, cells_next};
ghost use Rattle.tbl_lines.specs.LinesLeft.{Beside, Nothing};
ghost use Rattle.tbl_lines.specs.PictureLines.{Sheet, boxed, boxed_from};
ghost use Rattle.tbl_lines.specs.RowsLent.{LiesInColumns, lent_entries, lent_row};
ghost use Rattle.tbl_lines.specs.RulePlaces.{HavePlaces};
ghost use Rattle.tbl_line_cells.specs.LinesDrawn.{Draws, laid_row};
ghost use Rattle.tbl_tall.specs.LinesOver.{heights_kept};

use crate::band::Band;
use crate::in_front::{bars_at_end, frame_lines, rules_in_front, stays_within};
use crate::next_cells::{RowComing, fill_cells, fill_nothing};
use std::alloc::{AllocError, Global};
use std::marker::Model;
use tbl_format::format_rows::FormatRows;
use tbl_kept::rows::{Lent, TableRows};
use tbl_layout::bars::Bars;
use tbl_line_cells::cells::CellLeft;
use tbl_line_cells::line_cells::LineCells;
use tbl_lines::row_lent::RowLent;
use tbl_options::options::Boxing;
use tbl_text::block_parts::BlockPlace;

mod counting;
mod passing;

/// The row that comes next, or is under way, and the lines of rules in front of it. All memory is
/// reserved as it is made.
#[derive(Drop)]
pub struct TallRow {
    /// How many bars it has behind the last of its keys.
    last_bars: u8,
    cells: Vec<CellLeft>,
    above: Vec<CellLeft>,
    /// How many lines it has still.
    lines_left: u32,
    /// Whether none of its lines was given.
    is_first: bool,
    band: Band,
    /// A line of the row, or a line of rules in front of it.
    line: LineCells,
    /// How many rows have ended.
    come: usize,
    room: usize,
}

impl Model for TallRow {
    ghost use Rattle.tbl_tall.specs.TallRows.{KeptTall, kept_by, IsSound};

    ghost Value = { KeptTall };

    ghost view = { kept_by };

    ghost invariant = { IsSound };
}

impl TallRow {
    ghost use Rattle.tbl_tall.specs.Bands.{wholes_left};
    ghost use Rattle.tbl_tall.specs.RowsNext.{ComesBelow, LeftAbove, RowAbove, RowIsAt, RulesThen};
    ghost use Rattle.tbl_tall.specs.RowsNext.{StandsBelow, TableDrawn, boxed_behind, drawn_on};
    ghost use Rattle.tbl_tall.specs.TallRows.{Comes, RowEnded, RowsLie};

    /// Room for a table of so many columns.
    pub fn new(alloc: Global, columns: usize) -> Result<Self, AllocError>
        requires { columns < 2 ^ 32 }
        ensures { IfOk result (λ t. t.room ≡ columns) }
    {
        Ok(TallRow {
            last_bars: 0,
            cells: Vec::with_capacity(alloc, columns)?,
            above: Vec::with_capacity(alloc, columns)?,
            lines_left: 0,
            is_first: false,
            band: Band::new(alloc, columns)?,
            line: LineCells::new(alloc, columns)?,
            come: 0,
            room: columns,
        })
    }

    /// The line that is laid, as a row of one line, in a picture with these bars that is so wide.
    pub fn lent<'a>(&'a self, bars: Bars, width: usize, bytes: &'a [u8]) -> RowLent<'a>
        ensures lies { (text : List ℕ) → Draws bytes.now bars width self.now.line text
            → LiesInColumns result }
        ensures row { (text : List ℕ) → Draws bytes.now bars width self.now.line text
            → lent_row result ≡ laid_row bytes.now bars width self.now.line }
        ensures entries { (text : List ℕ) → Draws bytes.now bars width self.now.line text
            → lent_entries result ≡ self.now.line.entries }
        ensures height { result.height ≡ 1 }
    {
        RowLent {
            bars,
            width,
            bytes,
            keys: self.line.keys.as_slice(),
            last_bars: 0,
            columns: self.line.columns.as_slice(),
            entries: self.line.entries.as_slice(),
            height: 1,
            is_plain: true,
            fronts: Some(self.line.fronts.as_slice()),
        }
    }

    /// Where the blocks on it go on.
    pub fn places(&self) -> &[BlockPlace]
        ensures { result.now ≡ self.now.line.places }
    {
        self.line.places.as_slice()
    }

    /// How many rules over the whole picture stand in front of the row still.
    pub fn wholes_left(&self) -> usize
        ensures { result ≡ wholes_left self.now.band }
    {
        self.band.wholes_left()
    }

    /// Whether a line of rules does.
    pub fn has_rule(&self) -> bool
        ensures { result ≡ nat_lt self.now.band.at (self.now.band.wholes + self.now.band.count) }
    {
        self.band.has_line()
    }

    /// Nothing of the picture is given.
    pub fn start(&mut self, rows: &TableRows, format: &FormatRows, boxing: Boxing)
        requires lie { RowsLie (all_rows format.now.format) rows.now }
        requires some { 0 < length rows.now.columns }
        requires room { length rows.now.columns ≤ self.old.room }
        ensures comes { (bytes : List ℕ) (s : Sheet) → s.columns ≡ rows.now.columns
            → s.bars.boxing ≡ boxing → HavePlaces (all_rows format.now.format) s
            → RowsLaid bytes (all_rows format.now.format) boxing.is_inside rows.now
            → let all = boxed boxing
            (elements_of bytes (all_rows format.now.format) rows.now.elements) in
            let heights = heights_kept rows.now.elements in
            Comes bytes (all_rows format.now.format) s self.new heights
            (cells_next (length s.columns) [] [] heights all) Nothing all }
        ensures come { self.new.come ≡ 0 }
        ensures room { self.new.room ≡ self.old.room }
    {
        self.cells.clear();
        self.above.clear();
        self.come = 0;
        self.band.begin_nothing(rows.columns().len());
        self.come_to_row(rows, format, boxing, 0, None, frame_lines(boxing));
    }

    /// The row has ended, which is this element. The next one comes.
    pub fn hand_on(&mut self, rows: &TableRows, format: &FormatRows, boxing: Boxing, element: usize)
        requires at { element < length rows.now.elements }
        requires lie { RowsLie (all_rows format.now.format) rows.now }
        requires some { 0 < length rows.now.columns }
        requires room { length rows.now.columns ≤ self.old.room }
        requires come { self.old.come ≤ element }
        ensures comes { (bytes : List ℕ) (s : Sheet) (cells : List Left) (above : Beside)
            (keys rules height : ℕ) (entries : List Entry)
            → s.columns ≡ rows.now.columns → s.bars.boxing ≡ boxing
            → HavePlaces (all_rows format.now.format) s
            → RowsLaid bytes (all_rows format.now.format) boxing.is_inside rows.now
            → element_at rows.now.elements element ≡ Row keys rules height entries
            → RowEnded bytes s self.old cells above
            → let more = drop (suc element) rows.now.elements in
            let rest = boxed_from boxing true
            (elements_of bytes (all_rows format.now.format) more) in
            Comes bytes (all_rows format.now.format) s self.new (heights_kept more)
            (cells_next (length s.columns) (row_at (all_rows format.now.format) keys).keys cells
            (heights_kept more) rest) above rest }
        ensures come { self.new.come ≡ self.old.come + 1 }
        ensures room { self.new.room ≡ self.old.room }
    {
        rows.stay_few();
        std::mem::swap(&mut self.cells, &mut self.above);
        self.cells.clear();
        self.come += 1;
        self.come_to_row(rows, format, boxing, element + 1, Some(element), 0);
    }

    /// The next row comes, from an element on, below another one, and behind so many rules.
    fn come_to_row(
        &mut self,
        rows: &TableRows,
        format: &FormatRows,
        boxing: Boxing,
        first: usize,
        above: Option<usize>,
        before: usize,
    )
        requires lie { RowsLie (all_rows format.now.format) rows.now }
        requires some { 0 < length rows.now.columns }
        requires room { length rows.now.columns ≤ self.old.room }
        requires first { first ≤ length rows.now.elements }
        requires above { IfSome above (λ at. at < length rows.now.elements) }
        requires none { above ≡ None → self.old.above ≡ [] }
        requires empty { self.old.cells ≡ [] }
        requires before { before ≤ 1 }
        requires come { self.old.come < 2 ^ 63 }
        ensures comes { (bytes : List ℕ) (s : Sheet) (a : LeftAbove) (all : List Element)
            → let d = drawn_on s bytes (all_rows format.now.format) boxing rows.now in
            let elements = drop first rows.now.elements in
            StandsBelow d self.old a → RowAbove d.formats rows.now.elements above a.keys
            → RulesThen before all
            (boxed_behind bytes d.formats boxing (is_some above) before elements)
            → ComesBelow d self.new a (heights_kept elements) all }
        ensures come { self.new.come ≡ self.old.come }
        ensures room { self.new.room ≡ self.old.room }
    {
        rows.stay_few();
        let mut rules = before;
        for at in first..rows.count() {
            match rows.element(at) {
                Lent::Row(keys, rule_rows, height, _) => {
                    rows.rules_stay_few(at);
                    let row = RowComing {
                        at,
                        keys,
                        rules: rule_rows,
                        height,
                        above,
                    };
                    return self.come_to(rows, format, boxing, row, rules);
                }
                Lent::Rule(_) => rules += 1,
                Lent::Command(_, _) => {}
            }
        }
        self.come_to_nothing(rows.columns().len(), rules + frame_lines(boxing));
    }

    /// This row comes, behind so many rules.
    fn come_to(
        &mut self,
        rows: &TableRows,
        format: &FormatRows,
        boxing: Boxing,
        row: RowComing,
        rules: usize,
    )
        requires lie { RowsLie (all_rows format.now.format) rows.now }
        requires row { RowIsAt rows.now.elements row }
        requires at { row.at < length rows.now.elements }
        requires above { IfSome row.above (λ at. at < length rows.now.elements) }
        requires none { row.above ≡ None → self.old.above ≡ [] }
        requires some { 0 < length rows.now.columns }
        requires room { length rows.now.columns ≤ self.old.room }
        requires empty { self.old.cells ≡ [] }
        requires few { rules < 2 ^ 61 }
        requires few_keys { row.rules < 2 ^ 32 }
        requires come { self.old.come < 2 ^ 63 }
        ensures comes { (bytes : List ℕ) (s : Sheet) (a : LeftAbove) (all : List Element)
            → let d = drawn_on s bytes (all_rows format.now.format) boxing rows.now in
            let elements = drop row.at rows.now.elements in
            StandsBelow d self.old a → RowAbove d.formats rows.now.elements row.above a.keys
            → RulesThen rules all
            (boxed_behind bytes d.formats boxing (is_some row.above) rules elements)
            → ComesBelow d self.new a (heights_kept elements) all }
        ensures come { self.new.come ≡ self.old.come }
        ensures room { self.new.room ≡ self.old.room }
    {
        stays_within(row.keys);
        fill_cells(
            &mut self.cells,
            self.above.as_slice(),
            rows,
            format,
            boxing.is_inside,
            row,
        );
        self.last_bars = bars_at_end(rows, format, row.keys);
        self.lines_left = row.height;
        self.is_first = true;
        let wholes = rules_in_front(boxing, row, rules);
        self.band
            .set_lines(wholes, row.keys.saturating_sub(row.rules), row.rules);
        self.band.end(self.cells.as_slice(), self.last_bars, boxing);
    }

    /// No row comes, behind so many rules: each column has an empty cell.
    fn come_to_nothing(&mut self, columns: usize, rules: usize)
        requires some { 0 < columns }
        requires room { columns ≤ self.old.room }
        requires empty { self.old.cells ≡ [] }
        requires few { rules < 2 ^ 62 }
        ensures comes { (d : TableDrawn) (a : LeftAbove) (heights : List ℕ) (all : List Element)
            → StandsBelow d self.old a → length d.rows.columns ≡ columns → RulesThen rules all []
            → ComesBelow d self.new a heights all }
        ensures come { self.new.come ≡ self.old.come }
        ensures room { self.new.room ≡ self.old.room }
    {
        fill_nothing(&mut self.cells, columns);
        self.last_bars = 0;
        self.lines_left = 0;
        self.band.set_lines(rules, 0, 0);
        self.band.end_nothing(columns);
    }
}
