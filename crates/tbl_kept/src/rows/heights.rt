//! The heights of rows whose cells go on with the cells above them (Lesk, "Tbl": Format).

ghost use Rattle.std.specs.Prelude.{◌≡◌, ℕ, ◌+◌, ◌<◌, ◌≤◌, ◌^◌, IfSome, List, get_or, length, map};
ghost use Rattle.std.specs.Prelude.{take, drop, ◌++◌};
ghost use Rattle.std.specs.List.{AllByRecursion, slice_range};
ghost use Rattle.std.specs.Option.{MatchOption};
ghost use Rattle.tbl_format.specs.Cells.{AreCells};
ghost use Rattle.tbl_format.specs.FormatRows.{AreWithin};
ghost use Rattle.tbl_format.specs.RowsServed.{all_rows, row_at};
ghost use Rattle.tbl_format.specs.declared.format.FormatKey.{FormatKey};
ghost use Rattle.tbl_format.specs.declared.format.Key.{Key};
ghost use Rattle.tbl_kept.specs.KeptHeights.{HasCells, IsNoRow, LeftBehind, cell_above_kept};
ghost use Rattle.tbl_kept.specs.KeptHeights.{cell_below_kept, cells_of, field_kept, first_row};
ghost use Rattle.tbl_kept.specs.KeptHeights.{raised, raised_behind, seen};
ghost use Rattle.tbl_kept.specs.Rows.{AreLaid, ElementLaid, elements_of};
ghost use Rattle.tbl_kept.specs.RowsInside.{HaveRoom, LieBetween, LiesIn, RowLiesIn, kept_in};
ghost use Rattle.tbl_kept.specs.RowsLaying.{ElementWithin, RowsWithin, element_at};
ghost use Rattle.tbl_kept.specs.declared.rows.Element.TheVariants.{Command as OneCommand};
ghost use Rattle.tbl_kept.specs.declared.rows.Element.TheVariants.{Row as OneRow};
ghost use Rattle.tbl_layout.specs.Heights.{ends_in_front_of, lefts_from, lines_in, rules_between};
ghost use Rattle.tbl_layout.specs.KeptEntries.{IsLaid, content_of};

use super::cell_heights::{RowCells, cell_above, cell_below, fill_lefts, highest, lower_all};
use super::{Element, KeptRow, Lefts, TableRows};
use tbl_format::cells::cell_count;
use tbl_format::format::FormatKey;
use tbl_format::format_rows::FormatRows;
use tbl_layout::entry::{Entry, EntryKind};
use tbl_layout::rule_keys::entry_at;

/// The fields of all rows, and the formats that serve the rows.
#[derive(Clone, Copy)]
pub(super) struct Fields<'a> {
    pub(super) entries: &'a [Entry],
    pub(super) format: &'a FormatRows,
}

/// How far the rows have their heights.
#[derive(Clone, Copy)]
struct Pass<'a> {
    /// The keys of the row above, or none, where there is no row.
    above: &'a [FormatKey],
    /// How many rules stand behind it.
    rules: usize,
}

impl TableRows {
    /// The first row from an element on.
    pub fn row_from(&self, first: usize) -> Option<usize>
        ensures { result ≡ first_row first (drop first self.now.elements) }
    {
        for at in first..self.elements.len() {
            if let Element::Row(_) = self.elements[at] {
                return Some(at);
            }
        }
        None
    }

    /// What stands in a cell of a row.
    pub fn field_of(&self, format: &FormatRows, at: usize, cell: usize) -> Entry
        requires at { at < length self.now.elements }
        requires within { ElementWithin (all_rows format.now.format)
            (element_at self.now.elements at) }
        ensures { result ≡ field_kept (all_rows format.now.format) cell
            (element_at self.now.elements at) }
    {
        match self.cells_at(format, at) {
            Some(cells) => entry_at(cells.keys, cells.entries, cell),
            None => Entry::NOTHING,
        }
    }

    /// The cell of the row above with which a cell of a row goes on, if it does.
    pub fn cell_above(
        &self,
        format: &FormatRows,
        above: usize,
        at: usize,
        cell: usize,
    ) -> Option<usize>
        requires small { cell < 2 ^ 62 }
        requires above { above < length self.now.elements }
        requires at { at < length self.now.elements }
        requires within { RowsWithin (all_rows format.now.format) self.now }
        ensures { (bytes : List ℕ) → result ≡ cell_above_kept bytes (all_rows format.now.format)
            cell (element_at self.now.elements above) (element_at self.now.elements at) }
    {
        match self.cells_at(format, above) {
            Some(other) => match self.cells_at(format, at) {
                Some(cells) => cell_above(other.keys, cells, cell),
                None => None,
            },
            None => None,
        }
    }

    /// The cell of the row below that goes on with a cell of a row, if one does.
    pub fn cell_below(
        &self,
        format: &FormatRows,
        at: usize,
        below: usize,
        cell: usize,
    ) -> Option<usize>
        requires small { cell < 2 ^ 62 }
        requires at { at < length self.now.elements }
        requires below { below < length self.now.elements }
        requires within { RowsWithin (all_rows format.now.format) self.now }
        ensures { (bytes : List ℕ) → result ≡ cell_below_kept bytes (all_rows format.now.format)
            cell (element_at self.now.elements at) (element_at self.now.elements below) }
    {
        match self.cells_at(format, at) {
            Some(cells) => match self.cells_at(format, below) {
                Some(other) => cell_below(cells.keys, other, cell),
                None => None,
            },
            None => None,
        }
    }

    /// The cells of an element, if it is a row.
    fn cells_at<'a>(&'a self, format: &'a FormatRows, at: usize) -> Option<RowCells<'a>>
        requires at { at < length self.now.elements }
        requires within { ElementWithin (all_rows format.now.format)
            (element_at self.now.elements at) }
        ensures row { MatchOption result (IsNoRow (element_at self.now.elements at))
            (λ c. HasCells (all_rows format.now.format) (element_at self.now.elements at)
            c.keys.now c.entries.now) }
        ensures cells { IfSome result (λ c. AreCells 0 c.keys.now) }
    {
        match self.elements[at] {
            Element::Row(row) => {
                let entries = self.entries.as_slice();
                Some(row_cells(Fields { entries, format }, row))
            }
            Element::Rule(_) => None,
            Element::Command(_, _) => None,
        }
    }
}

/// How many lines of rules stand in front of a row: the rules and the rows of rule keys that stand
/// there, or the rule that a box adds between two rows.
pub fn rules_between(is_inside: bool, rules: usize, rule_rows: usize) -> usize
    requires { rules + rule_rows < 2 ^ 64 }
    ensures { result ≡ rules_between is_inside rules rule_rows }
{
    let all = rules + rule_rows;
    if is_inside && all == 0 { 1 } else { all }
}

/// How many lines a field has.
pub fn lines_of(entry: Entry) -> u32
    ensures { (bytes : List ℕ) (key : Key) → IsLaid bytes key entry
        → result ≡ lines_in key (content_of bytes entry) }
{
    match entry.kind {
        EntryKind::Above => 0,
        EntryKind::Text(_, _) => { if entry.from < entry.to { 1 } else { 0 } }
        EntryKind::Split(_) => 1,
        EntryKind::Block(block) => block.lines,
        EntryKind::Ruled(_) => 1,
        EntryKind::Short => 1,
        EntryKind::Repeated(_) => 1,
    }
}

/// Each row is as high as what is left of the cells that end with it.
pub(super) fn set_heights(
    elements: &mut [Element],
    fields: Fields<'_>,
    is_inside: bool,
    lefts: &mut Lefts,
)
    requires lie { AllByRecursion (LiesIn (length fields.entries.now)
        (length (all_rows fields.format.now.format))) elements.old }
    requires few { length fields.format.now.format.asked < 2 ^ 62 }
    requires room { HaveRoom (length fields.format.now.format.asked) lefts.old }
    ensures raised { (bytes : List ℕ)
        → AllByRecursion (ElementLaid bytes (all_rows fields.entry.format.now.format)
        (length fields.entry.format.now.format.asked))
        (map (kept_in fields.entry.entries.now) elements.old)
        → map (kept_in fields.entry.entries.now) elements.new
        ≡ raised bytes (all_rows fields.entry.format.now.format) is_inside
        (length fields.entry.format.now.format.asked)
        (map (kept_in fields.entry.entries.now) elements.old) }
    ensures places { (from to : ℕ) → LieBetween from elements.old to
        → LieBetween from elements.new to }
    ensures room { (n : ℕ) → HaveRoom n lefts.old → HaveRoom n lefts.new }
{
    let mut pass = Pass {
        above: &[],
        rules: 0,
    };
    lefts.above.clear();
    for at in 0..elements.len() {
        pass = pass_element(elements, fields, is_inside, at, pass, lefts);
    }
}

/// One element gets its height, if it is a row.
fn pass_element<'a>(
    elements: &mut [Element],
    fields: Fields<'a>,
    is_inside: bool,
    at: usize,
    pass: Pass<'a>,
    lefts: &mut Lefts,
) -> Pass<'a>
    requires at { at < length elements.old }
    requires lie { AllByRecursion (LiesIn (length fields.entries.now)
        (length (all_rows fields.format.now.format))) (drop at elements.old) }
    requires few { length fields.format.now.format.asked < 2 ^ 62 }
    requires rules { pass.rules ≤ at }
    requires cells { AreCells 0 pass.above.now }
    requires room { HaveRoom (length fields.format.now.format.asked) lefts.old }
    ensures raised { (bytes : List ℕ)
        → AllByRecursion (ElementLaid bytes (all_rows fields.entry.format.now.format)
        (length fields.entry.format.now.format.asked))
        (map (kept_in fields.entry.entries.now) (drop at elements.old))
        → map (kept_in fields.entry.entries.now) (take (at + 1) elements.new)
        ++ raised_behind bytes (all_rows fields.entry.format.now.format) is_inside
        (length fields.entry.format.now.format.asked) result.above.now lefts.new.above.items
        result.rules (map (kept_in fields.entry.entries.now) (drop (at + 1) elements.new))
        ≡ map (kept_in fields.entry.entries.now) (take at elements.old)
        ++ raised_behind bytes (all_rows fields.entry.format.now.format) is_inside
        (length fields.entry.format.now.format.asked) pass.entry.above.now
        lefts.old.above.items pass.entry.rules
        (map (kept_in fields.entry.entries.now) (drop at elements.old)) }
    ensures rest { drop (at + 1) elements.new ≡ drop (at + 1) elements.old }
    ensures many { length elements.new ≡ length elements.old }
    ensures rules { result.rules ≤ at + 1 }
    ensures cells { AreCells 0 result.above.now }
    ensures places { (from to : ℕ) → LieBetween from elements.old to
        → LieBetween from elements.new to }
    ensures room { (n : ℕ) → HaveRoom n lefts.old → HaveRoom n lefts.new }
{
    match element_in(elements, at) {
        Element::Row(row) => {
            let cells = row_cells(fields, row);
            let below = cells_from(elements, fields, at + 1);
            let asked = fields.format.asked();
            let count = cell_count(cells.keys, asked.len());
            let between = rules_between(is_inside, pass.rules, row.rules as usize);
            let height = pass_row(lefts, pass.above, cells, below, between, count);
            elements[at] = with_height(row, height);
            Pass {
                above: cells.keys,
                rules: 0,
            }
        }
        Element::Rule(_) => Pass {
            above: pass.above,
            rules: pass.rules + 1,
        },
        Element::Command(_, _) => pass,
    }
}

/// What is left of the cells of a row, behind one of which so much is left, and so many lines of
/// rules; and behind it. The row is as high as the most that is left of the cells that end with it.
fn pass_row(
    lefts: &mut Lefts,
    above: &[FormatKey],
    cells: RowCells<'_>,
    below: RowCells<'_>,
    between: usize,
    count: usize,
) -> u32
    requires small { count < 2 ^ 62 }
    requires above { AreCells 0 above.now }
    requires below { AreCells 0 below.keys.now }
    requires room { HaveRoom count lefts.old }
    ensures left { (bytes : List ℕ) (bars : ℕ)
        → AreLaid bytes (record { keys = cells.entry.keys.now; bars = bars }) 0
        cells.entry.entries.now
        → LeftBehind (lefts_from above.now lefts.old.above.items between
        (record { keys = cells.entry.keys.now; bars = bars })
        (cells_of bytes bars cells.entry.keys.now cells.entry.entries.now) 0 count)
        cells.entry.keys.now (seen bytes bars below.entry.keys.now below.entry.entries.now)
        result lefts.new.above.items }
    ensures room { (n : ℕ) → HaveRoom n lefts.old → HaveRoom n lefts.new }
{
    let lines_above = lefts.above.as_slice();
    fill_lefts(&mut lefts.here, lines_above, above, cells, between, count);
    let height = highest(lefts.here.as_slice(), cells.keys, below);
    lower_all(&mut lefts.here, height);
    std::mem::swap(&mut lefts.here, &mut lefts.above);
    height
}

/// A row of so many lines.
pub(super) fn with_height(row: KeptRow, height: u32) -> Element
    ensures { result ≡ OneRow (record row { height = height }) }
{
    Element::Row(KeptRow {
        keys: row.keys,
        rules: row.rules,
        height,
        from: row.from,
        to: row.to,
    })
}

/// An element of them.
fn element_in(elements: &[Element], at: usize) -> Element
    requires { at < length elements.now }
    ensures { result ≡ get_or elements.now at (OneCommand 0 0) }
{
    elements[at]
}

/// The cells of a row.
fn row_cells<'a>(fields: Fields<'a>, row: KeptRow) -> RowCells<'a>
    requires { RowLiesIn (length fields.entries.now) (length (all_rows fields.format.now.format))
        row }
    ensures keys { result.keys.now
        ≡ (row_at (all_rows fields.entry.format.now.format) row.keys).keys }
    ensures within { AreWithin (length fields.entry.format.now.format.asked) result.keys.now }
    ensures entries { result.entries.now
        ≡ slice_range fields.entry.entries.now row.from row.to }
{
    RowCells {
        keys: fields.format.row_of_all(row.keys as usize),
        entries: &fields.entries[row.from as usize..row.to as usize],
    }
}

/// The cells of the first row from an element on, or no cells.
fn cells_from<'a>(elements: &[Element], fields: Fields<'a>, first: usize) -> RowCells<'a>
    requires lie { AllByRecursion (LiesIn (length fields.entries.now)
        (length (all_rows fields.format.now.format))) (drop first elements.now) }
    ensures cells { AreWithin (length fields.entry.format.now.format.asked) result.keys.now }
    ensures seen { (bytes : List ℕ) (bars : ℕ) (keys : List FormatKey) (cell : ℕ)
        → ends_in_front_of keys (elements_of bytes (all_rows fields.entry.format.now.format)
        (map (kept_in fields.entry.entries.now) (drop first elements.now))) cell
        ≡ ends_in_front_of keys (seen bytes bars result.keys.now result.entries.now) cell }
{
    for at in first..elements.len() {
        if let Element::Row(row) = element_in(elements, at) {
            return row_cells(fields, row);
        }
    }
    RowCells {
        keys: &[],
        entries: &[],
    }
}
