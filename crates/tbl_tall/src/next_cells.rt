//! The cells of the row that comes next: they begin, or go on with those of the row above (Lesk,
//! "Tbl": Format).

ghost use Rattle.std.specs.List.{AllByRecursion};
ghost use Rattle.std.specs.Option.{MatchOption};
ghost use Rattle.std.specs.Prelude.{◌≡◌, ℕ, suc, ◌+◌, ◌-◌, ◌<◌, ◌≤◌, ◌^◌, [], ◌∷◌, List, Bool};
ghost use Rattle.std.specs.Prelude.{drop, length};
ghost use Rattle.std.specs.Prelude.{vec_capacity, None, Some, IfSome, false, map};
ghost use Rattle.tbl_format.specs.Cells.{cell_count, end_of};
ghost use Rattle.tbl_format.specs.RowsServed.{all_rows, row_at};
ghost use Rattle.tbl_format.specs.declared.format.FormatKey.{FormatKey};
ghost use Rattle.tbl_format.specs.declared.format.Key.{Key};
ghost use Rattle.tbl_kept.specs.KeptHeights.{field_kept};
ghost use Rattle.tbl_kept.specs.Rows.{ElementLaid, elements_of};
ghost use Rattle.tbl_kept.specs.RowsLaying.{element_at};
ghost use Rattle.tbl_layout.specs.Entries.{Rule, key_at};
ghost use Rattle.tbl_layout.specs.Heights.{lines_in};
ghost use Rattle.tbl_layout.specs.KeptEntries.{IsLaid, Lies, content_of};
ghost use Rattle.tbl_layout.specs.declared.entry.Entry.{Entry};
ghost use Rattle.tbl_lines.specs.CellsLeft.{Left, all_keys, all_stopped, cell_by};
ghost use Rattle.tbl_lines.specs.CellsLeft.{keys_behind, nothing_left, own_field};
ghost use Rattle.tbl_lines.specs.RowsLeft.{block_text};
ghost use Rattle.tbl_lines.specs.RowsLent.{first_place};
ghost use Rattle.tbl_line_cells.specs.KeptCells.{AllLeft, GoesOnBy, IsKeyAt, IsLeft, lead_by};
ghost use Rattle.tbl_tall.specs.LinesOver.{NoneOver};
ghost use Rattle.tbl_tall.specs.RowsNext.{GoesOnWith, HasKey, HasKeys, RowAbove, RowIsAt};
ghost use Rattle.tbl_tall.specs.RowsNext.{above_kept, begun_kept, cell_kept, cells_by};
ghost use Rattle.tbl_tall.specs.TallRows.{RowsLie};
ghost use Rattle.tbl_line_cells.specs.declared.cells.CellLeft.{CellLeft as OneCell};
ghost use Rattle.tbl_text.specs.BlockPlaces.{IsWithin};

use crate::lines_over::{goes_on, lines_over, may_go_on};
use crate::stops::set_stops;
use tbl_format::cells::{cell_count, end_of};
use tbl_format::format::{FormatKey, Key, Standing};
use tbl_format::format_rows::FormatRows;
use tbl_kept::rows::TableRows;
use tbl_kept::rows::heights::lines_of;
use tbl_layout::entry::{Entry, EntryKind};
use tbl_line_cells::cells::CellLeft;
use tbl_text::block_parts::BlockPlace;

/// A row among all elements, by its place, the row of the formats that serves it, how many rows of
/// rule keys stand in front of it, its lines, and the row above, if there is one.
#[derive(Clone, Copy)]
pub struct RowComing {
    pub at: usize,
    pub keys: usize,
    pub rules: usize,
    pub height: u32,
    pub above: Option<usize>,
}

/// The cells of a row, below others, in a table in whose box a rule stands between rows, or not.
pub fn fill_cells(
    cells: &mut Vec<CellLeft>,
    cells_above: &[CellLeft],
    rows: &TableRows,
    format: &FormatRows,
    is_inside: bool,
    row: RowComing,
)
    requires lie { RowsLie (all_rows format.now.format) rows.now }
    requires row { RowIsAt rows.now.elements row }
    requires at { row.at < length rows.now.elements }
    requires above { IfSome row.above (λ above. above < length rows.now.elements) }
    requires first { row.above ≡ None → cells_above.now ≡ [] }
    requires small { length rows.now.columns < 2 ^ 32 }
    requires room { length rows.now.columns ≤ vec_capacity cells.old }
    requires come { AllByRecursion (λ (c : OneCell). c.rows < 2 ^ 63) cells_above.now }
    requires empty { cells.old.items ≡ [] }
    ensures left { (bytes : List ℕ) (above : List FormatKey) (lefts : List Left)
        → AllByRecursion (ElementLaid bytes (all_rows format.now.format)
        (length rows.now.columns)) rows.now.elements
        → RowAbove (all_rows format.now.format) rows.now.elements row.above above
        → AllLeft bytes cells_above.now lefts
        → let more = drop (suc row.at) rows.now.elements in
        let served = row_at (all_rows format.now.format) row.keys in
        AllLeft bytes cells.new.items (all_stopped (length rows.now.columns) served.keys
        (elements_of bytes (all_rows format.now.format) more) 0
        (cells_by (cell_kept bytes (all_rows format.now.format) is_inside above lefts
        (element_at rows.now.elements row.at) more) 0
        (all_keys (length rows.now.columns) served))) }
    ensures keys { HasKeys cells.new.items
        (all_keys (length rows.now.columns) (row_at (all_rows format.now.format) row.keys)) }
    ensures come { (n : ℕ) → AllByRecursion (λ (c : OneCell). c.rows < n) cells_above.now
        → AllByRecursion (λ (c : OneCell). c.rows ≤ n) cells.new.items }
    ensures capacity { vec_capacity cells.new ≡ vec_capacity cells.old }
{
    fill_left(cells, cells_above, rows, format, is_inside, row);
    set_stops(cells.as_mut_slice(), rows, format, row.at);
}

/// The cells of a row, without where what is without width ends.
fn fill_left(
    cells: &mut Vec<CellLeft>,
    cells_above: &[CellLeft],
    rows: &TableRows,
    format: &FormatRows,
    is_inside: bool,
    row: RowComing,
)
    requires lie { RowsLie (all_rows format.now.format) rows.now }
    requires row { RowIsAt rows.now.elements row }
    requires at { row.at < length rows.now.elements }
    requires above { IfSome row.above (λ above. above < length rows.now.elements) }
    requires first { row.above ≡ None → cells_above.now ≡ [] }
    requires small { length rows.now.columns < 2 ^ 32 }
    requires room { length rows.now.columns ≤ vec_capacity cells.old }
    requires come { AllByRecursion (λ (c : OneCell). c.rows < 2 ^ 63) cells_above.now }
    requires empty { cells.old.items ≡ [] }
    ensures left { (bytes : List ℕ) (above : List FormatKey) (lefts : List Left)
        → ElementLaid bytes (all_rows format.now.format) (length rows.now.columns)
        (element_at rows.now.elements row.at)
        → RowAbove (all_rows format.now.format) rows.now.elements row.above above
        → AllLeft bytes cells_above.now lefts → AllLeft bytes cells.new.items
        (cells_by (cell_kept bytes (all_rows format.now.format) is_inside above lefts
        (element_at rows.now.elements row.at) (drop (suc row.at) rows.now.elements)) 0
        (all_keys (length rows.now.columns) (row_at (all_rows format.now.format) row.keys))) }
    ensures keys { HasKeys cells.new.items
        (all_keys (length rows.now.columns) (row_at (all_rows format.now.format) row.keys)) }
    ensures come { (n : ℕ) → AllByRecursion (λ (c : OneCell). c.rows < n) cells_above.now
        → AllByRecursion (λ (c : OneCell). c.rows ≤ n) cells.new.items }
    ensures capacity { vec_capacity cells.new ≡ vec_capacity cells.old }
{
    let keys = format.row_of_all(row.keys);
    let last_bars = format.bars_of_all(row.keys);
    let count = cell_count(keys, rows.columns().len());
    let is_over = may_go_on(rows, format, row.at);
    for cell in 0..count {
        let key = key_of(keys, last_bars, cell);
        let field = rows.field_of(format, row.at, cell);
        // Most cells begin with their rows.
        if goes_on(field) {
            let left = cell_of(
                cells_above,
                rows,
                format,
                is_inside,
                row,
                cell,
                key,
                is_over,
            );
            cells.push_reserved(left);
        } else {
            let begun = begun(rows, format, is_inside, row, cell, key, field, is_over);
            cells.push_reserved(begun);
        }
    }
}

/// One of them, which has this key.
// Such a cell is rare.
#[inline(never)]
fn cell_of(
    cells_above: &[CellLeft],
    rows: &TableRows,
    format: &FormatRows,
    is_inside: bool,
    row: RowComing,
    cell: usize,
    key: FormatKey,
    is_over: bool,
) -> CellLeft
    requires lie { RowsLie (all_rows format.now.format) rows.now }
    requires row { RowIsAt rows.now.elements row }
    requires at { row.at < length rows.now.elements }
    requires above { IfSome row.above (λ above. above < length rows.now.elements) }
    requires first { row.above ≡ None → cells_above.now ≡ [] }
    requires small { cell < 2 ^ 61 }
    requires come { AllByRecursion (λ (c : OneCell). c.rows < 2 ^ 63) cells_above.now }
    requires over { is_over ≡ false → NoneOver (all_rows format.now.format)
        (drop (suc row.at) rows.now.elements) }
    ensures left { (bytes : List ℕ) (above : List FormatKey) (lefts : List Left)
        → ElementLaid bytes (all_rows format.now.format) (length rows.now.columns)
        (element_at rows.now.elements row.at)
        → RowAbove (all_rows format.now.format) rows.now.elements row.above above
        → AllLeft bytes cells_above.now lefts
        → key.key ≡ key_at (row_at (all_rows format.now.format) row.keys) cell
        → IsLeft bytes result (cell_kept bytes (all_rows format.now.format) is_inside above lefts
        (element_at rows.now.elements row.at) (drop (suc row.at) rows.now.elements) cell key) }
    ensures key { HasKey result key }
    ensures come { (n : ℕ) → AllByRecursion (λ (c : OneCell). c.rows < n) cells_above.now
        → result.rows ≤ n }
{
    match left_above(cells_above, rows, format, row, cell) {
        Some(left) => left.gone_on(key),
        None => {
            let field = rows.field_of(format, row.at, cell);
            begun(rows, format, is_inside, row, cell, key, field, is_over)
        }
    }
}

/// The cell above with which one of them goes on, if it does.
fn left_above(
    cells_above: &[CellLeft],
    rows: &TableRows,
    format: &FormatRows,
    row: RowComing,
    cell: usize,
) -> Option<CellLeft>
    requires lie { RowsLie (all_rows format.now.format) rows.now }
    requires row { RowIsAt rows.now.elements row }
    requires at { row.at < length rows.now.elements }
    requires above { IfSome row.above (λ above. above < length rows.now.elements) }
    requires first { row.above ≡ None → cells_above.now ≡ [] }
    requires small { cell < 2 ^ 61 }
    requires come { AllByRecursion (λ (c : OneCell). c.rows < 2 ^ 63) cells_above.now }
    ensures left { (bytes : List ℕ) (above : List FormatKey) (lefts : List Left) (new : Left)
        → RowAbove (all_rows format.now.format) rows.now.elements row.above above
        → AllLeft bytes cells_above.now lefts
        → let other = above_kept bytes (all_rows format.now.format) above
        (element_at rows.now.elements row.at) cell in
        MatchOption result (cell_by other lefts new ≡ new) (GoesOnWith bytes other lefts new) }
    ensures come { (n : ℕ) → AllByRecursion (λ (c : OneCell). c.rows < n) cells_above.now
        → IfSome result (λ c. c.rows < n) }
    ensures small { IfSome result (λ c. c.rows < 2 ^ 63) }
{
    // Most cells begin with their rows.
    if !goes_on(rows.field_of(format, row.at, cell)) {
        return None;
    }
    match row.above {
        Some(above) => match rows.cell_above(format, above, row.at, cell) {
            Some(other) => cell_at(cells_above, other),
            None => None,
        },
        None => None,
    }
}

/// One of some cells, if there are so many.
fn cell_at(cells: &[CellLeft], at: usize) -> Option<CellLeft>
    ensures left { (bytes : List ℕ) (lefts : List Left) (new : Left) → AllLeft bytes cells.now lefts
        → MatchOption result (cell_by (Some at) lefts new ≡ new)
        (GoesOnWith bytes (Some at) lefts new) }
    ensures come { (n : ℕ) → AllByRecursion (λ (c : OneCell). c.rows < n) cells.now
        → IfSome result (λ c. c.rows < n) }
{
    match cells.get(at) {
        Some(cell) => Some(*cell),
        None => None,
    }
}

/// The key of a cell of a row that has these: behind them come such as `l`.
fn key_of(keys: &[FormatKey], last_bars: u8, cell: usize) -> FormatKey
    requires small { cell < 2 ^ 63 }
    requires end { end_of keys.now cell < 2 ^ 32 }
    ensures { (columns : ℕ) → cell < cell_count keys.now columns
        → IsKeyAt result cell (all_keys columns (record { keys = keys.now; bars = last_bars })) }
{
    match keys.get(cell) {
        Some(key) => *key,
        None => FormatKey {
            bars: if cell == keys.len() { last_bars } else { 0 },
            key: Key::Left,
            end: end_of(keys, cell) as u32,
            standing: Standing::Middle,
            has_no_width: false,
        },
    }
}

/// A cell that begins with its row, of which this is the field.
// It is called for each cell.
#[inline(always)]
fn begun(
    rows: &TableRows,
    format: &FormatRows,
    is_inside: bool,
    row: RowComing,
    cell: usize,
    key: FormatKey,
    field: Entry,
    is_over: bool,
) -> CellLeft
    requires lie { RowsLie (all_rows format.now.format) rows.now }
    requires row { RowIsAt rows.now.elements row }
    requires at { row.at < length rows.now.elements }
    requires small { cell < 2 ^ 61 }
    requires field { field ≡ field_kept (all_rows format.now.format) cell
        (element_at rows.now.elements row.at) }
    requires over { is_over ≡ false → NoneOver (all_rows format.now.format)
        (drop (suc row.at) rows.now.elements) }
    ensures left { (bytes : List ℕ)
        → ElementLaid bytes (all_rows format.now.format) (length rows.now.columns)
        (element_at rows.now.elements row.at)
        → key.key ≡ key_at (row_at (all_rows format.now.format) row.keys) cell
        → IsLeft bytes result (begun_kept bytes (all_rows format.now.format) is_inside
        (element_at rows.now.elements row.at) (drop (suc row.at) rows.now.elements) cell key) }
    ensures key { HasKey result key }
    ensures rows { result.rows ≡ 0 }
{
    let entry = own_entry(field);
    let more = lines_over(rows, format, is_inside, row.at, cell, is_over);
    let place = first_place(entry);
    CellLeft {
        key,
        entry,
        lead: lead_of(key.standing, entry, u128::from(row.height), more),
        place,
        rows: 0,
        is_used: entry.is_used(),
        stop: 0,
        is_cut: false,
    }
}

/// What stands in a cell that begins with its row.
fn own_entry(entry: Entry) -> Entry
    ensures field { (bytes : List ℕ)
        → content_of bytes result ≡ own_field (content_of bytes entry) }
    ensures lies { (bytes : List ℕ) → Lies bytes entry → Lies bytes result }
    ensures laid { (bytes : List ℕ) (key : Key) → IsLaid bytes key entry
        → IsLaid bytes key result }
{
    match entry.kind {
        EntryKind::Above => Entry::NOTHING,
        _ => entry,
    }
}

/// How many lines stand above a field in a row of so many, where so many more follow.
fn lead_of(standing: Standing, entry: Entry, height: u128, more: u128) -> u128
    requires small { height + more < 2 ^ 128 }
    ensures { (bytes : List ℕ) (key : Key) → IsLaid bytes key entry
        → result ≡ lead_by more standing (lines_in key (content_of bytes entry)) (height + more) }
{
    if more == 0 {
        return 0;
    }
    let spare = (height + more).saturating_sub(u128::from(lines_of(entry)));
    match standing {
        Standing::Top => 0,
        Standing::Middle => spare / 2,
        Standing::Bottom => spare,
    }
}

/// Where the block of a field begins, if it is one.
fn first_place(entry: Entry) -> BlockPlace
    ensures value { result ≡ first_place entry }
    ensures goes_on { (bytes : List ℕ) → Lies bytes entry
        → GoesOnBy entry.kind bytes entry result 0 }
    ensures within { (bytes : List ℕ) → IsWithin (block_text bytes entry) result }
{
    if entry.from < entry.to {
        BlockPlace::AtLine(0, None)
    } else {
        BlockPlace::AtEnd
    }
}

/// Each of so many columns has an empty cell.
pub fn fill_nothing(cells: &mut Vec<CellLeft>, columns: usize)
    requires small { columns < 2 ^ 32 }
    requires room { columns ≤ vec_capacity cells.old }
    requires empty { cells.old.items ≡ [] }
    ensures left { (bytes : List ℕ)
        → AllLeft bytes cells.new.items (map nothing_left (keys_behind columns 0 0)) }
    ensures come { (n : ℕ) → AllByRecursion (λ (c : OneCell). c.rows ≤ n) cells.new.items }
    ensures capacity { vec_capacity cells.new ≡ vec_capacity cells.old }
{
    for cell in 0..columns {
        cells.push_reserved(CellLeft {
            key: key_of(&[], 0, cell),
            entry: Entry::NOTHING,
            lead: 0,
            place: BlockPlace::AtEnd,
            rows: 0,
            is_used: false,
            stop: 0,
            is_cut: false,
        });
    }
}
