//! The cells of a row that go on with those above them, and what is left of their lines (Lesk,
//! "Tbl": Format).

ghost use Rattle.std.specs.Prelude.{◌≡◌, ℕ, ◌-◌, ◌<◌, ◌≤◌, ◌^◌, not, is_some, max, get_or};
ghost use Rattle.std.specs.Prelude.{if◌then◌else◌, [], ◌∷◌, List, length, map, vec_capacity};
ghost use Rattle.tbl_format.specs.Cells.{AreCells};
ghost use Rattle.tbl_kept.specs.KeptHeights.{cells_of, seen};
ghost use Rattle.tbl_kept.specs.Rows.{AreLaid};
ghost use Rattle.tbl_kept.specs.RowsLaying.{goes_on};
ghost use Rattle.tbl_layout.specs.Heights.{cell_above, cell_below, height_in_front_of, lefts_from};

use super::heights::lines_of;
use tbl_format::cells::same_cell;
use tbl_format::format::FormatKey;
use tbl_layout::entry::{Entry, EntryKind};
use tbl_layout::rule_keys::entry_at;

/// The cells of a row: its keys, and its fields.
#[derive(Clone, Copy)]
pub(super) struct RowCells<'a> {
    pub(super) keys: &'a [FormatKey],
    pub(super) entries: &'a [Entry],
}

/// The cell of the row above, which has these keys, with which a cell of a row goes on, if it does.
pub(super) fn cell_above(above: &[FormatKey], cells: RowCells<'_>, cell: usize) -> Option<usize>
    requires small { cell < 2 ^ 62 }
    requires cells { AreCells 0 above.now }
    ensures { (bytes : List ℕ) (bars : ℕ) → result ≡ cell_above above.now cells.entry.keys.now
        (cells_of bytes bars cells.entry.keys.now cells.entry.entries.now) cell }
{
    let own = entry_at(cells.keys, cells.entries, cell);
    if goes_on(own.kind) {
        same_cell(above, cells.keys, cell)
    } else {
        None
    }
}

/// The cell of the row below that goes on with a cell of a row with these keys, if one does.
pub(super) fn cell_below(keys: &[FormatKey], below: RowCells<'_>, cell: usize) -> Option<usize>
    requires small { cell < 2 ^ 62 }
    requires cells { AreCells 0 below.keys.now }
    ensures { (bytes : List ℕ) (bars : ℕ) → result ≡ cell_below keys.now below.entry.keys.now
        (cells_of bytes bars below.entry.keys.now below.entry.entries.now) cell }
{
    match same_cell(below.keys, keys, cell) {
        Some(other) => {
            let own = entry_at(below.keys, below.entries, other);
            if goes_on(own.kind) { Some(other) } else { None }
        }
        None => None,
    }
}

/// Whether a field goes on with the cell above it.
pub(super) fn goes_on(kind: EntryKind) -> bool
    ensures { result ≡ goes_on kind }
{
    matches!(kind, EntryKind::Above)
}

/// What is left of the lines of the cells of a row, in front of which so many lines of rules stand:
/// of those that go on with one above, of which so much is left behind its row, and of those that
/// begin.
pub(super) fn fill_lefts(
    left: &mut Vec<u32>,
    left_above: &[u32],
    above: &[FormatKey],
    cells: RowCells<'_>,
    between: usize,
    count: usize,
)
    requires small { count < 2 ^ 62 }
    requires cells { AreCells 0 above.now }
    requires room { count ≤ vec_capacity left.old }
    ensures items { (bytes : List ℕ) (bars : ℕ)
        → AreLaid bytes (record { keys = cells.entry.keys.now; bars = bars }) 0
        cells.entry.entries.now
        → left.new.items ≡ lefts_from above.now left_above.now between
        (record { keys = cells.entry.keys.now; bars = bars })
        (cells_of bytes bars cells.entry.keys.now cells.entry.entries.now) 0 count }
    ensures count { length left.new.items ≡ count }
    ensures capacity { vec_capacity left.new ≡ vec_capacity left.old }
{
    left.clear();
    for cell in 0..count {
        left.push_reserved(left_of(left_above, above, cells, between, cell));
    }
}

/// What is left of the lines of one cell.
fn left_of(
    left_above: &[u32],
    above: &[FormatKey],
    cells: RowCells<'_>,
    between: usize,
    cell: usize,
) -> u32
    requires small { cell < 2 ^ 62 }
    requires cells { AreCells 0 above.now }
    ensures { (bytes : List ℕ) (bars : ℕ)
        → AreLaid bytes (record { keys = cells.entry.keys.now; bars = bars }) 0
        cells.entry.entries.now
        → result ∷ [] ≡ lefts_from above.now left_above.now between
        (record { keys = cells.entry.keys.now; bars = bars })
        (cells_of bytes bars cells.entry.keys.now cells.entry.entries.now) cell 1 }
{
    match cell_above(above, cells, cell) {
        Some(other) => fewer(left_at(left_above, other), between),
        None => {
            let own = entry_at(cells.keys, cells.entries, cell);
            lines_of(own)
        }
    }
}

/// What is left of a cell, or nothing, where there is none.
fn left_at(left: &[u32], cell: usize) -> u32
    ensures { result ≡ get_or left.now cell 0 }
{
    if cell < left.len() { left[cell] } else { 0 }
}

/// So many lines less.
fn fewer(lines: u32, between: usize) -> u32
    ensures { result ≡ lines - between }
{
    (lines as usize).saturating_sub(between) as u32
}

/// The height of a row with these keys, of whose cells so much is left, in front of one with those
/// cells.
pub(super) fn highest(left: &[u32], keys: &[FormatKey], below: RowCells<'_>) -> u32
    requires small { length left.now < 2 ^ 62 }
    requires cells { AreCells 0 below.keys.now }
    ensures { (bytes : List ℕ) (bars : ℕ) → result ≡ height_in_front_of keys.now
        (seen bytes bars below.entry.keys.now below.entry.entries.now) left.now }
{
    let mut height = 1;
    for cell in 0..left.len() {
        let found = cell_below(keys, below, cell);
        height = higher(height, found, left_at(left, cell));
    }
    height
}

/// A height, or the lines of a cell, if these are more and it ends.
fn higher(height: u32, below: Option<usize>, lines: u32) -> u32
    ensures { result ≡ max height (if not (is_some below) then lines else 0) }
{
    match below {
        Some(_) => height,
        None => height.max(lines),
    }
}

/// So many lines less are left of each cell.
pub(super) fn lower_all(left: &mut Vec<u32>, height: u32)
    ensures items { left.new.items ≡ map (λ n. n - height) left.old.items }
    ensures capacity { vec_capacity left.new ≡ vec_capacity left.old }
{
    lower(left.as_mut_slice(), height);
}

/// So many lines less are in each of these counts.
fn lower(left: &mut [u32], height: u32)
    ensures { left.new ≡ map (λ n. n - height) left.old }
{
    for cell in 0..left.len() {
        left[cell] = left[cell].saturating_sub(height);
    }
}
