//! The cells of a row of a format, and the columns that they have (Lesk, "Tbl": Format).

ghost use Rattle.std.specs.Prelude.{◌≡◌, ℕ, ◌+◌, ◌<◌, ◌≤◌, ◌^◌, length};
ghost use Rattle.tbl_format.specs.Cells.{same_cell, AreCells, cell_behind, cell_count, end_of};
ghost use Rattle.tbl_format.specs.Cells.{start_of};
ghost use Rattle.tbl_format.specs.Format.{columns_of_keys};

use crate::format::FormatKey;

/// How many columns the cells of these keys have.
pub fn columns_of(keys: &[FormatKey]) -> usize
    ensures value { result ≡ columns_of_keys keys.now }
    ensures most { result < 2 ^ 32 }
{
    match keys.last() {
        Some(key) => key.end as usize,
        None => 0,
    }
}

/// Up to which column a cell of a row with these keys goes: behind the last key each cell has one
/// column.
// It is called for each cell.
#[inline]
pub fn end_of(keys: &[FormatKey], cell: usize) -> usize
    requires { cell < 2 ^ 63 }
    ensures value { result ≡ end_of keys.now cell }
    ensures most { result < 2 ^ 64 }
    ensures near { result ≤ 2 ^ 32 + cell }
{
    match keys.get(cell) {
        Some(key) => key.end as usize,
        None => columns_of(keys) + (cell - keys.len()) + 1,
    }
}

/// Behind which column a cell of a row with these keys begins.
#[inline]
pub fn start_of(keys: &[FormatKey], cell: usize) -> usize
    requires { cell < 2 ^ 63 }
    ensures { result ≡ start_of keys.now cell }
{
    start_near(keys, cell)
}

/// Behind which column a cell of a row with these keys begins: behind 2 ^ 32 columns at most, and
/// one for each cell in front of it.
#[inline]
fn start_near(keys: &[FormatKey], cell: usize) -> usize
    requires { cell < 2 ^ 63 }
    ensures value { result ≡ start_of keys.now cell }
    ensures near { result ≤ 2 ^ 32 + cell }
{
    if cell == 0 { 0 } else { end_of(keys, cell - 1) }
}

/// How many cells a row with these keys has in a table of so many columns.
pub fn cell_count(keys: &[FormatKey], columns: usize) -> usize
    requires { columns < 2 ^ 63 }
    ensures { result ≡ cell_count keys.now columns }
{
    keys.len() + columns.saturating_sub(columns_of(keys))
}

/// The cell of a row with these keys that begins behind so many columns, if one does.
// It is called for each boundary on a line of rules.
#[inline(always)]
pub fn cell_behind(keys: &[FormatKey], column: usize) -> Option<usize>
    requires { AreCells 0 keys.now }
    ensures { result ≡ cell_behind keys.now column }
{
    // Most cells have one column.
    if column <= keys.len() && start_of(keys, column) == column {
        Some(column)
    } else {
        cell_searched(keys, column)
    }
}

/// The cell of a row with these keys that has the same columns as a cell of a row with others, if
/// one has.
pub fn same_cell(keys: &[FormatKey], others: &[FormatKey], cell: usize) -> Option<usize>
    requires cells { AreCells 0 keys.now }
    requires small { cell < 2 ^ 62 }
    ensures { result ≡ same_cell keys.now others.now cell }
{
    let found = cell_behind(keys, start_near(others, cell))?;
    if end_of(keys, found) == end_of(others, cell) {
        Some(found)
    } else {
        None
    }
}

/// The cell of a row with these keys that begins behind so many columns, if one does: it is found
/// by a search among the keys.
#[inline(never)]
fn cell_searched(keys: &[FormatKey], column: usize) -> Option<usize>
    requires { AreCells 0 keys.now }
    ensures { result ≡ cell_behind keys.now column }
{
    let cell = cells_up_to(keys, column);
    let from = start_of(keys, cell);
    if column < from {
        None
    } else {
        Some(cell + (column - from))
    }
}

/// How many cells of these keys begin before so many columns.
fn cells_up_to(keys: &[FormatKey], column: usize) -> usize
    requires { AreCells 0 keys.now }
    ensures few { result ≤ length keys.now }
    ensures before { (cell : ℕ) → cell < result → start_of keys.now cell < column }
    ensures behind { (cell : ℕ) → result ≤ cell → cell < length keys.now
        → column ≤ start_of keys.now cell }
{
    let mut low = 0;
    let mut high = keys.len();
    while low < high {
        let middle = low + (high - low) / 2;
        if start_of(keys, middle) < column {
            low = middle + 1;
        } else {
            high = middle;
        }
    }
    low
}
