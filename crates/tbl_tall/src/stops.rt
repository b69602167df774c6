//! Where what is without width in the cells of a row ends at the latest (Lesk, "Tbl": Format, the
//! key letter `z`).

ghost use Rattle.std.specs.List.{AllByRecursion};
ghost use Rattle.std.specs.Prelude.{◌≡◌, ℕ, suc, ◌<◌, ◌≤◌, ◌^◌, List, drop, length, min};
ghost use Rattle.std.specs.Prelude.{if◌then◌else◌};
ghost use Rattle.tbl_format.specs.Cells.{start_of};
ghost use Rattle.tbl_format.specs.RowsServed.{all_rows};
ghost use Rattle.tbl_format.specs.declared.format.FormatKey.{FormatKey};
ghost use Rattle.tbl_kept.specs.Rows.{ElementLaid, elements_of};
ghost use Rattle.tbl_kept.specs.RowsLaying.{element_at};
ghost use Rattle.tbl_lines.specs.CellsLeft.{Left, all_keys, all_stopped, first_used, stop_below};
ghost use Rattle.tbl_lines.specs.CellsLeft.{stopped};
ghost use Rattle.tbl_line_cells.specs.KeptCells.{AllLeft, IsLeft};
ghost use Rattle.tbl_line_cells.specs.declared.cells.CellLeft.{CellLeft as OneCell};
ghost use Rattle.tbl_tall.specs.RowsNext.{HasKeys, end_kept};
ghost use Rattle.tbl_tall.specs.StopsKept.{IsRow, first_kept, format_kept, is_used_at, start_in};
ghost use Rattle.tbl_tall.specs.TallRows.{RowsLie};

use crate::lines_over::{cell_under, end_in};
use tbl_format::cells::end_of;
use tbl_format::format::FormatKey;
use tbl_format::format_rows::FormatRows;
use tbl_kept::rows::{Lent, TableRows};
use tbl_line_cells::cells::CellLeft;

/// What is without width in cells that begin with their row, which is this element, ends at the
/// latest in front of what stands beside it and below that: from the right.
pub fn set_stops(cells: &mut [CellLeft], rows: &TableRows, format: &FormatRows, element: usize)
    requires lie { RowsLie (all_rows format.now.format) rows.now }
    requires at { element < length rows.now.elements }
    requires row { IsRow (element_at rows.now.elements element) }
    requires small { length rows.now.columns < 2 ^ 32 }
    requires keys { HasKeys cells.old (all_keys (length rows.now.columns)
        (format_kept (all_rows format.now.format) (element_at rows.now.elements element))) }
    ensures left { (bytes : List ℕ) (lefts : List Left)
        → AllByRecursion (ElementLaid bytes (all_rows format.now.format)
        (length rows.now.columns)) rows.now.elements
        → AllLeft bytes cells.old lefts
        → AllLeft bytes cells.new (all_stopped (length rows.now.columns)
        (format_kept (all_rows format.now.format) (element_at rows.now.elements element)).keys
        (elements_of bytes (all_rows format.now.format) (drop (suc element) rows.now.elements))
        0 lefts) }
    ensures keys { (keys : List FormatKey) → HasKeys cells.old keys → HasKeys cells.new keys }
    ensures come { (n : ℕ) → AllByRecursion (λ (c : OneCell). c.rows ≤ n) cells.old
        → AllByRecursion (λ (c : OneCell). c.rows ≤ n) cells.new }
{
    let mut next = rows.columns().len();
    let mut at = cells.len();
    while at > 0 {
        let last = at - 1;
        let cell = &mut cells[last];
        set_stop(cell, rows, format, element, last, next);
        next = first_from(cells, last, next);
        at = last;
    }
}

/// What is without width in a cell that begins with its row, which is this element, ends at the
/// latest behind so many columns, where something stands beside it, and in front of what stands
/// below that.
fn set_stop(
    cell: &mut CellLeft,
    rows: &TableRows,
    format: &FormatRows,
    element: usize,
    at: usize,
    next: usize,
)
    requires lie { RowsLie (all_rows format.now.format) rows.now }
    requires at { element < length rows.now.elements }
    requires row { IsRow (element_at rows.now.elements element) }
    requires small { length rows.now.columns < 2 ^ 32 }
    requires few { at < 2 ^ 61 }
    requires end { end_kept (all_rows format.now.format) (element_at rows.now.elements element) at
        ≤ length rows.now.columns }
    requires next { next ≤ length rows.now.columns }
    ensures left { (bytes : List ℕ) (l : Left) (others : List Left)
        → AllByRecursion (ElementLaid bytes (all_rows format.now.format)
        (length rows.now.columns)) rows.now.elements
        → IsLeft bytes cell.old l → next ≡ first_used (length rows.now.columns) l.key.end others
        → IsLeft bytes cell.new (stopped (length rows.now.columns)
        (format_kept (all_rows format.now.format) (element_at rows.now.elements element)).keys
        (elements_of bytes (all_rows format.now.format) (drop (suc element) rows.now.elements))
        at l others) }
    ensures same { cell.new ≡ record cell.old { stop = cell.new.stop } }
{
    if !cell.key.has_no_width {
        return;
    }
    if cell.goes_on() {
        return;
    }
    cell.stop = stop_below(rows, format, element, at, next);
}

/// Behind how many columns the first cell in which something stands begins, from this one on, where
/// from the one behind it on that is so many.
fn first_from(cells: &[CellLeft], at: usize, next: usize) -> usize
    requires { at < length cells.now }
    ensures { result ≡ (if is_used_at cells.now at then start_in cells.now at else next) }
{
    if !cells[at].is_used {
        return next;
    }
    if at == 0 {
        return 0;
    }
    cells[at - 1].key.end as usize
}

/// Behind how many columns the first cell begins, behind a cell, in which something stands in one
/// of the rows below that the cell covers, if that are fewer than so many, else these.
fn stop_below(
    rows: &TableRows,
    format: &FormatRows,
    element: usize,
    cell: usize,
    most: usize,
) -> usize
    requires lie { RowsLie (all_rows format.now.format) rows.now }
    requires at { element < length rows.now.elements }
    requires row { IsRow (element_at rows.now.elements element) }
    requires small { length rows.now.columns < 2 ^ 32 }
    requires few { cell < 2 ^ 61 }
    requires end { end_kept (all_rows format.now.format) (element_at rows.now.elements element) cell
        ≤ length rows.now.columns }
    requires most { most ≤ length rows.now.columns }
    ensures { (bytes : List ℕ) → AllByRecursion (ElementLaid bytes (all_rows format.now.format)
        (length rows.now.columns)) rows.now.elements
        → result ≡ min most (stop_below (length rows.now.columns)
        (format_kept (all_rows format.now.format) (element_at rows.now.elements element)).keys
        cell (elements_of bytes (all_rows format.now.format)
        (drop (suc element) rows.now.elements))) }
{
    rows.stay_few();
    let end = end_in(rows, format, element, cell);
    let mut row = element;
    let mut own = cell;
    let mut stop = most;
    for at in element + 1..rows.count() {
        match rows.element(at) {
            Lent::Row(keys, _, _, _) => match cell_under(rows, format, row, at, own, end) {
                Some(below) => {
                    let served = format.row_of_all(keys);
                    stop = first_entry(rows, format, at, served, below + 1, end, stop);
                    own = below;
                    row = at;
                }
                None => return stop,
            },
            Lent::Rule(_) => {}
            Lent::Command(_, _) => {}
        }
    }
    stop
}

/// Behind how many columns the first cell of a row of these keys begins in which something stands,
/// from a cell on that begins behind so many, if that are fewer than so many, else these.
fn first_entry(
    rows: &TableRows,
    format: &FormatRows,
    element: usize,
    keys: &[FormatKey],
    cell: usize,
    from: usize,
    most: usize,
) -> usize
    requires lie { RowsLie (all_rows format.now.format) rows.now }
    requires at { element < length rows.now.elements }
    requires small { length rows.now.columns < 2 ^ 32 }
    requires keys { keys.now ≡ (format_kept (all_rows format.now.format)
        (element_at rows.now.elements element)).keys }
    requires begins { from ≡ start_of keys.now cell }
    requires most { most ≤ length rows.now.columns }
    ensures value { (bytes : List ℕ) → ElementLaid bytes (all_rows format.now.format)
        (length rows.now.columns) (element_at rows.now.elements element)
        → result ≡ min most (first_kept bytes (all_rows format.now.format)
        (length rows.now.columns) from (element_at rows.now.elements element) cell) }
    ensures few { result ≤ most }
{
    let mut begin = from;
    let mut own = cell;
    while begin < most {
        if rows.field_of(format, element, own).is_used() {
            return begin;
        }
        begin = end_of(keys, own);
        own += 1;
    }
    most
}
