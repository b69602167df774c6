//! What stands in front of the row that comes next, and at its end (Lesk, "Tbl": Format).

ghost use Rattle.std.specs.Prelude.{◌≡◌, ◌+◌, ◌<◌, ◌≤◌, ◌^◌, ◌&&◌, is_some, length};
ghost use Rattle.tbl_format.specs.RowsServed.{all_rows, row_at};
ghost use Rattle.tbl_lines.specs.CellsLeft.{bars_at_end};
ghost use Rattle.tbl_lines.specs.PictureLines.{frame_rules};
ghost use Rattle.tbl_tall.specs.RowsNext.{rules_in_front};

use crate::next_cells::RowComing;
use tbl_format::cells::columns_of;
use tbl_format::format_rows::FormatRows;
use tbl_kept::rows::TableRows;
use tbl_options::options::Boxing;

/// How many bars stand behind the last cell of a row.
pub fn bars_at_end(rows: &TableRows, format: &FormatRows, keys: usize) -> u8
    requires { keys < length (all_rows format.now.format) }
    ensures { result ≡ bars_at_end (length rows.now.columns)
        (row_at (all_rows format.now.format) keys) }
{
    if columns_of(format.row_of_all(keys)) < rows.columns().len() {
        0
    } else {
        format.bars_of_all(keys)
    }
}

/// How many rules stand in front of a row behind so many: a box adds one between rows where none
/// stands, also none of rule keys.
pub fn rules_in_front(boxing: Boxing, row: RowComing, rules: usize) -> usize
    ensures value { result
        ≡ rules_in_front (boxing.is_inside && is_some row.above) rules row.rules }
    ensures most { result ≤ rules + 1 }
{
    if boxing.is_inside && row.above.is_some() && rules == 0 && row.rules == 0 {
        1
    } else {
        rules
    }
}

/// How many lines of rules a box adds above everything, and below.
pub fn frame_lines(boxing: Boxing) -> usize
    ensures value { result ≡ length (frame_rules boxing) }
    ensures most { result ≤ 1 }
{
    if boxing.bars == 0 { 0 } else { 1 }
}

/// A number of 64 bits is less than 2 ^ 64.
pub fn stays_within(number: usize)
    ensures { number < 2 ^ 64 }
{}
