//! Where a line of rules begins and ends over the columns of a table (Lesk, "Tbl": Formatting).

ghost use Rattle.std.specs.Prelude.{◌≡◌, ◌+◌, ◌<◌, ◌^◌, drop, length, if◌then◌else◌};
ghost use Rattle.tbl_layout.specs.Columns.{bars_begin};
ghost use Rattle.tbl_layout.specs.LayoutLaws.{first_start, last_end};
ghost use Rattle.tbl_lines.specs.RowsWalked.{AreNarrow, IsNarrow};
ghost use Rattle.tbl_line_cells.specs.RulesDrawn.{begin_at, end_at};

use tbl_layout::columns::{Column, bars_end};

/// Where the rule over a column begins: over the first one at a place.
pub fn rule_begin(columns: &[Column], from: usize, at: usize) -> usize
    requires within { at < length columns.now }
    requires narrow { AreNarrow columns.now }
    requires small { from < 2 ^ 32 }
    ensures value { result ≡ begin_at from at columns.now }
    ensures small { result < 2 ^ 32 }
{
    if at == 0 {
        from
    } else {
        bars_end(columns[at - 1], columns[at])
    }
}

/// Where the rule over a column ends: over the last one at a place.
pub fn rule_end(columns: &[Column], to: usize, at: usize) -> usize
    requires within { at < length columns.now }
    requires narrow { AreNarrow columns.now }
    requires small { to < 2 ^ 32 }
    ensures value { result ≡ end_at to (drop at columns.now) }
    ensures small { result < 2 ^ 32 }
{
    if at + 1 == columns.len() {
        to
    } else {
        end_of(columns[at])
    }
}

/// Where a column ends.
pub fn end_of(column: Column) -> usize
    requires { IsNarrow column }
    ensures { result ≡ column.start + column.width }
{
    column.start + column.width
}

/// Where the places of bars begin between two columns.
pub fn bars_begin(column: Column, next: Column) -> usize
    requires { IsNarrow column }
    ensures { result ≡ bars_begin column next }
{
    let end = end_of(column);
    let gap = next.start.saturating_sub(end);
    let count = (column.bars.max(1) as usize).min(gap);
    end + (gap - count) / 2
}

/// Where a line of rules begins over the first column: behind the bars of its edge, if it rules
/// that.
pub fn left_end(is_ruled: bool, bars: u8, columns: &[Column]) -> usize
    requires some { 0 < length columns.now }
    requires narrow { AreNarrow columns.now }
    ensures value { result ≡ (if is_ruled then bars else first_start bars columns.now) }
    ensures small { result < 2 ^ 32 }
{
    if is_ruled {
        bars as usize
    } else {
        columns[0].start
    }
}

/// Where a line of rules ends over the last column: at a place, if it rules the edge.
pub fn right_end(is_ruled: bool, right: usize, columns: &[Column]) -> usize
    requires some { 0 < length columns.now }
    requires narrow { AreNarrow columns.now }
    requires small { right < 2 ^ 32 }
    ensures value { result ≡ (if is_ruled then right else last_end 0 columns.now) }
    ensures small { result < 2 ^ 32 }
{
    if is_ruled {
        right
    } else {
        end_of(columns[columns.len() - 1])
    }
}
