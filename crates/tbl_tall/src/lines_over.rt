//! How far a cell goes on below its row (Lesk, "Tbl": Format).

ghost use Rattle.std.specs.Prelude.{◌≡◌, ℕ, suc, ◌+◌, ◌*◌, ◌<◌, ◌≤◌, ◌^◌, List, drop, length};
ghost use Rattle.std.specs.Prelude.{IfSome, false};
ghost use Rattle.tbl_format.specs.Cells.{end_of};
ghost use Rattle.tbl_format.specs.RowsServed.{all_rows, row_at};
ghost use Rattle.tbl_kept.specs.KeptHeights.{cell_below_kept};
ghost use Rattle.tbl_kept.specs.Rows.{KeptElement};
ghost use Rattle.tbl_kept.specs.RowsLaying.{element_at, goes_on};
ghost use Rattle.tbl_tall.specs.LinesOver.{NoneGoesOn, NoneOver, lines_kept};
ghost use Rattle.tbl_tall.specs.RowsNext.{end_kept};
ghost use Rattle.tbl_tall.specs.TallRows.{RowsLie};

use tbl_format::cells::end_of;
use tbl_format::format::FormatKey;
use tbl_format::format_rows::FormatRows;
use tbl_kept::rows::heights::rules_between;
use tbl_kept::rows::{Lent, TableRows};
use tbl_layout::entry::{Entry, EntryKind};

/// How many lines of the picture a cell of a row has below it, where some cells of the row may go
/// on in the next one, or none does.
// It is called for each cell, and mostly is over at once.
#[inline(always)]
pub fn lines_over(
    rows: &TableRows,
    format: &FormatRows,
    is_inside: bool,
    element: usize,
    cell: usize,
    is_over: bool,
) -> u128
    requires small { cell < 2 ^ 61 }
    requires at { element < length rows.now.elements }
    requires lie { RowsLie (all_rows format.now.format) rows.now }
    requires over { is_over ≡ false → NoneOver (all_rows format.now.format)
        (drop (suc element) rows.now.elements) }
    ensures value { (bytes : List ℕ) → result ≡ lines_kept bytes (all_rows format.now.format)
        is_inside (element_at rows.now.elements element) cell 0
        (drop (suc element) rows.now.elements) }
    ensures most { result < 2 ^ 127 }
{
    if !is_over {
        return 0;
    }
    rows.stay_few();
    let end = end_in(rows, format, element, cell);
    let mut row = element;
    let mut own = cell;
    let mut lines: u128 = 0;
    let mut rules = 0;
    for at in element + 1..rows.count() {
        match rows.element(at) {
            Lent::Row(_, rule_rows, height, _) => {
                rows.rules_stay_few(at);
                stays_few(height);
                match cell_under(rows, format, row, at, own, end) {
                    Some(below) => {
                        lines += (rules_between(is_inside, rules, rule_rows) as u128)
                            + u128::from(height);
                        own = below;
                        row = at;
                        rules = 0;
                    }
                    None => return lines,
                }
            }
            Lent::Rule(_) => rules += 1,
            Lent::Command(_, _) => {}
        }
    }
    lines
}

/// Up to which column a cell of a row goes, if that is one.
pub fn end_in(rows: &TableRows, format: &FormatRows, element: usize, cell: usize) -> usize
    requires small { cell < 2 ^ 61 }
    requires at { element < length rows.now.elements }
    requires lie { RowsLie (all_rows format.now.format) rows.now }
    ensures value { result ≡ end_kept (all_rows format.now.format)
        (element_at rows.now.elements element) cell }
    ensures near { result < 2 ^ 62 }
{
    match rows.element(element) {
        Lent::Row(keys, _, _, _) => end_of(format.row_of_all(keys), cell),
        Lent::Rule(_) => 0,
        Lent::Command(_, _) => 0,
    }
}

/// The cell of the row below that goes on with a cell of a row, if one does: it goes up to the same
/// column.
pub fn cell_under(
    rows: &TableRows,
    format: &FormatRows,
    row: usize,
    at: usize,
    cell: usize,
    end: usize,
) -> Option<usize>
    requires small { cell < 2 ^ 62 }
    requires near { end < 2 ^ 62 }
    requires row { row < length rows.now.elements }
    requires at { at < length rows.now.elements }
    requires lie { RowsLie (all_rows format.now.format) rows.now }
    requires end { end ≡ end_kept (all_rows format.now.format) (element_at rows.now.elements row)
        cell }
    ensures value { (bytes : List ℕ) → result ≡ cell_below_kept bytes
        (all_rows format.now.format) cell (element_at rows.now.elements row)
        (element_at rows.now.elements at) }
    ensures small { IfSome result (λ below. below < 2 ^ 62) }
    ensures end { IfSome result (λ below. end
        ≡ end_kept (all_rows format.now.format) (element_at rows.now.elements at) below) }
{
    rows.cell_below(format, row, at, cell)
}

/// A number of 32 bits is less than 2 ^ 32.
fn stays_few(number: u32)
    ensures { number < 2 ^ 32 }
{}

/// Whether a cell of the first row behind an element may go on with one above it.
pub fn may_go_on(rows: &TableRows, format: &FormatRows, element: usize) -> bool
    requires at { element < length rows.now.elements }
    requires lie { RowsLie (all_rows format.now.format) rows.now }
    ensures { result ≡ false → NoneOver (all_rows format.now.format)
        (drop (suc element) rows.now.elements) }
{
    rows.stay_few();
    for at in element + 1..rows.count() {
        match rows.element(at) {
            Lent::Row(keys, _, _, entries) => {
                return may_be_above(format.row_of_all(keys), entries);
            }
            Lent::Rule(_) => {}
            Lent::Command(_, _) => (),
        }
    }
    false
}

/// Whether a field of a row of these keys may be that of the cell above it.
fn may_be_above(keys: &[FormatKey], entries: &[Entry]) -> bool
    ensures { result ≡ false → NoneGoesOn keys.now entries.now }
{
    if entries.len() < keys.len() {
        return true;
    }
    for at in 0..entries.len() {
        if goes_on(entries[at]) {
            return true;
        }
    }
    false
}

/// Whether a field is that of the cell above.
pub fn goes_on(entry: Entry) -> bool
    ensures { result ≡ goes_on entry.kind }
{
    matches!(entry.kind, EntryKind::Above)
}
