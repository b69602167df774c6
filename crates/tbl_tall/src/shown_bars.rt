//! The bars that a line of a row shows, and the columns of its cells that go on, one by one.

ghost use Rattle.std.specs.Prelude.{◌≡◌, ℕ, ◌+◌, ◌<◌, ◌≤◌, ◌^◌, ◌++◌, List, [], length, map};
ghost use Rattle.std.specs.Prelude.{None, Some, nat_lt, replicate, vec_capacity};
ghost use Rattle.tbl_format.specs.Cells.{AreCells};
ghost use Rattle.tbl_format.specs.Format.{columns_of_keys};
ghost use Rattle.tbl_layout.specs.Widths.{edge_bars};
ghost use Rattle.tbl_lines.specs.CellsLeft.{Left};
ghost use Rattle.tbl_lines.specs.LinesLeft.{OfRow, bars_in_front};
ghost use Rattle.tbl_options.specs.declared.options.Boxing.{Boxing};
ghost use Rattle.tbl_tall.specs.Bands.{ShowBars};
ghost use Rattle.tbl_line_cells.specs.LinesDrawn.{keys_in};
ghost use Rattle.tbl_line_cells.specs.KeptCells.{AllLeft, behind_rules};
ghost use Rattle.tbl_tall.specs.ShownBars.{owner_of, owners};

use tbl_layout::bars::{edge_bars, inner_bars};
use tbl_line_cells::cells::CellLeft;
use tbl_options::options::Boxing;

/// No bars at so many boundaries.
pub fn push_nothing(bars: &mut Vec<u8>, count: usize)
    requires room { length bars.old.items + count ≤ vec_capacity bars.old }
    ensures items { bars.new.items ≡ bars.old.items ++ replicate count 0 }
    ensures capacity { vec_capacity bars.new ≡ vec_capacity bars.old }
{
    for at in 0..count {
        bars.push_reserved(0);
    }
}

/// A cell that goes through so many columns, or none that does.
pub fn push_owner(through: &mut Vec<Option<usize>>, owner: Option<usize>, count: usize)
    requires room { length through.old.items + count ≤ vec_capacity through.old }
    ensures items { through.new.items ≡ through.old.items ++ replicate count owner }
    ensures capacity { vec_capacity through.new ≡ vec_capacity through.old }
{
    for at in 0..count {
        through.push_reserved(owner);
    }
}

/// The columns of each cell, which goes through them if it goes on.
pub fn push_through(through: &mut Vec<Option<usize>>, cells: &[CellLeft])
    requires none { through.old.items ≡ [] }
    requires cells { AreCells 0 (keys_in cells.now) }
    requires small { columns_of_keys (keys_in cells.now) < 2 ^ 32 }
    requires room { columns_of_keys (keys_in cells.now) ≤ vec_capacity through.old }
    ensures items { through.new.items ≡ owners 0 0 cells.now }
    ensures capacity { vec_capacity through.new ≡ vec_capacity through.old }
{
    let mut column: u32 = 0;
    for at in 0..cells.len() {
        let end = cells[at].key.end;
        push_owner(through, owner_of(cells[at], at), (end - column) as usize);
        column = end;
    }
}

/// A cell with a number, if it goes on.
fn owner_of(cell: CellLeft, at: usize) -> Option<usize>
    ensures { result ≡ owner_of at cell }
{
    if cell.goes_on() { Some(at) } else { None }
}

/// How many bars a line of a row with these cells shows at each boundary, or its first line, in
/// front of which so many lines of rules stand.
pub fn push_shown(
    shown: &mut Vec<u8>,
    cells: &[CellLeft],
    last_bars: u8,
    boxing: Boxing,
    rules: u128,
)
    requires none { shown.old.items ≡ [] }
    requires cells { AreCells 0 (keys_in cells.now) }
    requires some { 0 < length cells.now }
    requires small { columns_of_keys (keys_in cells.now) < 2 ^ 32 }
    requires room { columns_of_keys (keys_in cells.now) + 1 ≤ vec_capacity shown.old }
    ensures shown { (bytes : List ℕ) (lefts : List Left) → AllLeft bytes cells.now lefts
        → ShowBars boxing (columns_of_keys (keys_in cells.now)) shown.new.items
        (OfRow (map (behind_rules rules) lefts) last_bars) }
    ensures capacity { vec_capacity shown.new ≡ vec_capacity shown.old }
{
    let mut column: u32 = 0;
    for at in 0..cells.len() {
        let end = cells[at].key.end;
        shown.push_reserved(bars_before(cells, at, boxing, rules));
        push_nothing(shown, (end - column - 1) as usize);
        column = end;
    }
    shown.push_reserved(edge_bars(boxing, last_bars));
}

/// The bars that it shows in front of a cell.
fn bars_before(cells: &[CellLeft], at: usize, boxing: Boxing, rules: u128) -> u8
    requires { at < length cells.now }
    ensures { (bytes : List ℕ) (lefts : List Left) (last : ℕ) → AllLeft bytes cells.now lefts
        → result ≡ bars_in_front boxing last (map (behind_rules rules) lefts) at }
{
    let cell = cells[at];
    if at == 0 {
        return edge_bars(boxing, cell.key.bars);
    }
    // Most cells have no bars in front of them.
    let bars = inner_bars(boxing, cell.key.bars);
    if bars == 0 {
        return 0;
    }
    let before = cells[at - 1].on_first_line(rules);
    match before.joined(cell.on_first_line(rules)) {
        Some(_) => 0,
        None => bars,
    }
}
