//! The cells of the row that comes next of which something is cut (Lesk, "Tbl": Format, the key
//! letter `z`).

ghost use Rattle.std.specs.List.{AllByRecursion};
ghost use Rattle.std.specs.Prelude.{◌≡◌, ℕ, ◌≤◌, ◌||◌, List, length, map, true};
ghost use Rattle.tbl_format.specs.Format.{FormatRow};
ghost use Rattle.tbl_layout.specs.Entries.{Element};
ghost use Rattle.tbl_line_cells.specs.KeptCells.{AllLeft};
ghost use Rattle.tbl_line_cells.specs.LinesDrawn.{CutOn};
ghost use Rattle.tbl_lines.specs.CellsLeft.{Left};
ghost use Rattle.tbl_lines.specs.CutEntries.{all_with_cut, first_cut};
ghost use Rattle.tbl_lines.specs.LinesLeft.{Beside};
ghost use Rattle.tbl_lines.specs.PictureLines.{Sheet};
ghost use Rattle.tbl_tall.specs.CutsMarked.{flag_at, marked};
ghost use Rattle.tbl_line_cells.specs.declared.cells.CellLeft.{CellLeft as OneCell};

use super::TallRow;
use tbl_line_cells::cells::CellLeft;

impl TallRow {
    ghost use Rattle.tbl_tall.specs.TallRows.{Comes, RowStands};

    /// How many lines the row has still.
    pub fn lines_left(&self) -> u32
        ensures { result ≡ self.now.lines_left }
    {
        self.lines_left
    }

    /// Something in these cells was cut on the line that is laid. Answers in how many of them
    /// nothing was before.
    pub fn mark_cut(&mut self) -> usize
        ensures count { (columns : ℕ) (cut : List Left) → CutOn columns self.old.line cut
            → result ≡ first_cut columns cut }
        ensures comes { (bytes : List ℕ) (formats : List FormatRow) (s : Sheet) (heights : List ℕ)
            (cells : List Left) (above : Beside) (elements : List Element) (cut : List Left)
            → CutOn (length s.columns) self.old.line cut
            → Comes bytes formats s self.old heights cells above elements
            → Comes bytes formats s self.new heights (all_with_cut cut cells) above elements }
        ensures stands { (bytes : List ℕ) (s : Sheet) (format : FormatRow) (cells : List Left)
            (lines : ℕ) (cut : List Left) → CutOn (length s.columns) self.old.line cut
            → RowStands bytes s self.old format cells lines
            → RowStands bytes s self.new format (all_with_cut cut cells) lines }
        ensures come { self.new.come ≡ self.old.come }
        ensures room { self.new.room ≡ self.old.room }
    {
        mark_cut(self.cells.as_mut_slice(), self.line.cut.as_slice());
        self.line.first_cut
    }
}

/// Something is cut of those of these cells that end behind columns whose flags are set.
fn mark_cut(cells: &mut [CellLeft], flags: &[bool])
    ensures left { (bytes : List ℕ) (lefts : List Left) → AllLeft bytes cells.old lefts
        → AllLeft bytes cells.new (map (marked flags.now) lefts) }
    ensures come { (n : ℕ) → AllByRecursion (λ (c : OneCell). c.rows ≤ n) cells.old
        → AllByRecursion (λ (c : OneCell). c.rows ≤ n) cells.new }
    ensures many { length cells.new ≡ length cells.old }
{
    if flags.is_empty() {
        return;
    }
    for at in 0..cells.len() {
        cells[at] = with_mark(cells[at], flags);
    }
}

/// Something is cut of a cell, if its flag is set.
fn with_mark(cell: CellLeft, flags: &[bool]) -> CellLeft
    ensures { result ≡ record cell { is_cut = cell.is_cut || flag_at flags.now cell.key.end } }
{
    if is_set(flags, cell.key.end as usize) {
        return cell.cut();
    }
    cell
}

/// Whether the flag of cells that end behind so many columns is set.
fn is_set(flags: &[bool], end: usize) -> bool
    ensures { result ≡ flag_at flags.now end }
{
    match flags.get(end.saturating_sub(1)) {
        Some(flag) => end > 0 && *flag,
        None => false,
    }
}
