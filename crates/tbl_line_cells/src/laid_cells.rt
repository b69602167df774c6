//! The cells of a line, and where those stand that are texts (Lesk, "Tbl": Formatting).

ghost use Rattle.std.specs.Prelude.{◌≡◌, ℕ, ◌<◌, ◌^◌, List, None, Some, false, true};
ghost use Rattle.tbl_layout.specs.declared.data_lines.RuleSign.{RuleSign as OneSign};
ghost use Rattle.tbl_layout.specs.declared.entry.EntryKind.TheVariants.{Repeated, Ruled};
ghost use Rattle.tbl_lines.specs.CellsLeft.{Left};
ghost use Rattle.tbl_lines.specs.LinesLeft.{runs_on, shown};
ghost use Rattle.tbl_lines.specs.PictureLines.{bar};
ghost use Rattle.tbl_lines.specs.RowsWalked.{IsNarrow};
ghost use Rattle.tbl_line_cells.specs.KeptCells.{IsLeft};
ghost use Rattle.tbl_line_cells.specs.LaidCells.{IsShown, is_text_behind, place_among};
ghost use Rattle.tbl_line_cells.specs.LaidCells.{repeated_entry, text_of};

use crate::cells::CellLeft;
use tbl_format::format::Key;
use tbl_layout::columns::Column;
use tbl_layout::data_lines::{RuleSign, sign_byte};
use tbl_layout::entry::{Entry, EntryKind, is_number};
use tbl_text::block_parts::BlockPlace;

/// At which column of the page a text begins, and over how many rows its cell has come.
#[derive(Clone, Copy)]
pub struct TextAt {
    pub at: usize,
    pub rows: usize,
}

/// What runs on beyond the columns of its cell.
#[derive(Clone, Copy)]
pub struct RunsOn {
    /// Behind how many columns the cell ends.
    pub end: usize,
    /// Behind how many columns what stands in it ends at the latest.
    pub stop: usize,
    /// Whether it is a number.
    pub is_number: bool,
    /// Whether a line of it was cut before.
    pub is_cut: bool,
}

/// A cell of a line: its columns as one, its key, what stands in it, where a block goes on, where
/// it begins, if it is a text, and whether it runs on.
#[derive(Clone, Copy)]
pub struct LaidCell {
    pub column: Column,
    pub key: Key,
    pub entry: Entry,
    pub place: BlockPlace,
    pub text: Option<TextAt>,
    pub runs_on: Option<RunsOn>,
}

/// In front of which of these cells a text stands.
pub fn place_of(cells: &[LaidCell], text: TextAt) -> usize
    ensures { result ≡ place_among (Some text) cells.now }
{
    for at in 0..cells.len() {
        if is_behind(cells[at].text, text) {
            return at;
        }
    }
    cells.len()
}

/// Whether a text stands behind another one, which has come over more rows.
fn is_behind(other: Option<TextAt>, text: TextAt) -> bool
    ensures { result ≡ is_text_behind (Some text) other }
{
    match other {
        Some(other) => other.at == text.at && other.rows < text.rows,
        None => false,
    }
}

/// A cell of a line as it is left, in its columns as one. A rule ends at a column of the page.
pub fn laid(cell: CellLeft, column: Column, end: usize) -> LaidCell
    requires narrow { IsNarrow column }
    requires end { end < 2 ^ 32 }
    ensures { (bytes : List ℕ) (l : Left) → IsLeft bytes cell l
        → IsShown bytes result (shown l column end) }
{
    let key = cell.key.key;
    if cell.lead > 0 {
        return LaidCell {
            column,
            key,
            entry: Entry::NOTHING,
            place: BlockPlace::AtEnd,
            text: text_at(cell, column),
            runs_on: None,
        };
    }
    match cell.entry.kind {
        EntryKind::Ruled(sign) => LaidCell {
            column: Column {
                needs: column.needs,
                bars: column.bars,
                width: end.saturating_sub(column.start),
                start: column.start,
            },
            key,
            entry: repeated(sign),
            place: BlockPlace::AtEnd,
            text: None,
            runs_on: None,
        },
        _ => {
            if cell.runs_on(column) {
                return running(cell, column);
            }
            laid_within(cell, column)
        }
    }
}

/// A cell that is no rule, and of which nothing runs on.
// It is called for each cell.
#[inline(always)]
pub fn laid_within(cell: CellLeft, column: Column) -> LaidCell
    requires here { cell.lead ≡ 0 }
    requires other { (sign : OneSign) → cell.entry.kind ≡ Ruled sign → ⊥ }
    requires narrow { IsNarrow column }
    ensures shown { (bytes : List ℕ) (l : Left) (end : ℕ) → IsLeft bytes cell l
        → runs_on l column ≡ false → IsShown bytes result (shown l column end) }
    ensures stays { result.runs_on ≡ None }
{
    LaidCell {
        column,
        key: cell.key.key,
        entry: cell.entry,
        place: cell.place,
        text: text_at(cell, column),
        runs_on: None,
    }
}

/// A cell in which something runs on, from its first place.
fn running(cell: CellLeft, column: Column) -> LaidCell
    requires here { cell.lead ≡ 0 }
    requires narrow { IsNarrow column }
    ensures { (bytes : List ℕ) (l : Left) (end : ℕ) → IsLeft bytes cell l
        → runs_on l column ≡ true → IsShown bytes result (shown l column end) }
{
    LaidCell {
        column: Column {
            needs: Column::EMPTY.needs,
            bars: column.bars,
            width: 0,
            start: column.start,
        },
        key: Key::Left,
        entry: cell.entry,
        place: cell.place,
        text: Some(TextAt {
            at: column.start,
            rows: cell.rows,
        }),
        runs_on: Some(RunsOn {
            end: cell.key.end as usize,
            stop: cell.stop,
            is_number: is_number(cell.key.key),
            is_cut: cell.is_cut,
        }),
    }
}

/// Where the text or the block of a cell begins that doesn't run on.
fn text_at(cell: CellLeft, column: Column) -> Option<TextAt>
    requires { IsNarrow column }
    ensures { (bytes : List ℕ) (l : Left) (end : ℕ) → IsLeft bytes cell l
        → runs_on l column ≡ false → result ≡ text_of (shown l column end) }
{
    match cell.entry.kind {
        EntryKind::Ruled(_) => None,
        EntryKind::Short => None,
        EntryKind::Repeated(_) => None,
        _ => {
            let key = cell.key.key;
            Some(TextAt {
                at: column.start + column.place_of(key, cell.entry.stands(key)),
                rows: cell.rows,
            })
        }
    }
}

/// A rule over its column.
pub fn repeated(sign: RuleSign) -> Entry
    ensures { result ≡ repeated_entry sign }
{
    Entry {
        from: 0,
        to: 0,
        kind: EntryKind::Repeated(sign_byte(sign)),
    }
}

/// So many columns of the page from one on.
pub fn drawn_at(from: usize, width: usize) -> Column
    ensures start { result.start ≡ from }
    ensures width { result.width ≡ width }
{
    Column {
        needs: Column::EMPTY.needs,
        bars: 0,
        width,
        start: from,
    }
}

/// Nothing over a column that the line doesn't rule.
pub fn nothing_ruled() -> Entry
    ensures { result ≡ record { from = 0; to = 0; kind = Repeated bar } }
{
    Entry {
        from: 0,
        to: 0,
        kind: EntryKind::Repeated(b'|'),
    }
}
