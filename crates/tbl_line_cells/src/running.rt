//! What runs on beyond the columns of its cell, and where it is cut (Lesk, "Tbl": Format, the key
//! letter `z`).

ghost use Rattle.std.specs.Option.{MatchOption};
ghost use Rattle.std.specs.Prelude.{◌≡◌, ℕ, List, [], ◌+◌, ◌<◌, ◌≤◌, ◌^◌, ◌&&◌, false, not};
ghost use Rattle.std.specs.Prelude.{IfSome, None, Some, is_some, nat_lt, replicate, vec_capacity};
ghost use Rattle.std.specs.Prelude.{if◌then◌else◌};
ghost use Rattle.tbl_layout.specs.Entries.{columns_of};
ghost use Rattle.tbl_layout.specs.declared.bars.Bars.{Bars};
ghost use Rattle.tbl_lines.specs.CellsLeft.{Left};
ghost use Rattle.tbl_lines.specs.LinesLeft.{Shown, cut_to, is_there, room_by};
ghost use Rattle.tbl_lines.specs.PictureLines.{Cell};
ghost use Rattle.tbl_lines.specs.RowsLeft.{cell_of_front, first_of};
ghost use Rattle.tbl_lines.specs.RowsWalked.{AreNarrow, HasBars, IsNarrow};
ghost use Rattle.std.specs.List.{slice_range};
ghost use Rattle.tbl_layout.specs.KeptEntries.{Lies, measure_by};
ghost use Rattle.tbl_lines.specs.RowsLeft.{block_text};
ghost use Rattle.tbl_text.specs.BlockLines.{first_line, line_width};
ghost use Rattle.tbl_text.specs.BlockPlaces.{IsWithin, parts_at};
ghost use Rattle.tbl_text.specs.Fitted.{fitting_text};
ghost use Rattle.tbl_line_cells.specs.LaidCells.{IsDrawn, IsShown, on_line, with_room, with_text};

use crate::laid_cells::{LaidCell, RunsOn};
use input_escapes::OpenEscapes;
use tbl_layout::columns::Column;
use tbl_layout::entry::{Entry, EntryKind};
use tbl_lines::fronts::Front;
use tbl_lines::row_columns::block_bytes;
use tbl_text::block_parts::{BlockPlace, Room};
use tbl_text::fitted::{fitting_len, line_width_at};
use tbl_text::measure::measure;

/// So many flags that aren't set.
pub fn fill_false(flags: &mut Vec<bool>, count: usize)
    requires none { flags.old.items ≡ [] }
    requires room { count ≤ vec_capacity flags.old }
    ensures items { flags.new.items ≡ replicate count false }
    ensures capacity { vec_capacity flags.new ≡ vec_capacity flags.old }
{
    for at in 0..count {
        flags.push_reserved(false);
    }
}

/// Where the next bar or rule stands on a line, with what stands in front of a cell: behind that it
/// stands there.
pub fn drawn_in_front(front: Front, next: usize) -> usize
    requires { HasBars front }
    ensures { (f : Cell) → on_line (cell_of_front front) ≡ on_line f
        → result ≡ if is_there (first_of f) then f.at else next }
{
    match front {
        Front::Nothing => next,
        Front::Bars(at, _) => at,
        Front::Crossed(at, _, _, _) => at,
        Front::Ruled(from, _, _, _, end) => { if from < end { from } else { next } }
    }
}

/// Where the next bar or rule stands on a line from a cell on: where the cell's own rule begins, if
/// it is one, and else where the next one behind the cell stands.
pub fn drawn_by(cell: LaidCell, next: usize) -> usize
    requires { IsNarrow cell.column }
    ensures { (bytes : List ℕ) (s : Shown) → IsShown bytes cell s
        → result ≡ if not s.is_text && is_there s.runs then s.at else next }
{
    if cell.text.is_some() {
        return next;
    }
    match cell.entry.kind {
        EntryKind::Repeated(_) => {
            if cell.column.width > 0 {
                cell.column.start
            } else {
                next
            }
        }
        EntryKind::Short => {
            if cell.column.needs.widest_entry() > 0 {
                cell.column.start + cell.column.place_of_rule(cell.key)
            } else {
                next
            }
        }
        _ => next,
    }
}

/// How many columns of the page a cell has in front of the next bar or rule, and of the column at
/// which what stands in it ends at the latest, in a picture so wide.
pub fn room_of(cell: LaidCell, next: usize, columns: &[Column], width: usize) -> usize
    requires narrow { AreNarrow columns.now }
    requires wide { width < 2 ^ 32 }
    ensures room { (bytes : List ℕ) (bars : Bars) (s : Shown) (own : Left) → IsShown bytes cell s
        → s.runs_on ≡ Some own → result ≡ room_by (record {
          bars = bars;
          width = width;
          columns = columns.now;
        }) next s.at own }
    ensures small { result < 2 ^ 32 }
{
    match cell.runs_on {
        Some(running) => {
            let stop = match columns.get(running.stop) {
                Some(column) => column.start,
                None => width,
            };
            next.min(stop).saturating_sub(cell.column.start)
        }
        None => 0,
    }
}

/// A cell of which as much is left as fits in so many columns, if it is cut there.
pub fn cut_to(
    escapes: &mut OpenEscapes,
    bytes: &[u8],
    cell: LaidCell,
    running: RunsOn,
    room: usize,
) -> Option<LaidCell>
    requires small { room < 2 ^ 32 }
    requires lies { Lies bytes.now cell.entry }
    requires within { IsWithin (block_text bytes.now cell.entry) cell.place }
    ensures cut { (s : Shown) (own : Left) → IsShown bytes.now cell s
        → cell.runs_on ≡ Some running → s.runs_on ≡ Some own
        → MatchOption result (cut_to room own s ≡ s)
        (λ c. IsDrawn bytes.now c (cut_to room own s)) }
    ensures first { (s : Shown) (own : Left) → IsShown bytes.now cell s
        → cell.runs_on ≡ Some running → s.runs_on ≡ Some own
        → is_some result ≡ nat_lt room (columns_of s.runs) }
    ensures same { IfSome result (λ c. c ≡ record cell { entry = c.entry; place = c.place }) }
    ensures escapes { escapes.new.room ≡ escapes.old.room }
{
    match cell.entry.kind {
        EntryKind::Text(_, width) => {
            cut_text(
                escapes,
                bytes,
                cell,
                width as usize,
                room,
                running.is_number,
            )
        }
        EntryKind::Split(split) => {
            cut_text(
                escapes,
                bytes,
                cell,
                split.width as usize,
                room,
                running.is_number,
            )
        }
        EntryKind::Block(_) => cut_block(escapes, bytes, cell, room),
        _ => None,
    }
}

/// A text, of so many columns, as far as it fits, if it is cut.
fn cut_text(
    escapes: &mut OpenEscapes,
    bytes: &[u8],
    cell: LaidCell,
    width: usize,
    room: usize,
    is_number: bool,
) -> Option<LaidCell>
    requires lies { Lies bytes.now cell.entry }
    ensures cut { let text = slice_range bytes.now cell.entry.from cell.entry.to in
        result ≡ if nat_lt room width then Some (with_text is_number
        (fitting_text room text) cell) else None }
    ensures escapes { escapes.new.room ≡ escapes.old.room }
{
    if width <= room {
        return None;
    }
    let from = cell.entry.from as usize;
    let text = &bytes[from..cell.entry.to as usize];
    let len = fitting_len(escapes, text, room);
    let measured = measure(escapes, &text[..len], is_number);
    Some(with_entry(cell, Entry::of_text(from, len, measured), BlockPlace::AtEnd))
}

/// A block whose next line is read as far as it fits, if it is cut.
fn cut_block(
    escapes: &mut OpenEscapes,
    bytes: &[u8],
    cell: LaidCell,
    room: usize,
) -> Option<LaidCell>
    requires small { room < 2 ^ 32 }
    requires lies { Lies bytes.now cell.entry }
    requires within { IsWithin (block_text bytes.now cell.entry) cell.place }
    ensures cut { let block = block_text bytes.now cell.entry in
        let measure = measure_by cell.entry.kind in
        let width = line_width (first_line measure (parts_at block cell.place)) in
        result ≡ if nat_lt room width then Some (with_room room cell) else None }
    ensures escapes { escapes.new.room ≡ escapes.old.room }
{
    let block = block_bytes(bytes, cell.entry);
    let measure = u64::from(cell.entry.measure());
    if line_width_at(escapes, block, cell.place, measure) <= room as u64 {
        return None;
    }
    let room = Room {
        columns: room as u32,
        is_first: true,
    };
    Some(with_entry(cell, cell.entry, cell.place.within(room)))
}

/// A cell with something else in it, and where a block goes on.
fn with_entry(cell: LaidCell, entry: Entry, place: BlockPlace) -> LaidCell
    ensures { result ≡ record cell { entry = entry; place = place } }
{
    LaidCell {
        column: cell.column,
        key: cell.key,
        entry,
        place,
        text: cell.text,
        runs_on: cell.runs_on,
    }
}
