//! The columns of a table, as they hold the fields of its rows (Lesk, "Tbl": Data, Text Blocks).

ghost use Rattle.std.specs.Prelude.{◌≡◌, ℕ, ◌+◌, ◌-◌, ◌<◌, ◌≤◌, ◌^◌, ◌++◌, length, replicate};
ghost use Rattle.std.specs.Prelude.{false, get_or, map, slice_range, vec_capacity};
ghost use Rattle.tbl_kept.specs.Rows.{height_of, holding, no_column};
ghost use Rattle.tbl_format.specs.Cells.{cell_count};
ghost use Rattle.tbl_format.specs.FormatRows.{AreWithin};
ghost use Rattle.tbl_kept.specs.RowsLaying.{AreOpened, FieldsLie, IsOpenedKind};
ghost use Rattle.tbl_layout.specs.KeptEntries.{Lies};
ghost use Rattle.tbl_kept.specs.RowsLaying.{block_stands, counted_if, held_at, holding_blocks};
ghost use Rattle.tbl_kept.specs.RowsLaying.{laid_entry, laid_row};
ghost use Rattle.tbl_layout.specs.Columns.{alone, in_columns, in_strip, needing};
ghost use Rattle.tbl_layout.specs.Spans.{all_fitted, if_wide, measure_of, wide_entries};
ghost use Rattle.tbl_layout.specs.Entries.{key_at};
ghost use Rattle.tbl_layout.specs.KeptEntries.{block_filled, block_lines, stands_of};
ghost use Rattle.tbl_text.specs.BlockLines.{lines_of, widest};
ghost use Rattle.tbl_text.specs.BlockWords.{parts_of};

use input_escapes::OpenEscapes;
use tbl_format::format::{Asked, FormatKey, Key};
use tbl_layout::bars::Bars;
use tbl_layout::columns::{Column, Needs, Stands, fit, unsplit};
use tbl_layout::entry::{Entry, EntryKind};
use tbl_layout::measures::Filling;
use tbl_text::block_lines::fill;
use tbl_text::block_parts::BlockPlace;

/// With so many columns at least.
pub fn add_columns(columns: &mut Vec<Column>, count: usize)
    requires { count ≤ vec_capacity columns.old }
    ensures items { columns.new.items
        ≡ columns.old.items ++ replicate (count - length columns.old.items) no_column }
    ensures capacity { vec_capacity columns.new ≡ vec_capacity columns.old }
{
    while columns.len() < count {
        columns.push_reserved(Column::EMPTY);
    }
}

/// A cell of a row: its key, whether what stands under it counts for no width, and the columns that
/// it has, behind so many and up to its last one.
#[derive(Clone, Copy)]
struct Cell {
    key: Key,
    has_no_width: bool,
    from: usize,
    end: usize,
}

/// The blocks of a row are filled, each in its cell and under its key. Answers how many lines the
/// row has.
pub fn fill_fields(
    escapes: &mut OpenEscapes,
    bytes: &[u8],
    filling: Filling<'_>,
    keys: &[FormatKey],
    entries: &mut [Entry],
    columns: &mut [Column],
) -> u32
    requires small { length bytes.now < 2 ^ 32 }
    requires cells { AreWithin (length filling.asked.now) keys.now }
    requires columns { length columns.old ≡ length filling.asked.now }
    requires few { length filling.asked.now < 2 ^ 32 }
    requires short { length entries.old ≤ cell_count keys.now (length columns.old) }
    requires lie { FieldsLie bytes.now entries.old }
    ensures entries { entries.new ≡ laid_row bytes.now filling.entry.bars filling.entry.line_length
        filling.entry.asked.now keys.now entries.old }
    ensures columns { columns.new ≡ holding_blocks keys.now entries.new columns.old }
    ensures height { result ≡ height_of entries.new }
    ensures room { escapes.new.room ≡ escapes.old.room }
{
    let mut height = 1;
    let mut from = 0;
    for at in 0..entries.len() {
        let cell = cell_behind(keys, at, from);
        let entry = fill_field(escapes, bytes, filling, cell, entries[at], columns);
        entries[at] = entry;
        height = entry.lines().max(height);
        from = cell.end;
    }
    height
}

/// A cell of a row, which begins behind so many columns.
// It is called for each cell.
#[inline(always)]
fn cell_behind(keys: &[FormatKey], at: usize, from: usize) -> Cell
    requires { from < 2 ^ 63 }
    ensures key { (bars : ℕ) → result.key
        ≡ key_at (record { keys = keys.now; bars = bars }) at }
    ensures width { result.has_no_width
        ≡ get_or (map (λ k. k.has_no_width) keys.now) at false }
    ensures from { result.from ≡ from }
    ensures end { result.end ≡ get_or (map (λ k. k.end) keys.now) at (from + 1) }
{
    match keys.get(at) {
        Some(key) => Cell {
            key: key.key,
            has_no_width: key.has_no_width,
            from,
            end: key.end as usize,
        },
        None => Cell {
            key: Key::Left,
            has_no_width: false,
            from,
            end: from + 1,
        },
    }
}

/// A field of a cell is filled, if it is a block, and the cell's columns hold it.
// It is called for each cell.
#[inline(always)]
fn fill_field(
    escapes: &mut OpenEscapes,
    bytes: &[u8],
    filling: Filling<'_>,
    cell: Cell,
    entry: Entry,
    columns: &mut [Column],
) -> Entry
    requires small { length bytes.now < 2 ^ 32 }
    requires lies { Lies bytes.now entry }
    requires order { cell.from < cell.end }
    requires within { cell.end ≤ length filling.asked.now }
    requires columns { length columns.old ≡ length filling.asked.now }
    requires few { length filling.asked.now < 2 ^ 32 }
    ensures entry { result ≡ laid_entry bytes.now
        (measure_of filling.entry.bars filling.entry.line_length (length filling.entry.asked.now)
        (slice_range filling.entry.asked.now cell.from cell.end)) entry }
    ensures columns { columns.new ≡ held_at cell.from
        (in_columns (cell.end - cell.from)
        (counted_if cell.has_no_width (block_stands cell.key result))) columns.old }
    ensures room { escapes.new.room ≡ escapes.old.room }
{
    if let EntryKind::Block(_) = entry.kind {
        let measure = filling.measure(cell.from, cell.end);
        let block = filled(escapes, bytes, entry, measure);
        hold_entry(columns, cell, block.stands(cell.key));
        return block;
    }
    entry
}

/// The column of a cell of one column holds an entry more, if that counts.
fn hold_entry(columns: &mut [Column], cell: Cell, entry: Stands)
    requires order { cell.from < cell.end }
    requires within { cell.end ≤ length columns.old }
    requires width { in_strip entry < 2 ^ 64 }
    ensures { columns.new
        ≡ held_at cell.from (in_columns (cell.end - cell.from)
        (counted_if cell.has_no_width entry)) columns.old }
{
    if cell.has_no_width {
        return;
    }
    if cell.end - cell.from == 1 {
        let mut column = columns[cell.from];
        column.needs = column.needs.with(entry);
        columns[cell.from] = column;
    }
}

/// A block, filled in a measure.
fn filled(escapes: &mut OpenEscapes, bytes: &[u8], entry: Entry, measure: u32) -> Entry
    requires small { length bytes.now < 2 ^ 32 }
    requires lies { Lies bytes.now entry }
    ensures value { result ≡ record entry {
      kind = EntryKind.Block
          (block_filled measure (block_lines bytes.now entry.from entry.to));
    } }
    ensures narrow { widest
        (lines_of measure (parts_of (block_lines bytes.now entry.from entry.to)))
        < 2 ^ 34 }
    ensures room { escapes.new.room ≡ escapes.old.room }
{
    let width = u64::from(measure);
    if entry.from == entry.to {
        return entry.filled(measure, fill(escapes, &[], BlockPlace::AtEnd, width));
    }
    let lines = &bytes[entry.from as usize + 1..entry.to as usize];
    entry.filled(measure, fill(escapes, lines, BlockPlace::first(), width))
}

/// Columns hold the fields of a row in them, under its keys.
pub fn hold(columns: &mut [Column], keys: &[FormatKey], entries: &[Entry])
    requires opened { AreOpened entries.now }
    requires cells { AreWithin (length columns.old) keys.now }
    requires short { length entries.now ≤ cell_count keys.now (length columns.old) }
    ensures { (bars : ℕ) → columns.new
        ≡ holding (record { keys = keys.now; bars = bars }) entries.now columns.old }
{
    let mut from = 0;
    for at in 0..entries.len() {
        let cell = cell_behind(keys, at, from);
        hold_field(columns, cell, entries[at]);
        from = cell.end;
    }
}

/// The column of a cell of one column holds a field that isn't a filled block, if that counts.
// It is called for each cell.
#[inline(always)]
fn hold_field(columns: &mut [Column], cell: Cell, entry: Entry)
    requires opened { IsOpenedKind entry.kind }
    requires order { cell.from < cell.end }
    requires within { cell.end ≤ length columns.old }
    ensures { columns.new ≡ held_at cell.from (in_columns (cell.end - cell.from)
        (counted_if cell.has_no_width (stands_of cell.key entry))) columns.old }
{
    if cell.has_no_width {
        return;
    }
    if cell.end - cell.from == 1 {
        let mut column = columns[cell.from];
        column.needs = needs_with(column.needs, cell.key, entry);
        columns[cell.from] = column;
    }
}

/// Columns have room for the entries of a row that go over several of them.
pub fn fit_fields(
    columns: &mut [Column],
    bars: Bars,
    asked: &[Asked],
    keys: &[FormatKey],
    entries: &[Entry],
)
    requires cells { AreWithin (length columns.old) keys.now }
    requires columns { length columns.old ≡ length asked.now }
    requires few { length columns.old < 2 ^ 32 }
    ensures { columns.new ≡ all_fitted bars asked.now
        (wide_entries stands_of 0 keys.now entries.now) columns.old }
{
    let mut from = 0;
    for at in 0..entries.len().min(keys.len()) {
        let cell = cell_behind(keys, at, from);
        fit_field(columns, bars, asked, cell, entries[at]);
        from = cell.end;
    }
}

/// The columns of a cell have room for its entry, if it goes over several of them and counts.
fn fit_field(columns: &mut [Column], bars: Bars, asked: &[Asked], cell: Cell, entry: Entry)
    requires order { cell.from < cell.end }
    requires within { cell.end ≤ length columns.old }
    requires columns { length columns.old ≡ length asked.now }
    requires few { length columns.old < 2 ^ 32 }
    ensures { columns.new ≡ all_fitted bars asked.now
        (if_wide cell.from (cell.end - cell.from)
        (alone (counted_if cell.has_no_width (stands_of cell.key entry)))) columns.old }
{
    if cell.has_no_width {
        return;
    }
    if cell.end - cell.from > 1 {
        let own = &mut columns[cell.from..cell.end];
        fit(
            own,
            bars,
            &asked[cell.from..cell.end],
            entry.stands(cell.key).alone(),
        );
    }
}

/// Needs with those of a field that isn't a filled block.
fn needs_with(needs: Needs, key: Key, entry: Entry) -> Needs
    requires { IsOpenedKind entry.kind }
    ensures { result ≡ needing needs (stands_of key entry) }
{
    match entry.kind {
        EntryKind::Text(_, width) => {
            if entry.from == entry.to {
                return needs;
            }
            needs.with(unsplit(key, u64::from(width)))
        }
        EntryKind::Split(_) => needs.with(entry.stands(key)),
        EntryKind::Block(_) => needs,
        EntryKind::Ruled(_) => needs,
        EntryKind::Short => needs,
        EntryKind::Repeated(_) => needs,
        EntryKind::Above => needs,
    }
}

/// The key of a cell: behind those of a row come such as `l`.
pub fn key_at(keys: &[FormatKey], cell: usize) -> Key
    ensures { (bars : ℕ) → result ≡ key_at (record { keys = keys.now; bars = bars }) cell }
{
    match keys.get(cell) {
        Some(key) => key.key,
        None => Key::Left,
    }
}
