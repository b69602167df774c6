//! The cells of a row whose lines are given.

ghost use Rattle.std.specs.Prelude.{◌≡◌, ℕ, suc, ◌+◌, ◌-◌, ◌<◌, ◌≤◌, ◌^◌, List, [], ◌∷◌};
ghost use Rattle.std.specs.Prelude.{length, drop, map, get_or, true, false, if◌then◌else◌};
ghost use Rattle.tbl_layout.specs.KeptEntries.{Lies};
ghost use Rattle.tbl_lines.specs.RowsLeft.{begins_at, block_text, cell_left, first_cell};
ghost use Rattle.tbl_lines.specs.RowsLeft.{end_by, first_of, is_ruled_by, repeated_lines};
ghost use Rattle.tbl_lines.specs.RowsLeft.{row_columns, rule_end_by, split_run};
ghost use Rattle.tbl_lines.specs.PictureLines.{bars_between, joint};
ghost use Rattle.tbl_lines.specs.RowsWalked.{AreGlyphless, HasGlyph};
ghost use Rattle.tbl_lines.specs.RowsWalked.{IsNarrow, LastHasGlyph};
ghost use Rattle.tbl_lines.specs.RowsLent.{CellsLie, LiesInColumns, lent_columns, lent_entries};
ghost use Rattle.tbl_lines.specs.RowsLent.{lent_format, lent_row};
ghost use Rattle.tbl_layout.specs.DataLines.{is_same_sign};
ghost use Rattle.tbl_layout.specs.Entries.{block_line, up_to_last_glyph};
ghost use Rattle.tbl_text.specs.BlockLines.{lines_of};
ghost use Rattle.tbl_text.specs.BlockPlaces.{IsWithin, parts_at};

use crate::row_lent::RowLent;
use input_escapes::OpenEscapes;
use tbl_format::format::Key;
use tbl_kept::rows::key_at;
use tbl_layout::columns::{Column, bar_place};
use tbl_layout::data_lines::{RuleSign, sign_byte};
use tbl_layout::entry::{Entry, EntryKind, SplitEntry};
use tbl_layout::rule_keys::entry_at;
use tbl_text::block_parts::{BlockPart, BlockPlace, next_part};

/// A cell of a row: its columns as one, its key, its field, and where the block or the rule that
/// this is goes on or ends.
#[derive(Clone, Copy)]
pub struct RowColumn {
    /// Its columns as one.
    pub column: Column,
    /// Its key.
    pub key: Key,
    /// Its field.
    pub entry: Entry,
    /// Where the block goes on.
    pub place: BlockPlace,
    /// The column of the page where the rule over the cell ends, else 0.
    pub end: usize,
}

/// A cell of a row that has a field in it, whose blocks go on at these places.
// It is called for each cell.
#[inline(always)]
pub fn column_at(row: &RowLent<'_>, places: &[BlockPlace], at: usize) -> RowColumn
    requires given { at < length row.now.entries.now }
    requires cells { length (lent_entries row.now) ≤ length (lent_columns row.now) }
    requires place { at < length places.now }
    requires lies { LiesInColumns row.now }
    ensures { let all = row_columns row.now.bars.boxing (lent_format row.now) 0
        (lent_columns row.now) (lent_entries row.now) places.now in
        drop at all ≡ result ∷ drop (suc at) all }
{
    let column = row.cell(at);
    let entry = row.entries[at];
    RowColumn {
        column,
        key: key_at(row.keys, at),
        entry,
        place: places[at],
        end: end_at(row, at, column, entry.kind),
    }
}

/// Any cell of a row, also behind the last field.
// A cell behind the last field is rare.
#[inline(never)]
pub fn column_behind(row: &RowLent<'_>, places: &[BlockPlace], at: usize) -> RowColumn
    requires entry { at < length (lent_entries row.now) }
    requires cells { length (lent_entries row.now) ≤ length (lent_columns row.now) }
    requires place { at < length places.now }
    requires lies { LiesInColumns row.now }
    ensures { let all = row_columns row.now.bars.boxing (lent_format row.now) 0
        (lent_columns row.now) (lent_entries row.now) places.now in
        drop at all ≡ result ∷ drop (suc at) all }
{
    let column = row.cell(at);
    let entry = entry_at(row.keys, row.entries, at);
    RowColumn {
        column,
        key: key_at(row.keys, at),
        entry,
        place: places[at],
        end: end_at(row, at, column, entry.kind),
    }
}

/// The column of the page where a field of this kind ends in its columns, if it is a rule over
/// them, else 0.
// It is called for each cell.
#[inline(always)]
fn end_at(row: &RowLent<'_>, at: usize, column: Column, kind: EntryKind) -> usize
    requires lies { LiesInColumns row.now }
    requires entry { at < length (lent_entries row.now) }
    requires cells { length (lent_entries row.now) ≤ length (lent_columns row.now) }
    requires narrow { IsNarrow column }
    ensures { result ≡ end_by (bars_between row.now.bars.boxing (lent_format row.now) (suc at)) kind
        column (drop (suc at) (lent_columns row.now)) (drop (suc at) (lent_entries row.now)) }
{
    match kind {
        EntryKind::Ruled(sign) => rule_end(row, at, column, sign),
        _ => 0,
    }
}

/// Where a rule over a cell ends: one that is drawn alike goes on with it.
// Such a rule is rare.
#[inline(never)]
fn rule_end(row: &RowLent<'_>, at: usize, column: Column, sign: RuleSign) -> usize
    requires lies { LiesInColumns row.now }
    requires entry { at < length (lent_entries row.now) }
    requires cells { length (lent_entries row.now) ≤ length (lent_columns row.now) }
    requires narrow { IsNarrow column }
    ensures { result ≡ rule_end_by (bars_between row.now.bars.boxing (lent_format row.now) (suc at))
        sign column (drop (suc at) (lent_columns row.now)) (drop (suc at) (lent_entries row.now)) }
{
    let next = at + 1;
    if next < row.cells() {
        let is_joined = is_ruled(sign, entry_at(row.keys, row.entries, next).kind);
        rule_end_before(row.bars_between(next), is_joined, column, row.cell(next))
    } else {
        column.start + column.width
    }
}

/// Where a rule over a cell ends in front of another cell, whose rule goes on with it or not.
fn rule_end_before(bars: u8, is_joined: bool, column: Column, next: Column) -> usize
    requires { IsNarrow column }
    ensures { result
        ≡ (if is_joined then joint bars column next else column.start + column.width) }
{
    if is_joined {
        joint(bars, column, next)
    } else {
        column.start + column.width
    }
}

/// Where a rule over a cell ends that goes on with the next one, with so many bars between them.
pub fn joint(bars: u8, column: Column, next: Column) -> usize
    requires { IsNarrow column }
    ensures { result ≡ joint bars column next }
{
    if bars == 0 {
        next.start
    } else {
        bar_place(bars, column, next)
    }
}

/// Whether a field is a rule over its cell that is drawn with this sign.
pub fn is_ruled(sign: RuleSign, kind: EntryKind) -> bool
    ensures { result ≡ is_ruled_by sign kind }
{
    match kind {
        EntryKind::Ruled(other) => is_same_sign(sign, other),
        _ => false,
    }
}

/// The lines of a block.
pub fn block_bytes(bytes: &[u8], entry: Entry) -> &[u8]
    requires { Lies bytes.now entry }
    ensures value { result.now ≡ block_text bytes.now entry }
    ensures small { length result.now < 2 ^ 32 }
{
    if entry.from < entry.to {
        &bytes[entry.from as usize + 1..entry.to as usize]
    } else {
        &[]
    }
}

/// Whether two rules are drawn alike.
pub fn is_same_sign(sign: RuleSign, other: RuleSign) -> bool
    ensures { result ≡ is_same_sign sign other }
{
    match sign {
        RuleSign::Single => match other {
            RuleSign::Single => true,
            RuleSign::Double => false,
        },
        RuleSign::Double => match other {
            RuleSign::Single => false,
            RuleSign::Double => true,
        },
    }
}

impl RowColumn {
    /// How many columns of the page the rule over the column has.
    pub fn rule_width(self) -> usize
        ensures { result ≡ self.end - self.column.start }
    {
        self.end.saturating_sub(self.column.start)
    }

    /// The column of the page at which its field stands.
    pub fn begins_at(self) -> usize
        requires { IsNarrow self.column }
        ensures value { result ≡ begins_at self }
        ensures most { result < 2 ^ 40 }
    {
        match self.entry.kind {
            EntryKind::Ruled(_) => self.column.start,
            EntryKind::Short => self.column.start + self.column.place_of_rule(self.key),
            EntryKind::Repeated(_) => self.column.start,
            _ => self.column.start + self.column.place_of(self.key, self.entry.stands(self.key)),
        }
    }

    /// Whether it has a glyph on a line of its row, where its block goes on at its place.
    pub fn has_glyph(self, escapes: &mut OpenEscapes, bytes: &[u8], line: u32) -> bool
        requires lies { Lies bytes.now self.entry }
        requires within { IsWithin (block_text bytes.now self.entry) self.place }
        ensures yes { result ≡ true → HasGlyph (first_of (cell_left bytes.now line self)) }
        ensures no { result ≡ false
            → up_to_last_glyph (first_of (cell_left bytes.now line self)) ≡ [] }
        ensures room { escapes.new.room ≡ escapes.old.room }
    {
        let entry = self.entry;
        match entry.kind {
            EntryKind::Text(glyphs, _) => {
                line == 0 && entry.from != entry.to && entry.from < glyphs.min(entry.to)
            }
            EntryKind::Split(split) => line == 0 && has_split_glyph(entry, split),
            EntryKind::Block(_) => {
                begins_with_word(escapes, block_bytes(bytes, entry), self.place)
            }
            EntryKind::Ruled(sign) => {
                has_repeated_glyph(line, sign_byte(sign), self.rule_width())
            }
            EntryKind::Short => {
                has_repeated_glyph(
                    line,
                    sign_byte(RuleSign::Single),
                    self.column.needs.widest_entry(),
                )
            }
            EntryKind::Repeated(byte) => has_repeated_glyph(line, byte, self.column.width),
            EntryKind::Above => false,
        }
    }
}

/// Whether a byte that is repeated so often has a glyph on a line of its row.
fn has_repeated_glyph(line: u32, byte: u8, count: usize) -> bool
    ensures yes { result ≡ true → HasGlyph (get_or (repeated_lines line byte count) 0 []) }
    ensures no { result ≡ false
        → up_to_last_glyph (get_or (repeated_lines line byte count) 0 []) ≡ [] }
{
    line == 0 && count > 0 && byte != b' '
}

/// Whether a number that is split has a glyph.
fn has_split_glyph(entry: Entry, split: SplitEntry) -> bool
    ensures yes { (bytes : List ℕ) → Lies bytes entry → result ≡ true
        → HasGlyph (split_run bytes entry split ∷ []) }
    ensures no { (bytes : List ℕ) → Lies bytes entry → result ≡ false
        → up_to_last_glyph (split_run bytes entry split ∷ []) ≡ [] }
{
    let glyphs = split.glyphs.min(entry.to);
    entry.from < split.end.min(glyphs) || split.behind < glyphs
}

/// Whether a word comes next in a block.
fn begins_with_word(escapes: &mut OpenEscapes, block: &[u8], place: BlockPlace) -> bool
    requires small { length block.now < 2 ^ 32 }
    requires within { IsWithin block.now place }
    ensures yes { (measure : ℕ) → result ≡ true
        → HasGlyph (get_or (map block_line (lines_of measure (parts_at block.now place))) 0 []) }
    ensures no { (measure : ℕ) → result ≡ false → up_to_last_glyph
        (get_or (map block_line (lines_of measure (parts_at block.now place))) 0 []) ≡ [] }
    ensures room { escapes.new.room ≡ escapes.old.room }
{
    match next_part(escapes, block, place) {
        Some((BlockPart::Word(_), _)) => true,
        Some((BlockPart::EmptyLine, _)) => false,
        None => false,
    }
}

/// Whether a cell of a row has a glyph on a line, where its blocks go on at these places.
// It is called for each cell.
#[inline(always)]
pub fn has_glyph_at(
    escapes: &mut OpenEscapes,
    row: &RowLent<'_>,
    places: &[BlockPlace],
    line: u32,
    at: usize,
) -> bool
    requires lies { LiesInColumns row.now }
    requires cells { CellsLie (lent_row row.now) places.now }
    requires within { at < length (lent_entries row.now) }
    ensures yes { result ≡ true → HasGlyph (first_of (first_cell (drop at
        (map (cell_left row.now.bytes.now line) (row_columns row.now.bars.boxing
        (lent_format row.now) 0 (lent_columns row.now) (lent_entries row.now) places.now))))) }
    ensures no { result ≡ false → up_to_last_glyph (first_of (first_cell (drop at
        (map (cell_left row.now.bytes.now line) (row_columns row.now.bars.boxing
        (lent_format row.now) 0 (lent_columns row.now) (lent_entries row.now) places.now))))) ≡ [] }
    ensures room { escapes.new.room ≡ escapes.old.room }
{
    if at < row.entries.len() {
        column_at(row, places, at).has_glyph(escapes, row.bytes, line)
    } else {
        column_behind(row, places, at).has_glyph(escapes, row.bytes, line)
    }
}

/// How many cells there are up to the last that has a glyph on a line.
pub fn count_to_glyph(
    escapes: &mut OpenEscapes,
    row: &RowLent<'_>,
    places: &[BlockPlace],
    line: u32,
) -> usize
    requires lies { LiesInColumns row.now }
    requires cells { CellsLie (lent_row row.now) places.now }
    ensures few { result ≤ length (lent_entries row.now) }
    ensures last { LastHasGlyph result (map (cell_left row.now.bytes.now line)
        (row_columns row.now.bars.boxing (lent_format row.now) 0 (lent_columns row.now)
        (lent_entries row.now) places.now)) }
    ensures behind { AreGlyphless (drop result (map (cell_left row.now.bytes.now line)
        (row_columns row.now.bars.boxing (lent_format row.now) 0 (lent_columns row.now)
        (lent_entries row.now) places.now))) }
    ensures room { escapes.new.room ≡ escapes.old.room }
{
    let mut count = places.len();
    while count > 0 {
        let last = count - 1;
        if has_glyph_at(escapes, row, places, line, last) {
            return count;
        }
        count = last;
    }
    0
}
