//! The fields of a line of a table's data, as they are taken one after another (Lesk, "Tbl": Data,
//! Text Blocks).

ghost use Rattle.std.specs.Prelude.{◌≡◌, ◌≢◌, ℕ, ◌+◌, ◌-◌, ◌<◌, ◌≤◌, ◌^◌, false, List};
ghost use Rattle.std.specs.Prelude.{if◌then◌else◌};
ghost use Rattle.std.specs.Prelude.{length, slice_range, true};
ghost use Rattle.tbl_data.specs.LineTaken.{EndsRow, Grows, HasRoom, IsOnLine};
ghost use Rattle.tbl_data.specs.LineTaken.{LineLies, Makes};
ghost use Rattle.tbl_data.specs.LineTaken.{OpensBlock, RowFits, TakesField, fields_made};
ghost use Rattle.tbl_data.specs.LineTaken.{cells_next, key_next, last_made};
ghost use Rattle.tbl_data.specs.TableData.{EndsBy, OpenEndsAt};
ghost use Rattle.tbl_data.specs.declared.phase.Phase.TheVariants.{InData};
ghost use Rattle.tbl_data.specs.declared.table_data.OpenBlock.TheVariants.{Nothing};
ghost use Rattle.tbl_format.specs.RowsServed.{all_rows};
ghost use Rattle.tbl_kept.specs.Rows.{entries_of};
ghost use Rattle.tbl_kept.specs.RowsLaying.{AreOpened};
ghost use Rattle.tbl_kept.specs.TableText.{KeptText, block_of};
ghost use Rattle.tbl_layout.specs.DataLines.{kind_under};
ghost use Rattle.tbl_layout.specs.declared.data_lines.FieldKind.TheVariants.{Text as OneText};

use crate::data_line::{DataLine, tell_items, tell_surplus};
use crate::table_data::{OpenBlock, TableData};
use tbl_format::cells::cell_count;
use tbl_format::format::Key;
use tbl_kept::rows::key_at;
use tbl_kept::table_text::TableText;
use tbl_layout::data::field_len;
use tbl_layout::data_lines::{FieldKind, ends_in_block, kind_under, opens_block};
use tbl_layout::entry::{Entry, is_number, kept_kind};
use tbl_layout::rule_keys::kind_of_key;
use tbl_text::measure::measure;

impl TableData {
    /// The fields from a place on, up to the line's end. Behind the last the row is whole, unless
    /// that opens a text block. Surplus fields are told once a row.
    pub(crate) fn take_fields(
        &mut self,
        text: &mut TableText,
        line: DataLine,
        first: usize,
        had_surplus: bool,
    )
        requires lies { LineLies (block_of text.old) line }
        requires at { IsOnLine line first }
        requires closed { self.old.open ≡ Nothing }
        requires fits { RowFits (block_of text.old) self.old }
        requires room { HasRoom (line.to - first + 1) self.old }
        ensures text { text.new ≡ text.old }
        ensures made { Makes text.old line (line.to - first + 1)
            (fields_made text.old line first had_surplus self.old) InData self.old self.new }
    {
        let cells = self.cells_next();
        let mut at = first;
        while self.rows.row_len() < cells {
            let end = at + field_len(line.separator, &text.block()[at..line.to]);
            if end == line.to {
                self.take_last(text, line, at, had_surplus);
                return;
            }
            self.take_field(text, line, at, end);
            at = end + 1;
        }
        self.take_surplus(text, line, at, had_surplus);
    }

    /// The last field of a line, which has a cell.
    fn take_last(&mut self, text: &mut TableText, line: DataLine, at: usize, had_surplus: bool)
        requires lies { LineLies (block_of text.old) line }
        requires at { IsOnLine line at }
        requires closed { self.old.open ≡ Nothing }
        requires fits { RowFits (block_of text.old) self.old }
        requires cell { length self.old.rows.row < cells_next self.old }
        requires room { HasRoom (line.to - at + 1) self.old }
        ensures text { text.new ≡ text.old }
        ensures made { Makes text.old line (line.to - at + 1)
            (last_made text.old line at had_surplus self.old) InData self.old self.new }
    {
        if opens_block(&text.block()[at..line.to]) {
            self.open_block(line.to, had_surplus);
            return;
        }
        self.take_field(text, line, at, line.to);
        self.end_row();
    }

    /// The surplus fields from a place on, up to the line's end: of them only a last one counts
    /// that opens a text block. They are told by the line of the separator in front of them.
    fn take_surplus(&mut self, text: &mut TableText, line: DataLine, at: usize, had_surplus: bool)
        requires lies { LineLies (block_of text.old) line }
        requires at { IsOnLine line at }
        requires closed { self.old.open ≡ Nothing }
        requires fits { RowFits (block_of text.old) self.old }
        requires full { cells_next self.old ≤ length self.old.rows.row }
        requires room { HasRoom (line.to - at + 1) self.old }
        ensures text { text.new ≡ text.old }
        ensures made { Makes text.old line (line.to - at + 1)
            (fields_made text.old line at had_surplus self.old) InData self.old self.new }
    {
        tell_surplus(&mut self.notes, text, line, at, had_surplus);
        if ends_in_block(line.separator, &text.block()[at..line.to]) {
            self.open_block(line.to, true)
        } else {
            self.end_row()
        }
    }

    /// A field of a cell, which lies there, is kept as what it is.
    fn take_field(&mut self, text: &mut TableText, line: DataLine, at: usize, end: usize)
        requires lies { LineLies (block_of text.old) line }
        requires at { IsOnLine line at }
        requires order { at ≤ end }
        requires end { end ≤ line.to }
        requires fits { RowFits (block_of text.old) self.old }
        requires closed { self.old.open ≡ Nothing }
        requires cell { length self.old.rows.row < cells_next self.old }
        requires room { HasRoom (end - at + 1) self.old }
        ensures text { text.new ≡ text.old }
        ensures taken { TakesField text.old line at end self.old self.new }
    {
        let key = self.key_next();
        match kind_under(key, &text.block()[at..end]) {
            FieldKind::Text => self.take_text_field(text, line, at, end, key),
            kind => self.take_other_field(at, end, kind),
        }
    }

    /// A field of a cell that is no text: nothing is told of it.
    #[cold]
    fn take_other_field(&mut self, at: usize, end: usize, kind: FieldKind)
        requires order { at ≤ end }
        requires small { end < 2 ^ 32 }
        requires room { entries_of self.old.rows < self.old.rows.entry_room }
        ensures taken { (k : KeptText) (line : DataLine) → LineLies (block_of k) line
            → end ≤ line.to
            → kind_under (key_next self.old) (slice_range (block_of k) at end) ≡ kind
            → kind ≢ OneText → RowFits (block_of k) self.old → self.old.open ≡ Nothing
            → length self.old.rows.row < cells_next self.old
            → TakesField k line at end self.old self.new }
    {
        self.rows
            .keep(Entry::of_rule(at, end - at, kept_kind(kind)));
    }

    /// A text of a cell: it is kept, and what isn't measured of it is told.
    fn take_text_field(
        &mut self,
        text: &mut TableText,
        line: DataLine,
        at: usize,
        end: usize,
        key: Key,
    )
        requires key { key ≡ key_next self.old }
        requires lies { LineLies (block_of text.old) line }
        requires at { IsOnLine line at }
        requires order { at ≤ end }
        requires end { end ≤ line.to }
        requires kind { kind_under key (slice_range (block_of text.old) at end) ≡ OneText }
        requires fits { RowFits (block_of text.old) self.old }
        requires closed { self.old.open ≡ Nothing }
        requires cell { length self.old.rows.row < cells_next self.old }
        requires room { HasRoom (end - at + 1) self.old }
        ensures text { text.new ≡ text.old }
        ensures taken { TakesField text.old line at end self.old self.new }
    {
        let measured = measure(&mut self.escapes, &text.block()[at..end], is_number(key));
        self.rows.keep(Entry::of_text(at, end - at, measured));
        if measured.has_notes {
            tell_items(&mut self.notes, &mut self.escapes, text, line, at, end);
        }
    }

    /// A text block begins behind a line that ends there: as a field, or dropped under a key that
    /// says what its fields are, or without a cell.
    fn open_block(&mut self, line_end: usize, had_surplus: bool)
        requires small { line_end < 2 ^ 32 }
        requires serves { self.old.keys < length (all_rows self.old.format.format) }
        requires room { had_surplus ≡ false → entries_of self.old.rows < self.old.rows.entry_room }
        ensures opens { (bytes : List ℕ) → line_end ≤ length bytes → (had_surplus ≡ false
            → length self.old.rows.row < cells_next self.old) → RowFits bytes self.old
            → OpensBlock bytes had_surplus self.old self.new }
        ensures ends { OpenEndsAt line_end self.new.open self.new.rows.row }
        ensures settled { EndsBy line_end self.old → EndsBy line_end self.new }
        ensures grown { Grows (if had_surplus then 0 else 1) 0 self.old self.new }
        ensures notes { self.new.notes ≡ self.old.notes }
    {
        if had_surplus {
            self.open = OpenBlock::Dropped(true);
            return;
        }
        match kind_of_key(self.key_next()) {
            Some(kind) => {
                self.rows.keep(Entry::of_rule(line_end, 0, kept_kind(kind)));
                self.open = OpenBlock::Dropped(false);
            }
            None => {
                self.rows.keep(Entry::opened(line_end));
                self.open = OpenBlock::Kept;
            }
        }
    }

    /// How many cells the row that is begun has.
    fn cells_next(&self) -> usize
        requires { self.now.keys < length (all_rows self.now.format.format) }
        ensures { result ≡ cells_next self.now }
    {
        cell_count(self.format.row_of_all(self.keys), self.format.columns())
    }

    /// The key of the cell that comes next.
    fn key_next(&self) -> Key
        requires { self.now.keys < length (all_rows self.now.format.format) }
        ensures { result ≡ key_next self.now }
    {
        key_at(self.format.row_of_all(self.keys), self.rows.row_len())
    }

    /// The row that is begun is whole: the next one of the format serves the next row.
    pub(crate) fn end_row(&mut self)
        requires few { entries_of self.old.rows < 2 ^ 32 }
        requires opened { AreOpened self.old.rows.row }
        requires elements { length self.old.rows.elements < self.old.rows.element_room }
        requires serves { self.old.keys < length (all_rows self.old.format.format) }
        requires rules { self.old.rules ≤ self.old.keys }
        requires columns { length self.old.rows.columns ≡ length self.old.format.format.asked }
        requires short { length self.old.rows.row ≤ cells_next self.old }
        requires small { length (all_rows self.old.format.format) < 2 ^ 32 }
        ensures ends { (bytes : List ℕ) → RowFits bytes self.old → EndsRow bytes self.old self.new }
        ensures settled { (place : ℕ) → EndsBy place self.old → EndsBy place self.new }
        ensures closed { self.new.open ≡ Nothing }
        ensures grown { Grows 0 1 self.old self.new }
        ensures notes { self.new.notes ≡ self.old.notes }
        ensures format { self.new.format ≡ self.old.format }
    {
        self.rows
            .end_row(self.keys, self.rules, self.format.row_of_all(self.keys));
        self.open = OpenBlock::Nothing;
        if self.keys + 1 < self.format.all_rows() {
            self.serve_from(self.keys + 1);
        } else {
            self.rules = 0;
        }
    }
}
