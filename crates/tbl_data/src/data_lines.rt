//! The lines of a table's data, as they are done (Lesk, "Tbl": Data, Text Blocks, Additional
//! Command Lines).

ghost use Rattle.std.specs.Prelude.{◌≡◌, ◌≢◌, ◌==◌, ℕ, ◌+◌, ◌-◌, ◌<◌, ◌≤◌, ◌^◌, All, List, []};
ghost use Rattle.std.specs.Prelude.{false, length, map, slice_range};
ghost use Rattle.input_source.specs.Bytes.{newline};
ghost use Rattle.tbl_data.specs.DataRead.{closed_block, with_whole};
ghost use Rattle.tbl_data.specs.LineTaken.{HasRoom, LineLies, Makes, block_line_made, left_from};
ghost use Rattle.tbl_data.specs.LineTaken.{cells_next, made_by, text_made};
ghost use Rattle.tbl_data.specs.TableData.{DataFits, EndsBy, FitsBehind, OpenBehind, OpenEndsAt};
ghost use Rattle.tbl_data.specs.TableData.{SameRooms, begun_by, table_by};
ghost use Rattle.tbl_data.specs.declared.phase.Phase.TheVariants.{InData, InFormat};
ghost use Rattle.tbl_data.specs.declared.table_data.OpenBlock.TheVariants.{Nothing};
ghost use Rattle.tbl_format.specs.RowsServed.{all_rows};
ghost use Rattle.tbl_options.specs.declared.options.Options.{Options};
ghost use Rattle.tbl_kept.specs.Joined.{ends_joined};
ghost use Rattle.tbl_kept.specs.Rows.{entries_of};
ghost use Rattle.tbl_kept.specs.RowsLaying.{AreOpened};
ghost use Rattle.tbl_kept.specs.TableText.{KeptText, block_of};
ghost use Rattle.tbl_layout.specs.DataLines.{block_line_kind, line_kind};
ghost use Rattle.tbl_layout.specs.declared.data_lines.BlockLineKind.TheVariants.{End, Request};
ghost use Rattle.tbl_layout.specs.declared.data_lines.BlockLineKind.TheVariants.{Text};
ghost use Rattle.tbl_layout.specs.declared.data_lines.LineKind.TheVariants.{Command, Formats, Rule};
ghost use Rattle.tbl_data.specs.declared.data_line.DataLine.{DataLine};
ghost use Rattle.tbl_layout.specs.KeptEntries.{content_of};

use crate::data_line::{DataLine, tell, tell_items};
use crate::phase::Phase;
use crate::table_data::{OpenBlock, TableData};
use tbl_kept::table_text::TableText;
use tbl_layout::data::field_len;
use tbl_layout::data_lines::{BlockLineKind, LineKind, RuleSign, block_line_kind, line_kind};
use tbl_options::notes::Cause;

impl TableData {
    /// A whole line of the data is done, which lies there in the table's bytes; the last line of
    /// the input that is joined in it has this number. Answers what is read then.
    pub fn take_line(
        &mut self,
        text: &mut TableText,
        separator: u8,
        from: usize,
        to: usize,
        number: u32,
    ) -> Phase
        requires order { from ≤ to }
        requires start { length text.old.settled ≡ from }
        requires within { to ≤ length (block_of text.old) }
        requires small { to < 2 ^ 32 }
        requires one_line { All (λ b. (b == newline) ≡ false)
            (slice_range (block_of text.old) from to) }
        requires fits { DataFits (block_of text.old) self.old }
        requires behind { OpenBehind (block_of text.old) from self.old.open self.old.rows.row }
        requires settled { EndsBy from self.old }
        requires formats { length (all_rows self.old.format.format) < 2 ^ 32 }
        requires few { self.old.rows.entry_room < 2 ^ 32 }
        requires entries { entries_of self.old.rows + (to - from) + 1 ≤ self.old.rows.entry_room }
        requires elements { length self.old.rows.elements < self.old.rows.element_room }
        requires notes { length self.old.notes.notes + (to - from) + 1 ≤ self.old.notes.note_room }
        ensures text { text.new ≡ text.old }
        ensures table { (options : Options) → options.separator ≡ separator
            → table_by result options (block_of text.old) self.new
            ≡ with_whole
            (begun_by self.old.open (map (content_of (block_of text.old)) self.old.rows.row))
            (ends_joined text.old.pending) number (slice_range (block_of text.old) from to)
            (table_by InData options (block_of text.old) self.old) }
        ensures fits { FitsBehind result (block_of text.old) self.new }
        ensures ends { OpenEndsAt to self.new.open self.new.rows.row }
        ensures settled { EndsBy to self.new }
        ensures entries { entries_of self.new.rows ≤ entries_of self.old.rows + (to - from) + 1 }
        ensures elements { length self.new.rows.elements ≤ length self.old.rows.elements + 1 }
        ensures notes { length self.new.notes.notes
            ≤ length self.old.notes.notes + (to - from) + 1 }
        ensures to_tell { self.new.notes.to_tell ≡ self.old.notes.to_tell }
        ensures rooms { SameRooms self.old self.new }
    {
        let line = DataLine {
            separator,
            from,
            to,
            number,
        };
        match self.open {
            OpenBlock::Nothing => self.take_data_line(text, line),
            OpenBlock::Kept => {
                self.take_block_line(text, line);
                Phase::InData
            }
            OpenBlock::Dropped(_) => {
                self.take_block_line(text, line);
                Phase::InData
            }
        }
    }

    /// A text block that is open ends with the table.
    pub fn close_block(&mut self)
        requires few { entries_of self.old.rows < 2 ^ 32 }
        requires opened { AreOpened self.old.rows.row }
        requires elements { length self.old.rows.elements < self.old.rows.element_room }
        requires serves { self.old.keys < length (all_rows self.old.format.format) }
        requires rules { self.old.rules ≤ self.old.keys }
        requires columns { length self.old.rows.columns ≡ length self.old.format.format.asked }
        requires short { length self.old.rows.row ≤ cells_next self.old }
        requires small { length (all_rows self.old.format.format) < 2 ^ 32 }
        ensures table { (options : Options) (bytes : List ℕ) → DataFits bytes self.old
            → table_by InData options bytes self.new
            ≡ closed_block (begun_by self.old.open (map (content_of bytes) self.old.rows.row))
            (table_by InData options bytes self.old) }
        ensures fits { (bytes : List ℕ) → DataFits bytes self.old → DataFits bytes self.new }
        ensures entries { entries_of self.new.rows ≤ entries_of self.old.rows }
        ensures elements { length self.new.rows.elements ≤ length self.old.rows.elements + 1 }
        ensures closed { self.new.open ≡ Nothing }
        ensures notes { self.new.notes ≡ self.old.notes }
        ensures format { self.new.format ≡ self.old.format }
        ensures rooms { SameRooms self.old self.new }
    {
        if self.open.is_open() {
            self.end_row();
        }
    }

    /// A whole line is done where no text block is open.
    fn take_data_line(&mut self, text: &mut TableText, line: DataLine) -> Phase
        requires lies { LineLies (block_of text.old) line }
        requires formats { length (all_rows self.old.format.format) < 2 ^ 32 }
        requires fits { DataFits (block_of text.old) self.old }
        requires closed { self.old.open ≡ Nothing }
        requires room { HasRoom (line.to - line.from + 1) self.old }
        ensures text { text.new ≡ text.old }
        ensures made { Makes text.old line (line.to - line.from + 1)
            (made_by (line_kind (left_from text.old line line.from)) text.old line)
            result self.old self.new }
    {
        match line_kind(&text.block()[line.from..line.to]) {
            LineKind::Rule(sign) => {
                self.take_rule(sign);
                Phase::InData
            }
            LineKind::Formats => {
                self.begin_further();
                Phase::InFormat
            }
            LineKind::Command => {
                self.take_command(line);
                Phase::InData
            }
            LineKind::Row => {
                self.take_fields(text, line, line.from, false);
                Phase::InData
            }
        }
    }

    /// A further format follows.
    fn begin_further(&mut self)
        requires whole { self.old.format.format.row ≡ [] }
        ensures made { (k : KeptText) (line : DataLine) → DataFits (block_of k) self.old
            → self.old.open ≡ Nothing
            → Makes k line 0 (made_by Formats k line) InFormat self.old self.new }
    {
        self.format.begin_further();
        self.keys = self.format.earlier_rows();
        self.rules = 0;
    }

    /// A line is a rule over the whole table.
    fn take_rule(&mut self, sign: RuleSign)
        requires { length self.old.rows.elements < self.old.rows.element_room }
        ensures made { (k : KeptText) (line : DataLine) → DataFits (block_of k) self.old
            → self.old.open ≡ Nothing
            → Makes k line 0 (made_by (Rule sign) k line) InData self.old self.new }
    {
        self.rows.keep_rule(sign);
    }

    /// A line is a command.
    fn take_command(&mut self, line: DataLine)
        requires order { line.from ≤ line.to }
        requires small { line.to < 2 ^ 32 }
        requires room { length self.old.rows.elements < self.old.rows.element_room }
        ensures made { (k : KeptText) → line.to ≤ length (block_of k)
            → DataFits (block_of k) self.old → self.old.open ≡ Nothing
            → Makes k line 0 (made_by Command k line) InData self.old self.new }
    {
        self.rows.keep_command(line.from, line.to);
    }

    /// A whole line is done where a text block is open.
    fn take_block_line(&mut self, text: &mut TableText, line: DataLine)
        requires lies { LineLies (block_of text.old) line }
        requires one_line { All (λ b. (b == newline) ≡ false) (left_from text.old line line.from) }
        requires formats { length (all_rows self.old.format.format) < 2 ^ 32 }
        requires fits { DataFits (block_of text.old) self.old }
        requires behind { OpenBehind (block_of text.old) line.from self.old.open self.old.rows.row }
        requires opened { self.old.open ≢ Nothing }
        requires room { HasRoom (line.to - line.from + 1) self.old }
        ensures text { text.new ≡ text.old }
        ensures made { Makes text.old line (line.to - line.from + 1)
            (block_line_made (block_line_kind (left_from text.old line line.from))
            text.old line self.old)
            InData self.old self.new }
    {
        match block_line_kind(&text.block()[line.from..line.to]) {
            BlockLineKind::End => self.end_block(text, line),
            BlockLineKind::Request => self.take_request(text, line),
            BlockLineKind::Text => self.take_text(text, line),
        }
    }

    /// The text block ends that is open, and fields may follow behind a separator.
    fn end_block(&mut self, text: &mut TableText, line: DataLine)
        requires lies { LineLies (block_of text.old) line }
        requires formats { length (all_rows self.old.format.format) < 2 ^ 32 }
        requires fits { DataFits (block_of text.old) self.old }
        requires two { line.from + 2 ≤ line.to }
        requires opened { self.old.open ≢ Nothing }
        requires room { HasRoom (line.to - line.from + 1) self.old }
        ensures text { text.new ≡ text.old }
        ensures made { Makes text.old line (line.to - line.from + 1)
            (block_line_made End text.old line self.old) InData self.old self.new }
    {
        let had_surplus = self.open.had_surplus();
        self.open = OpenBlock::Nothing;
        let behind = line.from + 2;
        let end = behind + field_len(line.separator, &text.block()[behind..line.to]);
        if end == line.to {
            self.end_row();
            return;
        }
        self.take_fields(text, line, end + 1, had_surplus);
    }

    /// A request in a text block. It is kept as a line of it, and passed over as the block is
    /// filled.
    fn take_request(&mut self, text: &mut TableText, line: DataLine)
        requires lies { LineLies (block_of text.old) line }
        requires one_line { All (λ b. (b == newline) ≡ false) (left_from text.old line line.from) }
        requires formats { length (all_rows self.old.format.format) < 2 ^ 32 }
        requires fits { DataFits (block_of text.old) self.old }
        requires behind { OpenBehind (block_of text.old) line.from self.old.open self.old.rows.row }
        requires opened { self.old.open ≢ Nothing }
        requires room { HasRoom (line.to - line.from + 1) self.old }
        ensures text { text.new ≡ text.old }
        ensures made { Makes text.old line (line.to - line.from + 1)
            (block_line_made Request text.old line self.old) InData self.old self.new }
    {
        self.extend_block(line);
        tell(
            &mut self.notes,
            text,
            0,
            line.number,
            Cause::RequestInTextBlock,
        );
    }

    /// A line of a text block. What isn't measured of it is told, if the block is kept.
    fn take_text(&mut self, text: &mut TableText, line: DataLine)
        requires lies { LineLies (block_of text.old) line }
        requires one_line { All (λ b. (b == newline) ≡ false) (left_from text.old line line.from) }
        requires formats { length (all_rows self.old.format.format) < 2 ^ 32 }
        requires fits { DataFits (block_of text.old) self.old }
        requires behind { OpenBehind (block_of text.old) line.from self.old.open self.old.rows.row }
        requires opened { self.old.open ≢ Nothing }
        requires room { HasRoom (line.to - line.from + 1) self.old }
        ensures text { text.new ≡ text.old }
        ensures made { Makes text.old line (line.to - line.from + 1)
            (block_line_made Text text.old line self.old) InData self.old self.new }
    {
        match self.open {
            OpenBlock::Nothing => {}
            OpenBlock::Dropped(_) => {}
            OpenBlock::Kept => {
                self.extend_block(line);
                tell_items(
                    &mut self.notes,
                    &mut self.escapes,
                    text,
                    line,
                    line.from,
                    line.to,
                );
            }
        }
    }

    /// The text block that is open has a line more that ends there, if it is kept.
    fn extend_block(&mut self, line: DataLine)
        requires small { line.to < 2 ^ 32 }
        ensures made { (k : KeptText) → LineLies (block_of k) line
            → All (λ b. (b == newline) ≡ false) (left_from k line line.from)
            → DataFits (block_of k) self.old
            → OpenBehind (block_of k) line.from self.old.open self.old.rows.row
            → Makes k line 0 (text_made k line) InData self.old self.new }
        ensures open { self.new.open ≡ self.old.open }
        ensures notes { self.new.notes ≡ self.old.notes }
    {
        match self.open {
            OpenBlock::Nothing => {}
            OpenBlock::Kept => self.rows.extend_block(line.to),
            OpenBlock::Dropped(_) => {}
        }
    }
}
