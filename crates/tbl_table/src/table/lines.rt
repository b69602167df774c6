//! The lines of a table as they end.

ghost use Rattle.std.specs.Prelude.{◌≡◌, ◌+◌, ◌-◌, ◌<◌, ◌≤◌, suc, ◌++◌, [], ◌∷◌, length, drop};
ghost use Rattle.std.specs.Prelude.{take, true, None};
ghost use Rattle.input_source.specs.Bytes.{newline};
ghost use Rattle.tbl_format.specs.Format.{format_read, no_format};
ghost use Rattle.tbl_kept.specs.Joined.{behind_joined, ends_joined};
ghost use Rattle.tbl_options.specs.Options.{options_end};
ghost use Rattle.tbl_table.specs.Reading.{bytes_read, line_ended};
ghost use Rattle.tbl_table.specs.Steps.{ended_with, is_front};
ghost use Rattle.tbl_table.specs.Table.{columns_at, columns_of};
ghost use Rattle.tbl_table.specs.Table.{ends_in, ends_in_data, format_line, head_columns};
ghost use Rattle.tbl_table.specs.Table.{head_line, options_line, rows_behind};
ghost use Rattle.tbl_data.specs.DataRead.{data_line, whole_line};
ghost use Rattle.tbl_data.specs.declared.phase.Phase.TheVariants.{AtHead, Bad, InData};

use super::Table;
use crate::begun::Begun;
use crate::table_steps::{goes_on, take_keys};
use tbl_data::phase::Phase;
use tbl_layout::data_lines::ends_row;
use tbl_options::options::{options_end, read_options};

impl Table {
    /// How many columns of its format are counted once this byte is read.
    #[tactic(auto, unfolding(crate::specs::Table::columns_at))]
    pub fn columns_with(&self, byte: u8) -> usize
        ensures { result ≡ columns_at self.now.reading.table (self.now.reading.line ++ byte ∷ []) }
    {
        match self.phase {
            Phase::AtHead => self.begun.columns_with(self.text.line(), byte),
            Phase::InFormat => self.begun.columns_with(self.text.line(), byte),
            Phase::InData => self.kept.format.columns(),
            Phase::Bad => self.kept.format.columns(),
        }
    }

    /// How many rows are counted once the line that is begun has ended.
    #[tactic(auto, unfolding(crate::specs::Table::rows_behind))]
    pub fn rows_with_line(&self) -> usize
        ensures { result ≡ rows_behind self.now.reading.table self.now.reading.line }
    {
        if self.ends_row() {
            self.kept.rows.count() + 1
        } else {
            self.kept.rows.count()
        }
    }

    /// Whether a row or a command ends with the line that is begun.
    fn ends_row(&self) -> bool
        ensures { result ≡ ends_in self.now.reading.table.phase self.now.reading.table
            self.now.reading.line }
    {
        match self.phase {
            Phase::AtHead => false,
            Phase::InFormat => false,
            Phase::InData => self.ends_data_row(),
            Phase::Bad => false,
        }
    }

    /// Whether a row or a command ends with the line of the data that is begun.
    fn ends_data_row(&self) -> bool
        ensures { result ≡ ends_in_data self.now.reading.table self.now.reading.line }
    {
        !goes_on(self.text.line())
            && ends_row(
                self.kept.open.is_open(),
                self.options.separator,
                self.text.joined_line(),
            )
    }

    /// The newline behind the line that is begun.
    #[tactic(auto, unfolding(crate::specs::Table::line_read))]
    pub fn end_line(&mut self, number: u32)
        requires room { length (bytes_read self.old.reading) < self.old.limits.text }
        requires rows { rows_behind self.old.reading.table self.old.reading.line
            ≤ self.old.limits.rows }
        requires columns { columns_at self.old.reading.table (self.old.reading.line ++ newline ∷ [])
            ≤ self.old.limits.columns }
        ensures { self.new ≡ record self.old
            { reading = line_ended number self.old.reading; to_come = [] } }
    {
        match self.phase {
            Phase::AtHead => self.end_head_line(number),
            Phase::InFormat => self.end_format_line(number),
            Phase::InData => self.end_data_line(number),
            Phase::Bad => self.end_bad_line(),
        }
    }

    /// A line behind a fault has ended.
    fn end_bad_line(&mut self)
        requires room { length (bytes_read self.old.reading) < self.old.limits.text }
        requires phase { self.old.reading.table.phase ≡ Bad }
        ensures { self.new ≡ record self.old
            { reading = ended_with self.old.reading.table self.old.reading; to_come = [] } }
    {
        self.giving.give_nothing();
        self.text.end_line();
    }

    /// The first line has ended.
    fn end_head_line(&mut self, number: u32)
        requires room { length (bytes_read self.old.reading) < self.old.limits.text }
        requires phase { self.old.reading.table.phase ≡ AtHead }
        requires columns { head_columns (options_end (self.old.reading.line ++ newline ∷ []))
            (self.old.reading.line ++ newline ∷ []) ≤ self.old.limits.columns }
        ensures { self.new ≡ record self.old {
          reading = ended_with
              (head_line (options_end self.old.reading.line) number self.old.reading.line
              self.old.reading.table) self.old.reading;
          to_come = [];
        } }
    {
        match options_end(self.text.line()) {
            None => self.end_format_line(number),
            Some(end) => self.end_options_line(end, number),
        }
    }

    /// A line that has options up to this place has ended.
    fn end_options_line(&mut self, end: usize, number: u32)
        requires room { length (bytes_read self.old.reading) < self.old.limits.text }
        requires phase { self.old.reading.table.phase ≡ AtHead }
        requires end { end < length self.old.reading.line }
        requires columns { columns_of (format_read no_format
            (drop (suc end) self.old.reading.line ++ newline ∷ [])) ≤ self.old.limits.columns }
        ensures { self.new ≡ record self.old {
          reading = ended_with
              (options_line number (take end self.old.reading.line)
              (drop (suc end) self.old.reading.line) self.old.reading.table)
              self.old.reading;
          to_come = [];
        } }
    {
        let options = read_options(&self.text.line()[..end]);
        self.giving.give_nothing();
        self.text.end_line();
        self.options = options;
        self.kept
            .notes
            .push_ignored(self.text.block(), 0, end, number);
        self.phase = take_keys(&mut self.kept, &self.text.block()[end + 1..], number);
        self.begun = Begun::at_start(self.phase, self.kept.format.count());
    }

    /// A line of the format has ended.
    fn end_format_line(&mut self, number: u32)
        requires room { length (bytes_read self.old.reading) < self.old.limits.text }
        requires phase { is_front self.old.reading.table.phase ≡ true }
        requires pending { self.old.reading.table.pending ≡ None }
        requires columns { columns_of (format_read self.old.reading.table.format
            (self.old.reading.line ++ newline ∷ [])) ≤ self.old.limits.columns }
        ensures { self.new ≡ record self.old {
          reading = ended_with
              (format_line number self.old.reading.line self.old.reading.table)
              self.old.reading;
          to_come = [];
        } }
    {
        let from = self.text.line_start();
        self.giving.give_nothing();
        self.text.end_line();
        self.phase = take_keys(&mut self.kept, &self.text.block()[from..], number);
        self.begun = Begun::at_start(self.phase, self.kept.format.count());
    }

    /// A line of the data has ended.
    fn end_data_line(&mut self, number: u32)
        requires room { length (bytes_read self.old.reading) < self.old.limits.text }
        requires phase { self.old.reading.table.phase ≡ InData }
        ensures { self.new ≡ record self.old {
          reading = ended_with
              (data_line number self.old.reading.line self.old.reading.table)
              self.old.reading;
          to_come = [];
        } }
    {
        if goes_on(self.text.line()) {
            self.giving.give_nothing();
            self.text.join(number);
        } else {
            self.end_whole_line(number);
        }
    }

    /// A line of the data has ended that goes on no more.
    fn end_whole_line(&mut self, number: u32)
        requires room { length (bytes_read self.old.reading) < self.old.limits.text }
        requires phase { self.old.reading.table.phase ≡ InData }
        ensures { self.new ≡ record self.old {
          reading = ended_with
              (whole_line (ends_joined self.old.reading.table.pending) number
              (behind_joined self.old.reading.table.pending self.old.reading.line)
              self.old.reading.table) self.old.reading;
          to_come = [];
        } }
    {
        let from = self.text.open_start();
        let to = self.text.block().len();
        self.giving.give_nothing();
        self.phase = self
            .kept
            .take_line(&mut self.text, self.options.separator, from, to, number);
        self.text.end_line();
        self.begun = Begun::at_start(self.phase, self.kept.format.count());
    }
}
