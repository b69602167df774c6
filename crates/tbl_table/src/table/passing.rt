//! A table that isn't ended.

ghost use Rattle.std.specs.Prelude.{◌≡◌, ◌<◌, ◌≤◌, length};
ghost use Rattle.tbl_table.specs.Passing.{without_rows};
ghost use Rattle.tbl_table.specs.Reading.{bytes_read, last_read};
ghost use Rattle.tbl_table.specs.Table.{closed, is_bad, line_read, notes};
ghost use Rattle.tbl_data.specs.declared.phase.Phase.TheVariants.{AtHead, InData, InFormat};

use super::Table;
use crate::begun::Begun;
use crate::table_steps::{end_of_line, tell_head_letters, tell_keys, tell_options};
use tbl_data::phase::Phase;
use tbl_data::table_data::{OpenBlock, TableData};
use tbl_options::options::options_end;

impl Table {
    /// The input has ended within the table: its messages are to tell, those of a line that is
    /// begun too, and its bytes are to give as they were read. Answers whether it was reported.
    pub fn pass(&mut self, number: u32) -> bool
        requires room { length (bytes_read self.old.reading) ≤ self.old.limits.text }
        ensures answer { result ≡ is_bad (last_read number self.old.reading) }
        ensures told { self.new.told ≡ notes (last_read number self.old.reading) }
        ensures to_come { self.new.to_come ≡ bytes_read self.old.reading }
        ensures limits { self.new.limits ≡ self.old.limits }
    {
        self.tell_last(number);
        self.kept.notes.tell();
        self.giving.give_read(&self.text, false);
        self.is_bad()
    }

    /// Whether it was reported.
    #[tactic(auto, unfolding(crate::specs::Table::is_bad))]
    fn is_bad(&self) -> bool
        ensures { result ≡ is_bad self.now.reading.table }
    {
        match self.phase {
            Phase::AtHead => false,
            Phase::InFormat => false,
            Phase::InData => false,
            Phase::Bad => true,
        }
    }

    /// Tells what is to tell of a line that is begun, or that goes on.
    fn tell_last(&mut self, number: u32)
        requires room { length (bytes_read self.old.reading) ≤ self.old.limits.text }
        ensures answer { is_bad self.new.reading.table
            ≡ is_bad (last_read number self.old.reading) }
        ensures told { notes self.new.reading.table ≡ notes (last_read number self.old.reading) }
        ensures bytes { bytes_read self.new.reading ≡ bytes_read self.old.reading }
        ensures limits { self.new.limits ≡ self.old.limits }
    {
        if self.text.line().is_empty() {
            self.close();
        } else {
            self.tell_last_line(number);
        }
    }

    /// The last line has no newline: tells what is to tell of it.
    fn tell_last_line(&mut self, number: u32)
        requires room { length (bytes_read self.old.reading) ≤ self.old.limits.text }
        requires line { 0 < length self.old.reading.line }
        ensures answer { is_bad self.new.reading.table ≡ is_bad (closed (line_read number
            self.old.reading.line self.old.reading.table)) }
        ensures told { notes self.new.reading.table ≡ notes (closed (line_read number
            self.old.reading.line self.old.reading.table)) }
        ensures bytes { bytes_read self.new.reading ≡ bytes_read self.old.reading }
        ensures limits { self.new.limits ≡ self.old.limits }
    {
        match self.phase {
            Phase::AtHead => self.tell_last_head(number),
            Phase::InFormat => self.tell_last_keys(number),
            Phase::InData => self.tell_last_row(number),
            Phase::Bad => {
                self.giving.give_nothing();
                self.text.complete();
            }
        }
    }

    /// Tells what is to tell of a first line without a newline.
    fn tell_last_head(&mut self, number: u32)
        requires room { length (bytes_read self.old.reading) ≤ self.old.limits.text }
        requires line { 0 < length self.old.reading.line }
        requires phase { self.old.reading.table.phase ≡ AtHead }
        ensures answer { is_bad self.new.reading.table ≡ is_bad (closed (line_read number
            self.old.reading.line self.old.reading.table)) }
        ensures told { notes self.new.reading.table ≡ notes (closed (line_read number
            self.old.reading.line self.old.reading.table)) }
        ensures bytes { bytes_read self.new.reading ≡ bytes_read self.old.reading }
        ensures limits { self.new.limits ≡ self.old.limits }
    {
        let end = options_end(self.text.line());
        let place = self.begun.place_at_end(self.text.line());
        self.giving.give_nothing();
        self.text.complete();
        tell_options(end, &mut self.kept.notes, self.text.block(), number);
        tell_head_letters(
            end,
            self.kept.format.count(),
            &mut self.kept.notes,
            self.text.block(),
            number,
        );
        self.phase = tell_keys(place, &mut self.kept.notes, number);
        self.begun = Begun::at_start(self.phase, self.kept.format.count());
    }

    /// Tells what is to tell of a line of the format without a newline.
    fn tell_last_keys(&mut self, number: u32)
        requires room { length (bytes_read self.old.reading) ≤ self.old.limits.text }
        requires line { 0 < length self.old.reading.line }
        requires phase { self.old.reading.table.phase ≡ InFormat }
        ensures answer { is_bad self.new.reading.table ≡ is_bad (closed (line_read number
            self.old.reading.line self.old.reading.table)) }
        ensures told { notes self.new.reading.table ≡ notes (closed (line_read number
            self.old.reading.line self.old.reading.table)) }
        ensures bytes { bytes_read self.new.reading ≡ bytes_read self.old.reading }
        ensures limits { self.new.limits ≡ self.old.limits }
    {
        let place = self.begun.place_at_end(self.text.line());
        self.giving.give_nothing();
        self.kept
            .notes
            .push_left_out(self.kept.format.count(), self.text.line(), number);
        self.text.complete();
        self.phase = tell_keys(place, &mut self.kept.notes, number);
        self.begun = Begun::at_start(self.phase, self.kept.format.count());
    }

    /// Tells what is to tell of a line of the data without a newline. What stands in the table is
    /// given up: its bytes pass as they were read.
    fn tell_last_row(&mut self, number: u32)
        requires room { length (bytes_read self.old.reading) ≤ self.old.limits.text }
        requires line { 0 < length self.old.reading.line }
        requires phase { self.old.reading.table.phase ≡ InData }
        ensures answer { is_bad self.new.reading.table ≡ is_bad (closed (line_read number
            self.old.reading.line self.old.reading.table)) }
        ensures told { notes self.new.reading.table ≡ notes (closed (line_read number
            self.old.reading.line self.old.reading.table)) }
        ensures bytes { bytes_read self.new.reading ≡ bytes_read self.old.reading }
        ensures limits { self.new.limits ≡ self.old.limits }
    {
        let from = self.text.open_start();
        let to = end_of_line(&self.text);
        self.giving.give_nothing();
        self.phase = self
            .kept
            .take_line(&mut self.text, self.options.separator, from, to, number);
        self.text.complete();
        drop_rows(&mut self.kept);
        self.begun = Begun::at_start(self.phase, self.kept.format.count());
    }
}

/// What stands in a table is given up: its columns are empty.
fn drop_rows(kept: &mut TableData)
    requires { length kept.old.format.format.asked ≤ kept.old.rows.column_room }
    ensures { kept.new ≡ without_rows kept.old }
{
    kept.rows.clear();
    kept.rows.add_columns(kept.format.columns());
    kept.open = OpenBlock::Nothing;
}
