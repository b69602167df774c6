//! The end of a table: its limits, its messages and what is given.

ghost use Rattle.std.specs.Prelude.{◌≡◌, ◌≤◌, ◌<◌, ◌++◌, [], true, nat_lt, None, is_some};
ghost use Rattle.tbl_data.specs.declared.phase.Phase.TheVariants.{InData};
ghost use Rattle.input_source.specs.Bytes.{newline};
ghost use Rattle.tbl_giving.specs.Giving.{with_newline};
ghost use Rattle.tbl_table.specs.Reading.{byte_read, bytes_read, given_at_end, limit_at_end};
ghost use Rattle.tbl_table.specs.Reading.{output_or_read};
ghost use Rattle.tbl_table.specs.Steps.{behind_line};
ghost use Rattle.tbl_table.specs.Reading.{told_at_end};
ghost use Rattle.tbl_table.specs.Steps.{given_within, is_front, width_met};
ghost use Rattle.tbl_table.specs.Table.{bad, closed, cut_told, ended_in, laid_out, output_in};
ghost use Rattle.tbl_table.specs.Table.{picture_of, rows, width_in};

use super::Table;
use crate::begun::Begun;
use crate::laying::{indent, lay_out, set_places};
use crate::table_steps::{end_block, refuse, tell_cut};
use roff_num::Limit;
use tbl_data::phase::Phase;
use tbl_layout::bars::Bars;

impl Table {
    /// A line that goes on is done, and then a text block that is open.
    pub(super) fn close(&mut self)
        ensures { self.new ≡ record self.old {
          reading = record self.old.reading
              { table = closed self.old.reading.table };
          to_come = [];
        } }
    {
        if self.text.is_open() {
            self.close_line();
        } else {
            self.close_block();
        }
    }

    /// A line that goes on is done, where there is one, and then a text block that is open.
    #[tactic(auto, unfolding(crate::specs::Table::closed))]
    fn close_line(&mut self)
        requires open { is_some self.old.reading.table.pending ≡ true }
        ensures { self.new ≡ record self.old {
          reading = record self.old.reading
              { table = closed self.old.reading.table };
          to_come = [];
        } }
    {
        let from = self.text.open_start();
        let to = self.text.line_start();
        self.giving.give_nothing();
        self.phase = self
            .kept
            .take_line(&mut self.text, self.options.separator, from, to, 0);
        self.text.close();
        end_block(&mut self.kept);
        self.begun = Begun::on_line(self.phase, self.kept.format.count(), self.text.line());
    }

    /// A text block that is open is done, where no line goes on.
    #[tactic(auto, unfolding(crate::specs::Table::closed))]
    fn close_block(&mut self)
        requires pending { self.old.reading.table.pending ≡ None }
        ensures { self.new ≡ record self.old {
          reading = record self.old.reading
              { table = closed self.old.reading.table };
          to_come = [];
        } }
    {
        self.giving.give_nothing();
        end_block(&mut self.kept);
    }

    /// The line `.TE` was met: it is the line that is begun, and the input ends behind it, or a
    /// byte that is no newline. The table's messages are to tell, and its output and that line are
    /// to give. Answers the limit on rows or on the picture's width that is met there: then it is
    /// cut.
    pub fn finish(&mut self, number: u32, line_length: u32) -> Option<Limit>
        ensures answer { result
            ≡ limit_at_end self.old.limits line_length self.old.reading.table }
        ensures told { self.new.told
            ≡ told_at_end self.old.limits number line_length self.old.reading.table }
        ensures to_come { self.new.to_come
            ≡ given_at_end self.old.limits number line_length self.old.reading }
        ensures limits { self.new.limits ≡ self.old.limits }
    {
        self.finish_with(number, line_length, false)
    }

    /// The line `.TE` was met, and a newline follows: the table's messages are to tell, and its
    /// output and that line are to give. Answers the limit on rows or on the picture's width that
    /// is met there: then it is cut.
    pub fn finish_line(&mut self, number: u32, line_length: u32) -> Option<Limit>
        ensures answer { result
            ≡ limit_at_end self.old.limits line_length self.old.reading.table }
        ensures told { self.new.told
            ≡ told_at_end self.old.limits number line_length self.old.reading.table }
        ensures to_come { self.new.to_come ≡ given_at_end self.old.limits number line_length
            (byte_read newline self.old.reading) }
        ensures limits { self.new.limits ≡ self.old.limits }
    {
        self.finish_with(number, line_length, true)
    }

    /// The line `.TE` was met, with a newline behind it or without one: the table's messages are to
    /// tell, and its output and that line are to give. Answers the limit on rows or on the
    /// picture's width that is met there: then it is cut.
    fn finish_with(&mut self, number: u32, line_length: u32, has_newline: bool) -> Option<Limit>
        ensures answer { result
            ≡ limit_at_end self.old.limits line_length self.old.reading.table }
        ensures told { self.new.told
            ≡ told_at_end self.old.limits number line_length self.old.reading.table }
        ensures to_come { self.new.to_come ≡ given_at_end self.old.limits number line_length
            (behind_line has_newline self.old.reading) }
        ensures limits { self.new.limits ≡ self.old.limits }
    {
        self.close();
        if self.has_many_rows() {
            self.cut();
            return Some(Limit::Rows);
        }
        self.give(number, line_length, has_newline)
    }

    /// Whether it has more rows and commands than the limit.
    #[tactic(auto, unfolding(crate::specs::Table::rows))]
    fn has_many_rows(&self) -> bool
        ensures { result ≡ nat_lt self.now.limits.rows (rows self.now.reading.table) }
    {
        self.kept.rows.count() > self.limits.rows as usize
    }

    /// The table's messages are to tell, and its output and the line that is begun are to give.
    /// Answers the limit on the picture's width, where that is met: then nothing is to give.
    fn give(&mut self, number: u32, line_length: u32, has_newline: bool) -> Option<Limit>
        requires pending { self.old.reading.table.pending ≡ None }
        requires begun { self.old.reading.table.begun ≡ None }
        ensures answer { result ≡ width_met self.old.limits.width
            (width_in self.old.reading.table.phase line_length self.old.reading.table) }
        ensures told { result ≡ None → self.new.told
            ≡ (ended_in self.old.reading.table.phase number line_length
            self.old.reading.table).notes }
        ensures cut { is_some result ≡ true → self.new.told ≡ self.old.reading.table.notes }
        ensures to_come { self.new.to_come ≡ given_within result (with_newline has_newline
            (output_or_read (output_in (ended_in self.old.reading.table.phase number line_length
            self.old.reading.table).phase line_length (ended_in self.old.reading.table.phase
            number line_length self.old.reading.table)) self.old.reading.read
            ++ self.old.reading.line)) }
        ensures limits { self.new.limits ≡ self.old.limits }
    {
        match self.phase {
            Phase::AtHead => {
                self.give_unended(number, has_newline);
                None
            }
            Phase::InFormat => {
                self.give_unended(number, has_newline);
                None
            }
            Phase::InData => self.give_picture(number, line_length, has_newline),
            Phase::Bad => {
                self.give_bad(has_newline);
                None
            }
        }
    }

    /// A table whose format lacks its end is reported on this line. Its messages are to tell, and
    /// its bytes and the line that is begun are to give as they were read.
    fn give_unended(&mut self, number: u32, has_newline: bool)
        requires phase { is_front self.old.reading.table.phase ≡ true }
        requires pending { self.old.reading.table.pending ≡ None }
        ensures told { self.new.told ≡ (bad number self.old.reading.table).notes }
        ensures to_come { self.new.to_come
            ≡ with_newline has_newline (bytes_read self.old.reading) }
        ensures limits { self.new.limits ≡ self.old.limits }
    {
        self.phase = refuse(&mut self.kept.notes, number);
        self.begun = Begun::Nothing;
        self.kept.notes.tell();
        self.giving.give_read(&self.text, has_newline);
    }

    /// The messages of a table that was reported are to tell, and its bytes and the line that is
    /// begun are to give as they were read.
    fn give_bad(&mut self, has_newline: bool)
        ensures told { self.new.told ≡ self.old.reading.table.notes }
        ensures to_come { self.new.to_come
            ≡ with_newline has_newline (bytes_read self.old.reading) }
        ensures limits { self.new.limits ≡ self.old.limits }
    {
        self.kept.notes.tell();
        self.giving.give_read(&self.text, has_newline);
    }

    /// The messages of a table that may have a picture are to tell, and that and the line that is
    /// begun are to give. Its rows are laid out: no line follows. Answers the limit on the
    /// picture's width, where that is met: then nothing is to give.
    fn give_picture(&mut self, number: u32, line_length: u32, has_newline: bool) -> Option<Limit>
        requires phase { self.old.reading.table.phase ≡ InData }
        requires pending { self.old.reading.table.pending ≡ None }
        requires begun { self.old.reading.table.begun ≡ None }
        ensures answer { result ≡ width_met self.old.limits.width
            (laid_out line_length self.old.reading.table).width }
        ensures told { result ≡ None → self.new.told ≡ self.old.reading.table.notes
            ++ cut_told number line_length self.old.reading.table }
        ensures cut { is_some result ≡ true → self.new.told ≡ self.old.reading.table.notes }
        ensures to_come { self.new.to_come ≡ given_within result (with_newline has_newline
            (picture_of line_length self.old.reading.table ++ self.old.reading.line)) }
        ensures limits { self.new.limits ≡ self.old.limits }
    {
        let settled = &self.text.block()[..self.text.line_start()];
        let options = self.options;
        let bars = Bars::of(options.boxing, &self.kept.format);
        let laid = lay_out(&mut self.kept, bars, options.expanded, settled, line_length);
        self.phase = Phase::Bad;
        self.begun = Begun::Nothing;
        if laid.width > self.limits.width as usize {
            self.kept.notes.tell();
            self.giving.give_nothing();
            return Some(Limit::Width);
        }
        set_places(&mut self.kept, bars, laid.more);
        tell_cut(
            &mut self.giving,
            &mut self.kept,
            &self.text,
            number,
            bars,
            laid.width,
        );
        self.giving.give_picture(
            &self.text,
            &self.kept.rows,
            &self.kept.format,
            indent(options.centered, line_length, laid.width),
            bars,
            laid.width,
            has_newline,
        );
        None
    }
}
