//! The machine over bytes: what is given for each.

ghost use Rattle.std.specs.Prelude.{◌≡◌, ◌+◌, ◌<◌, ◌≤◌, ◌++◌, [], true, Some, IfOk, IfSome};
ghost use Rattle.std.specs.Prelude.{option_to_list, length, map};
ghost use Rattle.std.specs.Option.{MatchOption};
ghost use Rattle.input_source.specs.Tape.{Ended, Failed, OneByte, answer_of};
ghost use Rattle.tbl_core.specs.Machine.{limit_inside, not_ended, own_told, reading_on};
ghost use Rattle.tbl_core.specs.Passing.{passes_next, reads_outside};
ghost use Rattle.tbl_core.specs.NotesLeft.{gives_byte, noted};
ghost use Rattle.tbl_format.specs.Parts.{IsFront};
ghost use Rattle.tbl_core.specs.Tables.{behind_given, IsByteGiven, IsGiven, IsRoomFor};
ghost use Rattle.tbl_core.specs.Tables.{begun_behind, byte_step, counted_step, ending_step, handed};
ghost use Rattle.tbl_core.specs.Tables.{line_of, position_behind, position_on_start_line};
ghost use Rattle.tbl_core.specs.Tables.{stopped_by, told_at};
ghost use Rattle.tbl_core.specs.Yields.{at_start, behind_step};
ghost use Rattle.tbl_table.specs.Reading.{byte_read, bytes_read, given_at_end, limit_at_end};
ghost use Rattle.tbl_table.specs.Reading.{told_at_end};

mod limits_met;
mod passing;
mod reading;

use crate::place::{Count, Front, Position, ends_name};
use input_source::Taken;
use limits_met::{limit_met, not_ended, own_told, position_behind};
use roff_num::Limit;
use std::alloc::{AllocError, Global};
use std::marker::Model;
use tbl_format::limits::TblLimits;
use tbl_options::message::Told;
use tbl_table::table::Table;

/// What tables make of the bytes of an input, one at a time.
#[derive(Drop)]
pub(crate) struct Tables {
    limits: TblLimits,
    line_length: u32,
    count: Count,
    position: Position,
    table: Table,
    /// A message behind those of the table: of a limit, or of a table that isn't ended.
    own: Option<Told>,
}

impl Model for Tables {
    ghost use Rattle.tbl_core.specs.Tables.{TablesState};

    ghost Value = { TablesState };

    ghost use Rattle.tbl_core.specs.TablesKept.{tables_state, IsSound};

    ghost view = { tables_state };

    ghost invariant = { IsSound };
}

impl Tables {
    /// Before the first byte. The line length is in columns.
    pub(crate) fn new(
        alloc: Global,
        limits: TblLimits,
        line_length: u32,
    ) -> Result<Tables, AllocError>
        ensures { IfOk result (λ t. t
            ≡ record { limits = limits; line_length = line_length; at = at_start }) }
    {
        Ok(Tables {
            limits,
            line_length,
            count: Count::NOTHING,
            position: Position::Outside(Front::Nothing),
            table: Table::new(alloc, limits)?,
            own: None,
        })
    }

    /// The line of the last byte that was taken, 1 if there is none.
    #[tactic(auto, using(crate::proofs::Stopping::line_standing))]
    pub(crate) fn line(&self) -> u32
        ensures { result ≡ line_of self.now.at.standing }
    {
        self.count.line
    }

    /// The limits.
    pub(crate) fn limits(&self) -> TblLimits
        ensures { result ≡ self.now.limits }
    {
        self.limits
    }

    /// The limit that has stopped the run.
    pub(crate) fn stopped(&self) -> Option<Limit>
        ensures { result ≡ stopped_by self.now.at.standing }
    {
        match self.position {
            Position::Over(limit) => Some(limit),
            _ => None,
        }
    }

    /// The next item that is pending.
    #[inline(always)]
    pub(crate) fn next(&mut self) -> Option<Taken>
        ensures next { MatchOption result ((self.old.at.pending ≡ []) × (self.new ≡ self.old))
            (λ taken. IsGiven self.old self.new taken) }
        ensures bytes { IfSome result (λ taken. gives_byte (answer_of taken) ≡ true
            → noted self.new.at.pending ≡ 0) }
    {
        if self.is_quiet() {
            return None;
        }
        self.next_pending()
    }

    /// Whether nothing is pending.
    #[inline(always)]
    fn is_quiet(&self) -> bool
        ensures { result ≡ true → self.now.at.pending ≡ [] }
    {
        self.own.is_none() && self.table.is_quiet()
    }

    /// The next item that is pending, where one may be.
    #[inline(never)]
    fn next_pending(&mut self) -> Option<Taken>
        ensures next { MatchOption result ((self.old.at.pending ≡ []) × (self.new ≡ self.old))
            (λ taken. IsGiven self.old self.new taken) }
        ensures bytes { IfSome result (λ taken. gives_byte (answer_of taken) ≡ true
            → noted self.new.at.pending ≡ 0) }
    {
        if let Some(told) = self.table.next_told() {
            return Some(Taken::Note(told.note()));
        }
        if let Some(told) = self.own.take() {
            return Some(Taken::Note(told.note()));
        }
        match self.table.next() {
            Some(byte) => Some(Taken::Byte(byte)),
            None => None,
        }
    }

    /// The next byte that is pending, where no message is.
    #[inline]
    pub(crate) fn next_byte(&mut self) -> Option<u8>
        requires { noted self.old.at.pending ≡ 0 }
        ensures { MatchOption result (self.new ≡ self.old)
            (λ b. IsByteGiven self.old self.new b) }
    {
        self.table.next()
    }

    /// The next bytes that are pending and lie together, where no message is: some, if any is.
    #[inline(always)]
    pub(crate) fn buffered(&self) -> &[u8]
        requires { noted self.now.at.pending ≡ 0 }
        ensures front { IsFront (map OneByte result.now) self.now.at.pending }
        ensures some { 1 ≤ length self.now.at.pending → 1 ≤ length result.now }
    {
        self.table.buffered()
    }

    /// So many bytes that were pending were given.
    #[inline(always)]
    pub(crate) fn give_bytes(&mut self, count: usize)
        requires none { noted self.old.at.pending ≡ 0 }
        requires within { count ≤ length self.old.at.pending }
        ensures { self.new ≡ behind_given count self.old }
    {
        self.table.give_bytes(count);
    }

    /// Takes a byte of the input. One that passes by itself is handed out; what is given otherwise
    /// is pending.
    #[inline(always)]
    pub(crate) fn byte(&mut self, byte: u8) -> Option<u8>
        requires { self.old.at.pending ≡ [] }
        ensures out { handed result ++ self.new.at.pending
            ≡ (byte_step self.old.limits self.old.line_length byte self.old.at.standing).out }
        ensures behind { self.new.at.standing
            ≡ (byte_step self.old.limits self.old.line_length byte self.old.at.standing).behind }
        ensures limits { self.new.limits ≡ self.old.limits }
        ensures line_length { self.new.line_length ≡ self.old.line_length }
        ensures passes { passes_next self.old.limits self.old.at.standing ≡ true
            → result ≡ Some byte }
        ensures alone { IfSome result (λ b. self.new.at.pending ≡ []) }
    {
        if let Position::Over(_) = self.position {
            return None;
        }
        if self.count.taken >= self.limits.bytes {
            cut_table(&mut self.table, self.position);
            self.own = own_told(self.limits, Some(Limit::TblBytes), self.count.line);
            self.position = Position::Over(Limit::TblBytes);
            return None;
        }
        self.count.take(byte);
        self.take_counted(byte)
    }

    /// Takes a byte that was counted.
    #[inline(always)]
    fn take_counted(&mut self, byte: u8) -> Option<u8>
        requires { self.old.at.pending ≡ [] }
        ensures out { handed result ++ self.new.at.pending
            ≡ (counted_step self.old.limits self.old.line_length byte self.old.at.standing).out }
        ensures behind { self.new.at.standing
            ≡ (counted_step self.old.limits self.old.line_length byte self.old.at.standing).behind }
        ensures limits { self.new.limits ≡ self.old.limits }
        ensures line_length { self.new.line_length ≡ self.old.line_length }
        ensures passes { reads_outside self.old.at.standing ≡ true → result ≡ Some byte }
        ensures alone { IfSome result (λ b. self.new.at.pending ≡ []) }
    {
        match self.position {
            Position::Outside(front) => {
                if front.is_name() && ends_name(byte) {
                    self.position = begin_behind(&mut self.table, byte);
                } else {
                    self.position = Position::Outside(front.behind(b'S', byte));
                }
                Some(byte)
            }
            Position::RestOfStart => {
                self.position = begin_behind(&mut self.table, byte);
                Some(byte)
            }
            Position::Inside(front) => {
                if front.is_name() && ends_name(byte) {
                    let limit = finish_behind(
                        &mut self.table,
                        self.count.line,
                        byte,
                        self.line_length,
                    );
                    self.own = own_told(self.limits, limit, self.count.line);
                    self.position = position_behind(limit, front.behind(b'S', byte));
                    return None;
                }
                match limit_met(self.limits, &self.table, front, byte) {
                    Some(limit) => {
                        self.table.cut();
                        self.own = own_told(self.limits, Some(limit), self.count.line);
                        self.position = Position::Over(limit);
                    }
                    None => {
                        read_on(&mut self.table, self.count.line, byte);
                        self.position = Position::Inside(front.behind(b'E', byte));
                    }
                }
                None
            }
            Position::Over(_) => None,
        }
    }

    /// The input ends.
    pub(crate) fn end(&mut self)
        requires { self.old.at.pending ≡ [] }
        ensures { self.new ≡ record self.old {
          at = behind_step
              (ending_step self.old.limits self.old.line_length Ended self.old.at.standing);
        } }
    {
        match self.position {
            Position::Outside(front) => {
                self.own = not_ended(self.count.line, !front.is_name());
                self.position = Position::Outside(Front::Nothing);
            }
            Position::RestOfStart => {
                self.own = not_ended(self.count.line, false);
                self.position = Position::Outside(Front::Nothing);
            }
            Position::Inside(front) => {
                if front.is_name() {
                    let limit = self.table.finish(self.count.line, self.line_length);
                    self.own = own_told(self.limits, limit, self.count.line);
                    self.position = position_behind(limit, Front::Nothing);
                } else if self.table.len() > self.limits.text as usize {
                    self.table.cut();
                    self.own = own_told(self.limits, Some(Limit::Text), self.count.line);
                    self.position = Position::Over(Limit::Text);
                } else {
                    let is_bad = self.table.pass(self.count.line);
                    self.own = not_ended(self.count.line, is_bad);
                    self.position = Position::Outside(Front::Nothing);
                }
            }
            Position::Over(_) => {}
        }
    }

    /// The input fails, or a limit of its own stops it.
    pub(crate) fn cut(&mut self)
        requires { self.old.at.pending ≡ [] }
        ensures { self.new ≡ record self.old {
          at = behind_step
              (ending_step self.old.limits self.old.line_length Failed self.old.at.standing);
        } }
    {
        match self.position {
            Position::Inside(_) => {
                self.table.cut();
                self.position = Position::Outside(Front::Nothing);
            }
            Position::Outside(_) => self.position = Position::Outside(Front::Nothing),
            Position::RestOfStart => self.position = Position::Outside(Front::Nothing),
            Position::Over(_) => {}
        }
    }
}

/// Behind a byte of a `.TS` line that stands behind its name: a table begins behind the newline.
fn begin_behind(table: &mut Table, byte: u8) -> Position
    requires told { table.old.told ≡ [] }
    requires bytes { table.old.to_come ≡ [] }
    ensures position { result ≡ position_on_start_line byte }
    ensures table { table.new ≡ begun_behind byte table.old }
{
    if byte == b'\n' {
        table.begin();
        Position::Inside(Front::Nothing)
    } else {
        Position::RestOfStart
    }
}

/// The byte behind the name of the line that ends a table.
#[inline(always)]
fn finish_behind(table: &mut Table, line: u32, byte: u8, line_length: u32) -> Option<Limit>
    requires room { length (bytes_read table.old.reading) < table.old.limits.text + 4 }
    ensures answer { result
        ≡ limit_at_end table.old.limits line_length table.old.reading.table }
    ensures told { table.new.told
        ≡ told_at_end table.old.limits line line_length table.old.reading.table }
    ensures to_come { table.new.to_come
        ≡ given_at_end table.old.limits line line_length (byte_read byte table.old.reading) }
    ensures limits { table.new.limits ≡ table.old.limits }
{
    if byte == b'\n' {
        return table.finish_line(line, line_length);
    }
    table.push(byte);
    table.finish(line, line_length)
}

/// A byte of a table that ends neither it nor the run.
#[inline(always)]
fn read_on(table: &mut Table, line: u32, byte: u8)
    requires room { IsRoomFor table.old.limits byte table.old.reading }
    ensures reading { table.new.reading ≡ reading_on line byte table.old.reading }
    ensures told { table.new.told ≡ table.old.told }
    ensures to_come { table.new.to_come ≡ [] }
    ensures limits { table.new.limits ≡ table.old.limits }
{
    if byte == b'\n' {
        table.end_line(line);
    } else {
        table.push(byte);
    }
}

/// The table is cut, if one is being read.
fn cut_table(table: &mut Table, position: Position)
    requires told { table.old.told ≡ [] }
    requires bytes { table.old.to_come ≡ [] }
    ensures told { table.new.told ≡ told_at position table.old.reading }
    ensures to_come { table.new.to_come ≡ [] }
    ensures limits { table.new.limits ≡ table.old.limits }
{
    if let Position::Inside(_) = position {
        table.cut();
    }
}
