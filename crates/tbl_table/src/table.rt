//! The table that is being read.

ghost use Rattle.input_source.specs.Bytes.{newline};
ghost use Rattle.std.specs.Prelude.{◌≡◌, ◌==◌, false, All, ℕ, ◌+◌, ◌-◌, ◌<◌, ◌≤◌, ◌++◌, [], ◌∷◌};
ghost use Rattle.std.specs.Prelude.{true, drop, length, IfOk};
ghost use Rattle.std.specs.Option.{MatchOption};
ghost use Rattle.tbl_format.specs.Parts.{IsFront};
ghost use Rattle.tbl_table.specs.Reading.{all_read, byte_read, bytes_read, kept_nothing};
ghost use Rattle.tbl_table.specs.Table.{columns, columns_at, rows_behind, told_at_cut};
ghost use Rattle.tbl_data.specs.declared.phase.Phase.TheVariants.{InData};

mod ending;
mod lines;
mod passing;

use crate::begun::Begun;
use crate::table_steps::{clear_data, new_data};
use std::alloc::{AllocError, Global};
use std::marker::Model;
use tbl_data::phase::Phase;
use tbl_data::table_data::TableData;
use tbl_format::limits::TblLimits;
use tbl_giving::giving::Giving;
use tbl_kept::table_text::TableText;
use tbl_options::message::Told;
use tbl_options::options::{NO_OPTIONS, Options};

/// The table that is being read, or that is being given. All its memory is reserved as it is made.
#[derive(Drop)]
pub struct Table {
    limits: TblLimits,
    text: TableText,
    phase: Phase,
    /// The line of the options or the format that is begun.
    begun: Begun,
    options: Options,
    kept: TableData,
    giving: Giving,
}

impl Model for Table {
    ghost use Rattle.tbl_table.specs.Reading.{KeptTable};

    ghost Value = { KeptTable };

    ghost use Rattle.tbl_table.specs.Kept.{kept_by, IsSound};

    ghost view = { kept_by };

    ghost invariant = { IsSound };
}

impl Table {
    /// No table, with room for one within the limits.
    #[tactic(auto, unfolding(tbl_data::specs::TableRead::no_lines))]
    pub fn new(alloc: Global, limits: TblLimits) -> Result<Table, AllocError>
        ensures { IfOk result (λ t. t ≡ kept_nothing limits) }
    {
        let columns = limits.columns.min(limits.text);
        Ok(Table {
            limits,
            text: TableText::new(alloc, limits.text)?,
            phase: Phase::AtHead,
            begun: Begun::Front(false),
            options: NO_OPTIONS,
            kept: new_data(alloc, limits.text, columns)?,
            giving: Giving::new(alloc, columns)?,
        })
    }

    /// A table begins.
    #[tactic(auto, unfolding(tbl_data::specs::TableRead::no_lines))]
    pub fn begin(&mut self)
        ensures { self.new ≡ kept_nothing self.old.limits }
    {
        self.text.clear();
        self.phase = Phase::AtHead;
        self.begun = Begun::Front(false);
        self.options = NO_OPTIONS;
        clear_data(&mut self.kept);
        self.giving.give_nothing();
    }

    /// A byte of the line that is begun, but its newline.
    #[inline(always)]
    pub fn push(&mut self, byte: u8)
        requires room { length (bytes_read self.old.reading) < self.old.limits.text + 4 }
        requires line { (byte == newline) ≡ false }
        ensures { self.new ≡ record self.old
            { reading = byte_read byte self.old.reading; to_come = [] } }
    {
        self.giving.give_nothing();
        self.begun = self.begun.behind(self.text.line(), byte);
        self.text.push(byte);
    }

    /// Bytes of the line that is begun, but its newline.
    #[inline(always)]
    pub fn push_all(&mut self, bytes: &[u8])
        requires phase { self.old.reading.table.phase ≡ InData }
        requires room { length (bytes_read self.old.reading) + length bytes.now
            ≤ self.old.limits.text }
        requires one_line { All (λ b. (b == newline) ≡ false) bytes.now }
        ensures { self.new ≡ record self.old
            { reading = all_read bytes.now self.old.reading; to_come = [] } }
    {
        self.giving.give_nothing();
        self.text.push_all(bytes);
    }

    /// Whether a byte of the data can be read, whatever it is, and no limit is met.
    #[inline(always)]
    #[tactic(auto, unfolding(crate::specs::Table::rows_behind, crate::specs::Table::columns_at))]
    pub fn reads_any(&self) -> bool
        ensures phase { result ≡ true → self.now.reading.table.phase ≡ InData }
        ensures keys { result ≡ true
            → columns self.now.reading.table ≤ self.now.limits.columns }
        ensures rows { result ≡ true
            → rows_behind self.now.reading.table self.now.reading.line ≤ self.now.limits.rows }
        ensures columns { result ≡ true → (b : ℕ)
            → columns_at self.now.reading.table (self.now.reading.line ++ b ∷ [])
            ≤ self.now.limits.columns }
        ensures text { result ≡ true
            → length (bytes_read self.now.reading) < self.now.limits.text }
    {
        match self.phase {
            Phase::AtHead => false,
            Phase::InFormat => false,
            Phase::InData => self.has_room(),
            Phase::Bad => false,
        }
    }

    /// Whether there is room for a byte and a row.
    #[inline(always)]
    fn has_room(&self) -> bool
        ensures rows { result ≡ true
            → length self.now.reading.table.body < self.now.limits.rows }
        ensures columns { result ≡ true
            → columns self.now.reading.table ≤ self.now.limits.columns }
        ensures text { result ≡ true
            → length (bytes_read self.now.reading) < self.now.limits.text }
    {
        self.kept.rows.count() < self.limits.rows as usize
            && self.kept.format.columns() <= self.limits.columns as usize
            && self.text.len() < self.limits.text as usize
    }

    /// How many bytes were read of it.
    pub fn len(&self) -> usize
        ensures { result ≡ length (bytes_read self.now.reading) }
    {
        self.text.len()
    }

    /// The table is cut: the messages of its lines are to tell, but of one that goes on, and no
    /// byte is to give.
    #[tactic(auto, unfolding(crate::specs::Table::told_at_cut, crate::specs::Table::notes))]
    pub fn cut(&mut self)
        ensures told { self.new.told ≡ told_at_cut self.old.reading.table }
        ensures to_come { self.new.to_come ≡ [] }
        ensures limits { self.new.limits ≡ self.old.limits }
    {
        self.giving.give_nothing();
        self.kept.notes.tell();
    }

    /// Whether no message is to tell and no byte to give.
    #[inline(always)]
    pub fn is_quiet(&self) -> bool
        ensures told { result ≡ true → self.now.told ≡ [] }
        ensures to_come { result ≡ true → self.now.to_come ≡ [] }
    {
        self.kept.notes.are_told()
            && self
                .giving
                .is_given(&self.text, &self.kept.rows, &self.kept.format)
    }

    /// The next message to tell.
    pub fn next_told(&mut self) -> Option<Told>
        ensures { MatchOption result ((self.old.told ≡ []) × (self.new ≡ self.old))
            (λ told. self.old ≡ record self.new { told = told ∷ self.new.told }) }
    {
        match self.kept.notes.next() {
            Some(note) => Some(note.told(self.text.block())),
            None => None,
        }
    }

    /// The next bytes to give that lie together: some, if any is to come.
    #[inline(always)]
    pub fn buffered(&self) -> &[u8]
        ensures front { IsFront result.now self.now.to_come }
        ensures some { 1 ≤ length self.now.to_come → 1 ≤ length result.now }
    {
        self.giving
            .buffered(&self.text, &self.kept.rows, &self.kept.format)
    }

    /// So many bytes were given.
    #[inline(always)]
    pub fn give_bytes(&mut self, count: usize)
        requires { count ≤ length self.old.to_come }
        ensures { self.new ≡ record self.old { to_come = drop count self.old.to_come } }
    {
        self.giving.pass(
            &mut self.kept.escapes,
            &self.text,
            &self.kept.rows,
            &self.kept.format,
            count,
        );
    }

    /// The next byte to give.
    #[inline(always)]
    pub fn next(&mut self) -> Option<u8>
        ensures { MatchOption result ((self.old.to_come ≡ []) × (self.new ≡ self.old))
            (λ b. self.old ≡ record self.new { to_come = b ∷ self.new.to_come }) }
    {
        self.giving.next(
            &mut self.kept.escapes,
            &self.text,
            &self.kept.rows,
            &self.kept.format,
        )
    }
}
