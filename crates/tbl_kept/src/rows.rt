//! The rows, rules and commands of a table, as they are kept (Lesk, "Tbl": Data).

ghost use Rattle.std.specs.Prelude.{◌≡◌, ℕ, suc, ◌+◌, ◌<◌, ◌≤◌, ◌^◌, [], ◌∷◌, length, drop};
ghost use Rattle.std.specs.Prelude.{IfOk};
ghost use Rattle.tbl_format.specs.Cells.{cell_count};
ghost use Rattle.tbl_format.specs.FormatRows.{AreWithin};
ghost use Rattle.tbl_kept.specs.RowsLaying.{AreOpened, is_block};

pub use crate::held_columns::key_at;
use crate::held_columns::{add_columns, hold};
use cell_heights::goes_on;
use std::alloc::{AllocError, Global};
use std::marker::Model;
use tbl_format::format::FormatKey;
use tbl_layout::columns::Column;
use tbl_layout::data_lines::RuleSign;
use tbl_layout::entry::{Entry, EntryKind};

mod cell_heights;
pub mod heights;
mod laying;

/// What stands in a table.
#[derive(Clone, Copy)]
pub enum Element {
    /// A row.
    Row(KeptRow),
    /// A rule over the whole table.
    Rule(RuleSign),
    /// A command, by where it lies in the table's bytes.
    Command(u32, u32),
}

/// A row, by where its fields lie among all.
#[derive(Clone, Copy)]
pub struct KeptRow {
    /// The row of the formats that serves it, among all.
    pub keys: u32,
    /// How many rows of rule keys stand directly in front of it.
    pub rules: u32,
    /// How many lines it has.
    pub height: u32,
    /// Where its fields begin.
    from: u32,
    /// Where they end.
    to: u32,
}

/// The rows, rules and commands of a table: their texts are parts of its bytes. All memory is
/// reserved as it is made.
#[derive(Drop)]
pub struct TableRows {
    entries: Vec<Entry>,
    elements: Vec<Element>,
    columns: Vec<Column>,
    /// Where the fields of the row that is begun begin.
    row_start: usize,
    /// Whether a field may be a block.
    has_block: bool,
    entry_room: usize,
    element_room: usize,
    column_room: usize,
    /// Whether a field of a row goes on with the cell above it.
    has_above: bool,
    lefts: Lefts,
}

/// How many lines are left of the cells of a row, and behind the row above it.
#[derive(Drop)]
struct Lefts {
    here: Vec<u32>,
    above: Vec<u32>,
}

/// A row, a rule or a command, lent. Places are places in the table's bytes.
#[derive(Clone, Copy)]
pub enum Lent<'a> {
    /// A row: the row of the formats that serves it, among all, how many rows of rule keys stand
    /// directly in front of it, how many lines it has, and its fields.
    Row(usize, usize, u32, &'a [Entry]),
    /// A rule over the whole table.
    Rule(RuleSign),
    /// A command, by where it lies.
    Command(usize, usize),
}

impl Model for TableRows {
    ghost use Rattle.tbl_kept.specs.Rows.{KeptRows};

    ghost Value = { KeptRows };

    ghost use Rattle.tbl_kept.specs.RowsInside.{kept_by, IsSound};

    ghost view = { kept_by };

    ghost invariant = { IsSound };
}

impl TableRows {
    ghost use Rattle.tbl_kept.specs.Rows.{cleared, entries_in, entries_of, no_rows};
    ghost use Rattle.tbl_kept.specs.Rows.{with_block_end};
    ghost use Rattle.tbl_kept.specs.Rows.{with_columns, with_command, with_entry, with_row};
    ghost use Rattle.tbl_kept.specs.Rows.{with_rule};
    ghost use Rattle.tbl_kept.specs.Rows.{lent};
    ghost use Rattle.tbl_kept.specs.RowsLaying.{HasFewRules, element_at};

    /// Nothing, with room for so many fields, rows and commands, and columns.
    pub fn new(
        alloc: Global,
        entries: usize,
        elements: usize,
        columns: usize,
    ) -> Result<Self, AllocError>
        ensures { IfOk result (λ r. r ≡ no_rows entries elements columns) }
    {
        Ok(TableRows {
            entries: Vec::with_capacity(alloc, entries)?,
            elements: Vec::with_capacity(alloc, elements)?,
            columns: Vec::with_capacity(alloc, columns)?,
            row_start: 0,
            has_block: false,
            entry_room: entries,
            element_room: elements,
            column_room: columns,
            has_above: false,
            lefts: Lefts {
                here: Vec::with_capacity(alloc, columns)?,
                above: Vec::with_capacity(alloc, columns)?,
            },
        })
    }

    /// Nothing.
    pub fn clear(&mut self)
        ensures { self.new ≡ cleared self.old }
    {
        self.entries.clear();
        self.elements.clear();
        self.columns.clear();
        self.row_start = 0;
        self.has_above = false;
        self.has_block = false;
    }

    /// A format is whole, with which there are so many columns.
    pub fn add_columns(&mut self, count: usize)
        requires { count ≤ self.old.column_room }
        ensures { self.new ≡ with_columns count self.old }
    {
        add_columns(&mut self.columns, count);
    }

    /// How many fields the row that is begun has.
    pub fn row_len(&self) -> usize
        ensures { result ≡ length self.now.row }
    {
        self.entries.len() - self.row_start
    }

    /// One field more in the row that is begun.
    pub fn keep(&mut self, entry: Entry)
        requires { entries_of self.old < self.old.entry_room }
        ensures { self.new ≡ with_entry entry self.old }
    {
        self.has_block |= is_block(entry);
        self.has_above |= goes_on(entry.kind);
        self.entries.push_reserved(entry);
    }

    /// The block that is the last field of the row that is begun goes on up to a place.
    pub fn extend_block(&mut self, to: usize)
        requires { to < 2 ^ 32 }
        ensures { self.new ≡ with_block_end to self.old }
    {
        if self.row_len() > 0 {
            let last = self.entries.len() - 1;
            self.entries[last] = self.entries[last].with_end(to);
        }
    }

    /// The row that is begun is whole, and this row of the formats serves it, among all, in front
    /// of which so many rows of rule keys stand.
    pub fn end_row(&mut self, keys: usize, rules: usize, format: &[FormatKey])
        requires small { keys < 2 ^ 32 }
        requires rules { rules ≤ keys }
        requires few { entries_of self.old < 2 ^ 32 }
        requires opened { AreOpened self.old.row }
        requires cells { AreWithin (length self.old.columns) format.now }
        requires short { length self.old.row ≤ cell_count format.now (length self.old.columns) }
        requires room { length self.old.elements < self.old.element_room }
        ensures { (bars : ℕ) → self.new
            ≡ with_row keys rules (record { keys = format.now; bars = bars }) self.old }
    {
        hold(
            self.columns.as_mut_slice(),
            format,
            &self.entries.as_slice()[self.row_start..],
        );
        self.elements.push_reserved(Element::Row(KeptRow {
            keys: keys as u32,
            rules: rules as u32,
            height: 1,
            from: self.row_start as u32,
            to: self.entries.len() as u32,
        }));
        self.row_start = self.entries.len();
    }

    /// A command that lies there.
    pub fn keep_command(&mut self, from: usize, to: usize)
        requires small { to < 2 ^ 32 }
        requires order { from ≤ to }
        requires room { length self.old.elements < self.old.element_room }
        ensures { self.new ≡ with_command from to self.old }
    {
        self.elements
            .push_reserved(Element::Command(from as u32, to as u32));
    }

    /// A rule over the whole table.
    pub fn keep_rule(&mut self, sign: RuleSign)
        requires { length self.old.elements < self.old.element_room }
        ensures { self.new ≡ with_rule sign self.old }
    {
        self.elements.push_reserved(Element::Rule(sign));
    }

    /// How many rows, rules and commands there are.
    pub fn count(&self) -> usize
        ensures { result ≡ length self.now.elements }
    {
        self.elements.len()
    }

    /// One of the rows, rules and commands.
    pub fn element(&self, at: usize) -> Lent<'_>
        requires { at < length self.now.elements }
        ensures { drop at self.now.elements ≡ lent result ∷ drop (suc at) self.now.elements }
    {
        match self.elements[at] {
            Element::Row(row) => Lent::Row(
                row.keys as usize,
                row.rules as usize,
                row.height,
                &self.entries.as_slice()[row.from as usize..row.to as usize],
            ),
            Element::Rule(sign) => Lent::Rule(sign),
            Element::Command(from, to) => Lent::Command(from as usize, to as usize),
        }
    }

    /// There are fewer rows, rules and commands than 2 ^ 60.
    pub fn stay_few(&self)
        ensures { length self.now.elements < 2 ^ 60 }
    {
        let _ = self.elements.as_slice();
    }

    /// There are fewer fields of rows than 2 ^ 60.
    pub fn fields_stay_few(&self)
        ensures { entries_in self.now.elements < 2 ^ 60 }
    {
        let _ = self.entries.as_slice();
    }

    /// Fewer rows of rule keys than 2 ^ 32 stand in front of a row.
    pub fn rules_stay_few(&self, at: usize)
        requires { at < length self.now.elements }
        ensures { HasFewRules (element_at self.now.elements at) }
    {
        if let Element::Row(row) = self.elements[at] {
            stays_few(row.rules);
        }
    }

    /// The columns.
    pub fn columns(&self) -> &[Column]
        ensures { result.now ≡ self.now.columns }
    {
        self.columns.as_slice()
    }
}

/// A number of 32 bits is less than 2 ^ 32.
fn stays_few(number: u32)
    ensures { number < 2 ^ 32 }
{}

/// Whether a field is a block.
fn is_block(entry: Entry) -> bool
    ensures { result ≡ is_block entry.kind }
{
    matches!(entry.kind, EntryKind::Block(_))
}
