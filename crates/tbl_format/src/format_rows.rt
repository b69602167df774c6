//! The formats of a table, as they are kept while they are read.

ghost use Rattle.std.specs.Prelude.{◌≡◌, ◌+◌, ◌<◌, ◌≤◌, ◌^◌, [], length, IfOk};
ghost use Rattle.tbl_format.specs.Format.{asked_by, format_byte, format_read, further};
ghost use Rattle.tbl_format.specs.Format.{is_misplaced, is_spanned, no_format, said_by};
ghost use Rattle.tbl_format.specs.KeyCounts.{IsOnLine, StandsOnLine};

mod kept_rows;

use crate::columns_asked::{ask, push_column};
use crate::format::{Asked, FormatKey, FormatPlace, Key, RowPart};
use crate::format_step::{Does, FormatStep, step};
use std::alloc::{AllocError, Global};
use std::marker::Model;

/// The rows of the formats, and the one begun. All its memory is reserved as it is made.
#[derive(Drop)]
pub struct FormatRows {
    /// The keys of all rows, and of the one begun.
    keys: Vec<FormatKey>,
    /// Where each row that is whole ends among them.
    ends: Vec<usize>,
    /// How many bars stand behind its last key.
    row_bars: Vec<u8>,
    /// For each column what its keys ask for it.
    asked: Vec<Asked>,
    /// The most bars in front of a row's first key.
    front: u8,
    /// How many rows are of formats before this one.
    first: usize,
    /// How many bars stand behind the keys of the row begun.
    bars: u8,
    place: FormatPlace,
    key_room: usize,
    column_room: usize,
}

impl Model for FormatRows {
    ghost use Rattle.tbl_format.specs.FormatRows.{KeptFormat, kept_by, IsSound};

    ghost Value = { KeptFormat };

    ghost view = { kept_by };

    ghost invariant = { IsSound };
}

impl FormatRows {
    ghost use Rattle.tbl_format.specs.Format.{asking_for_bars, done, fault_if, stepped};
    ghost use Rattle.tbl_format.specs.Format.{with_any_key, with_asked};
    ghost use Rattle.tbl_format.specs.Format.{with_bar, with_end, with_key, with_last, with_whole};
    ghost use Rattle.tbl_format.specs.Format.{columns_of_keys, keys_with};
    ghost use Rattle.tbl_format.specs.FormatRows.{keeping, key_count};

    /// No byte of a format, with room for so many keys and columns.
    pub fn new(alloc: Global, keys: usize, columns: usize) -> Result<Self, AllocError>
        requires { columns < 2 ^ 32 }
        ensures { IfOk result (λ f. f
            ≡ record { format = no_format; key_room = keys; column_room = columns }) }
    {
        Ok(FormatRows {
            keys: Vec::with_capacity(alloc, keys)?,
            ends: Vec::with_capacity(alloc, keys)?,
            row_bars: Vec::with_capacity(alloc, keys)?,
            asked: Vec::with_capacity(alloc, columns)?,
            front: 0,
            first: 0,
            bars: 0,
            place: FormatPlace::InRows(RowPart::AtKeys),
            key_room: keys,
            column_room: columns,
        })
    }

    /// No byte of a format.
    pub fn clear(&mut self)
        ensures { self.new ≡ keeping self.old no_format }
    {
        self.keys.clear();
        self.ends.clear();
        self.row_bars.clear();
        self.asked.clear();
        self.front = 0;
        self.first = 0;
        self.bars = 0;
        self.place = FormatPlace::InRows(RowPart::AtKeys);
    }

    /// More bytes, which begin a line.
    pub fn take_all(&mut self, bytes: &[u8])
        requires keys { key_count self.old.format + length bytes.now ≤ self.old.key_room }
        requires columns { length (format_read self.old.format bytes.now).asked
            ≤ self.old.column_room }
        requires place { StandsOnLine 0 self.old.format.place }
        ensures { self.new ≡ keeping self.old (format_read self.old.format bytes.now) }
    {
        for at in 0..bytes.len() {
            self.take(&bytes[..at], bytes[at]);
        }
    }

    /// One byte more, which stands behind this front of its line.
    pub fn take(&mut self, front: &[u8], byte: u8)
        requires keys { key_count self.old.format < self.old.key_room }
        requires columns { length (format_byte front.now self.old.format byte).asked
            ≤ self.old.column_room }
        requires place { StandsOnLine (length front.now) self.old.format.place }
        ensures { self.new ≡ keeping self.old (format_byte front.now self.old.format byte) }
    {
        match self.place {
            FormatPlace::InRows(part) => self.take_in_rows(part, front, byte),
            FormatPlace::AtEnd => {}
            FormatPlace::AtFault => {}
        }
    }

    /// One byte more of its rows, of which this part is read.
    fn take_in_rows(&mut self, part: RowPart, front: &[u8], byte: u8)
        requires keys { key_count self.old.format < self.old.key_room }
        requires columns { length (format_byte front.now self.old.format byte).asked
            ≤ self.old.column_room }
        requires part { self.old.format.place ≡ FormatPlace.InRows part }
        requires place { IsOnLine (length front.now) part }
        ensures { self.new ≡ keeping self.old (format_byte front.now self.old.format byte) }
    {
        let first = step(part, front, byte);
        self.take_step(first);
        if first.is_again {
            self.take_step(step(RowPart::BehindKey, front, byte));
        }
    }

    /// One step more.
    fn take_step(&mut self, step: FormatStep)
        requires keys { key_count self.old.format < self.old.key_room }
        requires columns { length (stepped step self.old.format).asked ≤ self.old.column_room }
        ensures { self.new ≡ keeping self.old (stepped step self.old.format) }
    {
        self.place = step.place;
        self.take_does(step.does);
    }

    /// What a byte does.
    fn take_does(&mut self, does: Does)
        requires keys { key_count self.old.format < self.old.key_room }
        requires columns { length (done does self.old.format).asked ≤ self.old.column_room }
        ensures { self.new ≡ keeping self.old (done does self.old.format) }
    {
        match does {
            Does::Nothing => {}
            Does::AddKey(key) => self.take_key(key),
            Does::AddBar => self.take_bar(),
            Does::Separate(_) => self.ask(does),
            Does::Widen(_) => self.ask(does),
            Does::Equalize => self.ask(does),
            Does::DropWidth => self.say(does),
            Does::Stand(_) => self.say(does),
            Does::LeaveOut(_) => {}
            Does::EndRow => self.end_row(),
            Does::EndFormat => {
                self.end_row();
                self.end();
            }
        }
    }

    /// One key more in the row begun.
    fn take_key(&mut self, key: Key)
        requires keys { key_count self.old.format < self.old.key_room }
        requires columns { length (with_key key self.old.format).asked ≤ self.old.column_room }
        ensures { self.new ≡ keeping self.old (with_key key self.old.format) }
    {
        let is_misplaced = self.is_misplaced(key);
        self.push_key(key);
        self.take_fault(is_misplaced);
    }

    /// One key more, wherever it stands.
    fn push_key(&mut self, key: Key)
        requires keys { key_count self.old.format < self.old.key_room }
        requires columns { length (with_any_key key self.old.format).asked
            ≤ self.old.column_room }
        ensures { self.new ≡ keeping self.old (with_any_key key self.old.format) }
    {
        let columns = self.row_columns();
        push_column(&mut self.asked, columns);
        self.push_cell(key, columns);
        self.bars = 0;
    }

    /// One column more of the row begun, which has so many: of the cell at its left, or of a cell
    /// of this key.
    fn push_cell(&mut self, key: Key, columns: usize)
        requires keys { key_count self.old.format < self.old.key_room }
        requires columns { columns ≡ columns_of_keys self.old.format.row }
        requires within { columns < length self.old.format.asked }
        ensures { self.new ≡ keeping self.old (record self.old.format {
          row = keys_with key self.old.format.bars self.old.format.row;
        }) }
    {
        if is_spanned(key) && columns > 0 {
            let last = self.keys.len() - 1;
            self.keys[last] = self.keys[last].widened();
        } else {
            self.keys
                .push_reserved(FormatKey::new(self.bars, key, columns as u32));
        }
    }

    /// A fault, if this holds.
    fn take_fault(&mut self, is_fault: bool)
        ensures { self.new ≡ keeping self.old (fault_if is_fault self.old.format) }
    {
        if is_fault {
            self.place = FormatPlace::AtFault;
        }
    }

    /// Whether a cell of this key would go on from nothing.
    fn is_misplaced(&self, key: Key) -> bool
        ensures { result ≡ is_misplaced key self.now.format }
    {
        self.count().is_misplaced(key)
    }

    /// One bar more.
    fn take_bar(&mut self)
        ensures { self.new ≡ keeping self.old (with_bar self.old.format) }
    {
        if self.bars < 2 {
            self.bars += 1;
            self.ask_for_bars();
        } else {
            self.place = FormatPlace::AtFault;
        }
    }

    /// The bars at the end of the row begun ask for room: behind its last column, or in front of
    /// the first column.
    fn ask_for_bars(&mut self)
        ensures { self.new ≡ keeping self.old (asking_for_bars self.old.format) }
    {
        let columns = self.row_columns();
        if columns > 0 {
            self.asked[columns - 1] = self.asked[columns - 1].with_bars(self.bars);
        } else {
            self.front = self.front.max(self.bars);
        }
    }

    /// What asks something for the last column of the row begun.
    fn ask(&mut self, does: Does)
        ensures { self.new ≡ keeping self.old (with_asked (asked_by does) self.old.format) }
    {
        let columns = self.row_columns();
        ask(&mut self.asked, columns, does);
    }

    /// What says something of the last key.
    fn say(&mut self, does: Does)
        ensures { self.new ≡ keeping self.old (with_last (said_by does) self.old.format) }
    {
        if self.row_len() > 0 {
            let last = self.keys.len() - 1;
            self.keys[last] = self.keys[last].said_by(does);
        }
    }

    /// The row begun is whole, if it has a key.
    fn end_row(&mut self)
        ensures { self.new ≡ keeping self.old (with_whole self.old.format) }
    {
        if self.row_len() > 0 {
            self.ends.push_reserved(self.keys.len());
            self.row_bars.push_reserved(self.bars);
            self.bars = 0;
        } else if self.bars > 0 {
            self.place = FormatPlace::AtFault;
        }
    }

    /// The format ends, which is a fault if no row of it is whole.
    fn end(&mut self)
        ensures { self.new ≡ keeping self.old (with_end self.old.format) }
    {
        if self.ends.len() == self.first {
            self.place = FormatPlace::AtFault;
        }
    }

    /// A further format begins.
    pub fn begin_further(&mut self)
        requires { self.old.format.row ≡ [] }
        ensures { self.new ≡ keeping self.old (further self.old.format) }
    {
        self.first = self.ends.len();
        self.bars = 0;
        self.place = FormatPlace::InRows(RowPart::AtKeys);
    }
}

/// Whether a key widens the cell at its left.
fn is_spanned(key: Key) -> bool
    ensures { result ≡ is_spanned key }
{
    match key {
        Key::Spanned => true,
        _ => false,
    }
}
