//! What counts of the keys of a format before its line has ended.

ghost use Rattle.std.specs.Prelude.{◌≡◌, ℕ, ◌+◌, ◌<◌, ◌≤◌, ◌++◌, ◌^◌, [], ◌∷◌, length};
ghost use Rattle.tbl_format.specs.Format.{Format, done, fault_if, format_byte, format_read};
ghost use Rattle.tbl_format.specs.Format.{is_misplaced, left_out_at, stepped, with_bar, with_end};
ghost use Rattle.tbl_format.specs.Format.{with_key, with_whole};
ghost use Rattle.tbl_format.specs.KeyCounts.{Counts, IsCount, IsOnLine, StandsOnLine};
ghost use Rattle.tbl_format.specs.FormatSteps.{step};

use crate::format::{FormatPlace, Key, RowPart};
use crate::format_step::{Does, FormatStep, step};

/// What counts of a format's keys, as far as it was read.
#[derive(Clone, Copy)]
pub struct KeyCount {
    /// Where the reading stands.
    pub place: FormatPlace,
    /// Whether a format before this one has a row.
    pub is_further: bool,
    /// Whether a row of this one is whole.
    pub has_row: bool,
    /// The columns of the row begun.
    pub row: usize,
    /// The bars behind its last key.
    pub bars: u8,
    /// The columns, of all formats.
    pub columns: usize,
}

impl KeyCount {
    /// No byte of a format.
    pub const NONE: KeyCount = KeyCount {
        place: FormatPlace::InRows(RowPart::AtKeys),
        is_further: false,
        has_row: false,
        row: 0,
        bars: 0,
        columns: 0,
    };

    /// What counts behind such bytes, which begin a line.
    pub fn behind_all(self, bytes: &[u8]) -> KeyCount
        requires is { IsCount 0 self }
        requires few { self.columns + length bytes.now < 2 ^ 63 }
        ensures value { (f : Format) → Counts f self → Counts (format_read f bytes.now) result }
        ensures is { IsCount (length bytes.now) result }
        ensures few { result.columns ≤ self.columns + length bytes.now }
    {
        let mut count = self;
        for at in 0..bytes.len() {
            count = count.behind(&bytes[..at], bytes[at]);
        }
        count
    }

    /// What counts behind one byte more, which stands behind this front of its line.
    pub fn behind(self, front: &[u8], byte: u8) -> KeyCount
        requires is { IsCount (length front.now) self }
        requires few { self.columns < 2 ^ 63 }
        ensures value { (f : Format) → Counts f self
            → Counts (format_byte front.now f byte) result }
        ensures is { IsCount (length front.now + 1) result }
        ensures few { result.columns ≤ self.columns + 1 }
    {
        match self.place {
            FormatPlace::InRows(part) => self.in_rows(part, front, byte),
            FormatPlace::AtEnd => self,
            FormatPlace::AtFault => self,
        }
    }

    /// The letter of what is left out at a byte that stands behind this front of its line.
    pub fn left_out_at(self, front: &[u8], byte: u8) -> Option<u8>
        requires { StandsOnLine (length front.now) self.place }
        ensures { result ≡ left_out_at self.place front.now byte }
    {
        match self.place {
            FormatPlace::InRows(part) => left_out_in(part, front, byte),
            FormatPlace::AtEnd => None,
            FormatPlace::AtFault => None,
        }
    }

    /// What counts behind a byte of the rows, of which this part is read.
    fn in_rows(self, part: RowPart, front: &[u8], byte: u8) -> KeyCount
        requires part { self.place ≡ FormatPlace.InRows part }
        requires is { IsCount (length front.now) self }
        requires few { self.columns < 2 ^ 63 }
        ensures value { (f : Format) → Counts f self
            → Counts (format_byte front.now f byte) result }
        ensures is { IsCount (length front.now + 1) result }
        ensures few { result.columns ≤ self.columns + 1 }
    {
        let first = step(part, front, byte);
        let count = self.stepped(first);
        if first.is_again {
            count.stepped(step(RowPart::BehindKey, front, byte))
        } else {
            count
        }
    }

    /// What counts behind a step.
    fn stepped(self, step: FormatStep) -> KeyCount
        requires row { self.row ≤ self.columns }
        requires few { self.columns + 1 < 2 ^ 64 }
        ensures value { (f : Format) → Counts f self → Counts (stepped step f) result }
        ensures row { result.row ≤ result.columns }
        ensures few { result.columns ≤ self.columns + 1 }
    {
        self.at(step.place).done(step.does)
    }

    /// It stands there.
    fn at(self, place: FormatPlace) -> KeyCount
        ensures { result ≡ record self { place = place } }
    {
        KeyCount {
            place,
            is_further: self.is_further,
            has_row: self.has_row,
            row: self.row,
            bars: self.bars,
            columns: self.columns,
        }
    }

    /// What counts where this is done.
    fn done(self, does: Does) -> KeyCount
        requires row { self.row ≤ self.columns }
        requires few { self.columns + 1 < 2 ^ 64 }
        ensures value { (f : Format) → Counts f self → Counts (done does f) result }
        ensures row { result.row ≤ result.columns }
        ensures few { result.columns ≤ self.columns + 1 }
    {
        match does {
            Does::AddKey(key) => self.with_key(key),
            Does::AddBar => self.with_bar(),
            Does::EndRow => self.with_whole(),
            Does::EndFormat => self.with_whole().with_end(),
            Does::Nothing => self,
            Does::Separate(_) => self,
            Does::Widen(_) => self,
            Does::Equalize => self,
            Does::DropWidth => self,
            Does::Stand(_) => self,
            Does::LeaveOut(_) => self,
        }
    }

    /// One key more in the row begun.
    fn with_key(self, key: Key) -> KeyCount
        requires row { self.row ≤ self.columns }
        requires few { self.columns + 1 < 2 ^ 64 }
        ensures value { (f : Format) → Counts f self → Counts (with_key key f) result }
        ensures row { result.row ≤ result.columns }
        ensures few { result.columns ≤ self.columns + 1 }
    {
        let count = KeyCount {
            place: self.place,
            is_further: self.is_further,
            has_row: self.has_row,
            row: self.row + 1,
            bars: 0,
            columns: self.columns.max(self.row + 1),
        };
        count.fault_if(self.is_misplaced(key))
    }

    /// Whether a cell of this key would go on from nothing.
    pub(crate) fn is_misplaced(self, key: Key) -> bool
        ensures { (f : Format) → Counts f self → result ≡ is_misplaced key f }
    {
        match key {
            Key::Spanned => self.row == 0,
            Key::Above => !(self.is_further || self.has_row),
            Key::Left => false,
            Key::Right => false,
            Key::Center => false,
            Key::Numeric => false,
            Key::WideNumeric => false,
            Key::Alphabetic => false,
            Key::Rule => false,
            Key::DoubleRule => false,
        }
    }

    /// One bar more.
    fn with_bar(self) -> KeyCount
        ensures value { (f : Format) → Counts f self → Counts (with_bar f) result }
        ensures row { result.row ≡ self.row }
        ensures few { result.columns ≡ self.columns }
    {
        let has_room = self.bars < 2;
        if has_room {
            KeyCount {
                place: self.place,
                is_further: self.is_further,
                has_row: self.has_row,
                row: self.row,
                bars: self.bars + 1,
                columns: self.columns,
            }
        } else {
            self.at(FormatPlace::AtFault)
        }
    }

    /// The row begun is whole, if it has a key.
    fn with_whole(self) -> KeyCount
        ensures value { (f : Format) → Counts f self → Counts (with_whole f) result }
        ensures row { result.row ≤ self.row }
        ensures few { result.columns ≡ self.columns }
    {
        if self.row > 0 {
            KeyCount {
                place: self.place,
                is_further: self.is_further,
                has_row: true,
                row: 0,
                bars: 0,
                columns: self.columns,
            }
        } else {
            self.fault_if(self.bars > 0)
        }
    }

    /// The format ends, which is a fault if no row of it is whole.
    fn with_end(self) -> KeyCount
        ensures value { (f : Format) → Counts f self → Counts (with_end f) result }
        ensures row { result.row ≡ self.row }
        ensures few { result.columns ≡ self.columns }
    {
        self.fault_if(!self.has_row)
    }

    /// There is a fault, if this holds.
    fn fault_if(self, is_fault: bool) -> KeyCount
        ensures value { (f : Format) → Counts f self → Counts (fault_if is_fault f) result }
        ensures row { result.row ≡ self.row }
        ensures few { result.columns ≡ self.columns }
    {
        if is_fault {
            self.at(FormatPlace::AtFault)
        } else {
            self
        }
    }
}

/// The letter of what is left out at a byte of the rows, of which this part is read.
fn left_out_in(part: RowPart, front: &[u8], byte: u8) -> Option<u8>
    requires { IsOnLine (length front.now) part }
    ensures { result ≡ left_out_at (FormatPlace.InRows part) front.now byte }
{
    let first = step(part, front, byte);
    if first.is_again {
        step(RowPart::BehindKey, front, byte).does.left_out()
    } else {
        first.does.left_out()
    }
}
