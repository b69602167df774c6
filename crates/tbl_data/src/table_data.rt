//! What is kept of the data of a table while it is read (Lesk, "Tbl": Data).

ghost use Rattle.std.specs.Prelude.{◌≡◌};
ghost use Rattle.tbl_data.specs.OpenBlocks.{had_surplus, is_open};

use input_escapes::OpenEscapes;
use tbl_format::format_rows::FormatRows;
use tbl_kept::rows::TableRows;
use tbl_kept::table_notes::TableNotes;

/// A text block of the data that is open.
#[derive(Clone, Copy)]
pub enum OpenBlock {
    /// None is.
    Nothing,
    /// One that is kept, as the last field of the row that is begun.
    Kept,
    /// One that is dropped, as it stands under a key that says what its fields are, or without a
    /// cell, and whether the row had a field without a cell.
    Dropped(bool),
}

impl OpenBlock {
    /// Whether one is.
    pub fn is_open(self) -> bool
        ensures { result ≡ is_open self }
    {
        match self {
            OpenBlock::Nothing => false,
            OpenBlock::Kept => true,
            OpenBlock::Dropped(_) => true,
        }
    }

    /// Whether one is whose row had a field without a cell.
    pub(crate) fn had_surplus(self) -> bool
        ensures { result ≡ had_surplus self }
    {
        match self {
            OpenBlock::Nothing => false,
            OpenBlock::Kept => false,
            OpenBlock::Dropped(had_surplus) => had_surplus,
        }
    }
}

/// The formats of a table, its rows, and its messages.
#[derive(Drop)]
pub struct TableData {
    /// The formats.
    pub format: FormatRows,
    /// Which of the rows of all formats serves the next row of the data.
    pub keys: usize,
    /// How many rows of rule keys stand directly in front of that.
    pub rules: usize,
    /// The rows and commands, and the fields of the row that is begun.
    pub rows: TableRows,
    /// The text block that is open.
    pub open: OpenBlock,
    /// The messages.
    pub notes: TableNotes,
    /// The escapes of a text: nothing is half read in it between items.
    pub escapes: OpenEscapes,
}
