//! Whether an entry passes an end of its columns (Lesk, "Tbl": Format, the key letter `z`).

ghost use Rattle.std.specs.Prelude.{◌≡◌, ◌+◌, nat_lt};
ghost use Rattle.tbl_layout.specs.Columns.{passes};

use crate::columns::{Column, Stands};
use tbl_format::format::Key;

impl Column {
    /// Whether an entry passes an end of the column where its key puts it: the right one, or the
    /// left one, which the left part of a number may pass.
    pub fn passes(self, key: Key, entry: Stands) -> bool
        ensures { result ≡ passes self key entry }
    {
        match entry {
            Stands::Nowhere => false,
            Stands::Apart(left, right) => {
                let sides = self.needs.left as usize + self.needs.right as usize;
                let units = self.width.saturating_sub(sides) / 2 + self.needs.left as usize;
                units < left as usize || self.width < units + right as usize
            }
            Stands::InStrip(columns) => ends_behind(self.width, self.place_of(key, entry), columns),
            Stands::Alone(columns) => self.width < columns as usize,
        }
    }
}

/// Whether so many columns from a place on end behind so many.
fn ends_behind(width: usize, place: usize, columns: u64) -> bool
    ensures { result ≡ nat_lt width (place + columns) }
{
    width < place || width - place < columns as usize
}
