//! The cells of a line that are drawn, as a walk gives them: rules, and bytes that are repeated.

ghost use Rattle.std.specs.Prelude.{◌≡◌, ℕ, ◌+◌, ◌<◌, ◌≤◌, List, length};
ghost use Rattle.tbl_layout.specs.declared.entry.EntryKind.TheVariants.{Repeated, Ruled, Short};
ghost use Rattle.tbl_lines.specs.RowsWalked.{Repeats};
ghost use Rattle.tbl_picture.specs.Nexts.{AtCell};

use super::Walk;
use super::cells::give;
use tbl_layout::data_lines::{RuleSign, sign_byte};
use tbl_layout::entry::EntryKind;
use tbl_lines::row_columns::{RowColumn, column_behind};
use tbl_lines::row_lent::RowLent;
use tbl_pieces::piece_queue::PieceQueue;
use tbl_pieces::pieces::Piece;

impl Walk {
    ghost use Rattle.tbl_picture.specs.Walks.{AtColumn, InLine, LiesInColumns, RowSteps};
    ghost use Rattle.tbl_picture.specs.Walks.{lent_entries, lent_row};

    /// A rule over the cell's columns.
    // Such a cell is rare.
    #[inline(never)]
    pub(super) fn give_rule_over(
        &mut self,
        pieces: &mut PieceQueue,
        row: &RowLent<'_>,
        sign: RuleSign,
    )
        requires lies { LiesInColumns row.now }
        requires next { self.old.next ≡ AtCell }
        requires line { InLine (lent_row row.now) self.old }
        requires given { length self.old.behind < length row.now.entries.now }
        requires kind { (held : RowColumn) → AtColumn (lent_row row.now) self.old held
            → held.entry.kind ≡ Ruled sign }
        requires room { pieces.old.taken + 4 ≤ pieces.old.room }
        ensures { (frame : List ℕ)
            → RowSteps frame (lent_row row.now) self.old self.new pieces.old pieces.new }
    {
        let held = self.column(row);
        self.give_repeated(pieces, row, held, sign_byte(sign), held.rule_width());
    }

    /// A rule as wide as its column's widest entry.
    // Such a cell is rare.
    #[inline(never)]
    pub(super) fn give_short_rule(&mut self, pieces: &mut PieceQueue, row: &RowLent<'_>)
        requires lies { LiesInColumns row.now }
        requires next { self.old.next ≡ AtCell }
        requires line { InLine (lent_row row.now) self.old }
        requires given { length self.old.behind < length row.now.entries.now }
        requires kind { (held : RowColumn) → AtColumn (lent_row row.now) self.old held
            → held.entry.kind ≡ Short }
        requires room { pieces.old.taken + 4 ≤ pieces.old.room }
        ensures { (frame : List ℕ)
            → RowSteps frame (lent_row row.now) self.old self.new pieces.old pieces.new }
    {
        let held = self.column(row);
        let count = held.column.needs.widest_entry();
        self.give_repeated(pieces, row, held, sign_byte(RuleSign::Single), count);
    }

    /// A byte that is repeated over the column.
    // Such a cell is rare.
    #[inline(never)]
    pub(super) fn give_byte(&mut self, pieces: &mut PieceQueue, row: &RowLent<'_>, byte: u8)
        requires lies { LiesInColumns row.now }
        requires next { self.old.next ≡ AtCell }
        requires line { InLine (lent_row row.now) self.old }
        requires given { length self.old.behind < length row.now.entries.now }
        requires kind { (held : RowColumn) → AtColumn (lent_row row.now) self.old held
            → held.entry.kind ≡ Repeated byte }
        requires room { pieces.old.taken + 4 ≤ pieces.old.room }
        ensures { (frame : List ℕ)
            → RowSteps frame (lent_row row.now) self.old self.new pieces.old pieces.new }
    {
        let held = self.column(row);
        self.give_repeated(pieces, row, held, byte, held.column.width);
    }

    /// A cell of the line behind the last field: the rule of a rule key, or nothing.
    // Such a cell is rare.
    #[inline(never)]
    pub(super) fn give_unfilled(&mut self, pieces: &mut PieceQueue, row: &RowLent<'_>)
        requires lies { LiesInColumns row.now }
        requires next { self.old.next ≡ AtCell }
        requires line { InLine (lent_row row.now) self.old }
        requires left { length self.old.behind < length (lent_entries row.now) }
        requires unfilled { length row.now.entries.now ≤ length self.old.behind }
        requires room { pieces.old.taken + 4 ≤ pieces.old.room }
        ensures { (frame : List ℕ)
            → RowSteps frame (lent_row row.now) self.old self.new pieces.old pieces.new }
    {
        let held = self.any_column(row);
        match held.entry.kind {
            EntryKind::Ruled(sign) => {
                self.give_repeated(pieces, row, held, sign_byte(sign), held.rule_width());
            }
            _ => self.pass_empty(row),
        }
    }

    /// The column at which the walk stands, also behind the last field.
    fn any_column(&self, row: &RowLent<'_>) -> RowColumn
        requires lies { LiesInColumns row.now }
        requires line { InLine (lent_row row.now) self.now }
        requires left { length self.now.behind < length (lent_entries row.now) }
        ensures { AtColumn (lent_row row.now) self.now result }
    {
        column_behind(row, self.places.as_slice(), self.behind.len())
    }

    /// A byte that is repeated so often, on the first line of its row.
    fn give_repeated(
        &mut self,
        pieces: &mut PieceQueue,
        row: &RowLent<'_>,
        held: RowColumn,
        byte: u8,
        count: usize,
    )
        requires next { self.old.next ≡ AtCell }
        requires at { AtColumn (lent_row row.now) self.old held }
        requires repeats { Repeats byte count held }
        requires room { pieces.old.taken + 4 ≤ pieces.old.room }
        ensures { (frame : List ℕ)
            → RowSteps frame (lent_row row.now) self.old self.new pieces.old pieces.new }
    {
        if self.line != 0 {
            return self.skip(row, held.place);
        }
        let at = held.begins_at();
        give(pieces, self.count, Piece::Blanks(self.gap_to(at)));
        give(pieces, self.count, Piece::Repeated(byte, count));
        self.pass(row, held.place, at, count);
    }
}
