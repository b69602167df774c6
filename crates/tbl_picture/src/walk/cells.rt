//! The cells of a line, as a walk gives them.

ghost use Rattle.std.specs.Prelude.{◌≡◌, ℕ, suc, ◌+◌, ◌-◌, ◌<◌, ◌≤◌, List, [], ◌∷◌, ◌++◌};
ghost use Rattle.std.specs.Prelude.{false, length, min, true};
ghost use Rattle.tbl_layout.specs.KeptEntries.{IsBlock};
ghost use Rattle.tbl_layout.specs.declared.entry.EntryKind.TheVariants.{Split, Text};
ghost use Rattle.tbl_pieces.specs.Pieces.{bytes_of, piece_len};
ghost use Rattle.tbl_pieces.specs.PieceQueue.{Adds, KeptPieces};
ghost use Rattle.tbl_lines.specs.RowsLeft.{end_given, if_given};
ghost use Rattle.tbl_lines.specs.RowsWalked.{IsEmptyOn};
ghost use Rattle.tbl_picture.specs.Nexts.{AtCell, AtLine};

use super::fronts::{count_given, next_column};
use super::{Next, Walk};
use input_escapes::OpenEscapes;
use tbl_layout::entry::{EntryKind, SplitEntry};
use tbl_lines::row_columns::{RowColumn, block_bytes, column_at};
use tbl_lines::row_lent::RowLent;
use tbl_pieces::piece_queue::PieceQueue;
use tbl_pieces::pieces::Piece;
use tbl_text::block_parts::{BlockPart, BlockPlace, next_part};

/// Adds a piece where columns are left up to the line's last glyph.
pub(super) fn give(pieces: &mut PieceQueue, count: usize, piece: Piece)
    requires { pieces.old.taken < pieces.old.room }
    ensures adds { (block frame : List ℕ) → length (bytes_of block frame piece) ≡ piece_len piece
        → Adds block frame 1 pieces.old pieces.new (if_given count (bytes_of block frame piece)) }
    ensures few { pieces.new.taken ≤ pieces.old.taken + 1 }
    ensures room { pieces.new.room ≡ pieces.old.room }
{
    if count > 0 {
        pieces.add(piece);
    }
}

/// Where a text ends that is given: the last one of a line up to its last glyph.
pub(super) fn end_given(count: usize, glyphs: u32, to: u32) -> u32
    ensures { result ≡ end_given count glyphs to }
{
    if count == 1 { glyphs.min(to) } else { to }
}

impl Walk {
    ghost use Rattle.tbl_lines.specs.RowsLeft.{one_less};
    ghost use Rattle.tbl_picture.specs.Walks.{AtColumn, BeforeLine, InLine, IsNear, LiesInColumns};
    ghost use Rattle.tbl_picture.specs.Walks.{RowSteps, at_word, lent_entries, lent_row, passed};
    ghost use Rattle.tbl_picture.specs.Walks.{reached_by};

    /// A line begins.
    pub(super) fn begin_line(
        &mut self,
        pieces: &mut PieceQueue,
        escapes: &mut OpenEscapes,
        row: &RowLent<'_>,
    )
        requires lies { LiesInColumns row.now }
        requires next { self.old.next ≡ AtLine }
        requires before { BeforeLine (lent_row row.now) self.old }
        requires room { pieces.old.taken + 4 ≤ pieces.old.room }
        ensures steps { (frame : List ℕ)
            → RowSteps frame (lent_row row.now) self.old self.new pieces.old pieces.new }
        ensures escapes { escapes.new.room ≡ escapes.old.room }
    {
        self.count = count_given(escapes, row, self.places.as_slice(), self.line);
        self.behind.clear();
        self.place = 0;
        self.next = next_column(row.bars.has_any, 0);
        pieces.add(Piece::LineFront);
    }

    /// A text is given that begins at a column of the page, or where the line is reached, and has
    /// so many. Where nothing is given any more, the place stays.
    pub(super) fn reach(&mut self, at: usize, width: usize)
        requires { IsNear self.old.count self.old.place }
        ensures place { self.new ≡ record self.old {
          place = reached_by self.old.count self.old.place at width;
        } }
        ensures near { IsNear (one_less self.old.count)
            (reached_by self.old.count self.old.place at width) }
    {
        if self.count > 0 {
            self.place = self.place.max(at as u128) + width as u128;
        }
    }

    /// A column is given: a text that begins at a column of the page and has so many, and its block
    /// goes on at a place.
    pub(super) fn pass(&mut self, row: &RowLent<'_>, block: BlockPlace, at: usize, width: usize)
        requires free { length self.old.behind < self.old.room }
        requires near { IsNear self.old.count self.old.place }
        ensures value { self.new ≡ passed row.now.bars.has_any block
            (reached_by self.old.count self.old.place at width) self.old }
        ensures near { IsNear (one_less self.old.count)
            (reached_by self.old.count self.old.place at width) }
    {
        self.reach(at, width);
        self.skip(row, block);
    }

    /// A column is given of which nothing stands on the line, and its block goes on at a place.
    pub(super) fn skip(&mut self, row: &RowLent<'_>, block: BlockPlace)
        requires { length self.old.behind < self.old.room }
        ensures { self.new ≡ passed row.now.bars.has_any block self.old.place self.old }
    {
        self.behind.push_reserved(block);
        if self.count > 0 {
            self.count -= 1;
        }
        self.next = next_column(row.bars.has_any, self.behind.len());
    }

    /// How many columns of the page there are up to one from the place that is reached.
    pub(super) fn gap_to(&self, at: usize) -> usize
        ensures { result ≡ at - self.now.place }
    {
        (at as u128).saturating_sub(self.place) as usize
    }

    /// The column at which the walk stands, which has a field in it.
    // It is called for each cell.
    #[inline(always)]
    pub(super) fn column(&self, row: &RowLent<'_>) -> RowColumn
        requires lies { LiesInColumns row.now }
        requires line { InLine (lent_row row.now) self.now }
        requires given { length self.now.behind < length row.now.entries.now }
        ensures { AtColumn (lent_row row.now) self.now result }
    {
        column_at(row, self.places.as_slice(), self.behind.len())
    }

    /// Whether that column has a field in it.
    // It is called for each cell.
    #[inline(always)]
    fn has_field(&self, row: &RowLent<'_>) -> bool
        ensures yes { result ≡ true → length self.now.behind < length row.now.entries.now }
        ensures no { result ≡ false → length row.now.entries.now ≤ length self.now.behind }
    {
        self.behind.len() < row.entries.len()
    }

    /// What that field is.
    // It is called for each cell.
    #[inline(always)]
    fn kind(&self, row: &RowLent<'_>) -> EntryKind
        requires given { length self.now.behind < length row.now.entries.now }
        ensures { (held : RowColumn) → AtColumn (lent_row row.now) self.now held
            → result ≡ held.entry.kind }
    {
        row.entries[self.behind.len()].kind
    }

    /// A cell of the line.
    pub(super) fn give_cell(
        &mut self,
        pieces: &mut PieceQueue,
        escapes: &mut OpenEscapes,
        row: &RowLent<'_>,
    )
        requires lies { LiesInColumns row.now }
        requires next { self.old.next ≡ AtCell }
        requires line { InLine (lent_row row.now) self.old }
        requires left { length self.old.behind < length (lent_entries row.now) }
        requires room { pieces.old.taken + 4 ≤ pieces.old.room }
        ensures steps { (frame : List ℕ)
            → RowSteps frame (lent_row row.now) self.old self.new pieces.old pieces.new }
        ensures escapes { escapes.new.room ≡ escapes.old.room }
    {
        if !self.has_field(row) {
            return self.give_unfilled(pieces, row);
        }
        match self.kind(row) {
            EntryKind::Text(glyphs, width) => self.give_text(pieces, row, glyphs, width),
            EntryKind::Split(split) => self.give_split(pieces, row, split),
            EntryKind::Block(_) => self.begin_block_line(pieces, escapes, row),
            EntryKind::Ruled(sign) => self.give_rule_over(pieces, row, sign),
            EntryKind::Short => self.give_short_rule(pieces, row),
            EntryKind::Repeated(byte) => self.give_byte(pieces, row, byte),
            EntryKind::Above => self.pass_empty(row),
        }
    }

    /// Nothing of a column's field stands on the line.
    pub(super) fn pass_empty(&mut self, row: &RowLent<'_>)
        requires next { self.old.next ≡ AtCell }
        requires line { InLine (lent_row row.now) self.old }
        requires left { length self.old.behind < length (lent_entries row.now) }
        requires empty { (held : RowColumn) → AtColumn (lent_row row.now) self.old held
            → IsEmptyOn row.now.bytes.now self.old.line held }
        ensures { (frame : List ℕ) (pieces : KeptPieces)
            → RowSteps frame (lent_row row.now) self.old self.new pieces pieces }
    {
        let place = self.places[self.behind.len()];
        self.skip(row, place);
    }

    /// A text.
    fn give_text(&mut self, pieces: &mut PieceQueue, row: &RowLent<'_>, glyphs: u32, width: u32)
        requires lies { LiesInColumns row.now }
        requires next { self.old.next ≡ AtCell }
        requires line { InLine (lent_row row.now) self.old }
        requires given { length self.old.behind < length row.now.entries.now }
        requires kind { (held : RowColumn) → AtColumn (lent_row row.now) self.old held
            → held.entry.kind ≡ Text glyphs width }
        requires room { pieces.old.taken + 4 ≤ pieces.old.room }
        ensures { (frame : List ℕ)
            → RowSteps frame (lent_row row.now) self.old self.new pieces.old pieces.new }
    {
        let held = self.column(row);
        if self.line != 0 || held.entry.from == held.entry.to {
            return self.pass_empty(row);
        }
        let at = held.begins_at();
        let to = end_given(self.count, glyphs, held.entry.to);
        give(pieces, self.count, Piece::Blanks(self.gap_to(at)));
        give(
            pieces,
            self.count,
            Piece::Block(held.entry.from as usize, to as usize),
        );
        self.pass(row, held.place, at, width as usize);
    }

    /// A number that is split.
    fn give_split(&mut self, pieces: &mut PieceQueue, row: &RowLent<'_>, split: SplitEntry)
        requires lies { LiesInColumns row.now }
        requires next { self.old.next ≡ AtCell }
        requires line { InLine (lent_row row.now) self.old }
        requires given { length self.old.behind < length row.now.entries.now }
        requires kind { (held : RowColumn) → AtColumn (lent_row row.now) self.old held
            → held.entry.kind ≡ Split split }
        requires room { pieces.old.taken + 4 ≤ pieces.old.room }
        ensures { (frame : List ℕ)
            → RowSteps frame (lent_row row.now) self.old self.new pieces.old pieces.new }
    {
        if self.line != 0 {
            return self.pass_empty(row);
        }
        let held = self.column(row);
        let at = held.begins_at();
        let to = end_given(self.count, split.glyphs, held.entry.to);
        give(pieces, self.count, Piece::Blanks(self.gap_to(at)));
        give(
            pieces,
            self.count,
            Piece::Block(held.entry.from as usize, split.end.min(to) as usize),
        );
        give(
            pieces,
            self.count,
            Piece::Block(split.behind as usize, to as usize),
        );
        self.pass(row, held.place, at, split.width as usize);
    }

    /// The line of a block begins, or the block has none there.
    fn begin_block_line(
        &mut self,
        pieces: &mut PieceQueue,
        escapes: &mut OpenEscapes,
        row: &RowLent<'_>,
    )
        requires lies { LiesInColumns row.now }
        requires next { self.old.next ≡ AtCell }
        requires line { InLine (lent_row row.now) self.old }
        requires given { length self.old.behind < length row.now.entries.now }
        requires kind { (held : RowColumn) → AtColumn (lent_row row.now) self.old held
            → IsBlock held.entry.kind }
        requires room { pieces.old.taken + 4 ≤ pieces.old.room }
        ensures steps { (frame : List ℕ)
            → RowSteps frame (lent_row row.now) self.old self.new pieces.old pieces.new }
        ensures escapes { escapes.new.room ≡ escapes.old.room }
    {
        let held = self.column(row);
        let block = block_bytes(row.bytes, held.entry);
        match next_part(escapes, block, held.place) {
            Some((BlockPart::Word(word), behind)) => {
                let at = held.begins_at();
                give(pieces, self.count, Piece::Blanks(self.gap_to(at)));
                give(pieces, self.count, Piece::Blanks(word.leading() as usize));
                self.next = Next::AtWord(word, word.begun_width(), behind);
            }
            Some((BlockPart::EmptyLine, behind)) => self.skip(row, behind),
            None => self.skip(row, BlockPlace::AtEnd),
        }
    }
}
