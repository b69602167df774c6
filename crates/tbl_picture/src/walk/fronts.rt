//! What stands in front of the columns of a row, as a walk gives it.

ghost use Rattle.std.specs.Prelude.{◌≡◌, ℕ, ◌+◌, ◌-◌, ◌<◌, ◌≤◌, ◌^◌, true};
ghost use Rattle.std.specs.Prelude.{List, drop, length};
ghost use Rattle.std.specs.Prelude.{false, []};
ghost use Rattle.tbl_layout.specs.Entries.{up_to_last_glyph};
ghost use Rattle.tbl_lines.specs.RowsLeft.{cell_of_front, first_cell, first_of};
ghost use Rattle.tbl_lines.specs.RowsWalked.{AreGlyphless, HasBars, HasGlyph};
ghost use Rattle.tbl_lines.specs.declared.fronts.Front.TheVariants.{Ruled};
ghost use Rattle.tbl_lines.specs.RowsWalked.{LastHasGlyph};
ghost use Rattle.tbl_picture.specs.Nexts.{AtFront, next_by};
ghost use Rattle.tbl_picture.specs.declared.walk.rules.RuleBegun.{RuleBegun};
ghost use Rattle.tbl_picture.specs.Walks.{CellsLie, LiesInColumns, lent_row, line_cells};
ghost use Rattle.tbl_picture.specs.Walks.{next_behind, next_column};

use super::cells::give;
use super::{Next, Walk};
use input_escapes::OpenEscapes;
use tbl_layout::data_lines::{RuleSign, sign_byte};
use tbl_lines::fronts::{Front, front_at};
use tbl_lines::row_columns::{count_to_glyph, has_glyph_at};
use tbl_lines::row_lent::RowLent;
use tbl_pieces::piece_queue::PieceQueue;
use tbl_pieces::pieces::Piece;
use tbl_text::block_parts::BlockPlace;

/// How many cells of a line are given, with what stands in front of them: up to the last that has a
/// glyph.
pub(super) fn count_given(
    escapes: &mut OpenEscapes,
    row: &RowLent<'_>,
    places: &[BlockPlace],
    line: u32,
) -> usize
    requires lies { LiesInColumns row.now }
    requires cells { CellsLie (lent_row row.now) places.now }
    ensures few { result ≤ length (line_cells (lent_row row.now) line places.now) }
    ensures last { LastHasGlyph result (line_cells (lent_row row.now) line places.now) }
    ensures behind { AreGlyphless (drop result (line_cells (lent_row row.now) line places.now)) }
    ensures room { escapes.new.room ≡ escapes.old.room }
{
    if row.bars.has_any {
        count_to_mark(escapes, row, places, line)
    } else {
        count_to_glyph(escapes, row, places, line)
    }
}

/// How many cells of a line are given, with what stands in front of them, where the picture may
/// have bars: up to the last that has a glyph.
fn count_to_mark(
    escapes: &mut OpenEscapes,
    row: &RowLent<'_>,
    places: &[BlockPlace],
    line: u32,
) -> usize
    requires lies { LiesInColumns row.now }
    requires cells { CellsLie (lent_row row.now) places.now }
    requires any { row.now.bars.has_any ≡ true }
    ensures few { result ≤ length (line_cells (lent_row row.now) line places.now) }
    ensures last { LastHasGlyph result (line_cells (lent_row row.now) line places.now) }
    ensures behind { AreGlyphless (drop result (line_cells (lent_row row.now) line places.now)) }
    ensures room { escapes.new.room ≡ escapes.old.room }
{
    let mut count = places.len() + row.cells().max(1) + 1;
    while count > 0 {
        let last = count - 1;
        if has_mark(escapes, row, places, line, last) {
            return count;
        }
        count = last;
    }
    0
}

/// Whether that has a glyph on a line which stands at this place among its cells and what stands in
/// front of them.
fn has_mark(
    escapes: &mut OpenEscapes,
    row: &RowLent<'_>,
    places: &[BlockPlace],
    line: u32,
    at: usize,
) -> bool
    requires lies { LiesInColumns row.now }
    requires cells { CellsLie (lent_row row.now) places.now }
    requires any { row.now.bars.has_any ≡ true }
    requires within { at < length (line_cells (lent_row row.now) line places.now) }
    ensures yes { result ≡ true
        → HasGlyph (first_of
        (first_cell (drop at (line_cells (lent_row row.now) line places.now)))) }
    ensures no { result ≡ false → up_to_last_glyph
        (first_of (first_cell (drop at (line_cells (lent_row row.now) line places.now)))) ≡ [] }
    ensures room { escapes.new.room ≡ escapes.old.room }
{
    let fields = places.len();
    if at > 2 * fields {
        return front_at(row, at - fields).is_some();
    }
    if at % 2 == 0 {
        return front_at(row, at / 2).is_some();
    }
    has_glyph_at(escapes, row, places, line, at / 2)
}

/// What comes next in front of a column.
pub(super) fn next_column(has_bars: bool, column: usize) -> Next
    ensures { (rule : RuleBegun) → next_by result rule ≡ next_column has_bars column }
{
    if has_bars {
        Next::AtFront(column)
    } else {
        Next::AtCell
    }
}

impl Walk {
    ghost use Rattle.tbl_lines.specs.PictureLines.{bars_at, crossed_at};
    ghost use Rattle.tbl_lines.specs.RowsLeft.{one_less};
    ghost use Rattle.tbl_picture.specs.Walks.{FrontStands, InFront, IsNear, RowSteps};
    ghost use Rattle.tbl_picture.specs.Walks.{front_passed, reached_by};

    /// What stands in front of a column, or behind the last.
    // It is called for each cell of a picture with bars.
    #[inline(always)]
    pub(super) fn give_front(&mut self, pieces: &mut PieceQueue, row: &RowLent<'_>, at: usize)
        requires lies { LiesInColumns row.now }
        requires next { self.old.next ≡ AtFront at }
        requires front { InFront (lent_row row.now) at self.old }
        requires room { pieces.old.taken + 4 ≤ pieces.old.room }
        ensures { (frame : List ℕ)
            → RowSteps frame (lent_row row.now) self.old self.new pieces.old pieces.new }
    {
        match front_at(row, at) {
            Front::Nothing => self.skip_front(row, at),
            Front::Bars(place, bars) => self.give_bars(pieces, row, at, place, bars),
            Front::Ruled(from, sign, place, bars, end) => {
                self.give_ruled_front(pieces, row, at, from, sign, place, bars, end);
            }
            Front::Crossed(place, bars, sign, end) => {
                if self.line == 0 {
                    self.give_crossing(pieces, row, at, place, bars, sign, end);
                } else {
                    self.give_bars(pieces, row, at, place, bars);
                }
            }
        }
    }

    /// So many bars.
    // It is called for each cell of a picture with bars.
    #[inline(always)]
    fn give_bars(
        &mut self,
        pieces: &mut PieceQueue,
        row: &RowLent<'_>,
        at: usize,
        place: usize,
        bars: u8,
    )
        requires lies { LiesInColumns row.now }
        requires next { self.old.next ≡ AtFront at }
        requires front { FrontStands (lent_row row.now) at (bars_at place bars) self.old }
        requires some { 0 < bars }
        requires room { pieces.old.taken + 4 ≤ pieces.old.room }
        ensures { (frame : List ℕ)
            → RowSteps frame (lent_row row.now) self.old self.new pieces.old pieces.new }
    {
        give(pieces, self.count, Piece::Blanks(self.gap_to(place)));
        give(pieces, self.count, Piece::Repeated(b'|', bars as usize));
        self.pass_front(row, at, place, bars as usize);
    }

    /// So many bars that rules of this sign cross, the second of which goes on behind them up to a
    /// place.
    fn give_crossing(
        &mut self,
        pieces: &mut PieceQueue,
        row: &RowLent<'_>,
        at: usize,
        place: usize,
        bars: u8,
        sign: RuleSign,
        end: usize,
    )
        requires lies { LiesInColumns row.now }
        requires next { self.old.next ≡ AtFront at }
        requires front { FrontStands (lent_row row.now) at (crossed_at place bars sign end)
            self.old }
        requires some { 0 < bars }
        requires line { self.old.line ≡ 0 }
        requires room { pieces.old.taken + 4 ≤ pieces.old.room }
        ensures { (frame : List ℕ)
            → RowSteps frame (lent_row row.now) self.old self.new pieces.old pieces.new }
    {
        let crossed = bars as usize;
        let rest = end.saturating_sub(place).saturating_sub(crossed);
        give(pieces, self.count, Piece::Blanks(self.gap_to(place)));
        give(pieces, self.count, Piece::Repeated(b'+', crossed));
        give(pieces, self.count, Piece::Repeated(sign_byte(sign), rest));
        self.pass_front(row, at, place, crossed + rest);
    }

    /// A rule that bars cross, on a line of rules.
    fn give_ruled_front(
        &mut self,
        pieces: &mut PieceQueue,
        row: &RowLent<'_>,
        at: usize,
        from: usize,
        sign: RuleSign,
        place: usize,
        bars: u8,
        end: usize,
    )
        requires lies { LiesInColumns row.now }
        requires next { self.old.next ≡ AtFront at }
        requires front { FrontStands (lent_row row.now) at
            (cell_of_front (Ruled from sign place bars end)) self.old }
        requires some { HasBars (Ruled from sign place bars end) }
        requires room { pieces.old.taken + 4 ≤ pieces.old.room }
        ensures { (frame : List ℕ)
            → RowSteps frame (lent_row row.now) self.old self.new pieces.old pieces.new }
    {
        let crossings = bars as usize;
        let front = place.saturating_sub(from);
        let rest = end.saturating_sub(place).saturating_sub(crossings);
        give(pieces, self.count, Piece::Blanks(self.gap_to(from)));
        give(pieces, self.count, Piece::Repeated(sign_byte(sign), front));
        give(pieces, self.count, Piece::Repeated(b'+', crossings));
        give(pieces, self.count, Piece::Repeated(sign_byte(sign), rest));
        self.pass_front(row, at, from, front + crossings + rest);
    }

    /// What stands in front of a column is given: it begins at a column of the page and has so
    /// many.
    // It is called for each cell of a picture with bars.
    #[inline(always)]
    fn pass_front(&mut self, row: &RowLent<'_>, at: usize, place: usize, width: usize)
        requires lies { LiesInColumns row.now }
        requires near { IsNear self.old.count self.old.place }
        ensures value { self.new ≡ front_passed (lent_row row.now) at
            (reached_by self.old.count self.old.place place width) self.old }
        ensures near { IsNear (one_less self.old.count)
            (reached_by self.old.count self.old.place place width) }
    {
        self.reach(place, width);
        self.skip_front(row, at);
    }

    /// Nothing stands in front of a column.
    fn skip_front(&mut self, row: &RowLent<'_>, at: usize)
        requires { LiesInColumns row.now }
        ensures { self.new ≡ front_passed (lent_row row.now) at self.old.place self.old }
    {
        if self.count > 0 {
            self.count -= 1;
        }
        let is_field = self.behind.len() < self.places.len();
        self.next = next_behind(is_field, at < row.cells().max(1), at);
    }
}

/// What comes next behind what stands in front of a column.
// It is called for each cell of a picture with bars.
#[inline(always)]
fn next_behind(is_field: bool, is_inner: bool, at: usize) -> Next
    requires { is_inner ≡ true → at < 2 ^ 64 - 1 }
    ensures { (rule : RuleBegun) → next_by result rule ≡ next_behind is_field is_inner at }
{
    if is_field || !is_inner {
        Next::AtCell
    } else {
        Next::AtFront(at + 1)
    }
}
