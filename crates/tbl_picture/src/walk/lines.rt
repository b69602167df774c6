//! The words of a block's line, and the ends of lines, as a walk gives them.

ghost use Rattle.std.specs.Prelude.{◌≡◌, ℕ, ◌+◌, ◌<◌, ◌^◌, ◌≤◌, ◌++◌, List, [], length};
ghost use Rattle.std.specs.Prelude.{vec_capacity, vec_len};
ghost use Rattle.tbl_picture.specs.Nexts.{AtCell, AtLine, AtWord};

use super::cells::{end_given, give};
use super::{Next, Walk};
use input_escapes::OpenEscapes;
use tbl_lines::row_columns::block_bytes;
use tbl_lines::row_lent::RowLent;
use tbl_pieces::piece_queue::PieceQueue;
use tbl_pieces::pieces::Piece;
use tbl_text::block_lines::{OnLine, next_on_line};
use tbl_text::block_parts::BlockPlace;
use tbl_text::block_words::BlockWord;

impl Walk {
    ghost use Rattle.tbl_picture.specs.Walks.{InLine, InWord, LiesInColumns, RowEndsOrGoesOn};
    ghost use Rattle.tbl_picture.specs.Walks.{RowSteps};
    ghost use Rattle.tbl_picture.specs.Walks.{lent_entries, lent_row};

    /// A word of a block, whose line is so wide with it, and the blanks in front of the word behind
    /// it, if that goes on with the line.
    pub(super) fn give_word(
        &mut self,
        pieces: &mut PieceQueue,
        escapes: &mut OpenEscapes,
        row: &RowLent<'_>,
        word: BlockWord,
        width: u64,
        place: BlockPlace,
    )
        requires lies { LiesInColumns row.now }
        requires next { self.old.next ≡ AtWord word width place }
        requires word { InWord (lent_row row.now) word width place self.old }
        requires room { pieces.old.taken + 4 ≤ pieces.old.room }
        ensures steps { (frame : List ℕ)
            → RowSteps frame (lent_row row.now) self.old self.new pieces.old pieces.new }
        ensures escapes { escapes.new.room ≡ escapes.old.room }
    {
        let held = self.column(row);
        let block = block_bytes(row.bytes, held.entry);
        let start = held.entry.from as usize + 1;
        let from = start + word.from as usize;
        match next_on_line(
            escapes,
            block,
            place,
            width,
            u64::from(held.entry.measure()),
        ) {
            OnLine::Joins(next, wider, behind) => {
                give(
                    pieces,
                    self.count,
                    Piece::Block(from, start + word.to as usize),
                );
                give(pieces, self.count, Piece::Blanks(next.gap as usize));
                self.next = Next::AtWord(next, wider, behind);
            }
            OnLine::Ends(_) => {
                let end = end_given(self.count, word.glyphs, word.to);
                give(pieces, self.count, Piece::Block(from, start + end as usize));
                self.pass(row, place, held.begins_at(), width as usize);
            }
        }
    }

    /// The line ends. Answers whether it was the row's last.
    pub(super) fn end_line(&mut self, pieces: &mut PieceQueue, row: &RowLent<'_>) -> bool
        requires next { self.old.next ≡ AtCell }
        requires line { InLine (lent_row row.now) self.old }
        requires all { length self.old.behind ≡ length (lent_entries row.now) }
        requires small { row.now.height < 2 ^ 32 }
        requires room { pieces.old.taken + 4 ≤ pieces.old.room }
        ensures { (frame : List ℕ) → RowEndsOrGoesOn result frame (lent_row row.now) self.old
            self.new pieces.old pieces.new }
    {
        pieces.add(Piece::LineEnd);
        std::mem::swap(&mut self.places, &mut self.behind);
        self.line += 1;
        self.next = Next::AtLine;
        self.line == row.height
    }

    /// A line begins whose blocks go on at these places: the line of a row of one line.
    pub fn begin_line_laid(&mut self, places: &[BlockPlace])
        requires { length places.now ≤ self.old.room }
        ensures { self.new ≡ record self.old { line = 0; places = places.now; next = AtLine } }
    {
        self.places.clear();
        push_all(&mut self.places, places);
        self.line = 0;
        self.next = Next::AtLine;
    }
}

/// Adds some places behind others.
fn push_all(places: &mut Vec<BlockPlace>, more: &[BlockPlace])
    requires { vec_len places.old + length more.now ≤ vec_capacity places.old }
    ensures items { places.new.items ≡ places.old.items ++ more.now }
    ensures capacity { vec_capacity places.new ≡ vec_capacity places.old }
{
    for at in 0..more.len() {
        places.push_reserved(more[at]);
    }
}
