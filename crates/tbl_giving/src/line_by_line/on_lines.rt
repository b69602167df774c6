//! A line of a picture with cells of several rows: it is given, and ended.

ghost use Rattle.std.specs.Prelude.{◌≡◌, ℕ, ◌+◌, ◌<◌, ◌≤◌, List, drop, false};
ghost use Rattle.tbl_format.specs.RowsServed.{all_rows};

use super::{LineByLine, Place, RuleAt};
use input_escapes::OpenEscapes;
use tbl_format::format_rows::FormatRows;
use tbl_kept::rows::TableRows;
use tbl_layout::bars::Bars;
use tbl_picture::walk::Walk;
use tbl_pieces::piece_queue::PieceQueue;

impl LineByLine {
    ghost use Rattle.tbl_giving.specs.LinesWalked.{CanGo, HasCome, LineGone, LineSteps};
    ghost use Rattle.tbl_giving.specs.LinesWalked.{LineUnderWay, PartGone, StandsAtRule};
    ghost use Rattle.tbl_giving.specs.LinesWalked.{bars_by, row_laid};
    ghost use Rattle.tbl_picture.specs.Walks.{RowEndsOrGoesOn};
    ghost use Rattle.tbl_giving.specs.declared.line_by_line.Place.TheVariants.{OnRow, OnRule};
    ghost use Rattle.tbl_tall.specs.TallRows.{RuleIsNext};

    /// The next pieces of a line of rules.
    pub(super) fn step_on_rule(
        &mut self,
        walk: &mut Walk,
        pieces: &mut PieceQueue,
        escapes: &mut OpenEscapes,
        bytes: &[u8],
        rows: &TableRows,
        format: &FormatRows,
        at: RuleAt,
    )
        requires place { self.old.place ≡ OnRule at }
        requires can { CanGo bytes.now (all_rows format.now.format) rows.now self.old walk.old }
        requires room { pieces.old.taken + 4 ≤ pieces.old.room }
        ensures step { (frame : List ℕ) → LineSteps bytes.now frame
            (all_rows format.now.format) rows.now self.old self.new walk.old walk.new
            pieces.old pieces.new }
        ensures escapes { escapes.new.room ≡ escapes.old.room }
    {
        if self.step_on_line(walk, pieces, escapes, bytes) {
            self.end_rule(escapes, bytes, rows, format, at);
        }
    }

    /// The next pieces of a line of a row.
    pub(super) fn step_on_row(
        &mut self,
        walk: &mut Walk,
        pieces: &mut PieceQueue,
        escapes: &mut OpenEscapes,
        bytes: &[u8],
        rows: &TableRows,
        format: &FormatRows,
    )
        requires place { self.old.place ≡ OnRow }
        requires can { CanGo bytes.now (all_rows format.now.format) rows.now self.old walk.old }
        requires room { pieces.old.taken + 4 ≤ pieces.old.room }
        ensures step { (frame : List ℕ) → LineSteps bytes.now frame
            (all_rows format.now.format) rows.now self.old self.new walk.old walk.new
            pieces.old pieces.new }
        ensures escapes { escapes.new.room ≡ escapes.old.room }
    {
        if self.step_on_line(walk, pieces, escapes, bytes) {
            self.end_row_line(walk, escapes, bytes, rows, format);
        }
    }

    /// The next pieces of the line that is laid. Answers whether they were its last.
    fn step_on_line(
        &self,
        walk: &mut Walk,
        pieces: &mut PieceQueue,
        escapes: &mut OpenEscapes,
        bytes: &[u8],
    ) -> bool
        requires under { LineUnderWay bytes.now self.now walk.old }
        requires room { pieces.old.taken + 4 ≤ pieces.old.room }
        ensures steps { (frame : List ℕ)
            → RowEndsOrGoesOn result frame (row_laid bytes.now self.now)
            walk.old walk.new pieces.old pieces.new }
        ensures full { result ≡ false → pieces.new.room < pieces.new.taken + 4 }
        ensures escapes { escapes.new.room ≡ escapes.old.room }
    {
        let row = self.tall.lent(self.bars_on_line(), self.width, bytes);
        walk.steps_in_row(pieces, escapes, &row)
    }

    /// The picture's bars, on a line of rules or of a row.
    fn bars_on_line(&self) -> Bars
        ensures { result ≡ bars_by self.now.place self.now.bars }
    {
        match self.place {
            Place::OnRule(_) => Bars {
                boxing: self.bars.boxing,
                front: self.bars.front,
                has_any: true,
            },
            _ => self.bars,
        }
    }

    /// A line of rules was given.
    fn end_rule(
        &mut self,
        escapes: &mut OpenEscapes,
        bytes: &[u8],
        rows: &TableRows,
        format: &FormatRows,
        at: RuleAt,
    )
        requires place { self.old.place ≡ OnRule at }
        requires next { RuleIsNext bytes.now (all_rows format.now.format) self.old.tall }
        requires stands { StandsAtRule at (drop self.old.element rows.now.elements) }
        ensures gone { (room : ℕ)
            → HasCome bytes.now (all_rows format.now.format) rows.now self.old room
            → PartGone bytes.now (all_rows format.now.format) rows.now self.old self.new room }
        ensures escapes { escapes.new.room ≡ escapes.old.room }
    {
        let _ = rows.count();
        self.tall
            .pass_rule(escapes, bytes, format, self.bars.boxing);
        match at {
            RuleAt::Top => self.place = Place::AtElement,
            RuleAt::Element => {
                self.element += 1;
                self.place = Place::AtElement;
            }
            RuleAt::InFront => self.place = Place::AtElement,
            RuleAt::End => self.place = Place::AtEnd,
        }
    }

    /// A line of a row was given.
    fn end_row_line(
        &mut self,
        walk: &mut Walk,
        escapes: &mut OpenEscapes,
        bytes: &[u8],
        rows: &TableRows,
        format: &FormatRows,
    )
        requires place { self.old.place ≡ OnRow }
        requires come { HasCome bytes.now (all_rows format.now.format) rows.now self.old
            walk.old.room }
        ensures gone { LineGone bytes.now (all_rows format.now.format) rows.now self.old self.new
            walk.old walk.new }
        ensures escapes { escapes.new.room ≡ escapes.old.room }
    {
        if self.tall.pass_line(escapes, bytes, self.bars.boxing) {
            return self.begin_row_line(walk, escapes, bytes, rows, format);
        }
        rows.stay_few();
        self.tall
            .hand_on(rows, format, self.bars.boxing, self.element);
        self.element += 1;
        self.place = Place::AtElement;
    }
}
