//! A walk over the picture of a table with cells of several rows: each of its lines is laid, and
//! given as a row of one line (Lesk, "Tbl": Formatting).

ghost use Rattle.std.specs.Prelude.{◌≡◌, ℕ, ◌+◌, ◌<◌, ◌≤◌, IfOk, List, [], ◌==◌, drop, length, ◌^◌};
ghost use Rattle.std.specs.List.{AllByRecursion};
ghost use Rattle.tbl_format.specs.RowsServed.{all_rows};
ghost use Rattle.tbl_kept.specs.Rows.{RowsLaid, elements_of};
ghost use Rattle.tbl_lines.specs.PictureLeft.{table_lines};
ghost use Rattle.tbl_lines.specs.RowsWalked.{AreNarrow};
ghost use Rattle.tbl_lines.specs.RulePlaces.{HavePlaces};
ghost use Rattle.tbl_giving.specs.LinesWalked.{place_first};
ghost use Rattle.tbl_lines.specs.PictureLines.{Sheet};

mod on_lines;

use crate::cuts::{Drawn, count_cut};
use input_escapes::OpenEscapes;
use std::alloc::{AllocError, Global};
use std::marker::Model;
use tbl_format::format_rows::FormatRows;
use tbl_kept::rows::{Lent, TableRows};
use tbl_layout::bars::Bars;
use tbl_layout::data_lines::RuleSign;
use tbl_options::options::Boxing;
use tbl_picture::walk::Walk;
use tbl_picture::walk::rules::frame_sign;
use tbl_pieces::piece_queue::PieceQueue;
use tbl_pieces::pieces::Piece;
use tbl_tall::tall_row::TallRow;

/// What comes next.
#[derive(Clone, Copy)]
pub enum Place {
    /// The rule above everything, of a picture that is boxed.
    AtTop,
    /// An element, or a rule that the box adds in front of it, or the rule behind all.
    AtElement,
    /// A line of rules.
    OnRule(RuleAt),
    /// A line of a row.
    OnRow,
    /// Nothing.
    AtEnd,
}

/// Where a line of rules stands.
#[derive(Clone, Copy)]
pub enum RuleAt {
    /// Above everything.
    Top,
    /// It is an element.
    Element,
    /// In front of a row.
    InFront,
    /// Behind everything.
    End,
}

/// How far the picture was given. All its memory is reserved as it is made.
#[derive(Drop)]
pub struct LineByLine {
    element: usize,
    place: Place,
    tall: TallRow,
    bars: Bars,
    width: usize,
}

impl Model for LineByLine {
    ghost use Rattle.tbl_giving.specs.LinesWalked.{KeptLineByLine, kept_by};

    ghost Value = { KeptLineByLine };

    ghost view = { kept_by };
}

impl LineByLine {
    ghost use Rattle.tbl_giving.specs.LinesWalked.{CanGo, HasCome, LineBegins};
    ghost use Rattle.tbl_picture.specs.RulesWalked.{IsRowFirst};
    ghost use Rattle.tbl_giving.specs.LinesWalked.{LineSteps, LineStepsIf, RulesPlaced};
    ghost use Rattle.tbl_giving.specs.LinesWalked.{SignTold, lines_to_come};
    ghost use Rattle.tbl_picture.specs.Walks.{KeptWalk};
    ghost use Rattle.tbl_pieces.specs.PieceQueue.{KeptPieces};
    ghost use Rattle.tbl_tall.specs.Bands.{wholes_left};
    ghost use Rattle.tbl_tall.specs.TallRows.{RowsLie};
    ghost use Rattle.tbl_giving.specs.declared.line_by_line.Place.TheVariants.{AtElement};
    ghost use Rattle.tbl_giving.specs.declared.line_by_line.Place.TheVariants.{OnRow, OnRule};

    /// Room for tables of so many columns at the most.
    pub fn new(alloc: Global, columns: u32) -> Result<Self, AllocError>
        ensures { IfOk result (λ g. g.tall.room ≡ columns) }
    {
        Ok(LineByLine {
            element: 0,
            place: Place::AtEnd,
            tall: TallRow::new(alloc, columns as usize)?,
            bars: Bars::NOTHING,
            width: 0,
        })
    }

    /// Nothing of the picture is given, which has these bars and is so wide.
    pub fn start(&mut self, rows: &TableRows, format: &FormatRows, bars: Bars, width: usize)
        requires lie { RowsLie (all_rows format.now.format) rows.now }
        requires some { 0 < length rows.now.columns }
        requires room { length rows.now.columns ≤ self.old.tall.room }
        ensures lines { (bytes : List ℕ) (w : KeptWalk)
            → let s : Sheet = record { bars = bars; width = width; columns = rows.now.columns } in
            HavePlaces (all_rows format.now.format) s
            → RowsLaid bytes (all_rows format.now.format) bars.boxing.is_inside rows.now
            → lines_to_come bytes (all_rows format.now.format) rows.now self.new w
            ≡ table_lines s (elements_of bytes (all_rows format.now.format) rows.now.elements) }
        ensures can { (bytes : List ℕ) (w : KeptWalk)
            → let s : Sheet = record { bars = bars; width = width; columns = rows.now.columns } in
            HavePlaces (all_rows format.now.format) s
            → RowsLaid bytes (all_rows format.now.format) bars.boxing.is_inside rows.now
            → AreNarrow rows.now.columns → width < 2 ^ 32
            → AllByRecursion (RulesPlaced (all_rows format.now.format) s) rows.now.elements
            → length rows.now.columns ≤ w.room
            → CanGo bytes (all_rows format.now.format) rows.now self.new w }
        ensures room { self.new.tall.room ≡ self.old.tall.room }
    {
        self.element = 0;
        self.place = first_place(bars.boxing);
        self.bars = bars;
        self.width = width;
        self.tall.start(rows, format, bars.boxing);
    }

    /// Adds the next pieces. Answers whether there were some to come.
    pub fn step(
        &mut self,
        walk: &mut Walk,
        pieces: &mut PieceQueue,
        escapes: &mut OpenEscapes,
        bytes: &[u8],
        rows: &TableRows,
        format: &FormatRows,
    ) -> bool
        requires can { CanGo bytes.now (all_rows format.now.format) rows.now self.old walk.old }
        requires room { pieces.old.taken + 4 ≤ pieces.old.room }
        ensures step { (frame : List ℕ) → LineStepsIf result bytes.now frame
            (all_rows format.now.format) rows.now self.old self.new walk.old walk.new
            pieces.old pieces.new }
        ensures escapes { escapes.new.room ≡ escapes.old.room }
    {
        match self.place {
            Place::AtTop => {
                let sign = frame_sign(self.bars.boxing.bars);
                self.begin_rule(walk, escapes, bytes, rows, format, Some(sign), RuleAt::Top);
                true
            }
            Place::AtElement => self.step_at_element(walk, pieces, escapes, bytes, rows, format),
            Place::OnRule(at) => {
                self.step_on_rule(walk, pieces, escapes, bytes, rows, format, at);
                true
            }
            Place::OnRow => {
                self.step_on_row(walk, pieces, escapes, bytes, rows, format);
                true
            }
            Place::AtEnd => false,
        }
    }

    fn step_at_element(
        &mut self,
        walk: &mut Walk,
        pieces: &mut PieceQueue,
        escapes: &mut OpenEscapes,
        bytes: &[u8],
        rows: &TableRows,
        format: &FormatRows,
    ) -> bool
        requires place { self.old.place ≡ AtElement }
        requires can { CanGo bytes.now (all_rows format.now.format) rows.now self.old walk.old }
        requires room { pieces.old.taken + 4 ≤ pieces.old.room }
        ensures step { (frame : List ℕ) → LineStepsIf result bytes.now frame
            (all_rows format.now.format) rows.now self.old self.new walk.old walk.new
            pieces.old pieces.new }
        ensures escapes { escapes.new.room ≡ escapes.old.room }
    {
        if self.element >= rows.count() {
            return self.step_behind_all(walk, escapes, bytes, rows, format);
        }
        match rows.element(self.element) {
            Lent::Command(from, to) => {
                pieces.add(Piece::Block(from, to));
                pieces.add(Piece::LineEnd);
                self.element += 1;
                true
            }
            Lent::Rule(sign) => {
                self.begin_rule(
                    walk,
                    escapes,
                    bytes,
                    rows,
                    format,
                    Some(sign),
                    RuleAt::Element,
                );
                true
            }
            Lent::Row(_, _, _, _) => {
                self.step_at_row(walk, escapes, bytes, rows, format);
                true
            }
        }
    }

    /// Behind all elements: the rule there, if the picture is boxed.
    fn step_behind_all(
        &mut self,
        walk: &mut Walk,
        escapes: &mut OpenEscapes,
        bytes: &[u8],
        rows: &TableRows,
        format: &FormatRows,
    ) -> bool
        requires place { self.old.place ≡ AtElement }
        requires can { CanGo bytes.now (all_rows format.now.format) rows.now self.old walk.old }
        requires none { drop self.old.element rows.now.elements ≡ [] }
        ensures step { (frame : List ℕ) (pieces : KeptPieces) → LineStepsIf result bytes.now frame
            (all_rows format.now.format) rows.now self.old self.new walk.old walk.new
            pieces pieces }
        ensures escapes { escapes.new.room ≡ escapes.old.room }
    {
        let bars = self.bars.boxing.bars;
        if bars == 0 {
            return false;
        }
        let sign = frame_sign(bars);
        self.begin_rule(walk, escapes, bytes, rows, format, Some(sign), RuleAt::End);
        true
    }

    /// A row comes next, or a line of rules in front of it.
    fn step_at_row(
        &mut self,
        walk: &mut Walk,
        escapes: &mut OpenEscapes,
        bytes: &[u8],
        rows: &TableRows,
        format: &FormatRows,
    )
        requires place { self.old.place ≡ AtElement }
        requires can { CanGo bytes.now (all_rows format.now.format) rows.now self.old walk.old }
        requires row { IsRowFirst (drop self.old.element rows.now.elements) }
        ensures step { (frame : List ℕ) (pieces : KeptPieces) → LineSteps bytes.now frame
            (all_rows format.now.format) rows.now self.old self.new walk.old walk.new
            pieces pieces }
        ensures escapes { escapes.new.room ≡ escapes.old.room }
    {
        let wholes = self.tall.wholes_left();
        if wholes > 0 {
            let sign = Some(RuleSign::Single);
            return self.begin_rule(walk, escapes, bytes, rows, format, sign, RuleAt::InFront);
        }
        self.step_at_keys(walk, escapes, bytes, rows, format);
    }

    /// A row comes next, or a line of rule keys in front of it.
    fn step_at_keys(
        &mut self,
        walk: &mut Walk,
        escapes: &mut OpenEscapes,
        bytes: &[u8],
        rows: &TableRows,
        format: &FormatRows,
    )
        requires place { self.old.place ≡ AtElement }
        requires can { CanGo bytes.now (all_rows format.now.format) rows.now self.old walk.old }
        requires row { IsRowFirst (drop self.old.element rows.now.elements) }
        requires none { wholes_left self.old.tall.band ≡ 0 }
        ensures step { (frame : List ℕ) (pieces : KeptPieces) → LineSteps bytes.now frame
            (all_rows format.now.format) rows.now self.old self.new walk.old walk.new
            pieces pieces }
        ensures escapes { escapes.new.room ≡ escapes.old.room }
    {
        if self.tall.has_rule() {
            return self.begin_rule(walk, escapes, bytes, rows, format, None, RuleAt::InFront);
        }
        self.begin_row_line(walk, escapes, bytes, rows, format);
    }

    /// A line of rules is laid and begins, over the whole picture with a sign, or of rule keys.
    fn begin_rule(
        &mut self,
        walk: &mut Walk,
        escapes: &mut OpenEscapes,
        bytes: &[u8],
        rows: &TableRows,
        format: &FormatRows,
        whole: Option<RuleSign>,
        at: RuleAt,
    )
        requires come { HasCome bytes.now (all_rows format.now.format) rows.now
            (record self.old { place = OnRule at }) walk.old.room }
        requires sign { SignTold whole bytes.now (all_rows format.now.format) rows.now
            (record self.old { place = OnRule at }) }
        ensures begins { LineBegins bytes.now (all_rows format.now.format) rows.now
            (record self.old { place = OnRule at }) self.new walk.old walk.new }
        ensures escapes { escapes.new.room ≡ escapes.old.room }
    {
        self.tall.lay_rule(
            escapes,
            bytes,
            format,
            rows.columns(),
            self.bars,
            whole,
            self.width,
        );
        walk.begin_line_laid(self.tall.places());
        self.place = Place::OnRule(at);
    }

    /// A line of the row is laid and begins.
    fn begin_row_line(
        &mut self,
        walk: &mut Walk,
        escapes: &mut OpenEscapes,
        bytes: &[u8],
        rows: &TableRows,
        _format: &FormatRows,
    )
        requires come { HasCome bytes.now (all_rows _format.now.format) rows.now
            (record self.old { place = OnRow }) walk.old.room }
        ensures begins { LineBegins bytes.now (all_rows _format.now.format) rows.now
            (record self.old { place = OnRow }) self.new walk.old walk.new }
        ensures escapes { escapes.new.room ≡ escapes.old.room }
    {
        self.tall
            .lay_row(escapes, bytes, rows.columns(), self.bars, self.width);
        walk.begin_line_laid(self.tall.places());
        self.place = Place::OnRow;
    }
}

impl LineByLine {
    ghost use Rattle.tbl_giving.specs.CutsCounted.{CanCount};
    ghost use Rattle.tbl_lines.specs.CutEntries.{cut_entries};

    /// In how many entries of the picture something is cut, which has these bars and is so wide.
    pub fn count_cut(
        &mut self,
        escapes: &mut OpenEscapes,
        bytes: &[u8],
        rows: &TableRows,
        format: &FormatRows,
        bars: Bars,
        width: usize,
    ) -> usize
        requires { CanCount bytes.now (all_rows format.now.format)
            (record { bars = bars; width = width; columns = rows.now.columns }) rows.now
            self.old.tall.room }
        ensures count { let s : Sheet = record {
          bars = bars;
          width = width;
          columns = rows.now.columns;
        } in
            result ≡ cut_entries s (elements_of bytes.now (all_rows format.now.format)
            rows.now.elements) }
        ensures room { self.new.tall.room ≡ self.old.tall.room }
    {
        count_cut(
            &mut self.tall,
            escapes,
            Drawn { bytes, bars, width },
            rows,
            format,
        )
    }
}

/// What comes first of a picture.
fn first_place(boxing: Boxing) -> Place
    ensures { result ≡ place_first (boxing.bars == 0) }
{
    if boxing.bars == 0 {
        Place::AtElement
    } else {
        Place::AtTop
    }
}
