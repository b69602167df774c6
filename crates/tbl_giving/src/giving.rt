//! What is still to give of a table: its bytes as they were read, or its picture.

ghost use Rattle.std.specs.Prelude.{◌≡◌, ◌+◌, ◌*◌, ◌^◌, ◌<◌, ◌≤◌, ◌++◌, [], ◌∷◌, true, length};
ghost use Rattle.std.specs.Prelude.{drop, IfOk};
ghost use Rattle.std.specs.Option.{MatchOption};
ghost use Rattle.tbl_format.specs.FormatRows.{KeptFormat};
ghost use Rattle.tbl_kept.specs.Joined.{RiseWithin, unjoined};
ghost use Rattle.tbl_format.specs.Parts.{IsFront};
ghost use Rattle.tbl_giving.specs.Frame.{picture};
ghost use Rattle.tbl_pieces.specs.PieceQueue.{bytes_left};
ghost use Rattle.tbl_pieces.specs.Pieces.{AreWithin};
ghost use Rattle.tbl_giving.specs.declared.giving.Rest.TheVariants.{Lines};
ghost use Rattle.tbl_kept.specs.Rows.{KeptRows};
ghost use Rattle.tbl_kept.specs.TableText.{KeptText, block_of};

mod cuts;
mod refilling;

use crate::frame::{FRAME, write_frame};
use crate::line_by_line::LineByLine;
use input_escapes::OpenEscapes;
use std::alloc::{AllocError, Global};
use std::marker::Model;
use tbl_format::format_rows::FormatRows;
use tbl_kept::rows::TableRows;
use tbl_kept::table_text::TableText;
use tbl_layout::bars::Bars;
use tbl_picture::walk::{STEP_PIECES, Walk};
use tbl_pieces::piece_queue::PieceQueue;
use tbl_pieces::pieces::Piece;

/// What is to give behind pieces.
#[derive(Clone, Copy)]
pub enum Rest {
    /// Nothing.
    Nothing,
    /// The bytes as they were read, from a place in the block and a joint on.
    Read(usize, usize),
    /// The lines of the picture that the walk has not given, and what stands behind them.
    Lines,
}

/// What is still to give. All its memory is reserved as it is made.
#[derive(Drop)]
pub struct Giving {
    pieces: PieceQueue,
    rest: Rest,
    /// Whether a newline is to give behind all that.
    has_newline: bool,
    walk: Walk,
    /// The walk over a table with cells of several rows, line by line.
    line_by_line: LineByLine,
    /// Whether the table has such cells.
    is_tall: bool,
    /// The requests around the picture, and where those behind it begin.
    frame: Vec<u8>,
    frame_end: usize,
}

impl Model for Giving {
    ghost use Rattle.tbl_giving.specs.Giving.{KeptGiving, kept_by, IsSound};

    ghost Value = { KeptGiving };

    ghost view = { kept_by };

    ghost invariant = { IsSound };
}

impl Giving {
    ghost use Rattle.tbl_giving.specs.Giving.{CanFollow, CanGive, coming, following};
    ghost use Rattle.tbl_giving.specs.Giving.{GivesNothing, IsLaidOut, LinesStart};
    ghost use Rattle.tbl_giving.specs.Giving.{last_piece, lines_laid};
    ghost use Rattle.tbl_giving.specs.Giving.{with_newline};

    /// Nothing to give, with room for a table of so many columns.
    pub fn new(alloc: Global, columns: u32) -> Result<Self, AllocError>
        ensures nothing { IfOk result GivesNothing }
        ensures room { IfOk result (λ g. g.columns ≡ columns) }
    {
        Ok(Giving {
            pieces: PieceQueue::new(alloc, 2 * (columns as usize) + STEP_PIECES)?,
            rest: Rest::Nothing,
            has_newline: false,
            walk: Walk::new(alloc, columns)?,
            line_by_line: LineByLine::new(alloc, columns)?,
            is_tall: false,
            frame: Vec::with_capacity(alloc, FRAME)?,
            frame_end: 0,
        })
    }

    /// No byte is to give.
    #[inline(always)]
    pub fn give_nothing(&mut self)
        ensures nothing { GivesNothing self.new }
        ensures room { self.new.columns ≡ self.old.columns }
    {
        self.pieces.clear();
        self.rest = Rest::Nothing;
        self.has_newline = false;
    }

    /// All bytes are to give, as they were read, and a newline behind them or none.
    pub fn give_read(&mut self, text: &TableText, has_newline: bool)
        ensures coming { (r : KeptRows) (k : KeptFormat) → coming text.now r k self.new
            ≡ with_newline has_newline (text.now.read ++ text.now.line) }
        ensures can { (r : KeptRows) (k : KeptFormat) → CanGive text.now r k self.new }
        ensures room { self.new.columns ≡ self.old.columns }
    {
        let _ = text.joints();
        self.has_newline = has_newline;
        self.refill_read(text, 0, 0);
    }

    /// The picture is to give, indented by so many columns, with these bars and so wide, and the
    /// line begun, and a newline behind it or none.
    pub fn give_picture(
        &mut self,
        _text: &TableText,
        rows: &TableRows,
        format: &FormatRows,
        indent: u32,
        bars: Bars,
        width: usize,
        has_newline: bool,
    )
        requires { IsLaidOut bars width _text.now rows.now format.now self.old.columns }
        ensures coming { coming _text.now rows.now format.now self.new ≡ with_newline has_newline
            (picture indent (lines_laid bars width _text.now rows.now format.now)
            ++ _text.now.line) }
        ensures can { CanGive _text.now rows.now format.now self.new }
        ensures room { self.new.columns ≡ self.old.columns }
    {
        self.frame_end = write_frame(&mut self.frame, indent);
        self.pieces.set_one(Piece::Frame(0, self.frame_end));
        self.rest = Rest::Lines;
        self.has_newline = has_newline;
        self.start_lines(_text, rows, format, bars, width);
    }

    /// No line of the picture is given.
    fn start_lines(
        &mut self,
        _text: &TableText,
        rows: &TableRows,
        format: &FormatRows,
        bars: Bars,
        width: usize,
    )
        requires { IsLaidOut bars width _text.now rows.now format.now self.old.columns }
        ensures starts { LinesStart bars width _text.now rows.now format.now self.old self.new }
    {
        self.is_tall = rows.may_go_on(format);
        if self.is_tall {
            return self.line_by_line.start(rows, format, bars, width);
        }
        self.walk.start(bars, width);
    }

    /// Whether no byte is left to give.
    #[inline(always)]
    pub fn is_given(&self, text: &TableText, rows: &TableRows, format: &FormatRows) -> bool
        requires { CanGive text.now rows.now format.now self.now }
        ensures { result ≡ true → coming text.now rows.now format.now self.now ≡ [] }
    {
        !self.pieces.has_piece()
    }

    /// The next byte to give.
    #[inline(always)]
    pub fn next(
        &mut self,
        escapes: &mut OpenEscapes,
        text: &TableText,
        rows: &TableRows,
        format: &FormatRows,
    ) -> Option<u8>
        requires { CanGive text.now rows.now format.now self.old }
        ensures byte { MatchOption result
            ((coming text.now rows.now format.now self.old ≡ []) × (self.new ≡ self.old))
            (λ b. coming text.now rows.now format.now self.old
            ≡ b ∷ coming text.now rows.now format.now self.new) }
        ensures can { CanGive text.now rows.now format.now self.new }
        ensures room { self.new.columns ≡ self.old.columns }
    {
        let byte = self.pieces.next(text.block(), self.frame.as_slice())?;
        if !self.pieces.has_piece() {
            self.refill(escapes, text, rows, format);
        }
        Some(byte)
    }

    /// The next bytes to give that lie together: some, if any is to come. The rows and the format
    /// are those of the table.
    #[inline(always)]
    pub fn buffered<'a>(
        &'a self,
        text: &'a TableText,
        _rows: &TableRows,
        _format: &FormatRows,
    ) -> &'a [u8]
        requires { CanGive text.now _rows.now _format.now self.now }
        ensures front { IsFront result.now (coming text.now _rows.now _format.now self.now) }
        ensures some { 1 ≤ length (coming text.now _rows.now _format.now self.now)
            → 1 ≤ length result.now }
    {
        self.pieces.buffered(text.block(), self.frame.as_slice())
    }

    /// So many bytes were given.
    #[inline(always)]
    pub fn pass(
        &mut self,
        escapes: &mut OpenEscapes,
        text: &TableText,
        rows: &TableRows,
        format: &FormatRows,
        count: usize,
    )
        requires can { CanGive text.now rows.now format.now self.old }
        requires within { count ≤ length (coming text.now rows.now format.now self.old) }
        ensures coming { coming text.now rows.now format.now self.new
            ≡ drop count (coming text.now rows.now format.now self.old) }
        ensures can { CanGive text.now rows.now format.now self.new }
        ensures room { self.new.columns ≡ self.old.columns }
    {
        let mut left = count;
        while left > 0 {
            left -= self.pass_some(escapes, text, rows, format, left);
        }
    }

    /// Bytes of the first piece were given, so many at most. Answers how many.
    #[inline(always)]
    fn pass_some(
        &mut self,
        escapes: &mut OpenEscapes,
        text: &TableText,
        rows: &TableRows,
        format: &FormatRows,
        most: usize,
    ) -> usize
        requires can { CanGive text.now rows.now format.now self.old }
        requires most { 0 < most }
        requires bytes { 0 < length (coming text.now rows.now format.now self.old) }
        ensures few { result ≤ most }
        ensures some { 0 < result }
        ensures within { result ≤ length (coming text.now rows.now format.now self.old) }
        ensures coming { coming text.now rows.now format.now self.new
            ≡ drop result (coming text.now rows.now format.now self.old) }
        ensures can { CanGive text.now rows.now format.now self.new }
        ensures room { self.new.columns ≡ self.old.columns }
    {
        let count = self.pieces.pass(most);
        if !self.pieces.has_piece() {
            self.refill(escapes, text, rows, format);
        }
        count
    }

    /// Behind the last piece: the pieces that follow.
    fn refill(
        &mut self,
        escapes: &mut OpenEscapes,
        text: &TableText,
        rows: &TableRows,
        format: &FormatRows,
    )
        requires none { self.old.pieces.pieces ≡ [] }
        requires can { CanFollow text.now rows.now format.now self.old }
        ensures coming { coming text.now rows.now format.now self.new
            ≡ following text.now rows.now format.now self.old }
        ensures can { CanGive text.now rows.now format.now self.new }
        ensures room { self.new.columns ≡ self.old.columns }
    {
        match self.rest {
            Rest::Nothing => {}
            Rest::Read(from, joint) => self.refill_read(text, from, joint),
            Rest::Lines => self.refill_lines(escapes, text, rows, format),
        }
    }

    /// The piece that is given at last: a newline, or one without a byte.
    fn last_piece(&self) -> Piece
        ensures { result ≡ last_piece self.now.has_newline }
    {
        if self.has_newline {
            Piece::LineEnd
        } else {
            Piece::Blanks(0)
        }
    }

    /// The pieces of what was read, from there up to the next joint.
    fn refill_read(&mut self, text: &TableText, from: usize, joint: usize)
        requires { RiseWithin (length (block_of text.now)) from (drop joint text.now.joints) }
        ensures coming { (r : KeptRows) (k : KeptFormat) → coming text.now r k self.new
            ≡ with_newline self.old.has_newline
            (unjoined from (block_of text.now) (drop joint text.now.joints)) }
        ensures can { (r : KeptRows) (k : KeptFormat) → CanGive text.now r k self.new }
        ensures room { self.new.columns ≡ self.old.columns }
    {
        match text.joints().get(joint) {
            Some(next) => {
                self.pieces
                    .set_two(Piece::Block(from, next.place), Piece::Joint);
                self.rest = Rest::Read(next.place, joint + 1);
            }
            None => {
                let last = self.last_piece();
                self.pieces
                    .set_two(Piece::Block(from, text.block().len()), last);
                self.rest = Rest::Nothing;
            }
        }
    }

    /// Behind the lines of the picture: the pieces of what stands there.
    fn add_end(&mut self, text: &TableText)
        requires room { self.old.pieces.taken + 3 ≤ self.old.pieces.room }
        requires within { AreWithin (block_of text.now) self.old.frame self.old.pieces.pieces }
        ensures coming { (r : KeptRows) (k : KeptFormat) → coming text.now r k self.new
            ≡ bytes_left (block_of text.now) self.old.frame self.old.pieces ++ with_newline
            self.old.has_newline (drop self.old.frame_end self.old.frame ++ text.now.line) }
        ensures can { (r : KeptRows) (k : KeptFormat) → CanGive text.now r k self.new }
        ensures room { self.new.columns ≡ self.old.columns }
    {
        let last = self.last_piece();
        self.pieces
            .add(Piece::Frame(self.frame_end, self.frame.len()));
        self.pieces
            .add(Piece::Block(text.line_start(), text.block().len()));
        self.pieces.add(last);
        self.rest = Rest::Nothing;
    }
}
