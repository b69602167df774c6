//! A walk over the lines of a table's picture, one step of pieces behind the other (Lesk, "Tbl":
//! Formatting).

ghost use Rattle.std.specs.Prelude.{◌≡◌, ℕ, ◌+◌, ◌<◌, ◌≤◌, ◌^◌, List, IfOk, false, length};
ghost use Rattle.tbl_format.specs.Format.{FormatRow};
ghost use Rattle.tbl_format.specs.RowsServed.{all_rows};
ghost use Rattle.tbl_kept.specs.Rows.{KeptRows, RowsLaid, elements_of};
ghost use Rattle.tbl_picture.specs.ElementsWalked.{first_next};
ghost use Rattle.tbl_picture.specs.Nexts.{next_by};
ghost use Rattle.tbl_lines.specs.PictureLines.{picture_lines};
ghost use Rattle.std.specs.Prelude.{◌++◌, map, vec_capacity, vec_len};
ghost use Rattle.tbl_pieces.specs.Pieces.{AreWithin};
ghost use Rattle.tbl_layout.specs.KeptEntries.{all_entries};
ghost use Rattle.tbl_picture.specs.Walks.{first_place};

use beside::Beside;
use input_escapes::OpenEscapes;
use rules::{RuleBegun, frame_sign};
use std::alloc::{AllocError, Global};
use std::marker::Model;
use tbl_format::format::FormatKey;
use tbl_format::format_rows::FormatRows;
use tbl_kept::rows::TableRows;
use tbl_layout::bars::Bars;
use tbl_layout::entry::Entry;
use tbl_layout::rule_keys::{entry_at, filled_columns};
use tbl_lines::row_lent::RowLent;
use tbl_options::options::Boxing;
use tbl_pieces::piece_queue::PieceQueue;
use tbl_pieces::pieces::Piece;
use tbl_text::block_parts::BlockPlace;
use tbl_text::block_words::BlockWord;

pub mod beside;
mod cells;
mod drawn;
mod elements;
mod fronts;
mod lines;
mod rule_marks;
mod rule_rows;
pub mod rules;

/// The most pieces of one step.
pub const STEP_PIECES: usize = 4;

/// What comes next.
#[derive(Clone, Copy)]
pub enum Next {
    /// The rule above everything, of a picture that is boxed.
    AtTop,
    /// An element, or a rule that the box adds in front of it, or the rule behind all.
    AtElement,
    /// A line of a row of rule keys, which stands in front of the row that comes next.
    AtRuleRow,
    /// A column on a line of rules, and the boundary behind it, or the line's end.
    AtRule,
    /// A line of a row.
    AtLine,
    /// What stands in front of a column of the row, or behind the last, where the picture is boxed.
    AtFront(usize),
    /// A cell of a line, or the line's end.
    AtCell,
    /// A word of a block, whose blanks were given, how many columns its line has up to its end, and
    /// the place behind it.
    AtWord(BlockWord, u64, BlockPlace),
    /// Nothing: the rule behind everything was given.
    AtEnd,
}

/// How far the picture was given. All its memory is reserved as it is made.
#[derive(Drop)]
pub struct Walk {
    element: usize,
    /// The line of the row.
    line: u32,
    /// How many columns are left up to the line's last glyph.
    count: usize,
    /// The column of the page that is reached on the line.
    place: u128,
    next: Next,
    /// The line of rules on which the walk stands, if it does.
    rule: RuleBegun,
    /// For each column of the row where its block goes on, on this line.
    places: Vec<BlockPlace>,
    /// Where it goes on behind this line, for the columns of which this line was given.
    behind: Vec<BlockPlace>,
    /// What stands above: the last element that was given, apart from commands.
    above: Beside,
    /// The picture's bars, and how wide it is.
    bars: Bars,
    picture_width: usize,
    room: u32,
}

impl Model for Walk {
    ghost use Rattle.tbl_picture.specs.Walks.{KeptWalk, kept_by, IsSound};

    ghost Value = { KeptWalk };

    ghost view = { kept_by };

    ghost invariant = { IsSound };
}

impl Walk {
    ghost use Rattle.tbl_picture.specs.ElementsWalked.{CanWalk, StepsIf, started, still_to_come};
    ghost use Rattle.tbl_kept.specs.Rows.{IsPlainTable};
    ghost use Rattle.tbl_lines.specs.RowsWalked.{AreNarrow};
    ghost use Rattle.tbl_lines.specs.RulePlaces.{HavePlaces};
    ghost use Rattle.tbl_picture.specs.Walks.{IsUnderWay, LiesInColumns, RowEndsOrGoesOn};
    ghost use Rattle.tbl_picture.specs.Walks.{lent_entries, lent_row, row_begun};

    /// A walk over tables of so many columns at the most.
    pub fn new(alloc: Global, columns: u32) -> Result<Self, AllocError>
        ensures { IfOk result (λ w. w.room ≡ columns) }
    {
        Ok(Walk {
            element: 0,
            line: 0,
            count: 0,
            place: 0,
            next: Next::AtElement,
            rule: RuleBegun::NOTHING,
            places: Vec::with_capacity(alloc, columns as usize)?,
            behind: Vec::with_capacity(alloc, columns as usize)?,
            above: Beside::Nothing,
            bars: Bars::NOTHING,
            picture_width: 0,
            room: columns,
        })
    }

    /// Nothing of the picture is given, which has these bars and is so wide.
    pub fn start(&mut self, bars: Bars, width: usize)
        ensures value { self.new ≡ started bars width self.old }
        ensures lines { (bytes : List ℕ) (formats : List FormatRow) (rows : KeptRows)
            → still_to_come bytes formats rows self.new
            ≡ picture_lines (record { bars = bars; width = width; columns = rows.columns })
            (elements_of bytes formats rows.elements) }
        ensures can { (bytes : List ℕ) (formats : List FormatRow) (rows : KeptRows)
            → RowsLaid bytes formats bars.boxing.is_inside rows → IsPlainTable rows
            → AreNarrow rows.columns → HavePlaces formats
            (record { bars = bars; width = width; columns = rows.columns })
            → length rows.columns ≤ self.old.room → CanWalk bytes formats rows self.new }
    {
        self.element = 0;
        self.line = 0;
        self.next = first_next(bars.boxing);
        self.above = Beside::Nothing;
        self.bars = bars;
        self.picture_width = width;
    }

    /// Adds the next pieces. Answers whether there were some to come.
    pub fn step(
        &mut self,
        pieces: &mut PieceQueue,
        escapes: &mut OpenEscapes,
        bytes: &[u8],
        rows: &TableRows,
        format: &FormatRows,
    ) -> bool
        requires can { CanWalk bytes.now (all_rows format.now.format) rows.now self.old }
        requires room { pieces.old.taken + 4 ≤ pieces.old.room }
        ensures step { (frame : List ℕ) → AreWithin bytes.now frame pieces.old.pieces
            → StepsIf result bytes.now frame (all_rows format.now.format) rows.now self.old self.new
            pieces.old pieces.new }
        ensures escapes { escapes.new.room ≡ escapes.old.room }
    {
        match self.next {
            Next::AtTop => {
                let sign = frame_sign(self.bars.boxing.bars);
                self.step_at_rule(pieces, rows, format, sign, false);
                true
            }
            Next::AtElement => self.step_at_element(pieces, rows, format),
            Next::AtRuleRow => {
                let rule = self.rule;
                self.begin_rule_row(pieces, rule);
                true
            }
            Next::AtRule => {
                let rule = self.rule;
                self.step_in_rule(pieces, rows, format, rule);
                true
            }
            Next::AtEnd => false,
            _ => self.step_in_element(pieces, escapes, bytes, rows, format),
        }
    }

    /// The next pieces of a row, as many as there is room for. Answers whether they were its last.
    pub fn steps_in_row(
        &mut self,
        pieces: &mut PieceQueue,
        escapes: &mut OpenEscapes,
        row: &RowLent<'_>,
    ) -> bool
        requires lies { LiesInColumns row.now }
        requires can { IsUnderWay self.old.next (lent_row row.now) self.old }
        requires fits { length (lent_entries row.now) ≤ self.old.room }
        requires small { row.now.height < 2 ^ 32 }
        requires room { pieces.old.taken + 4 ≤ pieces.old.room }
        ensures steps { (frame : List ℕ) → RowEndsOrGoesOn result frame (lent_row row.now)
            self.old self.new pieces.old pieces.new }
        ensures full { result ≡ false → pieces.new.room < pieces.new.taken + 4 }
        ensures escapes { escapes.new.room ≡ escapes.old.room }
    {
        let mut has_ended = false;
        while !has_ended && pieces.has_room(STEP_PIECES) {
            has_ended = self.step_in_row(pieces, escapes, row);
        }
        has_ended
    }

    /// The next pieces of a row. Answers whether they were its last.
    fn step_in_row(
        &mut self,
        pieces: &mut PieceQueue,
        escapes: &mut OpenEscapes,
        row: &RowLent<'_>,
    ) -> bool
        requires lies { LiesInColumns row.now }
        requires can { IsUnderWay self.old.next (lent_row row.now) self.old }
        requires fits { length (lent_entries row.now) ≤ self.old.room }
        requires small { row.now.height < 2 ^ 32 }
        requires room { pieces.old.taken + 4 ≤ pieces.old.room }
        ensures steps { (frame : List ℕ) → RowEndsOrGoesOn result frame (lent_row row.now)
            self.old self.new pieces.old pieces.new }
        ensures escapes { escapes.new.room ≡ escapes.old.room }
    {
        match self.next {
            Next::AtLine => {
                self.begin_line(pieces, escapes, row);
                false
            }
            Next::AtFront(at) => {
                self.give_front(pieces, row, at);
                false
            }
            Next::AtCell => {
                if self.behind.len() == self.places.len() {
                    return self.end_line(pieces, row);
                }
                self.give_cell(pieces, escapes, row);
                false
            }
            Next::AtWord(word, width, place) => {
                self.give_word(pieces, escapes, row, word, width, place);
                false
            }
            _ => false,
        }
    }

    /// A row begins, which has these keys and these fields: each of its blocks is at its
    /// beginning.
    fn begin_row(&mut self, keys: &[FormatKey], entries: &[Entry])
        requires { length (all_entries (record { keys = keys.now; bars = 0 }) entries.now)
            ≤ self.old.room }
        ensures { self.new ≡ row_begun
            (all_entries (record { keys = keys.now; bars = 0 }) entries.now) self.old }
    {
        self.places.clear();
        push_places(&mut self.places, keys, entries);
        self.line = 0;
        self.next = Next::AtLine;
    }
}

/// What comes first of a picture.
fn first_next(boxing: Boxing) -> Next
    ensures { (rule : RuleBegun) → next_by result rule ≡ first_next boxing }
{
    if boxing.bars == 0 {
        Next::AtElement
    } else {
        Next::AtTop
    }
}

/// Adds for each column that a row fills where its block begins.
fn push_places(places: &mut Vec<BlockPlace>, keys: &[FormatKey], entries: &[Entry])
    requires { vec_len places.old
        + length (all_entries (record { keys = keys.now; bars = 0 }) entries.now)
        ≤ vec_capacity places.old }
    ensures items { places.new.items ≡ places.old.items
        ++ map first_place (all_entries (record { keys = keys.now; bars = 0 }) entries.now) }
    ensures capacity { vec_capacity places.new ≡ vec_capacity places.old }
{
    for at in 0..filled_columns(keys, entries.len()) {
        places.push_reserved(first_place(entry_at(keys, entries, at)));
    }
}

/// Where the block of a field begins, if it is one.
fn first_place(entry: Entry) -> BlockPlace
    ensures { result ≡ first_place entry }
{
    if entry.from < entry.to {
        BlockPlace::AtLine(0, None)
    } else {
        BlockPlace::AtEnd
    }
}
