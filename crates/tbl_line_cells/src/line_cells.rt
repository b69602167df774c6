//! Lines on which cells of several rows stand: those of a row, and lines of rules (Lesk, "Tbl":
//! Formatting).

ghost use Rattle.std.specs.Prelude.{◌≡◌, ℕ, suc, ◌<◌, ◌≤◌, ◌^◌, List, [], ◌∷◌, ◌++◌, IfOk};
ghost use Rattle.std.specs.Prelude.{length, map, max, false, vec_capacity, drop, take, None, Some};
ghost use Rattle.std.specs.Prelude.{◌≢◌, ◌-◌, ◌&&◌, get_or, true, if◌then◌else◌};
ghost use Rattle.std.specs.List.{AllByRecursion, insert};
ghost use Rattle.tbl_layout.specs.KeptEntries.{Lies};
ghost use Rattle.tbl_layout.specs.declared.bars.Bars.{Bars};
ghost use Rattle.tbl_lines.specs.LinesLeft.{Shown, all_cut, cut_cells, in_order};
ghost use Rattle.tbl_lines.specs.LinesLeft.{is_there, shown_cell};
ghost use Rattle.tbl_lines.specs.PictureLines.{Cell, Sheet, line_of, with_fronts};
ghost use Rattle.tbl_lines.specs.RowsLeft.{cell_left, cell_of_front, first_of};
ghost use Rattle.tbl_lines.specs.RowsWalked.{AreNarrow, HasBars, IsNarrow};
ghost use Rattle.tbl_line_cells.specs.LaidCells.{DrawsByte, EndsItself, IsDrawn, IsLaidCell};
ghost use Rattle.tbl_line_cells.specs.LaidCells.{IsShown, drawn_in, on_line};
ghost use Rattle.tbl_line_cells.specs.LaidCells.{place_among, row_column};
ghost use Rattle.tbl_line_cells.specs.LinesDrawn.{CutMore, CutOn, CutSoFar, Draws, LineHasRoom};
ghost use Rattle.tbl_line_cells.specs.LinesDrawn.{IsNoRow};
ghost use Rattle.tbl_line_cells.specs.LinesDrawn.{InFront, IsNoted, LineIsLaid, RunInOrder};
ghost use Rattle.tbl_line_cells.specs.LinesDrawn.{SoFar, passes_room, shown_in};
ghost use Rattle.tbl_line_cells.specs.LinesDrawn.{as_row, if_any, kept_line};

use crate::laid_cells::{LaidCell, RunsOn, TextAt, place_of};
use crate::running::{cut_to, drawn_by, drawn_in_front, fill_false, room_of};
use input_escapes::OpenEscapes;
use std::alloc::{AllocError, Global};
use tbl_format::format::{FormatKey, Key, Standing};
use tbl_layout::columns::Column;
use tbl_layout::data_lines::RuleSign;
use tbl_layout::entry::Entry;
use tbl_lines::fronts::Front;
use tbl_text::block_parts::BlockPlace;

/// What stands on a line: cells, each in a column of its own, and what stands in front of them.
#[derive(Drop)]
pub struct LineCells {
    /// How a line of rules is drawn over each column of the table, if it rules that.
    pub signs: Vec<Option<RuleSign>>,
    /// Its cells, from the left; behind [`LineCells::order`] in the order in which they are given.
    pub cells: Vec<LaidCell>,
    /// Whether something in one of them runs on beyond its columns.
    pub has_running: bool,
    /// Whether something is cut of a cell that ends behind each column of the table but none, if
    /// something runs on.
    pub cut: Vec<bool>,
    /// In how many of these cells nothing was cut before.
    pub first_cut: usize,
    pub fronts: Vec<Front>,
    /// The line as a row.
    pub columns: Vec<Column>,
    pub keys: Vec<FormatKey>,
    pub entries: Vec<Entry>,
    pub places: Vec<BlockPlace>,
}

impl LineCells {
    /// Room for a table of so many columns.
    pub fn new(alloc: Global, columns: usize) -> Result<Self, AllocError>
        requires { columns < 2 ^ 63 }
        ensures { IfOk result (λ line. LineHasRoom columns line) }
    {
        Ok(LineCells {
            signs: Vec::with_capacity(alloc, columns)?,
            cells: Vec::with_capacity(alloc, columns)?,
            has_running: false,
            cut: Vec::with_capacity(alloc, columns)?,
            first_cut: 0,
            fronts: Vec::with_capacity(alloc, columns + 1)?,
            columns: Vec::with_capacity(alloc, columns)?,
            keys: Vec::with_capacity(alloc, columns)?,
            entries: Vec::with_capacity(alloc, columns)?,
            places: Vec::with_capacity(alloc, columns)?,
        })
    }

    /// Nothing is known of a line of rules.
    pub fn clear_rule(&mut self)
        ensures line { self.new ≡ record self.old { signs = self.new.signs } }
        ensures none { self.new.signs.items ≡ [] }
        ensures room { (room : ℕ) → LineHasRoom room self.old → LineHasRoom room self.new }
    {
        self.signs.clear();
    }

    /// Nothing stands on the line.
    pub fn clear(&mut self)
        ensures signs { self.new.signs ≡ self.old.signs }
        ensures cells { self.new.cells.items ≡ [] }
        ensures cut { (columns : ℕ) → CutOn columns (kept_line self.new) [] }
        ensures no_cut { self.new.cut.items ≡ [] }
        ensures none_cut { self.new.first_cut ≡ 0 }
        ensures fronts { self.new.fronts.items ≡ [] }
        ensures row { IsNoRow (kept_line self.new) }
        ensures nothing { (bytes : List ℕ) → SoFar bytes (kept_line self.new) [] [] }
        ensures room { (room : ℕ) → LineHasRoom room self.old → LineHasRoom room self.new }
    {
        self.cells.clear();
        self.has_running = false;
        self.cut.clear();
        self.first_cut = 0;
        self.fronts.clear();
        self.columns.clear();
        self.keys.clear();
        self.entries.clear();
        self.places.clear();
    }

    /// What is no text: a byte that is repeated, or nothing.
    pub fn push_drawn(&mut self, column: Column, entry: Entry)
        requires narrow { IsNarrow column }
        requires room { length self.old.cells.items < vec_capacity self.old.cells }
        ensures so_far { (bytes : List ℕ) (s : Shown) (done : List Shown) (fronts : List Cell)
            → s.is_text ≡ false → s.runs_on ≡ None → Lies bytes entry → EndsItself entry.kind
            → DrawsByte entry.kind entry
            → on_line (cell_left bytes 0 (row_column (drawn_in column entry)))
            ≡ on_line (shown_cell s)
            → SoFar bytes (kept_line self.old) done fronts
            → SoFar bytes (kept_line self.new) (done ++ s ∷ []) fronts }
        ensures line { self.new ≡ record self.old { cells = self.new.cells } }
        ensures count { length self.new.cells.items ≡ suc (length self.old.cells.items) }
        ensures capacity { vec_capacity self.new.cells ≡ vec_capacity self.old.cells }
    {
        self.cells.push_reserved(LaidCell {
            column,
            key: Key::Left,
            entry,
            place: BlockPlace::AtEnd,
            text: None,
            runs_on: None,
        });
    }

    /// What stands in front of a cell, or behind the last.
    pub fn push_front(&mut self, front: Front)
        requires room { length self.old.fronts.items < vec_capacity self.old.fronts }
        ensures so_far { (bytes : List ℕ) (c : Cell) (done : List Shown) (fronts : List Cell)
            → HasBars front → on_line (cell_of_front front) ≡ on_line c
            → SoFar bytes (kept_line self.old) done fronts
            → SoFar bytes (kept_line self.new) done (fronts ++ c ∷ []) }
        ensures line { self.new ≡ record self.old { fronts = self.new.fronts } }
        ensures value { self.new.fronts.items ≡ self.old.fronts.items ++ front ∷ [] }
        ensures capacity { vec_capacity self.new.fronts ≡ vec_capacity self.old.fronts }
    {
        self.fronts.push_reserved(front);
    }

    /// What runs on is cut in front of the next bar or rule, and of the column at which its cell
    /// ends at the latest, in a picture so wide, which has what stands in front of cells or not.
    pub fn cut_all(
        &mut self,
        escapes: &mut OpenEscapes,
        bytes: &[u8],
        columns: &[Column],
        has_fronts: bool,
        width: usize,
    )
        requires narrow { AreNarrow columns.now }
        requires wide { width < 2 ^ 32 }
        requires laid { LineIsLaid bytes.now (kept_line self.old) }
        requires fronts { length self.old.fronts.items ≡ suc (length self.old.cells.items) }
        requires cells { length self.old.cells.items ≤ length columns.now }
        requires room { length columns.now ≤ vec_capacity self.old.cut }
        requires none { self.old.cut.items ≡ [] }
        requires none_cut { self.old.first_cut ≡ 0 }
        ensures so_far { (bars : Bars) (done : List Shown) (fronts : List Cell)
            → SoFar bytes.now (kept_line self.old) done fronts
            → let s : Sheet = record { bars = bars; width = width; columns = columns.now } in
            CutSoFar bytes.now (kept_line self.new)
            (all_cut s (if has_fronts then fronts else []) done) fronts }
        ensures cut { (bars : Bars) (done : List Shown) (fronts : List Cell)
            → SoFar bytes.now (kept_line self.old) done fronts
            → RunInOrder (length columns.now) 0 done
            → let s : Sheet = record { bars = bars; width = width; columns = columns.now } in
            CutOn (length columns.now) (kept_line self.new)
            (cut_cells s (if has_fronts then fronts else []) done) }
        ensures line { self.new ≡ record self.old {
          cells = self.new.cells;
          cut = self.new.cut;
          first_cut = self.new.first_cut;
        } }
        ensures count { length self.new.cells.items ≡ length self.old.cells.items }
        ensures capacity { vec_capacity self.new.cells ≡ vec_capacity self.old.cells }
        ensures cut_capacity { vec_capacity self.new.cut ≡ vec_capacity self.old.cut }
        ensures escapes { escapes.new.room ≡ escapes.old.room }
    {
        if !self.has_running {
            return;
        }
        fill_false(&mut self.cut, columns.len());
        let mut next = width;
        let mut at = self.cells.len();
        while at > 0 {
            let drawn = self.drawn_before(at, has_fronts, next);
            at -= 1;
            let cell = self.cells[at];
            self.cut_cell(escapes, bytes, at, room_of(cell, drawn, columns, width));
            next = drawn_by(cell, drawn);
        }
    }

    /// Where the next bar or rule stands, with what stands in front of a cell, or behind the last,
    /// if the picture has that.
    fn drawn_before(&self, at: usize, has_fronts: bool, next: usize) -> usize
        requires at { at < length self.now.fronts.items }
        requires some { AllByRecursion HasBars self.now.fronts.items }
        ensures { (fronts : List Cell) (c : Cell) → InFront (kept_line self.now) fronts
            → result ≡ if has_fronts && is_there (first_of (get_or fronts at c))
            then (get_or fronts at c).at else next }
    {
        if has_fronts {
            drawn_in_front(self.fronts[at], next)
        } else {
            next
        }
    }

    /// What runs on of a cell is cut, if it doesn't fit in so many columns.
    fn cut_cell(&mut self, escapes: &mut OpenEscapes, bytes: &[u8], at: usize, room: usize)
        requires small { room < 2 ^ 32 }
        requires at { at < length self.old.cells.items }
        requires laid { (c : LaidCell)
            → IsLaidCell bytes.now (get_or self.old.cells.items at c) }
        requires most { self.old.first_cut < 2 ^ 63 }
        ensures cell { (s : Shown) (c : LaidCell)
            → IsShown bytes.now (get_or self.old.cells.items at c) s
            → IsDrawn bytes.now (get_or self.new.cells.items at c) (shown_in room s.runs_on s) }
        ensures cut { (s : Shown) (c : LaidCell)
            → IsShown bytes.now (get_or self.old.cells.items at c) s
            → CutMore (passes_room room s.runs_on s) s.runs_on (kept_line self.old)
            (kept_line self.new) }
        ensures first { take at self.new.cells.items ≡ take at self.old.cells.items }
        ensures others { drop (suc at) self.new.cells.items ≡ drop (suc at) self.old.cells.items }
        ensures line { self.new ≡ record self.old {
          cells = self.new.cells;
          cut = self.new.cut;
          first_cut = self.new.first_cut;
        } }
        ensures count { length self.new.cells.items ≡ length self.old.cells.items }
        ensures capacity { vec_capacity self.new.cells ≡ vec_capacity self.old.cells }
        ensures cut_count { length self.new.cut.items ≡ length self.old.cut.items }
        ensures cut_capacity { vec_capacity self.new.cut ≡ vec_capacity self.old.cut }
        ensures most { self.new.first_cut ≤ suc self.old.first_cut }
        ensures escapes { escapes.new.room ≡ escapes.old.room }
    {
        let cell = self.cells[at];
        if let Some(running) = cell.runs_on {
            if let Some(fits) = cut_to(escapes, bytes, cell, running, room) {
                self.cells[at] = fits;
                self.note_cut(running);
            }
        }
    }

    /// Something of the cell is cut.
    fn note_cut(&mut self, running: RunsOn)
        requires most { self.old.first_cut < 2 ^ 63 }
        ensures noted { IsNoted running.end running.is_cut (kept_line self.old)
            (kept_line self.new) }
        ensures line { self.new
            ≡ record self.old { cut = self.new.cut; first_cut = self.new.first_cut } }
        ensures cut_count { length self.new.cut.items ≡ length self.old.cut.items }
        ensures cut_capacity { vec_capacity self.new.cut ≡ vec_capacity self.old.cut }
        ensures most { self.new.first_cut ≤ suc self.old.first_cut }
    {
        set_flag(&mut self.cut, running.end);
        if !running.is_cut {
            self.first_cut += 1;
        }
    }

    /// Texts that begin at one column of the page stand in the order of the rows in which their
    /// cells began.
    pub fn order(&mut self)
        ensures so_far { (bytes : List ℕ) (done : List Shown) (fronts : List Cell)
            → CutSoFar bytes (kept_line self.old) done fronts
            → CutSoFar bytes (kept_line self.new) (in_order [] done) fronts }
        ensures line { self.new ≡ record self.old { cells = self.new.cells } }
        ensures count { length self.new.cells.items ≡ length self.old.cells.items }
        ensures capacity { vec_capacity self.new.cells ≡ vec_capacity self.old.cells }
    {
        let mut last_text = 0;
        for at in 0..self.cells.len() {
            match self.cells[at].text {
                Some(text) => {
                    if text.at <= last_text {
                        self.bring_forward(at, text);
                    } else {
                        last_text = text.at;
                    }
                }
                None => {}
            }
        }
    }

    /// A text is brought in front of the first of those before it that stand behind it.
    fn bring_forward(&mut self, cell: usize, text: TextAt)
        requires at { cell < length self.old.cells.items }
        ensures cells { (first : List LaidCell) (c : LaidCell) (rest : List LaidCell)
            → self.old.cells.items ≡ first ++ c ∷ rest → length first ≡ cell
            → self.new.cells.items ≡ insert first (place_among (Some text) first) c ++ rest }
        ensures count { length self.new.cells.items ≡ length self.old.cells.items }
        ensures line { self.new ≡ record self.old { cells = self.new.cells } }
        ensures capacity { vec_capacity self.new.cells ≡ vec_capacity self.old.cells }
    {
        let place = place_of(&self.cells.as_slice()[..cell], text);
        let mut at = cell;
        while at > place {
            self.cells.swap(at - 1, at);
            at -= 1;
        }
    }

    /// The line as a row: each cell has one column there.
    pub fn finish(&mut self)
        requires row { IsNoRow (kept_line self.old) }
        requires room { LineHasRoom (length self.old.cells.items) self.old }
        requires few { length self.old.cells.items < 2 ^ 32 }
        ensures draws { (bytes : List ℕ) (bars : Bars) (width : ℕ) (done : List Shown)
            (fronts : List Cell) → CutSoFar bytes (kept_line self.old) done fronts
            → length self.old.fronts.items ≡ suc (max 1 (length self.old.cells.items))
            → Draws bytes bars width (kept_line self.new)
            (line_of 0 (with_fronts (if_any bars fronts) (map shown_cell done))) }
        ensures signs { self.new.signs ≡ self.old.signs }
        ensures row { kept_line self.new ≡ as_row (kept_line self.old) }
        ensures count { length self.new.entries.items ≡ length self.old.cells.items }
        ensures room { (room : ℕ) → LineHasRoom room self.old → LineHasRoom room self.new }
    {
        for at in 0..self.cells.len() {
            let cell = self.cells[at];
            self.columns.push_reserved(cell.column);
            self.keys.push_reserved(FormatKey {
                bars: 0,
                key: cell.key,
                end: at as u32 + 1,
                standing: Standing::Middle,
                has_no_width: false,
            });
            self.entries.push_reserved(cell.entry);
            self.places.push_reserved(cell.place);
        }
    }
}

/// The flag of what ends behind so many columns is set, if there is one.
fn set_flag(flags: &mut Vec<bool>, end: usize)
    ensures here { 0 < end → end ≤ length flags.old.items
        → get_or flags.new.items (end - 1) false ≡ true }
    ensures others { (other : ℕ) → 0 < other → other ≢ end
        → get_or flags.new.items (other - 1) false ≡ get_or flags.old.items (other - 1) false }
    ensures count { length flags.new.items ≡ length flags.old.items }
    ensures capacity { vec_capacity flags.new ≡ vec_capacity flags.old }
{
    if end > 0 && end <= flags.len() {
        flags[end - 1] = true;
    }
}
