//! The elements of a table, and the rules that its box adds, as a walk gives them.

ghost use Rattle.std.specs.Prelude.{◌≡◌, ℕ, ◌+◌, ◌-◌, ◌<◌, ◌≤◌, ◌^◌, List, true, drop, length};
ghost use Rattle.tbl_format.specs.RowsServed.{all_rows};
ghost use Rattle.tbl_pieces.specs.Pieces.{AreWithin};
ghost use Rattle.tbl_picture.specs.Nexts.{AtElement};
ghost use Rattle.tbl_picture.specs.RulesWalked.{AreServed, IsRowThere};

use super::beside::{Beside, RuleRows};
use super::rules::{frame_sign, give_rule, next_behind_rule};
use super::{Next, Walk};
use input_escapes::OpenEscapes;
use tbl_format::cells::columns_of;
use tbl_format::format_rows::FormatRows;
use tbl_kept::rows::{Lent, TableRows};
use tbl_layout::data_lines::RuleSign;
use tbl_layout::entry::Entry;
use tbl_lines::row_lent::RowLent;
use tbl_pieces::piece_queue::PieceQueue;
use tbl_pieces::pieces::Piece;

/// A row that comes next.
#[derive(Clone, Copy)]
pub(super) struct RowNext<'a> {
    /// The row of the formats that serves it, among all.
    keys: usize,
    /// How many rows of rule keys stand directly in front of it.
    rules: usize,
    /// Its fields.
    entries: &'a [Entry],
}

impl Walk {
    ghost use Rattle.tbl_picture.specs.ElementsWalked.{CanWalk, FirstFits, FirstIs, IsInRow};
    ghost use Rattle.tbl_picture.specs.ElementsWalked.{RowAtElement, RuleAtElement, StepsIf};
    ghost use Rattle.tbl_picture.specs.ElementsWalked.{gone_on};
    ghost use Rattle.tbl_lines.specs.RowsWalked.{AreNarrow};

    /// The first pieces of the next element, or of a rule that the box adds. Answers whether there
    /// were some to come.
    pub(super) fn step_at_element(
        &mut self,
        pieces: &mut PieceQueue,
        rows: &TableRows,
        format: &FormatRows,
    ) -> bool
        requires next { self.old.next ≡ AtElement }
        requires element { self.old.element ≤ length rows.now.elements }
        requires served { AreServed (all_rows format.now.format) rows.now.elements }
        requires above { IsRowThere rows.now.elements self.old.above }
        requires fits { FirstFits self.old.room (all_rows format.now.format)
            (drop self.old.element rows.now.elements) }
        requires room { pieces.old.taken + 4 ≤ pieces.old.room }
        ensures step { (bytes frame : List ℕ)
            → CanWalk bytes (all_rows format.now.format) rows.now self.old
            → AreWithin bytes frame pieces.old.pieces
            → StepsIf result bytes frame (all_rows format.now.format) rows.now self.old self.new
            pieces.old pieces.new }
    {
        if self.element >= rows.count() {
            return self.step_behind_all(pieces, rows, format);
        }
        match rows.element(self.element) {
            Lent::Command(from, to) => {
                pieces.add(Piece::Block(from, to));
                pieces.add(Piece::LineEnd);
                self.element += 1;
                true
            }
            Lent::Rule(sign) => {
                self.element += 1;
                self.step_at_rule(pieces, rows, format, sign, false);
                true
            }
            Lent::Row(keys, rules, _, entries) => {
                let row = RowNext {
                    keys,
                    rules,
                    entries,
                };
                self.step_at_row(pieces, rows, format, row);
                true
            }
        }
    }

    /// Behind all elements: the rule there, if the picture is boxed.
    fn step_behind_all(
        &mut self,
        pieces: &mut PieceQueue,
        rows: &TableRows,
        format: &FormatRows,
    ) -> bool
        requires next { self.old.next ≡ AtElement }
        requires element { self.old.element ≡ length rows.now.elements }
        requires served { AreServed (all_rows format.now.format) rows.now.elements }
        requires above { IsRowThere rows.now.elements self.old.above }
        requires room { pieces.old.taken + 4 ≤ pieces.old.room }
        ensures step { (bytes frame : List ℕ)
            → CanWalk bytes (all_rows format.now.format) rows.now self.old
            → AreWithin bytes frame pieces.old.pieces
            → StepsIf result bytes frame (all_rows format.now.format) rows.now self.old self.new
            pieces.old pieces.new }
    {
        let bars = self.bars.boxing.bars;
        if bars == 0 {
            return false;
        }
        self.step_at_rule(pieces, rows, format, frame_sign(bars), true);
        true
    }

    /// A rule in front of the next element, which is the picture's last line or not.
    pub(super) fn step_at_rule(
        &mut self,
        pieces: &mut PieceQueue,
        rows: &TableRows,
        format: &FormatRows,
        sign: RuleSign,
        is_last: bool,
    )
        requires element { self.old.element ≤ length rows.now.elements }
        requires served { AreServed (all_rows format.now.format) rows.now.elements }
        requires above { IsRowThere rows.now.elements self.old.above }
        requires room { pieces.old.taken + 4 ≤ pieces.old.room }
        ensures { (bytes frame : List ℕ) → AreNarrow rows.now.columns
            → RuleAtElement bytes frame (all_rows format.now.format) rows.now sign is_last
            self.old self.new pieces.old pieces.new }
    {
        if self.bars.has_any {
            self.begin_rule(pieces, rows, format, sign, is_last);
        } else {
            give_rule(pieces, self.picture_width, sign);
            self.above = Beside::Nothing;
            self.next = next_behind_rule(is_last);
        }
    }

    /// A row comes next, or a rule in front of it, or rows of rule keys.
    fn step_at_row(
        &mut self,
        pieces: &mut PieceQueue,
        rows: &TableRows,
        format: &FormatRows,
        row: RowNext<'_>,
    )
        requires element { self.old.element ≤ length rows.now.elements }
        requires served { AreServed (all_rows format.now.format) rows.now.elements }
        requires above { IsRowThere rows.now.elements self.old.above }
        requires row { FirstIs row.keys row.rules row.entries.now
            (drop self.old.element rows.now.elements) }
        requires fits { FirstFits self.old.room (all_rows format.now.format)
            (drop self.old.element rows.now.elements) }
        requires room { pieces.old.taken + 4 ≤ pieces.old.room }
        ensures { (bytes frame : List ℕ) → AreNarrow rows.now.columns
            → RowAtElement bytes frame (all_rows format.now.format) rows.now row.entry.keys
            row.entry.rules row.entry.entries.now self.old self.new pieces.old pieces.new }
    {
        if row.rules > 0 {
            let rules = RuleRows {
                first: row.keys.saturating_sub(row.rules),
                count: row.rules,
            };
            self.come_to_rule_rows(rows, format, rules);
        } else if self.rules_between() {
            self.step_at_rule(pieces, rows, format, RuleSign::Single, false);
        } else {
            self.begin_row(format.row_of_all(row.keys), row.entries);
        }
    }

    /// The next pieces of a row that is under way.
    pub(super) fn step_in_element<'a>(
        &mut self,
        pieces: &mut PieceQueue,
        escapes: &mut OpenEscapes,
        bytes: &'a [u8],
        rows: &'a TableRows,
        format: &'a FormatRows,
    ) -> bool
        requires can { CanWalk bytes.now (all_rows format.now.format) rows.now self.old }
        requires row { IsInRow bytes.now (all_rows format.now.format) rows.now self.old
            (drop self.old.element rows.now.elements) }
        requires room { pieces.old.taken + 4 ≤ pieces.old.room }
        ensures step { (frame : List ℕ) → AreWithin bytes.now frame pieces.old.pieces
            → StepsIf result bytes.now frame (all_rows format.now.format) rows.now self.old self.new
            pieces.old pieces.new }
        ensures escapes { escapes.new.room ≡ escapes.old.room }
    {
        let _ = rows.count();
        match rows.element(self.element) {
            Lent::Row(keys, _, height, entries) => {
                let row_keys = format.row_of_all(keys);
                let row = RowLent {
                    bars: self.bars,
                    width: self.picture_width,
                    bytes,
                    keys: row_keys,
                    last_bars: format.bars_of_all(keys),
                    columns: rows.columns(),
                    entries,
                    height,
                    is_plain: columns_of(row_keys) == row_keys.len(),
                    fronts: None,
                };
                let has_ended = self.steps_in_row(pieces, escapes, &row);
                self.go_on(has_ended);
                true
            }
            _ => false,
        }
    }

    /// Behind a step of a row the next element comes, if that was its last.
    fn go_on(&mut self, has_ended: bool)
        requires { has_ended ≡ true → self.old.element < 2 ^ 64 - 1 }
        ensures { self.new ≡ gone_on has_ended self.old }
    {
        if has_ended {
            self.above = Beside::Row(self.element);
            self.element += 1;
            self.next = Next::AtElement;
        }
    }
}
