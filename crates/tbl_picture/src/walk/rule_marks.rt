//! What a line of rules draws over a column and behind it.

ghost use Rattle.std.specs.Prelude.{◌≡◌, ℕ, ◌+◌, ◌-◌, ◌<◌, ◌≤◌, ◌^◌};
ghost use Rattle.std.specs.Prelude.{List, Some, drop, false, if◌then◌else◌};
ghost use Rattle.tbl_format.specs.Format.{FormatRow};
ghost use Rattle.tbl_format.specs.RowsServed.{all_rows};
ghost use Rattle.tbl_layout.specs.Columns.{bars_end};
ghost use Rattle.tbl_lines.specs.PictureLines.{edge_byte, last_mark, own_behind, rule_to};
ghost use Rattle.tbl_lines.specs.PictureLines.{sign_over};
ghost use Rattle.tbl_lines.specs.RowsWalked.{AreNarrow};
ghost use Rattle.tbl_picture.specs.RuleMarks.{goes_on, is_same_rule, mark_behind};
ghost use Rattle.tbl_picture.specs.RulesWalked.{AreServed, IsAmong, RuleLies, RuleStands};
ghost use Rattle.tbl_picture.specs.RulesWalked.{bytes_at, line_walked, mark_given};
ghost use Rattle.tbl_picture.specs.RulesWalked.{met_there, place_behind};
ghost use Rattle.tbl_pieces.specs.PieceQueue.{Adds};

use super::Walk;
use super::beside::{format_bars, side_behind};
use super::rules::{BAR, CROSSING, RuleBegun, RuleLine};
use tbl_format::format_rows::FormatRows;
use tbl_kept::rows::{TableRows, key_at};
use tbl_layout::bars::inner_bars;
use tbl_layout::columns::{Column, bars_end};
use tbl_layout::data_lines::{RuleSign, sign_byte};
use tbl_layout::rule_keys::rule_sign;
use tbl_lines::row_columns::is_same_sign;
use tbl_pieces::piece_queue::PieceQueue;
use tbl_pieces::pieces::Piece;

/// How a line of rules is drawn over a column, if it rules that.
pub(super) fn sign_over(format: &FormatRows, line: RuleLine, column: usize) -> Option<RuleSign>
    requires { IsAmong (all_rows format.now.format) line }
    ensures { result ≡ sign_over (line_walked (all_rows format.now.format) line) column }
{
    match line {
        RuleLine::Whole(sign, _) => Some(sign),
        RuleLine::OfKeys(row, _) => rule_sign(key_at(format.row_of_all(row), column)),
    }
}

/// Whether the rule over a column goes on over the next one.
pub(super) fn goes_on(format: &FormatRows, line: RuleLine, column: usize) -> bool
    requires among { IsAmong (all_rows format.now.format) line }
    requires small { column < 2 ^ 64 - 1 }
    ensures { result ≡ goes_on (line_walked (all_rows format.now.format) line) column }
{
    match line {
        RuleLine::Whole(_, _) => true,
        RuleLine::OfKeys(_, _) => is_same_rule(
            sign_over(format, line, column),
            sign_over(format, line, column + 1),
        ),
    }
}

/// Whether two columns are ruled alike.
fn is_same_rule(sign: Option<RuleSign>, next: Option<RuleSign>) -> bool
    ensures { result ≡ is_same_rule sign next }
{
    match sign {
        None => next.is_none(),
        Some(sign) => match next {
            None => false,
            Some(next) => is_same_sign(sign, next),
        },
    }
}

/// What an edge shows where bars meet a line of rules.
pub(super) fn edge_byte(line: RuleLine) -> u8
    ensures { (formats : List FormatRow) → result ≡ edge_byte (line_walked formats line) }
{
    match line {
        RuleLine::Whole(_, _) => CROSSING,
        RuleLine::OfKeys(_, _) => BAR,
    }
}

/// Where a line of rules ends to rule its last column, where bars of the right edge begin at a
/// place.
pub(super) fn rule_to(line: RuleLine, right: usize, columns: &[Column]) -> usize
    requires { AreNarrow columns.now }
    ensures { (formats : List FormatRow)
        → result ≡ rule_to (line_walked formats line) right columns.now }
{
    match line {
        RuleLine::Whole(_, _) => right,
        RuleLine::OfKeys(_, _) => match columns.last() {
            Some(column) => column.start + column.width,
            None => 0,
        },
    }
}

/// Where what a line of rules draws up to a boundary between two columns ends: where the bars end
/// there, if its rule goes on, else behind all places of bars.
pub(super) fn end_behind(is_on: bool, behind: usize, column: Column, next: Column) -> usize
    requires { column.start + column.width < 2 ^ 63 }
    ensures { result ≡ (if is_on then behind else bars_end column next) }
{
    if is_on {
        behind
    } else {
        bars_end(column, next)
    }
}

impl Walk {
    /// How many bars meet behind a column on a line of rules.
    pub(super) fn met_behind(&self, rows: &TableRows, format: &FormatRows, rule: RuleBegun) -> u8
        requires served { AreServed (all_rows format.now.format) rows.now.elements }
        requires lies { RuleLies (all_rows format.now.format) rows.now rule self.now
            (drop self.now.element rows.now.elements) }
        requires small { rule.column < 2 ^ 64 - 1 }
        ensures { (bytes : List ℕ) → RuleStands bytes (all_rows format.now.format) rows.now rule
            self.now (drop self.now.element rows.now.elements)
            → result ≡ met_there bytes (all_rows format.now.format) rows.now rule self.now
            (drop self.now.element rows.now.elements) }
    {
        if !self.bars.has_any {
            return 0;
        }
        let boxing = self.bars.boxing;
        let above = side_behind(boxing, rows, format, rule.above, false, rule.column);
        let below = side_behind(boxing, rows, format, rule.below, true, rule.column);
        self.own_behind(format, rule).max(above.max(below))
    }

    /// How many bars a line of rules has itself behind a column: none where it is ruled.
    fn own_behind(&self, format: &FormatRows, rule: RuleBegun) -> u8
        requires among { IsAmong (all_rows format.now.format) rule.line }
        requires small { rule.column < 2 ^ 64 - 1 }
        ensures { result ≡ own_behind self.now.bars.boxing
            (line_walked (all_rows format.now.format) rule.line) rule.column }
    {
        match rule.line {
            RuleLine::Whole(_, _) => 0,
            RuleLine::OfKeys(row, _) => {
                if rule.column < format.row_of_all(row).len() {
                    0
                } else {
                    inner_bars(self.bars.boxing, format_bars(format, row, rule.column + 1))
                }
            }
        }
    }

    /// What a line of rules draws from a place on up to a boundary between columns, where it is
    /// ruled so or isn't, and so many bars stand at a place: a rule ends at another one.
    pub(super) fn give_behind(
        &mut self,
        pieces: &mut PieceQueue,
        sign: Option<RuleSign>,
        from: usize,
        at: usize,
        count: u8,
        end: usize,
    )
        requires from { from < 2 ^ 63 }
        requires at { at < 2 ^ 62 }
        requires end { end < 2 ^ 62 }
        requires room { pieces.old.taken + 4 ≤ pieces.old.room }
        ensures adds { (block frame : List ℕ) → Adds block frame 4 pieces.old pieces.new
            (mark_given (mark_behind sign false from count at end) self.old.place) }
        ensures walk { self.new ≡ record self.old {
          place = place_behind (mark_behind sign false from count at end) self.old.place;
        } }
    {
        match sign {
            Some(sign) => self.give_ruled(pieces, from, sign, at, count, end),
            None => self.give_mark(pieces, at, BAR, count as usize),
        }
    }

    /// A rule from a place on, which so many bars cross at another one, and which ends at a third.
    fn give_ruled(
        &mut self,
        pieces: &mut PieceQueue,
        from: usize,
        sign: RuleSign,
        at: usize,
        count: u8,
        end: usize,
    )
        requires from { from < 2 ^ 63 }
        requires at { at < 2 ^ 62 }
        requires end { end < 2 ^ 62 }
        requires room { pieces.old.taken + 4 ≤ pieces.old.room }
        ensures adds { (block frame : List ℕ) → Adds block frame 4 pieces.old pieces.new
            (mark_given (mark_behind (Some sign) false from count at end) self.old.place) }
        ensures walk { self.new ≡ record self.old {
          place = place_behind (mark_behind (Some sign) false from count at end) self.old.place;
        } }
    {
        let byte = sign_byte(sign);
        let crossed = count as usize;
        let front = at.saturating_sub(from);
        let rest = end.saturating_sub(at).saturating_sub(crossed);
        if front + crossed + rest == 0 {
            return;
        }
        pieces.add(Piece::Blanks(self.gap_to(from)));
        pieces.add(Piece::Repeated(byte, front));
        pieces.add(Piece::Repeated(CROSSING, crossed));
        pieces.add(Piece::Repeated(byte, rest));
        self.place = (from + front + crossed + rest) as u128;
    }

    /// So many bytes from a place on.
    pub(super) fn give_mark(&mut self, pieces: &mut PieceQueue, at: usize, byte: u8, count: usize)
        requires small { at + count < 2 ^ 64 }
        requires room { pieces.old.taken + 2 ≤ pieces.old.room }
        ensures adds { (block frame : List ℕ) → Adds block frame 2 pieces.old pieces.new
            (mark_given (bytes_at at byte count) self.old.place) }
        ensures walk { self.new ≡ record self.old {
          place = place_behind (bytes_at at byte count) self.old.place;
        } }
    {
        if count == 0 {
            return;
        }
        pieces.add(Piece::Blanks(self.gap_to(at)));
        pieces.add(Piece::Repeated(byte, count));
        self.place = (at + count) as u128;
    }

    /// A rule from a place up to another, if there is one.
    pub(super) fn give_over(
        &mut self,
        pieces: &mut PieceQueue,
        sign: Option<RuleSign>,
        from: usize,
        to: usize,
    )
        requires room { pieces.old.taken + 2 ≤ pieces.old.room }
        ensures adds { (block frame : List ℕ) → Adds block frame 2 pieces.old pieces.new
            (mark_given (last_mark sign from to) self.old.place) }
        ensures walk { self.new ≡ record self.old {
          place = place_behind (last_mark sign from to) self.old.place;
        } }
    {
        if let Some(sign) = sign {
            self.give_mark(pieces, from, sign_byte(sign), to.saturating_sub(from));
        }
    }
}
