//! The lines of rules of a picture, as a walk gives them: rules over the whole picture, and rows of
//! rule keys.

ghost use Rattle.std.specs.Prelude.{◌≡◌, ℕ, ◌+◌, ◌-◌, ◌<◌, ◌≤◌, ◌^◌, max, ◌&&◌};
ghost use Rattle.std.specs.Prelude.{List, codes, drop, length, replicate, ◌++◌, [], ◌∷◌, ◌==◌};
ghost use Rattle.input_source.specs.Bytes.{newline};
ghost use Rattle.tbl_format.specs.RowsServed.{all_rows};
ghost use Rattle.tbl_layout.specs.DataLines.{sign_byte};
ghost use Rattle.tbl_picture.specs.ElementsWalked.{FirstFits};
ghost use Rattle.tbl_lines.specs.PictureLines.{frame_sign};
ghost use Rattle.tbl_picture.specs.Nexts.{AtRule, next_by};
ghost use Rattle.tbl_picture.specs.RulesWalked.{AreServed, LineEnded, RuleCrosses, RuleDoes};
ghost use Rattle.tbl_picture.specs.RulesWalked.{RuleEnds, RuleLies, RuleStands, is_row};
ghost use Rattle.tbl_picture.specs.RulesWalked.{come_behind, next_behind_rule, rule_behind};
ghost use Rattle.tbl_pieces.specs.PieceQueue.{Adds};

use super::beside::{Beside, Side};
use super::rule_marks::{edge_byte, end_behind, goes_on, rule_to, sign_over};
use super::{Next, Walk};
use tbl_format::format_rows::FormatRows;
use tbl_kept::rows::TableRows;
use tbl_layout::columns::bar_place;
use tbl_layout::data_lines::{RuleSign, sign_byte};
use tbl_pieces::piece_queue::PieceQueue;
use tbl_pieces::pieces::Piece;

/// A line of rules.
#[derive(Clone, Copy)]
pub enum RuleLine {
    /// A rule over the whole picture, and whether it is the last line.
    Whole(RuleSign, bool),
    /// A row of rule keys, among the rows of all formats, and how many follow it directly in front
    /// of the row of the data.
    OfKeys(usize, usize),
}

/// A line of rules that was given up to a column.
#[derive(Clone, Copy)]
pub struct RuleBegun {
    /// Which line it is.
    pub line: RuleLine,
    /// The column.
    pub column: usize,
    /// Where its rule over that begins.
    pub from: usize,
    /// What stands above.
    pub above: Side,
    /// What stands below.
    pub below: Side,
    /// How many bars meet at the left edge.
    pub left: u8,
    /// How many bars meet at the right edge.
    pub right: u8,
}

impl RuleBegun {
    /// A line beside which nothing stands.
    pub const NOTHING: RuleBegun = RuleBegun {
        line: RuleLine::Whole(RuleSign::Single, false),
        column: 0,
        from: 0,
        above: Side::NOTHING,
        below: Side::NOTHING,
        left: 0,
        right: 0,
    };
}

/// What is drawn where a rule crosses a bar.
pub(super) const CROSSING: u8 = b'+';

/// What is drawn where it doesn't.
pub(super) const BAR: u8 = b'|';

/// How the rules above and below a picture are drawn, at whose edges so many bars stand.
pub fn frame_sign(bars: u8) -> RuleSign
    ensures { result ≡ frame_sign bars }
{
    if bars > 1 {
        RuleSign::Double
    } else {
        RuleSign::Single
    }
}

/// Whether a line of a row stands there.
fn is_row(beside: Beside) -> bool
    ensures { result ≡ is_row beside }
{
    match beside {
        Beside::Row(_) => true,
        Beside::Nothing => false,
    }
}

/// What comes next behind a rule line, which was the picture's last line or not.
pub(super) fn next_behind_rule(is_last: bool) -> Next
    ensures { (rule : RuleBegun) → next_by result rule ≡ next_behind_rule is_last }
{
    if is_last {
        Next::AtEnd
    } else {
        Next::AtElement
    }
}

/// A rule over a picture that has no bars and is so wide.
pub(super) fn give_rule(pieces: &mut PieceQueue, width: usize, sign: RuleSign)
    requires { pieces.old.taken + 4 ≤ pieces.old.room }
    ensures { (block frame : List ℕ) → Adds block frame 4 pieces.old pieces.new
        (codes "\\&" ++ (replicate width (sign_byte sign) ++ newline ∷ [])) }
{
    pieces.add(Piece::LineFront);
    pieces.add(Piece::Repeated(sign_byte(sign), width));
    pieces.add(Piece::LineEnd);
}

/// Whether a line of rules draws nothing behind a column, where its rule goes on or doesn't, and so
/// many bars meet.
fn draws_nothing(is_on: bool, count: u8) -> bool
    ensures { result ≡ (is_on && count == 0) }
{
    is_on && count == 0
}

impl Walk {
    /// Whether a rule is to be given between the row above and the row that comes next.
    pub(super) fn rules_between(&self) -> bool
        ensures { result ≡ (self.now.bars.boxing.is_inside && is_row self.now.above) }
    {
        self.bars.boxing.is_inside && is_row(self.above)
    }

    /// The next pieces of a line of rules, up to the next boundary between columns, or up to its
    /// end.
    pub(super) fn step_in_rule(
        &mut self,
        pieces: &mut PieceQueue,
        rows: &TableRows,
        format: &FormatRows,
        rule: RuleBegun,
    )
        requires next { self.old.next ≡ AtRule rule }
        requires served { AreServed (all_rows format.now.format) rows.now.elements }
        requires lies { RuleLies (all_rows format.now.format) rows.now rule self.old
            (drop self.old.element rows.now.elements) }
        requires fits { FirstFits self.old.room (all_rows format.now.format)
            (drop self.old.element rows.now.elements) }
        requires room { pieces.old.taken + 4 ≤ pieces.old.room }
        ensures { (bytes frame : List ℕ) → RuleStands bytes (all_rows format.now.format) rows.now
            rule self.old (drop self.old.element rows.now.elements)
            → RuleDoes bytes frame (all_rows format.now.format) rows.now rule self.old self.new
            pieces.old pieces.new }
    {
        let columns = rows.columns();
        if columns.len().saturating_sub(rule.column) > 1 {
            self.come_behind(pieces, rows, format, rule);
        } else if rule.column < columns.len().max(1) {
            self.give_last(pieces, rows, format, rule);
        } else {
            self.end_rule(pieces, rows, format, rule);
        }
    }

    /// A line of rules comes behind a boundary between columns.
    fn come_behind(
        &mut self,
        pieces: &mut PieceQueue,
        rows: &TableRows,
        format: &FormatRows,
        rule: RuleBegun,
    )
        requires next { self.old.next ≡ AtRule rule }
        requires served { AreServed (all_rows format.now.format) rows.now.elements }
        requires within { rule.column + 1 < length rows.now.columns }
        requires lies { RuleLies (all_rows format.now.format) rows.now rule self.old
            (drop self.old.element rows.now.elements) }
        requires room { pieces.old.taken + 4 ≤ pieces.old.room }
        ensures { (bytes frame : List ℕ) → RuleStands bytes (all_rows format.now.format) rows.now
            rule self.old (drop self.old.element rows.now.elements)
            → RuleCrosses bytes frame (all_rows format.now.format) rows.now rule self.old self.new
            pieces.old pieces.new }
    {
        let columns = rows.columns();
        let count = self.met_behind(rows, format, rule);
        let is_on = goes_on(format, rule.line, rule.column);
        if draws_nothing(is_on, count) {
            self.go_over(rule, rule.from);
            return;
        }
        let column = columns[rule.column];
        let next = columns[rule.column + 1];
        let at = bar_place(count, column, next);
        let end = end_behind(is_on, at + count as usize, column, next);
        let sign = sign_over(format, rule.line, rule.column);
        self.give_behind(pieces, sign, rule.from, at, count, end);
        self.go_over(rule, end);
    }

    /// The line of rules goes on behind a column, where the rule over the next one begins at a
    /// place.
    fn go_over(&mut self, rule: RuleBegun, from: usize)
        requires next { self.old.next ≡ AtRule rule }
        requires small { rule.column < 2 ^ 64 - 1 }
        ensures { self.new ≡ record self.old { next = AtRule (rule_behind rule from) } }
    {
        self.rule.column = rule.column + 1;
        self.rule.from = from;
    }

    /// The rule over the last column.
    fn give_last(
        &mut self,
        pieces: &mut PieceQueue,
        rows: &TableRows,
        format: &FormatRows,
        rule: RuleBegun,
    )
        requires next { self.old.next ≡ AtRule rule }
        requires served { AreServed (all_rows format.now.format) rows.now.elements }
        requires lies { RuleLies (all_rows format.now.format) rows.now rule self.old
            (drop self.old.element rows.now.elements) }
        requires last { length rows.now.columns ≤ rule.column + 1 }
        requires within { rule.column < max 1 (length rows.now.columns) }
        requires room { pieces.old.taken + 4 ≤ pieces.old.room }
        ensures { (bytes frame : List ℕ) → RuleStands bytes (all_rows format.now.format) rows.now
            rule self.old (drop self.old.element rows.now.elements)
            → RuleCrosses bytes frame (all_rows format.now.format) rows.now rule self.old self.new
            pieces.old pieces.new }
    {
        let right = self.picture_width.saturating_sub(rule.right as usize);
        let to = rule_to(rule.line, right, rows.columns());
        let sign = sign_over(format, rule.line, rule.column);
        self.give_over(pieces, sign, rule.from, to);
        self.go_over(rule, to);
    }

    /// A line of rules ends.
    fn end_rule(
        &mut self,
        pieces: &mut PieceQueue,
        rows: &TableRows,
        format: &FormatRows,
        rule: RuleBegun,
    )
        requires served { AreServed (all_rows format.now.format) rows.now.elements }
        requires lies { RuleLies (all_rows format.now.format) rows.now rule self.old
            (drop self.old.element rows.now.elements) }
        requires fits { FirstFits self.old.room (all_rows format.now.format)
            (drop self.old.element rows.now.elements) }
        requires all { max 1 (length rows.now.columns) ≤ rule.column }
        requires room { pieces.old.taken + 4 ≤ pieces.old.room }
        ensures { (bytes frame : List ℕ) → RuleStands bytes (all_rows format.now.format) rows.now
            rule self.old (drop self.old.element rows.now.elements)
            → RuleEnds bytes frame (all_rows format.now.format) rows.now rule self.old self.new
            pieces.old pieces.new }
    {
        let right = rule.right as usize;
        let at = self.picture_width.saturating_sub(right);
        self.give_mark(pieces, at, edge_byte(rule.line), right);
        pieces.add(Piece::LineEnd);
        self.go_behind_rule(rows, format, rule);
    }

    /// Behind a line of rules.
    fn go_behind_rule(&mut self, rows: &TableRows, format: &FormatRows, rule: RuleBegun)
        requires served { AreServed (all_rows format.now.format) rows.now.elements }
        requires lies { RuleLies (all_rows format.now.format) rows.now rule self.old
            (drop self.old.element rows.now.elements) }
        requires fits { FirstFits self.old.room (all_rows format.now.format)
            (drop self.old.element rows.now.elements) }
        ensures { (bytes : List ℕ) → RuleStands bytes (all_rows format.now.format) rows.now rule
            self.old (drop self.old.element rows.now.elements)
            → LineEnded rule.line bytes (all_rows format.now.format) rows.now rule self.old
            self.new }
    {
        match rule.line {
            RuleLine::Whole(_, is_last) => {
                self.above = Beside::Nothing;
                self.next = next_behind_rule(is_last);
            }
            RuleLine::OfKeys(row, left) => self.go_behind_rule_row(rows, format, rule, row, left),
        }
    }
}
