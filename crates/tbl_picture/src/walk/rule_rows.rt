//! How lines of rules begin, and the rows of rule keys in front of a row of the data, as a walk
//! gives them.

ghost use Rattle.std.specs.Prelude.{◌≡◌, ℕ, suc, ◌+◌, ◌-◌, ◌<◌, ◌≤◌, ◌^◌, List, drop, length};
ghost use Rattle.std.specs.Prelude.{false, true};
ghost use Rattle.tbl_format.specs.RowsServed.{all_rows};
ghost use Rattle.tbl_layout.specs.LayoutLaws.{first_start};
ghost use Rattle.tbl_picture.specs.ElementsWalked.{FirstFits, RowBehind, RulesCome, keys_front};
ghost use Rattle.tbl_picture.specs.ElementsWalked.{rule_row_begun};
ghost use Rattle.tbl_lines.specs.PictureLines.{Whole, behind_rules, met_at_edge};
ghost use Rattle.tbl_lines.specs.RowsWalked.{AreNarrow};
ghost use Rattle.tbl_picture.specs.RulesWalked.{AreServed, IsRowThere, KeysEnded, LastIs};
ghost use Rattle.tbl_picture.specs.RulesWalked.{LengthsAre, RuleBegins, RuleLies, RuleStands};
ghost use Rattle.tbl_picture.specs.RulesWalked.{line_beside, rows_at, rows_of, rules_first};
ghost use Rattle.tbl_pieces.specs.PieceQueue.{Adds};

use super::beside::{
    Beside, RuleRows, Side, lengths_above, lengths_behind, lengths_of, most_at_edge, row_below,
    rules_of, shown_at_edge,
};
use super::rules::{BAR, CROSSING, RuleBegun, RuleLine};
use super::{Next, Walk};
use tbl_format::format_rows::FormatRows;
use tbl_kept::rows::{Lent, TableRows};
use tbl_layout::columns::Column;
use tbl_layout::data_lines::RuleSign;
use tbl_pieces::piece_queue::PieceQueue;
use tbl_pieces::pieces::Piece;

/// Where the first column begins, in a picture at whose left edge so many bars stand.
fn first_start(columns: &[Column], left: u8) -> usize
    ensures { result ≡ first_start left columns.now }
{
    match columns.first() {
        Some(column) => column.start,
        None => left as usize,
    }
}

/// The row of rule keys behind this one, which is one among the rows of all formats, where so many
/// follow it.
fn rule_row_behind(
    format: &FormatRows,
    columns: &[Column],
    rule: RuleBegun,
    row: usize,
    left: usize,
) -> RuleBegun
    requires some { 0 < left }
    requires within { row + suc left ≤ length (all_rows format.now.format) }
    requires lengths { LengthsAre (rows_at (all_rows format.now.format) (suc row) left)
        rule.below.rules }
    requires last { LastIs (all_rows format.now.format) (suc row) left rule.below.rules }
    ensures { RowBehind (all_rows format.now.format) columns.now rule row left result }
{
    let _ = format.all_rows();
    let keys = format.row_of_all(row).len();
    let behind = RuleRows {
        first: row + 2,
        count: left - 1,
    };
    RuleBegun {
        line: RuleLine::OfKeys(row + 1, left - 1),
        column: 0,
        from: first_start(columns, rule.left),
        above: Side {
            line: rule.above.line,
            rules: lengths_above(rule.above.rules, keys, row),
        },
        below: Side {
            line: rule.below.line,
            rules: lengths_behind(format, rule.below.rules, behind),
        },
        left: rule.left,
        right: rule.right,
    }
}

impl Walk {
    /// A rule over the whole picture begins, in front of the next element, in a picture that may
    /// have bars.
    pub(super) fn begin_rule(
        &mut self,
        pieces: &mut PieceQueue,
        rows: &TableRows,
        format: &FormatRows,
        sign: RuleSign,
        is_last: bool,
    )
        requires element { self.old.element ≤ length rows.now.elements }
        requires served { AreServed (all_rows format.now.format) rows.now.elements }
        requires above { IsRowThere rows.now.elements self.old.above }
        requires room { pieces.old.taken + 4 ≤ pieces.old.room }
        ensures { (bytes frame : List ℕ) → AreNarrow rows.now.columns
            → RuleBegins bytes frame (all_rows format.now.format) rows.now sign is_last self.old
            self.new pieces.old pieces.new }
    {
        let below = row_below(rows, self.element);
        let rules = rules_of(rows, below);
        let left = self.met_at_edge(rows, format, below, rules, 0);
        let right = self.met_at_edge(rows, format, below, rules, rows.columns().len());
        pieces.add(Piece::LineFront);
        pieces.add(Piece::Repeated(CROSSING, left as usize));
        self.place = left as u128;
        self.rule = RuleBegun {
            line: RuleLine::Whole(sign, is_last),
            column: 0,
            from: left as usize,
            above: Side {
                line: self.above,
                rules: None,
            },
            below: Side {
                line: below,
                rules: lengths_of(format, rules),
            },
            left,
            right,
        };
        self.next = Next::AtRule;
    }

    /// The first of the rows of rule keys comes next that stand in front of the row that is the
    /// next element.
    pub(super) fn come_to_rule_rows(
        &mut self,
        rows: &TableRows,
        format: &FormatRows,
        rules: RuleRows,
    )
        requires served { AreServed (all_rows format.now.format) rows.now.elements }
        requires above { IsRowThere rows.now.elements self.old.above }
        requires some { 0 < rules.count }
        requires there { rules ≡ rules_first (drop self.old.element rows.now.elements) }
        ensures { (bytes : List ℕ) → AreNarrow rows.now.columns
            → RulesCome bytes (all_rows format.now.format) rows.now rules.first (rules.count - 1)
            self.old self.new }
    {
        let _ = format.all_rows();
        let below = Beside::Row(self.element);
        let left = self.met_at_edge(rows, format, below, rules, 0);
        let behind = RuleRows {
            first: rules.first + 1,
            count: rules.count - 1,
        };
        self.rule = RuleBegun {
            line: RuleLine::OfKeys(rules.first, behind.count),
            column: 0,
            from: first_start(rows.columns(), left),
            above: Side {
                line: self.above,
                rules: None,
            },
            below: Side {
                line: below,
                rules: lengths_of(format, behind),
            },
            left,
            right: self.met_at_edge(rows, format, below, rules, rows.columns().len()),
        };
        self.next = Next::AtRuleRow;
    }

    /// The line of a row of rule keys begins.
    pub(super) fn begin_rule_row(&mut self, pieces: &mut PieceQueue, rule: RuleBegun)
        requires room { pieces.old.taken + 4 ≤ pieces.old.room }
        ensures walk { self.new ≡ rule_row_begun rule self.old }
        ensures adds { (block frame : List ℕ)
            → Adds block frame 4 pieces.old pieces.new (keys_front rule.left) }
    {
        pieces.add(Piece::LineFront);
        pieces.add(Piece::Repeated(BAR, rule.left as usize));
        self.place = rule.left as u128;
        self.rule = rule;
        self.next = Next::AtRule;
    }

    /// How many bars meet at an edge of the picture, on a line of rules above these rows of rule
    /// keys, or on one of them.
    fn met_at_edge(
        &self,
        rows: &TableRows,
        format: &FormatRows,
        below: Beside,
        rules: RuleRows,
        at: usize,
    ) -> u8
        requires served { AreServed (all_rows format.now.format) rows.now.elements }
        requires above { IsRowThere rows.now.elements self.now.above }
        requires below { IsRowThere rows.now.elements below }
        requires rules { rules.first + rules.count ≤ length (all_rows format.now.format) }
        ensures { (bytes : List ℕ) (sign : RuleSign)
            → result ≡ met_at_edge self.now.bars (Whole sign)
            (line_beside bytes (all_rows format.now.format) false rows.now.elements self.now.above)
            (behind_rules (rows_of (all_rows format.now.format) rules)
            (line_beside bytes (all_rows format.now.format) true rows.now.elements below)) at }
    {
        if !self.bars.has_any {
            return 0;
        }
        let boxing = self.bars.boxing;
        let above = shown_at_edge(boxing, rows, format, self.above, at);
        let below = shown_at_edge(boxing, rows, format, below, at);
        most_at_edge(boxing, format, rules, at).max(above.max(below))
    }

    /// Behind a row of rule keys the next one comes, where some follow it, or the row of the data.
    pub(super) fn go_behind_rule_row(
        &mut self,
        rows: &TableRows,
        format: &FormatRows,
        rule: RuleBegun,
        row: usize,
        left: usize,
    )
        requires line { rule.line ≡ RuleLine.OfKeys row left }
        requires served { AreServed (all_rows format.now.format) rows.now.elements }
        requires lies { RuleLies (all_rows format.now.format) rows.now rule self.old
            (drop self.old.element rows.now.elements) }
        requires fits { FirstFits self.old.room (all_rows format.now.format)
            (drop self.old.element rows.now.elements) }
        ensures { (bytes : List ℕ) → RuleStands bytes (all_rows format.now.format) rows.now rule
            self.old (drop self.old.element rows.now.elements)
            → KeysEnded bytes (all_rows format.now.format) rows.now rule row left self.old
            self.new }
    {
        if left > 0 {
            self.rule = rule_row_behind(format, rows.columns(), rule, row, left);
            self.next = Next::AtRuleRow;
        } else if let Lent::Row(keys, _, _, entries) = rows.element(self.element) {
            self.begin_row(format.row_of_all(keys), entries);
        }
    }
}
