//! What holds of lines of rules, as contracts of functions that do nothing.

ghost use Rattle.std.specs.Prelude.{◌≡◌, ◌<◌, ℕ, List, None, drop, length, map, suc, true};
ghost use Rattle.tbl_format.specs.Format.{FormatRow};
ghost use Rattle.tbl_format.specs.FormatRows.{AreWithin};
ghost use Rattle.tbl_format.specs.declared.format.FormatKey.{FormatKey};
ghost use Rattle.tbl_layout.specs.Entries.{Content, Element};
ghost use Rattle.tbl_layout.specs.Heights.{cell_above};
ghost use Rattle.tbl_layout.specs.RuleKeys.{is_rule_row};
ghost use Rattle.tbl_layout.specs.declared.columns.Column.{Column};
ghost use Rattle.tbl_lines.specs.CellsLeft.{Left, all_keys, bars_at_end, behind_line};
ghost use Rattle.tbl_lines.specs.CellsLeft.{cells_from, lines_over};
ghost use Rattle.tbl_lines.specs.CutEntries.{FewAreCut};
ghost use Rattle.tbl_lines.specs.PictureLeft.{row_lines};
ghost use Rattle.tbl_lines.specs.PictureLines.{Sheet, lines_from, row_cells};
ghost use Rattle.tbl_lines.specs.RowsAlone.{HaveWidth, alone_from};
ghost use Rattle.tbl_lines.specs.PictureLines.{OfKeys, places_mark, sign_in_front, sign_over};
ghost use Rattle.tbl_layout.specs.LayoutLaws.{StandInOrder};
ghost use Rattle.tbl_layout.specs.declared.data_lines.RuleSign.{RuleSign};
ghost use Rattle.tbl_options.specs.declared.options.Boxing.{Boxing};
ghost use Rattle.tbl_lines.specs.LinesLeft.{Beside, Nothing, OfRules, overs, rule_line_left};
ghost use Rattle.tbl_lines.specs.PictureLines.{Neighbour, NoRow, OfRules as OfRulesSeen};
ghost use Rattle.tbl_lines.specs.PictureLines.{RuleLine, Whole, rule_line};
ghost use Rattle.tbl_lines.specs.RulePlaces.{IsLinePlaced, IsPlaced};
ghost use Rattle.tbl_lines.specs.RulesAlone.{NoneGoOn, ShownAlike};

/// On a row of rule keys the places of bars between two columns are ruled, if one of these columns
/// is: as the first one, if it is.
pub fn ruled_beside()
    ensures { (format : FormatRow) (column count : ℕ) (c d : Column) → is_rule_row format ≡ true
        → places_mark (sign_over (OfKeys format) column)
        (sign_in_front (OfKeys format) (suc column)) count c d
        ≡ places_mark (sign_over (OfKeys format) column)
        (sign_over (OfKeys format) (suc column)) count c d }
{}

/// Behind a line of a row of which no cell goes on with another row, such cells are left.
pub fn behind_alone()
    ensures { (line cell : ℕ) (keys : List FormatKey) (fields : List Content)
        → map behind_line (alone_from line cell keys fields)
        ≡ alone_from (suc line) cell keys fields }
{}

/// The lines of a row of which no cell goes on with another row are those of its cells.
pub fn row_alone()
    ensures { (s : Sheet) (format : FormatRow) (fields : List Content)
        → AreWithin (length s.columns) format.keys → 0 < length s.columns → HaveWidth format.keys
        → (lines line : ℕ) → row_lines s (bars_at_end (length s.columns) format) lines
        (alone_from line 0 (all_keys (length s.columns) format) fields)
        ≡ lines_from line lines (row_cells s format fields) }
{}

/// Cells that go on with no other row begin with a row of which none goes on with one above, and
/// none of the next row with one of its own.
pub fn cells_alone()
    ensures { (keys : List FormatKey) (above : List Left) (heights : List ℕ)
        (elements : List Element) (format : FormatRow) (fields : List Content)
        → ((cell : ℕ) → cell_above keys format.keys fields cell ≡ None)
        → ((cell : ℕ) → lines_over format.keys cell 0 (drop 1 heights) elements ≡ 0)
        → (cell : ℕ) (own : List FormatKey)
        → cells_from keys above heights elements format fields cell own
        ≡ alone_from 0 cell own fields }
{}

/// A line of rules through which no cell goes is the plain one, where there are places for the bars
/// of the rows beside it.
pub fn rule_alone()
    ensures { (s : Sheet) (line : RuleLine) (cells : List Left) (above below : Beside)
        (up down : Neighbour) → NoneGoOn cells → 0 < length s.columns
        → ShownAlike s.bars.boxing (length s.columns) above up
        → ShownAlike s.bars.boxing (length s.columns) below down
        → StandInOrder s.bars s.width s.columns → IsLinePlaced s.bars.front s.columns line
        → IsPlaced s.bars.front s.columns up → IsPlaced s.bars.front s.columns down
        → rule_line_left s line cells above below ≡ rule_line s line up down }
{}

/// Where no line stands beside it, both show nothing there.
pub fn nothing_alike()
    ensures { (boxing : Boxing) (count : ℕ) → ShownAlike boxing count Nothing NoRow }
{}

/// A line of rule keys shows the same by both, if the line behind it does.
pub fn keys_alike()
    ensures { (boxing : Boxing) (count : ℕ) (format : FormatRow) (cells : List Left)
        (columns : List Column) (behind : Beside) (seen : Neighbour) → NoneGoOn cells
        → ShownAlike boxing count behind seen → ShownAlike boxing count
        (OfRules (OfKeys format) (overs 0 cells columns) behind) (OfRulesSeen format seen) }
{}

/// One over the whole picture shows none of the bars behind it.
pub fn whole_alike()
    ensures { (boxing : Boxing) (count : ℕ) (sign : RuleSign) (cells : List Left)
        (columns : List Column) (behind : Beside) → NoneGoOn cells
        → ShownAlike boxing count (OfRules (Whole sign) (overs 0 cells columns) behind) NoRow }
{}

/// No more entries are cut in a picture than texts stand in its table.
pub fn few_cut()
    ensures { FewAreCut }
{}
