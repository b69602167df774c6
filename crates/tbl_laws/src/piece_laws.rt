//! Where the pieces of a picture's lines stand, as contracts of functions that do nothing.

ghost use Rattle.std.specs.Prelude.{◌<◌, ℕ, List, length};
ghost use Rattle.tbl_format.specs.Format.{FormatRow};
ghost use Rattle.tbl_format.specs.FormatRows.{AreWithin};
ghost use Rattle.tbl_layout.specs.Entries.{Content};
ghost use Rattle.tbl_layout.specs.EntriesFit.{FieldsFit};
ghost use Rattle.tbl_layout.specs.LayoutLaws.{StandInOrder};
ghost use Rattle.tbl_layout.specs.Spans.{cells_of};
ghost use Rattle.tbl_layout.specs.declared.columns.Column.{Column};
ghost use Rattle.tbl_lines.specs.CellsLeft.{Left, all_keys};
ghost use Rattle.tbl_lines.specs.LinesLeft.{Beside, row_line, rule_fronts};
ghost use Rattle.tbl_lines.specs.LinesLeft.{rule_line_left, rule_shown};
ghost use Rattle.tbl_lines.specs.PictureLines.{Cell, RuleLine, Sheet};
ghost use Rattle.tbl_laws.specs.PiecesApart.{AreSpaced, BeginAtColumns, InTurn, IsApart};
ghost use Rattle.tbl_laws.specs.PiecesApart.{BarsFitRow, BarsFitRule, CellsCover, CellsFit};
ghost use Rattle.tbl_laws.specs.PiecesApart.{Stay, columns_of_cells};
ghost use Rattle.tbl_laws.specs.PiecesApart.{RowStands, RuleStands, StandApart, fronts_of_row};
ghost use Rattle.tbl_laws.specs.PiecesApart.{shown_in_row};
ghost use Rattle.tbl_lines.specs.RowsAlone.{alone_from};

/// Where the pieces of a line stand apart, each begins at its own column of the page.
pub fn begin_at_columns()
    ensures { (width : ℕ) (cells : List Cell) → StandApart width 0 cells → BeginAtColumns cells }
{}

/// The pieces of a line of a row stand apart, and the last of them ends within the picture: where
/// its cells fit their columns, and these stand in order, with places for its bars.
pub fn row_apart()
    ensures { (s : Sheet) (last : ℕ) (cells : List Left) → RowStands s last cells
        → InTurn (shown_in_row s cells)
        → IsApart s.width (row_line s last cells) (fronts_of_row s last cells)
        (shown_in_row s cells) }
{}

/// The pieces of a line of rules stand apart, and the last of them ends within the picture, in
/// front of a row of which these cells go on with the row above: where there are places for the
/// bars that meet on it, and such cells fit their columns.
pub fn rule_apart()
    ensures { (s : Sheet) (line : RuleLine) (cells : List Left) (above below : Beside)
        → RuleStands s line cells above below → InTurn (rule_shown s line cells above below)
        → IsApart s.width (rule_line_left s line cells above below)
        (rule_fronts s line cells above below) (rule_shown s line cells above below) }
{}

/// What the cells of a row show stands in the order of their columns, where there is a column of
/// the page at least between these.
pub fn row_in_turn()
    ensures { (s : Sheet) (last : ℕ) (cells : List Left) → RowStands s last cells
        → AreSpaced (columns_of_cells s cells) → InTurn (shown_in_row s cells) }
{}

/// What a line of rules shows stands in the order of the columns, where there is a column of the
/// page at least between these.
pub fn rule_in_turn()
    ensures { (s : Sheet) (line : RuleLine) (cells : List Left) (above below : Beside)
        → RuleStands s line cells above below → AreSpaced s.columns
        → InTurn (rule_shown s line cells above below) }
{}

/// The cells of a row stand in order, where the columns of the table do, they cover these and fit
/// them, and there are places for their bars.
pub fn row_stands()
    ensures { (s : Sheet) (last : ℕ) (cells : List Left) → 0 < length s.columns
        → StandInOrder s.bars s.width s.columns → CellsCover s cells → BarsFitRow s last cells
        → RowStands s last cells }
{}

/// The cells that go on through a line of rules stand in order, where the columns of the table do,
/// they cover these and fit them, and there are places for the bars.
pub fn rule_stands()
    ensures { (s : Sheet) (line : RuleLine) (cells : List Left) (above below : Beside)
        → 0 < length s.columns → StandInOrder s.bars s.width s.columns → CellsCover s cells
        → BarsFitRule s line cells above below → RuleStands s line cells above below }
{}

/// Behind a line of their row, or of rules in front of it, cells cover the columns and fit them as
/// before, and there are places for the same bars.
pub fn cells_stay()
    ensures { (s : Sheet) (last : ℕ) (cells : List Left) → CellsCover s cells
        → BarsFitRow s last cells → Stay s last cells }
{}

/// The cells with which a row begins fit their columns, where its fields do.
pub fn cells_begin()
    ensures { (columns : List Column) (format : FormatRow) (fields : List Content)
        → AreWithin (length columns) format.keys
        → FieldsFit format.keys fields (cells_of format.keys columns)
        → CellsFit (alone_from 0 0 (all_keys (length columns) format) fields)
        (cells_of (all_keys (length columns) format) columns) }
{}
