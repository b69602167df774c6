//! What holds of what is left of cells, as contracts of functions that do nothing.

ghost use Rattle.std.specs.List.{AllByRecursion};
ghost use Rattle.std.specs.Prelude.{◌≡◌, ℕ, List, map, true, Bool};
ghost use Rattle.tbl_format.specs.Format.{FormatRow};
ghost use Rattle.tbl_format.specs.RowsServed.{row_at};
ghost use Rattle.tbl_format.specs.declared.format.FormatKey.{FormatKey};
ghost use Rattle.tbl_kept.specs.Rows.{KeptElement, Row, elements_of};
ghost use Rattle.tbl_layout.specs.Entries.{Element};
ghost use Rattle.tbl_layout.specs.declared.entry.Entry.{Entry};
ghost use Rattle.tbl_lines.specs.CellsLeft.{Left, lines_over};
ghost use Rattle.tbl_lines.specs.LinesLeft.{joined_here};
ghost use Rattle.tbl_lines.specs.PictureLeft.{through_rules};
ghost use Rattle.tbl_lines.specs.PictureLines.{ruled_inside};
ghost use Rattle.tbl_options.specs.declared.options.Boxing.{Boxing};
ghost use Rattle.tbl_line_cells.specs.KeptCells.{ShowsRule, behind_rules};
ghost use Rattle.tbl_tall.specs.LinesOver.{HasInFront, heights_kept, lines_below, lines_kept};
ghost use Rattle.tbl_line_cells.specs.declared.cells.CellLeft.{CellLeft};

/// Below a row, the rules that a box adds inside count as one line where no other rule stands.
pub fn over_boxed()
    ensures { (boxing : Boxing) (keys : List FormatKey) (cell : ℕ) (heights : List ℕ)
        (elements : List Element)
        → lines_over keys cell 0 heights (ruled_inside boxing true elements)
        ≡ lines_below boxing.is_inside keys cell 0 heights elements }
{}

/// How many lines a cell has below its row, by the elements that are kept.
pub fn over_kept()
    ensures { (bytes : List ℕ) (formats : List FormatRow) (is_inside : Bool) (keys rules height : ℕ)
        (entries : List Entry) (cell passed : ℕ) (elements : List KeptElement)
        → AllByRecursion (HasInFront formats) elements
        → lines_below is_inside (row_at formats keys).keys cell passed (heights_kept elements)
        (elements_of bytes formats elements)
        ≡ lines_kept bytes formats is_inside (Row keys rules height entries) cell passed
        elements }
{}

/// Two cells that show the rules that others show are joined as these are.
pub fn joined_shown()
    ensures { (bytes : List ℕ) (c d : CellLeft) (l m : Left) (left : ShowsRule bytes c l)
        (right : ShowsRule bytes d m) → joined_here left.shown right.shown ≡ joined_here l m }
{}

/// All cells of a row behind lines of rules are each behind them.
pub fn each_behind()
    ensures { (rules : ℕ) (cells : List Left)
        → through_rules rules cells ≡ map (behind_rules rules) cells }
{}
