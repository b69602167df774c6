//! That the picture of a table in which no cell goes on is the plain one, as contracts of functions
//! that do nothing.

ghost use Rattle.std.specs.List.{AllByRecursion};
ghost use Rattle.std.specs.Prelude.{◌≡◌, ◌<◌, ℕ, List, length};
ghost use Rattle.tbl_format.specs.Format.{FormatRow};
ghost use Rattle.tbl_kept.specs.Rows.{ElementLaid, KeptElement, elements_of};
ghost use Rattle.tbl_layout.specs.Entries.{Element};
ghost use Rattle.tbl_layout.specs.Heights.{NoneAbove};
ghost use Rattle.tbl_layout.specs.LayoutLaws.{StandInOrder};
ghost use Rattle.tbl_lines.specs.PictureLeft.{table_lines};
ghost use Rattle.tbl_lines.specs.PictureLines.{Sheet, picture_lines};
ghost use Rattle.tbl_lines.specs.RowsAlone.{AllHaveWidth, AllPlaced, AllWithin};
ghost use Rattle.tbl_lines.specs.RulePlaces.{HavePlaces};

/// Where no cell of a table goes on with one above it, and each has a width, its lines are those of
/// its rows, each by itself.
pub fn plain_table()
    ensures { (s : Sheet) (elements : List Element) → AllByRecursion NoneAbove elements
        → 0 < length s.columns → AllWithin (length s.columns) elements → AllHaveWidth elements
        → StandInOrder s.bars s.width s.columns → AllPlaced s.bars.front s.columns elements
        → table_lines s elements ≡ picture_lines s elements }
{}

/// Where no cell of a table as it is kept goes on with one above it, and each has a width, its
/// lines are those of its rows, each by itself. There are places for the bars of all rows of its
/// formats.
pub fn plain_kept()
    ensures { (bytes : List ℕ) (formats : List FormatRow) (s : Sheet) (elements : List KeptElement)
        → AllByRecursion NoneAbove (elements_of bytes formats elements)
        → AllHaveWidth (elements_of bytes formats elements)
        → AllByRecursion (ElementLaid bytes formats (length s.columns)) elements
        → 0 < length s.columns → HavePlaces formats s
        → table_lines s (elements_of bytes formats elements)
        ≡ picture_lines s (elements_of bytes formats elements) }
{}
