//! What holds of columns and of the bars between them, as contracts of functions that do nothing.

ghost use Rattle.std.specs.Prelude.{◌≡◌, ◌++◌, ◌∷◌, [], ℕ, Bool, false, List, length, map};
ghost use Rattle.std.specs.List.{AllByRecursion};
ghost use Rattle.tbl_format.specs.Format.{FormatRow};
ghost use Rattle.tbl_format.specs.FormatRows.{AreWithin};
ghost use Rattle.tbl_format.specs.declared.format.Asked.{Asked};
ghost use Rattle.tbl_format.specs.declared.format.FormatKey.{FormatKey};
ghost use Rattle.tbl_layout.specs.Columns.{IsLeast, laid_by};
ghost use Rattle.tbl_layout.specs.Entries.{Content, Element, Row};
ghost use Rattle.tbl_layout.specs.EntriesFit.{EntriesFit, FieldsFit, HaveWideKeys};
ghost use Rattle.tbl_layout.specs.HeightLaws.{EachHigh};
ghost use Rattle.tbl_layout.specs.Heights.{heights};
ghost use Rattle.tbl_layout.specs.LayoutLaws.{AreInOrder, HaveRoom, IsAsWide, StandInOrder};
ghost use Rattle.tbl_layout.specs.SpanLaws.{AreFitted, HoldAll};
ghost use Rattle.tbl_layout.specs.Spans.{Wide, cells_of, filled, laid};
ghost use Rattle.tbl_layout.specs.declared.bars.Bars.{Bars};
ghost use Rattle.tbl_layout.specs.declared.columns.Column.{Column};
ghost use Rattle.tbl_layout.specs.declared.columns.Stands.{Stands};

/// A column is wide enough for what is asked of it and for all its entries, and no wider than it
/// has to be.
pub fn least_widths()
    ensures { (asked : Asked) (entries : List Stands) → IsLeast asked entries }
{}

/// With `expand` a picture is as wide as the line, if it isn't wider and its columns are apart.
/// Any other is as wide as its columns, their separations and its edges.
pub fn expanded()
    ensures { (bars : Bars) (line_length : ℕ) (asked : List Asked) (columns : List Column)
        → IsAsWide bars line_length asked columns }
{}

/// Columns keep their widths and stand in order, each behind the one before it by its separation
/// at least; the first begins at the left edge, and the last ends at the right one.
pub fn in_order()
    ensures { (bars : Bars) (is_expanded : Bool) (line_length : ℕ) (asked : List Asked)
        (columns : List Column) → length columns ≡ length asked
        → AreInOrder bars asked columns (laid_by bars is_expanded line_length asked columns) }
{}

/// Between columns that have their places there are as many places as the bars that they ask for,
/// and at the edges of the picture too.
pub fn places_between()
    ensures { (bars : Bars) (is_expanded : Bool) (line_length : ℕ) (asked : List Asked)
        (columns : List Column) → map (λ (c : Column). c.bars) columns
        ≡ map (λ (a : Asked). a.bars) asked
        → StandInOrder bars (laid_by bars is_expanded line_length asked columns).width
        (laid_by bars is_expanded line_length asked columns).columns }
{}

/// Bars between two columns have a blank at each side, where the columns are as far apart as these
/// bars ask. One bar stands at one of the two places of two.
pub fn bars_apart()
    ensures { (bars : Bars) (a : Asked) (c d : Column) → HaveRoom bars a c d }
{}

/// Entries of several columns get room: no column becomes narrower, and in the end each of them
/// fits its columns and the separations between, also those that came first.
pub fn fitted()
    ensures { (bars : Bars) (asked : List Asked) (entries : List Wide) (columns : List Column)
        → AreFitted bars asked entries columns }
{}

/// The columns of a table are no narrower than their own entries need, and its entries of several
/// columns fit them.
pub fn hold_all()
    ensures { (bars : Bars) (line_length : ℕ) (asked : List Asked) (elements : List Element)
        → HoldAll bars line_length asked elements }
{}

/// In a picture each column is wide enough for what is asked of it and for its own entries, and
/// each entry of several columns fits these as one, with the separations between.
pub fn entries_fit()
    ensures { (bars : Bars) (is_expanded : Bool) (line_length : ℕ) (asked : List Asked)
        (elements : List Element) → EntriesFit bars is_expanded line_length asked elements }
{}

/// The fields of each row of a table fit their cells in its picture, where its keys have no `z`.
pub fn fields_fit()
    ensures { (bars : Bars) (is_expanded : Bool) (line_length : ℕ) (asked : List Asked)
        (elements before after : List Element) (rules : List FormatRow) (format : FormatRow)
        (fields : List Content)
        → filled bars line_length asked elements ≡ before ++ Row rules format fields ∷ after
        → AreWithin (length asked) format.keys → HaveWideKeys 0 format.keys
        → AllByRecursion (λ (k : FormatKey). k.has_no_width ≡ false) format.keys
        → FieldsFit format.keys fields (cells_of format.keys
        (laid bars is_expanded line_length asked elements).columns) }
{}

/// Each row of a table is one line high at least, and just so high that nothing is left of the
/// cells that end with it: the last row of a cell of several rows grows, and no other.
pub fn rows_high()
    ensures { (is_inside : Bool) (columns : ℕ) (elements : List Element)
        → EachHigh is_inside columns [] [] 0 (heights is_inside columns elements) elements }
{}
