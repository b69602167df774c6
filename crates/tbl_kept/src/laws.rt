//! What holds of the rows of a table, as the contract of a function that does nothing.

ghost use Rattle.std.specs.Prelude.{Bool, List, ℕ};
ghost use Rattle.std.specs.List.{AllByRecursion};
ghost use Rattle.tbl_format.specs.Format.{FormatRow};
ghost use Rattle.tbl_kept.specs.Rows.{IsPlainTable, KeptRows, RowsLaid, elements_of};
ghost use Rattle.tbl_layout.specs.Heights.{NoneAbove};

/// Where no cell goes on with the one above it, each row is as high as the most lines of its
/// fields.
pub fn plain_rows()
    ensures { (bytes : List ℕ) (formats : List FormatRow) (is_inside : Bool) (rows : KeptRows)
        → RowsLaid bytes formats is_inside rows
        → AllByRecursion NoneAbove (elements_of bytes formats rows.elements) → IsPlainTable rows }
{}
