//! What holds of the rows of formats, as contracts of functions that do nothing.

ghost use Rattle.tbl_format.specs.Format.{Format};
ghost use Rattle.tbl_format.specs.FormatLaws.{AreHeld, IsRead};

/// However formats are read, the cells of each whole row have a column at least, and no more than
/// the table has; and no row has more bars in front of a cell, or behind the last, than are asked
/// for there.
pub fn rows_held()
    ensures { (f : Format) → IsRead f → AreHeld f }
{}
