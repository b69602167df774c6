//! Facts about what the lines of the data add to a table, as contracts of functions that do
//! nothing.

ghost use Rattle.tbl_data.specs.FieldsTaken.{TakesFields};

/// The fields of a line are taken one after another.
pub fn fields()
    ensures { TakesFields }
{}
