//! Facts about the definition of a table, as contracts of functions that do nothing.

ghost use Rattle.tbl_table.specs.Few.{NotesAreFew, RowsAreFew};
ghost use Rattle.tbl_table.specs.NotesStay.{NotesStay};

/// The messages of a table so far are a beginning of those of a longer one, and of those at its
/// end.
pub fn stable()
    ensures { NotesStay }
{}

/// A line has at most one message for each of its bytes and its newline, and the table's end one,
/// and one for each text, of which a line has no more.
pub fn few_messages()
    ensures { NotesAreFew }
{}

/// A line ends at most one row or command, and no more than are counted once it has ended.
pub fn few_rows()
    ensures { RowsAreFew }
{}
