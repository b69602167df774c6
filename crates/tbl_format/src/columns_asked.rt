//! What the keys of a row ask for their columns.

ghost use Rattle.std.specs.Prelude.{◌≡◌, ◌<◌, ◌≤◌, length, vec_capacity};
ghost use Rattle.tbl_format.specs.Format.{asked_by, asking, with_columns};

use crate::format::Asked;
use crate::format_step::Does;

/// One column more, behind a row that has so many, if it is the longest.
pub(crate) fn push_column(asked: &mut Vec<Asked>, count: usize)
    requires few { count ≤ length asked.old.items }
    requires room { length (with_columns asked.old.items count) ≤ vec_capacity asked.old }
    ensures items { asked.new.items ≡ with_columns asked.old.items count }
    ensures capacity { vec_capacity asked.new ≡ vec_capacity asked.old }
{
    if count == asked.len() {
        asked.push_reserved(Asked::NOTHING);
    }
}

/// What asks something for the last of so many columns.
pub(crate) fn ask(asked: &mut Vec<Asked>, columns: usize, does: Does)
    requires { columns ≤ length asked.old.items }
    ensures items { asked.new.items ≡ asking (asked_by does) columns asked.old.items }
    ensures capacity { vec_capacity asked.new ≡ vec_capacity asked.old }
{
    if columns > 0 {
        asked[columns - 1] = asked[columns - 1].asked_by(does);
    }
}
