//! Which row of a format serves the next row of the data (Lesk, "Tbl": Format).

ghost use Rattle.std.specs.Prelude.{◌≡◌, ◌+◌, ◌≤◌, ◌^◌, ◌<◌, drop, length};
ghost use Rattle.tbl_data.specs.TableData.{serving_from};
ghost use Rattle.tbl_format.specs.RowsServed.{all_rows};
ghost use Rattle.tbl_layout.specs.RuleKeys.{rule_rows};

use crate::table_data::TableData;
use tbl_format::format_rows::FormatRows;
use tbl_layout::rule_keys::is_rule_row;

impl TableData {
    /// The row from this one on, among those of all formats, that takes a row of the data serves
    /// the next one: those in front of it are rows of rule keys alone.
    pub fn serve_from(&mut self, first: usize)
        requires { first ≤ length (all_rows self.old.format.format) }
        ensures { self.new ≡ serving_from first self.old }
    {
        self.keys = behind_rule_rows(&self.format, first);
        self.rules = self.keys - first;
    }
}

/// The row behind those of rule keys alone, which take no row of the data, among the rows of all
/// formats from one on.
fn behind_rule_rows(format: &FormatRows, first: usize) -> usize
    requires { first ≤ length (all_rows format.now.format) }
    ensures { result ≡ first + rule_rows (drop first (all_rows format.now.format)) }
{
    let count = format.all_rows();
    let mut at = first;
    while at < count && count - at > 1 && is_rule_row(format.row_of_all(at)) {
        at += 1;
    }
    at
}
