//! How many entries of a picture are cut.

ghost use Rattle.std.specs.Prelude.{◌≡◌};

use super::Giving;
use input_escapes::OpenEscapes;
use tbl_format::format_rows::FormatRows;
use tbl_kept::rows::TableRows;
use tbl_kept::table_text::TableText;
use tbl_layout::bars::Bars;

impl Giving {
    ghost use Rattle.tbl_giving.specs.Giving.{IsLaidOut, cuts_laid};

    /// How many entries are cut of the picture with these bars and so wide. What was to give is
    /// given up.
    pub fn count_cut(
        &mut self,
        escapes: &mut OpenEscapes,
        text: &TableText,
        rows: &TableRows,
        format: &FormatRows,
        bars: Bars,
        width: usize,
    ) -> usize
        requires { IsLaidOut bars width text.now rows.now format.now self.old.columns }
        ensures count { result ≡ cuts_laid bars width text.now rows.now format.now }
        ensures room { self.new.columns ≡ self.old.columns }
    {
        if !rows.may_run_on(format) {
            return 0;
        }
        rows.fields_stay_few();
        self.line_by_line
            .count_cut(escapes, text.block(), rows, format, bars, width)
    }
}
