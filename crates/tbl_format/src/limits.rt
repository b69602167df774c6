//! The values of the limits of tables.

ghost use Rattle.std.specs.Prelude.{◌≡◌, decimal};
ghost use Rattle.tbl_format.specs.TblLimits.{default_tbl_limits, tbl_limits_with, tbl_value_of};

use roff_num::Limit;

/// The values of the limits that stop the formatting of tables. Those of the formatter of text
/// aren't among them.
#[derive(Clone, Copy)]
pub struct TblLimits {
    /// The rows of a table: data rows, rule lines and commands.
    pub rows: u32,
    /// The columns of a table.
    pub columns: u32,
    /// The bytes between a table's `.TS` and its `.TE` line.
    pub text: u32,
    /// The columns of a table's picture.
    pub width: u32,
    /// The bytes of the input.
    pub bytes: u32,
    /// The bytes given to the output, where tables alone are formatted.
    pub output: u32,
    /// The bytes of messages of the input, where tables alone are formatted. The greatest value
    /// bounds nothing that a run can tell.
    pub messages: u64,
}

impl Default for TblLimits {
    ghost is_default = { λ l. l ≡ default_tbl_limits };

    fn default() -> Self {
        TblLimits::DEFAULT
    }
}

impl TblLimits {
    /// The values that hold where none is set.
    pub const DEFAULT: TblLimits = TblLimits {
        rows: 5_000,
        columns: 40,
        text: 262_144,
        width: 4_096,
        bytes: 50_000_000,
        output: 200_000_000,
        messages: u64::MAX,
    };

    /// A limit's value where none is set, in decimal, as an option prints it.
    #[tactic(auto, using(crate::proofs::DefaultTexts::decimal_default))]
    pub fn default_text(limit: Limit) -> &'static str
        ensures { result.now ≡ decimal (tbl_value_of default_tbl_limits limit) }
    {
        match limit {
            Limit::Rows => "5000",
            Limit::Columns => "40",
            Limit::Text => "262144",
            Limit::Width => "4096",
            Limit::TblBytes => "50000000",
            Limit::Output => "200000000",
            Limit::Messages => "18446744073709551615",
            Limit::Bytes
            | Limit::Stack
            | Limit::Depth
            | Limit::Line
            | Limit::Traps
            | Limit::Diversions
            | Limit::Environments
            | Limit::Conditions
            | Limit::Store
            | Limit::Names => "0",
        }
    }

    /// The value of a limit; 0 for those of the formatter alone, which never stop tables.
    pub fn value(self, limit: Limit) -> u64
        ensures { result ≡ tbl_value_of self limit }
    {
        match limit {
            Limit::Rows => u64::from(self.rows),
            Limit::Columns => u64::from(self.columns),
            Limit::Text => u64::from(self.text),
            Limit::Width => u64::from(self.width),
            Limit::TblBytes => u64::from(self.bytes),
            Limit::Output => u64::from(self.output),
            Limit::Messages => self.messages,
            Limit::Bytes
            | Limit::Stack
            | Limit::Depth
            | Limit::Line
            | Limit::Traps
            | Limit::Diversions
            | Limit::Environments
            | Limit::Conditions
            | Limit::Store
            | Limit::Names => 0,
        }
    }

    /// Sets a limit. One of the formatter alone isn't among these, and changes nothing.
    pub fn set(&mut self, limit: Limit, value: u32)
        ensures { self.new ≡ tbl_limits_with self.old limit value }
    {
        match limit {
            Limit::Rows => self.rows = value,
            Limit::Columns => self.columns = value,
            Limit::Text => self.text = value,
            Limit::Width => self.width = value,
            Limit::TblBytes => self.bytes = value,
            Limit::Output => self.output = value,
            Limit::Messages => self.messages = u64::from(value),
            Limit::Bytes
            | Limit::Stack
            | Limit::Depth
            | Limit::Line
            | Limit::Traps
            | Limit::Diversions
            | Limit::Environments
            | Limit::Conditions
            | Limit::Store
            | Limit::Names => {}
        }
    }
}
