//! The values of the formatter's limits.

ghost use Rattle.std.specs.Prelude.{◌≡◌, decimal};
ghost use Rattle.roff_num.specs.Clauses.{default_limits, limits_with, value_of};

use crate::limit::Limit;

/// The values of the limits that stop a run of the formatter. Those of tables aren't among them.
#[derive(Clone, Copy)]
pub struct Limits {
    /// The items taken from the source: bytes, ends of pushed texts, events put back.
    pub bytes: u32,
    /// The bytes of bodies and of open texts.
    pub store: u32,
    /// The pushed bytes that aren't read yet, and the texts held while they are read.
    pub stack: u32,
    /// The pushed texts that haven't ended.
    pub depth: u32,
    /// The names defined past those at the start, and as many registers, counted apart.
    pub names: u32,
    /// The bytes of a pending line or of a title.
    pub line: u32,
    /// The page traps planted.
    pub traps: u32,
    /// The bytes given to the output.
    pub output: u32,
    /// The diversions open at once.
    pub diversions: u32,
    /// The environments that were not gone back from.
    pub environments: u32,
    /// The conditions whose results are kept for their other branch.
    pub conditions: u32,
    /// The bytes of messages, but for one that says why the run ended. The greatest value bounds
    /// nothing that a run can tell.
    pub messages: u64,
}

impl Default for Limits {
    ghost is_default = { λ l. l ≡ default_limits };

    fn default() -> Self {
        Limits::DEFAULT
    }
}

impl Limits {
    /// The values that hold where none is set.
    pub const DEFAULT: Limits = Limits {
        bytes: 50_000_000,
        store: 1_048_576,
        stack: 262_144,
        depth: 200,
        names: 2_000,
        line: 4_096,
        traps: 64,
        output: 200_000_000,
        diversions: 16,
        environments: 32,
        conditions: 64,
        messages: u64::MAX,
    };

    /// A limit's value where none is set, in decimal, as an option prints it.
    #[tactic(auto, using(crate::proofs::DefaultTexts::decimal_default))]
    pub fn default_text(limit: Limit) -> &'static str
        ensures { result.now ≡ decimal (value_of default_limits limit) }
    {
        match limit {
            Limit::Bytes => "50000000",
            Limit::Store => "1048576",
            Limit::Stack => "262144",
            Limit::Depth => "200",
            Limit::Names => "2000",
            Limit::Line => "4096",
            Limit::Traps | Limit::Conditions => "64",
            Limit::Output => "200000000",
            Limit::Diversions => "16",
            Limit::Environments => "32",
            Limit::Messages => "18446744073709551615",
            Limit::Rows | Limit::Columns | Limit::Text | Limit::Width | Limit::TblBytes => "0",
        }
    }

    /// The value of a limit; 0 for those of tables, which never stop the formatter.
    pub fn value(self, limit: Limit) -> u64
        ensures { result ≡ value_of self limit }
    {
        match limit {
            Limit::Bytes => u64::from(self.bytes),
            Limit::Stack => u64::from(self.stack),
            Limit::Depth => u64::from(self.depth),
            Limit::Line => u64::from(self.line),
            Limit::Traps => u64::from(self.traps),
            Limit::Diversions => u64::from(self.diversions),
            Limit::Environments => u64::from(self.environments),
            Limit::Conditions => u64::from(self.conditions),
            Limit::Output => u64::from(self.output),
            Limit::Store => u64::from(self.store),
            Limit::Names => u64::from(self.names),
            Limit::Messages => self.messages,
            Limit::Rows | Limit::Columns | Limit::Text | Limit::Width | Limit::TblBytes => 0,
        }
    }

    /// Sets a limit. One of tables isn't among these, and changes nothing.
    pub fn set(&mut self, limit: Limit, value: u32)
        ensures { self.new ≡ limits_with self.old limit value }
    {
        match limit {
            Limit::Bytes => self.bytes = value,
            Limit::Stack => self.stack = value,
            Limit::Depth => self.depth = value,
            Limit::Line => self.line = value,
            Limit::Traps => self.traps = value,
            Limit::Diversions => self.diversions = value,
            Limit::Environments => self.environments = value,
            Limit::Conditions => self.conditions = value,
            Limit::Output => self.output = value,
            Limit::Store => self.store = value,
            Limit::Names => self.names = value,
            Limit::Messages => self.messages = u64::from(value),
            Limit::Rows | Limit::Columns | Limit::Text | Limit::Width | Limit::TblBytes => {}
        }
    }
}
