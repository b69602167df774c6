//! The limits that stop a run.

ghost use Rattle.std.specs.Prelude.{◌≡◌};
ghost use Rattle.roff_num.specs.Clauses.{limit_name};

/// A limit that stopped a run.
#[derive(Clone, Copy, Debug, PartialEq, Eq)]
pub enum Limit {
    /// The items taken from the source.
    Bytes,
    /// The pushed bytes that aren't read yet, and the texts held while they are read.
    Stack,
    /// The pushed texts that haven't ended.
    Depth,
    /// The bytes of a pending line or of a title.
    Line,
    /// The page traps planted.
    Traps,
    /// The diversions open at once.
    Diversions,
    /// The environments that were not gone back from.
    Environments,
    /// The conditions whose results are kept for their other branch.
    Conditions,
    /// The bytes given to the output.
    Output,
    /// The bytes of bodies and of open texts.
    Store,
    /// The names defined, and as many registers.
    Names,
    /// The rows of a table: data rows, rule lines and commands.
    Rows,
    /// The columns of a table.
    Columns,
    /// The bytes of a table.
    Text,
    /// The columns of a table's picture.
    Width,
    /// The bytes that are read before tables are formatted.
    TblBytes,
    /// The bytes of messages.
    Messages,
}

impl Limit {
    /// The limit's name, as messages and options print it.
    pub fn name(self) -> &'static str
        ensures { result.now ≡ limit_name self }
    {
        match self {
            Limit::Bytes => "bytes",
            Limit::Stack => "stack",
            Limit::Depth => "depth",
            Limit::Line => "line",
            Limit::Traps => "traps",
            Limit::Diversions => "diversions",
            Limit::Environments => "environments",
            Limit::Conditions => "conditions",
            Limit::Output => "output",
            Limit::Store => "store",
            Limit::Names => "names",
            Limit::Rows => "rows",
            Limit::Columns => "columns",
            Limit::Text => "text",
            Limit::Width => "width",
            Limit::TblBytes => "bytes",
            Limit::Messages => "messages",
        }
    }
}
