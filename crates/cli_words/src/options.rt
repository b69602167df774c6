//! The options that set limits.

ghost use Rattle.std.specs.Prelude.{◌≡◌, decimal, option_map};
ghost use Rattle.cli_words.specs.Clauses.{default_of, is_bound_by_default, value_by_default};

use crate::texts;
use roff_num::{Limit, Limits};
use tbl_core::TblLimits;

/// The part of the program that a limit is of.
#[derive(Clone, Copy)]
pub enum LimitOf {
    /// The formatter of text.
    Formatter,
    /// Tables.
    Tables,
}

/// An option that sets a limit. It has the limit's name.
pub struct LimitOption {
    pub of: LimitOf,
    pub limit: Limit,
    pub help: &'static str,
}

// Options of a part, each by its limit and its text in help.
macro_rules! options {
    ($of:ident: $($limit:ident $help:ident,)*) => {
        [$(LimitOption { of: LimitOf::$of, limit: Limit::$limit, help: texts::$help }),*]
    };
}

/// The limits of the formatter.
pub static FORMATTER_OPTIONS: [LimitOption; 12] = options![Formatter:
    Bytes BYTES,
    Store STORE,
    Stack STACK,
    Depth DEPTH,
    Names NAMES,
    Line LINE,
    Traps TRAPS,
    Output OUTPUT,
    Diversions DIVERSIONS,
    Environments ENVIRONMENTS,
    Conditions CONDITIONS,
    Messages MESSAGES,
];

/// The limits of tables, beside the formatter, which counts the messages of both.
pub static TABLE_OPTIONS: [LimitOption; 4] = options![Tables:
    Rows ROWS,
    Columns COLUMNS,
    Text TEXT,
    Width WIDTH,
];

/// The limits of tables alone.
pub static TBL_OPTIONS: [LimitOption; 7] = options![Tables:
    Rows ROWS,
    Columns COLUMNS,
    Text TEXT,
    Width WIDTH,
    TblBytes BYTES,
    Output OUTPUT,
    Messages MESSAGES,
];

/// What a limit is where no option sets it, in decimal; none for one that bounds nothing then.
pub fn default_text(of: LimitOf, limit: Limit) -> Option<&'static str>
    ensures { option_map (λ text. text.now) result ≡ option_map decimal (default_of of limit) }
{
    if is_bound_by_default(limit) {
        Some(value_text(of, limit))
    } else {
        None
    }
}

/// Whether a limit bounds something where no option sets it.
fn is_bound_by_default(limit: Limit) -> bool
    ensures { result ≡ is_bound_by_default limit }
{
    !matches!(limit, Limit::Messages)
}

/// What a limit is where no option sets it, in decimal.
fn value_text(of: LimitOf, limit: Limit) -> &'static str
    ensures { result.now ≡ decimal (value_by_default of limit) }
{
    match of {
        LimitOf::Formatter => Limits::default_text(limit),
        LimitOf::Tables => TblLimits::default_text(limit),
    }
}
