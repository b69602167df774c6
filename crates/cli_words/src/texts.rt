//! The texts of help and usage.

/// What the option `--version` prints behind the program's name.
pub const VERSION: &str = "0.1.0";

/// What the program does.
pub const ROFF: &str = "Format documents of the roff language as plain text";

/// What the command `nroff` does.
pub const NROFF: &str = "Format text for a terminal or a line printer";

/// What the command `tbl` does.
pub const TBL: &str = "Put pictures in the places of tables, for nroff to print";

/// What the command `both` does.
pub const BOTH: &str = "Format text with tables: tbl, and behind it nroff";

/// What the operands are.
pub const FILE: &str = "Files to be read; '-' is standard input";

/// What the option `--first-page` sets.
pub const FIRST_PAGE: &str = "Number of the first page, from 0 to 99999";

/// What the option `--pages` sets.
pub const PAGES: &str = "Pages that are written, such as 1,3-5,8-";

/// What the option `--register` sets.
pub const REGISTER: &str = "Number register a, to the expression N; may be repeated";

/// What the option `--bytes` bounds.
pub const BYTES: &str = "Most bytes read";

/// What the option `--store` bounds.
pub const STORE: &str = "Most bytes of strings and macros";

/// What the option `--stack` bounds.
pub const STACK: &str = "Most inserted bytes not yet read";

/// What the option `--depth` bounds.
pub const DEPTH: &str = "Most inserted texts not yet ended";

/// What the option `--names` bounds.
pub const NAMES: &str = "Most names, and as many registers";

/// What the option `--line` bounds.
pub const LINE: &str = "Most bytes of a pending line or title";

/// What the option `--traps` bounds.
pub const TRAPS: &str = "Most page traps planted";

/// What the option `--output` bounds.
pub const OUTPUT: &str = "Most bytes of output";

/// What the option `--diversions` bounds.
pub const DIVERSIONS: &str = "Most diversions open at once";

/// What the option `--environments` bounds.
pub const ENVIRONMENTS: &str = "Most environments not gone back from";

/// What the option `--conditions` bounds.
pub const CONDITIONS: &str = "Most conditions that wait for .el";

/// What the option `--messages` bounds, and what holds without it.
pub const MESSAGES: &str = "Most bytes of messages; without it, no limit";

/// What the option `--rows` bounds.
pub const ROWS: &str = "Most rows of a table";

/// What the option `--columns` bounds.
pub const COLUMNS: &str = "Most columns of a table";

/// What the option `--text` bounds.
pub const TEXT: &str = "Most bytes of a table's lines";

/// What the option `--width` bounds.
pub const WIDTH: &str = "Most columns of a table's picture";

/// What the option `--line-length` sets.
pub const LINE_LENGTH: &str = "Columns within which tables are centred";

// Help ends in these lines, after what it says of the command itself. A request may end the
// formatter.
macro_rules! help_end {
    (formatter: $notes:literal) => {
        help_end!($notes, "\n  4  the request .ab ended the run")
    };
    ($notes:literal $(, $other:literal)?) => {
        concat!(
            $notes,
            "Files are read one after another as one input; all are opened before the first\n",
            "is read. '-', or no file at all, is standard input. Text is written on standard\n",
            "output, and messages on standard error.\n\n",
            "Exit status:\n",
            "  0  done\n",
            "  1  wrong command line, a file that cannot be opened, or no memory to start\n",
            "  2  reading or writing failed\n",
            "  3  a limit was reached"
            $(, $other)?
        )
    };
}

/// The end of the program's help.
pub const ROFF_NOTES: &str = help_end!(
    formatter: "'roff help COMMAND' says more about a command.\n\n"
);

/// The end of the help of the command `nroff`.
pub const NROFF_NOTES: &str = help_end!(
    formatter: "nroff fills lines with the words of its input, and obeys its control lines, which
begin with a period or an apostrophe. In -raN, N is an expression, which register
a is set to before anything is read. In a list of pages, N-M are the pages from N
to M, and N- those from N on. Limits are numbers from 0 to 1000000000; a run stops,
with status 3, before it would pass one.

"
);

/// The end of the help of the command `tbl`.
pub const TBL_NOTES: &str = help_end!(
    "tbl passes its input on, but for the tables in it, each between the lines .TS and
.TE: these are replaced by lines for nroff that print the table. Each N is a
number from 0 to 1000000000; a run stops, with status 3, before it would pass a
limit.

"
);

/// The end of the help of the command `both`.
pub const BOTH_NOTES: &str = help_end!(
    formatter: "both does what tbl and nroff do one behind the other, in one program. In -raN, N
is an expression, which register a is set to before anything is read. In a list of
pages, N-M are the pages from N to M, and N- those from N on. Limits, and the line
length, are numbers from 0 to 1000000000; a run stops, with status 3, before it
would pass a limit.

"
);
