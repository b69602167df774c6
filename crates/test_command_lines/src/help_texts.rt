//! The texts of help.

pub const ROFF_HELP: &str = "\
Format documents of the roff language as plain text

Usage: roff <COMMAND>

Commands:
  nroff  Format text for a terminal or a line printer
  tbl    Put pictures in the places of tables, for nroff to print
  both   Format text with tables: tbl, and behind it nroff
  help   Print this message or the help of the given subcommand(s)

Options:
  -h, --help     Print help
  -V, --version  Print version

'roff help COMMAND' says more about a command.

Files are read one after another as one input; all are opened before the first
is read. '-', or no file at all, is standard input. Text is written on standard
output, and messages on standard error.

Exit status:
  0  done
  1  wrong command line, a file that cannot be opened, or no memory to start
  2  reading or writing failed
  3  a limit was reached
  4  the request .ab ended the run
";

pub const NROFF_HELP: &str = "\
Format text for a terminal or a line printer

Usage: roff nroff [OPTIONS] [FILE]...

Arguments:
  [FILE]...  Files to be read; '-' is standard input [default: -]

Options:
  -n, --first-page <N>    Number of the first page, from 0 to 99999
  -o, --pages <LIST>      Pages that are written, such as 1,3-5,8-
  -r, --register <aN>     Number register a, to the expression N; may be repeated
      --bytes <N>         Most bytes read [default: 50000000]
      --store <N>         Most bytes of strings and macros [default: 1048576]
      --stack <N>         Most inserted bytes not yet read [default: 262144]
      --depth <N>         Most inserted texts not yet ended [default: 200]
      --names <N>         Most names, and as many registers [default: 2000]
      --line <N>          Most bytes of a pending line or title [default: 4096]
      --traps <N>         Most page traps planted [default: 64]
      --output <N>        Most bytes of output [default: 200000000]
      --diversions <N>    Most diversions open at once [default: 16]
      --environments <N>  Most environments not gone back from [default: 32]
      --conditions <N>    Most conditions that wait for .el [default: 64]
      --messages <N>      Most bytes of messages; without it, no limit
  -h, --help              Print help

nroff fills lines with the words of its input, and obeys its control lines, which
begin with a period or an apostrophe. In -raN, N is an expression, which register
a is set to before anything is read. In a list of pages, N-M are the pages from N
to M, and N- those from N on. Limits are numbers from 0 to 1000000000; a run stops,
with status 3, before it would pass one.

Files are read one after another as one input; all are opened before the first
is read. '-', or no file at all, is standard input. Text is written on standard
output, and messages on standard error.

Exit status:
  0  done
  1  wrong command line, a file that cannot be opened, or no memory to start
  2  reading or writing failed
  3  a limit was reached
  4  the request .ab ended the run
";

pub const TBL_HELP: &str = "\
Put pictures in the places of tables, for nroff to print

Usage: roff tbl [OPTIONS] [FILE]...

Arguments:
  [FILE]...  Files to be read; '-' is standard input [default: -]

Options:
      --rows <N>         Most rows of a table [default: 5000]
      --columns <N>      Most columns of a table [default: 40]
      --text <N>         Most bytes of a table's lines [default: 262144]
      --width <N>        Most columns of a table's picture [default: 4096]
      --bytes <N>        Most bytes read [default: 50000000]
      --output <N>       Most bytes of output [default: 200000000]
      --messages <N>     Most bytes of messages; without it, no limit
      --line-length <N>  Columns within which tables are centred [default: 65]
  -h, --help             Print help

tbl passes its input on, but for the tables in it, each between the lines .TS and
.TE: these are replaced by lines for nroff that print the table. Each N is a
number from 0 to 1000000000; a run stops, with status 3, before it would pass a
limit.

Files are read one after another as one input; all are opened before the first
is read. '-', or no file at all, is standard input. Text is written on standard
output, and messages on standard error.

Exit status:
  0  done
  1  wrong command line, a file that cannot be opened, or no memory to start
  2  reading or writing failed
  3  a limit was reached
";

pub const BOTH_HELP: &str = "\
Format text with tables: tbl, and behind it nroff

Usage: roff both [OPTIONS] [FILE]...

Arguments:
  [FILE]...  Files to be read; '-' is standard input [default: -]

Options:
  -n, --first-page <N>    Number of the first page, from 0 to 99999
  -o, --pages <LIST>      Pages that are written, such as 1,3-5,8-
  -r, --register <aN>     Number register a, to the expression N; may be repeated
      --bytes <N>         Most bytes read [default: 50000000]
      --store <N>         Most bytes of strings and macros [default: 1048576]
      --stack <N>         Most inserted bytes not yet read [default: 262144]
      --depth <N>         Most inserted texts not yet ended [default: 200]
      --names <N>         Most names, and as many registers [default: 2000]
      --line <N>          Most bytes of a pending line or title [default: 4096]
      --traps <N>         Most page traps planted [default: 64]
      --output <N>        Most bytes of output [default: 200000000]
      --diversions <N>    Most diversions open at once [default: 16]
      --environments <N>  Most environments not gone back from [default: 32]
      --conditions <N>    Most conditions that wait for .el [default: 64]
      --messages <N>      Most bytes of messages; without it, no limit
      --rows <N>          Most rows of a table [default: 5000]
      --columns <N>       Most columns of a table [default: 40]
      --text <N>          Most bytes of a table's lines [default: 262144]
      --width <N>         Most columns of a table's picture [default: 4096]
      --line-length <N>   Columns within which tables are centred [default: 65]
  -h, --help              Print help

both does what tbl and nroff do one behind the other, in one program. In -raN, N
is an expression, which register a is set to before anything is read. In a list of
pages, N-M are the pages from N to M, and N- those from N on. Limits, and the line
length, are numbers from 0 to 1000000000; a run stops, with status 3, before it
would pass a limit.

Files are read one after another as one input; all are opened before the first
is read. '-', or no file at all, is standard input. Text is written on standard
output, and messages on standard error.

Exit status:
  0  done
  1  wrong command line, a file that cannot be opened, or no memory to start
  2  reading or writing failed
  3  a limit was reached
  4  the request .ab ended the run
";
