//! What the program tells of mistakes on the command line.

pub const NO_COMMAND: &str = "\
error: 'roff' requires a subcommand but one was not provided
  [subcommands: nroff, tbl, both, help]

Usage: roff <COMMAND>

For more information, try '--help'.
";

pub const WRONG_COMMAND: &str = "\
error: unrecognized subcommand 'troff'

  tip: a similar subcommand exists: 'nroff'

Usage: roff <COMMAND>

For more information, try '--help'.
";

pub const WRONG_OPTION: &str = "\
error: unexpected argument '--page' found

  tip: a similar argument exists: '--pages'

Usage: roff nroff --pages <LIST> [FILE]...

For more information, try '--help'.
";

pub const NO_VALUE: &str = "\
error: a value is required for '--bytes <N>' but none was supplied

For more information, try '--help'.
";

pub const NO_NUMBER: &str = "\
error: invalid value 'x' for '--line <N>': invalid digit found in string

For more information, try '--help'.
";

pub const BELOW_RANGE: &str = "\
error: invalid value '-1' for '--bytes <N>': -1 is not in 0..=1000000000

For more information, try '--help'.
";

pub const ABOVE_RANGE: &str = "\
error: invalid value '1000000001' for '--bytes <N>': 1000000001 is not in 0..=1000000000

For more information, try '--help'.
";

pub const TWICE: &str = "\
error: the argument '--line <N>' cannot be used multiple times

Usage: roff nroff [OPTIONS] [FILE]...

For more information, try '--help'.
";

pub const NO_SUCH_COMMAND: &str = "\
error: unrecognized subcommand 'one'

Usage: roff <COMMAND>

For more information, try '--help'.
";

pub const EARLY_OPTION: &str = "\
error: unexpected argument '--bytes' found

  tip: 'nroff --bytes' exists

Usage: roff <COMMAND>

For more information, try '--help'.
";

pub const NO_VERSION: &str = "\
error: unexpected argument '--version' found

  tip: a similar argument exists: '--diversions'

Usage: roff nroff --diversions <N> [FILE]...

For more information, try '--help'.
";

pub const WRONG_LETTER: &str = "\
error: unexpected argument '-x' found

  tip: to pass '-x' as a value, use '-- -x'

Usage: roff nroff [OPTIONS] [FILE]...

For more information, try '--help'.
";

pub const SHORTENED_OPTION: &str = "\
error: unexpected argument '--byte' found

  tip: a similar argument exists: '--bytes'

Usage: roff nroff --bytes <N> [FILE]...

For more information, try '--help'.
";

pub const EMPTY_NUMBER: &str = "\
error: invalid value '' for '--line <N>': cannot parse integer from empty string

For more information, try '--help'.
";

pub const LINE_ABOVE_RANGE: &str = "\
error: invalid value '1000000001' for '--line <N>': 1000000001 is not in 0..=1000000000

For more information, try '--help'.
";

pub const LAST_ABOVE_RANGE: &str = "\
error: invalid value '1000000001' for '--conditions <N>': 1000000001 is not in 0..=1000000000

For more information, try '--help'.
";

pub const WRONG_OPTION_LATER: &str = "\
error: unexpected argument '--page' found

  tip: a similar argument exists: '--pages'

Usage: roff nroff --pages <LIST> [FILE]...

For more information, try '--help'.
";

pub const NEGATIVE_WORD: &str = "\
error: unexpected argument '-1' found

  tip: to pass '-1' as a value, use '-- -1'

Usage: roff nroff [OPTIONS] [FILE]...

For more information, try '--help'.
";

pub const OPTION_OF_TEXT: &str = "\
error: unexpected argument '--depth' found

  tip: to pass '--depth' as a value, use '-- --depth'

Usage: roff tbl [OPTIONS] [FILE]...

For more information, try '--help'.
";

pub const OPTION_OF_TABLES: &str = "\
error: unexpected argument '--rows' found

  tip: to pass '--rows' as a value, use '-- --rows'

Usage: roff nroff [OPTIONS] [FILE]...

For more information, try '--help'.
";

pub const NO_LINE_LENGTH: &str = "\
error: invalid value 'x' for '--line-length <N>': invalid digit found in string

For more information, try '--help'.
";

pub const ROWS_ABOVE_RANGE: &str = "\
error: invalid value '1000000001' for '--rows <N>': 1000000001 is not in 0..=1000000000

For more information, try '--help'.
";

pub const COLUMNS_TWICE: &str = "\
error: the argument '--columns <N>' cannot be used multiple times

Usage: roff both [OPTIONS] [FILE]...

For more information, try '--help'.
";

pub const NO_REGISTER: &str = "\
error: a value is required for '--register <aN>' but none was supplied

For more information, try '--help'.
";

pub const NEGATIVE_REGISTER: &str = "\
error: unexpected argument '-5' found

  tip: to pass '-5' as a value, use '-- -5'

Usage: roff nroff [OPTIONS] [FILE]...

For more information, try '--help'.
";

pub const REGISTER_OF_TABLES: &str = "\
error: unexpected argument '-r' found

  tip: to pass '-r' as a value, use '-- -r'

Usage: roff tbl [OPTIONS] [FILE]...

For more information, try '--help'.
";

pub const EARLY_REGISTER: &str = "\
error: unexpected argument '-r' found

Usage: roff <COMMAND>

For more information, try '--help'.
";

pub const NO_FIRST_PAGE: &str = "\
error: invalid value 'x' for '--first-page <N>': invalid digit found in string

For more information, try '--help'.
";

pub const FIRST_PAGE_ABOVE_RANGE: &str = "\
error: invalid value '100000' for '--first-page <N>': 100000 is not in 0..=99999

For more information, try '--help'.
";

pub const FIRST_PAGE_WITHOUT_NUMBER: &str = "\
error: a value is required for '--first-page <N>' but none was supplied

For more information, try '--help'.
";

pub const FIRST_PAGE_TWICE: &str = "\
error: the argument '--first-page <N>' cannot be used multiple times

Usage: roff nroff [OPTIONS] [FILE]...

For more information, try '--help'.
";

pub const PAGES_WITHOUT_LIST: &str = "\
error: a value is required for '--pages <LIST>' but none was supplied

For more information, try '--help'.
";

pub const PAGES_TWICE: &str = "\
error: the argument '--pages <LIST>' cannot be used multiple times

Usage: roff nroff [OPTIONS] [FILE]...

For more information, try '--help'.
";

pub const PAGES_OF_TABLES: &str = "\
error: unexpected argument '-o' found

  tip: to pass '-o' as a value, use '-- -o'

Usage: roff tbl [OPTIONS] [FILE]...

For more information, try '--help'.
";

pub const FIRST_PAGE_OF_TABLES: &str = "\
error: unexpected argument '-n' found

  tip: to pass '-n' as a value, use '-- -n'

Usage: roff tbl [OPTIONS] [FILE]...

For more information, try '--help'.
";
