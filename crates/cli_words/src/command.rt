//! The program's commands, with their options, as the parser takes them.

ghost use Rattle.std.specs.Prelude.{◌≡◌, IfOk, None, fold, map};
ghost use Rattle.cli_words.specs.Clauses.{app_of, both_app, command_named, file_operand};
ghost use Rattle.cli_words.specs.Clauses.{first_page_option, limit_option, line_length_option};
ghost use Rattle.cli_words.specs.Clauses.{nroff_app, number_option, pages_option};
ghost use Rattle.cli_words.specs.Clauses.{register_option, roff_app, rule_of, tbl_app};
ghost use Rattle.cli_words.specs.Clauses.{with_rule, with_start};

use crate::options::{FORMATTER_OPTIONS, LimitOption, TABLE_OPTIONS, TBL_OPTIONS, default_text};
use crate::texts;
use clap::{Arg, ArgAction, Command, value_parser};
use std::alloc::{AllocError, Global};

const ROFF: &str = "roff";

/// The command that formats text.
pub const NROFF: &str = "nroff";

/// The command that puts pictures in the places of tables.
pub const TBL: &str = "tbl";

/// The command that does both.
pub const BOTH: &str = "both";

/// The operands.
pub const FILE: &str = "FILE";

/// The option that numbers the first page.
pub const FIRST_PAGE: &str = "first-page";

/// The option that lists the pages that are written.
pub const PAGES: &str = "pages";

/// The option that sets a number register.
pub const REGISTER: &str = "register";

/// The option of the line length.
pub const LINE_LENGTH: &str = "line-length";

/// The line length, in columns, where no option sets it.
pub const DEFAULT_LINE_LENGTH: u32 = 65;

/// The name of standard input among the files.
pub const STANDARD_INPUT: &str = "-";

/// The greatest value that an option takes.
const GREATEST_NUMBER: i64 = 1_000_000_000;

/// The greatest number of the first page.
pub const GREATEST_FIRST_PAGE: u32 = 99_999;

/// The program, with its commands.
pub fn roff_command<'a>(alloc: Global) -> Result<Command<'a>, AllocError>
    ensures { IfOk result (λ command. app_of command ≡ roff_app) }
{
    Command::new(alloc, ROFF)
        .version(texts::VERSION)
        .about(texts::ROFF)
        .after_help(texts::ROFF_NOTES)
        .subcommand_required(true)
        .subcommand(nroff_command(alloc)?)?
        .subcommand(tbl_command(alloc)?)?
        .subcommand(both_command(alloc)?)
}

fn nroff_command<'a>(alloc: Global) -> Result<Command<'a>, AllocError>
    ensures { IfOk result (λ command. app_of command ≡ nroff_app) }
{
    let command = command(alloc, NROFF, texts::NROFF, texts::NROFF_NOTES)?;
    let command = with_start(alloc, command)?;
    with_options(alloc, command, &FORMATTER_OPTIONS)
}

fn tbl_command<'a>(alloc: Global) -> Result<Command<'a>, AllocError>
    ensures { IfOk result (λ command. app_of command ≡ tbl_app) }
{
    let command = command(alloc, TBL, texts::TBL, texts::TBL_NOTES)?;
    with_options(alloc, command, &TBL_OPTIONS)?.arg(line_length_argument(alloc))
}

fn both_command<'a>(alloc: Global) -> Result<Command<'a>, AllocError>
    ensures { IfOk result (λ command. app_of command ≡ both_app) }
{
    let command = command(alloc, BOTH, texts::BOTH, texts::BOTH_NOTES)?;
    let command = with_start(alloc, command)?;
    let command = with_options(alloc, command, &FORMATTER_OPTIONS)?;
    with_options(alloc, command, &TABLE_OPTIONS)?.arg(line_length_argument(alloc))
}

/// A command of this name, before its options.
fn command<'a>(
    alloc: Global,
    name: &'static str,
    about: &'static str,
    notes: &'static str,
) -> Result<Command<'a>, AllocError>
    ensures { IfOk result (λ command. app_of command ≡ command_named name.now) }
{
    Command::new(alloc, name)
        .about(about)
        .after_help(notes)
        .arg(file_argument(alloc))
}

/// A command with the options of what is given to a run at its start.
fn with_start<'a>(alloc: Global, command: Command<'a>) -> Result<Command<'a>, AllocError>
    ensures { IfOk result (λ r. app_of r ≡ with_start (app_of command.entry)) }
{
    let command = command.arg(first_page_argument(alloc))?;
    let command = command.arg(pages_argument(alloc))?;
    command.arg(register_argument(alloc))
}

fn with_options<'a>(
    alloc: Global,
    command: Command<'a>,
    options: &'static [LimitOption],
) -> Result<Command<'a>, AllocError>
    ensures { IfOk result (λ r. app_of r
        ≡ fold with_rule (app_of command.entry)
        (map (λ option. limit_option option.of option.limit) options.now)) }
{
    let mut command = command;
    for option in options {
        command = command.arg(limit_argument(alloc, option))?;
    }
    Ok(command)
}

fn file_argument<'a>(alloc: Global) -> Arg<'a>
    ensures { rule_of result ≡ file_operand }
{
    Arg::new(alloc, FILE)
        .num_args(0..)
        .action(ArgAction::Append)
        .default_value(STANDARD_INPUT)
        .help(texts::FILE)
}

fn first_page_argument<'a>(alloc: Global) -> Arg<'a>
    ensures { rule_of result ≡ first_page_option }
{
    Arg::new(alloc, FIRST_PAGE)
        .short('n')
        .long(FIRST_PAGE)
        .value_name("N")
        .value_parser(value_parser!(u32).range(0..=i64::from(GREATEST_FIRST_PAGE)))
        .help(texts::FIRST_PAGE)
}

fn pages_argument<'a>(alloc: Global) -> Arg<'a>
    ensures { rule_of result ≡ pages_option }
{
    Arg::new(alloc, PAGES)
        .short('o')
        .long(PAGES)
        .value_name("LIST")
        .help(texts::PAGES)
}

fn register_argument<'a>(alloc: Global) -> Arg<'a>
    ensures { rule_of result ≡ register_option }
{
    Arg::new(alloc, REGISTER)
        .short('r')
        .long(REGISTER)
        .value_name("aN")
        .action(ArgAction::Append)
        .help(texts::REGISTER)
}

fn limit_argument<'a>(alloc: Global, option: &'static LimitOption) -> Arg<'a>
    ensures { rule_of result ≡ limit_option option.now.of option.now.limit }
{
    let argument = number_argument(alloc, option.limit.name(), option.help);
    match default_text(option.of, option.limit) {
        Some(default) => argument.default_value(default),
        None => argument,
    }
}

fn line_length_argument<'a>(alloc: Global) -> Arg<'a>
    ensures { rule_of result ≡ line_length_option }
{
    number_argument(alloc, LINE_LENGTH, texts::LINE_LENGTH).default_value("65")
}

/// An option that takes a number, and has no default.
fn number_argument<'a>(alloc: Global, name: &'static str, help: &'static str) -> Arg<'a>
    ensures { rule_of result ≡ number_option name.now None }
{
    Arg::new(alloc, name)
        .long(name)
        .value_name("N")
        .value_parser(value_parser!(u32).range(0..=GREATEST_NUMBER))
        .help(help)
}
