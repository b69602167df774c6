//! What the words of a command line ask for.

ghost use Rattle.std.specs.Prelude.{◌≡◌, true, None, IfErr, IfOk, IfSome, fold, map, option_map};
ghost use Rattle.cli_words.specs.Clauses.{AsksFor, FailsBy, asked_by, asked_in, default_limits};
ghost use Rattle.cli_words.specs.Clauses.{default_tbl_limits, fault_of, files_asked};
ghost use Rattle.cli_words.specs.Clauses.{first_page_asked, first_page_of, found_of};
ghost use Rattle.cli_words.specs.Clauses.{pages_asked, told_pages};
ghost use Rattle.cli_words.specs.Clauses.{kind_of, limits_with, line_length_asked, roff_app};
ghost use Rattle.cli_words.specs.Clauses.{registers_asked, rows_of, set_by, set_if_asked};
ghost use Rattle.cli_words.specs.Clauses.{subcommand_of, subcommand_rows_of, takes};
ghost use Rattle.cli_words.specs.Clauses.{tbl_limits_with, told};

use crate::command::{
    BOTH, DEFAULT_LINE_LENGTH, FILE, FIRST_PAGE, GREATEST_FIRST_PAGE, LINE_LENGTH, NROFF, PAGES,
    REGISTER, TBL, roff_command,
};
use crate::options::{FORMATTER_OPTIONS, LimitOption, TABLE_OPTIONS, TBL_OPTIONS};
use crate::pages::{Pages, read_pages};
use crate::registers::{Registers, read_registers};
use crate::request::{Asked, Request};
use clap::error::ErrorKind;
use clap::{ArgMatches, Error};
use roff_num::{Limit, Limits, Num};
use std::alloc::{AllocError, Global};
use std::convert::AsStr;
use tbl_core::TblLimits;

/// Reads the words of a command line, the first of which names the program. An `Err` holds the
/// text to be shown: a mistake in the words, or what `--help` or `--version` asks for.
pub fn parse_words<'a, S: AsStr>(alloc: Global, words: &'a [S]) -> Result<Request<'a>, Error>
    ensures ok { IfOk result (AsksFor (subcommand_of roff_app (map S.text words.entry.now))) }
    // The error is the first fault of the words; where they are in order, memory is missing.
    ensures fault { FailsBy (fault_of roff_app (map S.text words.entry.now)) result }
    ensures taken { IfErr result (λ e. takes roff_app (map S.text words.entry.now) ≡ true
        → kind_of e ≡ ErrorKind.OutOfMemory) }
{
    let mut command = roff_command(alloc)?;
    let matches = command.try_get_matches_from_mut(words)?;
    match request_of(alloc, &matches)? {
        Some(request) => Ok(request),
        // The parser wants a command, and there are no others.
        None => Err(command.error(ErrorKind::MissingSubcommand, "a command is missing")?),
    }
}

/// The request for the command that the parser found.
fn request_of<'a>(
    alloc: Global,
    matches: &ArgMatches<'a>,
) -> Result<Option<Request<'a>>, AllocError>
    ensures some { IfOk result (λ r. IfSome r (AsksFor (subcommand_rows_of matches.now))) }
    ensures none { IfOk result (λ r. r ≡ None
        → asked_in (subcommand_rows_of matches.now) ≡ None) }
{
    let Some((name, options)) = matches.subcommand() else {
        return Ok(None);
    };
    let Some(asked) = asked_by(name, options) else {
        return Ok(None);
    };
    Ok(Some(Request {
        asked,
        files: files_of(alloc, options)?,
        first_page: first_page_of(options),
        pages: pages_of(options),
        registers: registers_of(options),
    }))
}

/// What a command's options ask for, by its name.
fn asked_by(name: &str, options: &ArgMatches<'_>) -> Option<Asked>
    ensures { result ≡ asked_by name.now (rows_of (found_of options.now)) }
{
    if name == NROFF {
        return Some(Asked::Nroff(read_limits(options, &FORMATTER_OPTIONS)));
    }
    if name == TBL {
        let limits = read_table_limits(options, &TBL_OPTIONS);
        return Some(Asked::Tbl(limits, read_line_length(options)));
    }
    if name == BOTH {
        let limits = read_limits(options, &FORMATTER_OPTIONS);
        let tables = TblLimits {
            bytes: limits.bytes,
            ..read_table_limits(options, &TABLE_OPTIONS)
        };
        return Some(Asked::Both(limits, tables, read_line_length(options)));
    }
    None
}

/// The files that the operands name.
fn files_of<'a>(alloc: Global, options: &ArgMatches<'a>) -> Result<Vec<&'a str>, AllocError>
    ensures { IfOk result (λ files. map (λ file. file.now) files.items
        ≡ files_asked (rows_of (found_of options.now))) }
{
    let mut files = Vec::new(alloc);
    files.extend_from_slice(options.get_strs(FILE).unwrap_or(&[]))?;
    Ok(files)
}

/// The number of the first page, if one is asked for.
fn first_page_of(options: &ArgMatches<'_>) -> Option<Num>
    ensures { result ≡ first_page_asked (rows_of (found_of options.now)) }
{
    page_numbered(options.get_one::<u32>(FIRST_PAGE))
}

/// A number of the first page: the parser takes none that is greater.
fn page_numbered(number: Option<u32>) -> Option<Num>
    ensures { result ≡ option_map first_page_of number }
{
    let number = number?;
    Some(Num(number.min(GREATEST_FIRST_PAGE) as i32))
}

/// What the option of pages asks for.
fn pages_of<'a>(options: &ArgMatches<'a>) -> Pages<'a>
    ensures { told_pages result ≡ pages_asked (rows_of (found_of options.now)) }
{
    read_pages(options.get_str(PAGES))
}

/// What the options of registers ask for.
fn registers_of<'a>(options: &ArgMatches<'a>) -> Registers<'a>
    ensures { told result ≡ registers_asked (rows_of (found_of options.now)) }
{
    read_registers(options.get_strs(REGISTER).unwrap_or(&[]))
}

fn read_limits(matches: &ArgMatches<'_>, options: &[LimitOption]) -> Limits
    ensures { result ≡ fold (set_by limits_with (rows_of (found_of matches.now))) default_limits
        (map (λ option. option.limit) options.now) }
{
    let mut limits = Limits::default();
    for option in options {
        let number = matches.get_one::<u32>(option.limit.name());
        set_limit(&mut limits, option.limit, number);
    }
    limits
}

/// Sets a limit, if there is a number for it.
fn set_limit(limits: &mut Limits, limit: Limit, number: Option<u32>)
    ensures { limits.new ≡ set_if_asked limits_with limits.old limit number }
{
    if let Some(number) = number {
        limits.set(limit, number);
    }
}

fn read_table_limits(matches: &ArgMatches<'_>, options: &[LimitOption]) -> TblLimits
    ensures { result
        ≡ fold (set_by tbl_limits_with (rows_of (found_of matches.now))) default_tbl_limits
        (map (λ option. option.limit) options.now) }
{
    let mut limits = TblLimits::default();
    for option in options {
        let number = matches.get_one::<u32>(option.limit.name());
        set_table_limit(&mut limits, option.limit, number);
    }
    limits
}

/// Sets a limit of tables, if there is a number for it.
fn set_table_limit(limits: &mut TblLimits, limit: Limit, number: Option<u32>)
    ensures { limits.new ≡ set_if_asked tbl_limits_with limits.old limit number }
{
    if let Some(number) = number {
        limits.set(limit, number);
    }
}

/// The line length, in columns.
fn read_line_length(options: &ArgMatches<'_>) -> u32
    ensures { result ≡ line_length_asked (rows_of (found_of options.now)) }
{
    options
        .get_one::<u32>(LINE_LENGTH)
        .unwrap_or(DEFAULT_LINE_LENGTH)
}
