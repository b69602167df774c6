//! The pages that the options ask for.

ghost use Rattle.std.specs.Prelude.{◌≡◌, ◌<◌, None, MatchBool, option_map};
ghost use Rattle.cli_words.specs.Clauses.{Adds, are_digits, last_written, next_range};
ghost use Rattle.cli_words.specs.Clauses.{page_written, pages_listed, range_from, range_written};
ghost use Rattle.cli_words.specs.Clauses.{ranges_written, split_at, told_pages};

use arrayvec::ArrayVec;
use roff_num::Num;

/// Ranges of pages, each with the numbers of its first and its last one.
pub type StartPages = ArrayVec<(Num, Num), 32>;

/// What the option of pages asks for.
#[derive(Drop)]
pub enum Pages<'a> {
    /// These are to be written, or all where there are none.
    Listed(StartPages),
    /// This text is no list of pages, or has too many ranges.
    Bad(&'a str),
}

/// The last page of a range that has no end.
const GREATEST_PAGE: i32 = 2_147_483_647;

/// What a list asks for, if one is given: numbers, and ranges `N-M` and `N-`, with commas between
/// them.
pub fn read_pages<'a>(list: Option<&'a str>) -> Pages<'a>
    ensures { told_pages result ≡ pages_listed (option_map (λ text. text.now) list.entry) }
{
    match list {
        Some(text) => match read_list(text) {
            Some(ranges) => Pages::Listed(ranges),
            None => Pages::Bad(text),
        },
        None => Pages::Listed(ArrayVec::new()),
    }
}

/// The ranges that a list writes, if it is good.
fn read_list(text: &str) -> Option<StartPages>
    ensures { option_map (λ ranges. ranges.items) result ≡ ranges_written text.now }
{
    let mut ranges = ArrayVec::new();
    let mut rest = text;
    while let Some((range, others)) = split_at(rest, ',') {
        if !add_range(&mut ranges, range) {
            return None;
        }
        rest = others;
    }
    if !add_range(&mut ranges, rest) {
        return None;
    }
    Some(ranges)
}

/// Puts the range that a text writes behind the others. Answers whether it writes one, and there is
/// room for it; otherwise nothing changed.
fn add_range(ranges: &mut StartPages, text: &str) -> bool
    ensures { MatchBool result
        (Adds (next_range ranges.old.items text.now) ranges.old.items ranges.new.items)
        (next_range ranges.old.items text.now ≡ None) }
{
    match read_range(text) {
        Some(range) => ranges.try_push(range).is_ok(),
        None => false,
    }
}

/// The range that a text writes: a page alone, or from one page to another, or from one page on.
fn read_range(text: &str) -> Option<(Num, Num)>
    ensures { result ≡ range_written text.now }
{
    match split_at(text, '-') {
        Some((first, last)) => range_from(read_number(first), read_last(last)),
        None => page_alone(read_number(text)),
    }
}

/// A page alone.
fn page_alone(page: Option<Num>) -> Option<(Num, Num)>
    ensures { result ≡ option_map (λ n. (n, n)) page }
{
    let page = page?;
    Some((page, page))
}

/// A range from its first page to its last one, which doesn't come before it.
fn range_from(first: Option<Num>, last: Option<Num>) -> Option<(Num, Num)>
    ensures { result ≡ range_from first last }
{
    let (first, last) = (first?, last?);
    if first.0 <= last.0 {
        return Some((first, last));
    }
    None
}

/// The last page of a range, by what stands behind its hyphen.
fn read_last(text: &str) -> Option<Num>
    ensures { result ≡ last_written text.now }
{
    if text.is_empty() {
        return Some(Num(GREATEST_PAGE));
    }
    read_number(text)
}

/// The number that a text writes: digits alone.
fn read_number(text: &str) -> Option<Num>
    ensures { result ≡ page_written text.now }
{
    if !are_digits(text.as_bytes()) {
        return None;
    }
    match text.parse::<i32>() {
        Ok(number) => Some(Num(number)),
        Err(_) => None,
    }
}

/// Whether a text has no byte but digits.
fn are_digits(text: &[u8]) -> bool
    ensures { result ≡ are_digits text.now }
{
    text.iter().all(|byte| byte.is_ascii_digit())
}

/// What stands in front of the first such ASCII character in a text, and what behind it.
fn split_at(text: &str, mark: char) -> Option<(&str, &str)>
    requires { mark < 128 }
    ensures { option_map (λ parts. (parts.0.now, parts.1.now)) result ≡ split_at mark text.now }
{
    text.split_once(mark)
}
