//! What an option of a table says.

ghost use Rattle.std.specs.Prelude.{◌≡◌, ◌+◌, ◌-◌, codes, length, is_some, true, ◌<◌, ◌&&◌, ◌||◌};
ghost use Rattle.std.specs.Prelude.{if◌then◌else◌};
ghost use Rattle.std.specs.Option.{option_copied};
ghost use Rattle.tbl_options.specs.declared.options.TableOption.TheVariants.{Unknown};
ghost use Rattle.tbl_options.specs.declared.options.TableOption.TheVariants.{WithoutEffect};
ghost use Rattle.tbl_options.specs.Options.{are_two_bytes, argument_of, as_small, has_brackets};
ghost use Rattle.tbl_options.specs.Options.{is_name, one_byte, option_of, option_of_two};
ghost use Rattle.tbl_options.specs.Options.{option_with_brackets, separating};

use crate::options::TableOption;

/// What an option says.
pub fn option_of(word: &[u8]) -> TableOption
    ensures { result ≡ option_of word.now }
{
    if is_name(b"center", word) || is_name(b"centre", word) {
        return TableOption::Center;
    }
    if is_name(b"expand", word) {
        return TableOption::Expand;
    }
    if is_name(b"box", word) || is_name(b"frame", word) {
        return TableOption::Box;
    }
    if is_name(b"allbox", word) {
        return TableOption::AllBox;
    }
    if is_name(b"doublebox", word) || is_name(b"doubleframe", word) {
        return TableOption::DoubleBox;
    }
    option_with_brackets(word)
}

/// What an option says whose brackets are a word by themselves.
pub fn option_of_two(name: &[u8], brackets: &[u8]) -> TableOption
    ensures { result ≡ option_of_two name.now brackets.now }
{
    if is_name(b"tab", name) {
        return separating(one_byte(argument_of(b"(", brackets)));
    }
    other_with_brackets(
        is_name(b"delim", name) && are_two_bytes(argument_of(b"(", brackets))
            || is_name(b"linesize", name) && is_given(argument_of(b"(", brackets)),
    )
}

/// What `tab` says with this in its brackets.
fn separating(separator: Option<u8>) -> TableOption
    ensures { result ≡ separating separator }
{
    match separator {
        Some(separator) => TableOption::Separator(separator),
        None => TableOption::Unknown,
    }
}

/// What an option says that may have brackets.
fn option_with_brackets(word: &[u8]) -> TableOption
    ensures { result
        ≡ option_with_brackets word.now (one_byte (argument_of (codes "tab(") word.now)) }
{
    match separator_of(word) {
        Some(separator) => TableOption::Separator(separator),
        None => other_with_brackets(has_no_effect(word)),
    }
}

/// What an option says that sets no separator.
fn other_with_brackets(has_no_effect: bool) -> TableOption
    ensures { result ≡ (if has_no_effect then WithoutEffect else Unknown) }
{
    if has_no_effect {
        TableOption::WithoutEffect
    } else {
        TableOption::Unknown
    }
}

/// The separator that an option sets, if it does.
fn separator_of(word: &[u8]) -> Option<u8>
    ensures { result ≡ one_byte (argument_of (codes "tab(") word.now) }
{
    one_byte(argument_of(b"tab(", word))
}

/// Whether an option with brackets is known, and has no effect.
fn has_no_effect(word: &[u8]) -> bool
    ensures { result ≡ (are_two_bytes (argument_of (codes "delim(") word.now)
        || is_some (argument_of (codes "linesize(") word.now)) }
{
    is_delim(word) || is_linesize(word)
}

/// Whether an option is `delim(xy)`.
fn is_delim(word: &[u8]) -> bool
    ensures { result ≡ are_two_bytes (argument_of (codes "delim(") word.now) }
{
    are_two_bytes(argument_of(b"delim(", word))
}

/// Whether an option is `linesize(n)`, whatever its n.
fn is_linesize(word: &[u8]) -> bool
    ensures { result ≡ is_some (argument_of (codes "linesize(") word.now) }
{
    is_given(argument_of(b"linesize(", word))
}

/// Whether there are brackets.
fn is_given(argument: Option<&[u8]>) -> bool
    ensures { result ≡ is_some (option_copied argument.entry) }
{
    match argument {
        Some(_) => true,
        None => false,
    }
}

/// The byte in the brackets, if it stands there alone.
fn one_byte(argument: Option<&[u8]>) -> Option<u8>
    ensures { result ≡ one_byte (option_copied argument.entry) }
{
    match argument {
        Some(bytes) if bytes.len() == 1 => Some(bytes[0]),
        _ => None,
    }
}

/// Whether the brackets have two bytes.
fn are_two_bytes(argument: Option<&[u8]>) -> bool
    ensures { result ≡ are_two_bytes (option_copied argument.entry) }
{
    match argument {
        Some(bytes) => bytes.len() == 2,
        None => false,
    }
}

/// What stands in the brackets of a word behind a front, which ends in `(`.
fn argument_of<'a>(front: &[u8], word: &'a [u8]) -> Option<&'a [u8]>
    ensures { option_copied result ≡ argument_of front.now word.now }
{
    if has_brackets(front, word) {
        Some(&word[front.len()..word.len() - 1])
    } else {
        None
    }
}

/// Whether a word has brackets behind a front, which ends in `(`: it is longer, and ends in `)`.
fn has_brackets(front: &[u8], word: &[u8]) -> bool
    ensures value { result ≡ has_brackets front.now word.now }
    ensures longer { result ≡ true → length front.now < length word.now }
{
    front.len() < word.len()
        && (word[word.len() - 1] == b')' && is_name(front, &word[..front.len()]))
}

/// Whether a word is a name, in letters of either case.
fn is_name(name: &[u8], word: &[u8]) -> bool
    ensures { result ≡ is_name name.now word.now }
{
    if word.len() != name.len() {
        return false;
    }
    for at in 0..word.len() {
        if as_small(word[at]) != name[at] {
            return false;
        }
    }
    true
}

/// A letter as a small one, another byte as it is.
pub fn as_small(byte: u8) -> u8
    ensures { result ≡ as_small byte }
{
    if byte >= b'A' && byte <= b'Z' {
        byte + 32
    } else {
        byte
    }
}
