//! Words in the form that the parser reads.

ghost use Rattle.std.specs.Prelude.{◌≡◌, ◌<◌, ◌||◌, false, IfOk, bytes_eq, codes, map};
ghost use Rattle.std.specs.Prelude.{option_map, string_bytes};
ghost use Rattle.cli_words.specs.Clauses.{behind_equals, strip_byte, word_prepared};
ghost use Rattle.cli_words.specs.Clauses.{words_prepared};

use std::alloc::{AllocError, Global};

/// The words of a command line in the form that the parser reads. It takes an `=` off that stands
/// behind the letter of an option, but behind `-r` that is a register's name: so `-r=5` becomes
/// `-r==5`. Words behind `--` name files, and stay as they are.
pub fn prepare_words(alloc: Global, words: &[String]) -> Result<Vec<String>, AllocError>
    ensures { IfOk result (λ prepared. map string_bytes prepared.items
        ≡ words_prepared false (map string_bytes words.now)) }
{
    let mut prepared = Vec::new(alloc);
    let mut are_files = false;
    let mut rest = words;
    while let Some((word, others)) = rest.split_first() {
        let word = word.as_str();
        are_files = are_files_from(are_files, word);
        prepared.push(prepare_word(alloc, word, are_files)?)?;
        rest = others;
    }
    Ok(prepared)
}

/// Whether words name files from this one on.
fn are_files_from(are_files: bool, word: &str) -> bool
    ensures { result ≡ (are_files || bytes_eq word.now (codes "--")) }
{
    are_files || word == "--"
}

/// A word in that form; the name of a file stays as it is.
fn prepare_word(alloc: Global, word: &str, is_file: bool) -> Result<String, AllocError>
    ensures { IfOk result (λ prepared. string_bytes prepared ≡ word_prepared is_file word.now) }
{
    if is_file {
        return String::from_str(alloc, word);
    }
    match behind_equals(word) {
        Some(value) => {
            let mut prepared = String::from_str(alloc, "-r==")?;
            prepared.push_str(value)?;
            Ok(prepared)
        }
        None => String::from_str(alloc, word),
    }
}

/// What stands behind `-r=` in a word that begins so.
fn behind_equals(word: &str) -> Option<&str>
    ensures { option_map (λ value. value.now) result ≡ behind_equals word.now }
{
    behind(behind(behind(word, '-')?, 'r')?, '=')
}

/// What stands behind an ASCII character that a text begins with.
fn behind(text: &str, first: char) -> Option<&str>
    requires { first < 128 }
    ensures { option_map (λ rest. rest.now) result ≡ strip_byte first text.now }
{
    text.strip_prefix(first)
}
