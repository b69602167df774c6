//! Command lines and what they give.

use super::machine::{check, machine};
use super::{help_texts, mistake_texts};
use std::alloc::Global;
use std::process::Abort;
use test_machine::{Expected, Paper};

/// The words of a command line, the exit status, the output and the messages.
pub type Row = (&'static [&'static str], u8, &'static str, &'static str);

/// Which files are read.
static FILE_ROWS: [Row; 27] = [
    (&["roff", "nroff"], 0, "standard input\n", ""),
    (&["roff", "nroff", "-"], 0, "standard input\n", ""),
    (&["roff", "nroff", "one"], 0, "one\n", ""),
    (
        &["roff", "nroff", "one", "two", "three", "four"],
        0,
        "one\ntwo\nthree\nfour\n",
        "",
    ),
    (
        &["roff", "nroff", "four", "two", "three", "one"],
        0,
        "four\ntwo\nthree\none\n",
        "",
    ),
    (&["roff", "nroff", "two", "two"], 0, "two\ntwo\n", ""),
    (
        &["roff", "nroff", "one", "-", "two"],
        0,
        "one\nstandard input\ntwo\n",
        "",
    ),
    (
        &["roff", "nroff", "-", "one"],
        0,
        "standard input\none\n",
        "",
    ),
    (&["roff", "nroff", "a file"], 0, "a blank in its name\n", ""),
    (
        &["roff", "nroff", " file "],
        0,
        "blanks around its name\n",
        "",
    ),
    (&["roff", "nroff", "file"], 0, "no blank in its name\n", ""),
    (
        &["roff", "nroff", "--", "--line"],
        0,
        "named like an option\n",
        "",
    ),
    (
        &["roff", "nroff", "one", "--", "-", "--line"],
        0,
        "one\nstandard input\nnamed like an option\n",
        "",
    ),
    (&["roff", "nroff", "empty"], 0, "", ""),
    (&["roff", "nroff", "aborting"], 4, "ab\n", "no more\n"),
    (
        &["roff", "nroff", "one", "aborting", "two"],
        4,
        "one\nab\n",
        "no more\n",
    ),
    (&["roff", "nroff", "leaving"], 0, "ab\n", "so far\n"),
    (
        &["roff", "nroff", "one", "leaving", "two"],
        0,
        "one\nab\n",
        "so far\n",
    ),
    (
        &["roff", "nroff", "begun", "empty", "ended"],
        0,
        "begun, and ended\n",
        "",
    ),
    (
        &["roff", "nroff", "none"],
        1,
        "",
        "roff: cannot open none\n",
    ),
    (
        &["roff", "nroff", "one", "none"],
        1,
        "",
        "roff: cannot open none\n",
    ),
    (
        &["roff", "nroff", "-", "no such", "two", "none"],
        1,
        "",
        "roff: cannot open no such\n",
    ),
    (&["roff", "nroff", ""], 1, "", "roff: cannot open \n"),
    (
        &["roff", "nroff", "one", "./-"],
        1,
        "",
        "roff: cannot open ./-\n",
    ),
    (
        &["roff", "nroff", " one"],
        1,
        "",
        "roff: cannot open  one\n",
    ),
    (
        &["roff", "nroff", "mistaken"],
        0,
        "ab\ncd\n",
        "nroff: line 4: bad number\n",
    ),
    (
        &["roff", "nroff", "one", "mistaken"],
        0,
        "one\nab\ncd\n",
        "nroff: line 7: bad number\n",
    ),
];

/// Help and version.
static HELP_ROWS: [Row; 9] = [
    (&["roff", "--help"], 0, help_texts::ROFF_HELP, ""),
    (&["roff", "-h"], 0, help_texts::ROFF_HELP, ""),
    (&["roff", "help"], 0, help_texts::ROFF_HELP, ""),
    (&["roff", "--version"], 0, "roff 0.1.0\n", ""),
    (&["roff", "-V"], 0, "roff 0.1.0\n", ""),
    (&["roff", "nroff", "--help"], 0, help_texts::NROFF_HELP, ""),
    (&["roff", "nroff", "-h"], 0, help_texts::NROFF_HELP, ""),
    (&["roff", "help", "nroff"], 0, help_texts::NROFF_HELP, ""),
    (
        &["roff", "nroff", "one", "--help"],
        0,
        help_texts::NROFF_HELP,
        "",
    ),
];

/// Mistakes on the command line.
static MISTAKE_ROWS: [Row; 18] = [
    (&["roff"], 1, "", mistake_texts::NO_COMMAND),
    (&["roff", "troff"], 1, "", mistake_texts::WRONG_COMMAND),
    (&["roff", "one"], 1, "", mistake_texts::NO_SUCH_COMMAND),
    (
        &["roff", "--bytes", "5", "nroff"],
        1,
        "",
        mistake_texts::EARLY_OPTION,
    ),
    (
        &["roff", "nroff", "--version"],
        1,
        "",
        mistake_texts::NO_VERSION,
    ),
    (
        &["roff", "nroff", "--page"],
        1,
        "",
        mistake_texts::WRONG_OPTION,
    ),
    (
        &["roff", "nroff", "one", "--page"],
        1,
        "",
        mistake_texts::WRONG_OPTION_LATER,
    ),
    (&["roff", "nroff", "-x"], 1, "", mistake_texts::WRONG_LETTER),
    (
        &["roff", "nroff", "--byte", "5"],
        1,
        "",
        mistake_texts::SHORTENED_OPTION,
    ),
    (
        &["roff", "nroff", "one", "--bytes"],
        1,
        "",
        mistake_texts::NO_VALUE,
    ),
    (
        &["roff", "nroff", "--line", "x"],
        1,
        "",
        mistake_texts::NO_NUMBER,
    ),
    (
        &["roff", "nroff", "--line", ""],
        1,
        "",
        mistake_texts::EMPTY_NUMBER,
    ),
    (
        &["roff", "nroff", "--bytes", "-1"],
        1,
        "",
        mistake_texts::NEGATIVE_WORD,
    ),
    (
        &["roff", "nroff", "--bytes=-1"],
        1,
        "",
        mistake_texts::BELOW_RANGE,
    ),
    (
        &["roff", "nroff", "--bytes=1000000001"],
        1,
        "",
        mistake_texts::ABOVE_RANGE,
    ),
    (
        &["roff", "nroff", "--line", "1000000001"],
        1,
        "",
        mistake_texts::LINE_ABOVE_RANGE,
    ),
    (
        &["roff", "nroff", "--conditions=1000000001"],
        1,
        "",
        mistake_texts::LAST_ABOVE_RANGE,
    ),
    (
        &["roff", "nroff", "--line=1", "--line=2"],
        1,
        "",
        mistake_texts::TWICE,
    ),
];

/// Runs each command line, and compares what it gave.
pub fn check_rows(rt: &impl Abort, alloc: Global, rows: &[Row]) {
    for (words, status, out, err) in rows {
        let expected = Expected {
            status: *status,
            out: out.as_bytes(),
            err: err.as_bytes(),
        };
        let (stdout, stderr) = (Paper::new(alloc), Paper::new(alloc));
        check(rt, &machine(alloc, words), stdout, stderr, expected);
    }
}

#[test]
fn files(rt: HostRuntime) {
    check_rows(&rt, rt.alloc(), &FILE_ROWS);
}

#[test]
fn help_and_version(rt: HostRuntime) {
    check_rows(&rt, rt.alloc(), &HELP_ROWS);
}

#[test]
fn mistakes(rt: HostRuntime) {
    check_rows(&rt, rt.alloc(), &MISTAKE_ROWS);
}
