//! Command lines of `tbl` and `both`, and what they give.

use super::machine::{check, machine};
use super::{help_texts, mistake_texts};
use std::alloc::Global;
use std::process::Abort;
use test_machine::{Expected, Given, Machine, Paper};

/// The files that these command lines may name.
static FILES: [(&str, &[u8]); 5] = [
    ("table", b".pl 1\n.TS\nl r.\nab\t1\nc\t22\n.TE\n"),
    ("centred", b".pl 1\n.TS\ncenter;\nl.\nabc\n.TE\n"),
    ("text", b".pl 1\n.nf\nno table\n"),
    ("unformatted", b".pl 1\n.nf\n.TS\nl q.\nab\n.TE\n"),
    (
        "wide",
        b".TS\nllllllllllllllllllllllllllllllllllllllllr.\na\n.TE\n",
    ),
];

/// What `tbl` gives for the first of them.
const PICTURE: &str = "\
.pl 1
.TS
.nr TF \\n(.u
.nf
\\&ab    1
\\&c    22
.if \\n(TF .fi
.TE
";

/// What `both` gives for it.
const PRINTED: &str = "ab    1\nc    22\n";

/// The words of a command line, the exit status, the output and the messages.
type Row = (&'static [&'static str], u8, &'static str, &'static str);

/// Which files are read, and what becomes of their tables.
static FILE_ROWS: [Row; 12] = [
    (&["roff", "tbl", "table"], 0, PICTURE, ""),
    (&["roff", "both", "table"], 0, PRINTED, ""),
    (&["roff", "tbl"], 0, ".pl 1\n.nf\nstandard input\n", ""),
    (&["roff", "both"], 0, "standard input\n", ""),
    (&["roff", "tbl", "text"], 0, ".pl 1\n.nf\nno table\n", ""),
    (
        &["roff", "tbl", "text", "-"],
        0,
        ".pl 1\n.nf\nno table\n.pl 1\n.nf\nstandard input\n",
        "",
    ),
    (
        &["roff", "both", "text", "table", "-"],
        0,
        "no table\nab    1\nc    22\nstandard input\n",
        "",
    ),
    (
        &["roff", "tbl", "unformatted"],
        0,
        ".pl 1\n.nf\n.TS\nl q.\nab\n.TE\n",
        "tbl: line 4: bad format\n",
    ),
    (
        &["roff", "both", "unformatted"],
        0,
        "l q.\nab\n",
        "tbl: line 4: bad format\n",
    ),
    (
        &["roff", "both", "text", "unformatted"],
        0,
        "no table\nl q.\nab\n",
        "tbl: line 7: bad format\n",
    ),
    (
        &["roff", "tbl", "table", "none"],
        1,
        "",
        "roff: cannot open none\n",
    ),
    (
        &["roff", "both", "table", "none"],
        1,
        "",
        "roff: cannot open none\n",
    ),
];

/// What the options of limits do, and the line length.
static LIMIT_ROWS: [Row; 26] = [
    (&["roff", "tbl", "--bytes=29", "table"], 0, PICTURE, ""),
    (
        &["roff", "tbl", "--bytes=28", "table"],
        3,
        ".pl 1\n.TS\n",
        "tbl: line 6: limit bytes (28) reached\n",
    ),
    (
        &["roff", "both", "--bytes=28", "table"],
        3,
        "",
        "tbl: line 6: limit bytes (28) reached\n",
    ),
    // The formatter reads the lines of the picture, up to the fourth with them.
    (
        &["roff", "both", "--bytes=29", "table"],
        3,
        "",
        "nroff: line 4: limit bytes (29) reached\n",
    ),
    (&["roff", "tbl", "--rows=2", "table"], 0, PICTURE, ""),
    (
        &["roff", "tbl", "--rows=1", "table"],
        3,
        ".pl 1\n.TS\n",
        "tbl: line 5: limit rows (1) reached\n",
    ),
    (
        &["roff", "both", "--rows=1", "table"],
        3,
        "",
        "tbl: line 5: limit rows (1) reached\n",
    ),
    (&["roff", "both", "--columns=2", "table"], 0, PRINTED, ""),
    (
        &["roff", "both", "--columns=1", "table"],
        3,
        "",
        "tbl: line 3: limit columns (1) reached\n",
    ),
    (&["roff", "both", "--text=15", "table"], 0, PRINTED, ""),
    (
        &["roff", "both", "--text=14", "table"],
        3,
        "",
        "tbl: line 5: limit text (14) reached\n",
    ),
    (&["roff", "both", "--width=7", "table"], 0, PRINTED, ""),
    (
        &["roff", "both", "--width=6", "table"],
        3,
        "",
        "tbl: line 6: limit width (6) reached\n",
    ),
    (
        &["roff", "tbl", "wide"],
        3,
        ".TS\n",
        "tbl: line 2: limit columns (40) reached\n",
    ),
    (
        &["roff", "tbl", "wide", "--columns=41"],
        0,
        ".TS\n.nr TF \\n(.u\n.nf\n\\&a\n.if \\n(TF .fi\n.TE\n",
        "",
    ),
    (&["roff", "tbl", "--output=65", "table"], 0, PICTURE, ""),
    (
        &["roff", "tbl", "--output=10", "table"],
        3,
        ".pl 1\n.TS\n",
        "tbl: line 6: limit output (10) reached\n",
    ),
    (
        &["roff", "tbl", "--output=9", "table"],
        3,
        ".pl 1\n.TS",
        "tbl: line 2: limit output (9) reached\n",
    ),
    // The output of both is the formatter's.
    (&["roff", "both", "--output=16", "table"], 0, PRINTED, ""),
    (
        &["roff", "both", "--output=15", "table"],
        3,
        "ab    1\n",
        "nroff: line 6: limit output (15) reached\n",
    ),
    (
        &["roff", "both", "--line=6", "table"],
        3,
        "",
        "nroff: line 5: limit line (6) reached\n",
    ),
    (
        &["roff", "both", "centred"],
        0,
        "                               abc\n",
        "",
    ),
    (
        &["roff", "tbl", "centred", "--line-length=66"],
        0,
        ".pl 1\n.TS\n.nr TF \\n(.u\n.nf\n.in +31n\n\\&abc\n.in -31n\n.if \\n(TF .fi\n.TE\n",
        "",
    ),
    (
        &["roff", "both", "centred", "--line-length", "7"],
        0,
        "  abc\n",
        "",
    ),
    (
        &["roff", "both", "centred", "--line-length=0"],
        0,
        "abc\n",
        "",
    ),
    (
        &["roff", "tbl", "--rows=1", "--columns=1", "table"],
        3,
        ".pl 1\n.TS\n",
        "tbl: line 3: limit columns (1) reached\n",
    ),
];

/// Help.
static HELP_ROWS: [Row; 5] = [
    (&["roff", "tbl", "--help"], 0, help_texts::TBL_HELP, ""),
    (&["roff", "help", "tbl"], 0, help_texts::TBL_HELP, ""),
    (&["roff", "both", "--help"], 0, help_texts::BOTH_HELP, ""),
    (&["roff", "both", "-h"], 0, help_texts::BOTH_HELP, ""),
    (&["roff", "help", "both"], 0, help_texts::BOTH_HELP, ""),
];

/// Mistakes on the command line.
static MISTAKE_ROWS: [Row; 5] = [
    (
        &["roff", "tbl", "--depth", "1"],
        1,
        "",
        mistake_texts::OPTION_OF_TEXT,
    ),
    (
        &["roff", "nroff", "--rows", "1"],
        1,
        "",
        mistake_texts::OPTION_OF_TABLES,
    ),
    (
        &["roff", "both", "--line-length=x"],
        1,
        "",
        mistake_texts::NO_LINE_LENGTH,
    ),
    (
        &["roff", "tbl", "--rows=1000000001"],
        1,
        "",
        mistake_texts::ROWS_ABOVE_RANGE,
    ),
    (
        &["roff", "both", "--columns=1", "--columns=2"],
        1,
        "",
        mistake_texts::COLUMNS_TWICE,
    ),
];

/// A machine with these words and files, and a line on standard input.
fn machine_with_tables<'a>(alloc: Global, words: &'a [&'a str]) -> Machine<'a, &'a str> {
    Machine {
        files: &FILES,
        standard_input: Given::new(b".pl 1\n.nf\nstandard input\n"),
        ..machine(alloc, words)
    }
}

fn check_rows(rt: &impl Abort, alloc: Global, rows: &[Row]) {
    for (words, status, out, err) in rows {
        let expected = Expected {
            status: *status,
            out: out.as_bytes(),
            err: err.as_bytes(),
        };
        let (stdout, stderr) = (Paper::new(alloc), Paper::new(alloc));
        let machine = machine_with_tables(alloc, words);
        check(rt, &machine, stdout, stderr, expected);
    }
}

#[test]
fn files_with_tables(rt: HostRuntime) {
    check_rows(&rt, rt.alloc(), &FILE_ROWS);
}

#[test]
fn limits_of_tables(rt: HostRuntime) {
    check_rows(&rt, rt.alloc(), &LIMIT_ROWS);
}

#[test]
fn help_of_tables(rt: HostRuntime) {
    check_rows(&rt, rt.alloc(), &HELP_ROWS);
}

#[test]
fn mistakes_about_tables(rt: HostRuntime) {
    check_rows(&rt, rt.alloc(), &MISTAKE_ROWS);
}

/// A command, what it writes, and its message where the input fails.
static FAILING_INPUT: [(&str, &str, &str); 2] = [
    ("tbl", ".nf\na\n.TS x", "tbl: line 3: read failed\n"),
    ("both", "a\n", "nroff: line 3: read failed\n"),
];

#[test]
fn input_that_fails_before_a_table(rt: HostRuntime) {
    let alloc = rt.alloc();
    for (command, out, err) in &FAILING_INPUT {
        let words = ["roff", *command];
        let machine = Machine {
            standard_input: Given::failing(b".nf\na\n.TS x"),
            ..machine_with_tables(alloc, words.as_slice())
        };
        let expected = Expected {
            status: 2,
            out: out.as_bytes(),
            err: err.as_bytes(),
        };
        let (stdout, stderr) = (Paper::new(alloc), Paper::new(alloc));
        check(&rt, &machine, stdout, stderr, expected);
    }
}

/// The command line, the room of the output and of the messages, and what is written on each.
type FailingRow = (
    &'static [&'static str],
    usize,
    usize,
    &'static str,
    &'static str,
);

const AMPLE: usize = 100_000;

/// Writers that fail. What is buffered is found lost at the end, and then there is no message.
static FAILING_WRITERS: [FailingRow; 4] = [
    (&["roff", "tbl", "table"], 9, AMPLE, ".pl 1\n.TS", ""),
    (&["roff", "both", "table"], 9, AMPLE, "ab    1\nc", ""),
    (
        &["roff", "tbl", "--rows=1", "table"],
        AMPLE,
        5,
        ".pl 1\n.TS\n",
        "tbl: ",
    ),
    (&["roff", "both", "unformatted"], AMPLE, 0, "l q.\nab\n", ""),
];

#[test]
fn writers_that_fail_behind_tables(rt: HostRuntime) {
    let alloc = rt.alloc();
    for (words, out_room, err_room, out, err) in &FAILING_WRITERS {
        let stdout = Paper {
            room: *out_room,
            ..Paper::new(alloc)
        };
        let stderr = Paper {
            room: *err_room,
            ..Paper::new(alloc)
        };
        let expected = Expected {
            status: 2,
            out: out.as_bytes(),
            err: err.as_bytes(),
        };
        check(
            &rt,
            &machine_with_tables(alloc, words),
            stdout,
            stderr,
            expected,
        );
    }
}
