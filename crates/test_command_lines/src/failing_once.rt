//! Devices of which one call fails and later ones wouldn't: nothing is tried again, and nothing is
//! lost in front of the call that failed. And what is done behind a failure: the last flush, and
//! nothing else.

use super::machine::{check, machine};
use std::alloc::Global;
use std::cell::Cell;
use std::io::ErrorKind;
use std::test::Fail;
use test_machine::{Expected, Given, Machine, Paper};

/// A command, what standard input gives in front of its one error and behind it, and what is
/// written.
static READERS: [(&str, &str, &str, &str, &str); 6] = [
    (
        "nroff",
        ".nf\nab\n",
        "cd\n",
        "ab\n",
        "nroff: line 2: read failed\n",
    ),
    (
        "nroff",
        ".nf\nab\nc",
        "d\n",
        "ab\n",
        "nroff: line 3: read failed\n",
    ),
    ("nroff", "", "ab\n", "", "nroff: line 1: read failed\n"),
    (
        "nroff",
        ".nf\nab\n",
        "",
        "ab\n",
        "nroff: line 2: read failed\n",
    ),
    ("tbl", "ab\nc", "d\n", "ab\nc", "tbl: line 2: read failed\n"),
    (
        "both",
        ".nf\nab\nc",
        "d\n",
        "ab\n",
        "nroff: line 3: read failed\n",
    ),
];

/// An error of each kind is one, that of an interrupted read too.
static ERRORS: [ErrorKind; 3] = [
    ErrorKind::Unsupported,
    ErrorKind::Interrupted,
    ErrorKind::UnexpectedEof,
];

#[test]
fn reader_that_fails_once(rt: HostRuntime) {
    let alloc = rt.alloc();
    for error in &ERRORS {
        for (command, before, behind, out, err) in &READERS {
            let words = ["roff", *command, "-"];
            let given = Given::failing_once(before.as_bytes(), *error, behind.as_bytes());
            let machine = Machine {
                standard_input: given,
                ..machine(alloc, words.as_slice())
            };
            let expected = Expected {
                status: 2,
                out: out.as_bytes(),
                err: err.as_bytes(),
            };
            let (stdout, stderr) = (Paper::new(alloc), Paper::new(alloc));
            check(&rt, &machine, stdout, stderr, expected);
        }
    }
}

#[test]
fn file_behind_one_that_fails(rt: HostRuntime) {
    let alloc = rt.alloc();
    let words = ["roff", "nroff", "one", "folder", "two"];
    let expected = Expected {
        status: 2,
        out: b"one\n",
        err: b"nroff: line 3: read failed\n",
    };
    let (stdout, stderr) = (Paper::new(alloc), Paper::new(alloc));
    check(
        &rt,
        &machine(alloc, words.as_slice()),
        stdout,
        stderr,
        expected,
    );
}

/// A writer of which one write fails.
fn failing_once(alloc: Global, at: usize, error: ErrorKind) -> Paper {
    Paper {
        fails_once_at: Some(at),
        error,
        ..Paper::new(alloc)
    }
}

/// Messages are buffered: that they aren't written is found at the last flush, and nothing is tried
/// again.
static MESSAGES: [(&[&str], usize, u8, &str, &str); 4] = [
    (&["roff", "nroff", "mistaken"], 0, 2, "ab\ncd\n", ""),
    (&["roff", "nroff", "mistaken"], 7, 2, "ab\ncd\n", "nroff: "),
    (&["roff", "nroff", "aborting"], 3, 2, "ab\n", "no "),
    (&["roff", "nroff", "none"], 4, 1, "", "roff"),
];

#[test]
fn messages_that_fail_once(rt: HostRuntime) {
    let alloc = rt.alloc();
    for error in &ERRORS {
        for (words, at, status, out, err) in &MESSAGES {
            let expected = Expected {
                status: *status,
                out: out.as_bytes(),
                err: err.as_bytes(),
            };
            let stderr = failing_once(alloc, *at, *error);
            check(
                &rt,
                &machine(alloc, words),
                Paper::new(alloc),
                stderr,
                expected,
            );
        }
    }
}

/// How many lines of ten bytes the document of the next test has: more than a buffer holds.
const LINES: usize = 1_000;

/// How many of them are written in the end: those of the flush.
const LINES_WRITTEN: usize = 819;

/// The buffer is written out as it is full: that write fails, and the last flush writes what it
/// held.
#[test]
fn output_that_fails_once(rt: HostRuntime) -> Result<(), Fail> {
    let alloc = rt.alloc();
    let words = ["roff", "nroff"];
    let line = b"123456789\n";
    let mut document = Vec::from_slice(alloc, b".nf\n")?;
    document.extend_from_slice(line.repeat(alloc, LINES)?.as_slice())?;
    let written = line.repeat(alloc, LINES_WRITTEN)?;
    for error in &ERRORS {
        let machine = Machine {
            standard_input: Given::new(document.as_slice()),
            ..machine(alloc, words.as_slice())
        };
        let expected = Expected {
            status: 2,
            out: written.as_slice(),
            err: b"nroff: line 821: write failed\n",
        };
        let stdout = failing_once(alloc, 5_000, *error);
        check(&rt, &machine, stdout, Paper::new(alloc), expected);
    }
    Ok(())
}

/// A last flush that fails changes each status but 1.
static FLUSHES: [(&[&str], u8, &str, &str); 7] = [
    (&["roff", "nroff", "one"], 2, "one\n", ""),
    (&["roff", "nroff", "aborting"], 2, "ab\n", "no more\n"),
    (
        &["roff", "nroff", "one", "--bytes", "27", "two"],
        2,
        "one\n",
        "nroff: line 6: limit bytes (27) reached\n",
    ),
    (
        &["roff", "nroff", "one", "folder"],
        2,
        "one\n",
        "nroff: line 3: read failed\n",
    ),
    (&["roff", "nroff", "leaving"], 2, "ab\n", "so far\n"),
    (&["roff", "--version"], 2, "roff 0.1.0\n", ""),
    (
        &["roff", "nroff", "one", "none"],
        1,
        "",
        "roff: cannot open none\n",
    ),
];

#[test]
fn flushes_that_fail(rt: HostRuntime) {
    let alloc = rt.alloc();
    for (words, status, out, err) in &FLUSHES {
        let stdout = Paper {
            flush_fails: true,
            ..Paper::new(alloc)
        };
        let expected = Expected {
            status: *status,
            out: out.as_bytes(),
            err: err.as_bytes(),
        };
        check(
            &rt,
            &machine(alloc, words),
            stdout,
            Paper::new(alloc),
            expected,
        );
    }
}

/// Output that is held back is lost where the writer takes nothing: that is found at the last
/// flush, behind an abort and behind a limit too.
#[test]
fn held_output_that_fails(rt: HostRuntime) {
    let alloc = rt.alloc();
    for (words, status, out, err) in &FLUSHES {
        let stdout = Paper {
            room: 2,
            ..Paper::new(alloc)
        };
        let expected = Expected {
            status: *status,
            out: &out.as_bytes()[..out.len().min(2)],
            err: err.as_bytes(),
        };
        check(
            &rt,
            &machine(alloc, words),
            stdout,
            Paper::new(alloc),
            expected,
        );
    }
}

/// Files that can't be opened, wherever they stand: nothing was read from standard input by then.
static UNREAD: [(&[&str], &str); 4] = [
    (&["roff", "nroff", "-", "none"], "roff: cannot open none\n"),
    (&["roff", "nroff", "none", "-"], "roff: cannot open none\n"),
    (
        &["roff", "both", "-", "one", "first", "second"],
        "roff: cannot open first\n",
    ),
    (
        &["roff", "tbl", "folder", "-", "first", "none"],
        "roff: cannot open first\n",
    ),
];

#[test]
fn files_are_opened_before_anything_is_read(rt: HostRuntime) {
    let alloc = rt.alloc();
    for (words, err) in &UNREAD {
        let reads = Cell::new(0);
        let machine = Machine {
            standard_input: Given {
                reads: Some(&reads),
                ..Given::new(b"ab\n")
            },
            ..machine(alloc, words)
        };
        let expected = Expected {
            status: 1,
            out: b"",
            err: err.as_bytes(),
        };
        let (stdout, stderr) = (Paper::new(alloc), Paper::new(alloc));
        check(&rt, &machine, stdout, stderr, expected);
        assert_eq!(rt; reads.get(), 0, "reads of {words:?}");
    }
}

/// Registers that a limit refuses at the start: nothing is read, so a source that would fail
/// doesn't.
static REFUSED: [(&[&str], &str); 2] = [
    (
        &["roff", "nroff", "-ra1", "--names", "0"],
        "nroff: line 1: limit names (0) reached\n",
    ),
    (
        &["roff", "both", "-ra1", "-rb2", "--names", "1", "-"],
        "nroff: line 1: limit names (1) reached\n",
    ),
];

#[test]
fn refused_starts_read_nothing(rt: HostRuntime) {
    let alloc = rt.alloc();
    for (words, err) in &REFUSED {
        let reads = Cell::new(0);
        let machine = Machine {
            standard_input: Given {
                reads: Some(&reads),
                fails: true,
                ..Given::new(b"")
            },
            ..machine(alloc, words)
        };
        let expected = Expected {
            status: 3,
            out: b"",
            err: err.as_bytes(),
        };
        let (stdout, stderr) = (Paper::new(alloc), Paper::new(alloc));
        check(&rt, &machine, stdout, stderr, expected);
        assert_eq!(rt; reads.get(), 0, "reads of {words:?}");
    }
}

/// A command, whether its input fails behind the bytes, the status, and what is told.
static ENDINGS: [(&[&str], bool, u8, &str); 2] = [
    (&["roff", "nroff"], false, 0, ""),
    (&["roff", "nroff"], true, 2, "nroff: line 1: read failed\n"),
];

/// Behind its end, and behind an error, a reader isn't read any more.
#[test]
fn reads_are_no_more_than_needed(rt: HostRuntime) {
    let alloc = rt.alloc();
    for (words, fails, status, err) in &ENDINGS {
        let reads = Cell::new(0);
        let machine = Machine {
            standard_input: Given {
                reads: Some(&reads),
                fails: *fails,
                ..Given::new(b".nf\n")
            },
            ..machine(alloc, words)
        };
        let expected = Expected {
            status: *status,
            out: b"",
            err: err.as_bytes(),
        };
        let (stdout, stderr) = (Paper::new(alloc), Paper::new(alloc));
        check(&rt, &machine, stdout, stderr, expected);
        assert_eq!(rt; reads.get(), 2, "reads of {words:?}");
    }
}
