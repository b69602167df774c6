//! Documents, lines and lists of files that are longer than any buffer.

use super::machine::{check, machine};
use std::alloc::Global;
use std::process::Abort;
use std::test::Fail;
use test_machine::{Expected, Given, Machine, Paper};

/// Options, how many bytes a document has, and the message.
type CountedRow = (&'static [&'static str], usize, &'static str);

/// The limit on the bytes that are read, over documents that print nothing.
static BYTE_ROWS: [CountedRow; 5] = [
    (&["roff", "nroff", "--bytes=10000"], 10_000, ""),
    (
        &["roff", "nroff", "--bytes=10000"],
        10_001,
        "nroff: line 1: limit bytes (10000) reached\n",
    ),
    (&["roff", "nroff", "--bytes=1"], 1, ""),
    (
        &["roff", "nroff", "--bytes=1"],
        2,
        "nroff: line 1: limit bytes (1) reached\n",
    ),
    (&["roff", "nroff", "--bytes=0"], 0, ""),
];

/// Its default.
static DEFAULT_ROW: CountedRow = (
    &["roff", "nroff"],
    50_000_001,
    "nroff: line 1: limit bytes (50000000) reached\n",
);

/// A value above its default.
static RAISED_ROW: CountedRow = (&["roff", "nroff", "--bytes=50000001"], 50_000_001, "");

fn check_bytes(rt: &impl Abort, alloc: Global, row: &CountedRow) {
    let (words, nuls, err) = row;
    let machine = Machine {
        standard_input: Given {
            nuls: *nuls,
            ..Given::new(b"")
        },
        ..machine(alloc, words)
    };
    let expected = Expected {
        status: if err.is_empty() { 0 } else { 3 },
        out: b"",
        err: err.as_bytes(),
    };
    check(rt, &machine, Paper::new(alloc), Paper::new(alloc), expected);
}

#[test]
fn limit_on_bytes(rt: HostRuntime) {
    for row in &BYTE_ROWS {
        check_bytes(&rt, rt.alloc(), row);
    }
}

#[test]
fn default_limit_on_bytes(rt: HostRuntime) {
    check_bytes(&rt, rt.alloc(), &DEFAULT_ROW);
}

#[test]
fn raised_limit_on_bytes(rt: HostRuntime) {
    check_bytes(&rt, rt.alloc(), &RAISED_ROW);
}

/// A document of one line, which has a text so many times, is read from standard input.
fn check_line(
    rt: &impl Abort,
    alloc: Global,
    words: &[&str],
    times: usize,
    err: &str,
) -> Result<(), Fail> {
    let mut line = b"x".repeat(alloc, times)?;
    line.push(b'\n')?;
    let mut document = Vec::new(alloc);
    document.extend_from_slice(b".pl 1\n.nf\n")?;
    document.extend_from_slice(line.as_slice())?;
    let machine = Machine {
        standard_input: Given::new(document.as_slice()),
        ..machine(alloc, words)
    };
    let expected = if err.is_empty() {
        Expected {
            status: 0,
            out: line.as_slice(),
            err: b"",
        }
    } else {
        Expected {
            status: 3,
            out: b"",
            err: err.as_bytes(),
        }
    };
    check(rt, &machine, Paper::new(alloc), Paper::new(alloc), expected);
    Ok(())
}

/// The limit on a pending line: its default, below it and above it, and past each buffer's size.
static LINE_ROWS: [CountedRow; 9] = [
    (&["roff", "nroff"], 4_096, ""),
    (
        &["roff", "nroff"],
        4_097,
        "nroff: line 3: limit line (4096) reached\n",
    ),
    (&["roff", "nroff", "--line=4097"], 4_097, ""),
    (&["roff", "nroff", "--line=10000"], 10_000, ""),
    (
        &["roff", "nroff", "--line=10000"],
        10_001,
        "nroff: line 3: limit line (10000) reached\n",
    ),
    (&["roff", "nroff", "--line=100000"], 65_537, ""),
    (&["roff", "nroff", "--line=1000000"], 1_000_000, ""),
    (
        &["roff", "nroff", "--line=1000000"],
        1_000_001,
        "nroff: line 3: limit line (1000000) reached\n",
    ),
    (&["roff", "nroff", "--line=1"], 1, ""),
];

#[test]
fn limit_on_a_line(rt: HostRuntime) -> Result<(), Fail> {
    for (words, times, err) in &LINE_ROWS {
        check_line(&rt, rt.alloc(), words, *times, err)?;
    }
    Ok(())
}

/// How many lines the document of the next test has.
const LINES: usize = 4_000;

#[test]
fn long_input(rt: HostRuntime) -> Result<(), Fail> {
    let alloc = rt.alloc();
    let words = ["roff", "nroff", "-"];
    let lines = b"0123456789 abcdefgh\n".repeat(alloc, LINES)?;
    assert!(rt; lines.len() > 65_536);
    let mut document = Vec::new(alloc);
    document.extend_from_slice(b".pl 1\n.nf\n")?;
    document.extend_from_slice(lines.as_slice())?;
    let machine = Machine {
        standard_input: Given::new(document.as_slice()),
        ..machine(alloc, words.as_slice())
    };
    let expected = Expected {
        status: 0,
        out: lines.as_slice(),
        err: b"",
    };
    check(
        &rt,
        &machine,
        Paper::new(alloc),
        Paper::new(alloc),
        expected,
    );
    Ok(())
}

#[test]
fn wide_indent(rt: HostRuntime) -> Result<(), Fail> {
    let alloc = rt.alloc();
    let words = ["roff", "nroff"];
    let machine = Machine {
        standard_input: Given::new(b".pl 1\n.in 9000n\nab\n"),
        ..machine(alloc, words.as_slice())
    };
    let mut line = b" ".repeat(alloc, 9_000)?;
    line.extend_from_slice(b"ab\n")?;
    let expected = Expected {
        status: 0,
        out: line.as_slice(),
        err: b"",
    };
    check(
        &rt,
        &machine,
        Paper::new(alloc),
        Paper::new(alloc),
        expected,
    );
    Ok(())
}

static MANY_FILES: [(&str, &[u8]); 20] = [
    ("a", b".pl 1\n.nf\na\n"),
    ("b", b"b\n"),
    ("c", b"c\n"),
    ("d", b"d\n"),
    ("e", b"e\n"),
    ("f", b"f\n"),
    ("g", b"g\n"),
    ("h", b"h\n"),
    ("i", b"i\n"),
    ("j", b"j\n"),
    ("k", b"k\n"),
    ("l", b"l\n"),
    ("m", b"m\n"),
    ("n", b"n\n"),
    ("o", b"o\n"),
    ("p", b"p\n"),
    ("q", b"q\n"),
    ("r", b"r\n"),
    ("s", b"s\n"),
    ("t", b"t\n"),
];

static MANY_WORDS: [&str; 22] = [
    "roff", "nroff", "a", "b", "c", "d", "e", "f", "g", "h", "i", "j", "k", "l", "m", "n", "o",
    "p", "q", "r", "s", "t",
];

#[test]
fn many_files(rt: HostRuntime) {
    let alloc = rt.alloc();
    let machine = Machine {
        files: &MANY_FILES,
        ..machine(alloc, &MANY_WORDS)
    };
    let expected = Expected {
        status: 0,
        out: b"a\nb\nc\nd\ne\nf\ng\nh\ni\nj\nk\nl\nm\nn\no\np\nq\nr\ns\nt\n",
        err: b"",
    };
    check(
        &rt,
        &machine,
        Paper::new(alloc),
        Paper::new(alloc),
        expected,
    );
}
