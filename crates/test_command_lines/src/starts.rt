//! Starts: words that are no text, more files than a command line often names, and long names. A
//! start may not say that there is no memory where there is.

use super::machine::{FILES, FOLDERS, STANDARD_INPUT, check, machine};
use std::test::Fail;
use test_machine::{Expected, Given, Machine, Paper};

/// How many files the command line of the next test names.
const COUNT: usize = 2_000;

/// All files of a long command line are read, and no word behind them is left out.
#[test]
fn two_thousand_files(rt: HostRuntime) -> Result<(), Fail> {
    let alloc = rt.alloc();
    let mut words = vec![in alloc; "x"; COUNT + 3]?;
    words[0] = "roff";
    words[1] = "nroff";
    words[2] = "y";
    words[COUNT + 2] = "-ra5";
    let machine = Machine {
        files: &[("y", b".pl 1\n.nf\n"), ("x", b"\\na\n")],
        ..machine(alloc, words.as_slice())
    };
    let out = b"5\n".repeat(alloc, COUNT - 1)?;
    let expected = Expected {
        status: 0,
        out: out.as_slice(),
        err: b"",
    };
    check(
        &rt,
        &machine,
        Paper::new(alloc),
        Paper::new(alloc),
        expected,
    );
    Ok(())
}

#[test]
fn words_that_are_no_text(rt: HostRuntime) {
    let words: [&[u8]; 3] = [b"roff", b"nroff", b"na\xefve"];
    let machine = Machine {
        alloc: rt.alloc(),
        words: words.as_slice(),
        files: &FILES,
        folders: &FOLDERS,
        standard_input: Given::new(STANDARD_INPUT),
        most: usize::MAX,
    };
    let expected = Expected {
        status: 1,
        out: b"",
        err: b"roff: an argument is not UTF-8 text\n",
    };
    let (stdout, stderr) = (Paper::new(rt.alloc()), Paper::new(rt.alloc()));
    check(&rt, &machine, stdout, stderr, expected);
}

/// A name of 300 bytes.
const LONG_NAME: &str =
    "nnnnnnnnnnnnnnnnnnnnnnnnnnnnnnnnnnnnnnnnnnnnnnnnnnnnnnnnnnnnnnnnnnnnnnnnnnn\
    nnnnnnnnnnnnnnnnnnnnnnnnnnnnnnnnnnnnnnnnnnnnnnnnnnnnnnnnnnnnnnnnnnnnnnnnnnn\
    nnnnnnnnnnnnnnnnnnnnnnnnnnnnnnnnnnnnnnnnnnnnnnnnnnnnnnnnnnnnnnnnnnnnnnnnnnn\
    nnnnnnnnnnnnnnnnnnnnnnnnnnnnnnnnnnnnnnnnnnnnnnnnnnnnnnnnnnnnnnnnnnnnnnnnnnn";

/// A file of this name is read.
#[test]
fn file_with_a_long_name(rt: HostRuntime) {
    let alloc = rt.alloc();
    let machine = Machine {
        files: &[(LONG_NAME, b".pl 1\nab\n")],
        ..machine(alloc, &["roff", "nroff", LONG_NAME])
    };
    let expected = Expected {
        status: 0,
        out: b"ab\n",
        err: b"",
    };
    check(
        &rt,
        &machine,
        Paper::new(alloc),
        Paper::new(alloc),
        expected,
    );
}
