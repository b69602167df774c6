//! Devices that fail, and devices that take or give one byte at a time.

use super::machine::{check, machine};
use std::alloc::Global;
use test_machine::{Expected, Given, Machine, Paper};

/// A writer that takes so many bytes and no more.
fn room_for(alloc: Global, room: usize) -> Paper {
    Paper {
        room,
        ..Paper::new(alloc)
    }
}

/// The command line, the room of the output and of the messages, the exit status, and what is
/// written on each.
type Row = (
    &'static [&'static str],
    usize,
    usize,
    u8,
    &'static str,
    &'static str,
);

const AMPLE: usize = 100_000;

/// Writers that fail. What is buffered is found lost at the end, and then there is no message.
static ROWS: [Row; 12] = [
    (&["roff", "nroff", "filled"], 6, 0, 0, "ab cd\n", ""),
    (&["roff", "nroff", "filled"], 5, AMPLE, 2, "ab cd", ""),
    (&["roff", "nroff", "filled"], 0, AMPLE, 2, "", ""),
    (&["roff", "nroff", "empty"], 0, 0, 0, "", ""),
    (&["roff", "--version"], 5, AMPLE, 2, "roff ", ""),
    (&["roff", "nroff", "--help"], 0, AMPLE, 2, "", ""),
    (
        &["roff", "nroff", "one", "none"],
        0,
        10,
        1,
        "",
        "roff: cann",
    ),
    (&["roff", "nroff", "--page"], AMPLE, 0, 1, "", ""),
    (&["roff", "nroff", "one", "none"], AMPLE, 0, 1, "", ""),
    (&["roff", "nroff", "mistaken"], AMPLE, 0, 2, "ab\ncd\n", ""),
    (
        &["roff", "nroff", "mistaken"],
        AMPLE,
        7,
        2,
        "ab\ncd\n",
        "nroff: ",
    ),
    (
        &["roff", "nroff", "--line=4", "longer"],
        AMPLE,
        0,
        2,
        "",
        "",
    ),
];

#[test]
fn writers_that_fail(rt: HostRuntime) {
    for (words, out_room, err_room, status, out, err) in &ROWS {
        let alloc = rt.alloc();
        let expected = Expected {
            status: *status,
            out: out.as_bytes(),
            err: err.as_bytes(),
        };
        let (stdout, stderr) = (room_for(alloc, *out_room), room_for(alloc, *err_room));
        check(&rt, &machine(alloc, words), stdout, stderr, expected);
    }
}

#[test]
fn flush_that_fails(rt: HostRuntime) {
    let alloc = rt.alloc();
    let stdout = Paper {
        flush_fails: true,
        ..Paper::new(alloc)
    };
    let expected = Expected {
        status: 2,
        out: b"ab cd\n",
        err: b"",
    };
    let words = ["roff", "nroff", "filled"];
    let machine = machine(alloc, words.as_slice());
    check(&rt, &machine, stdout, Paper::new(alloc), expected);
}

#[test]
fn reader_that_fails(rt: HostRuntime) {
    let alloc = rt.alloc();
    let words = ["roff", "nroff", "one", "-", "two"];
    let machine = Machine {
        standard_input: Given::failing(b"ab\nc"),
        ..machine(alloc, words.as_slice())
    };
    let expected = Expected {
        status: 2,
        out: b"one\nab\n",
        err: b"nroff: line 5: read failed\n",
    };
    let (stdout, stderr) = (Paper::new(alloc), Paper::new(alloc));
    check(&rt, &machine, stdout, stderr, expected);
}

/// A command, what it is given before its input fails, and what is written on each writer. Nothing
/// of a table is given by then but its first line, and a line that has no newline yet tells
/// nothing.
static CUT_TABLES: [(&str, &str, &str, &str); 6] = [
    (
        "tbl",
        "x\n.TS\nl.\nab",
        "x\n.TS\n",
        "tbl: line 4: read failed\n",
    ),
    ("both", "x\n.TS\nl.\nab", "", "nroff: line 2: read failed\n"),
    (
        "tbl",
        ".TS\ntab(:);\nl.\na:b\n",
        ".TS\n",
        "tbl: line 4: too many fields\ntbl: line 4: read failed\n",
    ),
    (
        "both",
        ".TS\ntab(:);\nl.\na:b\n",
        "",
        "tbl: line 4: too many fields\nnroff: line 1: read failed\n",
    ),
    (
        "tbl",
        ".TS\ntab(:);\nl.\na:b\\\nc",
        ".TS\n",
        "tbl: line 5: read failed\n",
    ),
    (
        "tbl",
        ".TS\nl.\na\n.TE",
        ".TS\n",
        "tbl: line 4: read failed\n",
    ),
];

#[test]
fn reader_that_fails_within_a_table(rt: HostRuntime) {
    let alloc = rt.alloc();
    for (command, given, out, err) in &CUT_TABLES {
        let words = ["roff", *command];
        let machine = Machine {
            standard_input: Given::failing(given.as_bytes()),
            ..machine(alloc, words.as_slice())
        };
        let expected = Expected {
            status: 2,
            out: out.as_bytes(),
            err: err.as_bytes(),
        };
        let (stdout, stderr) = (Paper::new(alloc), Paper::new(alloc));
        check(&rt, &machine, stdout, stderr, expected);
    }
}

#[test]
fn one_byte_at_a_time(rt: HostRuntime) {
    let alloc = rt.alloc();
    let words = ["roff", "nroff", "one", "-", "mistaken"];
    let usual = machine(alloc, words.as_slice());
    let machine = Machine {
        standard_input: Given {
            most: 1,
            ..usual.standard_input
        },
        most: 1,
        ..usual
    };
    let slow = |alloc| Paper {
        most: 1,
        ..Paper::new(alloc)
    };
    let expected = Expected {
        status: 0,
        out: b"one\nstandard input\nab\ncd\n",
        err: b"nroff: line 10: bad number\n",
    };
    check(&rt, &machine, slow(alloc), slow(alloc), expected);
}
