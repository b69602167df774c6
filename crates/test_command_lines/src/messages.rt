//! Messages and their buffer: writers that take so many bytes of them and no more, flushes that
//! fail, and messages that fill the buffer just so.

use super::machine::{check, machine};
use std::alloc::Global;
use std::io::ErrorKind;
use std::test::Fail;
use test_machine::{Expected, Given, Machine, Paper};

/// The words, standard input, the exit status, the output and the messages.
type Row = (
    &'static [&'static str],
    &'static str,
    u8,
    &'static str,
    &'static str,
);

static ROWS: [Row; 10] = [
    (
        &["roff", "nroff"],
        ".pl 1\n.nf\nab\n.ll x\ncd\n",
        0,
        "ab\ncd\n",
        "nroff: line 4: bad number\n",
    ),
    (
        &["roff", "nroff"],
        ".pl 1\n.nf\nab\n.ab no more\ncd\n",
        4,
        "ab\n",
        "no more\n",
    ),
    (
        &["roff", "nroff"],
        ".pl 1\n.nf\n.tm a\nb\n.tm c\n.ex\nd\n",
        0,
        "b\n",
        "a\nc\n",
    ),
    (
        &["roff", "nroff", "none"],
        "",
        1,
        "",
        "roff: cannot open none\n",
    ),
    (
        &["roff", "nroff", "-o", "x"],
        "",
        1,
        "",
        "roff: bad page list: x\n",
    ),
    (
        &["roff", "nroff", "--bytes", "14"],
        ".pl 1\n.nf\nab\ncd\n",
        3,
        "ab\n",
        "nroff: line 4: limit bytes (14) reached\n",
    ),
    (
        &["roff", "nroff", "-", "folder"],
        ".pl 1\n.nf\nab\n",
        2,
        "ab\n",
        "nroff: line 3: read failed\n",
    ),
    (
        &["roff", "tbl"],
        ".TS\ntab(:);\nl.\na:b\n.TE\n",
        0,
        ".TS\n.nr TF \\n(.u\n.nf\n\\&a\n.if \\n(TF .fi\n.TE\n",
        "tbl: line 4: too many fields\n",
    ),
    (
        &["roff", "both"],
        ".pl 1\n.TS\ntab(:);\nl.\na:b\n.TE\n.sp -1\n",
        0,
        "a\n",
        "tbl: line 5: too many fields\nnroff: line 8: backward motion\n",
    ),
    (
        &["roff", "nroff"],
        ".pl 1\n.nf\n\\zab\n\\(xxcd\n.de m\n",
        0,
        "ab\ncd\n",
        "nroff: line 3: left out: \\z\nnroff: line 4: unknown character: xx\n\
        nroff: line 5: definition not ended\n",
    ),
];

/// How the program ends whose messages, or whose output, weren't written.
fn lost(status: u8) -> u8 {
    if status == 1 { 1 } else { 2 }
}

/// A machine with this standard input.
fn reading<'a>(alloc: Global, words: &'a [&'a str], input: &'a [u8]) -> Machine<'a, &'a str> {
    Machine {
        standard_input: Given::new(input),
        ..machine(alloc, words)
    }
}

/// The messages fail behind each byte: just the first ones are written, and the output as ever.
#[test]
fn messages_with_room_for_so_many_bytes(rt: HostRuntime) {
    let alloc = rt.alloc();
    for (words, input, status, out, err) in &ROWS {
        for room in 0..=err.len() {
            let expected = Expected {
                status: if room < err.len() {
                    lost(*status)
                } else {
                    *status
                },
                out: out.as_bytes(),
                err: &err.as_bytes()[..err.len().min(room)],
            };
            let stderr = Paper {
                room,
                ..Paper::new(alloc)
            };
            let machine = reading(alloc, words, input.as_bytes());
            check(&rt, &machine, Paper::new(alloc), stderr, expected);
        }
    }
}

/// A last flush of the messages that fails changes each status but 1, whether that of the output
/// fails too or not.
#[test]
fn flushes_of_messages_that_fail(rt: HostRuntime) {
    let alloc = rt.alloc();
    for (words, input, status, out, err) in &ROWS {
        for flush_fails in [false, true] {
            let expected = Expected {
                status: lost(*status),
                out: out.as_bytes(),
                err: err.as_bytes(),
            };
            let stdout = Paper {
                flush_fails,
                ..Paper::new(alloc)
            };
            let stderr = Paper {
                flush_fails: true,
                ..Paper::new(alloc)
            };
            let machine = reading(alloc, words, input.as_bytes());
            check(&rt, &machine, stdout, stderr, expected);
        }
    }
}

/// A request that tells 32 bytes, and what it tells.
const REQUEST: &[u8] = b".tm 0123456789012345678901234567890\n";

const MESSAGE: &[u8] = b"0123456789012345678901234567890\n";

/// How many such messages fill the buffer, of 8,192 bytes.
const FULL: usize = 256;

/// How many messages there are, how many bytes of them are taken before a write fails, whether it
/// fails once or always, the exit status, the output, and how many bytes of messages are written.
/// The messages that fill the buffer are written at the last flush; one more writes them out, and
/// ends the run where that fails. Then the last flush writes what is still held.
static BLOCKS: [(usize, usize, bool, u8, &str, usize); 9] = [
    (FULL, 8_192, false, 0, "a\nb\n", 8_192),
    (FULL, 8_191, false, 2, "a\nb\n", 8_191),
    (FULL, 0, false, 2, "a\nb\n", 0),
    (FULL, 0, true, 2, "a\nb\n", 0),
    (FULL + 1, 8_224, false, 0, "a\nb\n", 8_224),
    (FULL + 1, 8_192, false, 2, "a\nb\n", 8_192),
    (FULL + 1, 8_191, false, 2, "a\n", 8_191),
    (FULL + 1, 0, false, 2, "a\n", 0),
    (FULL + 1, 0, true, 2, "a\n", 8_192),
];

#[test]
fn messages_that_fill_the_buffer(rt: HostRuntime) -> Result<(), Fail> {
    let alloc = rt.alloc();
    for (count, room, is_once, status, out, written) in &BLOCKS {
        let mut input = Vec::from_slice(alloc, b".pl 1\n.nf\na\n")?;
        input.extend_from_slice(REQUEST.repeat(alloc, *count)?.as_slice())?;
        input.extend_from_slice(b"b\n")?;
        let told = MESSAGE.repeat(alloc, *count)?;
        let expected = Expected {
            status: *status,
            out: out.as_bytes(),
            err: &told.as_slice()[..told.len().min(*written)],
        };
        let stderr = failing(alloc, *room, *is_once);
        let machine = reading(alloc, &["roff", "nroff"], input.as_slice());
        check(&rt, &machine, Paper::new(alloc), stderr, expected);
    }
    Ok(())
}

/// A writer that fails behind so many bytes: once, or always.
fn failing(alloc: Global, room: usize, is_once: bool) -> Paper {
    if is_once {
        Paper {
            fails_once_at: Some(room),
            error: ErrorKind::Interrupted,
            ..Paper::new(alloc)
        }
    } else {
        Paper {
            room,
            ..Paper::new(alloc)
        }
    }
}
