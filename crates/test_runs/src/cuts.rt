//! Documents whose source fails behind each of their bytes in turn: a line that the fault cuts does
//! nothing, and a definition that it cuts isn't entered.

use roff_tools::{Formatted, Limit, Limits, Room, Start, Status, format_in_memory};
use std::alloc::{AllocError, Global};
use std::process::Abort;
use std::test::Fail;

/// A document, and what it gives. The numbers are of bytes: behind so many of them a piece of text
/// is written, or of the messages told.
struct Row {
    name: &'static str,
    input: &'static str,
    limits: Limits,
    written: &'static [(usize, &'static str)],
    told: &'static [(usize, &'static str)],
    /// What is written in the end, when the whole document has been read.
    output: &'static str,
    /// How the document ends, and behind how many bytes, if it does so before its source.
    status: Status,
    ended_behind: usize,
}

/// Room for what any row writes or reports.
const AMPLE: Room = Room {
    output: 1000,
    messages: 1000,
};

/// A run that ends at its source's end.
const NEVER: usize = usize::MAX;

static ROWS: [Row; 13] = [
    Row {
        name: "registers of two macros",
        input: ".pl 1\n.nr x 0 1\n.de a\n\\\\n+x\n..\n.de b\n\\n+x\n..\n.a\n.a\n.b\n.b\n",
        limits: Limits::DEFAULT,
        written: &[],
        told: &[],
        output: "2 3 1 1\n",
        status: Status::Done,
        ended_behind: NEVER,
    },
    Row {
        name: "a macro that redefines itself",
        input: ".pl 1\n.nf\n.de m\n.de m\nnew\n\\\\..\nold\n..\n.m\n.m\n",
        limits: Limits::DEFAULT,
        written: &[(41, "old\n"), (44, "new\n")],
        told: &[],
        output: "old\nnew\n",
        status: Status::Done,
        ended_behind: NEVER,
    },
    Row {
        name: "arguments of a call",
        input: ".pl 1\n.de m\n[\\\\$1][\\\\$2][\\\\$3] \\\\n(.$\n..\n.m \"a b\" \"c\"\"d\" \"\"\n",
        limits: Limits::DEFAULT,
        written: &[],
        told: &[],
        output: "[a b][c\"d][] 3\n",
        status: Status::Done,
        ended_behind: NEVER,
    },
    Row {
        name: "a string in a text",
        input: ".pl 1\n.ds s \"  x\na\\*sb\n",
        limits: Limits::DEFAULT,
        written: &[],
        told: &[],
        output: "a  xb\n",
        status: Status::Done,
        ended_behind: NEVER,
    },
    Row {
        name: "a macro that is appended to",
        input: ".pl 1\n.de m\none\n..\n.am m\ntwo\n..\n.m\n",
        limits: Limits::DEFAULT,
        written: &[],
        told: &[],
        output: "one two\n",
        status: Status::Done,
        ended_behind: NEVER,
    },
    Row {
        name: "a string past the store",
        input: ".pl 1\n.ds a abc\n.as a d\n\\*a\n",
        limits: Limits {
            store: 3,
            ..Limits::DEFAULT
        },
        written: &[],
        told: &[(23, "nroff: line 3: limit store (3) reached\n")],
        output: "",
        status: Status::Limit(Limit::Store),
        ended_behind: 23,
    },
    Row {
        name: "messages, a bad number and an abort",
        input: ".nf\n.tm \\*s\n.de m\n.tm \\\\$1\n\\\\$1\n..\n.m told\n.in x\n.ab stop\nnever\n",
        limits: Limits::DEFAULT,
        written: &[(43, "told\n")],
        told: &[
            (12, "\n"),
            (43, "told\n"),
            (49, "nroff: line 8: bad number\n"),
            (58, "stop\n"),
        ],
        output: "told\n",
        status: Status::Aborted,
        ended_behind: 58,
    },
    Row {
        name: "a definition where no name may be made",
        input: ".nf\na\n.de m\nb\n..\nc\n",
        limits: Limits {
            names: 0,
            ..Limits::DEFAULT
        },
        written: &[(6, "a\n")],
        told: &[(17, "nroff: line 5: limit names (0) reached\n")],
        output: "a\n",
        status: Status::Limit(Limit::Names),
        ended_behind: 17,
    },
    Row {
        name: "the height and the width of a diversion",
        input: ".pl 1\n.di D\n.nf\naa\nbbbb\n.di\n\\n(dn \\n(dl\n.D\n",
        limits: Limits::DEFAULT,
        written: &[(40, "80 96\n"), (43, "aa\nbbbb\n")],
        told: &[],
        output: "80 96\naa\nbbbb\n",
        status: Status::Done,
        ended_behind: NEVER,
    },
    Row {
        name: "a diversion whose name is removed",
        input: ".pl 1\n.ds D old\n.di D\n.nf\nnew\n.rm D\n.di\n.D\n",
        limits: Limits::DEFAULT,
        written: &[(43, "new\n")],
        told: &[],
        output: "new\n",
        status: Status::Done,
        ended_behind: NEVER,
    },
    Row {
        name: "a diversion that is appended to",
        input: ".pl 2\n.nf\n.di D\na\n.di\n.da D\nb\n.da\n.D\n",
        limits: Limits::DEFAULT,
        written: &[(37, "a\nb\n")],
        told: &[],
        output: "a\nb\n",
        status: Status::Done,
        ended_behind: NEVER,
    },
    Row {
        name: "the name of an open diversion",
        input: ".di D\n.tm \\n(.z\n.di\n",
        limits: Limits::DEFAULT,
        written: &[],
        told: &[(16, "D\n")],
        output: "",
        status: Status::Done,
        ended_behind: NEVER,
    },
    Row {
        name: "a diversion with a trap",
        input: ".pl 3\n.nf\n.de T\nt\n..\n.di D\n.dt 1v T\na\nb\n.di\n.D\n",
        limits: Limits::DEFAULT,
        written: &[(47, "a\nt\nb\n")],
        told: &[],
        output: "a\nt\nb\n",
        status: Status::Done,
        ended_behind: NEVER,
    },
];

#[test]
fn documents_cut_behind_each_byte(rt: HostRuntime) -> Result<(), Fail> {
    for row in &ROWS {
        check_whole(&rt, rt.alloc(), row)?;
        check_cuts(&rt, rt.alloc(), row)?;
    }
    Ok(())
}

/// Formats a whole document.
fn check_whole(rt: &impl Abort, alloc: Global, row: &Row) -> Result<(), Fail> {
    let given = formatted(alloc, row, None)?;
    check_bytes(
        rt,
        given.output.as_slice(),
        row.output.as_bytes(),
        "output",
        row,
        NEVER,
    );
    check_status(rt, given.status, row.status, row, NEVER);
    Ok(())
}

/// Cuts a document in front of its first byte, and then behind each one.
fn check_cuts(rt: &impl Abort, alloc: Global, row: &Row) -> Result<(), Fail> {
    check_cut(rt, alloc, row, 0, 1)?;
    let mut count = 0usize;
    let mut newlines = 0usize;
    for byte in row.input.as_bytes() {
        count = count.saturating_add(1);
        check_cut(rt, alloc, row, count, newlines.saturating_add(1))?;
        if *byte == b'\n' {
            newlines = newlines.saturating_add(1);
        }
    }
    Ok(())
}

/// Cuts a document behind so many bytes, the last of which stands on this line.
fn check_cut(
    rt: &impl Abort,
    alloc: Global,
    row: &Row,
    count: usize,
    line: usize,
) -> Result<(), Fail> {
    let given = formatted(alloc, row, Some(count))?;
    let written = pieces_until(alloc, row.written, count)?;
    let told = messages_until(alloc, row, count, line)?;
    check_bytes(
        rt,
        given.output.as_slice(),
        written.as_slice(),
        "output",
        row,
        count,
    );
    check_bytes(
        rt,
        given.messages.as_slice(),
        told.as_slice(),
        "messages",
        row,
        count,
    );
    check_status(rt, given.status, status_behind(row, count), row, count);
    let begins = row.output.as_bytes().starts_with(given.output.as_slice());
    assert!(rt; begins, "the output is no beginning");
    Ok(())
}

/// Compares what was written or said for a document that is cut behind so many bytes.
fn check_bytes(
    rt: &impl Abort,
    given: &[u8],
    expected: &[u8],
    what: &str,
    row: &Row,
    count: usize,
) {
    let name = row.name;
    assert_eq!(rt; given, expected, "{what} of {name} cut behind {count}");
}

/// Compares how a run ended of a document that is cut behind so many bytes.
fn check_status(rt: &impl Abort, given: Status, expected: Status, row: &Row, count: usize) {
    let name = row.name;
    assert_eq!(rt; given, expected, "status of {name} cut behind {count}");
}

/// How a document ends that is cut behind so many bytes.
fn status_behind(row: &Row, count: usize) -> Status {
    if row.ended_behind <= count {
        row.status
    } else {
        Status::Device
    }
}

/// What is said of a document that is cut behind so many bytes, the last of which stands on this
/// line.
fn messages_until(
    alloc: Global,
    row: &Row,
    count: usize,
    line: usize,
) -> Result<Vec<u8>, AllocError> {
    let mut told = pieces_until(alloc, row.told, count)?;
    if row.ended_behind > count {
        let fault = format!(in alloc; "nroff: line {line}: read failed\n")?;
        told.extend_from_slice(fault.as_bytes())?;
    }
    Ok(told)
}

/// The pieces that come behind no more than so many bytes, one after another.
fn pieces_until(
    alloc: Global,
    pieces: &[(usize, &str)],
    count: usize,
) -> Result<Vec<u8>, AllocError> {
    let mut text = Vec::new(alloc);
    for (behind, piece) in pieces {
        if *behind <= count {
            text.extend_from_slice(piece.as_bytes())?;
        }
    }
    Ok(text)
}

/// Formats a row's document, whole or cut behind so many bytes.
fn formatted(alloc: Global, row: &Row, cut: Option<usize>) -> Result<Formatted, AllocError> {
    let text = row.input.as_bytes();
    format_in_memory(alloc, row.limits, Start::default(), text, cut, AMPLE)
}
