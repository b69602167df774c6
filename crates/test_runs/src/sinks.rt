//! Documents whose output, or whose messages, find room for so many bytes and no more: just these
//! are kept, and the run ends with the failure.

use roff_tools::{Bounded, Job, Limits, MemSink, MemSource, Start, Status, run};
use std::alloc::{AllocError, Global};
use std::process::Abort;
use std::test::Fail;

/// A document, what it writes and what it tells.
struct Row {
    input: &'static str,
    output: &'static str,
    messages: &'static str,
}

/// Room for what any row writes or tells.
const AMPLE: usize = 1000;

static ROWS: [Row; 10] = [
    Row {
        input: ".pl 3\na\n",
        output: "a\n\n\n",
        messages: "",
    },
    Row {
        input: ".pl 2\n.ll 9n\nriver and road\nand one more\n",
        output: "river and\nroad  and\none more\n\n",
        messages: "",
    },
    Row {
        input: ".pl 3\n.nf\na\n.sp 9\nb\n",
        output: "a\n\n\nb\n\n\n",
        messages: "",
    },
    Row {
        input: ".pl 4\n.nf\n.ls 3\na\nb\n",
        output: "a\n\n\nb\n",
        messages: "",
    },
    Row {
        input: ".pl 1\n.nf\na\\n%\nb\\n%\n",
        output: "a1\nb2\n",
        messages: "",
    },
    Row {
        input: ".pl 5\n.nf\na\nb\n.pl 1\n.sp 0\nc\n",
        output: "a\nb\nc\n",
        messages: "",
    },
    Row {
        input: ".pl 2\n.sp -1\n.pl 0\na\n.tm \\n(nl\n",
        output: "a\n\n",
        messages: "nroff: line 2: backward motion\nnroff: line 3: page length too small\n0\n",
    },
    Row {
        input: ".pl 2\n.ll 12n\na bb ccc dddd eeeee\n",
        output: "a   bb   ccc\ndddd eeeee\n",
        messages: "",
    },
    Row {
        input: ".pl 3\na\\c\nb",
        output: "ab\n\n\n",
        messages: "",
    },
    Row {
        input: ".pl 3\n.nf\n.de m\n.sp\n\\\\$1\n.tm \\\\n%\n..\n.m x\n.m y\n",
        output: "\nx\n\ny\n\n\n",
        messages: "1\n2\n",
    },
];

/// What a row keeps on sinks of these capacities, and how it ends.
fn given(
    alloc: Global,
    row: &Row,
    output: usize,
    messages: usize,
) -> Result<(Status, MemSink, MemSink), AllocError> {
    let source = MemSource::new(row.input.as_bytes(), None);
    let mut out = MemSink::new(alloc, output)?;
    let sink = MemSink::new(alloc, messages)?;
    let mut err = Bounded { sink, room: 0 };
    let job = Job::Nroff(Limits::default(), Start::default());
    let (status, _source) = run(alloc, job, source, &mut out, &mut err);
    let Bounded { sink, room: _ } = err;
    Ok((status?, out, sink))
}

/// How a run ends whose sink has room for so many bytes of a text.
fn ended(room: usize, text: &str) -> Status {
    if room < text.len() {
        Status::Device
    } else {
        Status::Done
    }
}

/// As many bytes of a text as have room.
fn kept(text: &str, room: usize) -> &[u8] {
    &text.as_bytes()[..text.len().min(room)]
}

#[test]
fn outputs_of_each_capacity(rt: HostRuntime) -> Result<(), Fail> {
    for row in &ROWS {
        for room in 0..=row.output.len() {
            check_output(&rt, rt.alloc(), row, room)?;
        }
    }
    Ok(())
}

#[test]
fn messages_of_each_capacity(rt: HostRuntime) -> Result<(), Fail> {
    for row in &ROWS {
        for room in 0..=row.messages.len() {
            check_messages(&rt, rt.alloc(), row, room)?;
        }
    }
    Ok(())
}

/// Formats a row's document with room for so many bytes of output.
fn check_output(rt: &impl Abort, alloc: Global, row: &Row, room: usize) -> Result<(), Fail> {
    let (status, out, _err) = given(alloc, row, room, AMPLE)?;
    check_bytes(rt, out.kept(), kept(row.output, room), "output", row, room);
    check_status(rt, status, ended(room, row.output), row, room);
    Ok(())
}

/// Formats a row's document with room for so many bytes of messages.
fn check_messages(rt: &impl Abort, alloc: Global, row: &Row, room: usize) -> Result<(), Fail> {
    let (status, out, err) = given(alloc, row, AMPLE, room)?;
    check_bytes(
        rt,
        err.kept(),
        kept(row.messages, room),
        "messages",
        row,
        room,
    );
    check_status(rt, status, ended(room, row.messages), row, room);
    let begins = row.output.as_bytes().starts_with(out.kept());
    assert!(rt; begins, "the output is no beginning");
    Ok(())
}

/// Compares what was kept of a row's output or messages.
fn check_bytes(rt: &impl Abort, given: &[u8], expected: &[u8], what: &str, row: &Row, room: usize) {
    let input = row.input;
    assert_eq!(rt; given, expected, "{what} of {input:?} in {room}");
}

/// Compares how a row's run ended.
fn check_status(rt: &impl Abort, given: Status, expected: Status, row: &Row, room: usize) {
    let input = row.input;
    assert_eq!(rt; given, expected, "end of {input:?} in {room}");
}
