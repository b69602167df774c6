//! Devices in memory that fail, on `run`.

use crate::documents::{check_bytes, check_status};
use roff_tools::{Bounded, Job, Limits, MemSink, MemSource, Start, Status, run};
use std::alloc::Global;
use std::process::Abort;
use std::test::Fail;

/// A document, after how many bytes its source fails, the room of the output and of the messages,
/// and what is then written, reported and answered.
struct Row {
    name: &'static str,
    input: &'static [u8],
    source_fails_after: Option<usize>,
    output_capacity: usize,
    message_capacity: usize,
    output: &'static str,
    messages: &'static str,
    status: Status,
}

/// Room for what any row writes.
const AMPLE: usize = 10_000;

static ROWS: [Row; 5] = [
    Row {
        name: "the source fails",
        input: b".nf\nab\ncd\n",
        source_fails_after: Some(8),
        output_capacity: AMPLE,
        message_capacity: AMPLE,
        output: "ab\n",
        messages: "nroff: line 3: read failed\n",
        status: Status::Device,
    },
    Row {
        name: "the source would fail behind its last byte",
        input: b".pl 1\n.nf\nab\n",
        source_fails_after: Some(14),
        output_capacity: AMPLE,
        message_capacity: AMPLE,
        output: "ab\n",
        messages: "",
        status: Status::Done,
    },
    Row {
        name: "the output fails",
        input: b".nf\nab\ncd\n",
        source_fails_after: None,
        output_capacity: 4,
        message_capacity: AMPLE,
        output: "ab\nc",
        messages: "nroff: line 3: write failed\n",
        status: Status::Device,
    },
    Row {
        name: "the messages fail",
        input: b".nf\nab\n.ll x\ncd\n",
        source_fails_after: None,
        output_capacity: AMPLE,
        message_capacity: 12,
        output: "ab\n",
        messages: "nroff: line ",
        status: Status::Device,
    },
    Row {
        name: "both sinks fail",
        input: b".nf\nab\ncd\n",
        source_fails_after: None,
        output_capacity: 4,
        message_capacity: 6,
        output: "ab\nc",
        messages: "nroff:",
        status: Status::Device,
    },
];

#[test]
fn failing_devices(rt: HostRuntime) -> Result<(), Fail> {
    for row in &ROWS {
        check_row(&rt, rt.alloc(), row)?;
    }
    Ok(())
}

/// Formats a row's document, and compares what was written and said, and how it ended.
fn check_row(rt: &impl Abort, alloc: Global, row: &Row) -> Result<(), Fail> {
    let source = MemSource::new(row.input, row.source_fails_after);
    let mut out = MemSink::new(alloc, row.output_capacity)?;
    let sink = MemSink::new(alloc, row.message_capacity)?;
    let mut err = Bounded { sink, room: 0 };
    let job = Job::Nroff(Limits::default(), Start::default());
    let (status, _source) = run(alloc, job, source, &mut out, &mut err);
    check_bytes(rt, out.kept(), row.output, "output", row.name);
    check_bytes(rt, err.sink.kept(), row.messages, "messages", row.name);
    check_status(rt, status?, row.status, row.name);
    Ok(())
}
