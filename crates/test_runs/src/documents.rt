//! What a document gives, as other tests ask for it.

use roff_tools::{Formatted, Limits, Room, Start, Status, format_in_memory};
use std::alloc::Global;
use std::process::Abort;
use std::test::Fail;

/// Room for what any document here writes or reports.
const AMPLE: Room = Room {
    output: 1000,
    messages: 1000,
};

/// What a run must give.
#[derive(Clone, Copy)]
pub struct Expected<'a> {
    pub output: &'a str,
    pub messages: &'a str,
    pub status: Status,
}

/// Formats a document within these limits, and compares what was written and said, and how it
/// ended.
pub fn check(
    rt: &impl Abort,
    alloc: Global,
    limits: Limits,
    document: &str,
    expected: Expected<'_>,
) -> Result<(), Fail> {
    let given = format_in_memory(
        alloc,
        limits,
        Start::default(),
        document.as_bytes(),
        None,
        AMPLE,
    )?;
    check_formatted(rt, &given, expected, document);
    Ok(())
}

/// Compares what a run in memory gave for a document.
pub fn check_formatted(rt: &impl Abort, given: &Formatted, expected: Expected<'_>, of: &str) {
    check_bytes(rt, given.output.as_slice(), expected.output, "output", of);
    check_bytes(
        rt,
        given.messages.as_slice(),
        expected.messages,
        "messages",
        of,
    );
    check_status(rt, given.status, expected.status, of);
}

/// Compares bytes that were written or said for a document.
pub fn check_bytes(rt: &impl Abort, given: &[u8], expected: &str, what: &str, of: &str) {
    assert_eq!(rt; str::from_utf8(given), Ok(expected), "{what} of {of:?}");
}

/// Compares how a run of a document ended.
pub fn check_status(rt: &impl Abort, given: Status, expected: Status, of: &str) {
    assert_eq!(rt; given, expected, "status of {of:?}");
}

/// Formats a document that only tells of something (`.tm`), and compares that.
pub fn check_told(
    rt: &impl Abort,
    alloc: Global,
    document: &str,
    messages: &str,
) -> Result<(), Fail> {
    let expected = Expected {
        output: "",
        messages,
        status: Status::Done,
    };
    check(rt, alloc, Limits::default(), document, expected)
}
