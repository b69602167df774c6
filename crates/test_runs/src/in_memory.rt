//! A whole run in memory, in room for just what it writes, and for a byte less.

use crate::documents::{Expected, check_formatted};
use roff_tools::{
    Limits, Room, Start, Status, TblLimits, format_in_memory, format_tables_in_memory,
    lay_tables_in_memory,
};
use std::alloc::Global;
use std::process::Abort;
use std::test::Fail;

const SPREAD: &[u8] = b".pl 2\n.ll 12n\na bb ccc dddd eeeee\n";

/// A page of text and a table.
const PRICES: &[u8] =
    b".pl 4\n.ll 12n\na bb ccc dddd\n.TS\ntab(:);\nl r.\nink:2/4\npens:13/0\n.TE\n";

/// A table, and a line behind it.
const TABLE: &[u8] = b".TS\ntab(:);\nl r.\nink:2/4\npens:13/0\n.TE\nx\n";

/// A table that passes as it is, as its format is bad.
const BAD: &[u8] = b"a\n.TS\ntab(:);\nl q.\nink:2\n.TE\n";

/// The line length, in columns.
const LENGTH: u32 = 65;

#[test]
fn whole_text_in_exact_room(rt: HostRuntime) -> Result<(), Fail> {
    let room = Room {
        output: 24,
        messages: 0,
    };
    let limits = Limits::default();
    let formatted = format_in_memory(rt.alloc(), limits, Start::default(), SPREAD, None, room)?;
    let expected = Expected {
        output: "a   bb   ccc\ndddd eeeee\n",
        messages: "",
        status: Status::Done,
    };
    check_formatted(&rt, &formatted, expected, "the text");
    Ok(())
}

#[test]
fn text_and_table_in_exact_room(rt: HostRuntime) -> Result<(), Fail> {
    let expected = Expected {
        output: "a   bb   ccc\ndddd\nink     2/4\npens   13/0\n",
        messages: "",
        status: Status::Done,
    };
    check_prices(&rt, rt.alloc(), 42, expected)
}

#[test]
fn text_and_table_in_a_byte_less(rt: HostRuntime) -> Result<(), Fail> {
    let expected = Expected {
        output: "a   bb   ccc\ndddd\nink     2/4\npens   13/0",
        messages: "",
        status: Status::Device,
    };
    check_prices(&rt, rt.alloc(), 41, expected)
}

#[test]
fn table_in_exact_room(rt: HostRuntime) -> Result<(), Fail> {
    let room = Room {
        output: 69,
        messages: 0,
    };
    let expected = Expected {
        output: ".TS\n.nr TF \\n(.u\n.nf\n\\&ink     2/4\n\\&pens   13/0\n.if \\n(TF .fi\n.TE\nx\n",
        messages: "",
        status: Status::Done,
    };
    check_table(&rt, rt.alloc(), TABLE, room, expected)
}

#[test]
fn table_in_a_byte_less(rt: HostRuntime) -> Result<(), Fail> {
    let room = Room {
        output: 68,
        messages: 0,
    };
    let expected = Expected {
        output: ".TS\n.nr TF \\n(.u\n.nf\n\\&ink     2/4\n\\&pens   13/0\n.if \\n(TF .fi\n.TE\nx",
        messages: "",
        status: Status::Device,
    };
    check_table(&rt, rt.alloc(), TABLE, room, expected)
}

#[test]
fn bad_table_and_its_message_in_exact_room(rt: HostRuntime) -> Result<(), Fail> {
    let room = Room {
        output: 29,
        messages: 24,
    };
    let expected = Expected {
        output: "a\n.TS\ntab(:);\nl q.\nink:2\n.TE\n",
        messages: "tbl: line 4: bad format\n",
        status: Status::Done,
    };
    check_table(&rt, rt.alloc(), BAD, room, expected)
}

/// Formats the text with its table in room for so many bytes, and for no messages.
fn check_prices(
    rt: &impl Abort,
    alloc: Global,
    output: usize,
    expected: Expected<'_>,
) -> Result<(), Fail> {
    let room = Room {
        output,
        messages: 0,
    };
    let limits = Limits::default();
    let tables = (TblLimits::default(), LENGTH);
    let start = Start::default();
    let given = format_tables_in_memory(alloc, limits, start, tables, PRICES, None, room)?;
    check_formatted(rt, &given, expected, "the text with a table");
    Ok(())
}

/// Puts lines in the place of a table in this room.
fn check_table(
    rt: &impl Abort,
    alloc: Global,
    text: &[u8],
    room: Room,
    expected: Expected<'_>,
) -> Result<(), Fail> {
    let given = lay_tables_in_memory(alloc, TblLimits::default(), LENGTH, text, None, room)?;
    check_formatted(rt, &given, expected, "the table");
    Ok(())
}
