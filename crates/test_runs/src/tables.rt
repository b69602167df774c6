//! Tables whose source fails behind each of their bytes in turn, and tables whose output, or whose
//! messages, find room for so many bytes and no more.

use roff_tools::{Bounded, Job, MemSink, MemSource, Status, TblLimits, run};
use std::alloc::{AllocError, Global};
use std::process::Abort;
use std::test::Fail;

/// A document that ends in a table, and what it gives. So many of its bytes pass as they are taken,
/// up to the end of the `.TS` line. Each message is told if so many bytes were taken.
struct Table {
    name: &'static str,
    input: &'static str,
    passes: usize,
    told: &'static [(usize, &'static str)],
    output: &'static str,
}

/// Room for what any of them writes or tells.
const AMPLE: usize = 1000;

/// The line length.
const LENGTH: u32 = 65;

static TABLES: [Table; 10] = [
    Table {
        name: "texts",
        input: ".TS\ntab(:);\nl r c.\na:bb:c\nddd:e:ff\n.TE\n",
        passes: 4,
        told: &[],
        output: ".TS\n.nr TF \\n(.u\n.nf\n\\&a     bb   c\n\\&ddd    e   ff\n.if \\n(TF .fi\n.TE\n",
    },
    Table {
        name: "numbers",
        input: ".TS\nn.\n12.5\n7\n3\\&x\n.TE\n",
        passes: 4,
        told: &[],
        output: ".TS\n.nr TF \\n(.u\n.nf\n\\&12.5\n\\& 7\n\\& 3x\n.if \\n(TF .fi\n.TE\n",
    },
    Table {
        name: "letters and columns of one width",
        input: ".TS\ntab(:);\nlew(4) ae5 l.\na:b:c\n.TE\n",
        passes: 4,
        told: &[],
        output: ".TS\n.nr TF \\n(.u\n.nf\n\\&a       b       c\n.if \\n(TF .fi\n.TE\n",
    },
    Table {
        name: "fields for which there is no column",
        input: ".TS\ntab(:);\nl.\na:b\nc\n.TE\n",
        passes: 4,
        told: &[(19, "tbl: line 4: too many fields\n")],
        output: ".TS\n.nr TF \\n(.u\n.nf\n\\&a\n\\&c\n.if \\n(TF .fi\n.TE\n",
    },
    Table {
        name: "a block with a request",
        input: ".TS\ntab(:);\nl lw(5).\na:T{\none two\n.br\nx\nT}\nb:c\n.TE\n",
        passes: 4,
        told: &[(38, "tbl: line 6: request in text block\n")],
        output: ".TS\n.nr TF \\n(.u\n.nf\n\\&a   one\n\\&    two x\n\\&b   c\n.if \\n(TF .fi\n.TE\n",
    },
    Table {
        name: "escapes on joined lines",
        input: ".TS\nl.\na\\\n\\nx\\\nb\n\\*x\n.TE\n",
        passes: 4,
        told: &[
            (17, "tbl: line 4: not measured: \\n\n"),
            (21, "tbl: line 6: not measured: \\*\n"),
        ],
        output: ".TS\n.nr TF \\n(.u\n.nf\n\\&a\\nxb\n\\&\\*x\n.if \\n(TF .fi\n.TE\n",
    },
    Table {
        name: "a letter that is none",
        input: ".TS\nlx q.\na\n.TE\n",
        passes: 4,
        told: &[
            (10, "tbl: line 2: left out: x\n"),
            (10, "tbl: line 2: bad format\n"),
        ],
        output: ".TS\nlx q.\na\n.TE\n",
    },
    Table {
        name: "a command and a further format",
        input: ".TS\nl.\nab\n.sp\n.T&\nrx.\nc\n.TE\n",
        passes: 4,
        told: &[(22, "tbl: line 6: left out: x\n")],
        output: ".TS\n.nr TF \\n(.u\n.nf\n\\&ab\n.sp\n\\& c\n.if \\n(TF .fi\n.TE\n",
    },
    Table {
        name: "options behind a line of text",
        input: "x\n.TS\ncenter keep tab(:);\nl l.\na:b\n.TE\n",
        passes: 6,
        told: &[(26, "tbl: line 3: option ignored: keep\n")],
        output: "x\n.TS\n.nr TF \\n(.u\n.nf\n.in +30n\n\\&a   b\n.in -30n\n.if \\n(TF .fi\n.TE\n",
    },
    Table {
        name: "a block that is open at the end",
        input: ".TS\nl.\nT{\na b\n\\h\n.TE\n",
        passes: 4,
        told: &[(17, "tbl: line 5: not measured: \\h\n")],
        output: ".TS\n.nr TF \\n(.u\n.nf\n\\&a b \\h\n.if \\n(TF .fi\n.TE\n",
    },
];

#[test]
fn tables_cut_behind_each_byte(rt: HostRuntime) -> Result<(), Fail> {
    for table in &TABLES {
        check_cut(&rt, rt.alloc(), table, 0, 1)?;
        let mut count = 0usize;
        let mut line = 1usize;
        for byte in table.input.as_bytes() {
            count = count.saturating_add(1);
            check_cut(&rt, rt.alloc(), table, count, line)?;
            if *byte == b'\n' {
                line = line.saturating_add(1);
            }
        }
    }
    Ok(())
}

#[test]
fn tables_on_sinks_of_each_capacity(rt: HostRuntime) -> Result<(), Fail> {
    for table in &TABLES {
        for room in 0..table.output.len() {
            check_output(&rt, rt.alloc(), table, room)?;
        }
        let told = told_until(rt.alloc(), table, AMPLE)?;
        for room in 0..=told.len() {
            check_messages(&rt, rt.alloc(), table, room)?;
        }
    }
    Ok(())
}

/// Cuts a document behind so many bytes, the last of which stands on this line.
fn check_cut(
    rt: &impl Abort,
    alloc: Global,
    table: &Table,
    count: usize,
    line: usize,
) -> Result<(), Fail> {
    let (status, out, err) = given(alloc, table, Some(count), AMPLE, AMPLE)?;
    let is_whole = count == table.input.len();
    let written = if is_whole {
        AMPLE
    } else {
        count.min(table.passes)
    };
    let mut told = told_until(alloc, table, count)?;
    let fault = format!(in alloc; "tbl: line {line}: read failed\n")?;
    told.extend_from_slice(fault.as_bytes())?;
    let name = table.name;
    let output = kept(table.output.as_bytes(), written);
    assert_eq!(rt; out.kept(), output, "output of {name} cut behind {count}");
    assert_eq!(rt;
        err.kept(),
        told.as_slice(),
        "messages of {name} cut behind {count}"
    );
    assert_eq!(rt;
        status,
        Status::Device,
        "status of {name} cut behind {count}"
    );
    Ok(())
}

/// Runs a document with room for fewer bytes of output than there are.
fn check_output(rt: &impl Abort, alloc: Global, table: &Table, room: usize) -> Result<(), Fail> {
    let (status, out, err) = given(alloc, table, None, room, AMPLE)?;
    let taken = if room < table.passes {
        room.saturating_add(1)
    } else {
        table.input.len()
    };
    let mut told = told_until(alloc, table, taken)?;
    let line = line_of(table, taken);
    let fault = format!(in alloc; "tbl: line {line}: write failed\n")?;
    told.extend_from_slice(fault.as_bytes())?;
    let name = table.name;
    let output = kept(table.output.as_bytes(), room);
    assert_eq!(rt; out.kept(), output, "output of {name} in {room}");
    assert_eq!(rt;
        err.kept(),
        told.as_slice(),
        "messages of {name} with output in {room}"
    );
    assert_eq!(rt;
        status,
        Status::Device,
        "status of {name} with output in {room}"
    );
    Ok(())
}

/// Runs a document with room for so many bytes of messages.
fn check_messages(rt: &impl Abort, alloc: Global, table: &Table, room: usize) -> Result<(), Fail> {
    let (status, out, err) = given(alloc, table, None, AMPLE, room)?;
    let told = told_until(alloc, table, AMPLE)?;
    let is_cut = room < told.len();
    let written = if is_cut { table.passes } else { AMPLE };
    let expected = if is_cut { Status::Device } else { Status::Done };
    let name = table.name;
    let output = kept(table.output.as_bytes(), written);
    assert_eq!(rt;
        out.kept(),
        output,
        "output of {name} with messages in {room}"
    );
    let text = kept(told.as_slice(), room);
    assert_eq!(rt; err.kept(), text, "messages of {name} in {room}");
    assert_eq!(rt;
        status,
        expected,
        "status of {name} with messages in {room}"
    );
    Ok(())
}

/// The line of the last of so many bytes of a document.
fn line_of(table: &Table, count: usize) -> usize {
    let mut line = 1usize;
    for byte in &table.input.as_bytes()[..count.saturating_sub(1).min(table.input.len())] {
        if *byte == b'\n' {
            line = line.saturating_add(1);
        }
    }
    line
}

/// What is told of a document of which so many bytes were taken.
fn told_until(alloc: Global, table: &Table, count: usize) -> Result<Vec<u8>, AllocError> {
    let mut told = Vec::new(alloc);
    for (behind, message) in table.told {
        if *behind <= count {
            told.extend_from_slice(message.as_bytes())?;
        }
    }
    Ok(told)
}

/// As many bytes of a text as have room.
fn kept(text: &[u8], room: usize) -> &[u8] {
    &text[..text.len().min(room)]
}

/// What a document gives on sinks of these capacities, whole or cut behind so many bytes.
fn given(
    alloc: Global,
    table: &Table,
    cut: Option<usize>,
    output: usize,
    messages: usize,
) -> Result<(Status, MemSink, MemSink), AllocError> {
    let source = MemSource::new(table.input.as_bytes(), cut);
    let mut out = MemSink::new(alloc, output)?;
    let sink = MemSink::new(alloc, messages)?;
    let mut err = Bounded { sink, room: 0 };
    let job = Job::Tbl(TblLimits::default(), LENGTH);
    let (status, _source) = run(alloc, job, source, &mut out, &mut err);
    let Bounded { sink, room: _ } = err;
    Ok((status?, out, sink))
}
