//! A whole run in memory, from bytes to bytes.

ghost use Rattle.std.specs.Prelude.{◌≡◌, ◌≤◌, length, take, IfOk};
ghost use Rattle.tbl_core.specs.Yields.{at_start, yields};
ghost use Rattle.roff_tools.specs.Clauses.{IsBeginning, IsWholeResult, IsWholeTblResult};
ghost use Rattle.roff_tools.specs.Clauses.{RanInMemory, messages_of, output_of, tape_of_bytes};
ghost use Rattle.roff_tools.specs.Clauses.{tbl_messages_of, tbl_output_of};

use crate::{Job, run};
use cli_devices::{MemSource, WatchedSink};
use page_bytes::Bounded;
use roff_engine::{Start, Status};
use roff_num::Limits;
use std::alloc::{AllocError, Global};
use tbl_core::TblLimits;

/// Room, in bytes, for what a run writes and reports.
#[derive(Clone, Copy)]
pub struct Room {
    /// For the text.
    pub output: usize,
    /// For the messages.
    pub messages: usize,
}

/// What a run in memory gave.
#[derive(Drop)]
pub struct Formatted {
    /// How it ended.
    pub status: Status,
    /// The text, as far as there was room.
    pub output: Vec<u8>,
    /// The messages, as far as there was room.
    pub messages: Vec<u8>,
}

/// Formats a text that stands in memory. The source fails after `fail_at` of its bytes, if there
/// are so many. Where the room for the text is passed, the run ends as at a failed write.
///
/// # Errors
///
/// [`AllocError`] if the room, or the memory that the limits ask for, can't be had.
pub fn format_in_memory(
    alloc: Global,
    limits: Limits,
    start: Start,
    text: &[u8],
    fail_at: Option<usize>,
    room: Room,
) -> Result<Formatted, AllocError>
    // With room for all of it, the definition's result, and nothing else.
    ensures whole { let t = tape_of_bytes text.now fail_at in
        length (output_of limits start t) ≤ room.output →
        length (messages_of limits start t) ≤ room.messages →
        IfOk result (λ f. IsWholeResult limits start t f) }

    // With room for the messages, as many of the definition's first bytes as there is room for.
    ensures output { let t = tape_of_bytes text.now fail_at in
        length (messages_of limits start t) ≤ room.messages →
        IfOk result (λ f. f.output.items ≡ take room.output (output_of limits start t)) }

    // In any case a beginning of what the definition writes.
    ensures beginning { IfOk result (λ f.
        IsBeginning f.output.items (output_of limits start (tape_of_bytes text.now fail_at))) }
{
    run_in_memory(alloc, Job::Nroff(limits, start), text, fail_at, room)
}

/// Formats a text with tables that stands in memory, as [`format_in_memory`] does one without them.
/// The tables have their own limits, and this line length, in columns.
///
/// # Errors
///
/// [`AllocError`] if the room, or the memory that the limits ask for, can't be had.
pub fn format_tables_in_memory(
    alloc: Global,
    limits: Limits,
    start: Start,
    tables: (TblLimits, u32),
    text: &[u8],
    fail_at: Option<usize>,
    room: Room,
) -> Result<Formatted, AllocError>
    // With room for all of it, the definition's result over what tables give, and nothing else.
    ensures whole { let t = yields tables.0 tables.1 at_start (tape_of_bytes text.now fail_at) in
        length (output_of limits start t) ≤ room.output →
        length (messages_of limits start t) ≤ room.messages →
        IfOk result (λ f. IsWholeResult limits start t f) }

    // With room for the messages, as many of the definition's first bytes as there is room for.
    ensures output { let t = yields tables.0 tables.1 at_start (tape_of_bytes text.now fail_at) in
        length (messages_of limits start t) ≤ room.messages →
        IfOk result (λ f. f.output.items ≡ take room.output (output_of limits start t)) }

    // In any case a beginning of what the definition writes.
    ensures beginning { IfOk result (λ f. IsBeginning f.output.items (output_of limits start
        (yields tables.0 tables.1 at_start (tape_of_bytes text.now fail_at)))) }
{
    let (table_limits, line_length) = tables;
    let job = Job::Both(limits, start, table_limits, line_length);
    run_in_memory(alloc, job, text, fail_at, room)
}

/// Puts lines for the formatter in the place of each table of a text that stands in memory, within
/// this line length, in columns. The source and the room are as of [`format_in_memory`].
///
/// # Errors
///
/// [`AllocError`] if the room, or the memory that the limits ask for, can't be had.
pub fn lay_tables_in_memory(
    alloc: Global,
    limits: TblLimits,
    line_length: u32,
    text: &[u8],
    fail_at: Option<usize>,
    room: Room,
) -> Result<Formatted, AllocError>
    // With room for all of it, the result of the definition of `tbl`, and nothing else.
    ensures whole { let t = tape_of_bytes text.now fail_at in
        length (tbl_output_of limits line_length t) ≤ room.output →
        length (tbl_messages_of limits line_length t) ≤ room.messages →
        IfOk result (λ f. IsWholeTblResult limits line_length t f) }

    // With room for the messages, as many of the definition's first bytes as there is room for.
    ensures output { let t = tape_of_bytes text.now fail_at in
        length (tbl_messages_of limits line_length t) ≤ room.messages →
        IfOk result (λ f. f.output.items ≡ take room.output (tbl_output_of limits line_length t)) }

    // In any case a beginning of what the definition writes.
    ensures beginning { IfOk result (λ f. IsBeginning f.output.items
        (tbl_output_of limits line_length (tape_of_bytes text.now fail_at))) }
{
    run_in_memory(alloc, Job::Tbl(limits, line_length), text, fail_at, room)
}

/// Runs a job over a text that stands in memory.
fn run_in_memory(
    alloc: Global,
    job: Job,
    text: &[u8],
    fail_at: Option<usize>,
    room: Room,
) -> Result<Formatted, AllocError>
    ensures { IfOk result (RanInMemory job (tape_of_bytes text.now fail_at) room) }
{
    let source = MemSource::new(text, fail_at);
    let mut out = WatchedSink::new(alloc, room.output)?;
    let sink = WatchedSink::new(alloc, room.messages)?;
    let mut err = Bounded { sink, room: 0 };
    let (status, _source) = run(alloc, job, source, &mut out, &mut err);
    let Bounded { sink, room: _ } = err;
    Ok(Formatted {
        status: status?,
        output: out.into_kept(),
        messages: sink.into_kept(),
    })
}
