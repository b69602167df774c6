//! A run of a command.

ghost use Rattle.std.specs.Prelude.{◌≡◌, IfOk, OnErr};
ghost use Rattle.roff_tools.specs.Clauses.{PutsTables, Runs, RunsBoth, RunsJob, seen};

use page_bytes::{ByteSink, MessageSink};
use roff_engine::{Engine, Start, Status};
use roff_num::Limits;
use roff_scan::ByteSource;
use std::alloc::{AllocError, Global};
use tbl_core::{GatheredSource, TblLimits, TblSource};
use tbl_run::put_tables;

/// What to run. A line length is in columns; tables are centred within it.
#[derive(Drop)]
pub enum Job {
    /// The formatter.
    Nroff(Limits, Start),
    /// Tables, for a line length: their pictures stand in their places.
    Tbl(TblLimits, u32),
    /// Tables, and behind them the formatter.
    Both(Limits, Start, TblLimits, u32),
}

/// Runs a command: reads `source`, writes the text to `out` and the messages to `err`, and gives
/// the source back.
///
/// # Errors
///
/// [`AllocError`] if the memory that the limits ask for can't be had. Then nothing was read or
/// written, and the source is as it was.
pub fn run<S: ByteSource, O: ByteSink, E: MessageSink>(
    alloc: Global,
    job: Job,
    source: S,
    out: &mut O,
    err: &mut E,
) -> (Result<Status, AllocError>, S)
    // The source gave items. Whatever it may still give, the job's run over these items and then
    // that is the definition's: it ended so, or a sink failed in one of its steps.
    ensures runs { IfOk result.0 (λ status. RunsJob job status (S.gives source) (S.gives result.1)
        (seen (S.failures source) (O.sunk out.old) (E.sunk err.old))
        (seen (S.failures result.1) (O.sunk out.new) (E.sunk err.new))) }
    ensures unread { OnErr result.0 (result.1 ≡ source) }
    ensures unwritten { OnErr result.0 ((out.new ≡ out.old) × (err.new ≡ err.old)) }
{
    match job {
        Job::Nroff(limits, start) => run_nroff(alloc, limits, start, source, out, err),
        Job::Tbl(limits, line_length) => run_tbl(alloc, limits, line_length, source, out, err),
        Job::Both(limits, start, table_limits, line_length) => {
            match Engine::new(alloc, limits, start) {
                Ok(engine) => run_both(engine, alloc, table_limits, line_length, source, out, err),
                Err(error) => (Err(error), source),
            }
        }
    }
}

/// Runs the formatter.
fn run_nroff<S: ByteSource, O: ByteSink, E: MessageSink>(
    alloc: Global,
    limits: Limits,
    start: Start,
    source: S,
    out: &mut O,
    err: &mut E,
) -> (Result<Status, AllocError>, S)
    ensures runs { IfOk result.0 (λ status. Runs limits start status
        (S.gives source) (S.gives result.1)
        (seen (S.failures source) (O.sunk out.old) (E.sunk err.old))
        (seen (S.failures result.1) (O.sunk out.new) (E.sunk err.new))) }
    ensures unread { OnErr result.0 (result.1 ≡ source) }
    ensures unwritten { OnErr result.0 ((out.new ≡ out.old) × (err.new ≡ err.old)) }
{
    let engine = match Engine::new(alloc, limits, start) {
        Ok(engine) => engine,
        Err(error) => return (Err(error), source),
    };
    let mut source = source;
    let status = engine.format(&mut source, out, err);
    (Ok(status), source)
}

/// Puts pictures in the places of tables.
fn run_tbl<S: ByteSource, O: ByteSink, E: MessageSink>(
    alloc: Global,
    limits: TblLimits,
    line_length: u32,
    source: S,
    out: &mut O,
    err: &mut E,
) -> (Result<Status, AllocError>, S)
    ensures runs { IfOk result.0 (λ status. PutsTables limits line_length status
        (S.gives source) (S.gives result.1)
        (seen (S.failures source) (O.sunk out.old) (E.sunk err.old))
        (seen (S.failures result.1) (O.sunk out.new) (E.sunk err.new))) }
    ensures unread { OnErr result.0 (result.1 ≡ source) }
    ensures unwritten { OnErr result.0 ((out.new ≡ out.old) × (err.new ≡ err.old)) }
{
    match TblSource::new(alloc, limits, line_length, source) {
        Ok(tables) => {
            let mut tables = tables;
            let status = put_tables(&mut tables, out, err);
            (Ok(status), tables.into_inner())
        }
        Err((error, source)) => (Err(error), source),
    }
}

/// Runs the formatter over a source with the pictures of its tables.
fn run_both<S: ByteSource, O: ByteSink, E: MessageSink>(
    engine: Engine,
    alloc: Global,
    limits: TblLimits,
    line_length: u32,
    source: S,
    out: &mut O,
    err: &mut E,
) -> (Result<Status, AllocError>, S)
    ensures runs { IfOk result.0 (λ status. RunsBoth
        engine.limits engine.start limits line_length status
        (S.gives source) (S.gives result.1)
        (seen (S.failures source) (O.sunk out.old) (E.sunk err.old))
        (seen (S.failures result.1) (O.sunk out.new) (E.sunk err.new))) }
    ensures unread { OnErr result.0 (result.1 ≡ source) }
    ensures unwritten { OnErr result.0 ((out.new ≡ out.old) × (err.new ≡ err.old)) }
{
    match GatheredSource::new(alloc, limits, line_length, source) {
        Ok(tables) => {
            let mut tables = tables;
            let status = engine.format(&mut tables, out, err);
            (Ok(status), tables.into_inner())
        }
        Err((error, source)) => (Err(error), source),
    }
}
