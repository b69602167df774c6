//! The program: it reads its words, opens its files, runs the job and tells how it went.

ghost use Rattle.std.specs.Prelude.{◌≡◌, ◌⊎◌, Some, true, is_ok, IfOk, IfErr, OnErr, map};
ghost use Rattle.std.specs.Prelude.{string_bytes};
ghost use Rattle.roff_tools.specs.Clauses.{AreMistaken, AreNamed, AskForHelp, IsFinished};
ghost use Rattle.roff_tools.specs.Clauses.{IsFlushed, IsNamed, IsPrepared, IsTold, NamesBad};
ghost use Rattle.roff_tools.specs.Clauses.{NamesFile, NamesFirstRefused, NamesPages};
ghost use Rattle.roff_tools.specs.Clauses.{NamesRegister, NamesStart, NamesWords, Performs};
ghost use Rattle.roff_tools.specs.Clauses.{PerformsAsked, PerformsIfAsked, RunsBuffered, Shows};
ghost use Rattle.roff_tools.specs.Clauses.{Starts, TellsFault, TellsNoMemory, TellsSome};
ghost use Rattle.roff_tools.specs.Clauses.{exit_flushed, exit_number, exit_status};
ghost use Rattle.roff_tools.specs.Clauses.{fault_of, given_to, job_of, roff_app};
ghost use Rattle.roff_tools.specs.Clauses.{start_read, subcommand_of, takes, told, told_pages};

use crate::exit::Exit;
use crate::fault::StartFault;
use crate::telling::{report, show};
use crate::words::Words;
use crate::{
    BlockWrite, Bounded, ByteSink, Job, MessageSink, ReadSource, SinkFault, Start, WriteSink, run,
};
use cli_devices::{Buffered, Inputs, Part, Readers};
use cli_words::{Asked, Pages, Registers, Request, STANDARD_INPUT, parse_words, prepare_words};
use std::alloc::Global;
use std::convert::AsStr;
use std::process::ExitCode;

/// How the program ended, and the writers that it was given.
#[derive(Drop)]
pub struct Finished<O, E> {
    /// The exit status.
    pub exit: ExitCode,
    /// The writer of the output.
    pub stdout: O,
    /// The writer of the messages.
    pub stderr: E,
}

/// Runs the program on the words, files and standard input of `rt`. What is written on `stdout` and
/// on `stderr` is buffered here, 8,192 bytes of each at most: the text is flushed first, and then
/// the messages.
pub fn main_with<R, O, E>(rt: &R, stdout: O, stderr: E) -> Finished<O, E>
where
    R: Words + Readers + AllocGlobal,
    O: BlockWrite + Drop,
    E: BlockWrite + Drop,
    // What the words ask for was done, with the output and the messages through buffers that were
    // flushed at the end, however the run ended; and that is what the exit status tells. Where
    // nothing was done, why is told.
    ensures { IsFinished (R.says rt.now) (R.opens rt.now) (R.refuses rt.now) (R.stands rt.now)
        R.File.gives R.Standard.gives (O.sunk stdout) (E.sunk stderr)
        (exit_status result.exit) (O.sunk result.stdout) (E.sunk result.stderr) }
{
    match Buffered::new(rt.alloc(), stderr) {
        Ok(buffered) => {
            let (exit, stdout, stderr) = run_told(rt, stdout, buffered);
            ended_so(exit, stdout, stderr)
        }
        Err(stderr) => {
            let sink = WriteSink::new(stderr);
            let mut err = Bounded { sink, room: 0 };
            let exit = report(&StartFault::OutOfMemory, &mut err);
            let Bounded { sink, room: _ } = err;
            ended_so(exit, stdout, sink.into_inner())
        }
    }
}

/// The program's end.
fn ended_so<O, E>(exit: Exit, stdout: O, stderr: E) -> Finished<O, E>
    ensures exit { exit_status result.exit ≡ exit_number exit }
    ensures stdout { result.stdout ≡ stdout }
    ensures stderr { result.stderr ≡ stderr }
{
    Finished {
        exit: ExitCode::from(exit.number()),
        stdout,
        stderr,
    }
}

/// Does what the words of the command line ask for, and flushes the messages behind it: the output
/// was flushed before.
fn run_told<R, O, E>(rt: &R, stdout: O, stderr: Buffered<E>) -> (Exit, O, E)
where
    R: Words + Readers + AllocGlobal,
    O: BlockWrite + Drop,
    E: BlockWrite + Drop,
    ensures { IsTold (R.says rt.now) (R.opens rt.now) (R.refuses rt.now) (R.stands rt.now)
        R.File.gives R.Standard.gives (O.sunk stdout) (given_to E.sunk stderr)
        result.0 (O.sunk result.1) (E.sunk result.2) }
{
    let sink = WriteSink::new(stderr);
    let mut err = Bounded { sink, room: 0 };
    let (exit, stdout) = run_buffered(rt, stdout, &mut err);
    let Bounded { sink, room: _ } = err;
    let (stderr, flushed) = sink.into_inner().finish();
    (after_flush(exit, flushed), stdout, stderr)
}

/// Does what the words of the command line ask for, with the output through a buffer. Where there
/// is no memory for that, nothing is done but to tell it.
fn run_buffered<R, O, E>(rt: &R, stdout: O, err: &mut E) -> (Exit, O)
where
    R: Words + Readers + AllocGlobal,
    O: BlockWrite + Drop,
    E: MessageSink,
    ensures { RunsBuffered (R.says rt.now) (R.opens rt.now) (R.refuses rt.now) (R.stands rt.now)
        R.File.gives R.Standard.gives (O.sunk stdout) (E.sunk err.old)
        result.0 (O.sunk result.1) (E.sunk err.new) }
{
    match Buffered::new(rt.alloc(), stdout) {
        Ok(buffered) => run_flushed(rt, buffered, err),
        Err(stdout) => (report(&StartFault::OutOfMemory, err), stdout),
    }
}

/// Does what the words of the command line ask for, and flushes the output behind it.
fn run_flushed<R, O, E>(rt: &R, stdout: Buffered<O>, err: &mut E) -> (Exit, O)
where
    R: Words + Readers + AllocGlobal,
    O: BlockWrite + Drop,
    E: MessageSink,
    ensures { IsFlushed (R.says rt.now) (R.opens rt.now) (R.refuses rt.now) (R.stands rt.now)
        R.File.gives R.Standard.gives (given_to O.sunk stdout) (E.sunk err.old)
        result.0 (O.sunk result.1) (E.sunk err.new) }
{
    let mut out = WriteSink::new(stdout);
    let exit = start(rt, &mut out, err);
    let (stdout, flushed) = out.into_inner().finish();
    (after_flush(exit, flushed), stdout)
}

/// Does what the words of the command line ask for.
fn start<R, O, E>(rt: &R, out: &mut O, err: &mut E) -> Exit
where
    R: Words + Readers + AllocGlobal,
    O: ByteSink,
    E: MessageSink,
    ensures { Starts (R.says rt.now) (R.opens rt.now) (R.refuses rt.now) (R.stands rt.now)
        R.File.gives R.Standard.gives result
        (O.sunk out.old) (O.sunk out.new) (E.sunk err.old) (E.sunk err.new) }
{
    match words_of(rt) {
        Ok(words) => obey(rt, words.as_slice(), out, err),
        Err(fault) => report(&fault, err),
    }
}

/// The words of the command line, in the form that the parser reads.
fn words_of<R: Words + AllocGlobal>(rt: &R) -> Result<Vec<String>, StartFault>
    ensures words { IfOk result
        (λ words. IsPrepared (R.says rt.now) (map string_bytes words.items)) }
    ensures fault { IfErr result NamesWords }
{
    let words = rt.words(rt.alloc())?;
    Ok(prepare_words(rt.alloc(), words.as_slice())?)
}

/// How the program ends, once its output or its messages are flushed: a flush that fails is a
/// failed write.
fn after_flush(exit: Exit, flushed: Result<(), SinkFault>) -> Exit
    ensures { result ≡ exit_flushed exit (is_ok flushed) }
{
    match flushed {
        Err(_) if exit != Exit::NotStarted => Exit::DeviceFailed,
        _ => exit,
    }
}

/// Does what these words ask for.
fn obey<R, S, O, E>(rt: &R, words: &[S], out: &mut O, err: &mut E) -> Exit
where
    R: Readers + AllocGlobal,
    S: AsStr,
    O: ByteSink,
    E: MessageSink,
    // Where the words are in order a command runs as they ask, or can't start, and why is told.
    ensures performs { takes roff_app (map S.text words.now) ≡ true
        → ((result ≡ Exit.NotStarted)
        × TellsFault (NamesStart (R.opens rt.now) (R.refuses rt.now) (R.stands rt.now)
        (subcommand_of roff_app (map S.text words.now))) (E.sunk err.old) (E.sunk err.new))
        ⊎ PerformsAsked (R.opens rt.now) (R.stands rt.now) R.File.gives R.Standard.gives
        (subcommand_of roff_app (map S.text words.now)) result
        (O.sunk out.old) (O.sunk out.new) (E.sunk err.old) (E.sunk err.new) }
    // Help and the version go to the output alone, and nothing of a mistake does.
    ensures asked { AskForHelp (fault_of roff_app (map S.text words.now))
        → ((result ≡ Exit.NotStarted) × TellsNoMemory (E.sunk err.old) (E.sunk err.new))
        ⊎ (Shows result (O.sunk out.old) (O.sunk out.new) × (err.new ≡ err.old)) }
    ensures mistaken { AreMistaken (fault_of roff_app (map S.text words.now))
        → (result ≡ Exit.NotStarted) × TellsSome (E.sunk err.old) (E.sunk err.new) }
    ensures unwritten { result ≡ Exit.NotStarted → out.new ≡ out.old }
{
    match parse_words(rt.alloc(), words) {
        Ok(request) => match perform(rt, request, out, err) {
            Ok(exit) => exit,
            Err(fault) => report(&fault, err),
        },
        Err(shown) => show(rt.alloc(), &shown, out, err),
    }
}

/// Looks at the pages that are to be written, and at the registers that are to be set, and then
/// runs the command over its files.
fn perform<R, O, E>(
    rt: &R,
    request: Request<'_>,
    out: &mut O,
    err: &mut E,
) -> Result<Exit, StartFault>
where
    R: Readers + AllocGlobal,
    O: ByteSink,
    E: MessageSink,
    ensures performs { IfOk result (λ exit. PerformsIfAsked (R.opens rt.now) (R.stands rt.now)
        R.File.gives R.Standard.gives (map (λ name. name.now) request.entry.files.items)
        (start_read request.entry) (Some request.entry.asked) exit
        (O.sunk out.old) (O.sunk out.new) (E.sunk err.old) (E.sunk err.new)) }
    ensures fault { IfErr result (NamesBad (told_pages request.entry.pages)
        (told request.entry.registers)
        (NamesFirstRefused (R.opens rt.now) (R.refuses rt.now) (R.stands rt.now)
        (map (λ name. name.now) request.entry.files.items))) }
    ensures unwritten { OnErr result ((out.new ≡ out.old) × (err.new ≡ err.old)) }
{
    let Request {
        asked,
        files,
        first_page,
        pages,
        registers,
    } = request;
    match pages {
        Pages::Listed(pages) => match registers {
            Registers::Set(registers) => {
                let start = Start {
                    first_page,
                    pages,
                    registers,
                };
                run_over(rt, files.as_slice(), job_of(asked, start), out, err)
            }
            Registers::Bad(text) => Err(bad_register(rt.alloc(), text)),
        },
        Pages::Bad(text) => Err(bad_pages(rt.alloc(), text)),
    }
}

/// The fault of a text that is no list of pages.
fn bad_pages(alloc: Global, text: &str) -> StartFault
    ensures { NamesPages text.now result }
{
    match String::from_str(alloc, text) {
        Ok(text) => StartFault::BadPages(text),
        Err(_) => StartFault::OutOfMemory,
    }
}

/// The fault of a text that asks for no register.
fn bad_register(alloc: Global, text: &str) -> StartFault
    ensures { NamesRegister text.now result }
{
    match String::from_str(alloc, text) {
        Ok(text) => StartFault::BadRegister(text),
        Err(_) => StartFault::OutOfMemory,
    }
}

/// Opens all files and then runs a job over them.
fn run_over<R, O, E>(
    rt: &R,
    names: &[&str],
    job: Job,
    out: &mut O,
    err: &mut E,
) -> Result<Exit, StartFault>
where
    R: Readers + AllocGlobal,
    O: ByteSink,
    E: MessageSink,
    ensures performs { IfOk result (λ exit. Performs (R.opens rt.now) (R.stands rt.now)
        R.File.gives R.Standard.gives (map (λ name. name.now) names.now) job exit
        (O.sunk out.old) (O.sunk out.new) (E.sunk err.old) (E.sunk err.new)) }
    ensures fault { IfErr result (NamesFirstRefused (R.opens rt.now) (R.refuses rt.now)
        (R.stands rt.now) (map (λ name. name.now) names.now)) }
    ensures unwritten { OnErr result ((out.new ≡ out.old) × (err.new ≡ err.old)) }
{
    let inputs = open_all(rt, names)?;
    let source = ReadSource::new(rt.alloc(), inputs)?;
    let (status, source) = run(rt.alloc(), job, source, out, err);
    source.stays_counted();
    Ok(Exit::after(status?))
}

/// The job that is asked for, with what the run is given at its start.
fn job_of(asked: Asked, start: Start) -> Job
    ensures { result ≡ job_of asked start }
{
    match asked {
        Asked::Nroff(limits) => Job::Nroff(limits, start),
        Asked::Tbl(limits, line_length) => Job::Tbl(limits, line_length),
        Asked::Both(limits, table_limits, line_length) => {
            Job::Both(limits, start, table_limits, line_length)
        }
    }
}

/// Opens the files in their order.
fn open_all<R: Readers + AllocGlobal>(
    rt: &R,
    names: &[&str],
) -> Result<Inputs<R::File, R::Standard>, StartFault>
    ensures parts { IfOk result (AreNamed (R.opens rt.now) (R.stands rt.now)
        (map (λ name. name.now) names.now)) }
    // It names the first file that was refused: those in front of it were opened.
    ensures fault { IfErr result (NamesFirstRefused (R.opens rt.now) (R.refuses rt.now)
        (R.stands rt.now) (map (λ name. name.now) names.now)) }
{
    let mut parts = Vec::new(rt.alloc());
    for name in names {
        parts.push(open_part(rt, name)?)?;
    }
    Ok(Inputs::new(parts))
}

fn open_part<R: Readers + AllocGlobal>(
    rt: &R,
    name: &str,
) -> Result<Part<R::File, R::Standard>, StartFault>
    ensures part { IfOk result (IsNamed (R.opens rt.now) (R.stands rt.now) name.now) }
    ensures fault { IfErr result (NamesFile (R.refuses rt.now) name.now) }
{
    if name == STANDARD_INPUT {
        return Ok(Part::Standard(rt.standard()));
    }
    match rt.open(name) {
        Some(file) => Ok(Part::File(file)),
        None => Err(StartFault::CannotOpen(String::from_str(rt.alloc(), name)?)),
    }
}
