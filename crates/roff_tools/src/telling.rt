//! What is told on standard error where a run doesn't start, and what is shown in place of one.

ghost use Rattle.std.specs.Prelude.{◌≡◌, ◌≢◌, ◌⊎◌, ◌<◌, ◌∷◌, [], ◌++◌, None, IfSome, codes};
ghost use Rattle.std.specs.Prelude.{length, string_bytes};
ghost use Rattle.roff_tools.specs.Clauses.{Fails, Puts, Shows, Tells, TellsNoMemory, TellsSome};
ghost use Rattle.roff_tools.specs.Clauses.{Writes, fault_line, kind_of};

use crate::exit::Exit;
use crate::fault::StartFault;
use crate::{ByteSink, MessageSink, SinkFault};
use clap::error::ErrorKind;
use std::alloc::Global;

/// Writes a fault's message. Where the write fails, there is no one to tell.
pub(crate) fn report<E: MessageSink>(fault: &StartFault, err: &mut E) -> Exit
    ensures exit { result ≡ Exit.NotStarted }
    ensures told { Tells (E.sunk err.old) (E.sunk err.new) (fault_line fault.now) }
{
    let (words, text) = fault.told();
    let _ = put_line(words, text, err);
    Exit::NotStarted
}

/// Writes two texts as one line of the program's own.
fn put_line<E: MessageSink>(words: &str, text: &str, err: &mut E) -> Result<(), SinkFault>
    ensures { Puts (E.sunk err.old) (E.sunk err.new)
        (codes "roff: " ++ (words.now ++ text.now) ++ 10 ∷ []) result }
{
    match err.put(b"roff: ") {
        Ok(()) => put_rest(words, text, err),
        Err(fault) => Err(fault),
    }
}

/// Writes two texts, and a newline behind them.
fn put_rest<E: MessageSink>(words: &str, text: &str, err: &mut E) -> Result<(), SinkFault>
    ensures { Puts (E.sunk err.old) (E.sunk err.new)
        ((words.now ++ text.now) ++ 10 ∷ []) result }
{
    match put_both(words, text, err) {
        Ok(()) => err.put(b"\n"),
        Err(fault) => Err(fault),
    }
}

/// Writes two texts one behind the other.
fn put_both<E: MessageSink>(first: &str, second: &str, err: &mut E) -> Result<(), SinkFault>
    ensures { Puts (E.sunk err.old) (E.sunk err.new) (first.now ++ second.now) result }
{
    match err.put(first.as_bytes()) {
        Ok(()) => err.put(second.as_bytes()),
        Err(fault) => Err(fault),
    }
}

/// Writes what a parse of the words has to say in place of a request, if there is memory for it.
pub(crate) fn show<O: ByteSink, E: MessageSink>(
    alloc: Global,
    shown: &clap::Error,
    out: &mut O,
    err: &mut E,
) -> Exit
    ensures memory { kind_of shown.now ≡ ErrorKind.OutOfMemory
        → (result ≡ Exit.NotStarted) × TellsNoMemory (E.sunk err.old) (E.sunk err.new) }
    ensures mistake { (kind_of shown.now ≢ ErrorKind.DisplayHelp)
        → (kind_of shown.now ≢ ErrorKind.DisplayVersion)
        → (result ≡ Exit.NotStarted) × TellsSome (E.sunk err.old) (E.sunk err.new) }
    ensures asked { (kind_of shown.now ≡ ErrorKind.DisplayHelp)
        ⊎ (kind_of shown.now ≡ ErrorKind.DisplayVersion)
        → ((result ≡ Exit.NotStarted) × TellsNoMemory (E.sunk err.old) (E.sunk err.new))
        ⊎ (Shows result (O.sunk out.old) (O.sunk out.new) × (err.new ≡ err.old)) }
    ensures unwritten { result ≡ Exit.NotStarted → out.new ≡ out.old }
{
    match text_of(alloc, shown) {
        Some(text) => show_text(shown, text.as_str(), out, err),
        None => report(&StartFault::OutOfMemory, err),
    }
}

/// The text of what a parse of the words has to say. None where there is no memory for it, or was
/// none for the parse.
fn text_of(alloc: Global, shown: &clap::Error) -> Option<String>
    ensures some { IfSome result (λ text. 0 < length (string_bytes text)) }
    ensures none { kind_of shown.now ≡ ErrorKind.OutOfMemory → result ≡ None }
{
    if shown.kind() == ErrorKind::OutOfMemory {
        return None;
    }
    match format!(in alloc; "{shown}") {
        Ok(text) if !text.is_empty() => Some(text),
        _ => None,
    }
}

/// Writes that text where it goes.
fn show_text<O: ByteSink, E: MessageSink>(
    shown: &clap::Error,
    text: &str,
    out: &mut O,
    err: &mut E,
) -> Exit
    ensures mistake { (kind_of shown.now ≢ ErrorKind.DisplayHelp)
        → (kind_of shown.now ≢ ErrorKind.DisplayVersion)
        → (result ≡ Exit.NotStarted) × Tells (E.sunk err.old) (E.sunk err.new) text.now }
    ensures asked { (kind_of shown.now ≡ ErrorKind.DisplayHelp)
        ⊎ (kind_of shown.now ≡ ErrorKind.DisplayVersion)
        → (((result ≡ Exit.Done) × Writes (O.sunk out.old) (O.sunk out.new) text.now)
        ⊎ ((result ≡ Exit.DeviceFailed) × Fails (O.sunk out.old) (O.sunk out.new) text.now))
        × (err.new ≡ err.old) }
    ensures unwritten { result ≡ Exit.NotStarted → out.new ≡ out.old }
{
    if shown.use_stderr() {
        let _ = err.put(text.as_bytes());
        return Exit::NotStarted;
    }
    match out.put(text.as_bytes()) {
        Ok(()) => Exit::Done,
        Err(_) => Exit::DeviceFailed,
    }
}
