//! How messages are reported.

ghost use Rattle.std.specs.Prelude.{◌≡◌, ◌-◌, OnOk, false, length, true};
ghost use Rattle.run_items.specs.Clauses.{Puts, Tells, message_line, told_line};
ghost use Rattle.page_bytes.specs.Told.{told_by};

use page_bytes::{MessageSink, SinkFault};
use roff_num::Limit;
use run_events::Halt;
use run_model::Message;

/// Tells a piece of messages, if there is room for it.
///
/// # Errors
///
/// [`Halt::Refused`] by the limit on messages where there is none, and [`Halt::Messages`] where the
/// sink failed.
pub fn tell<E: MessageSink>(piece: &[u8], err: &mut E) -> Result<(), Halt>
    ensures { Tells (told_by E.MessageSink err.old)
        (told_by E.MessageSink err.new) piece.now result }
{
    if !err.has_room(piece.len()) {
        return Err(Halt::Refused(Limit::Messages));
    }
    match err.put(piece) {
        Ok(()) => Ok(()),
        Err(_) => Err(Halt::Messages),
    }
}

/// Tells the text of a message that a request tells, if there is room for it: bare, and a newline.
///
/// # Errors
///
/// As those of [`tell`].
pub fn tell_text<E: MessageSink>(text: &[u8], err: &mut E) -> Result<(), Halt>
    ensures { Tells (told_by E.MessageSink err.old)
        (told_by E.MessageSink err.new) (told_line false text.now) result }
{
    if !err.has_room(text.len() + 1) {
        return Err(Halt::Refused(Limit::Messages));
    }
    match put_line(text, err) {
        Ok(()) => Ok(()),
        Err(_) => Err(Halt::Messages),
    }
}

/// Writes a message of this line of the input, in one piece, whether there is room for it or not:
/// one that says why the run ends.
///
/// # Errors
///
/// The sink's fault.
pub fn report<E: MessageSink>(message: Message, line: u32, err: &mut E) -> Result<(), SinkFault>
    ensures { Puts (told_by E.MessageSink err.old)
        (told_by E.MessageSink err.new) (message_line line message) result }
{
    err.put(&message.line(line))
}

/// Writes the text of a message with which a request aborts the run, whether there is room for it
/// or not: bare, and a newline. An empty one is `User Abort`.
///
/// # Errors
///
/// The sink's fault.
pub fn report_abort<E: MessageSink>(text: &[u8], err: &mut E) -> Result<(), SinkFault>
    ensures { Puts (told_by E.MessageSink err.old)
        (told_by E.MessageSink err.new) (told_line true text.now) result }
{
    if text.is_empty() {
        put_line(b"User Abort", err)
    } else {
        put_line(text, err)
    }
}

/// Writes a text and a newline.
fn put_line<E: MessageSink>(text: &[u8], err: &mut E) -> Result<(), SinkFault>
    ensures puts { Puts (told_by E.MessageSink err.old)
        (told_by E.MessageSink err.new) (told_line false text.now) result }
    ensures room { OnOk result
        (E.room err.new ≡ E.room err.old - length (told_line false text.now)) }
{
    match err.put(text) {
        Ok(()) => err.put(b"\n"),
        Err(fault) => Err(fault),
    }
}
