//! The loop over what a source with tables answers.

ghost use Rattle.std.specs.Prelude.{◌≡◌, ◌+◌, ◌≤◌, None, length, take};
ghost use Rattle.input_source.specs.Tape.{Gives, OneByte, OneNote, answer_of};
ghost use Rattle.page_bytes.specs.Devices.{seen};
ghost use Rattle.tbl_core.specs.Yields.{at_start};
ghost use Rattle.tbl_run.specs.Outcome.{PutsTables};
ghost use Rattle.tbl_run.specs.Run.{Written};
ghost use Rattle.tbl_run.specs.Turns.{Counted, FrontPut, Tells, Turned};

use input_source::{ByteSource, Taken, at_most};
use page_bytes::{ByteSink, MessageSink};
use roff_num::Limit;
use run_model::Status;
use tbl_core::{Message, TblLimits, TblSource, Told};

/// How much a run wrote and told.
#[derive(Clone, Copy)]
pub struct Counts {
    /// The bytes written.
    pub written: u32,
    /// The bytes told of the source's messages.
    pub told: u64,
}

/// Writes what a source with tables gives, of which nothing was asked yet: its bytes to `out`, and
/// its messages to `err`. Bytes of a picture that lie together are put at once, others one by one.
pub fn put_tables<S: ByteSource, O: ByteSink, E: MessageSink>(
    source: &mut TblSource<S>,
    out: &mut O,
    err: &mut E,
) -> Status
    requires { source.old.tables.at ≡ at_start }
    ensures { PutsTables source.old.tables.limits source.old.tables.line_length result
        (S.gives source.old.inner) (S.gives source.new.inner)
        (seen (S.failures source.old.inner) (O.sunk out.old) (E.sunk err.old))
        (seen (S.failures source.new.inner) (O.sunk out.new) (E.sunk err.new)) }
{
    let limits = source.limits();
    let mut counts = Counts {
        written: 0,
        told: 0,
    };
    loop {
        let front = front_of(source.pending(), limits.output - counts.written);
        if front.is_empty() {
            match source.take_ready() {
                Some(byte) => match put_byte(limits, source.line(), byte, counts, out, err) {
                    Ok(behind) => counts = behind,
                    Err(status) => return status,
                },
                None => {
                    let taken = source.take();
                    match turn(limits, source.line(), taken, counts, out, err) {
                        Ok(behind) => counts = behind,
                        Err(status) => return status,
                    }
                }
            }
        } else {
            let given = front.len();
            let line = source.line();
            match put_front(limits, line, front, counts, out, err) {
                Ok(behind) => {
                    source.give_bytes(given);
                    counts = behind;
                }
                Err(status) => return status,
            }
        }
    }
}

/// The first of some bytes, so many at most.
#[inline(always)]
fn front_of(bytes: &[u8], most: u32) -> &[u8]
    ensures { result.now ≡ take most bytes.now }
{
    // Most often there are none: then nothing is counted.
    if bytes.is_empty() {
        return bytes;
    }
    at_most(bytes, most as usize)
}

/// Writes bytes that the limit on the output has room for, behind so many, where the last byte
/// taken stands on this line. Answers how many are written then, or how the run ends.
#[inline(always)]
fn put_front<O: ByteSink, E: MessageSink>(
    limits: TblLimits,
    line: u32,
    bytes: &[u8],
    counts: Counts,
    out: &mut O,
    err: &mut E,
) -> Result<Counts, Status>
    requires { counts.written + length bytes.now ≤ limits.output }
    ensures { FrontPut line bytes.now counts result
        (O.sunk out.old) (O.sunk out.new) (E.sunk err.old) (E.sunk err.new) }
{
    match out.put(bytes) {
        Ok(()) => Ok(Counts {
            written: counts.written + bytes.len() as u32,
            ..counts
        }),
        Err(_) => Err(tell(line, Message::WriteFailed, Status::Device, err)),
    }
}

/// Writes or tells an answer, behind so many bytes, where the last byte taken stands on this line.
/// Answers how many there are then, or how the run ends.
#[inline(never)]
fn turn<O: ByteSink, E: MessageSink>(
    limits: TblLimits,
    line: u32,
    taken: Taken,
    counts: Counts,
    out: &mut O,
    err: &mut E,
) -> Result<Counts, Status>
    requires written { counts.written ≤ limits.output }
    requires told { counts.told ≤ limits.messages }
    ensures { (w : Written) → w.ended ≡ None → Counted counts w
        → Turned limits line (answer_of taken) w result
        (O.sunk out.old) (O.sunk out.new) (E.sunk err.old) (E.sunk err.new) }
{
    match taken {
        Taken::Byte(byte) => put_byte(limits, line, byte, counts, out, err),
        Taken::Note(note) => put_note(limits, line, note.as_slice(), counts, err),
        Taken::End => Err(Status::Done),
        Taken::Fault => Err(tell(line, Message::ReadFailed, Status::Device, err)),
        Taken::Stop(limit) => Err(Status::Limit(limit)),
    }
}

/// Writes a byte, unless it would pass the limit on the output.
#[inline(always)]
fn put_byte<O: ByteSink, E: MessageSink>(
    limits: TblLimits,
    line: u32,
    byte: u8,
    counts: Counts,
    out: &mut O,
    err: &mut E,
) -> Result<Counts, Status>
    requires written { counts.written ≤ limits.output }
    requires told { counts.told ≤ limits.messages }
    ensures { (w : Written) → w.ended ≡ None → Counted counts w
        → Turned limits line (Gives (OneByte byte)) w result
        (O.sunk out.old) (O.sunk out.new) (E.sunk err.old) (E.sunk err.new) }
{
    if counts.written == limits.output {
        let message = Message::LimitReached(Limit::Output, u64::from(limits.output));
        return Err(tell(line, message, Status::Limit(Limit::Output), err));
    }
    match out.put(&[byte]) {
        Ok(()) => Ok(Counts {
            written: counts.written + 1,
            ..counts
        }),
        Err(_) => Err(tell(line, Message::WriteFailed, Status::Device, err)),
    }
}

/// Tells a note of the source whole, unless it would pass the limit on messages.
fn put_note<E: MessageSink>(
    limits: TblLimits,
    line: u32,
    note: &[u8],
    counts: Counts,
    err: &mut E,
) -> Result<Counts, Status>
    requires written { counts.written ≤ limits.output }
    requires told { counts.told ≤ limits.messages }
    ensures { (w : Written) (out : _) → w.ended ≡ None → Counted counts w
        → Turned limits line (Gives (OneNote note.now)) w result
        out out (E.sunk err.old) (E.sunk err.new) }
{
    let length = note.len() as u64;
    if length > limits.messages - counts.told {
        let message = Message::LimitReached(Limit::Messages, limits.messages);
        return Err(tell(line, message, Status::Limit(Limit::Messages), err));
    }
    match err.put(note) {
        Ok(()) => Ok(Counts {
            told: counts.told + length,
            ..counts
        }),
        Err(_) => Err(Status::Device),
    }
}

/// Tells a message of the run's own, behind which it ends so, or by a fault where it can't be told.
#[inline(never)]
fn tell<E: MessageSink>(line: u32, message: Message, status: Status, err: &mut E) -> Status
    ensures { Tells line message status result (E.sunk err.old) (E.sunk err.new) }
{
    let told = Told { line, message };
    match err.put(told.note().as_slice()) {
        Ok(()) => status,
        Err(_) => Status::Device,
    }
}
