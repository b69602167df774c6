//! Sources: what a run reads from.

ghost use Rattle.std.specs.Prelude.{◌≡◌, ℕ, ◌<◌, ◌≤◌, List, [], length, map, nat_lt, take, None};
ghost use Rattle.std.specs.Prelude.{vec_len, IfOk, IfSome};
ghost use Rattle.input_source.specs.BlockRead.{SomeTape};
ghost use Rattle.input_source.specs.ReadSource.Endings.{is_fault, reach_ending};
ghost use Rattle.input_source.specs.Tape.{Tape, Answers, Took, Failed, Gives, Ends, OneByte};
ghost use Rattle.input_source.specs.Tape.{StaysReady};
ghost use Rattle.input_source.specs.Tape.{OneNote, answer_of};
ghost use Rattle.roff_num.specs.Faults.{Rises};

use crate::block_read::{BlockRead, Given};
use arrayvec::ArrayVec;
use roff_num::Limit;
use std::alloc::{AllocError, Global};

/// A message of a source's own, with its newline.
pub type Note = ArrayVec<u8, 96>;

/// What a source answers.
#[derive(Drop)]
pub enum Taken {
    /// The next byte.
    Byte(u8),
    /// A message for the message sink, in its place among the bytes.
    Note(Note),
    /// The end of the input, for good.
    End,
    /// A fault of the device, for good.
    Fault,
    /// A limit of the source's own, for good. Its message came as a note.
    Stop(Limit),
}

/// A source of bytes, one at a time; those that stand ready may be taken in runs.
pub trait ByteSource {
    /// The tapes that the source may give from here on: one alone where it is known what comes.
    ghost gives: { Self → Tape → Type 0 };

    /// The bytes that stand ready.
    ghost ready: { Self → List ℕ };

    /// More than the notes to come.
    ghost notes: { Self → ℕ };

    /// How many faults were answered; the count stays at its last value, that of a `u64`.
    ghost failures: { Self → ℕ };

    /// The next item, or how the items end.
    fn next_byte(&mut self) -> Taken
        // The answer is the front of a tape that the source may give, and what comes is the rest of
        // it.
        ensures gives { Answers (gives self.old) (gives self.new) (answer_of result) }
        // Notes run out.
        ensures notes { notes self.new ≤ notes self.old }
        ensures note { (m : _) → answer_of result ≡ Gives (OneNote m)
            → notes self.new < notes self.old }
        // A fault is counted.
        ensures failures { failures self.old ≤ failures self.new }
        ensures fault { answer_of result ≡ Ends Failed
            → Rises (failures self.old) (failures self.new) };

    /// The next byte, where one stands ready. Otherwise nothing happens, and
    /// [`next_byte`](ByteSource::next_byte) tells what comes.
    fn ready_byte(&mut self) -> Option<u8>
        ensures gives { IfSome result (λ b.
            Answers (gives self.old) (gives self.new) (Gives (OneByte b))) }
        ensures kept { result ≡ None → self.new ≡ self.old }
        // What stood ready behind it does so still.
        ensures ready { IfSome result (λ b. StaysReady 1 (ready self.old) (ready self.new)) }
        ensures notes { notes self.new ≤ notes self.old }
        ensures failures { failures self.old ≤ failures self.new };

    /// The bytes that stand ready. They aren't taken.
    fn buffered(&self) -> &[u8]
        ensures { result.now ≡ ready self.now };

    /// Takes so many of them at once.
    fn pass(&mut self, count: usize)
        requires some { 1 ≤ count }
        requires within { count ≤ length (ready self.old) }
        ensures gives { Took (gives self.old) (gives self.new)
            (map OneByte (take count (ready self.old))) }
        // What stood ready behind them does so still.
        ensures ready { StaysReady count (ready self.old) (ready self.new) }
        ensures notes { notes self.new ≤ notes self.old }
        ensures failures { failures self.new ≡ failures self.old };

    /// Each state may give some tape.
    ghost some: { (s : Self) → SomeTape (gives s) };
}

/// How many bytes a [`ReadSource`] asks its reader for.
const BLOCK: usize = 4_096;

/// Whether a reader may still be read.
#[derive(Clone, Copy)]
enum Reach {
    Open,
    Ended,
    Failed,
}

/// A source over a reader, read a block of 4,096 bytes at a time. What was read is given before
/// anything else is read or answered. An error of the reader is a fault, for good: nothing is read
/// behind it.
#[derive(Drop)]
pub struct ReadSource<R> {
    reader: R,
    block: Vec<u8>,
    next: usize,
    len: usize,
    reach: Reach,
    failures: u64,
    ghost order: { next ≤ len },
    ghost within: { len ≤ vec_len block },
    ghost whole: { vec_len block ≡ 4096 },
    ghost counted: { nat_lt 0 failures ≡ is_fault (reach_ending reach) },
}

impl<R: BlockRead + Drop> ReadSource<R> {
    ghost use Rattle.input_source.specs.ReadSource.Reach.{CountsFaults, ending_given, faults_of};
    ghost use Rattle.input_source.specs.ReadSource.Reach.{left_of_block, may_give, reader_of};
    ghost use Rattle.input_source.specs.ReadSource.Reach.{ready_of};

    /// A source over a reader, of which nothing is read yet.
    pub fn new(alloc: Global, reader: R) -> Result<Self, AllocError>
        ensures ending { IfOk result (λ s. ending_given s ≡ None) }
        ensures left { IfOk result (λ s. left_of_block s ≡ []) }
        ensures reader { IfOk result (λ s. reader_of s ≡ reader) }
        ensures failures { IfOk result (λ s. faults_of s ≡ 0) }
    {
        Ok(ReadSource {
            reader,
            block: vec![in alloc; 0; BLOCK]?,
            next: 0,
            len: 0,
            reach: Reach::Open,
            failures: 0,
        })
    }

    /// That faults were answered says that the reader answered an error, and nothing else does.
    pub fn stays_counted(&self)
        ensures { CountsFaults (ending_given self.now) (faults_of self.now) }
    {
        let _ = self.reach;
    }

    /// The next byte of the block, if one is left.
    #[inline(always)]
    fn block_byte(&mut self) -> Option<u8>
        requires open { ending_given self.old ≡ None }
        ensures gives { IfSome result (λ b.
            Answers (may_give R.gives self.old) (may_give R.gives self.new)
            (Gives (OneByte b))) }
        ensures ready { IfSome result (λ b. StaysReady 1 (ready_of self.old) (ready_of self.new)) }
        ensures kept { result ≡ None → self.new ≡ self.old }
        ensures taken { result ≡ None → self.old.len ≤ self.old.next }
        ensures failures { self.new.failures ≡ self.old.failures }
    {
        if self.next >= self.len {
            return None;
        }
        let byte = self.block[self.next];
        self.next += 1;
        Some(byte)
    }

    /// Reads the next block, by one read, and answers its first byte. An error is a fault.
    #[inline(never)]
    fn next_block(&mut self) -> Taken
        requires open { ending_given self.old ≡ None }
        requires taken { self.old.len ≤ self.old.next }
        ensures gives { Answers (may_give R.gives self.old) (may_give R.gives self.new)
            (answer_of result) }
        ensures failures { self.old.failures ≤ self.new.failures }
        ensures fault { answer_of result ≡ Ends Failed → Rises self.old.failures self.new.failures }
        ensures note { (m : _) → answer_of result ≡ Gives (OneNote m) → ⊥ }
    {
        match self.reader.read_block(&mut self.block) {
            Given::Nothing => {
                self.reach = Reach::Ended;
                Taken::End
            }
            Given::Bytes(len) => {
                self.len = len;
                self.next = 1;
                Taken::Byte(self.block[0])
            }
            Given::Error => {
                self.reach = Reach::Failed;
                self.failures = self.failures.saturating_add(1);
                Taken::Fault
            }
        }
    }
}

impl<R: BlockRead + Drop> ByteSource for ReadSource<R> {
    ghost use Rattle.input_source.specs.ReadSource.Reach.{may_give, ready_of, some_read};

    ghost gives = { may_give R.gives };

    ghost ready = { ready_of };

    ghost notes = { λ _. 0 };

    ghost failures = { λ s. s.failures };

    #[inline(always)]
    fn next_byte(&mut self) -> Taken {
        match self.reach {
            Reach::Open => match self.block_byte() {
                Some(byte) => Taken::Byte(byte),
                None => self.next_block(),
            },
            Reach::Ended => Taken::End,
            Reach::Failed => {
                self.failures = self.failures.saturating_add(1);
                Taken::Fault
            }
        }
    }

    #[inline(always)]
    fn ready_byte(&mut self) -> Option<u8> {
        match self.reach {
            Reach::Open => self.block_byte(),
            Reach::Ended => None,
            Reach::Failed => None,
        }
    }

    #[inline(always)]
    fn buffered(&self) -> &[u8] {
        match self.reach {
            Reach::Open => &self.block[self.next..self.len],
            Reach::Ended => &[],
            Reach::Failed => &[],
        }
    }

    #[inline(always)]
    fn pass(&mut self, count: usize) {
        self.next += count;
    }

    ghost some = { some_read R.gives R.some };
}
