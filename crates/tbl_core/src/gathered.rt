//! A source over a source with pictures, of which bytes are gathered.

ghost use Rattle.std.specs.Prelude.{◌≡◌, ◌+◌, ◌<◌, ◌≤◌, ◌++◌, [], length, vec_capacity, vec_len};
ghost use Rattle.std.specs.Prelude.{IfErr, IfOk, false, true};
ghost use Rattle.roff_num.specs.Faults.{Rises};
ghost use Rattle.input_source.specs.Tape.{Answers, Ends, Failed, Gives, OneByte, OneNote};
ghost use Rattle.input_source.specs.Tape.{StaysReady, answer_of};
ghost use Rattle.tbl_core.specs.NotesLeft.{gives_byte, notes_left};
ghost use Rattle.tbl_core.specs.Yields.{at_start};

use crate::source::TblSource;
use input_source::{ByteSource, Taken, at_most};
use std::alloc::{AllocError, Global};
use tbl_format::limits::TblLimits;

/// How many bytes are gathered at most.
const GATHERED: usize = 1_024;

/// How many pieces are gathered at most.
const PIECES: usize = 128;

/// A source that gives what a [`TblSource`] gives. Bytes that are pending there are gathered as
/// they come: so they stand ready together.
#[derive(Drop)]
pub struct GatheredSource<S: ByteSource> {
    source: TblSource<S>,
    gathered: Vec<u8>,
    /// How many of those were given.
    next: usize,
    ghost room: { 1024 ≤ vec_capacity gathered },
    ghost within: { vec_len gathered ≤ 1024 },
    ghost order: { next ≤ vec_len gathered },
}

impl<S: ByteSource> GatheredSource<S> {
    ghost use Rattle.tbl_core.specs.Gathered.{AreGathered, GathersOn, KeepsGiven, StandReady};
    ghost use Rattle.tbl_core.specs.Gathered.{gathered_gives, gathered_ready, inner_of, left_of};
    ghost use Rattle.tbl_core.specs.Gathered.{tables_of};

    /// A source over `inner`, of which nothing is read yet. The line length is in columns.
    ///
    /// # Errors
    ///
    /// [`AllocError`] and the inner source as it was, if the room can't be had.
    pub fn new(
        alloc: Global,
        limits: TblLimits,
        line_length: u32,
        inner: S,
    ) -> Result<Self, (AllocError, S)>
        ensures tables { IfOk result (λ s. tables_of s
            ≡ record { limits = limits; line_length = line_length; at = at_start }) }
        ensures inner { IfOk result (λ s. inner_of s ≡ inner) }
        ensures refused { IfErr result (λ e. e.1 ≡ inner) }
    {
        let gathered = match Vec::with_capacity(alloc, GATHERED) {
            Ok(gathered) => gathered,
            Err(error) => return Err((error, inner)),
        };
        match TblSource::new(alloc, limits, line_length, inner) {
            Ok(source) => Ok(GatheredSource {
                source,
                gathered,
                next: 0,
            }),
            Err(refused) => Err(refused),
        }
    }

    /// The inner source.
    pub fn into_inner(self) -> S
        ensures { result ≡ inner_of self }
    {
        let GatheredSource {
            source,
            gathered: _,
            next: _,
        } = self;
        source.into_inner()
    }

    /// Takes the next byte that was gathered. Behind it others stand ready, if any is to come and
    /// no message in front of it.
    #[inline(always)]
    fn take_gathered(&mut self) -> u8
        requires { self.old.next < vec_len self.old.gathered }
        ensures gives { Answers (gathered_gives S.gives self.old) (gathered_gives S.gives self.new)
            (Gives (OneByte result)) }
        ensures notes { notes_left self.new.source.tables ≤ notes_left self.old.source.tables }
        ensures inner { inner_of self.new ≡ inner_of self.old }
        ensures ready { StandReady self.new }
        ensures stays { StaysReady 1 (gathered_ready S.ready self.old)
            (gathered_ready S.ready self.new) }
    {
        let byte = self.gathered[self.next];
        self.next += 1;
        self.gather_more();
        byte
    }

    /// The next item of the source, where no byte that was gathered is left. Behind a byte that was
    /// pending others stand ready, if any is to come and no message in front of it.
    #[inline(never)]
    fn take_next(&mut self) -> Taken
        requires { left_of self.old ≡ [] }
        ensures gives { Answers (gathered_gives S.gives self.old) (gathered_gives S.gives self.new)
            (answer_of result) }
        ensures notes { notes_left self.new.source.tables ≤ notes_left self.old.source.tables }
        ensures note { (m : _) → answer_of result ≡ Gives (OneNote m)
            → notes_left self.new.source.tables < notes_left self.old.source.tables }
        ensures failures { S.failures (inner_of self.old) ≤ S.failures (inner_of self.new) }
        ensures fault { answer_of result ≡ Ends Failed
            → Rises (S.failures (inner_of self.old)) (S.failures (inner_of self.new)) }
        ensures giving { 1 ≤ length self.old.source.tables.at.pending
            → self.new.source.giving ≡ gives_byte (answer_of result) }
        ensures ready { StandReady self.new }
    {
        let taken = self.source.take();
        self.gather();
        taken
    }

    /// Gathers bytes, unless some are left.
    #[inline(always)]
    fn gather_more(&mut self)
        ensures kept { KeepsGiven self.old self.new }
        ensures left { StaysReady 0 (left_of self.old) (left_of self.new) }
        ensures ready { StandReady self.new }
    {
        if self.next >= self.gathered.len() {
            self.gather();
        }
    }

    /// Gathers the bytes that are pending, up to a message, as many as there is room for: at least
    /// 128 of them, or all.
    #[inline(never)]
    fn gather(&mut self)
        requires { left_of self.old ≡ [] }
        ensures kept { KeepsGiven self.old self.new }
        ensures none { self.new.next ≡ 0 }
        ensures many { AreGathered self.new }
    {
        self.gathered.clear();
        self.next = 0;
        self.gather_pieces();
    }

    /// Gathers bytes that are pending, up to a message, behind those that are gathered, as many as
    /// there is room for: at least 128 of them, or all.
    #[inline(always)]
    fn gather_pieces(&mut self)
        ensures on { GathersOn self.old self.new }
        ensures many { AreGathered self.new }
    {
        for _ in 0..PIECES {
            if !self.gather_piece() {
                return;
            }
        }
    }

    /// Gathers the next bytes that are pending and lie together, behind those that are gathered, as
    /// many as there is room for. Answers whether there were some.
    #[inline(always)]
    fn gather_piece(&mut self) -> bool
        ensures on { GathersOn self.old self.new }
        ensures some { result ≡ true → vec_len self.old.gathered < vec_len self.new.gathered }
        ensures none { result ≡ false → self.new.source.giving ≡ true
            → vec_len self.new.gathered < 1024 → self.new.source.tables.at.pending ≡ [] }
    {
        let room = GATHERED - self.gathered.len();
        let piece = at_most(self.source.pending(), room);
        let count = piece.len();
        if count == 0 {
            return false;
        }
        append(&mut self.gathered, piece);
        self.source.give_bytes(count);
        true
    }
}

impl<S: ByteSource> ByteSource for GatheredSource<S> {
    ghost use Rattle.tbl_core.specs.Gathered.{gathered_gives, gathered_ready, inner_of};
    ghost use Rattle.tbl_core.specs.Gathered.{some_gathered};

    ghost gives = { gathered_gives S.gives };

    ghost ready = { gathered_ready S.ready };

    ghost notes = { λ s. notes_left s.source.tables };

    ghost failures = { λ s. S.failures (inner_of s) };

    #[inline(always)]
    fn next_byte(&mut self) -> Taken {
        if self.next < self.gathered.len() {
            Taken::Byte(self.take_gathered())
        } else {
            self.take_next()
        }
    }

    #[inline(always)]
    fn ready_byte(&mut self) -> Option<u8> {
        if self.next < self.gathered.len() {
            Some(self.take_gathered())
        } else {
            self.source.take_ready()
        }
    }

    #[inline(always)]
    fn buffered(&self) -> &[u8] {
        if self.next < self.gathered.len() {
            self.gathered.as_slice().split_at(self.next).1
        } else {
            self.source.buffered()
        }
    }

    #[inline(always)]
    fn pass(&mut self, count: usize) {
        if self.next < self.gathered.len() {
            self.next += count;
            self.gather_more();
        } else {
            self.source.pass(count);
        }
    }

    ghost some = { some_gathered S.gives S.some };
}

/// Puts bytes behind others.
#[inline(always)]
fn append(bytes: &mut Vec<u8>, more: &[u8])
    requires { vec_len bytes.old + length more.now ≤ vec_capacity bytes.old }
    ensures items { bytes.new.items ≡ bytes.old.items ++ more.now }
    ensures capacity { vec_capacity bytes.old ≤ vec_capacity bytes.new }
{
    bytes.extend_from_slice(more).unwrap();
}
