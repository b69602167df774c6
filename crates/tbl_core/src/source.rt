//! A source over a source: the pictures of the tables stand in their places.

ghost use Rattle.std.specs.Prelude.{◌≡◌, ◌+◌, ◌<◌, ◌≤◌, [], false, true, IfErr, IfOk, IfSome, None};
ghost use Rattle.std.specs.Prelude.{◌∷◌, drop, length, map};
ghost use Rattle.input_source.specs.Tape.{Answers, Ends, Failed, Gives, OneByte, OneNote};
ghost use Rattle.input_source.specs.Tape.{StaysReady, answer_of};
ghost use Rattle.roff_num.specs.Faults.{Rises};
ghost use Rattle.tbl_format.specs.Parts.{IsFront};
ghost use Rattle.tbl_core.specs.NotesLeft.{gives_byte, noted};

mod reading;

use crate::tables::Tables;
use input_source::{ByteSource, Taken, at_most};
use std::alloc::{AllocError, Global};
use std::marker::Model;
use tbl_format::limits::TblLimits;

/// A source that gives what its inner source gives, with each table in it as its picture. Bytes
/// outside tables stand ready where those of the inner source do.
#[derive(Drop)]
pub struct TblSource<S: ByteSource> {
    inner: S,
    tables: Tables,
    /// Whether it is known that nothing is pending.
    idle: bool,
    /// Whether it is known that no message is pending: bytes alone are given.
    giving: bool,
}

impl<S: ByteSource> Model for TblSource<S> {
    ghost use Rattle.tbl_core.specs.Source.{Sourced};

    ghost Value = { Sourced S };

    ghost use Rattle.tbl_core.specs.Source.{IsSourced};
    ghost use Rattle.tbl_core.specs.SourceKept.{sourced};

    ghost view = { sourced };

    ghost invariant = { λ a. IsSourced (S.gives a.inner) a.tables.at a.idle a.giving };
}

impl<S: ByteSource> TblSource<S> {
    ghost use Rattle.tbl_core.specs.NotesLeft.{bytes_left, notes_left};
    ghost use Rattle.tbl_core.specs.Source.{MayGiveSome, source_gives, source_ready};
    ghost use Rattle.tbl_core.specs.Stages.{Takes, TakesOn};
    ghost use Rattle.tbl_core.specs.Tables.{behind_given, line_of, stopped_by};
    ghost use Rattle.tbl_core.specs.Yields.{Continues, at_start};

    /// A source over `inner`, of which nothing is read yet. The line length is in columns.
    ///
    /// # Errors
    ///
    /// [`AllocError`] and the inner source as it was, if the room can't be had.
    pub fn new(
        alloc: Global,
        limits: TblLimits,
        line_length: u32,
        inner: S,
    ) -> Result<Self, (AllocError, S)>
        ensures made { IfOk result (λ s. s ≡ record {
          inner = inner;
          tables
              = record { limits = limits; line_length = line_length; at = at_start };
          idle = true;
          giving = false;
        }) }
        ensures refused { IfErr result (λ e. e.1 ≡ inner) }
    {
        match Tables::new(alloc, limits, line_length) {
            Ok(tables) => Ok(TblSource {
                inner,
                tables,
                idle: true,
                giving: false,
            }),
            Err(error) => Err((error, inner)),
        }
    }

    /// The inner source.
    pub fn into_inner(self) -> S
        ensures { result ≡ self.inner }
    {
        let TblSource {
            inner,
            tables: _,
            idle: _,
            giving: _,
        } = self;
        inner
    }

    /// The line of the last byte that was taken, 1 if there is none.
    pub fn line(&self) -> u32
        ensures { result ≡ line_of self.now.tables.at.standing }
    {
        self.tables.line()
    }

    /// The limits.
    pub fn limits(&self) -> TblLimits
        ensures { result ≡ self.now.tables.limits }
    {
        self.tables.limits()
    }

    /// The next item to give, or how they end. Items of the inner source are taken for it, unless
    /// one is pending. Behind a byte that was pending it is known that no message is.
    pub fn take(&mut self) -> Taken
        ensures takes { Takes (S.gives self.old.inner) (S.gives self.new.inner)
            self.old.tables.limits self.old.tables.line_length self.old.tables.at
            self.new.tables.at (answer_of result) }
        ensures limits { self.new.tables.limits ≡ self.old.tables.limits }
        ensures line_length { self.new.tables.line_length ≡ self.old.tables.line_length }
        ensures gives { Answers (source_gives S.gives self.old) (source_gives S.gives self.new)
            (answer_of result) }
        ensures notes { notes_left self.new.tables ≤ notes_left self.old.tables }
        ensures note { (m : _) → answer_of result ≡ Gives (OneNote m)
            → notes_left self.new.tables < notes_left self.old.tables }
        ensures failures { S.failures self.old.inner ≤ S.failures self.new.inner }
        ensures fault { answer_of result ≡ Ends Failed
            → Rises (S.failures self.old.inner) (S.failures self.new.inner) }
        ensures giving { 1 ≤ length self.old.tables.at.pending
            → self.new.giving ≡ gives_byte (answer_of result) }
    {
        if let Some(taken) = self.tables.next() {
            self.giving = is_byte(&taken);
            return taken;
        }
        match self.tables.stopped() {
            Some(limit) => Taken::Stop(limit),
            None => self.turns(),
        }
    }

    /// The next byte to give, where one stands ready: one that is pending where no message is, or
    /// one of the inner source that passes. Otherwise nothing happens.
    #[inline(always)]
    pub fn take_ready(&mut self) -> Option<u8>
        ensures gives { IfSome result (λ b. Answers (source_gives S.gives self.old)
            (source_gives S.gives self.new) (Gives (OneByte b))) }
        ensures takes { IfSome result (λ b. Takes (S.gives self.old.inner) (S.gives self.new.inner)
            self.old.tables.limits self.old.tables.line_length self.old.tables.at
            self.new.tables.at (Gives (OneByte b))) }
        ensures kept { result ≡ None → self.new ≡ self.old }
        ensures ready { IfSome result (λ b.
            StaysReady 1 (source_ready S.ready self.old) (source_ready S.ready self.new)) }
        ensures limits { self.new.tables.limits ≡ self.old.tables.limits }
        ensures line_length { self.new.tables.line_length ≡ self.old.tables.line_length }
        ensures notes { notes_left self.new.tables ≤ notes_left self.old.tables }
        ensures failures { S.failures self.old.inner ≤ S.failures self.new.inner }
    {
        if self.giving {
            return self.tables.next_byte();
        }
        if !self.idle {
            return None;
        }
        if !self.tables.passes_next() {
            return None;
        }
        match take_first(&mut self.inner) {
            Some(byte) => {
                self.tables.byte(byte);
                Some(byte)
            }
            None => None,
        }
    }

    /// The next bytes to give that are pending and lie together; none where a message is pending.
    /// Some are answered where any is pending, if it is known that no message is.
    #[inline(always)]
    pub fn pending(&self) -> &[u8]
        ensures front { IsFront (map OneByte result.now) self.now.tables.at.pending }
        ensures bytes { 1 ≤ length result.now → noted self.now.tables.at.pending ≡ 0 }
        ensures alive { 1 ≤ length result.now → MayGiveSome (S.gives self.now.inner) }
        ensures some { self.now.giving ≡ true → 1 ≤ length self.now.tables.at.pending
            → 1 ≤ length result.now }
    {
        if self.giving {
            self.tables.buffered()
        } else {
            &[]
        }
    }

    /// So many bytes that were pending were given.
    #[inline(always)]
    pub fn give_bytes(&mut self, count: usize)
        requires bytes { noted self.old.tables.at.pending ≡ 0 }
        requires within { count ≤ length self.old.tables.at.pending }
        ensures { self.new ≡ record self.old { tables = behind_given count self.old.tables } }
    {
        self.tables.give_bytes(count);
    }

    /// Takes one item of the inner source, and answers the first that is given for it, if one is.
    #[inline(never)]
    fn turn(&mut self) -> Option<Taken>
        requires pending { self.old.tables.at.pending ≡ [] }
        requires reads { stopped_by self.old.tables.at.standing ≡ None }
        ensures given { IfSome result (λ taken. Answers (source_gives S.gives self.old)
            (source_gives S.gives self.new) (answer_of taken)) }
        ensures silent { result ≡ None
            → Continues (source_gives S.gives self.old) (source_gives S.gives self.new) }
        ensures takes { IfSome result (λ taken. Takes (S.gives self.old.inner)
            (S.gives self.new.inner) self.old.tables.limits self.old.tables.line_length
            self.old.tables.at self.new.tables.at (answer_of taken)) }
        ensures takes_on { result ≡ None → TakesOn (S.gives self.old.inner)
            (S.gives self.new.inner) self.old.tables.limits self.old.tables.line_length
            self.old.tables.at self.new.tables.at }
        ensures limits { self.new.tables.limits ≡ self.old.tables.limits }
        ensures line_length { self.new.tables.line_length ≡ self.old.tables.line_length }
        ensures pending { result ≡ None → self.new.tables.at.pending ≡ [] }
        ensures reads { result ≡ None → stopped_by self.new.tables.at.standing ≡ None }
        ensures falls { result ≡ None
            → bytes_left self.new.tables.limits self.new.tables.at.standing
            + S.notes self.new.inner
            < bytes_left self.old.tables.limits self.old.tables.at.standing
            + S.notes self.old.inner }
        ensures notes { notes_left self.new.tables ≤ notes_left self.old.tables }
        ensures note { IfSome result (λ taken. (m : _) → answer_of taken ≡ Gives (OneNote m)
            → notes_left self.new.tables < notes_left self.old.tables) }
        ensures failures { S.failures self.old.inner ≤ S.failures self.new.inner }
        ensures fault { IfSome result (λ taken. answer_of taken ≡ Ends Failed
            → Rises (S.failures self.old.inner) (S.failures self.new.inner)) }
    {
        self.idle = false;
        self.giving = false;
        match self.inner.next_byte() {
            Taken::Byte(byte) => match self.tables.byte(byte) {
                Some(byte) => {
                    self.idle = true;
                    Some(Taken::Byte(byte))
                }
                None => self.tables.next(),
            },
            Taken::Note(_) => None,
            Taken::End => {
                self.tables.end();
                Some(self.tables.next().unwrap_or(Taken::End))
            }
            Taken::Fault => {
                self.tables.cut();
                Some(self.tables.next().unwrap_or(Taken::Fault))
            }
            Taken::Stop(limit) => {
                self.tables.cut();
                Some(self.tables.next().unwrap_or(Taken::Stop(limit)))
            }
        }
    }

    /// Takes items of the inner source, up to the first that something is given for, and answers
    /// that.
    #[inline(never)]
    fn turns(&mut self) -> Taken
        requires pending { self.old.tables.at.pending ≡ [] }
        requires reads { stopped_by self.old.tables.at.standing ≡ None }
        ensures gives { Answers (source_gives S.gives self.old) (source_gives S.gives self.new)
            (answer_of result) }
        ensures takes { Takes (S.gives self.old.inner) (S.gives self.new.inner)
            self.old.tables.limits self.old.tables.line_length self.old.tables.at
            self.new.tables.at (answer_of result) }
        ensures limits { self.new.tables.limits ≡ self.old.tables.limits }
        ensures line_length { self.new.tables.line_length ≡ self.old.tables.line_length }
        ensures notes { notes_left self.new.tables ≤ notes_left self.old.tables }
        ensures note { (m : _) → answer_of result ≡ Gives (OneNote m)
            → notes_left self.new.tables < notes_left self.old.tables }
        ensures failures { S.failures self.old.inner ≤ S.failures self.new.inner }
        ensures fault { answer_of result ≡ Ends Failed
            → Rises (S.failures self.old.inner) (S.failures self.new.inner) }
    {
        loop {
            if !self.read_on() {
                if let Some(taken) = self.turn() {
                    return taken;
                }
            }
        }
    }
}

impl<S: ByteSource> ByteSource for TblSource<S> {
    ghost use Rattle.tbl_core.specs.NotesLeft.{notes_left};
    ghost use Rattle.tbl_core.specs.Source.{some_given, source_gives, source_ready};

    ghost gives = { source_gives S.gives };

    ghost ready = { source_ready S.ready };

    ghost notes = { λ s. notes_left s.tables };

    ghost failures = { λ s. S.failures s.inner };

    fn next_byte(&mut self) -> Taken {
        self.take()
    }

    #[inline(always)]
    fn ready_byte(&mut self) -> Option<u8> {
        self.take_ready()
    }

    #[inline(always)]
    fn buffered(&self) -> &[u8] {
        if self.idle {
            self.tables.passing(self.inner.buffered())
        } else {
            &[]
        }
    }

    #[inline(always)]
    fn pass(&mut self, count: usize) {
        self.tables.pass(at_most(self.inner.buffered(), count));
        self.inner.pass(count);
    }

    ghost some = { some_given S.gives S.some };
}

/// Takes the first of the bytes that stand ready, if any does. Otherwise nothing happens.
#[inline(always)]
fn take_first<S: ByteSource>(source: &mut S) -> Option<u8>
    ensures gives { IfSome result (λ b.
        Answers (S.gives source.old) (S.gives source.new) (Gives (OneByte b))) }
    ensures first { IfSome result (λ b.
        S.ready source.old ≡ b ∷ drop 1 (S.ready source.old)) }
    ensures ready { IfSome result (λ b.
        StaysReady 1 (S.ready source.old) (S.ready source.new)) }
    ensures kept { result ≡ None → source.new ≡ source.old }
    ensures notes { S.notes source.new ≤ S.notes source.old }
    ensures failures { S.failures source.new ≡ S.failures source.old }
{
    match source.buffered() {
        [first, ..] => {
            let byte = *first;
            source.pass(1);
            Some(byte)
        }
        [] => None,
    }
}

/// Whether it is a byte.
#[inline(always)]
fn is_byte(taken: &Taken) -> bool
    ensures { result ≡ gives_byte (answer_of taken.now) }
{
    matches!(taken, Taken::Byte(_))
}
