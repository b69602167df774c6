//! Chunks of bytes, linked into the chains in which texts lie. Strands share them: a chunk that no
//! strand has any more serves again.

ghost use Rattle.std.specs.Prelude.{◌≡◌, ◌≢◌, ◌==◌, if◌then◌else◌, ℕ, ◌<◌, ◌≤◌, ◌+◌, ◌-◌, ◌*◌, ◌^◌};
ghost use Rattle.std.specs.Prelude.{[], ◌∷◌, length, take, drop, IfOk, None};
ghost use Rattle.roff_store.specs.Chains.{content, has, link, others, share, shares_in};
ghost use Rattle.roff_store.specs.Chains.{AreSameChunks, IsExtended, IsShared, IsStrand, IsText};
ghost use Rattle.roff_store.specs.Chains.{LeavesOthers, bytes_of};
ghost use Rattle.roff_store.specs.Pool.{IsHeld, IsLonger};
ghost use Rattle.std.specs.List.{last_or};

use crate::strand::{NO_CHUNK, Strand};
use arrayvec::ArrayVec;
use std::alloc::{AllocError, Global};
use std::marker::Model;

/// How many bytes a chunk has room for.
pub(crate) const CHUNK: usize = 120;

/// A number of chunks, reserved at once.
#[derive(Drop)]
pub(crate) struct Chunks {
    contents: Vec<ArrayVec<u8, CHUNK>>,
    /// For each chunk the one behind it in its chain.
    links: Vec<usize>,
    /// For each chunk how many strands have it.
    shares: Vec<usize>,
    /// The chunks that no strand has any more.
    free: Vec<usize>,
    most: usize,
}

impl Model for Chunks {
    ghost use Rattle.roff_store.specs.Chains.{Chunks};

    ghost Value = { Chunks };

    ghost use Rattle.roff_store.specs.Chunks.Kept.{kept_by, IsSound};

    ghost view = { kept_by };

    ghost invariant = { IsSound };
}

impl Chunks {
    /// Room for so many chunks.
    pub(crate) fn new(alloc: Global, most: usize) -> Result<Self, AllocError>
        ensures { IfOk result (λ m. m
            ≡ record { contents = []; links = []; shares = []; most = most }) }
    {
        Ok(Chunks {
            contents: Vec::with_capacity(alloc, most)?,
            links: Vec::with_capacity(alloc, most)?,
            shares: Vec::with_capacity(alloc, most)?,
            free: Vec::with_capacity(alloc, most)?,
            most,
        })
    }

    /// The bytes that the first chunk of a strand has of it.
    #[inline]
    pub(crate) fn front(&self, strand: Strand) -> &[u8]
        requires { IsStrand self.now strand }
        ensures bytes { result.now ≡ take (length result.now) (bytes_of self.now strand) }
        ensures some { 0 < strand.rest → 0 < length result.now }
        ensures within { length result.now ≤ strand.rest }
        ensures chunk { strand.at + length result.now ≤ CHUNK }
    {
        if strand.rest == 0 {
            return &[];
        }
        let bytes = self.contents[strand.first].as_slice();
        let behind = &bytes[strand.at..];
        &behind[..behind.len().min(strand.rest)]
    }

    /// The last byte of a text, if it has one.
    pub(crate) fn last_byte(&self, strand: Strand) -> Option<u8>
        requires { IsText self.now strand }
        ensures { result ≡ last_or None (bytes_of self.now strand) }
    {
        if strand.rest == 0 {
            return None;
        }
        let bytes = self.contents[strand.last].as_slice();
        bytes.last().copied()
    }

    /// What is left of a strand behind so many of its bytes, where its first chunk has more of it.
    #[inline]
    pub(crate) fn pass_inside(&self, strand: Strand, count: usize) -> Strand
        requires strand { IsStrand self.now strand }
        requires shared { IsShared self.now strand }
        requires within { count < strand.rest }
        requires chunk { strand.at + count < CHUNK }
        ensures strand { IsStrand self.now result }
        ensures bytes { bytes_of self.now result ≡ drop count (bytes_of self.now strand) }
        ensures length { result.rest ≡ strand.rest - count }
        ensures shares { (chunk : ℕ)
            → share self.now chunk ≡ others self.now strand chunk + has self.now result chunk }
        ensures chunks { result.chunks ≡ strand.chunks }
    {
        let (at, rest) = (strand.at + count, strand.rest - count);
        Strand { at, rest, ..strand }
    }

    /// What is left of a strand behind so many of its bytes.
    pub(crate) fn pass(&mut self, strand: Strand, count: usize) -> Strand
        requires strand { IsStrand self.old strand }
        requires shared { IsShared self.old strand }
        requires within { count ≤ strand.rest }
        ensures strand { IsStrand self.new result }
        ensures bytes { bytes_of self.new result ≡ drop count (bytes_of self.old strand) }
        ensures length { result.rest ≡ strand.rest - count }
        ensures shares { (chunk : ℕ)
            → share self.new chunk ≡ others self.old strand chunk + has self.new result chunk }
        ensures sum { shares_in self.new + strand.chunks ≡ shares_in self.old + result.chunks }
        ensures same { AreSameChunks self.old self.new }
    {
        let (mut strand, mut count) = (strand, count);
        while count > 0 {
            let step = count.min(CHUNK - strand.at);
            strand = self.pass_within(strand, step);
            count -= step;
        }
        strand
    }

    /// Lets another strand have the chunks of this one.
    pub(crate) fn share(&mut self, strand: Strand)
        requires strand { IsStrand self.old strand }
        requires shared { IsShared self.old strand }
        requires room { shares_in self.old + strand.chunks ≤ self.old.most }
        ensures shares { (chunk : ℕ)
            → share self.new chunk ≡ share self.old chunk + has self.old strand chunk }
        ensures sum { shares_in self.new ≡ shares_in self.old + strand.chunks }
        ensures same { AreSameChunks self.old self.new }
    {
        let mut chunk = strand.first;
        for _ in 0..strand.chunks {
            self.share_chunk(chunk);
            chunk = self.links[chunk];
        }
    }

    /// Takes a strand away: a chunk that no other strand has serves again.
    #[inline(always)]
    pub(crate) fn release(&mut self, strand: Strand)
        requires strand { IsStrand self.old strand }
        requires shared { IsShared self.old strand }
        ensures shares { (chunk : ℕ) → share self.new chunk ≡ others self.old strand chunk }
        ensures sum { shares_in self.new + strand.chunks ≡ shares_in self.old }
        ensures same { AreSameChunks self.old self.new }
    {
        let mut chunk = strand.first;
        for _ in 0..strand.chunks {
            let next = self.links[chunk];
            self.let_go(chunk);
            chunk = next;
        }
    }

    /// A text with these bytes behind those of another one.
    pub(crate) fn extend(&mut self, strand: Strand, text: &[u8]) -> Strand
        requires held { IsHeld self.old strand [] }
        requires room { 120 * shares_in self.old + strand.rest + length text.now + 119
            ≤ 120 * (self.old.most + strand.chunks) }
        requires short { strand.rest + length text.now < 2 ^ 64 }
        ensures longer { IsLonger self.old strand [] text.now self.new result [] }
        ensures sum { shares_in self.new + strand.chunks ≡ shares_in self.old + result.chunks }
    {
        let room = self.room_behind(strand);
        let (front, behind) = text.split_at(text.len().min(room));
        let mut strand = self.fill(strand, front);
        let mut behind = behind;
        while !behind.is_empty() {
            let (piece, others) = behind.split_at(behind.len().min(CHUNK));
            strand = self.link_behind(strand, piece);
            behind = others;
        }
        strand
    }

    /// Puts the bytes of a strand behind a text, and releases the strand.
    pub(crate) fn append(&mut self, to: Strand, from: Strand) -> Strand
        requires held { IsHeld self.old to (from ∷ []) }
        requires room { shares_in self.old + 3 ≤ self.old.most }
        requires short { to.rest + from.rest < 2 ^ 64 }
        ensures { IsLonger self.old to (from ∷ []) (bytes_of self.old from) self.new result [] }
    {
        // the invariant is known where a field is named
        let _ = &self.contents;
        let (mut to, mut from) = (to, from);
        while from.rest > 0 {
            let mut piece: ArrayVec<u8, CHUNK> = ArrayVec::new();
            piece.try_extend_from_slice(self.front(from)).unwrap();
            from = self.pass(from, piece.len());
            to = self.extend(to, piece.as_slice());
        }
        to
    }

    /// What is left of a strand behind so many bytes of its first chunk.
    fn pass_within(&mut self, strand: Strand, count: usize) -> Strand
        requires strand { IsStrand self.old strand }
        requires shared { IsShared self.old strand }
        requires within { count ≤ strand.rest }
        requires chunk { strand.at + count ≤ CHUNK }
        ensures strand { IsStrand self.new result }
        ensures bytes { bytes_of self.new result ≡ drop count (bytes_of self.old strand) }
        ensures length { result.rest ≡ strand.rest - count }
        ensures shares { (chunk : ℕ)
            → share self.new chunk ≡ others self.old strand chunk + has self.new result chunk }
        ensures sum { shares_in self.new + strand.chunks ≡ shares_in self.old + result.chunks }
        ensures same { AreSameChunks self.old self.new }
    {
        let rest = strand.rest - count;
        let at = strand.at + count;
        if rest == 0 {
            self.release(strand);
            return Strand::empty();
        }
        if at < CHUNK {
            return self.pass_inside(strand, count);
        }
        let first = self.links[strand.first];
        self.let_go(strand.first);
        Strand {
            first,
            last: strand.last,
            chunks: strand.chunks - 1,
            at: 0,
            rest,
        }
    }

    /// How many more bytes the last chunk of a text has room for.
    fn room_behind(&self, strand: Strand) -> usize
        requires { IsText self.now strand }
        ensures none { strand.chunks ≡ 0 → result ≡ 0 }
        ensures room { 0 < strand.chunks → result + strand.rest ≡ CHUNK * strand.chunks }
    {
        if strand.chunks == 0 {
            0
        } else {
            self.contents[strand.last].remaining_capacity()
        }
    }

    /// Puts bytes into the last chunk of a text.
    fn fill(&mut self, strand: Strand, front: &[u8]) -> Strand
        requires strand { IsText self.old strand }
        requires shared { IsShared self.old strand }
        requires room { strand.rest + length front.now ≤ CHUNK * strand.chunks }
        requires short { strand.rest + length front.now < 2 ^ 64 }
        ensures extended { IsExtended (others self.old strand) self.old strand
            front.now self.new result }
        ensures last { result.last ≡ strand.last }
        ensures chunks { result.chunks ≡ strand.chunks }
        ensures shares { self.new.shares ≡ self.old.shares }
    {
        // the invariant is known where a field is named
        let _ = &self.contents;
        if front.is_empty() {
            return strand;
        }
        self.contents[strand.last]
            .try_extend_from_slice(front)
            .unwrap();
        let rest = strand.rest + front.len();
        Strand { rest, ..strand }
    }

    /// Puts a chunk with these bytes behind a text whose last chunk is full.
    fn link_behind(&mut self, strand: Strand, piece: &[u8]) -> Strand
        requires strand { IsText self.old strand }
        requires shared { IsShared self.old strand }
        requires full { strand.rest ≡ CHUNK * strand.chunks }
        requires some { 0 < length piece.now }
        requires fits { length piece.now ≤ CHUNK }
        requires room { shares_in self.old < self.old.most }
        requires short { strand.rest + length piece.now < 2 ^ 64 }
        ensures extended { IsExtended (others self.old strand) self.old strand
            piece.now self.new result }
        ensures chunks { result.chunks ≡ strand.chunks + 1 }
        ensures sum { shares_in self.new ≡ shares_in self.old + 1 }
    {
        let chunk = self.claim();
        self.contents[chunk].try_extend_from_slice(piece).unwrap();
        if strand.chunks == 0 {
            return Strand {
                first: chunk,
                last: chunk,
                chunks: 1,
                at: 0,
                rest: piece.len(),
            };
        }
        self.links[strand.last] = chunk;
        Strand {
            first: strand.first,
            last: chunk,
            chunks: strand.chunks + 1,
            at: 0,
            rest: strand.rest + piece.len(),
        }
    }

    /// A chunk without bytes that no strand had.
    fn claim(&mut self) -> usize
        requires { shares_in self.old < self.old.most }
        ensures fresh { share self.old result ≡ 0 }
        ensures chunk { result < length self.new.contents }
        ensures empty { content self.new result ≡ [] }
        ensures end { self.new.most ≤ link self.new result }
        ensures claimed { share self.new result ≡ 1 }
        ensures shares { (chunk : ℕ) → chunk ≢ result
            → share self.new chunk ≡ share self.old chunk }
        ensures sum { shares_in self.new ≡ shares_in self.old + 1 }
        ensures others { LeavesOthers (share self.old) self.old.most self.old self.new }
    {
        match self.free.pop() {
            Some(chunk) => {
                self.contents[chunk].clear();
                self.links[chunk] = NO_CHUNK;
                self.shares[chunk] = 1;
                chunk
            }
            None => {
                let chunk = self.contents.len();
                self.contents.push_reserved(ArrayVec::new());
                self.links.push_reserved(NO_CHUNK);
                self.shares.push_reserved(1);
                chunk
            }
        }
    }

    /// Lets one more strand have a chunk.
    fn share_chunk(&mut self, chunk: usize)
        requires shared { 0 < share self.old chunk }
        requires room { shares_in self.old < self.old.most }
        ensures shares { (other : ℕ) → share self.new other
            ≡ share self.old other + (if other == chunk then 1 else 0) }
        ensures sum { shares_in self.new ≡ shares_in self.old + 1 }
        ensures same { AreSameChunks self.old self.new }
    {
        self.shares[chunk] += 1;
    }

    /// Takes a chunk from one of its strands.
    fn let_go(&mut self, chunk: usize)
        requires { 0 < share self.old chunk }
        ensures shares { (other : ℕ) → share self.new other
            ≡ share self.old other - (if other == chunk then 1 else 0) }
        ensures sum { shares_in self.new + 1 ≡ shares_in self.old }
        ensures same { AreSameChunks self.old self.new }
    {
        let shares = &mut self.shares[chunk];
        *shares -= 1;
        if *shares == 0 {
            self.free.push_reserved(chunk);
        }
    }
}
