//! Pieces that are to give, of which a front was given.

ghost use Rattle.std.specs.Prelude.{◌≡◌, ℕ, ◌+◌, ◌*◌, ◌<◌, ◌≤◌, ◌^◌, List, [], ◌∷◌, ◌++◌, length};
ghost use Rattle.std.specs.Prelude.{drop, IfOk, true, false};
ghost use Rattle.std.specs.Option.{MatchOption};
ghost use Rattle.tbl_format.specs.Format.{has_some};
ghost use Rattle.tbl_format.specs.Parts.{IsFront};
ghost use Rattle.tbl_pieces.specs.Pieces.{AreWithin, bytes_of, piece_len, some_piece};

use crate::pieces::{Piece, push_some};
use std::alloc::{AllocError, Global};
use std::marker::Model;

/// Pieces, and how far they were given. All its memory is reserved as it is made.
#[derive(Drop)]
pub struct PieceQueue {
    pieces: Vec<Piece>,
    /// The first that is left.
    piece: usize,
    /// How many of its bytes were given.
    offset: usize,
    room: usize,
}

impl Model for PieceQueue {
    ghost use Rattle.tbl_pieces.specs.PieceQueue.{KeptPieces, kept_by, IsSound};

    ghost Value = { KeptPieces };

    ghost view = { kept_by };

    ghost invariant = { IsSound };
}

impl PieceQueue {
    ghost use Rattle.tbl_pieces.specs.PieceQueue.{Adds, bytes_left, holding, with_piece};

    /// No piece, with room for so many.
    pub fn new(alloc: Global, room: usize) -> Result<Self, AllocError>
        ensures { IfOk result (λ q. q
            ≡ record { pieces = []; offset = 0; room = room; taken = 0 }) }
    {
        Ok(PieceQueue {
            pieces: Vec::with_capacity(alloc, room)?,
            piece: 0,
            offset: 0,
            room,
        })
    }

    /// No piece is left.
    pub fn clear(&mut self)
        ensures { self.new ≡ holding self.old [] }
    {
        self.pieces.clear();
        self.piece = 0;
        self.offset = 0;
    }

    /// This piece is to give, if it has a byte.
    pub fn set_one(&mut self, piece: Piece)
        requires { 0 < self.old.room }
        ensures { self.new ≡ holding self.old (some_piece piece) }
    {
        self.pieces.clear();
        self.piece = 0;
        self.offset = 0;
        push_some(&mut self.pieces, piece);
    }

    /// These pieces are to give, if they have a byte.
    pub fn set_two(&mut self, first: Piece, second: Piece)
        requires { 1 < self.old.room }
        ensures { self.new ≡ holding self.old (some_piece first ++ some_piece second) }
    {
        self.pieces.clear();
        self.piece = 0;
        self.offset = 0;
        push_some(&mut self.pieces, first);
        push_some(&mut self.pieces, second);
    }

    /// Whether so many pieces more can be added.
    pub fn has_room(&self, count: usize) -> bool
        ensures yes { result ≡ true → self.now.taken + count ≤ self.now.room }
        ensures no { result ≡ false → self.now.room < self.now.taken + count }
    {
        let taken = self.pieces.len();
        taken <= self.room && count <= self.room - taken
    }

    /// A piece more is to give, if it has a byte.
    pub fn add(&mut self, piece: Piece)
        requires { self.old.taken < self.old.room }
        ensures value { self.new ≡ with_piece piece self.old }
        ensures adds { (block frame : List ℕ)
            → length (bytes_of block frame piece) ≡ piece_len piece
            → Adds block frame 1 self.old self.new (bytes_of block frame piece) }
        ensures few { self.new.taken ≤ self.old.taken + 1 }
    {
        push_some(&mut self.pieces, piece);
    }

    /// Whether a piece is left.
    pub fn has_piece(&self) -> bool
        ensures { result ≡ has_some self.now.pieces }
    {
        self.piece < self.pieces.len()
    }

    /// The next bytes to give that lie together, where the pieces are parts of these texts: some,
    /// if any is left.
    #[inline(always)]
    pub fn buffered<'a>(&self, block: &'a [u8], frame: &'a [u8]) -> &'a [u8]
        requires { AreWithin block.now frame.now self.now.pieces }
        ensures front { IsFront result.now (bytes_left block.now frame.now self.now) }
        ensures some { has_some self.now.pieces ≡ true → 1 ≤ length result.now }
    {
        match self.pieces.get(self.piece) {
            Some(piece) => piece.from(block, frame, self.offset),
            None => &[],
        }
    }

    /// Bytes of the first piece were given, so many at most. Answers how many.
    #[inline(always)]
    pub fn pass(&mut self, most: usize) -> usize
        requires { 0 < most }
        ensures few { result ≤ most }
        ensures some { has_some self.old.pieces ≡ true → 0 < result }
        ensures enough { (block frame : List ℕ) → AreWithin block frame self.old.pieces
            → result ≤ length (bytes_left block frame self.old) }
        ensures left { (block frame : List ℕ) → AreWithin block frame self.old.pieces
            → bytes_left block frame self.new ≡ drop result (bytes_left block frame self.old) }
        ensures within { (block frame : List ℕ) → AreWithin block frame self.old.pieces
            → AreWithin block frame self.new.pieces }
        ensures room { self.new.room ≡ self.old.room }
    {
        match self.pieces.get(self.piece) {
            Some(piece) => {
                let left = piece.len() - self.offset;
                if most < left {
                    self.offset += most;
                    return most;
                }
                self.offset = 0;
                self.piece += 1;
                left
            }
            None => 0,
        }
    }

    /// The next byte to give, where the pieces are parts of these texts.
    pub fn next(&mut self, block: &[u8], frame: &[u8]) -> Option<u8>
        requires { AreWithin block.now frame.now self.old.pieces }
        ensures byte { MatchOption result
            ((self.old.pieces ≡ []) × (self.new ≡ self.old))
            (λ b. bytes_left block.now frame.now self.old
            ≡ b ∷ bytes_left block.now frame.now self.new) }
        ensures within { AreWithin block.now frame.now self.new.pieces }
        ensures room { self.new.room ≡ self.old.room }
    {
        let piece = *self.pieces.get(self.piece)?;
        let byte = piece.byte(block, frame, self.offset);
        let len = piece.len();
        self.offset += 1;
        if self.offset == len {
            self.offset = 0;
            self.piece += 1;
        }
        Some(byte)
    }
}
