//! The pieces of which a table's picture is given (Lesk, "Tbl": Formatting).

ghost use Rattle.std.specs.Prelude.{◌≡◌, ℕ, ◌+◌, ◌-◌, ◌*◌, ◌<◌, ◌≤◌, ◌^◌, List, ◌++◌, length};
ghost use Rattle.std.specs.Prelude.{[], ◌∷◌, drop, min, replicate, slice_index, slice_range};
ghost use Rattle.std.specs.Prelude.{vec_capacity};
ghost use Rattle.std.specs.Prelude.{vec_len, if◌then◌else◌};
ghost use Rattle.input_source.specs.Bytes.{blank};
ghost use Rattle.tbl_format.specs.Parts.{IsFront};
ghost use Rattle.tbl_pieces.specs.Pieces.{bytes_of, piece_len, some_piece};

use input_source::at_most;

/// A piece of what is given.
#[derive(Clone, Copy)]
pub enum Piece {
    /// Bytes of the block, from a place up to another.
    Block(usize, usize),
    /// Bytes of the requests around the picture.
    Frame(usize, usize),
    /// So many blanks.
    Blanks(usize),
    /// A byte, so many times.
    Repeated(u8, usize),
    /// What a line of the picture begins with: `\&`.
    LineFront,
    /// The newline of a line of the picture.
    LineEnd,
    /// The backslash and the newline where a line of the data goes on.
    Joint,
}

impl Piece {
    /// How many bytes it has.
    pub fn len(self) -> usize
        ensures { result ≡ piece_len self }
    {
        match self {
            Piece::Block(from, to) => to.saturating_sub(from),
            Piece::Frame(from, to) => to.saturating_sub(from),
            Piece::Blanks(count) => count,
            Piece::Repeated(_, count) => count,
            Piece::LineFront => 2,
            Piece::LineEnd => 1,
            Piece::Joint => 2,
        }
    }

    /// One of its bytes.
    pub fn byte(self, block: &[u8], frame: &[u8], at: usize) -> u8
        requires { at < length (bytes_of block.now frame.now self) }
        ensures { result ≡ slice_index (bytes_of block.now frame.now self) at }
    {
        match self {
            Piece::Block(from, to) => part_byte(block, from, to, at),
            Piece::Frame(from, to) => part_byte(frame, from, to, at),
            Piece::Blanks(_) => b' ',
            Piece::Repeated(byte, _) => byte,
            Piece::LineFront => [b'\\', b'&'][at],
            Piece::LineEnd => b'\n',
            Piece::Joint => [b'\\', b'\n'][at],
        }
    }

    /// The bytes of a piece that lie together from a place on: all, but of blanks and rules at most
    /// 64, and of another byte that is repeated one.
    #[inline(always)]
    pub fn from<'a>(self, block: &'a [u8], frame: &'a [u8], at: usize) -> &'a [u8]
        requires within { length (bytes_of block.now frame.now self) ≡ piece_len self }
        requires some { at < piece_len self }
        ensures front { IsFront result.now (drop at (bytes_of block.now frame.now self)) }
        ensures some { 1 ≤ length result.now }
    {
        match self {
            Piece::Block(from, to) => part_behind(block, from, to, at),
            Piece::Frame(from, to) => part_behind(frame, from, to, at),
            Piece::Blanks(count) => blanks(count - at),
            Piece::Repeated(byte, count) => repeated(byte, count - at),
            Piece::LineFront => behind(b"\\&", at),
            Piece::LineEnd => behind(b"\n", at),
            Piece::Joint => behind(b"\\\n", at),
        }
    }
}

/// A part of a block from a place in it on.
#[inline(always)]
fn part_behind(block: &[u8], from: usize, to: usize, at: usize) -> &[u8]
    requires within { length (slice_range block.now from to) ≡ to - from }
    requires some { at < to - from }
    ensures { result.now ≡ drop at (slice_range block.now from to) }
{
    let part = &block[from..to];
    &part[at..]
}

/// Bytes from a place on.
#[inline(always)]
fn behind(bytes: &[u8], at: usize) -> &[u8]
    requires { at ≤ length bytes.now }
    ensures { result.now ≡ drop at bytes.now }
{
    &bytes[at..]
}

/// As many blanks are given at once.
const MOST_BLANKS: &[u8; 64] = b"                                                                ";

/// So many blanks, or 64.
#[inline(always)]
fn blanks(most: usize) -> &'static [u8]
    ensures { result.now ≡ replicate (min most 64) blank }
{
    at_most(MOST_BLANKS, most)
}

/// As many bytes of rules are given at once.
const SINGLE: &[u8; 64] = b"----------------------------------------------------------------";

const DOUBLE: &[u8; 64] = b"================================================================";

/// A byte, so many times or 64, or one of a byte that rules aren't drawn with.
fn repeated(byte: u8, most: usize) -> &'static [u8]
    requires { 0 < most }
    ensures value { result.now ≡ replicate (length result.now) byte }
    ensures few { length result.now ≤ most }
    ensures some { 1 ≤ length result.now }
{
    match byte {
        b'-' => at_most(SINGLE, most),
        b'=' => at_most(DOUBLE, most),
        _ => one_byte(byte),
    }
}

/// A byte alone.
fn one_byte(byte: u8) -> &'static [u8]
    ensures { result.now ≡ byte ∷ [] }
{
    let bytes: &'static [u8] = BYTES;
    let at = byte as usize;
    &bytes[at..at + 1]
}

/// All bytes.
const BYTES: &[u8; 256] = b"\
    \x00\x01\x02\x03\x04\x05\x06\x07\x08\x09\x0a\x0b\x0c\x0d\x0e\x0f\
    \x10\x11\x12\x13\x14\x15\x16\x17\x18\x19\x1a\x1b\x1c\x1d\x1e\x1f\
    \x20\x21\x22\x23\x24\x25\x26\x27\x28\x29\x2a\x2b\x2c\x2d\x2e\x2f\
    \x30\x31\x32\x33\x34\x35\x36\x37\x38\x39\x3a\x3b\x3c\x3d\x3e\x3f\
    \x40\x41\x42\x43\x44\x45\x46\x47\x48\x49\x4a\x4b\x4c\x4d\x4e\x4f\
    \x50\x51\x52\x53\x54\x55\x56\x57\x58\x59\x5a\x5b\x5c\x5d\x5e\x5f\
    \x60\x61\x62\x63\x64\x65\x66\x67\x68\x69\x6a\x6b\x6c\x6d\x6e\x6f\
    \x70\x71\x72\x73\x74\x75\x76\x77\x78\x79\x7a\x7b\x7c\x7d\x7e\x7f\
    \x80\x81\x82\x83\x84\x85\x86\x87\x88\x89\x8a\x8b\x8c\x8d\x8e\x8f\
    \x90\x91\x92\x93\x94\x95\x96\x97\x98\x99\x9a\x9b\x9c\x9d\x9e\x9f\
    \xa0\xa1\xa2\xa3\xa4\xa5\xa6\xa7\xa8\xa9\xaa\xab\xac\xad\xae\xaf\
    \xb0\xb1\xb2\xb3\xb4\xb5\xb6\xb7\xb8\xb9\xba\xbb\xbc\xbd\xbe\xbf\
    \xc0\xc1\xc2\xc3\xc4\xc5\xc6\xc7\xc8\xc9\xca\xcb\xcc\xcd\xce\xcf\
    \xd0\xd1\xd2\xd3\xd4\xd5\xd6\xd7\xd8\xd9\xda\xdb\xdc\xdd\xde\xdf\
    \xe0\xe1\xe2\xe3\xe4\xe5\xe6\xe7\xe8\xe9\xea\xeb\xec\xed\xee\xef\
    \xf0\xf1\xf2\xf3\xf4\xf5\xf6\xf7\xf8\xf9\xfa\xfb\xfc\xfd\xfe\xff\
    ";

/// A byte of a part of a block.
fn part_byte(block: &[u8], from: usize, to: usize, at: usize) -> u8
    requires { at < length (slice_range block.now from to) }
    ensures { result ≡ slice_index (slice_range block.now from to) at }
{
    block[from + at]
}

/// Adds a piece, if it has a byte.
pub fn push_some(pieces: &mut Vec<Piece>, piece: Piece)
    requires { vec_len pieces.old < vec_capacity pieces.old }
    ensures items { pieces.new.items ≡ pieces.old.items ++ some_piece piece }
    ensures few { vec_len pieces.new ≤ vec_len pieces.old + 1 }
    ensures capacity { vec_capacity pieces.new ≡ vec_capacity pieces.old }
{
    if piece.len() != 0 {
        pieces.push_reserved(piece);
    }
}
