//! Kinds of bytes, and runs of them.

ghost use Rattle.std.specs.Prelude.{◌≡◌, ◌==◌, ◌≤◌, ◌<◌, ◌+◌, ◌^◌, count_by, length, take};
ghost use Rattle.std.specs.Prelude.{take_while};
ghost use Rattle.std.specs.List.{prefix_len};
ghost use Rattle.std.specs.Simd.Lanes.{chunk};
ghost use Rattle.input_source.specs.Bytes.{is_argument_byte};
ghost use Rattle.input_source.specs.Bytes.{is_dropped, is_passed, is_silent, is_text_byte, newline};

use memchr::{memchr, memchr2};
use roff_num::lanes::{STEP, first_set};
use std::simd::prelude::*;

/// Whether a byte stands in the input and prints nothing: STX, ETX, ENQ, ACK and BEL.
pub fn is_silent(byte: u8) -> bool
    ensures { result ≡ is_silent byte }
{
    matches!(byte, 2 | 3 | 5 | 6 | 7)
}

/// Whether a byte is dropped as it is taken: all other control bytes but the tab and the newline.
pub fn is_dropped(byte: u8) -> bool
    ensures { result ≡ is_dropped byte }
{
    (byte < 32 || byte == 127) && byte != b'\n' && byte != b'\t' && !is_silent(byte)
}

/// How many of these bytes are passed over, up to the first that isn't: a backslash or, unless
/// within a block, a newline.
pub fn passed_len(bytes: &[u8], within_block: bool) -> usize
    ensures { result ≡ length (take_while (is_passed within_block) bytes.now) }
{
    if within_block {
        memchr(b'\\', bytes).unwrap_or(bytes.len())
    } else {
        memchr2(b'\\', b'\n', bytes).unwrap_or(bytes.len())
    }
}

/// Whether a byte of a line is held as it is read, behind a request's name: neither a backslash, a
/// newline nor one that is dropped.
#[inline(always)]
pub fn is_argument_byte(byte: u8) -> bool
    ensures { result ≡ is_argument_byte byte }
{
    if byte >= b' ' && byte < b'\\' {
        return true;
    }
    !(byte == b'\\' || (is_dropped(byte) || byte == b'\n'))
}

/// Whether a byte is one of plain text: neither a control byte, DEL nor a backslash.
#[inline(always)]
fn is_text_byte(byte: u8) -> bool
    ensures { result ≡ is_text_byte byte }
{
    byte >= 32 && byte != 127 && byte != b'\\'
}

/// How many of these bytes are plain text, up to the first that is a control byte, DEL or a
/// backslash. The last step is that of the last bytes, of which some may have been looked at.
#[inline(always)]
pub fn text_in_front(bytes: &[u8]) -> usize
    ensures { result ≡ length (take_while is_text_byte bytes.now) }
{
    if bytes.len() < STEP {
        return text_of_few(bytes);
    }
    let last = bytes.len() - STEP;
    let mut start = 0;
    while start < last {
        let run = text_of_step(bytes, start);
        if run < STEP {
            return start + run;
        }
        start += STEP;
    }
    last + text_of_step(bytes, last)
}

/// How many of these few bytes are plain text, up to the first that is none. Each is looked at by
/// itself.
#[inline(always)]
fn text_of_few(bytes: &[u8]) -> usize
    ensures { result ≡ length (take_while is_text_byte bytes.now) }
{
    let mut count = 0;
    while count < bytes.len() {
        if !is_text_byte(bytes[count]) {
            return count;
        }
        count += 1;
    }
    count
}

/// How many bytes of a step, from its first, are plain text.
#[inline(always)]
fn text_of_step(bytes: &[u8], start: usize) -> usize
    requires { start + 16 ≤ length bytes.now }
    ensures { result ≡ prefix_len is_text_byte (chunk start 16 bytes.now) }
{
    let step = u8x16::from_slice(&bytes[start..]);
    let control = step.simd_lt(u8x16::splat(b' '));
    let other = step.simd_eq(u8x16::splat(127)) | step.simd_eq(u8x16::splat(b'\\'));
    first_set((control | other).to_bitmask(), STEP)
}

/// The first of these bytes, so many at most.
#[inline(always)]
pub fn at_most(bytes: &[u8], most: usize) -> &[u8]
    ensures { result.now ≡ take most bytes.now }
{
    bytes.split_at(most.min(bytes.len())).0
}

/// How many newlines are among these bytes.
pub fn newlines_among(bytes: &[u8]) -> u32
    requires { length bytes.now < 2 ^ 32 }
    ensures { result ≡ count_by (λ b. b == newline) bytes.now }
{
    let mut newlines = 0;
    for byte in bytes {
        if *byte == b'\n' {
            newlines += 1;
        }
    }
    newlines
}
