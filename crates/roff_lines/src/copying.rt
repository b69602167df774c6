//! Bytes that are copied into a buffer, sixteen at a time.

ghost use Rattle.std.specs.Prelude.{◌≡◌, ◌+◌, ◌<◌, ◌≤◌, ◌++◌, length, take, replicate};
ghost use Rattle.std.specs.Simd.Lanes.{chunk, put_chunk};
ghost use Rattle.roff_lines.specs.Clauses.{gap_text};

use page_model::{FURTHER_BLANK, GAP};
use roff_num::lanes::STEP;
use std::simd::prelude::*;

/// Copies so many bytes in front of a text to a place of a buffer. What is behind them may change
/// too.
#[inline(always)]
pub(crate) fn copy_front(text: &[u8], count: usize, out: &mut [u8], place: usize)
    requires text { count ≤ length text.now }
    requires room { place + count + 16 ≤ length out.old }
    ensures same { length out.new ≡ length out.old }
    ensures written { take (place + count) out.new ≡ take place out.old ++ take count text.now }
{
    if text.len() < STEP {
        copy_few(text, count, out, place);
        return;
    }
    let last = text.len() - STEP;
    let mut copied = 0;
    while copied < count {
        if copied > last {
            copy_step(text, last, out, place + last);
            return;
        }
        copy_step(text, copied, out, place + copied);
        copied += STEP;
    }
}

/// Copies so many bytes in front of a short text byte by byte to a place of a buffer.
#[inline(always)]
fn copy_few(text: &[u8], count: usize, out: &mut [u8], place: usize)
    requires text { count ≤ length text.now }
    requires room { place + count + 16 ≤ length out.old }
    ensures same { length out.new ≡ length out.old }
    ensures written { take (place + count) out.new ≡ take place out.old ++ take count text.now }
{
    for copied in 0..count {
        out[place + copied] = text[copied];
    }
}

/// Writes a byte so many times, from a place of a buffer on.
#[inline(always)]
pub(crate) fn put_times(out: &mut [u8], place: usize, byte: u8, times: usize)
    requires { place + times ≤ length out.old }
    ensures same { length out.new ≡ length out.old }
    ensures written { take (place + times) out.new ≡ take place out.old ++ replicate times byte }
{
    for put in 0..times {
        out[place + put] = byte;
    }
}

/// Writes a gap of so many blanks, from a place of a buffer on.
#[inline(always)]
pub(crate) fn put_gap(out: &mut [u8], place: usize, blanks: usize)
    requires some { 0 < blanks }
    requires room { place + blanks ≤ length out.old }
    ensures same { length out.new ≡ length out.old }
    ensures written { take (place + blanks) out.new ≡ take place out.old ++ gap_text blanks }
{
    out[place] = GAP;
    if blanks > 1 {
        out[place + 1] = FURTHER_BLANK;
        put_times(out, place + 2, FURTHER_BLANK, blanks - 2);
    }
}

/// Copies a step of a text to a place of a buffer.
#[inline(always)]
fn copy_step(text: &[u8], start: usize, out: &mut [u8], place: usize)
    requires text { start + 16 ≤ length text.now }
    requires room { place + 16 ≤ length out.old }
    ensures { out.new ≡ put_chunk place out.old (chunk start 16 text.now) }
{
    u8x16::from_slice(&text[start..]).copy_to_slice(&mut out[place..]);
}
