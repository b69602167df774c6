//! Sixteen bytes of a text in one step.

ghost use Rattle.std.specs.Prelude.{◌≡◌, ◌+◌, ◌-◌, ◌<◌, ◌≤◌, ◌^◌, ◌%◌, length, take, drop, map};
ghost use Rattle.std.specs.Prelude.{nat_lt, ◌==◌, slice_index_or};
ghost use Rattle.std.specs.List.{prefix_len};
ghost use Rattle.std.specs.Simd.Lanes.{chunk, mask_l};
ghost use Rattle.page_model.specs.Glyphs.{gap_blank, gaps_in, text_width};
ghost use Rattle.roff_lines.specs.Env.Tells.{GoesOn, IsRun};

use roff_num::lanes::{STEP, first_set};
use std::simd::prelude::*;

/// How many bytes are looked at where a text hasn't those of a step left.
pub const HALF_STEP: usize = 8;

/// How many bytes of a step, from its first, are above the blank.
#[inline(always)]
pub fn glyphs_of_step(text: &[u8], start: usize) -> usize
    requires { start + 16 ≤ length text.now }
    ensures { result ≡ prefix_len (nat_lt 32) (chunk start 16 text.now) }
{
    let step = u8x16::from_slice(&text[start..]);
    first_set(step.simd_le(u8x16::splat(b' ')).to_bitmask(), STEP)
}

/// How many bytes of half a step, from its first, are above the blank.
#[inline(always)]
pub fn glyphs_of_half_step(text: &[u8], start: usize) -> usize
    requires { start + 8 ≤ length text.now }
    ensures { result ≡ prefix_len (nat_lt 32) (chunk start 8 text.now) }
{
    let step = u8x8::from_slice(&text[start..]);
    first_set(step.simd_le(u8x8::splat(b' ')).to_bitmask(), HALF_STEP)
}

/// How many bytes of a step go on with words that have one blank between two of them.
#[inline(always)]
pub(crate) fn run_of_step(bytes: &[u8], start: usize) -> usize
    requires some { 0 < start }
    requires within { start + 16 ≤ length bytes.now }
    ensures few { result ≤ 16 }
    ensures run { IsRun bytes.now start → IsRun bytes.now (start + result) }
    ensures stops { result < 16
        → GoesOn (slice_index_or bytes.now (start + result - 1) 0)
        (slice_index_or bytes.now (start + result) 0) → ⊥ }
{
    let step = u8x16::from_slice(&bytes[start..]);
    let before = u8x16::from_slice(&bytes[start - 1..]);
    let blank = u8x16::splat(b' ');
    let other = step.simd_lt(blank) | step.simd_ge(u8x16::splat(0x80));
    let second = step.simd_eq(blank) & before.simd_eq(blank);
    first_set((other | second).to_bitmask(), STEP)
}

/// The mask of the blanks of a step.
#[inline(always)]
fn blanks_of_step(bytes: &[u8], start: usize) -> u64
    requires { start + 16 ≤ length bytes.now }
    ensures { result ≡ mask_l (map (λ b. b == gap_blank) (chunk start 16 bytes.now)) }
{
    let step = u8x16::from_slice(&bytes[start..]);
    step.simd_eq(u8x16::splat(b' ')).to_bitmask()
}

/// The bits of a mask that are those of so many bytes in front.
#[inline(always)]
fn in_front(mask: u64, count: usize) -> u64
    requires { count ≤ 16 }
    ensures { result ≡ mask % 2 ^ count }
{
    mask & ((1 << count) - 1)
}

/// How many blanks are among so many bytes of a step, from its first.
#[inline(always)]
pub(crate) fn gaps_of_step(bytes: &[u8], start: usize, count: usize) -> u64
    requires within { start + 16 ≤ length bytes.now }
    requires count { count ≤ 16 }
    ensures few { result ≤ count }
    ensures gaps { gaps_in (take (start + count) bytes.now)
        ≡ gaps_in (take start bytes.now) + result }
{
    let blanks = in_front(blanks_of_step(bytes, start), count);
    u64::from(blanks.count_ones())
}

/// The place behind the last blank among so many bytes of a step, from its first: the first one
/// where none is a blank.
#[inline(always)]
pub(crate) fn behind_last_blank(bytes: &[u8], start: usize, count: usize) -> usize
    requires within { start + 16 ≤ length bytes.now }
    requires count { count ≤ 16 }
    ensures from { start ≤ result }
    ensures few { result ≤ start + count }
    ensures blank { start < result → slice_index_or bytes.now (result - 1) 0 ≡ 32 }
    ensures others { gaps_in (take result bytes.now)
        ≡ gaps_in (take (start + count) bytes.now) }
{
    let blanks = in_front(blanks_of_step(bytes, start), count);
    start + (64 - blanks.leading_zeros()) as usize
}

/// How wide so many bytes of a step are, from its first, in columns.
#[inline(always)]
pub(crate) fn width_of_step(bytes: &[u8], start: usize, count: usize) -> u64
    requires within { start + 16 ≤ length bytes.now }
    requires count { count ≤ 16 }
    ensures { result ≡ text_width (take count (drop start bytes.now)) }
{
    let step = u8x16::from_slice(&bytes[start..]);
    let wide = step.simd_lt(u8x16::splat(0x80)) | step.simd_ge(u8x16::splat(0xc0));
    u64::from(in_front(wide.to_bitmask(), count).count_ones())
}
