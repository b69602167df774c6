//! Steps of a text that are copied into a buffer.

ghost use Rattle.std.specs.Prelude.{◌≡◌, ◌+◌, ◌≤◌, length};
ghost use Rattle.std.specs.Simd.Lanes.{chunk, put_chunk};
ghost use Rattle.page_model.specs.Columns.{spaces};

use std::simd::prelude::*;

/// Copies a step of a text to a place of a buffer.
#[inline(always)]
pub(super) fn copy_step(text: &[u8], start: usize, out: &mut [u8], place: usize)
    requires text { start + 16 ≤ length text.now }
    requires room { place + 16 ≤ length out.old }
    ensures { out.new ≡ put_chunk place out.old (chunk start 16 text.now) }
{
    u8x16::from_slice(&text[start..]).copy_to_slice(&mut out[place..]);
}

/// Copies half a step of a text to a place of a buffer.
#[inline(always)]
pub(super) fn copy_half_step(text: &[u8], start: usize, out: &mut [u8], place: usize)
    requires text { start + 8 ≤ length text.now }
    requires room { place + 8 ≤ length out.old }
    ensures { out.new ≡ put_chunk place out.old (chunk start 8 text.now) }
{
    u8x8::from_slice(&text[start..]).copy_to_slice(&mut out[place..]);
}

/// Writes a step of blanks to a place of a buffer.
#[inline(always)]
pub(super) fn blank_step(out: &mut [u8], place: usize)
    requires { place + 16 ≤ length out.old }
    ensures { out.new ≡ put_chunk place out.old (spaces 16) }
{
    u8x16::splat(b' ').copy_to_slice(&mut out[place..]);
}
