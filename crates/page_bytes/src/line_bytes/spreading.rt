//! A text that is written at once, with its blanks spread.

ghost use Rattle.std.specs.Prelude.{◌≡◌, ◌+◌, ◌*◌, ◌<◌, ◌≤◌, ◌^◌, ◌++◌, length, take, ◌-◌, ◌%◌};
ghost use Rattle.std.specs.Prelude.{drop, map, slice_index_or, vec_capacity, true, ℕ};
ghost use Rattle.page_model.specs.Columns.{spaces};
ghost use Rattle.roff_lines.specs.GlyphsInFront.{glyphs_in_front};
ghost use Rattle.page_bytes.specs.LineBytes.Fronts.{written_mark, SpreadsOver};
ghost use Rattle.page_bytes.specs.LineBytes.Fronts.{WritesOver};

use super::steps::{blank_step, copy_half_step, copy_step};
use super::{LineBytes, Sharing, Written};
use crate::block::BLOCK;
use page_model::{FURTHER_BLANK, GAP};
use roff_lines::{HALF_STEP, STEP, glyphs_of_half_step, glyphs_of_step};

impl<'a> LineBytes<'a> {
    /// Writes the bytes in front, as far as the text goes, to the front of a block, and tells how
    /// many these are. Writes none where the block hasn't room for all of them and sixteen more.
    /// What stands behind them may be anything.
    #[inline(always)]
    pub fn write_front(&mut self, block: &mut Vec<u8>) -> usize
        requires capacity { 8192 ≤ vec_capacity block.old }
        requires few { length block.old.items ≤ 8192 }
        ensures capacity { vec_capacity block.old ≤ vec_capacity block.new }
        ensures few { length block.new.items ≤ 8192 }
        ensures written { WritesOver 0 result block.old.items block.new.items self.old self.new }
    {
        let spare = self.each * self.gaps + self.rest;
        let longest = BLOCK - STEP;
        if self.text.len() > longest || self.blanks > longest as u128 || spare > longest as u64 {
            return 0;
        }
        let needed = self.text.len() + self.blanks as usize + spare as usize + STEP;
        if needed > BLOCK {
            return 0;
        }
        fill(block, needed);
        let lead = self.blanks as usize;
        self.blanks = 0;
        self.write_behind(lead, block.as_mut_slice())
    }

    /// Writes so many blanks and the text behind them to the front of a buffer, as far as it goes.
    /// Tells where it ends.
    #[inline(always)]
    fn write_behind(&mut self, lead: usize, out: &mut [u8]) -> usize
        requires { lead + 16 ≤ length out.old }
        ensures { WritesOver 0 result out.old out.new (spaces lead ++ self.old) self.new }
    {
        write_blanks(out, 0, lead);
        self.write_text(out, lead)
    }

    /// Writes the text from a place on, as far as it goes. Tells where it ends.
    #[inline(always)]
    fn write_text(&mut self, out: &mut [u8], start: usize) -> usize
        requires { start ≤ length out.old }
        ensures { WritesOver start result out.old out.new self.old self.new }
    {
        if self.blanks > 0 {
            return start;
        }
        if is_copied(self.each, self.rest, self.text.len(), out.len() - start) {
            let count = self.text.len();
            copy_over(self.text, out, start);
            let (_, behind) = self.text.split_at(count);
            self.text = behind;
            return start + count;
        }
        let shares = Sharing {
            each: self.each,
            rest: self.rest,
            gaps: self.gaps,
            passed: self.passed,
            over: self.over,
        };
        let written = spread_over(self.text, shares, out, start);
        let (_, behind) = self.text.split_at(written.taken);
        self.text = behind;
        self.passed = written.passed;
        self.over = written.over;
        written.end
    }
}

/// Lets a block have so many bytes.
#[inline(always)]
fn fill(block: &mut Vec<u8>, needed: usize)
    requires { needed ≤ vec_capacity block.old }
    ensures capacity { vec_capacity block.old ≤ vec_capacity block.new }
    ensures filled { needed ≤ length block.new.items }
    ensures few { (most : ℕ) → needed ≤ most → length block.old.items ≤ most
        → length block.new.items ≤ most }
{
    if block.len() < needed {
        block.resize(needed, b' ').unwrap();
    }
}

/// Whether a text is written as it stands, where there is so much room: nothing is added to its
/// gaps.
#[inline(always)]
fn is_copied(each: u64, rest: u64, length: usize, room: usize) -> bool
    ensures { result ≡ true → (each ≡ 0) × ((rest ≡ 0) × (length ≤ room)) }
{
    each == 0 && rest == 0 && length <= room
}

/// Writes a text as it stands, from a place on.
#[inline(always)]
fn copy_over(text: &[u8], out: &mut [u8], start: usize)
    requires { start + length text.now ≤ length out.old }
    ensures same { length out.new ≡ length out.old }
    ensures written { take (start + length text.now) out.new
        ≡ take start out.old ++ map written_mark text.now }
{
    for taken in 0..text.len() {
        out[start + taken] = written_byte(text[taken]);
    }
}

/// What is written for a byte of a text where nothing is added to a gap.
#[inline(always)]
fn written_byte(byte: u8) -> u8
    ensures { result ≡ written_mark byte }
{
    if byte <= FURTHER_BLANK { b' ' } else { byte }
}

/// Writes a text with its blanks spread, from a place on, as far as there is room for it and a step
/// more. What is behind it may change too.
#[inline(never)]
fn spread_over(text: &[u8], shares: Sharing, out: &mut [u8], start: usize) -> Written
    requires start { start ≤ length out.old }
    requires passed { shares.passed + length text.now < 2 ^ 64 }
    requires spare { shares.each * shares.gaps + shares.rest < 2 ^ 64 }
    requires rest { shares.rest < shares.gaps }
    requires over { let spare = shares.each * shares.gaps + shares.rest in
        shares.over ≡ shares.passed * spare % shares.gaps }
    ensures text { result.taken ≤ length text.now }
    ensures passed { result.passed ≤ shares.passed + result.taken }
    ensures over { let spare = shares.each * shares.gaps + shares.rest in
        result.over ≡ result.passed * spare % shares.gaps }
    ensures written { let spare = shares.each * shares.gaps + shares.rest in
        SpreadsOver spare shares.gaps shares.passed result.passed result.taken start result.end
        text.now out.old out.new }
{
    let room = out.len() - start;
    let mut taken = 0;
    let mut end = start;
    let mut passed = shares.passed;
    let mut over = shares.over;
    if room < STEP || room - STEP < text.len() {
        return Written {
            taken,
            end,
            passed,
            over,
        };
    }
    let mut left = (room - STEP - text.len()) as u64;
    while taken < text.len() {
        let run = copy_glyphs(text, taken, out, end);
        taken += run;
        end += run;
        if taken == text.len() {
            break;
        }
        let byte = text[taken];
        if byte == GAP {
            let (added, behind) = added_to_gap(shares.each, shares.rest, shares.gaps, over);
            if added > left {
                break;
            }
            left -= added;
            let columns = 1 + added as usize;
            write_blanks(out, end, columns);
            taken += 1;
            end += columns;
            passed += 1;
            over = behind;
            continue;
        }
        if byte > b' ' {
            continue;
        }
        if byte > FURTHER_BLANK {
            break;
        }
        write_blanks(out, end, 1);
        taken += 1;
        end += 1;
    }
    Written {
        taken,
        end,
        passed,
        over,
    }
}

/// Copies the glyphs of a text behind a place, as many as stand in one step, to a place of a
/// buffer. Tells how many these are. What is behind them may change too.
#[inline(always)]
fn copy_glyphs(text: &[u8], taken: usize, out: &mut [u8], end: usize) -> usize
    requires text { taken < length text.now }
    requires room { end + 16 ≤ length out.old }
    ensures text { taken + result ≤ length text.now }
    ensures some { 32 < slice_index_or text.now taken 0 → 0 < result }
    ensures same { length out.new ≡ length out.old }
    ensures glyphs { take result (drop taken text.now)
        ≡ take result (glyphs_in_front (drop taken text.now)) }
    ensures written { take (end + result) out.new
        ≡ take end out.old ++ take result (drop taken text.now) }
{
    let left = text.len() - taken;
    if left >= STEP {
        let count = glyphs_of_step(text, taken);
        copy_step(text, taken, out, end);
        return count;
    }
    if left >= HALF_STEP {
        let count = glyphs_of_half_step(text, taken);
        copy_half_step(text, taken, out, end);
        return count;
    }
    copy_last_glyphs(text, taken, out, end)
}

/// Copies the glyphs of a text behind a place byte by byte to a place of a buffer, up to the first
/// byte that is none or the end of the text. Tells how many these are.
#[inline(always)]
fn copy_last_glyphs(text: &[u8], taken: usize, out: &mut [u8], end: usize) -> usize
    requires text { taken < length text.now }
    requires room { end + (length text.now - taken) ≤ length out.old }
    ensures text { taken + result ≤ length text.now }
    ensures some { 32 < slice_index_or text.now taken 0 → 0 < result }
    ensures same { length out.new ≡ length out.old }
    ensures glyphs { take result (drop taken text.now)
        ≡ take result (glyphs_in_front (drop taken text.now)) }
    ensures written { take (end + result) out.new
        ≡ take end out.old ++ take result (drop taken text.now) }
{
    let mut count = 0;
    while taken + count < text.len() && text[taken + count] > b' ' {
        out[end + count] = text[taken + count];
        count += 1;
    }
    count
}

/// Writes so many blanks to a place of a buffer. What is behind them may change too.
#[inline(always)]
fn write_blanks(out: &mut [u8], place: usize, count: usize)
    requires blanks { place + count ≤ length out.old }
    requires step { place + 16 ≤ length out.old }
    ensures same { length out.new ≡ length out.old }
    ensures written { take (place + count) out.new ≡ take place out.old ++ spaces count }
{
    if count <= STEP {
        blank_step(out, place);
        return;
    }
    for written in 0..count {
        out[place + written] = b' ';
    }
}

/// The columns that adjusting adds to the next gap: one more than each gap gets, where what is
/// over reaches the gaps. Tells also what is over behind it.
#[inline(always)]
pub(super) fn added_to_gap(each: u64, rest: u64, gaps: u64, over: u64) -> (u64, u64)
    requires spare { each * gaps + rest < 2 ^ 64 }
    requires rest { rest < gaps }
    requires over { over < gaps }
    ensures added { result.0 * gaps + result.1 ≡ each * gaps + rest + over }
    ensures over { result.1 < gaps }
{
    // No sum is wider than 64 bits.
    let missing = gaps - rest;
    if over < missing {
        return (each, over + rest);
    }
    (each + 1, over - missing)
}
