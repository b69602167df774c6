//! Whole words in front of a text line, and the glyphs of one.

ghost use Rattle.std.specs.Prelude.{◌≡◌, ◌+◌, ◌-◌, ◌<◌, ◌≤◌, length, take, true, slice_index_or};
ghost use Rattle.std.specs.Prelude.{nat_lt, if◌then◌else◌};
ghost use Rattle.roff_lines.specs.Clauses.{text_width};
ghost use Rattle.roff_lines.specs.GlyphsInFront.{glyphs_in_front};
ghost use Rattle.roff_lines.specs.Env.Tells.{GoesOn, ReadsWords, WholeWords};

use crate::lanes::{behind_last_blank, gaps_of_step, glyphs_of_step, run_of_step, width_of_step};
use roff_num::lanes::STEP;
use roff_num::width_of_byte;

/// How many bytes in front are whole words with a blank behind each, whose bytes are characters by
/// themselves: at most so many bytes. Tells also how many words these are.
#[inline(always)]
pub(crate) fn whole_words(bytes: &[u8], most: usize) -> (usize, u64)
    requires { most ≤ length bytes.now }
    ensures most { result.0 ≤ most }
    ensures words { WholeWords result.1 (take result.0 bytes.now) }
{
    if most == 0 || !goes_on(b' ', bytes[0]) {
        return (0, 0);
    }
    let steps = words_by_steps(bytes, most);
    if bytes.len() - steps.read >= STEP {
        return (steps.told, steps.words);
    }
    words_behind(bytes, most, steps)
}

/// How far words were read.
#[derive(Clone, Copy)]
struct Read {
    /// How many bytes of them.
    read: usize,
    /// How many of these are whole words with a blank behind each.
    told: usize,
    /// How many words these are.
    words: u64,
}

/// Reads words by steps behind the first byte, as far as they go on and steps lie there: at most so
/// many bytes.
#[inline(always)]
fn words_by_steps(bytes: &[u8], most: usize) -> Read
    requires some { 0 < most }
    requires text { most ≤ length bytes.now }
    requires first { GoesOn 32 (slice_index_or bytes.now 0 0) }
    ensures few { result.read ≤ most }
    ensures reads { ReadsWords bytes.now result.read result.told result.words }
{
    let mut from = Read {
        read: 1,
        told: 0,
        words: 0,
    };
    while from.read < most && bytes.len() - from.read >= STEP {
        let behind = read_step(bytes, most, from);
        let run = behind.read - from.read;
        from = behind;
        if run < STEP {
            break;
        }
    }
    from
}

/// Reads words on by a step, as far as they go on in it: at most so many bytes.
#[inline(always)]
fn read_step(bytes: &[u8], most: usize, from: Read) -> Read
    requires more { from.read ≤ most }
    requires within { from.read + 16 ≤ length bytes.now }
    requires reads { ReadsWords bytes.now from.read from.told from.words }
    ensures few { result.read ≤ most }
    ensures on { from.read ≤ result.read }
    ensures reads { ReadsWords bytes.now result.read result.told result.words }
{
    let run = run_of_step(bytes, from.read).min(most - from.read);
    let place = behind_last_blank(bytes, from.read, run);
    let words = from.words + gaps_of_step(bytes, from.read, run);
    Read {
        read: from.read + run,
        told: last_told(from.told, from.read, place),
        words,
    }
}

/// Where whole words end: at this place, where it is behind those that were read before.
#[inline(always)]
fn last_told(told: usize, read: usize, place: usize) -> usize
    ensures { result ≡ (if nat_lt read place then place else told) }
{
    if read < place { place } else { told }
}

/// Reads on byte by byte.
#[inline(never)]
fn words_behind(bytes: &[u8], most: usize, steps: Read) -> (usize, u64)
    requires text { most ≤ length bytes.now }
    requires few { steps.read ≤ most }
    requires reads { ReadsWords bytes.now steps.read steps.told steps.words }
    ensures most { result.0 ≤ most }
    ensures words { WholeWords result.1 (take result.0 bytes.now) }
{
    let mut from = steps;
    while from.read < most && goes_on(bytes[from.read - 1], bytes[from.read]) {
        from = read_byte(bytes, from);
    }
    (from.told, from.words)
}

/// Reads words on by a byte.
#[inline(always)]
fn read_byte(bytes: &[u8], from: Read) -> Read
    requires within { from.read < length bytes.now }
    requires goes { GoesOn (slice_index_or bytes.now (from.read - 1) 0)
        (slice_index_or bytes.now from.read 0) }
    requires reads { ReadsWords bytes.now from.read from.told from.words }
    ensures on { result.read ≡ from.read + 1 }
    ensures reads { ReadsWords bytes.now result.read result.told result.words }
{
    let read = from.read + 1;
    if bytes[from.read] == b' ' {
        return Read {
            read,
            told: read,
            words: from.words + 1,
        };
    }
    Read {
        read,
        told: from.told,
        words: from.words,
    }
}

/// Whether words with one blank between two of them go on with a byte behind another one.
#[inline(always)]
fn goes_on(before: u8, byte: u8) -> bool
    ensures { result ≡ true → GoesOn before byte }
{
    if byte > b' ' {
        return byte < 0x80;
    }
    byte == b' ' && before != b' '
}

/// How many bytes of glyphs stand in front of a text, at most so many.
#[inline(always)]
pub fn count_of_glyphs(text: &[u8], most: usize) -> usize
    ensures text { result ≤ length text.now }
    ensures glyphs { take result text.now ≡ take most (glyphs_in_front text.now) }
{
    let end = most.min(text.len());
    let mut count = 0;
    while count < end && text.len() - count >= STEP {
        let run = glyphs_of_step(text, count);
        count += run;
        if run < STEP {
            return count.min(end);
        }
    }
    while count < end && text[count] > b' ' {
        count += 1;
    }
    count.min(end)
}

/// How many bytes of glyphs stand in front of a text, at most so many. Tells also how wide they
/// are, in columns.
#[inline(always)]
pub(crate) fn measured_glyphs(text: &[u8], most: usize) -> (usize, u64)
    ensures text { result.0 ≤ length text.now }
    ensures glyphs { take result.0 text.now ≡ take most (glyphs_in_front text.now) }
    ensures width { result.1 ≡ text_width (take result.0 text.now) }
{
    if text.len() < STEP {
        return measured_singly(text, most);
    }
    let count = count_of_glyphs(text, most);
    if count <= STEP {
        return (count, width_of_step(text, 0, count));
    }
    let (front, _) = text.split_at(count);
    (count, width_of_bytes(front))
}

/// How many bytes of glyphs stand in front of a text, at most so many, and how wide they are, in
/// columns. Each byte is measured by itself.
#[inline(always)]
fn measured_singly(text: &[u8], most: usize) -> (usize, u64)
    ensures text { result.0 ≤ length text.now }
    ensures glyphs { take result.0 text.now ≡ take most (glyphs_in_front text.now) }
    ensures width { result.1 ≡ text_width (take result.0 text.now) }
{
    let end = most.min(text.len());
    let mut count = 0;
    let mut width = 0;
    while count < end && text[count] > b' ' {
        width += width_of_byte(text[count]);
        count += 1;
    }
    (count, width)
}

/// How wide bytes are, in columns.
#[tactic(auto, using(crate::proofs::Widths::byte_width_le))]
fn width_of_bytes(bytes: &[u8]) -> u64
    ensures { result ≡ text_width bytes.now }
{
    let mut width = 0;
    for byte in bytes {
        width += width_of_byte(*byte);
    }
    width
}
