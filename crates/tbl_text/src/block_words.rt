//! The words of a line of a text block (Lesk, "Tbl": Text Blocks).

ghost use Rattle.std.specs.Prelude.{◌≡◌, ◌+◌, ◌^◌, ◌<◌, ◌≤◌, ◌∷◌, [], length, drop, IfSome};
ghost use Rattle.std.specs.Prelude.{slice_range, true};
ghost use Rattle.std.specs.List.{list_all};
ghost use Rattle.tbl_text.specs.BlockPlaces.{LiesBehind, words_with};
ghost use Rattle.tbl_text.specs.BlockRuns.{nothing_at, with_item, with_plain, word_by};
ghost use Rattle.tbl_text.specs.BlockWords.{ends_behind, is_plain, words_of};
ghost use Rattle.tbl_text.specs.Items.{columns};

use crate::items::{What, next_item};
use input_escapes::OpenEscapes;
use roff_lines::ends_sentence_behind;

/// A word of a text block.
#[derive(Clone, Copy)]
pub struct BlockWord {
    /// Whether it begins a line of the picture whatever stands before it.
    pub breaks: bool,
    /// The blanks in front of it: if it breaks, those that its own line begins with, and else the
    /// gap behind the word before it.
    pub gap: u32,
    /// Where it begins.
    pub from: u32,
    /// Where it ends.
    pub to: u32,
    /// Where it ends up to its last glyph.
    pub glyphs: u32,
    /// Its columns.
    pub width: u64,
    /// Whether it ends a sentence.
    pub ends_sentence: bool,
}

/// What stands between blanks, as far as it is read.
#[derive(Clone, Copy)]
struct Run {
    from: usize,
    glyphs: usize,
    width: u64,
    has_glyph: bool,
    ends_sentence: bool,
}

/// The next word of a line that ends with the bytes, from a place on.
#[inline(always)]
pub(crate) fn next_word(escapes: &mut OpenEscapes, line: &[u8], from: usize) -> Option<BlockWord>
    requires small { length line.now < 2 ^ 32 }
    requires place { from ≤ length line.now }
    ensures words { words_of (drop from line.now) ≡ words_with line.now result }
    ensures lies { IfSome result (LiesBehind line.now from) }
    ensures room { escapes.new.room ≡ escapes.old.room }
{
    let mut run = Run::at(from);
    let mut gap = 0;
    let mut at = from;
    while at < line.len() {
        let plain = plain_end(line, at);
        if at < plain {
            run = run.with_plain(&line[at..plain], plain);
            at = plain;
            continue;
        }
        let item = next_item(escapes, &line[at..]);
        if let What::Blank = item.what {
            if run.has_glyph {
                return Some(run.word(gap, at));
            }
            gap += 1;
            at += item.len;
            run = Run::at(at);
        } else {
            at += item.len;
            run = run.with_item(item.what, at);
        }
    }
    if run.has_glyph {
        Some(run.word(gap, at))
    } else {
        None
    }
}

/// Where the bytes end that stand at a place and print themselves in one column each.
#[inline(always)]
fn plain_end(line: &[u8], from: usize) -> usize
    requires { from ≤ length line.now }
    ensures order { from ≤ result }
    ensures within { result ≤ length line.now }
    ensures plain { list_all is_plain (slice_range line.now from result) ≡ true }
{
    let mut at = from;
    while at < line.len() && is_plain(line[at]) {
        at += 1;
    }
    at
}

/// Whether a byte prints itself in one column, and is no backslash.
#[inline(always)]
fn is_plain(byte: u8) -> bool
    ensures { result ≡ is_plain byte }
{
    byte > b' ' && byte < 127 && byte != b'\\'
}

impl Run {
    /// Nothing, at a place.
    #[inline(always)]
    fn at(from: usize) -> Run
        ensures { result ≡ nothing_at from }
    {
        Run {
            from,
            glyphs: from,
            width: 0,
            has_glyph: false,
            ends_sentence: false,
        }
    }

    /// With bytes more that print themselves, and end there.
    #[inline(always)]
    fn with_plain(self, bytes: &[u8], end: usize) -> Run
        requires { self.width + length bytes.now < 2 ^ 64 }
        ensures { result ≡ with_plain self bytes.now end }
    {
        Run {
            from: self.from,
            glyphs: end,
            width: self.width + bytes.len() as u64,
            has_glyph: true,
            ends_sentence: ends_sentence_behind(bytes, self.ends_sentence),
        }
    }

    /// With an item more, which ends there.
    #[inline(always)]
    fn with_item(self, what: What, end: usize) -> Run
        requires { self.width + columns what < 2 ^ 64 }
        ensures { result ≡ with_item self what end }
    {
        if !what.is_glyph() {
            return self;
        }
        Run {
            from: self.from,
            glyphs: end,
            width: self.width + what.columns() as u64,
            has_glyph: true,
            ends_sentence: ends_behind(what, self.ends_sentence),
        }
    }

    /// It is a word that ends there, behind so many blanks.
    #[inline(always)]
    fn word(self, gap: u32, to: usize) -> BlockWord
        requires order { self.from ≤ self.glyphs }
        requires last { self.glyphs ≤ to }
        requires small { to < 2 ^ 32 }
        ensures { result ≡ word_by self gap to }
    {
        BlockWord {
            breaks: false,
            gap,
            from: self.from as u32,
            to: to as u32,
            glyphs: self.glyphs as u32,
            width: self.width,
            ends_sentence: self.ends_sentence,
        }
    }
}

/// Whether a sentence ends behind a glyph.
fn ends_behind(what: What, before: bool) -> bool
    ensures { result ≡ ends_behind before what }
{
    match what {
        What::Byte(byte) => ends_sentence_behind(&[byte], before),
        What::Glyph(_) | What::Ampersand | What::NotMeasured(_) => false,
        What::Blank | What::Nothing | What::Dropped => before,
    }
}
