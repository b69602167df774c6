//! Texts that are cut to so many columns (Lesk, "Tbl": Format, the key letter `z`).

ghost use Rattle.std.specs.Prelude.{◌≡◌, ◌^◌, ◌<◌, ◌≤◌, IfSome, length, map, option_to_list};
ghost use Rattle.tbl_text.specs.BlockLines.{first_line, line_width};
ghost use Rattle.tbl_text.specs.BlockPlaces.{IsWithin, LiesBehind, parts_at, word_at};
ghost use Rattle.tbl_text.specs.Fitted.{fitting_len};
ghost use Rattle.tbl_text.specs.FittedWords.{word_fitted};

use crate::block_lines::line_begun;
use crate::block_parts::{BlockPlace, next_part};
use crate::block_words::{BlockWord, next_word};
use crate::items::next_item;
use crate::measure::behind;
use input_escapes::OpenEscapes;

/// How many bytes of a text fit in so many columns: whole items of it, and behind the last of them
/// those without width.
pub fn fitting_len(escapes: &mut OpenEscapes, text: &[u8], columns: usize) -> usize
    ensures value { result ≡ fitting_len columns text.now }
    ensures within { result ≤ length text.now }
    ensures room { escapes.new.room ≡ escapes.old.room }
{
    let mut at = 0;
    let mut left = columns;
    while at < text.len() {
        let item = next_item(escapes, behind(text, at));
        let own = item.what.columns();
        if left < own {
            return at;
        }
        left -= own;
        at += item.len;
    }
    at
}

/// A word of a block as far as it fits in so many columns, if a glyph of it does.
pub fn cut_word(
    escapes: &mut OpenEscapes,
    block: &[u8],
    word: BlockWord,
    columns: usize,
) -> Option<BlockWord>
    requires small { length block.now < 2 ^ 32 }
    requires lies { LiesBehind block.now 0 word }
    ensures word { map (word_at block.now) (option_to_list result)
        ≡ word_fitted columns (word_at block.now word) }
    ensures lies { IfSome result (LiesBehind block.now 0) }
    ensures within { IfSome result (λ cut. cut.to ≤ word.to) }
    ensures room { escapes.new.room ≡ escapes.old.room }
{
    let from = word.from as usize;
    let len = fitting_len(escapes, &block[from..word.to as usize], columns);
    match next_word(escapes, &block[..from + len], from) {
        Some(cut) => Some(with_gap_of(cut, word)),
        None => None,
    }
}

/// A word with the gap of another, behind which it stands as that does.
fn with_gap_of(cut: BlockWord, word: BlockWord) -> BlockWord
    ensures { result ≡ record cut { breaks = word.breaks; gap = word.gap } }
{
    BlockWord {
        breaks: word.breaks,
        gap: word.gap,
        ..cut
    }
}

/// The width of the line of a block that begins at a place, in columns.
pub fn line_width_at(
    escapes: &mut OpenEscapes,
    block: &[u8],
    place: BlockPlace,
    measure: u64,
) -> u64
    requires small { length block.now < 2 ^ 32 }
    requires within { IsWithin block.now place }
    ensures width { result ≡ line_width (first_line measure (parts_at block.now place)) }
    ensures room { escapes.new.room ≡ escapes.old.room }
{
    match next_part(escapes, block, place) {
        Some((part, behind)) => line_begun(escapes, block, part, behind, measure).width,
        None => 0,
    }
}
