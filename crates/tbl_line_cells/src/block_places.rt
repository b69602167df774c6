//! Where a text block goes on behind a line of it (Lesk, "Tbl": Text Blocks).

ghost use Rattle.std.specs.Prelude.{◌≡◌, ◌<◌, ◌^◌, drop, length};
ghost use Rattle.tbl_text.specs.BlockLines.{behind_rest, lines_of};
ghost use Rattle.tbl_text.specs.BlockPlaces.{IsWithin, ReadsAll, parts_at};

use input_escapes::OpenEscapes;
use tbl_text::block_lines::{OnLine, next_on_line};
use tbl_text::block_parts::{BlockPart, BlockPlace, next_part};

/// Where a block goes on behind its next line, in a measure of so many columns: at the same place,
/// where it has none.
pub fn behind_block_line(
    escapes: &mut OpenEscapes,
    block: &[u8],
    place: BlockPlace,
    measure: u64,
) -> BlockPlace
    requires small { length block.now < 2 ^ 32 }
    requires within { IsWithin block.now place }
    ensures within { IsWithin block.now result }
    ensures all { ReadsAll place → ReadsAll result }
    ensures lines { lines_of measure (parts_at block.now result)
        ≡ drop 1 (lines_of measure (parts_at block.now place)) }
    ensures room { escapes.new.room ≡ escapes.old.room }
{
    match next_part(escapes, block, place) {
        Some((BlockPart::Word(word), behind)) => {
            behind_words(escapes, block, behind, word.begun_width(), measure)
        }
        Some((BlockPart::EmptyLine, behind)) => behind,
        None => place,
    }
}

/// The place behind what goes on with a line of this width.
fn behind_words(
    escapes: &mut OpenEscapes,
    block: &[u8],
    place: BlockPlace,
    width: u64,
    measure: u64,
) -> BlockPlace
    requires small { length block.now < 2 ^ 32 }
    requires within { IsWithin block.now place }
    ensures within { IsWithin block.now result }
    ensures all { ReadsAll place → ReadsAll result }
    ensures behind { parts_at block.now result
        ≡ behind_rest measure width (parts_at block.now place) }
    ensures room { escapes.new.room ≡ escapes.old.room }
{
    let mut at = place;
    let mut line = width;
    loop {
        match next_on_line(escapes, block, at, line, measure) {
            OnLine::Joins(_, wider, behind) => {
                at = behind;
                line = wider;
            }
            OnLine::Ends(_) => return at,
        }
    }
}
