//! The lines that the words of a text block fill (Lesk, "Tbl": Text Blocks).

ghost use Rattle.std.specs.Prelude.{◌≡◌, ◌+◌, ◌*◌, ◌^◌, ◌<◌, ◌≤◌, ◌∷◌, length, max, IfSome, ◌-◌};
ghost use Rattle.std.specs.Prelude.{◌||◌};
ghost use Rattle.tbl_text.specs.BlockLines.{behind_first, behind_rest, first_line, has_word};
ghost use Rattle.tbl_text.specs.BlockLines.{line_width, lines_of, rest_of_line, widest};
ghost use Rattle.tbl_text.specs.BlockLines.{width_behind};
ghost use Rattle.tbl_text.specs.BlockPlaces.{GoesOn, IsWithin, LiesBehind, PartLies, ReadsAll};
ghost use Rattle.tbl_text.specs.BlockPlaces.{left_at};
ghost use Rattle.tbl_text.specs.BlockPlaces.{part_at, parts_at, parts_with};
ghost use Rattle.tbl_text.specs.FilledLines.{IsWidened, LineGoesOn, LineReadsAll, behind_with};
ghost use Rattle.tbl_text.specs.FilledLines.{is_word, joined_width, leading_of, line_with};
ghost use Rattle.tbl_text.specs.FilledLines.{word_on_line};

use crate::block_parts::{BlockPart, BlockPlace, next_part, word_behind};
use crate::block_words::BlockWord;
use input_escapes::OpenEscapes;
use roff_lines::{Word, width_of_line};

/// What comes next on a line of a block.
#[derive(Clone, Copy)]
pub enum OnLine {
    /// A word that goes on with the line, the line's width with it, in columns, and the place
    /// behind it.
    Joins(BlockWord, u64, BlockPlace),
    /// The line ends: what comes next in the block, and the place behind that.
    Ends(Option<(BlockPart, BlockPlace)>),
}

/// A line of a block, as it ends.
#[derive(Clone, Copy)]
pub struct LineEnd {
    /// Its width, in columns.
    pub width: u64,
    /// What comes next in the block, and the place behind that.
    pub next: Option<(BlockPart, BlockPlace)>,
}

/// What a block is, filled.
#[derive(Clone, Copy)]
pub struct Filled {
    /// How many lines it has.
    pub lines: usize,
    /// The width of the widest, in columns.
    pub width: u64,
    /// Whether it has a word.
    pub has_word: bool,
}

/// Fills what is left of a block at a place, in a measure of so many columns.
pub fn fill(escapes: &mut OpenEscapes, bytes: &[u8], place: BlockPlace, measure: u64) -> Filled
    requires small { length bytes.now < 2 ^ 32 }
    requires within { IsWithin bytes.now place }
    ensures lines { result.lines ≡ length (lines_of measure (parts_at bytes.now place)) }
    ensures width { result.width ≡ widest (lines_of measure (parts_at bytes.now place)) }
    ensures word { result.has_word ≡ has_word (parts_at bytes.now place) }
    ensures few { result.lines ≤ length bytes.now + 1 }
    ensures narrow { result.width ≤ max measure (2 * length bytes.now + 2) }
    ensures room { escapes.new.room ≡ escapes.old.room }
{
    let mut filled = Filled {
        lines: 0,
        width: 0,
        has_word: false,
    };
    let mut next = next_part(escapes, bytes, place);
    while let Some((part, behind)) = next {
        let line = line_begun(escapes, bytes, part, behind, measure);
        filled = filled.with_line(part, line.width);
        next = line.next;
    }
    filled
}

impl Filled {
    /// With a line more, which a part begins.
    #[inline(always)]
    fn with_line(self, part: BlockPart, width: u64) -> Filled
        requires { self.lines < 2 ^ 64 - 1 }
        ensures lines { result.lines ≡ self.lines + 1 }
        ensures width { result.width ≡ max self.width width }
        ensures word { result.has_word ≡ (self.has_word || is_word part) }
    {
        Filled {
            lines: self.lines + 1,
            width: self.width.max(width),
            has_word: self.has_word || matches!(part, BlockPart::Word(_)),
        }
    }
}

/// The line that a part of a block begins, of which so much is left behind the part.
#[inline(always)]
pub fn line_begun(
    escapes: &mut OpenEscapes,
    bytes: &[u8],
    part: BlockPart,
    behind: BlockPlace,
    measure: u64,
) -> LineEnd
    requires small { length bytes.now < 2 ^ 32 }
    requires lies { PartLies bytes.now part }
    requires within { IsWithin bytes.now behind }
    ensures width { let parts = part_at bytes.now part ∷ parts_at bytes.now behind in
        result.width ≡ line_width (first_line measure parts) }
    ensures behind { let parts = part_at bytes.now part ∷ parts_at bytes.now behind in
        behind_first measure parts ≡ parts_with bytes.now result.next }
    ensures narrow { result.width ≤ max measure (2 * length bytes.now + 2) }
    ensures on { IfSome result.next (GoesOn bytes.now (left_at bytes.now behind)) }
    ensures room { escapes.new.room ≡ escapes.old.room }
{
    match part {
        BlockPart::EmptyLine => LineEnd {
            width: 0,
            next: next_part(escapes, bytes, behind),
        },
        BlockPart::Word(word) => {
            rest_of_line(escapes, bytes, behind, word.begun_width(), measure)
        }
    }
}

/// What goes on with a line of this width, from a place on.
#[inline(always)]
pub fn rest_of_line(
    escapes: &mut OpenEscapes,
    bytes: &[u8],
    place: BlockPlace,
    width: u64,
    measure: u64,
) -> LineEnd
    requires small { length bytes.now < 2 ^ 32 }
    requires within { IsWithin bytes.now place }
    ensures width { let rest = rest_of_line measure width (parts_at bytes.now place) in
        result.width ≡ width_behind width rest }
    ensures behind { behind_rest measure width (parts_at bytes.now place)
        ≡ parts_with bytes.now result.next }
    ensures narrow { result.width ≤ max width measure }
    ensures on { IfSome result.next (GoesOn bytes.now (left_at bytes.now place)) }
    ensures room { escapes.new.room ≡ escapes.old.room }
{
    let mut at = place;
    let mut line = width;
    loop {
        match next_on_line(escapes, bytes, at, line, measure) {
            OnLine::Joins(_, wider, behind) => {
                at = behind;
                line = wider;
            }
            OnLine::Ends(next) => return LineEnd { width: line, next },
        }
    }
}

/// What comes next on a line of this width, from a place on.
#[inline(always)]
pub fn next_on_line(
    escapes: &mut OpenEscapes,
    bytes: &[u8],
    place: BlockPlace,
    width: u64,
    measure: u64,
) -> OnLine
    requires small { length bytes.now < 2 ^ 32 }
    requires within { IsWithin bytes.now place }
    ensures line { rest_of_line measure width (parts_at bytes.now place)
        ≡ line_with bytes.now measure result }
    ensures behind { behind_rest measure width (parts_at bytes.now place)
        ≡ behind_with bytes.now measure result }
    ensures width { IsWidened measure width result }
    ensures on { LineGoesOn bytes.now (left_at bytes.now place) result }
    ensures all { ReadsAll place → LineReadsAll result }
    ensures room { escapes.new.room ≡ escapes.old.room }
{
    match place {
        // Most words stand behind another one on their own line.
        BlockPlace::Behind(at, end, _) => match word_behind(escapes, bytes, at, end) {
            Some(word) => {
                let behind = BlockPlace::Behind(word.to, end, word.ends_sentence);
                word_on_line(word, behind, width, measure)
            }
            None => part_on_line(escapes, bytes, place, width, measure),
        },
        _ => part_on_line(escapes, bytes, place, width, measure),
    }
}

/// What comes next on a line of this width, from any place on: a word, an empty line, or nothing.
fn part_on_line(
    escapes: &mut OpenEscapes,
    bytes: &[u8],
    place: BlockPlace,
    width: u64,
    measure: u64,
) -> OnLine
    requires small { length bytes.now < 2 ^ 32 }
    requires within { IsWithin bytes.now place }
    ensures line { rest_of_line measure width (parts_at bytes.now place)
        ≡ line_with bytes.now measure result }
    ensures behind { behind_rest measure width (parts_at bytes.now place)
        ≡ behind_with bytes.now measure result }
    ensures width { IsWidened measure width result }
    ensures on { LineGoesOn bytes.now (left_at bytes.now place) result }
    ensures all { ReadsAll place → LineReadsAll result }
    ensures room { escapes.new.room ≡ escapes.old.room }
{
    match next_part(escapes, bytes, place) {
        Some((BlockPart::Word(word), behind)) => word_on_line(word, behind, width, measure),
        Some((BlockPart::EmptyLine, behind)) => OnLine::Ends(Some((BlockPart::EmptyLine, behind))),
        None => OnLine::Ends(None),
    }
}

/// What comes next on a line of this width, told the word that does and the place behind it. The
/// line ends in front of a word that doesn't fit.
#[inline(always)]
fn word_on_line(word: BlockWord, behind: BlockPlace, width: u64, measure: u64) -> OnLine
    ensures { result ≡ word_on_line measure width word behind }
{
    match word.joined_width(width, measure) {
        Some(wider) => OnLine::Joins(word, wider, behind),
        None => OnLine::Ends(Some((BlockPart::Word(word), behind))),
    }
}

impl BlockWord {
    /// The blanks in front of the word where it begins a line.
    #[inline(always)]
    pub fn leading(self) -> u32
        ensures { result ≡ leading_of self }
    {
        if self.breaks { self.gap } else { 0 }
    }

    /// The width of a line that it begins, in columns.
    #[inline(always)]
    pub fn begun_width(self) -> u64
        requires { self.gap + self.width < 2 ^ 64 }
        ensures { result ≡ leading_of self + self.width }
    {
        u64::from(self.leading()) + self.width
    }

    /// The width of a line of this width with the word more, if the word goes on with it.
    #[inline(always)]
    pub fn joined_width(self, width: u64, measure: u64) -> Option<u64>
        ensures { result ≡ joined_width measure width self }
    {
        if self.breaks {
            return None;
        }
        let word = Word {
            gap: u64::from(self.gap),
            width: self.width,
        };
        width_of_line(Some(width), word, measure)
    }
}
