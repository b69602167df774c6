//! The parts of a text block: its words and empty lines, as they are read in its bytes (Lesk,
//! "Tbl": Text Blocks).

ghost use Rattle.std.specs.Prelude.{◌≡◌, ◌+◌, ◌-◌, ◌^◌, ◌<◌, ◌≤◌, ◌∷◌, length, slice_range};
ghost use Rattle.std.specs.Prelude.{ℕ, Bool, List, IfSome, None, Some, map};
ghost use Rattle.tbl_text.specs.BlockPlaces.{GoesOn, IsWithin, LiesBehind, PartLies, ReadsAll};
ghost use Rattle.tbl_text.specs.BlockPlaces.{WordGoesOn, gap_in, left_at, left_from, line_behind};
ghost use Rattle.tbl_text.specs.BlockPlaces.{lines_from, parts_at, parts_first, parts_of_word};
ghost use Rattle.tbl_text.specs.BlockPlaces.{parts_with, parts_within, place_within, word_at};
ghost use Rattle.tbl_text.specs.BlockRuns.{joined_word};
ghost use Rattle.tbl_text.specs.BlockWords.{is_empty_line, is_request, lines_in, parts_behind};
ghost use Rattle.tbl_text.specs.BlockWords.{OneWord, parts_of};
ghost use Rattle.tbl_text.specs.FittedWords.{word_fitted};

use crate::block_words::{BlockWord, next_word};
use crate::fitted::cut_word;
use input_escapes::OpenEscapes;
use input_source::is_dropped;
use memchr::memchr;

/// Where a text block is read, in its bytes.
#[derive(Clone, Copy)]
pub enum BlockPlace {
    /// At the beginning of a line, which stands there. If a word stands before it that its first
    /// one may stand behind, whether that word ends a sentence.
    AtLine(u32, Option<bool>),
    /// Behind a word of a line: there, where the line ends, and whether the word ends a sentence.
    Behind(u32, u32, bool),
    /// Behind the last line.
    AtEnd,
    /// At the beginning of a line, from which words are read as far as they fit in a room.
    AtLineWithin(u32, Option<bool>, Room),
    /// Behind a word of a line, from which words are read so.
    BehindWithin(u32, u32, bool, Room),
}

/// What is left of a line of a block that is cut.
#[derive(Clone, Copy)]
pub struct Room {
    /// How many columns it has still.
    pub columns: u32,
    /// Whether the next word begins it.
    pub is_first: bool,
}

/// What a text block has next.
#[derive(Clone, Copy)]
pub enum BlockPart {
    /// An empty line, or one of blanks alone.
    EmptyLine,
    /// A word.
    Word(BlockWord),
}

impl BlockPlace {
    /// Where a block begins whose lines lie in its bytes behind each other, with a newline between
    /// two of them. Where a block has no line, it begins at [`BlockPlace::AtEnd`].
    pub fn first() -> BlockPlace
        ensures parts { (bytes : List ℕ) → parts_at bytes result ≡ parts_of (lines_in bytes) }
        ensures within { (bytes : List ℕ) → IsWithin bytes result }
        ensures all { ReadsAll result }
    {
        BlockPlace::AtLine(0, None)
    }

    /// This place, with words read from it as far as they fit in a room. A place from which they
    /// are read so already stays.
    pub fn within(self, room: Room) -> BlockPlace
        ensures { result ≡ place_within room self }
    {
        match self {
            BlockPlace::AtLine(line, before) => BlockPlace::AtLineWithin(line, before, room),
            BlockPlace::Behind(at, end, ends_sentence) => {
                BlockPlace::BehindWithin(at, end, ends_sentence, room)
            }
            other => other,
        }
    }
}

/// What a text block has next at a place, and the place behind that. A block that has no line ends
/// where it begins.
pub fn next_part(
    escapes: &mut OpenEscapes,
    bytes: &[u8],
    place: BlockPlace,
) -> Option<(BlockPart, BlockPlace)>
    requires small { length bytes.now < 2 ^ 32 }
    requires within { IsWithin bytes.now place }
    ensures parts { parts_at bytes.now place ≡ parts_with bytes.now result }
    ensures on { IfSome result (GoesOn bytes.now (left_at bytes.now place)) }
    ensures all { ReadsAll place → IfSome result (λ next. ReadsAll next.1) }
    ensures room { escapes.new.room ≡ escapes.old.room }
{
    match place {
        BlockPlace::AtLine(line, before) => {
            part_of_lines(escapes, bytes, Some(line as usize), before)
        }
        BlockPlace::Behind(at, end, ends_sentence) => {
            part_behind(escapes, bytes, at, end, ends_sentence)
        }
        BlockPlace::AtEnd => None,
        BlockPlace::AtLineWithin(line, before, room) => {
            let part = part_of_lines(escapes, bytes, Some(line as usize), before);
            part_within(escapes, bytes, part, room)
        }
        BlockPlace::BehindWithin(at, end, ends_sentence, room) => {
            let part = part_behind(escapes, bytes, at, end, ends_sentence);
            part_within(escapes, bytes, part, room)
        }
    }
}

/// What comes next as far as it fits in a room: of a word that doesn't fit whole as much as does.
// Lines of blocks are rarely cut.
#[inline(never)]
fn part_within(
    escapes: &mut OpenEscapes,
    bytes: &[u8],
    part: Option<(BlockPart, BlockPlace)>,
    room: Room,
) -> Option<(BlockPart, BlockPlace)>
    requires small { length bytes.now < 2 ^ 32 }
    requires lies { IfSome part (λ next. PartLies bytes.now next.0) }
    requires within { IfSome part (λ next. IsWithin bytes.now next.1) }
    requires all { IfSome part (λ next. ReadsAll next.1) }
    ensures parts { parts_within room (parts_with bytes.now part) ≡ parts_with bytes.now result }
    ensures on { (left : ℕ) → IfSome part (GoesOn bytes.now left)
        → IfSome result (GoesOn bytes.now left) }
    ensures room { escapes.new.room ≡ escapes.old.room }
{
    match part {
        Some((BlockPart::Word(word), behind)) => word_within(escapes, bytes, word, behind, room),
        Some((BlockPart::EmptyLine, behind)) => Some((BlockPart::EmptyLine, behind)),
        None => None,
    }
}

/// A word as far as it fits in a room, and the place behind it.
fn word_within(
    escapes: &mut OpenEscapes,
    bytes: &[u8],
    word: BlockWord,
    behind: BlockPlace,
    room: Room,
) -> Option<(BlockPart, BlockPlace)>
    requires small { length bytes.now < 2 ^ 32 }
    requires lies { LiesBehind bytes.now 0 word }
    requires within { IsWithin bytes.now behind }
    requires all { ReadsAll behind }
    ensures parts { parts_within room
        (OneWord (word_at bytes.now word) ∷ parts_at bytes.now behind)
        ≡ parts_with bytes.now result }
    ensures on { (left : ℕ) → left_at bytes.now behind < left
        → IfSome result (GoesOn bytes.now left) }
    ensures room { escapes.new.room ≡ escapes.old.room }
{
    let gap = word.gap_in(room);
    let columns = u64::from(room.columns);
    if columns < gap {
        return None;
    }
    let end = gap + word.width;
    if columns < end {
        return cut_part(escapes, bytes, word, (columns - gap) as usize);
    }
    let rest = Room {
        columns: (columns - end) as u32,
        is_first: false,
    };
    Some((BlockPart::Word(word), behind.within(rest)))
}

/// What of a word fits in so many columns, and nothing behind it.
fn cut_part(
    escapes: &mut OpenEscapes,
    bytes: &[u8],
    word: BlockWord,
    columns: usize,
) -> Option<(BlockPart, BlockPlace)>
    requires small { length bytes.now < 2 ^ 32 }
    requires lies { LiesBehind bytes.now 0 word }
    ensures parts { map OneWord (word_fitted columns (word_at bytes.now word))
        ≡ parts_with bytes.now result }
    ensures on { (left : ℕ) → 0 < left → IfSome result (GoesOn bytes.now left) }
    ensures room { escapes.new.room ≡ escapes.old.room }
{
    match cut_word(escapes, bytes, word, columns) {
        Some(cut) => Some((BlockPart::Word(cut), BlockPlace::AtEnd)),
        None => None,
    }
}

impl BlockWord {
    /// The blanks in front of the word, by whether it begins what is left of a line.
    fn gap_in(self, room: Room) -> u64
        ensures value { result ≡ gap_in room self }
        ensures few { result ≤ self.gap }
    {
        if room.is_first {
            return u64::from(self.leading());
        }
        u64::from(self.gap)
    }
}

/// The next word behind another one of a line that ends there, if the line has one.
#[inline(always)]
pub(crate) fn word_behind(
    escapes: &mut OpenEscapes,
    bytes: &[u8],
    at: u32,
    end: u32,
) -> Option<BlockWord>
    requires small { length bytes.now < 2 ^ 32 }
    requires order { at ≤ end }
    requires within { end ≤ length bytes.now }
    ensures parts { (ends : Bool) → parts_at bytes.now (BlockPlace.Behind at end ends)
        ≡ parts_of_word bytes.now end ends result }
    ensures on { IfSome result (WordGoesOn bytes.now (length bytes.now - at + 1) end) }
    ensures room { escapes.new.room ≡ escapes.old.room }
{
    next_word(escapes, &bytes[..end as usize], at as usize)
}

/// What comes next behind a word of a line that ends there, and the place behind that.
fn part_behind(
    escapes: &mut OpenEscapes,
    bytes: &[u8],
    at: u32,
    end: u32,
    ends_sentence: bool,
) -> Option<(BlockPart, BlockPlace)>
    requires small { length bytes.now < 2 ^ 32 }
    requires order { at ≤ end }
    requires within { end ≤ length bytes.now }
    ensures parts { parts_at bytes.now (BlockPlace.Behind at end ends_sentence)
        ≡ parts_with bytes.now result }
    ensures on { IfSome result (GoesOn bytes.now (length bytes.now - at + 1)) }
    ensures all { IfSome result (λ next. ReadsAll next.1) }
    ensures room { escapes.new.room ≡ escapes.old.room }
{
    match word_behind(escapes, bytes, at, end) {
        Some(word) => {
            let behind = BlockPlace::Behind(word.to, end, word.ends_sentence);
            Some((BlockPart::Word(word), behind))
        }
        None => {
            let line = line_behind(bytes, end as usize);
            part_of_lines(escapes, bytes, line, Some(ends_sentence))
        }
    }
}

/// What comes next from a line on, if one begins there, and the place behind that.
#[inline(never)]
fn part_of_lines(
    escapes: &mut OpenEscapes,
    bytes: &[u8],
    line: Option<usize>,
    before: Option<bool>,
) -> Option<(BlockPart, BlockPlace)>
    requires small { length bytes.now < 2 ^ 32 }
    requires within { IfSome line (λ at. at ≤ length bytes.now) }
    ensures parts { parts_behind before (lines_from bytes.now line) ≡ parts_with bytes.now result }
    ensures on { IfSome result (GoesOn bytes.now (left_from bytes.now line)) }
    ensures all { IfSome result (λ next. ReadsAll next.1) }
    ensures room { escapes.new.room ≡ escapes.old.room }
{
    let mut next = line;
    while let Some(at) = next {
        let end = line_end(bytes, at);
        if let Some(part) = part_of_line(escapes, bytes, at, end, before) {
            return Some(part);
        }
        next = line_behind(bytes, end);
    }
    None
}

/// What a line gives first that stands there: a request gives nothing, nor does a line without a
/// glyph that isn't one of blanks alone.
fn part_of_line(
    escapes: &mut OpenEscapes,
    bytes: &[u8],
    line: usize,
    end: usize,
    before: Option<bool>,
) -> Option<(BlockPart, BlockPlace)>
    requires small { length bytes.now < 2 ^ 32 }
    requires order { line ≤ end }
    requires within { end ≤ length bytes.now }
    ensures parts { let behind = lines_from bytes.now (line_behind bytes.now end) in
        parts_behind before (slice_range bytes.now line end ∷ behind)
        ≡ parts_first bytes.now (parts_behind before behind) result }
    ensures on { IfSome result (GoesOn bytes.now (length bytes.now - line + 1)) }
    ensures all { IfSome result (λ next. ReadsAll next.1) }
    ensures room { escapes.new.room ≡ escapes.old.room }
{
    let text = &bytes[line..end];
    if is_request(text) {
        return None;
    }
    if is_empty_line(text) {
        return Some((BlockPart::EmptyLine, behind_empty_line(bytes, end)));
    }
    match next_word(escapes, &bytes[..end], line) {
        Some(word) => {
            let behind = BlockPlace::Behind(word.to, end as u32, word.ends_sentence);
            Some((BlockPart::Word(joined_word(before, word)), behind))
        }
        None => None,
    }
}

/// Where a line ends that stands there.
fn line_end(bytes: &[u8], line: usize) -> usize
    requires { line ≤ length bytes.now }
    ensures order { line ≤ result }
    ensures within { result ≤ length bytes.now }
    ensures lines { lines_from bytes.now (Some line)
        ≡ slice_range bytes.now line result ∷ lines_from bytes.now (line_behind bytes.now result) }
{
    match memchr(b'\n', &bytes[line..]) {
        Some(len) => line + len,
        None => bytes.len(),
    }
}

/// Where the line begins behind one that ends there, if one does.
#[inline(always)]
fn line_behind(bytes: &[u8], end: usize) -> Option<usize>
    ensures { result ≡ line_behind bytes.now end }
{
    if end < bytes.len() {
        Some(end + 1)
    } else {
        None
    }
}

/// The place behind an empty line that ends there.
fn behind_empty_line(bytes: &[u8], end: usize) -> BlockPlace
    requires small { length bytes.now < 2 ^ 32 }
    requires within { end ≤ length bytes.now }
    ensures parts { parts_at bytes.now result
        ≡ parts_behind None (lines_from bytes.now (line_behind bytes.now end)) }
    ensures within { IsWithin bytes.now result }
    ensures less { left_at bytes.now result ≤ length bytes.now - end }
    ensures all { ReadsAll result }
{
    match line_behind(bytes, end) {
        Some(line) => BlockPlace::AtLine(line as u32, None),
        None => BlockPlace::AtEnd,
    }
}

/// Whether a line of a block is a request, which is passed over: it begins with a dot.
pub fn is_request(line: &[u8]) -> bool
    ensures { result ≡ is_request line.now }
{
    matches!(line, [b'.', ..])
}

/// Whether a line has blanks alone, where control bytes that are dropped aren't there.
fn is_empty_line(line: &[u8]) -> bool
    ensures { result ≡ is_empty_line line.now }
{
    for byte in line {
        if *byte != b' ' && !is_dropped(*byte) {
            return false;
        }
    }
    true
}

/// A word as the first one of a line, behind what is known of the word before it: if it may stand
/// behind that, whether that ends a sentence.
fn joined_word(before: Option<bool>, word: BlockWord) -> BlockWord
    ensures { result ≡ joined_word before word }
{
    match before {
        Some(ends_sentence) if word.gap == 0 => BlockWord {
            gap: if ends_sentence { 2 } else { 1 },
            ..word
        },
        _ => BlockWord {
            breaks: true,
            ..word
        },
    }
}
