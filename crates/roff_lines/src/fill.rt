//! Words that are measured, and the first line that they fill.

ghost use Rattle.std.specs.Prelude.{◌≡◌, ◌-◌, ◌^◌, List, length, min};
ghost use Rattle.std.specs.Iterator.{DrainsIf, IsFinite};
ghost use Rattle.roff_lines.specs.Clauses.{MeasuredWord, first_line_count, width_with};

/// A word that is filled into lines: the blanks of the gap before it and its own width, in columns.
#[derive(Clone, Copy)]
pub struct Word {
    /// The blanks of the gap before the word.
    pub gap: u64,
    /// The width of the word.
    pub width: u64,
}

/// How many of some words the first line takes, in a measure of so many columns: 0 of none.
///
/// No word is taken behind the first one that doesn't fit. No more than `usize::MAX` are counted.
pub fn fill_words<I: Iterator<Item = Word>>(words: I, measure: u64) -> usize
    requires can { I.can_next words }
    requires ends { IsFinite (I.remaining words) }
    ensures { (taken : List MeasuredWord)
        × DrainsIf I.next_gives (first_line_count measure taken ≡ length taken) words taken
        × (result ≡ min (first_line_count measure taken) (2 ^ 64 - 1)) }
{
    let mut count: usize = 0;
    let mut line = None;
    for word in words {
        match width_of_line(line, word, measure) {
            Some(width) => line = Some(width),
            None => return count,
        }
        count = count.saturating_add(1);
    }
    count
}

/// The width of a line with a word more, if it fits there; the first word always does.
pub fn width_of_line(line: Option<u64>, word: Word, measure: u64) -> Option<u64>
    ensures { result ≡ width_with measure line word }
{
    let Some(width) = line else {
        return Some(word.width);
    };
    let wider = u128::from(width) + u128::from(word.gap) + u128::from(word.width);
    if wider <= u128::from(measure) {
        Some(wider as u64)
    } else {
        None
    }
}
