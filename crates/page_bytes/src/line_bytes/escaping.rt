//! A line as it is printed, byte by byte as a diversion keeps it.

ghost use Rattle.std.specs.Prelude.{◌≡◌, ◌≤◌, ◌<◌, ◌++◌, ◌∷◌, [], length, take};
ghost use Rattle.page_model.specs.Columns.{finished_of, printed};
ghost use Rattle.page_model.specs.Diverted.{escaped};
ghost use Rattle.page_bytes.specs.DivertedBytes.{plain_in_front};

use super::{LineBytes, shares};
use page_model::Line;

impl<'a> LineBytes<'a> {
    /// The bytes of a line as it is printed, its trailing blanks too, and a newline.
    pub(crate) fn printed(line: Line<'a>) -> Self
        ensures { result ≡ printed (finished_of line.entry) ++ 10 ∷ [] }
    {
        let (each, rest, gaps) = shares(line.spare, line.gaps);
        LineBytes {
            text: line.text,
            blanks: u128::from(line.lead),
            passed: 0,
            each,
            rest,
            gaps,
            over: 0,
            newlines: 1,
        }
    }

    /// Takes the byte in front, and tells what a diversion keeps of it: nothing where none is left.
    pub(crate) fn take_escaped(&mut self) -> &'a [u8]
        ensures taken { result.now ++ escaped self.new ≡ escaped self.old }
        ensures some { 0 < length self.old → 0 < length result.now }
    {
        if self.take_blank() {
            return b"\\ ";
        }
        let Some((&byte, rest)) = self.text.split_first() else {
            if self.newlines == 0 {
                return b"";
            }
            self.newlines -= 1;
            return b"\n";
        };
        let (front, _) = self.text.split_at(1);
        self.text = rest;
        if byte == b'\\' {
            return b"\\e";
        }
        front
    }

    /// Takes bytes in front that a diversion keeps as they are, at most so many.
    pub(crate) fn take_plain(&mut self, most: usize) -> &'a [u8]
        ensures most { length result.now ≤ most }
        ensures taken { result.now ++ escaped self.new ≡ escaped self.old }
    {
        if self.blanks > 0 {
            return &[];
        }
        let (plain, rest) = self.text.split_at(count_of_plain(self.text, most));
        self.text = rest;
        plain
    }
}

/// How many bytes above the blank stand in front of a text before a backslash, at most so many.
pub(crate) fn count_of_plain(text: &[u8], most: usize) -> usize
    ensures text { result ≤ length text.now }
    ensures most { result ≤ most }
    ensures plain { take result text.now ≡ take most (plain_in_front text.now) }
{
    let end = most.min(text.len());
    let mut count = 0;
    while count < end && text[count] > b' ' && text[count] != b'\\' {
        count += 1;
    }
    count
}
