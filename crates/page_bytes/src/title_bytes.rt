//! A title as it is printed, byte by byte as a diversion keeps it.

ghost use Rattle.std.specs.Prelude.{◌≡◌, ◌+◌, ◌<◌, ◌≤◌, ◌^◌, ◌++◌, ◌∷◌, [], length, true, false};
ghost use Rattle.page_model.specs.Columns.{spaces};
ghost use Rattle.page_model.specs.Diverted.{escaped, escaped_byte};
ghost use Rattle.page_model.specs.Glyphs.{text_width};
ghost use Rattle.page_model.specs.Titles.{part_text, title_text};
ghost use Rattle.page_bytes.specs.TitleLeft.{title_of};
ghost use Rattle.page_bytes.specs.TitleParts.{HasNoBlank};

use crate::line_bytes::count_of_plain;
use crate::title::{TitleLine, gaps_in_title};
use crate::title_part::{PartText, TitlePiece, width_of_part};

/// What is left of the three parts of a title, with the blanks in front of each.
#[derive(Drop)]
pub(crate) struct PartsText<'a> {
    left: PartText<'a>,
    centre: PartText<'a>,
    right: PartText<'a>,
}

/// What is left of a title as it is printed, its trailing blanks too, and of its newline.
#[derive(Drop)]
pub(crate) struct TitleBytes<'a> {
    /// Blanks that come first.
    blanks: u128,
    /// The bytes behind them.
    glyphs: &'a [u8],
    /// What comes behind these.
    parts: PartsText<'a>,
    /// How many newlines come at last.
    newlines: u64,
}

impl<'a> PartsText<'a> {
    ghost use Rattle.page_bytes.specs.TitleBytes.{parts_left};

    /// Takes blanks and the bytes behind them; neither only where nothing is left.
    fn take(&mut self) -> TitlePiece<'a>
        ensures taken { spaces result.blanks ++ (result.glyphs.now ++ parts_left self.new)
            ≡ parts_left self.old }
        ensures end { result.blanks + length result.glyphs.now ≡ 0 → parts_left self.new ≡ [] }
    {
        let left = self.left.take();
        if is_some(left) {
            return left;
        }
        let centre = self.centre.take();
        if is_some(centre) {
            return centre;
        }
        self.right.take()
    }
}

/// Whether a piece has anything.
fn is_some(piece: TitlePiece<'_>) -> bool
    ensures some { result ≡ true → 0 < piece.entry.blanks + length piece.entry.glyphs.now }
    ensures none { result ≡ false → piece.entry.blanks + length piece.entry.glyphs.now ≡ 0 }
{
    piece.blanks > 0 || !piece.glyphs.is_empty()
}

impl<'a> TitleBytes<'a> {
    ghost use Rattle.page_bytes.specs.TitleBytes.{bytes_of_title, parts_left};

    /// The bytes of a title, and a newline.
    pub(crate) fn of(title: TitleLine<'a>) -> Self
        requires some { 0 < length title.number.now }
        requires shown { HasNoBlank title.number.now }
        requires width { let number = title.number.now in
            text_width (part_text number title.left.now)
            + text_width (part_text number title.centre.now)
            + text_width (part_text number title.right.now) + title.length < 2 ^ 64 }
        ensures { bytes_of_title result ≡ title_text (title_of title.entry) ++ 10 ∷ [] }
    {
        let (centre_gap, right_gap) = title_gaps(title);
        TitleBytes {
            blanks: 0,
            glyphs: &[],
            parts: PartsText {
                left: PartText::of(0, title.left, title.number),
                centre: PartText::of(centre_gap, title.centre, title.number),
                right: PartText::of(right_gap, title.right, title.number),
            },
            newlines: 1,
        }
    }

    /// Takes the blanks in front, at most so many, and tells how many.
    pub(crate) fn take_blanks(&mut self, most: usize) -> usize
        ensures most { result ≤ most }
        ensures taken { spaces result ++ bytes_of_title self.new ≡ bytes_of_title self.old }
    {
        let count = self.blanks.min(most as u128);
        self.blanks -= count;
        count as usize
    }

    /// Takes bytes in front that a diversion keeps as they are, at most so many.
    pub(crate) fn take_plain(&mut self, most: usize) -> &'a [u8]
        ensures most { length result.now ≤ most }
        ensures taken { result.now ++ escaped (bytes_of_title self.new)
            ≡ escaped (bytes_of_title self.old) }
    {
        if self.blanks > 0 {
            return &[];
        }
        let (plain, rest) = self.glyphs.split_at(count_of_plain(self.glyphs, most));
        self.glyphs = rest;
        plain
    }

    /// Takes the byte in front, and tells what a diversion keeps of it: nothing where none is left.
    pub(crate) fn take_escaped(&mut self) -> &'a [u8]
        ensures taken { result.now ++ escaped (bytes_of_title self.new)
            ≡ escaped (bytes_of_title self.old) }
        ensures some { 0 < length (bytes_of_title self.old) → 0 < length result.now }
    {
        self.fetch();
        if self.blanks > 0 {
            self.blanks -= 1;
            return b"\\ ";
        }
        let Some((&byte, rest)) = self.glyphs.split_first() else {
            if self.newlines == 0 {
                return b"";
            }
            self.newlines -= 1;
            return b"\n";
        };
        let (front, _) = self.glyphs.split_at(1);
        self.glyphs = rest;
        escaped_byte(byte, front)
    }

    /// Has a piece of what is left in front, if there is one.
    fn fetch(&mut self)
        ensures same { bytes_of_title self.new ≡ bytes_of_title self.old }
        ensures end { self.new.blanks + length self.new.glyphs.now ≡ 0
            → parts_left self.new.parts ≡ [] }
    {
        if self.blanks > 0 || !self.glyphs.is_empty() {
            return;
        }
        let piece = self.parts.take();
        self.blanks = piece.blanks;
        self.glyphs = piece.glyphs;
    }
}

/// How many blanks stand in front of a title's centre, and in front of its right part.
pub(crate) fn title_gaps(title: TitleLine<'_>) -> (u64, u64)
    requires some { 0 < length title.number.now }
    requires width { let number = title.number.now in
        text_width (part_text number title.left.now)
        + text_width (part_text number title.centre.now)
        + text_width (part_text number title.right.now) + title.length < 2 ^ 64 }
    ensures { let t = title_of title.entry in
        part_text t.number t.left ++ ((spaces result.0 ++ part_text t.number t.centre)
        ++ (spaces result.1 ++ part_text t.number t.right))
        ≡ title_text (title_of title.entry) }
{
    let left = width_of_part(title.left, title.number);
    let centre = width_of_part(title.centre, title.number);
    let right = width_of_part(title.right, title.number);
    gaps_in_title(title, left, centre, right)
}

/// What a diversion keeps of a byte, told also as a text.
fn escaped_byte<'a>(byte: u8, front: &'a [u8]) -> &'a [u8]
    requires { front.now ≡ byte ∷ [] }
    ensures { result.now ≡ escaped_byte byte }
{
    if byte == b' ' {
        return b"\\ ";
    }
    if byte == b'\\' {
        return b"\\e";
    }
    front
}
