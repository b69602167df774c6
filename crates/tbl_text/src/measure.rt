//! What a text of a table measures, and where a number splits (Lesk, "Tbl": the key letter `n`).

ghost use Rattle.std.specs.Prelude.{◌≡◌, ◌+◌, ◌*◌, ◌<◌, ◌≤◌, ◌^◌, drop, false, true, length};
ghost use Rattle.std.specs.Prelude.{map, ◌++◌, IfNone, IfSome, option_to_list};
ghost use Rattle.std.specs.Option.{option_or};
ghost use Rattle.tbl_text.specs.Items.{columns, items};
ghost use Rattle.tbl_text.specs.Laws.{ArePlain, byte_item};
ghost use Rattle.tbl_text.specs.MeasuredSoFar.{ampersand_split, behind_glyphs, byte_split};
ghost use Rattle.tbl_text.specs.MeasuredSoFar.{item_split, measured_behind, shown, split_between};
ghost use Rattle.tbl_text.specs.Measuring.{SplitLies, len_of, measured, notes_from};
ghost use Rattle.tbl_text.specs.Measuring.{up_to_last_glyph, width_of};

use crate::items::{Item, What, next_item};
use crate::plain::{plain_glyphs, plain_in_front};
use input_escapes::OpenEscapes;
use input_source::is_dropped;

/// Where a number is split in two.
#[derive(Clone, Copy)]
pub struct Split {
    /// The width of its left part, in columns.
    pub left: usize,
    /// Where its left part ends in the text.
    pub end: usize,
    /// Where its right part begins: behind the `\&` that splits it.
    pub behind: usize,
}

/// What a text measures.
#[derive(Clone, Copy)]
pub struct Measured {
    /// Its columns.
    pub width: usize,
    /// How many of its bytes reach up to its last glyph. The `\&` that splits a number is none.
    pub glyphs: usize,
    /// Where it is split, if it is a number that has a digit or a `\&`.
    pub split: Option<Split>,
    /// Whether an item of it isn't measured, and is told.
    pub has_notes: bool,
}

/// What a text measures; as a number or not.
#[inline]
pub fn measure(escapes: &mut OpenEscapes, text: &[u8], is_number: bool) -> Measured
    ensures value { result ≡ measured is_number text.now }
    ensures width { result.width ≤ length text.now }
    ensures glyphs { result.glyphs ≤ length text.now }
    ensures split { IfSome result.split (SplitLies (length text.now) result.width) }
    ensures room { escapes.new.room ≡ escapes.old.room }
{
    if is_number {
        measure_number(escapes, text)
    } else {
        measure_text(escapes, text)
    }
}

/// What a text measures that is no number. Bytes that print themselves are taken at once.
fn measure_text(escapes: &mut OpenEscapes, text: &[u8]) -> Measured
    ensures value { result ≡ measured false text.now }
    ensures width { result.width ≤ length text.now }
    ensures glyphs { result.glyphs ≤ length text.now }
    ensures room { escapes.new.room ≡ escapes.old.room }
{
    let mut measuring = Measuring::NOTHING;
    while measuring.at < text.len() {
        let rest = behind(text, measuring.at);
        let front = plain_in_front(rest);
        if front.len > 0 {
            measuring.take_plain(&rest[..front.len], front.width);
        } else {
            measuring.take(next_item(escapes, rest));
        }
    }
    measuring.measured(None)
}

/// What a number measures, item by item.
fn measure_number(escapes: &mut OpenEscapes, text: &[u8]) -> Measured
    ensures value { result ≡ measured true text.now }
    ensures width { result.width ≤ length text.now }
    ensures glyphs { result.glyphs ≤ length text.now }
    ensures room { escapes.new.room ≡ escapes.old.room }
{
    let mut measuring = Measuring::NOTHING;
    let mut splitting = Splitting::NOTHING;
    while measuring.at < text.len() {
        let rest = behind(text, measuring.at);
        let item = next_item(escapes, rest);
        let shown = splitting.take(measuring.at, measuring.width, rest[0], item);
        measuring.take(shown);
    }
    measuring.measured(splitting.split())
}

/// A text from a place on.
#[inline(always)]
pub(crate) fn behind(text: &[u8], at: usize) -> &[u8]
    requires { at ≤ length text.now }
    ensures { result.now ≡ drop at text.now }
{
    &text[at..]
}

/// What the items of a text measure, as far as it is read.
#[derive(Clone, Copy)]
pub(crate) struct Measuring {
    /// How many bytes are read.
    pub(crate) at: usize,
    /// The columns of their items.
    pub(crate) width: usize,
    /// How many of them reach up to the last glyph.
    pub(crate) glyphs: usize,
    /// Whether an item of them is told.
    pub(crate) has_notes: bool,
}

impl Measuring {
    /// Nothing is read.
    const NOTHING: Measuring = Measuring {
        at: 0,
        width: 0,
        glyphs: 0,
        has_notes: false,
    };

    /// One item more.
    #[inline(always)]
    fn take(&mut self, item: Item)
        requires at { self.old.at + item.len < 2 ^ 64 }
        requires width { self.old.width + columns item.what < 2 ^ 64 }
        ensures { self.new ≡ measured_behind self.old item.len item.what }
    {
        self.at += item.len;
        self.width += item.what.columns();
        if item.what.is_glyph() {
            self.glyphs = self.at;
        }
        if item.what.note().is_some() {
            self.has_notes = true;
        }
    }

    /// Bytes more that print themselves, of so many columns.
    #[inline(always)]
    fn take_plain(&mut self, bytes: &[u8], width: usize)
        requires plain { ArePlain bytes.now }
        requires columns { width ≡ width_of (map byte_item bytes.now) }
        requires at { self.old.at + length bytes.now < 2 ^ 64 }
        requires width { self.old.width + width < 2 ^ 64 }
        ensures { self.new ≡ record self.old {
          at = self.old.at + length bytes.now;
          width = self.old.width + width_of (map byte_item bytes.now);
          glyphs = behind_glyphs self.old.glyphs self.old.at
              (up_to_last_glyph (map byte_item bytes.now));
        } }
    {
        self.glyphs = glyphs_behind(self.glyphs, self.at, bytes);
        self.width += width;
        self.at += bytes.len();
    }

    /// What the text measures, which is read.
    fn measured(self, split: Option<Split>) -> Measured
        ensures { result ≡ record {
          width = self.width;
          glyphs = self.glyphs;
          split = split;
          has_notes = self.has_notes;
        } }
    {
        Measured {
            width: self.width,
            glyphs: self.glyphs,
            split,
            has_notes: self.has_notes,
        }
    }
}

/// How many bytes of a text reach up to its last glyph, by how many did in front of a place, and by
/// bytes that print themselves and begin there.
#[inline(always)]
fn glyphs_behind(glyphs: usize, at: usize, bytes: &[u8]) -> usize
    requires plain { ArePlain bytes.now }
    requires at { at + length bytes.now < 2 ^ 64 }
    ensures { result ≡ behind_glyphs glyphs at (up_to_last_glyph (map byte_item bytes.now)) }
{
    let more = plain_glyphs(bytes);
    if more > 0 { at + more } else { glyphs }
}

/// What stands before a place in a number, but for what is dropped.
#[derive(Clone, Copy)]
pub(crate) enum Before {
    /// Neither a digit nor a dot that stands for itself.
    Other,
    /// A digit.
    Digit,
    /// A dot, and the split before it.
    Dot(Split),
}

/// Where a number may be split, as far as it is read.
#[derive(Clone, Copy)]
pub(crate) struct Splitting {
    /// Around its first `\&`.
    pub(crate) ampersand: Option<Split>,
    /// Before the rightmost dot that adjoins a digit.
    pub(crate) dot: Option<Split>,
    /// Behind the rightmost digit.
    pub(crate) digit: Option<Split>,
    /// What stands before the place.
    pub(crate) before: Before,
}

impl Splitting {
    /// Nothing is read.
    const NOTHING: Splitting = Splitting {
        ampersand: None,
        dot: None,
        digit: None,
        before: Before::Other,
    };

    /// One item more, that begins at a place and with a byte, and has so much width in front.
    /// Answers the item as it is shown: the `\&` that splits prints nothing.
    fn take(&mut self, at: usize, width: usize, byte: u8, item: Item) -> Item
        requires at { at + item.len < 2 ^ 64 }
        requires width { width + columns item.what < 2 ^ 64 }
        ensures splits { self.new ≡ item_split self.old at width byte item.len item.what }
        ensures shown { result ≡ record item { what = shown self.old.ampersand item.what } }
    {
        if item.len == 1 {
            self.take_byte(at, width, byte, item.what);
        } else {
            self.before = Before::Other;
        }
        self.take_ampersand(at, width, item)
    }

    /// The first `\&` splits.
    fn take_ampersand(&mut self, at: usize, width: usize, item: Item) -> Item
        requires at { at + item.len < 2 ^ 64 }
        ensures splits { self.new ≡ ampersand_split self.old at width item.len item.what }
        ensures shown { result ≡ record item { what = shown self.old.ampersand item.what } }
    {
        match item.what {
            What::Ampersand => {}
            _ => return item,
        }
        if self.ampersand.is_some() {
            return item;
        }
        self.ampersand = Some(Split {
            left: width,
            end: at,
            behind: at + item.len,
        });
        Item {
            len: item.len,
            what: What::Nothing,
        }
    }

    /// A byte that stands for itself.
    fn take_byte(&mut self, at: usize, width: usize, byte: u8, what: What)
        requires at { at + 1 < 2 ^ 64 }
        requires width { width + columns what < 2 ^ 64 }
        ensures { self.new ≡ byte_split self.old at width byte what }
    {
        if byte.is_ascii_digit() {
            if let Before::Dot(split) = self.before {
                self.dot = Some(split);
            }
            self.digit = Some(split_at(width + what.columns(), at + 1));
            self.before = Before::Digit;
        } else if byte == b'.' {
            let split = split_at(width, at);
            if let Before::Digit = self.before {
                self.dot = Some(split);
            }
            self.before = Before::Dot(split);
        } else if !is_dropped(byte) {
            self.before = Before::Other;
        }
    }

    /// Where the whole number is split.
    fn split(self) -> Option<Split>
        ensures { result ≡ option_or self.ampersand (option_or self.dot self.digit) }
    {
        self.ampersand.or(self.dot.or(self.digit))
    }
}

/// A split between two items, with so much width in front.
fn split_at(left: usize, place: usize) -> Split
    ensures { result ≡ split_between left place }
{
    Split {
        left,
        end: place,
        behind: place,
    }
}

/// Something that is told of a text.
#[derive(Clone, Copy)]
pub struct Note {
    /// Where the item begins in the text that isn't measured.
    pub place: usize,
    /// The byte by which it is told.
    pub byte: u8,
}

/// What is told next of a text, from a place between its items on, which moves behind the item that
/// is told; to the text's end, where nothing is.
pub fn next_note(escapes: &mut OpenEscapes, text: &[u8], at: &mut usize) -> Option<Note>
    ensures notes { notes_from at.old (items (drop at.old text.now))
        ≡ option_to_list result ++ notes_from at.new (items (drop at.new text.now)) }
    ensures none { IfNone result (length text.now ≤ at.new) }
    ensures some { IfSome result (λ note. (at.old ≤ note.place) × (note.place < at.new)
        × (at.new ≤ length text.now)) }
    ensures room { escapes.new.room ≡ escapes.old.room }
{
    while *at < text.len() {
        let place = *at;
        let item = next_item(escapes, behind(text, place));
        *at += item.len;
        if let Some(byte) = item.what.note() {
            return Some(Note { place, byte });
        }
    }
    None
}
