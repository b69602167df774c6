//! The fields of rows, as they are kept: where they lie in the table's bytes, and what they measure
//! (Lesk, "Tbl": Data, Text Blocks).

ghost use Rattle.std.specs.Prelude.{◌≡◌, ◌+◌, ◌<◌, ◌≤◌, ◌^◌, IfSome, List, ℕ};
ghost use Rattle.tbl_format.specs.declared.format.Key.{Key};
ghost use Rattle.tbl_layout.specs.Entries.{is_entry, is_number};
ghost use Rattle.tbl_layout.specs.KeptEntries.{IsLaid, content_of};
ghost use Rattle.tbl_layout.specs.KeptEntries.{entry_by, entry_under, filled_with, opened_at};
ghost use Rattle.tbl_layout.specs.KeptEntries.{rule_entry};
ghost use Rattle.tbl_layout.specs.KeptEntries.{kept_kind};
ghost use Rattle.tbl_layout.specs.RuleKeys.{kind_of_key};
ghost use Rattle.tbl_layout.specs.KeptEntries.{stands_of};
ghost use Rattle.tbl_text.specs.Measuring.{SplitLies};
ghost use Rattle.tbl_layout.specs.KeptEntries.{kind_by, lines_by, measure_by, split_by, with_end};

use crate::columns::{Stands, unsplit};
use crate::data_lines::{FieldKind, RuleSign};
use crate::rule_keys::kind_of_key;
use tbl_format::format::Key;
use tbl_text::block_lines::Filled;
use tbl_text::measure::{Measured, Split};

/// A field of a row, as it is kept. Places are places in the table's bytes.
#[derive(Clone, Copy)]
pub struct Entry {
    /// Where its text begins. Of a block: where the line ends that opens it; its own lines lie
    /// behind that, each with a newline in front of it.
    pub from: u32,
    /// Where its text ends, or the last line of its block.
    pub to: u32,
    /// What it is.
    pub kind: EntryKind,
}

/// What a field is.
#[derive(Clone, Copy)]
pub enum EntryKind {
    /// A text: where it ends up to its last glyph, and its columns.
    Text(u32, u32),
    /// A number that is split.
    Split(SplitEntry),
    /// A text block.
    Block(BlockEntry),
    /// A rule over its column.
    Ruled(RuleSign),
    /// A rule as wide as the widest entry of its column.
    Short,
    /// A byte that is repeated over its column.
    Repeated(u8),
    /// The field above goes on.
    Above,
}

/// A number that is split in two.
#[derive(Clone, Copy)]
pub struct SplitEntry {
    /// Where it ends up to its last glyph.
    pub glyphs: u32,
    /// Its columns.
    pub width: u32,
    /// The columns of its left part.
    pub left: u32,
    /// Where its left part ends.
    pub end: u32,
    /// Where its right part begins.
    pub behind: u32,
}

/// A text block. Before it is filled it has no line.
#[derive(Clone, Copy)]
pub struct BlockEntry {
    /// The columns in which its lines are filled, 0 before.
    pub measure: u32,
    /// How many lines it has.
    pub lines: u32,
    /// The columns of the widest.
    pub width: u64,
    /// Whether it has a word.
    pub has_word: bool,
}

impl Entry {
    /// A field without a byte.
    pub const NOTHING: Entry = Entry {
        from: 0,
        to: 0,
        kind: EntryKind::Text(0, 0),
    };

    /// What stands under a key for which a row has no field.
    pub fn under(key: Key) -> Entry
        ensures { result ≡ entry_under (kind_of_key key) }
    {
        match kind_of_key(key) {
            Some(kind) => Entry::of_rule(0, 0, kept_kind(kind)),
            None => Entry::NOTHING,
        }
    }

    /// The field of a text that begins at a place, has so many bytes and measures so much.
    pub fn of_text(from: usize, len: usize, measured: Measured) -> Entry
        requires within { from + len < 2 ^ 32 }
        requires width { measured.width ≤ len }
        requires glyphs { measured.glyphs ≤ len }
        requires split { IfSome measured.split (SplitLies len measured.width) }
        ensures { result ≡ entry_by from len measured }
    {
        Entry {
            from: from as u32,
            to: (from + len) as u32,
            kind: kind_of(from, measured),
        }
    }

    /// The field, of which nothing is measured, that begins at a place and has so many bytes.
    pub fn of_rule(from: usize, len: usize, kind: EntryKind) -> Entry
        requires { from + len < 2 ^ 32 }
        ensures { result ≡ rule_entry from len kind }
    {
        Entry {
            from: from as u32,
            to: (from + len) as u32,
            kind,
        }
    }

    /// A text block of which no line is read, behind the line that opens it, which ends there.
    pub fn opened(from: usize) -> Entry
        requires { from < 2 ^ 32 }
        ensures { result ≡ opened_at from }
    {
        Entry {
            from: from as u32,
            to: from as u32,
            kind: EntryKind::Block(BlockEntry {
                measure: 0,
                lines: 0,
                width: 0,
                has_word: false,
            }),
        }
    }

    /// This entry, with the end of its last line at this place in the table's bytes.
    pub fn with_end(self, to: usize) -> Entry
        requires { to < 2 ^ 32 }
        ensures { result ≡ with_end to self }
    {
        Entry {
            from: self.from,
            to: to as u32,
            kind: self.kind,
        }
    }

    /// A text block that is filled so in a measure.
    pub fn filled(self, measure: u32, block: Filled) -> Entry
        requires { block.lines < 2 ^ 32 }
        ensures { result ≡ filled_with measure block.lines block.width block.has_word self }
    {
        Entry {
            from: self.from,
            to: self.to,
            kind: EntryKind::Block(BlockEntry {
                measure,
                lines: block.lines as u32,
                width: block.width,
                has_word: block.has_word,
            }),
        }
    }

    /// How many lines it has.
    pub fn lines(self) -> u32
        ensures { result ≡ lines_by self.kind }
    {
        match self.kind {
            EntryKind::Text(_, _) => 1,
            EntryKind::Split(_) => 1,
            EntryKind::Block(block) => block.lines,
            EntryKind::Ruled(_) => 1,
            EntryKind::Short => 1,
            EntryKind::Repeated(_) => 1,
            EntryKind::Above => 1,
        }
    }

    /// The measure of a block, in columns of the page, else 0.
    pub fn measure(self) -> u32
        ensures { result ≡ measure_by self.kind }
    {
        match self.kind {
            EntryKind::Block(block) => block.measure,
            _ => 0,
        }
    }

    /// Whether something stands in it, once it is laid out: a text, a block with a word, or a rule.
    pub fn is_used(self) -> bool
        ensures { (bytes : List ℕ) (key : Key) → IsLaid bytes key self
            → result ≡ is_entry (content_of bytes self) }
    {
        match self.kind {
            EntryKind::Text(_, _) => self.from < self.to,
            EntryKind::Split(_) => true,
            EntryKind::Block(block) => block.has_word,
            EntryKind::Ruled(_) => true,
            EntryKind::Short => true,
            EntryKind::Repeated(_) => true,
            EntryKind::Above => false,
        }
    }

    /// How it stands in its column, under this key.
    #[inline]
    pub fn stands(self, key: Key) -> Stands
        ensures { result ≡ stands_of key self }
    {
        match self.kind {
            EntryKind::Text(_, width) => {
                if self.from == self.to {
                    Stands::Nowhere
                } else {
                    unsplit(key, width as u64)
                }
            }
            EntryKind::Split(split) => {
                Stands::Apart(split.left, split.width.saturating_sub(split.left))
            }
            EntryKind::Block(block) => {
                if block.has_word {
                    unsplit(key, block.width)
                } else {
                    Stands::Nowhere
                }
            }
            EntryKind::Ruled(_) => Stands::Nowhere,
            EntryKind::Short => Stands::Nowhere,
            EntryKind::Repeated(_) => Stands::Nowhere,
            EntryKind::Above => Stands::Nowhere,
        }
    }
}

/// Whether texts under a key are numbers, which are split.
pub fn is_number(key: Key) -> bool
    ensures { result ≡ is_number key }
{
    matches!(key, Key::Numeric)
}

/// How a field is kept that isn't measured.
pub fn kept_kind(kind: FieldKind) -> EntryKind
    ensures { result ≡ kept_kind kind }
{
    match kind {
        FieldKind::Ruled(sign) => EntryKind::Ruled(sign),
        FieldKind::Short => EntryKind::Short,
        FieldKind::Repeated(byte) => EntryKind::Repeated(byte),
        FieldKind::Above => EntryKind::Above,
        FieldKind::Text => EntryKind::Text(0, 0),
    }
}

/// What a text is that begins at a place and measures so much.
fn kind_of(from: usize, measured: Measured) -> EntryKind
    requires small { from + measured.width < 2 ^ 32 }
    requires glyphs { from + measured.glyphs < 2 ^ 32 }
    requires split { IfSome measured.split (λ s. from + s.behind < 2 ^ 32) }
    requires order { IfSome measured.split (λ s. s.end ≤ s.behind) }
    requires left { IfSome measured.split (λ s. s.left ≤ measured.width) }
    ensures { result ≡ kind_by from measured }
{
    let glyphs = (from + measured.glyphs) as u32;
    let width = measured.width as u32;
    match measured.split {
        None => EntryKind::Text(glyphs, width),
        Some(split) => EntryKind::Split(split_entry(from, glyphs, width, split)),
    }
}

/// A number that is split there.
fn split_entry(from: usize, glyphs: u32, width: u32, split: Split) -> SplitEntry
    requires small { from + split.behind < 2 ^ 32 }
    requires order { split.end ≤ split.behind }
    requires left { split.left ≤ width }
    ensures { result ≡ split_by from glyphs width split }
{
    SplitEntry {
        glyphs,
        width,
        left: split.left as u32,
        end: (from + split.end) as u32,
        behind: (from + split.behind) as u32,
    }
}
