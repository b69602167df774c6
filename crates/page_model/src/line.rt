//! A finished line, as the environment hands it out.

/// The byte of a line's text that stands for the first blank of a gap.
pub const GAP: u8 = 0x20;

/// The byte of a line's text that stands for each further blank of a gap.
pub const FURTHER_BLANK: u8 = 0x01;

/// The byte of a line's text that stands for a blank of a glyph.
pub const UNPADDABLE: u8 = 0x00;

/// A finished line: a view of the environment's own buffer.
#[derive(Clone, Copy)]
pub struct Line<'a> {
    /// The glyphs' bytes. [`GAP`], [`FURTHER_BLANK`] and [`UNPADDABLE`] stand for blanks.
    pub text: &'a [u8],
    /// The columns before the text: the indent, and where a line starts later, by how much.
    pub lead: u64,
    /// The columns that are spread over the gaps: before the word behind the i-th gap stand
    /// `i * spare / gaps` of them in all, rounded down.
    pub spare: u64,
    /// How many gaps the text has.
    pub gaps: u64,
    /// How many blank lines follow.
    pub after: u64,
}
