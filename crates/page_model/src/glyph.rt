//! Glyphs: what a line prints in one piece.

ghost use Rattle.std.specs.Prelude.{◌≡◌, length};
ghost use Rattle.page_model.specs.Glyphs.{glyph_text, glyph_width};

use roff_num::width_of_byte;

/// A printed text with a width in columns.
#[derive(Clone, Copy)]
pub enum Glyph {
    /// A byte of the input. The bytes 0x80 to 0xBF go on with a character of several bytes and have
    /// no width of their own; a byte that isn't above the blank prints as a blank.
    Printed(u8),
    /// So many blanks, which no adjusting widens and at which no line ends.
    Blanks(u32),
}

impl Glyph {
    /// The length of the glyph's text, in bytes.
    pub fn length(self) -> usize
        ensures { result ≡ length (glyph_text self) }
    {
        match self {
            Glyph::Printed(_) => 1,
            Glyph::Blanks(columns) => columns as usize,
        }
    }

    /// The width of the glyph, in columns.
    pub fn width(self) -> u64
        ensures { result ≡ glyph_width self }
    {
        match self {
            Glyph::Printed(byte) => width_of_byte(byte),
            Glyph::Blanks(columns) => u64::from(columns),
        }
    }
}
