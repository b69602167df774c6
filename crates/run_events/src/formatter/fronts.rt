//! Bytes of a text line that stand in front, and are told together.

ghost use Rattle.std.specs.Prelude.{◌≡◌, true, false, take};
ghost use Rattle.run_events.specs.Formatter.Telling.{TellsFront, TellsGlyph};

use super::Formatter;
use input_source::text_in_front;
use page_model::Glyph;

/// So many bytes of a text line are told at once at the most: more than most lines have, so that
/// few are looked at that aren't told.
const MOST_AT_ONCE: usize = 128;

impl Formatter {
    /// Tells bytes of plain text, of those that stand in front: as many as no limit refuses, none
    /// that finishes a line, and none with which the first page begins. How many they are.
    #[inline(always)]
    pub fn text_front(&mut self, front: &[u8]) -> usize
        ensures { TellsFront front.now result self.old self.new }
    {
        if !self.composer.pages.takes_text() {
            return 0;
        }
        let near = told_at_once(front);
        let count = text_in_front(near);
        self.composer
            .environments
            .in_force
            .lines
            .text_front(near, count)
    }

    /// Prints a glyph behind a text line's glyphs, unless a limit refuses it or the first page
    /// begins with it: then nothing changes. Returns whether it did.
    #[inline(always)]
    pub fn tell_glyph(&mut self, glyph: Glyph) -> bool
        ensures told { result ≡ true → TellsGlyph glyph self.old self.new }
        ensures untold { result ≡ false → self.new ≡ self.old }
    {
        if !self.composer.pages.takes_text() {
            return false;
        }
        match self.composer.environments.in_force.lines.glyph(glyph) {
            Ok(()) => true,
            Err(_) => false,
        }
    }
}

/// The first of these bytes, as many as are told at once at the most.
#[inline(always)]
pub(super) fn told_at_once(bytes: &[u8]) -> &[u8]
    ensures { result.now ≡ take 128 bytes.now }
{
    bytes.split_at(MOST_AT_ONCE.min(bytes.len())).0
}
