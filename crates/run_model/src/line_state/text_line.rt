//! A text line, and which of its bytes are told as they are.

ghost use Rattle.std.specs.Prelude.{◌≡◌, ◌↔◌, true};
ghost use Rattle.run_model.specs.Reading.TextLines.{fresh_line};
ghost use Rattle.run_model.specs.Reading.Beginnings.{line_begun_as};
ghost use Rattle.run_model.specs.Telling.{PrintsText};
ghost use Rattle.run_model.specs.declared.line_state.LineState.TheVariants.{Text as InText};

use super::{LineState, TextLine};

/// A count of leading blanks above this reads as this.
pub(super) const MOST_LEADING: u32 = 2_147_483_647;

impl TextLine {
    /// Nothing yet.
    pub fn new() -> Self
        ensures { result ≡ fresh_line }
    {
        TextLine {
            has_glyph: false,
            has_other: false,
            has_brace: false,
            leading: 0,
        }
    }

    /// The line that begins: the interrupted one, if one is to go on.
    pub fn begun_as(interrupted: Option<TextLine>) -> Self
        ensures { result ≡ line_begun_as interrupted }
    {
        match interrupted {
            Some(line) => line,
            None => TextLine::new(),
        }
    }

    /// Whether bytes of plain text are told, each as a glyph or a gap, and the line stays as it is.
    pub fn prints(self) -> bool
        ensures { (result ≡ true) ↔ PrintsText (InText self) }
    {
        self.leading == 0 && self.has_glyph
    }

    /// What is read behind a glyph, or a tab.
    #[inline(always)]
    pub(super) fn behind_glyph(self) -> LineState
        ensures { result ≡ InText (record self { has_glyph = true; leading = 0 }) }
    {
        let mut behind = self;
        behind.has_glyph = true;
        behind.leading = 0;
        LineState::Text(behind)
    }
}
