//! What is read behind something.

ghost use Rattle.std.specs.Prelude.{◌≡◌, ◌≤◌};
ghost use Rattle.run_model.specs.Reading.Items.{PageInput};
ghost use Rattle.run_model.specs.Reading.Arguments.{reading_behind};
ghost use Rattle.run_model.specs.Reading.Branches.{branch_of, counted_if};
ghost use Rattle.run_model.specs.Reading.Items.{going_on};
ghost use Rattle.run_model.specs.Reading.{undropped_taking};
ghost use Rattle.run_model.specs.Reading.ControlLines.{dropped_taking};
ghost use Rattle.run_model.specs.Reading.Branches.{skipping_taking};
ghost use Rattle.run_model.specs.Reading.Returns.{back_of, behind_return, flag, gone_back_to};
ghost use Rattle.run_model.specs.Reading.Returns.{is_text};
ghost use Rattle.run_model.specs.Reading.Returns.{leading_back, line_of};
ghost use Rattle.run_model.specs.Registers.{Known};
ghost use Rattle.run_model.specs.declared.line_state.LineState.TheVariants.{
  Control as BehindControl,
};
ghost use Rattle.run_model.specs.declared.line_state.LineState.TheVariants.{Text as InText};

use super::{LineState, TextLine, ends_name};
use crate::request::LineReading;

impl LineState {
    /// Where a branch of a condition begins, which is read or skipped.
    pub fn branch(is_read: bool) -> LineState
        ensures { result ≡ branch_of is_read }
    {
        if is_read {
            LineState::Branch
        } else {
            LineState::Skipping {
                opened: 0,
                closed: 0,
                behind: false,
            }
        }
    }

    /// What is read behind a request's line, by how that is read.
    pub fn behind_line(line: LineReading) -> LineState
        ensures { result ≡ reading_behind line }
    {
        match line {
            LineReading::ByLastLine => LineState::Exiting,
            LineReading::ByArguments => LineState::LineStart,
            LineReading::ByCondition { .. } => LineState::LineStart,
            LineReading::ByElse => LineState::LineStart,
            LineReading::ByLines(_) => LineState::LineStart,
            LineReading::ByMessage { .. } => LineState::LineStart,
            LineReading::ByString { .. } => LineState::LineStart,
            LineReading::ByTitle => LineState::LineStart,
        }
    }

    /// What is read behind a byte of a branch that is skipped, in which so many braces were opened
    /// and closed.
    #[inline(always)]
    pub fn behind_skipped(opened: u32, closed: u32, behind: bool, byte: u8) -> LineState
        ensures { (i : PageInput)
            → skipping_taking i opened closed behind byte ≡ going_on i result }
    {
        if behind {
            return LineState::Skipping {
                opened: counted_if(byte == b'{', opened),
                closed: counted_if(byte == b'}', closed),
                behind: false,
            };
        }
        if byte == b'\n' && opened <= closed {
            return LineState::LineStart;
        }
        LineState::Skipping {
            opened,
            closed,
            behind: byte == b'\\',
        }
    }

    /// What is read behind a byte behind a control line's dot or apostrophe, and the blanks there.
    pub fn behind_control(breaks: bool, byte: u8) -> LineState
        ensures { (k : Known) (i : PageInput)
            → undropped_taking k (BehindControl breaks) i byte ≡ going_on i result }
    {
        if byte == b' ' || byte == b'\t' {
            LineState::Control { breaks }
        } else if ends_name(byte) {
            LineState::behind_dropped(byte)
        } else {
            LineState::Name {
                breaks,
                first: byte,
            }
        }
    }

    /// The number by which this is gone back to behind a body that springs where it is read: that
    /// of a line's beginning, but of a branch and a text line.
    pub fn back(self) -> u8
        ensures { result ≡ back_of self }
    {
        match self {
            LineState::Branch => 1,
            LineState::Braced => 2,
            LineState::Text(line) => line.number(),
            _ => 0,
        }
    }

    /// Whether a text line is read.
    #[inline(always)]
    pub fn is_text(self) -> bool
        ensures { result ≡ is_text self }
    {
        match self {
            LineState::Text(_) => true,
            _ => false,
        }
    }

    /// What is read behind the end of a body: what it leads back to by its number, unless a control
    /// line is being read.
    #[inline]
    pub fn behind_return(self, back: u8) -> LineState
        ensures { result ≡ behind_return back self }
    {
        match self {
            LineState::LineStart => gone_back_to(back),
            LineState::Branch => gone_back_to(back),
            LineState::Braced => gone_back_to(back),
            LineState::Text(_) => gone_back_to(back),
            reading => reading,
        }
    }

    /// What is read behind a byte of a line that is dropped.
    pub fn behind_dropped(byte: u8) -> LineState
        ensures { (i : PageInput) → dropped_taking i byte ≡ going_on i result }
    {
        if byte == b'\n' {
            LineState::LineStart
        } else {
            LineState::Dropped
        }
    }
}

impl TextLine {
    /// The number by which it is gone back to. An event stands behind the first of its leading
    /// blanks alone.
    fn number(self) -> u8
        ensures { result ≡ back_of (InText self) }
    {
        3 + flag(self.has_glyph)
            + 2 * flag(self.has_other)
            + 4 * flag(self.has_brace)
            + 8 * self.leading_back()
    }

    /// How many leading blanks it has where it is gone back to.
    fn leading_back(self) -> u8
        ensures count { result ≡ leading_back self }
        ensures few { result ≤ 1 }
    {
        if self.has_glyph || self.leading == 0 {
            0
        } else {
            1
        }
    }

    /// The text line of a number.
    fn numbered(number: u8) -> TextLine
        ensures { result ≡ line_of number }
    {
        TextLine {
            has_glyph: number % 2 == 1,
            has_other: number / 2 % 2 == 1,
            has_brace: number / 4 % 2 == 1,
            leading: (number / 8) as u32,
        }
    }
}

/// What is gone back to by its number.
fn gone_back_to(back: u8) -> LineState
    ensures { result ≡ gone_back_to back }
{
    match back {
        0 => LineState::LineStart,
        1 => LineState::Branch,
        2 => LineState::Braced,
        _ => LineState::Text(TextLine::numbered(back - 3)),
    }
}

/// One for what is so.
fn flag(so: bool) -> u8
    ensures flag { result ≡ flag so }
    ensures few { result ≤ 1 }
{
    if so { 1 } else { 0 }
}

/// A count of braces, with one more if this is so.
#[inline(always)]
fn counted_if(so: bool, count: u32) -> u32
    ensures { result ≡ counted_if so count }
{
    if so { count.saturating_add(1) } else { count }
}
