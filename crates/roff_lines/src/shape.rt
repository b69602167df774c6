//! How a line is laid out as it is finished.

ghost use Rattle.std.specs.Prelude.{◌≡◌, ◌-◌, ◌<◌, ◌^◌, []};
ghost use Rattle.roff_lines.specs.Clauses.{finished_of, empty_line, laid_out, line_width, shaped};

use crate::stretch::Stretch;
use page_model::{AdjustMode, Line, Settings};

/// A finished line without its text.
#[derive(Clone, Copy)]
pub(crate) struct Shape {
    lead: u64,
    spare: u64,
    gaps: u64,
    /// The blank lines that follow.
    after: u64,
    /// The columns of the text, the spare ones among them.
    width: u32,
}

impl Shape {
    /// The shape of an empty line.
    pub(crate) fn empty(settings: Settings) -> Shape
        ensures { shaped result [] ≡ empty_line settings }
    {
        Shape {
            lead: 0,
            spare: 0,
            gaps: 0,
            after: lines_after(settings),
            width: 0,
        }
    }

    /// The shape of a line as it is finished, by a word that doesn't fit or by a break.
    pub(crate) fn of(settings: Settings, by_word: bool, indent: u32, line: &Stretch) -> Shape
        requires { line.now.room < 2 ^ 32 }
        ensures line { shaped result line.now.text
            ≡ laid_out settings by_word indent line.now.text }
        ensures width { result.width ≡ line_width (laid_out settings by_word indent line.now.text) }
    {
        let wide = u64::from(indent) + line.width();
        let free = u64::from(settings.line_length).saturating_sub(wide);
        let gaps = line.gaps();
        let mut start = 0;
        let mut spare = 0;
        if settings.centring > 0 {
            start = free / 2;
        } else if settings.filling && settings.adjusting {
            match settings.mode {
                AdjustMode::Left => {}
                AdjustMode::Right => start = free,
                AdjustMode::Centre => start = free / 2,
                AdjustMode::Both => {
                    if by_word && gaps != 0 {
                        spare = free;
                    }
                }
            }
        }
        Shape {
            lead: u64::from(indent) + start,
            spare,
            gaps,
            after: lines_after(settings),
            width: (line.width() + spare) as u32,
        }
    }

    /// The width of the line, in columns.
    pub(crate) fn width(self) -> u32
        ensures { result ≡ self.width }
    {
        self.width
    }

    /// The line of this shape and this text.
    pub(crate) fn over<'a>(self, text: &'a [u8]) -> Line<'a>
        ensures line { finished_of result ≡ shaped self text.now }
        ensures text { result.text.now ≡ text.now }
    {
        Line {
            text,
            lead: self.lead,
            spare: self.spare,
            gaps: self.gaps,
            after: self.after,
        }
    }
}

/// The blank lines behind a line.
fn lines_after(settings: Settings) -> u64
    ensures { result ≡ settings.spacing - 1 }
{
    u64::from(settings.spacing).saturating_sub(1)
}
