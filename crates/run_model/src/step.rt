//! What an item of the input means for the page: a step.

ghost use Rattle.std.specs.Prelude.{◌≡◌, [], List, Option};
ghost use Rattle.run_model.specs.Events.Lines.{line_events};
ghost use Rattle.run_model.specs.Events.Steps.{events_of, messages_of};
ghost use Rattle.run_model.specs.PageEvents.{PageEvent as PageEventOf};
ghost use Rattle.run_model.specs.Requests.Effects.{behind_break};
ghost use Rattle.run_model.specs.declared.message.Message.{Message as MessageOf};

use crate::event::LineEvents;

/// What an item means: a message, if it reports one, and then its events, if it has some. It is
/// small, as each byte has one: what most bytes of a text line do stands in it, and the reader
/// keeps all else.
#[derive(Clone, Copy)]
pub enum Step {
    /// Nothing.
    Nothing,
    /// A printed byte of a text line, behind so many leading blanks.
    Glyph(u8, u32),
    /// A tab, behind so many leading blanks.
    Tab(u32),
    /// The open word ends, and a gap of one blank stands behind it.
    Gap,
    /// The open word ends, and a break comes: a text line begins with a blank.
    Break,
    /// The open word ends, and a line of the input, which counts.
    LineEnd,
    /// A break, and a blank line.
    BlankLine,
    /// The meaning that the reader keeps.
    Meaning,
}

impl Step {
    /// The events of this step, if the reader keeps none for it.
    pub fn line(self) -> LineEvents
        ensures { line_events result ≡ events_of [] self }
    {
        match self {
            Step::Nothing => LineEvents::Nothing,
            Step::Glyph(byte, leading) => LineEvents::Printed(leading, byte),
            Step::Tab(leading) => LineEvents::Tab(leading),
            Step::Gap => LineEvents::Gap,
            Step::Break => LineEvents::Break,
            Step::LineEnd => LineEvents::LineEnd,
            Step::BlankLine => LineEvents::BlankLine,
            Step::Meaning => LineEvents::Nothing,
        }
    }
}

/// A break and nothing else, or nothing.
pub fn broken(breaks: bool) -> Step
    ensures says { (kept : Option MessageOf) → messages_of kept result ≡ [] }
    ensures means { (kept : List PageEventOf) → events_of kept result ≡ behind_break breaks [] }
{
    if breaks { Step::Break } else { Step::Nothing }
}
