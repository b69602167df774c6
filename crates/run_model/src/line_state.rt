//! What is being read of a line, and what stands on it.

ghost use Rattle.std.specs.Prelude.{◌≡◌};
ghost use Rattle.run_model.specs.Reading.Ends.{due, is_left, is_unfinished};
ghost use Rattle.run_model.specs.Reading.Waiting.{copies_in};
ghost use Rattle.roff_num.specs.ShortNames.{name_bytes};
ghost use Rattle.roff_num.specs.ShortNames.{short_name};
ghost use Rattle.run_model.specs.Reading.ControlLines.{ends_name};
ghost use Rattle.run_model.specs.Registers.{Known};
ghost use Rattle.run_model.specs.declared.phase.Phase.{Phase};

mod behind;
mod text_line;
mod text_steps;

use crate::event::LineEvents;
use crate::message::Message;
use crate::purpose::Purpose;
use input_escapes::Surroundings;
use page_model::Glyph;
use roff_num::Name;

/// What is being read of a line.
#[derive(Clone, Copy)]
pub enum LineState {
    /// A line begins.
    LineStart,
    /// A branch of a condition begins.
    Branch,
    /// Behind the brace with which a branch began.
    Braced,
    /// A text line.
    Text(TextLine),
    /// Behind the dot or apostrophe of a control line; requests break behind a dot.
    Control {
        breaks: bool,
    },
    /// Behind the first byte of a name.
    Name {
        breaks: bool,
        first: u8,
    },
    /// A line whose bytes are collected for this, up to its end.
    Collecting(Purpose),
    /// A condition, whose result may be kept.
    Deciding {
        keeps: bool,
    },
    /// A branch that is skipped: how many braces were opened and closed in it, and whether a
    /// backslash stands in front.
    Skipping {
        opened: u32,
        closed: u32,
        behind: bool,
    },
    /// A line that is dropped.
    Dropped,
    /// The line of a message has ended; its text is held still.
    Told {
        aborts: bool,
    },
    /// The line behind which nothing is read has ended.
    Exiting,
    /// In front of a title's parts, whose delimiter comes.
    TitleFront,
    /// A title, whose parts stand between these delimiters.
    Title {
        delimiter: u8,
    },
}

/// What is due before anything more is taken.
#[derive(Clone, Copy)]
pub enum Due {
    /// The text of a message is told.
    Tells {
        /// Whether that ends the run.
        aborts: bool,
    },
    /// The input is left.
    Leaves,
}

/// What stands on a text line so far.
#[derive(Clone, Copy)]
pub struct TextLine {
    /// Whether a glyph does.
    pub has_glyph: bool,
    /// Whether something else does that prints nothing.
    pub has_other: bool,
    /// Whether a brace does.
    pub has_brace: bool,
    /// The blanks before its first glyph.
    pub leading: u32,
}

/// What something of a text line does: what is read behind it, what it says, and the events that it
/// means.
#[derive(Drop)]
pub struct TextStep {
    pub reading: LineState,
    pub message: Option<Message>,
    pub events: LineEvents,
}

impl LineState {
    /// What is due before anything more is taken.
    #[inline(always)]
    pub fn due(self) -> Option<Due>
        ensures { result ≡ due self }
    {
        match self {
            LineState::Told { aborts } => Some(Due::Tells { aborts }),
            LineState::Exiting => Some(Due::Leaves),
            _ => None,
        }
    }

    /// How the byte behind a backslash of this is read: as in text, whatever the place on the line,
    /// and in titles, or in copy mode.
    #[inline(always)]
    pub fn copies_in(self) -> Surroundings
        ensures { result ≡ copies_in self }
    {
        match self {
            LineState::LineStart => Surroundings::Text(0),
            LineState::Branch => Surroundings::Text(0),
            LineState::Braced => Surroundings::Text(0),
            LineState::Text(_) => Surroundings::Text(0),
            LineState::Title { .. } => Surroundings::Text(0),
            _ => Surroundings::Copy,
        }
    }

    /// Whether a line is to end where the input does: one of which something was read, or one that
    /// was interrupted, if one is to end.
    pub fn is_unfinished(self, left: bool) -> bool
        ensures { (phase : Phase) (k : Known) → is_left phase k.interrupted ≡ left
            → result ≡ is_unfinished phase k self }
    {
        match self {
            LineState::LineStart => left,
            LineState::Braced => left,
            _ => true,
        }
    }
}

/// Whether a byte ends a name, and doesn't belong to it.
pub fn ends_name(byte: u8) -> bool
    ensures { result ≡ ends_name byte }
{
    matches!(byte, b' ' | b'\t' | b'\n' | b'\\')
}
