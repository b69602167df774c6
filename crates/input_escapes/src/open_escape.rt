//! What is half read: backslashes, comments, conditions, and names, sizes and texts behind escapes.

ghost use Rattle.std.specs.Prelude.{◌≡◌};
ghost use Rattle.input_escapes.specs.OpenEscapes.{place_above, reads_text};

use crate::escapes::{NameUse, TextUse};
use roff_num::Name;

/// A unit of copy mode.
#[derive(Clone, Copy)]
pub enum CopyUnit {
    /// A byte.
    Byte(u8),
    /// An escape that is kept: a backslash and this byte.
    Kept(u8),
}

/// How much of a name is read.
#[derive(Clone, Copy)]
pub enum NamePart {
    /// Nothing of it: the next unit is the name.
    Nothing,
    /// Its parenthesis: two bytes are the name.
    Opened,
    /// The first of two bytes.
    First(u8),
}

/// How much of a size is read.
#[derive(Clone, Copy)]
pub enum SizePart {
    /// Nothing of it: a sign or a digit may follow.
    Nothing,
    /// Its sign: a digit may follow.
    Sign,
    /// A digit behind which another may follow.
    Digit,
}

/// How much of a condition is read.
#[derive(Clone, Copy)]
pub enum ConditionPart {
    /// Nothing but blanks and a `!`: the next byte says what is asked.
    Choice {
        /// Whether a `!` stands before it.
        negated: bool,
    },
    /// An expression.
    Expression {
        /// Whether a `!` stands before it.
        negated: bool,
    },
    /// Two texts that are compared.
    Compared {
        /// Whether a `!` stands before them.
        negated: bool,
        /// The byte that delimits them.
        delimiter: u8,
        /// How many of the bytes held are the first text's, where the second is read.
        first: Option<usize>,
    },
    /// It is read, and decides next.
    Decided {
        /// What it asks.
        decision: Decision,
        /// The byte that ended it, if that is the first of what follows.
        freed: Option<u8>,
    },
}

/// What a condition was found to ask.
#[derive(Clone, Copy)]
pub enum Decision {
    /// It is so, or isn't.
    Is(bool),
    /// It is so on odd pages, or on even ones.
    OnPages(bool),
}

/// How the byte behind a backslash is read.
#[derive(Clone, Copy, PartialEq, Eq)]
pub enum Surroundings {
    /// As in a text line: every escape is one. This is the place on the line, in basic units.
    Text(i32),
    /// As in arguments: copied, but for widths.
    Arguments,
    /// In copy mode.
    Copy,
}

impl Surroundings {
    /// Whether every escape is read there.
    pub(crate) fn reads_text(self) -> bool
        ensures { result ≡ reads_text self }
    {
        matches!(self, Surroundings::Text(_))
    }

    /// The place on the input line, in basic units: 0 where no text line is read.
    pub fn place(self) -> i32
        ensures { result ≡ place_above self }
    {
        match self {
            Surroundings::Text(place) => place,
            Surroundings::Arguments => 0,
            Surroundings::Copy => 0,
        }
    }
}

/// What something that is read does at the next item.
#[derive(Clone, Copy)]
pub enum Waiting {
    /// It takes the item in front, whatever that is.
    Takes,
    /// It was read to its end, and decides before anything is taken or seen.
    Decides,
    /// It waits for a byte: the first one behind any ends of texts is seen before one is taken.
    Waits,
}

/// Something that is half read. The texts stand behind each other in one block.
#[derive(Clone, Copy, Default)]
pub(crate) enum HeldEscape {
    /// A backslash: the byte behind it comes next.
    #[default]
    Backslash,
    /// A comment: every byte of it is dropped, up to a newline.
    Comment,
    /// The name behind an escape.
    Name(NameUse, NamePart),
    /// A size behind an escape, which is read without effect.
    Size(SizePart),
    /// The text behind an escape between two delimiters, and where it begins in the block; without
    /// a delimiter that comes next.
    Delimited(TextUse, Option<u8>, usize),
    /// A text that is measured: its delimiter, its width so far in basic units, and whether it
    /// stands too deep within others to be measured.
    Width(Option<u8>, u32, bool),
    /// A condition, and where its expression or its texts begin in the block.
    Condition(ConditionPart, usize),
}

/// What is said of something that is read.
#[derive(Drop)]
pub enum Remark {
    /// The escape of this byte is left out.
    LeftOut(u8),
    /// No character has this name; none, if it ended before a byte of it.
    UnknownCharacter(Option<Name>),
    /// The length of a motion or the expression of a condition isn't a number, or is out of range.
    BadNumber,
    /// The length of a motion is below 0.
    BackwardMotion,
}

/// What a byte, or the end of a reading, gives.
#[derive(Drop)]
pub enum Found {
    /// Nothing yet.
    GoesOn,
    /// A unit for the line: nothing is half read.
    Unit(CopyUnit),
    /// A unit for the text that is being read.
    Holds(CopyUnit),
    /// An escape of the text without a name, or a comment, a size or a left-out text that ended, by
    /// the byte behind the backslash: nothing is half read.
    Escape(u8),
    /// A name behind an escape is read; none, if it ended before a byte of it.
    Asks(NameUse, Option<Name>),
    /// A motion of so many columns along the line, and what is said of it: nothing is half read.
    Motion(u32, Option<Remark>),
    /// A text was measured: its width in basic units is read in its place.
    Measures(u32),
    /// This is said of something within a text that is measured, or of a condition's expression.
    Tells(Remark),
    /// A condition that was read decides. This byte was taken behind it, and is the first of what
    /// follows.
    Decides(Decision, Option<u8>),
}
