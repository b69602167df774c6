//! What calls on the unread input show.

use input_source::Note;
use roff_num::Limit;

/// What was taken from the front of the unread input.
#[derive(Drop)]
pub enum Item<E> {
    /// A byte.
    Byte(u8),
    /// The end of a pushed text.
    End,
    /// The end of a body that a line called, or that sprang: what is gone back to behind it, by a
    /// code; 0 is a line's beginning.
    Return(u8),
    /// An event that was put back.
    Do(E),
    /// A message of the source's.
    Note(Note),
    /// The end of the input, for good.
    SourceEnd,
    /// A fault of the source, for good.
    Fault,
    /// A limit of the source's own, for good.
    Stop(Limit),
    /// Nothing: one item more would pass this limit.
    Refused(Limit),
}

/// What is seen in front of the unread input, behind any ends of texts.
#[derive(Drop)]
pub enum Sight {
    /// A byte. It isn't taken.
    Byte(u8),
    /// An event that was put back stands there.
    Nothing,
    /// A message of the source's. It is taken.
    Note(Note),
    /// The end of the input, for good.
    SourceEnd,
    /// A fault of the source, for good.
    Fault,
    /// A limit of the source's own, for good.
    Stop(Limit),
}
