//! Facts about the lines that tell a message, as contracts of functions that do nothing.

ghost use Rattle.law_reading.specs.MessageLaws.{MessagesAreTheirTexts};

/// A line of a message that has no escape, and no byte that is dropped, tells its text: without the
/// blanks in front, and with its quotes.
pub fn messages()
    ensures { MessagesAreTheirTexts }
{}
