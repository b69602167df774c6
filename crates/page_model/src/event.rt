//! What happens to one environment.

use crate::glyph::Glyph;
use crate::settings::Param;

/// What happens to one environment: a text is told to it as a list of these.
///
/// A field's end stands before each line end and break, and a word end before these and each gap.
/// Where a word is open all the same, it stays open, and a field that is open all the same ends
/// with its text at the tab. In an open field a word end ends nothing.
#[derive(Clone, Copy)]
pub enum Event {
    /// A glyph joins the word that is open, or opens one.
    Print(Glyph),
    /// A tab joins the word as a glyph does. It moves to the next tab stop, or nowhere without one.
    /// At a stop at which text ends, or has its middle, it opens a field instead: the text up to
    /// the field's end or the next tab, which is moved as a whole once the field ends.
    Tab,
    /// The open field ends, if one is open.
    FieldEnd,
    /// The open word ends.
    WordEnd,
    /// So many blanks stand between words.
    Gap(u32),
    /// A line of the input ends: one line less is to be centred.
    LineEnd,
    /// A text line of the input was read, which counts for the input-line trap. The line's end
    /// comes before it.
    Count,
    /// The pending line is to be finished.
    Break,
    /// A line of the input is interrupted: the next text line goes on in the same word.
    Interrupt,
    /// A text line goes on with the line that was interrupted.
    Resume,
    /// A parameter changes.
    Set(Param),
}
