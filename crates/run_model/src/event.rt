//! The events that bytes and requests mean.

ghost use Rattle.std.specs.Prelude.{◌≡◌, ◌≤◌, ◌<◌, ◌++◌, IfSome, length, map, slice_get};
ghost use Rattle.run_model.specs.Events.Lines.{line_events, print_event};
ghost use Rattle.run_model.specs.Reading.TextLines.{leading_glyph};

use crate::environment_number::EnvironmentNumber;
use crate::line_state::TextLine;
use crate::title::WhichTitle;
use page_model::{Event, Glyph, LayoutEvent};
use roff_num::{Num, ShortName};

/// An input-line trap: a macro that springs behind so many text lines.
#[derive(Clone, Copy)]
pub struct InputTrap {
    /// How many text lines are still to come, the one that springs it among them; 1 at least.
    pub lines: u32,
    /// The macro.
    pub name: ShortName,
}

/// What happens to the page. A title that is to be placed is told by where its text is kept; in
/// `specs/` one that was placed is told by its text.
#[derive(Clone, Copy)]
pub enum PageEvent<T = WhichTitle> {
    /// Something happens to the text.
    Text(Event),
    /// The line of the input is interrupted, on which this stands so far.
    Interrupt(TextLine),
    /// The environment is left for this one.
    Environment(EnvironmentNumber),
    /// The environment that was left last is gone back to.
    Back,
    /// The environment's input-line trap is this one from now on, or it has none.
    InputTrap(Option<InputTrap>),
    /// Something happens to the layout of pages.
    Page(LayoutEvent),
    /// A title is placed.
    Title(T),
}

impl Default for PageEvent {
    fn default() -> Self {
        PageEvent::Text(Event::WordEnd)
    }
}

/// The events of something of a text line.
#[derive(Clone, Copy)]
pub enum LineEvents {
    /// None.
    Nothing,
    /// The open word ends, and a line of the input, which counts.
    LineEnd,
    /// A break.
    Break,
    /// A break, and a blank line.
    BlankLine,
    /// The run closes: the pending line is placed, and the last page is ejected.
    Closing,
    /// The page gets this number.
    Number(Num),
    /// A gap of one blank behind the open word.
    Gap,
    /// The line is interrupted, on which this stands so far.
    Interrupt(TextLine),
    /// A tab behind so many leading blanks.
    Tab(u32),
    /// So many leading blanks alone.
    Leading(u32),
    /// A printed byte behind so many leading blanks.
    Printed(u32, u8),
    /// So many blanks that stay together, behind so many leading ones.
    Blanks(u32, u32),
    /// Two printed bytes behind so many leading blanks.
    Two(u32, [u8; 2]),
    /// Three printed bytes behind so many leading blanks.
    Three(u32, [u8; 3]),
    /// Four printed bytes behind so many leading blanks.
    Four(u32, [u8; 4]),
}

impl LineEvents {
    /// The event at an index, if there are so many: five at most.
    pub fn at(self, index: usize) -> Option<PageEvent>
        ensures at { result ≡ slice_get (line_events self) index }
        ensures few { IfSome result (λ event. index ≤ 4) }
    {
        match self {
            LineEvents::Nothing => None,
            LineEvents::LineEnd => nth(
                &[
                    PageEvent::Text(Event::WordEnd),
                    PageEvent::Text(Event::LineEnd),
                    PageEvent::Text(Event::Count),
                ],
                index,
            ),
            LineEvents::Break => nth(
                &[
                    PageEvent::Text(Event::WordEnd),
                    PageEvent::Text(Event::Break),
                ],
                index,
            ),
            LineEvents::BlankLine => nth(
                &[
                    PageEvent::Text(Event::WordEnd),
                    PageEvent::Text(Event::Break),
                    PageEvent::Page(LayoutEvent::Space(1)),
                ],
                index,
            ),
            LineEvents::Closing => nth(
                &[
                    PageEvent::Page(LayoutEvent::Close),
                    PageEvent::Text(Event::WordEnd),
                    PageEvent::Text(Event::Break),
                    PageEvent::Page(LayoutEvent::EjectLast),
                ],
                index,
            ),
            LineEvents::Number(number) => {
                nth(&[PageEvent::Page(LayoutEvent::Number(number))], index)
            }
            LineEvents::Gap => nth(
                &[
                    PageEvent::Text(Event::WordEnd),
                    PageEvent::Text(Event::Gap(1)),
                ],
                index,
            ),
            LineEvents::Interrupt(line) => nth(&[PageEvent::Interrupt(line)], index),
            LineEvents::Tab(leading) => {
                nth_behind(leading, &[PageEvent::Text(Event::Tab)], index)
            }
            LineEvents::Leading(leading) => nth_behind(leading, &[], index),
            LineEvents::Printed(leading, byte) => nth_printed(leading, &[byte], index),
            LineEvents::Blanks(leading, columns) => {
                nth_behind(
                    leading,
                    &[PageEvent::Text(Event::Print(Glyph::Blanks(columns)))],
                    index,
                )
            }
            LineEvents::Two(leading, bytes) => nth_printed(leading, &bytes, index),
            LineEvents::Three(leading, bytes) => nth_printed(leading, &bytes, index),
            LineEvents::Four(leading, bytes) => nth_printed(leading, &bytes, index),
        }
    }
}

/// The event at an index.
fn nth(events: &[PageEvent], index: usize) -> Option<PageEvent>
    ensures at { result ≡ slice_get events.now index }
    ensures few { IfSome result (λ event. index < length events.now) }
{
    events.get(index).copied()
}

/// The event at an index of these behind the leading blanks, which are a glyph of their own.
fn nth_behind(leading: u32, events: &[PageEvent], index: usize) -> Option<PageEvent>
    ensures at { result ≡ slice_get (leading_glyph leading ++ events.now) index }
    ensures few { IfSome result (λ event. index ≤ length events.now) }
{
    if leading == 0 {
        return nth(events, index);
    }
    if index == 0 {
        return Some(PageEvent::Text(Event::Print(Glyph::Blanks(leading))));
    }
    nth(events, index - 1)
}

/// The event at an index of bytes that are printed behind the leading blanks.
fn nth_printed(leading: u32, bytes: &[u8], index: usize) -> Option<PageEvent>
    ensures at { result ≡ slice_get (leading_glyph leading ++ map print_event bytes.now) index }
    ensures few { IfSome result (λ event. index ≤ length bytes.now) }
{
    if leading == 0 {
        return print_nth(bytes, index);
    }
    if index == 0 {
        return Some(PageEvent::Text(Event::Print(Glyph::Blanks(leading))));
    }
    print_nth(bytes, index - 1)
}

/// The event of the byte at an index, which is printed.
fn print_nth(bytes: &[u8], index: usize) -> Option<PageEvent>
    ensures at { result ≡ slice_get (map print_event bytes.now) index }
    ensures few { IfSome result (λ event. index < length bytes.now) }
{
    match bytes.get(index) {
        Some(byte) => Some(PageEvent::Text(Event::Print(Glyph::Printed(*byte)))),
        None => None,
    }
}
