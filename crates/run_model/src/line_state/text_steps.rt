//! What the bytes and escapes of a text line do.

ghost use Rattle.std.specs.Prelude.{◌≡◌, ◌≤◌, ◌++◌, List, [], Option, length, map, true};
ghost use Rattle.page_model.specs.declared.glyph.Glyph.TheVariants.{Printed};
ghost use Rattle.run_model.specs.Reading.Items.{PageInput};
ghost use Rattle.run_model.specs.Reading.TextLines.{brace_taking, character_taking, escape_taking};
ghost use Rattle.run_model.specs.Reading.TextLines.{glyph_taking, glyphs_taking, blank_taking};
ghost use Rattle.run_model.specs.Reading.TextLines.{leading_blank_events, leading_glyph};
ghost use Rattle.run_model.specs.Reading.TextLines.{left_out_taking};
ghost use Rattle.run_model.specs.Reading.Items.{meaning_events};
ghost use Rattle.run_model.specs.Reading.TextLines.{motion_taking, other_taking, told_taking};
ghost use Rattle.run_model.specs.Reading.TextLines.{text_line_end, text_taking, interrupt_taking};
ghost use Rattle.run_model.specs.Reading.TextLines.{tab_taking};
ghost use Rattle.std.specs.Option.{option_to_list};
ghost use Rattle.run_model.specs.Messages.{remark_messages};
ghost use Rattle.run_model.specs.Events.Lines.{line_events, print_event};
ghost use Rattle.run_model.specs.Events.Steps.{events_of, messages_of};
ghost use Rattle.run_model.specs.declared.message.Message.{Message as MessageOf};
ghost use Rattle.run_model.specs.PageEvents.{PageEvent};
ghost use Rattle.run_model.specs.TextLine.Stepping.{step_at};
ghost use Rattle.run_model.specs.declared.line_state.LineState.TheVariants.{Text as InText};

use super::text_line::MOST_LEADING;
use super::{LineState, TextLine, TextStep};
use crate::event::LineEvents;
use crate::message::{CharacterName, Message};
use crate::step::Step;
use input_escapes::{Escape, Remark, TextUse, character, escape_of};
use input_source::is_silent;
use page_model::Glyph;
use roff_num::Name;

impl TextLine {
    /// The events of the line's end: a line of blanks alone is a break and a blank line, and one of
    /// braces and blanks nothing.
    #[inline(always)]
    pub fn end(self) -> Step
        ensures means { (kept : List PageEvent) → events_of kept result ≡ text_line_end self }
        ensures quiet { (kept : Option MessageOf) → messages_of kept result ≡ [] }
    {
        if self.has_glyph || self.has_other {
            Step::LineEnd
        } else if self.has_brace {
            Step::Nothing
        } else {
            Step::BlankLine
        }
    }

    /// What a byte does that isn't dropped: what is read behind it, and its step.
    #[inline(always)]
    pub fn taking(self, byte: u8) -> (LineState, Step)
        ensures means { (i : PageInput) (kept : List PageEvent) → text_taking i self byte
            ≡ meaning_events i result.0 (events_of kept result.1) }
        ensures quiet { (kept : Option MessageOf) → messages_of kept result.1 ≡ [] }
    {
        if byte == b'\n' {
            (LineState::LineStart, self.end())
        } else if byte == b'\t' {
            (self.behind_glyph(), Step::Tab(self.leading))
        } else if is_silent(byte) {
            (self.behind_other(), Step::Nothing)
        } else if byte == b' ' {
            self.blank()
        } else {
            (self.behind_glyph(), Step::Glyph(byte, self.leading))
        }
    }

    /// What a blank does.
    #[inline(always)]
    fn blank(self) -> (LineState, Step)
        ensures means { (i : PageInput) (kept : List PageEvent) → blank_taking i self
            ≡ meaning_events i result.0 (events_of kept result.1) }
        ensures quiet { (kept : Option MessageOf) → messages_of kept result.1 ≡ [] }
    {
        if self.has_glyph {
            return (LineState::Text(self), Step::Gap);
        }
        let mut behind = self;
        behind.leading = self.leading.saturating_add(1).min(MOST_LEADING);
        (LineState::Text(behind), leading_blank(self.leading))
    }

    /// What is read behind something that prints nothing.
    #[inline(always)]
    fn behind_other(self) -> LineState
        ensures { result ≡ InText (record self { has_other = true }) }
    {
        let mut behind = self;
        behind.has_other = true;
        LineState::Text(behind)
    }

    /// What an escape without a name does, by the byte behind its backslash.
    pub fn escape(self, byte: u8) -> TextStep
        ensures { (i : PageInput) → step_at i result ≡ escape_taking i self byte }
    {
        match escape_of(byte) {
            Escape::Prints(printed) => self.glyph(Glyph::Printed(printed)),
            Escape::Blank => self.glyph(Glyph::Blanks(1)),
            Escape::NoWidth => self.glyph(Glyph::Blanks(0)),
            Escape::Tab => self.tab(),
            Escape::Interrupts => self.interrupt(),
            Escape::Brace => self.brace(),
            Escape::LeftOut => self.left_out(byte),
            Escape::Nothing => self.other(),
            Escape::Comment => self.other(),
            Escape::Size => self.other(),
            Escape::Name(_) => self.other(),
            Escape::Text(TextUse::LeftOut(left_out)) => self.left_out(left_out),
            Escape::Text(TextUse::Motion) => self.other(),
            Escape::Width => self.other(),
        }
    }

    /// What a character does, by its name, if there is one.
    pub fn character(self, name: Option<Name>) -> TextStep
        ensures { (i : PageInput) → step_at i result ≡ character_taking i self name }
    {
        match name {
            None => self.say(Message::UnknownCharacter(CharacterName::Nothing)),
            Some(name) => match character(name.as_bytes()) {
                None => self.say(Message::UnknownCharacter(CharacterName::of(&name))),
                Some(text) => self.print(text),
            },
        }
    }

    /// An escape that is left out, by the byte behind its backslash.
    pub fn left_out(self, byte: u8) -> TextStep
        ensures { (i : PageInput) → step_at i result ≡ left_out_taking i self byte }
    {
        self.say(Message::LeftOut([b'\\', byte]))
    }

    /// A motion of so many columns, and what is said of it.
    pub fn motion(self, columns: u32, remark: Option<Remark>) -> TextStep
        ensures { (i : PageInput) → step_at i result ≡ motion_taking i self columns remark }
    {
        let mut step = self.glyph(Glyph::Blanks(columns));
        step.message = message_of(remark);
        step
    }

    /// Something that prints nothing, and of which this is said.
    fn say(self, message: Message) -> TextStep
        ensures { (i : PageInput) → step_at i result ≡ told_taking i self message }
    {
        TextStep {
            reading: self.behind_other(),
            message: Some(message),
            events: LineEvents::Nothing,
        }
    }

    /// A tab, behind the leading blanks.
    fn tab(self) -> TextStep
        ensures { (i : PageInput) → step_at i result ≡ tab_taking i self }
    {
        self.printed(LineEvents::Tab(self.leading))
    }

    /// The line is interrupted: the rest of it is dropped.
    fn interrupt(self) -> TextStep
        ensures { (i : PageInput) → step_at i result ≡ interrupt_taking i self }
    {
        let mut behind = self;
        behind.has_other = true;
        TextStep {
            reading: LineState::Dropped,
            message: None,
            events: LineEvents::Interrupt(behind),
        }
    }

    /// A brace: it prints nothing.
    fn brace(self) -> TextStep
        ensures { (i : PageInput) → step_at i result ≡ brace_taking i self }
    {
        let mut behind = self;
        behind.has_brace = true;
        TextStep {
            reading: LineState::Text(behind),
            message: None,
            events: LineEvents::Nothing,
        }
    }

    /// Something that prints nothing.
    pub fn other(self) -> TextStep
        ensures { (i : PageInput) → step_at i result ≡ other_taking i self }
    {
        TextStep {
            reading: self.behind_other(),
            message: None,
            events: LineEvents::Nothing,
        }
    }

    /// A glyph, behind the leading blanks.
    fn glyph(self, glyph: Glyph) -> TextStep
        ensures { (i : PageInput) → step_at i result ≡ glyph_taking i self glyph }
    {
        match glyph {
            Glyph::Printed(byte) => self.printed(LineEvents::Printed(self.leading, byte)),
            Glyph::Blanks(columns) => self.printed(LineEvents::Blanks(self.leading, columns)),
        }
    }

    /// Bytes that are printed, behind the leading blanks.
    fn print(self, text: &[u8]) -> TextStep
        requires { length text.now ≤ 4 }
        ensures { (i : PageInput) → step_at i result ≡ glyphs_taking i self (map Printed text.now) }
    {
        self.printed(bytes_printed(self.leading, text))
    }

    /// Glyphs of the line: these are their events.
    fn printed(self, events: LineEvents) -> TextStep
        ensures { (i : PageInput) → step_at i result
            ≡ meaning_events i (InText (record self { has_glyph = true; leading = 0 }))
            (line_events events) }
    {
        TextStep {
            reading: self.behind_glyph(),
            message: None,
            events,
        }
    }
}

/// The events of bytes that are printed behind so many leading blanks.
fn bytes_printed(leading: u32, text: &[u8]) -> LineEvents
    requires { length text.now ≤ 4 }
    ensures { line_events result ≡ leading_glyph leading ++ map print_event text.now }
{
    match text {
        [] => LineEvents::Leading(leading),
        [a] => LineEvents::Printed(leading, *a),
        [a, b] => LineEvents::Two(leading, [*a, *b]),
        [a, b, c] => LineEvents::Three(leading, [*a, *b, *c]),
        [a, b, c, d] => LineEvents::Four(leading, [*a, *b, *c, *d]),
        _ => unreachable!(),
    }
}

/// The events of a blank behind so many others at a line's beginning.
fn leading_blank(before: u32) -> Step
    ensures means { (kept : List PageEvent) → events_of kept result ≡ leading_blank_events before }
    ensures quiet { (kept : Option MessageOf) → messages_of kept result ≡ [] }
{
    if before == 0 {
        Step::Break
    } else {
        Step::Nothing
    }
}

/// What is said, if something is.
fn message_of(remark: Option<Remark>) -> Option<Message>
    ensures { option_to_list result ≡ remark_messages remark }
{
    match remark {
        None => None,
        Some(remark) => Some(Message::of_remark(remark)),
    }
}
