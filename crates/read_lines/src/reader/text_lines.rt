//! The beginning of a line, and text lines.

ghost use Rattle.std.specs.Prelude.{◌≡◌, ◌++◌, Ok, Some};
ghost use Rattle.run_model.specs.Events.Lines.{line_events};
ghost use Rattle.std.specs.Option.{option_to_list};
ghost use Rattle.run_model.specs.Events.Steps.{events_of, messages_of};
ghost use Rattle.run_model.specs.Reading.Items.{behind_events};
ghost use Rattle.run_model.specs.Reading.TextLines.{text_taking};
ghost use Rattle.run_model.specs.Registers.{Known};
ghost use Rattle.input_source.specs.Bytes.{newline};
ghost use Rattle.read_lines.specs.Clauses.{ComposerOf, PageUnread, TakesAs, beginning_found};
ghost use Rattle.read_lines.specs.Clauses.{first_escape, first_name};
ghost use Rattle.read_lines.specs.Clauses.{PageInput, first_taking, going_on, going_on_told};
ghost use Rattle.read_lines.specs.Clauses.{line_begun};
ghost use Rattle.read_lines.specs.Clauses.{name_taking, text_found};

use super::Reader;
use roff_num::{Limit, Name};
use roff_scan::{CopyUnit, Found, NameUse, Unread};
use run_model::{LineState, PageEvent, Step, TextLine, TextStep};
use run_state::Composer;

impl Reader {
    /// Something where a line begins, or a branch, or its rest behind its brace.
    ///
    /// # Errors
    ///
    /// A limit that it would pass; what was changed then is of no more use.
    pub fn begin_line(
        &mut self,
        at: LineState,
        found: Found,
        composer: &Composer,
        unread: &mut Unread<PageEvent>,
    ) -> Result<Step, Limit>
        ensures { TakesAs (λ k. beginning_found k unread.old.input at found)
            composer.now self.old self.new unread.old unread.new result }
    {
        match found {
            Found::GoesOn => Ok(self.read_on(at)),
            Found::Unit(CopyUnit::Byte(byte)) => Ok(self.begin_with(at, byte, composer)),
            Found::Unit(CopyUnit::Kept(byte)) => Ok(self.begin_with_escape(at, byte, composer)),
            Found::Escape(byte) => Ok(self.begin_with_escape(at, byte, composer)),
            Found::Holds(unit) => self.hold_text(unit, at, unread),
            Found::Motion(columns, remark) => {
                let interrupted = composer.environments.interrupted_line();
                let step = TextLine::begun_as(interrupted).motion(columns, remark);
                Ok(self.begin_text(step, interrupted))
            }
            Found::Measures(width) => self.measure(width, at, unread),
            Found::Tells(remark) => Ok(self.tell(remark, at)),
            Found::Asks(purpose, name) => {
                self.reading = at;
                self.begin_with_name(purpose, name, composer, unread)
            }
            Found::Decides(..) => Ok(self.read_on(at)),
        }
    }

    /// A byte where a line begins, or a branch, or its rest behind its brace.
    #[inline(always)]
    pub fn begin_with(&mut self, at: LineState, byte: u8, composer: &Composer) -> Step
        ensures { (u : PageUnread) → TakesAs (λ k. first_taking k u.input at byte)
            composer.now self.old self.new u u (Ok result) }
    {
        match (at, byte) {
            (LineState::Branch, b' ') => self.read_on(LineState::Branch),
            (LineState::Braced, b' ') => self.read_on(LineState::Braced),
            (LineState::Braced, b'\n') => self.read_on(LineState::LineStart),
            (_, _) => self.begin_with_any(byte, composer),
        }
    }

    /// The first byte of a line: a dot or an apostrophe begins a control line, another a text line.
    #[inline(always)]
    fn begin_with_any(&mut self, byte: u8, composer: &Composer) -> Step
        ensures { (u : PageUnread) → TakesAs (λ k. line_begun k u.input byte)
            composer.now self.old self.new u u (Ok result) }
    {
        match byte {
            b'.' => self.read_on(LineState::Control { breaks: true }),
            b'\'' => self.read_on(LineState::Control { breaks: false }),
            _ => {
                match composer.environments.interrupted_line() {
                    None => self.step_on(TextLine::new().taking(byte)),
                    Some(line) => self.go_on_with(line, byte),
                }
            }
        }
    }

    /// An escape where a line begins, or a branch, or its rest behind its brace.
    fn begin_with_escape(&mut self, at: LineState, byte: u8, composer: &Composer) -> Step
        ensures { (u : PageUnread) → TakesAs (λ k. first_escape k u.input at byte)
            composer.now self.old self.new u u (Ok result) }
    {
        if byte == b'\n' {
            return self.read_on(behind_newline(at));
        }
        match (at, byte) {
            (LineState::Branch, b'{') => self.read_on(LineState::Braced),
            (_, _) => {
                let interrupted = composer.environments.interrupted_line();
                let step = TextLine::begun_as(interrupted).escape(byte);
                self.begin_text(step, interrupted)
            }
        }
    }

    /// Something of a text line.
    ///
    /// # Errors
    ///
    /// A limit that it would pass; what was changed then is of no more use.
    #[inline(always)]
    pub fn read_text(
        &mut self,
        line: TextLine,
        found: Found,
        composer: &Composer,
        unread: &mut Unread<PageEvent>,
    ) -> Result<Step, Limit>
        ensures { TakesAs (λ k. text_found k unread.old.input line found)
            composer.now self.old self.new unread.old unread.new result }
    {
        match found {
            Found::GoesOn => Ok(self.read_on(LineState::Text(line))),
            Found::Unit(CopyUnit::Byte(byte)) => Ok(self.step_on(line.taking(byte))),
            Found::Unit(CopyUnit::Kept(byte)) | Found::Escape(byte) => {
                Ok(self.step(line.escape(byte)))
            }
            Found::Holds(unit) => self.hold_text(unit, LineState::Text(line), unread),
            Found::Motion(columns, remark) => Ok(self.step(line.motion(columns, remark))),
            Found::Measures(width) => self.measure(width, LineState::Text(line), unread),
            Found::Tells(remark) => Ok(self.tell(remark, LineState::Text(line))),
            Found::Asks(purpose, name) => {
                self.reading = LineState::Text(line);
                self.read_name(line, purpose, name, composer, unread)
            }
            Found::Decides(..) => Ok(self.read_on(LineState::Text(line))),
        }
    }

    /// The name behind an escape where a line begins, or a branch: what is read in the escape's
    /// place leaves it there.
    fn begin_with_name(
        &mut self,
        purpose: NameUse,
        name: Option<Name>,
        composer: &Composer,
        unread: &mut Unread<PageEvent>,
    ) -> Result<Step, Limit>
        ensures { TakesAs (λ k. first_name k unread.old.input self.old.reading purpose name)
            composer.now self.old self.new unread.old unread.new result }
    {
        let interrupted = composer.environments.interrupted_line();
        let line = TextLine::begun_as(interrupted);
        match purpose {
            NameUse::Character => Ok(self.begin_text(line.character(name), interrupted)),
            NameUse::Font => Ok(self.begin_text(line.other(), interrupted)),
            NameUse::LeftOut(byte) => Ok(self.begin_text(line.left_out(byte), interrupted)),
            NameUse::Register(_) => self.ask(purpose, name, composer, unread),
            NameUse::Text => self.ask(purpose, name, composer, unread),
            NameUse::Argument => self.ask(purpose, name, composer, unread),
        }
    }

    /// The name behind an escape of a text line.
    #[inline(always)]
    fn read_name(
        &mut self,
        line: TextLine,
        purpose: NameUse,
        name: Option<Name>,
        composer: &Composer,
        unread: &mut Unread<PageEvent>,
    ) -> Result<Step, Limit>
        ensures { TakesAs (λ k. name_taking k unread.old.input self.old.reading line purpose name)
            composer.now self.old self.new unread.old unread.new result }
    {
        match purpose {
            NameUse::Character => Ok(self.step(line.character(name))),
            NameUse::Font => Ok(self.step(line.other())),
            NameUse::LeftOut(byte) => Ok(self.step(line.left_out(byte))),
            NameUse::Register(_) => self.ask(purpose, name, composer, unread),
            NameUse::Text => self.ask(purpose, name, composer, unread),
            NameUse::Argument => self.ask(purpose, name, composer, unread),
        }
    }

    /// What a byte of a text line does: this is read behind it.
    #[inline(always)]
    pub fn step_on(&mut self, taken: (LineState, Step)) -> Step
        ensures reading { self.new ≡ record self.old { reading = taken.0 } }
        ensures step { result ≡ taken.1 }
    {
        self.reading = taken.0;
        taken.1
    }

    /// The first byte of a text line with which an interrupted one goes on.
    #[inline(never)]
    fn go_on_with(&mut self, line: TextLine, byte: u8) -> Step
        ensures { (es : ComposerOf) (u : PageUnread)
            → TakesAs
            (λ k. behind_events (going_on_told (Some line)) (text_taking u.input line byte))
            es self.old self.new u u (Ok result) }
    {
        let (reading, step) = line.taking(byte);
        self.reading = reading;
        self.meaning.keep_line(None, true, step.line());
        Step::Meaning
    }

    /// What something of a text line does.
    pub(super) fn step(&mut self, step: TextStep) -> Step
        ensures now { self.new
            ≡ record self.old { reading = step.reading; meaning = self.new.meaning } }
        ensures says { messages_of self.new.meaning.message result ≡ option_to_list step.message }
        ensures events { events_of self.new.meaning.events result ≡ line_events step.events }
    {
        self.begin_text(step, None)
    }

    /// What something does that begins a text line: an interrupted one goes on, and that is told
    /// first.
    pub(super) fn begin_text(&mut self, step: TextStep, interrupted: Option<TextLine>) -> Step
        ensures now { self.new
            ≡ record self.old { reading = step.reading; meaning = self.new.meaning } }
        ensures says { messages_of self.new.meaning.message result ≡ option_to_list step.message }
        ensures events { events_of self.new.meaning.events result
            ≡ going_on_told interrupted ++ line_events step.events }
    {
        self.reading = step.reading;
        self.meaning
            .keep_line(step.message, interrupted.is_some(), step.events);
        Step::Meaning
    }
}

/// What is read behind a backslash and a newline where a line begins, or a branch: that begins
/// still.
fn behind_newline(at: LineState) -> LineState
    ensures { (k : Known) (i : PageInput) → first_escape k i at newline ≡ going_on i result }
{
    match at {
        LineState::Branch => LineState::Branch,
        _ => LineState::LineStart,
    }
}
