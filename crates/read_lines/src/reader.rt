//! Reading: what each item of the input means, before it is done.

ghost use Rattle.std.specs.Prelude.{◌≡◌, ◌≤◌, ◌∷◌, [], IfOk, IfSome, None, false, slice_get};
ghost use Rattle.std.specs.Prelude.{drop, true};
ghost use Rattle.page_model.specs.declared.event.Event.TheVariants.{Break, Set, WordEnd};
ghost use Rattle.run_model.specs.declared.event.PageEvent.TheVariants.{Text};
ghost use Rattle.std.specs.Option.{option_to_list};
ghost use Rattle.read_meaning.specs.Meaning.{IsWithoutBreak};
ghost use Rattle.run_model.specs.Events.Lines.{closing_events};
ghost use Rattle.run_model.specs.Events.Steps.{events_of, messages_of};
ghost use Rattle.run_model.specs.declared.step.Step.TheVariants.{Nothing};
ghost use Rattle.read_lines.specs.Clauses.{LineStart, fresh_reader};
ghost use Rattle.read_lines.specs.Clauses.{Known, interrupted, is_left, is_unfinished};
ghost use Rattle.read_lines.specs.Clauses.{due};
ghost use Rattle.run_model.specs.Registers.Capped.{change_admitted, after_change};
ghost use Rattle.run_model.specs.Starts.{given_change};
ghost use Rattle.run_model.specs.declared.phase.Phase.{Phase};
ghost use Rattle.read_lines.specs.Clauses.{behind_return};
ghost use Rattle.run_model.specs.Requests.Effects.{behind_break};

mod arguments;
mod calls;
mod conditions;
mod definitions;
mod escapes;
mod messages;
mod registers;
mod string_names;
mod strings;
mod text_lines;
mod titles;
mod waiting;

pub use calls::CALL_ARGUMENTS;
use page_model::Param;
use read_meaning::{Meaning, RequestEvents};
use read_registers::Lasting;
use roff_num::{Limit, Num};
use roff_scan::Unread;
use run_model::{Due, LineEvents, LineState, Message, PageEvent, Step};
use std::alloc::{AllocError, Global};
use std::marker::Model;

/// What is being read, what lasts of a run behind a line, and what the last step means that has no
/// name of its own: that may be much and is rare, so it is kept here, and steps are small.
///
/// All its memory is reserved as it is made.
#[derive(Drop)]
pub struct Reader {
    /// What is being read.
    pub reading: LineState,
    /// The number registers, the titles, and the macro that is read behind the input.
    pub lasting: Lasting,
    /// What the last step means that has no name of its own.
    pub meaning: Meaning,
}

impl Model for Reader {
    ghost use Rattle.read_lines.specs.Reader.State.{ReaderState};

    ghost Value = { ReaderState };

    ghost view = { λ r. record {
      reading = r.reading;
      registers = r.lasting;
      meaning = r.meaning;
    } };
}

impl Reader {
    /// At a line's beginning, without registers, with room for so many, and for titles of so many
    /// bytes.
    pub fn new(alloc: Global, names_cap: u32, line: u32) -> Result<Self, AllocError>
        ensures { IfOk result (λ r. r ≡ fresh_reader names_cap line) }
    {
        Ok(Reader {
            reading: LineState::LineStart,
            lasting: Lasting::new(alloc, names_cap, line)?,
            meaning: Meaning::new(),
        })
    }

    /// What is due before anything more is taken.
    #[inline(always)]
    pub fn due(&self) -> Option<Due>
        ensures { result ≡ due self.now.reading }
    {
        self.reading.due()
    }

    /// Whether a line is to end where the input does: one of which something was read, or one that
    /// was interrupted, if one is to end.
    pub fn is_unfinished(&self, left: bool) -> bool
        ensures { (phase : Phase) (k : Known) → is_left phase k.interrupted ≡ left
            → result ≡ is_unfinished phase k self.now.reading }
    {
        self.reading.is_unfinished(left)
    }

    /// Sets a register that is given to a run, of a name of one byte, to a value.
    ///
    /// # Errors
    ///
    /// [`Limit::Names`] if more names than may would have a register; nothing changed then.
    pub fn give(&mut self, name: u8, value: Num) -> Result<(), Limit>
        ensures answer { result ≡ change_admitted (given_change name value) self.old.registers }
        ensures registers { self.new ≡ record self.old {
          registers = after_change (given_change name value) self.old.registers;
        } }
    {
        self.lasting.registers.give(name, value)
    }

    /// A line begins.
    pub fn begin_next_line(&mut self)
        ensures { self.new ≡ record self.old { reading = LineStart } }
    {
        self.reading = LineState::LineStart;
    }

    /// The end of a body, with the number of what it leads back to: that is read on, unless a
    /// control line is being read.
    pub fn end_call(&mut self, back: u8)
        ensures { self.new
            ≡ record self.old { reading = behind_return back self.old.reading } }
    {
        self.reading = self.reading.behind_return(back);
    }

    /// Something that isn't a byte of the line stands in front: no quote follows the quote before
    /// it.
    pub fn interrupt(&self, unread: &mut Unread<PageEvent>)
        ensures { unread.new
            ≡ record unread.old { input = interrupted self.now.reading unread.old.input } }
    {
        match self.reading {
            LineState::Collecting(purpose) => {
                if purpose.collects_arguments() {
                    unread.settle();
                }
            }
            _ => {}
        }
    }

    /// The run closes: a line begins, and the events that close it are kept.
    pub fn close(&mut self)
        ensures kept { self.new.meaning.events ≡ closing_events }
        ensures message { self.new.meaning.message ≡ None }
        ensures others { self.new
            ≡ record self.old { reading = LineStart; meaning = self.new.meaning } }
    {
        self.reading = LineState::LineStart;
        self.meaning.keep_line(None, false, LineEvents::Closing);
    }

    /// Whether the events of the meaning that is kept begin with those of a break.
    #[inline(always)]
    pub fn begins_with_break(&self) -> bool
        ensures begins { result ≡ true → self.now.meaning.events
            ≡ Text WordEnd ∷ Text Break ∷ drop 2 self.now.meaning.events }
        ensures others { result ≡ false → IsWithoutBreak self.now.meaning.events }
    {
        self.meaning.begins_with_break()
    }

    /// The parameter that the events of the meaning set that is kept, behind those of a break, if
    /// one is to come, where they are no others.
    #[inline(always)]
    pub fn setting_behind(&self, breaks: bool) -> Option<Param>
        ensures { IfSome result (λ param.
            self.now.meaning.events ≡ behind_break breaks (Text (Set param) ∷ [])) }
    {
        self.meaning.setting_behind(breaks)
    }

    /// The event at an index of the meaning that is kept, if there are so many: 36 at most.
    #[inline(always)]
    pub fn event(&self, index: usize) -> Option<PageEvent>
        ensures at { result ≡ slice_get self.now.meaning.events index }
        ensures few { IfSome result (λ event. index ≤ 35) }
    {
        self.meaning.event(index)
    }

    /// Keeps the events of a step that has a name of its own, where some of them are put back.
    #[cold]
    pub fn keep_step(&mut self, step: Step)
        ensures kept { self.new.meaning.events ≡ events_of [] step }
        ensures others { self.new ≡ record self.old { meaning = self.new.meaning } }
    {
        self.meaning.keep_line(None, false, step.line());
    }

    /// Keeps an event that is put back.
    #[cold]
    pub fn keep_event(&mut self, event: PageEvent)
        ensures kept { self.new.meaning.events ≡ event ∷ [] }
        ensures others { self.new ≡ record self.old { meaning = self.new.meaning } }
    {
        self.meaning
            .keep_request(None, None, false, RequestEvents::One(event));
    }

    /// The message of the meaning that is kept, on the line of the last byte taken, if it has one.
    pub fn message(&self) -> Option<Message>
        ensures { result ≡ self.now.meaning.message }
    {
        self.meaning.message()
    }

    /// A message is reported.
    pub fn report(&mut self, message: Message) -> Step
        ensures says { messages_of self.new.meaning.message result ≡ message ∷ [] }
        ensures none { events_of self.new.meaning.events result ≡ [] }
        ensures others { self.new ≡ record self.old { meaning = self.new.meaning } }
    {
        self.meaning
            .keep_line(Some(message), false, LineEvents::Nothing);
        Step::Meaning
    }

    /// A message is reported, if there is one.
    #[inline(always)]
    fn say(&mut self, message: Option<Message>) -> Step
        ensures says { messages_of self.new.meaning.message result ≡ option_to_list message }
        ensures none { events_of self.new.meaning.events result ≡ [] }
        ensures others { self.new ≡ record self.old { meaning = self.new.meaning } }
    {
        match message {
            None => Step::Nothing,
            Some(message) => self.report(message),
        }
    }

    /// This is read on, and nothing is meant.
    #[inline(always)]
    pub fn read_on(&mut self, reading: LineState) -> Step
        ensures reading { self.new ≡ record self.old { reading = reading } }
        ensures step { result ≡ Nothing }
    {
        self.reading = reading;
        Step::Nothing
    }

    /// What is being read.
    #[inline(always)]
    pub fn reading(&self) -> LineState
        ensures { result ≡ self.now.reading }
    {
        self.reading
    }

    /// This is read on.
    #[inline(always)]
    pub fn go_on(&mut self, reading: LineState)
        ensures { self.new ≡ record self.old { reading = reading } }
    {
        self.reading = reading;
    }
}
