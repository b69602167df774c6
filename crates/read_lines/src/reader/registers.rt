//! Number registers: their values and texts, and those that go.

ghost use Rattle.std.specs.Prelude.{◌≡◌, None, Some, false, true};
ghost use Rattle.std.specs.Option.{option_to_list};
ghost use Rattle.read_lines.specs.Clauses.{StepsReader, TakesAs};
ghost use Rattle.read_lines.specs.Clauses.{interpolating};
ghost use Rattle.run_model.specs.Events.Steps.{events_of, messages_of};
ghost use Rattle.run_state.specs.Composer.Standing.{StandFor};
ghost use Rattle.roff_num.specs.ShortNames.{name_bytes};
ghost use Rattle.roff_num.specs.declared.limits.Limits.{Limits};
ghost use Rattle.run_model.specs.Environments.{PageHistory};
ghost use Rattle.run_model.specs.Registers.{text_of_register};
ghost use Rattle.run_model.specs.Requests.Effects.{page_numbered};
ghost use Rattle.run_model.specs.Run.{known_at};

use super::Reader;
use read_names::facts;
use roff_num::{Direction, Limit, Name, Num, NumText, ShortName};
use roff_scan::Unread;
use run_model::{LineEvents, Message, PageEvent, Step};
use run_state::Composer;

impl Reader {
    /// A register is stepped, and then read in the place of its escape: its text is put in front.
    pub(super) fn interpolate(
        &mut self,
        step: Direction,
        name: &Name,
        composer: &Composer,
        unread: &mut Unread<PageEvent>,
    ) -> Result<Step, Limit>
        ensures { TakesAs
            (λ k. interpolating k unread.old.input self.old.reading (Some step) name.now)
            composer.now self.old self.new unread.old unread.new result }
    {
        let facts = facts(composer, unread);
        let lasting = &mut self.lasting;
        let given = lasting.registers.interpolate(step, name, facts);
        unread.push(&given.text)?;
        match given.number {
            None => Ok(self.say(given.message)),
            Some(number) => Ok(self.number_page(given.message, number)),
        }
    }

    /// The page gets a number, and a message is reported, if there is one.
    fn number_page(&mut self, message: Option<Message>, number: Num) -> Step
        ensures says { messages_of self.new.meaning.message result ≡ option_to_list message }
        ensures numbers { events_of self.new.meaning.events result ≡ page_numbered (Some number) }
        ensures others { self.new ≡ record self.old { meaning = self.new.meaning } }
    {
        self.meaning
            .keep_line(message, false, LineEvents::Number(number));
        Step::Meaning
    }

    /// The text of a register that isn't stepped is put in front.
    #[inline(always)]
    pub(super) fn put_register(
        &self,
        name: &Name,
        composer: &Composer,
        unread: &mut Unread<PageEvent>,
    ) -> Result<Step, Limit>
        ensures { TakesAs (λ k. interpolating k unread.old.input self.now.reading None name.now)
            composer.now self.now self.now unread.old unread.new result }
    {
        let lasting = &self.lasting;
        let text = lasting.registers.text(name, facts(composer, unread));
        unread.push(&text)?;
        Ok(Step::Nothing)
    }

    /// The text of the register of a name, as it is read in the place of its escape.
    #[inline(always)]
    pub fn register_text(
        &self,
        name: ShortName,
        composer: &Composer,
        unread: &Unread<PageEvent>,
    ) -> NumText
        ensures { (l : Limits) (h : PageHistory) → StandFor l h composer.now
            → result.items ≡ text_of_register
            (known_at h self.now.registers.all unread.now.input) (name_bytes name) }
    {
        let lasting = &self.lasting;
        lasting
            .registers
            .text(&name.name(), facts(composer, unread))
    }

    /// Steps the register of a name, unless something is said of that, or the page gets a number.
    /// Returns whether it did; else nothing happens.
    #[inline(always)]
    pub fn step_quietly(&mut self, direction: Direction, name: ShortName) -> bool
        ensures steps { result ≡ true → StepsReader direction (name_bytes name) self.old self.new }
        ensures unchanged { result ≡ false → self.new ≡ self.old }
    {
        let lasting = &mut self.lasting;
        lasting.registers.step_quietly(direction, &name.name())
    }
}
