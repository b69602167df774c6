//! The number registers of a run: those that a document sets, the page number, and the read-only
//! ones (manual, section 8).

ghost use Rattle.std.specs.Prelude.{◌≡◌, [], ◌∷◌, IfOk, IfSome, if◌then◌else◌, false, length};
ghost use Rattle.std.specs.Prelude.{nat_lt, Option};
ghost use Rattle.std.specs.Option.{option_to_list};
ghost use Rattle.roff_num.specs.Ranges.{is_in_range};
ghost use Rattle.roff_num.specs.RegisterText.{register_text};
ghost use Rattle.roff_store.specs.Registers.{next_value};
ghost use Rattle.run_model.specs.Registers.{is_page, number_in_range, page_name};
ghost use Rattle.run_model.specs.declared.message.Message.TheVariants.{BadNumber};

mod read_only;
mod stepping;
mod texts;

use read_only::{is_read_only, query_of};
use roff_num::{Direction, Format, Limit, Name, Num, NumText, ShortName};
use roff_store::{RegTable, Register};
use run_model::Message;
use run_state::Composer;
use std::alloc::{AllocError, Global};
use std::marker::Model;
use texts::written;

/// What is known of a run beside its registers.
#[derive(Clone, Copy)]
pub struct Facts<'a> {
    /// The environments and the pages.
    pub composer: &'a Composer,
    /// How many newlines were taken of the source.
    pub newlines: u32,
    /// How many arguments the innermost body has that a line called.
    pub arguments: usize,
}

/// What the escape `\n` gives.
#[derive(Drop)]
pub struct Interpolated {
    /// The register as it is written.
    pub text: NumText,
    /// What is said of its step.
    pub message: Option<Message>,
    /// The number that the page gets by it, if it gets one.
    pub number: Option<Num>,
}

/// The registers that can be set: those by name, and of the page number `%`, whose value is the
/// pages', the increment and the format.
///
/// All memory is reserved as they are made.
#[derive(Drop)]
pub struct RunRegisters {
    named: RegTable,
    page_increment: Num,
    page_format: Format,
}

impl Model for RunRegisters {
    ghost use Rattle.read_registers.specs.Lasting.{NumbersKept};

    ghost Value = { NumbersKept };

    ghost use Rattle.read_registers.specs.Registers.Kept.{numbers_by, IsSound};

    ghost view = { numbers_by };

    ghost invariant = { IsSound };
}

impl RunRegisters {
    ghost use Rattle.run_model.specs.Registers.{Remove, SetTo, FormatAs, StepBy, is_page};
    ghost use Rattle.run_model.specs.Registers.{known_stepped, page_register};
    ghost use Rattle.run_model.specs.Registers.{page_stepped, settable, step_messages};
    ghost use Rattle.run_model.specs.Registers.{text_of_register, value_in_force};
    ghost use Rattle.run_model.specs.Registers.Capped.{change_admitted, after_change, with_change};
    ghost use Rattle.read_registers.specs.Lasting.{TitlesKept, capped_of, no_numbers};
    ghost use Rattle.read_registers.specs.Registers.Coded.{AreNumbersOf, AreOf};
    ghost use Rattle.roff_num.specs.declared.short_name.ShortName.{ShortName as NameOf};
    ghost use Rattle.run_model.specs.Registers.{Known};
    ghost use Rattle.run_model.specs.Starts.{given_change};

    /// No register is set; so many names may have one.
    ///
    /// # Errors
    ///
    /// [`AllocError`] if the memory for them can't be had.
    pub(crate) fn new(alloc: Global, cap: u32) -> Result<Self, AllocError>
        ensures { IfOk result (λ r. r ≡ no_numbers cap) }
    {
        Ok(RunRegisters {
            named: RegTable::new(alloc, cap)?,
            page_increment: Num(0),
            page_format: Format::Decimal(1),
        })
    }

    /// No more names have a register than may.
    pub(crate) fn stay_within(&self)
        ensures { nat_lt self.now.cap (length self.now.named) ≡ false }
    {
        let _ = &self.named;
    }

    /// The format of the page number.
    pub fn page_format(&self) -> Format
        ensures { result ≡ self.now.page_format }
    {
        self.page_format
    }

    /// The register that a name reads as, if it isn't read-only.
    #[inline(always)]
    pub(crate) fn settable(&self, name: &Name, facts: Facts<'_>) -> Register
        ensures { (k : Known) → AreOf k facts.entry → AreNumbersOf k self.now
            → result ≡ settable name.now k }
    {
        if is_page(name) {
            self.page(facts)
        } else {
            self.named.get(name).unwrap_or_default()
        }
    }

    /// The page number's register.
    fn page(&self, facts: Facts<'_>) -> Register
        ensures { (k : Known) → AreOf k facts.entry → AreNumbersOf k self.now
            → result ≡ page_register k }
    {
        Register {
            value: facts.composer.pages.number(),
            increment: self.page_increment,
            format: self.page_format,
        }
    }

    /// The text of a register.
    #[inline(always)]
    pub fn text(&self, name: &Name, facts: Facts<'_>) -> NumText
        ensures { (k : Known) → AreOf k facts.entry → AreNumbersOf k self.now
            → result.items ≡ text_of_register k name.now }
    {
        match query_of(name) {
            Some(query) => facts.text(query),
            None => {
                let register = self.settable(name, facts);
                written(register.value, register.format)
            }
        }
    }

    /// The value in force under a name, of a read-only register too.
    pub fn value_in_force(&self, name: &Name, facts: Facts<'_>) -> Num
        ensures { (k : Known) → AreOf k facts.entry → AreNumbersOf k self.now
            → result ≡ value_in_force k name.now }
    {
        match query_of(name) {
            Some(query) => Num(facts.answer(query)),
            None => self.settable(name, facts).value,
        }
    }

    /// The value in force under a name that is neither that of a read-only register nor the page
    /// number's.
    #[inline(always)]
    pub fn set_value(&self, name: &Name) -> Option<Num>
        ensures { IfSome result (λ value. (k : Known) → AreNumbersOf k self.now
            → value ≡ value_in_force k name.now) }
    {
        if is_page(name) {
            return None;
        }
        match query_of(name) {
            Some(_) => None,
            None => Some(self.named.get(name).unwrap_or_default().value),
        }
    }

    /// Sets a register that is given to a run, of a name of one byte, to a value, without an
    /// increment.
    ///
    /// # Errors
    ///
    /// [`Limit::Names`] if more names than may would have a register; the registers are then as
    /// they were.
    pub fn give(&mut self, name: u8, value: Num) -> Result<(), Limit>
        ensures answer { (t : TitlesKept) (last : Option NameOf)
            → result ≡ change_admitted (given_change name value) (capped_of self.old t last) }
        ensures registers { (t : TitlesKept) (last : Option NameOf)
            → capped_of self.new t last
            ≡ after_change (given_change name value) (capped_of self.old t last) }
    {
        let name = ShortName {
            first: name,
            second: None,
        };
        self.set(&name.name(), value, Num(0))
    }

    /// Removes the register of a name (`rr`). The page number stays.
    pub fn remove(&mut self, name: &Name)
        ensures { (t : TitlesKept) (last : Option NameOf) → capped_of self.new t last
            ≡ with_change (Remove (name.now ∷ [])) (capped_of self.old t last) }
    {
        self.named.remove(name);
    }

    /// Steps a register, and then gives its text (`\n`).
    pub fn interpolate(
        &mut self,
        direction: Direction,
        name: &Name,
        facts: Facts<'_>,
    ) -> Interpolated
        ensures registers { (t : TitlesKept) (last : Option NameOf) → capped_of self.new t last
            ≡ with_change (StepBy name.now direction) (capped_of self.old t last) }
        ensures message { (k : Known) → AreOf k facts.entry → AreNumbersOf k self.old
            → option_to_list result.message ≡ step_messages (Some direction) name.now k }
        ensures number { (k : Known) → AreOf k facts.entry → AreNumbersOf k self.old
            → result.number ≡ page_stepped (Some direction) name.now k }
        ensures text { (k : Known) → AreOf k facts.entry → AreNumbersOf k self.old
            → result.text.items
            ≡ text_of_register (known_stepped (Some direction) name.now k) name.now }
    {
        if is_page(name) {
            return step_page(direction, self.page(facts));
        }
        let message = self.step(direction, name);
        Interpolated {
            text: self.text(name, facts),
            message,
            number: None,
        }
    }

    /// Steps a register that isn't the page number's, unless it is read-only, and says where the
    /// step is out of range and so not made.
    fn step(&mut self, direction: Direction, name: &Name) -> Option<Message>
        requires named { is_page name.now ≡ false }
        ensures registers { (t : TitlesKept) (last : Option NameOf) → capped_of self.new t last
            ≡ with_change (StepBy name.now direction) (capped_of self.old t last) }
        ensures message { (k : Known) → AreNumbersOf k self.old
            → option_to_list result ≡ step_messages (Some direction) name.now k }
    {
        if is_read_only(name) {
            return None;
        }
        match self.named.step(name, direction) {
            Ok(_) => None,
            Err(_) => Some(Message::BadNumber),
        }
    }

    /// Sets a register's value and increment. One of a read-only register stays as it is.
    ///
    /// # Errors
    ///
    /// [`Limit::Names`] if more names than may would have a register; the registers are then as
    /// they were.
    #[inline(always)]
    pub fn set(&mut self, name: &Name, value: Num, increment: Num) -> Result<(), Limit>
        ensures answer { (t : TitlesKept) (last : Option NameOf)
            → result
            ≡ change_admitted (SetTo name.now value increment) (capped_of self.old t last) }
        ensures registers { (t : TitlesKept) (last : Option NameOf)
            → capped_of self.new t last
            ≡ after_change (SetTo name.now value increment) (capped_of self.old t last) }
    {
        let RunRegisters {
            named,
            page_increment,
            ..
        } = self;
        if is_read_only(name) {
            return Ok(());
        }
        if is_page(name) {
            *page_increment = increment;
            return Ok(());
        }
        named.set(name, value, increment)
    }

    /// Sets how a register is written.
    pub(crate) fn set_format(&mut self, name: &Name, format: Format) -> Result<(), Limit>
        ensures answer { (t : TitlesKept) (last : Option NameOf)
            → result ≡ change_admitted (FormatAs name.now format) (capped_of self.old t last) }
        ensures registers { (t : TitlesKept) (last : Option NameOf)
            → capped_of self.new t last
            ≡ after_change (FormatAs name.now format) (capped_of self.old t last) }
    {
        let RunRegisters {
            named,
            page_format,
            ..
        } = self;
        if is_read_only(name) {
            return Ok(());
        }
        if is_page(name) {
            *page_format = format;
            return Ok(());
        }
        named.set_format(name, format)
    }
}

/// The name of the page number's register.
pub fn page_name() -> Name
    ensures { result ≡ page_name }
{
    Name::new(b"%").unwrap()
}

/// Whether a name is the page number's.
pub fn is_page(name: &Name) -> bool
    ensures { result ≡ is_page name.now }
{
    name.as_bytes() == b"%".as_slice()
}

/// What the escape `\n` gives where it steps the page number: a step out of range isn't made.
fn step_page(direction: Direction, page: Register) -> Interpolated
    ensures number { result.number ≡ number_in_range (next_value direction page) }
    ensures message { option_to_list result.message
        ≡ (if is_in_range (next_value direction page) then [] else BadNumber ∷ []) }
    ensures text { result.text.items ≡ register_text page.format
        (if is_in_range (next_value direction page) then next_value direction page
        else page.value.0) }
{
    let value = match direction {
        Direction::Up => page.value.0.checked_add(page.increment.0),
        Direction::Down => page.value.0.checked_sub(page.increment.0),
    };
    match value {
        Some(value) => Interpolated {
            text: written(Num(value), page.format),
            message: None,
            number: Some(Num(value)),
        },
        None => Interpolated {
            text: written(page.value, page.format),
            message: Some(Message::BadNumber),
            number: None,
        },
    }
}
