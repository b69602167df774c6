//! The request that sets a number register.

ghost use Rattle.std.specs.Prelude.{◌≡◌, ◌∷◌, [], Bool, false};
ghost use Rattle.run_state.specs.Composer.Standing.{StandFor};
ghost use Rattle.roff_num.specs.declared.limits.Limits.{Limits};
ghost use Rattle.roff_num.specs.declared.num.Scale.TheVariants.{Units};
ghost use Rattle.read_obeying.specs.Acting.{Acts, Changed, DoesEffect, kept};
ghost use Rattle.read_requests.specs.Request.Coded.{set_by};
ghost use Rattle.run_model.specs.Environments.{PageHistory};
ghost use Rattle.run_model.specs.Events.Steps.{events_of, messages_of};
ghost use Rattle.run_model.specs.Numbers.{value_beside};
ghost use Rattle.run_model.specs.Reading.Items.{PageUnread};
ghost use Rattle.run_model.specs.Registers.{SetTo, value_in_force};
ghost use Rattle.run_model.specs.Requests.Effects.{meant_by, page_numbered};
ghost use Rattle.run_model.specs.Requests.Numbering.{number_of_page};
ghost use Rattle.run_model.specs.Run.{known_at};
ghost use Rattle.run_model.specs.declared.request.Request.TheVariants.{NumberRegister};

use crate::telling::report;
use read_meaning::Meaning;
use read_names::facts;
use read_registers::{Lasting, is_page};
use read_requests::{Numbers, numbers_given, register_named};
use roff_num::{Limit, Name, Num};
use roff_scan::Unread;
use run_model::{LineEvents, Message, PageEvent, Step};
use run_state::Composer;

/// Sets the register that the first argument names to the value of the second one and the increment
/// of the third. Without a name or a value nothing happens.
///
/// # Errors
///
/// The limit on names, if more would have a register.
pub(crate) fn set_register(
    lasting: &mut Lasting,
    meaning: &mut Meaning,
    composer: &Composer,
    unread: &Unread<PageEvent>,
) -> Result<Step, Limit>
    ensures { (breaks : Bool) → Acts breaks NumberRegister composer.now
        (kept lasting.old meaning.old) (kept lasting.new meaning.new)
        unread.now unread.now result }
{
    let arguments = unread.arguments();
    match register_named(arguments.get(0)) {
        None => Ok(Step::Nothing),
        Some(name) => match arguments.get(1) {
            None => Ok(Step::Nothing),
            Some(text) => {
                let in_force = value_beside(lasting, &name, text, composer, unread);
                let numbers = numbers_given(in_force, text, arguments.get(2));
                set_to(lasting, meaning, &name, numbers)
            }
        },
    }
}

/// The value in force beside which a text sets a register: 0 where no sign stands in front of it.
#[inline(always)]
fn value_beside(
    lasting: &Lasting,
    name: &Name,
    text: &[u8],
    composer: &Composer,
    unread: &Unread<PageEvent>,
) -> Num
    ensures { (l : Limits) (h : PageHistory) → StandFor l h composer.now
        → value_beside result.0 Units text.now ≡ value_beside (value_in_force
        (known_at h lasting.now.all unread.now.input) name.now).0 Units text.now }
{
    match text.split_first() {
        Some((b'+', _)) => value_now(lasting, name, composer, unread),
        Some((b'-', _)) => value_now(lasting, name, composer, unread),
        _ => Num(0),
    }
}

/// The value in force of a register.
#[inline(always)]
fn value_now(lasting: &Lasting, name: &Name, composer: &Composer, unread: &Unread<PageEvent>) -> Num
    ensures { (l : Limits) (h : PageHistory) → StandFor l h composer.now → result
        ≡ value_in_force (known_at h lasting.now.all unread.now.input) name.now }
{
    match lasting.registers.set_value(name) {
        Some(value) => value,
        None => lasting
            .registers
            .value_in_force(name, facts(composer, unread)),
    }
}

/// Sets a register to these, if they are numbers; the page's number is the page's value.
///
/// # Errors
///
/// The limit on names, if more would have a register.
#[inline(always)]
fn set_to(
    lasting: &mut Lasting,
    meaning: &mut Meaning,
    name: &Name,
    numbers: Option<Numbers>,
) -> Result<Step, Limit>
    ensures { (u : PageUnread) → DoesEffect (meant_by false (set_by name.now numbers))
        (kept lasting.old meaning.old) (kept lasting.new meaning.new) u u result }
{
    match numbers {
        Some(numbers) => {
            set_numbers(lasting, name, numbers)?;
            Ok(number_page_by(meaning, name, numbers.value))
        }
        None => Ok(report(meaning, Message::BadNumber)),
    }
}

/// Sets a register to these.
///
/// # Errors
///
/// The limit on names, if more would have a register.
#[inline(always)]
pub(crate) fn set_numbers(lasting: &mut Lasting, name: &Name, numbers: Numbers) -> Result<(), Limit>
    ensures changed { Changed (SetTo name.now numbers.value numbers.increment ∷ [])
        lasting.old lasting.new result }
{
    lasting
        .registers
        .set(name, numbers.value, numbers.increment)
}

/// The page gets a number, if the register of this name is the page number's.
#[inline(always)]
fn number_page_by(meaning: &mut Meaning, name: &Name, value: Num) -> Step
    ensures says { messages_of meaning.new.message result ≡ [] }
    ensures numbers { events_of meaning.new.events result
        ≡ page_numbered (number_of_page name.now value) }
{
    if !is_page(name) {
        return Step::Nothing;
    }
    meaning.keep_line(None, false, LineEvents::Number(value));
    Step::Meaning
}
