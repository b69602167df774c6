//! The registers that arguments name, and what is known of the run beside registers.

ghost use Rattle.std.specs.Prelude.{◌≡◌, ℕ, List, IfSome, slice_get};
ghost use Rattle.std.specs.Option.{option_copied};
ghost use Rattle.input_arguments.specs.ArgumentList.{listed};
ghost use Rattle.run_state.specs.Composer.Standing.{StandFor};
ghost use Rattle.roff_num.specs.declared.limits.Limits.{Limits};
ghost use Rattle.read_requests.specs.Request.Coded.{register_named};
ghost use Rattle.run_model.specs.Environments.{PageHistory};
ghost use Rattle.run_model.specs.Registers.{Remove, changed_by, value_in_force};
ghost use Rattle.run_model.specs.Requests.Numbering.{names_given};
ghost use Rattle.run_model.specs.Run.{known_at};

use read_names::facts;
use read_registers::Lasting;
use read_requests::register_named;
use roff_num::Num;
use roff_scan::{ArgumentList, Unread};
use run_model::{PageEvent, name_given};
use run_state::Composer;

/// The value in force of the register that a first argument names; 0 if it names none.
pub(crate) fn in_force(
    lasting: &Lasting,
    first: Option<&[u8]>,
    composer: &Composer,
    unread: &Unread<PageEvent>,
) -> Num
    ensures { (l : Limits) (h : PageHistory) (as_given : List (List ℕ))
        → StandFor l h composer.now → option_copied first.entry ≡ slice_get as_given 0
        → IfSome (register_named as_given) (λ name. result
        ≡ value_in_force (known_at h lasting.now.all unread.now.input) name) }
{
    match register_named(first) {
        Some(name) => match lasting.registers.set_value(&name) {
            Some(value) => value,
            None => lasting
                .registers
                .value_in_force(&name, facts(composer, unread)),
        },
        None => Num(0),
    }
}

/// Removes the registers that arguments name.
pub(crate) fn remove_given(lasting: &mut Lasting, arguments: ArgumentList<'_>)
    ensures { lasting.new ≡ record lasting.old {
      all = changed_by (Remove (names_given (listed arguments.entry))) lasting.old.all;
    } }
{
    for index in 0..arguments.len() {
        if let Some(text) = arguments.get(index) {
            if let Some(name) = name_given(text) {
                lasting.registers.remove(&name);
            }
        }
    }
}
