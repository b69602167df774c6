//! Whether a condition is so.

ghost use Rattle.std.specs.Prelude.{◌≡◌};
ghost use Rattle.roff_num.specs.declared.limits.Limits.{Limits};
ghost use Rattle.run_state.specs.Composer.Standing.{StandFor};
ghost use Rattle.run_model.specs.Environments.{PageHistory};
ghost use Rattle.run_model.specs.Reading.Branches.{is_so};
ghost use Rattle.run_model.specs.Reading.Items.{PageInput};
ghost use Rattle.run_model.specs.Registers.{AllRegisters};
ghost use Rattle.run_model.specs.Run.{known_at};

use crate::composer::Composer;
use input_escapes::Decision;

/// Whether a condition is so that asks this.
pub fn is_so(decision: Decision, composer: &Composer) -> bool
    ensures { (l : Limits) (h : PageHistory) (rs : AllRegisters) (i : PageInput)
        → StandFor l h composer.now → result ≡ is_so (known_at h rs i) decision }
{
    match decision {
        Decision::Is(so) => so,
        Decision::OnPages(odd) => composer.is_page_odd() == odd,
    }
}
