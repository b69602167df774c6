//! What is known of the run beside its registers.

ghost use Rattle.run_state.specs.Composer.Standing.{StandFor};
ghost use Rattle.roff_num.specs.declared.limits.Limits.{Limits};
ghost use Rattle.read_registers.specs.Registers.Coded.{AreOf};
ghost use Rattle.run_model.specs.Environments.{PageHistory};
ghost use Rattle.run_model.specs.Registers.{AllRegisters};
ghost use Rattle.run_model.specs.Run.{known_at};

use read_registers::Facts;
use roff_scan::Unread;
use run_model::PageEvent;
use run_state::Composer;

/// What is known of the run beside its registers.
pub fn facts<'a>(composer: &'a Composer, unread: &Unread<PageEvent>) -> Facts<'a>
    ensures { (l : Limits) (h : PageHistory) (all : AllRegisters) → StandFor l h composer.now
        → AreOf (known_at h all unread.now.input) result }
{
    Facts {
        composer,
        newlines: unread.newlines(),
        arguments: unread.argument_count(),
    }
}
