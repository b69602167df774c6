//! Where on the input line a motion begins.

ghost use Rattle.std.specs.Prelude.{◌≡◌};
ghost use Rattle.roff_num.specs.declared.limits.Limits.{Limits};
ghost use Rattle.run_state.specs.Composer.Standing.{StandFor};
ghost use Rattle.run_model.specs.Environments.{PageHistory};
ghost use Rattle.run_model.specs.Reading.Beginnings.{at_start};
ghost use Rattle.run_model.specs.Reading.Items.{PageInput};
ghost use Rattle.run_model.specs.Reading.TextLines.{on_line};
ghost use Rattle.run_model.specs.Registers.{AllRegisters};
ghost use Rattle.run_model.specs.Run.{known_at};

use crate::composer::Composer;
use input_escapes::Surroundings;
use run_model::TextLine;

/// The basic units of a column.
const COLUMN: u64 = 24;

/// A place above this reads as this, in basic units.
const GREATEST_PLACE: u64 = 2_147_483_647;

/// How the first byte of a line is read.
pub fn at_start(composer: &Composer) -> Surroundings
    ensures { (l : Limits) (h : PageHistory) (rs : AllRegisters) (i : PageInput)
        → StandFor l h composer.now → result ≡ at_start (known_at h rs i) }
{
    on_line(
        composer,
        TextLine::begun_as(composer.environments.interrupted_line()),
    )
}

/// How the bytes of a text line are read.
pub fn on_line(composer: &Composer, line: TextLine) -> Surroundings
    ensures { (l : Limits) (h : PageHistory) (rs : AllRegisters) (i : PageInput)
        → StandFor l h composer.now → result ≡ on_line (known_at h rs i) line }
{
    let place = composer.environments.in_force.lines.input_place();
    let columns = u64::from(place) + u64::from(line.leading);
    Surroundings::Text((columns * COLUMN).min(GREATEST_PLACE) as i32)
}
