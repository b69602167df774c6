//! Facts about the definitions alone, as contracts of functions that do nothing.

ghost use Rattle.std.specs.Prelude.{◌≡◌};
ghost use Rattle.input_model.specs.Arguments.{Arguments, FirstArgumentsAreKept, finished, held};
ghost use Rattle.input_model.specs.Arguments.{only_kept, settled, with_unit};
ghost use Rattle.input_arguments.specs.Quoting.{QuotedArgumentsReadBack};
ghost use Rattle.input_escapes.specs.declared.open_escape.CopyUnit.{CopyUnit};

/// Arguments written in quotes are read as they were.
pub fn quoted_arguments()
    ensures { QuotedArgumentsReadBack }
{}

/// The first arguments of a line are kept, whatever they are.
pub fn first_arguments()
    ensures { FirstArgumentsAreKept }
{}

/// Arguments that aren't kept may be dropped as soon as they are whole: what is kept behind all
/// that follows on the line is the same, and they held no bytes.
pub fn dropped_arguments()
    ensures unit { (a : Arguments) (unit : CopyUnit)
        → only_kept (with_unit (only_kept a) unit) ≡ only_kept (with_unit a unit) }
    ensures settled { (a : Arguments) → only_kept (settled (only_kept a)) ≡ only_kept (settled a) }
    ensures finished { (a : Arguments)
        → only_kept (finished (only_kept a)) ≡ only_kept (finished a) }
    ensures held { (a : Arguments) → held (only_kept a) ≡ held a }
{}
