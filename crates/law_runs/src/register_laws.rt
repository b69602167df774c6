//! Facts about the definitions of number registers alone, as contracts of functions that do
//! nothing.

ghost use Rattle.law_runs.specs.RegisterLaws.{FormatsReadBack, FormatsStay, PageNumberStays};
ghost use Rattle.law_runs.specs.RegisterLaws.{ReadingIsSilent, ReadingMakesNone};
ghost use Rattle.law_runs.specs.RegisterLaws.{ReadOnlyAreLeftAlone, ReadOnlyStay};
ghost use Rattle.law_runs.specs.RegisterLaws.{RemovedReadAsZero, UndefinedReadAsZero};
ghost use Rattle.law_runs.specs.RegisterLaws.{ValuesReadBack};

/// What is set of a register that isn't read-only, `%` too, is read back; its format stays as its
/// value is set.
pub fn set_registers()
    ensures values { ValuesReadBack }
    ensures formats { FormatsReadBack }
    ensures format_stays { FormatsStay }
{}

/// A name that isn't a register reads as 0, and neither reading nor stepping it makes one.
pub fn undefined_registers()
    ensures zero { UndefinedReadAsZero }
    ensures none_made { ReadingMakesNone }
    ensures silent { ReadingIsSilent }
{}

/// No change changes a read-only register, and one of it changes nothing else.
pub fn read_only_registers()
    ensures stay { ReadOnlyStay }
    ensures left_alone { ReadOnlyAreLeftAlone }
{}

/// A register that is removed reads as 0; the page number can't be removed.
pub fn removed_registers()
    ensures zero { RemovedReadAsZero }
    ensures page { PageNumberStays }
{}
