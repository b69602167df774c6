//! Facts about the definitions alone, as contracts of functions that do nothing.

ghost use Rattle.roff_engine.specs.Outcomes.{EachOutcomeGives};
ghost use Rattle.roff_engine.specs.TwoRuns.{SmallerLimitsWriteABeginning, SameUnlessALimitStops};
ghost use Rattle.roff_engine.specs.TwoRuns.{FailingSourcesWriteABeginning};
ghost use Rattle.roff_engine.specs.TwoRuns.{SameUnlessTheSourceFails, RunsCanBeRepeated};

/// Each outcome of a run of the code gives a beginning of the definition's text, and all that the
/// definition gives if no sink had a fault.
pub fn outcomes()
    ensures { EachOutcomeGives }
{}

/// What one run of the code tells about another: with smaller limits, or over a source that fails,
/// it writes a beginning, whatever failed in it, of what the other does; and the same unless that
/// stops it.
pub fn two_runs()
    ensures smaller_limits { SmallerLimitsWriteABeginning }
    ensures same_unless_a_limit { SameUnlessALimitStops }
    ensures failing_sources { FailingSourcesWriteABeginning }
    ensures same_unless_a_fault { SameUnlessTheSourceFails }
    ensures repeated { RunsCanBeRepeated }
{}
