//! Facts about runs of the definition alone, as contracts of functions that do nothing.

ghost use Rattle.tbl_run.specs.Laws.{EachStepIsABeginning, EveryRunEnds, MessagesAreWithin};
ghost use Rattle.tbl_run.specs.Laws.{MessagesOnlyStop, NoOtherStateIsLast};
ghost use Rattle.tbl_run.specs.Results.{EachOutcomeGives};

/// Each run ends, in one state alone, and nothing that was written or told before is taken back.
pub fn ends()
    ensures each { EveryRunEnds }
    ensures only { NoOtherStateIsLast }
    ensures beginnings { EachStepIsABeginning }
{}

/// Each outcome of a run of the code gives a beginning of the definition's text, and all that the
/// definition gives if no sink had a fault.
pub fn outcomes()
    ensures { EachOutcomeGives }
{}

/// The messages of a run that hasn't ended are within the limit on them.
pub fn within()
    ensures { MessagesAreWithin }
{}

/// Within a larger limit on messages a run only goes on: what it writes and tells before the
/// smaller one ends it is a beginning, after as many steps.
pub fn stopping()
    ensures { MessagesOnlyStop }
{}
