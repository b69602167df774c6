//! Facts about the definitions alone, as contracts of functions that do nothing.

ghost use Rattle.tbl_core.specs.Laws.{AnswersAreGiven, FailingOnlyCuts, LimitsOnlyCut};
ghost use Rattle.tbl_core.specs.Laws.{MessagesComeFirst};
ghost use Rattle.tbl_table.specs.NotesStay.{NotesStay};

/// The messages of a table so far are a beginning of those of a longer one, and of those at its
/// end.
#[tactic(auto, using(tbl_table::proofs::NotesStaying::notes_stay))]
pub fn stable()
    ensures { NotesStay }
{}

/// Whatever comes, the messages of a table's complete lines are given first.
#[tactic(auto, using(crate::proofs::Cutting::messages_first))]
pub fn messages()
    ensures { MessagesComeFirst }
{}

/// Over an input that fails a beginning is given of what is given where it goes on.
#[tactic(auto, using(crate::proofs::Cutting::failing_cuts))]
pub fn cut()
    ensures { FailingOnlyCuts }
{}

/// Within smaller limits a beginning is given of what is given within larger ones, and then the
/// message of the limit that was met.
pub fn limits()
    ensures { LimitsOnlyCut }
{}

/// The answers, one at a time, are those of what is given for the input.
#[tactic(auto, using(crate::proofs::Answering::answers_given))]
pub fn answers()
    ensures { AnswersAreGiven }
{}
