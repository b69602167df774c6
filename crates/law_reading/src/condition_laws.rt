//! Facts about the branches of conditions, as contracts of functions that do nothing.

ghost use Rattle.law_reading.specs.AskingLaws.{ConditionsChooseTheirBranch};
ghost use Rattle.law_reading.specs.AskingLaws.{ConditionsOfTheSourceChooseTheirBranch};
ghost use Rattle.law_reading.specs.AskingLaws.{ExpressionsChooseTheirBranch};
ghost use Rattle.law_reading.specs.AskingLaws.{ExpressionsOfTheSourceChooseTheirBranch};
ghost use Rattle.law_reading.specs.BadConditions.{BadNumbersAreToldAndFalse};
ghost use Rattle.law_reading.specs.BadConditions.{BadNumbersOfTheSourceAreToldAndFalse};
ghost use Rattle.law_reading.specs.BadConditions.{CutTextsAreCompared};
ghost use Rattle.law_reading.specs.BadConditions.{CutTextsOfTheSourceAreCompared};
ghost use Rattle.law_reading.specs.BadConditions.{EmptyConditionsAreFalse};
ghost use Rattle.law_reading.specs.BadConditions.{EmptyConditionsOfTheSourceAreFalse};
ghost use Rattle.law_reading.specs.BranchLaws.{ExactlyOneBranchIsRead};
ghost use Rattle.law_reading.specs.BranchLaws.{ExactlyOneBranchOfTheSourceIsRead};
ghost use Rattle.law_reading.specs.BranchLaws.{OneBranchOfAnExpressionIsRead};
ghost use Rattle.law_reading.specs.BranchLaws.{OneBranchOfAnExpressionOfTheSourceIsRead};
ghost use Rattle.law_reading.specs.BranchLaws.{ResultsEndWithTheirBody};
ghost use Rattle.law_reading.specs.ConditionLaws.{BranchesAreSkippedToTheirEnd};
ghost use Rattle.law_reading.specs.ConditionLaws.{RunsPassOverSkippedBranches};
ghost use Rattle.law_reading.specs.ConditionLaws.{SkippedBranchesDoNothing};
ghost use Rattle.law_reading.specs.ElseLaws.{ElseOfTheSourceTakesTheNewestResult};
ghost use Rattle.law_reading.specs.ElseLaws.{ElseTakesTheNewestResult};

/// A branch that is skipped ends behind the first newline before which `\}` stands as often as `\{`
/// or more often, each backslash with the byte behind it; nothing of it does anything, and behind
/// it a line begins. Without such a newline it goes on. So it is up to 4294967295 bytes, more than
/// any run may take, none of which is dropped as it is taken.
pub fn skipped_branches()
    ensures nothing { SkippedBranchesDoNothing }
    ensures to_their_end { BranchesAreSkippedToTheirEnd }
{}

/// A run takes one step for each byte of such a branch in its source, and each costs one.
pub fn runs()
    ensures { RunsPassOverSkippedBranches }
{}

/// A line that has the other branch takes the newest result that is kept: the branch is read where
/// the condition wasn't so, and else skipped, also where no result is kept.
pub fn other_branches()
    ensures ahead { ElseTakesTheNewestResult }
    ensures source { ElseOfTheSourceTakesTheNewestResult }
{}

/// A condition that asks for an odd or an even page, for what is never or always so, or whether two
/// plain texts are the same, leads to its branch, behind blanks and a `!` too: the branch is read
/// where it is so, and else skipped. The result is kept where the request keeps it. Each byte costs
/// one, and the decision is a step of its own, if the limits allow the state before and the state
/// behind, and the texts while they are read.
pub fn chosen_branches()
    ensures ahead { ConditionsChooseTheirBranch }
    ensures source { ConditionsOfTheSourceChooseTheirBranch }
{}

/// A condition that asks for an expression, up to the blank, the tab or the newline that ends it,
/// leads to its branch: it is so where its value is above 0, whatever of it stands behind its
/// number. The byte that ended it is read behind the decision.
pub fn chosen_by_expressions()
    ensures ahead { ExpressionsChooseTheirBranch }
    ensures source { ExpressionsOfTheSourceChooseTheirBranch }
{}

/// An expression that is no number is told to be a bad one, and is false, behind a `!` too: its
/// branch is skipped.
pub fn bad_numbers()
    ensures ahead { BadNumbersAreToldAndFalse }
    ensures source { BadNumbersOfTheSourceAreToldAndFalse }
{}

/// A condition that a newline cuts before anything was asked is false, and tells nothing: its
/// branch is skipped, and ends with that newline.
pub fn empty_conditions()
    ensures ahead { EmptyConditionsAreFalse }
    ensures source { EmptyConditionsOfTheSourceAreFalse }
{}

/// Two texts between delimiters that a newline, or the end of all input, cuts are compared as far
/// as they stand: the first with an empty second one where no delimiter stands behind it. The
/// newline is read behind the decision, as the first byte of the branch.
pub fn cut_texts()
    ensures ahead { CutTextsAreCompared }
    ensures source { CutTextsOfTheSourceAreCompared }
{}

/// Of the branch behind a condition whose result is kept and the one of the next line that has the
/// other branch exactly one is read, and the other is skipped, whatever was read in between, if the
/// results kept there are those behind the condition. Behind both no result of theirs is kept. So
/// it is of a letter, of two texts, and of an expression that is a number.
pub fn one_branch()
    ensures ahead { ExactlyOneBranchIsRead }
    ensures source { ExactlyOneBranchOfTheSourceIsRead }
    ensures expression { OneBranchOfAnExpressionIsRead }
    ensures expression_source { OneBranchOfAnExpressionOfTheSourceIsRead }
{}

/// At the end of a called body the results that were kept in it are gone, and those kept outside of
/// it stay.
pub fn ended_results()
    ensures { ResultsEndWithTheirBody }
{}
