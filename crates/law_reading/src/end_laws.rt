//! Facts about the start and the end of a run, over the definitions alone, as contracts of
//! functions that do nothing.

ghost use Rattle.std.specs.Prelude.{◌≡◌, [], ◌∷◌, codes, pos};
ghost use Rattle.law_reading.specs.EndLaws.{ExClosesTheInput, ExIsIgnoredAsTheRunCloses};
ghost use Rattle.law_reading.specs.EndLaws.{GivenRegistersRead};
ghost use Rattle.law_reading.specs.EndLaws.{TheLastMacroIsRead};
ghost use Rattle.law_reading.specs.EndLaws.{ThenTheLineIsPlaced, ThenTheRunIsDone};
ghost use Rattle.law_reading.specs.EndLaws.{WithoutOneNothingIsRead};
ghost use Rattle.law_reading.specs.EndedLaws.{UnendedBranchesDoNothing};
ghost use Rattle.law_reading.specs.EndedLaws.{UnendedDefinitionsEnterNothing};
ghost use Rattle.law_reading.specs.EndedLaws.{UnfinishedTextLinesTellTheirWords};
ghost use Rattle.law_runs.specs.Rows.{gives, formatted, formatted_from};
ghost use Rattle.roff_num.specs.declared.limit.Limit.TheVariants.{Names};
ghost use Rattle.roff_num.specs.Ranges.{number};
ghost use Rattle.run_model.specs.declared.status.Status.TheVariants.{Done, Limit as Limited};

/// Behind the input's last line the text of the last macro is read, an end behind it, and then the
/// pending line is placed.
pub fn last_macro()
    ensures read { TheLastMacroIsRead }
    ensures without { WithoutOneNothingIsRead }
    ensures placed { ThenTheLineIsPlaced }
    ensures done { ThenTheRunIsDone }
{}

/// Behind the line of `.ex` nothing more is taken of the source, and a line that a macro
/// interrupted is read on; as the run closes it is ignored.
pub fn closed_input()
    ensures closes { ExClosesTheInput }
    ensures ignored { ExIsIgnoredAsTheRunCloses }
{}

/// A register that is given to a run reads as its value.
pub fn given_registers()
    ensures { GivenRegistersRead }
{}

/// A text line without its newline at the end of all input tells what it tells with one. A
/// definition that comes to that end is told not to be ended, and enters nothing; a branch that is
/// skipped up to it does nothing. So it is where the lines stand in the source, with nothing ahead
/// of them, and of lines as the laws of text lines, definitions and branches have them.
pub fn ended_lines()
    ensures text { UnfinishedTextLinesTellTheirWords }
    ensures definition { UnendedDefinitionsEnterNothing }
    ensures branch { UnendedBranchesDoNothing }
{}

/// What the definitions give on worked rows of the end of a run, and of registers that are given.
#[tactic(auto, unfolding(roff_num::proofs::OnLiterals::numbers_on_literals))]
pub fn end_rows()
    ensures behind_text { formatted (codes ".pl 1\n.nf\n.de Z\nend\n..\n.em Z\na\n")
        ≡ gives (codes "a\nend\n") (codes "") Done }
    ensures behind_an_unfinished_line { formatted (codes ".pl 1\n.de Z\nend\n..\n.em Z\na b")
        ≡ gives (codes "a b end\n") (codes "") Done }
    ensures behind_an_interrupted_line { formatted (codes ".pl 1\n.nf\n.de Z\nend\n..\n.em Z\na\\c")
        ≡ gives (codes "a\nend\n") (codes "") Done }
    ensures before_any_byte_of_a_name { formatted (codes ".pl 1\na\\n\nb\\*\nc\\$\nd\\(")
        ≡ gives (codes "a b c d\n") (codes "nroff: line 5: unknown character: \n") Done }
    ensures read_once { formatted
        (codes ".pl 1\n.nf\n.de Z\nend\n.em Z\n.ex\nnever\n..\n.em Z\na\n")
        ≡ gives (codes "a\nend\n") (codes "") Done }
    ensures behind_the_end_of_all_input { formatted
        (codes ".pl 1\n.nf\n.de Z\nend\n..\n.em Z\na\n.ex\nb\n")
        ≡ gives (codes "a\nend\n") (codes "") Done }
    ensures looked_up_at_the_end { formatted (codes ".pl 1\n.nf\n.em Z\n.de Z\nend\n..\na\n")
        ≡ gives (codes "a\nend\n") (codes "") Done }
    ensures given_in_order { formatted_from
        ((97, number (pos 1)) ∷ (97, number (pos 2)) ∷ []) 1 (codes ".pl 1\n\\na\n")
        ≡ gives (codes "2\n") (codes "") Done }
    ensures given_past_a_limit { formatted_from
        ((97, number (pos 1)) ∷ (98, number (pos 2)) ∷ []) 1 (codes "a\n")
        ≡ gives (codes "") (codes "nroff: line 1: limit names (1) reached\n") (Limited Names) }
{}
