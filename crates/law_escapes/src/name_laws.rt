//! Facts about the names behind escapes, as contracts of functions that do nothing.

ghost use Rattle.std.specs.Prelude.{◌≡◌, [], codes};
ghost use Rattle.law_runs.specs.Rows.{formatted, gives};
ghost use Rattle.law_escapes.specs.CopiedNames.{NamesAreTheirFirstTwoBytes};
ghost use Rattle.law_escapes.specs.CopiedNames.{NamesOfTheSourceAreTheirFirstTwoBytes};
ghost use Rattle.run_model.specs.declared.status.Status.TheVariants.{Done};

/// Of what copy mode makes of a name in parentheses the first two bytes are the name: its text is
/// read in the escape's place, that of a register or of a string.
pub fn names()
    ensures ahead { NamesAreTheirFirstTwoBytes }
    ensures source { NamesOfTheSourceAreTheirFirstTwoBytes }
{}

/// What the definitions give on worked rows of names with an escape that stays in copy mode, which
/// is two bytes: of what a name in parentheses is copied to the first two bytes are the name, and
/// what is left of the escape is dropped.
#[tactic(auto, unfolding(roff_num::proofs::OnLiterals::numbers_on_literals))]
pub fn name_rows()
    ensures second_of_a_register { formatted (codes ".pl 1\n.nr a\\\\ 1\n\\n(a\\xb\n")
        ≡ gives (codes "1b\n") [] Done }
    ensures second_of_a_string { formatted (codes ".pl 1\n.ds a\\\\ s\n\\*(a\\xb\n")
        ≡ gives (codes "sb\n") [] Done }
    ensures behind_a_step { formatted (codes ".pl 1\n.nr a\\\\ 1 4\n\\n+(a\\xb\n")
        ≡ gives (codes "5b\n") [] Done }
    ensures first_of_a_register { formatted (codes ".pl 1\n.nr \\x 1\n\\n(\\xb\n")
        ≡ gives (codes "1b\n") [] Done }
    ensures alone { formatted (codes ".pl 1\n.ds \\x s\n\\*\\xb\n")
        ≡ gives (codes "sb\n") [] Done }
{}
