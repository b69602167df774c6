//! Facts about the lines of definitions, as contracts of functions that do nothing.

ghost use Rattle.std.specs.Prelude.{◌≡◌, codes};
ghost use Rattle.law_runs.specs.Rows.{gives, formatted};
ghost use Rattle.law_reading.specs.DefinitionLaws.{DefinitionsEnterTheirLines};
ghost use Rattle.law_reading.specs.DefinitionLaws.{DefinitionsOfTheSourceEnterTheirLines};
ghost use Rattle.law_reading.specs.DefinitionLaws.{IgnoredLinesEnterNothing};
ghost use Rattle.law_reading.specs.DefinitionLaws.{IgnoredLinesOfTheSourceEnterNothing};
ghost use Rattle.law_reading.specs.DefinitionLaws.{LinesBeginBehindTwoDots};
ghost use Rattle.run_model.specs.declared.status.Status.TheVariants.{Done};

/// The lines that a definition reads, up to the one that ends it, enter its name with their
/// newlines and as they are copied: they are its body from then on, or are put behind the body that
/// it has. So it is of lines without interpolations and comments, of which no byte is dropped, and
/// no newline belongs to a backslash. So many steps lead there as the lines have bytes, and each
/// costs one, if the limits allow the state before and the state behind, and the text beside all
/// that is stored.
pub fn definitions()
    ensures ahead { DefinitionsEnterTheirLines }
    ensures source { DefinitionsOfTheSourceEnterTheirLines }
{}

/// Lines that are ignored, up to the one that ends them, cost their bytes and do nothing else.
pub fn ignored_lines()
    ensures ahead { IgnoredLinesEnterNothing }
    ensures source { IgnoredLinesOfTheSourceEnterNothing }
{}

/// Two dots end a definition where no other mark was named, and behind their line a line begins.
pub fn two_dots()
    ensures { LinesBeginBehindTwoDots }
{}

/// What the definitions give on worked rows of lines that end a definition as they are copied: the
/// escape of a dot is a dot there, and what is read in the place of a string is of the line.
#[tactic(auto, unfolding(roff_num::proofs::OnLiterals::numbers_on_literals))]
pub fn definition_rows()
    ensures dot_of_an_escape { formatted (codes ".pl 1\n.de M\na\n\\..\n.M\n")
        ≡ gives (codes "a\n") (codes "") Done }
    ensures mark_of_a_string { formatted (codes ".pl 1\n.ds e ..\n.de M\na\n\\*e\n.M\n")
        ≡ gives (codes "a\n") (codes "") Done }
{}
