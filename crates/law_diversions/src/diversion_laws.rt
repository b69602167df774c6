//! Facts about diversions of whole runs, as contracts of functions that do nothing.

ghost use Rattle.std.specs.Prelude.{◌≡◌, codes};
ghost use Rattle.law_runs.specs.Rows.{formatted, gives};
ghost use Rattle.run_model.specs.declared.status.Status.TheVariants.{Done};
ghost use Rattle.law_diversions.specs.DiversionLaws.{EndedDiversionsAreEntered, NamesLeaveTexts};
ghost use Rattle.law_diversions.specs.DiversionLaws.{LinesGoWhereTheyAreFinished};
ghost use Rattle.law_diversions.specs.DiversionLaws.{NoMoreDiversionsAreOpen};
ghost use Rattle.law_diversions.specs.DiversionLaws.{OpenDiversionsTakeAll};
ghost use Rattle.law_diversions.specs.DiversionLaws.{PerformedEventsHappen, TextsAreDivertedLines};
ghost use Rattle.law_diversions.specs.DiversionLaws.{TextsBecomeDivertedLines, ThePageTakesTheRest};

/// No run has more diversions open than the limit says; what their texts have counts as all texts
/// do.
pub fn open_diversions()
    ensures { NoMoreDiversionsAreOpen }
{}

/// What happens is put in the innermost open diversion, and then writes nothing and ends no page;
/// or on the page, where none is open, and ejects always. A line belongs to where it is finished.
pub fn diverted_lines()
    ensures diverted { OpenDiversionsTakeAll }
    ensures on_the_page { ThePageTakesTheRest }
    ensures lines { LinesGoWhereTheyAreFinished }
    ensures performed { PerformedEventsHappen }
{}

/// The texts in the making of a run are the lines of the boxes of its open diversions, and above
/// them that of a string or a macro, just where one is being made.
pub fn texts_in_the_making()
    ensures are { TextsAreDivertedLines }
    ensures behind { TextsBecomeDivertedLines }
    ensures names { NamesLeaveTexts }
{}

/// What is entered under the name of a diversion that ends is the lines of its boxes, behind what
/// the name has where it appends.
pub fn entered_texts()
    ensures { EndedDiversionsAreEntered }
{}

/// What the definitions give on worked rows of diversions.
#[tactic(auto, unfolding(roff_num::proofs::OnLiterals::numbers_on_literals))]
pub fn diversion_rows()
    ensures read_again { formatted
        (codes ".pl 4\n.nf\n.di D\na  b\n.sp\n c\n.di\n\\n(dn \\n(dl\n.D\n")
        ≡ gives (codes "120 96\na  b\n\n c\n") (codes "") Done }
    ensures finished_inside { formatted
        (codes ".pl 3\n.ll 5n\naa bb\n.di D\ncc dd\n.di\n.br\n.nf\n.D\n")
        ≡ gives (codes "cc dd\naa bb\n\n") (codes "") Done }
    ensures page_made_too_short { formatted
        (codes ".pl 10\n.nf\na\nb\nc\n.pl 2\n.di E\nd\n.di\n\\n(nl\n")
        ≡ gives (codes "a\nb\nc\n120\n") (codes "") Done }
    ensures left_open { formatted (codes ".pl 1\n.nf\n.di D\na\n")
        ≡ gives (codes "") (codes "") Done }
    ensures appended { formatted (codes ".pl 2\n.nf\n.di D\na\n.di\n.da D\nb\n.di\n.D\n")
        ≡ gives (codes "a\nb\n") (codes "") Done }
    ensures name_gone { formatted (codes ".pl 1\n.nf\n.ds D x\n.di D\na\n.rm D\n.di\n.D\n")
        ≡ gives (codes "a\n") (codes "") Done }
    ensures within_another { formatted
        (codes ".pl 3\n.nf\n.di D\na\n.di E\nb\n.di\nc\n.di\n.E\n.D\n")
        ≡ gives (codes "b\na\nc\n") (codes "") Done }
    ensures trap { formatted
        (codes ".pl 3\n.nf\n.de T\nt\n..\n.di D\n.dt 1v T\na\nb\n.di\n.D\n")
        ≡ gives (codes "a\nt\nb\n") (codes "") Done }
    ensures begins_with_a_dot { formatted (codes ".pl 1\n.nf\n.di D\n\\&.x\n.di\n.D\n")
        ≡ gives (codes ".x\n") (codes "") Done }
{}
