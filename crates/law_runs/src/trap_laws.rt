//! Facts about traps and ejects of whole runs, as contracts of functions that do nothing.

ghost use Rattle.std.specs.Prelude.{◌≡◌, ◌++◌, codes};
ghost use Rattle.roff_num.specs.declared.limit.Limit.TheVariants.{Depth, Output, Traps};
ghost use Rattle.run_model.specs.declared.status.Status.TheVariants.{Done, Limit as Limited};
ghost use Rattle.law_runs.specs.Rows.{formatted, formatted_pages_within, formatted_with, gives};
ghost use Rattle.law_runs.specs.TrapLaws.{EjectsEndTheirPage, EjectsOfOtherPagesDoNothing};
ghost use Rattle.law_runs.specs.TrapLaws.{MacrosFindTheRestOfThePage, OneEventSpringsOneMacro};

/// Each event springs one macro at the most, and that finds below it the rest of the page.
pub fn traps()
    ensures one { OneEventSpringsOneMacro }
    ensures rest { MacrosFindTheRestOfThePage }
{}

/// An eject ends the page that it is for, or the run ends, whatever macros spring on the way: until
/// then it waits, unless an `.ex` leaves the input. On another page it does nothing.
pub fn ejects()
    ensures ends { EjectsEndTheirPage }
    ensures others { EjectsOfOtherPagesDoNothing }
{}

/// What the definitions give on worked rows of traps.
#[tactic(auto, unfolding(roff_num::proofs::OnLiterals::numbers_on_literals))]
pub fn trap_rows()
    ensures footer { formatted
        (codes ".pl 4\n.lt 9n\n.de FO\n'tl ''- % -''\n'bp\n..\n.wh -2v FO\n.nf\na\nb\nc\nd\n")
        ≡ gives (codes "a\nb\n  - 1 -\n\nc\nd\n  - 2 -\n\n") (codes "") Done }
    ensures spacing_stops { formatted
        (codes ".pl 4\n.lt 9n\n.de FO\n'tl ''- % -''\n'bp\n..\n.wh -2v FO\n.sp 10\nb\n")
        ≡ gives (codes "\n\n  - 1 -\n\nb\n\n  - 2 -\n\n") (codes "") Done }
    ensures header_and_footer { formatted (codes ".pl 6\n.de H\n'sp\n'tl 'top''%'\n'sp\n..\n"
        ++ codes ".de F\n'bp\n..\n.wh 0 H\n.wh -1v F\n.lt 8n\n.nf\na\nb\nc\n")
        ≡ gives (codes "\ntop    1\n\na\nb\n\n\ntop    2\n\nc\n\n\n") (codes "") Done }
    ensures between_words { formatted (codes ".pl 4\n.ll 12n\n.de F\nfoot\n..\n.wh -2v F\n"
        ++ codes "one two three four five six seven\neight nine ten\n")
        ≡ gives (codes "one      two\nthree   four\nfive    foot\n"
        ++ codes "six    seven\neight   nine\nten\n\n\n") (codes "") Done }
    ensures top { formatted (codes ".pl 2\n.de H\n'sp\n..\n.wh 0 H\na\n")
        ≡ gives (codes "\na\n") (codes "") Done }
    ensures first_planted { formatted
        (codes ".pl 2\n.nf\n.de X\nx\n..\n.wh 1v X\n.wh -1v Y\na\n")
        ≡ gives (codes "a\nx\n") (codes "") Done }
    ensures moved { formatted (codes ".pl 3\n.nf\n.de X\nx\n..\n.wh 1v X\n.ch X 2v\na\nb\n")
        ≡ gives (codes "a\nb\nx\n") (codes "") Done }
    ensures too_many { formatted_pages_within 1 100 (codes ".wh 1v a\n.wh 2v b\n")
        ≡ gives (codes "") (codes "nroff: line 2: limit traps (1) reached\n") (Limited Traps) }
    ensures top_macro_that_ejects { formatted_with 65536 3 4096
        (codes ".pl 1\n.de T\n.bp\n..\n.wh 0 T\nx\n")
        ≡ gives (codes "\n\n\n")
        (codes "nroff: line 6: limit depth (3) reached\n") (Limited Depth) }
{}

/// What they give on rows of ejects, of lines that are needed, and of no-space mode.
#[tactic(auto, unfolding(roff_num::proofs::OnLiterals::numbers_on_literals))]
pub fn eject_rows()
    ensures eject { formatted (codes ".pl 2\na\n.bp\nb\n")
        ≡ gives (codes "a\n\nb\n\n") (codes "") Done }
    ensures number_behind_a_footer { formatted
        (codes ".pl 4\n.de F\n'bp\n..\n.wh -2v F\na\n.br\nb\n.bp 10\n\\n%\n")
        ≡ gives (codes "a\nb\n\n\n10\n\n\n\n") (codes "") Done }
    ensures over_a_trap { formatted (codes ".pl 3\n.nf\n.de X\nx\n..\n.wh 1v X\na\n.bp\nb\n")
        ≡ gives (codes "a\nx\n\nb\nx\n\n") (codes "") Done }
    ensures output_reached { formatted_pages_within 64 3 (codes ".pl 3\na\n.bp\n")
        ≡ gives (codes "a\n") (codes "nroff: line 3: limit output (3) reached\n")
        (Limited Output) }
    ensures output_enough { formatted_pages_within 64 4 (codes ".pl 3\na\n.bp\n")
        ≡ gives (codes "a\n\n\n") (codes "") Done }
    ensures need { formatted (codes ".pl 3\n.nf\na\nb\n.ne 2\nc\n")
        ≡ gives (codes "a\nb\n\nc\n\n\n") (codes "") Done }
    ensures need_in_no_space_mode { formatted
        (codes ".pl 6\n.de F\n'bp\n..\n.wh -3v F\na\n.br\nb\n.br\n.ns\n.ne 2\nc\n.br\nd\n")
        ≡ gives (codes "a\nb\n\n\n\n\nc\nd\n\n\n\n\n") (codes "") Done }
    ensures no_space { formatted (codes ".pl 2\na\n.br\n.ns\n.sp\nb\n")
        ≡ gives (codes "a\nb\n") (codes "") Done }
    ensures exit_in_mid_line { formatted
        (codes ".pl 4\n.nf\n.de X\n.ex\n..\n.wh 1v X\n.fi\n.ll 4n\naa bb cc\ndd\n")
        ≡ gives (codes "aa\nbb\n\n\n") (codes "") Done }
{}
