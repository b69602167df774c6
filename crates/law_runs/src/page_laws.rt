//! Facts about the pages of whole runs alone, as contracts of functions that do nothing.

ghost use Rattle.std.specs.Prelude.{◌≡◌, [], ◌∷◌, None, Some, codes, pos};
ghost use Rattle.roff_num.specs.Ranges.{number};
ghost use Rattle.run_model.specs.declared.status.Status.TheVariants.{Done};
ghost use Rattle.law_runs.specs.PageLaws.{WritesWholePages};
ghost use Rattle.law_runs.specs.Rows.{formatted, formatted_paged, gives};

/// What a run writes that is done is whole pages, each of as many lines as the page length says,
/// the last one too: where the page length wasn't changed once a page was begun, and each page was
/// written. What was put in diversions is no line of a page, and ended none.
pub fn full_pages()
    ensures { WritesWholePages }
{}

/// What the definitions give on rows of page numbers, page offsets, and pages that are written.
#[tactic(auto, unfolding(roff_num::proofs::OnLiterals::numbers_on_literals))]
pub fn page_rows()
    ensures offset { formatted (codes ".pl 1\n.po 2n\n.po -9n\n.po +1n\na\n")
        ≡ gives (codes " a\n") (codes "") Done }
    ensures offset_of_no_blank_line { formatted (codes ".pl 2\n.po 2n\na\n")
        ≡ gives (codes "  a\n\n") (codes "") Done }
    ensures previous_offset { formatted
        (codes ".pl 4\n.nf\n.po 2n\n.po 4n\na\n.po\nb\n.po\nc\n\\n(.o\n")
        ≡ gives (codes "    a\n  b\n    c\n    96\n") (codes "") Done }
    ensures next_number { formatted (codes ".pl 1\n.pn 7\n.pn\n.nf\n\\n%\n\\n%\n")
        ≡ gives (codes "7\n8\n") (codes "") Done }
    ensures added_to_the_number { formatted
        (codes ".pl 1\n.nf\n.pn 7\na\n.pn +3\n\\n%\n\\n%\n")
        ≡ gives (codes "a\n7\n10\n") (codes "") Done }
    ensures first_page { formatted_paged (Some (number (pos 5))) []
        (codes ".pl 1\n.nf\na\n\\n%\n") ≡ gives (codes "a\n6\n") (codes "") Done }
    ensures listed { formatted_paged (Some (number (pos 5)))
        ((number (pos 6), number (pos 6)) ∷ []) (codes ".pl 2\n.nf\na\nb\nc\nd\n")
        ≡ gives (codes "c\nd\n") (codes "") Done }
    ensures listed_by_two_ranges { formatted_paged None
        ((number (pos 1), number (pos 1)) ∷ (number (pos 3), number (pos 4)) ∷ [])
        (codes ".pl 1\n.nf\na\nb\nc\nd\ne\n") ≡ gives (codes "a\nc\nd\n") (codes "") Done }
{}
