//! Facts about the definitions of text blocks, as contracts of functions that do nothing.

ghost use Rattle.std.specs.Prelude.{◌≡◌, ℕ, List, [], ◌∷◌, ◌++◌, codes};
ghost use Rattle.tbl_text.specs.BlockWords.{Part, parts_of};
ghost use Rattle.tbl_text.specs.BlockLaws.{KeepWords, LieJoined, filled_texts};
ghost use Rattle.tbl_text.specs.BlockLines.{FillsBlock, lines_of, widest};

/// The lines of a block have its words and empty lines in order, and each takes as many words as
/// fit in the measure: the word that begins the next line breaks, or wouldn't fit.
pub fn longest_lines()
    ensures { (measure : ℕ) (parts : List Part) → FillsBlock measure parts }
{}

/// The lines of a filled block, one behind the other, have the words of its own lines in order, and
/// no other. Filling loses no word, and no line of the block but a request does.
pub fn kept_words()
    ensures { (measure : ℕ) (lines : List (List ℕ)) → KeepWords measure lines }
{}

/// Lines without a newline that lie behind each other, with one between two of them, are the lines
/// that a block has there.
pub fn joined_lines()
    ensures { (lines : List (List ℕ)) → LieJoined lines }
{}

/// How lines are filled, on worked rows.
pub fn filling_rows()
    ensures fits { filled_texts 8 (codes "aa bb cc dd" ∷ []) ≡ codes "aa bb cc" ∷ codes "dd" ∷ [] }
    ensures too_narrow { filled_texts 7 (codes "aa bb cc" ∷ []) ≡ codes "aa bb" ∷ codes "cc" ∷ [] }
    ensures joined { filled_texts 8 (codes "aa bb" ∷ codes "cc" ∷ []) ≡ codes "aa bb cc" ∷ [] }
    // a word that is wider than the measure stands alone, and passes it
    ensures wide { filled_texts 3 (codes "a bcdef g" ∷ [])
        ≡ codes "a" ∷ codes "bcdef" ∷ codes "g" ∷ [] }
    ensures no_measure { filled_texts 0 (codes "a b" ∷ []) ≡ codes "a" ∷ codes "b" ∷ [] }
    // what is measured is what is printed
    ensures measured { filled_texts 5 (codes "\\fBab\\fR \\(em c" ∷ [])
        ≡ codes "\\fBab\\fR \\(em" ∷ codes "c" ∷ [] }
    ensures nothing { filled_texts 5 [] ≡ [] }
{}

/// What stands between words, on worked rows.
pub fn gap_rows()
    ensures kept { filled_texts 9 (codes "aa   bb" ∷ []) ≡ codes "aa   bb" ∷ [] }
    // blanks at a line's end are lost in the gap of the line's end
    ensures last { filled_texts 9 (codes "aa   " ∷ codes "bb" ∷ []) ≡ codes "aa bb" ∷ [] }
    // a run without glyph goes, and the blanks around it add up
    ensures no_glyph { filled_texts 9 (codes "aa \\fB bb" ∷ []) ≡ codes "aa  bb" ∷ [] }
    // a line of such runs gives nothing
    ensures nothing { filled_texts 9 (codes "aa" ∷ codes "\\fB " ∷ codes "bb" ∷ [])
        ≡ codes "aa bb" ∷ [] }
    // two blanks behind a sentence that a line ends with, by what is printed in its last word
    ensures sentence { filled_texts 9 (codes "aa." ∷ codes "bb" ∷ []) ≡ codes "aa.  bb" ∷ [] }
    ensures within { filled_texts 9 (codes "aa. bb" ∷ []) ≡ codes "aa. bb" ∷ [] }
    ensures closer { filled_texts 12 (codes "aa.\\(dq" ∷ codes "bb" ∷ [])
        ≡ codes "aa.\\(dq  bb" ∷ [] }
    ensures closer_apart { filled_texts 12 (codes "aa. )" ∷ codes "bb" ∷ [])
        ≡ codes "aa. ) bb" ∷ [] }
    ensures no_width { filled_texts 12 (codes "aa.\\&" ∷ codes "bb" ∷ [])
        ≡ codes "aa.\\& bb" ∷ [] }
{}

/// What breaks lines, on worked rows.
pub fn breaking_rows()
    // blanks that begin a line stand in front of its first word
    ensures leading { filled_texts 9 (codes "aa" ∷ codes "  bb cc" ∷ [])
        ≡ codes "aa" ∷ codes "  bb cc" ∷ [] }
    ensures leading_first { filled_texts 9 (codes " aa" ∷ []) ≡ codes " aa" ∷ [] }
    // and count where the next word is to fit
    ensures leading_counts { filled_texts 5 (codes "  aa b" ∷ []) ≡ codes "  aa" ∷ codes "b" ∷ [] }
    // an empty line stays, and so does one of blanks alone, where bytes that are dropped count not
    ensures empty { filled_texts 9 (codes "aa" ∷ [] ∷ codes "bb" ∷ [])
        ≡ codes "aa" ∷ [] ∷ codes "bb" ∷ [] }
    ensures blanks { filled_texts 9 (codes "aa" ∷ codes "   " ∷ codes "bb" ∷ [])
        ≡ codes "aa" ∷ [] ∷ codes "bb" ∷ [] }
    ensures dropped { filled_texts 9 (codes "aa" ∷ (1 ∷ codes " ") ∷ []) ≡ codes "aa" ∷ [] ∷ [] }
    ensures empty_alone { filled_texts 9 ([] ∷ []) ≡ [] ∷ [] }
    // a request is passed over, and breaks nothing
    ensures request { filled_texts 9 (codes "aa" ∷ codes ".br" ∷ codes "bb" ∷ [])
        ≡ codes "aa bb" ∷ [] }
    ensures number { filled_texts 9 (codes ".5" ∷ codes "aa" ∷ []) ≡ codes "aa" ∷ [] }
    ensures request_alone { filled_texts 9 (codes ".br" ∷ []) ≡ [] }
{}

/// How wide the widest line is, on worked rows.
pub fn width_rows()
    ensures filled { widest (lines_of 8 (parts_of (codes "aa bb" ∷ codes "cc dd" ∷ []))) ≡ 8 }
    ensures unfilled { widest (lines_of 9 (parts_of (codes "aa" ∷ codes "  bb" ∷ []))) ≡ 4 }
    ensures wide { widest (lines_of 3 (parts_of (codes "a bcdef" ∷ []))) ≡ 5 }
    ensures nothing { widest (lines_of 3 (parts_of ([] ∷ []))) ≡ 0 }
{}
