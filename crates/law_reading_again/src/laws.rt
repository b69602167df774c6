//! Facts about text that is read again, over the definitions alone, as contracts of functions that
//! do nothing.

ghost use Rattle.std.specs.Prelude.{◌≡◌, [], ◌∷◌, codes};
ghost use Rattle.page_model.specs.Layout.{Lined, Empty};
ghost use Rattle.law_reading_again.specs.Again.{DiversionsBegin, ReadsAgain, again_text};
ghost use Rattle.law_reading_again.specs.Anywhere.{BoxesComeBack, BoxesComeBackFromTheSource};
ghost use Rattle.law_reading_again.specs.Rows.{boxes_given};
ghost use Rattle.law_reading_again.specs.Shown.{DiversionsComeBack, DiversionsPrint, LinesPrint};

/// The text of a diversion gives the boxes that were put in it, in their order, and nothing else:
/// where lines aren't filled, nothing is pending, and the limits have room for it. A run begins so
/// behind the events that open a diversion and end filling.
pub fn reading_again()
    ensures boxes { ReadsAgain }
    ensures start { DiversionsBegin }
{}

/// The text of a diversion gives its boxes back in the middle of any run, in a diversion within any
/// others, from wherever the text comes: the boxes stand behind those that were there, and its text
/// behind the text so far. The texts of all diversions of a run, as they are made of their boxes,
/// come back so.
pub fn boxes_come_back()
    ensures ahead { BoxesComeBack }
    ensures source { BoxesComeBackFromTheSource }
    ensures diversions { DiversionsComeBack }
{}

/// Lines are printed by printable bytes and blanks alone, and so are the boxes of diversions,
/// where no glyph is a DEL, and titles are printed so.
pub fn printable_lines()
    ensures lines { LinesPrint }
    ensures diversions { DiversionsPrint }
{}

/// What the definitions give on worked rows, and what they would give for a text without the
/// escapes that a diversion's has: a line that begins with a dot, one that ends in a blank, a
/// backslash, and an empty box.
pub fn again_rows()
    ensures text { again_text (Lined (codes "b") ∷ Empty ∷ Lined (codes " .a \\ ") ∷ [])
        ≡ codes "\\&\\ .a\\ \\e\\ \n\n\\&b\n" }
    ensures boxes { boxes_given (codes "\\&\\ .a\\ \\e\\ \n\n\\&b\n")
        ≡ Lined (codes "b") ∷ Empty ∷ Lined (codes " .a \\ ") ∷ [] }
    ensures bare_dot { boxes_given (codes ".a\n") ≡ [] }
    ensures bare_blank { boxes_given (codes "\\&a \n") ≡ Lined (codes "a") ∷ [] }
    ensures bare_backslash { boxes_given (codes "\\&\\y\n") ≡ Lined (codes "y") ∷ [] }
    ensures bare_empty { boxes_given (codes "\\&\n") ≡ Lined (codes "") ∷ [] }
{}
