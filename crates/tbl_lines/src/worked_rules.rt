//! Worked rules: what the definitions give for them.

ghost use Rattle.std.specs.Prelude.{◌≡◌, [], ◌∷◌, ◌++◌, Some, None, codes};
ghost use Rattle.tbl_format.specs.declared.format.Key.TheVariants.{Alphabetic, Center, Left};
ghost use Rattle.tbl_format.specs.declared.format.Key.TheVariants.{Numeric, Right};
ghost use Rattle.tbl_lines.specs.WorkedPictures.{around, lines_boxed};
ghost use Rattle.tbl_layout.specs.BarsWorked.{each_field};
ghost use Rattle.tbl_lines.specs.WorkedPictures.{lines_of_data};

/// Rules over columns, and over the whole table.
pub fn over_columns()
    ensures same { lines_of_data None (Left ∷ Left ∷ []) (codes "_:_" ∷ codes "abc:de" ∷ [])
        ≡ codes "\\&--------\n\\&abc   de\n" }
    ensures others { lines_of_data None (Left ∷ Left ∷ []) (codes "_:=" ∷ codes "abc:de" ∷ [])
        ≡ codes "\\&---   ==\n\\&abc   de\n" }
    ensures first { lines_of_data None (Left ∷ Left ∷ []) (codes "_:d" ∷ codes "abc:de" ∷ [])
        ≡ codes "\\&---   d\n\\&abc   de\n" }
    ensures last { lines_of_data None (Left ∷ Left ∷ []) (codes "a:=" ∷ codes "abc:de" ∷ [])
        ≡ codes "\\&a     ==\n\\&abc   de\n" }
    ensures short { lines_of_data None (Left ∷ Left ∷ []) (codes "=" ∷ codes "abc:de" ∷ [])
        ≡ codes "\\&========\n\\&abc   de\n" }
{}

/// Rules as wide as the widest entry of their column.
pub fn short()
    ensures moved { lines_of_data (Some 6) (Left ∷ Right ∷ Center ∷ [])
        (codes "\\_:\\_:\\_" ∷ codes "ab:ab:ab" ∷ [])
        ≡ codes "\\&--           --     --\n\\&ab           ab     ab\n" }
    ensures unmoved { lines_of_data (Some 6) (Numeric ∷ Alphabetic ∷ [])
        (codes "\\_:\\_" ∷ codes "12.5:abc" ∷ codes "1.25:de" ∷ [])
        ≡ codes "\\&----     ---\n\\&12.5      abc\n\\& 1.25     de\n" }
{}

/// Bytes that are repeated over their column.
pub fn repeated()
    ensures letter { lines_of_data None (Left ∷ Left ∷ []) (codes "\\R :\\Rx" ∷ codes "abc:de" ∷ [])
        ≡ codes "\\&      xx\n\\&abc   de\n" }
    ensures blank { lines_of_data None (Left ∷ Left ∷ []) (codes "\\Rx:\\R " ∷ codes "abc:de" ∷ [])
        ≡ codes "\\&xxx\n\\&abc   de\n" }
{}

/// Bars at the edges and between fields, and rules that cross them.
pub fn boxed()
    ensures around { lines_boxed around None (Left ∷ Left ∷ [])
        (codes "a:b" ∷ codes "_" ∷ codes "c" ∷ [])
        ≡ codes "\\&+-------+\n\\&| a   b |\n\\&+-------+\n\\&| c     |\n\\&+-------+\n" }
    ensures fields { lines_boxed each_field None (Left ∷ Left ∷ [])
        (codes "a:b" ∷ codes "_:_" ∷ codes "=" ∷ codes "c" ∷ [])
        ≡ codes "\\&+---+---+\n\\&| a | b |\n\\&+---+---+\n\\&| --+-- |\n"
        ++ codes "\\&+===+===+\n\\&| c |   |\n\\&+---+---+\n" }
{}
