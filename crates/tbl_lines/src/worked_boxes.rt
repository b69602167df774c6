//! Worked rules of boxes: what the definitions give for them.

ghost use Rattle.std.specs.Prelude.{◌≡◌, [], ◌∷◌, None, codes};
ghost use Rattle.tbl_format.specs.declared.format.Key.TheVariants.{Left};
ghost use Rattle.tbl_lines.specs.WorkedPictures.{around, lines_boxed};
ghost use Rattle.tbl_layout.specs.BarsWorked.{each_field};

/// A box around a table.
pub fn around()
    ensures rows { lines_boxed around None (Left ∷ Left ∷ [])
        (codes "a:b" ∷ codes "ccc:dd" ∷ [])
        ≡ codes "\\&+----------+\n\\&| a     b  |\n\\&| ccc   dd |\n\\&+----------+\n" }
    ensures rule { lines_boxed around None (Left ∷ Left ∷ [])
        (codes "_" ∷ codes "a:b" ∷ [])
        ≡ codes "\\&---------\n\\&+-------+\n\\&| a   b |\n\\&+-------+\n" }
    ensures empty { lines_boxed around None (Left ∷ [])
        ([])
        ≡ codes "\\&----\n\\&----\n" }
    ensures none { lines_boxed around None (Left ∷ [])
        (codes "=" ∷ [])
        ≡ codes "\\&----\n\\&====\n\\&----\n" }
{}

/// A box around each field.
pub fn each_field()
    ensures rows { lines_boxed each_field None (Left ∷ Left ∷ [])
        (codes "a:b" ∷ codes "ccc:dd" ∷ [])
        ≡ codes "\\&+-----+----+\n\\&| a   | b  |\n\\&+-----+----+\n\\&| ccc | dd |\n\\&+-----+----+\n" }
    ensures rules { lines_boxed each_field None (Left ∷ Left ∷ [])
        (codes "a:b" ∷ codes "_" ∷ codes "=" ∷ codes "c:d" ∷ [])
        ≡ codes "\\&+---+---+\n\\&| a | b |\n\\&+---+---+\n\\&+===+===+\n\\&| c | d |\n\\&+---+---+\n" }
    ensures command { lines_boxed each_field None (Left ∷ Left ∷ [])
        (codes "a:b" ∷ codes ".sp" ∷ codes "c:d" ∷ [])
        ≡ codes "\\&+---+---+\n\\&| a | b |\n.sp\n\\&+---+---+\n\\&| c | d |\n\\&+---+---+\n" }
{}

/// Rules that go on over the bar between two columns.
pub fn joined()
    ensures above { lines_boxed each_field None (Left ∷ Left ∷ [])
        (codes "a:b" ∷ codes "_:_" ∷ codes "=" ∷ codes "c:d" ∷ [])
        ≡ codes "\\&+---+---+\n\\&| a | b |\n\\&+---+---+\n\\&| --+-- |\n\\&+===+===+\n\\&| c | d |\n\\&+---+---+\n" }
    ensures last { lines_boxed each_field None (Left ∷ Left ∷ [])
        (codes "a:b" ∷ codes "_:_" ∷ [])
        ≡ codes "\\&+---+---+\n\\&| a | b |\n\\&+---+---+\n\\&| --+-- |\n\\&+-------+\n" }
    ensures others { lines_boxed each_field None (Left ∷ Left ∷ [])
        (codes "a:b" ∷ codes "_:=" ∷ [])
        ≡ codes "\\&+---+---+\n\\&| a | b |\n\\&+---+---+\n\\&| - | = |\n\\&+---+---+\n" }
{}
