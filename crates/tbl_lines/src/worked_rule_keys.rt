//! Worked rows of rule keys: what the definitions give for them.

ghost use Rattle.std.specs.Prelude.{◌≡◌, [], ◌∷◌, ◌++◌, None, Some, codes};
ghost use Rattle.tbl_format.specs.Format.{plain_key};
ghost use Rattle.tbl_format.specs.declared.format.Key.TheVariants.{DoubleRule, Left, Rule};
ghost use Rattle.tbl_layout.specs.declared.data_lines.RuleSign.TheVariants.{Double, Single};
ghost use Rattle.tbl_lines.specs.WorkedPictures.{around, keys_alone, lines_ruled};
ghost use Rattle.tbl_layout.specs.BarsWorked.{each_field};
ghost use Rattle.tbl_lines.specs.WorkedPictures.{lines_ruled_alone, not_boxed, places_drawn};

/// Rows of rule keys (`_ _ _` and `_ _`) in front of a row, without bars, and where their signs
/// differ.
pub fn alone()
    ensures rows { lines_ruled_alone (Left ∷ Left ∷ Left ∷ [])
        ((keys_alone (Rule ∷ Rule ∷ Rule ∷ []) ∷ keys_alone (Rule ∷ Rule ∷ []) ∷ []) ∷ [])
        (codes "a:bb:c" ∷ [])
        ≡ codes "\\&----------\n\\&--------\n\\&a   bb   c\n" }
    ensures signs { lines_ruled_alone (Left ∷ Left ∷ Left ∷ [])
        ((keys_alone (Rule ∷ DoubleRule ∷ []) ∷ keys_alone (DoubleRule ∷ []) ∷ []) ∷ [])
        (codes "a:bb:c" ∷ [])
        ≡ codes "\\&---=====\n\\&===\n\\&a   bb   c\n" }
{}

/// Beside bars (of `l | l | l`, and of `l || l | l`), and behind rules over the whole table.
pub fn barred()
    ensures rows { lines_ruled not_boxed
        (plain_key 0 Left 0 ∷ plain_key 1 Left 1 ∷ plain_key 1 Left 2 ∷ []) 0
        ((keys_alone (Rule ∷ Rule ∷ Rule ∷ []) ∷ keys_alone (Rule ∷ Rule ∷ []) ∷ []) ∷ [])
        (codes "a:bb:c" ∷ [])
        ≡ codes "\\&----------\n\\&--+----+\n\\&a | bb | c\n" }
    ensures signs { lines_ruled not_boxed
        (plain_key 0 Left 0 ∷ plain_key 2 Left 1 ∷ plain_key 1 Left 2 ∷ []) 0
        ((keys_alone (Rule ∷ DoubleRule ∷ Rule ∷ []) ∷ []) ∷ []) (codes "a:bb:c" ∷ [])
        ≡ codes "\\&--++====+--\n\\&a || bb | c\n" }
    ensures rule { lines_ruled not_boxed
        (plain_key 0 Left 0 ∷ plain_key 2 Left 1 ∷ plain_key 1 Left 2 ∷ []) 0
        ((keys_alone (Rule ∷ []) ∷ keys_alone (Rule ∷ Rule ∷ []) ∷ []) ∷ [])
        (codes "_" ∷ codes "a:bb:c" ∷ [])
        ≡ codes "\\&-----------\n\\&----\n\\&--++----+\n\\&a || bb | c\n" }
{}

/// Short ones, through which bars are seen that stand below them, or above and below.
pub fn short()
    ensures through { lines_ruled not_boxed
        (plain_key 0 Left 0 ∷ plain_key 1 Left 1 ∷ plain_key 2 Left 2 ∷ []) 0
        ([] ∷ (keys_alone (Rule ∷ []) ∷ []) ∷ []) (codes "a:bb:c" ∷ codes "d:e:f" ∷ [])
        ≡ codes "\\&a | bb || c\n\\&--+    ||\n\\&d | e  || f\n" }
    ensures rule { lines_ruled not_boxed
        (plain_key 0 Left 0 ∷ plain_key 1 Left 1 ∷ plain_key 1 Left 2 ∷ []) 0
        ([] ∷ (keys_alone (Rule ∷ []) ∷ keys_alone (DoubleRule ∷ Rule ∷ []) ∷ []) ∷ [])
        (codes "a:bb:c" ∷ codes "_" ∷ codes "d:e:f" ∷ [])
        ≡ codes "\\&a | bb | c\n\\&--+----+--\n\\&---\n\\&==+----+\n"
        ++ codes "\\&d | e  | f\n" }
{}

/// In boxes: that of each field has no line beside them.
pub fn boxed()
    ensures around { lines_ruled around
        (plain_key 0 Left 0 ∷ plain_key 1 Left 1 ∷ plain_key 1 Left 2 ∷ []) 0
        ((keys_alone (Rule ∷ Rule ∷ Rule ∷ []) ∷ keys_alone (Rule ∷ Rule ∷ []) ∷ []) ∷ [])
        (codes "a:bb:c" ∷ [])
        ≡ codes "\\&+------------+\n\\&| ---------- |\n\\&| --+----+   |\n"
        ++ codes "\\&| a | bb | c |\n\\&+---+----+---+\n" }
    ensures fields { lines_ruled each_field (plain_key 0 Left 0 ∷ plain_key 0 Left 1 ∷ []) 0
        ([] ∷ (keys_alone (Rule ∷ Rule ∷ []) ∷ keys_alone (Rule ∷ []) ∷ []) ∷ [])
        (codes "a:b" ∷ codes "c:d" ∷ codes "e:f" ∷ [])
        ≡ codes "\\&+---+---+\n\\&| a | b |\n\\&| --+-- |\n\\&| --+   |\n"
        ++ codes "\\&| c | d |\n\\&+---+---+\n\\&| e | f |\n\\&+---+---+\n" }
{}

/// At the two places of bars in the middle of four places between columns: where the first column
/// is ruled, where the next one alone is, and where none is.
pub fn places()
    ensures first { places_drawn 2 (Some Single) (Some Double) 1 ≡ codes "   -+-" }
    ensures next { places_drawn 2 None (Some Double) 1 ≡ codes "    +=" }
    ensures next_crossed { places_drawn 2 None (Some Double) 2 ≡ codes "    ++" }
    ensures next_alone { places_drawn 2 None (Some Double) 0 ≡ codes "    ==" }
    ensures none { places_drawn 2 None None 1 ≡ codes "    |" }
{}
