//! Worked entries without width: where they run on, and where they are cut.

ghost use Rattle.std.specs.Prelude.{◌≡◌, [], ◌∷◌, ◌++◌, codes};
ghost use Rattle.tbl_format.specs.Format.{plain_key};
ghost use Rattle.tbl_format.specs.declared.format.Key.TheVariants.{Above, Center, Left, Right};
ghost use Rattle.tbl_lines.specs.WorkedPictures.{cut_in, free_key, not_boxed};
ghost use Rattle.tbl_layout.specs.BarsWorked.{each_field};
ghost use Rattle.tbl_lines.specs.WorkedPictures.{row_with_block, rows_under, tall_lines};

/// Entries without width end in front of a column in which something stands, of a bar, and of the
/// picture's end; one that has room in its columns stands where its key puts it.
pub fn running()
    ensures column { tall_lines not_boxed (0 ∷ 0 ∷ [])
        (rows_under (plain_key 0 Left 0 ∷ plain_key 0 Left 1 ∷ []) (codes "x:y" ∷ [])
        ++ rows_under (free_key 0 Left 0 ∷ plain_key 0 Left 1 ∷ []) (codes "abcdef:z" ∷ []))
        ≡ codes "\\&x   y\n\\&abcdz\n" }
    ensures end { tall_lines not_boxed (0 ∷ 0 ∷ [])
        (rows_under (plain_key 0 Left 0 ∷ plain_key 0 Left 1 ∷ []) (codes "x:y" ∷ [])
        ++ rows_under (free_key 0 Left 0 ∷ plain_key 0 Left 1 ∷ []) (codes "abcdef:" ∷ []))
        ≡ codes "\\&x   y\n\\&abcde\n" }
    ensures bar { tall_lines not_boxed (1 ∷ 0 ∷ [])
        (rows_under (plain_key 0 Left 0 ∷ plain_key 1 Left 1 ∷ []) (codes "x:y" ∷ [])
        ++ rows_under (free_key 0 Left 0 ∷ plain_key 1 Left 1 ∷ []) (codes "abcdef:" ∷ []))
        ≡ codes "\\&x | y\n\\&ab|\n" }
    ensures within { tall_lines not_boxed (0 ∷ 0 ∷ [])
        (rows_under (plain_key 0 Left 0 ∷ plain_key 0 Left 1 ∷ []) (codes "xyz:y" ∷ [])
        ++ rows_under (free_key 0 Right 0 ∷ plain_key 0 Left 1 ∷ []) (codes "ab:z" ∷ []))
        ≡ codes "\\&xyz   y\n\\& ab   z\n" }
{}

/// Of each entry that is cut one thing is told: whole glyphs stay, and what has no width behind
/// them.
#[tactic(auto, unfolding(crate::specs::CutEntries::cut_entries))]
pub fn cut()
    ensures one { cut_in not_boxed (0 ∷ 0 ∷ [])
        (rows_under (plain_key 0 Left 0 ∷ plain_key 0 Left 1 ∷ []) (codes "x:y" ∷ [])
        ++ rows_under (free_key 0 Left 0 ∷ plain_key 0 Left 1 ∷ [])
        (codes "abcdef:z" ∷ codes "abcd:z" ∷ codes "abcde:" ∷ [])) ≡ 1 }
    ensures glyphs { tall_lines not_boxed (0 ∷ 0 ∷ [])
        (rows_under (plain_key 0 Left 0 ∷ plain_key 0 Left 1 ∷ []) (codes "x:y" ∷ [])
        ++ rows_under (free_key 0 Left 0 ∷ plain_key 0 Left 1 ∷ []) (codes "abc\\(em:z" ∷ []))
        ≡ codes "\\&x   y\n\\&abc z\n" }
    ensures block { tall_lines not_boxed (0 ∷ 0 ∷ [])
        (rows_under (plain_key 0 Left 0 ∷ plain_key 0 Left 1 ∷ []) (codes "x:y" ∷ [])
        ++ row_with_block (free_key 0 Left 0 ∷ plain_key 0 Left 1 ∷ [])
        (codes "ab cde" ∷ codes " f" ∷ []) (codes "z") ∷ [])
        ≡ codes "\\&x   y\n\\&ab cz\n\\& f\n" }
    ensures block_once { cut_in not_boxed (0 ∷ 0 ∷ [])
        (rows_under (plain_key 0 Left 0 ∷ plain_key 0 Left 1 ∷ []) (codes "x:y" ∷ [])
        ++ row_with_block (free_key 0 Left 0 ∷ plain_key 0 Left 1 ∷ [])
        (codes "ab cde" ∷ codes " fghijk" ∷ []) (codes "z") ∷ []) ≡ 1 }
{}

/// An entry of several rows ends in front of what stands beside any of them, and is cut at the bars
/// on the line on which it stands.
pub fn tall()
    ensures beside { tall_lines not_boxed (0 ∷ 0 ∷ 0 ∷ [])
        (rows_under (free_key 0 Left 0 ∷ plain_key 0 Left 1 ∷ plain_key 0 Left 2 ∷ [])
        (codes "abcdefghij::x" ∷ [])
        ++ rows_under (plain_key 0 Above 0 ∷ plain_key 0 Left 1 ∷ plain_key 0 Left 2 ∷ [])
        (codes "\\^:y:" ∷ []))
        ≡ codes "\\&abc    x\n\\&   y\n" }
    ensures ruled { tall_lines each_field (0 ∷ 0 ∷ [])
        (rows_under (plain_key 0 Left 0 ∷ free_key 0 Center 1 ∷ []) (codes "a:bcdef" ∷ []))
        ≡ codes "\\&+---+--+\n\\&| a | b|\n\\&+---+--+\n" }
{}
