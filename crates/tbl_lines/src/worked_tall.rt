//! Worked cells of several rows: what the definitions give for them.

ghost use Rattle.std.specs.Prelude.{◌≡◌, [], ◌∷◌, ◌++◌, None, Some, codes};
ghost use Rattle.tbl_format.specs.Format.{plain_key};
ghost use Rattle.tbl_format.specs.declared.format.Key.TheVariants.{Above, Center, Left};
ghost use Rattle.tbl_lines.specs.WorkedPictures.{lines_of_rows, not_boxed};
ghost use Rattle.tbl_layout.specs.BarsWorked.{each_field};
ghost use Rattle.tbl_lines.specs.WorkedPictures.{around, row_with_block, rows_under, tall_lines};

/// Rows without such cells are as they are.
pub fn plain()
    ensures rows { tall_lines not_boxed (1 ∷ 0 ∷ [])
        (rows_under (plain_key 0 Left 0 ∷ plain_key 1 Left 1 ∷ [])
        (codes "a:b" ∷ codes "_:_" ∷ codes "_" ∷ codes "c:_" ∷ []))
        ≡ lines_of_rows not_boxed (1 ∷ 0 ∷ [])
        (rows_under (plain_key 0 Left 0 ∷ plain_key 1 Left 1 ∷ [])
        (codes "a:b" ∷ codes "_:_" ∷ codes "_" ∷ codes "c:_" ∷ [])) }
    ensures boxed { tall_lines each_field (0 ∷ 0 ∷ [])
        (rows_under (plain_key 0 Center 1 ∷ []) (codes "title" ∷ [])
        ++ rows_under (plain_key 0 Left 0 ∷ plain_key 0 Left 1 ∷ []) (codes "a:b" ∷ []))
        ≡ codes "\\&+-------+\n\\&| title |\n\\&+---+---+\n"
        ++ codes "\\&| a | b |\n\\&+---+---+\n" }
{}

/// Rules in such cells are drawn over what a line of rules shows, and cross the bars between
/// them (`l | l | l`, then `^ | ^ | l`).
pub fn through_rules()
    ensures crossed { tall_lines around (1 ∷ 1 ∷ 0 ∷ [])
        (rows_under (plain_key 0 Left 0 ∷ plain_key 1 Left 1 ∷ plain_key 1 Left 2 ∷ [])
        (codes "_:_:b" ∷ codes "_" ∷ codes "_" ∷ codes "_" ∷ codes "\\^:\\^:c"
        ∷ codes "ab:cd:e" ∷ []))
        ≡ codes "\\&+----+----+---+\n\\&|    |    | b |\n\\&|    |    +---+\n"
        ++ (codes "\\&| ---+--- -----\n\\&|    |    +---+\n\\&|    |    | c |\n"
        ++ codes "\\&| ab | cd | e |\n\\&+----+----+---+\n") }
    ensures below { tall_lines not_boxed (1 ∷ 0 ∷ [])
        (rows_under (plain_key 0 Left 0 ∷ plain_key 0 Left 1 ∷ [])
        (codes "=:=" ∷ codes "_" ∷ codes "_" ∷ codes "_" ∷ [])
        ++ (rows_under (plain_key 0 Left 0 ∷ plain_key 1 Left 1 ∷ []) (codes "\\^:\\^" ∷ [])
        ++ rows_under (plain_key 0 Left 0 ∷ plain_key 0 Left 1 ∷ []) (codes "ab:cd" ∷ [])))
        ≡ codes "\\&\n\\&   |\n\\&===+===\n\\&   |\n\\&   |\n\\&ab   cd\n" }
{}

/// A cell over two rows stands in the middle of their lines, and of the rules between.
pub fn over_rows()
    ensures ruled { tall_lines each_field (0 ∷ 0 ∷ [])
        (rows_under (plain_key 0 Left 0 ∷ plain_key 0 Left 1 ∷ []) (codes "a:b" ∷ [])
        ++ rows_under (plain_key 0 Above 0 ∷ plain_key 0 Left 1 ∷ []) (codes "\\^:c" ∷ []))
        ≡ codes "\\&+---+---+\n\\&|   | b |\n\\&| a +---+\n\\&|   | c |\n\\&+---+---+\n" }
    ensures three { tall_lines not_boxed (0 ∷ 0 ∷ [])
        (rows_under (plain_key 0 Left 0 ∷ plain_key 0 Left 1 ∷ [])
        (codes "a:b" ∷ codes "\\^:c" ∷ codes "\\^:d" ∷ codes "e:\\^" ∷ []))
        ≡ codes "\\&    b\n\\&a   c\n\\&    d\n\\&e\n" }
{}
