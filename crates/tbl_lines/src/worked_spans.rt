//! Worked cells of several columns: what the definitions give for them.

ghost use Rattle.std.specs.Prelude.{◌≡◌, [], ◌∷◌, ◌++◌, None, Some, codes};
ghost use Rattle.tbl_format.specs.Format.{plain_key};
ghost use Rattle.tbl_format.specs.declared.format.Key.TheVariants.{Center, Left};
ghost use Rattle.tbl_format.specs.declared.format.Key.TheVariants.{WideNumeric};
ghost use Rattle.tbl_lines.specs.WorkedPictures.{lines_of_rows, lines_of_widths};
ghost use Rattle.tbl_layout.specs.BarsWorked.{each_field};
ghost use Rattle.tbl_lines.specs.WorkedPictures.{not_boxed, row_with_block, rows_under};

/// A title over three columns (`c s s` above `l l l`), also one for which they get wider.
pub fn titles()
    ensures short { lines_of_widths not_boxed (None ∷ None ∷ None ∷ [])
        (rows_under (plain_key 0 Center 2 ∷ []) (codes "title" ∷ [])
        ++ rows_under (plain_key 0 Left 0 ∷ plain_key 0 Left 1 ∷ plain_key 0 Left 2 ∷ [])
        (codes "a:b:c" ∷ []))
        ≡ codes "\\&  title\n\\&a   b   c\n" }
    ensures long { lines_of_widths not_boxed (None ∷ None ∷ None ∷ [])
        (rows_under (plain_key 0 Center 2 ∷ []) (codes "a long title" ∷ [])
        ++ rows_under (plain_key 0 Left 0 ∷ plain_key 0 Left 1 ∷ plain_key 0 Left 2 ∷ [])
        (codes "a:b:c" ∷ []))
        ≡ codes "\\&a long title\n\\&a    b    c\n" }
{}

/// Bars stand in front of cells, and none inside one (`l s | l` above `l | l | l`); a rule over the
/// table crosses those that a row beside it shows.
pub fn bars()
    ensures inside { lines_of_rows not_boxed (1 ∷ 1 ∷ 0 ∷ [])
        (rows_under (plain_key 0 Left 1 ∷ plain_key 1 Left 2 ∷ []) (codes "ab:c" ∷ [])
        ++ rows_under (plain_key 0 Left 0 ∷ plain_key 1 Left 1 ∷ plain_key 1 Left 2 ∷ [])
        (codes "_" ∷ codes "d:e:f" ∷ []))
        ≡ codes "\\&ab    | c\n\\&--+---+--\n\\&d | e | f\n" }
    ensures boxed { lines_of_rows each_field (0 ∷ 0 ∷ [])
        (rows_under (plain_key 0 Center 1 ∷ []) (codes "title" ∷ [])
        ++ rows_under (plain_key 0 Left 0 ∷ plain_key 0 Left 1 ∷ []) (codes "a:b" ∷ []))
        ≡ codes "\\&+-------+\n\\&| title |\n\\&+---+---+\n"
        ++ codes "\\&| a | b |\n\\&+---+---+\n" }
    ensures alone { lines_of_rows each_field (0 ∷ 0 ∷ [])
        (rows_under (plain_key 0 Center 1 ∷ []) (codes "title" ∷ codes "other" ∷ []))
        ≡ codes "\\&+-------+\n\\&| title |\n\\&+-------+\n"
        ++ codes "\\&| other |\n\\&+-------+\n" }
{}

/// Rules of fields go over all columns of their cells, and so do bytes that are repeated; short
/// ones are as wide as the first column's widest entry.
pub fn rules()
    ensures over { lines_of_rows not_boxed (1 ∷ 1 ∷ 0 ∷ [])
        (rows_under (plain_key 0 Left 1 ∷ plain_key 1 Left 2 ∷ []) (codes "_:c" ∷ codes "_:_" ∷ [])
        ++ rows_under (plain_key 0 Left 0 ∷ plain_key 1 Left 1 ∷ plain_key 1 Left 2 ∷ [])
        (codes "d:e:f" ∷ []))
        ≡ codes "\\&----- | c\n\\&------+--\n\\&d | e | f\n" }
    ensures others { lines_of_rows not_boxed (1 ∷ 1 ∷ 0 ∷ [])
        (rows_under (plain_key 0 Left 1 ∷ plain_key 1 Left 2 ∷ [])
        (codes "\\_:\\Rx" ∷ codes "\\Ry:_" ∷ [])
        ++ rows_under (plain_key 0 Left 0 ∷ plain_key 1 Left 1 ∷ plain_key 1 Left 2 ∷ [])
        (codes "d:e:f" ∷ []))
        ≡ codes "\\&-     | x\n\\&yyyyy | -\n\\&d | e | f\n" }
{}

/// Under `n s` a text stands in the middle (`n s l` above `l l l`).
pub fn numbers()
    ensures middle { lines_of_widths not_boxed (None ∷ None ∷ None ∷ [])
        (rows_under (plain_key 0 WideNumeric 1 ∷ plain_key 0 Left 2 ∷ []) (codes "1.5:c" ∷ [])
        ++ rows_under (plain_key 0 Left 0 ∷ plain_key 0 Left 1 ∷ plain_key 0 Left 2 ∷ [])
        (codes "ddd:eee:f" ∷ []))
        ≡ codes "\\&   1.5      c\n\\&ddd   eee   f\n" }
{}

/// A block is filled in all columns of its cell and the separations between (`lw(4) sw(6) l`, and
/// `lw(4) s l` above `lw(4) lw(3) l`).
pub fn blocks()
    ensures filled { lines_of_widths not_boxed (Some 4 ∷ Some 6 ∷ None ∷ [])
        (row_with_block (plain_key 0 Left 1 ∷ plain_key 0 Left 2 ∷ [])
        (codes "one two three four five" ∷ []) (codes "c")
        ∷ rows_under (plain_key 0 Left 0 ∷ plain_key 0 Left 1 ∷ plain_key 0 Left 2 ∷ [])
        (codes "d:e:f" ∷ []))
        ≡ codes "\\&one two three   c\n\\&four five\n\\&d      e        f\n" }
    ensures boxed { lines_of_widths each_field (Some 4 ∷ Some 3 ∷ None ∷ [])
        (row_with_block (plain_key 0 Left 1 ∷ plain_key 0 Left 2 ∷ [])
        (codes "one two three four five" ∷ []) (codes "c")
        ∷ rows_under (plain_key 0 Left 0 ∷ plain_key 0 Left 1 ∷ plain_key 0 Left 2 ∷ [])
        (codes "d:e:f" ∷ []))
        ≡ codes "\\&+------------+---+\n\\&| one two    | c |\n\\&| three four |   |\n"
        ++ codes "\\&| five       |   |\n\\&+------+-----+---+\n"
        ++ codes "\\&| d    | e   | f |\n\\&+------+-----+---+\n" }
{}
