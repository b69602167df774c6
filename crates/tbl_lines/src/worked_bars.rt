//! Worked bars of formats: what the definitions give for them.

ghost use Rattle.std.specs.Prelude.{◌≡◌, [], ◌∷◌, ◌++◌, codes};
ghost use Rattle.tbl_format.specs.Format.{plain_key};
ghost use Rattle.tbl_format.specs.declared.format.Key.TheVariants.{Center, Left, Right};
ghost use Rattle.tbl_lines.specs.WorkedPictures.{double, double_each, lines_barred};
ghost use Rattle.tbl_lines.specs.WorkedPictures.{lines_without_bars, not_boxed};

/// Bars between columns (`l | c || r`, `l|l`, `l|l|l`), and rules over the whole table, which
/// cross them.
pub fn between()
    ensures rows { lines_barred not_boxed
        (plain_key 0 Left 0 ∷ plain_key 1 Center 1 ∷ plain_key 2 Right 2 ∷ []) 0
        (codes "a:bb:c" ∷ codes "_" ∷ codes "dd:e:ff" ∷ [])
        ≡ codes "\\&a  | bb ||  c\n\\&---+----++---\n\\&dd | e  || ff\n" }
    ensures rules { lines_barred not_boxed (plain_key 0 Left 0 ∷ plain_key 1 Left 1 ∷ []) 0
        (codes "_" ∷ codes "=" ∷ codes "a:b" ∷ codes "=" ∷ [])
        ≡ codes "\\&-----\n\\&==+==\n\\&a | b\n\\&==+==\n" }
    ensures short { lines_barred not_boxed
        (plain_key 0 Left 0 ∷ plain_key 1 Left 1 ∷ plain_key 1 Left 2 ∷ []) 0
        (codes "a" ∷ codes "b:c:d" ∷ [])
        ≡ codes "\\&a |   |\n\\&b | c | d\n" }
{}

/// Bars at the edges (`||l|l||`, `|l l`), and a row without bars where another one has them
/// (`l l` beside `|l|l|`).
pub fn edges()
    ensures both { lines_barred not_boxed (plain_key 2 Left 0 ∷ plain_key 1 Left 1 ∷ []) 2
        (codes "_" ∷ codes "a:b" ∷ [])
        ≡ codes "\\&++---+---++\n\\&|| a | b ||\n" }
    ensures one { lines_barred not_boxed (plain_key 1 Left 0 ∷ plain_key 0 Left 1 ∷ []) 0
        (codes "a:b" ∷ codes "_" ∷ [])
        ≡ codes "\\&| a   b\n\\&+------\n" }
    ensures other { lines_without_bars (plain_key 1 Left 0 ∷ plain_key 1 Left 1 ∷ []) 1
        (codes "_" ∷ codes "a:b" ∷ [])
        ≡ codes "\\&---------\n\\&  a   b\n" }
{}

/// Double boxes (of `l l`, and of `|l||l|`).
pub fn doubled()
    ensures around { lines_barred double (plain_key 0 Left 0 ∷ plain_key 0 Left 1 ∷ []) 0
        (codes "a:b" ∷ [])
        ≡ codes "\\&++=======++\n\\&|| a   b ||\n\\&++=======++\n" }
    ensures fields { lines_barred double_each (plain_key 0 Left 0 ∷ plain_key 0 Left 1 ∷ []) 0
        (codes "a:b" ∷ codes "c:d" ∷ [])
        ≡ codes "\\&++===+===++\n\\&|| a | b ||\n\\&++---+---++\n"
        ++ codes "\\&|| c | d ||\n\\&++===+===++\n" }
    ensures fewer { lines_barred double (plain_key 1 Left 0 ∷ plain_key 2 Left 1 ∷ []) 1
        (codes "a:b" ∷ [])
        ≡ codes "\\&++===++===++\n\\&|| a || b ||\n\\&++===++===++\n" }
{}

/// Rules over columns that go on over bars (of `l||l`, and of `l|l`).
pub fn joined()
    ensures same { lines_barred not_boxed (plain_key 0 Left 0 ∷ plain_key 2 Left 1 ∷ []) 0
        (codes "_:_" ∷ codes "a:b" ∷ [])
        ≡ codes "\\&--++--\n\\&a || b\n" }
    ensures others { lines_barred not_boxed (plain_key 0 Left 0 ∷ plain_key 2 Left 1 ∷ []) 0
        (codes "_:=" ∷ codes "a:b" ∷ [])
        ≡ codes "\\&- || =\n\\&a || b\n" }
    ensures below { lines_barred not_boxed (plain_key 0 Left 0 ∷ plain_key 1 Left 1 ∷ []) 0
        (codes "_" ∷ codes "_:_" ∷ codes "a:b" ∷ [])
        ≡ codes "\\&-----\n\\&--+--\n\\&a | b\n" }
{}
