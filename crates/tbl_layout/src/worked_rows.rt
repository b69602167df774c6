//! Worked lines and columns: what the definitions give for them.

ghost use Rattle.std.specs.Prelude.{◌≡◌, [], ◌∷◌, Some, None, true, false, codes, map};
ghost use Rattle.tbl_format.specs.Format.{nothing_asked, plain_key};
ghost use Rattle.tbl_format.specs.declared.format.Key.TheVariants.{Alphabetic, Center, Left};
ghost use Rattle.tbl_format.specs.declared.format.Key.TheVariants.{DoubleRule, Rule as RuleKey};
ghost use Rattle.tbl_format.specs.declared.format.Key.TheVariants.{Above as AboveKey};
ghost use Rattle.tbl_format.specs.declared.format.Key.TheVariants.{Numeric, Right};
ghost use Rattle.tbl_layout.specs.BarsWorked.{behind_column, boxed, edges, separations};
ghost use Rattle.tbl_layout.specs.BarsWorked.{each_field};
ghost use Rattle.tbl_layout.specs.Columns.{bars_end, needs_of, stands, widest_entry, width_of};
ghost use Rattle.tbl_layout.specs.DataLines.{block_line_kind, ends_in_block, ends_row};
ghost use Rattle.tbl_layout.specs.DataLines.{field_kind, line_kind, without_opening};
ghost use Rattle.tbl_layout.specs.DataLines.{kind_under};
ghost use Rattle.tbl_layout.specs.Entries.{Block, Command as OneCommand, Row as OneRow};
ghost use Rattle.tbl_layout.specs.Entries.{Above as OneAbove, completed};
ghost use Rattle.tbl_layout.specs.Entries.{Ruled as OneRule, Text as OneText};
ghost use Rattle.tbl_layout.specs.RuleKeys.{is_rule_row, rule_rows};
ghost use Rattle.tbl_layout.specs.RulesWorked.{column_at, no_bars, row_of};
ghost use Rattle.tbl_layout.specs.Spans.{cells_of, columns_laid, measure_of};
ghost use Rattle.tbl_layout.specs.declared.columns.Stands.TheVariants.{Alone, Apart, InStrip};
ghost use Rattle.tbl_layout.specs.declared.columns.Stands.TheVariants.{Nowhere};
ghost use Rattle.tbl_layout.specs.declared.data_lines.BlockLineKind.TheVariants.{End, Request};
ghost use Rattle.tbl_layout.specs.declared.data_lines.BlockLineKind.TheVariants.{Text};
ghost use Rattle.tbl_layout.specs.declared.data_lines.FieldKind.TheVariants.{Above, Repeated};
ghost use Rattle.tbl_layout.specs.declared.data_lines.FieldKind.TheVariants.{Ruled, Short};
ghost use Rattle.tbl_layout.specs.declared.data_lines.FieldKind.TheVariants.{Text as AText};
ghost use Rattle.tbl_layout.specs.declared.data_lines.LineKind.TheVariants.{Command, Formats};
ghost use Rattle.tbl_layout.specs.declared.data_lines.LineKind.TheVariants.{Row, Rule};
ghost use Rattle.tbl_layout.specs.declared.data_lines.RuleSign.TheVariants.{Double, Single};

/// What lines are.
pub fn lines()
    ensures rule { line_kind (codes "=") ≡ Rule Double }
    ensures no_rule { line_kind (codes "_ ") ≡ Row }
    ensures formats { line_kind (codes ".T&\tx") ≡ Formats }
    ensures no_formats { line_kind (codes ".T&x") ≡ Command }
    ensures dot { line_kind (codes ".") ≡ Command }
    ensures number { line_kind (codes ".5") ≡ Row }
    ensures end { block_line_kind (codes "T}x:y") ≡ End }
    ensures request { block_line_kind (codes ".5") ≡ Request }
    ensures text { block_line_kind (codes "_") ≡ Text }
    ensures texts { map field_kind
        (codes "_ " ∷ codes "\\_ " ∷ codes "\\R" ∷ codes "\\R\\" ∷ codes "\\Rab" ∷ [])
        ≡ AText ∷ AText ∷ AText ∷ AText ∷ AText ∷ [] }
    ensures rules { map field_kind (codes "_" ∷ codes "=" ∷ codes "\\_" ∷ codes "\\^" ∷ [])
        ≡ Ruled Single ∷ Ruled Double ∷ Short ∷ Above ∷ [] }
    ensures repeated { map field_kind (codes "\\R " ∷ codes "\\R-" ∷ [])
        ≡ Repeated 32 ∷ Repeated 45 ∷ [] }
    ensures opening { ends_in_block (codes "a" ∷ codes "  T{ " ∷ []) ≡ true }
    ensures in_front { without_opening (codes "T{" ∷ codes "T{" ∷ []) ≡ codes "T{" ∷ [] }
    ensures row_ends { ends_row false 58 (codes "T{:x") ≡ true }
    ensures row_goes_on { ends_row true 58 (codes "T}T{:T{") ≡ false }
{}

/// How entries stand, and how wide their columns are.
pub fn entries()
    ensures number { stands Numeric (OneText (codes "12.5")) ≡ Apart 2 2 }
    ensures units { stands Numeric (OneText (codes "7")) ≡ Apart 1 0 }
    ensures none { stands Numeric (OneText (codes "none")) ≡ Alone 4 }
    ensures ampersand { stands Numeric (OneText (codes "3\\&x")) ≡ Apart 1 1 }
    ensures strip { stands Alphabetic (OneText (codes "ab")) ≡ InStrip 2 }
    ensures empty { stands Alphabetic (OneText []) ≡ Nowhere }
    ensures block { stands Left (Block 4 (codes "one two" ∷ [])) ≡ Alone 3 }
    ensures blanks { stands Left (Block 4 (codes "  " ∷ [])) ≡ Nowhere }
    ensures rule { stands Left (OneRule Single) ≡ Nowhere }
    ensures widest { widest_entry (needs_of (Apart 1 3 ∷ InStrip 5 ∷ Alone 2 ∷ [])) ≡ 5 }
    ensures widest_split { widest_entry (needs_of (Apart 1 3 ∷ Apart 2 0 ∷ [])) ≡ 4 }
    ensures sides { width_of nothing_asked (Apart 1 3 ∷ Apart 2 0 ∷ Alone 4 ∷ []) ≡ 5 }
{}

/// What rule keys do: they rule their columns, whatever stands there; a row of them alone takes no
/// row of the data, if it isn't the last; a rule goes on up to the bars behind its column.
pub fn rule_keys()
    ensures rows { rule_rows (row_of (RuleKey ∷ DoubleRule ∷ []) ∷ row_of (RuleKey ∷ [])
        ∷ row_of (RuleKey ∷ Left ∷ []) ∷ row_of (RuleKey ∷ []) ∷ []) ≡ 2 }
    ensures last_row { rule_rows (row_of (RuleKey ∷ []) ∷ []) ≡ 0 }
    ensures further { completed (row_of (Left ∷ RuleKey ∷ Left ∷ DoubleRule ∷ Left ∷ []))
        (OneText (codes "a") ∷ []) ≡ OneText (codes "a") ∷ OneRule Single ∷ OneText []
        ∷ OneRule Double ∷ [] }
    ensures none_further { completed (row_of (RuleKey ∷ Left ∷ [])) (OneText (codes "a") ∷ [])
        ≡ OneText (codes "a") ∷ [] }
    ensures taken { kind_under DoubleRule (codes "a") ≡ Ruled Double }
    ensures goes_on { kind_under AboveKey (codes "a") ≡ Above }
    ensures goes_on_behind { completed (row_of (Left ∷ AboveKey ∷ [])) []
        ≡ OneText [] ∷ OneAbove ∷ [] }
    ensures not_taken { kind_under Left (codes "_") ≡ Ruled Single }
    ensures ends { map (λ bars. bars_end (column_at 0 3 bars) (column_at 7 1 0)) (0 ∷ 1 ∷ 2 ∷ [])
        ≡ 5 ∷ 5 ∷ 6 ∷ [] }
    ensures one_place { bars_end (column_at 0 3 2) (column_at 4 1 0) ≡ 4 }
    ensures none { bars_end (column_at 0 3 2) (column_at 3 1 0) ≡ 3 }
{}

/// The room that bars have, and where they stand.
#[tactic(auto, unfolding(roff_num::specs::Expressions::folded_onto, roff_num::specs::Expressions::operand_within, roff_num::specs::Expressions::value_at))]
pub fn bars()
    ensures least { separations (boxed 0) (codes "lb2 | l.") ≡ 3 ∷ 3 ∷ [] }
    ensures least_of_two { separations (boxed 0) (codes "l2 || l || l1.") ≡ 4 ∷ 4 ∷ 1 ∷ [] }
    ensures wide { separations (boxed 0) (codes "l7 | l7 || l.") ≡ 7 ∷ 7 ∷ 3 ∷ [] }
    ensures most { separations (boxed 0) (codes "l0 l0, l | l, l || l.") ≡ 4 ∷ 0 ∷ [] }
    ensures inside { separations each_field (codes "l0 l1 || l.") ≡ 3 ∷ 4 ∷ 3 ∷ [] }
    ensures outside { separations (boxed 2) (codes "l0 l1 l.") ≡ 0 ∷ 1 ∷ 3 ∷ [] }
    ensures no_edge { edges (boxed 0) (codes "l | l.") ≡ 0 ∷ 0 ∷ [] }
    ensures format_edges { edges (boxed 0) (codes "| l || l ||, l.") ≡ 2 ∷ 3 ∷ [] }
    ensures later_edges { edges (boxed 0) (codes "l l, || l |, l l |.") ≡ 3 ∷ 2 ∷ [] }
    ensures around { edges (boxed 1) (codes "l || l ||.") ≡ 2 ∷ 3 ∷ [] }
    ensures twice_around { edges (boxed 2) (codes "| l.") ≡ 3 ∷ 3 ∷ [] }
    ensures places_of_one { map (λ places. behind_column places 1) (1 ∷ 2 ∷ 3 ∷ 4 ∷ 5 ∷ [])
        ≡ 0 ∷ 0 ∷ 1 ∷ 1 ∷ 2 ∷ [] }
    ensures places_of_two { map (λ places. behind_column places 2) (3 ∷ 4 ∷ 5 ∷ 6 ∷ [])
        ≡ 0 ∷ 1 ∷ 1 ∷ 2 ∷ [] }
{}

/// Cells of several columns: the measures of their blocks, and the room that their columns get.
pub fn spans()
    ensures widths { measure_of no_bars 65 3
        (record nothing_asked { least = Some 10 } ∷ nothing_asked ∷ []) ≡ 13 }
    ensures nothing_wide { measure_of no_bars 65 3
        (record nothing_asked { least = Some 0 } ∷ []) ≡ 0 }
    ensures part { measure_of no_bars 65 3 (nothing_asked ∷ nothing_asked ∷ []) ≡ 32 }
    ensures short_line { measure_of no_bars 2 3 (nothing_asked ∷ []) ≡ 1 }
    ensures spread { map (λ c. c.width) (columns_laid no_bars 65
        (nothing_asked ∷ nothing_asked ∷ nothing_asked ∷ [])
        (OneRow [] (record { keys = plain_key 0 Left 2 ∷ []; bars = 0 })
        (OneText (codes "abcdefghijklmn") ∷ []) ∷ []))
        ≡ 2 ∷ 3 ∷ 3 ∷ [] }
    ensures in_order { map (λ c. c.width) (columns_laid no_bars 65
        (nothing_asked ∷ nothing_asked ∷ nothing_asked ∷ [])
        (OneRow [] (record { keys = plain_key 0 Left 1 ∷ []; bars = 0 })
        (OneText (codes "abcdefgh") ∷ []) ∷ OneRow [] (record {
          keys = plain_key 0 Left 2 ∷ [];
          bars = 0;
        }) (OneText (codes "abcdefghijklmn") ∷ []) ∷ []))
        ≡ 3 ∷ 4 ∷ 1 ∷ [] }
    ensures equal { map (λ c. c.width) (columns_laid no_bars 65
        (record nothing_asked { is_equal = true } ∷ record nothing_asked { is_equal = true } ∷ [])
        (OneRow [] (record { keys = plain_key 0 Left 1 ∷ []; bars = 0 })
        (OneText (codes "abcdefgh") ∷ []) ∷ []))
        ≡ 3 ∷ 3 ∷ [] }
    ensures cells { map (λ c. c.width) (cells_of (plain_key 0 Left 1 ∷ [])
        (column_at 0 2 0 ∷ column_at 5 4 0 ∷ column_at 12 1 0 ∷ [])) ≡ 9 ∷ 1 ∷ [] }
    ensures no_rule_row { is_rule_row (record { keys = plain_key 0 RuleKey 1 ∷ []; bars = 0 })
        ≡ false }
{}
