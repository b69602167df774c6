//! Worked formats: what the definitions make of their lines.

ghost use Rattle.std.specs.Prelude.{◌≡◌, [], ◌∷◌, None, Some, codes, true, false};
ghost use Rattle.tbl_format.specs.Format.{format_read, further, letters_left_out, no_format};
ghost use Rattle.tbl_format.specs.Format.{nothing_asked, plain_key};
ghost use Rattle.tbl_format.specs.FormatWorked.{all_done, does_in};
ghost use Rattle.tbl_options.specs.Options.{options_read};
ghost use Rattle.tbl_format.specs.declared.format.FormatPlace.TheVariants.{AtEnd, AtFault, InRows};
ghost use Rattle.tbl_format.specs.declared.format.Key.TheVariants.{Above, Alphabetic, Center};
ghost use Rattle.tbl_format.specs.declared.format.Key.TheVariants.{DoubleRule, Left, Numeric};
ghost use Rattle.tbl_format.specs.declared.format.Key.TheVariants.{Right, Rule, Spanned};
ghost use Rattle.tbl_format.specs.declared.format.Key.TheVariants.{WideNumeric};
ghost use Rattle.tbl_format.specs.declared.format.RowPart.TheVariants.{AtKeys, BehindKey};
ghost use Rattle.tbl_format.specs.declared.format.Standing.TheVariants.{Bottom, Middle, Top};
ghost use Rattle.tbl_format.specs.declared.format_step.Does.TheVariants.{AddBar, AddKey, DropWidth};
ghost use Rattle.tbl_format.specs.declared.format_step.Does.TheVariants.{EndFormat, EndRow};
ghost use Rattle.tbl_format.specs.declared.format_step.Does.TheVariants.{Equalize, LeaveOut};
ghost use Rattle.tbl_format.specs.declared.format_step.Does.TheVariants.{Separate, Stand, Widen};

/// Keys, bars, the ends of rows, and that of the format.
pub fn keys()
    ensures texts { does_in (codes "Lr C\tn,a.")
        ≡ (
          AddKey Left ∷ AddKey Right ∷ AddKey Center ∷ AddKey Numeric ∷ EndRow
              ∷ AddKey Alphabetic ∷ EndFormat ∷ [],
          AtEnd,
        ) }
    ensures others { does_in (codes "^s_-=\n")
        ≡ (
          AddKey Above ∷ AddKey Spanned ∷ AddKey Rule ∷ AddKey Rule ∷ AddKey DoubleRule
              ∷ EndRow ∷ [],
          InRows AtKeys,
        ) }
    ensures bars { does_in (codes "| l||r |.")
        ≡ (AddBar ∷ AddKey Left ∷ AddBar ∷ AddBar ∷ AddKey Right ∷ AddBar ∷ EndFormat ∷ [], AtEnd) }
    ensures behind_the_end { does_in (codes "l.?3") ≡ (AddKey Left ∷ EndFormat ∷ [], AtEnd) }
    ensures none { does_in (codes "lq.") ≡ (AddKey Left ∷ [], AtFault) }
{}

/// Numbers, and letters without effect, or that say where a cell stands.
pub fn letters()
    ensures numbers { does_in (codes "l10c 2147483648,")
        ≡ (
          AddKey Left ∷ Separate 10 ∷ AddKey Center ∷ Separate 2147483647 ∷ EndRow ∷ [],
          InRows AtKeys,
        ) }
    ensures no_key { does_in (codes "3l.") ≡ ([], AtFault) }
    ensures behind_bar { does_in (codes "l|3") ≡ (AddKey Left ∷ AddBar ∷ [], AtFault) }
    ensures of_cells { does_in (codes "lZ t Deb")
        ≡ (
          AddKey Left ∷ DropWidth ∷ Stand Top ∷ Stand Bottom ∷ Equalize ∷ [],
          InRows BehindKey,
        ) }
    ensures without_effect { does_in (codes "lbIUp12v-3r")
        ≡ (AddKey Left ∷ AddKey Right ∷ [], InRows BehindKey) }
    ensures no_size { does_in (codes "lp +1") ≡ (AddKey Left ∷ [], AtFault) }
    ensures fonts { does_in (codes "lf.f(CW)fBIrFR.")
        ≡ (AddKey Left ∷ AddKey Right ∷ EndFormat ∷ [], AtEnd) }
    ensures no_font { does_in (codes "lf\n") ≡ (AddKey Left ∷ [], AtFault) }
    ensures left_out { does_in (codes "lmxyXM(zz)r.")
        ≡ (
          AddKey Left ∷ LeaveOut 109 ∷ LeaveOut 88 ∷ LeaveOut 77 ∷ AddKey Right ∷ EndFormat ∷ [],
          AtEnd,
        ) }
    ensures no_macro { does_in (codes "lmx\n") ≡ (AddKey Left ∷ [], AtFault) }
{}

/// Widths: digits alone, or an expression in brackets, in columns of the page.
#[tactic(auto, unfolding(roff_num::specs::Expressions::folded_onto, roff_num::specs::Expressions::operand_within, roff_num::specs::Expressions::value_at))]
pub fn widths()
    ensures digits { does_in (codes "lw9n")
        ≡ (AddKey Left ∷ Widen 9 ∷ AddKey Numeric ∷ [], InRows BehindKey) }
    ensures end { does_in (codes "lW12.5") ≡ (AddKey Left ∷ Widen 12 ∷ EndFormat ∷ [], AtEnd) }
    ensures brackets { does_in (codes "lw((1+2)*3u)r")
        ≡ (AddKey Left ∷ Widen 9 ∷ AddKey Right ∷ [], InRows BehindKey) }
    ensures rounded { does_in (codes "lw(36u)")
        ≡ (AddKey Left ∷ Widen 2 ∷ [], InRows BehindKey) }
    ensures none { does_in (codes "lw(0)w(-5)")
        ≡ (AddKey Left ∷ Widen 0 ∷ Widen 0 ∷ [], InRows BehindKey) }
    ensures no_digit { does_in (codes "lw r") ≡ (AddKey Left ∷ [], AtFault) }
    ensures no_number { does_in (codes "lw()") ≡ (AddKey Left ∷ [], AtFault) }
    ensures more { does_in (codes "lw(3 )") ≡ (AddKey Left ∷ [], AtFault) }
    ensures open { does_in (codes "lw((3)\n") ≡ (AddKey Left ∷ [], AtFault) }
{}

/// What a format keeps: rows of keys with bars in front and behind, and what each column is asked
/// for in all rows.
#[tactic(auto, unfolding(roff_num::specs::Expressions::folded_onto, roff_num::specs::Expressions::operand_within, roff_num::specs::Expressions::value_at))]
pub fn formats()
    ensures rows { all_done (does_in (codes "| l || rtz |\nc.")).0 no_format ≡ record {
      earlier = [];
      rows = record {
        keys = plain_key 1 Left 0
            ∷ record { bars = 2; key = Right; end = 2; standing = Top; has_no_width = true } ∷ [];
        bars = 1;
      } ∷ record { keys = plain_key 0 Center 0 ∷ []; bars = 0 } ∷ [];
      row = [];
      bars = 0;
      asked = record nothing_asked { bars = 2 } ∷ record nothing_asked { bars = 1 } ∷ [];
      front = 1;
      place = InRows AtKeys;
    } }
    ensures columns { (all_done (does_in (codes "l5w4 r, lw3e7,l c2r.")).0 no_format).asked
        ≡ record { separation = Some 7; least = Some 4; is_equal = true; bars = 0 }
        ∷ record { separation = Some 2; least = None; is_equal = false; bars = 0 }
        ∷ nothing_asked ∷ [] }
    ensures no_width { (all_done (does_in (codes "lw(0)")).0 no_format).asked
        ≡ record { separation = None; least = Some 0; is_equal = false; bars = 0 } ∷ [] }
    ensures further { (all_done (does_in (codes "^ r.")).0
        (further (all_done (does_in (codes "l3.")).0 no_format))).earlier
        ≡ record { keys = plain_key 0 Left 0 ∷ []; bars = 0 } ∷ [] }
    ensures first_columns { (all_done (does_in (codes "s")).0 no_format).place ≡ AtFault }
    ensures first_rows { (all_done (does_in (codes "l ^")).0 no_format).place ≡ AtFault }
    ensures later_rows { (all_done (does_in (codes "l,^")).0 no_format).place ≡ InRows AtKeys }
    ensures bars { (all_done (does_in (codes "l||")).0 no_format).place ≡ InRows AtKeys }
    ensures third_bar { (all_done (does_in (codes "l|| |")).0 no_format).place ≡ AtFault }
    ensures bars_alone { (all_done (does_in (codes "l,|\n")).0 no_format).place ≡ AtFault }
    ensures no_row { (all_done (does_in (codes ",\n .")).0 no_format).place ≡ AtFault }
{}

/// Cells of several columns: each `s` widens the cell at its left, and its numbers and letters are
/// asked for its own column.
pub fn cells()
    ensures three { (all_done (does_in (codes "l s | s r")).0 no_format).row
        ≡ plain_key 0 Left 2 ∷ plain_key 0 Right 3 ∷ [] }
    ensures numbers { (all_done (does_in (codes "nsas^s_s")).0 no_format).row
        ≡ plain_key 0 WideNumeric 1 ∷ plain_key 0 Left 3 ∷ plain_key 0 Above 5
        ∷ plain_key 0 Rule 7 ∷ [] }
    ensures asked { (all_done (does_in (codes "l3s5|ew2")).0 no_format).asked
        ≡ record { separation = Some 3; least = None; is_equal = false; bars = 0 }
        ∷ record { separation = Some 5; least = None; is_equal = false; bars = 1 }
        ∷ [] }
    ensures cell { (all_done (does_in (codes "l|sz")).0 no_format).row
        ≡ record (plain_key 0 Left 1) { has_no_width = true } ∷ [] }
    ensures first { (all_done (does_in (codes "ss")).0 no_format).asked
        ≡ nothing_asked ∷ nothing_asked ∷ [] }
{}

/// What is read of them, and what is left out.
#[tactic(auto, unfolding(crate::specs::FormatSteps::step))]
pub fn readings()
    ensures letters { (format_read no_format (codes "l xR3,cen,a.")).place ≡ AtEnd }
    ensures left_out { letters_left_out no_format (codes "lxmabr X,c.") ≡ 120 ∷ 109 ∷ 88 ∷ [] }
    ensures behind_a_fault { letters_left_out no_format (codes "lx,^q x,c.") ≡ 120 ∷ [] }
    ensures rule { (format_read no_format (codes "l_,=.")).place ≡ AtEnd }
    ensures above { (format_read no_format (codes "l,^.")).place ≡ AtEnd }
    ensures width { (format_read no_format (codes "l,^z.")).place ≡ AtEnd }
    ensures counted { (format_read no_format (codes "l,c^z=.")).asked
        ≡ nothing_asked ∷ nothing_asked ∷ nothing_asked ∷ [] }
    ensures spanned { (format_read no_format (codes "l s,s.")).place ≡ AtFault }
{}

/// The most bars behind the keys of each column, and in front of a row's first key.
#[tactic(auto, unfolding(crate::specs::FormatSteps::step))]
pub fn bars()
    ensures between { format_read no_format (codes "l | c || r.") ≡ record no_format {
      rows = record {
        keys = plain_key 0 Left 0 ∷ plain_key 1 Center 1 ∷ plain_key 2 Right 2 ∷ [];
        bars = 0;
      } ∷ [];
      asked = record nothing_asked { bars = 1 } ∷ record nothing_asked { bars = 2 }
          ∷ nothing_asked ∷ [];
      place = AtEnd;
    } }
    ensures at_edges { format_read no_format (codes "| l |.") ≡ record no_format {
      rows = record { keys = plain_key 1 Left 0 ∷ []; bars = 1 } ∷ [];
      asked = record nothing_asked { bars = 1 } ∷ [];
      front = 1;
      place = AtEnd;
    } }
    ensures most { format_read no_format (codes "|l|c\n||l|| c|.") ≡ record no_format {
      rows = record { keys = plain_key 1 Left 0 ∷ plain_key 1 Center 1 ∷ []; bars = 0 }
          ∷ record { keys = plain_key 2 Left 0 ∷ plain_key 2 Center 1 ∷ []; bars = 1 } ∷ [];
      asked = record nothing_asked { bars = 2 } ∷ record nothing_asked { bars = 1 } ∷ [];
      front = 2;
      place = AtEnd;
    } }
    ensures third { (format_read no_format (codes "l|||")).place ≡ AtFault }
    ensures third_in_front { (format_read no_format (codes "|| |")).place ≡ AtFault }
{}

/// How the options say that a picture is boxed: the most bars at its edges, and each field.
pub fn boxes()
    ensures none { (options_read (codes "center")).boxing
        ≡ record { bars = 0; is_inside = false } }
    ensures single { (options_read (codes "box")).boxing
        ≡ record { bars = 1; is_inside = false } }
    ensures double { (options_read (codes "doublebox box")).boxing
        ≡ record { bars = 2; is_inside = false } }
    ensures double_frame { (options_read (codes "frame,doubleframe")).boxing
        ≡ record { bars = 2; is_inside = false } }
    ensures each_field { (options_read (codes "allbox")).boxing
        ≡ record { bars = 1; is_inside = true } }
    ensures both { (options_read (codes "allbox doublebox")).boxing
        ≡ record { bars = 2; is_inside = true } }
    ensures both_turned { (options_read (codes "doublebox allbox")).boxing
        ≡ record { bars = 2; is_inside = true } }
{}
