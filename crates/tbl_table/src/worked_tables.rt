//! Worked tables: what the definitions give for their lines.

ghost use Rattle.std.specs.Prelude.{◌≡◌, [], ◌∷◌, Some, None, codes};
ghost use Rattle.tbl_options.specs.Notes.{told_at};
ghost use Rattle.tbl_options.specs.declared.message.Message.TheVariants.{BadFormat, EntryCut};
ghost use Rattle.tbl_options.specs.declared.message.Message.TheVariants.{LeftOut};
ghost use Rattle.tbl_options.specs.declared.message.Message.TheVariants.{NotMeasured};
ghost use Rattle.tbl_options.specs.declared.message.Message.TheVariants.{RequestInTextBlock};
ghost use Rattle.tbl_options.specs.declared.message.Message.TheVariants.{TooManyFields};
ghost use Rattle.tbl_table.specs.Table.{lines_after, notes_after, picture_after, rows_after};

/// Tables that are laid out.
#[tactic(auto, unfolding(tbl_data::specs::TableRead::no_lines, crate::specs::Table::line_read, crate::specs::Table::closed, crate::specs::Table::ended, crate::specs::Table::notes, crate::specs::Table::output, tbl_format::specs::FormatSteps::step, roff_num::specs::Expressions::folded_onto, roff_num::specs::Expressions::operand_within, roff_num::specs::Expressions::value_at))]
pub fn pictures()
    ensures columns { picture_after 65 (codes "l r." ∷ codes "a\tbb" ∷ codes "longer\tc" ∷ [])
        ≡ Some (codes ".nr TF \\n(.u\n.nf\n\\&a        bb\n\\&longer    c\n.if \\n(TF .fi\n") }
    ensures further { lines_after 65 (codes "l." ∷ codes "ab" ∷ codes ".T&" ∷ codes "r."
        ∷ codes "c" ∷ []) ≡ codes "\\&ab\n\\& c\n" }
    ensures block { lines_after 9 (codes "tab(:);" ∷ codes "l l." ∷ codes "a:T{" ∷ codes "one two"
        ∷ codes "T}" ∷ []) ≡ codes "\\&a   one\n\\&    two\n" }
    ensures command { lines_after 65 (codes "l." ∷ codes "a\\fB" ∷ codes ".sp" ∷ codes "b" ∷ [])
        ≡ codes "\\&a\n.sp\n\\&b\n" }
    ensures separations { lines_after 65 (codes "tab(:);l0c5,R." ∷ codes "a:b:" ∷ codes ":xyz" ∷ [])
        ≡ codes "\\&a b\n\\& xyz\n" }
    ensures numbers { lines_after 65 (codes "n." ∷ codes "12.5" ∷ codes "7" ∷ codes "3\\&x" ∷ [])
        ≡ codes "\\&12.5\n\\& 7\n\\& 3x\n" }
    ensures strip { lines_after 65 (codes "l,a." ∷ codes "abcdef" ∷ codes "xy" ∷ [])
        ≡ codes "\\&abcdef\n\\&  xy\n" }
    ensures equal { lines_after 65 (codes "le le." ∷ codes "a\tbbb" ∷ [])
        ≡ codes "\\&a     bbb\n" }
    ensures expanded { lines_after 10 (codes "expand;" ∷ codes "l l." ∷ codes "a\tb" ∷ [])
        ≡ codes "\\&a        b\n" }
    ensures measure { lines_after 65 (codes "lw3." ∷ codes "T{" ∷ codes "one two" ∷ codes "T}" ∷ [])
        ≡ codes "\\&one\n\\&two\n" }
    ensures rules { lines_after 65 (codes "l r." ∷ codes "a\tbb" ∷ codes "=" ∷ codes "longer\tc"
        ∷ codes "_\t\\_" ∷ codes "\\Rx\t=" ∷ codes "_\t_" ∷ codes "_" ∷ [])
        ≡ codes "\\&a        bb\n\\&===========\n\\&longer    c\n\\&------   --\n\\&xxxxxx   ==\n\\&-----------\n\\&-----------\n" }
    ensures nearly_rules { lines_after 65 (codes "l l." ∷ codes "_ \t__" ∷ [])
        ≡ codes "\\&_    __\n" }
    ensures joined { lines_after 65 (codes "l l." ∷ codes "a\\" ∷ codes "b\t c " ∷ codes "\\" ∷ [])
        ≡ codes "\\&ab    c\n\\&\n" }
    ensures rule_row { lines_after 65 (codes "l l l" ∷ codes "___" ∷ codes "l l l."
        ∷ codes "a\tb\tc" ∷ codes "d\te\tf" ∷ codes "g" ∷ [])
        ≡ codes "\\&a   b   c\n\\&---------\n\\&d   e   f\n\\&g\n" }
    ensures short_row { lines_after 65 (codes "l l" ∷ codes "l _."
        ∷ codes "ab\tcd" ∷ codes "e" ∷ [])
        ≡ codes "\\&ab   cd\n\\&e    --\n" }
    ensures last_rule_row { lines_after 65 (codes "l" ∷ codes "_." ∷ codes "ab" ∷ codes "c" ∷ [])
        ≡ codes "\\&ab\n\\&--\n" }
    ensures bars { lines_after 65 (codes "l|r." ∷ codes "a\tbb" ∷ codes "longer\tc" ∷ [])
        ≡ codes "\\&a      | bb\n\\&longer |  c\n" }
    ensures double_box { lines_after 65 (codes "doublebox;" ∷ codes "l." ∷ codes "ab" ∷ [])
        ≡ codes "\\&++====++\n\\&|| ab ||\n\\&++====++\n" }
    ensures without_width { lines_after 65 (codes "tab(:);" ∷ codes "l l" ∷ codes "lz l."
        ∷ codes "x:y" ∷ codes "abcdef:z" ∷ codes "abcdef:" ∷ [])
        ≡ codes "\\&x   y\n\\&abcdz\n\\&abcde\n" }
    ensures spanned { lines_after 65 (codes "box;" ∷ codes "c s s" ∷ codes "l r n." ∷ codes "Title"
        ∷ codes "a\tbb\t1.5" ∷ codes "longer\tc\t10" ∷ [])
        ≡ codes "\\&+--------------------+\n\\&|       Title        |\n\\&| a        bb    1.5 |\n\\&| longer    c   10   |\n\\&+--------------------+\n" }
{}

/// Tables that are reported.
#[tactic(auto, unfolding(tbl_data::specs::TableRead::no_lines, crate::specs::Table::line_read, crate::specs::Table::closed, crate::specs::Table::ended, crate::specs::Table::notes, crate::specs::Table::output, tbl_format::specs::FormatSteps::step, tbl_lines::specs::CutEntries::cut_entries))]
pub fn reports()
    ensures letter { notes_after (codes "lx." ∷ codes "a" ∷ []) ≡ told_at 1 (LeftOut 120) ∷ [] }
    ensures measures { notes_after (codes "l l." ∷ codes "\\nxb\t\\(em\\w'x'" ∷ [])
        ≡ told_at 2 (NotMeasured 110) ∷ told_at 2 (NotMeasured 119) ∷ [] }
    ensures joined { notes_after (codes "l." ∷ codes "a\\" ∷ codes "\\cb" ∷ [])
        ≡ told_at 3 (NotMeasured 99) ∷ [] }
    ensures surplus { notes_after (codes "tab(:);" ∷ codes "l." ∷ codes "\\c:\\c:x" ∷ [])
        ≡ told_at 3 (NotMeasured 99) ∷ told_at 3 TooManyFields ∷ [] }
    ensures later_columns { notes_after (codes "l." ∷ codes "a\tb" ∷ codes ".T&" ∷ codes "l l."
        ∷ codes "c\td" ∷ []) ≡ told_at 2 TooManyFields ∷ [] }
    ensures block { notes_after (codes "l." ∷ codes "T{" ∷ codes ".br" ∷ codes "x\\c"
        ∷ codes "T}y\\c" ∷ [])
        ≡ told_at 3 RequestInTextBlock ∷ told_at 4 (NotMeasured 99) ∷ [] }
    ensures dropped_block { notes_after (codes "tab(:);" ∷ codes "l." ∷ codes "a:T{" ∷ codes "\\c"
        ∷ codes ".x" ∷ codes "T}:b" ∷ [])
        ≡ told_at 3 TooManyFields ∷ told_at 5 RequestInTextBlock ∷ [] }
    ensures from_above { notes_after (codes "l l." ∷ codes "\\c\t\\^" ∷ codes "x\t\\^\tz" ∷ [])
        ≡ told_at 2 (NotMeasured 99) ∷ told_at 3 TooManyFields ∷ [] }
    ensures rules { notes_after (codes "l l." ∷ codes "_" ∷ codes "\\_\t\\Rx" ∷ codes "=\t\\c" ∷ [])
        ≡ told_at 4 (NotMeasured 99) ∷ [] }
    ensures surplus_rule { notes_after (codes "l." ∷ codes "a\t_" ∷ [])
        ≡ told_at 2 TooManyFields ∷ [] }
    ensures no_picture { picture_after 65 (codes "box;" ∷ codes "l|||." ∷ []) ≡ None }
    ensures double_box { notes_after (codes "doublebox;" ∷ codes "l|." ∷ []) ≡ [] }
    ensures third_bar { notes_after (codes "box;" ∷ codes "l|||." ∷ [])
        ≡ told_at 2 BadFormat ∷ [] }
    ensures key { notes_after (codes "l" ∷ codes "sl." ∷ codes "a" ∷ [])
        ≡ told_at 2 BadFormat ∷ [] }
    ensures rule_key { notes_after (codes "l _." ∷ codes "a\t\\c" ∷ []) ≡ [] }
    ensures block_under_rule_key { notes_after (codes "l _." ∷ codes "a\tT{" ∷ codes "\\c"
        ∷ codes "T}\tb" ∷ []) ≡ told_at 4 TooManyFields ∷ [] }
    ensures told_once { notes_after (codes "l _." ∷ codes "a\tT{" ∷ codes "T}\tb\tT{"
        ∷ codes "T}\tc" ∷ []) ≡ told_at 3 TooManyFields ∷ [] }
    ensures joined_surplus { notes_after (codes "l." ∷ codes "a\\" ∷ codes "\tb" ∷ [])
        ≡ told_at 3 TooManyFields ∷ [] }
    ensures joined_from_above { notes_after (codes "l l." ∷ codes "_\t\\" ∷ codes "\\^" ∷ [])
        ≡ [] }
    ensures no_dot { notes_after (codes "l" ∷ []) ≡ told_at 2 BadFormat ∷ [] }
    ensures cut { notes_after (codes "tab(:);" ∷ codes "l l" ∷ codes "lz l." ∷ codes "x:y:w"
        ∷ codes "abcdef\\nx:z" ∷ codes "abcdef:z" ∷ [])
        ≡ told_at 4 TooManyFields ∷ told_at 5 (NotMeasured 110) ∷ told_at 7 EntryCut
        ∷ told_at 7 EntryCut ∷ [] }
    ensures cut_but_not_ended { notes_after (codes "tab(:);" ∷ codes "l l" ∷ codes "lz l."
        ∷ codes "x:y" ∷ codes "abcdef:z" ∷ codes ".T&" ∷ codes "r" ∷ [])
        ≡ told_at 8 BadFormat ∷ [] }
    ensures not_ended { notes_after (codes "l." ∷ codes "a" ∷ codes ".T&" ∷ codes "l" ∷ [])
        ≡ told_at 5 BadFormat ∷ [] }
{}

/// How many rows tables have.
#[tactic(auto, unfolding(tbl_data::specs::TableRead::no_lines, crate::specs::Table::line_read, crate::specs::Table::closed, crate::specs::Table::ended, crate::specs::Table::rows, tbl_format::specs::FormatSteps::step))]
pub fn counts()
    ensures lines { rows_after (codes "l." ∷ codes "T{" ∷ codes "a" ∷ codes "T}" ∷ codes ".sp"
        ∷ codes ".T&" ∷ codes "l." ∷ codes "b" ∷ []) ≡ 3 }
    ensures at_end { rows_after (codes "l l." ∷ codes "a\tT{" ∷ codes "b\\" ∷ []) ≡ 1 }
    ensures rule { rows_after (codes "l." ∷ codes "a" ∷ codes "_\\" ∷ []) ≡ 2 }
    ensures from_above { rows_after (codes "l." ∷ codes "a" ∷ codes "\\^" ∷ []) ≡ 2 }
{}
