//! Facts about titles, as contracts of functions that do nothing.

ghost use Rattle.std.specs.Prelude.{◌≡◌, [], codes};
ghost use Rattle.law_runs.specs.Rows.{formatted, gives};
ghost use Rattle.law_escapes.specs.TitleLaws.{TitlesHaveThreeParts};
ghost use Rattle.law_escapes.specs.TitleLaws.{TitlesOfTheSourceHaveThreeParts};
ghost use Rattle.run_model.specs.declared.status.Status.TheVariants.{Done};

/// A line with three parts of printable bytes, each behind a delimiter, and with one behind the
/// last part or none, places a title: its left part stands in front, its middle one in the middle
/// of the title length, and its right one at the end, each behind the one in front where that goes
/// further, with blanks between them. In the place of the page number's character stands the number
/// that the page has then. No byte of a part is a backslash or the delimiter. Each byte of the line
/// is a step, and costs one.
pub fn printed_titles()
    ensures ahead { TitlesHaveThreeParts }
    ensures source { TitlesOfTheSourceHaveThreeParts }
{}

/// What the definitions give on worked rows of titles.
#[tactic(auto, unfolding(roff_num::proofs::OnLiterals::numbers_on_literals))]
pub fn title_rows()
    ensures alone { formatted (codes ".pl 1\n.tl\n") ≡ gives (codes "\n") [] Done }
    ensures at_both_ends { formatted (codes ".pl 1\n.lt 9n\n.tl 'ab''c'\n")
        ≡ gives (codes "ab      c\n") [] Done }
    ensures rounded_down { formatted (codes ".pl 1\n.lt 9n\n.tl ''ab'c'\n")
        ≡ gives (codes "   ab   c\n") [] Done }
    ensures behind_one_another { formatted (codes ".pl 1\n.lt 5n\n.tl 'abcd'e'fg'\n")
        ≡ gives (codes "abcdefg\n") [] Done }
    ensures place_of_an_empty_part { formatted (codes ".pl 1\n.lt 9n\n.tl 'a''bcdefg'\n")
        ≡ gives (codes "a   bcdefg\n") [] Done }
    ensures not_ended { formatted (codes ".pl 1\n.lt 5n\n.tl 'ab'c")
        ≡ gives (codes "abc\n") [] Done }
    ensures another_character { formatted (codes ".pl 1\n.lt 9n\n.pc #\n.tl '%'#''\n")
        ≡ gives (codes "%   1\n") [] Done }
    ensures no_character { formatted (codes ".pl 1\n.pc\n.tl '%'''\n")
        ≡ gives (codes "%\n") [] Done }
    ensures number_in_a_format { formatted (codes ".pl 1\n.lt 3n\n.af % i\n.nr % 4\n.tl '''%'\n")
        ≡ gives (codes "  v\n") [] Done }
    ensures number_behind_an_escape { formatted (codes ".pl 1\n.lt 9n\n.tl '\\n%'\\e%'%'\n")
        ≡ gives (codes "0  \\1   1\n") [] Done }
    ensures delimiter_behind_a_backslash { formatted (codes ".pl 1\n.lt 9n\n.tl 'a\\'b''c'\n")
        ≡ gives (codes "a'b     c\n") [] Done }
    ensures no_break { formatted (codes ".pl 2\na\n.tl 'x'y'\nb\n")
        ≡ gives (codes "x                               y\na b\n") [] Done }
{}
