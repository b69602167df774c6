//! Facts about the definitions alone, as contracts of functions that do nothing.

ghost use Rattle.std.specs.Prelude.{◌≡◌, [], ◌∷◌, ◌++◌, codes, pos, negsuc, Ok, Err};
ghost use Rattle.roff_num.specs.declared.num.NumFault.TheVariants.{Range};
ghost use Rattle.roff_num.specs.declared.num.Scale.TheVariants.{Columns, Lines, Units};
ghost use Rattle.run_model.specs.Numbers.{value_beside, value_in};
ghost use Rattle.run_model.specs.Registers.{Known, Remove, SetTo};
ghost use Rattle.run_model.specs.Requests.Naming.{remove_names, rename};
ghost use Rattle.roff_store.specs.TextCalls.{Remove as RemoveName, Rename};
ghost use Rattle.run_model.specs.Requests.Effects.{Ignored, changing, naming};
ghost use Rattle.run_model.specs.Requests.Lengths.{length_set};
ghost use Rattle.run_model.specs.Requests.Numbering.{remove_registers, set_register};
ghost use Rattle.roff_num.specs.Ranges.{number};
ghost use Rattle.roff_num.specs.declared.limit.Limit.TheVariants.{Bytes, Depth, Line, Names, Stack};
ghost use Rattle.run_model.specs.declared.status.Status.TheVariants.{Aborted, Done, Device};
ghost use Rattle.run_model.specs.declared.status.Status.TheVariants.{Limit as Limited};
ghost use Rattle.law_runs.specs.Laws.{LimitsOnlyCut, SameUntilALimit, FailingOnlyCuts};
ghost use Rattle.law_runs.specs.Laws.{SameUntilTheFault, NoLimitIsPassed, NoTitleIsLonger};
ghost use Rattle.law_runs.specs.Laws.{StepsOnlyAppend};
ghost use Rattle.law_runs.specs.ResultLaws.{EveryRunEnds, StepsLeadToTheLastState};
ghost use Rattle.law_runs.specs.ResultLaws.{NoOtherStateIsLast, LimitsCutResults};
ghost use Rattle.law_runs.specs.ResultLaws.{SameResultWithoutALimit, FailingCutsResults};
ghost use Rattle.law_runs.specs.ResultLaws.{SameResultBeforeTheFault, EachStateIsABeginning};
ghost use Rattle.law_runs.specs.Statuses.{EachStatusTells};
ghost use Rattle.law_runs.specs.Refusals.{RefusedStepsDoNothing};
ghost use Rattle.law_runs.specs.Taken.{EachItemIsTakenOnce, EachRunLeavesItsRest};
ghost use Rattle.input_source.specs.Tape.{Ended, Failed};
ghost use Rattle.law_runs.specs.Rows.{gives, formatted, formatted_up_to, formatted_within};
ghost use Rattle.law_runs.specs.Rows.{formatted_with, formatted_failing};

/// What the definitions give on the worked rows of filled text.
#[tactic(auto, unfolding(roff_num::proofs::OnLiterals::numbers_on_literals))]
pub fn filled_text_rows()
    ensures nothing { formatted (codes "") ≡ gives (codes "") (codes "") Done }
    ensures four_columns_over_two_gaps { formatted (codes ".pl 2\n.ll 12n\na bb ccc dddd eeeee\n")
        ≡ gives (codes "a   bb   ccc\ndddd eeeee\n") (codes "") Done }
    ensures three_columns_over_two_gaps { formatted (codes ".pl 2\n.ll 11n\na bb ccc dddd eeeee\n")
        ≡ gives (codes "a  bb   ccc\ndddd eeeee\n") (codes "") Done }
    ensures word_too_long { formatted (codes ".pl 1\n.ll 10n\nab abcdefghijklmnopqrst cd\n")
        ≡ gives (codes "ab\nabcdefghijklmnopqrst\ncd\n") (codes "") Done }
    ensures blank_lines { formatted (codes ".pl 6\na\n\nb\n.sp 2\nc\n")
        ≡ gives (codes "a\n\nb\n\n\nc\n") (codes "") Done }
    ensures not_filled { formatted (codes ".pl 2\n.nf\nx  y\n.in 2n\nz\n")
        ≡ gives (codes "x  y\n  z\n") (codes "") Done }
    ensures right_edge { formatted (codes ".pl 1\n.ll 10n\n.ad r\nab cd\n")
        ≡ gives (codes "     ab cd\n") (codes "") Done }
    ensures without_break { formatted (codes ".pl 2\nab\n'sp\ncd\n")
        ≡ gives (codes "\nab cd\n") (codes "") Done }
{}

/// What the definitions give on the worked rows of bad numbers, limits and failing sources.
#[tactic(auto, unfolding(roff_num::proofs::OnLiterals::numbers_on_literals))]
pub fn limit_rows()
    ensures bad_number { formatted (codes ".pl 1\n.ll x\nab\n")
        ≡ gives (codes "ab\n") (codes "nroff: line 2: bad number\n") Done }
    ensures bytes_enough { formatted_within 12 4096 (codes ".pl 1\nab cd\n")
        ≡ gives (codes "ab cd\n") (codes "") Done }
    ensures bytes_reached { formatted_within 11 4096 (codes ".pl 1\nab cd\n")
        ≡ gives (codes "") (codes "nroff: line 2: limit bytes (11) reached\n") (Limited Bytes) }
    ensures no_bytes { formatted_within 0 4096 (codes "a\n")
        ≡ gives (codes "") (codes "nroff: line 1: limit bytes (0) reached\n") (Limited Bytes) }
    ensures line_enough { formatted_within 50000000 6 (codes ".pl 1\nabc de\n")
        ≡ gives (codes "abc de\n") (codes "") Done }
    ensures line_reached { formatted_within 50000000 5 (codes ".pl 1\nabc de\n")
        ≡ gives (codes "") (codes "nroff: line 2: limit line (5) reached\n") (Limited Line) }
    ensures source_fails { formatted_failing 8 (codes ".nf\nab\ncd\n")
        ≡ gives (codes "ab\n") (codes "nroff: line 3: read failed\n") Device }
{}

/// What the definitions give where the limit on bytes is met at the end of a text, and something
/// waits for the byte behind it: of a source that fails there that is told, and where it ends the
/// limit.
#[tactic(auto, unfolding(roff_num::proofs::OnLiterals::numbers_on_literals))]
pub fn waiting_rows()
    ensures behind_a_dot { formatted_up_to 12 Failed (codes ".ds x .\n\\*x")
        ≡ gives (codes "") (codes "nroff: line 2: read failed\n") Device }
    ensures behind_a_name { formatted_up_to 14 Failed (codes ".ds x .a\n\\*x")
        ≡ gives (codes "") (codes "nroff: line 2: read failed\n") Device }
    ensures behind_a_backslash { formatted_up_to 20 Failed (codes ".ds x \\\\\n.ds y a\\*x")
        ≡ gives (codes "") (codes "nroff: line 2: read failed\n") Device }
    ensures behind_a_quote { formatted_up_to 21 Failed (codes ".ds x \"\"a\"\n.nr \\*x")
        ≡ gives (codes "") (codes "nroff: line 2: read failed\n") Device }
    ensures source_ends { formatted_up_to 12 Ended (codes ".ds x .\n\\*x")
        ≡ gives (codes "") (codes "nroff: line 2: limit bytes (12) reached\n") (Limited Bytes) }
    ensures text_waits_for_nothing { formatted_up_to 12 Failed (codes ".ds x a\n\\*x")
        ≡ gives (codes "") (codes "nroff: line 2: limit bytes (12) reached\n") (Limited Bytes) }
{}

/// What the definitions give behind a backslash and a newline, with which a line or a branch
/// begins.
#[tactic(auto, unfolding(roff_num::proofs::OnLiterals::numbers_on_literals))]
pub fn joined_line_rows()
    ensures branch { formatted (codes ".pl 1\n.if 1 \\\n.ds a x\n\\*a\n")
        ≡ gives (codes "x\n") (codes "") Done }
    ensures line { formatted (codes ".pl 1\n\\\n.ds a x\n\\*a\n")
        ≡ gives (codes "x\n") (codes "") Done }
    ensures text { formatted (codes ".pl 1\n.nf\na\\\n.ds a x\n")
        ≡ gives (codes "a.ds a x\n") (codes "") Done }
{}

/// What the definitions give on the worked rows of number registers.
#[tactic(auto, unfolding(roff_num::proofs::OnLiterals::numbers_on_literals))]
pub fn register_rows()
    ensures bad_value { formatted (codes ".pl 1\n.nr a 3+4*2\n\\na\n.nr a 1/0\n\\na\n")
        ≡ gives (codes "14 14\n") (codes "nroff: line 4: bad number\n") Done }
    ensures formats { formatted (codes ".pl 1\n.nr y 1994\n.af y I\n.nr p 26 1\n.af p a\n"
        ++ codes ".nr s 7\n.af s 001\n.nr z 0\n.af z i\n\\ny \\np \\n+p \\n+p \\ns \\nz\n")
        ≡ gives (codes "MCMXCIV z aa ab 007 0\n") (codes "") Done }
    ensures division { formatted (codes ".pl 1\n.nr a (0-7)/2\n.nr b (0-7)%2\n"
        ++ codes ".nr c 1.5i\n.nr d 2c\n\\na \\nb \\nc \\nd\n")
        ≡ gives (codes "-3 -1 360 188\n") (codes "") Done }
    ensures sign_adds { formatted (codes ".pl 1\n.nr a 5\n.nr a -7+2\n\\na\n")
        ≡ gives (codes "-4\n") (codes "") Done }
    ensures step { formatted (codes ".pl 1\n.nr x 5 3\n\\n+x \\nx \\n-x\n")
        ≡ gives (codes "8 8 5\n") (codes "") Done }
    ensures step_out_of_range { formatted (codes ".pl 1\n.nr x 2147483647 1\n\\n+x\n")
        ≡ gives (codes "2147483647\n") (codes "nroff: line 3: bad number\n") Done }
    ensures removed { formatted (codes ".pl 1\n.nr a 5\n.rr a\n\\na\n")
        ≡ gives (codes "0\n") (codes "") Done }
    ensures register_in_a_name { formatted (codes ".pl 1\n.nr x 1\n.nr r1 7\n\\n(r\\nx\n")
        ≡ gives (codes "7\n") (codes "") Done }
    ensures register_in_an_argument { formatted (codes ".pl 1\n.nr a 2\n.nr b \\na+1\n\\nb\n")
        ≡ gives (codes "3\n") (codes "") Done }
    ensures newline_ends_a_name { formatted (codes ".pl 1\n.nr a 5\n.nf\nx\\n(a\ny\n")
        ≡ gives (codes "x5\ny\n") (codes "") Done }
    ensures newline_ends_a_name_in_an_argument { formatted
        (codes ".pl 1\n.nr a 2\n.nr b \\n(a\n\\nb\n")
        ≡ gives (codes "2\n") (codes "") Done }
    ensures input_ends_a_name { formatted (codes ".pl 1\n.nr a 5\nx\\n(a")
        ≡ gives (codes "x5\n") (codes "") Done }
    ensures names_reached { formatted_with 100 10 1 (codes ".nr a 1\n.nr b 1\n")
        ≡ gives (codes "") (codes "nroff: line 2: limit names (1) reached\n") (Limited Names) }
    ensures stack_enough { formatted_with 2 1 0 (codes ".pl 1\n\\n(.\\\nH\n")
        ≡ gives (codes "24\n") (codes "") Done }
    ensures stack_reached { formatted_with 1 1 0 (codes "\\n(.\\\nH\n")
        ≡ gives (codes "") (codes "nroff: line 1: limit stack (1) reached\n") (Limited Stack) }
    ensures depth_reached { formatted_with 2 0 0 (codes "\\n(.\\\nH\n")
        ≡ gives (codes "") (codes "nroff: line 1: limit depth (0) reached\n") (Limited Depth) }
{}

/// Every run ends, in one state alone.
pub fn ends()
    ensures ends { EveryRunEnds }
    ensures reached { StepsLeadToTheLastState }
    ensures alone { NoOtherStateIsLast }
{}

/// Nothing that a run wrote or reported is taken back.
pub fn appends()
    ensures steps { StepsOnlyAppend }
    ensures whole_run { EachStateIsABeginning }
{}

/// Each status tells how the run ended, and what its last message says.
pub fn statuses()
    ensures { EachStatusTells }
{}

/// A step that a limit refuses does nothing, and tells no message of what it would have done.
pub fn refusals()
    ensures { RefusedStepsDoNothing }
{}

/// Limits only cut: a run with smaller ones writes and reports a beginning, and comes to the same
/// state until one of them stops it.
pub fn limits()
    ensures beginning { LimitsOnlyCut }
    ensures same_until_a_limit { SameUntilALimit }

    // What whole runs give.
    ensures result { LimitsCutResults }
    ensures same_result { SameResultWithoutALimit }
{}

/// A source that fails only cuts: where it went on, the run would write and report what it does,
/// and more, and come to the same state until it met the fault.
pub fn cut()
    ensures beginning { FailingOnlyCuts }
    ensures same_until_the_fault { SameUntilTheFault }

    // What whole runs give.
    ensures result { FailingCutsResults }
    ensures same_result { SameResultBeforeTheFault }
{}

/// No run takes or writes more bytes, has a longer pending line or title, more inserted bytes or
/// texts, or more registers than its limits say.
pub fn bounds()
    ensures counts { NoLimitIsPassed }
    ensures titles { NoTitleIsLonger }
{}

/// A run takes the items of its source in order, each once, charges each byte and knows its line;
/// what it doesn't take is its rest.
pub fn rest()
    ensures each_step { EachItemIsTakenOnce }
    ensures whole_run { EachRunLeavesItsRest }
{}

/// What the definitions give on worked rows of requests that do nothing.
#[tactic(auto, unfolding(roff_num::proofs::OnLiterals::numbers_on_literals))]
pub fn other_request_rows()
    ensures registers_stepped { formatted
        (codes ".pl 1\n.nr x 0 1\nab\n.ft \\n+x\n'so \\n+x\n\\nx\n")
        ≡ gives (codes "ab 2\n") (codes "nroff: line 5: left out: so\n") Done }
    ensures input_ends { formatted (codes ".pl 1\nab\n.so file")
        ≡ gives (codes "ab\n") (codes "nroff: line 3: left out: so\n") Done }
{}

/// What the definitions give on worked arguments of requests.
#[tactic(auto, unfolding(roff_num::proofs::OnLiterals::numbers_on_literals))]
pub fn argument_rows()
    ensures sum { value_in Columns (codes "2+1i") ≡ Ok (pos 288) }
    ensures letters_behind { value_in Lines (codes "2x") ≡ Ok (pos 80) }
    ensures sign_taken_off { value_beside (pos 5) Units (codes "-7+2") ≡ Ok (negsuc 3) }
    ensures sign_added { value_beside (negsuc 0) Units (codes "+7") ≡ Ok (pos 6) }
    ensures rounded { length_set 10 (codes "1.5n") ≡ Ok 2 }
    ensures at_least_zero { length_set 10 (codes "-99n") ≡ Ok 0 }
    ensures too_great { length_set 1 (codes "+89478485n") ≡ Err Range }
    ensures register_set { (k : Known) → set_register k (codes "abc" ∷ codes "3" ∷ codes "-2" ∷ [])
        ≡ changing (SetTo (codes "ab") (number (pos 3)) (number (negsuc 1))) }
    ensures unnamed { (k : Known) → set_register k (codes "" ∷ codes "x" ∷ []) ≡ Ignored [] }
    ensures registers_removed { remove_registers (codes "a" ∷ codes "" ∷ codes "bcd" ∷ [])
        ≡ changing (Remove (codes "a" ∷ codes "bc" ∷ [])) }
    ensures names_removed { remove_names (codes "a" ∷ codes "" ∷ codes "bcd" ∷ [])
        ≡ naming (RemoveName (codes "a") ∷ RemoveName (codes "bc") ∷ []) }
    ensures renamed { rename (codes "abc" ∷ codes "d" ∷ [])
        ≡ naming (Rename (codes "ab") (codes "d") ∷ []) }
    ensures not_renamed { rename (codes "a" ∷ codes "" ∷ []) ≡ Ignored [] }
{}

/// What the definitions give on worked rows of names that are removed and renamed.
#[tactic(auto, unfolding(roff_num::proofs::OnLiterals::numbers_on_literals))]
pub fn naming_rows()
    ensures renamed { formatted (codes ".pl 1\n.rn br x\na\n.x\nb\n")
        ≡ gives (codes "a\nb\n") [] Done }
    ensures removed { formatted (codes ".pl 1\n.rm br\na\n.br\nb\n")
        ≡ gives (codes "a b\n") [] Done }
    ensures string_removed { formatted (codes ".pl 1\n.ds s a\n.rm s\n.as s b\n\\*s\n")
        ≡ gives (codes "b\n") [] Done }
{}

/// What the definitions give on worked rows of escapes.
#[tactic(auto, unfolding(roff_num::proofs::OnLiterals::numbers_on_literals))]
pub fn escape_rows()
    ensures characters { formatted (codes ".pl 1\na\\(em\\(xxb\n")
        ≡ gives (codes "a--b\n") (codes "nroff: line 2: unknown character: xx\n") Done }
    ensures comments { formatted (codes ".pl 1\na\\\" b\n.br \\\" c\nd\n")
        ≡ gives (codes "a\nd\n") [] Done }
    ensures left_out { formatted (codes ".pl 1\na\\zb\\g(xyc")
        ≡ gives (codes "abc\n")
        (codes "nroff: line 2: left out: \\z\nnroff: line 2: left out: \\g\n")
        Done }
    ensures no_strings_yet { formatted (codes ".pl 1\n\\*x.br\na\\$1b\n")
        ≡ gives (codes "ab\n") [] Done }
    ensures comment_in_a_name { formatted (codes ".pl 1\n\\(em\\(e\\\" m\n")
        ≡ gives (codes "--\n") (codes "nroff: line 2: unknown character: e\n") Done }
{}

/// What the definitions give on worked rows of messages of the input, and of its end.
#[tactic(auto, unfolding(roff_num::proofs::OnLiterals::numbers_on_literals))]
pub fn message_rows()
    ensures told { formatted (codes ".tm hi\n") ≡ gives [] (codes "hi\n") Done }
    ensures told_at_the_end { formatted (codes ".pl 1\na\n.tm  \"b c")
        ≡ gives (codes "a\n") (codes "\"b c\n") Done }
    ensures empty_line { formatted (codes ".tm\n") ≡ gives [] (codes "\n") Done }
    ensures aborted { formatted (codes "ab\n.ab stop\n") ≡ gives [] (codes "stop\n") Aborted }
    ensures user_abort { formatted (codes "a\n.ab") ≡ gives [] (codes "User Abort\n") Aborted }
    ensures left { formatted (codes ".pl 1\na\n.ex b\nc\n") ≡ gives (codes "a\n") [] Done }
    ensures called_at_the_end { formatted (codes ".pl 1\n.ds m ab\n.m")
        ≡ gives (codes "ab\n") [] Done }
    ensures begun_at_the_end { formatted (codes ".pl 1\na\n.de m")
        ≡ gives (codes "a\n") (codes "nroff: line 3: definition not ended\n") Done }
{}
