//! Facts about macros that spring, and about the input-line trap, over the definitions alone, as
//! contracts of functions that do nothing.

ghost use Rattle.std.specs.Prelude.{◌≡◌, [], ◌∷◌, codes};
ghost use Rattle.law_runs.specs.Rows.{gives, formatted, formatted_with};
ghost use Rattle.law_runs.specs.SpringRows.{behind_a_glyph, behind_blanks, charge_from};
ghost use Rattle.law_runs.specs.SpringRows.{gives_from};
ghost use Rattle.law_runs.specs.SpringRows.{midway, next_line_springs};
ghost use Rattle.page_model.specs.declared.event.Event.TheVariants.{Break, Count, Gap, Print};
ghost use Rattle.page_model.specs.declared.event.Event.TheVariants.{WordEnd};
ghost use Rattle.page_model.specs.declared.glyph.Glyph.TheVariants.{Printed};
ghost use Rattle.roff_num.specs.declared.limit.Limit.TheVariants.{Depth};
ghost use Rattle.run_model.specs.declared.event.PageEvent.TheVariants.{Text};
ghost use Rattle.run_model.specs.declared.line_state.LineState.TheVariants.{Dropped, LineStart};
ghost use Rattle.run_model.specs.declared.status.Status.TheVariants.{Done, Limit as Limited};
ghost use Rattle.law_runs.specs.SpringLaws.{EachLineCounts, LinesGoOnAsTheyWere};
ghost use Rattle.law_runs.specs.SpringLaws.{MacrosAreReadFirst};
ghost use Rattle.law_runs.specs.SpringLaws.{NamesWithoutABodyReadNothing, OthersKeepTheirTraps};
ghost use Rattle.law_runs.specs.SpringLaws.{TheLastLineSprings};

/// A macro that an event springs leads to where its body stands in front, an end behind it, and the
/// rest of the events behind that, at no cost but what is then taken. Where the event changes the
/// text of a diversion too, that is done before the macro is read. Where its name has no body,
/// the rest alone is put back.
pub fn sprung_macros()
    ensures read { MacrosAreReadFirst }
    ensures without_a_body { NamesWithoutABodyReadNothing }
{}

/// Behind the end of a macro that sprang in the middle of a line, the line goes on as it was.
pub fn interrupted_lines()
    ensures { LinesGoOnAsTheyWere }
{}

/// The input-line trap waits for so many text lines of its environment, springs once, and is gone.
pub fn input_traps()
    ensures last { TheLastLineSprings }
    ensures each { EachLineCounts }
    ensures others { OthersKeepTheirTraps }
{}

/// What the definitions give on worked rows of the input-line trap.
#[tactic(auto, unfolding(roff_num::proofs::OnLiterals::numbers_on_literals))]
pub fn input_trap_rows()
    ensures next_line { formatted (codes ".pl 1\n.nf\n.de X\nx\n..\n.it 1 X\na\nb\n")
        ≡ gives (codes "a\nx\nb\n") (codes "") Done }
    ensures second_line { formatted (codes ".pl 1\n.nf\n.de X\nx\n..\n.it 2 X\na\nb\nc\n")
        ≡ gives (codes "a\nb\nx\nc\n") (codes "") Done }
    ensures filled { formatted (codes ".pl 1\n.de X\n.br\n..\n.it 2 X\na\nb\nc\n")
        ≡ gives (codes "a b\nc\n") (codes "") Done }
    ensures without_a_name { formatted (codes ".pl 1\n.nf\n.de X\nx\n..\n.it 1 X\n.it 1\na\n")
        ≡ gives (codes "a\n") (codes "") Done }
    ensures below_one { formatted (codes ".pl 1\n.nf\n.de X\nx\n..\n.it 1 X\n.it 0 X\na\n")
        ≡ gives (codes "a\n") (codes "") Done }
    ensures bad_number { formatted (codes ".pl 1\n.nf\n.it z X\na\n")
        ≡ gives (codes "a\n") (codes "nroff: line 3: bad number\n") Done }
    ensures blank_lines { formatted (codes ".pl 1\n.nf\n.de X\nx\n..\n.it 1 X\n\na\n")
        ≡ gives (codes "\na\nx\n") (codes "") Done }
    ensures joined_lines { formatted (codes ".pl 1\n.nf\n.de X\nx\n..\n.it 1 X\na\\c\nb\nc\n")
        ≡ gives (codes "ab\nx\nc\n") (codes "") Done }
    ensures its_environment { formatted
        (codes ".pl 1\n.nf\n.de X\nx\n..\n.it 1 X\n.ev 1\n.nf\na\n.ev\nb\n")
        ≡ gives (codes "a\nb\nx\n") (codes "") Done }
    ensures no_body { formatted (codes ".pl 1\n.nf\n.it 1 X\na\nb\n")
        ≡ gives (codes "a\nb\n") (codes "") Done }
    ensures string_without_a_newline { formatted (codes ".pl 1\n.nf\n.ds X x\n.it 1 X\na\nb\n")
        ≡ gives (codes "a\nx\nb\n") (codes "") Done }
    ensures no_arguments { formatted
        (codes ".pl 1\n.nf\n.de X\nx\\\\$1x\n..\n.de M\n.it 1 X\na\\\\$1\nb\\\\$1\n..\n.M y\n")
        ≡ gives (codes "ay\nxx\nby\n") (codes "") Done }
    ensures itself { formatted_with 65536 1 4096
        (codes ".pl 1\n.nf\n.de X\n.it 1 X\nx\n..\n.it 1 X\na\n")
        ≡ gives (codes "a\nx\n")
        (codes "nroff: line 8: limit depth (1) reached\n") (Limited Depth) }
{}

/// What they give from the middle of a run on, with events to do or put back.
pub fn midway_rows()
    ensures rest_of_two { gives_from (midway LineStart (next_line_springs 88 ∷ [])
        (Text Count ∷ Text WordEnd ∷ Text Break ∷ []) [] (codes "x\n") (codes "b\n"))
        ≡ gives (codes "x\nb\n") (codes "") Done }
    ensures cost_of_two { charge_from (midway LineStart (next_line_springs 88 ∷ [])
        (Text Count ∷ Text WordEnd ∷ Text Break ∷ []) [] (codes "x\n") (codes "b\n")) ≡ 7 }
    ensures word_begun { gives_from (midway behind_a_glyph (Text (Print (Printed 97)) ∷ []) []
        (Text (Gap 1) ∷ []) (codes "") (codes "b\n")) ≡ gives (codes "a b\n") (codes "") Done }
    ensures cost_of_its_end { charge_from (midway behind_a_glyph (Text (Print (Printed 97)) ∷ []) []
        (Text (Gap 1) ∷ []) (codes "") (codes "b\n")) ≡ 3 }
    ensures between_words { gives_from (midway behind_a_glyph
        (Text (Print (Printed 97)) ∷ next_line_springs 88 ∷ [])
        (Text WordEnd ∷ Text Count ∷ Text (Gap 1) ∷ []) [] (codes "x\n") (codes "b\n"))
        ≡ gives (codes "a x b\n") (codes "") Done }
    ensures leading_blank { gives_from (midway (behind_blanks 1) (next_line_springs 88 ∷ [])
        (Text Count ∷ []) [] (codes "x\n") (codes "b\n"))
        ≡ gives (codes "x  b\n") (codes "") Done }
    ensures no_body { gives_from (midway LineStart (next_line_springs 89 ∷ [])
        (Text Count ∷ Text WordEnd ∷ Text Break ∷ []) [] (codes "x\n") (codes "b\n"))
        ≡ gives (codes "b\n") (codes "") Done }
    ensures cost_of_no_body { charge_from (midway LineStart (next_line_springs 89 ∷ [])
        (Text Count ∷ Text WordEnd ∷ Text Break ∷ []) [] (codes "x\n") (codes "b\n")) ≡ 4 }
    ensures control_line { gives_from (midway Dropped (next_line_springs 88 ∷ []) []
        (Text Count ∷ []) (codes "x\n") (codes "b\nc\n"))
        ≡ gives (codes "b c\n") (codes "") Done }
{}
