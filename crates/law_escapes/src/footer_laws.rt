//! Facts about the words of a text line that a macro interrupts, and of that macro's text, as
//! contracts of functions that do nothing.

ghost use Rattle.std.specs.Prelude.{◌≡◌, [], ◌++◌, codes};
ghost use Rattle.law_runs.specs.Rows.{formatted, gives};
ghost use Rattle.law_escapes.specs.MacroEnds.{MacrosAreReadToTheirEnd, MacrosBeginALine};
ghost use Rattle.law_escapes.specs.WordEnds.{TextLinesEndWordsSo, WordEndsPutBackAGap};
ghost use Rattle.law_escapes.specs.WordEnds.{WordEndsStayFollowed};
ghost use Rattle.law_escapes.specs.WordsApart.{EndsLeaveNoWordOpen, FieldsLeaveAWordOpen};
ghost use Rattle.law_escapes.specs.WordsApart.{FootersBeginWords, FootersBehindTabs};
ghost use Rattle.law_escapes.specs.WordsApart.{LineEndsLeaveNoWordOpen};
ghost use Rattle.law_escapes.specs.WordsApart.{LinesGoOnWithAnotherWord};
ghost use Rattle.law_escapes.specs.WordsApart.{LinesAreOfEndedWords, OnlyGlyphsOpenWords};
ghost use Rattle.law_escapes.specs.WordsApart.{OpenWordsGoOn};
ghost use Rattle.law_escapes.specs.WordsApart.{WordsBeginWhereNoneIsOpen, WordsStandApart};
ghost use Rattle.run_model.specs.declared.status.Status.TheVariants.{Done};

/// A footer's text and the text around it don't share a word.
///
/// The text of a macro that springs as a line is finished, at a trap of the page, stands in words
/// of its own: the word in front has ended, and no glyph of one is in the other. Where the macro
/// springs between two words of a text line, that line goes on with another word, whatever the
/// macro is: also where its text leaves a word open, by `\c` or by a backslash at its last line's
/// end, as the gap, the line's end or the break that was put back ends that word first. Behind each
/// word's end a text line tells one of these, and so one is left to do where that end is performed.
///
/// A tab that ends a field behind a gap finishes a line too, and begins a word: the macro's text
/// goes on with that word, and shares none with the word in front of the gap. Where the macro
/// leaves a field open, a gap that was put back stands in that field.
pub fn footers()
    ensures front { FootersBeginWords }
    ensures tabs { FootersBehindTabs }
    ensures behind { LinesGoOnWithAnotherWord }
    ensures ends { TextLinesEndWordsSo }
    ensures stay { WordEndsStayFollowed }
    ensures put_back { WordEndsPutBackAGap }
{}

/// Where no word is open in an environment, all that is told there later stands in words of its
/// own. Behind the end of a word or of a line, and behind a break, none is open until a glyph is
/// told: so it is behind a macro whose last line is whole. In a field a word is open, which no
/// word's end ends; the field's end leaves it so. In front of each word stands a blank at
/// least. Where a word is open, a glyph is one of that word: so it is where a macro that leaves one
/// open sprang at a line's end, and the next line begins behind it. The words that lines are made
/// of, those since the last break, are the newest of all that have ended.
pub fn words()
    ensures begun { WordsBeginWhereNoneIsOpen }
    ensures ended { EndsLeaveNoWordOpen }
    ensures line_ended { LineEndsLeaveNoWordOpen }
    ensures field_ended { FieldsLeaveAWordOpen }
    ensures only_glyphs { OnlyGlyphsOpenWords }
    ensures apart { WordsStandApart }
    ensures left_open { OpenWordsGoOn }
    ensures of_lines { LinesAreOfEndedWords }
{}

/// A macro that sprang begins a line of its own. Whatever its lines are, and whatever springs
/// within them, all that they put in front is read before what it interrupted, and behind its end
/// that is read as it was, if no control line is half read there.
pub fn macro_ends()
    ensures begins { MacrosBeginALine }
    ensures ends { MacrosAreReadToTheirEnd }
{}

/// What the definitions give on worked rows of footers: some leave a word open.
#[tactic(auto, unfolding(roff_num::proofs::OnLiterals::numbers_on_literals))]
pub fn footer_rows()
    ensures between_words { formatted
        (codes ".pl 3\n.ll 9n\n.na\n.de F\nfoot\n..\n.wh 1v F\na bb ccc ddd e\n")
        ≡ gives (codes "a bb ccc\nddd foot\ne\n") [] Done }
    ensures interrupted_there { formatted
        (codes ".pl 3\n.ll 9n\n.na\n.de F\nfoot\\\\c\n..\n.wh 1v F\na bb ccc ddd e\n")
        ≡ gives (codes "a bb ccc\nddd foot\ne\n") [] Done }
    ensures joined_there { formatted
        (codes ".pl 3\n.ll 9n\n.na\n.de F\nfoot\\\\\n..\n.wh 1v F\na bb ccc ddd e\n")
        ≡ gives (codes "a bb ccc\nddd foot\ne\n") [] Done }
    ensures in_front_of_a_line_end { formatted
        (codes ".pl 3\n.ll 9n\n.na\n.de F\nfoot\\\\c\n..\n.wh 1v F\na bb ccc ddd\ne\n")
        ≡ gives (codes "a bb ccc\nddd foot\ne\n") [] Done }
    ensures in_front_of_a_break { formatted (codes ".pl 4\n.ll 9n\n.na\n.de F\nfoot\\\\c\n"
        ++ codes "..\n.wh 1v F\na bb ccc ddd\\c\n.br\ne\n")
        ≡ gives (codes "a bb ccc\nddd foot\ne\n\n") [] Done }
    ensures at_a_line_end { formatted
        (codes ".pl 3\n.nf\n.de F\nfoot\n..\n.wh 1v F\na\nb\n")
        ≡ gives (codes "a\nfoot\nb\n") [] Done }
    ensures interrupted_at_a_line_end { formatted
        (codes ".pl 3\n.nf\n.de F\nfoot\\\\c\n..\n.wh 1v F\na\nb\n")
        ≡ gives (codes "a\nfootb\n\n") [] Done }
    ensures joined_at_a_line_end { formatted
        (codes ".pl 3\n.nf\n.de F\nfoot\\\\\n..\n.wh 1v F\na\nb\n")
        ≡ gives (codes "a\nfootb\n\n") [] Done }
    ensures at_the_end_of_a_centred_line { formatted
        (codes ".pl 5\n.ll 9n\n.de T\nfoot\n.br\n..\n.wh 1v T\n.ce\na\nb\nc\nd\n")
        ≡ gives (codes "    a\nfoot\nb c d\n\n\n") [] Done }
    ensures that_centres { formatted
        (codes ".pl 5\n.ll 9n\n.de T\n.ce\n..\n.wh 1v T\n.nf\na\nb\nc\n")
        ≡ gives (codes "a\n    b\nc\n\n\n") [] Done }
    ensures interrupted_in_front_of_a_blank_line { formatted
        (codes ".pl 4\n.ll 4n\n.de T\nt\\c\n..\n.wh 1v T\ncc dd\n\ne\n")
        ≡ gives (codes "cc\ndd t\ne\n\n") [] Done }
    ensures interrupted_in_front_of_blanks { formatted
        (codes ".pl 6\n.ll 4n\n.de T\nt\\c\n..\n.wh 1v T\ncc dd\n e\n")
        ≡ gives (codes "cc\ndd t\ne\n\n\n\n") [] Done }
    ensures interrupted_in_front_of_a_glyph { formatted
        (codes ".pl 4\n.ll 9n\n.de H\nh\\c\n..\n.wh 0 H\na\n\nb\n")
        ≡ gives (codes "ha\n\nb\n\n") [] Done }
    ensures interrupted_and_left { formatted
        (codes ".pl 2\n'nf\n.de H\nh\\c\n.ex\n..\n.wh 0 H\nabc\n")
        ≡ gives (codes "h\n\n") [] Done }
    ensures in_an_interrupted_word { formatted
        (codes ".pl 3\n.nf\n.de F\nfoot\n..\n.wh 1v F\nab\\c\n'sp\ncd\n")
        ≡ gives (codes "\nabfoot\ncd\n") [] Done }
    ensures in_another_environment { formatted (codes ".pl 3\n.ll 9n\n.na\n.de F\n.ev 1\n"
        ++ codes "foot\\\\c\n.ev\n..\n.wh 1v F\na bb ccc ddd e\n.ev 1\nx\n.br\n.ev\n")
        ≡ gives (codes "a bb ccc\nfootx\nddd e\n") [] Done }
    ensures at_the_first_page { formatted
        (codes ".pl 2\n.de H\nhead\n..\n.wh 0 H\nabc\n")
        ≡ gives (codes "head abc\n\n") [] Done }
    ensures interrupted_at_the_first_page { formatted
        (codes ".pl 2\n.de H\nhead\\\\c\n..\n.wh 0 H\nabc\n")
        ≡ gives (codes "headabc\n\n") [] Done }
    ensures interrupted_at_an_input_trap { formatted
        (codes ".pl 1\n.nf\n.de X\nx\\\\c\n..\n.it 1 X\na\nb\nc\n")
        ≡ gives (codes "a\nxb\nc\n") [] Done }
{}
