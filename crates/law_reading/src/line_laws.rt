//! Facts about the lines that an environment finishes: sentences, centring, an indent for one line,
//! and spacing, as contracts of functions that do nothing.

ghost use Rattle.law_reading.specs.LineLaws.{CentredLinesStandInTheMiddle, LinesAreSpaced};
ghost use Rattle.law_reading.specs.LineLaws.{ClosersApartEndNoSentence};
ghost use Rattle.law_reading.specs.LineLaws.{NoOtherGlyphEndsASentence, SpacingsAreInForce};
ghost use Rattle.law_reading.specs.LineLaws.{OtherLinesHaveTheIndentInForce, SoManyLinesAreCentred};
ghost use Rattle.law_reading.specs.LineLaws.{SentencesAreTwoBlanksApart, SentencesEndAtTheirMarks};
ghost use Rattle.law_reading.specs.LineLaws.{TemporaryIndentsAreForOneLine};

/// The first word of a line of the input has two blanks in front where a sentence ended with the
/// line before it, and else one. A sentence ends behind a full stop, a question mark or an
/// exclamation mark, and closing quotes and brackets behind it in its word, and nowhere else.
pub fn sentences()
    ensures gap { SentencesAreTwoBlanksApart }
    ensures marks { SentencesEndAtTheirMarks }
    ensures apart { ClosersApartEndNoSentence }
    ensures others { NoOtherGlyphEndsASentence }
{}

/// A text line that is centred is a line by itself, with half of the columns that it leaves free in
/// front. As many text lines are centred as `.ce` says, and nothing else in force changes behind
/// them.
pub fn centred_lines()
    ensures middle { CentredLinesStandInTheMiddle }
    ensures count { SoManyLinesAreCentred }
{}

/// The indent of `.ti` is that of the line that the next word begins, and of no other: behind it a
/// line has the indent in force.
pub fn temporary_indents()
    ensures one_line { TemporaryIndentsAreForOneLine }
    ensures others { OtherLinesHaveTheIndentInForce }
{}

/// Behind each line stands a blank line fewer than `.ls` said last.
pub fn spacing()
    ensures lines { LinesAreSpaced }
    ensures in_force { SpacingsAreInForce }
{}
