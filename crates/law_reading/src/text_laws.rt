//! Facts about text lines, as contracts of functions that do nothing.

ghost use Rattle.law_reading.specs.TextLaws.{BlankLinesOfTheSourceSpace, BlankLinesSpace};
ghost use Rattle.law_reading.specs.TextLaws.{EventsAreQuietOnThePage};
ghost use Rattle.law_reading.specs.TextLaws.{EventsThatPutNothingAreQuiet};
ghost use Rattle.law_reading.specs.TextLaws.{TextLinesOfTheSourceTellTheirWords};
ghost use Rattle.law_reading.specs.TextLaws.{TextLinesTellTheirWords};

/// A line of glyphs and blanks tells its words and gaps, in order, and its end; blanks in front of
/// it break, and are one glyph that can't be padded. Each byte costs one, and a step is taken for
/// each byte and for each event, if no limit refuses one of these. So it is of glyphs that stand
/// for themselves, where no interrupted line goes on, no macro springs, and the lines that are
/// finished go on the page.
pub fn text_lines()
    ensures ahead { TextLinesTellTheirWords }
    ensures source { TextLinesOfTheSourceTellTheirWords }
{}

/// A line of blanks alone, or of nothing, breaks and is a blank line of the page.
pub fn blank_lines()
    ensures ahead { BlankLinesSpace }
    ensures source { BlankLinesOfTheSourceSpace }
{}

/// Which events are quiet, as the laws of text lines and of titles ask of theirs. With no diversion
/// open it is each that no limit refuses, with which the last page doesn't end, and that springs no
/// macro; in a diversion it is such a one that finishes no line and puts nothing.
pub fn quiet_events()
    ensures on_the_page { EventsAreQuietOnThePage }
    ensures put_nothing { EventsThatPutNothingAreQuiet }
{}
