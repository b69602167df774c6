//! Facts about what is read in the place of escapes, as contracts of functions that do nothing.

ghost use Rattle.law_reading.specs.CutNames.{CutNamesAreTheirFirstByte};
ghost use Rattle.law_reading.specs.CutNames.{CutNamesOfTheSourceAreTheirFirstByte};
ghost use Rattle.law_reading.specs.CutNames.{NamelessCharactersAreTold};
ghost use Rattle.law_reading.specs.CutNames.{NamelessCharactersOfTheSourceAreTold};
ghost use Rattle.law_reading.specs.CutNames.{NamelessEscapesOfTheSourceReadAsNothing};
ghost use Rattle.law_reading.specs.CutNames.{NamelessEscapesReadAsNothing};
ghost use Rattle.law_reading.specs.InterpolationLaws.{UnreadInputIsTheTape, StepsFollowTheTape};
ghost use Rattle.law_reading.specs.InterpolationLaws.{EscapesReadAsTexts};
ghost use Rattle.law_reading.specs.InterpolationLaws.{EscapesOfTheSourceReadAsTexts};
ghost use Rattle.law_reading.specs.InterpolationLaws.{EscapesOfTextReadAsTexts};
ghost use Rattle.law_reading.specs.InterpolationLaws.{PushedBytesCostAsOthers};
ghost use Rattle.law_reading.specs.InterpolationLaws.{TextsCostTheirBytesAndOne};
ghost use Rattle.run_model.specs.ItemsTaken.{BytesAheadAreTaken, BytesOfTheSourceAreTaken};
ghost use Rattle.law_reading.specs.Quoting.{RequestsGetQuotedArguments};
ghost use Rattle.law_reading.specs.WordArguments.{RequestsGetWords, RequestsGetWordsAtTheLinesEnd};
ghost use Rattle.law_reading.specs.WordArguments.{WordsAtTheLinesEndReadBack, WordsReadBack};
ghost use Rattle.law_reading.specs.WidthLaws.{WidthsReadAsDigits, WidthsOfTheSourceReadAsDigits};
ghost use Rattle.law_reading.specs.WidthLaws.{MeasuredTextsReadAsDigits};
ghost use Rattle.law_reading.specs.WidthLaws.{MeasuredTextsOfTheSourceReadAsDigits};
ghost use Rattle.law_reading.specs.WidthLaws.{WidthsEndWithTheirLine};
ghost use Rattle.law_reading.specs.WidthLaws.{MotionsAreAsLongAsTheirColumns};
ghost use Rattle.law_reading.specs.WidthLaws.{MotionsCountInTheLine, TabsAreAsLongAsTheirColumns};
ghost use Rattle.law_reading.specs.WidthLaws.{TabsCountInTheLine, FieldsBeginInTheLine};
ghost use Rattle.law_reading.specs.WidthLaws.{FieldsBeginWithoutColumns};

/// Where nothing stands ahead of the source and nothing is half read, the unread input is the
/// source's tape: a step does what the front of the tape says.
pub fn unread_input()
    ensures tape { UnreadInputIsTheTape }
    ensures steps { StepsFollowTheTape }
{}

/// A byte in front, ahead of the source or of the source itself, is taken in one step, and does
/// there what it does where it is read.
pub fn bytes_in_front()
    ensures ahead { BytesAheadAreTaken }
    ensures source { BytesOfTheSourceAreTaken }
{}

/// Reading the escape of a register, a string or an argument is reading its text, the end of the
/// text, and what stood behind the escape: so many steps lead there as the escape has bytes, and
/// each byte costs one, if the limits allow the state before and the state behind. A step that the
/// escape makes comes first, and is told where it would be out of range. So it is where the escape
/// is read again, and where it stands in the source. A line that begins with an escape begins with
/// the register's text.
pub fn escapes()
    ensures ahead { EscapesReadAsTexts }
    ensures source { EscapesOfTheSourceReadAsTexts }
    ensures of_text { EscapesOfTextReadAsTexts }
{}

/// Where a newline or the end of all input cuts an escape behind the first of the two bytes of its
/// name, it is read as that byte's: its text is read, and its end, before what cut it.
pub fn cut_names()
    ensures ahead { CutNamesAreTheirFirstByte }
    ensures source { CutNamesOfTheSourceAreTheirFirstByte }
{}

/// Where a newline or the end of all input cuts the escape of a register, a string or an argument
/// before any byte of its name, nothing is read in its place, and nothing is stepped or told. The
/// escape of a character that is cut so on a text line is told as that of an unknown one.
pub fn nameless_escapes()
    ensures ahead { NamelessEscapesReadAsNothing }
    ensures source { NamelessEscapesOfTheSourceReadAsNothing }
    ensures character { NamelessCharactersAreTold }
    ensures character_of_the_source { NamelessCharactersOfTheSourceAreTold }
{}

/// A byte that is read again costs what it would if it stood in the source; the end of its text
/// costs one more.
pub fn costs()
    ensures bytes { PushedBytesCostAsOthers }
    ensures texts { TextsCostTheirBytesAndOne }
{}

/// A request gets the arguments that are written in quotes, those that are kept.
pub fn quoted_arguments()
    ensures { RequestsGetQuotedArguments }
{}

/// Arguments written as words, with blanks between them, are read as they were, and a request gets
/// those of them that are kept. A quote within a word is a byte like others.
pub fn word_arguments()
    ensures read_back { WordsReadBack }
    ensures read_back_at_the_end { WordsAtTheLinesEndReadBack }
    ensures given { RequestsGetWords }
    ensures given_at_the_end { RequestsGetWordsAtTheLinesEnd }
{}

/// Where a text that is measured ends, at its delimiter or with its line, the digits of its width,
/// and an end, are read in its place.
/// A whole escape `\w'text'` with a plain text is read as 24 basic units for each column of the
/// text, in so many steps and at the cost of so many as the escape has bytes.
pub fn widths()
    ensures delimiter { WidthsReadAsDigits }
    ensures delimiter_of_the_source { WidthsOfTheSourceReadAsDigits }
    ensures line { WidthsEndWithTheirLine }
    ensures text { MeasuredTextsReadAsDigits }
    ensures text_of_the_source { MeasuredTextsOfTheSourceReadAsDigits }
{}

/// A motion makes the pending line as much longer as it has columns, and counts so in the limit on
/// a line; so does a tab where no field is open and it opens none: its columns lead to the next tab
/// stop. A tab that opens a field has no columns yet.
pub fn motions()
    ensures length { MotionsAreAsLongAsTheirColumns }
    ensures limit { MotionsCountInTheLine }
    ensures length_of_a_tab { TabsAreAsLongAsTheirColumns }
    ensures limit_of_a_tab { TabsCountInTheLine }
    ensures length_of_an_opening_tab { FieldsBeginWithoutColumns }
    ensures limit_of_an_opening_tab { FieldsBeginInTheLine }
{}
