//! Facts about lines that set strings with escapes in their texts, as contracts of functions that
//! do nothing.

ghost use Rattle.law_escapes.specs.TextsInStrings.{StringsAreTheTextsRead};
ghost use Rattle.law_escapes.specs.TextsInStrings.{StringsOfTheSourceAreTheTextsRead};

/// The string that a line sets, or puts behind another one, is the rest of the line as it is
/// copied, with the text of each escape of a register, a string or an argument in its place,
/// without the blanks in front of it and one quote there; registers are stepped one after another,
/// as the escapes say. So it is of any number of escapes, if no step is out of range or one of the
/// page number, and where what is read behind the blanks begins with neither a blank nor a quote,
/// unless a quote is written there. Each byte of the line and of the texts is a step, and costs
/// one, and so is the end of each text.
pub fn strings_with_texts()
    ensures ahead { StringsAreTheTextsRead }
    ensures source { StringsOfTheSourceAreTheTextsRead }
{}
