//! Facts about definitions with escapes in their lines, as contracts of functions that do nothing.

ghost use Rattle.law_escapes.specs.TextsInDefinitions.{DefinitionsEnterTheTextsRead};
ghost use Rattle.law_escapes.specs.TextsInDefinitions.{DefinitionsOfTheSourceEnterTheTextsRead};
ghost use Rattle.law_escapes.specs.TextsInDefinitions.{RestsBehindTwoDotsAreDropped};
ghost use Rattle.law_escapes.specs.TextsInDefinitions.{RestsOfTheSourceBehindTwoDotsAreDropped};

/// The lines that a definition reads enter its name as they are copied, with the text of each
/// escape of a register, a string or an argument in its place, up to the first line that begins
/// with the mark as it is copied so: there the name of the mark is called. Registers are stepped
/// one after another, as the escapes say. So it is of any number of escapes, if no step is out of
/// range or one of the page number, and what stands beside them and the texts themselves are
/// copied: without interpolations and comments, and with no byte that is dropped or a backslash
/// that belongs to what stands behind it; a width stays as it is. Each byte of the lines and of
/// the texts is a step, and costs one, and so is the end of each text, if the limits allow the
/// state before and the state behind, the text beside all that is stored, and the lines and texts
/// beside all that stands ahead.
pub fn definitions_with_texts()
    ensures ahead { DefinitionsEnterTheTextsRead }
    ensures source { DefinitionsOfTheSourceEnterTheTextsRead }
{}

/// Where no mark was named, what stands behind the two dots on their line is dropped, whatever it
/// is, and behind that a line begins.
pub fn rests_behind_two_dots()
    ensures ahead { RestsBehindTwoDotsAreDropped }
    ensures source { RestsOfTheSourceBehindTwoDotsAreDropped }
{}
