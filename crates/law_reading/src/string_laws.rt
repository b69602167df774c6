//! Facts about the lines that set strings, as contracts of functions that do nothing.

ghost use Rattle.law_reading.specs.StringLaws.{StringsAreTheRestsOfTheirLines};
ghost use Rattle.law_reading.specs.StringLaws.{StringsOfTheSourceAreTheRestsOfTheirLines};

/// The string that a line sets is the rest of the line as it is copied, without the blanks in front
/// of it and one quote there; or that is put behind the string. So it is of texts without
/// interpolations and comments, of which no byte is dropped, and whose newline belongs to no
/// backslash. So many steps lead there as the line has bytes, and each costs one, if the limits
/// allow the state before and the state behind, the text beside all that is stored, and the name's
/// bytes while it is read.
pub fn strings()
    ensures ahead { StringsAreTheRestsOfTheirLines }
    ensures source { StringsOfTheSourceAreTheRestsOfTheirLines }
{}
