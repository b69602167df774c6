//! Facts about lines that call a body with escapes among their arguments, as contracts of functions
//! that do nothing.

ghost use Rattle.law_escapes.specs.TextsInCalls.{BodiesGetTheTextsRead};
ghost use Rattle.law_escapes.specs.TextsInCalls.{BodiesOfTheSourceGetTheTextsRead};
ghost use Rattle.law_escapes.specs.TextsInCalls.{LinesAreReadAsRewritten};

/// A body that a line calls gets the first nine of the arguments that the line is read as, where
/// the escape of a register, a string or an argument is read as its text, that of a measured text
/// as its width, and any other escape as what copy mode makes of it: blanks of a text separate, and
/// quotes quote, and an escape that stays is two bytes of an argument. A register that an escape
/// steps is stepped before it is read, once for each escape, in their order. So it is of any number
/// of escapes, if there are no other interpolations and no comments in the line and the texts, no
/// byte of them is dropped, measured texts have no escapes, and no step is out of range or one of
/// the page number. Each byte of the line and of the texts is a step, and costs one, and so is the
/// end of each text, if the limits allow the state before and the state behind, and the line and
/// its texts beside all that stands ahead.
pub fn called_with_texts()
    ensures ahead { BodiesGetTheTextsRead }
    ensures source { BodiesOfTheSourceGetTheTextsRead }
{}

/// A line with escapes is read as the one that has the texts in the places of the escapes, where no
/// escape stands behind the quote that closes an argument: there a quote that the text begins with
/// opens another argument, and isn't the second one of two.
pub fn rewritten_lines()
    ensures { LinesAreReadAsRewritten }
{}
