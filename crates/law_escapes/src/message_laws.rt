//! Facts about lines that tell a message with escapes in it, as contracts of functions that do
//! nothing.

ghost use Rattle.law_escapes.specs.MessageLines.{MessagesTellWhatIsRead};
ghost use Rattle.law_escapes.specs.TextsInMessages.{MessagesOfTheSourceTellTheTextsRead};
ghost use Rattle.law_escapes.specs.TextsInMessages.{MessagesTellTheTextsRead};
ghost use Rattle.law_escapes.specs.TextsInMessages.{RunsEndWithTheTextsOfTheSource};
ghost use Rattle.law_escapes.specs.TextsInMessages.{RunsEndWithTheTextsRead};

/// A message with the escape of a register, a string or an argument in it tells the text that is
/// read in the escape's place, at the cost of that text and its end.
pub fn interpolated_messages()
    ensures { MessagesTellWhatIsRead }
{}

/// A message tells what is read, as it is copied and without the blanks in front, where the escape
/// of a register, a string or an argument is read as its text, and registers are stepped as the
/// escapes say. So it is of any number of them, if no step is out of range or one of the page
/// number, and what stands beside them and the texts themselves are copied, as in a definition; at
/// the same cost as in a line that calls a body, and telling is a step of its own.
pub fn messages_with_texts()
    ensures ahead { MessagesTellTheTextsRead }
    ensures source { MessagesOfTheSourceTellTheTextsRead }
{}

/// A message that ends the run ends it with what is read so, told last, at the same cost: nothing
/// else happens, and what stood behind the line is left.
pub fn last_messages()
    ensures ahead { RunsEndWithTheTextsRead }
    ensures source { RunsEndWithTheTextsOfTheSource }
{}
