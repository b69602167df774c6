//! Facts about control lines that call a body, and about those whose names stand for nothing, as
//! contracts of functions that do nothing.

ghost use Rattle.law_reading.specs.CallLaws.{BodiesAreCalled, BodiesAreCalledFromTheSource};
ghost use Rattle.law_reading.specs.CallLaws.{UnknownNamesDoNothing};
ghost use Rattle.law_reading.specs.CallLaws.{UnknownNamesOfTheSourceDoNothing};
ghost use Rattle.law_reading.specs.MixedArguments.{BodiesGetMixedArguments, MixedArgumentsReadBack};
ghost use Rattle.law_reading.specs.MixedArguments.{BodiesOfTheSourceGetMixedArguments};
ghost use Rattle.law_reading.specs.WordCalls.{BodiesGetTheArgumentsRead};
ghost use Rattle.law_reading.specs.WordCalls.{BodiesOfTheSourceGetTheArgumentsRead};
ghost use Rattle.law_reading.specs.WordCalls.{BodiesGetWords, BodiesOfTheSourceGetWords};

/// A line that calls a body, with arguments in quotes, leads to where the body stands in front of
/// what stood behind the line, and behind it its end: so many steps lead there as the line has
/// bytes, and each costs one, if the limits allow the state before and the state behind. The first
/// nine arguments are in force then, and a line begins. No byte of an argument is a backslash or a
/// newline, or is dropped as it is taken. So it is where the line is read again, and where it
/// stands in the source.
pub fn called_bodies()
    ensures ahead { BodiesAreCalled }
    ensures source { BodiesAreCalledFromTheSource }
{}

/// A line whose name stands for nothing does nothing but cost its bytes.
pub fn unknown_names()
    ensures ahead { UnknownNamesDoNothing }
    ensures source { UnknownNamesOfTheSourceDoNothing }
{}

/// A body that a line calls gets the first nine of the arguments that the bytes behind the name are
/// read as, in quotes or without, where each byte stands for itself.
pub fn read_arguments()
    ensures ahead { BodiesGetTheArgumentsRead }
    ensures source { BodiesOfTheSourceGetTheArgumentsRead }
{}

/// Words with blanks between them are its arguments; a quote within a word is a byte like others.
pub fn called_with_words()
    ensures ahead { BodiesGetWords }
    ensures source { BodiesOfTheSourceGetWords }
{}

/// Words and arguments in quotes, with blanks between them, are its arguments in any order: in
/// quotes a blank is a byte like others, and a quote is written twice.
pub fn mixed_arguments()
    ensures read_back { MixedArgumentsReadBack }
    ensures ahead { BodiesGetMixedArguments }
    ensures source { BodiesOfTheSourceGetMixedArguments }
{}
