//! The arguments of a control line, held while they are read.

ghost use Rattle.std.specs.Prelude.{◌≡◌, ℕ, ◌+◌, ◌<◌, ◌≤◌, ◌∷◌, ◌++◌, length, reverse, slice_get};
ghost use Rattle.std.specs.Prelude.{IfOk, ◌==◌, false, true};
ghost use Rattle.std.specs.Option.{option_copied};
ghost use Rattle.input_model.specs.Arguments.{AreFewer, Arguments, no_arguments, with_unit};
ghost use Rattle.input_model.specs.Arguments.{is_behind_quote, with_argument_byte, with_kept};
ghost use Rattle.input_model.specs.Arguments.{with_plain, with_byte, with_whole, settled};
ghost use Rattle.input_model.specs.Arguments.{finished, held, is_held, kept, in_argument};
ghost use Rattle.input_model.specs.Arguments.{total_length};
ghost use Rattle.roff_num.specs.Lists.{last_end};
ghost use Rattle.input_arguments.specs.ArgumentTexts.Ends.{is_kept};
ghost use Rattle.roff_num.specs.Lists.{EndInOrder};
ghost use Rattle.input_arguments.specs.ArgumentTexts.Ends.{EndInOrder-prop};
ghost use Rattle.roff_num.specs.Lists.{parts_ending};

use input_escapes::CopyUnit;
use input_model::Place;
use input_source::is_argument_byte;
use std::alloc::{AllocError, Global};
use std::marker::Model;

/// How many arguments are kept though they may have no byte.
const KEPT_BY_PLACE: usize = 32;

/// The arguments of a control line as far as it is read, one after another in one block.
///
/// All its memory is reserved as it is made. An argument without a byte is kept only among the
/// first 32 of its line, as a line may have more of them than any memory.
#[derive(Drop)]
pub struct ArgumentTexts {
    bytes: Vec<u8>,
    /// Where each argument that is whole ends. The one being read lies behind the last of them.
    ends: Vec<u32>,
    place: Place,
    room: u32,
}

/// The arguments of a control line, in order.
#[derive(Clone, Copy)]
pub struct ArgumentList<'a> {
    bytes: &'a [u8],
    ends: &'a [u32],
    ghost within: { EndInOrder (length bytes.now) 0 ends.now } by { EndInOrder-prop _ _ _ },
}

impl Model for ArgumentTexts {
    ghost use Rattle.input_arguments.specs.ArgumentTexts.Kept.{KeptArguments, kept_by, IsSound};

    ghost Value = { KeptArguments };

    ghost view = { kept_by };

    ghost invariant = { IsSound };
}

impl ArgumentTexts {
    ghost use Rattle.input_arguments.specs.ArgumentTexts.Kept.{KeptArguments, keeping, Keeps};
    ghost use Rattle.input_arguments.specs.ArgumentTexts.Kept.{StopsAt, HoldsFront};
    ghost use Rattle.input_arguments.specs.ArgumentList.{listed};

    /// No argument, with room for so many bytes.
    pub fn new(alloc: Global, room: u32) -> Result<Self, AllocError>
        ensures value { IfOk result (λ t. t ≡ record { arguments = no_arguments; room = room }) }
        ensures keeps { IfOk result (λ t. Keeps no_arguments t) }
    {
        Ok(ArgumentTexts {
            bytes: Vec::with_capacity(alloc, room as usize)?,
            ends: Vec::with_capacity(alloc, room as usize + KEPT_BY_PLACE)?,
            place: Place::Between,
            room,
        })
    }

    /// Drops all arguments.
    pub fn clear(&mut self)
        ensures value { self.new ≡ record self.old { arguments = no_arguments } }
        ensures keeps { Keeps no_arguments self.new }
    {
        self.bytes.clear();
        self.ends.clear();
        self.place = Place::Between;
    }

    /// How many bytes are held.
    pub fn held(&self) -> usize
        ensures value { result ≡ held self.now.arguments }
        ensures keeps { (a : Arguments) → Keeps a self.now → result ≡ held a }
    {
        self.bytes.len()
    }

    /// How many bytes more would be held behind a unit.
    pub fn bytes_more(&self, unit: CopyUnit) -> usize
        ensures value { held (with_unit self.now.arguments unit)
            ≡ held self.now.arguments + result }
        ensures keeps { (a : Arguments) → Keeps a self.now
            → held (with_unit a unit) ≡ held a + result }
    {
        match unit {
            CopyUnit::Byte(byte) if is_in_argument(self.place, byte) => 1,
            CopyUnit::Byte(_) => 0,
            CopyUnit::Kept(_) => 2,
        }
    }

    /// One unit more of the line.
    pub fn take(&mut self, unit: CopyUnit)
        requires { held (with_unit self.old.arguments unit) ≤ self.old.room }
        ensures value { self.new ≡ keeping self.old (with_unit self.old.arguments unit) }
        ensures keeps { (a : Arguments) → Keeps a self.old → Keeps (with_unit a unit) self.new }
    {
        match unit {
            CopyUnit::Byte(byte) => self.take_byte(byte),
            CopyUnit::Kept(byte) => self.take_kept(byte),
        }
    }

    /// Takes bytes of the line one after another, up to the first that isn't held as it is read,
    /// and where there is a bound as long as fewer arguments than that are whole. Returns how many.
    #[inline(always)]
    pub fn take_front(&mut self, bytes: &[u8], most: Option<usize>) -> usize
        requires { held self.old.arguments + length bytes.now ≤ self.old.room }
        ensures takes { HoldsFront most bytes.now result self.old self.new }
        ensures stops { StopsAt most bytes.now result self.new.arguments }
    {
        let mut count = 0;
        while count < bytes.len() {
            let byte = bytes[count];
            if !is_argument_byte(byte) {
                return count;
            }
            if !self.are_fewer(most) {
                return count;
            }
            self.take_byte(byte);
            count += 1;
        }
        count
    }

    /// Whether fewer than so many arguments are whole, where there is a bound.
    #[inline(always)]
    fn are_fewer(&self, most: Option<usize>) -> bool
        ensures fewer { result ≡ true → AreFewer most self.now.arguments }
        ensures as_many { result ≡ false → AreFewer most self.now.arguments → ⊥ }
    {
        match most {
            None => true,
            Some(most) => self.list().len() < most,
        }
    }

    /// One unit more of a text in which nothing separates or quotes.
    pub fn take_plain(&mut self, unit: CopyUnit)
        requires { held (with_plain self.old.arguments unit) ≤ self.old.room }
        ensures { self.new
            ≡ record self.old { arguments = with_plain self.old.arguments unit } }
    {
        match unit {
            CopyUnit::Byte(byte) => self.push(byte, Place::InPlain),
            CopyUnit::Kept(byte) => {
                self.push(b'\\', Place::InPlain);
                self.push(byte, Place::InPlain);
            }
        }
    }

    /// Whether the quote that was read last closes its argument unless another one follows.
    #[inline(always)]
    pub fn is_behind_quote(&self) -> bool
        ensures { result ≡ is_behind_quote self.now.arguments.place }
    {
        matches!(self.place, Place::BehindQuote)
    }

    /// What follows is no quote: an argument within quotes whose last quote was read is whole.
    pub fn settle(&mut self)
        ensures value { self.new ≡ keeping self.old (settled self.old.arguments) }
        ensures keeps { (a : Arguments) → Keeps a self.old → Keeps (settled a) self.new }
    {
        if let Place::BehindQuote = self.place {
            self.end_argument();
        }
    }

    /// The line has ended: the argument being read is whole.
    pub fn finish(&mut self)
        ensures value { self.new ≡ keeping self.old (finished self.old.arguments) }
        ensures keeps { (a : Arguments) → Keeps a self.old → Keeps (finished a) self.new }
    {
        match self.place {
            Place::Between => {}
            _ => self.end_argument(),
        }
    }

    /// The arguments that are whole.
    pub fn list(&self) -> ArgumentList<'_>
        ensures value { listed result ≡ reverse self.now.arguments.whole }
        ensures keeps { (a : Arguments) → Keeps a self.now
            → listed result ≡ kept (reverse a.whole) }
        ensures few { length (listed result) ≤ total_length (listed result) + 32 }
    {
        ArgumentList {
            bytes: self.bytes.as_slice(),
            ends: self.ends.as_slice(),
        }
    }

    /// The argument that is being read, as far as it is.
    pub fn begun(&self) -> &[u8]
        ensures { result.now ≡ reverse self.now.arguments.begun }
    {
        let start = last_end(self.ends.as_slice()) as usize;
        self.bytes.as_slice().split_at(start).1
    }

    /// One byte more of the line.
    #[inline(always)]
    fn take_byte(&mut self, byte: u8)
        requires { held (with_argument_byte self.old.arguments byte) ≤ self.old.room }
        ensures { self.new ≡ keeping self.old (with_argument_byte self.old.arguments byte) }
    {
        match (self.place, byte) {
            (Place::Between, b' ') => {}
            (Place::InPlain | Place::BehindQuote, b' ') => self.end_argument(),
            (Place::Between, b'"') => self.place = Place::InQuotes,
            (Place::InQuotes, b'"') => self.place = Place::BehindQuote,
            (Place::InQuotes, _) | (Place::BehindQuote, b'"') => self.push(byte, Place::InQuotes),
            (Place::Between | Place::InPlain, _) => self.push(byte, Place::InPlain),
            (Place::BehindQuote, _) => {
                self.end_argument();
                self.push(byte, Place::InPlain);
            }
        }
    }

    /// An escape that is kept.
    fn take_kept(&mut self, byte: u8)
        requires { held (with_kept self.old.arguments byte) ≤ self.old.room }
        ensures { self.new ≡ keeping self.old (with_kept self.old.arguments byte) }
    {
        self.settle();
        let place = in_argument(self.place);
        self.push(b'\\', place);
        self.push(byte, place);
    }

    /// One byte more of the argument being read.
    fn push(&mut self, byte: u8, place: Place)
        requires { held self.old.arguments < self.old.room }
        ensures { self.new
            ≡ record self.old { arguments = with_byte self.old.arguments place byte } }
    {
        self.bytes.push(byte).unwrap();
        self.place = place;
    }

    /// The argument being read is whole.
    fn end_argument(&mut self)
        ensures { self.new ≡ keeping self.old (with_whole self.old.arguments) }
    {
        let end = self.bytes.len() as u32;
        if is_kept(self.ends.as_slice(), end) {
            self.ends.push(end).unwrap();
        }
        self.place = Place::Between;
    }
}

impl<'a> ArgumentList<'a> {
    ghost use Rattle.input_arguments.specs.ArgumentList.{listed};

    /// The arguments that lie one behind another in a block of bytes, each of which ends there.
    pub fn new(bytes: &'a [u8], ends: &'a [u32]) -> Self
        requires { EndInOrder (length bytes.now) 0 ends.now }
        ensures { listed result ≡ parts_ending bytes.now 0 ends.now }
    {
        ArgumentList { bytes, ends }
    }

    /// The bytes of all of them, one after another.
    pub(crate) fn block(&self) -> &'a [u8]
        ensures texts { parts_ending result.now 0 self.now.ends.now ≡ listed self.now }
        ensures within { EndInOrder (length result.now) 0 self.now.ends.now }
        ensures len { length result.now ≡ total_length (listed self.now) }
    {
        &self.bytes[..last_end(self.ends) as usize]
    }

    /// Where each of them ends there.
    pub(crate) fn ends(&self) -> &'a [u32]
        ensures { result.now ≡ self.now.ends.now }
    {
        self.ends
    }

    /// How many there are.
    pub fn len(&self) -> usize
        ensures { result ≡ length (listed self.now) }
    {
        self.ends.len()
    }

    /// Whether there is none.
    pub fn is_empty(&self) -> bool
        ensures { result ≡ (length (listed self.now) == 0) }
    {
        self.ends.is_empty()
    }

    /// The argument at an index, from 0 on.
    pub fn get(&self, index: usize) -> Option<&'a [u8]>
        ensures { option_copied result ≡ slice_get (listed self.now) index }
    {
        match self.ends.get(index) {
            Some(end) => {
                let start = last_end(&self.ends[..index]) as usize;
                Some(&self.bytes[start..*end as usize])
            }
            None => None,
        }
    }
}

/// How many bytes a unit has.
pub fn bytes_of(unit: CopyUnit) -> usize
    ensures { (a : Arguments) → held (with_plain a unit) ≡ held a + result }
{
    match unit {
        CopyUnit::Byte(_) => 1,
        CopyUnit::Kept(_) => 2,
    }
}

/// Whether an argument is kept that lies behind others, by where they end, and ends there itself.
fn is_kept(ends: &[u32], end: u32) -> bool
    ensures { result ≡ is_kept ends.now end }
{
    ends.len() < KEPT_BY_PLACE || last_end(ends) < end
}

/// Where the last text ends.
fn last_end(ends: &[u32]) -> u32
    ensures { result ≡ last_end 0 ends.now }
{
    match ends.last() {
        Some(end) => *end,
        None => 0,
    }
}

/// Whether a byte of the line is one of an argument, by where the reading stands; else it separates
/// arguments, or quotes.
fn is_in_argument(place: Place, byte: u8) -> bool
    ensures { result ≡ is_held place byte }
{
    match place {
        Place::Between => byte != b' ' && byte != b'"',
        Place::InQuotes => byte != b'"',
        Place::InPlain | Place::BehindQuote => byte != b' ',
    }
}

/// Where the reading stands once a byte has begun an argument, if none was begun.
fn in_argument(place: Place) -> Place
    ensures { result ≡ in_argument place }
{
    match place {
        Place::Between => Place::InPlain,
        place => place,
    }
}
