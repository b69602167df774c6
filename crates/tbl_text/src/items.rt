//! A text of a table as a list of items: blanks, glyphs and what prints nothing, as the formatter
//! reads them.
//!
//! No call here or in what stands on it takes memory: what is half read of an escape stands in an
//! [`OpenEscapes`] that is lent, of any room, as no text of an escape is held. It is the
//! formatter's own, so escapes within escapes are read as deep as there, and beyond that as there.

ghost use Rattle.std.specs.Prelude.{◌≡◌, ◌+◌, ◌<◌, ◌≤◌, ◌^◌, ◌∷◌, [], false, drop, fold, length};
ghost use Rattle.std.specs.Prelude.{slice_index, take, Some};
ghost use Rattle.input_source.specs.Bytes.{backslash};
ghost use Rattle.input_escapes.specs.Nesting.{is_nothing};
ghost use Rattle.tbl_text.specs.Items.{all_ended, begun, byte_what, character_what, columns};
ghost use Rattle.tbl_text.specs.Items.{found_what, is_ended, is_glyph, items, met, name_what, note};
ghost use Rattle.tbl_text.specs.Items.{printed, reading};

use input_escapes::{
    Escape, Found, NameUse, OpenEscapes, Surroundings, TextUse, character, escape_of,
};
use input_source::{is_dropped, is_silent};
use roff_num::{Name, width_of_byte};

/// What an item of a text is.
#[derive(Clone, Copy)]
pub enum What {
    /// A blank between words: one column.
    Blank,
    /// A glyph that prints this byte: as wide as the byte.
    Byte(u8),
    /// A glyph of so many columns that doesn't print one byte alone: an unpaddable blank, or a
    /// character of several bytes.
    Glyph(u32),
    /// `\&`: a glyph without width.
    Ampersand,
    /// A glyph without width that isn't measured, and is told by this byte: the one behind its
    /// backslash, and `t` for a tab.
    NotMeasured(u8),
    /// Something that prints nothing.
    Nothing,
    /// A control byte that is dropped as it is taken.
    Dropped,
}

impl What {
    /// Its width, in columns.
    #[inline(always)]
    pub fn columns(self) -> usize
        ensures { result ≡ columns self }
    {
        match self {
            What::Blank => 1,
            What::Byte(byte) => width_of_byte(byte) as usize,
            What::Glyph(columns) => columns as usize,
            What::Ampersand | What::Nothing | What::Dropped => 0,
            What::NotMeasured(_) => 0,
        }
    }

    /// Whether it is a glyph, with width or without.
    #[inline(always)]
    pub fn is_glyph(self) -> bool
        ensures { result ≡ is_glyph self }
    {
        match self {
            What::Blank | What::Nothing | What::Dropped => false,
            _ => true,
        }
    }

    /// The byte that it prints, if it is a glyph of one byte.
    #[inline(always)]
    pub fn printed(self) -> Option<u8>
        ensures { result ≡ printed self }
    {
        match self {
            What::Byte(byte) => Some(byte),
            _ => None,
        }
    }

    /// The byte by which it is told that it isn't measured.
    #[inline(always)]
    pub fn note(self) -> Option<u8>
        ensures { result ≡ note self }
    {
        match self {
            What::NotMeasured(byte) => Some(byte),
            _ => None,
        }
    }
}

/// An item of a text, by its length.
#[derive(Clone, Copy)]
pub struct Item {
    /// How many bytes it has: at least one.
    pub len: usize,
    /// What it is.
    pub what: What,
}

/// Each text begins with nothing half read, at the beginning of a line.
const LINE_START: Surroundings = Surroundings::Text(0);

/// The first item of a text. Nothing that was half read before belongs to it.
#[inline(always)]
pub fn next_item(escapes: &mut OpenEscapes, text: &[u8]) -> Item
    requires { 1 ≤ length text.now }
    ensures first { items text.now ≡ record { bytes = take result.len text.now; what = result.what }
        ∷ items (drop result.len text.now) }
    ensures some { 1 ≤ result.len }
    ensures within { result.len ≤ length text.now }
    ensures fits { columns result.what ≤ result.len }
    ensures room { escapes.new.room ≡ escapes.old.room }
{
    let byte = text[0];
    if byte == b'\\' {
        return escape_in_front(escapes, text);
    }
    Item {
        len: 1,
        what: byte_what(byte),
    }
}

/// What a byte is that is no backslash.
fn byte_what(byte: u8) -> What
    ensures value { result ≡ byte_what byte }
    ensures narrow { columns result ≤ 1 }
{
    if byte == b' ' {
        What::Blank
    } else if byte == b'\t' {
        What::NotMeasured(b't')
    } else if is_dropped(byte) {
        What::Dropped
    } else if is_silent(byte) {
        What::Nothing
    } else {
        What::Byte(byte)
    }
}

/// The item that a text begins with, by a backslash.
fn escape_in_front(escapes: &mut OpenEscapes, text: &[u8]) -> Item
    requires some { 1 ≤ length text.now }
    requires backslash { slice_index text.now 0 ≡ backslash }
    ensures first { items text.now ≡ record { bytes = take result.len text.now; what = result.what }
        ∷ items (drop result.len text.now) }
    ensures some { 1 ≤ result.len }
    ensures within { result.len ≤ length text.now }
    ensures fits { columns result.what ≤ result.len }
    ensures room { escapes.new.room ≡ escapes.old.room }
{
    let mut reading = read_escape(escapes, &text[1..]);
    end_before(escapes, None, &mut reading.found);
    Item {
        len: reading.len,
        what: found_what(reading.found),
    }
}

/// An escape as far as it is read.
#[derive(Drop)]
struct Reading {
    /// How many bytes it has.
    len: usize,
    /// How many bytes were looked at: those, and dropped ones behind them.
    seen: usize,
    /// What the last of them found.
    found: Found,
}

/// Reads an escape whose backslash stands in front of these bytes, with nothing half read before.
fn read_escape(escapes: &mut OpenEscapes, text: &[u8]) -> Reading
    ensures read { reading result.len result.seen result.found escapes.new.escapes
        ≡ fold met begun text.now }
    ensures some { 1 ≤ result.len }
    ensures within { result.len ≤ length text.now + 1 }
    ensures room { escapes.new.room ≡ escapes.old.room }
{
    escapes.clear();
    let found = escapes.read_byte(LINE_START, b'\\');
    let mut reading = Reading {
        len: 1,
        seen: 1,
        found,
    };
    for byte in text {
        if escapes.is_empty() {
            return reading;
        }
        reading.meet(escapes, *byte);
    }
    reading
}

impl Reading {
    /// A byte is met behind an escape that isn't whole: it is dropped, ends what it ends, or is
    /// taken.
    fn meet(&mut self, escapes: &mut OpenEscapes, byte: u8)
        requires open { is_nothing escapes.old.escapes ≡ false }
        requires few { self.old.seen + 1 < 2 ^ 64 }
        ensures read { reading self.new.len self.new.seen self.new.found escapes.new.escapes
            ≡ met (reading self.old.len self.old.seen self.old.found escapes.old.escapes) byte }
        ensures room { escapes.new.room ≡ escapes.old.room }
    {
        if is_dropped(byte) {
            self.seen += 1;
            return;
        }
        end_before(escapes, Some(byte), &mut self.found);
        if !escapes.is_empty() {
            self.found = escapes.read_byte(LINE_START, byte);
            self.seen += 1;
            self.len = self.seen;
        }
    }
}

/// Ends what ends before a byte that stays, or at the text's end. What was found last changes with
/// it.
fn end_before(escapes: &mut OpenEscapes, next: Option<u8>, found: &mut Found)
    ensures read { (found.new, escapes.new.escapes)
        ≡ all_ended next (found.old, escapes.old.escapes) }
    ensures room { escapes.new.room ≡ escapes.old.room }
{
    while is_ended(escapes, next) {
        *found = escapes.end_reading(LINE_START);
    }
}

/// Whether what comes next ends the reading on top: a byte that stays, or the text's end.
fn is_ended(escapes: &OpenEscapes, next: Option<u8>) -> bool
    ensures { result ≡ is_ended next escapes.now.escapes }
{
    match next {
        None => !escapes.is_empty(),
        Some(byte) => escapes.is_ended_by(Some(byte)),
    }
}

/// What an escape is, by what was found where nothing is half read any more.
fn found_what(found: Found) -> What
    ensures value { result ≡ found_what found }
    ensures narrow { columns result ≤ 4 }
{
    match found {
        Found::Escape(byte) => escape_what(byte),
        Found::Asks(purpose, name) => name_what(purpose, name),
        Found::Motion(_, _) => What::NotMeasured(b'h'),
        Found::Measures(_) => What::NotMeasured(b'w'),
        _ => What::Nothing,
    }
}

/// What an escape without a name is, by the byte behind its backslash.
fn escape_what(byte: u8) -> What
    ensures value { result ≡ found_what (Found.Escape byte) }
    ensures narrow { columns result ≤ 4 }
{
    match escape_of(byte) {
        Escape::Prints(printed) => What::Byte(printed),
        Escape::Blank => What::Glyph(1),
        Escape::NoWidth => What::Ampersand,
        Escape::Tab => What::NotMeasured(b't'),
        Escape::Interrupts => What::NotMeasured(byte),
        Escape::Brace => What::NotMeasured(byte),
        Escape::LeftOut => What::NotMeasured(byte),
        Escape::Text(TextUse::LeftOut(letter)) => What::NotMeasured(letter),
        _ => What::Nothing,
    }
}

/// What an escape with a name is.
fn name_what(purpose: NameUse, name: Option<Name>) -> What
    ensures value { result ≡ name_what purpose name }
    ensures narrow { columns result ≤ 4 }
{
    match purpose {
        NameUse::Register(_) => What::NotMeasured(b'n'),
        NameUse::Text => What::NotMeasured(b'*'),
        NameUse::Argument => What::NotMeasured(b'$'),
        NameUse::LeftOut(letter) => What::NotMeasured(letter),
        NameUse::Font => What::Nothing,
        NameUse::Character => character_what(name),
    }
}

/// What a character is, by its name: one that isn't known prints nothing.
fn character_what(name: Option<Name>) -> What
    ensures value { result ≡ name_what NameUse.Character name }
    ensures narrow { columns result ≤ 4 }
{
    let text = match &name {
        Some(name) => character(name.as_bytes()),
        None => None,
    };
    match text {
        Some(text) => text_what(text),
        None => What::Nothing,
    }
}

/// What a character of such a text is.
fn text_what(text: &[u8]) -> What
    requires { length text.now ≤ 4 }
    ensures value { result ≡ character_what (Some text.now) }
    ensures narrow { columns result ≤ 4 }
{
    match text {
        [byte] => What::Byte(*byte),
        _ => What::Glyph(text.len() as u32),
    }
}
