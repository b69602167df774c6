//! Titles: their delimiters, and their three parts (manual, section 14).

ghost use Rattle.std.specs.Prelude.{◌≡◌, ◌≤◌, [], Ok};
ghost use Rattle.std.specs.Option.{option_to_list};
ghost use Rattle.run_model.specs.Reading.Titles.{behind_part, bytes_for, empty_title_ended};
ghost use Rattle.run_model.specs.Reading.Titles.{part_taking, saying_taking, title_byte};
ghost use Rattle.run_model.specs.Reading.Titles.{title_character, title_escape, title_found};
ghost use Rattle.run_model.specs.Reading.Titles.{title_front_unit, title_motion};
ghost use Rattle.run_model.specs.Reading.Titles.{title_name, title_opened};
ghost use Rattle.input_source.specs.Bytes.{backslash};
ghost use Rattle.run_model.specs.Messages.{remark_messages};
ghost use Rattle.run_model.specs.declared.message.Message.TheVariants.{UnknownCharacter};
ghost use Rattle.run_model.specs.declared.line_state.LineState.TheVariants.{Title as InTitle};
ghost use Rattle.run_model.specs.Registers.{Known};
ghost use Rattle.read_steps.specs.Clauses.{ComposerOf, PageUnread, TakesAs};
ghost use Rattle.read_lines.specs.Reader.Titles.{ReadsTitle};

use crate::line_ends::obey;
use page_bytes::PAGE_NUMBER;
use page_model::UNPADDABLE;
use read_lines::Reader;
use roff_num::{Limit, Name};
use roff_scan::{
    ByteSource, CopyUnit, Escape, Found, NameUse, Remark, TextUse, Unread, character, escape_of,
    is_silent,
};
use run_model::{CharacterName, LineState, Message, PageEvent, Purpose, Request, Step, TitlePart};
use run_state::Composer;

/// A unit in front of the parts: the first one that is no blank is the delimiter; of an escape
/// that is kept it is the backslash, and its second byte is one of the left part.
pub(crate) fn read_unit_in_front(
    reader: &mut Reader,
    unit: CopyUnit,
    composer: &Composer,
    unread: &mut Unread<PageEvent>,
) -> Result<Step, Limit>
    ensures { TakesAs (λ k. title_front_unit k unread.old.input unit)
        composer.now reader.old reader.new unread.old unread.new result }
{
    match unit {
        CopyUnit::Byte(b'\n') => end_empty_title(reader, composer, unread),
        CopyUnit::Byte(b' ') => Ok(reader.read_on(LineState::TitleFront)),
        CopyUnit::Byte(delimiter) => open_title(reader, delimiter, &[]),
        CopyUnit::Kept(byte) => open_at_escape(reader, byte),
    }
}

/// An escape that is kept there, by the byte behind its backslash.
fn open_at_escape(reader: &mut Reader, byte: u8) -> Result<Step, Limit>
    ensures { (es : ComposerOf) (u : PageUnread)
        → TakesAs (λ k. title_opened u.input backslash (bytes_for k byte))
        es reader.old reader.new u u result }
{
    match byte_for(reader, byte) {
        Some(byte) => open_title(reader, b'\\', &[byte]),
        None => open_title(reader, b'\\', &[]),
    }
}

/// A line without a delimiter ends: the title is empty.
fn end_empty_title(
    reader: &mut Reader,
    composer: &Composer,
    unread: &mut Unread<PageEvent>,
) -> Result<Step, Limit>
    ensures { TakesAs (λ k. empty_title_ended k unread.old.input)
        composer.now reader.old reader.new unread.old unread.new result }
{
    let lasting = &mut reader.lasting;
    lasting.titles.begin_title(&[])?;
    obey(reader, false, Request::Title, composer, unread)
}

/// The delimiter: a title begins, of whose left part these bytes are read already.
fn open_title(reader: &mut Reader, delimiter: u8, bytes: &[u8]) -> Result<Step, Limit>
    ensures { (es : ComposerOf) (u : PageUnread)
        → TakesAs (λ k. title_opened u.input delimiter bytes.now)
        es reader.old reader.new u u result }
{
    let lasting = &mut reader.lasting;
    lasting.titles.begin_title(bytes)?;
    Ok(reader.read_on(LineState::Title { delimiter }))
}

/// What a byte of a part stands for: the page number, a blank, itself, or nothing.
fn byte_for(reader: &Reader, byte: u8) -> Option<u8>
    ensures { (k : Known) → k.registers ≡ reader.now.registers.all
        → option_to_list result ≡ bytes_for k byte }
{
    if reader.lasting.titles.page_character() == Some(byte) {
        return Some(PAGE_NUMBER);
    }
    if byte == b' ' {
        return Some(UNPADDABLE);
    }
    if byte == b'\t' || is_silent(byte) {
        return None;
    }
    Some(byte)
}

/// A delimiter: the next part is read, or behind the last one arguments.
pub(crate) fn end_title_part(reader: &mut Reader, delimiter: u8) -> Step
    ensures { (es : ComposerOf) (u : PageUnread)
        → TakesAs (λ k. behind_part u.input delimiter k.registers.title.part)
        es reader.old reader.new u u (Ok result) }
{
    let lasting = &mut reader.lasting;
    match lasting.titles.title_part() {
        TitlePart::Right => reader.read_on(LineState::Collecting(Purpose::Arguments {
            breaks: false,
            request: Request::Title,
        })),
        _ => {
            lasting.titles.end_title_part();
            reader.read_on(LineState::Title { delimiter })
        }
    }
}

/// Something of a part that is no delimiter.
pub(crate) fn read_title(
    reader: &mut Reader,
    delimiter: u8,
    found: Found,
    composer: &Composer,
    unread: &mut Unread<PageEvent>,
) -> Result<Step, Limit>
    ensures { TakesAs (λ k. title_found k unread.old.input delimiter found)
        composer.now reader.old reader.new unread.old unread.new result }
{
    let reading = LineState::Title { delimiter };
    match found {
        Found::GoesOn => Ok(reader.read_on(reading)),
        Found::Unit(CopyUnit::Byte(byte)) => {
            read_byte_of_title(reader, delimiter, byte, composer, unread)
        }
        Found::Unit(CopyUnit::Kept(byte)) => read_escape_of_title(reader, delimiter, byte),
        Found::Escape(byte) => read_escape_of_title(reader, delimiter, byte),
        Found::Holds(unit) => reader.hold_text(unit, reading, unread),
        Found::Asks(purpose, name) => {
            reader.reading = reading;
            read_name_of_title(reader, delimiter, purpose, name, composer, unread)
        }
        Found::Motion(columns, remark) => read_motion_of_title(reader, delimiter, columns, remark),
        Found::Measures(width) => reader.measure(width, reading, unread),
        Found::Tells(remark) => Ok(reader.tell(remark, reading)),
        Found::Decides(..) => Ok(reader.read_on(reading)),
    }
}

/// Takes bytes of a part together that stand in front, and stand for the page number, a blank
/// or themselves.
#[inline(always)]
pub fn take_title_front<S: ByteSource>(
    reader: &mut Reader,
    unread: &mut Unread<PageEvent>,
    source: &mut S,
)
    ensures past { ReadsTitle (S.gives source.old) (S.gives source.new)
        reader.old reader.new unread.old unread.new }
    ensures notes { S.notes source.new ≤ S.notes source.old }
    ensures failures { S.failures source.new ≡ S.failures source.old }
{
    match reader.reading {
        LineState::Title { delimiter } => take_front_of_title(reader, delimiter, unread, source),
        _ => unread.stays_within(),
    }
}

/// Takes bytes of a part together that stand in front, between these delimiters, and stand for the
/// page number, a blank or themselves.
#[inline(always)]
fn take_front_of_title<S: ByteSource>(
    reader: &mut Reader,
    delimiter: u8,
    unread: &mut Unread<PageEvent>,
    source: &mut S,
)
    requires { reader.old.reading ≡ InTitle delimiter }
    ensures past { ReadsTitle (S.gives source.old) (S.gives source.new)
        reader.old reader.new unread.old unread.new }
    ensures notes { S.notes source.new ≤ S.notes source.old }
    ensures failures { S.failures source.new ≡ S.failures source.old }
{
    if unread.has_open_escape() {
        return unread.stays_within();
    }
    let count = reader
        .lasting
        .titles
        .add_front_to_title(unread.front(source), delimiter);
    unread.pass(source, count);
    unread.stays_within();
}

/// A byte of a part: a newline ends the line, and the title is placed.
#[inline(always)]
pub(crate) fn read_byte_of_title(
    reader: &mut Reader,
    delimiter: u8,
    byte: u8,
    composer: &Composer,
    unread: &mut Unread<PageEvent>,
) -> Result<Step, Limit>
    ensures { TakesAs (λ k. title_byte k unread.old.input delimiter byte)
        composer.now reader.old reader.new unread.old unread.new result }
{
    if byte == b'\n' {
        return obey(reader, false, Request::Title, composer, unread);
    }
    match byte_for(reader, byte) {
        Some(byte) => put_in_title(reader, delimiter, &[byte]),
        None => put_in_title(reader, delimiter, &[]),
    }
}

/// Bytes of the part that is read.
fn put_in_title(reader: &mut Reader, delimiter: u8, bytes: &[u8]) -> Result<Step, Limit>
    ensures { (es : ComposerOf) (u : PageUnread)
        → TakesAs (λ k. part_taking u.input delimiter bytes.now)
        es reader.old reader.new u u result }
{
    let lasting = &mut reader.lasting;
    lasting.titles.add_to_title(bytes)?;
    Ok(reader.read_on(LineState::Title { delimiter }))
}

/// What gives nothing in a part, and of which this is said.
fn say_of_title(reader: &mut Reader, delimiter: u8, message: Message) -> Result<Step, Limit>
    ensures { (es : ComposerOf) (u : PageUnread)
        → TakesAs (λ k. saying_taking u.input delimiter message)
        es reader.old reader.new u u result }
{
    reader.reading = LineState::Title { delimiter };
    Ok(reader.report(message))
}

/// An escape without a name, by the byte behind its backslash.
fn read_escape_of_title(reader: &mut Reader, delimiter: u8, byte: u8) -> Result<Step, Limit>
    ensures { (es : ComposerOf) (u : PageUnread)
        → TakesAs (λ k. title_escape u.input delimiter byte)
        es reader.old reader.new u u result }
{
    match escape_of(byte) {
        Escape::Prints(printed) => put_in_title(reader, delimiter, &[printed]),
        Escape::Blank => put_in_title(reader, delimiter, &[UNPADDABLE]),
        Escape::LeftOut => say_of_title(reader, delimiter, Message::LeftOut([b'\\', byte])),
        Escape::Text(TextUse::LeftOut(left_out)) => {
            say_of_title(reader, delimiter, Message::LeftOut([b'\\', left_out]))
        }
        _ => Ok(reader.read_on(LineState::Title { delimiter })),
    }
}

/// A motion of so many columns, which are blanks, and what is said of it.
fn read_motion_of_title(
    reader: &mut Reader,
    delimiter: u8,
    columns: u32,
    remark: Option<Remark>,
) -> Result<Step, Limit>
    ensures { (es : ComposerOf) (u : PageUnread)
        → TakesAs (λ k. title_motion u.input delimiter columns (remark_messages remark))
        es reader.old reader.new u u result }
{
    let lasting = &mut reader.lasting;
    lasting.titles.add_blanks_to_title(columns)?;
    reader.reading = LineState::Title { delimiter };
    match remark {
        None => Ok(Step::Nothing),
        Some(remark) => Ok(reader.report(Message::of_remark(remark))),
    }
}

/// The name behind an escape.
fn read_name_of_title(
    reader: &mut Reader,
    delimiter: u8,
    purpose: NameUse,
    name: Option<Name>,
    composer: &Composer,
    unread: &mut Unread<PageEvent>,
) -> Result<Step, Limit>
    requires { reader.old.reading ≡ InTitle delimiter }
    ensures { TakesAs (λ k. title_name k unread.old.input delimiter purpose name)
        composer.now reader.old reader.new unread.old unread.new result }
{
    match purpose {
        NameUse::Character => read_character_of_title(reader, delimiter, name),
        NameUse::Font => Ok(reader.read_on(LineState::Title { delimiter })),
        NameUse::LeftOut(byte) => {
            say_of_title(reader, delimiter, Message::LeftOut([b'\\', byte]))
        }
        NameUse::Register(_) => reader.ask(purpose, name, composer, unread),
        NameUse::Text => reader.ask(purpose, name, composer, unread),
        NameUse::Argument => reader.ask(purpose, name, composer, unread),
    }
}

/// A character, by its name, if there is one.
fn read_character_of_title(
    reader: &mut Reader,
    delimiter: u8,
    name: Option<Name>,
) -> Result<Step, Limit>
    ensures { (es : ComposerOf) (u : PageUnread)
        → TakesAs (λ k. title_character u.input delimiter name)
        es reader.old reader.new u u result }
{
    match name {
        None => say_unknown(reader, delimiter, CharacterName::Nothing),
        Some(name) => match character(name.as_bytes()) {
            None => say_unknown(reader, delimiter, CharacterName::of(&name)),
            Some(text) => put_in_title(reader, delimiter, text),
        },
    }
}

/// A name that is no character's.
fn say_unknown(reader: &mut Reader, delimiter: u8, name: CharacterName) -> Result<Step, Limit>
    ensures { (es : ComposerOf) (u : PageUnread)
        → TakesAs (λ k. saying_taking u.input delimiter (UnknownCharacter name))
        es reader.old reader.new u u result }
{
    say_of_title(reader, delimiter, Message::UnknownCharacter(name))
}
