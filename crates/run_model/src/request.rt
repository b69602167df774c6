//! The requests: a row for each.

ghost use Rattle.std.specs.Prelude.{◌≡◌, ◌&&◌, slice_get};
ghost use Rattle.run_model.specs.RequestRows.{coded_row};
ghost use Rattle.run_model.specs.Requests.{requests, row_of};

use LineReading::{
    ByArguments, ByCondition, ByElse, ByLastLine, ByLines, ByMessage, ByString, ByTitle,
};
use Request::{LeftOut, WithoutEffect};
use roff_num::ShortName;

/// A request.
#[derive(Clone, Copy)]
pub enum Request {
    /// `ab`: a message, and the end of the run.
    Abort,
    /// `ad`: adjusting on, in a mode.
    Adjust,
    /// `da`: a diversion is opened whose text is appended, or the innermost one ends.
    AppendDiversion,
    /// `am`: a macro is appended to.
    AppendMacro,
    /// `as`: a string is appended to.
    AppendString,
    /// `af`: how a number register is written.
    AssignFormat,
    /// `bp`: the page is ejected.
    BeginPage,
    /// `br`: a break.
    Break,
    /// `ce`: lines are centred.
    Centre,
    /// `ch`: a trap is moved.
    ChangeTrap,
    /// `de`: a macro.
    DefineMacro,
    /// `ds`: a string.
    DefineString,
    /// `dt`: the trap of the innermost open diversion.
    DiversionTrap,
    /// `di`: a diversion is opened, or the innermost one ends.
    Divert,
    /// `el`: the other branch of a condition.
    Else,
    /// `em`: the macro that is read behind the input.
    EndMacro,
    /// `ev`: another environment, or back.
    Environment,
    /// `ex`: the end of all input.
    Exit,
    /// `fi`: filling on.
    Fill,
    /// `if`: a condition.
    If,
    /// `ie`: a condition with another branch.
    IfElse,
    /// `ig`: lines that are ignored.
    Ignore,
    /// `in`: the indent.
    Indent,
    /// `it`: the input-line trap.
    InputTrap,
    /// `ll`: the line length.
    LineLength,
    /// `ls`: the spacing of lines.
    LineSpacing,
    /// `ne`: lines that are to stand together.
    Need,
    /// `na`: adjusting off.
    NoAdjust,
    /// `nf`: filling off.
    NoFill,
    /// `ns`: no-space mode on.
    NoSpace,
    /// `nr`: a number register's value and increment.
    NumberRegister,
    /// `pc`: the character that stands for the page number in titles.
    PageCharacter,
    /// `pl`: the page length.
    PageLength,
    /// `pn`: the number of the next page.
    PageNumber,
    /// `po`: the page offset.
    PageOffset,
    /// `wh`: a trap is planted.
    PlantTrap,
    /// `rm`: strings, macros and requests go.
    RemoveNames,
    /// `rr`: number registers go.
    RemoveRegisters,
    /// `rn`: a string, macro or request gets another name.
    Rename,
    /// `rs`: no-space mode off.
    RestoreSpacing,
    /// `sp`: blank lines.
    Space,
    /// `ta`: tab stops.
    TabStops,
    /// `ti`: the indent of one line.
    TemporaryIndent,
    /// `tm`: a message.
    TellMessage,
    /// `tl`: a title.
    Title,
    /// `lt`: the title length.
    TitleLength,
    /// One of this name that is read without effect.
    WithoutEffect([u8; 2]),
    /// One of this name that is left out, and says so.
    LeftOut([u8; 2]),
}

/// How the rest of a request's line is read.
#[derive(Clone, Copy)]
pub enum LineReading {
    /// As arguments, with blanks between them.
    ByArguments,
    /// As a condition, and then its branch; its result may be kept for the other one.
    ByCondition {
        /// Whether it is.
        keeps: bool,
    },
    /// As the other branch of the condition whose result was kept last.
    ByElse,
    /// As arguments, and nothing behind it is read.
    ByLastLine,
    /// As the text of a message.
    ByMessage {
        /// Whether it aborts the run.
        aborts: bool,
    },
    /// As arguments, and then lines up to the last one of a definition.
    ByLines(LinesFor),
    /// As the name of a string and its text.
    ByString {
        /// Whether the text is put behind the string.
        appends: bool,
    },
    /// As the three parts of a title, and then arguments.
    ByTitle,
}

/// What gets the lines of a definition.
#[derive(Clone, Copy)]
pub enum LinesFor {
    /// A macro.
    Macro {
        /// Whether they are put behind it.
        appends: bool,
    },
    /// Nothing: they are ignored.
    Nobody,
}

/// What a line does that begins with a name.
#[derive(Clone, Copy)]
pub enum Called {
    /// It is a request's.
    Request(Request),
    /// It calls the body of this name.
    Body(ShortName),
    /// It is dropped.
    Nothing,
}

/// What is known of a request before it is called.
#[derive(Clone, Copy)]
pub struct Row {
    /// Its name.
    pub name: [u8; 2],
    /// How its line is read.
    pub line: LineReading,
    /// Whether it breaks, if a dot called it.
    pub breaks: bool,
}

/// The requests that are built, in the order of their names.
static BUILT: [Request; 46] = [
    Request::Abort,
    Request::Adjust,
    Request::AssignFormat,
    Request::AppendMacro,
    Request::AppendString,
    Request::BeginPage,
    Request::Break,
    Request::Centre,
    Request::ChangeTrap,
    Request::AppendDiversion,
    Request::DefineMacro,
    Request::Divert,
    Request::DefineString,
    Request::DiversionTrap,
    Request::Else,
    Request::EndMacro,
    Request::Environment,
    Request::Exit,
    Request::Fill,
    Request::IfElse,
    Request::If,
    Request::Ignore,
    Request::Indent,
    Request::InputTrap,
    Request::LineLength,
    Request::LineSpacing,
    Request::TitleLength,
    Request::NoAdjust,
    Request::Need,
    Request::NoFill,
    Request::NumberRegister,
    Request::NoSpace,
    Request::PageCharacter,
    Request::PageLength,
    Request::PageNumber,
    Request::PageOffset,
    Request::RemoveNames,
    Request::Rename,
    Request::RemoveRegisters,
    Request::RestoreSpacing,
    Request::Space,
    Request::TabStops,
    Request::TemporaryIndent,
    Request::Title,
    Request::TellMessage,
    Request::PlantTrap,
];

/// The names of those that are read without effect.
#[rattlefmt::skip]
static WITHOUT_EFFECT: [[u8; 2]; 15] = [
    *b"bd", *b"cs", *b"fp", *b"ft", *b"ps", *b"ss", // Section 2.
    *b"vs", // Section 5.
    *b"cu", *b"lg", *b"ul", // Section 10.
    *b"hc", *b"hw", *b"hy", *b"nh", // Section 13.
    *b"lf", // Section 20.
];

/// The names of those that are left out.
#[rattlefmt::skip]
static LEFT_OUT: [[u8; 2]; 24] = [
    *b"mk", *b"rt", // Section 3.
    *b"os", *b"sv", // Section 5.
    *b"fc", *b"lc", *b"tc", // Section 9.
    *b"c2", *b"cc", *b"ec", *b"eo", *b"tr", *b"uf", // Section 10.
    *b"nm", *b"nn", // Section 15.
    *b"rd", // Section 18.
    *b"cf", *b"nx", *b"pi", *b"so", *b"sy", // Section 19.
    *b"fl", *b"mc", *b"pm", // Section 20.
];

impl Request {
    /// How many there are.
    pub const COUNT: u16 = 85;

    /// The request of this place in the table, if there is one.
    pub fn numbered(number: usize) -> Option<Request>
        ensures { result ≡ slice_get requests number }
    {
        if let Some(request) = BUILT.get(number) {
            return Some(*request);
        }
        let number = number - BUILT.len();
        match WITHOUT_EFFECT.get(number) {
            Some(name) => Some(WithoutEffect(*name)),
            None => Some(LeftOut(*LEFT_OUT.get(number - WITHOUT_EFFECT.len())?)),
        }
    }

    /// The row of this request in the table of requests.
    #[rattlefmt::skip]
    #[inline(always)]
    pub fn row(self) -> Row
        ensures { result ≡ coded_row self }
    {
        match self {
            Request::Abort => Row { name: *b"ab", line: ByMessage { aborts: true }, breaks: false },
            Request::Adjust => Row { name: *b"ad", line: ByArguments, breaks: false },
            Request::AssignFormat => Row { name: *b"af", line: ByArguments, breaks: false },
            Request::AppendMacro => Row {
                name: *b"am", line: ByLines(LinesFor::Macro { appends: true }), breaks: false,
            },
            Request::AppendString => Row {
                name: *b"as", line: ByString { appends: true }, breaks: false,
            },
            Request::BeginPage => Row { name: *b"bp", line: ByArguments, breaks: true },
            Request::Break => Row { name: *b"br", line: ByArguments, breaks: true },
            Request::Centre => Row { name: *b"ce", line: ByArguments, breaks: true },
            Request::ChangeTrap => Row { name: *b"ch", line: ByArguments, breaks: false },
            Request::AppendDiversion => Row { name: *b"da", line: ByArguments, breaks: false },
            Request::DefineMacro => Row {
                name: *b"de", line: ByLines(LinesFor::Macro { appends: false }), breaks: false,
            },
            Request::Divert => Row { name: *b"di", line: ByArguments, breaks: false },
            Request::DefineString => Row {
                name: *b"ds", line: ByString { appends: false }, breaks: false,
            },
            Request::DiversionTrap => Row { name: *b"dt", line: ByArguments, breaks: false },
            Request::Else => Row { name: *b"el", line: ByElse, breaks: false },
            Request::EndMacro => Row { name: *b"em", line: ByArguments, breaks: false },
            Request::Environment => Row { name: *b"ev", line: ByArguments, breaks: false },
            Request::Exit => Row { name: *b"ex", line: ByLastLine, breaks: false },
            Request::Fill => Row { name: *b"fi", line: ByArguments, breaks: true },
            Request::IfElse => Row {
                name: *b"ie", line: ByCondition { keeps: true }, breaks: false,
            },
            Request::If => Row { name: *b"if", line: ByCondition { keeps: false }, breaks: false },
            Request::Ignore => Row { name: *b"ig", line: ByLines(LinesFor::Nobody), breaks: false },
            Request::Indent => Row { name: *b"in", line: ByArguments, breaks: true },
            Request::InputTrap => Row { name: *b"it", line: ByArguments, breaks: false },
            Request::LineLength => Row { name: *b"ll", line: ByArguments, breaks: false },
            Request::LineSpacing => Row { name: *b"ls", line: ByArguments, breaks: false },
            Request::TitleLength => Row { name: *b"lt", line: ByArguments, breaks: false },
            Request::NoAdjust => Row { name: *b"na", line: ByArguments, breaks: false },
            Request::Need => Row { name: *b"ne", line: ByArguments, breaks: false },
            Request::NoFill => Row { name: *b"nf", line: ByArguments, breaks: true },
            Request::NumberRegister => Row { name: *b"nr", line: ByArguments, breaks: false },
            Request::NoSpace => Row { name: *b"ns", line: ByArguments, breaks: false },
            Request::PageCharacter => Row { name: *b"pc", line: ByArguments, breaks: false },
            Request::PageLength => Row { name: *b"pl", line: ByArguments, breaks: false },
            Request::PageNumber => Row { name: *b"pn", line: ByArguments, breaks: false },
            Request::PageOffset => Row { name: *b"po", line: ByArguments, breaks: false },
            Request::RemoveNames => Row { name: *b"rm", line: ByArguments, breaks: false },
            Request::Rename => Row { name: *b"rn", line: ByArguments, breaks: false },
            Request::RemoveRegisters => Row { name: *b"rr", line: ByArguments, breaks: false },
            Request::RestoreSpacing => Row { name: *b"rs", line: ByArguments, breaks: false },
            Request::Space => Row { name: *b"sp", line: ByArguments, breaks: true },
            Request::TabStops => Row { name: *b"ta", line: ByArguments, breaks: false },
            Request::TemporaryIndent => Row { name: *b"ti", line: ByArguments, breaks: true },
            Request::Title => Row { name: *b"tl", line: ByTitle, breaks: false },
            Request::TellMessage => Row {
                name: *b"tm", line: ByMessage { aborts: false }, breaks: false,
            },
            Request::PlantTrap => Row { name: *b"wh", line: ByArguments, breaks: false },
            WithoutEffect(name) => Row { name, line: ByArguments, breaks: false },
            LeftOut(name) => Row { name, line: ByArguments, breaks: false },
        }
    }
}

/// Whether a request breaks, called by a dot or not.
#[inline(always)]
pub fn breaks_by(by_dot: bool, request: Request) -> bool
    ensures { result ≡ (by_dot && (row_of request).breaks) }
{
    by_dot && request.row().breaks
}
