//! The environment: the pending line, the open word, and what is in force.

ghost use Rattle.std.specs.Prelude.{◌≡◌, ℕ, [], IfOk};
ghost use Rattle.roff_lines.specs.Clauses.{Count, Interrupt, Resume, Set, History, settings_after};
ghost use Rattle.roff_lines.specs.Clauses.{counted, last_text, last_width, input_place};
ghost use Rattle.roff_lines.specs.Clauses.{has_line_glyph, has_open_word, is_interrupted};

mod fields;
mod finishing;
mod text;
mod unfilled;
mod words;

use crate::stops::StopTable;
use crate::stretch::Stretch;
use page_model::{Param, Settings};
use std::alloc::{AllocError, Global};
use std::marker::Model;

/// An environment: what is in force, the pending line and the open word.
///
/// All its memory is reserved as it is made.
#[derive(Drop)]
pub struct Env {
    cap: usize,
    /// One byte more than the pending line may have. While a field is open 0: so glyphs find no
    /// room for them there, and only what finds none asks whether a field is open.
    room: u64,
    settings: Settings,
    /// The indent of the next line that a word begins, if that is one of its own.
    temporary_indent: Option<u32>,
    stops: StopTable,
    /// The pending line, without the open word.
    line: Stretch,
    indent: u32,
    has_line: bool,
    /// The open word; while a field is open, its text up to the field's tab.
    word: Stretch,
    /// The text of the open field.
    field: Stretch,
    /// The columns from the open field's tab to its stop.
    field_way: u32,
    /// Whether the open field's text has its middle at its stop; else it ends there.
    is_field_centred: bool,
    /// The blanks before the open field's word.
    word_blanks: u64,
    /// Whether a word is open. While a field is open none is, so that a word end ends nothing.
    is_open: bool,
    /// The blanks before the open word, or before the next one; while a field is open, those of a
    /// gap at its end.
    blanks: u64,
    /// The text of the line that was finished last.
    finished: Stretch,
    /// The width of the line that was finished last, in columns.
    last_width: u32,
    has_glyph: bool,
    ends_sentence: bool,
    /// The place on the line of the input, in columns.
    place: u32,
    /// Whether the next text line goes on with the last one.
    is_interrupted: bool,
}

impl Model for Env {
    ghost use Rattle.roff_lines.specs.Env.Kept.{Kept, kept_by, IsSound};

    ghost Value = { Kept };

    ghost view = { kept_by };

    ghost invariant = { IsSound };
}

impl Env {
    ghost use Rattle.roff_lines.specs.Env.Stands.{Stands, StandsBehind};

    /// An environment in which nothing has happened, whose pending line may have `line_cap` bytes.
    pub fn new(alloc: Global, line_cap: u32) -> Result<Self, AllocError>
        ensures { IfOk result (λ e. Stands line_cap [] e) }
    {
        let cap = line_cap as usize;
        Ok(Env {
            cap,
            room: cap as u64 + 1,
            settings: Settings::initial(),
            temporary_indent: None,
            stops: StopTable::new(alloc)?,
            line: Stretch::new(alloc, cap)?,
            indent: 0,
            has_line: false,
            word: Stretch::new(alloc, cap)?,
            field: Stretch::new(alloc, cap)?,
            field_way: 0,
            is_field_centred: false,
            word_blanks: 0,
            is_open: false,
            blanks: 0,
            finished: Stretch::new(alloc, cap)?,
            last_width: 0,
            has_glyph: false,
            ends_sentence: false,
            place: 0,
            is_interrupted: false,
        })
    }

    /// What is in force.
    pub fn settings(&self) -> Settings
        ensures kept { result ≡ self.now.settings }
        ensures in_force { (line_cap : ℕ) (h : History)
            → Stands line_cap h self.now → result ≡ settings_after h }
    {
        self.settings
    }

    /// The width of the line that was finished last, in columns, from where its text begins
    /// (manual, section 8, the register `.n`): the blanks of adjusting count, the indent doesn't.
    /// It is 0 at first, and behind an empty line.
    pub fn last_width(&self) -> u32
        ensures kept { result ≡ self.now.last_width }
        ensures counted { (line_cap : ℕ) (h : History)
            → Stands line_cap h self.now → result ≡ last_width h }
    {
        self.last_width
    }

    /// The text of the line that was finished last, as its [`Line`](page_model::Line) has it: none
    /// at first, and none of an empty line.
    pub fn finished_text(&self) -> &[u8]
        ensures kept { result.now ≡ self.now.finished }
        ensures text { (line_cap : ℕ) (h : History)
            → Stands line_cap h self.now → result.now ≡ last_text h }
    {
        self.finished.as_slice()
    }

    /// The place on the line of the input, in columns: the widths of its glyphs, gaps and tabs.
    /// No place is told beyond 2147483647.
    pub fn input_place(&self) -> u32
        ensures kept { result ≡ self.now.place }
        ensures place { (line_cap : ℕ) (h : History)
            → Stands line_cap h self.now → result ≡ input_place h }
    {
        self.place
    }

    /// Whether a glyph stands on the line of the input.
    pub fn has_glyph(&self) -> bool
        ensures kept { result ≡ self.now.has_glyph }
        ensures glyphs { (line_cap : ℕ) (h : History)
            → Stands line_cap h self.now → result ≡ has_line_glyph h }
    {
        self.has_glyph
    }

    /// Whether a word is open that a word end would end: in an open field none is.
    pub fn has_open_word(&self) -> bool
        ensures kept { result ≡ self.now.is_open }
        ensures open { (line_cap : ℕ) (h : History)
            → Stands line_cap h self.now → result ≡ has_open_word h }
    {
        self.is_open
    }

    /// Whether the next text line goes on with the last one, which was interrupted.
    pub fn is_interrupted(&self) -> bool
        ensures kept { result ≡ self.now.is_interrupted }
        ensures interrupted { (line_cap : ℕ) (h : History)
            → Stands line_cap h self.now → result ≡ is_interrupted h }
    {
        self.is_interrupted
    }

    /// Counts a text line of the input, behind its end: that changes nothing here.
    pub fn count(&mut self)
        ensures { StandsBehind self.old Count self.new }
    {}

    /// Interrupts the line of the input: the next text line goes on in the same word.
    pub fn interrupt(&mut self)
        ensures { StandsBehind self.old Interrupt self.new }
    {
        self.is_interrupted = true;
    }

    /// Goes on with the line that was interrupted.
    pub fn resume(&mut self)
        ensures { StandsBehind self.old Resume self.new }
    {
        self.is_interrupted = false;
    }

    /// Changes a parameter.
    pub fn set(&mut self, param: Param)
        ensures { StandsBehind self.old (Set param) self.new }
    {
        self.settings = self.settings.with(param);
        self.stops.change(param);
        if let Param::TemporaryIndent(columns) = param {
            self.temporary_indent = Some(columns);
        }
    }
}

/// What is in force behind a line of the input.
fn counted(settings: Settings) -> Settings
    ensures { result ≡ counted settings }
{
    let mut behind = settings;
    behind.centring = settings.centring.saturating_sub(1);
    behind
}
