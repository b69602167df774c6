//! The options of a table: what its first line says up to a `;` (Lesk, "Tbl": Options).

ghost use Rattle.std.specs.Prelude.{◌≡◌, ◌+◌, ◌-◌, ◌<◌, ◌≤◌, ◌^◌, ◌++◌, length, map, slice_range};
ghost use Rattle.std.specs.Prelude.{not, ◌&&◌, ◌||◌, vec_capacity, vec_len};
ghost use Rattle.tbl_options.specs.Notes.{NotesWithin, ignored_message, told_at, told_of_all};
ghost use Rattle.tbl_options.specs.Options.{bracketed, ignored_options, is_unknown};
ghost use Rattle.tbl_options.specs.Options.{options_end};
ghost use Rattle.tbl_options.specs.Options.{options_read, separates_options};
ghost use Rattle.tbl_options.specs.OptionWords.{behind_two, behind_word, held_word, ignored_by};
ghost use Rattle.tbl_options.specs.OptionWords.{ignores_before, ignores_last, IsHeld};
ghost use Rattle.tbl_options.specs.OptionWords.{options_behind};

use crate::notes::{Cause, KeptNote};
use crate::option_words::{option_of, option_of_two};

/// How a picture is boxed.
#[derive(Clone, Copy)]
pub struct Boxing {
    /// How many bars stand at its edges: one with `box`, `frame` and `allbox`, two with `doublebox`
    /// and `doubleframe`.
    pub bars: u8,
    /// `allbox`: whether each field is boxed.
    pub is_inside: bool,
}

/// What of a table's options is laid out.
#[derive(Clone, Copy)]
pub struct Options {
    /// The byte between fields.
    pub separator: u8,
    /// Whether the picture is centred on the line.
    pub centered: bool,
    /// Whether the picture is as wide as the line.
    pub expanded: bool,
    /// How the picture is boxed.
    pub boxing: Boxing,
}

/// What an option says.
#[derive(Clone, Copy)]
pub enum TableOption {
    /// `center`, `centre`.
    Center,
    /// `expand`.
    Expand,
    /// `box`, `frame`.
    Box,
    /// `allbox`.
    AllBox,
    /// `doublebox`, `doubleframe`.
    DoubleBox,
    /// `tab(x)`.
    Separator(u8),
    /// `delim(xy)`, `linesize(n)`.
    WithoutEffect,
    /// Any other.
    Unknown,
}

/// The options of a table that gives none.
pub const NO_OPTIONS: Options = Options {
    separator: b'\t',
    centered: false,
    expanded: false,
    boxing: Boxing::NOTHING,
};

/// What a text says, all of which is options.
pub fn read_options(text: &[u8]) -> Options
    ensures { result ≡ options_read text.now }
{
    let mut read = OptionsRead::NOTHING;
    let mut from = 0;
    let mut inside = false;
    for at in 0..text.len() {
        let byte = text[at];
        if ends_word(inside, byte) {
            read = read.with_word(text, from, at);
            from = at + 1;
        } else {
            inside = bracketed(inside, byte);
        }
    }
    read.with_word(text, from, text.len()).ended(text)
}

/// Keeps a message for each option that is ignored, of the options that lie there in a block.
pub fn push_ignored(notes: &mut Vec<KeptNote>, block: &[u8], from: usize, to: usize, line: u32)
    requires order { from ≤ to }
    requires block { to ≤ length block.now }
    requires small { length block.now < 2 ^ 32 }
    requires room { vec_len notes.old + (to - from) ≤ vec_capacity notes.old }
    requires within { NotesWithin (length block.now) notes.old.items }
    ensures told { told_of_all block.now notes.new.items ≡ told_of_all block.now notes.old.items
        ++ map (λ word. told_at line (ignored_message word))
        (ignored_options (slice_range block.now from to)) }
    ensures few { vec_len notes.new ≤ vec_len notes.old + (to - from) }
    ensures within { NotesWithin (length block.now) notes.new.items }
    ensures capacity { vec_capacity notes.new ≡ vec_capacity notes.old }
{
    let mut read = OptionsRead::NOTHING;
    let mut start = from;
    let mut inside = false;
    for at in from..to {
        let byte = block[at];
        if ends_word(inside, byte) {
            read = take_word(notes, read, block, start, at, line);
            start = at + 1;
        } else {
            inside = bracketed(inside, byte);
        }
    }
    let last = take_word(notes, read, block, start, to, line);
    push_last(notes, last, block, line);
}

/// One word more, which lies there in a block: keeps a message for the word in front of it, if that
/// is ignored.
fn take_word(
    notes: &mut Vec<KeptNote>,
    read: OptionsRead,
    block: &[u8],
    from: usize,
    to: usize,
    line: u32,
) -> OptionsRead
    requires held { IsHeld (length block.now) read }
    requires order { from ≤ to }
    requires block { to ≤ length block.now }
    requires small { length block.now < 2 ^ 32 }
    requires room { vec_len notes.old + (read.to - read.from) ≤ vec_capacity notes.old }
    requires within { NotesWithin (length block.now) notes.old.items }
    ensures value { result ≡ behind_word block.now read from to }
    ensures held { IsHeld (length block.now) result }
    ensures told { told_of_all block.now notes.new.items ≡ told_of_all block.now notes.old.items
        ++ map (λ word. told_at line (ignored_message word))
        (ignored_by (ignores_before block.now read from to) (held_word block.now read)) }
    ensures few { vec_len notes.new + (result.to - result.from)
        ≤ vec_len notes.old + ((read.to - read.from) + (to - from)) }
    ensures within { NotesWithin (length block.now) notes.new.items }
    ensures capacity { vec_capacity notes.new ≡ vec_capacity notes.old }
{
    push_if(
        notes,
        read.ignores_before(block, from, to),
        read,
        block,
        line,
    );
    read.with_word(block, from, to)
}

/// Behind the last word: keeps a message for it, if it is ignored.
fn push_last(notes: &mut Vec<KeptNote>, read: OptionsRead, block: &[u8], line: u32)
    requires held { IsHeld (length block.now) read }
    requires small { length block.now < 2 ^ 32 }
    requires room { vec_len notes.old + (read.to - read.from) ≤ vec_capacity notes.old }
    requires within { NotesWithin (length block.now) notes.old.items }
    ensures told { told_of_all block.now notes.new.items ≡ told_of_all block.now notes.old.items
        ++ map (λ word. told_at line (ignored_message word))
        (ignored_by (ignores_last block.now read) (held_word block.now read)) }
    ensures few { vec_len notes.new ≤ vec_len notes.old + (read.to - read.from) }
    ensures within { NotesWithin (length block.now) notes.new.items }
    ensures capacity { vec_capacity notes.new ≡ vec_capacity notes.old }
{
    push_if(notes, read.ignores_last(block), read, block, line);
}

/// Keeps a message for the word that waits, if it is ignored.
fn push_if(notes: &mut Vec<KeptNote>, is_ignored: bool, read: OptionsRead, block: &[u8], line: u32)
    requires held { IsHeld (length block.now) read }
    requires small { length block.now < 2 ^ 32 }
    requires room { vec_len notes.old + length (ignored_by is_ignored (held_word block.now read))
        ≤ vec_capacity notes.old }
    requires within { NotesWithin (length block.now) notes.old.items }
    ensures told { told_of_all block.now notes.new.items ≡ told_of_all block.now notes.old.items
        ++ map (λ word. told_at line (ignored_message word))
        (ignored_by is_ignored (held_word block.now read)) }
    ensures few { vec_len notes.new
        ≡ vec_len notes.old + length (ignored_by is_ignored (held_word block.now read)) }
    ensures within { NotesWithin (length block.now) notes.new.items }
    ensures capacity { vec_capacity notes.new ≡ vec_capacity notes.old }
{
    let _ = block;
    if is_ignored {
        notes.push_reserved(KeptNote {
            line,
            cause: Cause::OptionIgnored(read.from as u32, read.to as u32),
        });
    }
}

/// What was read of options, and where the last word lies among them that may go on in the next
/// one: nowhere, if it has no byte.
#[derive(Clone, Copy)]
struct OptionsRead {
    options: Options,
    from: usize,
    to: usize,
}

impl OptionsRead {
    /// Nothing.
    const NOTHING: OptionsRead = OptionsRead {
        options: NO_OPTIONS,
        from: 0,
        to: 0,
    };

    /// One word more, which lies there, if it has a byte.
    fn with_word(self, text: &[u8], from: usize, to: usize) -> OptionsRead
        requires held { IsHeld (length text.now) self }
        requires order { from ≤ to }
        requires text { to ≤ length text.now }
        ensures value { result ≡ behind_word text.now self from to }
        ensures held { IsHeld (length text.now) result }
    {
        if from == to {
            return self;
        }
        if self.from == self.to {
            return OptionsRead {
                options: self.options,
                from,
                to,
            };
        }
        let held = &text[self.from..self.to];
        self.with_two(held, option_of_two(held, &text[from..to]), from, to)
    }

    /// The word that waits and the one behind it, which together say this option. If they say none,
    /// the first is an option by itself, and the second waits.
    fn with_two(self, held: &[u8], two: TableOption, from: usize, to: usize) -> OptionsRead
        ensures { result ≡ behind_two self held.now two from to }
    {
        if two.is_unknown() {
            OptionsRead {
                options: self.options.with_set(option_of(held)),
                from,
                to,
            }
        } else {
            OptionsRead {
                options: self.options.with_set(two),
                from: to,
                to,
            }
        }
    }

    /// Behind the last word.
    fn ended(self, text: &[u8]) -> Options
        requires { IsHeld (length text.now) self }
        ensures { result ≡ options_behind text.now self }
    {
        if self.from == self.to {
            return self.options;
        }
        self.options.with_set(option_of(&text[self.from..self.to]))
    }

    /// Whether the word that may go on is ignored, and told, as this one comes.
    fn ignores_before(self, text: &[u8], from: usize, to: usize) -> bool
        requires held { IsHeld (length text.now) self }
        requires order { from ≤ to }
        requires text { to ≤ length text.now }
        ensures { result ≡ ignores_before text.now self from to }
    {
        if from == to {
            return false;
        }
        self.ignores_last(text)
            && option_of_two(&text[self.from..self.to], &text[from..to]).is_unknown()
    }

    /// Whether it is ignored as no word comes any more.
    fn ignores_last(self, text: &[u8]) -> bool
        requires { IsHeld (length text.now) self }
        ensures { result ≡ ignores_last text.now self }
    {
        self.from != self.to && option_of(&text[self.from..self.to]).is_unknown()
    }
}

/// How many bytes of a line are options, if it has any: up to the first `;` outside brackets.
pub fn options_end(line: &[u8]) -> Option<usize>
    ensures { result ≡ options_end line.now }
{
    let mut inside = false;
    for at in 0..line.len() {
        let byte = line[at];
        if !inside && byte == b';' {
            return Some(at);
        }
        inside = bracketed(inside, byte);
    }
    None
}

impl TableOption {
    /// Whether it isn't known.
    fn is_unknown(self) -> bool
        ensures { result ≡ is_unknown self }
    {
        match self {
            TableOption::Unknown => true,
            TableOption::Separator(_) => false,
            TableOption::Center => false,
            TableOption::WithoutEffect => false,
            TableOption::Expand => false,
            TableOption::Box => false,
            TableOption::AllBox => false,
            TableOption::DoubleBox => false,
        }
    }
}

/// Whether a byte ends a word: within brackets none does.
fn ends_word(inside: bool, byte: u8) -> bool
    ensures { result ≡ (not inside && separates_options byte) }
{
    !inside && separates_options(byte)
}

/// Whether a byte separates options, where it stands outside brackets.
fn separates_options(byte: u8) -> bool
    ensures { result ≡ separates_options byte }
{
    byte == b' ' || (byte == b'\t' || byte == b',')
}

/// Whether what follows a byte stands within brackets: `(` opens them, and the next `)` closes
/// them.
pub fn bracketed(inside: bool, byte: u8) -> bool
    ensures { result ≡ bracketed inside byte }
{
    match byte {
        b'(' => true,
        b')' => false,
        _ => inside,
    }
}
