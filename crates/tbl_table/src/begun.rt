//! What is known of a line of the options or the format before it has ended.

ghost use Rattle.std.specs.Prelude.{◌≡◌, ◌+◌, ◌^◌, ◌<◌, ℕ, Bool, not, ◌&&◌, ◌==◌, ◌++◌, [], ◌∷◌};
ghost use Rattle.std.specs.Prelude.{length};
ghost use Rattle.input_source.specs.Bytes.{newline};
ghost use Rattle.tbl_table.specs.Begun.{FewKeys, begun_in, count_of, head_begun};
ghost use Rattle.tbl_format.specs.Format.{Format, format_read, no_format};
ghost use Rattle.tbl_format.specs.FormatLaws.{IsRead};
ghost use Rattle.tbl_format.specs.KeyCounts.{Counts, IsCount};
ghost use Rattle.tbl_options.specs.Options.{options_end, options_read, semicolon};
ghost use Rattle.tbl_table.specs.Table.{columns_of, head_columns, head_place};
ghost use Rattle.tbl_data.specs.declared.phase.Phase.TheVariants.{AtHead};
ghost use Rattle.tbl_table.specs.declared.begun.Begun.TheVariants.{Front, Keys};

use tbl_data::phase::Phase;
use tbl_format::format::FormatPlace;
use tbl_format::key_count::KeyCount;
use tbl_options::options::{bracketed, read_options};

/// What is known of the line that is begun.
#[derive(Clone, Copy)]
pub enum Begun {
    /// It is of options, or of a format without options; within brackets or not.
    Front(bool),
    /// From this place on it is of keys, of which so much counts.
    Keys(usize, KeyCount),
    /// Nothing of it counts.
    Nothing,
}

impl Begun {
    /// What is known of a line without a byte, where so much of the format was counted.
    pub fn at_start(phase: Phase, count: KeyCount) -> Begun
        ensures { (f : Format) → count ≡ count_of f → result ≡ begun_in phase f [] }
    {
        match phase {
            Phase::AtHead => Begun::Front(false),
            Phase::InFormat => Begun::Keys(0, count),
            Phase::InData => Begun::Nothing,
            Phase::Bad => Begun::Nothing,
        }
    }

    /// What is known of a line behind the first, where so much of the format was counted before it.
    pub fn on_line(phase: Phase, count: KeyCount, line: &[u8]) -> Begun
        requires phase { phase ≡ AtHead → ⊥ }
        requires is { IsCount 0 count }
        requires few { count.columns + length line.now < 2 ^ 63 }
        ensures value { (f : Format) → Counts f count → result ≡ begun_in phase f line.now }
        ensures few { FewKeys (count.columns + length line.now) (length line.now) result }
    {
        match phase {
            Phase::AtHead => Begun::Front(false),
            Phase::InFormat => Begun::Keys(0, count.behind_all(line)),
            Phase::InData => Begun::Nothing,
            Phase::Bad => Begun::Nothing,
        }
    }

    /// What is known behind one byte more of this line.
    #[inline(always)]
    pub fn behind(self, line: &[u8], byte: u8) -> Begun
        requires { FewKeys (2 ^ 62) (length line.now) self }
        ensures value { (phase : Phase) (f : Format) → IsRead f → self ≡ begun_in phase f line.now
            → result ≡ begun_in phase f (line.now ++ byte ∷ []) }
        ensures few { (most : ℕ) → FewKeys most (length line.now) self
            → FewKeys (most + 1) (length line.now + 1) result }
    {
        match self {
            Begun::Front(inside) => front_behind(inside, line, byte),
            Begun::Keys(start, count) => { Begun::Keys(start, count.behind(&line[start..], byte)) }
            Begun::Nothing => Begun::Nothing,
        }
    }

    /// How many columns count behind one byte more of this line.
    pub fn columns_with(self, line: &[u8], byte: u8) -> usize
        requires keys { FewKeys (2 ^ 62) (length line.now) self }
        requires few { length line.now < 2 ^ 62 }
        ensures head { self ≡ head_begun (options_end line.now) line.now
            → result ≡ head_columns (options_end (line.now ++ byte ∷ [])) (line.now ++ byte ∷ []) }
        ensures format { (f : Format) → IsRead f → self ≡ Keys 0 (count_of (format_read f line.now))
            → result ≡ columns_of (format_read f (line.now ++ byte ∷ [])) }
    {
        match self {
            Begun::Front(_) => front_columns(line, byte),
            Begun::Keys(start, count) => count.behind(&line[start..], byte).columns,
            Begun::Nothing => 0,
        }
    }

    /// Where the reading of the format stands behind this line's newline.
    pub fn place_at_end(self, line: &[u8]) -> FormatPlace
        requires keys { FewKeys (2 ^ 62) (length line.now) self }
        requires few { length line.now < 2 ^ 62 }
        ensures head { self ≡ head_begun (options_end line.now) line.now
            → result ≡ head_place (options_end line.now) line.now }
        ensures format { (f : Format) → IsRead f → self ≡ Keys 0 (count_of (format_read f line.now))
            → result ≡ (format_read f (line.now ++ newline ∷ [])).place }
    {
        match self {
            Begun::Front(_) => whole_line(line).place,
            Begun::Keys(start, count) => count.behind(&line[start..], b'\n').place,
            Begun::Nothing => FormatPlace::AtFault,
        }
    }
}

/// Behind one byte more of a line whose options haven't ended.
#[inline(never)]
fn front_behind(inside: bool, line: &[u8], byte: u8) -> Begun
    ensures value { Front inside ≡ head_begun (options_end line.now) line.now
        → result ≡ head_begun (options_end (line.now ++ byte ∷ [])) (line.now ++ byte ∷ []) }
    ensures few { (most : ℕ) → FewKeys most (length line.now + 1) result }
{
    if ends_options(inside, byte) {
        return keys_behind(line);
    }
    Begun::Front(bracketed(inside, byte))
}

/// Whether a byte ends the options.
fn ends_options(inside: bool, byte: u8) -> bool
    ensures { result ≡ (not inside && byte == semicolon) }
{
    !inside && byte == b';'
}

/// Behind these options.
fn keys_behind(options: &[u8]) -> Begun
    ensures value { result ≡ Keys (length options.now + 1) (count_of (format_read no_format [])) }
    ensures few { (most : ℕ) → FewKeys most (length options.now + 1) result }
{
    Begun::Keys(options.len() + 1, KeyCount::NONE)
}

/// The columns behind one byte more of a line whose options haven't ended: they count once its
/// newline has come.
fn front_columns(line: &[u8], byte: u8) -> usize
    requires { length line.now < 2 ^ 62 }
    ensures { (inside : Bool) → Front inside ≡ head_begun (options_end line.now) line.now
        → result ≡ head_columns (options_end (line.now ++ byte ∷ [])) (line.now ++ byte ∷ []) }
{
    if byte == b'\n' {
        return whole_line(line).columns;
    }
    0
}

/// What counts of a line that is a format, with its newline.
fn whole_line(line: &[u8]) -> KeyCount
    requires { length line.now < 2 ^ 62 }
    ensures { Counts (format_read no_format (line.now ++ newline ∷ [])) result }
{
    KeyCount::NONE.behind_all(line).behind(line, b'\n')
}
