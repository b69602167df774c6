//! Where in the input the next byte stands.

ghost use Rattle.std.specs.Prelude.{◌≡◌, ◌+◌, ◌<◌, ◌^◌};
ghost use Rattle.tbl_core.specs.Lines.{counted, ends_name, front_behind, is_name, is_of_name};
ghost use Rattle.tbl_core.specs.Lines.{is_other, line_counted, next_line};

use roff_num::Limit;

/// How much of a name stands at a line's beginning: `.TS`, or within a table `.TE`.
#[derive(Clone, Copy)]
pub(crate) enum Front {
    /// No byte of the line was taken.
    Nothing,
    /// `.`
    Dot,
    /// `.T`
    Letter,
    /// The whole name.
    Name,
    /// The line begins otherwise.
    Other,
}

impl Front {
    /// Whether it is the whole name.
    #[inline(always)]
    pub(crate) fn is_name(self) -> bool
        ensures { result ≡ is_name self }
    {
        matches!(self, Front::Name)
    }

    /// Whether it is a part of the name, or the whole.
    #[inline(always)]
    pub(crate) fn is_of_name(self) -> bool
        ensures { result ≡ is_of_name self }
    {
        matches!(self, Front::Dot | Front::Letter | Front::Name)
    }

    /// Whether the line begins otherwise.
    #[inline(always)]
    pub(crate) fn is_other(self) -> bool
        ensures { result ≡ is_other self }
    {
        matches!(self, Front::Other)
    }

    /// What stands there behind one byte more; `last` is the name's last letter.
    #[inline(always)]
    pub(crate) fn behind(self, last: u8, byte: u8) -> Front
        ensures { result ≡ front_behind last self byte }
    {
        match self {
            Front::Nothing if byte == b'.' => Front::Dot,
            Front::Dot if byte == b'T' => Front::Letter,
            Front::Letter if byte == last => Front::Name,
            _ if byte == b'\n' => Front::Nothing,
            _ => Front::Other,
        }
    }
}

/// Whether a byte ends a name at a line's beginning: the line's end, a blank or a tab.
#[inline(always)]
pub(crate) fn ends_name(byte: u8) -> bool
    ensures { result ≡ ends_name byte }
{
    matches!(byte, b'\n' | b' ' | b'\t')
}

/// How many bytes were taken, and the line of the last one.
#[derive(Clone, Copy)]
pub(crate) struct Count {
    /// The bytes taken.
    pub(crate) taken: u32,
    /// The line of the last one, from 1 on; 1 if there is none.
    pub(crate) line: u32,
    /// Whether the last one ended its line.
    pub(crate) ended: bool,
}

impl Count {
    /// Before the first byte.
    pub(crate) const NOTHING: Count = Count {
        taken: 0,
        line: 1,
        ended: false,
    };

    /// Counts a byte.
    #[inline(always)]
    pub(crate) fn take(&mut self, byte: u8)
        requires taken { (counted byte self.old).taken < 2 ^ 32 }
        requires line { (counted byte self.old).line < 2 ^ 32 }
        ensures { self.new ≡ counted byte self.old }
    {
        self.taken += 1;
        if self.ended {
            self.line += 1;
        }
        self.ended = byte == b'\n';
    }

    /// Counts bytes of one line, at least one, and none its newline.
    #[inline(always)]
    pub(crate) fn pass(&mut self, bytes: u32)
        requires taken { self.old.taken + bytes < 2 ^ 32 }
        requires line { next_line self.old < 2 ^ 32 }
        ensures { self.new ≡ line_counted bytes self.old }
    {
        self.taken += bytes;
        if self.ended {
            self.line += 1;
        }
        self.ended = false;
    }
}

/// Where the next byte stands.
#[derive(Clone, Copy)]
pub(crate) enum Position {
    /// Outside tables, on a line that begins so.
    Outside(Front),
    /// On a `.TS` line, behind its name.
    RestOfStart,
    /// In a table, on a line that begins so.
    Inside(Front),
    /// Nowhere: a limit has stopped the run.
    Over(Limit),
}
