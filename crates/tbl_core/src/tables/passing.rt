//! Bytes outside tables that pass as they are, many at once.

ghost use Rattle.std.specs.Prelude.{◌≡◌};
ghost use Rattle.std.specs.List.{take_while};
ghost use Rattle.tbl_core.specs.Passing.{DoPass, IsWithinLine, StaysOutside, before_table};
ghost use Rattle.tbl_core.specs.Passing.{front_over, is_of_line, passed, passes_next, passing};

use super::Tables;
use crate::place::{Front, Position, ends_name};
use input_source::at_most;
use memchr::memchr;

/// As many bytes are looked at, so that long lines aren't searched again and again.
const MOST_LOOKED_AT: usize = 256;

impl Tables {
    /// Whether the next byte passes, whatever it is.
    #[inline(always)]
    pub(crate) fn passes_next(&self) -> bool
        ensures { result ≡ passes_next self.now.limits self.now.at.standing }
    {
        match self.position {
            Position::Outside(_) => self.count.taken < self.limits.bytes,
            Position::RestOfStart => self.count.taken < self.limits.bytes,
            _ => false,
        }
    }

    /// Those of the next bytes that are known to pass as they are, where nothing is pending.
    #[inline]
    pub(crate) fn passing<'a>(&self, bytes: &'a [u8]) -> &'a [u8]
        ensures { result.now ≡ passing self.now.limits self.now.at.standing bytes.now }
    {
        match self.position {
            Position::Outside(front) => {
                let left = (self.limits.bytes - self.count.taken) as usize;
                before_table(front, line_front(at_most(bytes, left.min(MOST_LOOKED_AT))))
            }
            _ => &[],
        }
    }

    /// Bytes pass as they are.
    #[inline]
    pub(crate) fn pass(&mut self, bytes: &[u8])
        requires { DoPass self.old.limits self.old.at.standing bytes.now }
        ensures { self.new ≡ record self.old {
          at = record {
            pending = self.old.at.pending;
            standing = passed bytes.now self.old.at.standing;
          };
        } }
    {
        if let Position::Outside(front) = self.position {
            self.count.pass(bytes.len() as u32);
            self.position = Position::Outside(front_over(front, bytes));
        }
    }
}

/// The bytes in front of the first newline.
#[inline(always)]
pub(super) fn line_front(bytes: &[u8]) -> &[u8]
    ensures { result.now ≡ take_while is_of_line bytes.now }
{
    at_most(bytes, memchr(b'\n', bytes).unwrap_or(bytes.len()))
}

/// The bytes of a line in front of the one that makes it a `.TS` line, where it begins so. Behind
/// its first bytes none is looked at.
#[inline]
fn before_table(front: Front, line: &[u8]) -> &[u8]
    requires { IsWithinLine line.now }
    ensures { result.now ≡ before_table front line.now }
{
    let mut front = front;
    let mut count = 0;
    while count < line.len() {
        if front.is_other() {
            return line;
        }
        if front.is_name() && ends_name(line[count]) {
            return at_most(line, count);
        }
        front = front.behind(b'S', line[count]);
        count += 1;
    }
    line
}

/// How much of the name stands behind bytes of a line.
#[inline]
fn front_over(front: Front, bytes: &[u8]) -> Front
    requires { StaysOutside front bytes.now }
    ensures { result ≡ front_over front bytes.now }
{
    let mut front = front;
    let mut count = 0;
    while count < bytes.len() {
        if front.is_other() {
            return front;
        }
        front = front.behind(b'S', bytes[count]);
        count += 1;
    }
    front
}
