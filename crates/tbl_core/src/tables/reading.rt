//! Bytes of a table that are read on.

ghost use Rattle.std.specs.Prelude.{◌≡◌, ℕ, ◌≤◌, [], true, length};
ghost use Rattle.tbl_format.specs.Parts.{IsFront};
ghost use Rattle.tbl_core.specs.ReadOn.{HasRoom, ReadsLine, line_read};
ghost use Rattle.tbl_core.specs.Tables.{ReadsAny, byte_step};

use super::passing::line_front;
use super::{Tables, read_on};
use crate::place::{Front, Position};
use input_source::at_most;
use tbl_format::limits::TblLimits;
use tbl_table::table::Table;

impl Tables {
    /// Whether the next byte is one of a table that goes on behind it, whatever it is.
    #[inline(always)]
    pub(crate) fn reads_next(&self) -> bool
        ensures { result ≡ true → ReadsAny self.now.limits self.now.at.standing }
    {
        match self.position {
            Position::Inside(front) => {
                !front.is_name() && self.count.taken < self.limits.bytes && self.table.reads_any()
            }
            _ => false,
        }
    }

    /// Takes such a byte, for which nothing is given.
    #[inline(always)]
    pub(crate) fn read_next(&mut self, byte: u8)
        requires pending { self.old.at.pending ≡ [] }
        requires reads { ReadsAny self.old.limits self.old.at.standing }
        ensures pending { self.new.at.pending ≡ [] }
        ensures out { (byte_step self.old.limits self.old.line_length byte self.old.at.standing).out
            ≡ [] }
        ensures behind { self.new.at.standing
            ≡ (byte_step self.old.limits self.old.line_length byte self.old.at.standing).behind }
        ensures limits { self.new.limits ≡ self.old.limits }
        ensures line_length { self.new.line_length ≡ self.old.line_length }
    {
        if let Position::Inside(front) = self.position {
            self.count.take(byte);
            read_on(&mut self.table, self.count.line, byte);
            self.position = Position::Inside(front.behind(b'E', byte));
        }
    }

    /// Those of the next bytes that are read on together: of a line of the data that can't be the
    /// table's end.
    #[inline(always)]
    pub(crate) fn reading<'a>(&self, bytes: &'a [u8]) -> &'a [u8]
        ensures front { IsFront result.now bytes.now }
        ensures reads { 1 ≤ length result.now
            → ReadsLine self.now.limits self.now.at.standing result.now }
    {
        match self.position {
            Position::Inside(Front::Other) => {
                let room = room(self.limits, self.count.taken, &self.table);
                line_front(at_most(bytes, room))
            }
            _ => &[],
        }
    }

    /// Takes such bytes, for which nothing is given.
    #[inline(always)]
    pub(crate) fn read_line(&mut self, bytes: &[u8])
        requires pending { self.old.at.pending ≡ [] }
        requires reads { ReadsLine self.old.limits self.old.at.standing bytes.now }
        ensures pending { self.new.at.pending ≡ [] }
        ensures behind { self.new.at.standing ≡ line_read bytes.now self.old.at.standing }
        ensures limits { self.new.limits ≡ self.old.limits }
        ensures line_length { self.new.line_length ≡ self.old.line_length }
    {
        if let Position::Inside(_) = self.position {
            self.count.pass(bytes.len() as u32);
            self.table.push_all(bytes);
        }
    }
}

/// How many bytes of a line of the data meet no limit, where so many were taken.
#[inline(always)]
fn room(limits: TblLimits, taken: u32, table: &Table) -> usize
    requires limits { table.now.limits ≡ limits }
    requires taken { taken ≤ limits.bytes }
    ensures { (n : ℕ) → 1 ≤ n → n ≤ result → HasRoom limits taken table.now.reading n }
{
    if !table.reads_any() {
        return 0;
    }
    let left = (limits.bytes - taken) as usize;
    left.min(limits.text as usize - table.len())
}
