//! Bytes of a table that stand ready are read on.

ghost use Rattle.std.specs.Prelude.{◌≡◌, [], false, true, None};

use super::TblSource;
use input_source::{ByteSource, at_most};

impl<S: ByteSource> TblSource<S> {
    ghost use Rattle.tbl_core.specs.Silent.{IsLater, TakesSilently};
    ghost use Rattle.tbl_core.specs.Tables.{stopped_by};

    /// Takes a byte of the inner source that stands ready, if it is one of a table that goes on
    /// behind it. Answers whether it did; otherwise nothing happens.
    #[inline(always)]
    pub(super) fn read_ready(&mut self) -> bool
        requires pending { self.old.tables.at.pending ≡ [] }
        requires reads { stopped_by self.old.tables.at.standing ≡ None }
        ensures kept { result ≡ false → self.new ≡ self.old }
        ensures silent { result ≡ true → TakesSilently S.gives S.notes self.old self.new }
        ensures later { IsLater S.failures self.old self.new }
    {
        if !self.tables.reads_next() {
            return false;
        }
        match self.inner.ready_byte() {
            Some(byte) => {
                self.tables.read_next(byte);
                true
            }
            None => false,
        }
    }

    /// Takes bytes of the inner source that stand ready, if they are of a table that goes on behind
    /// them: the rest of a line, or one. Answers whether it did; otherwise nothing happens.
    #[inline(always)]
    pub(super) fn read_on(&mut self) -> bool
        requires pending { self.old.tables.at.pending ≡ [] }
        requires reads { stopped_by self.old.tables.at.standing ≡ None }
        ensures kept { result ≡ false → self.new ≡ self.old }
        ensures silent { result ≡ true → TakesSilently S.gives S.notes self.old self.new }
        ensures later { IsLater S.failures self.old self.new }
    {
        if self.read_line() {
            return true;
        }
        self.read_ready()
    }

    /// Takes bytes of the inner source that stand ready, if they are the rest of a line of a table
    /// that goes on behind them. Answers whether it did; otherwise nothing happens.
    #[inline(always)]
    pub(super) fn read_line(&mut self) -> bool
        requires pending { self.old.tables.at.pending ≡ [] }
        requires reads { stopped_by self.old.tables.at.standing ≡ None }
        ensures kept { result ≡ false → self.new ≡ self.old }
        ensures silent { result ≡ true → TakesSilently S.gives S.notes self.old self.new }
        ensures later { IsLater S.failures self.old self.new }
    {
        let count = self.tables.reading(self.inner.buffered()).len();
        if count == 0 {
            return false;
        }
        self.tables.read_line(at_most(self.inner.buffered(), count));
        self.inner.pass(count);
        true
    }
}
