//! The arguments of the line that is being read.

ghost use Rattle.input_model.specs.Arguments.{HeldFewer, bytes_held, is_behind_quote, settled};
ghost use Rattle.input_model.specs.Arguments.{with_unit};
ghost use Rattle.input_model.specs.Arguments.{finished};
ghost use Rattle.input_arguments.specs.ArgumentList.{listed};
ghost use Rattle.input_source.specs.Bytes.{is_argument_byte};
ghost use Rattle.std.specs.List.{AllByRecursion};
ghost use Rattle.std.specs.Prelude.{reverse, ◌≡◌, ◌+◌, ◌≤◌, length, take, true};
ghost use Rattle.input_model.specs.Input.{holding_plain, pushed, with_arguments};
ghost use Rattle.input_model.specs.Input.{beginning_line, without_arguments};

use super::Unread;
use input_arguments::{ArgumentList, bytes_of};
use input_escapes::CopyUnit;
use roff_num::Limit;

impl<E: Copy> Unread<E> {
    ghost use Rattle.input_model.specs.Unread.{changing};

    /// A line is read of which nothing was read.
    pub fn begin_line(&mut self)
        ensures change { self.new ≡ record self.old { input = beginning_line self.old.input } }
    {
        self.arguments.clear();
        self.escapes.clear();
    }

    /// Drops the arguments of the line before.
    pub fn begin_arguments(&mut self)
        ensures change { self.new ≡ record self.old { input = without_arguments self.old.input } }
    {
        self.arguments.clear();
    }

    /// Holds one unit more of a line's arguments.
    ///
    /// # Errors
    ///
    /// [`Limit::Stack`] if its bytes don't fit.
    pub fn hold(&mut self, unit: CopyUnit) -> Result<(), Limit>
        ensures change { (result, self.new)
            ≡ changing (with_arguments (with_unit self.old.input.arguments unit) self.old.input)
            self.old }
    {
        if self.arguments.bytes_more(unit) > self.limits.stack as usize - self.pushed() {
            return Err(Limit::Stack);
        }
        self.arguments.take(unit);
        Ok(())
    }

    /// Holds one unit more of a line's text, in which nothing separates or quotes.
    ///
    /// # Errors
    ///
    /// [`Limit::Stack`] if its bytes don't fit.
    pub fn hold_plain(&mut self, unit: CopyUnit) -> Result<(), Limit>
        ensures change { (result, self.new)
            ≡ changing (holding_plain unit self.old.input) self.old }
    {
        if bytes_of(unit) > self.limits.stack as usize - self.pushed() {
            return Err(Limit::Stack);
        }
        self.arguments.take_plain(unit);
        Ok(())
    }

    /// Holds the first bytes of a text in arguments, up to one that isn't held as it is read, and
    /// where there is a bound as long as fewer arguments than that are whole. Returns how many.
    /// They aren't counted as taken.
    #[inline(always)]
    pub fn hold_bytes(&mut self, text: &[u8], most: Option<usize>) -> usize
        requires { pushed self.old.input + length text.now ≤ self.old.limits.stack }
        ensures few { result ≤ length text.now }
        ensures plain { AllByRecursion (λ b. is_argument_byte b ≡ true) (take result text.now) }
        ensures fewer { HeldFewer most (take result text.now) self.old.input.arguments }
        ensures holds { self.new ≡ record self.old {
          input = record self.old.input {
            arguments = bytes_held (take result text.now) self.old.input.arguments;
          };
        } }
    {
        self.arguments.take_front(text, most)
    }

    /// The argument that is being read, as far as it is.
    pub fn begun(&self) -> &[u8]
        ensures { result.now ≡ reverse self.now.input.arguments.begun }
    {
        self.arguments.begun()
    }

    /// Whether the quote that was read last on the line closes its argument unless another one
    /// follows.
    #[inline(always)]
    pub fn is_behind_quote(&self) -> bool
        ensures { result ≡ is_behind_quote self.now.input.arguments.place }
    {
        self.arguments.is_behind_quote()
    }

    /// What follows on the line is no quote: behind one within quotes the argument is whole.
    pub fn settle(&mut self)
        ensures change { self.new ≡ record self.old {
          input = with_arguments (settled self.old.input.arguments) self.old.input;
        } }
    {
        self.arguments.settle();
    }

    /// The line has ended: the argument being read is whole.
    pub fn finish_arguments(&mut self)
        ensures change { self.new ≡ record self.old {
          input = with_arguments (finished self.old.input.arguments) self.old.input;
        } }
    {
        self.arguments.finish();
    }

    /// The arguments of the line that are whole.
    pub fn arguments(&self) -> ArgumentList<'_>
        ensures { listed result ≡ reverse self.now.input.arguments.whole }
    {
        self.arguments.list()
    }
}
