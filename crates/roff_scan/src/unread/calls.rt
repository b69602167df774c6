//! Lines that call bodies, bodies that spring, and the arguments of calls.

ghost use Rattle.input_arguments.specs.ArgumentList.{listed};
ghost use Rattle.std.specs.Prelude.{vec_capacity, reverse, ◌≡◌, ◌<◌, ◌^◌, [], drop, get_or, length};
ghost use Rattle.input_model.specs.Input.{pushing, results_below};
ghost use Rattle.input_model.specs.Input.Calls.{arguments_live, argument_live, calling_body};
ghost use Rattle.input_model.specs.Input.Calls.{springing};
ghost use Rattle.input_model.specs.Input.Names.{body_named};

use super::Unread;
use super::results::drop_results;
use input_arguments::{ArgumentList, Calls};
use roff_num::{Limit, Name};

impl<E: Copy> Unread<E> {
    ghost use Rattle.input_model.specs.Unread.{changing};

    /// A line calls the body of a name: it is put in front, as it is now, with a newline behind it
    /// if it has bytes and none at its end, and the end of the call. The arguments of the line are
    /// those of the call, until its end is taken.
    ///
    /// # Errors
    ///
    /// As for [`push`](Unread::push).
    #[inline(always)]
    pub fn call(&mut self, name: &Name) -> Result<(), Limit>
        ensures change { (result, self.new)
            ≡ changing (calling_body (body_named name.now self.old.input) self.old.input) self.old }
    {
        let room = self.limits.stack as usize - self.pushed();
        if self.is_deep() {
            if self.input_ahead.called(name).len > room {
                return Err(Limit::Stack);
            }
            return Err(Limit::Depth);
        }
        if !self.input_ahead.call(name, 0, room) {
            return Err(Limit::Stack);
        }
        self.arguments.finish();
        self.calls.push(self.arguments.list());
        self.arguments.clear();
        Ok(())
    }

    /// A name springs: its body is put in front, as it is now and as a line calls it, and an end
    /// that leads back to what this code stands for. No arguments are in force in it; those of a
    /// line that is half read stay.
    ///
    /// # Errors
    ///
    /// As for [`push`](Unread::push).
    #[cold]
    pub fn spring(&mut self, name: &Name, back: u8) -> Result<(), Limit>
        ensures change { (result, self.new)
            ≡ changing (springing (body_named name.now self.old.input) back self.old.input)
            self.old }
    {
        let room = self.limits.stack as usize - self.pushed();
        if self.is_deep() {
            if self.input_ahead.called(name).len > room {
                return Err(Limit::Stack);
            }
            return Err(Limit::Depth);
        }
        if !self.input_ahead.call(name, back, room) {
            return Err(Limit::Stack);
        }
        self.calls.push(ArgumentList::new(&[], &[]));
        Ok(())
    }

    /// How many arguments the innermost call has that isn't over; none where there is no call.
    pub fn argument_count(&self) -> usize
        ensures { result ≡ length (arguments_live self.now.input) }
    {
        self.calls.arguments().len()
    }

    /// An argument of that call, by its index from 0 on. One that it wasn't given is empty.
    #[inline]
    pub fn argument(&self, index: usize) -> &[u8]
        ensures { result.now ≡ argument_live index self.now.input }
    {
        argument_at(self.calls.arguments(), index)
    }

    /// Puts an argument of that call and its end in front, by its index from 0 on. One that it
    /// wasn't given is empty.
    ///
    /// # Errors
    ///
    /// As for [`push`](Unread::push).
    pub fn push_argument(&mut self, index: usize) -> Result<(), Limit>
        ensures change { (result, self.new)
            ≡ changing (pushing (argument_live index self.old.input) self.old.input) self.old }
    {
        let pushed = self.pushed();
        let is_deep = self.is_deep();
        let text = argument_at(self.calls.arguments(), index);
        if text.len() > self.limits.stack as usize - pushed {
            return Err(Limit::Stack);
        }
        if is_deep {
            return Err(Limit::Depth);
        }
        self.input_ahead.push(text);
        Ok(())
    }
}

/// The argument at an index, from 0 on; one that isn't there is empty.
fn argument_at(arguments: ArgumentList<'_>, index: usize) -> &[u8]
    ensures { result.now ≡ get_or (listed arguments.entry) index [] }
{
    match arguments.get(index) {
        Some(text) => text,
        None => &[],
    }
}

/// The innermost call is over, and what was kept in its body is kept no more.
pub(super) fn end_call(calls: &mut Calls, results: &mut Vec<(bool, u32)>)
    requires { calls.old.most_calls < 2 ^ 32 }
    ensures calls { calls.new ≡ record calls.old { calls = drop 1 calls.old.calls } }
    ensures results { reverse results.new.items
        ≡ results_below (length calls.old.calls) (reverse results.old.items) }
    ensures capacity { vec_capacity results.new ≡ vec_capacity results.old }
{
    drop_results(results, calls.len() as u32);
    calls.pop();
}
