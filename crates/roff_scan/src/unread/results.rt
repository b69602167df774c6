//! The results of conditions that are kept for their other branch.

ghost use Rattle.std.specs.Prelude.{vec_capacity, reverse, ◌≡◌};
ghost use Rattle.input_model.specs.Input.{results_below};
ghost use Rattle.input_model.specs.Input.Calls.{with_result, last_result, without_last};

use super::Unread;
use roff_num::Limit;

impl<E: Copy> Unread<E> {
    ghost use Rattle.input_model.specs.Unread.{changing};

    /// Keeps the result of a condition for its other branch.
    ///
    /// # Errors
    ///
    /// [`Limit::Conditions`] if as many are kept as may be.
    pub fn keep_result(&mut self, so: bool) -> Result<(), Limit>
        ensures change { (result, self.new) ≡ changing (with_result so self.old.input) self.old }
    {
        if self.results.len() >= self.limits.conditions as usize {
            return Err(Limit::Conditions);
        }
        self.results.push((so, self.calls.len() as u32)).unwrap();
        Ok(())
    }

    /// Takes the result that was kept last, if one is.
    pub fn take_result(&mut self) -> Option<bool>
        ensures last { result ≡ last_result self.old.input }
        ensures change { self.new ≡ record self.old { input = without_last self.old.input } }
    {
        match self.results.pop() {
            Some(last) => Some(last.0),
            None => None,
        }
    }
}

/// Drops the results that were kept while at least so many calls weren't over.
pub(super) fn drop_results(results: &mut Vec<(bool, u32)>, calls: u32)
    ensures results { reverse results.new.items ≡ results_below calls (reverse results.old.items) }
    ensures capacity { vec_capacity results.new ≡ vec_capacity results.old }
{
    while let Some(last) = results.last()
        && last.1 >= calls
    {
        results.pop();
    }
}
