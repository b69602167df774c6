//! The arguments of the bodies that lines called and that haven't ended.

ghost use Rattle.std.specs.Prelude.{◌≡◌, ◌+◌, ◌<◌, ◌≤◌, ◌∷◌, [], drop, length, IfOk};
ghost use Rattle.input_model.specs.Arguments.{total_length};
ghost use Rattle.input_arguments.specs.ArgumentList.{listed};
ghost use Rattle.input_model.specs.Arguments.{live_bytes};

use crate::arguments::ArgumentList;
use std::alloc::{AllocError, Global};
use std::marker::Model;

/// How many arguments without a byte a call may have.
const EMPTY: usize = 32;

/// Where the arguments of a call begin in the block, and their ends among the ends.
#[derive(Clone, Copy)]
struct CallStart {
    byte: usize,
    end: usize,
}

/// The arguments of calls, those of the innermost call at the back of one block.
///
/// All its memory is reserved as it is made.
#[derive(Drop)]
pub struct Calls {
    bytes: Vec<u8>,
    /// Where each argument ends, counted from where those of its call begin.
    ends: Vec<u32>,
    starts: Vec<CallStart>,
    most_bytes: usize,
    most_calls: usize,
}

impl Model for Calls {
    ghost use Rattle.input_arguments.specs.Calls.Kept.{KeptCalls};

    ghost Value = { KeptCalls };

    ghost use Rattle.input_arguments.specs.Calls.Kept.{kept_by, IsSound};

    ghost view = { kept_by };

    ghost invariant = { IsSound };
}

impl Calls {
    ghost use Rattle.input_arguments.specs.Calls.Kept.{first_call};

    /// No call, with room for so many bytes and calls.
    pub fn new(alloc: Global, stack: u32, depth: u32) -> Result<Self, AllocError>
        ensures { IfOk result
            (λ c. c ≡ record { calls = []; most_bytes = stack; most_calls = depth }) }
    {
        let most_bytes = stack as usize;
        let most_calls = depth as usize;
        Ok(Calls {
            bytes: Vec::with_capacity(alloc, most_bytes)?,
            ends: Vec::with_capacity(alloc, most_bytes + EMPTY * most_calls)?,
            starts: Vec::with_capacity(alloc, most_calls)?,
            most_bytes,
            most_calls,
        })
    }

    /// How many calls there are.
    pub fn len(&self) -> usize
        ensures count { result ≡ length self.now.calls }
        ensures within { result ≤ self.now.most_calls }
    {
        self.starts.len()
    }

    /// How many bytes their arguments have.
    pub fn byte_count(&self) -> usize
        ensures count { result ≡ live_bytes self.now.calls }
        ensures within { result ≤ self.now.most_bytes }
    {
        self.bytes.len()
    }

    /// A call with these arguments is the innermost one now.
    #[inline(always)]
    pub fn push(&mut self, arguments: ArgumentList<'_>)
        requires bytes { live_bytes self.old.calls + total_length (listed arguments)
            ≤ self.old.most_bytes }
        requires calls { length self.old.calls < self.old.most_calls }
        requires few { length (listed arguments) ≤ total_length (listed arguments) + 32 }
        ensures { self.new
            ≡ record self.old { calls = listed arguments.entry ∷ self.old.calls } }
    {
        self.starts.push_reserved(CallStart {
            byte: self.bytes.len(),
            end: self.ends.len(),
        });
        if arguments.is_empty() {
            return;
        }
        self.bytes.extend_from_slice(arguments.block()).unwrap();
        self.ends.extend_from_slice(arguments.ends()).unwrap();
    }

    /// The innermost call is over, if there is one.
    pub fn pop(&mut self)
        ensures { self.new ≡ record self.old { calls = drop 1 self.old.calls } }
    {
        match self.starts.pop() {
            Some(start) => {
                self.bytes.truncate(start.byte);
                self.ends.truncate(start.end);
            }
            None => {}
        }
    }

    /// All calls are over.
    pub fn clear(&mut self)
        ensures { self.new ≡ record self.old { calls = [] } }
    {
        self.bytes.clear();
        self.ends.clear();
        self.starts.clear();
    }

    /// The arguments of the innermost call; none where there is no call.
    pub fn arguments(&self) -> ArgumentList<'_>
        ensures { listed result ≡ first_call self.now.calls }
    {
        match self.starts.as_slice().split_last() {
            Some((start, _)) => ArgumentList::new(
                &self.bytes[start.byte..],
                &self.ends[start.end..],
            ),
            None => ArgumentList::new(&[], &[]),
        }
    }
}
