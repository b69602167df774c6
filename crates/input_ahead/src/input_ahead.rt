//! Frames: what stands ahead of the source. Bodies of strings and macros are read where they lie.

ghost use Rattle.std.specs.Prelude.{◌≡◌, ◌≤◌, [], IfOk};
ghost use Rattle.input_model.specs.Input.{is_none_ahead, bytes_ahead, ends_ahead};
ghost use Rattle.input_ahead.specs.InputAhead.Kept.{IsSound};

mod fronts;
mod names;
mod pushed;
mod skipped;
mod taken;

use crate::pushed_texts::PushedTexts;
use roff_num::Limits;
use roff_store::{LeaseId, TextStore};
use std::alloc::{AllocError, Global};
use std::marker::Model;

/// What stands ahead beside bytes and ends.
#[derive(Copy)]
pub(crate) enum EventOrBody<E> {
    /// An event that was put back.
    Event(E),
    /// A body, by the lease on it.
    Body(LeaseId),
}

impl<E: Copy> Clone for EventOrBody<E> {
    ghost is_clone = { λ old new. new ≡ old };

    fn clone(&self) -> Result<Self, AllocError> {
        Ok(*self)
    }
}

/// How a line calls the body of a name.
#[derive(Clone, Copy)]
pub struct Called {
    /// How many bytes are put in front: those of the body, and the newline behind them.
    pub len: usize,
    /// Whether a newline is put behind the body: it has bytes, and none at its end.
    pub lacks_newline: bool,
}

/// What stands ahead of the source, and the texts by name. All its memory is reserved as it is
/// made.
#[derive(Drop)]
pub struct InputAhead<E> {
    pushed_texts: PushedTexts<EventOrBody<E>>,
    texts: TextStore,
}

impl<E> Model for InputAhead<E> {
    ghost use Rattle.input_ahead.specs.InputAhead.Kept.{AheadAndTexts};

    ghost Value = { AheadAndTexts E };

    ghost use Rattle.input_ahead.specs.InputAhead.Kept.{kept_by, IsSound};

    ghost view = { kept_by };

    ghost invariant = { IsSound };
}

impl<E: Copy> InputAhead<E> {
    ghost use Rattle.input_model.specs.Shown.{no_texts};

    /// Nothing stands ahead, and no name stands for anything. There is room for so many names
    /// beyond the limit.
    pub fn new(alloc: Global, limits: &Limits, first_names: u32) -> Result<Self, AllocError>
        ensures { IfOk result (λ f. f ≡ record {
          ahead = [];
          texts = no_texts limits.now first_names;
          most_bytes = limits.now.stack;
          most_texts = limits.now.depth;
        }) }
    {
        let Some(cap_open) = limits.diversions.checked_add(1) else {
            return Err(AllocError);
        };
        let Some(cap_names) = limits.names.checked_add(first_names) else {
            return Err(AllocError);
        };
        Ok(InputAhead {
            pushed_texts: PushedTexts::new(alloc, limits.stack, limits.depth)?,
            texts: TextStore::new(
                alloc,
                limits.store,
                cap_names,
                cap_open,
                limits.depth,
                limits.stack,
            )?,
        })
    }

    /// Whether nothing stands ahead.
    #[inline(always)]
    pub fn is_empty(&self) -> bool
        ensures { result ≡ is_none_ahead self.now.ahead }
    {
        self.pushed_texts.is_empty()
    }

    /// How many unread bytes of pushed texts there are.
    pub fn byte_count(&self) -> usize
        ensures count { result ≡ bytes_ahead self.now.ahead }
        ensures within { result ≤ self.now.most_bytes }
    {
        self.pushed_texts.byte_count() + self.texts.kept()
    }

    /// How many pushed texts and called bodies haven't ended.
    pub fn depth(&self) -> usize
        ensures count { result ≡ ends_ahead self.now.ahead }
        ensures within { result ≤ self.now.most_texts }
    {
        self.pushed_texts.depth()
    }
}
