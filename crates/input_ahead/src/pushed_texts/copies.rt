//! Copies of items and marks: a derived one would look at each kind by itself.

ghost use Rattle.std.specs.Prelude.{◌≡◌};

use super::{Mark, MarkAt, PushedItem};
use std::alloc::AllocError;

impl<E: Copy> Clone for PushedItem<E> {
    ghost is_clone = { λ old new. new ≡ old };

    fn clone(&self) -> Result<Self, AllocError> {
        Ok(*self)
    }
}

impl<E: Copy> Clone for Mark<E> {
    ghost is_clone = { λ old new. new ≡ old };

    fn clone(&self) -> Result<Self, AllocError> {
        Ok(*self)
    }
}

impl<E: Copy> Clone for MarkAt<E> {
    ghost is_clone = { λ old new. new ≡ old };

    fn clone(&self) -> Result<Self, AllocError> {
        Ok(*self)
    }
}
