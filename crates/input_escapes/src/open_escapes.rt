//! What is half read: units of copy mode, comments, conditions, and the names, sizes and texts
//! behind escapes.

ghost use Rattle.std.specs.Prelude.{◌≡◌, ◌==◌, [], length, IfOk};
ghost use Rattle.input_escapes.specs.EscapeTexts.{IsSound, KeptEscapes, kept_by};

mod bytes;
mod conditions;
mod fronts;
mod names;
mod stack;
mod texts;
mod waiting;

use crate::open_escape::HeldEscape;
use arrayvec::ArrayVec;
use std::alloc::{AllocError, Global};
use std::marker::Model;

/// Within so many names a further one isn't read.
const MOST_NAMES: usize = 8;

/// What is half read: a condition, names and texts within each other, and a backslash, a comment or
/// a size on top of them.
///
/// All its memory is reserved as it is made.
#[derive(Drop)]
pub struct OpenEscapes {
    /// The innermost at the back.
    items: ArrayVec<HeldEscape, 32>,
    /// The texts, behind each other.
    texts: Vec<u8>,
    room: u32,
}

impl Model for OpenEscapes {
    ghost use Rattle.input_escapes.specs.EscapeTexts.{IsSound, KeptEscapes, kept_by};

    ghost Value = { KeptEscapes };

    ghost view = { kept_by };

    ghost invariant = { IsSound };
}

impl OpenEscapes {
    /// Nothing is half read, with room for so many bytes of texts.
    pub fn new(alloc: Global, room: u32) -> Result<Self, AllocError>
        ensures { IfOk result (λ h. h ≡ record { escapes = []; room = room }) }
    {
        Ok(OpenEscapes {
            items: ArrayVec::new(),
            texts: Vec::with_capacity(alloc, room as usize)?,
            room,
        })
    }

    /// Whether nothing is half read.
    pub fn is_empty(&self) -> bool
        ensures { result ≡ (length self.now.escapes == 0) }
    {
        self.items.is_empty()
    }
}
