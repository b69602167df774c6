//! The words of a command line.

ghost use Rattle.std.specs.Prelude.{◌≡◌, ⊤, ℕ, List, IfErr, IfOk, map, string_bytes};
ghost use Rattle.roff_tools.specs.StartFault.{NamesWords};

use crate::fault::StartFault;
use std::alloc::Global;
use std::rt::Env;
use std::{env, io};

/// Where the words of a command line come from.
pub trait Words {
    /// What they may be.
    ghost says: { Self → List (List ℕ) → Type 0 };

    /// The words, of which the first names the program.
    ///
    /// # Errors
    ///
    /// [`StartFault`] if there is no memory for them, or if one isn't UTF-8 text.
    fn words(&self, alloc: Global) -> Result<Vec<String>, StartFault>
        ensures words { IfOk result (λ words. says self.now (map string_bytes words.items)) }
        ensures fault { IfErr result NamesWords };
}

// Of the system nothing is known.
impl<R: Env + AllocGlobal> Words for R {
    ghost says = { λ _ _. ⊤ };

    fn words(&self, alloc: Global) -> Result<Vec<String>, StartFault> {
        match env::args(self) {
            Ok(words) => Ok(words.collect(alloc)?),
            Err(error) if error.kind() == io::ErrorKind::OutOfMemory => Err(
                StartFault::OutOfMemory,
            ),
            Err(_) => Err(StartFault::NotText),
        }
    }
}
