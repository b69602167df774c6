//! Why a run could not start.

use std::alloc::{AllocError, AllocFailed};

/// Why a run could not start.
#[derive(Debug, Drop)]
pub enum StartFault {
    /// The file of this name, one of those on the command line, cannot be opened.
    CannotOpen(String),
    /// This text, on the command line, is no list of pages, or has too many ranges.
    BadPages(String),
    /// This text, on the command line, asks for no number register, or for one too many.
    BadRegister(String),
    /// A word of the command line is not UTF-8 text.
    NotText,
    /// There is no memory for what is reserved before the run.
    OutOfMemory,
}

impl StartFault {
    ghost use Rattle.std.specs.Prelude.{◌≡◌, ◌++◌};
    ghost use Rattle.roff_tools.specs.StartFault.{fault_text};

    /// What is told of it: words, and the text of the command line that they speak of.
    pub(crate) fn told(&self) -> (&str, &str)
        ensures { result.0.now ++ result.1.now ≡ fault_text self.now }
    {
        match self {
            StartFault::CannotOpen(name) => ("cannot open ", name.as_str()),
            StartFault::BadPages(text) => ("bad page list: ", text.as_str()),
            StartFault::BadRegister(text) => ("bad register: ", text.as_str()),
            StartFault::NotText => ("an argument is not UTF-8 text", ""),
            StartFault::OutOfMemory => ("out of memory", ""),
        }
    }
}

impl From<AllocError> for StartFault {
    ghost use Rattle.std.specs.Prelude.{◌≡◌};
    ghost use Rattle.roff_tools.specs.declared.fault.StartFault.TheVariants.{OutOfMemory};

    ghost from_gives = { λ _ fault. fault ≡ OutOfMemory };

    fn from(_error: AllocError) -> StartFault {
        StartFault::OutOfMemory
    }
}

impl<T: Drop> From<AllocFailed<T>> for StartFault {
    ghost use Rattle.std.specs.Prelude.{◌≡◌};
    ghost use Rattle.roff_tools.specs.declared.fault.StartFault.TheVariants.{OutOfMemory};

    ghost from_gives = { λ _ fault. fault ≡ OutOfMemory };

    fn from(_refused: AllocFailed<T>) -> StartFault {
        StartFault::OutOfMemory
    }
}
