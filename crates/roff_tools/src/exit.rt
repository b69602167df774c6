//! How the program ends.

ghost use Rattle.std.specs.Prelude.{◌≡◌};
ghost use Rattle.roff_tools.specs.Clauses.{exit_after, exit_number};

use crate::Status;

/// How the program ends.
#[derive(Clone, Copy)]
pub enum Exit {
    /// All is done.
    Done,
    /// The command line is wrong, or the run could not start.
    NotStarted,
    /// Reading or writing failed.
    DeviceFailed,
    /// A limit ended the run.
    LimitReached,
    /// A request aborted the run.
    Aborted,
}

impl Exit {
    /// How the program ends after a run that ended so.
    pub fn after(status: Status) -> Exit
        ensures { result ≡ exit_after status }
    {
        match status {
            Status::Done => Exit::Done,
            Status::Device => Exit::DeviceFailed,
            Status::Aborted => Exit::Aborted,
            Status::Limit(_) => Exit::LimitReached,
        }
    }

    /// The status that the caller of the program sees.
    pub fn number(self) -> u8
        ensures { result ≡ exit_number self }
    {
        match self {
            Exit::Done => 0,
            Exit::NotStarted => 1,
            Exit::DeviceFailed => 2,
            Exit::LimitReached => 3,
            Exit::Aborted => 4,
        }
    }
}
