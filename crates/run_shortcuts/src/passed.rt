//! What a run passed over at once.

ghost use Rattle.std.specs.Prelude.{◌≡◌, true};
ghost use Rattle.run_shortcuts.specs.Passed.{begins_behind, ended_behind};
ghost use Rattle.run_shortcuts.specs.declared.passed.Passed.TheVariants.{Not};

use run_model::Status;

/// What a run passed over at once, if it didn't end there.
#[derive(Clone, Copy)]
pub enum Passed {
    /// Nothing.
    Not,
    /// Bytes that stood in front, or none: an item is taken alone behind them.
    On,
    /// Bytes behind which a line begins.
    Line,
}

impl Passed {
    /// Whether a line begins behind it.
    #[inline(always)]
    pub fn begins_line(self) -> bool
        ensures { result ≡ begins_behind self }
    {
        match self {
            Passed::Not => false,
            Passed::On => false,
            Passed::Line => true,
        }
    }

    /// Whether it is nothing.
    #[inline(always)]
    pub fn is_nothing(self) -> bool
        ensures { result ≡ true → self ≡ Not }
    {
        match self {
            Passed::Not => true,
            Passed::On => false,
            Passed::Line => false,
        }
    }
}

/// That a line begins where the run goes on.
#[inline(always)]
pub(crate) fn ended_behind(done: Result<(), Status>) -> Result<Passed, Status>
    ensures { result ≡ ended_behind done }
{
    match done {
        Ok(()) => Ok(Passed::Line),
        Err(status) => Err(status),
    }
}
