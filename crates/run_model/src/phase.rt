//! How far a run has come with its input.

/// How far a run has come with its input.
#[derive(Clone, Copy)]
pub enum Phase {
    /// The input is read.
    Reading,
    /// It has ended, and behind it the last macro is read.
    LastMacro,
    /// That has ended too, and the pending line is placed.
    Closing,
}
