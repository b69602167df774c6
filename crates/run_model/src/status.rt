//! How runs end.

use roff_num::Limit;

/// How a run ended.
#[derive(Clone, Copy, Debug, PartialEq, Eq)]
pub enum Status {
    /// At the end of its input.
    Done,
    /// At a fault of the source or of a sink.
    Device,
    /// At the request that aborts it.
    Aborted,
    /// At a limit.
    Limit(Limit),
}
