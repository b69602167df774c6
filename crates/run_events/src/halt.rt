//! What ends a run early.

use roff_num::Limit;

/// What ends a run early.
#[derive(Clone, Copy)]
pub enum Halt {
    /// An event would pass a limit; the item that meant it was taken.
    Limit(Limit),
    /// An item would pass a limit, and so isn't taken.
    Refused(Limit),
    /// The last page has ended, and the run with it.
    Over,
    /// The output failed.
    Output,
    /// The message sink failed.
    Messages,
}
