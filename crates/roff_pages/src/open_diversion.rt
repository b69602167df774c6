//! A diversion that is open.

use page_model::Trap;
use roff_num::ShortName;

/// What is kept of an open diversion. Its text is kept elsewhere.
#[derive(Clone, Copy)]
pub struct OpenDiversion {
    /// The name under which it was opened.
    pub name: ShortName,
    /// Whether its text is to be appended to what the name has.
    pub appends: bool,
    /// How many lines it has. No more than 2^33 are counted.
    pub height: u64,
    /// How wide its widest line is, in columns. No more than 2^33 are counted.
    pub width: u64,
    /// Its trap.
    pub trap: Option<Trap>,
    /// Whether no-space mode is on in it.
    pub no_space: bool,
}
