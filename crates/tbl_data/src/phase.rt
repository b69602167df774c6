//! What of a table is read.

/// What of a table is read.
#[derive(Clone, Copy)]
pub enum Phase {
    /// Its first line.
    AtHead,
    /// A line of its format.
    InFormat,
    /// Its data.
    InData,
    /// Lines behind one that can't be formatted.
    Bad,
}
