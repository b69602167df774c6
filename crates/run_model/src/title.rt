//! Titles: the part of one that is read, and which one is placed.

/// The part of a title that is read, or whose bytes come next (manual, section 14).
#[derive(Clone, Copy)]
pub enum TitlePart {
    /// The part on the left.
    Left,
    /// The part in the centre.
    Centre,
    /// The part on the right.
    Right,
}

/// Which title is placed.
#[derive(Clone, Copy)]
pub enum WhichTitle {
    /// The one that was read last.
    Read,
    /// The one that was kept as a macro sprang in front of it, which may read titles of its own.
    Kept,
}
