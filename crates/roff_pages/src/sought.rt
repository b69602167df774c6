//! Which trap is sought.

use roff_num::ShortName;

/// Which trap is sought: the first of these.
#[derive(Clone, Copy)]
pub(crate) enum Sought {
    /// Those that were given this place.
    Given(i32),
    /// Those of this name.
    Named(ShortName),
    /// Those that lie at this place of a page of this length.
    Lying(u32, u64),
}
