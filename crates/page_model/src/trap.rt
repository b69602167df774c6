//! Traps (manual, sections 7.4 and 7.5).

use roff_num::ShortName;

/// A trap: where it is planted, and what is sprung there.
#[derive(Clone, Copy)]
pub struct Trap {
    /// The place as it was given, in lines. On a page one below 0 counts from the page's end.
    pub place: i32,
    /// The name of the macro.
    pub name: ShortName,
}
