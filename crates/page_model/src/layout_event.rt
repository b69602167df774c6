//! What happens to the layout, but for lines and titles.

use crate::trap::Trap;
use roff_num::{Num, ShortName};

/// What happens to the layout of pages, but for lines and titles. Vertical lengths are in lines,
/// and the page offset in columns.
#[derive(Clone, Copy)]
pub enum LayoutEvent {
    /// The pages of these numbers, and those between them, are written. Without any such range all
    /// are, and of more than 32 the others are ignored.
    ListPages(Num, Num),
    /// The first page begins. Those behind it begin by themselves.
    Begin,
    /// The closing phase begins: open diversions are dropped, and no page begins any more by
    /// itself.
    Close,
    /// So many blank lines, unless no-space mode is on (manual, section 5.3, the request `sp`).
    Space(u32),
    /// So many lines are to stand together: what is left is spaced where it is less (`ne`).
    Need(u32),
    /// The page is ejected that is the one of this number in turn, unless no-space mode is on
    /// (manual, section 3, the request `bp`).
    Eject(u32),
    /// The page is ejected that is the one of the first number in turn, in no-space mode too; the
    /// next page gets the second number (`bp` with an argument).
    EjectTo(u32, Num),
    /// Ejecting the page of this number in turn goes on behind a macro that was sprung.
    EjectOn(u32),
    /// The page is ejected at the end of the closing phase.
    EjectLast,
    /// The page length (`pl`).
    Length(u32),
    /// The page offset (`po`).
    Offset(u32),
    /// The number of the next page (`pn`).
    Next(Num),
    /// The number of this page, as it is set like a register's.
    Number(Num),
    /// No-space mode goes on (`ns`) or off (`rs`).
    NoSpace(bool),
    /// A trap is planted on pages (`wh`): it takes the place in turn of one with the same place as
    /// given.
    Plant(Trap),
    /// The trap that is planted at this place is removed.
    Uproot(i32),
    /// The first trap of this name is moved to this place (`ch`).
    MoveTrap(ShortName, i32),
    /// The first trap of this name is removed.
    RemoveTrap(ShortName),
    /// The innermost open diversion gets this trap (`dt`).
    DiversionTrap(Trap),
    /// The innermost open diversion has no trap any more.
    NoDiversionTrap,
    /// A diversion is opened under this name (`di`), and whether it is to be appended (`da`).
    Divert(ShortName, bool),
    /// The innermost open diversion ends.
    EndDivert,
}
