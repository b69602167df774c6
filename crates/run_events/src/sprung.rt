//! What stopped a list of events.

ghost use Rattle.std.specs.Prelude.{◌≡◌, ◌+◌, ◌<◌, ◌≤◌};
ghost use Rattle.run_events.specs.Formatter.Sprung.{diverting, left_before, noted};
ghost use Rattle.run_events.specs.Formatter.Sprung.{sprung_before, sprung_behind, sprung_by};
ghost use Rattle.run_events.specs.Formatter.Sprung.{HasFew, StopsBehind, further, further_by};
ghost use Rattle.run_events.specs.Formatter.Sprung.{going_on, left_going_on};

use crate::halt::Halt;
use roff_num::ShortName;
use run_state::Due;

/// Why some events are left.
#[derive(Clone, Copy, PartialEq, Eq)]
pub enum Left {
    /// A macro was sprung.
    Springs,
    /// A macro was sprung, and the first event that is left is an eject that goes on.
    GoesOn,
    /// The text of a diversion is to be changed first.
    Diverts,
}

/// Which of some events are left behind the one that stopped the list, and why. The macro that it
/// sprang, and what becomes of a text, stand in the composer.
#[derive(Clone, Copy)]
pub struct Sprung {
    /// The index of the first of them.
    pub left: u8,
    /// Why they are left.
    pub why: Left,
}

impl Sprung {
    /// What came before an event sprang a macro: the event itself is left.
    pub(crate) fn in_front() -> Sprung
        ensures { result ≡ sprung_before }
    {
        Sprung {
            left: 0,
            why: Left::Springs,
        }
    }

    /// An event sprang a macro.
    pub(crate) fn behind() -> Sprung
        ensures { result ≡ sprung_behind }
    {
        Sprung {
            left: 1,
            why: Left::Springs,
        }
    }

    /// An event is done but for the text of a diversion.
    pub(crate) fn diverting() -> Sprung
        ensures { result ≡ diverting }
    {
        Sprung {
            left: 1,
            why: Left::Diverts,
        }
    }

    /// The macro that an event sprang, if it sprang one, is due.
    #[inline(always)]
    pub(crate) fn by(due: &mut Due, name: Option<ShortName>) -> Option<Sprung>
        ensures sprung { result ≡ sprung_by name }
        ensures noted { due.new ≡ noted name due.old }
    {
        match name {
            None => None,
            Some(name) => {
                due.sprung = Some(name);
                Some(Sprung::behind())
            }
        }
    }

    /// What came before an event stopped here: the event itself is left.
    pub(crate) fn before_event(self) -> Sprung
        ensures { result ≡ left_before self }
    {
        Sprung {
            left: 0,
            why: self.why,
        }
    }

    /// An eject that stopped here goes on behind the macro that it sprang: the eject itself is
    /// left.
    pub(crate) fn going_on(self) -> Sprung
        ensures { result ≡ going_on self }
    {
        Sprung {
            left: 0,
            why: Left::GoesOn,
        }
    }

    /// This stop of a list, with so many events more in front of it. No count is told beyond 255.
    pub fn further(self, count: u8) -> Sprung
        ensures told { self.left + count ≤ 255 → result ≡ further count self }
        ensures most { 255 < self.left + count → result ≡ record self { left = 255 } }
    {
        Sprung {
            left: self.left.saturating_add(count),
            why: self.why,
        }
    }
}

/// What was done of some events, where so many others were performed in front of them, if so many
/// can be told.
#[inline(always)]
pub(crate) fn further(done: Result<Option<Sprung>, Halt>, count: u8) -> Result<Option<Sprung>, Halt>
    ensures told { HasFew done count → result ≡ further_by count done }
    ensures least { 1 ≤ count → StopsBehind result }
{
    match done {
        Ok(None) => Ok(None),
        Ok(Some(sprung)) => Ok(Some(sprung.further(count))),
        Err(halt) => Err(halt),
    }
}

/// What was done of an eject, which goes on behind what it sprang, if it does.
pub(crate) fn left_going_on(
    done: Result<Option<Sprung>, Halt>,
    goes_on: bool,
) -> Result<Option<Sprung>, Halt>
    ensures { result ≡ left_going_on goes_on done }
{
    match done {
        Ok(None) => Ok(None),
        Ok(Some(sprung)) => {
            if goes_on {
                Ok(Some(sprung.going_on()))
            } else {
                Ok(Some(sprung))
            }
        }
        Err(halt) => Err(halt),
    }
}
