//! What the bytes of a line are collected for.

ghost use Rattle.std.specs.Prelude.{◌≡◌};
ghost use Rattle.run_model.specs.Reading.Units.{collects_arguments};

use crate::request::Request;
use roff_num::ShortName;

/// What the bytes of a line are collected for, up to the line's end.
#[derive(Clone, Copy)]
pub enum Purpose {
    /// The arguments of a request, behind its name; it breaks behind a dot.
    Arguments {
        breaks: bool,
        request: Request,
    },
    /// The arguments of a line that calls the body of this name.
    Calling {
        name: ShortName,
    },
    /// The name of a string, which may be appended to.
    StringName {
        appends: bool,
    },
    /// A string's text, of a string with this name, and whether it is in front of it.
    StringText {
        name: Option<ShortName>,
        appends: bool,
        is_front: bool,
    },
    /// The text of a message, which may abort the run, and whether it is in front of it.
    Telling {
        aborts: bool,
        is_front: bool,
    },
    /// The text of a definition: what gets it, if anything does, whether it is put behind that, the
    /// name that its last line has, and how many bytes of that line's mark stand in front of a line
    /// that may be the last one.
    Defining {
        name: Option<ShortName>,
        appends: bool,
        end: Option<ShortName>,
        matched: Option<u8>,
    },
}

impl Purpose {
    /// Whether arguments are collected, in which a quote may wait for another one: of a request, of
    /// a call, or those of which a string's name is the first.
    #[inline(always)]
    pub fn collects_arguments(self) -> bool
        ensures { result ≡ collects_arguments self }
    {
        match self {
            Purpose::Arguments { .. } => true,
            Purpose::Calling { .. } => true,
            Purpose::StringName { .. } => true,
            _ => false,
        }
    }
}
