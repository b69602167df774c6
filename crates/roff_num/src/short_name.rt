//! Names of one or two bytes.

ghost use Rattle.std.specs.Prelude.{◌≡◌};
ghost use Rattle.roff_num.specs.ShortNames.{name_bytes, short_name};

use crate::name::Name;

/// A name of one or two bytes.
#[derive(Clone, Copy)]
pub struct ShortName {
    /// The first byte.
    pub first: u8,
    /// The second one, if it has two.
    pub second: Option<u8>,
}

impl ShortName {
    /// The name that an argument gives: its first two bytes.
    pub fn of(text: &[u8]) -> Option<ShortName>
        ensures { result ≡ short_name text.now }
    {
        let first = text.first()?;
        Some(ShortName {
            first: *first,
            second: text.get(1).copied(),
        })
    }

    /// This name as one of any length: its one or two bytes.
    #[inline(always)]
    pub fn name(self) -> Name
        ensures { result ≡ name_bytes self }
    {
        // The compiler knows how long each of them is.
        match self.second {
            Some(second) => Name::new(&[self.first, second]).unwrap(),
            None => Name::new(&[self.first]).unwrap(),
        }
    }
}
