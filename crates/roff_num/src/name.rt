//! Names of requests, macros, strings, diversions and registers.

ghost use Rattle.std.specs.Prelude.{◌≡◌, ◌≤◌, ◌==◌, ℕ, List, Option, IsTrue, ◌↔◌, length};
ghost use Rattle.roff_num.specs.Clauses.{name_of};
ghost use Rattle.roff_num.specs.Names.{IsCode};

use arrayvec::ArrayVec;
use std::marker::Model;

/// A name: 1 to 12 bytes.
#[derive(Drop)]
pub struct Name {
    bytes: ArrayVec<u8, 12>,
    /// A number of its own for a name of one or two bytes, and 0 for a longer one.
    code: u32,
}

impl Model for Name {
    ghost Value = { List ℕ };

    ghost view = { λ n. n.bytes.items };

    ghost invariant = { λ n. (1 ≤ length n.bytes.items) × IsCode n.code n.bytes.items };
}

impl Name {
    /// The name of these bytes, or nothing where there are none or more than 12.
    pub fn new(bytes: &[u8]) -> Option<Name>
        ensures { result ≡ name_of bytes.now }
    {
        if bytes.is_empty() {
            return None;
        }
        let mut kept = ArrayVec::new();
        match kept.try_extend_from_slice(bytes) {
            Ok(()) => Some(Name {
                bytes: kept,
                code: code_of(bytes),
            }),
            Err(_) => None,
        }
    }

    /// The name's bytes.
    pub fn as_bytes(&self) -> &[u8]
        ensures value { result.now ≡ self.now }
        ensures at_least_one { 1 ≤ length result.now }
        ensures at_most_twelve { length result.now ≤ 12 }
    {
        self.bytes.as_slice()
    }

    /// Whether two names are the same, byte by byte.
    #[inline(always)]
    pub fn is_same(&self, other: &Name) -> bool
        ensures { IsTrue result ↔ (self.now ≡ other.now) }
    {
        if self.code != other.code {
            return false;
        }
        self.code != 0 || self.as_bytes() == other.as_bytes()
    }
}

/// A number of its own for one or two bytes, and 0 for others.
#[inline(always)]
fn code_of(bytes: &[u8]) -> u32
    ensures { IsCode result bytes.now }
{
    match bytes {
        [first] => u32::from(*first) + 0x10000,
        [first, second] => u32::from(*first) + 256 * u32::from(*second) + 0x20000,
        _ => 0,
    }
}
