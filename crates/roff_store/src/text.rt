//! What a name stands for, and how texts in the making and leases are called (manual, section 7).

/// What a name stands for.
#[derive(Clone, Copy)]
pub enum Entry<'a> {
    /// A string, macro or diversion: its bytes.
    Body(&'a [u8]),
    /// A request: its number.
    Request(u16),
}

/// What a name stands for, without the bytes.
#[derive(Clone, Copy, PartialEq, Eq)]
pub enum Kind {
    /// A string, macro or diversion: how many bytes it has.
    Body(usize),
    /// A request: its number.
    Request(u16),
}

/// How long the body of a name is, and what it ends in.
#[derive(Clone, Copy)]
pub struct BodyEnd {
    /// How many bytes it has; none where the name has no body.
    pub len: usize,
    /// The last of them, if there is one.
    pub last: Option<u8>,
}

/// A text in the making, by its number: the oldest is 0.
#[derive(Clone, Copy)]
pub struct OpenId(pub usize);

/// A lease on a body, by its number.
#[derive(Clone, Copy, PartialEq, Eq)]
pub struct LeaseId(pub u32);

/// What came of leasing a body by how many bytes it has.
#[derive(Clone, Copy)]
pub enum Leased {
    /// The lease, and the last byte of the body, if there is one.
    Body(LeaseId, Option<u8>),
    /// Nothing: the name has no body, or too short a one.
    Nothing,
    /// Nothing: the body has too many bytes.
    Long,
}
