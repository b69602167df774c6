//! What was looked at of the source.

ghost use Rattle.std.specs.Prelude.{◌≡◌};
ghost use Rattle.input_model.specs.Looking.{closing, is_closed, is_nothing};

/// What was looked at of the source, and whether anything more is taken of it.
#[derive(Clone, Copy)]
pub enum Looked {
    /// Nothing: its next byte is the next one.
    Nothing,
    /// A byte that isn't taken yet.
    Byte(u8),
    /// Nothing more is taken of it; a byte that was looked at stays.
    Closed(Option<u8>),
}

impl Looked {
    /// Whether the source's next byte is the next one.
    #[inline(always)]
    pub fn is_nothing(self) -> bool
        ensures { result ≡ is_nothing self }
    {
        match self {
            Looked::Nothing => true,
            Looked::Byte(_) => false,
            Looked::Closed(_) => false,
        }
    }

    /// Whether nothing more is taken of the source.
    pub fn is_closed(self) -> bool
        ensures { result ≡ is_closed self }
    {
        match self {
            Looked::Nothing => false,
            Looked::Byte(_) => false,
            Looked::Closed(_) => true,
        }
    }

    /// What was looked at of the source, once nothing more is taken of it: a byte that was looked
    /// at stays.
    pub fn closing(self) -> Looked
        ensures { result ≡ closing self }
    {
        match self {
            Looked::Nothing => Looked::Closed(None),
            Looked::Byte(byte) => Looked::Closed(Some(byte)),
            Looked::Closed(kept) => Looked::Closed(kept),
        }
    }
}
