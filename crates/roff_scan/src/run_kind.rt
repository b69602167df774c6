//! Kinds of runs: bytes in front that do alike where something is read, and are taken together.

ghost use Rattle.std.specs.Prelude.{◌≡◌};
ghost use Rattle.roff_scan.specs.RunKinds.{has_newlines, is_held};

/// What the bytes of a run do.
#[derive(Clone, Copy)]
pub enum RunKind {
    /// Plain text of a text line is told, each byte as a glyph or a gap, by whoever has the lines:
    /// the unread input takes none by itself.
    Text,
    /// Leading blanks of a text line only count.
    Blanks,
    /// Bytes behind a request's name are held in the arguments of the line.
    Arguments,
    /// Bytes behind the name of a body are held in the arguments of the line, as long as fewer than
    /// so many arguments are whole.
    CallArguments(usize),
    /// Bytes in the front of an escape that reads a name change what is half read.
    Name,
    /// Bytes of a condition change what is half read, in which some are held.
    Condition,
    /// Plain text of a definition's line is put behind the newest text in the making.
    Definition,
    /// Plain text of an ignored line changes nothing.
    Ignored,
    /// All bytes but backslashes change nothing in a line that is dropped or a branch that is
    /// skipped, and within a block newlines neither; elsewhere a newline ends the line.
    Dropped { within_block: bool },
}

impl RunKind {
    /// Whether its bytes are held as they are read, and count in the limit on the stack.
    #[inline(always)]
    pub(crate) fn is_held(self) -> bool
        ensures { result ≡ is_held self }
    {
        match self {
            RunKind::Arguments => true,
            RunKind::CallArguments(_) => true,
            RunKind::Condition => true,
            _ => false,
        }
    }

    /// Whether newlines may be among its bytes.
    #[inline(always)]
    pub(crate) fn has_newlines(self) -> bool
        ensures { result ≡ has_newlines self }
    {
        match self {
            RunKind::Dropped { within_block } => within_block,
            _ => false,
        }
    }
}
