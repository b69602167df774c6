//! The lines of a macro's definition, as they are copied, up to the one that ends it.

ghost use Rattle.std.specs.Prelude.{◌≡◌, ◌∷◌, [], drop};
ghost use Rattle.run_model.specs.Definitions.{end_mark, ends_mark, front_of, line_from, line_with};
ghost use Rattle.run_model.specs.Definitions.{matched_behind};

use arrayvec::ArrayVec;
use input_escapes::CopyUnit;
use roff_num::ShortName;

/// What a line of a definition is, as far as it was read.
#[derive(Clone, Copy)]
pub enum DefinitionLine {
    /// It may be the last line: so many bytes of the mark stand in front, and nothing else.
    MayBeLast(u8),
    /// It is the last line, and this byte stands behind the mark.
    IsLast(u8),
    /// It is a line of the macro.
    IsText,
}

/// What stands in front of the line that ends a definition: a dot and a name, or two dots.
#[derive(Drop)]
pub struct EndMark {
    bytes: ArrayVec<u8, 3>,
}

impl EndMark {
    /// The mark of the line that ends a definition, with this name, or with two dots.
    pub fn of(end: Option<ShortName>) -> EndMark
        ensures { result.bytes.items ≡ end_mark end }
    {
        let mut bytes = ArrayVec::new();
        bytes.push(b'.');
        match end {
            None => bytes.push(b'.'),
            Some(name) => {
                bytes.push(name.first);
                if let Some(second) = name.second {
                    bytes.push(second);
                }
            }
        }
        EndMark { bytes }
    }

    /// So many bytes of it, which stand in front of a line.
    pub fn front(&self, matched: Option<u8>) -> &[u8]
        ensures { result.now ≡ front_of self.now.bytes.items matched }
    {
        match matched {
            None => &[],
            Some(matched) => &self.bytes[..(matched as usize).min(self.bytes.len())],
        }
    }

    /// What a unit makes of a line, behind so many bytes of the mark, if the line may be the last
    /// one.
    pub fn line_with(&self, matched: Option<u8>, unit: CopyUnit) -> DefinitionLine
        ensures { result ≡ line_from self.now.bytes.items matched unit }
    {
        let Some(matched) = matched else {
            return DefinitionLine::IsText;
        };
        match unit {
            CopyUnit::Byte(byte) => self.line_with_byte(matched, byte),
            CopyUnit::Kept(byte) => match self.line_with_byte(matched, b'\\') {
                DefinitionLine::MayBeLast(matched) => self.line_with_byte(matched, byte),
                line => line,
            },
        }
    }

    /// What a byte makes of a line of which so many bytes of the mark are read, and nothing else.
    fn line_with_byte(&self, matched: u8, byte: u8) -> DefinitionLine
        ensures { result ≡ line_with (drop matched self.now.bytes.items) matched (byte ∷ []) }
    {
        match self.bytes.get(matched as usize) {
            None if ends_mark(byte) => DefinitionLine::IsLast(byte),
            Some(next) if *next == byte => DefinitionLine::MayBeLast(matched + 1),
            _ => DefinitionLine::IsText,
        }
    }
}

/// Whether a byte may stand behind the mark.
fn ends_mark(byte: u8) -> bool
    ensures { result ≡ ends_mark byte }
{
    byte == b' ' || byte == b'\t' || byte == b'\n'
}

/// How many bytes of the mark stand in front of the line behind a unit of the text.
pub fn matched_behind(unit: CopyUnit) -> Option<u8>
    ensures { result ≡ matched_behind unit }
{
    match unit {
        CopyUnit::Byte(b'\n') => Some(0),
        _ => None,
    }
}
