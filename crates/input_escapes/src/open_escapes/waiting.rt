//! What a byte in front is waited for: whether it stays, and ends what is half read.

ghost use Rattle.std.specs.Prelude.{◌≡◌, true, false, drop, not, Some};
ghost use Rattle.input_escapes.specs.OpenEscapes.{reads_text, surroundings};
ghost use Rattle.input_escapes.specs.Waiting.{decides, ends_backslash, is_ended_by, is_of_size};
ghost use Rattle.input_escapes.specs.Waiting.{takes_backslash_alone, waiting_of};

use super::OpenEscapes;
use crate::conditions::{ends_at_backslash, ends_condition, is_read_in_arguments};
use crate::open_escape::{ConditionPart, HeldEscape, SizePart, Surroundings, Waiting};
use input_source::is_dropped;

impl OpenEscapes {
    /// Whether a condition decides, before anything is taken or seen.
    #[inline(always)]
    pub fn decides_now(&self) -> bool
        ensures { result ≡ decides (waiting_of Surroundings.Copy self.now.escapes) }
    {
        match self.top() {
            Some(HeldEscape::Condition(ConditionPart::Decided { .. }, _)) => true,
            _ => false,
        }
    }

    /// What the reading on top does at the next item; above a text line, above arguments, or in
    /// copy mode.
    #[inline(always)]
    pub fn waiting(&self, base: Surroundings) -> Waiting
        ensures { result ≡ waiting_of base self.now.escapes }
    {
        match self.top() {
            None => Waiting::Takes,
            Some(HeldEscape::Backslash) => {
                if self.is_read_as_text(base) {
                    Waiting::Takes
                } else {
                    Waiting::Waits
                }
            }
            Some(HeldEscape::Condition(ConditionPart::Decided { .. }, _)) => Waiting::Decides,
            Some(_) => Waiting::Waits,
        }
    }

    /// Whether what it sees there stays, and ends it: a byte, or nothing that can be read.
    #[inline(always)]
    pub fn is_ended_by(&self, seen: Option<u8>) -> bool
        ensures { result ≡ is_ended_by self.now.escapes seen }
    {
        match self.top() {
            None => false,
            Some(HeldEscape::Backslash) => self.takes_backslash_alone() && ends_backslash(seen),
            Some(HeldEscape::Size(part)) => match seen {
                Some(byte) => !is_of_size(part, byte),
                None => true,
            },
            Some(HeldEscape::Condition(part, _)) => ends_condition(part, seen),
            Some(_) => seen == Some(b'\n'),
        }
    }

    /// Whether what is half read waits for a byte, and goes on or is whole behind it: it doesn't
    /// decide first, and the byte doesn't stay. Of a backslash that is taken alone it says no.
    #[inline(always)]
    pub fn waits_for(&self, byte: u8) -> bool
        ensures { result ≡ true → is_ended_by self.now.escapes (Some byte) ≡ false }
    {
        match self.top() {
            None => false,
            Some(HeldEscape::Backslash) => !self.takes_backslash_alone(),
            Some(HeldEscape::Size(part)) => is_of_size(part, byte),
            Some(HeldEscape::Condition(part, _)) => !ends_condition(part, Some(byte)),
            Some(_) => byte != b'\n',
        }
    }

    /// Whether the byte behind the backslash on top is read as in text.
    #[inline(always)]
    fn is_read_as_text(&self, base: Surroundings) -> bool
        ensures { result ≡ reads_text (surroundings base (drop 1 self.now.escapes)) }
    {
        match self.below() {
            None => base.reads_text(),
            Some(HeldEscape::Width(_, _, is_deep)) => !is_deep,
            Some(_) => false,
        }
    }

    /// Whether the backslash on top is taken alone where its escape would be kept.
    #[inline(always)]
    fn takes_backslash_alone(&self) -> bool
        ensures { result ≡ takes_backslash_alone (drop 1 self.now.escapes) }
    {
        match self.below() {
            Some(HeldEscape::Condition(part, _)) => ends_at_backslash(part),
            _ => false,
        }
    }
}

/// Whether what is seen in front stays, and ends a backslash that is taken alone: a byte that isn't
/// read behind one in arguments.
fn ends_backslash(seen: Option<u8>) -> bool
    ensures { result ≡ ends_backslash seen }
{
    match seen {
        None => false,
        Some(byte) => !(is_read_in_arguments(byte) || is_dropped(byte)),
    }
}

/// Whether a byte belongs to a size of which so much is read.
fn is_of_size(part: SizePart, byte: u8) -> bool
    ensures { result ≡ is_of_size part byte }
{
    match part {
        SizePart::Nothing => byte == b'+' || byte == b'-' || byte.is_ascii_digit(),
        SizePart::Sign | SizePart::Digit => byte.is_ascii_digit(),
    }
}
