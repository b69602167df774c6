//! What is left out of a format, as it is reported.

ghost use Rattle.std.specs.Prelude.{◌≡◌, ℕ, ◌+◌, ◌<◌, ◌≤◌, ◌++◌, ◌^◌, length, map, vec_len};
ghost use Rattle.std.specs.Prelude.{vec_capacity};
ghost use Rattle.tbl_format.specs.Format.{Format, if_letter, letters_left_out};
ghost use Rattle.tbl_format.specs.KeyCounts.{Counts, IsCount};
ghost use Rattle.tbl_options.specs.Notes.{left_out_note};

use crate::key_count::KeyCount;
use tbl_options::notes::{Cause, KeptNote};

/// Keeps a message for each letter that is left out of a line of the format, behind what is counted
/// of the lines before it.
pub fn push_left_out(notes: &mut Vec<KeptNote>, count: KeyCount, bytes: &[u8], line: u32)
    requires is { IsCount 0 count }
    requires few { count.columns + length bytes.now < 2 ^ 63 }
    requires room { vec_len notes.old + length bytes.now ≤ vec_capacity notes.old }
    ensures items { (f : Format) → Counts f count → notes.new.items
        ≡ notes.old.items ++ map (left_out_note line) (letters_left_out f bytes.now) }
    ensures capacity { vec_capacity notes.new ≡ vec_capacity notes.old }
{
    let mut before = count;
    for at in 0..bytes.len() {
        push_letter(notes, before.left_out_at(&bytes[..at], bytes[at]), line);
        before = before.behind(&bytes[..at], bytes[at]);
    }
}

/// Keeps a message for a letter, if there is one.
fn push_letter(notes: &mut Vec<KeptNote>, letter: Option<u8>, line: u32)
    requires room { vec_len notes.old < vec_capacity notes.old }
    ensures items { notes.new.items
        ≡ notes.old.items ++ map (left_out_note line) (if_letter letter) }
    ensures few { vec_len notes.new ≤ vec_len notes.old + 1 }
    ensures capacity { vec_capacity notes.new ≡ vec_capacity notes.old }
{
    match letter {
        Some(letter) => notes.push_reserved(KeptNote {
            line,
            cause: Cause::LeftOut(letter),
        }),
        None => {}
    }
}
