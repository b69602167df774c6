//! The requests around a table's picture (Lesk, "Tbl": Options, Formatting).

ghost use Rattle.std.specs.Prelude.{◌≡◌, ℕ, ◌+◌, ◌-◌, ◌*◌, ◌<◌, ◌≤◌, ◌^◌, List, ◌++◌, length, take};
ghost use Rattle.std.specs.Prelude.{[], ◌∷◌, drop, vec_capacity, vec_len, if◌then◌else◌};
ghost use Rattle.tbl_giving.specs.Frame.{before_lines, behind_lines, indenting};

use itoa::Buffer;

/// The most bytes of the requests around a picture.
pub const FRAME: usize = 96;

/// Writes the requests around a picture that is indented by so many columns: what stands before it,
/// and behind that what stands after it. Answers where that begins.
pub fn write_frame(frame: &mut Vec<u8>, indent: u32) -> usize
    requires { 96 ≤ vec_capacity frame.old }
    ensures front { take result frame.new.items ≡ before_lines indent }
    ensures end { drop result frame.new.items ≡ behind_lines indent }
    ensures within { result ≤ length frame.new.items }
    ensures capacity { vec_capacity frame.old ≤ vec_capacity frame.new }
{
    frame.clear();
    append(frame, b".nr TF \\n(.u\n.nf\n");
    write_indent(frame, b"+", indent);
    let end = frame.len();
    write_indent(frame, b"-", indent);
    append(frame, b".if \\n(TF .fi\n");
    end
}

/// Writes the request that changes the indent, unless by nothing.
fn write_indent(frame: &mut Vec<u8>, sign: &[u8], indent: u32)
    requires sign { length sign.now ≤ 1 }
    requires room { vec_len frame.old + 17 ≤ vec_capacity frame.old }
    ensures items { frame.new.items ≡ frame.old.items ++ indenting sign.now indent }
    ensures few { vec_len frame.new ≤ vec_len frame.old + 17 }
    ensures capacity { vec_capacity frame.old ≤ vec_capacity frame.new }
{
    if indent == 0 {
        return;
    }
    append(frame, b".in ");
    append(frame, sign);
    append(frame, Buffer::new().format(indent).as_bytes());
    append(frame, b"n\n");
}

/// Adds bytes.
fn append(frame: &mut Vec<u8>, bytes: &[u8])
    requires { vec_len frame.old + length bytes.now ≤ vec_capacity frame.old }
    ensures items { frame.new.items ≡ frame.old.items ++ bytes.now }
    ensures capacity { vec_capacity frame.old ≤ vec_capacity frame.new }
{
    frame.extend_from_slice(bytes).unwrap();
}
