//! The other branch of a condition, read or skipped at once behind the front of its line.

ghost use Rattle.std.specs.Prelude.{◌≡◌, ◌<◌, ◌≤◌};
ghost use Rattle.run_model.specs.Reading.Branches.{reads_else};
ghost use Rattle.read_shortcuts.specs.OtherBranches.{StandsOther, TakesOther};

use crate::control::{ControlFront, take_front};
use read_lines::Reader;
use roff_scan::{ByteSource, Unread};
use run_model::{LineState, PageEvent};

/// Takes a name of two bytes that stands for the other branch of a condition, with its dot or
/// apostrophe, and takes the result that was kept last: the branch begins, or is skipped.
#[inline(never)]
pub(super) fn take_other<S: ByteSource>(
    reader: &mut Reader,
    front: ControlFront,
    unread: &mut Unread<PageEvent>,
    source: &mut S,
)
    requires { StandsOther front reader.old.reading (S.ready source.old) unread.old }
    ensures takes { TakesOther (S.gives source.old) (S.gives source.new)
        reader.old reader.new unread.old unread.new }
    ensures taken { unread.old.input.charge < unread.new.input.charge }
    ensures notes { S.notes source.new ≤ S.notes source.old }
    ensures failures { S.failures source.new ≡ S.failures source.old }
{
    take_front(unread, source, 3);
    let so = is_read(unread.take_result());
    unread.stays_within();
    reader.go_on(LineState::branch(so));
}

/// Whether the other branch is read: a result was kept, and was that it isn't so.
#[inline(always)]
fn is_read(kept: Option<bool>) -> bool
    ensures { result ≡ reads_else kept }
{
    match kept {
        Some(so) => !so,
        None => false,
    }
}
