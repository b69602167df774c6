//! Results of conditions that are read at once, kept for their other branch.

ghost use Rattle.std.specs.Prelude.{◌≡◌, true, false};
ghost use Rattle.input_model.specs.Input.Calls.{without_last};
ghost use Rattle.read_shortcuts.specs.KeptResults.{kept_unread};

use roff_scan::Unread;
use run_model::PageEvent;

/// Keeps the result of a condition, if it is to be kept, and the limit on those allows it. Returns
/// whether the condition may be taken.
#[inline(always)]
pub(super) fn keep_if(keeps: bool, so: bool, unread: &mut Unread<PageEvent>) -> bool
    ensures kept { result ≡ true → unread.new ≡ kept_unread keeps so unread.old }
    ensures unchanged { result ≡ false → unread.new ≡ unread.old }
{
    if !keeps {
        return true;
    }
    match unread.keep_result(so) {
        Ok(()) => true,
        Err(_) => false,
    }
}

/// Keeps a result no more that was kept so.
#[inline(always)]
pub(super) fn forget_if(keeps: bool, unread: &mut Unread<PageEvent>)
    ensures kept { keeps ≡ true → unread.new
        ≡ record unread.old { input = without_last unread.old.input } }
    ensures unchanged { keeps ≡ false → unread.new ≡ unread.old }
{
    if keeps {
        let _ = unread.take_result();
    }
}
