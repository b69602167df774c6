//! What names stand for before anything is read.

ghost use Rattle.std.specs.Prelude.{◌≡◌, IfOk};
ghost use Rattle.run_model.specs.Run.{first_unread};

use roff_num::{Limits, Name};
use roff_scan::Unread;
use roff_store::Entry;
use run_model::{PageEvent, Request};
use std::alloc::{AllocError, Global};

/// The unread input before anything is read: the requests have their names.
///
/// # Errors
///
/// [`AllocError`] if the memory for the limits can't be had.
pub fn first_unread(alloc: Global, limits: Limits) -> Result<Unread<PageEvent>, AllocError>
    ensures { IfOk result (λ u. u ≡ first_unread limits) }
{
    let mut unread = Unread::new(alloc, limits, Request::COUNT as u32)?;
    for number in 0..Request::COUNT {
        if let Some(request) = Request::numbered(number as usize) {
            let name = Name::new(&request.row().name).unwrap();
            let _ = unread.set(&name, Entry::Request(number));
        }
    }
    Ok(unread)
}
