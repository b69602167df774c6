//! Bytes that are looked at in one step, a lane each: what the mask of a test of them says.

ghost use Rattle.std.specs.Prelude.{◌≡◌, ◌==◌, if◌then◌else◌};
ghost use Rattle.std.specs.Int.{w64, trailing_zeros};

/// How many bytes are looked at in one step.
pub const STEP: usize = 16;

/// The place of the lowest bit of a mask that is set, or behind all where none of so many is.
#[inline(always)]
pub fn first_set(mask: u64, lanes: usize) -> usize
    ensures { result ≡ (if mask == 0 then lanes else trailing_zeros w64 mask) }
{
    if mask == 0 {
        lanes
    } else {
        mask.trailing_zeros() as usize
    }
}
