//! What events do to the environments and pages of a run: lines are filled and placed, pages begin
//! and end, and macros spring.
#![tactic(auto)]

mod formatter;
mod halt;
mod sprung;

pub use formatter::Formatter;
pub use halt::Halt;
pub use sprung::{Left, Sprung};
