//! The arguments of control lines, and of the bodies that lines called.
#![tactic(auto)]

mod arguments;
mod calls;
pub mod laws;

pub use arguments::{ArgumentList, ArgumentTexts, bytes_of};
pub use calls::Calls;
