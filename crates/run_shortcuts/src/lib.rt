//! Bytes that a run takes together: fronts of lines, whole lines, and text that is told at once.
//! They lead to where as many single turns do.
#![tactic(auto)]

mod arguments;
mod beginnings;
mod conditions;
mod copied;
mod fronts;
mod glyphs;
mod line_ends;
mod passed;
mod passing;
mod stepping;
mod unfilled;

pub use beginnings::{begin_text_at_once, tell_behind};
pub use passed::Passed;
pub use passing::pass_over;
