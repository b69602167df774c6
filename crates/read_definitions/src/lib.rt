//! Lines of a definition, and ignored ones, that are copied together.
#![tactic(auto)]

mod copied;

pub use copied::take_lines;
