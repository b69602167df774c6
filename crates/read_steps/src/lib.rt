//! What each byte of the input means, by single steps, up to what a request's line does.
#![tactic(auto)]

mod arguments;
mod bytes;
mod control_lines;
mod definitions;
mod ends;
mod found;
mod half_read;
mod line_ends;
mod reading;
mod titles;

pub use bytes::read_on_line;
pub use ends::{end_escape, end_line_of_input};
pub use line_ends::{end_break, end_call_line, end_request};
pub use reading::{read, read_half};
pub use titles::take_title_front;
