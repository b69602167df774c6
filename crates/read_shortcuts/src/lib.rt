//! Short ways of reading: bytes in front that do alike are taken together, to where as many single
//! steps lead.
#![tactic(auto)]

mod answered;
mod compared;
mod conditions;
mod control;
mod dropped;
mod kept;
mod other_branch;
mod registers;
mod runs;
mod short_names;
mod silent_escapes;
mod stepped;
mod strings;
mod strings_ahead;

pub use control::{ControlRead, begins_control_line, read_control_front};
pub use registers::{TextAhead, hold_text, pass_text, text_ahead};
pub use roff_scan::RunKind;
pub use runs::{run_half_read, run_kind, take_arguments, take_branch_blanks, take_run};
pub use short_names::read_short_front;
pub use silent_escapes::{are_argument_bytes, silent_escape, take_silent_escape};
pub use stepped::step_register;
pub use strings::{begins_apart, take_string_front, take_string_name};
pub use strings_ahead::put_string;
