//! Numbers: names, limits, rounding, expressions, and the formats of registers.
//!
//! Numbers count basic units, 240 to the inch (manual, sections 1.3 and 1.4).
#![tactic(auto)]

mod direction;
mod evaluation;
mod expression;
mod format;
pub mod lanes;
pub mod laws;
mod limit;
mod limits;
mod name;
mod num;
mod numeral;
mod operator;
mod short_name;
mod width;

pub use direction::Direction;
pub use evaluation::eval;
pub use format::{Format, NumText, read_format, write_num};
pub use limit::Limit;
pub use limits::Limits;
pub use name::Name;
pub use num::{Num, NumFault, Scale, round_h, round_v};
pub use short_name::ShortName;
pub use width::width_of_byte;
