//! The number registers of a run, in code, its titles, and numbers as arguments.
#![tactic(auto)]

mod lasting;
mod number;
mod registers;
mod titles;

pub use lasting::{Change, Lasting};
pub use number::{
    COLUMN, LINE, height_beside, height_in, lines_in, rounded_to_columns, rounded_to_lines,
    value_beside, value_in,
};
pub use registers::{Facts, Interpolated, RunRegisters, is_page, page_name};
pub use titles::Titles;
