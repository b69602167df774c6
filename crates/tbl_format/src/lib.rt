//! What the format of a table says, and the limits of tables (Lesk, "Tbl - A Program to Format
//! Tables").
#![tactic(auto)]

pub mod cells;
mod columns_asked;
pub mod format;
mod format_parts;
pub mod format_rows;
pub mod format_step;
pub mod key_count;
pub mod laws;
pub mod left_out;
pub mod limits;
pub mod part_starts;
pub mod worked_formats;
