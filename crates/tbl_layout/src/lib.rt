//! What the lines of the data of a table say, and how wide its texts and columns are (Lesk, "Tbl -
//! A Program to Format Tables").
#![tactic(auto)]

pub mod bars;
pub mod columns;
pub mod data;
pub mod data_lines;
pub mod entry;
pub mod laws;
pub mod measures;
mod passing;
pub mod rule_keys;
mod spread;
pub mod widths;
pub mod worked_rows;
