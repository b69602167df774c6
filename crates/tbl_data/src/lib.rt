//! What the lines of the data of a table add to it, and how that is kept (Lesk, "Tbl - A Program to
//! Format Tables").
#![tactic(auto)]

mod data_fields;
mod data_line;
pub mod data_lines;
pub mod laws;
pub mod phase;
pub mod served;
pub mod table_data;
