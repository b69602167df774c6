//! What is kept of a table as it is read: its bytes, its messages and its rows (Lesk, "Tbl - A
//! Program to Format Tables").
#![tactic(auto)]

pub mod held_columns;
pub mod laws;
pub mod rows;
pub mod table_notes;
pub mod table_text;
