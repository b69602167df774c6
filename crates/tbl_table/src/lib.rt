//! A table, line by line: what it is behind each of them, and what is given in its place (Lesk,
//! "Tbl").
#![tactic(auto)]

pub mod begun;
pub mod laws;
mod laying;
pub mod table;
pub mod table_steps;
pub mod worked_tables;
