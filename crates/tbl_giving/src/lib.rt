//! What is still to give of a table: its picture, by the walk or line by line, or its bytes as they
//! were read (Lesk, "Tbl - A Program to Format Tables").
#![tactic(auto)]

pub mod cuts;
pub mod frame;
pub mod giving;
pub mod line_by_line;
