//! Laws of the lines of a table's picture (Lesk, "Tbl - A Program to Format Tables").
#![tactic(auto)]

pub mod piece_laws;
pub mod running_laws;
