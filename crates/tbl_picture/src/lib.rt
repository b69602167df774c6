//! The lines of a table's picture, a piece of them at a time, where no cell has several rows (Lesk,
//! "Tbl - A Program to Format Tables").
#![tactic(auto)]

pub mod walk;
