//! The pieces of which a table's picture is given, and those that are still to give (Lesk, "Tbl - A
//! Program to Format Tables").
#![tactic(auto)]

pub mod piece_queue;
pub mod pieces;
