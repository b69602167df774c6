//! Cells of several rows: what is left of them from row to row, and the lines on which they stand
//! (Lesk, "Tbl - A Program to Format Tables").
#![tactic(auto)]

mod band;
pub mod band_laws;
mod in_front;
pub mod laws;
mod lines_over;
mod next_cells;
pub mod rule_laws;
mod shown_bars;
mod stops;
pub mod tall_row;
