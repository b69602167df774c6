//! A line on which cells of several rows stand: what is left of its cells, and how it is laid
//! (Lesk, "Tbl - A Program to Format Tables").
#![tactic(auto)]

mod block_places;
pub mod cells;
pub mod laid_cells;
pub mod line_cells;
mod row_cells;
mod rule_cells;
mod rule_places;
pub mod running;
