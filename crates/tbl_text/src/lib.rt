//! The texts of a table: their items, as the formatter reads them, and what they measure (Lesk,
//! "Tbl - A Program to Format Tables").
#![tactic(auto)]

pub mod block_laws;
pub mod block_lines;
pub mod block_parts;
pub mod block_words;
pub mod fitted;
pub mod items;
pub mod laws;
pub mod measure;
mod plain;
