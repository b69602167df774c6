//! Pages: where lines, titles and blank lines stand, what springs, and what is written.
//!
//! A layout has pages with their traps, and diversions. It knows lines and no input: it is told
//! what happens, one happening after another, and says what that puts, and which macro is sprung
//! (manual, sections 3, 5, 7.4, 7.5 and 14). What is written goes to a sink, through a block.
#![tactic(auto)]

pub mod laws;
mod line_width;
mod open_diversion;
mod pages;
pub mod rows;
mod sought;
mod stops;
mod traps;

pub use page_bytes::{
    Block, BlockWrite, ByteSink, PAGE_NUMBER, PageFault, SinkFault, StdWrite, TitleLine,
    TitlePiece, TitlePieces, WriteSink,
};
pub use pages::Pages;
