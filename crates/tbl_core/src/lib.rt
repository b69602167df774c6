//! Tables: a source in which each table is replaced by its picture (Lesk, "Tbl - A Program to
//! Format Tables").
#![tactic(auto)]

mod gathered;
pub mod laws;
mod place;
mod source;
mod tables;

pub use gathered::GatheredSource;
pub use source::TblSource;
pub use tbl_format::limits::TblLimits;
pub use tbl_options::message::{Message, OptionText, Told};
pub use tbl_table::worked_tables;
