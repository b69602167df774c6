//! What a request does with the arguments of its line: to the registers, and to what names stand
//! for; and the meaning that is kept of it.
#![tactic(auto)]

mod acting;
mod lengths;
mod numbering;
mod registers;
mod telling;

pub use acting::act;
