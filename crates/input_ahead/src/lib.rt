//! What stands ahead of the source: pushed texts, bodies, their ends, and events that were put
//! back.
#![tactic(auto)]

mod input_ahead;
mod pushed_texts;

pub use input_ahead::InputAhead;
