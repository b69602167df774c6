//! Lines: what one environment keeps of a text, and the lines that it finishes.
//!
//! An environment is told glyphs, gaps, word ends, line ends, breaks and changes of its parameters.
//! It fills and adjusts lines as the manual's section 4 says, and hands out each line once it is
//! finished. What a finished line writes is in `page_bytes`.
#![tactic(auto)]

mod copying;
mod env;
mod fill;
mod glyph;
mod lanes;
mod shape;
mod stops;
mod stretch;
mod title;
mod words;

pub use env::Env;
pub use fill::{Word, fill_words, width_of_line};
pub use glyph::ends_sentence_behind;
pub use lanes::{HALF_STEP, glyphs_of_half_step, glyphs_of_step};
pub use roff_num::lanes::STEP;
pub use title::place_title;
pub use words::count_of_glyphs;
