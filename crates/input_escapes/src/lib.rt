//! What is half read behind backslashes: names, sizes, texts, motions, widths and conditions.
#![tactic(auto)]

mod characters;
mod conditions;
pub mod escape_laws;
mod escapes;
mod measures;
mod open_escape;
mod open_escapes;

pub use characters::character;
pub use escapes::{Escape, NameUse, TextUse, escape_of};
pub use open_escape::{
    ConditionPart, CopyUnit, Decision, Found, NamePart, Remark, SizePart, Surroundings, Waiting,
};
pub use open_escapes::OpenEscapes;
