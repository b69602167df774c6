//! The unread input: what stands in front of a source, what is half read there, and the arguments
//! of a line. It passes on the public names of the crates below it.
#![tactic(auto)]

mod run_kind;
mod unread;

pub use input_arguments::ArgumentList;
pub use input_escapes::{
    ConditionPart, CopyUnit, Decision, Escape, Found, NamePart, NameUse, Remark, SizePart,
    Surroundings, TextUse, Waiting, character, escape_of,
};
pub use input_model::{Item, Looked, Place, Sight};
pub use input_source::{ByteSource, Note, ReadSource, Taken, is_dropped, is_silent, text_in_front};
pub use run_kind::RunKind;
pub use unread::{BehindHeld, Unread, standing_at};
