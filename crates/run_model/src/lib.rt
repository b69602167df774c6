//! What a run of the formatter is: a machine of small steps over the unread input, as `specs/` has
//! it. In code: the state of a line, the table of requests, events and messages.
#![tactic(auto)]

mod definition;
mod environment_number;
mod event;
mod line_state;
mod message;
mod names;
mod phase;
mod purpose;
mod query;
mod request;
mod start;
mod status;
mod step;
mod title;

pub use definition::{DefinitionLine, EndMark, matched_behind};
pub use environment_number::EnvironmentNumber;
pub use event::{InputTrap, LineEvents, PageEvent};
pub use line_state::{Due, LineState, TextLine, TextStep, ends_name};
pub use message::{CharacterName, Message, MessageLine};
pub use names::name_given;
pub use phase::Phase;
pub use purpose::Purpose;
pub use query::Query;
pub use request::{Called, LineReading, LinesFor, Request, breaks_by};
pub use start::{Start, TooManyRanges, TooManyRegisters};
pub use status::Status;
pub use step::{Step, broken};
pub use title::{TitlePart, WhichTitle};
