//! The model of lines and pages, as `specs/` has it: what happens to an environment and to the
//! layout of pages, the lines that are finished, and where these and titles stand. In code: the
//! types of what happens, parameters, finished lines and traps.
#![tactic(auto)]

mod event;
mod glyph;
mod layout_event;
mod line;
mod settings;
mod stop;
mod trap;

pub use event::Event;
pub use glyph::Glyph;
pub use layout_event::LayoutEvent;
pub use line::{FURTHER_BLANK, GAP, Line, UNPADDABLE};
pub use settings::{AdjustMode, Param, Settings};
pub use stop::{StopKind, TabStop};
pub use trap::Trap;
