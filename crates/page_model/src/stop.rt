//! Tab stops.

ghost use Rattle.std.specs.Prelude.{◌≡◌};
ghost use Rattle.page_model.specs.TabStops.{stop_param};

use crate::settings::Param;

/// Where the text behind a tab stands at a stop (manual, section 9.1, the request `ta`).
#[derive(Clone, Copy, Default)]
pub enum StopKind {
    /// The text begins at the stop.
    #[default]
    Left,
    /// The text ends at the stop.
    Right,
    /// The text has its middle at the stop.
    Centred,
}

/// A tab stop.
#[derive(Clone, Copy, Default)]
pub struct TabStop {
    /// The column at which it stands.
    pub column: u32,
    /// Where text stands at it.
    pub kind: StopKind,
}

impl TabStop {
    /// The change that sets one more stop, this one.
    pub fn param(self) -> Param
        ensures { result ≡ stop_param self }
    {
        match self.kind {
            StopKind::Left => Param::Stop(self.column),
            StopKind::Right => Param::RightStop(self.column),
            StopKind::Centred => Param::CentredStop(self.column),
        }
    }
}
