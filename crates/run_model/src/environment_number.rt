//! Numbers of environments (manual, section 17).

ghost use Rattle.std.specs.Prelude.{◌≡◌, ◌<◌};
ghost use Rattle.run_model.specs.Environments.{environment_numbered, is_same, number_behind};

/// The number of an environment.
#[derive(Clone, Copy)]
pub enum EnvironmentNumber {
    /// That of the environment that is in force at first.
    Zero,
    /// The next.
    One,
    /// The last.
    Two,
}

impl EnvironmentNumber {
    /// The number of this value, if there is one.
    pub fn of(value: u32) -> Option<EnvironmentNumber>
        ensures { result ≡ environment_numbered value }
    {
        match value {
            0 => Some(EnvironmentNumber::Zero),
            1 => Some(EnvironmentNumber::One),
            2 => Some(EnvironmentNumber::Two),
            _ => None,
        }
    }

    /// The one behind it, 0 behind 2.
    pub fn behind(self) -> EnvironmentNumber
        ensures { result ≡ number_behind self }
    {
        match self {
            EnvironmentNumber::Zero => EnvironmentNumber::One,
            EnvironmentNumber::One => EnvironmentNumber::Two,
            EnvironmentNumber::Two => EnvironmentNumber::Zero,
        }
    }

    /// Whether it is this one.
    pub fn is(self, other: EnvironmentNumber) -> bool
        ensures { result ≡ is_same self other }
    {
        match (self, other) {
            (EnvironmentNumber::Zero, EnvironmentNumber::Zero) => true,
            (EnvironmentNumber::One, EnvironmentNumber::One) => true,
            (EnvironmentNumber::Two, EnvironmentNumber::Two) => true,
            _ => false,
        }
    }
}
