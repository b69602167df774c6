//! Facts about environments, as contracts of functions that do nothing.

ghost use Rattle.std.specs.Prelude.{◌≡◌, [], ◌∷◌};
ghost use Rattle.run_model.specs.declared.environment_number.EnvironmentNumber.{EnvironmentNumber};
ghost use Rattle.run_model.specs.Environments.{PageHistory, environments};
ghost use Rattle.law_runs.specs.EnvironmentLaws.{environment_of, text_in};
ghost use Rattle.run_model.specs.declared.event.PageEvent.TheVariants.{Back, Environment};

/// What happened in an environment is what happened while it was in force. A switch to another
/// environment, or back, changes nothing of the three; behind it the one of its number is in force.
/// A switch and going back leave all as it was, and so does going back from nowhere.
pub fn switches()
    ensures texts { (number : EnvironmentNumber) (h : PageHistory)
        → (environment_of number (environments h)).text ≡ text_in number h }
    ensures switched { (number other : EnvironmentNumber) (h : PageHistory)
        → environment_of other (environments (Environment number ∷ h))
        ≡ environment_of other (environments h) }
    ensures in_force { (number : EnvironmentNumber) (h : PageHistory)
        → (environments (Environment number ∷ h)).number ≡ number }
    ensures gone_back { (number : EnvironmentNumber) (h : PageHistory)
        → environment_of number (environments (Back ∷ h)) ≡ environment_of number (environments h) }
    ensures there_and_back { (number : EnvironmentNumber) (h : PageHistory)
        → environments (Back ∷ Environment number ∷ h) ≡ environments h }
    ensures from_nowhere { (h : PageHistory) → (environments h).left ≡ []
        → environments (Back ∷ h) ≡ environments h }
{}
