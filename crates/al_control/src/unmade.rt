use al_base::NoMemory;

/// Why a step was not made.
#[derive(Clone, Copy, Debug, PartialEq, Eq)]
pub enum Unmade {
    NoMemory,
    /// It comes to a number that a word has no room for. Steps of well-typed programs do not.
    TooLarge,
}

impl From<NoMemory> for Unmade {
    ghost use Rattle.std.specs.Prelude.{◌≡◌};
    ghost use Rattle.al_control.specs.declared.unmade.Unmade.TheVariants as unmade;

    ghost from_gives = { λ _ e. e ≡ unmade.NoMemory };

    fn from(_: NoMemory) -> Unmade {
        Unmade::NoMemory
    }
}
