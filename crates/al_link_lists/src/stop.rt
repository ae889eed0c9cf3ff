use al_base::NoMemory;
use std::alloc::AllocError;

/// Why there is no list of names.
#[derive(Clone, Copy, Debug, PartialEq, Eq)]
pub enum ListStop {
    /// The line of that number, from 1, is the first that is wrong.
    Line(u32),
    NoMemory,
}

impl From<NoMemory> for ListStop {
    ghost use Rattle.std.specs.Prelude.{◌≡◌};
    ghost use Rattle.al_link_lists.specs.declared.stop.ListStop.TheVariants as stops;

    ghost from_gives = { λ _ stop. stop ≡ stops.NoMemory };

    fn from(_error: NoMemory) -> ListStop {
        ListStop::NoMemory
    }
}

impl From<AllocError> for ListStop {
    ghost use Rattle.std.specs.Prelude.{◌≡◌};
    ghost use Rattle.al_link_lists.specs.declared.stop.ListStop.TheVariants as stops;

    ghost from_gives = { λ _ stop. stop ≡ stops.NoMemory };

    fn from(_error: AllocError) -> ListStop {
        ListStop::NoMemory
    }
}
