use std::alloc::AllocError;

/// The words name no job.
#[derive(Clone, Copy, Debug, PartialEq, Eq)]
pub struct WordsFault;

/// Why `read_job` has no job to give.
#[derive(Clone, Copy, Debug, PartialEq, Eq)]
pub enum WordsStop {
    Fault(WordsFault),
    NoMemory,
}

impl From<AllocError> for WordsStop {
    ghost use Rattle.std.specs.Prelude.{◌≡◌};
    ghost use Rattle.al_words.specs.declared.stop.WordsStop.TheVariants as stops;

    ghost from_gives = { λ _ stop. stop ≡ stops.NoMemory };

    fn from(_error: AllocError) -> WordsStop {
        WordsStop::NoMemory
    }
}
