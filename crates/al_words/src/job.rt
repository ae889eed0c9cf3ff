use std::marker::Model;

/// What the program is asked to do.
#[derive(Clone, Copy, Debug, PartialEq, Eq)]
pub enum Mode {
    /// `run FILE`
    Run,
    /// `replay FILE SCHEDULE`
    Replay,
    /// `record FILE`
    Recorded,
    /// `build FILE`
    Build,
    /// `exec IMAGE`
    Exec,
    /// `check FILE`
    Check,
    /// `sample`
    Sample,
    /// `race FILE SCHEDULE`
    Race,
    /// `step FILE SCHEDULE`
    Step,
    /// `link LIST`
    Link,
}

/// The name of a file, which contracts see as the list of its bytes.
#[derive(Debug, Drop)]
pub struct Name {
    text: String,
}

impl Model for Name {
    ghost use Rattle.std.specs.Prelude.{ℕ, List, string_bytes};

    ghost Value = { List ℕ };

    ghost view = { λ name. string_bytes name.text };
}

impl Name {
    ghost use Rattle.std.specs.Prelude.{◌≡◌, string_bytes};

    pub fn new(text: String) -> Name
        ensures { result ≡ string_bytes text }
    {
        Name { text }
    }

    pub fn as_str(&self) -> &str
        ensures { result.now ≡ self.now }
    {
        self.text.as_str()
    }
}

/// A job. Names that its mode does not use are empty.
#[derive(Debug, Drop)]
pub struct Job {
    pub mode: Mode,
    /// The text, the image or the list of texts.
    pub file: Name,
    pub schedule: Name,
    /// How many workers run the program: 1 to 64.
    pub workers: u8,
    /// How many entries the schedule may have: 1 to 2^26.
    pub entries: u64,
    /// The size of the shared region in MiB: 1 to 256.
    pub region: u32,
    /// The number of a sample text, or of entries to step along.
    pub number: u32,
}
