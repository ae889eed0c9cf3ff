use al_event::Words;

/// A blocked talk that went: the slot of its task, the number of the branch that went, and the words that it received.
#[derive(Debug, Drop)]
pub struct Woke {
    pub task: u32,
    pub branch: u32,
    pub got: Words,
}

/// What a talk that goes is answered with: the number of the branch that went, the words that it received, and the
/// blocked talk that went with it.
#[derive(Debug, Drop)]
pub struct Fired {
    pub branch: u32,
    pub got: Words,
    pub woke: Option<Woke>,
}
