use al_base::{NoMemory, Place};
use al_items::Items;
use std::alloc::Global;

/// What a file says of one of its names.
#[derive(Drop)]
pub(crate) struct Note {
    /// Where it stands first.
    pub(crate) first: Option<Place>,
    /// The type items that declare it, by their numbers.
    pub(crate) items: Items<usize>,
    /// Whether one declares it as a type.
    pub(crate) is_type: bool,
    /// Whether it stands before the first of these.
    pub(crate) is_early: bool,
}

impl Note {
    pub(crate) fn new(alloc: Global) -> Note {
        Note {
            first: None,
            items: Items::new(alloc),
            is_type: false,
            is_early: false,
        }
    }

    /// The name stands here.
    pub(crate) fn stand(&mut self, at: Place) {
        if self.first.is_none() {
            self.first = Some(at);
        }
    }

    /// The type item of that number declares the name. Its own tokens were not met yet.
    pub(crate) fn declare(&mut self, item: usize, is_type: bool) -> Result<(), NoMemory> {
        if is_type && !self.is_type {
            self.is_type = true;
            self.is_early = self.first.is_some();
        }
        self.items.push(item)
    }

    /// Whether what a later file says of the name stands against this.
    pub(crate) fn is_against(&self, later: &Note) -> bool {
        self.items.as_slice() != later.items.as_slice() || (self.is_type && later.is_early)
    }
}
