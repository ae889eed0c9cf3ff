use al_base::NoMemory;
use indexmap::IndexSet;
use std::alloc::Global;
use std::marker::Model;

/// Texts, each once. Contracts see a test of what is among them.
#[derive(Drop)]
pub struct Texts {
    set: IndexSet<Vec<u8>>,
}

impl Model for Texts {
    ghost use Rattle.std.specs.Prelude.{List, ℕ, map};

    ghost Value = { List (List ℕ) };

    ghost view = { λ t. map (λ text. text.items) t.set.keys };
}

impl Texts {
    ghost use Rattle.std.specs.Prelude.{◌≡◌, [], ◌∷◌, ◌++◌, OnOk};
    ghost use Rattle.al_link_text.specs.Linked.{among, Alike};

    /// None.
    pub fn new(alloc: Global) -> Texts
        ensures { result ≡ [] }
    {
        Texts {
            set: IndexSet::new(alloc),
        }
    }

    /// Whether that text is one of them.
    pub fn has(&self, text: &[u8]) -> bool
        ensures { result ≡ among self.now text.now }
    {
        self.set.contains(text)
    }

    /// Adds a text, unless it is there.
    pub fn add(&mut self, text: Vec<u8>) -> Result<(), NoMemory>
        ensures { OnOk result (Alike self.new (self.old ++ text.items ∷ [])) }
    {
        self.set.insert(text)?;
        Ok(())
    }
}
