ghost use Rattle.std.specs.Prelude.{◌≡◌, ◌≤◌, ◌^◌, [], length, take, OnOk, OnErr};
ghost use Rattle.al_tree.specs.Types.{known, with_name};

use al_base::NoMemory;
use indexmap::IndexSet;
use std::alloc::Global;
use std::marker::Model;

/// The names of types declared so far, by number. Contracts see their list, each once, in the order of declaration.
#[derive(Drop)]
pub struct TypeNames {
    set: IndexSet<u32>,
}

impl Model for TypeNames {
    ghost use Rattle.std.specs.Prelude.{List, ℕ};

    ghost Value = { List ℕ };

    ghost view = { λ t. t.set.keys };
}

impl TypeNames {
    /// No names.
    pub fn new(alloc: Global) -> TypeNames
        ensures { result ≡ [] }
    {
        TypeNames {
            set: IndexSet::new(alloc),
        }
    }

    /// Whether a name of this number is the name of a type.
    pub fn knows(&self, name: u32) -> bool
        ensures { result ≡ known self.now name }
    {
        self.set.contains(&name)
    }

    /// Adds a name.
    pub fn declare(&mut self, name: u32) -> Result<(), NoMemory>
        ensures ok { OnOk result (self.new ≡ with_name self.old name) }
    {
        self.set.insert(name)?;
        Ok(())
    }

    /// How many names there are.
    pub fn len(&self) -> usize
        ensures { result ≡ length self.now }
    {
        self.set.len()
    }

    /// Keeps the names that were declared first.
    pub fn truncate(&mut self, count: usize)
        ensures { self.new ≡ take count self.old }
    {
        self.set.truncate(count);
    }
}
