use al_base::NoMemory;
use indexmap::IndexMap;
use std::alloc::Global;
use std::marker::Model;

/// What names have, by their numbers. Contracts see the entries, each name once, in the order in which they came.
#[derive(Drop)]
pub(crate) struct ByName<V> {
    map: IndexMap<u32, V>,
}

impl<V> Model for ByName<V> {
    ghost use Rattle.std.specs.Prelude.{List, ℕ};
    ghost use Rattle.std.specs.Coded.{coded_list, coded×, coded_ℕ};

    ghost Value = { List (ℕ × V) };

    ghost coded = { coded_list (coded× coded_ℕ V.code) };

    ghost view = { λ t. t.map.entries };
}

impl<V: Drop> ByName<V> {
    ghost use Rattle.std.specs.Prelude.{◌≡◌, [], nat_eq, OnOk};
    ghost use Rattle.std.specs.Map.{lookup};
    ghost use Rattle.std.specs.Option.{option_copied};
    ghost use Rattle.indexmap.specs.IndexMap.{insert_entry};

    /// Nothing.
    pub(crate) fn new(alloc: Global) -> ByName<V>
        ensures { result ≡ [] }
    {
        ByName {
            map: IndexMap::new(alloc),
        }
    }

    /// A name has that, in place of what it had.
    pub(crate) fn insert(&mut self, name: u32, value: V) -> Result<(), NoMemory>
        ensures { OnOk result (self.new ≡ insert_entry nat_eq self.old name value) }
    {
        self.map.insert(name, value)?;
        Ok(())
    }

    /// What a name has.
    pub(crate) fn get(&self, name: u32) -> Option<&V>
        ensures { option_copied result ≡ lookup (nat_eq name) self.now }
    {
        self.map.get(&name)
    }
}
