//! What is in scope, found by name.
ghost use Rattle.std.specs.Prelude.{◌≡◌, ℕ, nat_eq, IsSome, OnOk, OnErr};
ghost use Rattle.indexmap.specs.IndexMap.{get};
ghost use Rattle.al_scope.specs.Shadows.{put_at};

use crate::declaration::Declaration;
use al_base::NoMemory;
use al_items::Items;
use indexmap::IndexMap;
use std::alloc::Global;
use std::marker::Model;

/// A name that is in scope. Parameters and locals stand there as `Outer`.
#[derive(Clone, Copy)]
pub(crate) struct Known {
    pub(crate) name: usize,
    pub(crate) declaration: Declaration,
}

/// A name that is in scope, with what it stood for before.
#[derive(Clone, Copy)]
struct Entry {
    known: Known,
    before: Option<Declaration>,
}

/// What is in scope, the latest last. Contracts see its list.
#[derive(Drop)]
pub(crate) struct KnownNames {
    entries: Items<Entry>,
    /// What each name stands for.
    latest: IndexMap<usize, Declaration>,
}

impl Model for KnownNames {
    ghost use Rattle.std.specs.Prelude.{◌≡◌, ℕ, List, map, reverse, nat_eq};
    ghost use Rattle.indexmap.specs.IndexMap.{get};
    ghost use Rattle.al_scope.specs.declared.known.Known.{Known};
    ghost use Rattle.al_scope.specs.Shadows.{known_of, stands_for, IsShadowing};

    ghost Value = { List Known };

    ghost view = { λ k. map known_of k.entries };

    ghost invariant = { λ k. ((name : ℕ) → get nat_eq k.latest name ≡ stands_for (reverse k.entries) name) × IsShadowing (reverse k.entries) };
}

/// A name stands for that.
fn put(
    latest: &mut IndexMap<usize, Declaration>,
    name: usize,
    declaration: Declaration,
) -> Result<(), NoMemory>
    ensures ok { OnOk result ((q : ℕ) → get nat_eq latest.new q ≡ put_at name (Some declaration) (get nat_eq latest.old) q) }
    ensures err { OnErr result ((q : ℕ) → get nat_eq latest.new q ≡ get nat_eq latest.old q) }
{
    latest.insert(name, declaration)?;
    Ok(())
}

/// A name stands for what it stood for before.
fn restore(latest: &mut IndexMap<usize, Declaration>, name: usize, before: Option<Declaration>)
    requires { IsSome (get nat_eq latest.old name) }
    ensures { (q : ℕ) → get nat_eq latest.new q ≡ put_at name before (get nat_eq latest.old) q }
{
    match before {
        None => {
            latest.swap_remove(&name);
        }
        Some(declaration) => {
            if let Some(slot) = latest.get_mut(&name) {
                *slot = declaration;
            }
        }
    }
}

impl KnownNames {
    ghost use Rattle.std.specs.Prelude.{◌≡◌, ◌++◌, ◌∷◌, [], length, take, MatchOption, OnOk};
    ghost use Rattle.al_scope.specs.Names as spec;

    /// Nothing.
    pub(crate) fn new(alloc: Global) -> KnownNames
        ensures { result ≡ [] }
    {
        KnownNames {
            entries: Items::new(alloc),
            latest: IndexMap::new(alloc),
        }
    }

    /// How many there are.
    pub(crate) fn len(&self) -> usize
        ensures { result ≡ length self.now }
    {
        self.entries.len()
    }

    /// One more.
    #[tactic(auto, using(crate::proofs::ShadowsAre::pushed))]
    pub(crate) fn push(&mut self, known: Known) -> Result<(), NoMemory>
        ensures { OnOk result (self.new ≡ self.old ++ known ∷ []) }
    {
        let count = self.entries.len();
        let before = self.latest.get(&known.name).copied();
        self.entries.push(Entry { known, before })?;
        let noted = put(&mut self.latest, known.name, known.declaration);
        if noted.is_err() {
            self.entries.truncate(count);
        }
        noted
    }

    /// Takes the latest away.
    #[tactic(auto, using(crate::proofs::ShadowsAre::popped))]
    fn pop(&mut self) -> Option<Known>
        ensures { MatchOption result ((self.old ≡ []) × (self.new ≡ [])) (λ last. self.old ≡ self.new ++ last ∷ []) }
    {
        match self.entries.pop() {
            None => None,
            Some(entry) => {
                restore(&mut self.latest, entry.known.name, entry.before);
                Some(entry.known)
            }
        }
    }

    /// Keeps the first `count`.
    pub(crate) fn truncate(&mut self, count: usize)
        ensures { self.new ≡ take count self.old }
    {
        while self.len() > count {
            self.pop();
        }
    }

    /// What the latest of that name stands for.
    #[tactic(auto, using(crate::proofs::ShadowsAre::stand))]
    pub(crate) fn latest(&self, name: usize) -> Option<Declaration>
        ensures { result ≡ spec.latest self.now name }
    {
        self.latest.get(&name).copied()
    }
}
