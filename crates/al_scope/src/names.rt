//! What names stand for, found by place.
ghost use Rattle.std.specs.Prelude.{◌≡◌, ℕ, OnOk, OnErr};
ghost use Rattle.indexmap.specs.IndexMap.{get};
ghost use Rattle.al_scope.specs.Firsts.{first_given, same_key};

use crate::declaration::{Declaration, Resolved};
use al_base::{NoMemory, Place};
use al_items::Items;
use indexmap::IndexMap;
use std::alloc::Global;
use std::marker::Model;

/// The names of a text in the order in which they are met. Contracts see their list.
#[derive(Drop)]
pub struct Names {
    list: Items<Resolved>,
    /// What the first name at each place stands for.
    first: IndexMap<(u32, u32), Declaration>,
}

impl Model for Names {
    ghost use Rattle.std.specs.Prelude.{◌≡◌, List};
    ghost use Rattle.indexmap.specs.IndexMap.{get};
    ghost use Rattle.al_base.specs.declared.place.Place.{Place};
    ghost use Rattle.al_scope.specs.declared.declaration.Resolved.{Resolved};
    ghost use Rattle.al_scope.specs.Firsts.{declaration_at, key_of, same_key};

    ghost Value = { List Resolved };

    ghost view = { λ n. n.list };

    ghost invariant = { λ n. (at : Place) → get same_key n.first (key_of at) ≡ declaration_at n.list at };
}

/// A place gets that declaration, unless it has one.
fn note(
    first: &mut IndexMap<(u32, u32), Declaration>,
    key: (u32, u32),
    declaration: Declaration,
) -> Result<(), NoMemory>
    ensures ok { OnOk result ((q : ℕ × ℕ) → get same_key first.new q ≡ first_given (get same_key first.old q) (same_key key q) declaration) }
    ensures err { OnErr result ((q : ℕ × ℕ) → get same_key first.new q ≡ get same_key first.old q) }
{
    if first.contains_key(&key) {
        return Ok(());
    }
    first.insert(key, declaration)?;
    Ok(())
}

impl Names {
    ghost use Rattle.std.specs.Prelude.{◌≡◌, ◌++◌, ◌∷◌, [], OnOk};
    ghost use Rattle.al_scope.specs.Firsts as spec;

    /// None.
    #[tactic(auto, unfolding(crate::specs::Firsts::declaration_at))]
    pub(crate) fn new(alloc: Global) -> Names
        ensures { result ≡ [] }
    {
        Names {
            list: Items::new(alloc),
            first: IndexMap::new(alloc),
        }
    }

    /// One more.
    #[tactic(auto, using(crate::proofs::FirstsAre::declaration_push))]
    pub(crate) fn push(&mut self, resolved: Resolved) -> Result<(), NoMemory>
        ensures { OnOk result (self.new ≡ self.old ++ resolved ∷ []) }
    {
        let count = self.list.len();
        self.list.push(resolved)?;
        let at = resolved.at;
        let noted = note(&mut self.first, (at.line, at.col), resolved.declaration);
        if noted.is_err() {
            self.list.truncate(count);
        }
        noted
    }

    /// The names in the order in which they are met.
    pub fn as_slice(&self) -> &[Resolved]
        ensures { result.now ≡ self.now }
    {
        self.list.as_slice()
    }

    /// What the name at a place stands for.
    pub fn declaration(&self, at: Place) -> Option<Declaration>
        ensures { result ≡ spec.declaration_at self.now at }
    {
        self.first.get(&(at.line, at.col)).copied()
    }
}
