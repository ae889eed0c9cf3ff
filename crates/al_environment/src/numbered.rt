//! Numbers of what stands at a place of the text.
ghost use Rattle.std.specs.Prelude.{◌≡◌, ℕ, OnOk, OnErr};
ghost use Rattle.indexmap.specs.IndexMap.{get};
ghost use Rattle.al_environment.specs.Firsts.{first_given, same_key};

use al_base::{NoMemory, Place};
use al_items::Items;
use indexmap::IndexMap;
use std::alloc::Global;
use std::marker::Model;

/// What stands at that place has that number.
#[derive(Clone, Copy, Debug, PartialEq, Eq)]
pub struct Numbered {
    pub at: Place,
    pub number: u32,
}

/// Numbers of what stands at places. Contracts see the list.
#[derive(Drop)]
pub struct Numbers {
    list: Items<Numbered>,
    /// The first number at each place.
    first: IndexMap<(u32, u32), u32>,
}

impl Model for Numbers {
    ghost use Rattle.std.specs.Prelude.{◌≡◌, List};
    ghost use Rattle.indexmap.specs.IndexMap.{get};
    ghost use Rattle.al_base.specs.declared.place.Place.{Place};
    ghost use Rattle.al_environment.specs.declared.numbered.Numbered.{Numbered};
    ghost use Rattle.al_environment.specs.Firsts.{number_at, key_of, same_key};

    ghost Value = { List Numbered };

    ghost view = { λ n. n.list };

    ghost invariant = { λ n. (at : Place) → get same_key n.first (key_of at) ≡ number_at n.list at };
}

/// A place gets that number, unless it has one.
fn note(first: &mut IndexMap<(u32, u32), u32>, key: (u32, u32), number: u32) -> Result<(), NoMemory>
    ensures ok { OnOk result ((q : ℕ × ℕ) → get same_key first.new q ≡ first_given (get same_key first.old q) (same_key key q) number) }
    ensures err { OnErr result ((q : ℕ × ℕ) → get same_key first.new q ≡ get same_key first.old q) }
{
    if first.contains_key(&key) {
        return Ok(());
    }
    first.insert(key, number)?;
    Ok(())
}

impl Numbers {
    ghost use Rattle.std.specs.Prelude.{◌≡◌, ◌++◌, ◌∷◌, [], OnOk};
    ghost use Rattle.al_environment.specs.Firsts as spec;

    /// None.
    #[tactic(auto, unfolding(crate::specs::Firsts::number_at))]
    pub fn new(alloc: Global) -> Numbers
        ensures { result ≡ [] }
    {
        Numbers {
            list: Items::new(alloc),
            first: IndexMap::new(alloc),
        }
    }

    /// One more. Where a place has a number already, that one counts.
    #[tactic(auto, using(crate::proofs::FirstsAre::number_push))]
    pub fn push(&mut self, numbered: Numbered) -> Result<(), NoMemory>
        ensures { OnOk result (self.new ≡ self.old ++ numbered ∷ []) }
    {
        let count = self.list.len();
        self.list.push(numbered)?;
        let at = numbered.at;
        let noted = note(&mut self.first, (at.line, at.col), numbered.number);
        if noted.is_err() {
            self.list.truncate(count);
        }
        noted
    }

    /// The number of what stands at a place.
    pub fn number(&self, at: Place) -> Option<u32>
        ensures { result ≡ spec.number_at self.now at }
    {
        self.first.get(&(at.line, at.col)).copied()
    }
}
