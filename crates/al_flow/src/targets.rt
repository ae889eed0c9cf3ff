ghost use Rattle.std.specs.Prelude.{◌≡◌, ℕ, OnOk, OnErr};
ghost use Rattle.indexmap.specs.IndexMap.{get};
ghost use Rattle.al_flow.specs.Firsts.{first_given};
ghost use Rattle.al_flow.specs.Targets.{same_key};

use crate::target::Target;
use al_base::{NoMemory, Place};
use al_items::Items;
use indexmap::IndexMap;
use std::alloc::Global;
use std::marker::Model;

/// The targets of a function and of the par branches in it. Contracts see their list, in the order in which the text has
/// the statements that they belong to.
#[derive(Drop)]
pub struct Targets {
    list: Items<Target>,
    numbers: IndexMap<(u32, u32), u64>,
}

impl Model for Targets {
    ghost use Rattle.std.specs.Prelude.{◌≡◌, List};
    ghost use Rattle.indexmap.specs.IndexMap.{get};
    ghost use Rattle.al_base.specs.declared.place.Place.{Place};
    ghost use Rattle.al_flow.specs.declared.target.Target.{Target};
    ghost use Rattle.al_flow.specs.Targets.{number_at, key_of, same_key};

    ghost Value = { List Target };

    ghost view = { λ t. t.list };

    ghost invariant = { λ t. (at : Place) → get same_key t.numbers (key_of at) ≡ number_at t.list at };
}

/// Gives a place that number, unless it has one.
fn note(
    numbers: &mut IndexMap<(u32, u32), u64>,
    key: (u32, u32),
    number: u64,
) -> Result<(), NoMemory>
    ensures ok { OnOk result ((q : ℕ × ℕ) → get same_key numbers.new q ≡ first_given (get same_key numbers.old q) (same_key key q) number) }
    ensures err { OnErr result ((q : ℕ × ℕ) → get same_key numbers.new q ≡ get same_key numbers.old q) }
{
    if numbers.contains_key(&key) {
        return Ok(());
    }
    numbers.insert(key, number)?;
    Ok(())
}

impl Targets {
    ghost use Rattle.std.specs.Prelude.{◌≡◌, ◌++◌, ◌∷◌, [], OnOk};
    ghost use Rattle.al_flow.specs.Targets as spec;

    /// None.
    #[tactic(auto, unfolding(crate::specs::Targets::number_at))]
    pub(crate) fn new(alloc: Global) -> Targets
        ensures { result ≡ [] }
    {
        Targets {
            list: Items::new(alloc),
            numbers: IndexMap::new(alloc),
        }
    }

    /// One more.
    #[tactic(auto, using(crate::proofs::TargetsAre::number_push))]
    pub(crate) fn push(&mut self, target: Target) -> Result<(), NoMemory>
        ensures { OnOk result (self.new ≡ self.old ++ target ∷ []) }
    {
        let before = self.list.len();
        self.list.push(target)?;
        let at = target.at;
        let noted = note(&mut self.numbers, (at.line, at.col), target.number);
        if noted.is_err() {
            self.list.truncate(before);
        }
        noted
    }

    /// The targets in the order in which the text has the statements that they belong to.
    pub fn as_slice(&self) -> &[Target]
        ensures { result.now ≡ self.now }
    {
        self.list.as_slice()
    }

    /// The number that belongs to the statement at a place.
    pub fn number(&self, at: Place) -> Option<u64>
        ensures { result ≡ spec.number_at self.now at }
    {
        self.numbers.get(&(at.line, at.col)).copied()
    }
}
