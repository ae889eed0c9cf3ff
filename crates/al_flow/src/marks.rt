ghost use Rattle.std.specs.Prelude.{◌≡◌, ℕ, nat_eq, OnOk, OnErr};
ghost use Rattle.indexmap.specs.IndexMap.{get};
ghost use Rattle.al_flow.specs.Firsts.{first_given};

use crate::mark::Mark;
use al_base::NoMemory;
use al_items::Items;
use indexmap::IndexMap;
use std::alloc::Global;
use std::marker::Model;

/// Labels and rescues in text order, with the numbers of names. Contracts see their list.
#[derive(Drop)]
pub struct Marks {
    list: Items<Mark>,
    labels: IndexMap<u32, u64>,
    rescues: IndexMap<u32, u64>,
}

impl Model for Marks {
    ghost use Rattle.std.specs.Prelude.{◌≡◌, ℕ, List, nat_eq};
    ghost use Rattle.indexmap.specs.IndexMap.{get};
    ghost use Rattle.al_flow.specs.declared.mark.Mark.{Mark};
    ghost use Rattle.al_flow.specs.Marks.{label_named, rescue_named};

    ghost Value = { List Mark };

    ghost view = { λ m. m.list };

    ghost invariant = { λ m. ((name : ℕ) → get nat_eq m.labels name ≡ label_named m.list name) × ((name : ℕ) → get nat_eq m.rescues name ≡ rescue_named m.list name) };
}

/// Gives a name that number, unless it has one.
fn note(numbers: &mut IndexMap<u32, u64>, name: u32, number: u64) -> Result<(), NoMemory>
    ensures ok { OnOk result ((q : ℕ) → get nat_eq numbers.new q ≡ first_given (get nat_eq numbers.old q) (nat_eq name q) number) }
    ensures err { OnErr result ((q : ℕ) → get nat_eq numbers.new q ≡ get nat_eq numbers.old q) }
{
    if numbers.contains_key(&name) {
        return Ok(());
    }
    numbers.insert(name, number)?;
    Ok(())
}

impl Marks {
    ghost use Rattle.std.specs.Prelude.{◌≡◌, ◌++◌, ◌∷◌, [], length, OnOk};
    ghost use Rattle.al_flow.specs.Marks as spec;

    /// None.
    #[tactic(auto, unfolding(crate::specs::Marks::label_named, crate::specs::Marks::rescue_named))]
    pub(crate) fn new(alloc: Global) -> Marks
        ensures { result ≡ [] }
    {
        Marks {
            list: Items::new(alloc),
            labels: IndexMap::new(alloc),
            rescues: IndexMap::new(alloc),
        }
    }

    /// How many there are, which is the number of the next.
    pub(crate) fn len(&self) -> usize
        ensures { result ≡ length self.now }
    {
        self.list.len()
    }

    /// One more.
    #[tactic(auto, using(crate::proofs::MarksAre::named_push))]
    pub(crate) fn push(&mut self, mark: Mark) -> Result<(), NoMemory>
        ensures { OnOk result (self.new ≡ self.old ++ mark ∷ []) }
    {
        let number = self.list.len();
        self.list.push(mark)?;
        let noted = match mark {
            Mark::Label(name) => note(&mut self.labels, name, number as u64),
            Mark::Rescue(Some(name)) => note(&mut self.rescues, name, number as u64),
            Mark::Rescue(None) => Ok(()),
        };
        if noted.is_err() {
            self.list.truncate(number);
        }
        noted
    }

    /// The number of the first label of that name.
    pub(crate) fn label_named(&self, name: u32) -> Option<u64>
        ensures { result ≡ spec.label_named self.now name }
    {
        self.labels.get(&name).copied()
    }

    /// The number of the first rescue of that name.
    pub(crate) fn rescue_named(&self, name: u32) -> Option<u64>
        ensures { result ≡ spec.rescue_named self.now name }
    {
        self.rescues.get(&name).copied()
    }
}
