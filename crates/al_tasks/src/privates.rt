ghost use Rattle.std.specs.Prelude.{◌≡◌, IfOk, OnOk};
ghost use Rattle.al_world.specs.World.{at_proc};
ghost use Rattle.al_tasks.specs.Tables.{privates_of};

use al_base::NoMemory;
use al_event::Words;
use al_items::Items;
use indexmap::IndexMap;
use std::alloc::Global;

/// The private globals of procs. A proc has fresh ones until others are put in.
#[derive(Drop)]
pub struct Privates {
    pub(crate) fresh: Words,
    pub(crate) map: IndexMap<u32, Words>,
}

/// Where each proc has fresh ones.
pub fn fresh_privates(alloc: Global, fresh: Words) -> Privates
    ensures { privates_of result ≡ (λ proc. fresh) }
{
    Privates {
        fresh,
        map: IndexMap::new(alloc),
    }
}

/// A copy of the private globals of a proc.
pub fn privates_in(alloc: Global, privates: &Privates, proc: u32) -> Result<Words, NoMemory>
    ensures { IfOk result (λ words. words ≡ privates_of privates.now proc) }
{
    match privates.map.get(&proc) {
        None => Items::from_slice(alloc, privates.fresh.as_slice()),
        Some(words) => Items::from_slice(alloc, words.as_slice()),
    }
}

/// A proc has these private globals.
#[tactic(auto, using(crate::proofs::TasksAre::updates))]
pub fn put_privates(privates: &mut Privates, proc: u32, words: Words) -> Result<(), NoMemory>
    ensures { OnOk result (privates_of privates.new ≡ at_proc proc words (privates_of privates.old)) }
{
    privates.map.insert(proc, words)?;
    Ok(())
}
