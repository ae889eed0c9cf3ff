//! A world under the store lock.

use crate::world::World;
use rv_isa::image::Contents;
use store_lock::Kept;

/// What stays as it is while workers run a world: what its image contains, its limits, how many entries there may be by now,
/// and how many bytes of the output were dropped.
#[derive(Debug, Drop)]
pub struct Terms {
    pub image: Contents,
    /// In MiB.
    pub region: u32,
    pub limit: u64,
    pub quota: u64,
    pub dropped: u64,
}

impl Kept for World {
    type Fixed = Terms;

    ghost use Rattle.al_core.specs.Sharing.{world_entries, terms_of, world_lent};
    ghost use Rattle.al_core.specs.WorldMemo.{world_memo, world_memo_tells};

    ghost entries = { world_entries };

    ghost fixed = { terms_of };

    ghost lent = { world_lent };

    ghost memo = { world_memo };

    ghost memo_tells = { world_memo_tells };

    fn count(&self) -> u64 {
        self.entries.len() as u64
    }
}
