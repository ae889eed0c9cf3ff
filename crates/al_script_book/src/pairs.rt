// What can go: the pairs of a talk.

ghost use Rattle.std.specs.Prelude.{◌≡◌, ◌++◌, ◌+◌, ◌<◌, ◌^◌, [], Some, map, length, IfOk, OnOk};
ghost use Rattle.al_world.specs.Channels.{Offer as TheOffer, channel, opposites, pair, pairs_at, pairs_from, ready};
ghost use Rattle.al_world.specs.World.{TalkName as Name};

use crate::book::{Book, Channel, Offer, is_opposite};
use crate::copies::copy_branch;
use al_base::NoMemory;
use al_event::Branch;
use al_items::Items;
use std::alloc::Global;
use std::marker::Model;

/// A branch that can go, with its partner, or with the buffer where there is none.
#[derive(Debug, Drop)]
pub struct Pair {
    pub number: u32,
    pub branch: Branch,
    pub partner: Option<Offer>,
}

impl Model for Pair {
    ghost use Rattle.al_world.specs.Channels.{Pair as View};
    ghost use Rattle.al_world.specs.World.{TalkName as Name};

    ghost Value = { View Name };

    ghost view = { λ p. record { number = p.number; branch = p.branch; partner = p.partner } };
}

/// Adds a pair for each opposite branch that waits, in waiting order.
fn add_partners(
    alloc: Global,
    pairs: &mut Items<Pair>,
    number: u32,
    branch: &Branch,
    waiting: &[Offer],
) -> Result<(), NoMemory>
    ensures { OnOk result (pairs.new ≡ pairs.old ++ map (λ (o : TheOffer Name). pair number branch.now (Some o)) (opposites waiting.now branch.now)) }
{
    match waiting {
        [] => Ok(()),
        [offer, rest @ ..] => {
            if is_opposite(branch, &offer.branch) {
                let partner = Some(offer.copy(alloc)?);
                let branch = copy_branch(alloc, branch)?;
                pairs.push(Pair {
                    number,
                    branch,
                    partner,
                })?;
            }
            add_partners(alloc, pairs, number, branch, rest)
        }
    }
}

/// Adds the pair with the buffer, where it has room for the send or a value for the receive.
fn add_buffer_pair(
    alloc: Global,
    pairs: &mut Items<Pair>,
    number: u32,
    branch: &Branch,
    channel: &Channel,
) -> Result<(), NoMemory>
    requires { ¬ (channel.now.capacity ≡ 0) }
    ensures { OnOk result (pairs.new ≡ pairs.old ++ pairs_at [] number branch.now (Some channel.now)) }
{
    if channel.is_open(&branch.send) {
        let branch = copy_branch(alloc, branch)?;
        pairs.push(Pair {
            number,
            branch,
            partner: None,
        })?;
    }
    Ok(())
}

impl Book {
    /// Adds the pairs of a branch.
    fn add_pairs_at(
        &self,
        alloc: Global,
        pairs: &mut Items<Pair>,
        number: u32,
        branch: &Branch,
    ) -> Result<(), NoMemory>
        ensures { OnOk result (pairs.new ≡ pairs.old ++ pairs_at self.now.waiting number branch.now (channel self.now.channels branch.now.chan)) }
    {
        match self.channel(branch.chan) {
            None => Ok(()),
            Some(channel) => {
                if channel.capacity == 0 {
                    add_partners(alloc, pairs, number, branch, self.waiting.as_slice())
                } else {
                    add_buffer_pair(alloc, pairs, number, branch, channel)
                }
            }
        }
    }

    /// Adds the pairs of these branches, which are numbered from `number` on.
    fn add_pairs(
        &self,
        alloc: Global,
        pairs: &mut Items<Pair>,
        number: u32,
        branches: &[Branch],
    ) -> Result<(), NoMemory>
        requires { number + length branches.now < 2 ^ 32 }
        ensures { OnOk result (pairs.new ≡ pairs.old ++ pairs_from self.now number branches.now) }
    {
        match branches {
            [] => Ok(()),
            [branch, rest @ ..] => {
                self.add_pairs_at(alloc, pairs, number, branch)?;
                self.add_pairs(alloc, pairs, number + 1, rest)
            }
        }
    }

    /// What can go, branch by branch.
    pub fn ready(&self, alloc: Global, branches: &[Branch]) -> Result<Items<Pair>, NoMemory>
        requires { length branches.now < 2 ^ 32 }
        ensures { IfOk result (λ pairs. pairs ≡ ready self.now branches.now) }
    {
        let mut pairs = Items::new(alloc);
        self.add_pairs(alloc, &mut pairs, 0, branches)?;
        pairs.truncate(65536);
        Ok(pairs)
    }
}
