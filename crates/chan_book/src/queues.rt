ghost use Rattle.std.specs.Prelude.{◌≡◌, ◌+◌, ◌^◌, ◌<◌, ◌≤◌, length, min, slice_get, nat_lt, if◌then◌else◌, Some, None};
ghost use Rattle.std.specs.List.{AllByRecursion};
ghost use Rattle.al_event.specs.declared.act.Branch.{Branch};
ghost use Rattle.chan_book.specs.Links.{IsRing};
ghost use Rattle.chan_book.specs.Book.{CanEnter, CanLeave, IsStart, entered, left, queue_of, opposite_queue, queue_in, branches_in, is_on, count_on};

use crate::links::Links;
use al_event::{Branch, Branches};

// The queue of a branch: two for each channel, of those that receive and of those that send.
pub fn queue_of(branch: &Branch) -> usize
    requires { 0 < branch.now.chan }
    ensures { result ≡ queue_of branch.now }
{
    2 * (branch.chan as usize - 1) + usize::from(branch.send.is_some())
}

// The queue of the branches that a branch can go with.
pub fn opposite_queue(branch: &Branch) -> usize
    requires { 0 < branch.now.chan }
    ensures { result ≡ opposite_queue branch.now }
{
    2 * (branch.chan as usize - 1) + usize::from(branch.send.is_none())
}

// Puts the numbers from `node` on behind the queues of these branches.
pub fn enter(queues: &mut Links, node: usize, branches: &[Branch])
    requires ring { IsRing queues.old }
    requires free { CanEnter queues.old node branches.now }
    requires made { AllByRecursion (λ (b : Branch). 0 < b.chan) branches.now }
    ensures entered { queues.new ≡ record queues.old { items = entered queues.old.root node branches.now queues.old.items } }
    ensures ring { IsRing queues.new }
{
    let root = queues.root();
    for (number, branch) in branches.iter().enumerate() {
        queues.insert(node + number, root + queue_of(branch) + 1);
    }
}

// Takes `count` numbers from `node` on out.
pub fn leave(queues: &mut Links, node: usize, count: usize)
    requires ring { IsRing queues.old }
    requires there { CanLeave queues.old node count }
    requires bound { node + count < 2 ^ 64 }
    ensures left { queues.new ≡ record queues.old { items = left node count queues.old.items } }
    ensures ring { IsRing queues.new }
{
    for gone in node..node + count {
        queues.remove(gone);
    }
}

// Goes at most `most` steps along a queue. Gives how many it went, and where it came to: the number that is that far
// from the queue's first, or one from the root on where the queue ends there.
pub fn go_along(queues: &Links, queue: usize, most: usize) -> (usize, usize)
    requires ring { IsRing queues.now }
    requires start { IsStart queues.now queue }
    ensures count { result.0 ≡ min most (length (queue_in queues.now queue)) }
    ensures node { slice_get (queue_in queues.now queue) result.0 ≡ (if nat_lt result.1 queues.now.root then Some result.1 else None) }
{
    let root = queues.root();
    let mut node = queues.next(root + queue);
    let mut count = 0;
    while count < most && node < root {
        node = queues.next(node);
        count += 1;
    }
    (count, node)
}

// Whether a talk has a branch on a channel.
fn is_on(talk: &Option<Branches>, chan: u32) -> bool
    ensures { result ≡ is_on chan (branches_in talk.now) }
{
    match talk {
        Some(branches) => branches.as_slice().iter().any(|branch| branch.chan == chan),
        None => false,
    }
}

// How many tasks of an order have a branch on a channel.
pub fn count_on(order: &Links, talks: &[Option<Branches>], chan: u32) -> usize
    requires ring { IsRing order.now }
    requires within { AllByRecursion (λ t. t < length talks.now) order.now.items }
    requires small { length talks.now < 2 ^ 32 }
    ensures count { result ≡ count_on chan talks.now order.now.items }
    ensures few { result ≤ length order.now.items }
{
    let root = order.root();
    let mut task = order.next(root);
    let mut count = 0;
    while task != root {
        if is_on(&talks[task], chan) {
            count += 1;
        }
        task = order.next(task);
    }
    count
}
