//! Queues of slots that share their links.

ghost use Rattle.std.specs.Prelude.{◌≡◌, ◌+◌, ◌<◌, ◌^◌, length, slice_index};
ghost use Rattle.task_book.specs.Queues.{queue_of, first_in, pushed, pushed_links, popped};

/// Slots in an order. The link of each slot but the last is the slot behind it; queues that have no slot in common share
/// one list of links.
#[derive(Clone, Copy, Debug, Drop)]
pub struct Queue {
    /// The first slot, where there is one.
    pub head: u32,
    /// The last slot, where there is one.
    pub tail: u32,
    pub len: u32,
}

impl Queue {
    /// The queue of one slot.
    pub fn of(slot: u32) -> Queue
        ensures { result ≡ queue_of slot }
    {
        Queue {
            head: slot,
            tail: slot,
            len: 1,
        }
    }

    /// The first slot.
    pub fn first(&self) -> Option<u32>
        ensures { result ≡ first_in self.now }
    {
        if self.len == 0 { None } else { Some(self.head) }
    }

    /// Puts a slot at the end.
    pub fn push(&mut self, links: &mut [u32], slot: u32)
        requires room { self.old.len + 1 < 2 ^ 32 }
        requires within { 0 < self.old.len → self.old.tail < length links.old }
        ensures queue { self.new ≡ pushed self.old slot }
        ensures links { links.new ≡ pushed_links self.old links.old slot }
    {
        if self.len == 0 {
            self.head = slot;
        } else {
            links[self.tail as usize] = slot;
        }
        self.tail = slot;
        self.len += 1;
    }

    /// Takes the first slot away.
    pub fn pop(&mut self, links: &[u32])
        requires some { 0 < self.old.len }
        requires within { self.old.head < length links.now }
        ensures { self.new ≡ popped links.now self.old }
    {
        self.head = links[self.head as usize];
        self.len -= 1;
    }
}
