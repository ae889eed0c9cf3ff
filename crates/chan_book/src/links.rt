ghost use Rattle.std.specs.Prelude.{◌≡◌, ◌≢◌, ◌+◌, ◌<◌, ◌≤◌, ◌^◌, ◌⊎◌, [], ◌∷◌, ◌++◌, IfOk, OnOk, OnErr, true, false, length};
ghost use Rattle.chan_book.specs.Links.{IsRing, has, inserted, without, next_in};

use al_base::NoMemory;
use std::alloc::Global;
use std::marker::Model;

// A list of different numbers below a bound, kept by what comes after each and what before each. A number is put in before
// another, and taken out, in constant time. The root stands at both ends and is none of them.
#[derive(Drop)]
pub struct Links {
    root: usize,
    next: Vec<usize>,
    prev: Vec<usize>,
}

impl Model for Links {
    ghost use Rattle.chan_book.specs.Links.{Ring, ring_of, IsLinked};

    ghost Value = { Ring };

    ghost view = { λ l. ring_of l.root l.next.items };

    ghost invariant = { λ l. IsLinked l.next.items l.prev.items (ring_of l.root l.next.items) };
}

impl Links {
    // The empty list, with the root behind the numbers below `root`.
    pub fn new(alloc: Global, root: usize) -> Result<Links, NoMemory>
        requires { root + 1 < 2 ^ 64 }
        ensures empty { IfOk result (λ l. l ≡ record { root = root; size = root + 1; items = [] }) }
        ensures ring { IfOk result IsRing }
    {
        let next = vec![in alloc; root; root + 1]?;
        let prev = vec![in alloc; root; root + 1]?;
        Ok(Links { root, next, prev })
    }

    // The root.
    pub fn root(&self) -> usize
        ensures value { result ≡ self.now.root }
        ensures ring { IsRing self.now }
        ensures bound { self.now.size < 2 ^ 64 }
    {
        self.root
    }

    // What comes after `at`: the first after the root, and the root after the last.
    pub fn next(&self, at: usize) -> usize
        requires { (at ≡ self.now.root) ⊎ (has at self.now.items ≡ true) }
        ensures { result ≡ next_in self.now at }
    {
        self.next[at]
    }

    // Puts `node` in before `at`; at the end where that is the root.
    pub fn insert(&mut self, node: usize, at: usize)
        requires within { node < self.old.size }
        requires new { has node self.old.items ≡ false }
        requires unrooted { node ≢ self.old.root }
        requires place { (at ≡ self.old.root) ⊎ (has at self.old.items ≡ true) }
        ensures inserted { self.new ≡ record self.old { items = inserted node at self.old.items } }
        ensures ring { IsRing self.new }
    {
        let before = self.prev[at];
        self.next[before] = node;
        self.prev[node] = before;
        self.next[node] = at;
        self.prev[at] = node;
    }

    // Takes `node` out.
    pub fn remove(&mut self, node: usize)
        requires { has node self.old.items ≡ true }
        ensures without { self.new ≡ record self.old { items = without node self.old.items } }
        ensures ring { IsRing self.new }
    {
        let before = self.prev[node];
        let after = self.next[node];
        self.next[before] = after;
        self.prev[after] = before;
    }

    // Puts two more numbers at the end, the bound and the one after it, and moves the bound behind them.
    pub fn add_two(&mut self) -> Result<(), NoMemory>
        requires { IsRing self.old }
        ensures ok { OnOk result (self.new ≡ record self.old { size = self.old.size + 2; items = self.old.items ++ self.old.size ∷ (self.old.size + 1) ∷ [] }) }
        ensures err { OnErr result (self.new ≡ self.old) }
        ensures ring { IsRing self.new }
    {
        let root = self.root;
        let first = self.next.len();
        self.prev.reserve(2)?;
        self.next.extend_from_slice(&[0, 0])?;
        if let Err(_) = self.prev.extend_from_slice(&[0, 0]) {
            unreachable!();
        }
        self.insert(first, root);
        self.insert(first + 1, root);
        Ok(())
    }
}
