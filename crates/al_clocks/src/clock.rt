// What is known of each proc.

ghost use Rattle.std.specs.Prelude.{◌≡◌, ℕ, ◌+◌, ◌<◌, ◌≤◌, ◌^◌, ◌==◌, ◌↔◌, if◌then◌else◌, max, IfOk, OnOk, IsTrue, slice_index};
ghost use Rattle.al_clocks.specs.Bounds.{bounds};

use al_base::NoMemory;
use std::alloc::Global;
use std::rc::Rc;

/// For each proc, one more than the number of its last entry that is known; 0 where none is. What is said of one proc, the
/// clock's own, stands beside the rest, so that the entries of a proc that learn nothing new share the rest.
#[derive(Drop)]
pub struct Clock {
    rest: Rc<Vec<u32>>,
    /// The proc that stands beside the rest.
    pub proc: u32,
    own: u32,
}

/// What a row says of a proc; 0 past its end.
fn at(row: &[u32], proc: usize) -> u32
    ensures { result ≡ slice_index row.now proc }
{
    match row.get(proc) {
        Some(bound) => *bound,
        None => 0,
    }
}

/// Whether a row says no less than a clock.
fn covers(row: &[u32], clock: &Clock) -> bool
    ensures { IsTrue result ↔ ((q : ℕ) → bounds clock.now q ≤ slice_index row.now q) }
{
    for proc in 0..clock.width() {
        if at(row, proc) < clock.bound(proc) {
            return false;
        }
    }
    true
}

/// A row that says all that another and a clock say.
fn merged(alloc: Global, row: &[u32], clock: &Clock) -> Result<Vec<u32>, NoMemory>
    ensures { IfOk result (λ v. (q : ℕ) → slice_index v.items q ≡ max (slice_index row.now q) (bounds clock.now q)) }
{
    let width = row.len().max(clock.width());
    let mut all = Vec::with_capacity(alloc, width)?;
    for proc in 0..width {
        all.push(at(row, proc).max(clock.bound(proc)))?;
    }
    Ok(all)
}

impl Clock {
    /// A clock that knows nothing.
    pub fn new(alloc: Global) -> Result<Clock, NoMemory>
        ensures { IfOk result (λ c. (q : ℕ) → bounds c q ≡ 0) }
    {
        Ok(Clock {
            rest: Rc::new(alloc, Vec::new(alloc))?,
            proc: 0,
            own: 0,
        })
    }

    /// The same clock once more.
    pub fn share(&self) -> Result<Clock, NoMemory>
        ensures all { IfOk result (λ c. (q : ℕ) → bounds c q ≡ bounds self.now q) }
        ensures proc { IfOk result (λ c. c.proc ≡ self.now.proc) }
    {
        Ok(Clock {
            rest: self.rest.clone()?,
            proc: self.proc,
            own: self.own,
        })
    }

    /// What is known of a proc.
    pub fn bound(&self, proc: usize) -> u32
        ensures { result ≡ bounds self.now proc }
    {
        if proc == self.proc as usize {
            self.own
        } else {
            at(&self.rest, proc)
        }
    }

    // From which proc on nothing is known.
    fn width(&self) -> usize
        ensures { (q : ℕ) → result ≤ q → bounds self.now q ≡ 0 }
    {
        self.rest.len().max(self.proc as usize + 1)
    }

    /// Learns what another clock knows. Where that is nothing new, the rest stays shared.
    pub fn join(&mut self, alloc: Global, other: &Clock) -> Result<(), NoMemory>
        ensures all { OnOk result ((q : ℕ) → bounds self.new q ≡ max (bounds self.old q) (bounds other.now q)) }
        ensures proc { self.new.proc ≡ self.old.proc }
    {
        if !covers(&self.rest, other) {
            self.rest = Rc::new(alloc, merged(alloc, &self.rest, other)?)?;
        }
        self.own = self.own.max(other.bound(self.proc as usize));
        Ok(())
    }

    /// The clock of a proc that begins with what this clock knows. Where the rest says it all, it is shared.
    pub fn begins(&self, alloc: Global, proc: u32) -> Result<Clock, NoMemory>
        ensures all { IfOk result (λ c. (q : ℕ) → bounds c q ≡ bounds self.now q) }
        ensures proc { IfOk result (λ c. c.proc ≡ proc) }
    {
        let rest = if at(&self.rest, self.proc as usize) == self.own {
            self.rest.clone()?
        } else {
            Rc::new(alloc, merged(alloc, &[], self)?)?
        };
        Ok(Clock {
            rest,
            proc,
            own: self.bound(proc as usize),
        })
    }

    /// Knows the own proc up to its entry number `number`.
    pub fn reaches(&mut self, number: u32)
        requires { number + 1 < 2 ^ 32 }
        ensures own { (q : ℕ) → bounds self.new q ≡ (if q == self.old.proc then number + 1 else bounds self.old q) }
        ensures proc { self.new.proc ≡ self.old.proc }
    {
        self.own = number + 1;
    }
}
