//! The world of an image.

ghost use Rattle.std.specs.Prelude.{◌≡◌, ◌≢◌, ℕ, ◌↔◌, ◌<◌, ◌≤◌, ◌^◌, ◌+◌, ◌++◌, ◌∷◌, [], Some, None, Ok, Err, true, false, IsSome, IfOk, IfErr, OnOk, OnErr, length, drop};
ghost use Rattle.al_event.specs.declared.entry.Loan.{Loan};

use crate::answers::{After, Next, StepFault};
use crate::machinery::Machinery;
use crate::turn::fault_of;
use al_base::{NoMemory, Over};
use al_event::{Entry, Loan};
use rv_exec::{Asked, Held};
use rv_isa::image::Image;
use std::alloc::Global;
use std::marker::Model;
use std::sync::Arc;

/// The world that an image has come to along its entries, which it keeps.
///
/// Contracts see it as a history: the image, the limits, the entries, how much of the output was dropped, and what is lent
/// to the workers. All else is what the run of the image along the entries has.
#[derive(Drop)]
pub struct World {
    pub(crate) alloc: Global,
    pub(crate) image: Arc<Image>,
    pub(crate) region: u32,
    pub(crate) limit: u64,
    pub(crate) quota: u64,
    pub(crate) machinery: Machinery,
    pub(crate) entries: Vec<Entry>,
    pub(crate) dropped: u64,
    pub(crate) over: Option<Over>,
    pub(crate) line: u32,
    pub(crate) work: u128,
    pub(crate) loans: [Option<Loan>; 64],
}

impl Model for World {
    ghost use Rattle.al_core.specs.History.{History};

    ghost Value = { History };

    ghost use Rattle.al_core.specs.Kept.{history_of, IsKept};

    ghost view = { history_of };

    ghost invariant = { IsKept };
}

impl World {
    ghost use Rattle.al_core.specs.History.{run_of, over_of, line_of, output_of, work_of, loan_of, away, is_away, is_full, is_free, with_entry, lending, settled};
    ghost use Rattle.al_core.specs.Lends.{IsLent, IsAsked, IfHeld, OnOthers, UnlessHeld, MatchAfter, TakesMemory};
    ghost use Rattle.al_core.specs.Lawful.{IsLawful, IsLawfulEntry};
    ghost use Rattle.al_core.specs.Steps.{AddsEntry, KeepsRest};

    /// The image that it runs.
    pub fn image(&self) -> &Arc<Image>
        ensures { result.now.value ≡ self.now.image }
    {
        &self.image
    }

    /// The entries that were made. The image has a run along them; those and the procs that are away are within the quota.
    pub fn entries(&self) -> &[Entry]
        ensures entries { result.now ≡ self.now.entries }
        ensures runs { IsSome (run_of self.now) }
        ensures lawful { IsLawful self.now }
        ensures quota { length self.now.entries + away self.now ≤ self.now.quota }
        ensures limit { self.now.quota ≤ self.now.limit }
        ensures most { self.now.limit ≤ 2 ^ 26 }
    {
        self.entries.as_slice()
    }

    /// The output along the entries, without the bytes that were dropped.
    pub fn output(&self) -> &[u8]
        ensures { result.now ≡ drop self.now.dropped (output_of self.now) }
    {
        self.machinery.output()
    }

    /// How many bytes of the output were dropped.
    pub fn dropped(&self) -> u64
        ensures dropped { result ≡ self.now.dropped }
        ensures within { result ≤ length (output_of self.now) }
    {
        self.dropped
    }

    /// How the world is over, if it is.
    pub fn over(&self) -> Option<Over>
        ensures over { result ≡ over_of self.now }
        ensures unspent { result ≢ Some Over.Spent }
    {
        self.over
    }

    /// The line of the action that trapped, else 0.
    pub fn line(&self) -> u32
        ensures { result ≡ line_of self.now }
    {
        self.line
    }

    /// How many code words were fetched on the way to the actions of all entries.
    pub fn work(&self) -> u128
        ensures { result ≡ work_of self.now }
    {
        self.work
    }

    /// The entries and the image. It takes no memory.
    pub fn into_parts(self) -> (Vec<Entry>, Arc<Image>)
        ensures entries { result.0.items ≡ self.entries }
        ensures image { result.1.value ≡ self.image }
    {
        let World { image, entries, .. } = self;
        (entries, image)
    }

    /// Drops the output that is shown. No proc is away.
    pub fn clear_output(&mut self)
        requires { away self.old ≡ 0 }
        ensures { self.new ≡ record self.old { dropped = length (output_of self.old) } }
    {
        self.dropped += self.machinery.output().len() as u64;
        self.machinery.clear_output();
    }

    /// Sets how many entries there may be by now: at least those there are, and at most the limit. No proc is away.
    pub fn allow(&mut self, quota: u64)
        requires here { away self.old ≡ 0 }
        requires least { length self.old.entries ≤ quota }
        requires most { quota ≤ self.old.limit }
        ensures { self.new ≡ record self.old { quota = quota } }
    {
        self.quota = quota;
    }

    /// Makes an entry. No proc is away, and there are fewer entries than there may be by now. An entry that is refused changes
    /// nothing.
    pub fn step(&mut self, entry: Entry) -> Result<(), StepFault>
        requires here { away self.old ≡ 0 }
        requires room { length self.old.entries < self.old.quota }
        ensures done { OnOk result (self.new ≡ with_entry entry self.old) }
        ensures runs { OnOk result (IsSome (run_of (with_entry entry self.old))) }
        ensures lawful { OnOk result (IsLawful (with_entry entry self.old)) }
        ensures entry { OnOk result (IsLawfulEntry self.old entry) }
        ensures over { (result ≡ Err StepFault.Over) ↔ IsSome (over_of self.old) }
        ensures not_permitted { result ≡ Err StepFault.NotPermitted → run_of (with_entry entry self.old) ≡ None }
        ensures same { OnErr result (self.new ≡ self.old) }
    {
        if self.over().is_some() {
            return Err(StepFault::Over);
        }
        if !self.has_ready(entry.proc) {
            return Err(StepFault::NotPermitted);
        }
        let held = self.lend(0, entry.proc);
        match self.run(0, held) {
            Ok((kept, asked)) => match self.make(0, entry.worker, entry.pick, asked) {
                Ok(()) => Ok(()),
                Err((_, refused)) => {
                    self.put_back(0, kept);
                    Err(fault_of(refused))
                }
            },
            Err((held, NoMemory)) => {
                self.put_back(0, held);
                Err(StepFault::NoMemory)
            }
        }
    }

    /// Lends the first ready task of a proc to a worker that holds nothing. Which proc it is, is this world's choice.
    pub fn pick(&mut self, worker: u8) -> Next
        requires small { worker < 64 }
        requires idle { loan_of self.old worker ≡ None }
        ensures over { (result ≡ Next.Over) ↔ IsSome (over_of self.old) }
        ensures full { (result ≡ Next.Full) ↔ ((over_of self.old ≡ None) × (is_full self.old ≡ true)) }
        ensures others { OnOthers result ((p : ℕ) → is_free self.old p ≡ false) }
        ensures some_away { OnOthers result (0 < away self.old) }
        ensures free { IfHeld result (λ held. is_free self.old held.proc ≡ true) }
        ensures lent { IfHeld result (λ held. self.new ≡ lending worker held.proc self.old) }
        ensures held { IfHeld result (λ held. IsLent self.new worker held) }
        ensures same { UnlessHeld result (self.new ≡ self.old) }
    {
        if self.over().is_some() {
            return Next::Over;
        }
        if self.is_full() {
            return Next::Full;
        }
        match self.choose() {
            Some(proc) => Next::Held(self.lend(worker, proc)),
            None => Next::Others,
        }
    }

    /// Does the action that a task asked which was lent to the worker, by one entry with a pick of this world's choice. Where the
    /// world was over it only ends the loan. It takes memory for a new channel, for what starts, and for output.
    pub fn perform(&mut self, worker: u8, asked: Asked) -> Result<After, (Asked, NoMemory)>
        requires small { worker < 64 }
        requires asked { IsAsked self.old worker asked }
        ensures entry { OnOk result (over_of self.old ≡ None → AddsEntry asked.held.proc worker self.old self.new) }
        ensures late { OnOk result (IsSome (over_of self.old) → self.new ≡ settled worker self.old) }
        ensures rest { OnOk result (KeepsRest worker self.old self.new) }
        ensures over { IfOk result (λ after. (after ≡ After.Over) ↔ IsSome (over_of self.new)) }
        ensures after { IfOk result (λ after. MatchAfter after (λ held. IsLent self.new worker held × (loan_of self.new worker ≡ Some (record { proc = asked.held.proc; since = length self.new.entries }))) (loan_of self.new worker ≡ None) (loan_of self.new worker ≡ None)) }
        ensures idle { IfOk result (λ after. MatchAfter after (λ held. is_free (settled worker self.new) asked.held.proc ≡ true × is_full (settled worker self.new) ≡ false) (is_free self.new asked.held.proc ≡ true → is_full self.new ≡ true) (Unit {0})) }
        ensures refused { IfErr result (λ e. e.0 ≡ asked) }
        ensures memory { OnErr result (TakesMemory asked.act) }
        ensures same { OnErr result (self.new ≡ self.old) }
    {
        if self.over().is_some() {
            self.end_loan(worker, asked.held);
            return Ok(After::Over);
        }
        let proc = asked.held.proc;
        match self.make_any(worker, asked) {
            Ok(_pick) => Ok(self.go_on(worker, proc)),
            Err(refused) => Err(refused),
        }
    }

    /// Takes back what was lent to a worker. It takes no memory.
    pub fn put_back(&mut self, worker: u8, held: Held)
        requires small { worker < 64 }
        requires lent { IsLent self.old worker held }
        ensures { self.new ≡ settled worker self.old }
    {
        self.end_loan(worker, held);
    }
}
