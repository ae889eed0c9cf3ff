//! A proc goes out, and an entry is made of what its task asked.

ghost use Rattle.std.specs.Prelude.{◌≡◌, ◌≢◌, ◌↔◌, ◌<◌, ◌≤◌, ◌+◌, ◌^◌, ℕ, true, false, length, count_by, is_some, IsSome, IfSome, IfNone, IfOk, IfErr, OnOk, OnErr, Ok, Err, Some, None};
ghost use Rattle.al_world.specs.Step.{line_of, over_or};
ghost use Rattle.rv_exec.specs.Shown.{hart_of, privates_of, bytes_of};
ghost use Rattle.al_core.specs.Preparing.{over_from};

use crate::answers::{After, StepFault};
use crate::order::{Refused, Stop};
use crate::world::World;
use al_base::{NoMemory, Over};
use al_event::{Act, Entry, Loan};
use rv_exec::{Asked, Held, stretch};
use std::alloc::Global;

/// The most tasks that live at one time.
pub(crate) const MOST_TASKS: u32 = 1024;

/// How an action of a proc ends the world, at this entry.
fn over_by(proc: u32, entry: u32, stop: Option<Stop>) -> Option<Over>
    ensures { result ≡ over_from proc entry stop }
{
    match stop {
        None => None,
        Some(Stop::Trap(trap)) => Some(Over::Trapped {
            trap,
            proc,
            at: entry,
        }),
        Some(Stop::Status(status)) => Some(Over::Stopped(status)),
    }
}

/// What was lent, once more.
fn copy(alloc: Global, held: &Held) -> Result<Held, NoMemory>
    ensures hart { IfOk result (λ copy. hart_of copy.hart ≡ hart_of held.now.hart) }
    ensures privates { IfOk result (λ copy. privates_of copy.privates ≡ privates_of held.now.privates) }
    ensures bytes { IfOk result (λ copy. bytes_of copy.privates ≡ bytes_of held.now.privates) }
    ensures proc { IfOk result (λ copy. copy.proc ≡ held.now.proc) }
{
    let hart = held.hart.copy(alloc)?;
    let privates = held.privates.copy(alloc)?;
    Ok(Held {
        proc: held.proc,
        hart,
        privates,
    })
}

/// The pick to try first of an action that comes after so many entries: an alt takes its branches in turn, so that none that can
/// go is passed over for ever.
fn first_pick(act: &Act, entries: usize) -> u16 {
    match act {
        Act::Talk { branches } => {
            let count = branches.len().clamp(1, 64);
            (entries % count) as u16
        }
        _ => 0,
    }
}

/// What was fetched, with the words of one more stretch.
fn added(total: u128, work: u64) -> u128
    requires { total ≤ 2 ^ 90 }
    ensures sum { result ≡ total + work }
    ensures small { work < 2 ^ 64 }
{
    total + u128::from(work)
}

/// How many loans there are.
fn lent_in(loans: &[Option<Loan>]) -> usize
    ensures { result ≡ count_by (λ l. is_some l) loans.now }
{
    loans.iter().filter(|loan| loan.is_some()).count()
}

/// Why an entry is refused.
pub(crate) fn fault_of(refused: Refused) -> StepFault
    ensures not_permitted { (result ≡ StepFault.NotPermitted) ↔ (refused ≡ Refused.NotPermitted) }
    ensures over { result ≢ StepFault.Over }
{
    match refused {
        Refused::NotPermitted => StepFault::NotPermitted,
        Refused::NoMemory => StepFault::NoMemory,
    }
}

/// The first of two that is one.
fn over_or(first: Option<Over>, second: Option<Over>) -> Option<Over>
    ensures { result ≡ over_or first second }
{
    match first {
        None => second,
        Some(over) => Some(over),
    }
}

/// The line of an action that trapped, else 0.
fn line_by(over: Option<Over>, line: u32) -> u32
    ensures { result ≡ line_of over line }
{
    match over {
        Some(Over::Trapped { .. }) => line,
        _ => 0,
    }
}

impl World {
    ghost use Rattle.al_core.specs.History.{run_of, over_of, loan_of, away, is_away, is_full, is_free, has_ready, with_entry, lending, settled};
    ghost use Rattle.al_core.specs.Lends.{IsLent, IsAsked, MatchAfter, TakesMemory};

    /// Whether no more procs may go away.
    pub(crate) fn is_full(&self) -> bool
        ensures { result ≡ is_full self.now }
    {
        self.quota <= (self.entries.len() + lent_in(&self.loans)) as u64
    }

    /// Lends the first ready task of a proc to a worker that holds nothing.
    pub(crate) fn lend(&mut self, worker: u8, proc: u32) -> Held
        requires small { worker < 64 }
        requires idle { loan_of self.old worker ≡ None }
        requires live { over_of self.old ≡ None }
        requires free { is_free self.old proc ≡ true }
        requires room { is_full self.old ≡ false }
        ensures lent { self.new ≡ lending worker proc self.old }
        ensures held { IsLent self.new worker result }
        ensures proc { result.proc ≡ proc }
    {
        let most = self.machinery.most();
        prove!(most == MOST_TASKS);
        let held = self.machinery.lend(proc);
        self.loans[usize::from(worker)] = Some(Loan {
            proc,
            since: self.entries.len() as u64,
        });
        held
    }

    /// Makes an entry by a worker of what a task asked that was lent, under a pick, and ends the loan. An entry that is refused
    /// changes nothing.
    pub(crate) fn make(
        &mut self,
        lent_to: u8,
        worker: u8,
        pick: u16,
        asked: Asked,
    ) -> Result<(), (Asked, Refused)>
        requires small { lent_to < 64 }
        requires asked { IsAsked self.old lent_to asked }
        requires live { over_of self.old ≡ None }
        ensures done { OnOk result (self.new ≡ settled lent_to (with_entry (record { proc = asked.held.proc; pick = pick; worker = worker }) self.old)) }
        ensures runs { OnOk result (IsSome (run_of (with_entry (record { proc = asked.held.proc; pick = pick; worker = worker }) self.old))) }
        ensures here { OnOk result (is_away self.new asked.held.proc ≡ false) }
        ensures picked { IfErr result (λ e. e.1 ≡ Refused.NotPermitted → 0 < pick) }
        ensures range { IfErr result (λ e. e.1 ≡ Refused.NotPermitted → run_of (with_entry (record { proc = asked.held.proc; pick = pick; worker = worker }) self.old) ≡ None) }
        ensures memory { IfErr result (λ e. e.1 ≡ Refused.NoMemory → TakesMemory asked.act) }
        ensures refused { IfErr result (λ e. e.0 ≡ asked) }
        ensures same { OnErr result (self.new ≡ self.old) }
    {
        let proc = asked.held.proc;
        let line = asked.held.hart.line(&self.image);
        let work = added(self.work, asked.work);
        let stop = match self.machinery.act(self.alloc, &self.image, asked, pick) {
            Ok(stop) => stop,
            Err(refused) => return Err(refused),
        };
        let over = over_by(proc, self.entries.len() as u32, stop);
        self.over = over_or(over, self.machinery.end());
        self.line = line_by(over, line);
        self.work = work;
        self.entries.push_reserved(Entry { proc, pick, worker });
        self.loans[usize::from(lent_to)] = None;
        Ok(())
    }

    /// Makes an entry by a worker of what a task asked that was lent to it, and ends the loan. The answer is the pick: the first one
    /// where it is permitted, else 0, which always is.
    pub(crate) fn make_any(&mut self, worker: u8, asked: Asked) -> Result<u16, (Asked, NoMemory)>
        requires small { worker < 64 }
        requires asked { IsAsked self.old worker asked }
        requires live { over_of self.old ≡ None }
        ensures done { IfOk result (λ pick. self.new ≡ settled worker (with_entry (record { proc = asked.held.proc; pick = pick; worker = worker }) self.old)) }
        ensures runs { IfOk result (λ pick. IsSome (run_of (with_entry (record { proc = asked.held.proc; pick = pick; worker = worker }) self.old))) }
        ensures here { OnOk result (is_away self.new asked.held.proc ≡ false) }
        ensures memory { OnErr result (TakesMemory asked.act) }
        ensures refused { IfErr result (λ e. e.0 ≡ asked) }
        ensures same { OnErr result (self.new ≡ self.old) }
    {
        let pick = first_pick(&asked.act, self.entries.len());
        match self.make(worker, worker, pick, asked) {
            Ok(()) => Ok(pick),
            Err((asked, Refused::NoMemory)) => Err((asked, NoMemory)),
            Err((asked, Refused::NotPermitted)) => self.make_first(worker, asked),
        }
    }

    /// The same under pick 0.
    fn make_first(&mut self, worker: u8, asked: Asked) -> Result<u16, (Asked, NoMemory)>
        requires small { worker < 64 }
        requires asked { IsAsked self.old worker asked }
        requires live { over_of self.old ≡ None }
        ensures done { IfOk result (λ pick. self.new ≡ settled worker (with_entry (record { proc = asked.held.proc; pick = pick; worker = worker }) self.old)) }
        ensures runs { IfOk result (λ pick. IsSome (run_of (with_entry (record { proc = asked.held.proc; pick = pick; worker = worker }) self.old))) }
        ensures here { OnOk result (is_away self.new asked.held.proc ≡ false) }
        ensures memory { OnErr result (TakesMemory asked.act) }
        ensures refused { IfErr result (λ e. e.0 ≡ asked) }
        ensures same { OnErr result (self.new ≡ self.old) }
    {
        match self.make(worker, worker, 0, asked) {
            Ok(()) => Ok(0),
            Err((asked, Refused::NoMemory)) => Err((asked, NoMemory)),
            Err((_, Refused::NotPermitted)) => unreachable!(),
        }
    }

    /// Runs what was lent up to its next action, and keeps a copy of it as it was.
    pub(crate) fn run(&self, worker: u8, held: Held) -> Result<(Held, Asked), (Held, NoMemory)>
        requires { IsLent self.now worker held }
        ensures kept { IfOk result (λ r. IsLent self.now worker r.0) }
        ensures asked { IfOk result (λ r. IsAsked self.now worker r.1) }
        ensures proc { IfOk result (λ r. r.1.held.proc ≡ held.proc) }
        ensures refused { IfErr result (λ e. IsLent self.now worker e.0) }
    {
        let kept = match copy(self.alloc, &held) {
            Ok(kept) => kept,
            Err(no_memory) => return Err((held, no_memory)),
        };
        match stretch(self.alloc, &self.image, held) {
            Ok(asked) => Ok((kept, asked)),
            Err(refused) => Err(refused),
        }
    }

    /// The proc of what was done goes on, where it may.
    pub(crate) fn go_on(&mut self, worker: u8, proc: u32) -> After
        requires small { worker < 64 }
        requires idle { loan_of self.old worker ≡ None }
        requires here { is_away self.old proc ≡ false }
        ensures over { (result ≡ After.Over) ↔ IsSome (over_of self.old) }
        ensures new { MatchAfter result (λ held. self.new ≡ lending worker proc self.old) (self.new ≡ self.old) (self.new ≡ self.old) }
        ensures lent { MatchAfter result (IsLent self.new worker) (Unit {0}) (Unit {0}) }
        ensures free { MatchAfter result (λ held. is_free self.old proc ≡ true × is_full self.old ≡ false) (is_free self.old proc ≡ true → is_full self.old ≡ true) (Unit {0}) }
    {
        if self.over().is_some() {
            return After::Over;
        }
        if self.is_full() {
            return After::Idle;
        }
        if self.has_ready(proc) {
            After::Held(self.lend(worker, proc))
        } else {
            After::Idle
        }
    }

    /// Whether a proc has a ready task.
    pub(crate) fn has_ready(&self, proc: u32) -> bool
        ensures { over_of self.now ≡ None → result ≡ has_ready self.now proc }
    {
        self.machinery.first(proc).is_some()
    }

    /// A proc that is not away and has a ready task. Where there is none some proc is away.
    pub(crate) fn choose(&self) -> Option<u32>
        requires { over_of self.now ≡ None }
        ensures some { IfSome result (λ p. is_free self.now p ≡ true) }
        ensures none { IfNone result ((p : ℕ) → is_free self.now p ≡ false) }
        ensures away { IfNone result (0 < away self.now) }
    {
        let most = self.machinery.most();
        prove!(most == MOST_TASKS);
        self.machinery.ready_proc()
    }

    /// Ends a loan. What was lent comes back, which matters no more once the world is over.
    pub(crate) fn end_loan(&mut self, worker: u8, held: Held)
        requires small { worker < 64 }
        requires loan { IfSome (loan_of self.old worker) (λ loan. loan.proc ≡ held.proc) }
        requires lent { IsSome (loan_of self.old worker) }
        requires back { over_of self.old ≡ None → IsLent self.old worker held }
        ensures { self.new ≡ settled worker self.old }
    {
        self.machinery.home(held);
        self.loans[usize::from(worker)] = None;
    }
}
