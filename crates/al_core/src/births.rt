//! What starts.

ghost use Rattle.std.specs.Prelude.{◌≡◌, ◌<◌, ◌≤◌, ◌+◌, ◌^◌, ℕ, List, true, false, length, IfOk, IsTrue, Some, None};
ghost use Rattle.al_event.specs.declared.act.Act.TheVariants as acts;
ghost use Rattle.al_event.specs.declared.act.Start.{Start};
ghost use Rattle.rv_isa.specs.declared.image.Contents.{Contents};
ghost use Rattle.al_world.specs.Procs.{is_full, live_tasks, first_ready};
ghost use Rattle.task_book.specs.Table.{home_of, lives, is_away};
ghost use Rattle.al_core.specs.Asks.{IsStart, IsPar};
ghost use Rattle.al_core.specs.Acting.{Posed, IsDone};
ghost use Rattle.al_core.specs.Preparing.{Prepares, IsPosed, IsStarted, IsBegun, AreBegun, StartsAll};

use crate::machinery::Machinery;
use crate::order::{Begun, Prepared, Stop};
use crate::turn::MOST_TASKS;
use al_base::{NoMemory, Trap};
use al_event::Start;
use rv_exec::{Hart, Privates};
use rv_isa::image::Image;
use std::alloc::Global;
use task_book::Tasks;

/// A task at its start.
fn hart(alloc: Global, image: &Image, start: &Start) -> Result<Hart, NoMemory>
    requires { IsStart image.now start.now }
    ensures { IfOk result (IsStarted image.now start.now) }
{
    Hart::start(alloc, image, start.code, start.words.as_slice())
}

/// The first task of a new proc.
fn begun(alloc: Global, image: &Image, start: &Start) -> Result<Begun, NoMemory>
    requires { IsStart image.now start.now }
    ensures { IfOk result (IsBegun image.now start.now) }
{
    let hart = hart(alloc, image, start)?;
    let privates = Privates::new(alloc, image)?;
    Ok(Begun { hart, privates })
}

/// The first tasks of new procs, in their order.
fn all_begun(alloc: Global, image: &Image, starts: &[Start]) -> Result<Vec<Begun>, NoMemory>
    requires { IsPar image.now starts.now }
    ensures { IfOk result (λ all. AreBegun image.now starts.now all.items) }
{
    let mut all = Vec::with_capacity(alloc, starts.len())?;
    for start in starts {
        all.push(begun(alloc, image, start)?)?;
    }
    Ok(all)
}

/// Starts procs that the task in a slot waits for.
fn start_all(tasks: &mut Tasks, slot: u32, all: Vec<Begun>)
    requires few { length tasks.old.procs + length all.items < 2 ^ 32 }
    requires room { live_tasks tasks.old.procs + length all.items ≤ length tasks.old.tasks }
    requires places { length tasks.old.privates ≡ length tasks.old.procs }
    requires lives { lives tasks.old slot ≡ true }
    requires first { first_ready tasks.old.procs (home_of tasks.old slot) ≡ Some slot }
    requires here { is_away tasks.old (home_of tasks.old slot) ≡ false }
    ensures { StartsAll slot all.items tasks.old tasks.new }
{
    for begun in all {
        match tasks.start_proc(Some(slot), begun.hart, begun.privates) {
            Ok(_) => {}
            Err(_) => unreachable!(),
        }
    }
}

impl Machinery {
    /// Whether there is no room for so many more tasks.
    fn is_full(&self, more: usize) -> bool
        requires { more < 2 ^ 32 }
        ensures { result ≡ is_full self.now.table.procs more }
    {
        self.tasks.live() as usize + more > MOST_TASKS as usize
    }

    pub fn prepare_task(
        &self,
        alloc: Global,
        image: &Image,
        start: &Start,
    ) -> Result<Prepared, NoMemory>
        requires { IsStart image.now start.now }
        ensures { IfOk result (λ what. Prepares image.now (acts.Task start.now) 0 self.now what self.now) }
    {
        if self.is_full(1) {
            return Ok(Prepared::Stop(Stop::Trap(Trap::Tasks)));
        }
        let hart = hart(alloc, image, start)?;
        Ok(Prepared::Task(hart))
    }

    pub fn prepare_proc(
        &self,
        alloc: Global,
        image: &Image,
        start: &Start,
    ) -> Result<Prepared, NoMemory>
        requires { IsStart image.now start.now }
        ensures { IfOk result (λ what. Prepares image.now (acts.Proc start.now) 0 self.now what self.now) }
    {
        if self.is_full(1) {
            return Ok(Prepared::Stop(Stop::Trap(Trap::Tasks)));
        }
        let begun = begun(alloc, image, start)?;
        Ok(Prepared::Proc(begun))
    }

    pub fn prepare_par(
        &self,
        alloc: Global,
        image: &Image,
        starts: &[Start],
    ) -> Result<Prepared, NoMemory>
        requires { IsPar image.now starts.now }
        ensures { IfOk result (λ what. Prepares image.now (acts.Par starts.now) 0 self.now what self.now) }
    {
        if self.is_full(starts.len()) {
            return Ok(Prepared::Stop(Stop::Trap(Trap::Tasks)));
        }
        let all = all_begun(alloc, image, starts)?;
        Ok(Prepared::Par(all))
    }

    /// A task starts in the same proc.
    pub fn start_task(&mut self, slot: u32, proc: u32, hart: Hart)
        requires posed { (start : Start) × IsPosed (acts.Task start) slot self.old }
        requires home { home_of self.old.table slot ≡ proc }
        requires room { is_full self.old.table.procs 1 ≡ false }
        ensures { (image : Contents) (start : Start) (P : Posed image slot (acts.Task start) self.old) → IsStarted image start hart → IsDone image slot (acts.Task start) self.old P 0 None self.new }
    {
        self.tasks.answer(slot, &[]);
        match self.tasks.start_task(proc, hart) {
            Ok(_) => {}
            Err(_) => unreachable!(),
        }
    }

    /// A proc starts.
    pub fn start_proc(&mut self, slot: u32, begun: Begun)
        requires posed { (start : Start) × IsPosed (acts.Proc start) slot self.old }
        requires room { is_full self.old.table.procs 1 ≡ false }
        ensures { (image : Contents) (start : Start) (P : Posed image slot (acts.Proc start) self.old) → IsBegun image start begun → IsDone image slot (acts.Proc start) self.old P 0 None self.new }
    {
        self.tasks.answer(slot, &[]);
        match self.tasks.start_proc(None, begun.hart, begun.privates) {
            Ok(_) => {}
            Err(_) => unreachable!(),
        }
    }

    /// Procs start, and the task waits for them.
    pub fn start_par(&mut self, slot: u32, all: Vec<Begun>)
        requires posed { (starts : List Start) × IsPosed (acts.Par starts) slot self.old × (length starts ≡ length all.items) }
        requires room { is_full self.old.table.procs (length all.items) ≡ false }
        ensures { (image : Contents) (starts : List Start) (P : Posed image slot (acts.Par starts) self.old) → AreBegun image starts all.items → IsDone image slot (acts.Par starts) self.old P 0 None self.new }
    {
        start_all(&mut self.tasks, slot, all);
        self.tasks.block(slot);
    }
}
