//! An action is done: what may lack memory or is not permitted comes first, then the task comes home, and the tasks follow.

ghost use Rattle.std.specs.Prelude.{◌≡◌, ◌≢◌, ◌<◌, ◌≤◌, ◌+◌, ◌^◌, ℕ, true, false, length, IfOk, IfErr, OnOk, OnErr, Ok, Err, Some, None};
ghost use Rattle.al_event.specs.declared.act.Act.{Act};
ghost use Rattle.al_event.specs.declared.act.Act.TheVariants as acts;
ghost use Rattle.rv_isa.specs.declared.image.Contents.{Contents};
ghost use Rattle.al_world.specs.Procs.{first_ready};
ghost use Rattle.al_world.specs.Actions.{performs};
ghost use Rattle.task_book.specs.Table.{Table, home_of, is_away};
ghost use Rattle.al_core.specs.Asks.{IsAskable};
ghost use Rattle.al_core.specs.Lends.{TakesMemory};
ghost use Rattle.al_core.specs.Stands.{task_at};
ghost use Rattle.al_core.specs.Acting.{Machinery as Parts, Posed, IsDone};
ghost use Rattle.al_core.specs.Preparing.{Prepares, NeedsPick, IsNoTalk, Finishes, IsLeft, IsHomed, with_home, over_of};

use crate::machinery::Machinery;
use crate::order::{Prepared, Refused, Stop};
use al_base::NoMemory;
use al_event::Act;
use rv_exec::Asked;
use rv_isa::image::Image;
use std::alloc::Global;

/// The program ends itself with a status.
fn stopped(status: &i32) -> Stop
    ensures { result ≡ Stop.Status status.now }
{
    let status = *status;
    Stop::Status(status)
}

impl Machinery {
    /// Prepares an action that is no talk.
    fn prepare_act(&mut self, alloc: Global, image: &Image, act: &Act) -> Result<Prepared, NoMemory>
        requires askable { IsAskable image.now act.now }
        requires few { length self.old.book.book.channels + 1 < 2 ^ 32 }
        requires no_talk { IsNoTalk act.now }
        ensures prepared { IfOk result (λ what. Prepares image.now act.now 0 self.old what self.new) }
        ensures memory { OnErr result (TakesMemory act.now) }
        ensures same { OnErr result (self.new ≡ self.old) }
    {
        match act {
            Act::Load { at, size } => Ok(self.load(*at, *size)),
            Act::Store { at, size, word } => Ok(self.store(*at, *size, *word)),
            Act::Alloc { bytes, kind } => Ok(self.alloc_block(*bytes, *kind)),
            Act::Free { at, kind } => Ok(self.free_block(*at, *kind)),
            Act::NewChan { capacity, words } => self.make_channel(*capacity, *words),
            Act::FreeChan { chan } => Ok(self.give_up(*chan)),
            Act::CanRecv { chan } => Ok(self.can_recv(*chan)),
            Act::CanSend { chan } => Ok(self.can_send(*chan)),
            Act::Talk { branches: _ } => unreachable!(),
            Act::Proc(start) => self.prepare_proc(alloc, image, start),
            Act::Task(start) => self.prepare_task(alloc, image, start),
            Act::Par { starts } => self.prepare_par(alloc, image, starts.as_slice()),
            Act::Print { text } => self.print(text.as_slice()),
            Act::Terminate(status) => Ok(Prepared::Stop(stopped(status))),
            Act::Pause => Ok(Prepared::Answer(None)),
            Act::Trap(trap) => Ok(Prepared::Stop(Stop::Trap(*trap))),
            Act::End => Ok(Prepared::End),
        }
    }

    /// Prepares an action under a pick. An action that is refused changes nothing; none is under pick 0 but for want of memory.
    pub fn prepare(
        &mut self,
        alloc: Global,
        image: &Image,
        act: &Act,
        pick: u16,
    ) -> Result<Prepared, Refused>
        requires askable { IsAskable image.now act.now }
        requires few { length self.old.book.book.channels + 1 < 2 ^ 32 }
        ensures prepared { IfOk result (λ what. Prepares image.now act.now pick self.old what self.new) }
        ensures range { result ≡ Err Refused.NotPermitted → NeedsPick act.now pick self.old }
        ensures memory { result ≡ Err Refused.NoMemory → TakesMemory act.now }
        ensures same { OnErr result (self.new ≡ self.old) }
    {
        if let Act::Talk { branches } = act {
            return match self.prepare_talk(branches.as_slice(), pick) {
                Some(what) => Ok(what),
                None => Err(Refused::NotPermitted),
            };
        }
        if pick > 0 {
            return Err(Refused::NotPermitted);
        }
        match self.prepare_act(alloc, image, act) {
            Ok(what) => Ok(what),
            Err(NoMemory) => Err(Refused::NoMemory),
        }
    }

    /// Does what is left of an action. It gives how the action ends the world, if it does.
    fn finish(&mut self, slot: u32, proc: u32, act: Act, pick: u16, what: Prepared) -> Option<Stop>
        requires left { IsLeft slot proc act pick what self.old }
        ensures { (image : Contents) (m : Parts) (P : Posed image slot act m) → self.old.table ≡ m.table → Finishes image slot act m P pick what self.old → IsDone image slot act m P pick (over_of P result) self.new }
    {
        match what {
            Prepared::Answer(word) => {
                self.answer(slot, word);
                None
            }
            Prepared::Stop(stop) => Some(stop),
            Prepared::Goes => {
                let Act::Talk { branches } = act else {
                    unreachable!();
                };
                self.go(slot, branches, pick);
                None
            }
            Prepared::Waits => {
                let Act::Talk { branches } = act else {
                    unreachable!();
                };
                self.wait(slot, branches);
                None
            }
            Prepared::Task(hart) => {
                self.start_task(slot, proc, hart);
                None
            }
            Prepared::Proc(begun) => {
                self.start_proc(slot, begun);
                None
            }
            Prepared::Par(all) => {
                self.start_par(slot, all);
                None
            }
            Prepared::End => {
                self.finish_task(slot);
                None
            }
        }
    }

    /// Does what a task asked that is away, under a pick. It gives how the action ends the world, if it does. Where it is
    /// refused nothing changes.
    pub fn act(
        &mut self,
        alloc: Global,
        image: &Image,
        asked: Asked,
        pick: u16,
    ) -> Result<Option<Stop>, (Asked, Refused)>
        requires { IsHomed image.now asked self.old }
        ensures done { IfOk result (λ stop. (slot : ℕ) → first_ready self.old.table.procs asked.held.proc ≡ Some slot → (P : Posed image.now slot asked.act (with_home asked.held self.old)) → IsDone image.now slot asked.act (with_home asked.held self.old) P pick (over_of P stop) self.new) }
        ensures range { IfErr result (λ e. e.1 ≡ Refused.NotPermitted → NeedsPick asked.act pick self.old) }
        ensures memory { IfErr result (λ e. e.1 ≡ Refused.NoMemory → TakesMemory asked.act) }
        ensures refused { IfErr result (λ e. e.0 ≡ asked) }
        ensures same { OnErr result (self.new ≡ self.old) }
    {
        let what = match self.prepare(alloc, image, &asked.act, pick) {
            Ok(what) => what,
            Err(refused) => return Err((asked, refused)),
        };
        let Asked { held, act, .. } = asked;
        let proc = held.proc;
        let Some(slot) = self.first(proc) else {
            unreachable!();
        };
        self.home(held);
        Ok(self.finish(slot, proc, act, pick, what))
    }
}
