//! Actions that answer the task at once, or trap.

ghost use Rattle.std.specs.Prelude.{◌≡◌, ◌<◌, ◌+◌, ◌^◌, length, IfOk, OnErr, IsSomeAnd};
ghost use Rattle.al_event.specs.declared.act.Act.TheVariants as acts;
ghost use Rattle.al_store.specs.Memory.{IsWidth};
ghost use Rattle.al_world.specs.Actions.{free_trap};
ghost use Rattle.chan_book.specs.Book.{trap_of};
ghost use Rattle.rv_isa.specs.declared.image.Contents.{Contents};
ghost use Rattle.rv_exec.specs.Shown.{CanTake};
ghost use Rattle.task_book.specs.Table.{hart_of};
ghost use Rattle.task_book.specs.Lending.{TakesAnswer};
ghost use Rattle.al_core.specs.Preparing.{Prepares, with_table, word_in};

use crate::machinery::Machinery;
use crate::order::{Prepared, Stop};
use al_base::{NoMemory, Trap};
use al_event::Block;
use chan_book::ChanFault;

/// The trap that a cause stands for.
fn trap_of(fault: ChanFault) -> Trap
    ensures { result ≡ trap_of fault }
{
    match fault {
        ChanFault::Chan => Trap::Chan,
        ChanFault::Busy => Trap::Busy,
    }
}

/// The trap of a block that is not there: only a heap block traps by its own.
fn free_trap(kind: Block, trap: Trap) -> Trap
    ensures { result ≡ free_trap kind trap }
{
    match kind {
        Block::Heap => trap,
        Block::Frame | Block::Global => Trap::Illegal,
    }
}

impl Machinery {
    pub fn load(&self, at: u32, size: u8) -> Prepared
        requires { IsWidth size }
        ensures { (image : Contents) → Prepares image (acts.Load at size) 0 self.now result self.now }
    {
        match self.store.load(at, size) {
            Ok(word) => Prepared::Answer(Some(word)),
            Err(trap) => Prepared::Stop(Stop::Trap(trap)),
        }
    }

    pub fn store(&mut self, at: u32, size: u8, word: u32) -> Prepared
        requires { IsWidth size }
        ensures { (image : Contents) → Prepares image (acts.Store at size word) 0 self.old result self.new }
    {
        match self.store.store(at, size, word) {
            Ok(()) => Prepared::Answer(None),
            Err(trap) => Prepared::Stop(Stop::Trap(trap)),
        }
    }

    pub fn alloc_block(&mut self, bytes: u32, kind: Block) -> Prepared
        requires { 0 < bytes }
        ensures { (image : Contents) → Prepares image (acts.Alloc bytes kind) 0 self.old result self.new }
    {
        match self.store.alloc_block(bytes, kind) {
            Ok(at) => Prepared::Answer(Some(at)),
            Err(trap) => Prepared::Stop(Stop::Trap(trap)),
        }
    }

    pub fn free_block(&mut self, at: u32, kind: Block) -> Prepared
        ensures { (image : Contents) → Prepares image (acts.Free at kind) 0 self.old result self.new }
    {
        match self.store.free_block(at, kind) {
            Ok(()) => Prepared::Answer(None),
            Err(trap) => Prepared::Stop(Stop::Trap(free_trap(kind, trap))),
        }
    }

    pub fn make_channel(&mut self, capacity: u32, words: u32) -> Result<Prepared, NoMemory>
        requires { length self.old.book.book.channels + 1 < 2 ^ 32 }
        ensures made { IfOk result (λ what. (image : Contents) → Prepares image (acts.NewChan capacity words) 0 self.old what self.new) }
        ensures same { OnErr result (self.new ≡ self.old) }
    {
        let number = self.book.make(capacity, words)?;
        Ok(Prepared::Answer(Some(number)))
    }

    pub fn give_up(&mut self, chan: u32) -> Prepared
        ensures { (image : Contents) → Prepares image (acts.FreeChan chan) 0 self.old result self.new }
    {
        match self.book.give_up(chan) {
            Ok(()) => Prepared::Answer(None),
            Err(fault) => Prepared::Stop(Stop::Trap(trap_of(fault))),
        }
    }

    pub fn can_recv(&self, chan: u32) -> Prepared
        ensures { (image : Contents) → Prepares image (acts.CanRecv chan) 0 self.now result self.now }
    {
        match self.book.can_recv(chan) {
            Ok(answer) => Prepared::Answer(Some(u32::from(answer))),
            Err(fault) => Prepared::Stop(Stop::Trap(trap_of(fault))),
        }
    }

    pub fn can_send(&self, chan: u32) -> Prepared
        ensures { (image : Contents) → Prepares image (acts.CanSend chan) 0 self.now result self.now }
    {
        match self.book.can_send(chan) {
            Ok(answer) => Prepared::Answer(Some(u32::from(answer))),
            Err(fault) => Prepared::Stop(Stop::Trap(trap_of(fault))),
        }
    }

    pub fn print(&mut self, text: &[u8]) -> Result<Prepared, NoMemory>
        ensures shown { IfOk result (λ what. (image : Contents) → Prepares image (acts.Print text.now) 0 self.old what self.new) }
        ensures same { OnErr result (self.new ≡ self.old) }
    {
        self.output.extend_from_slice(text)?;
        Ok(Prepared::Answer(None))
    }

    /// Goes on with a task by a word, or by none.
    pub fn answer(&mut self, slot: u32, word: Option<u32>)
        requires { IsSomeAnd (hart_of self.old.table slot) (λ hart. CanTake hart (word_in word)) }
        ensures takes { TakesAnswer self.old.table slot (word_in word) self.new.table }
        ensures rest { self.new ≡ with_table self.new.table self.old }
    {
        match word {
            Some(word) => self.tasks.answer(slot, &[word]),
            None => self.tasks.answer(slot, &[]),
        }
    }
}
