//! Runtime calls.

ghost use Rattle.std.specs.Prelude.{◌≡◌, ℕ, ◌+◌, ◌*◌, ◌<◌, ◌≤◌, ◌^◌, IfOk, option_map, [], OnErr, IfSome};
ghost use Rattle.al_base.specs.Trap.{trap_of};
ghost use Rattle.rv_exec.specs.Calls.{called, composed, decimal_text, hexadecimal_text, block_of, alloc_act, free_act, channel_act, asks, asks_if_any, start_of, talk_act};
ghost use Rattle.rv_exec.specs.declared.state.Waits.TheVariants.{Done, Talk};
ghost use Rattle.rv_exec.specs.Seen.{seen, move_of};
ghost use Rattle.rv_exec.specs.Answers.{IsReady, IsPlain, HasRoom};

use crate::state::{State, Waits};
use al_base::{NoMemory, Trap};
use al_event::{Act, Block, Branches};
use al_items::Items;
use itoa::Buffer;
use rv_isa::image::Contents;
use std::alloc::Global;
use std::mem;

/// A text being composed has at most this many bytes.
const LONGEST_TEXT: usize = 1024;

impl State {
    /// Asks an action, or traps where there is none.
    fn ask_if_any(&mut self, waits: Waits, act: Option<Act>) -> Option<Act>
        requires room { self.old.pc + 4 < 2 ^ 32 }
        requires waits { IsPlain waits }
        ensures asked { (p : ℕ → ℕ) → move_of result (seen self.new) p ≡ asks_if_any waits act (seen self.old) p }
        ensures ready { IfSome result (λ act. IsReady self.new act) }
        ensures work { self.new.work ≡ self.old.work }
    {
        match act {
            Some(act) => self.ask(waits, act),
            None => self.trap(Trap::Illegal),
        }
    }

    /// Adds a piece to the text.
    fn compose(&mut self, piece: &[u8]) -> Result<Option<Act>, NoMemory>
        requires room { self.old.pc + 4 < 2 ^ 32 }
        ensures asked { IfOk result (λ asked. (p : ℕ → ℕ) → move_of asked (seen self.new) p ≡ composed piece.now (seen self.old) p) }
        ensures ready { IfOk result (λ asked. IfSome asked (λ act. IsReady self.new act)) }
        ensures work { IfOk result (λ asked. self.new.work ≡ self.old.work) }
        ensures same { OnErr result (seen self.new ≡ seen self.old) }
    {
        if self.text.len() + piece.len() <= LONGEST_TEXT {
            self.text.extend_from_slice(piece)?;
            self.pc += 4;
            Ok(None)
        } else {
            Ok(self.trap(Trap::Print))
        }
    }

    /// Adds a decimal number of two words to the text, signed where kind is 1.
    fn compose_decimal(&mut self, low: u32, high: u32, kind: u32) -> Result<Option<Act>, NoMemory>
        requires room { self.old.pc + 4 < 2 ^ 32 }
        ensures asked { IfOk result (λ asked. (p : ℕ → ℕ) → move_of asked (seen self.new) p ≡ composed (decimal_text low high kind) (seen self.old) p) }
        ensures ready { IfOk result (λ asked. IfSome asked (λ act. IsReady self.new act)) }
        ensures work { IfOk result (λ asked. self.new.work ≡ self.old.work) }
        ensures same { OnErr result (seen self.new ≡ seen self.old) }
    {
        let number = low as u64 + high as u64 * (1 << 32);
        let mut buffer = Buffer::new();
        if kind == 1 {
            self.compose(buffer.format(number.cast_signed()).as_bytes())
        } else {
            self.compose(buffer.format(number).as_bytes())
        }
    }

    /// Adds a hexadecimal number of two words to the text.
    fn compose_hexadecimal(
        &mut self,
        alloc: Global,
        low: u32,
        high: u32,
    ) -> Result<Option<Act>, NoMemory>
        requires room { self.old.pc + 4 < 2 ^ 32 }
        ensures asked { IfOk result (λ asked. (p : ℕ → ℕ) → move_of asked (seen self.new) p ≡ composed (hexadecimal_text low high) (seen self.old) p) }
        ensures ready { IfOk result (λ asked. IfSome asked (λ act. IsReady self.new act)) }
        ensures work { IfOk result (λ asked. self.new.work ≡ self.old.work) }
        ensures same { OnErr result (seen self.new ≡ seen self.old) }
    {
        let number = low as u64 + high as u64 * (1 << 32);
        let piece = format!(in alloc; "{number:x}")?;
        self.compose(piece.as_bytes())
    }

    /// Asks to print the text, which is empty from then on.
    fn print(&mut self, alloc: Global) -> Option<Act>
        requires room { self.old.pc + 4 < 2 ^ 32 }
        ensures asked { (p : ℕ → ℕ) → move_of result (seen self.new) p ≡ asks Done (Act.Print (seen self.old).text) (record (seen self.old) { text = [] }) p }
        ensures ready { IfSome result (λ act. IsReady self.new act) }
        ensures work { self.new.work ≡ self.old.work }
    {
        let text = mem::replace(&mut self.text, Vec::new(alloc));
        self.ask(
            Waits::Done,
            Act::Print {
                text: Items::from_vec(text),
            },
        )
    }
}

impl State {
    /// A runtime call, by its number.
    pub fn call(
        &mut self,
        alloc: Global,
        image: &Contents,
        number: u32,
    ) -> Result<Option<Act>, NoMemory>
        requires room { self.old.pc + 4 < 2 ^ 32 }
        ensures asked { IfOk result (λ asked. (p : ℕ → ℕ) → move_of asked (seen self.new) p ≡ called number image.now (seen self.old) p) }
        ensures ready { IfOk result (λ asked. IfSome asked (λ act. IsReady self.new act)) }
        ensures work { IfOk result (λ asked. self.new.work ≡ self.old.work) }
        ensures same { OnErr result (seen self.new ≡ seen self.old) }
    {
        let x10 = self.register(10);
        let x11 = self.register(11);
        let x12 = self.register(12);
        match number {
            1 => Ok(self.ask(Waits::Done, Act::End)),
            2 => Ok(self.ask(Waits::Done, Act::Pause)),
            3 => Ok(self.ask_if_any(Waits::Done, trap_act(x10))),
            4 => Ok(self.ask_if_any(Waits::Word, alloc_act(x10, x11))),
            5 => Ok(self.ask_if_any(Waits::Done, free_act(x10, x11))),
            6 => Ok(self.ask_if_any(Waits::Word, channel_act(x10, x11))),
            7 => Ok(self.ask(Waits::Done, Act::FreeChan { chan: x10 })),
            8 => Ok(self.ask(Waits::Word, Act::CanRecv { chan: x10 })),
            9 => Ok(self.ask(Waits::Word, Act::CanSend { chan: x10 })),
            10 => self.call_talk(alloc),
            11 => self.call_proc(alloc, image, x10, x11, x12),
            12 => self.call_task(alloc, image, x10, x11, x12),
            13 => self.call_par(alloc, image),
            14 => Ok(self.print(alloc)),
            15 => Ok(self.ask(Waits::Done, Act::Terminate(x10.cast_signed()))),
            16 => self.compose(&[(x10 % 256) as u8]),
            17 => self.compose_decimal(x10, x11, x12),
            18 => self.compose_hexadecimal(alloc, x10, x11),
            _ => Ok(self.trap(Trap::Illegal)),
        }
    }

    /// Before it asks it makes room for what may be received, since going on with an answer takes no memory.
    fn call_talk(&mut self, alloc: Global) -> Result<Option<Act>, NoMemory>
        requires room { self.old.pc + 4 < 2 ^ 32 }
        ensures asked { IfOk result (λ asked. (p : ℕ → ℕ) → move_of asked (seen self.new) p ≡ asks_if_any Talk (talk_act (seen self.old)) (seen self.old) p) }
        ensures ready { IfOk result (λ asked. IfSome asked (λ act. IsReady self.new act)) }
        ensures work { IfOk result (λ asked. self.new.work ≡ self.old.work) }
        ensures same { OnErr result (seen self.new ≡ seen self.old) }
    {
        match self.talk_branches(alloc)? {
            Some(branches) => {
                self.make_room(branches.as_slice())?;
                Ok(Some(self.talk(branches)))
            }
            None => Ok(self.trap(Trap::Illegal)),
        }
    }

    /// Asks to talk, with room for what the branches receive.
    fn talk(&mut self, branches: Branches) -> Act
        requires near { self.old.pc + 4 < 2 ^ 32 }
        requires room { HasRoom self.old branches }
        ensures act { result ≡ Act.Talk branches }
        ensures hart { seen self.new ≡ record (seen self.old) { waits = Talk } }
        ensures ready { IsReady self.new result }
        ensures work { self.new.work ≡ self.old.work }
    {
        self.waits = Waits::Talk;
        Act::Talk { branches }
    }

    fn call_proc(
        &mut self,
        alloc: Global,
        image: &Contents,
        function: u32,
        address: u32,
        count: u32,
    ) -> Result<Option<Act>, NoMemory>
        requires room { self.old.pc + 4 < 2 ^ 32 }
        ensures asked { IfOk result (λ asked. (p : ℕ → ℕ) → move_of asked (seen self.new) p ≡ asks_if_any Done (option_map (λ start. Act.Proc start) (start_of image.now (seen self.old) function address count)) (seen self.old) p) }
        ensures ready { IfOk result (λ asked. IfSome asked (λ act. IsReady self.new act)) }
        ensures work { IfOk result (λ asked. self.new.work ≡ self.old.work) }
        ensures same { OnErr result (seen self.new ≡ seen self.old) }
    {
        match self.start_of(alloc, image, function, address, count)? {
            Some(start) => Ok(self.ask(Waits::Done, Act::Proc(start))),
            None => Ok(self.trap(Trap::Illegal)),
        }
    }

    fn call_task(
        &mut self,
        alloc: Global,
        image: &Contents,
        function: u32,
        address: u32,
        count: u32,
    ) -> Result<Option<Act>, NoMemory>
        requires room { self.old.pc + 4 < 2 ^ 32 }
        ensures asked { IfOk result (λ asked. (p : ℕ → ℕ) → move_of asked (seen self.new) p ≡ asks_if_any Done (option_map (λ start. Act.Task start) (start_of image.now (seen self.old) function address count)) (seen self.old) p) }
        ensures ready { IfOk result (λ asked. IfSome asked (λ act. IsReady self.new act)) }
        ensures work { IfOk result (λ asked. self.new.work ≡ self.old.work) }
        ensures same { OnErr result (seen self.new ≡ seen self.old) }
    {
        match self.start_of(alloc, image, function, address, count)? {
            Some(start) => Ok(self.ask(Waits::Done, Act::Task(start))),
            None => Ok(self.trap(Trap::Illegal)),
        }
    }

    fn call_par(&mut self, alloc: Global, image: &Contents) -> Result<Option<Act>, NoMemory>
        requires room { self.old.pc + 4 < 2 ^ 32 }
        ensures asked { IfOk result (λ asked. (p : ℕ → ℕ) → move_of asked (seen self.new) p ≡ called 13 image.now (seen self.old) p) }
        ensures ready { IfOk result (λ asked. IfSome asked (λ act. IsReady self.new act)) }
        ensures work { IfOk result (λ asked. self.new.work ≡ self.old.work) }
        ensures same { OnErr result (seen self.new ≡ seen self.old) }
    {
        let act = self.par_act(alloc, image)?;
        Ok(self.ask_if_any(Waits::Done, act))
    }
}

fn block_of(kind: u32) -> Option<Block>
    ensures { result ≡ block_of kind }
{
    match kind {
        1 => Some(Block::Heap),
        2 => Some(Block::Frame),
        _ => None,
    }
}

/// An allocation of at least a byte, for the heap or a frame.
fn alloc_act(bytes: u32, kind: u32) -> Option<Act>
    ensures { result ≡ alloc_act bytes kind }
{
    if bytes == 0 {
        return None;
    }
    match block_of(kind) {
        Some(kind) => Some(Act::Alloc { bytes, kind }),
        None => None,
    }
}

fn free_act(at: u32, kind: u32) -> Option<Act>
    ensures { result ≡ free_act at kind }
{
    match block_of(kind) {
        Some(kind) => Some(Act::Free { at, kind }),
        None => None,
    }
}

/// A channel within the bounds.
fn channel_act(capacity: u32, words: u32) -> Option<Act>
    ensures { result ≡ channel_act capacity words }
{
    if capacity <= 4096 && words <= 1024 {
        Some(Act::NewChan { capacity, words })
    } else {
        None
    }
}

fn trap_act(number: u32) -> Option<Act>
    ensures { result ≡ option_map (λ trap. Act.Trap trap) (trap_of number) }
{
    match Trap::of_number(number) {
        Some(trap) => Some(Act::Trap(trap)),
        None => None,
    }
}
