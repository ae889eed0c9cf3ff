//! Loads and stores.

ghost use Rattle.std.specs.Prelude.{◌≡◌, ℕ, ◌+◌, ◌*◌, ◌%◌, ◌<◌, ◌≤◌, ◌^◌, IfOk, OnErr, length, IfSome};
ghost use Rattle.rv_exec.specs.Windows.{window_of};
ghost use Rattle.rv_exec.specs.declared.windows.Window.TheVariants.{Stack, Globals, Shared};
ghost use Rattle.rv_exec.specs.Step.{loads_at, stores_at};
ghost use Rattle.rv_exec.specs.Seen.{seen, words_of, move_of};
ghost use Rattle.rv_exec.specs.Answers.{IsReady};

use crate::state::{State, Waits};
use crate::windows::{Window, offset_in, reach, read_unit, window_of, write_unit};
use crate::words::{extended, load_size, store_size};
use al_base::NoMemory;
use al_event::Act;
use rv_isa::addresses::{GLOBALS_START, STACK_END, STACK_START};
use rv_isa::instr::{LoadOp, StoreOp};

impl State {
    /// A load, by the base register's number.
    pub fn load(
        &mut self,
        privates: &[u32],
        op: LoadOp,
        rd: u8,
        rs1: u8,
        address: u32,
    ) -> Option<Act>
        requires register { rd < 32 }
        requires room { self.old.pc + 4 < 2 ^ 32 }
        requires few { length privates.now ≤ 2 ^ 14 }
        ensures asked { move_of result (seen self.new) (words_of privates.now) ≡ loads_at (window_of rs1) op rd address (4 * length privates.now) (seen self.old) (words_of privates.now) }
        ensures ready { IfSome result (λ act. IsReady self.new act) }
        ensures work { self.new.work ≡ self.old.work }
    {
        match window_of(rs1) {
            Window::Stack => self.load_stack(op, rd, address),
            Window::Globals => self.load_globals(privates, op, rd, address),
            Window::Shared => self.load_shared(op, rd, address),
        }
    }

    fn load_stack(&mut self, op: LoadOp, rd: u8, address: u32) -> Option<Act>
        requires register { rd < 32 }
        requires room { self.old.pc + 4 < 2 ^ 32 }
        ensures asked { (bytes : ℕ) (p : ℕ → ℕ) → move_of result (seen self.new) p ≡ loads_at Stack op rd address bytes (seen self.old) p }
        ensures ready { IfSome result (λ act. IsReady self.new act) }
        ensures work { self.new.work ≡ self.old.work }
    {
        match offset_in(STACK_START, STACK_END, load_size(op), address) {
            Ok(offset) => {
                let unit = read_unit(self.stack.as_slice(), load_size(op), offset);
                self.set(rd, extended(op, unit));
                None
            }
            Err(trap) => self.trap(trap),
        }
    }

    fn load_globals(&mut self, privates: &[u32], op: LoadOp, rd: u8, address: u32) -> Option<Act>
        requires register { rd < 32 }
        requires room { self.old.pc + 4 < 2 ^ 32 }
        requires few { length privates.now ≤ 2 ^ 14 }
        ensures asked { move_of result (seen self.new) (words_of privates.now) ≡ loads_at Globals op rd address (4 * length privates.now) (seen self.old) (words_of privates.now) }
        ensures ready { IfSome result (λ act. IsReady self.new act) }
        ensures work { self.new.work ≡ self.old.work }
    {
        let end = GLOBALS_START + 4 * privates.len() as u32;
        match offset_in(GLOBALS_START, end, load_size(op), address) {
            Ok(offset) => {
                let unit = read_unit(privates, load_size(op), offset);
                self.set(rd, extended(op, unit));
                None
            }
            Err(trap) => self.trap(trap),
        }
    }

    fn load_shared(&mut self, op: LoadOp, rd: u8, address: u32) -> Option<Act>
        requires register { rd < 32 }
        requires room { self.old.pc + 4 < 2 ^ 32 }
        ensures asked { (bytes : ℕ) (p : ℕ → ℕ) → move_of result (seen self.new) p ≡ loads_at Shared op rd address bytes (seen self.old) p }
        ensures ready { IfSome result (λ act. IsReady self.new act) }
        ensures work { self.new.work ≡ self.old.work }
    {
        let act = Act::Load {
            at: address,
            size: load_size(op),
        };
        self.ask(Waits::Unit { op, rd }, act)
    }

    /// A store, by the base register's number.
    pub fn store(
        &mut self,
        privates: &mut [u32],
        op: StoreOp,
        rs1: u8,
        address: u32,
        value: u32,
    ) -> Result<Option<Act>, NoMemory>
        requires room { self.old.pc + 4 < 2 ^ 32 }
        requires few { length privates.old ≤ 2 ^ 14 }
        ensures asked { IfOk result (λ asked. move_of asked (seen self.new) (words_of privates.new) ≡ stores_at (window_of rs1) op value address (4 * length privates.old) (seen self.old) (words_of privates.old)) }
        ensures ready { IfOk result (λ asked. IfSome asked (λ act. IsReady self.new act)) }
        ensures work { IfOk result (λ asked. self.new.work ≡ self.old.work) }
        ensures kept { OnErr result (privates.new ≡ privates.old) }
        ensures same { OnErr result (seen self.new ≡ seen self.old) }
    {
        match window_of(rs1) {
            Window::Stack => self.store_stack(op, address, value),
            Window::Globals => Ok(self.store_globals(privates, op, address, value)),
            Window::Shared => Ok(self.store_shared(op, address, value)),
        }
    }

    fn store_stack(
        &mut self,
        op: StoreOp,
        address: u32,
        value: u32,
    ) -> Result<Option<Act>, NoMemory>
        requires room { self.old.pc + 4 < 2 ^ 32 }
        ensures asked { IfOk result (λ asked. (bytes : ℕ) (p : ℕ → ℕ) → move_of asked (seen self.new) p ≡ stores_at Stack op value address bytes (seen self.old) p) }
        ensures ready { IfOk result (λ asked. IfSome asked (λ act. IsReady self.new act)) }
        ensures work { IfOk result (λ asked. self.new.work ≡ self.old.work) }
        ensures same { OnErr result (seen self.new ≡ seen self.old) }
    {
        match offset_in(STACK_START, STACK_END, store_size(op), address) {
            Ok(offset) => {
                reach(&mut self.stack, (offset / 4) as usize)?;
                write_unit(self.stack.as_mut_slice(), store_size(op), offset, value);
                self.pc += 4;
                Ok(None)
            }
            Err(trap) => Ok(self.trap(trap)),
        }
    }

    fn store_globals(
        &mut self,
        privates: &mut [u32],
        op: StoreOp,
        address: u32,
        value: u32,
    ) -> Option<Act>
        requires room { self.old.pc + 4 < 2 ^ 32 }
        requires few { length privates.old ≤ 2 ^ 14 }
        ensures asked { move_of result (seen self.new) (words_of privates.new) ≡ stores_at Globals op value address (4 * length privates.old) (seen self.old) (words_of privates.old) }
        ensures ready { IfSome result (λ act. IsReady self.new act) }
        ensures work { self.new.work ≡ self.old.work }
    {
        let end = GLOBALS_START + 4 * privates.len() as u32;
        match offset_in(GLOBALS_START, end, store_size(op), address) {
            Ok(offset) => {
                write_unit(privates, store_size(op), offset, value);
                self.pc += 4;
                None
            }
            Err(trap) => self.trap(trap),
        }
    }

    fn store_shared(&mut self, op: StoreOp, address: u32, value: u32) -> Option<Act>
        requires room { self.old.pc + 4 < 2 ^ 32 }
        ensures asked { (bytes : ℕ) (p : ℕ → ℕ) → move_of result (seen self.new) p ≡ stores_at Shared op value address bytes (seen self.old) p }
        ensures ready { IfSome result (λ act. IsReady self.new act) }
        ensures work { self.new.work ≡ self.old.work }
    {
        let word = match op {
            StoreOp::Sb => value % (1 << 8),
            StoreOp::Sh => value % (1 << 16),
            StoreOp::Sw => value,
        };
        let act = Act::Store {
            at: address,
            size: store_size(op),
            word,
        };
        self.ask(Waits::Done, act)
    }
}
