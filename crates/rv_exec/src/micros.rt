//! What micro-operations do that compute, decide, or reach a private window.

ghost use Rattle.std.specs.Prelude.{◌≡◌, ℕ, ◌+◌, ◌*◌, ◌^◌, ◌<◌, ◌≤◌, IfSome, option_map, true, false, length, slice_index};
ghost use Rattle.rv_isa.specs.declared.instr.LoadOp.TheVariants.{Lw};
ghost use Rattle.rv_isa.specs.declared.instr.StoreOp.TheVariants.{Sw};
ghost use Rattle.rv_exec.specs.Hart.{Hart, put};
ghost use Rattle.rv_exec.specs.Calls.{Privates, Goes};
ghost use Rattle.rv_exec.specs.Micros.{computes, decides};
ghost use Rattle.rv_exec.specs.Seen.{seen, words_of};
ghost use Rattle.rv_exec.specs.Step.{set, jumps, loads, stores_stack, stores_globals};
ghost use Rattle.rv_exec.specs.Windows.{stack_offset, globals_offset};
ghost use Rattle.rv_exec.specs.Words.{computed, is_taken};

use crate::state::{MOST_JUMPS, State};
use crate::windows::{offset_in, read_unit, write_unit};
use crate::words::{computed, is_taken};
use rv_isa::addresses::{GLOBALS_START, STACK_END, STACK_START};
use rv_isa::instr::{BranchOp, RegisterOp};
use rv_isa::micro::MicroOp;

/// The value that an operation computes, if it computes one.
#[inline(always)]
pub fn computes(op: MicroOp, x: u32, y: u32) -> Option<u32>
    ensures { result ≡ option_map (λ op. computed op x y) (computes op) }
{
    Some(match op {
        MicroOp::Add => computed(RegisterOp::Add, x, y),
        MicroOp::Sub => computed(RegisterOp::Sub, x, y),
        MicroOp::Sll => computed(RegisterOp::Sll, x, y),
        MicroOp::Slt => computed(RegisterOp::Slt, x, y),
        MicroOp::Sltu => computed(RegisterOp::Sltu, x, y),
        MicroOp::Xor => computed(RegisterOp::Xor, x, y),
        MicroOp::Srl => computed(RegisterOp::Srl, x, y),
        MicroOp::Sra => computed(RegisterOp::Sra, x, y),
        MicroOp::Or => computed(RegisterOp::Or, x, y),
        MicroOp::And => computed(RegisterOp::And, x, y),
        MicroOp::Mul => computed(RegisterOp::Mul, x, y),
        MicroOp::Mulh => computed(RegisterOp::Mulh, x, y),
        MicroOp::Mulhsu => computed(RegisterOp::Mulhsu, x, y),
        MicroOp::Mulhu => computed(RegisterOp::Mulhu, x, y),
        MicroOp::Div => computed(RegisterOp::Div, x, y),
        MicroOp::Divu => computed(RegisterOp::Divu, x, y),
        MicroOp::Rem => computed(RegisterOp::Rem, x, y),
        MicroOp::Remu => computed(RegisterOp::Remu, x, y),
        _ => return None,
    })
}

/// Whether a branch is taken, if it is one.
#[inline(always)]
pub fn decides(op: MicroOp, x: u32, y: u32) -> Option<bool>
    ensures { result ≡ option_map (λ op. is_taken op x y) (decides op) }
{
    Some(match op {
        MicroOp::Beq => is_taken(BranchOp::Beq, x, y),
        MicroOp::Bne => is_taken(BranchOp::Bne, x, y),
        MicroOp::Blt => is_taken(BranchOp::Blt, x, y),
        MicroOp::Bge => is_taken(BranchOp::Bge, x, y),
        MicroOp::Bltu => is_taken(BranchOp::Bltu, x, y),
        MicroOp::Bgeu => is_taken(BranchOp::Bgeu, x, y),
        _ => return None,
    })
}

/// A word of the private globals, where there is one at the address.
#[inline(always)]
pub fn globals_word(privates: &[u32], address: u32) -> Option<u32>
    requires { length privates.now ≤ 2 ^ 14 }
    ensures { IfSome result (λ word. (rd : ℕ) (h : Hart) → loads Lw rd (words_of privates.now) (globals_offset (4 * length privates.now) 4 address) h (words_of privates.now) ≡ set rd word h (words_of privates.now)) }
{
    let end = GLOBALS_START + 4 * privates.len() as u32;
    match offset_in(GLOBALS_START, end, 4, address) {
        Ok(offset) => Some(read_unit(privates, 4, offset)),
        Err(_) => None,
    }
}

/// Stores a word in the private globals, where the address is theirs.
#[inline(always)]
pub fn put_globals_word(privates: &mut [u32], address: u32, value: u32) -> bool
    requires { length privates.old ≤ 2 ^ 14 }
    ensures put { result ≡ true → (h : Hart) → stores_globals Sw value (globals_offset (4 * length privates.old) 4 address) h (words_of privates.old) ≡ Goes (record h { pc = h.pc + 4 }) (words_of privates.new) }
    ensures kept { result ≡ false → privates.new ≡ privates.old }
{
    let end = GLOBALS_START + 4 * privates.len() as u32;
    match offset_in(GLOBALS_START, end, 4, address) {
        Ok(offset) => {
            write_unit(privates, 4, offset, value);
            true
        }
        Err(_) => false,
    }
}

impl State {
    /// A word of the private stack, where the address is its own.
    #[inline(always)]
    pub fn stack_word(&self, address: u32) -> Option<u32>
        ensures { IfSome result (λ word. (rd : ℕ) (h : Hart) (p : Privates) → loads Lw rd (words_of self.now.stack.items) (stack_offset 4 address) h p ≡ set rd word h p) }
    {
        match offset_in(STACK_START, STACK_END, 4, address) {
            Ok(offset) => Some(read_unit(self.stack.as_slice(), 4, offset)),
            Err(_) => None,
        }
    }

    /// Stores a word in the private stack, where the address is its own and the stack comes so far.
    #[inline(always)]
    pub fn put_stack_word(&mut self, address: u32, value: u32) -> bool
        ensures put { result ≡ true → (pc work : ℕ) (p : Privates) → stores_stack Sw value (stack_offset 4 address) (record (seen self.old) { pc = pc; work = work }) p ≡ Goes (record (seen self.new) { pc = pc + 4; work = work }) p }
        ensures kept { result ≡ false → seen self.new ≡ seen self.old }
        ensures registers { self.new.registers ≡ self.old.registers }
    {
        match offset_in(STACK_START, STACK_END, 4, address) {
            Ok(offset) if ((offset / 4) as usize) < self.stack.len() => {
                write_unit(self.stack.as_mut_slice(), 4, offset, value);
                true
            }
            _ => false,
        }
    }

    /// Ends a run at a word.
    #[inline(always)]
    pub fn stop_at(&mut self, pc: u32, work: u64)
        ensures hart { seen self.new ≡ record (seen self.old) { pc = pc; work = work } }
        ensures pc { self.new.pc ≡ pc }
        ensures work { self.new.work ≡ work }
        ensures registers { self.new.registers ≡ self.old.registers }
    {
        self.pc = pc;
        self.work = work;
    }

    /// Jumps from a word, which counts as work, unless that is one counted jump too many.
    #[inline(always)]
    pub fn leap(&mut self, pc: u32, work: u64, is_counted: bool, target: u32) -> bool
        requires { work + 1 < 2 ^ 64 }
        ensures leapt { result ≡ true → (p : Privates) → Goes (seen self.new) p ≡ jumps is_counted target (record (seen self.old) { pc = pc; work = work + 1 }) (record (seen self.old) { pc = pc; work = work + 1 }) p }
        ensures work { result ≡ true → self.new.work ≡ work + 1 }
        ensures kept { result ≡ false → seen self.new ≡ seen self.old }
        ensures registers { self.new.registers ≡ self.old.registers }
    {
        if is_counted {
            if self.jumps >= MOST_JUMPS {
                return false;
            }
            self.jumps += 1;
        }
        self.stop_at(target, work + 1);
        true
    }

    /// The same with the next word's address in a register.
    #[inline(always)]
    pub fn leap_and_link(
        &mut self,
        pc: u32,
        work: u64,
        is_counted: bool,
        target: u32,
        rd: u8,
    ) -> bool
        requires room { pc + 4 < 2 ^ 32 }
        requires work { work + 1 < 2 ^ 64 }
        requires register { rd < 32 }
        ensures leapt { result ≡ true → (p : Privates) → Goes (seen self.new) p ≡ jumps is_counted target (record (seen self.old) { pc = pc; registers = put (seen self.old).registers rd (pc + 4); work = work + 1 }) (record (seen self.old) { pc = pc; work = work + 1 }) p }
        ensures work { result ≡ true → self.new.work ≡ work + 1 }
        ensures kept { result ≡ false → seen self.new ≡ seen self.old }
        ensures slot { slice_index self.new.registers 32 ≡ slice_index self.old.registers 32 }
    {
        if is_counted {
            if self.jumps >= MOST_JUMPS {
                return false;
            }
            self.jumps += 1;
        }
        self.registers[rd as usize] = pc + 4;
        self.stop_at(target, work + 1);
        true
    }
}
