//! Runs: a stretch goes on by micro-operations as far as they ask nothing, take no memory and do not trap.

ghost use Rattle.std.specs.Prelude.{◌≡◌, ℕ, ◌+◌, ◌-◌, ◌*◌, ◌/◌, ◌^◌, ◌<◌, ◌≤◌, IfSome, All, true, false, length, slice_index};
ghost use Rattle.rv_isa.specs.declared.image.Contents.{Contents};
ghost use Rattle.rv_isa.specs.declared.addresses.TheConstants.{CODE_START};
ghost use Rattle.rv_isa.specs.Micro.{micros_of, IsNumbered};
ghost use Rattle.rv_exec.specs.declared.runs.Turn.TheVariants.{On, Leapt, Stopped};
ghost use Rattle.rv_exec.specs.Calls.{Goes};
ghost use Rattle.rv_exec.specs.Hart.{with_register};
ghost use Rattle.rv_exec.specs.Machine.{ask, longest_stretch};
ghost use Rattle.rv_exec.specs.Micros.{Does};
ghost use Rattle.rv_exec.specs.Seen.{seen, words_of};
ghost use Rattle.rv_exec.specs.Words.{sum_of};

use crate::micros::{computes, decides, globals_word, put_globals_word};
use crate::state::State;
use rv_isa::addresses::CODE_START;
use rv_isa::image::Image;
use rv_isa::micro::{Micro, MicroOp};

/// A run begins no straight piece of code after so many words. No stretch comes to it.
const MOST_WORK: u64 = 1 << 58;

/// How a run goes on behind a micro-operation.
#[derive(Clone, Copy, Debug, Drop, PartialEq, Eq)]
pub enum Turn {
    /// At the next word.
    On,
    /// At the target of a jump.
    Leapt,
    /// Nowhere: the word was not carried out, and is left to the step by the table.
    Stopped,
}

impl State {
    /// Gives a register a value.
    #[inline(always)]
    fn give(&mut self, rd: u8, value: u32)
        requires { rd < 32 }
        ensures hart { seen self.new ≡ with_register rd value (seen self.old) }
        ensures slot { slice_index self.new.registers 32 ≡ slice_index self.old.registers 32 }
    {
        self.registers[rd as usize] = value;
    }

    /// What an operation takes for its second operand: the sum of a register and the immediate, one of which is 0.
    #[inline(always)]
    fn second_operand(&self, m: &Micro) -> u32
        requires { m.now.rs2 ≤ 32 }
        ensures sum { result ≡ sum_of (slice_index self.now.registers m.now.rs2) m.now.imm }
        ensures register { slice_index self.now.registers m.now.rs2 < 2 ^ 32 }
        ensures immediate { m.now.imm < 2 ^ 32 }
    {
        self.registers[m.rs2 as usize].wrapping_add(m.imm)
    }

    /// Carries out the micro-operation of the word at pc, unless it asks, takes memory or traps.
    #[inline(always)]
    fn carry_out(&mut self, privates: &mut [u32], m: &Micro, pc: u32, work: u64) -> Turn
        requires numbered { IsNumbered m.now }
        requires zero { slice_index self.old.registers 32 ≡ 0 }
        requires few { length privates.old ≤ 2 ^ 14 }
        requires room { pc + 4 < 2 ^ 32 }
        requires count { work + 1 < 2 ^ 64 }
        ensures on { result ≡ On → Does m.now pc work (4 * length privates.old) (seen self.old) (words_of privates.old) (Goes (record (seen self.new) { pc = pc + 4; work = work + 1 }) (words_of privates.new)) }
        ensures leapt { result ≡ Leapt → Does m.now pc work (4 * length privates.old) (seen self.old) (words_of privates.old) (Goes (seen self.new) (words_of privates.new)) }
        ensures work { result ≡ Leapt → self.new.work ≡ work + 1 }
        ensures stopped { result ≡ Stopped → seen self.new ≡ seen self.old }
        ensures kept { result ≡ Stopped → privates.new ≡ privates.old }
        ensures zero { slice_index self.new.registers 32 ≡ 0 }
    {
        let x = self.registers[m.rs1 as usize];
        let y = self.registers[m.rs2 as usize];
        let sum = self.second_operand(m);
        if let Some(value) = computes(m.op, x, sum) {
            self.give(m.rd, value);
            return Turn::On;
        }
        if let Some(is_taken) = decides(m.op, x, y) {
            if !is_taken {
                return Turn::On;
            }
            let target = pc.wrapping_add(m.imm);
            if self.leap(pc, work, target <= pc, target) {
                return Turn::Leapt;
            }
            return Turn::Stopped;
        }
        self.jump_or_access(privates, m, pc, work)
    }

    /// The same of a jump without a condition, or of an access to a private window.
    #[inline(always)]
    fn jump_or_access(&mut self, privates: &mut [u32], m: &Micro, pc: u32, work: u64) -> Turn
        requires numbered { IsNumbered m.now }
        requires zero { slice_index self.old.registers 32 ≡ 0 }
        requires few { length privates.old ≤ 2 ^ 14 }
        requires room { pc + 4 < 2 ^ 32 }
        requires count { work + 1 < 2 ^ 64 }
        ensures on { result ≡ On → Does m.now pc work (4 * length privates.old) (seen self.old) (words_of privates.old) (Goes (record (seen self.new) { pc = pc + 4; work = work + 1 }) (words_of privates.new)) }
        ensures leapt { result ≡ Leapt → Does m.now pc work (4 * length privates.old) (seen self.old) (words_of privates.old) (Goes (seen self.new) (words_of privates.new)) }
        ensures work { result ≡ Leapt → self.new.work ≡ work + 1 }
        ensures stopped { result ≡ Stopped → seen self.new ≡ seen self.old }
        ensures kept { result ≡ Stopped → privates.new ≡ privates.old }
        ensures zero { slice_index self.new.registers 32 ≡ 0 }
    {
        let address = self.registers[m.rs1 as usize].wrapping_add(m.imm);
        match m.op {
            MicroOp::Jal => {
                let target = pc.wrapping_add(m.imm);
                if self.leap_and_link(pc, work, target <= pc, target, m.rd) {
                    Turn::Leapt
                } else {
                    Turn::Stopped
                }
            }
            MicroOp::Jalr => {
                if self.leap_and_link(pc, work, true, address - address % 2, m.rd) {
                    Turn::Leapt
                } else {
                    Turn::Stopped
                }
            }
            MicroOp::LoadStack => match self.stack_word(address) {
                Some(word) => {
                    self.give(m.rd, word);
                    Turn::On
                }
                None => Turn::Stopped,
            },
            MicroOp::LoadGlobals => match globals_word(privates, address) {
                Some(word) => {
                    self.give(m.rd, word);
                    Turn::On
                }
                None => Turn::Stopped,
            },
            MicroOp::StoreStack => {
                if self.put_stack_word(address, self.registers[m.rs2 as usize]) {
                    Turn::On
                } else {
                    Turn::Stopped
                }
            }
            MicroOp::StoreGlobals => {
                if put_globals_word(privates, address, self.registers[m.rs2 as usize]) {
                    Turn::On
                } else {
                    Turn::Stopped
                }
            }
            _ => Turn::Stopped,
        }
    }

    /// Runs a straight piece of code from word number `start` on, where the pc is. Whether it ended in a jump, behind which a
    /// run goes on.
    fn run_straight(&mut self, code: &[Micro], privates: &mut [u32], start: usize) -> bool
        requires numbered { All IsNumbered code.now }
        requires zero { slice_index self.old.registers 32 ≡ 0 }
        requires few { length privates.old ≤ 2 ^ 14 }
        requires code { length code.now ≤ 2 ^ 23 }
        requires start { start ≤ length code.now }
        requires here { self.old.pc ≡ CODE_START + 4 * start }
        requires count { self.old.work ≤ 2 ^ 58 }
        ensures same { (image : Contents) → code.now ≡ micros_of image.code → image.privates ≡ 4 * length privates.old → ask image (seen self.new) (words_of privates.new) ≡ ask image (seen self.old) (words_of privates.old) }
        ensures zero { slice_index self.new.registers 32 ≡ 0 }
        ensures least { self.old.work ≤ self.new.work }
        ensures more { result ≡ true → self.old.work < self.new.work }
        ensures most { self.new.work ≤ self.old.work + 2 ^ 23 }
    {
        let mut work = self.work;
        for at in start..code.len() {
            let pc = CODE_START + 4 * at as u32;
            match self.carry_out(privates, &code[at], pc, work) {
                Turn::On => work += 1,
                Turn::Leapt => return true,
                Turn::Stopped => {
                    self.stop_at(pc, work);
                    return false;
                }
            }
        }
        self.stop_at(CODE_START + 4 * code.len() as u32, work);
        false
    }

    /// Runs on as far as micro-operations go, in an image that was made ready. What is asked from there is what was asked from here.
    // The loop has the processor's registers to itself.
    #[inline(never)]
    pub fn run(&mut self, image: &Image, privates: &mut [u32])
        requires code { length image.now.code ≤ 2 ^ 23 }
        requires few { length privates.old ≤ 2 ^ 14 }
        requires size { image.now.privates ≡ 4 * length privates.old }
        requires count { self.old.work < longest_stretch }
        ensures same { ask image.now (seen self.new) (words_of privates.new) ≡ ask image.now (seen self.old) (words_of privates.old) }
        ensures least { self.old.work ≤ self.new.work }
        ensures most { self.new.work < longest_stretch }
    {
        let Some(code) = image.micros() else {
            return;
        };
        if self.registers[32] != 0 {
            return;
        }
        while self.work <= MOST_WORK && self.pc >= CODE_START && self.pc % 4 == 0 {
            let start = ((self.pc - CODE_START) / 4) as usize;
            if start >= code.len() || !self.run_straight(code, privates, start) {
                return;
            }
        }
    }
}
