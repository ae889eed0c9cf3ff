//! One instruction.

ghost use Rattle.std.specs.Prelude.{◌≡◌, ℕ, ◌+◌, ◌*◌, ◌<◌, ◌≤◌, ◌^◌, IfOk, OnErr, length, if◌then◌else◌, IfSome};
ghost use Rattle.rv_isa.specs.Table.{InRange};
ghost use Rattle.rv_exec.specs.Step.{executed, jumps_by};
ghost use Rattle.rv_exec.specs.Seen.{seen, words_of, move_of};
ghost use Rattle.rv_exec.specs.Answers.{IsReady};
ghost use Rattle.rv_exec.specs.Hart.{moved, with_register};
ghost use Rattle.rv_exec.specs.Calls.{Goes};
ghost use Rattle.rv_exec.specs.Words.{sum_of, word};

use crate::state::State;
use crate::words::{computed, computed_immediate, is_taken, shifted};
use al_base::{NoMemory, Trap};
use al_event::Act;
use rv_isa::image::Contents;
use rv_isa::instr::{Instr, UpperOp};
use std::alloc::Global;

impl State {
    /// Goes to the next word.
    #[inline(always)]
    pub fn go_on(&mut self)
        requires { self.old.pc + 4 < 2 ^ 32 }
        ensures hart { seen self.new ≡ moved (seen self.old) }
        ensures work { self.new.work ≡ self.old.work }
    {
        self.pc += 4;
    }

    /// The target of a jump by a distance.
    #[inline(always)]
    fn target(&self, imm: i32) -> u32
        ensures { result ≡ sum_of self.now.pc (word imm) }
    {
        self.pc.wrapping_add(imm.cast_unsigned())
    }

    /// JAL.
    #[inline(always)]
    fn jal(&mut self, rd: u8, imm: i32) -> Option<Act>
        requires register { rd < 32 }
        requires room { self.old.pc + 4 < 2 ^ 32 }
        ensures asked { (p : ℕ → ℕ) → move_of result (seen self.new) p ≡ jumps_by imm (with_register rd (self.old.pc + 4) (seen self.old)) (seen self.old) p }
        ensures ready { IfSome result (λ act. IsReady self.new act) }
        ensures work { self.new.work ≡ self.old.work }
    {
        let target = self.target(imm);
        self.jump_and_link(target <= self.pc, target, rd)
    }

    /// A conditional branch.
    #[inline(always)]
    fn branch(&mut self, is_taken: bool, imm: i32) -> Option<Act>
        requires room { self.old.pc + 4 < 2 ^ 32 }
        ensures asked { (p : ℕ → ℕ) → move_of result (seen self.new) p ≡ (if is_taken then jumps_by imm (seen self.old) (seen self.old) p else Goes (moved (seen self.old)) p) }
        ensures ready { IfSome result (λ act. IsReady self.new act) }
        ensures work { self.new.work ≡ self.old.work }
    {
        if is_taken {
            let target = self.target(imm);
            self.jump(target <= self.pc, target)
        } else {
            self.go_on();
            None
        }
    }

    /// One instruction. What it asks waits at that instruction.
    pub fn execute(
        &mut self,
        alloc: Global,
        image: &Contents,
        privates: &mut [u32],
        instr: Instr,
    ) -> Result<Option<Act>, NoMemory>
        requires range { InRange instr }
        requires room { self.old.pc + 4 < 2 ^ 32 }
        requires few { length privates.old ≤ 2 ^ 14 }
        requires size { image.now.privates ≡ 4 * length privates.old }
        ensures asked { IfOk result (λ asked. move_of asked (seen self.new) (words_of privates.new) ≡ executed instr image.now (seen self.old) (words_of privates.old)) }
        ensures ready { IfOk result (λ asked. IfSome asked (λ act. IsReady self.new act)) }
        ensures work { IfOk result (λ asked. self.new.work ≡ self.old.work) }
        ensures same { OnErr result (seen self.new ≡ seen self.old) }
        ensures kept { OnErr result (privates.new ≡ privates.old) }
    {
        match instr {
            Instr::Upper { op, rd, imm } => {
                let value = match op {
                    UpperOp::Lui => imm << 12,
                    UpperOp::Auipc => self.pc.wrapping_add(imm << 12),
                };
                self.set(rd, value);
                Ok(None)
            }
            Instr::Jal { rd, imm } => Ok(self.jal(rd, imm)),
            Instr::Jalr { rd, rs1, imm } => {
                let target = self.address(rs1, imm);
                Ok(self.jump_and_link(true, target - target % 2, rd))
            }
            Instr::Branch { op, rs1, rs2, imm } => {
                let is_taken = is_taken(op, self.register(rs1), self.register(rs2));
                Ok(self.branch(is_taken, imm))
            }
            Instr::Load { op, rd, rs1, imm } => {
                let address = self.address(rs1, imm);
                Ok(self.load(privates, op, rd, rs1, address))
            }
            Instr::Store { op, rs1, rs2, imm } => {
                let address = self.address(rs1, imm);
                let value = self.register(rs2);
                self.store(privates, op, rs1, address, value)
            }
            Instr::Immediate { op, rd, rs1, imm } => {
                self.set(
                    rd,
                    computed_immediate(op, self.register(rs1), imm.cast_unsigned()),
                );
                Ok(None)
            }
            Instr::Shift {
                op,
                rd,
                rs1,
                amount,
            } => {
                self.set(rd, shifted(op, self.register(rs1), amount as u32));
                Ok(None)
            }
            Instr::Register { op, rd, rs1, rs2 } => {
                self.set(rd, computed(op, self.register(rs1), self.register(rs2)));
                Ok(None)
            }
            Instr::Fence { .. } => {
                self.go_on();
                Ok(None)
            }
            Instr::Ecall => self.call(alloc, image, self.register(17)),
            Instr::Ebreak => Ok(self.trap(Trap::Illegal)),
        }
    }
}
