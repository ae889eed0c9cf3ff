//! The state of a hart, and what single instructions do to it.

ghost use Rattle.std.specs.Prelude.{◌≡◌, ℕ, ◌+◌, ◌*◌, ◌<◌, ◌≤◌, ◌^◌, IsSome, IfSome};
ghost use Rattle.rv_exec.specs.Hart.{register, with_register, moved};
ghost use Rattle.rv_exec.specs.Calls.{traps, asks};
ghost use Rattle.rv_exec.specs.Step.{address_of, jumps};
ghost use Rattle.rv_exec.specs.Seen.{seen, move_of};
ghost use Rattle.rv_exec.specs.Answers.{IsReady, IsPlain};

use al_base::Trap;
use al_event::Act;
use rv_isa::instr::LoadOp;

/// The most counted jumps of a stretch.
pub const MOST_JUMPS: u32 = 1 << 27;

/// Where the words of the answer go that a hart waits for.
#[derive(Clone, Copy, Debug, Drop, PartialEq, Eq)]
pub enum Waits {
    /// There are none.
    Done,
    /// The unit that a load read goes to a register.
    Unit { op: LoadOp, rd: u8 },
    /// A word goes to register 10.
    Word,
    /// The number of a branch goes to register 10, and what it received to the place in the branch's record.
    Talk,
}

/// The registers, the pc, the private stack as far as it was written, the text being composed, and what was counted
/// since the last answer. The slot past the last register holds 0: a run reads it in place of register 0.
#[derive(Debug, Drop)]
pub struct State {
    pub pc: u32,
    pub registers: [u32; 33],
    pub stack: Vec<u32>,
    pub text: Vec<u8>,
    pub waits: Waits,
    pub jumps: u32,
    pub work: u64,
}

impl State {
    /// The value of a register.
    #[inline(always)]
    pub fn register(&self, number: u8) -> u32
        requires { number < 32 }
        ensures { result ≡ register (seen self.now) number }
    {
        if number == 0 {
            0
        } else {
            self.registers[number as usize]
        }
    }

    /// Gives a register a value and goes to the next word.
    #[inline(always)]
    pub fn set(&mut self, rd: u8, value: u32)
        requires register { rd < 32 }
        requires room { self.old.pc + 4 < 2 ^ 32 }
        ensures hart { seen self.new ≡ moved (with_register rd value (seen self.old)) }
        ensures work { self.new.work ≡ self.old.work }
    {
        self.registers[rd as usize] = value;
        self.pc += 4;
    }

    /// The address of a load, a store or a JALR.
    #[inline(always)]
    pub fn address(&self, rs1: u8, imm: i32) -> u32
        requires { rs1 < 32 }
        ensures { result ≡ address_of (seen self.now) rs1 imm }
    {
        self.register(rs1).wrapping_add(imm.cast_unsigned())
    }

    /// Asks an action, whose answer has at most a word and goes as `waits` says.
    pub fn ask(&mut self, waits: Waits, act: Act) -> Option<Act>
        requires room { self.old.pc + 4 < 2 ^ 32 }
        requires waits { IsPlain waits }
        ensures asked { (p : ℕ → ℕ) → move_of result (seen self.new) p ≡ asks waits act (seen self.old) p }
        ensures ready { IfSome result (λ act. IsReady self.new act) }
        ensures some { IsSome result }
        ensures work { self.new.work ≡ self.old.work }
    {
        self.waits = waits;
        Some(act)
    }

    /// Asks a trap.
    pub fn trap(&mut self, trap: Trap) -> Option<Act>
        ensures asked { (p : ℕ → ℕ) → move_of result (seen self.new) p ≡ traps trap (seen self.old) p }
        ensures ready { IfSome result (λ act. IsReady self.new act) }
        ensures some { IsSome result }
        ensures work { self.new.work ≡ self.old.work }
    {
        self.waits = Waits::Done;
        Some(Act::Trap(trap))
    }

    /// Jumps, unless that is one counted jump too many.
    #[inline(always)]
    pub fn jump(&mut self, is_counted: bool, target: u32) -> Option<Act>
        ensures asked { (p : ℕ → ℕ) → move_of result (seen self.new) p ≡ jumps is_counted target (seen self.old) (seen self.old) p }
        ensures ready { IfSome result (λ act. IsReady self.new act) }
        ensures work { self.new.work ≡ self.old.work }
    {
        if is_counted {
            if self.jumps >= MOST_JUMPS {
                return self.trap(Trap::Illegal);
            }
            self.jumps += 1;
        }
        self.pc = target;
        None
    }

    /// Jumps, with the next word's address in a register.
    #[inline(always)]
    pub fn jump_and_link(&mut self, is_counted: bool, target: u32, rd: u8) -> Option<Act>
        requires register { rd < 32 }
        requires room { self.old.pc + 4 < 2 ^ 32 }
        ensures asked { (p : ℕ → ℕ) → move_of result (seen self.new) p ≡ jumps is_counted target (with_register rd (self.old.pc + 4) (seen self.old)) (seen self.old) p }
        ensures ready { IfSome result (λ act. IsReady self.new act) }
        ensures work { self.new.work ≡ self.old.work }
    {
        if is_counted {
            if self.jumps >= MOST_JUMPS {
                return self.trap(Trap::Illegal);
            }
            self.jumps += 1;
        }
        self.registers[rd as usize] = self.pc + 4;
        self.pc = target;
        None
    }
}
