//! How a task goes on with an answer.

ghost use Rattle.std.specs.Prelude.{◌≡◌, ◌+◌, ◌<◌, ◌≤◌, ◌^◌, length, slice_index, vec_len, slice_get, OnOk};
ghost use Rattle.rv_exec.specs.Windows.{put_words};
ghost use Rattle.rv_exec.specs.Machine.{resumed, told, place_of, FitsWaits};
ghost use Rattle.rv_exec.specs.declared.state.Waits.TheVariants.{Done, Talk};
ghost use Rattle.rv_exec.specs.Hart.{with_register, moved, full_turns};
ghost use Rattle.rv_exec.specs.Seen.{seen, words_of};
ghost use Rattle.rv_exec.specs.Answers.{HasRoom};
ghost use Rattle.al_world.specs.Control.{received_by};

use crate::state::{State, Waits};
use crate::windows::reach;
use crate::words::extended;
use al_base::NoMemory;
use al_event::Branch;
use rv_isa::addresses::STACK_START;

/// What register 3 holds after each answer.
const FULL_TURNS: u32 = 4096;

/// Puts words into a slice from a number on.
fn put_words(slots: &mut [u32], first: usize, words: &[u32])
    requires { 0 < length words.now → first + length words.now ≤ length slots.old }
    ensures { words_of slots.new ≡ put_words (words_of slots.old) first words.now }
{
    for (k, word) in words.iter().enumerate() {
        slots[first + k] = *word;
    }
}

/// How many words a branch of a talk receives.
pub fn received(branches: &[Branch], number: usize) -> u32
    ensures { result ≡ received_by (slice_get branches.now number) }
{
    match branches.get(number) {
        Some(branch) => {
            if branch.send.is_some() {
                0
            } else {
                branch.words
            }
        }
        None => 0,
    }
}

impl State {
    /// The place for what a branch receives, as its record has it.
    pub fn place_of(&self, branch: u32) -> u32
        ensures { result ≡ place_of (seen self.now) branch }
    {
        let record = (self.register(10).saturating_sub(STACK_START) / 4) as u64 + 4 * branch as u64;
        let address = self.stack.get((record + 2) as usize).copied().unwrap_or(0);
        address.saturating_sub(STACK_START) / 4
    }

    /// Makes room in the stack for what each of these branches receives.
    pub fn make_room(&mut self, branches: &[Branch]) -> Result<(), NoMemory>
        requires few { length branches.now ≤ 64 }
        ensures same { seen self.new ≡ seen self.old }
        ensures room { OnOk result (HasRoom self.new branches.now) }
    {
        for k in 0..branches.len() {
            self.make_room_for(k as u32, received(branches, k))?;
        }
        Ok(())
    }

    /// Makes room in the stack for what a branch receives.
    fn make_room_for(&mut self, branch: u32, received: u32) -> Result<(), NoMemory>
        ensures same { seen self.new ≡ seen self.old }
        ensures grows { vec_len self.old.stack ≤ vec_len self.new.stack }
        ensures room { OnOk result (0 < received → place_of (seen self.new) branch + received ≤ vec_len self.new.stack) }
    {
        if received > 0 {
            let end = self.place_of(branch) as usize + received as usize;
            reach(&mut self.stack, end - 1)?;
        }
        Ok(())
    }

    /// Goes on with the words of an answer.
    pub fn resume(&mut self, words: &[u32])
        requires near { self.old.pc + 4 < 2 ^ 32 }
        requires register { FitsWaits self.old.waits }
        requires some { self.old.waits ≡ Talk → 0 < length words.now }
        requires room { self.old.waits ≡ Talk → 1 < length words.now → place_of (seen self.old) (slice_index words.now 0) + length words.now ≤ vec_len self.old.stack + 1 }
        ensures { seen self.new ≡ resumed (seen self.old) words.now }
    {
        let first = words.first().copied().unwrap_or(0);
        match self.waits {
            Waits::Done => self.answered(),
            Waits::Unit { op, rd } => {
                self.put_register(rd, extended(op, first));
                self.answered()
            }
            Waits::Word => {
                self.put_register(10, first);
                self.answered()
            }
            Waits::Talk => {
                self.receive(first, words);
                self.answered()
            }
        }
    }

    fn put_register(&mut self, rd: u8, value: u32)
        requires { rd < 32 }
        ensures hart { seen self.new ≡ with_register rd value (seen self.old) }
        ensures pc { self.new.pc ≡ self.old.pc }
    {
        self.registers[rd as usize] = value;
    }

    /// Goes to the next word, with all turns in register 3.
    fn answered(&mut self)
        requires { self.old.pc + 4 < 2 ^ 32 }
        ensures { seen self.new ≡ record (moved (with_register 3 full_turns (seen self.old))) { waits = Done } }
    {
        self.registers[3] = FULL_TURNS;
        self.waits = Waits::Done;
        self.pc += 4;
    }

    /// The number of the branch that went goes to register 10, and what it received to its place.
    fn receive(&mut self, branch: u32, words: &[u32])
        requires some { 0 < length words.now }
        requires branch { branch ≡ slice_index words.now 0 }
        requires room { 1 < length words.now → place_of (seen self.old) branch + length words.now ≤ vec_len self.old.stack + 1 }
        ensures hart { seen self.new ≡ told Talk words.now (seen self.old) }
        ensures pc { self.new.pc ≡ self.old.pc }
    {
        let place = self.place_of(branch);
        put_words(self.stack.as_mut_slice(), place as usize, &words[1..]);
        self.put_register(10, branch);
    }
}
