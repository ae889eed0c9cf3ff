//! Stretches: the run of a task from one answer to its next ask.

ghost use Rattle.std.specs.Prelude.{◌≡◌, ℕ, ◌*◌, IfOk, IfErr, IsTrue, length, vec_len};
ghost use Rattle.rv_exec.specs.Machine.{ask, asked, line_of, resumed, started};
ghost use Rattle.rv_exec.specs.Calls.{has_function};
ghost use Rattle.rv_exec.specs.Seen.{seen, words_of};
ghost use Rattle.rv_isa.specs.declared.image.Contents.{Contents};
ghost use Rattle.rv_exec.specs.Shown.{hart_of, privates_of, bytes_of, asked_of, CanTake, WaitsFor};
ghost use Rattle.rv_exec.specs.Answers.{IsReady};

use crate::lines::line_of;
use crate::state::State;
use al_base::{NoMemory, Trap};
use al_event::Act;
use rv_isa::image::Image;
use std::alloc::Global;

/// The most words that a stretch fetches, which none comes to.
const LONGEST_STRETCH: u64 = ((1 << 27) + 1) << 32;

/// A task on the machine.
#[derive(Debug, Drop)]
pub struct Hart {
    pub(crate) state: State,
}

/// The private globals of a proc.
#[derive(Debug, Drop)]
pub struct Privates {
    pub(crate) words: Vec<u32>,
}

/// A task that may run, with the private globals of its proc.
#[derive(Debug, Drop)]
pub struct Held {
    pub proc: u32,
    pub hart: Hart,
    pub privates: Privates,
}

/// A task that asks an action, and the number of words that its stretch fetched.
#[derive(Debug, Drop)]
pub struct Asked {
    pub held: Held,
    pub act: Act,
    pub work: u64,
}

impl Hart {
    /// A task at the start of a function that the image has, with that number of words.
    pub fn start(
        alloc: Global,
        image: &Image,
        function: u32,
        words: &[u32],
    ) -> Result<Hart, NoMemory>
        requires { IsTrue (has_function image.now function (length words.now)) }
        ensures { IfOk result (λ hart. hart_of hart ≡ started image.now function words.now) }
    {
        let state = State::start(alloc, image.contents(), function, words)?;
        Ok(Hart { state })
    }

    /// The address of the instruction at which the task is. Of an Asked it is the one that asked.
    pub fn pc(&self) -> u32
        ensures { result ≡ (hart_of self.now).pc }
    {
        self.state.pc
    }

    /// The line of the text that the instruction at which the task is comes from, 0 where the image does not tell it.
    pub fn line(&self, image: &Image) -> u32
        ensures { result ≡ line_of image.now (hart_of self.now).pc }
    {
        line_of(image.contents(), self.state.pc)
    }
}

impl Privates {
    /// The private globals of an image, all 0.
    pub fn new(alloc: Global, image: &Image) -> Result<Privates, NoMemory>
        ensures zero { IfOk result (λ p. (n : ℕ) → privates_of p n ≡ 0) }
        ensures bytes { IfOk result (λ p. bytes_of p ≡ image.now.privates) }
    {
        let count = image.contents().privates / 4;
        let words = vec![in alloc; 0; count as usize]?;
        Ok(Privates { words })
    }
}

/// Runs a task up to its next ask. Where there is no memory, a further call goes on to the same ask.
#[tactic(auto, using(crate::proofs::Answering::ready_trap))]
pub fn stretch(alloc: Global, image: &Image, held: Held) -> Result<Asked, (Held, NoMemory)>
    requires { bytes_of held.privates ≡ image.now.privates }
    ensures asked { IfOk result (λ a. asked_of image.now a ≡ ask image.now (hart_of held.hart) (privates_of held.privates)) }
    ensures takes { IfOk result (λ a. WaitsFor a.held.hart a.act) }
    ensures proc { IfOk result (λ a. a.held.proc ≡ held.proc) }
    ensures bytes { IfOk result (λ a. bytes_of a.held.privates ≡ bytes_of held.privates) }
    ensures later { IfErr result (λ e. ask image.now (hart_of e.0.hart) (privates_of e.0.privates) ≡ ask image.now (hart_of held.hart) (privates_of held.privates)) }
    ensures later_proc { IfErr result (λ e. e.0.proc ≡ held.proc) }
    ensures later_bytes { IfErr result (λ e. bytes_of e.0.privates ≡ bytes_of held.privates) }
{
    let Held {
        proc,
        hart,
        privates,
    } = held;
    let Hart { mut state } = hart;
    let Privates { mut words } = privates;
    let contents = image.contents();
    while state.work < LONGEST_STRETCH {
        let slots = words.as_mut_slice();
        state.run(image, slots);
        match state.step(alloc, contents, slots) {
            Ok(None) => {}
            Ok(Some(act)) => return Ok(asking(proc, act, state, words)),
            Err(no_memory) => {
                let hart = Hart { state };
                let privates = Privates { words };
                return Err((
                    Held {
                        proc,
                        hart,
                        privates,
                    },
                    no_memory,
                ));
            }
        }
    }
    Ok(asking(proc, Act::Trap(Trap::Illegal), state, words))
}

/// Goes on with the words of an answer: none, a word, or the number of a branch and what it received. What was asked can go
/// on with each answer that its action can have.
pub fn resume(hart: Hart, words: &[u32]) -> Hart
    requires { CanTake hart words.now }
    ensures { hart_of result ≡ resumed (hart_of hart) words.now }
{
    let Hart { mut state } = hart;
    state.resume(words);
    Hart { state }
}

/// A task that asks: counting begins anew.
fn asking(proc: u32, act: Act, state: State, words: Vec<u32>) -> Asked
    requires { IsReady state act }
    ensures asked { (image : Contents) → asked_of image result ≡ asked image act (seen state) (words_of words.items) }
    ensures takes { WaitsFor result.held.hart result.act }
    ensures proc { result.held.proc ≡ proc }
    ensures bytes { bytes_of result.held.privates ≡ 4 * vec_len words }
{
    let work = state.work;
    let mut state = state;
    state.jumps = 0;
    state.work = 0;
    let hart = Hart { state };
    let privates = Privates { words };
    Asked {
        held: Held {
            proc,
            hart,
            privates,
        },
        act,
        work,
    }
}
