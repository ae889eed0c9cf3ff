//! Whether a task's stack has room for a function.
ghost use Rattle.std.specs.Prelude.{◌≡◌, ◌∷◌, map, sum_by};
ghost use Rattle.al_typed.specs.Capped.{capped};
ghost use Rattle.al_meaning.specs.Calls as spec;
ghost use Rattle.al_control.specs.Models.{frame_of, here_of};
ghost use Rattle.al_walk_calls.specs.Slots.{slot_at, slot_of, slots_in};

use al_control::{Frame, Here, Stack};
use al_typed::Program;

/// The words that a function takes, 0 where there is no such function.
fn slots_of(slots: &[u64], number: u32) -> u64
    ensures { result ≡ slot_at slots.now number }
{
    match slots.get(number as usize) {
        None => 0,
        Some(words) => *words,
    }
}

/// The words that frames take, at most 2^64 - 1.
fn slots_of_frames<'p>(slots: &[u64], frames: &Stack<Frame<'p>>) -> u64
    ensures { result ≡ capped (sum_by (slot_of slots.now) frames.now) }
{
    let row = frames.backwards();
    let mut sum: u64 = 0;
    for frame in row {
        let own = slots_of(slots, frame.function);
        sum = sum.saturating_add(own);
    }
    sum
}

/// Whether a function finds room above these frames. The words that each function takes are given, so that they are not
/// counted anew at each call.
pub fn has_room<'p>(slots: &[u64], p: &Program, number: u32, frames: &Stack<Frame<'p>>) -> bool
    requires { slots.now ≡ slots_in p.now }
    ensures { result ≡ spec.has_room p.now number (map frame_of frames.now) }
{
    let taken = slots_of_frames(slots, frames);
    let own = slots_of(slots, number);
    let all = taken.saturating_add(own);
    all <= 0x10_0000
}

/// Whether a function finds room above the frame at hand.
pub fn has_room_here<'p>(slots: &[u64], number: u32, h: &Here<'p>) -> bool
    requires { slots.now ≡ slots_in h.now.program.now }
    ensures { result ≡ spec.has_room h.now.program.now number ((here_of h.now).frame ∷ (here_of h.now).below) }
{
    let below = slots_of_frames(slots, &h.below);
    let first = slots_of(slots, h.frame.function);
    let taken = below.saturating_add(first);
    let own = slots_of(slots, number);
    let all = taken.saturating_add(own);
    all <= 0x10_0000
}
