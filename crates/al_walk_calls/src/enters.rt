//! Functions begin, where the stack has room for them.
ghost use Rattle.std.specs.Prelude.{◌≡◌, [], ◌∷◌, Some, map, IfOk, IfErr};
ghost use Rattle.al_event.specs.declared.act.Act.TheVariants as act;
ghost use Rattle.al_base.specs.declared.trap.Trap.TheVariants as trap;
ghost use Rattle.al_world.specs.Turns.{Moves, Asks};
ghost use Rattle.al_typed.specs.Layout.{IsLaidOut};
ghost use Rattle.al_meaning.specs.Calls as spec;
ghost use Rattle.al_meaning.specs.Here as here;
ghost use Rattle.al_meaning.specs.Items as item;
ghost use Rattle.al_meaning.specs.Places as places;
ghost use Rattle.al_meaning.specs.Step as step;
ghost use Rattle.al_control.specs.Fits.{Explains};
ghost use Rattle.al_control.specs.Models.{control_of, entering_of, frame_of, here_of, next_of};
ghost use Rattle.al_walk_calls.specs.Fits.{BeginFits};
ghost use Rattle.al_walk_calls.specs.Slots.{slots_in};

use crate::begins::begun;
use crate::room::{has_room, has_room_here};
use crate::rows::{begin_fits, line_of_name};
use al_base::{NoMemory, Trap};
use al_control::{
    Control, Entering, Frame, Here, Next, Stack, Unmade, Work, control_at, with_work,
};
use al_event::{Act, Words};
use al_typed::Program;
use std::alloc::Global;

/// A function begins above these frames, where its locals fit.
fn begins_small<'p>(
    alloc: Global,
    p: &'p Program,
    function: u32,
    words: &[u32],
    frames: Stack<Frame<'p>>,
    privates: Words,
) -> Result<Next<'p>, NoMemory>
    requires laid_out { IsLaidOut p.now.aggregates }
    requires fits { BeginFits p.now function }
    ensures { IfOk result (λ n. next_of n ≡ Moves (record { entering = None; frames = spec.begun p.now function words.now ∷ map frame_of frames.entry }) privates) }
{
    let mut frames = frames;
    let frame = begun(alloc, p, function, words)?;
    frames.push(frame)?;
    let control = Control {
        entering: None,
        frames,
    };
    Ok(Next::Moves(control, privates))
}

/// A function begins above these frames.
fn begins<'p>(
    alloc: Global,
    p: &'p Program,
    function: u32,
    words: &[u32],
    frames: Stack<Frame<'p>>,
    privates: Words,
) -> Result<Next<'p>, Unmade>
    requires { IsLaidOut p.now.aggregates }
    ensures next { IfOk result (λ n. next_of n ≡ Moves (record { entering = None; frames = spec.begun p.now function words.now ∷ map frame_of frames.entry }) privates) }
    ensures why { IfErr result (λ e. Explains e (BeginFits p.now function)) }
{
    if begin_fits(p, function) {
        Ok(begins_small(alloc, p, function, words, frames, privates)?)
    } else {
        Err(Unmade::TooLarge)
    }
}

/// The stack has no room for a function that was called.
fn overflows<'p>(p: &Program, function: u32, control: Control<'p>, privates: Words) -> Next<'p>
    ensures { next_of result ≡ Asks (act.Trap trap.Stack) (spec.line_of_name (places.function_at p.now function)) (control_of control.entry) privates }
{
    let line = line_of_name(p, function);
    Next::Asks(Act::Trap(Trap::Stack), line, control, privates)
}

/// The frames of a step, the one at hand before the others.
fn frames_of<'p>(h: Here<'p>) -> Result<(Stack<Frame<'p>>, Words), NoMemory>
    ensures frames { IfOk result (λ r. map frame_of r.0 ≡ (here_of h.entry).frame ∷ (here_of h.entry).below) }
    ensures privates { IfOk result (λ r. r.1 ≡ h.entry.privates) }
{
    let Here {
        frame,
        mut below,
        privates,
        ..
    } = h;
    below.push(frame)?;
    Ok((below, privates))
}

/// A call of which the function finds no room: nothing is done after the trap.
fn enters_none<'p>(function: u32, h: Here<'p>) -> Result<Next<'p>, NoMemory>
    ensures { IfOk result (λ n. next_of n ≡ Asks (act.Trap trap.Stack) (spec.line_of_name (places.function_at h.entry.program.now function)) (here.control_at (here.with_work (item.Answered ∷ []) (here_of h.entry))) h.entry.privates) }
{
    let p = h.program;
    let h = with_work(h, Work::Answered)?;
    let (control, privates) = control_at(h)?;
    Ok(overflows(p, function, control, privates))
}

/// A function that was called begins above the frame at hand.
fn begins_here<'p>(
    alloc: Global,
    function: u32,
    words: Words,
    h: Here<'p>,
) -> Result<Next<'p>, Unmade>
    requires { IsLaidOut h.program.now.aggregates }
    ensures next { IfOk result (λ n. next_of n ≡ Moves (record { entering = None; frames = spec.begun h.entry.program.now function words ∷ (here_of h.entry).frame ∷ (here_of h.entry).below }) h.entry.privates) }
    ensures why { IfErr result (λ e. Explains e (BeginFits h.entry.program.now function)) }
{
    let p = h.program;
    let (frames, privates) = frames_of(h)?;
    begins(alloc, p, function, words.as_slice(), frames, privates)
}

/// A function that was called begins, or the task traps in the line of its name.
pub fn enter<'p>(
    alloc: Global,
    slots: &[u64],
    function: u32,
    words: Words,
    h: Here<'p>,
) -> Result<Next<'p>, Unmade>
    requires laid_out { IsLaidOut h.program.now.aggregates }
    requires slots { slots.now ≡ slots_in h.program.now }
    ensures next { IfOk result (λ n. next_of n ≡ step.step_work (item.Enter function words) (here_of h.entry)) }
    ensures why { IfErr result (λ e. Explains e (BeginFits h.entry.program.now function)) }
{
    if has_room_here(slots, function, &h) {
        begins_here(alloc, function, words, h)
    } else {
        Ok(enters_none(function, h)?)
    }
}

/// A function that was called in the place of another begins, or the task traps in the line of its name.
pub fn enter_instead<'p>(
    alloc: Global,
    slots: &[u64],
    p: &'p Program,
    entering: Entering,
    frames: Stack<Frame<'p>>,
    privates: Words,
) -> Result<Next<'p>, Unmade>
    requires laid_out { IsLaidOut p.now.aggregates }
    requires slots { slots.now ≡ slots_in p.now }
    ensures next { IfOk result (λ n. let c : item.Control = record { entering = Some (entering_of entering); frames = map frame_of frames.entry } in next_of n ≡ step.step_entering p.now c c.entering privates) }
    ensures why { IfErr result (λ e. Explains e (BeginFits p.now entering.function)) }
{
    let function = entering.function;
    if has_room(slots, p, function, &frames) {
        begins(
            alloc,
            p,
            function,
            entering.words.as_slice(),
            frames,
            privates,
        )
    } else {
        let control = Control {
            entering: Some(entering),
            frames,
        };
        Ok(overflows(p, function, control, privates))
    }
}
