//! One private step of a task.
ghost use Rattle.std.specs.Prelude.{◌≡◌, None, map, IfOk, IfErr};
ghost use Rattle.al_typed.specs.Layout.{IsLaidOut};
ghost use Rattle.al_meaning.specs.Items as item;
ghost use Rattle.al_meaning.specs.Step as meaning;
ghost use Rattle.al_control.specs.Fits.{Explains};
ghost use Rattle.al_control.specs.Models.{control_of, frame_of, item_of, next_of};
ghost use Rattle.al_walk_calls.specs.Slots.{slots_in};
ghost use Rattle.al_walk.specs.Works.{FrameFits, FramesFit, StepFits};

use crate::works::step_work;
use al_control::{Control, Entering, Frame, Here, Next, Stack, Unmade};
use al_event::{Act, Words};
use al_typed::Program;
use al_walk_calls::{ends_body, enter_instead};
use std::alloc::Global;

/// A step of the frame on top: its first item, or the end of its body.
fn step_frame<'p>(
    alloc: Global,
    slots: &[u64],
    p: &'p Program,
    frame: Frame<'p>,
    below: Stack<Frame<'p>>,
    privates: Words,
) -> Result<Next<'p>, Unmade>
    requires laid_out { IsLaidOut p.now.aggregates }
    requires slots { slots.now ≡ slots_in p.now }
    ensures next { IfOk result (λ n. next_of n ≡ meaning.step_frame p.now (map item_of frame.entry.items) (frame_of frame.entry) (map frame_of below.entry) privates) }
    ensures why { IfErr result (λ e. Explains e (FrameFits p.now (map item_of frame.entry.items) (frame_of frame.entry) (map frame_of below.entry) privates)) }
{
    let mut frame = frame;
    match frame.items.pop() {
        None => ends_body(alloc, p, frame, below, privates),
        Some(item) => {
            let here = Here {
                program: p,
                line: item.line,
                frame,
                below,
                privates,
            };
            step_work(alloc, slots, item.work, here)
        }
    }
}

/// A step of a task that enters no function. Without frames it has ended.
fn step_frames<'p>(
    alloc: Global,
    slots: &[u64],
    p: &'p Program,
    frames: Stack<Frame<'p>>,
    privates: Words,
) -> Result<Next<'p>, Unmade>
    requires laid_out { IsLaidOut p.now.aggregates }
    requires slots { slots.now ≡ slots_in p.now }
    ensures next { IfOk result (λ n. let c : item.Control = record { entering = None; frames = map frame_of frames.entry } in next_of n ≡ meaning.step_frames p.now c c.frames privates) }
    ensures why { IfErr result (λ e. Explains e (FramesFit p.now (map frame_of frames.entry) privates)) }
{
    let mut frames = frames;
    match frames.pop() {
        None => {
            let control = Control {
                entering: None,
                frames,
            };
            Ok(Next::Asks(Act::End, 0, control, privates))
        }
        Some(frame) => step_frame(alloc, slots, p, frame, frames, privates),
    }
}

/// A private step of a task.
pub fn private_step<'p>(
    alloc: Global,
    slots: &[u64],
    p: &'p Program,
    control: Control<'p>,
    privates: Words,
) -> Result<Next<'p>, Unmade>
    requires laid_out { IsLaidOut p.now.aggregates }
    requires slots { slots.now ≡ slots_in p.now }
    ensures next { IfOk result (λ n. next_of n ≡ meaning.private_step p.now (control_of control.entry) privates) }
    ensures why { IfErr result (λ e. Explains e (StepFits p.now (control_of control.entry) privates)) }
{
    let Control { entering, frames } = control;
    match entering {
        Some(entering) => enter_instead(alloc, slots, p, entering, frames, privates),
        None => step_frames(alloc, slots, p, frames, privates),
    }
}
