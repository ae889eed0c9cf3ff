//! Private steps up to the next action.
ghost use Rattle.std.specs.Prelude.{◌≡◌, ◌-◌, IfOk, IfErr};
ghost use Rattle.al_typed.specs.Layout.{IsLaidOut};
ghost use Rattle.al_meaning.specs.Meaning as meaning;
ghost use Rattle.al_control.specs.Fits.{Explains};
ghost use Rattle.al_control.specs.Models.{control_of, next_of};
ghost use Rattle.al_walk_calls.specs.Slots.{slots_in};
ghost use Rattle.al_walk.specs.Asks.{asked_of, turn_from, TurnFits, AskFits};

use crate::steps::private_step;
use al_control::{Control, Next, Unmade};
use al_event::{Act, Words};
use al_typed::Program;
use std::alloc::Global;

/// The turns without an action after which a task pauses.
const MOST_TURNS: u32 = 4_096;

/// What a task asks, in which line (0 for none), and the control and the private globals that wait for the answer.
#[derive(Drop)]
pub struct Asked<'p> {
    pub act: Act,
    pub line: u32,
    pub control: Control<'p>,
    pub privates: Words,
}

/// Private steps up to a turn or an action.
fn to_turn<'p>(
    alloc: Global,
    slots: &[u64],
    p: &'p Program,
    control: Control<'p>,
    privates: Words,
) -> Result<Next<'p>, Unmade>
    requires laid_out { IsLaidOut p.now.aggregates }
    requires slots { slots.now ≡ slots_in p.now }
    ensures next { IfOk result (λ n. next_of n ≡ turn_from p.now (control_of control.entry) privates) }
    ensures why { IfErr result (λ e. Explains e (TurnFits p.now (control_of control.entry) privates)) }
{
    let mut control = control;
    let mut privates = privates;
    loop {
        match private_step(alloc, slots, p, control, privates)? {
            Next::Moves(c, u) => {
                control = c;
                privates = u;
            }
            Next::Turns(line, c, u) => return Ok(Next::Turns(line, c, u)),
            Next::Asks(act, line, c, u) => return Ok(Next::Asks(act, line, c, u)),
        }
    }
}

/// What a task asks next: the action that its private steps come to, or a pause after 4,096 turns without one.
pub fn ask<'p>(
    alloc: Global,
    slots: &[u64],
    p: &'p Program,
    control: Control<'p>,
    privates: Words,
) -> Result<Asked<'p>, Unmade>
    requires laid_out { IsLaidOut p.now.aggregates }
    requires slots { slots.now ≡ slots_in p.now }
    ensures asked { IfOk result (λ a. asked_of a ≡ meaning.ask p.now (control_of control.entry) privates) }
    ensures why { IfErr result (λ e. Explains e (AskFits p.now (control_of control.entry) privates)) }
{
    let mut left = MOST_TURNS - 1;
    let mut next = to_turn(alloc, slots, p, control, privates)?;
    loop {
        match next {
            Next::Asks(act, line, control, privates) => {
                return Ok(Asked {
                    act,
                    line,
                    control,
                    privates,
                });
            }
            Next::Turns(line, control, privates) => {
                if left == 0 {
                    return Ok(Asked {
                        act: Act::Pause,
                        line,
                        control,
                        privates,
                    });
                }
                left -= 1;
                next = to_turn(alloc, slots, p, control, privates)?;
            }
            // no private step goes on for ever
            Next::Moves(control, privates) => {
                return Ok(Asked {
                    act: Act::Pause,
                    line: 0,
                    control,
                    privates,
                });
            }
        }
    }
}
