//! What is asked of the world, by its kind.
ghost use Rattle.std.specs.Prelude.{◌≡◌, IfOk, IfErr};
ghost use Rattle.al_typed.specs.Layout.{IsLaidOut};
ghost use Rattle.al_meaning.specs.Step as step;
ghost use Rattle.al_control.specs.Fits.{Explains};
ghost use Rattle.al_control.specs.Models.{action_of, here_of, next_of};
ghost use Rattle.al_walk_actions.specs.Fits.{ActionFits};

use crate::acts::{
    can_receive, can_send, received, receives, sends, start_proc, start_task, terminates,
};
use crate::allocations::{allocate, unallocate};
use crate::print::{compose, scan, scanned};
use al_control::{Action, Here, Next, Unmade};
use std::alloc::Global;

/// What an action does with what was found.
pub fn act<'p>(alloc: Global, action: Action<'p>, h: Here<'p>) -> Result<Next<'p>, Unmade>
    requires { IsLaidOut h.program.now.aggregates }
    ensures next { IfOk result (λ n. next_of n ≡ step.step_work (action_of action.entry) (here_of h.entry)) }
    ensures why { IfErr result (λ e. Explains e (ActionFits (here_of h.entry) action.entry)) }
{
    match action {
        Action::Compose {
            pieces,
            arguments,
            text,
        } => Ok(compose(alloc, pieces, arguments, text, h)?),
        Action::Scan {
            at,
            pieces,
            arguments,
            text,
        } => Ok(scan(at, pieces, arguments, text, h)?),
        Action::Scanned {
            at,
            pieces,
            arguments,
            text,
        } => scanned(at, pieces, arguments, text, h),
        Action::Terminates => Ok(terminates(h)?),
        Action::Receives(ty) => receives(alloc, ty, h),
        Action::Received(ty) => received(alloc, ty, h),
        Action::Sends(ty) => sends(alloc, ty, h),
        Action::CanReceives => Ok(can_receive(h)?),
        Action::CanSends => Ok(can_send(h)?),
        Action::Allocate(ty) => allocate(ty, h),
        Action::Unallocate(ty) => Ok(unallocate(ty, h)?),
        Action::StartProc { function, count } => Ok(start_proc(alloc, function, count, h)?),
        Action::StartTask { function, count } => Ok(start_task(alloc, function, count, h)?),
    }
}
