//! What an entry tells the tasks.
ghost use Rattle.std.specs.Prelude.{◌≡◌, ◌∷◌, [], All, map, IfOk, IfErr, OnOk};
ghost use Rattle.al_world.specs.World.{TaskName as Name, Told as ToldParts, at_task, told_one, told};
ghost use Rattle.al_typed.specs.Layout.{IsLaidOut};
ghost use Rattle.al_meaning.specs.Meaning.{source};
ghost use Rattle.al_control.specs.Fits.{Explains};
ghost use Rattle.al_script.specs.Worlds.{told_of, message_of};
ghost use Rattle.al_tasks.specs.Tables.{held_of, task_held, tasks_of};
ghost use Rattle.al_step.specs.Sources.{ToldFits};

use al_base::NoMemory;
use al_control::Unmade;
use al_event::{Start, Words};
use al_script::{Message, Told, fitted};
use al_script_book::{TaskName, copy_start};
use al_tasks::{Held, Tasks, put_task, take_task};
use al_typed::Program;
use al_walk_calls::{resume, start};
use std::alloc::Global;

/// A task that is answered: it goes on where it waits.
fn answered<'p>(
    alloc: Global,
    p: &Program,
    words: &Words,
    held: Option<Held<'p>>,
) -> Result<Option<Held<'p>>, NoMemory>
    ensures { IfOk result (λ after. task_held after ≡ told_one (source p.now) (told_of (Told.Answered words.now)) (task_held held.entry)) }
{
    match held {
        None => Ok(None),
        Some(held) => match held {
            Held::Goes(control) => Ok(Some(Held::Goes(control))),
            Held::Waits(act, control) => {
                let words = fitted(alloc, &act, words.as_slice())?;
                let control = resume(control, words)?;
                Ok(Some(Held::Goes(control)))
            }
        },
    }
}

/// A task that is started: it begins where it was not there.
#[tactic(auto, using(crate::proofs::Tells::begun_stay))]
fn begun<'p>(
    alloc: Global,
    p: &'p Program,
    begin: &Start,
    held: Option<Held<'p>>,
) -> Result<Option<Held<'p>>, Unmade>
    requires { IsLaidOut p.now.aggregates }
    ensures held { IfOk result (λ after. task_held after ≡ told_one (source p.now) (told_of (Told.Begins begin.now)) (task_held held.entry)) }
    ensures why { IfErr result (λ e. Explains e (ToldFits p.now (told_of (Told.Begins begin.now)))) }
{
    match held {
        None => {
            let begin = copy_start(alloc, begin)?;
            let control = start(alloc, p, begin)?;
            Ok(Some(Held::Goes(control)))
        }
        Some(held) => Ok(Some(held)),
    }
}

/// A task that is told something.
fn told_one<'p>(
    alloc: Global,
    p: &'p Program,
    told: &Told,
    held: Option<Held<'p>>,
) -> Result<Option<Held<'p>>, Unmade>
    requires { IsLaidOut p.now.aggregates }
    ensures held { IfOk result (λ after. task_held after ≡ told_one (source p.now) (told_of told.now) (task_held held.entry)) }
    ensures why { IfErr result (λ e. Explains e (ToldFits p.now (told_of told.now))) }
{
    match told {
        Told::Answered(words) => {
            let after = answered(alloc, p, words, held)?;
            Ok(after)
        }
        Told::Begins(begin) => {
            let after = begun(alloc, p, begin, held)?;
            Ok(after)
        }
    }
}

/// A task is told something.
fn tell<'p>(
    alloc: Global,
    p: &'p Program,
    tasks: &mut Tasks<'p>,
    message: &Message,
) -> Result<(), Unmade>
    requires { IsLaidOut p.now.aggregates }
    ensures tasks { OnOk result (tasks_of tasks.new ≡ told (source p.now) (message_of message.now ∷ []) (tasks_of tasks.old)) }
    ensures why { IfErr result (λ e. Explains e (ToldFits p.now (told_of message.now.told))) }
{
    let held = take_task(tasks, message.to);
    let after = told_one(alloc, p, &message.told, held)?;
    match after {
        None => Ok(()),
        Some(held) => {
            put_task(tasks, message.to, held)?;
            Ok(())
        }
    }
}

/// The tasks are told what an entry tells them, in order.
#[tactic(auto, using(crate::proofs::Tells::messages_explain))]
fn tell_all<'p>(
    alloc: Global,
    p: &'p Program,
    tasks: &mut Tasks<'p>,
    messages: &[Message],
) -> Result<(), Unmade>
    requires { IsLaidOut p.now.aggregates }
    ensures tasks { OnOk result (tasks_of tasks.new ≡ told (source p.now) (map message_of messages.now) (tasks_of tasks.old)) }
    ensures why { IfErr result (λ e. Explains e (All (λ (m : Name × ToldParts). ToldFits p.now m.1) (map message_of messages.now))) }
{
    for message in messages {
        tell(alloc, p, tasks, message)?;
    }
    Ok(())
}

/// The task that asked waits, and the tasks are told what its action tells them.
pub(crate) fn goes_on<'p>(
    alloc: Global,
    p: &'p Program,
    tasks: &mut Tasks<'p>,
    task: TaskName,
    waits: Held<'p>,
    messages: &[Message],
) -> Result<(), Unmade>
    requires { IsLaidOut p.now.aggregates }
    ensures tasks { OnOk result (tasks_of tasks.new ≡ told (source p.now) (map message_of messages.now) (at_task task (held_of waits.entry) (tasks_of tasks.old))) }
    ensures why { IfErr result (λ e. Explains e (All (λ (m : Name × ToldParts). ToldFits p.now m.1) (map message_of messages.now))) }
{
    put_task(tasks, task, waits)?;
    tell_all(alloc, p, tasks, messages)?;
    Ok(())
}
