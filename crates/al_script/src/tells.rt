// What an entry tells the tasks.

ghost use Rattle.std.specs.Prelude.{◌≡◌, [], ◌∷◌, map, IfOk};
ghost use Rattle.al_world.specs.World.{told_one, told};
ghost use Rattle.al_script.specs.Scripts.{scripts, answered, begun};
ghost use Rattle.al_script.specs.Worlds.{held_of, held_at, tasks_of, told_of, message_of};

use crate::asks::act_of;
use crate::fits::fitted;
use crate::lists::{before, copy_held};
use crate::script::{Control, Function};
use crate::world::{Change, Held, State};
use al_base::NoMemory;
use al_event::{Start, Words};
use al_items::Items;
use al_script_book::{TaskName, copy_words, same_task};
use std::alloc::Global;

/// An answer, or the start of a task.
#[derive(Debug, Drop)]
pub enum Told {
    Answered(Words),
    Begins(Start),
}

/// What is told to a task.
#[derive(Debug, Drop)]
pub struct Message {
    pub to: TaskName,
    pub told: Told,
}

/// What an action leaves of what all can see, and what it tells the tasks, in order.
#[derive(Drop)]
pub struct Effect {
    pub state: State,
    pub told: Items<Message>,
}

/// What became of a task.
pub fn held_in(alloc: Global, tasks: &[Change], task: TaskName) -> Result<Held, NoMemory>
    ensures { IfOk result (λ held. held ≡ held_at tasks.now task) }
{
    match tasks {
        [] => Ok(Held::Absent),
        [first, rest @ ..] => {
            if same_task(task, first.task) {
                copy_held(alloc, &first.held)
            } else {
                held_in(alloc, rest, task)
            }
        }
    }
}

/// A task goes on behind its instruction.
fn answered(control: Control, words: Words) -> Result<Control, NoMemory>
    ensures { IfOk result (λ after. after ≡ answered control words) }
{
    let Control {
        code,
        arguments,
        mut answers,
    } = control;
    answers.push(words)?;
    Ok(Control {
        code,
        arguments,
        answers,
    })
}

/// A task at its start.
pub fn begun(alloc: Global, start: &Start) -> Result<Control, NoMemory>
    ensures { IfOk result (λ control. control ≡ begun start.now) }
{
    Ok(Control {
        code: start.code,
        arguments: copy_words(alloc, &start.words)?,
        answers: Items::new(alloc),
    })
}

/// A task that is answered: it goes on where it waits.
fn with_answer(
    alloc: Global,
    script: &[Function],
    words: &Words,
    held: Held,
) -> Result<Held, NoMemory>
    ensures { IfOk result (λ after. held_of script.now after ≡ told_one (scripts script.now) (told_of (Told.Answered words.now)) (held_of script.now held)) }
{
    match held {
        Held::Waits(control) => {
            let act = act_of(alloc, script, &control)?;
            let words = fitted(alloc, &act, words.as_slice())?;
            let control = answered(control, words)?;
            Ok(Held::Goes(control))
        }
        Held::Goes(control) => Ok(Held::Goes(control)),
        Held::Absent => Ok(Held::Absent),
    }
}

/// A task that is started: it begins where it was not there.
fn with_start(
    alloc: Global,
    script: &[Function],
    start: &Start,
    held: Held,
) -> Result<Held, NoMemory>
    ensures { IfOk result (λ after. held_of script.now after ≡ told_one (scripts script.now) (told_of (Told.Begins start.now)) (held_of script.now held)) }
{
    match held {
        Held::Absent => {
            let control = begun(alloc, start)?;
            Ok(Held::Goes(control))
        }
        Held::Goes(control) => Ok(Held::Goes(control)),
        Held::Waits(control) => Ok(Held::Waits(control)),
    }
}

/// A task that is told something.
fn told_one(alloc: Global, script: &[Function], told: &Told, held: Held) -> Result<Held, NoMemory>
    ensures { IfOk result (λ after. held_of script.now after ≡ told_one (scripts script.now) (told_of told.now) (held_of script.now held)) }
{
    match told {
        Told::Answered(words) => with_answer(alloc, script, words, held),
        Told::Begins(start) => with_start(alloc, script, start, held),
    }
}

/// The tasks after a message.
#[tactic(auto, using(crate::proofs::Tasks::held_is))]
fn tells_one(
    alloc: Global,
    script: &[Function],
    tasks: Items<Change>,
    message: &Message,
) -> Result<Items<Change>, NoMemory>
    ensures { IfOk result (λ after. tasks_of script.now after ≡ told (scripts script.now) (message_of message.now ∷ []) (tasks_of script.now tasks)) }
{
    let held = held_in(alloc, tasks.as_slice(), message.to)?;
    let held = told_one(alloc, script, &message.told, held)?;
    let change = Change {
        task: message.to,
        held,
    };
    before(alloc, change, tasks)
}

/// The tasks after some messages.
pub fn tells(
    alloc: Global,
    script: &[Function],
    tasks: Items<Change>,
    messages: &[Message],
) -> Result<Items<Change>, NoMemory>
    ensures { IfOk result (λ after. tasks_of script.now after ≡ told (scripts script.now) (map message_of messages.now) (tasks_of script.now tasks)) }
{
    match messages {
        [] => Ok(tasks),
        [message, rest @ ..] => {
            let tasks = tells_one(alloc, script, tasks, message)?;
            tells(alloc, script, tasks, rest)
        }
    }
}
