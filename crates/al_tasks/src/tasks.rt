ghost use Rattle.std.specs.Prelude.{◌≡◌, OnOk};
ghost use Rattle.std.specs.Option.{option_copied};
ghost use Rattle.al_world.specs.World.{Absent, at_task};
ghost use Rattle.al_tasks.specs.Tables.{key_of, no_tasks, tasks_of, held_of, task_held};

use al_base::NoMemory;
use al_control::Control;
use al_event::Act;
use al_script_book::TaskName;
use indexmap::IndexMap;
use std::alloc::Global;

/// A task that goes on, or one that waits for the answer to its action.
#[derive(Drop)]
pub enum Held<'p> {
    Goes(Control<'p>),
    Waits(Act, Control<'p>),
}

/// The tasks that were started.
#[derive(Drop)]
pub struct Tasks<'p> {
    pub(crate) map: IndexMap<(u32, u32), Held<'p>>,
}

fn key_of(task: TaskName) -> (u32, u32)
    ensures { result ≡ key_of task }
{
    (task.proc, task.number)
}

/// No task.
pub fn no_tasks<'p>(alloc: Global) -> Tasks<'p>
    ensures { tasks_of result ≡ no_tasks }
{
    Tasks {
        map: IndexMap::new(alloc),
    }
}

/// What a task became, none where it was not started.
pub fn task_in<'t, 'p>(tasks: &'t Tasks<'p>, task: TaskName) -> Option<&'t Held<'p>>
    ensures { task_held (option_copied result) ≡ tasks_of tasks.now task }
{
    tasks.map.get(&key_of(task))
}

/// Takes a task out: it is not there then.
pub fn take_task<'p>(tasks: &mut Tasks<'p>, task: TaskName) -> Option<Held<'p>>
    ensures taken { task_held result ≡ tasks_of tasks.old task }
    ensures others { tasks_of tasks.new ≡ at_task task Absent (tasks_of tasks.old) }
{
    tasks.map.swap_remove(&key_of(task))
}

/// Puts a task in, in the place of what was there.
pub fn put_task<'p>(tasks: &mut Tasks<'p>, task: TaskName, held: Held<'p>) -> Result<(), NoMemory>
    ensures { OnOk result (tasks_of tasks.new ≡ at_task task (held_of held.entry) (tasks_of tasks.old)) }
{
    tasks.map.insert(key_of(task), held)?;
    Ok(())
}
