//! A source, its first world and its text.
ghost use Rattle.std.specs.Prelude.{◌≡◌, ℕ, ◌<◌, ◌^◌, [], length, IfOk, IfErr};
ghost use Rattle.al_region.specs.Region.{IsRegionSize};
ghost use Rattle.al_typed.specs.Layout.{IsLaidOut};
ghost use Rattle.al_control.specs.Fits.{Explains};
ghost use Rattle.al_step_text.specs.StepText.{step_text};
ghost use Rattle.al_step.specs.Sources.{IsSound, Stands, StartFits, world_of};

use crate::opening::{fresh_words, main_start};
use crate::slots::slots_of;
use al_base::{NoMemory, Over};
use al_control::Unmade;
use al_event::{Bytes, Entry};
use al_items::Items;
use al_opening::{FirstStore, opening};
use al_script::{Made, State, opened};
use al_script_book::TaskName;
use al_step_text::put_world;
use al_tasks::{Held, Privates, Tasks, fresh_privates, no_tasks, put_task};
use al_typed::Program;
use al_walk_calls::start as start_task;
use std::alloc::Global;

/// The source world of a program after the entries that it took.
#[derive(Drop)]
pub struct Source<'p> {
    pub(crate) program: &'p Program,
    /// The words that each function takes on a task's stack.
    pub(crate) slots: Items<u64>,
    pub(crate) state: State,
    pub(crate) made: Made,
    pub(crate) tasks: Tasks<'p>,
    pub(crate) privates: Privates,
    pub(crate) entries: Items<Entry>,
}

/// The first world of a program, in a region of so many bytes: a whole number of MiB from 1 to 256.
#[tactic(auto, using(crate::proofs::Worlds::starts_explain))]
pub fn start<'p>(alloc: Global, p: &'p Program, region: u32) -> Result<Source<'p>, Unmade>
    requires laid_out { IsLaidOut p.now.aggregates }
    requires region { IsRegionSize region }
    ensures sound { IfOk result IsSound }
    ensures stands { IfOk result (Stands p.now region) }
    ensures entries { IfOk result (λ s. s.entries ≡ []) }
    ensures why { IfErr result (λ e. Explains e (StartFits p.now)) }
{
    let slots = slots_of(alloc, p)?;
    let first = opening(alloc, p, region)?;
    let FirstStore { store, over } = first;
    let (state, made) = opened(alloc, store, over)?;
    let words = fresh_words(alloc, p)?;
    let privates = fresh_privates(alloc, words);
    let begin = main_start(alloc, p)?;
    let control = start_task(alloc, p, begin)?;
    let mut tasks = no_tasks(alloc);
    let main = TaskName { proc: 0, number: 0 };
    put_task(&mut tasks, main, Held::Goes(control))?;
    Ok(Source {
        program: p,
        slots,
        state,
        made,
        tasks,
        privates,
        entries: Items::new(alloc),
    })
}

impl<'p> Source<'p> {
    ghost use Rattle.std.specs.Prelude.{◌≡◌};
    ghost use Rattle.al_step.specs.Sources.{world_of};

    /// How the world is over, if it is.
    pub fn over(&self) -> Option<Over>
        ensures { result ≡ (world_of self.now.program.now self.now).shared.over }
    {
        self.state.over
    }

    /// The line of the action that trapped, else 0.
    pub fn line(&self) -> u64
        ensures { result ≡ (world_of self.now.program.now self.now).shared.line }
    {
        self.made.line
    }

    /// What was put out.
    pub fn output(&self) -> &[u8]
        ensures { result.now ≡ (world_of self.now.program.now self.now).shared.output }
    {
        self.state.output.as_slice()
    }
}

/// The text of the world of a source.
pub fn text(alloc: Global, source: &Source) -> Result<Bytes, NoMemory>
    requires { IsSound source.now }
    ensures { IfOk result (λ text. text ≡ step_text source.now.program.now (world_of source.now.program.now source.now) (length source.now.entries)) }
{
    let mut out = Items::new(alloc);
    put_world(
        alloc,
        &mut out,
        source.program,
        &source.state,
        &source.tasks,
        source.entries.len() as u64,
    )?;
    Ok(out)
}
