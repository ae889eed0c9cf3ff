//! Actions that a task asks of the world.
ghost use Rattle.std.specs.Prelude.{◌≡◌, [], ◌∷◌, drop, IfOk, IfErr, MatchOption};
ghost use Rattle.al_event.specs.declared.act.Act.TheVariants as act;
ghost use Rattle.al_typed.specs.Layout.{IsLaidOut};
ghost use Rattle.al_meaning.specs.Here as here;
ghost use Rattle.al_meaning.specs.Items as item;
ghost use Rattle.al_meaning.specs.Places as places;
ghost use Rattle.al_meaning.specs.Step as step;
ghost use Rattle.al_meaning.specs.Words as spec_words;
ghost use Rattle.al_control.specs.Fits.{Explains};
ghost use Rattle.al_control.specs.Models.{here_of, next_of, work_of};
ghost use Rattle.al_control_values.specs.Fits.{IsSmall};
ghost use Rattle.al_walk_actions.specs.Fits.{HasFewWords};

use al_base::NoMemory;
use al_control::{
    Action, Here, Next, Taken, Unmade, Work, asks, gives, joined, two_values, value, values, word,
};
use al_control_values::{fitted_to, is_small, split_word};
use al_event::{Act, Branch, Start, Words};
use al_items::Items;
use al_typed::{Program, Ty, units};
use al_variables::few_words;
use std::alloc::Global;

/// How many words a value of a type has, where a word has room for it.
pub fn count_words(p: &Program, ty: &Ty) -> Option<u32>
    requires { IsLaidOut p.now.aggregates }
    ensures { MatchOption result (HasFewWords p.now ty.now → ⊥) (λ words. words ≡ places.words_in p.now ty.now) }
{
    few_words(p.aggregates.as_slice(), ty)
}

/// A talk of one branch, and work after it.
fn talks<'p>(
    alloc: Global,
    branch: Branch,
    after: Work<'p>,
    h: Here<'p>,
) -> Result<Next<'p>, NoMemory>
    ensures { IfOk result (λ n. next_of n ≡ here.asks (here_of h.entry) (act.Talk (branch ∷ [])) (work_of after.entry ∷ [])) }
{
    let mut branches = Items::new(alloc);
    branches.push(branch)?;
    asks(h, Act::Talk { branches }, after)
}

/// A receive of so many words.
fn receives_words<'p>(
    alloc: Global,
    ty: &'p Ty,
    words: u32,
    h: Here<'p>,
) -> Result<Next<'p>, NoMemory>
    requires { words ≡ places.words_in h.program.now ty.now }
    ensures { IfOk result (λ n. next_of n ≡ step.step_work (item.Receives ty.now) (here_of h.entry)) }
{
    match word(h)? {
        Taken::Lost(next) => Ok(next),
        Taken::Took(chan, h) => {
            let branch = Branch {
                chan,
                words,
                send: None,
            };
            talks(alloc, branch, Work::Action(Action::Received(ty)), h)
        }
    }
}

/// A receive from the channel that was found.
pub fn receives<'p>(alloc: Global, ty: &'p Ty, h: Here<'p>) -> Result<Next<'p>, Unmade>
    requires { IsLaidOut h.program.now.aggregates }
    ensures next { IfOk result (λ n. next_of n ≡ step.step_work (item.Receives ty.now) (here_of h.entry)) }
    ensures why { IfErr result (λ e. Explains e (HasFewWords h.entry.program.now ty.now)) }
{
    match count_words(h.program, ty) {
        None => Err(Unmade::TooLarge),
        Some(words) => Ok(receives_words(alloc, ty, words, h)?),
    }
}

/// The words of a value that came, each of its unit's size. Before them stands the number of the branch.
fn received_words(alloc: Global, p: &Program, ty: &Ty, answer: &[u32]) -> Result<Words, NoMemory>
    requires laid_out { IsLaidOut p.now.aggregates }
    requires small { IsSmall p.now ty.now }
    ensures { IfOk result (λ ws. ws ≡ spec_words.fitted_to (here.units_in p.now ty.now) (drop 1 answer.now)) }
{
    let units = units(alloc, p, ty)?;
    let cut = split_word(answer);
    fitted_to(alloc, &units, cut.1)
}

fn received_small<'p>(alloc: Global, ty: &'p Ty, h: Here<'p>) -> Result<Next<'p>, NoMemory>
    requires laid_out { IsLaidOut h.program.now.aggregates }
    requires small { IsSmall h.program.now ty.now }
    ensures { IfOk result (λ n. next_of n ≡ step.step_work (item.Received ty.now) (here_of h.entry)) }
{
    match value(h)? {
        Taken::Lost(next) => Ok(next),
        Taken::Took(answer, h) => {
            let words = received_words(alloc, h.program, ty, answer.as_slice())?;
            gives(h, words)
        }
    }
}

/// A value came.
pub fn received<'p>(alloc: Global, ty: &'p Ty, h: Here<'p>) -> Result<Next<'p>, Unmade>
    requires { IsLaidOut h.program.now.aggregates }
    ensures next { IfOk result (λ n. next_of n ≡ step.step_work (item.Received ty.now) (here_of h.entry)) }
    ensures why { IfErr result (λ e. Explains e (IsSmall h.entry.program.now ty.now)) }
{
    if is_small(h.program, ty) {
        Ok(received_small(alloc, ty, h)?)
    } else {
        Err(Unmade::TooLarge)
    }
}

/// A send of so many words.
fn sends_words<'p>(alloc: Global, ty: &'p Ty, words: u32, h: Here<'p>) -> Result<Next<'p>, NoMemory>
    requires { words ≡ places.words_in h.program.now ty.now }
    ensures { IfOk result (λ n. next_of n ≡ step.step_work (item.Sends ty.now) (here_of h.entry)) }
{
    match two_values(h)? {
        Taken::Lost(next) => Ok(next),
        Taken::Took(both, h) => {
            let (chan, sent) = both;
            let cut = split_word(chan.as_slice());
            let branch = Branch {
                chan: cut.0,
                words,
                send: Some(sent),
            };
            talks(alloc, branch, Work::Forget, h)
        }
    }
}

/// A send of the value that was found to the channel that was found before.
pub fn sends<'p>(alloc: Global, ty: &'p Ty, h: Here<'p>) -> Result<Next<'p>, Unmade>
    requires { IsLaidOut h.program.now.aggregates }
    ensures next { IfOk result (λ n. next_of n ≡ step.step_work (item.Sends ty.now) (here_of h.entry)) }
    ensures why { IfErr result (λ e. Explains e (HasFewWords h.entry.program.now ty.now)) }
{
    match count_words(h.program, ty) {
        None => Err(Unmade::TooLarge),
        Some(words) => Ok(sends_words(alloc, ty, words, h)?),
    }
}

/// Whether a receive could go at once.
pub fn can_receive<'p>(h: Here<'p>) -> Result<Next<'p>, NoMemory>
    ensures { IfOk result (λ n. next_of n ≡ step.step_work item.CanReceives (here_of h.entry)) }
{
    match word(h)? {
        Taken::Lost(next) => Ok(next),
        Taken::Took(chan, h) => asks(h, Act::CanRecv { chan }, Work::Answered),
    }
}

/// Whether a send could go at once.
pub fn can_send<'p>(h: Here<'p>) -> Result<Next<'p>, NoMemory>
    ensures { IfOk result (λ n. next_of n ≡ step.step_work item.CanSends (here_of h.entry)) }
{
    match word(h)? {
        Taken::Lost(next) => Ok(next),
        Taken::Took(chan, h) => asks(h, Act::CanSend { chan }, Work::Answered),
    }
}

/// The whole program ends with the status that was found.
pub fn terminates<'p>(h: Here<'p>) -> Result<Next<'p>, NoMemory>
    ensures { IfOk result (λ n. next_of n ≡ step.step_work item.Terminates (here_of h.entry)) }
{
    match word(h)? {
        Taken::Lost(next) => Ok(next),
        Taken::Took(status, h) => asks(h, Act::Terminate(status.cast_signed()), Work::Answered),
    }
}

/// A proc starts with a function and so many values.
pub fn start_proc<'p>(
    alloc: Global,
    function: u32,
    count: usize,
    h: Here<'p>,
) -> Result<Next<'p>, NoMemory>
    ensures { IfOk result (λ n. next_of n ≡ step.step_work (item.StartProc function count) (here_of h.entry)) }
{
    match values(alloc, count, h)? {
        Taken::Lost(next) => Ok(next),
        Taken::Took(values, h) => {
            let words = joined(alloc, values)?;
            let start = Start {
                code: function,
                words,
            };
            asks(h, Act::Proc(start), Work::Answered)
        }
    }
}

/// A task starts with a function and so many values.
pub fn start_task<'p>(
    alloc: Global,
    function: u32,
    count: usize,
    h: Here<'p>,
) -> Result<Next<'p>, NoMemory>
    ensures { IfOk result (λ n. next_of n ≡ step.step_work (item.StartTask function count) (here_of h.entry)) }
{
    match values(alloc, count, h)? {
        Taken::Lost(next) => Ok(next),
        Taken::Took(values, h) => {
            let words = joined(alloc, values)?;
            let start = Start {
                code: function,
                words,
            };
            asks(h, Act::Task(start), Work::Answered)
        }
    }
}
