//! Calls, and the blocks of functions.
ghost use Rattle.std.specs.Prelude.{◌≡◌, ◌<◌, ◌^◌, [], ◌∷◌, IfOk, IfErr};
ghost use Rattle.al_event.specs.declared.act.Act.TheVariants as act;
ghost use Rattle.al_event.specs.declared.act.Block.TheVariants.{Frame as FrameBlock};
ghost use Rattle.al_typed.specs.Layout.{IsLaidOut};
ghost use Rattle.al_meaning.specs.Calls as spec;
ghost use Rattle.al_meaning.specs.Here as here;
ghost use Rattle.al_meaning.specs.Items as item;
ghost use Rattle.al_meaning.specs.Step as step;
ghost use Rattle.al_control.specs.Fits.{Explains};
ghost use Rattle.al_control.specs.Models.{here_of, next_of, work_of};
ghost use Rattle.al_walk_calls.specs.Fits.{BlockFits};

use crate::ends::{frees_block, only};
use crate::named::named_by;
use crate::rows::{block_size, has_block, line_of_name};
use al_base::{NoMemory, Trap};
use al_control::{
    Calling, Control, Entering, Here, Item, Next, Taken, Unmade, Work, asks, control_at, joined,
    moves, traps, values, with_item, word,
};
use al_event::{Act, Block, Words};
use al_typed::Ty;
use al_variables::locals_of;
use std::alloc::Global;

/// A call after its arguments: a turn, and then the stack is tested in the line of the function's name.
fn invokes<'p>(function: u32, words: Words, h: Here<'p>) -> Result<Next<'p>, NoMemory>
    ensures { IfOk result (λ n. next_of n ≡ spec.invokes (here_of h.entry) function words) }
{
    let line = h.line;
    let enter = Item {
        line: line_of_name(h.program, function),
        work: Work::Calling(Calling::Enter { function, words }),
    };
    let h = with_item(h, enter)?;
    let (control, privates) = control_at(h)?;
    Ok(Next::Turns(line, control, privates))
}

/// A call of a function with so many values.
pub fn invoke<'p>(
    alloc: Global,
    function: u32,
    count: usize,
    h: Here<'p>,
) -> Result<Next<'p>, NoMemory>
    ensures { IfOk result (λ n. next_of n ≡ step.step_work (item.Invoke function count) (here_of h.entry)) }
{
    match values(alloc, count, h)? {
        Taken::Lost(next) => Ok(next),
        Taken::Took(values, h) => {
            let words = joined(alloc, values)?;
            invokes(function, words, h)
        }
    }
}

/// A call of the function that a value names.
fn invokes_named<'p>(
    alloc: Global,
    ty: &Ty,
    name: u32,
    words: Words,
    h: Here<'p>,
) -> Result<Next<'p>, NoMemory>
    ensures { IfOk result (λ n. next_of n ≡ spec.invokes_found (here_of h.entry) words (spec.named_by (here.pointee ty.now) name 0 h.entry.program.now.functions)) }
{
    match named_by(alloc, ty, name, h.program)? {
        None => traps(h, Trap::Call),
        Some(function) => invokes(function, words, h),
    }
}

/// A call with these values of the function that the value found last names.
fn invokes_found<'p>(
    alloc: Global,
    ty: &Ty,
    words: Words,
    h: Here<'p>,
) -> Result<Next<'p>, NoMemory>
    ensures { IfOk result (λ n. next_of n ≡ here.with_word (here_of h.entry) (λ name at. spec.invokes_found at words (spec.named_by (here.pointee ty.now) name 0 at.program.functions))) }
{
    match word(h)? {
        Taken::Lost(next) => Ok(next),
        Taken::Took(name, h) => invokes_named(alloc, ty, name, words, h),
    }
}

/// A call through a pointer of a type, with so many values.
pub fn invoke_pointer<'p>(
    alloc: Global,
    ty: &Ty,
    count: usize,
    h: Here<'p>,
) -> Result<Next<'p>, NoMemory>
    ensures { IfOk result (λ n. next_of n ≡ step.step_work (item.InvokePointer (here.pointee ty.now) count) (here_of h.entry)) }
{
    match values(alloc, count, h)? {
        Taken::Lost(next) => Ok(next),
        Taken::Took(values, h) => {
            let words = joined(alloc, values)?;
            invokes_found(alloc, ty, words, h)
        }
    }
}

/// The frame goes before a function begins in its place.
pub fn replace<'p>(function: u32, words: Words, h: Here<'p>) -> Result<Next<'p>, NoMemory>
    ensures { IfOk result (λ n. next_of n ≡ step.step_work (item.Replace function words) (here_of h.entry)) }
{
    let Here {
        line,
        below,
        privates,
        ..
    } = h;
    let control = Control {
        entering: Some(Entering { function, words }),
        frames: below,
    };
    Ok(Next::Turns(line, control, privates))
}

/// Only this is done.
fn moves_only<'p>(alloc: Global, h: Here<'p>, work: Work<'p>) -> Result<Next<'p>, NoMemory>
    ensures { IfOk result (λ n. next_of n ≡ here.moves (spec.only (here_of h.entry) (work_of work.entry ∷ []))) }
{
    let h = only(alloc, h, work)?;
    moves(h)
}

/// A call in the place of the function at hand, whose shared block is given back before.
fn replaces<'p>(
    alloc: Global,
    function: u32,
    words: Words,
    h: Here<'p>,
) -> Result<Next<'p>, NoMemory>
    ensures { IfOk result (λ n. next_of n ≡ spec.gives_block (here_of h.entry) (item.Replace function words ∷ []) (here.moves (spec.only (here_of h.entry) (item.Replace function words ∷ [])))) }
{
    let replace = Work::Calling(Calling::Replace { function, words });
    if has_block(h.program, h.frame.function) {
        frees_block(alloc, h, replace)
    } else {
        moves_only(alloc, h, replace)
    }
}

/// A call in the place of the function at hand, with so many values.
pub fn invoke_instead<'p>(
    alloc: Global,
    function: u32,
    count: usize,
    h: Here<'p>,
) -> Result<Next<'p>, NoMemory>
    ensures { IfOk result (λ n. next_of n ≡ step.step_work (item.InvokeInstead function count) (here_of h.entry)) }
{
    match values(alloc, count, h)? {
        Taken::Lost(next) => Ok(next),
        Taken::Took(values, h) => {
            let words = joined(alloc, values)?;
            replaces(alloc, function, words, h)
        }
    }
}

/// The function asks for its shared block.
pub fn take_block<'p>(alloc: Global, h: Here<'p>) -> Result<Next<'p>, Unmade>
    requires { IsLaidOut h.program.now.aggregates }
    ensures next { IfOk result (λ n. next_of n ≡ step.step_work item.TakeBlock (here_of h.entry)) }
    ensures why { IfErr result (λ e. Explains e (BlockFits h.entry.program.now h.entry.frame.function)) }
{
    let locals = locals_of(h.program, h.frame.function);
    let size = block_size(alloc, h.program, locals)?;
    match size {
        None => Err(Unmade::TooLarge),
        Some(bytes) => {
            let take = Act::Alloc {
                bytes,
                kind: Block::Frame,
            };
            Ok(asks(h, take, Work::Answered)?)
        }
    }
}

/// The function has its shared block.
pub fn set_block<'p>(h: Here<'p>) -> Result<Next<'p>, NoMemory>
    ensures { IfOk result (λ n. next_of n ≡ step.step_work item.SetBlock (here_of h.entry)) }
{
    match word(h)? {
        Taken::Lost(next) => Ok(next),
        Taken::Took(at, h) => {
            let mut h = h;
            h.frame.block = at;
            moves(h)
        }
    }
}
