//! Functions end, and a task goes on with what it was given.
ghost use Rattle.std.specs.Prelude.{◌≡◌, true, [], ◌∷◌, Some, None, map, IfOk, IfErr};
ghost use Rattle.al_typed.specs.Layout.{IsLaidOut};
ghost use Rattle.al_event.specs.declared.act.Act.TheVariants as act;
ghost use Rattle.al_event.specs.declared.act.Block.TheVariants.{Frame as FrameBlock};
ghost use Rattle.al_world.specs.Turns.{Asks, Turns};
ghost use Rattle.al_meaning.specs.Calls as spec;
ghost use Rattle.al_meaning.specs.Here as here;
ghost use Rattle.al_meaning.specs.Items as item;
ghost use Rattle.al_meaning.specs.Meaning as meaning;
ghost use Rattle.al_meaning.specs.Places as places;
ghost use Rattle.al_meaning.specs.Step as step;
ghost use Rattle.al_control.specs.Fits.{Explains};
ghost use Rattle.al_control_values.specs.Fits.{IsSmall};
ghost use Rattle.al_control.specs.Models.{control_of, frame_of, here_of, next_of, work_of};
ghost use Rattle.al_walk_calls.specs.Fits.{EndFits};

use crate::rows::{has_block, is_numbered, line_of_name, small_words};
use al_base::NoMemory;
use al_control::{
    Calling, Control, Found, Frame, Here, Item, Next, Stack, Taken, Unmade, Work, control_at,
    turns, value,
};
use al_control_values::{is_small, zero_words};
use al_convert::is_void;
use al_event::{Act, Block, Words};
use al_typed::{Function, Program, Ty};
use std::alloc::Global;

/// The first frame goes on with a value, if it is given one.
pub fn with_given<'p>(
    given: Option<Words>,
    frames: Stack<Frame<'p>>,
) -> Result<Stack<Frame<'p>>, NoMemory>
    ensures { IfOk result (λ fs. map frame_of fs ≡ spec.with_given given (map frame_of frames.entry)) }
{
    match given {
        None => Ok(frames),
        Some(words) => with_value(words, frames),
    }
}

/// A frame goes on with a value.
fn finds_below<'p>(
    words: Words,
    frame: Frame<'p>,
    frames: Stack<Frame<'p>>,
) -> Result<Stack<Frame<'p>>, NoMemory>
    ensures { IfOk result (λ fs. map frame_of fs ≡ spec.with_given (Some words) (frame_of frame.entry ∷ map frame_of frames.entry)) }
{
    let mut frame = frame;
    let mut frames = frames;
    frame.found.push(Found::Words(words))?;
    frames.push(frame)?;
    Ok(frames)
}

/// The first frame goes on with a value, where there is one.
fn with_value<'p>(words: Words, frames: Stack<Frame<'p>>) -> Result<Stack<Frame<'p>>, NoMemory>
    ensures { IfOk result (λ fs. map frame_of fs ≡ spec.with_given (Some words) (map frame_of frames.entry)) }
{
    let mut frames = frames;
    match frames.pop() {
        None => Ok(frames),
        Some(frame) => finds_below(words, frame, frames),
    }
}

/// The frame goes, and the frame below goes on with a value, if it is given one.
pub fn leave<'p>(given: Option<Words>, h: Here<'p>) -> Result<Next<'p>, NoMemory>
    ensures { IfOk result (λ n. next_of n ≡ step.step_work (item.Leave given) (here_of h.entry)) }
{
    let Here {
        below,
        privates,
        ..
    } = h;
    let frames = with_given(given, below)?;
    let control = Control {
        entering: None,
        frames,
    };
    Ok(Next::Moves(control, privates))
}

/// The turn of a function's end.
pub fn count_return<'p>(given: Option<Words>, h: Here<'p>) -> Result<Next<'p>, NoMemory>
    ensures { IfOk result (λ n. next_of n ≡ step.step_work (item.CountReturn given) (here_of h.entry)) }
{
    turns(h, Work::Calling(Calling::Leave(given)))
}

/// The frame with nothing to do but this.
pub fn only<'p>(alloc: Global, h: Here<'p>, work: Work<'p>) -> Result<Here<'p>, NoMemory>
    ensures { IfOk result (λ r. here_of r ≡ spec.only (here_of h.entry) (work_of work.entry ∷ [])) }
{
    let Here {
        program,
        line,
        frame,
        below,
        privates,
    } = h;
    let Frame {
        function,
        locals,
        block,
        around,
        turns,
        found,
        ..
    } = frame;
    let mut items = Stack::new(alloc);
    items.push(Item { line, work })?;
    let frame = Frame {
        function,
        locals,
        block,
        around,
        turns,
        items,
        found,
    };
    Ok(Here {
        program,
        line,
        frame,
        below,
        privates,
    })
}

/// The function's shared block is given back, and then only this is done.
pub fn frees_block<'p>(alloc: Global, h: Here<'p>, work: Work<'p>) -> Result<Next<'p>, NoMemory>
    ensures { IfOk result (λ n. next_of n ≡ Asks (act.Free h.entry.frame.block FrameBlock) h.entry.line (here.control_at (spec.only (here_of h.entry) (work_of work.entry ∷ []))) h.entry.privates) }
{
    let line = h.line;
    let at = h.frame.block;
    let h = only(alloc, h, work)?;
    let (control, privates) = control_at(h)?;
    let free = Act::Free {
        at,
        kind: Block::Frame,
    };
    Ok(Next::Asks(free, line, control, privates))
}

/// A turn, and then only this is done.
fn turns_only<'p>(alloc: Global, h: Here<'p>, work: Work<'p>) -> Result<Next<'p>, NoMemory>
    ensures { IfOk result (λ n. next_of n ≡ Turns h.entry.line (here.control_at (spec.only (here_of h.entry) (work_of work.entry ∷ []))) h.entry.privates) }
{
    let line = h.line;
    let h = only(alloc, h, work)?;
    let (control, privates) = control_at(h)?;
    Ok(Next::Turns(line, control, privates))
}

/// The end of a function with a value: its block, its turn, and then the frame goes.
fn ends<'p>(alloc: Global, given: Option<Words>, h: Here<'p>) -> Result<Next<'p>, NoMemory>
    ensures { IfOk result (λ n. next_of n ≡ spec.ends (here_of h.entry) given) }
{
    if has_block(h.program, h.frame.function) {
        frees_block(alloc, h, Work::Calling(Calling::CountReturn(given)))
    } else {
        turns_only(alloc, h, Work::Calling(Calling::Leave(given)))
    }
}

/// A return with the value that was found.
fn returns_value<'p>(alloc: Global, h: Here<'p>) -> Result<Next<'p>, NoMemory>
    ensures { IfOk result (λ n. next_of n ≡ step.step_work (item.Returns true) (here_of h.entry)) }
{
    match value(h)? {
        Taken::Lost(next) => Ok(next),
        Taken::Took(words, h) => ends(alloc, Some(words), h),
    }
}

/// A return, with the value that was found where it has one.
pub fn returns<'p>(alloc: Global, is_valued: bool, h: Here<'p>) -> Result<Next<'p>, NoMemory>
    ensures { IfOk result (λ n. next_of n ≡ step.step_work (item.Returns is_valued) (here_of h.entry)) }
{
    if is_valued {
        returns_value(alloc, h)
    } else {
        ends(alloc, None, h)
    }
}

/// How a task goes on with an answer.
pub fn resume<'p>(control: Control<'p>, answer: Words) -> Result<Control<'p>, NoMemory>
    ensures { IfOk result (λ c. control_of c ≡ meaning.resume (control_of control.entry) answer) }
{
    if answer.is_empty() {
        return Ok(control);
    }
    let Control { entering, frames } = control;
    let frames = with_value(answer, frames)?;
    Ok(Control { entering, frames })
}

/// The value that a function gives at the end of its body: zero, or none where it is void.
fn zero_given(alloc: Global, p: &Program, ty: &Ty) -> Result<Option<Words>, NoMemory>
    requires laid_out { IsLaidOut p.now.aggregates }
    requires small { IsSmall p.now ty.now }
    ensures { IfOk result (λ g. g ≡ spec.zero_given p.now ty.now) }
{
    if is_void(ty) {
        return Ok(None);
    }
    let words = zero_words(alloc, small_words(p, ty))?;
    Ok(Some(words))
}

/// What a function gives at the end of its body.
fn zero_of(alloc: Global, p: &Program, function: &Function) -> Result<Option<Words>, Unmade>
    requires { IsLaidOut p.now.aggregates }
    ensures given { IfOk result (λ g. g ≡ spec.zero_given p.now function.now.returns) }
    ensures why { IfErr result (λ e. Explains e (IsSmall p.now function.now.returns)) }
{
    if is_small(p, &function.returns) {
        Ok(zero_given(alloc, p, &function.returns)?)
    } else {
        Err(Unmade::TooLarge)
    }
}

/// What the function of that number gives at the end of its body; none where there is no such function.
fn default_given(alloc: Global, p: &Program, number: u32) -> Result<Option<Words>, Unmade>
    requires { IsLaidOut p.now.aggregates }
    ensures given { IfOk result (λ g. g ≡ spec.default_of p.now (places.function_at p.now number)) }
    ensures why { IfErr result (λ e. Explains e (EndFits p.now (places.function_at p.now number))) }
{
    if is_numbered(p, number) {
        let functions = p.functions.as_slice();
        let at = number as usize;
        zero_of(alloc, p, &functions[at])
    } else {
        Ok(None)
    }
}

/// A frame without items is at the end of its body.
pub fn ends_body<'p>(
    alloc: Global,
    p: &'p Program,
    frame: Frame<'p>,
    below: Stack<Frame<'p>>,
    privates: Words,
) -> Result<Next<'p>, Unmade>
    requires { IsLaidOut p.now.aggregates }
    ensures next { IfOk result (λ n. next_of n ≡ step.step_frame p.now [] (frame_of frame.entry) (map frame_of below.entry) privates) }
    ensures why { IfErr result (λ e. Explains e (EndFits p.now (places.function_at p.now frame.entry.function))) }
{
    let given = default_given(alloc, p, frame.function)?;
    let h = Here {
        program: p,
        line: line_of_name(p, frame.function),
        frame,
        below,
        privates,
    };
    Ok(ends(alloc, given, h)?)
}
