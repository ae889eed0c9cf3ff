//! What a step makes of the frame where it is made.
ghost use Rattle.std.specs.Prelude.{◌≡◌, ◌∷◌, [], ◌++◌, IfOk, map, length};
ghost use Rattle.al_meaning.specs.Items as item;
ghost use Rattle.al_meaning.specs.Here as step;
ghost use Rattle.al_control.specs.Models.{found_of, item_of, work_of, here_of, next_of, control_of};

use crate::control::{Control, Here, Item, Next};
use crate::work::{Found, Work};
use al_base::{NoMemory, Trap};
use al_event::{Act, Words};

/// The control with this frame, and the private globals.
pub fn control_at<'p>(h: Here<'p>) -> Result<(Control<'p>, Words), NoMemory>
    ensures control { IfOk result (λ r. control_of r.0 ≡ step.control_at (here_of h.entry)) }
    ensures privates { IfOk result (λ r. r.1 ≡ h.entry.privates) }
{
    let Here {
        frame,
        mut below,
        privates,
        ..
    } = h;
    below.push(frame)?;
    let control = Control {
        entering: None,
        frames: below,
    };
    Ok((control, privates))
}

/// The task goes on.
pub fn moves<'p>(h: Here<'p>) -> Result<Next<'p>, NoMemory>
    ensures { IfOk result (λ n. next_of n ≡ step.moves (here_of h.entry)) }
{
    let (control, privates) = control_at(h)?;
    Ok(Next::Moves(control, privates))
}

/// An item more, before the rest.
pub fn with_item<'p>(h: Here<'p>, item: Item<'p>) -> Result<Here<'p>, NoMemory>
    ensures { IfOk result (λ r. here_of r ≡ step.with_items (item_of item.entry ∷ []) (here_of h.entry)) }
{
    let mut h = h;
    h.frame.items.push(item)?;
    Ok(h)
}

/// Work more, before the rest.
pub fn with_work<'p>(h: Here<'p>, work: Work<'p>) -> Result<Here<'p>, NoMemory>
    ensures { IfOk result (λ r. here_of r ≡ step.with_work (work_of work.entry ∷ []) (here_of h.entry)) }
{
    let mut h = h;
    let line = h.line;
    h.frame.items.push(Item { line, work })?;
    Ok(h)
}

/// Goes on with work more.
pub fn does<'p>(h: Here<'p>, work: Work<'p>) -> Result<Next<'p>, NoMemory>
    ensures { IfOk result (λ n. next_of n ≡ step.does (here_of h.entry) (work_of work.entry ∷ [])) }
{
    let h = with_work(h, work)?;
    moves(h)
}

/// Goes on with two works more.
pub fn does_two<'p>(h: Here<'p>, first: Work<'p>, second: Work<'p>) -> Result<Next<'p>, NoMemory>
    ensures { IfOk result (λ n. next_of n ≡ step.does (here_of h.entry) (work_of first.entry ∷ work_of second.entry ∷ [])) }
{
    let h = with_work(h, second)?;
    does(h, first)
}

/// Goes on with three works more.
pub fn does_three<'p>(
    h: Here<'p>,
    first: Work<'p>,
    second: Work<'p>,
    third: Work<'p>,
) -> Result<Next<'p>, NoMemory>
    ensures { IfOk result (λ n. next_of n ≡ step.does (here_of h.entry) (work_of first.entry ∷ work_of second.entry ∷ work_of third.entry ∷ [])) }
{
    let h = with_work(h, third)?;
    does_two(h, first, second)
}

/// A value or place was found.
pub fn finds<'p>(h: Here<'p>, found: Found) -> Result<Next<'p>, NoMemory>
    ensures { IfOk result (λ n. next_of n ≡ step.finds (here_of h.entry) (found_of found)) }
{
    let mut h = h;
    h.frame.found.push(found)?;
    moves(h)
}

/// A value was found.
pub fn gives<'p>(h: Here<'p>, words: Words) -> Result<Next<'p>, NoMemory>
    ensures { IfOk result (λ n. next_of n ≡ step.gives (here_of h.entry) words) }
{
    finds(h, Found::Words(words))
}

/// An action, and work after its answer.
pub fn asks<'p>(h: Here<'p>, act: Act, after: Work<'p>) -> Result<Next<'p>, NoMemory>
    ensures { IfOk result (λ n. next_of n ≡ step.asks (here_of h.entry) act (work_of after.entry ∷ [])) }
{
    let line = h.line;
    let h = with_work(h, after)?;
    let (control, privates) = control_at(h)?;
    Ok(Next::Asks(act, line, control, privates))
}

/// The task traps.
pub fn traps<'p>(h: Here<'p>, trap: Trap) -> Result<Next<'p>, NoMemory>
    ensures { IfOk result (λ n. next_of n ≡ step.traps (here_of h.entry) trap) }
{
    asks(h, Act::Trap(trap), Work::Answered)
}

/// What no well-typed program comes to.
pub fn lost<'p>(h: Here<'p>) -> Result<Next<'p>, NoMemory>
    ensures { IfOk result (λ n. next_of n ≡ step.lost (here_of h.entry)) }
{
    traps(h, Trap::Illegal)
}

/// A turn, and work after it.
pub fn turns<'p>(h: Here<'p>, after: Work<'p>) -> Result<Next<'p>, NoMemory>
    ensures { IfOk result (λ n. next_of n ≡ step.turns (here_of h.entry) (work_of after.entry ∷ [])) }
{
    let line = h.line;
    let h = with_work(h, after)?;
    let (control, privates) = control_at(h)?;
    Ok(Next::Turns(line, control, privates))
}
