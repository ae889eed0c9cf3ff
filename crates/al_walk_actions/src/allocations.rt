//! Blocks and channels that `alloc` makes and `unalloc` gives up.
ghost use Rattle.std.specs.Prelude.{◌≡◌, [], ◌∷◌, IfOk, IfErr};
ghost use Rattle.al_event.specs.declared.act.Act.TheVariants as act;
ghost use Rattle.al_event.specs.declared.act.Block.TheVariants.{Heap};
ghost use Rattle.al_typed.specs.Layout.{IsLaidOut};
ghost use Rattle.al_typed.specs.declared.ty.Ty.{out-Ty};
ghost use Rattle.al_meaning.specs.Evaluate as spec;
ghost use Rattle.al_meaning.specs.Here as here;
ghost use Rattle.al_meaning.specs.Items as item;
ghost use Rattle.al_meaning.specs.Places as places;
ghost use Rattle.al_meaning.specs.Step as step;
ghost use Rattle.al_control.specs.Fits.{Explains};
ghost use Rattle.al_control.specs.Models.{here_of, next_of};
ghost use Rattle.al_control_values.specs.Fits.{IsSmall};
ghost use Rattle.al_walk_actions.specs.Fits.{AllocationFits, HasFewWords};

use crate::acts::count_words;
use al_base::NoMemory;
use al_control::{Here, Next, Taken, Unmade, Work, asks, lost, word};
use al_convert::is_channel;
use al_event::{Act, Block};
use al_typed::Ty;
use al_variables::small_size;

/// A block for a value of a type.
fn alloc_block<'p>(to: &Ty, h: Here<'p>) -> Result<Next<'p>, Unmade>
    requires { IsLaidOut h.program.now.aggregates }
    ensures next { IfOk result (λ n. next_of n ≡ here.asks (here_of h.entry) (act.Alloc (here.size_in h.entry.program.now to.now) Heap) (item.Answered ∷ [])) }
    ensures why { IfErr result (λ e. Explains e (IsSmall h.entry.program.now to.now)) }
{
    match small_size(h.program, to) {
        None => Err(Unmade::TooLarge),
        Some(bytes) => {
            let alloc = Act::Alloc {
                bytes,
                kind: Block::Heap,
            };
            Ok(asks(h, alloc, Work::Answered)?)
        }
    }
}

/// A channel for values of a type.
fn new_chan<'p>(element: &Ty, capacity: u32, h: Here<'p>) -> Result<Next<'p>, Unmade>
    requires { IsLaidOut h.program.now.aggregates }
    ensures next { IfOk result (λ n. next_of n ≡ here.asks (here_of h.entry) (act.NewChan capacity (places.words_in h.entry.program.now element.now)) (item.Answered ∷ [])) }
    ensures why { IfErr result (λ e. Explains e (HasFewWords h.entry.program.now element.now)) }
{
    match count_words(h.program, element) {
        None => Err(Unmade::TooLarge),
        Some(words) => {
            let new = Act::NewChan { capacity, words };
            Ok(asks(h, new, Work::Answered)?)
        }
    }
}

/// What `alloc` makes for a place of a type.
pub fn allocate<'p>(ty: &Ty, h: Here<'p>) -> Result<Next<'p>, Unmade>
    requires { IsLaidOut h.program.now.aggregates }
    ensures next { IfOk result (λ n. next_of n ≡ step.step_work (item.Allocate ty.now) (here_of h.entry)) }
    ensures why { IfErr result (λ e. Explains e (AllocationFits h.entry.program.now (out-Ty ty.now))) }
{
    match ty {
        Ty::Pointer(to) => {
            let to = to.get();
            alloc_block(to, h)
        }
        Ty::Chan { element, capacity } => {
            let element = element.get();
            new_chan(element, *capacity, h)
        }
        Ty::Void => Ok(lost(h)?),
        Ty::Integer(_) => Ok(lost(h)?),
        Ty::Array { .. } => Ok(lost(h)?),
        Ty::Tuple(_) => Ok(lost(h)?),
        Ty::Aggregate(_) => Ok(lost(h)?),
        Ty::Function { .. } => Ok(lost(h)?),
    }
}

fn frees_chan<'p>(chan: u32, h: Here<'p>) -> Result<Next<'p>, NoMemory>
    ensures { IfOk result (λ n. next_of n ≡ here.asks (here_of h.entry) (act.FreeChan chan) (item.Answered ∷ [])) }
{
    asks(h, Act::FreeChan { chan }, Work::Answered)
}

fn frees_block<'p>(at: u32, h: Here<'p>) -> Result<Next<'p>, NoMemory>
    ensures { IfOk result (λ n. next_of n ≡ here.asks (here_of h.entry) (act.Free at Heap) (item.Answered ∷ [])) }
{
    let free = Act::Free {
        at,
        kind: Block::Heap,
    };
    asks(h, free, Work::Answered)
}

/// A value of a type is given up.
fn gives_back<'p>(ty: &Ty, value: u32, h: Here<'p>) -> Result<Next<'p>, NoMemory>
    ensures { IfOk result (λ n. next_of n ≡ spec.gives_back (out-Ty ty.now) value (here_of h.entry)) }
{
    if is_channel(ty) {
        frees_chan(value, h)
    } else {
        frees_block(value, h)
    }
}

/// What was found is given up.
pub fn unallocate<'p>(ty: &Ty, h: Here<'p>) -> Result<Next<'p>, NoMemory>
    ensures { IfOk result (λ n. next_of n ≡ step.step_work (item.Unallocate ty.now) (here_of h.entry)) }
{
    match word(h)? {
        Taken::Lost(next) => Ok(next),
        Taken::Took(value, h) => gives_back(ty, value, h),
    }
}
