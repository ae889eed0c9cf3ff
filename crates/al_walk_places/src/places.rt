//! Places of variables, elements and members.
ghost use Rattle.std.specs.Prelude.{◌≡◌, ◌<◌, ◌^◌, [], ◌∷◌, slice_get, IfOk, IfErr, MatchOption};
ghost use Rattle.std.specs.Option.{option_copied};
ghost use Rattle.al_typed.specs.Layout.{IsLaidOut};
ghost use Rattle.al_meaning.specs.Evaluate as spec;
ghost use Rattle.al_meaning.specs.Here as step;
ghost use Rattle.al_meaning.specs.Items as item;
ghost use Rattle.al_meaning.specs.Places as places;
ghost use Rattle.al_meaning.specs.Words as words;
ghost use Rattle.al_typed.specs.Typed.{place_type, type_of};
ghost use Rattle.al_control_values.specs.Fits.{IsSmall};
ghost use Rattle.al_walk_places.specs.Fits.{LocalFits, OuterFits, PlaceFits};
ghost use Rattle.al_control.specs.Fits.{Explains};
ghost use Rattle.al_control.specs.Models.{found_of, here_of, next_of, work_of};

use al_base::NoMemory;
use al_control::{
    Found, Here, Next, Storage, Unmade, ValueStage, Work, does_three, does_two, finds,
};
use al_control_values::sum;
use al_items::{Boxed, Items};
use al_typed::{Local, Program, TExpr, TPlace, Ty};
use al_variables::{
    global_place, local_offset, locals_of, path_offset, pointee_offset, round_of, small_size,
    word_at, word_of,
};

/// The local of that number.
pub fn local_at(locals: &[Local], number: u32) -> Option<&Local>
    ensures { option_copied result ≡ slice_get locals.now number }
{
    locals.get(number as usize)
}

/// A shared local of a function whose shared block stands at `block`.
fn local_address(p: &Program, locals: &[Local], block: u32, number: u32) -> Option<Found>
    requires { IsLaidOut p.now.aggregates }
    ensures { MatchOption result (places.local_offset p.now locals.now number < 2 ^ 32 → ⊥) (λ f. found_of f ≡ item.Address (words.sum block (places.local_offset p.now locals.now number))) }
{
    match word_of(local_offset(p, locals, number)) {
        None => None,
        Some(offset) => Some(Found::Address(sum(block as u64, offset as u64))),
    }
}

/// A local of a function whose shared block stands at `block`.
pub fn local_found(p: &Program, function: u32, block: u32, number: u32) -> Option<Found>
    requires { IsLaidOut p.now.aggregates }
    ensures { MatchOption result (LocalFits p.now function number → ⊥) (λ f. found_of f ≡ spec.local_found p.now function block number) }
{
    let locals = locals_of(p, function);
    match local_at(locals, number) {
        None => Some(Found::Local(number)),
        Some(local) => {
            if local.is_shared {
                local_address(p, locals, block, number)
            } else {
                Some(Found::Local(number))
            }
        }
    }
}

/// A shared local of a function round the par branch at hand.
fn outer_found(
    p: &Program,
    function: u32,
    blocks: &[u32],
    around: u32,
    number: u32,
) -> Option<Found>
    requires { IsLaidOut p.now.aggregates }
    ensures { MatchOption result (OuterFits p.now function around number → ⊥) (λ f. found_of f ≡ spec.outer_found p.now function blocks.now around number) }
{
    let outer = word_at(round_of(p, function), around);
    local_address(p, locals_of(p, outer), word_at(blocks, around), number)
}

/// A global.
fn global_found(p: &Program, number: u32) -> Option<Found>
    requires { IsLaidOut p.now.aggregates }
    ensures { MatchOption result (places.global_place p.now number < 2 ^ 32 → ⊥) (λ f. found_of f ≡ spec.global_found p.now number) }
{
    match p.globals.get(number as usize) {
        None => shared_found(p, number),
        Some(global) => {
            if global.is_private {
                Some(Found::Private(number))
            } else {
                shared_found(p, number)
            }
        }
    }
}

/// A shared global, or where it would stand.
fn shared_found(p: &Program, number: u32) -> Option<Found>
    requires { IsLaidOut p.now.aggregates }
    ensures { MatchOption result (places.global_place p.now number < 2 ^ 32 → ⊥) (λ f. found_of f ≡ item.Address (places.global_place p.now number)) }
{
    match word_of(global_place(p, number as usize)) {
        None => None,
        Some(at) => Some(Found::Address(at)),
    }
}

/// Finds a local of the function at hand, by its number: a place of a text, or what a declaration gives a value.
pub fn find_declared<'p>(number: u32, h: Here<'p>) -> Result<Next<'p>, Unmade>
    requires { IsLaidOut h.program.now.aggregates }
    ensures next { IfOk result (λ n. next_of n ≡ step.finds (here_of h.entry) (spec.local_found h.entry.program.now h.entry.frame.function h.entry.frame.block number)) }
    ensures why { IfErr result (λ e. Explains e (LocalFits h.entry.program.now h.entry.frame.function number)) }
{
    match local_found(h.program, h.frame.function, h.frame.block, number) {
        None => Err(Unmade::TooLarge),
        Some(found) => Ok(finds(h, found)?),
    }
}

/// Finds a shared local of a function round the par branch at hand.
fn find_outer<'p>(around: u32, number: u32, h: Here<'p>) -> Result<Next<'p>, Unmade>
    requires { IsLaidOut h.program.now.aggregates }
    ensures next { IfOk result (λ n. next_of n ≡ step.finds (here_of h.entry) (spec.outer_found h.entry.program.now h.entry.frame.function h.entry.frame.around around number)) }
    ensures why { IfErr result (λ e. Explains e (OuterFits h.entry.program.now h.entry.frame.function around number)) }
{
    let blocks = h.frame.around.as_slice();
    match outer_found(h.program, h.frame.function, blocks, around, number) {
        None => Err(Unmade::TooLarge),
        Some(found) => Ok(finds(h, found)?),
    }
}

/// Finds a global.
fn find_global<'p>(number: u32, h: Here<'p>) -> Result<Next<'p>, Unmade>
    requires { IsLaidOut h.program.now.aggregates }
    ensures next { IfOk result (λ n. next_of n ≡ step.finds (here_of h.entry) (spec.global_found h.entry.program.now number)) }
    ensures why { IfErr result (λ e. Explains e (places.global_place h.entry.program.now number < 2 ^ 32)) }
{
    match global_found(h.program, number) {
        None => Err(Unmade::TooLarge),
        Some(found) => Ok(finds(h, found)?),
    }
}

/// An expression that is to be evaluated.
fn evaluation<'p>(e: &'p TExpr) -> Work<'p>
    ensures { work_of result ≡ item.Eval e.now }
{
    Work::Value(ValueStage::Eval, e)
}

/// Finds what a pointer leads to.
fn find_pointed<'p>(pointer: &'p Boxed<TExpr>, h: Here<'p>) -> Result<Next<'p>, NoMemory>
    ensures { IfOk result (λ n. next_of n ≡ step.does (here_of h.entry) (item.Eval pointer.now ∷ item.Point 0 ∷ [])) }
{
    let point = Work::Storage(Storage::Point { offset: 0 });
    does_two(h, evaluation(pointer.get()), point)
}

/// Finds an element of type `ty`.
fn find_element<'p>(
    ty: &Ty,
    base: &'p Boxed<TExpr>,
    index: &'p Boxed<TExpr>,
    h: Here<'p>,
) -> Result<Next<'p>, Unmade>
    requires { IsLaidOut h.program.now.aggregates }
    ensures next { IfOk result (λ n. next_of n ≡ step.does (here_of h.entry) (item.Eval base.now ∷ item.Eval index.now ∷ item.Index (step.size_in h.entry.program.now ty.now) ∷ [])) }
    ensures why { IfErr result (λ e. Explains e (IsSmall h.entry.program.now ty.now)) }
{
    match small_size(h.program, ty) {
        None => Err(Unmade::TooLarge),
        Some(size) => {
            let find = Work::Storage(Storage::Index { size });
            Ok(does_three(h, evaluation(base.get()), evaluation(index.get()), find)?)
        }
    }
}

/// Finds a member of a place.
fn find_member<'p>(
    of: &'p Boxed<TPlace>,
    path: &Items<u32>,
    h: Here<'p>,
) -> Result<Next<'p>, Unmade>
    requires { IsLaidOut h.program.now.aggregates }
    ensures next { IfOk result (λ n. next_of n ≡ step.does (here_of h.entry) (item.Find of.now ∷ item.Within (places.path_offset h.entry.program.now (place_type of.now) path.now) ∷ [])) }
    ensures why { IfErr result (λ e. Explains e (places.path_offset h.entry.program.now (place_type of.now) path.now < 2 ^ 32)) }
{
    match path_offset(h.program, of.get().ty(), path.as_slice()) {
        None => Err(Unmade::TooLarge),
        Some(offset) => {
            let within = Work::Storage(Storage::Within { offset });
            Ok(does_two(h, Work::Find(of.get()), within)?)
        }
    }
}

/// Finds a member of what a pointer leads to.
fn find_pointed_member<'p>(
    pointer: &'p Boxed<TExpr>,
    path: &Items<u32>,
    h: Here<'p>,
) -> Result<Next<'p>, Unmade>
    requires { IsLaidOut h.program.now.aggregates }
    ensures next { IfOk result (λ n. next_of n ≡ step.does (here_of h.entry) (item.Eval pointer.now ∷ item.Point (places.path_offset h.entry.program.now (step.pointee (type_of pointer.now)) path.now) ∷ [])) }
    ensures why { IfErr result (λ e. Explains e (places.path_offset h.entry.program.now (step.pointee (type_of pointer.now)) path.now < 2 ^ 32)) }
{
    match pointee_offset(h.program, pointer.get().ty(), path.as_slice()) {
        None => Err(Unmade::TooLarge),
        Some(offset) => {
            let point = Work::Storage(Storage::Point { offset });
            Ok(does_two(h, evaluation(pointer.get()), point)?)
        }
    }
}

/// Finds a place.
pub fn find_place<'p>(place: &'p TPlace, h: Here<'p>) -> Result<Next<'p>, Unmade>
    requires { IsLaidOut h.program.now.aggregates }
    ensures next { IfOk result (λ n. next_of n ≡ spec.find_place place.now (here_of h.entry)) }
    ensures why { IfErr result (λ e. Explains e (PlaceFits h.entry.program.now h.entry.frame.function place.now)) }
{
    match place {
        TPlace::Local { number, .. } => find_declared(*number, h),
        TPlace::Outer { around, number, .. } => find_outer(*around, *number, h),
        TPlace::Global { number, .. } => find_global(*number, h),
        TPlace::Pointed { pointer, .. } => Ok(find_pointed(pointer, h)?),
        TPlace::Element { ty, base, index } => find_element(ty, base, index, h),
        TPlace::Member { of, path, .. } => find_member(of, path, h),
        TPlace::PointedMember { pointer, path, .. } => find_pointed_member(pointer, path, h),
    }
}
