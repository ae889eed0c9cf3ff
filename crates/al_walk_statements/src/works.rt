//! What statements have to be done, put before the rest from the last to the first.
ghost use Rattle.std.specs.Prelude.{◌≡◌, [], ◌∷◌, IfOk};
ghost use Rattle.std.specs.List.{flat_map};
ghost use Rattle.al_meaning.specs.Calls as calls;
ghost use Rattle.al_meaning.specs.Execute as spec;
ghost use Rattle.al_meaning.specs.Here as here;
ghost use Rattle.al_control.specs.Models.{here_of};

use al_base::NoMemory;
use al_control::{Action, Here, Storage, Work, with_work};
use al_typed::{TBounds, TExpr, TInitializer, TPlace};
use al_walk_loops::evaluation;

/// The value of a declaration is to be put into its local, before the rest.
fn with_initializer<'p>(initializer: &'p TInitializer, h: Here<'p>) -> Result<Here<'p>, NoMemory>
    ensures { IfOk result (λ r. here_of r ≡ here.with_work (spec.initializer_work initializer.now) (here_of h.entry)) }
{
    let ty = initializer.value.ty();
    let number = initializer.local;
    let h = with_work(h, Work::Storage(Storage::Put(ty)))?;
    let h = with_work(h, evaluation(&initializer.value))?;
    with_work(h, Work::FindDeclared { ty, number })
}

/// The values of a declaration are to be put into their locals, before the rest.
pub fn with_initializers<'p>(
    initializers: &'p [TInitializer],
    h: Here<'p>,
) -> Result<Here<'p>, NoMemory>
    ensures { IfOk result (λ r. here_of r ≡ here.with_work (flat_map spec.initializer_work initializers.now) (here_of h.entry)) }
{
    let mut h = h;
    let mut rest = initializers;
    while let Some((initializer, front)) = rest.split_last() {
        h = with_initializer(initializer, h)?;
        rest = front;
    }
    Ok(h)
}

/// The bounds of an iterator are to be evaluated, before the rest.
fn with_bound<'p>(bounds: &'p TBounds, h: Here<'p>) -> Result<Here<'p>, NoMemory>
    ensures { IfOk result (λ r. here_of r ≡ here.with_work (calls.evaluated (spec.bounds_exprs (bounds.now ∷ []))) (here_of h.entry)) }
{
    let h = with_work(h, evaluation(&bounds.to))?;
    with_work(h, evaluation(&bounds.from))
}

/// The bounds of iterators are to be evaluated, before the rest.
pub fn with_bounds<'p>(iterators: &'p [TBounds], h: Here<'p>) -> Result<Here<'p>, NoMemory>
    ensures { IfOk result (λ r. here_of r ≡ here.with_work (calls.evaluated (spec.bounds_exprs iterators.now)) (here_of h.entry)) }
{
    let mut h = h;
    let mut rest = iterators;
    while let Some((bounds, front)) = rest.split_last() {
        h = with_bound(bounds, h)?;
        rest = front;
    }
    Ok(h)
}

/// What a place points to is to be allocated, before the rest.
fn with_allocation<'p>(place: &'p TPlace, h: Here<'p>) -> Result<Here<'p>, NoMemory>
    ensures { IfOk result (λ r. here_of r ≡ here.with_work (spec.allocation_work place.now) (here_of h.entry)) }
{
    let ty = place.ty();
    let h = with_work(h, Work::Storage(Storage::Put(ty)))?;
    let h = with_work(h, Work::Action(Action::Allocate(ty)))?;
    with_work(h, Work::Find(place))
}

/// What places point to is to be allocated, before the rest.
pub fn with_allocations<'p>(places: &'p [TPlace], h: Here<'p>) -> Result<Here<'p>, NoMemory>
    ensures { IfOk result (λ r. here_of r ≡ here.with_work (flat_map spec.allocation_work places.now) (here_of h.entry)) }
{
    let mut h = h;
    let mut rest = places;
    while let Some((place, front)) = rest.split_last() {
        h = with_allocation(place, h)?;
        rest = front;
    }
    Ok(h)
}

/// What a value names is to be given back, before the rest.
fn with_unallocation<'p>(e: &'p TExpr, h: Here<'p>) -> Result<Here<'p>, NoMemory>
    ensures { IfOk result (λ r. here_of r ≡ here.with_work (spec.unallocation_work e.now) (here_of h.entry)) }
{
    let h = with_work(h, Work::Action(Action::Unallocate(e.ty())))?;
    with_work(h, evaluation(e))
}

/// What values name is to be given back, before the rest.
pub fn with_unallocations<'p>(values: &'p [TExpr], h: Here<'p>) -> Result<Here<'p>, NoMemory>
    ensures { IfOk result (λ r. here_of r ≡ here.with_work (flat_map spec.unallocation_work values.now) (here_of h.entry)) }
{
    let mut h = h;
    let mut rest = values;
    while let Some((e, front)) = rest.split_last() {
        h = with_unallocation(e, h)?;
        rest = front;
    }
    Ok(h)
}
