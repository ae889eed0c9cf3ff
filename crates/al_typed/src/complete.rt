//! Types that have values.
ghost use Rattle.std.specs.Prelude.{◌≡◌, slice_get};
ghost use Rattle.std.specs.List.{list_all};
ghost use Rattle.al_typed.specs.Types as types;

use crate::layout::row;
use crate::program::Aggregate;
use crate::ty::Ty;

/// Whether the text has a body of the aggregate of that number.
fn has_body(aggregates: &[Aggregate], number: u32) -> bool
    ensures { result ≡ types.has_body (slice_get aggregates.now number) }
{
    match row(aggregates, number) {
        None => false,
        Some(aggregate) => aggregate.members.is_some(),
    }
}

/// Whether a type has values: it is no void and no function type, and each aggregate in it by value has a body.
#[cycle(complete)]
#[tactic(auto, using(crate::proofs::Completeness::is_complete_is))]
pub fn is_complete(aggregates: &[Aggregate], ty: &Ty) -> bool
    ensures { result ≡ types.is_complete aggregates.now ty.now }
{
    match ty {
        Ty::Void | Ty::Function { .. } => false,
        Ty::Integer(_) | Ty::Pointer(_) | Ty::Chan { .. } => true,
        Ty::Array { element, .. } => is_complete(aggregates, element.get()),
        Ty::Tuple(parts) => are_complete(aggregates, parts.as_slice()),
        Ty::Aggregate(number) => has_body(aggregates, *number),
    }
}

/// Whether each of these types has values.
#[cycle(complete)]
pub fn are_complete(aggregates: &[Aggregate], tys: &[Ty]) -> bool
    ensures { result ≡ list_all (types.is_complete aggregates.now) tys.now }
{
    for ty in tys {
        if !is_complete(aggregates, ty) {
            return false;
        }
    }
    true
}
