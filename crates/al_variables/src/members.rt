//! Members that paths lead to.
ghost use Rattle.std.specs.Prelude.{◌≡◌, ◌<◌, ◌^◌, MatchOption};
ghost use Rattle.al_typed.specs.Layout.{IsLaidOut};
ghost use Rattle.al_meaning.specs.Here.{pointee};
ghost use Rattle.al_meaning.specs.Places as places;
ghost use Rattle.al_variables.specs.Members.{IsPart, Leads};

use crate::word::word_of;
use al_control_values::member_at;
use al_typed::{Program, Ty};

/// How far from the start of a value a path of members leads, where a word has room for it; 0 where it leads to none.
pub fn path_offset(p: &Program, ty: &Ty, path: &[u32]) -> Option<u32>
    requires { IsLaidOut p.now.aggregates }
    ensures { MatchOption result (places.path_offset p.now ty.now path.now < 2 ^ 32 → ⊥) (λ bytes. bytes ≡ places.path_offset p.now ty.now path.now) }
{
    match member_at(p.aggregates.as_slice(), ty, path) {
        None => Some(0),
        Some(reached) => word_of(reached.at),
    }
}

/// How far from the start of what a pointer leads to a path leads, where a word has room for it; 0 where it leads to none.
#[tactic(auto, using(crate::proofs::Pointees::pointee_offsets))]
pub fn pointee_offset(p: &Program, ty: &Ty, path: &[u32]) -> Option<u32>
    requires { IsLaidOut p.now.aggregates }
    ensures { MatchOption result (places.path_offset p.now (pointee ty.now) path.now < 2 ^ 32 → ⊥) (λ bytes. bytes ≡ places.path_offset p.now (pointee ty.now) path.now) }
{
    match ty {
        Ty::Pointer(to) => path_offset(p, to.get(), path),
        Ty::Void
        | Ty::Integer(_)
        | Ty::Array { .. }
        | Ty::Chan { .. }
        | Ty::Tuple(_)
        | Ty::Aggregate(_)
        | Ty::Function { .. } => Some(0),
    }
}

/// A member of a value.
#[derive(Clone, Copy)]
pub struct Part<'p> {
    pub ty: &'p Ty,
    /// Where it stands in the value.
    pub offset: u32,
}

/// The member of a value of a type that a path leads to, where it leads to one and a word has room for its offset.
pub fn part_at<'p>(p: &'p Program, ty: &'p Ty, path: &[u32]) -> Option<Part<'p>>
    requires { IsLaidOut p.now.aggregates }
    ensures { MatchOption result (Leads p.now ty.now path.now → ⊥) (IsPart p.now ty.now path.now) }
{
    match member_at(p.aggregates.as_slice(), ty, path) {
        None => None,
        Some(reached) => match word_of(reached.at) {
            None => None,
            Some(offset) => Some(Part {
                ty: reached.ty,
                offset,
            }),
        },
    }
}
