//! Kinds of types, and sizes of what pointers lead to.
ghost use Rattle.std.specs.Prelude.{◌≡◌, ◌<◌, ◌^◌, ◌↔◌, IsTrue, MatchOption};
ghost use Rattle.al_base.specs.Arith.{width_of};
ghost use Rattle.al_typed.specs.Layout.{IsLaidOut};
ghost use Rattle.al_meaning.specs.Here as here;
ghost use Rattle.al_meaning.specs.Shown.{kind_of};
ghost use Rattle.al_control_values.specs.Fits.{IsSmall};

use al_base::Kind;
use al_control_values::is_small;
use al_typed::{Program, Ty, size};

/// The kind of an integer; a pointer or a channel is as a uint.
#[tactic(auto, unfolding(al_meaning::specs::Shown::kind_of))]
pub fn kind_of(ty: &Ty) -> Kind
    ensures { result ≡ kind_of ty.now }
{
    match ty {
        Ty::Integer(kind) => *kind,
        Ty::Void
        | Ty::Pointer(_)
        | Ty::Array { .. }
        | Ty::Chan { .. }
        | Ty::Tuple(_)
        | Ty::Aggregate(_)
        | Ty::Function { .. } => Kind::Uint,
    }
}

/// Whether a kind has room for these bits.
pub fn has_room(kind: Kind, bits: u64) -> bool
    ensures { IsTrue result ↔ (bits < 2 ^ width_of kind) }
{
    match kind {
        Kind::Byte => bits <= 0xff,
        Kind::Sint | Kind::Usint => bits <= 0xffff,
        Kind::Int | Kind::Uint => bits <= 0xffff_ffff,
        Kind::Lint | Kind::Ulint => true,
    }
}

/// The size of a type, where it is small.
pub fn small_size(p: &Program, ty: &Ty) -> Option<u32>
    requires { IsLaidOut p.now.aggregates }
    ensures { MatchOption result (IsSmall p.now ty.now → ⊥) (λ bytes. bytes ≡ here.size_in p.now ty.now) }
{
    if is_small(p, ty) {
        Some(size(p, ty))
    } else {
        None
    }
}

/// The size of what a pointer leads to, where it is small. Of another type it is that of void, 0.
#[tactic(auto, using(crate::proofs::Pointees::pointee_sizes))]
pub fn pointee_size(p: &Program, ty: &Ty) -> Option<u32>
    requires { IsLaidOut p.now.aggregates }
    ensures { MatchOption result (IsSmall p.now (here.pointee ty.now) → ⊥) (λ bytes. bytes ≡ here.size_in p.now (here.pointee ty.now)) }
{
    match ty {
        Ty::Pointer(to) => small_size(p, to.get()),
        Ty::Void
        | Ty::Integer(_)
        | Ty::Array { .. }
        | Ty::Chan { .. }
        | Ty::Tuple(_)
        | Ty::Aggregate(_)
        | Ty::Function { .. } => Some(0),
    }
}
