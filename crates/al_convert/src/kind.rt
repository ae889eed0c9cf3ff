//! Forms of types, and the kinds of arithmetic.
ghost use Rattle.std.specs.Prelude.{◌≡◌};
ghost use Rattle.std.specs.Option.{option_copied};
ghost use Rattle.al_typed.specs.Types as types;
ghost use Rattle.al_convert.specs.Kinds as spec;

use al_base::Kind;
use al_typed::{Aggregate, Ty, is_complete};

/// The kind of an integer type.
#[tactic(auto, unfolding(crate::specs::Kinds::kind_of))]
pub fn kind_of(t: &Ty) -> Option<Kind>
    ensures { result ≡ spec.kind_of t.now }
{
    match t {
        Ty::Integer(kind) => Some(*kind),
        Ty::Void
        | Ty::Pointer(_)
        | Ty::Array { .. }
        | Ty::Chan { .. }
        | Ty::Tuple(_)
        | Ty::Aggregate(_)
        | Ty::Function { .. } => None,
    }
}

/// Whether a type is one of integers.
pub fn is_integer(t: &Ty) -> bool
    ensures { result ≡ spec.is_integer t.now }
{
    kind_of(t).is_some()
}

/// The element of a channel type.
#[tactic(auto, unfolding(crate::specs::Kinds::element_of))]
pub fn element_of(t: &Ty) -> Option<&Ty>
    ensures { option_copied result ≡ spec.element_of t.now }
{
    match t {
        Ty::Chan { element, .. } => Some(element.get()),
        Ty::Void
        | Ty::Integer(_)
        | Ty::Pointer(_)
        | Ty::Array { .. }
        | Ty::Tuple(_)
        | Ty::Aggregate(_)
        | Ty::Function { .. } => None,
    }
}

/// Whether a type is one of channels.
pub fn is_channel(t: &Ty) -> bool
    ensures { result ≡ spec.is_channel t.now }
{
    element_of(t).is_some()
}

/// The element of an array type.
#[tactic(auto, unfolding(crate::specs::Kinds::items_of))]
pub fn items_of(t: &Ty) -> Option<&Ty>
    ensures { option_copied result ≡ spec.items_of t.now }
{
    match t {
        Ty::Array { element, .. } => Some(element.get()),
        Ty::Void
        | Ty::Integer(_)
        | Ty::Pointer(_)
        | Ty::Chan { .. }
        | Ty::Tuple(_)
        | Ty::Aggregate(_)
        | Ty::Function { .. } => None,
    }
}

/// Whether a type is that of a function.
#[tactic(auto, unfolding(crate::specs::Kinds::is_function))]
pub fn is_function(t: &Ty) -> bool
    ensures { result ≡ spec.is_function t.now }
{
    match t {
        Ty::Function { .. } => true,
        Ty::Void
        | Ty::Integer(_)
        | Ty::Pointer(_)
        | Ty::Array { .. }
        | Ty::Chan { .. }
        | Ty::Tuple(_)
        | Ty::Aggregate(_) => false,
    }
}

/// Whether a type is void.
#[tactic(auto, unfolding(al_typed::specs::Types::is_void))]
pub fn is_void(t: &Ty) -> bool
    ensures { result ≡ types.is_void t.now }
{
    match t {
        Ty::Void => true,
        Ty::Integer(_)
        | Ty::Pointer(_)
        | Ty::Array { .. }
        | Ty::Chan { .. }
        | Ty::Tuple(_)
        | Ty::Aggregate(_)
        | Ty::Function { .. } => false,
    }
}

/// Whether a type is that of an array.
#[tactic(auto, unfolding(al_typed::specs::Types::is_array))]
pub fn is_array(t: &Ty) -> bool
    ensures { result ≡ types.is_array t.now }
{
    match t {
        Ty::Array { .. } => true,
        Ty::Void
        | Ty::Integer(_)
        | Ty::Pointer(_)
        | Ty::Chan { .. }
        | Ty::Tuple(_)
        | Ty::Aggregate(_)
        | Ty::Function { .. } => false,
    }
}

/// Whether a type is one of integers, pointers or channels.
#[tactic(auto, unfolding(al_typed::specs::Types::is_scalar))]
pub fn is_scalar(t: &Ty) -> bool
    ensures { result ≡ types.is_scalar t.now }
{
    match t {
        Ty::Integer(_) | Ty::Pointer(_) | Ty::Chan { .. } => true,
        Ty::Void | Ty::Array { .. } | Ty::Tuple(_) | Ty::Aggregate(_) | Ty::Function { .. } => {
            false
        }
    }
}

/// Whether a type is that of pointers to a complete type.
#[tactic(auto, unfolding(al_typed::specs::Types::points_to_complete))]
pub fn points_to_complete(aggregates: &[Aggregate], t: &Ty) -> bool
    ensures { result ≡ types.points_to_complete aggregates.now t.now }
{
    match t {
        Ty::Pointer(to) => is_complete(aggregates, to.get()),
        Ty::Void
        | Ty::Integer(_)
        | Ty::Array { .. }
        | Ty::Chan { .. }
        | Ty::Tuple(_)
        | Ty::Aggregate(_)
        | Ty::Function { .. } => false,
    }
}

/// The kind that arithmetic on one integer has.
pub fn promoted(kind: Kind) -> Kind
    ensures { result ≡ types.promoted kind }
{
    match kind {
        Kind::Byte | Kind::Sint | Kind::Usint | Kind::Int => Kind::Int,
        Kind::Uint => Kind::Uint,
        Kind::Lint => Kind::Lint,
        Kind::Ulint => Kind::Ulint,
    }
}

/// Wider kinds stand higher, and of equal widths the unsigned one.
fn rank(kind: Kind) -> u8
    ensures { result ≡ spec.rank kind }
{
    match kind {
        Kind::Byte | Kind::Sint | Kind::Usint | Kind::Int => 0,
        Kind::Uint => 1,
        Kind::Lint => 2,
        Kind::Ulint => 3,
    }
}

/// The kind of arithmetic on two integers of these kinds: the wider one's, and of equal widths the unsigned one.
pub fn common(a: Kind, b: Kind) -> Kind
    ensures { result ≡ spec.common a b }
{
    if rank(a) < rank(b) {
        promoted(b)
    } else {
        promoted(a)
    }
}
