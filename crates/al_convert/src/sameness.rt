//! Types that are the same.
ghost use Rattle.std.specs.Prelude.{◌≡◌};
ghost use Rattle.std.specs.Option.{option_copied};
ghost use Rattle.al_convert.specs.Same as spec;

use crate::kind::is_void;
use al_base::Kind;
use al_items::Items;
use al_typed::Ty;

/// The place of a kind among them.
fn kind_number(kind: Kind) -> u32
    ensures { result ≡ spec.kind_number kind }
{
    match kind {
        Kind::Byte => 0,
        Kind::Sint => 1,
        Kind::Usint => 2,
        Kind::Int => 3,
        Kind::Uint => 4,
        Kind::Lint => 5,
        Kind::Ulint => 6,
    }
}

/// Whether two kinds are one.
pub fn same_kind(a: Kind, b: Kind) -> bool
    ensures { result ≡ spec.same_kind a b }
{
    kind_number(a) == kind_number(b)
}

/// Whether a type is the integers of that kind.
#[tactic(auto, unfolding(crate::specs::Same::is_of_kind))]
pub fn is_of_kind(a: Kind, t: &Ty) -> bool
    ensures { result ≡ spec.is_of_kind a t.now }
{
    match t {
        Ty::Integer(b) => same_kind(a, *b),
        Ty::Void
        | Ty::Pointer(_)
        | Ty::Array { .. }
        | Ty::Chan { .. }
        | Ty::Tuple(_)
        | Ty::Aggregate(_)
        | Ty::Function { .. } => false,
    }
}

/// Whether a type is the aggregate of that number.
#[tactic(auto, unfolding(crate::specs::Same::is_aggregate))]
pub(crate) fn is_aggregate(a: u32, t: &Ty) -> bool
    ensures { result ≡ spec.is_aggregate a t.now }
{
    match t {
        Ty::Aggregate(b) => a == *b,
        Ty::Void
        | Ty::Integer(_)
        | Ty::Pointer(_)
        | Ty::Array { .. }
        | Ty::Chan { .. }
        | Ty::Tuple(_)
        | Ty::Function { .. } => false,
    }
}

/// The parts of a tuple type.
#[tactic(auto, unfolding(crate::specs::Same::parts_of))]
pub fn parts_of(t: &Ty) -> Option<&Items<Ty>>
    ensures { option_copied result ≡ spec.parts_of t.now }
{
    match t {
        Ty::Tuple(parts) => Some(parts),
        Ty::Void
        | Ty::Integer(_)
        | Ty::Pointer(_)
        | Ty::Array { .. }
        | Ty::Chan { .. }
        | Ty::Aggregate(_)
        | Ty::Function { .. } => None,
    }
}

/// What a pointer points to.
#[tactic(auto, unfolding(crate::specs::Same::pointed))]
pub fn pointed(t: &Ty) -> Option<&Ty>
    ensures { option_copied result ≡ spec.pointed t.now }
{
    match t {
        Ty::Pointer(to) => Some(to.get()),
        Ty::Void
        | Ty::Integer(_)
        | Ty::Array { .. }
        | Ty::Chan { .. }
        | Ty::Tuple(_)
        | Ty::Aggregate(_)
        | Ty::Function { .. } => None,
    }
}

/// The element of a channel, of that capacity where it is counted.
#[tactic(auto, unfolding(crate::specs::Same::chan_element))]
fn chan_element(counted: bool, a: u32, t: &Ty) -> Option<&Ty>
    ensures { option_copied result ≡ spec.chan_element counted a t.now }
{
    match t {
        Ty::Chan { element, capacity } => if !counted || a == *capacity {
            Some(element.get())
        } else {
            None
        },
        Ty::Void
        | Ty::Integer(_)
        | Ty::Pointer(_)
        | Ty::Array { .. }
        | Ty::Tuple(_)
        | Ty::Aggregate(_)
        | Ty::Function { .. } => None,
    }
}

/// The element of an array of so many.
#[tactic(auto, unfolding(crate::specs::Same::array_element))]
fn array_element(a: u32, t: &Ty) -> Option<&Ty>
    ensures { option_copied result ≡ spec.array_element a t.now }
{
    match t {
        Ty::Array { element, count } => if a == *count {
            Some(element.get())
        } else {
            None
        },
        Ty::Void
        | Ty::Integer(_)
        | Ty::Pointer(_)
        | Ty::Chan { .. }
        | Ty::Tuple(_)
        | Ty::Aggregate(_)
        | Ty::Function { .. } => None,
    }
}

/// What a function returns.
#[tactic(auto, unfolding(crate::specs::Same::returns_of))]
fn returns_of(t: &Ty) -> Option<&Ty>
    ensures { option_copied result ≡ spec.returns_of t.now }
{
    match t {
        Ty::Function {
            returns,
            parameters: _,
        } => Some(returns.get()),
        Ty::Void
        | Ty::Integer(_)
        | Ty::Pointer(_)
        | Ty::Array { .. }
        | Ty::Chan { .. }
        | Ty::Tuple(_)
        | Ty::Aggregate(_) => None,
    }
}

/// What a function takes.
#[tactic(auto, unfolding(crate::specs::Same::parameters_of))]
fn parameters_of(t: &Ty) -> Option<&Items<Ty>>
    ensures { option_copied result ≡ spec.parameters_of t.now }
{
    match t {
        Ty::Function {
            returns: _,
            parameters,
        } => Some(parameters),
        Ty::Void
        | Ty::Integer(_)
        | Ty::Pointer(_)
        | Ty::Array { .. }
        | Ty::Chan { .. }
        | Ty::Tuple(_)
        | Ty::Aggregate(_) => None,
    }
}

/// Whether the types of two lists are the same, one by one. Capacities of channels are compared where they are `counted`.
#[cycle(same)]
#[tactic(auto, using(crate::proofs::SameIs::lists))]
pub fn same_list(counted: bool, xs: &[Ty], ys: &[Ty]) -> bool
    ensures { result ≡ spec.same_list counted xs.now ys.now }
{
    if xs.len() != ys.len() {
        return false;
    }
    for (i, x) in xs.iter().enumerate() {
        if !same(counted, x, &ys[i]) {
            return false;
        }
    }
    true
}

/// Whether there is a type, and it is the same.
#[cycle(same)]
fn is_same(counted: bool, x: &Ty, y: Option<&Ty>) -> bool
    ensures { result ≡ spec.passes (spec.same counted x.now) (option_copied y.entry) }
{
    match y {
        None => false,
        Some(y) => same(counted, x, y),
    }
}

/// Whether there are types, and they are the same.
#[cycle(same)]
fn are_same(counted: bool, xs: &Items<Ty>, ys: Option<&Items<Ty>>) -> bool
    ensures { result ≡ spec.are_same counted xs.now (option_copied ys.entry) }
{
    match ys {
        None => false,
        Some(ys) => same_list(counted, xs.as_slice(), ys.as_slice()),
    }
}

/// Whether two types are the same, part by part. Array bounds are compared, and capacities of channels where they are
/// `counted`: for every rule but that of `alloc` channel types of one element type are one.
#[cycle(same)]
#[tactic(auto, using(crate::proofs::SameIs::same_is))]
pub fn same(counted: bool, a: &Ty, b: &Ty) -> bool
    ensures { result ≡ spec.same counted a.now b.now }
{
    match a {
        Ty::Void => is_void(b),
        Ty::Integer(kind) => is_of_kind(*kind, b),
        Ty::Pointer(to) => is_same(counted, to.get(), pointed(b)),
        Ty::Array { element, count } => is_same(counted, element.get(), array_element(*count, b)),
        Ty::Chan { element, capacity } => {
            is_same(counted, element.get(), chan_element(counted, *capacity, b))
        }
        Ty::Tuple(parts) => are_same(counted, parts, parts_of(b)),
        Ty::Aggregate(number) => is_aggregate(*number, b),
        Ty::Function {
            returns,
            parameters,
        } => is_same(counted, returns.get(), returns_of(b))
            && are_same(counted, parameters, parameters_of(b)),
    }
}
