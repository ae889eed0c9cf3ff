ghost use Rattle.std.specs.Prelude.{◌≡◌};
ghost use Rattle.std.specs.Option.{option_copied};
ghost use Rattle.al_poly.specs.Concrete as spec;

use crate::concrete_type::ConcreteType;
use al_items::Items;
use al_tree::BasicType;

/// The place of a basic type among them.
fn basic_number(basic: BasicType) -> u32
    ensures { result ≡ spec.basic_number basic }
{
    match basic {
        BasicType::Byte => 0,
        BasicType::Sint => 1,
        BasicType::Usint => 2,
        BasicType::Int => 3,
        BasicType::Uint => 4,
        BasicType::Lint => 5,
        BasicType::Ulint => 6,
        BasicType::Void => 7,
    }
}

#[tactic(auto, unfolding(crate::specs::Concrete::is_basic))]
fn is_basic(a: BasicType, t: &ConcreteType) -> bool
    ensures { result ≡ spec.is_basic a t.now }
{
    match t {
        ConcreteType::Basic(b) => basic_number(a) == basic_number(*b),
        ConcreteType::Named(_)
        | ConcreteType::Instance { .. }
        | ConcreteType::Tuple(_)
        | ConcreteType::Chan { .. }
        | ConcreteType::Pointer(_)
        | ConcreteType::Array { .. }
        | ConcreteType::Function { .. } => false,
    }
}

#[tactic(auto, unfolding(crate::specs::Concrete::is_named))]
fn is_named(a: u32, t: &ConcreteType) -> bool
    ensures { result ≡ spec.is_named a t.now }
{
    match t {
        ConcreteType::Named(b) => a == *b,
        ConcreteType::Basic(_)
        | ConcreteType::Instance { .. }
        | ConcreteType::Tuple(_)
        | ConcreteType::Chan { .. }
        | ConcreteType::Pointer(_)
        | ConcreteType::Array { .. }
        | ConcreteType::Function { .. } => false,
    }
}

/// The arguments of an instance of that adt.
#[tactic(auto, unfolding(crate::specs::Concrete::arguments_of))]
fn arguments_of(a: u32, t: &ConcreteType) -> Option<&Items<ConcreteType>>
    ensures { option_copied result ≡ spec.arguments_of a t.now }
{
    match t {
        ConcreteType::Instance { adt, arguments } => if a == *adt { Some(arguments) } else { None },
        ConcreteType::Basic(_)
        | ConcreteType::Named(_)
        | ConcreteType::Tuple(_)
        | ConcreteType::Chan { .. }
        | ConcreteType::Pointer(_)
        | ConcreteType::Array { .. }
        | ConcreteType::Function { .. } => None,
    }
}

#[tactic(auto, unfolding(crate::specs::Concrete::parts_of))]
fn parts_of(t: &ConcreteType) -> Option<&Items<ConcreteType>>
    ensures { option_copied result ≡ spec.parts_of t.now }
{
    match t {
        ConcreteType::Tuple(parts) => Some(parts),
        ConcreteType::Basic(_)
        | ConcreteType::Named(_)
        | ConcreteType::Instance { .. }
        | ConcreteType::Chan { .. }
        | ConcreteType::Pointer(_)
        | ConcreteType::Array { .. }
        | ConcreteType::Function { .. } => None,
    }
}

/// The element of a channel of that capacity.
#[tactic(auto, unfolding(crate::specs::Concrete::chan_element))]
fn chan_element(a: u32, t: &ConcreteType) -> Option<&ConcreteType>
    ensures { option_copied result ≡ spec.chan_element a t.now }
{
    match t {
        ConcreteType::Chan { element, capacity } => if a == *capacity {
            Some(element.get())
        } else {
            None
        },
        ConcreteType::Basic(_)
        | ConcreteType::Named(_)
        | ConcreteType::Instance { .. }
        | ConcreteType::Tuple(_)
        | ConcreteType::Pointer(_)
        | ConcreteType::Array { .. }
        | ConcreteType::Function { .. } => None,
    }
}

#[tactic(auto, unfolding(crate::specs::Concrete::pointed))]
fn pointed(t: &ConcreteType) -> Option<&ConcreteType>
    ensures { option_copied result ≡ spec.pointed t.now }
{
    match t {
        ConcreteType::Pointer(to) => Some(to.get()),
        ConcreteType::Basic(_)
        | ConcreteType::Named(_)
        | ConcreteType::Instance { .. }
        | ConcreteType::Tuple(_)
        | ConcreteType::Chan { .. }
        | ConcreteType::Array { .. }
        | ConcreteType::Function { .. } => None,
    }
}

/// The element of an array of so many.
#[tactic(auto, unfolding(crate::specs::Concrete::array_element))]
fn array_element(a: u32, t: &ConcreteType) -> Option<&ConcreteType>
    ensures { option_copied result ≡ spec.array_element a t.now }
{
    match t {
        ConcreteType::Array { element, count } => if a == *count {
            Some(element.get())
        } else {
            None
        },
        ConcreteType::Basic(_)
        | ConcreteType::Named(_)
        | ConcreteType::Instance { .. }
        | ConcreteType::Tuple(_)
        | ConcreteType::Chan { .. }
        | ConcreteType::Pointer(_)
        | ConcreteType::Function { .. } => None,
    }
}

#[tactic(auto, unfolding(crate::specs::Concrete::returns_of))]
fn returns_of(t: &ConcreteType) -> Option<&ConcreteType>
    ensures { option_copied result ≡ spec.returns_of t.now }
{
    match t {
        ConcreteType::Function {
            returns,
            parameters: _,
        } => Some(returns.get()),
        ConcreteType::Basic(_)
        | ConcreteType::Named(_)
        | ConcreteType::Instance { .. }
        | ConcreteType::Tuple(_)
        | ConcreteType::Chan { .. }
        | ConcreteType::Pointer(_)
        | ConcreteType::Array { .. } => None,
    }
}

#[tactic(auto, unfolding(crate::specs::Concrete::parameters_of))]
fn parameters_of(t: &ConcreteType) -> Option<&Items<ConcreteType>>
    ensures { option_copied result ≡ spec.parameters_of t.now }
{
    match t {
        ConcreteType::Function {
            returns: _,
            parameters,
        } => Some(parameters),
        ConcreteType::Basic(_)
        | ConcreteType::Named(_)
        | ConcreteType::Instance { .. }
        | ConcreteType::Tuple(_)
        | ConcreteType::Chan { .. }
        | ConcreteType::Pointer(_)
        | ConcreteType::Array { .. } => None,
    }
}

/// Whether the types of two lists are the same, one by one.
#[cycle(same)]
#[tactic(auto, using(crate::proofs::ConcreteIs::lists))]
pub(crate) fn same_list(xs: &[ConcreteType], ys: &[ConcreteType]) -> bool
    ensures { result ≡ spec.same_list xs.now ys.now }
{
    if xs.len() != ys.len() {
        return false;
    }
    for (i, x) in xs.iter().enumerate() {
        if !same(x, &ys[i]) {
            return false;
        }
    }
    true
}

/// Whether there is a type, and it is the same.
#[cycle(same)]
fn is_same(x: &ConcreteType, y: Option<&ConcreteType>) -> bool
    ensures { result ≡ spec.passes (spec.same x.now) (option_copied y.entry) }
{
    match y {
        None => false,
        Some(y) => same(x, y),
    }
}

/// Whether there are types, and they are the same.
#[cycle(same)]
fn are_same(xs: &Items<ConcreteType>, ys: Option<&Items<ConcreteType>>) -> bool
    ensures { result ≡ spec.are_same xs.now (option_copied ys.entry) }
{
    match ys {
        None => false,
        Some(ys) => same_list(xs.as_slice(), ys.as_slice()),
    }
}

/// Whether two types are the same, part by part, capacities and array bounds counted.
#[cycle(same)]
#[tactic(auto, using(crate::proofs::ConcreteIs::same_is))]
pub fn same(a: &ConcreteType, b: &ConcreteType) -> bool
    ensures { result ≡ spec.same a.now b.now }
{
    match a {
        ConcreteType::Basic(basic) => is_basic(*basic, b),
        ConcreteType::Named(name) => is_named(*name, b),
        ConcreteType::Instance { adt, arguments } => are_same(arguments, arguments_of(*adt, b)),
        ConcreteType::Tuple(parts) => are_same(parts, parts_of(b)),
        ConcreteType::Chan { element, capacity } => {
            is_same(element.get(), chan_element(*capacity, b))
        }
        ConcreteType::Pointer(to) => is_same(to.get(), pointed(b)),
        ConcreteType::Array { element, count } => is_same(element.get(), array_element(*count, b)),
        ConcreteType::Function {
            returns,
            parameters,
        } => is_same(returns.get(), returns_of(b)) && are_same(parameters, parameters_of(b)),
    }
}
