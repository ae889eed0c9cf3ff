//! Which values are converted to which types.
ghost use Rattle.std.specs.Prelude.{◌≡◌};
ghost use Rattle.std.specs.Option.{option_copied};
ghost use Rattle.al_convert.specs.Conversions as spec;

use crate::kind::{element_of, is_channel, is_integer, is_scalar, is_void};
use crate::literal::Literal;
use crate::sameness::{is_aggregate, parts_of, pointed, same};
use al_base::Place;
use al_items::Items;
use al_typed::Ty;

/// Whether a pointer to one type converts to a pointer to another. There is none where `b` is missing.
pub fn pointers_convert(a: &Ty, b: Option<&Ty>) -> bool
    ensures { result ≡ spec.pointers_convert a.now (option_copied b.entry) }
{
    match b {
        None => false,
        Some(b) => is_void(a) || is_void(b) || same(false, a, b),
    }
}

/// Whether a channel of one element type converts to one of another. There is none where `b` is missing.
fn channels_convert(a: &Ty, b: Option<&Ty>) -> bool
    ensures { result ≡ spec.channels_convert a.now (option_copied b.entry) }
{
    match b {
        None => false,
        Some(b) => same(false, a, b),
    }
}

/// Whether values of the types of one list convert to those of another, one by one.
#[cycle(type_converts)]
#[tactic(auto, using(crate::proofs::ConversionsAre::type_lists))]
fn types_convert(from: &[Ty], to: &[Ty]) -> bool
    ensures { result ≡ spec.types_convert from.now to.now }
{
    if from.len() != to.len() {
        return false;
    }
    for (i, a) in from.iter().enumerate() {
        if !type_converts(a, &to[i]) {
            return false;
        }
    }
    true
}

/// Whether values of these types convert to the parts of a tuple.
#[cycle(type_converts)]
fn parts_convert(from: &Items<Ty>, to: Option<&Items<Ty>>) -> bool
    ensures { result ≡ spec.parts_convert from.now (option_copied to.entry) }
{
    match to {
        None => false,
        Some(to) => types_convert(from.as_slice(), to.as_slice()),
    }
}

/// Whether a value of one type converts to another, whatever it is written as.
#[cycle(type_converts)]
#[tactic(auto, using(crate::proofs::ConversionsAre::type_converts_is))]
pub fn type_converts(from: &Ty, to: &Ty) -> bool
    ensures { result ≡ spec.type_converts from.now to.now }
{
    match from {
        Ty::Void | Ty::Array { .. } | Ty::Function { .. } => false,
        Ty::Integer(_) => is_integer(to),
        Ty::Pointer(a) => pointers_convert(a.get(), pointed(to)),
        Ty::Chan {
            element,
            capacity: _,
        } => channels_convert(element.get(), element_of(to)),
        Ty::Tuple(parts) => parts_convert(parts, parts_of(to)),
        Ty::Aggregate(number) => is_aggregate(*number, to),
    }
}

/// Whether a type takes nil.
pub fn takes_nil(to: &Ty) -> bool
    ensures { result ≡ spec.takes_nil to.now }
{
    pointed(to).is_some() || is_channel(to)
}

/// Whether values written so, of these types, convert to those, one by one.
#[cycle(converts)]
#[tactic(auto, using(crate::proofs::ConversionsAre::literal_lists))]
fn literals_convert(literals: &[Literal], from: &[Ty], to: &[Ty]) -> bool
    ensures { result ≡ spec.literals_convert literals.now from.now to.now }
{
    if literals.len() != from.len() || from.len() != to.len() {
        return false;
    }
    for (i, literal) in literals.iter().enumerate() {
        if !converts(literal, &from[i], &to[i]) {
            return false;
        }
    }
    true
}

/// Whether the parts of a tuple that is written so convert.
#[cycle(converts)]
fn parts_of_literal_convert(
    literals: &Items<Literal>,
    from: Option<&Items<Ty>>,
    to: Option<&Items<Ty>>,
) -> bool
    ensures { result ≡ spec.parts_of_literal_convert literals.now (option_copied from.entry) (option_copied to.entry) }
{
    let from = match from {
        None => return false,
        Some(from) => from,
    };
    match to {
        None => false,
        Some(to) => literals_convert(literals.as_slice(), from.as_slice(), to.as_slice()),
    }
}

/// Whether a value that is written so, of one type, converts to another (rule 33).
#[cycle(converts)]
#[tactic(auto, using(crate::proofs::ConversionsAre::converts_is))]
pub fn converts(literal: &Literal, from: &Ty, to: &Ty) -> bool
    ensures { result ≡ spec.converts literal.now from.now to.now }
{
    match literal {
        Literal::Other => type_converts(from, to),
        Literal::Zero => is_scalar(to),
        Literal::Nil { at: _ } => takes_nil(to),
        Literal::Tuple(parts) => parts_of_literal_convert(parts, parts_of(from), parts_of(to)),
    }
}

/// The place of the first nil in a list.
#[cycle(nil_in)]
#[tactic(auto, using(crate::proofs::ConversionsAre::nil_lists))]
fn nil_among(literals: &[Literal]) -> Option<Place>
    ensures { result ≡ spec.nil_among literals.now }
{
    for literal in literals {
        let found = nil_in(literal);
        if found.is_some() {
            return found;
        }
    }
    None
}

/// The place of the first nil in what a value is written as.
#[cycle(nil_in)]
#[tactic(auto, using(crate::proofs::ConversionsAre::nil_in_is))]
pub fn nil_in(literal: &Literal) -> Option<Place>
    ensures { result ≡ spec.nil_in literal.now }
{
    match literal {
        Literal::Other | Literal::Zero => None,
        Literal::Nil { at } => Some(*at),
        Literal::Tuple(parts) => nil_among(parts.as_slice()),
    }
}
