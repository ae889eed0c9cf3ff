ghost use Rattle.std.specs.Prelude.{◌≡◌};
ghost use Rattle.std.specs.Option.{option_copied};
ghost use Rattle.al_typed.specs.Types.{may_be_private as private_type};
ghost use Rattle.al_globals.specs.Rules as rule;

use al_base::Kind;
use al_convert::{is_of_kind, is_void, pointed, same, same_list};
use al_environment::{Signature, Variable};
use al_typed::Ty;

pub(crate) fn rule_2_global(old: Option<&Variable>, ty: &Ty) -> bool
    ensures { result ≡ rule.rule_2_global (option_copied old.entry) ty.now }
{
    match old {
        None => true,
        Some(old) => same(false, &old.ty, ty),
    }
}

fn same_signature(a: &Signature, b: &Signature) -> bool
    ensures { result ≡ rule.same_signature a.now b.now }
{
    same(false, &a.returns, &b.returns)
        && same_list(false, a.parameters.as_slice(), b.parameters.as_slice())
}

pub(crate) fn rule_2_6_function(old: Option<&Signature>, s: &Signature) -> bool
    ensures { result ≡ rule.rule_2_6_function (option_copied old.entry) s.now }
{
    match old {
        None => true,
        Some(old) => same_signature(old, s),
    }
}

fn is_byte_pointer(ty: Option<&Ty>) -> bool
    ensures { result ≡ rule.is_byte_pointer (option_copied ty.entry) }
{
    match ty {
        None => false,
        Some(ty) => is_of_kind(Kind::Byte, ty),
    }
}

fn points_to_bytes(ty: Option<&Ty>) -> bool
    ensures { result ≡ rule.points_to_bytes (option_copied ty.entry) }
{
    match ty {
        None => false,
        Some(ty) => is_byte_pointer(pointed(ty)),
    }
}

fn is_nil(list: &[Ty]) -> bool
    ensures { result ≡ rule.is_nil list.now }
{
    match list.split_first() {
        None => true,
        Some(_) => false,
    }
}

fn rest_of_main(list: &[Ty]) -> bool
    ensures { result ≡ rule.rest_of_main list.now }
{
    match list.split_first() {
        None => false,
        Some((first, rest)) => is_nil(rest) && points_to_bytes(pointed(first)),
    }
}

fn parameters_of_main(list: &[Ty]) -> bool
    ensures { result ≡ rule.parameters_of_main list.now }
{
    match list.split_first() {
        None => true,
        Some((first, rest)) => is_of_kind(Kind::Int, first) && rest_of_main(rest),
    }
}

pub(crate) fn rule_4_main(s: Option<&Signature>) -> bool
    ensures { result ≡ rule.rule_4_main (option_copied s.entry) }
{
    match s {
        None => false,
        Some(s) => {
            s.number.is_some() && is_void(&s.returns) && parameters_of_main(s.parameters.as_slice())
        }
    }
}

#[tactic(auto, unfolding(al_typed::specs::Types::may_be_private))]
fn may_be_private(ty: &Ty) -> bool
    ensures { result ≡ private_type ty.now }
{
    match ty {
        Ty::Integer(_) | Ty::Pointer(_) | Ty::Chan { .. } | Ty::Tuple(_) => true,
        Ty::Void | Ty::Array { .. } | Ty::Aggregate(_) | Ty::Function { .. } => false,
    }
}

pub(crate) fn rule_19_private(is_private: bool, has_value: bool, ty: &Ty) -> bool
    ensures { result ≡ rule.rule_19_private is_private has_value ty.now }
{
    !is_private || (!has_value && may_be_private(ty))
}
