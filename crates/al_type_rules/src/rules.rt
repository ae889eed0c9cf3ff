ghost use Rattle.std.specs.Prelude.{◌≡◌, nat_le};
ghost use Rattle.al_typed.specs.Layout.{IsLaidOut, size_of};
ghost use Rattle.al_type_rules.specs.Rules as rule;

use al_convert::{is_array, is_void};
use al_typed::{Aggregate, Ty, is_complete, room_of};

pub(crate) fn rule_7_value(rows: &[Aggregate], ty: &Option<Ty>) -> bool
    ensures { result ≡ rule.rule_7_value rows.now ty.now }
{
    match ty {
        None => false,
        Some(ty) => is_void(ty) || is_complete(rows, ty),
    }
}

pub(crate) fn rule_7_array(rows: &[Aggregate], ty: &Option<Ty>) -> bool
    ensures { result ≡ rule.rule_7_array rows.now ty.now }
{
    match ty {
        None => false,
        Some(ty) => !is_array(ty) || is_complete(rows, ty),
    }
}

pub(crate) fn rule_16_value(ty: &Option<Ty>) -> bool
    ensures { result ≡ rule.rule_16_value ty.now }
{
    match ty {
        None => true,
        Some(ty) => !is_void(ty),
    }
}

#[tactic(auto, using(crate::proofs::SizesAre::small_size))]
fn is_small(rows: &[Aggregate], ty: &Ty) -> bool
    requires { IsLaidOut rows.now }
    ensures { result ≡ nat_le (size_of rows.now ty.now) 268435456 }
{
    room_of(rows, ty).size <= 268_435_456
}

pub(crate) fn rule_18_size(rows: &[Aggregate], ty: &Option<Ty>) -> bool
    requires { IsLaidOut rows.now }
    ensures { result ≡ rule.rule_18_size rows.now ty.now }
{
    match ty {
        None => true,
        Some(ty) => is_small(rows, ty),
    }
}

pub(crate) fn rule_20_result(ty: &Option<Ty>) -> bool
    ensures { result ≡ rule.rule_20_result ty.now }
{
    match ty {
        None => true,
        Some(ty) => !is_array(ty),
    }
}

pub(crate) fn rule_20_part(ty: &Option<Ty>) -> bool
    ensures { result ≡ rule.rule_20_part ty.now }
{
    match ty {
        None => true,
        Some(ty) => !is_array(ty) && !is_void(ty),
    }
}
