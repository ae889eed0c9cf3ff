//! The types that members write.
ghost use Rattle.std.specs.Prelude.{◌≡◌};
ghost use Rattle.al_type_limits.specs.Expressions as expressions;
ghost use Rattle.al_type_limits.specs.Items as spec;

use crate::by_name::ByName;
use crate::expression::add_type;
use crate::size::{Size, above, beside};
use crate::types::{declared, function_size, type_size};
use al_tree::{AdtMember, AdtPart, Dcl, Member};

/// Fields of that base type.
fn fields(base: Size, sum: &mut Size, list: &[Dcl])
    ensures { sum.new ≡ expressions.each (spec.field base) list.now sum.old }
{
    for dcl in list {
        *sum = beside(*sum, declared(base, dcl));
    }
}

/// Members.
#[cycle(member)]
pub(crate) fn members(names: &ByName<Size>, sum: &mut Size, list: &[Member])
    ensures { sum.new ≡ expressions.each (spec.member names.now) list.now sum.old }
{
    for m in list {
        member(names, sum, m);
    }
}

/// A member.
#[cycle(member)]
#[tactic(auto, using(crate::proofs::ItemsAre::member_is))]
fn member(names: &ByName<Size>, sum: &mut Size, m: &Member)
    ensures { sum.new ≡ spec.member names.now m.now sum.old }
{
    match m {
        Member::Fields {
            base,
            fields: list,
            ..
        } => fields(type_size(names, base), sum, list.as_slice()),
        Member::Unnamed { of, .. } => add_type(names, sum, of),
        Member::Inner { members: list, .. } => members(names, sum, list.as_slice()),
    }
}

#[tactic(auto, unfolding(crate::specs::Items::adt_part))]
fn adt_part(names: &ByName<Size>, sum: &mut Size, part: &AdtPart)
    ensures { sum.new ≡ spec.adt_part names.now part.now sum.old }
{
    match part {
        AdtPart::Data(m) => member(names, sum, m),
        AdtPart::Function {
            base,
            stars,
            parameters,
            ..
        } => {
            let returns = above(*stars, type_size(names, base));
            *sum = beside(*sum, function_size(names, returns, parameters.as_slice()));
        }
    }
}

/// Members of an adt.
pub(crate) fn adt_members(names: &ByName<Size>, sum: &mut Size, list: &[AdtMember])
    ensures { sum.new ≡ expressions.each (spec.adt_member names.now) list.now sum.old }
{
    for m in list {
        adt_part(names, sum, &m.part);
    }
}
