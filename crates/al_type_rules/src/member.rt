//! The rules of the types of data members.
ghost use Rattle.std.specs.Prelude.{◌≡◌, ◌++◌, OnOk};
ghost use Rattle.std.specs.List.{flat_map};
ghost use Rattle.al_typed.specs.Layout.{IsLaidOut};
ghost use Rattle.al_type_rules.specs.Types as types;
ghost use Rattle.al_type_rules.specs.Members as spec;

use crate::variable::variable_type;
use crate::written::faults_in;
use al_base::NoMemory;
use al_environment::{Environment, Here, written_type};
use al_items::Items;
use al_rules::TypeFault;
use al_tree::{Dcl, Member, TypeTree};
use al_typed::Ty;
use std::alloc::Global;

#[tactic(auto, using(crate::proofs::FaultsAre::lists))]
fn fields_of(
    alloc: Global,
    env: &Environment,
    base: &Option<Ty>,
    list: &[Dcl],
    faults: &mut Items<TypeFault>,
) -> Result<(), NoMemory>
    requires { IsLaidOut env.now.aggregates }
    ensures { OnOk result (faults.new ≡ faults.old ++ flat_map (types.variable_faults env.now base.now) list.now) }
{
    for dcl in list {
        let _ty = variable_type(alloc, env, base, dcl, faults)?;
    }
    Ok(())
}

fn fields(
    alloc: Global,
    env: &Environment,
    here: &Here,
    base: &TypeTree,
    list: &[Dcl],
    faults: &mut Items<TypeFault>,
) -> Result<(), NoMemory>
    requires { IsLaidOut env.now.aggregates }
    ensures { OnOk result (faults.new ≡ faults.old ++ spec.fields_faults env.now here.now base.now list.now) }
{
    faults_in(alloc, env, here, base, faults)?;
    let ty = written_type(alloc, env, here, base)?;
    fields_of(alloc, env, &ty, list, faults)
}

/// Adds the breaks of rules 7, 16, 18 and 20 of the types of members.
#[cycle(members)]
#[tactic(auto, using(crate::proofs::FaultsAre::lists))]
pub fn members_faults(
    alloc: Global,
    env: &Environment,
    here: &Here,
    list: &[Member],
    faults: &mut Items<TypeFault>,
) -> Result<(), NoMemory>
    requires { IsLaidOut env.now.aggregates }
    ensures { OnOk result (faults.new ≡ faults.old ++ flat_map (spec.member_faults env.now here.now) list.now) }
{
    for m in list {
        member_faults(alloc, env, here, m, faults)?;
    }
    Ok(())
}

/// Adds the breaks of rules 7, 16, 18 and 20 of the types of a member.
#[cycle(members)]
#[tactic(auto, using(crate::proofs::MembersAre::member_is))]
pub fn member_faults(
    alloc: Global,
    env: &Environment,
    here: &Here,
    m: &Member,
    faults: &mut Items<TypeFault>,
) -> Result<(), NoMemory>
    requires { IsLaidOut env.now.aggregates }
    ensures { OnOk result (faults.new ≡ faults.old ++ spec.member_faults env.now here.now m.now) }
{
    match m {
        Member::Fields {
            base,
            fields: list,
            ..
        } => fields(alloc, env, here, base, list.as_slice(), faults),
        Member::Unnamed { of, .. } => faults_in(alloc, env, here, of, faults),
        Member::Inner { members, .. } => {
            members_faults(alloc, env, here, members.as_slice(), faults)
        }
    }
}
