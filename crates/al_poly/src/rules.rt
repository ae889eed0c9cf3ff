//! Typing rules 13 and 14.
ghost use Rattle.std.specs.Prelude.{◌≡◌, ◌++◌, OnOk};
ghost use Rattle.std.specs.List.{flat_map};
ghost use Rattle.std.specs.Option.{option_copied};
ghost use Rattle.al_poly.specs.Rules as rule;

use crate::fault::Misuse;
use crate::names::{Names, adt_named, parameter_named};
use al_base::{NoMemory, Place};
use al_items::Items;
use al_tree::TypeTree;

fn is_parameter(names: &Names, owner: Option<u32>, name: u32) -> bool
    ensures { result ≡ rule.is_parameter names.now owner name }
{
    match owner {
        None => false,
        Some(owner) => parameter_named(names, owner, name).is_some(),
    }
}

/// The parameters of the adt with parameters that a name stands for in what belongs to `owner`.
#[tactic(auto, unfolding(crate::specs::Rules::adt_at))]
fn adt_at(names: &Names, owner: Option<u32>, name: u32) -> Option<&Items<u32>>
    ensures { option_copied result ≡ rule.adt_at names.now owner name }
{
    if is_parameter(names, owner, name) {
        return None;
    }
    adt_named(names, name)
}

fn may_have_arguments(count: usize, adt: Option<&Items<u32>>) -> bool
    ensures { result ≡ rule.may_have_arguments count (option_copied adt.entry) }
{
    count == 0 || adt.is_some()
}

fn is_owner(owner: Option<u32>, name: u32) -> bool
    ensures { result ≡ rule.is_owner owner name }
{
    match owner {
        None => false,
        Some(owner) => owner == name,
    }
}

fn has_right_count(owner: Option<u32>, name: u32, count: usize, adt: Option<&Items<u32>>) -> bool
    ensures { result ≡ rule.has_right_count owner name count (option_copied adt.entry) }
{
    match adt {
        None => true,
        Some(parameters) => {
            if count == 0 {
                is_owner(owner, name)
            } else {
                count == parameters.len()
            }
        }
    }
}

/// Adds a misuse, unless the rule holds.
#[tactic(auto, using(crate::proofs::RulesAre::misuses_are))]
fn ask(misuses: &mut Items<Misuse>, holds: bool, misuse: Misuse) -> Result<(), NoMemory>
    ensures { OnOk result (misuses.new ≡ misuses.old ++ rule.unless holds misuse) }
{
    if holds {
        return Ok(());
    }
    misuses.push(misuse)
}

/// Asks the rules of a name with so many type arguments.
#[tactic(auto, using(crate::proofs::RulesAre::misuses_are))]
fn ask_name(
    names: &Names,
    owner: Option<u32>,
    misuses: &mut Items<Misuse>,
    at: Place,
    name: u32,
    count: usize,
) -> Result<(), NoMemory>
    ensures { OnOk result (misuses.new ≡ misuses.old ++ rule.misuses_of_name names.now owner at name count) }
{
    let adt = adt_at(names, owner, name);
    ask(
        misuses,
        may_have_arguments(count, adt),
        Misuse::UnknownParameter(at),
    )?;
    ask(
        misuses,
        has_right_count(owner, name, count, adt),
        Misuse::WrongCount(at),
    )
}

#[cycle(rules)]
#[tactic(auto, using(crate::proofs::RulesAre::misuses_more))]
fn ask_all(
    names: &Names,
    owner: Option<u32>,
    misuses: &mut Items<Misuse>,
    list: &[TypeTree],
) -> Result<(), NoMemory>
    ensures { OnOk result (misuses.new ≡ misuses.old ++ flat_map (rule.misuses_in names.now owner) list.now) }
{
    for t in list {
        ask_type(names, owner, misuses, t)?;
    }
    Ok(())
}

/// Asks the rules of a type that belongs to that adt, or to none.
#[cycle(rules)]
#[tactic(auto, using(crate::proofs::RulesAre::misuses_are))]
pub(crate) fn ask_type(
    names: &Names,
    owner: Option<u32>,
    misuses: &mut Items<Misuse>,
    t: &TypeTree,
) -> Result<(), NoMemory>
    ensures { OnOk result (misuses.new ≡ misuses.old ++ rule.misuses_in names.now owner t.now) }
{
    match t {
        TypeTree::Basic { .. } => Ok(()),
        TypeTree::Named {
            at,
            name,
            arguments,
        } => {
            ask_name(names, owner, misuses, *at, *name, arguments.len())?;
            ask_all(names, owner, misuses, arguments.as_slice())
        }
        TypeTree::Tuple { parts, .. } => ask_all(names, owner, misuses, parts.as_slice()),
        TypeTree::Chan { element, .. } => ask_type(names, owner, misuses, element.get()),
        TypeTree::Pointer { to, .. } => ask_type(names, owner, misuses, to.get()),
        TypeTree::Array { element, .. } => ask_type(names, owner, misuses, element.get()),
    }
}
