//! What members without a name lend.
ghost use Rattle.std.specs.Prelude.{◌≡◌, ◌++◌, ◌∷◌, fold, IfOk, OnOk};
ghost use Rattle.std.specs.Option.{option_copied};
ghost use Rattle.al_member_names.specs.Members as spec;

use crate::function::signature;
use crate::walk::Walk;
use al_base::{NoMemory, Place};
use al_environment::{MemberNames, NamedFunction, NamedMember};
use al_items::Items;
use std::alloc::Global;

fn path_of(alloc: Global, number: u32, path: &[u32]) -> Result<Items<u32>, NoMemory>
    ensures { IfOk result (λ p. p ≡ number ∷ path.now) }
{
    let mut all = Items::new(alloc);
    all.push(number)?;
    all.extend_from_slice(path)?;
    Ok(all)
}

fn both(alloc: Global, first: &[u32], second: &[u32]) -> Result<Items<u32>, NoMemory>
    ensures { IfOk result (λ p. p ≡ first.now ++ second.now) }
{
    let mut all = Items::from_slice(alloc, first)?;
    all.extend_from_slice(second)?;
    Ok(all)
}

/// One that the member of that number lends.
fn lent(
    alloc: Global,
    number: u32,
    interns: &[u32],
    m: &NamedMember,
) -> Result<NamedMember, NoMemory>
    ensures { IfOk result (λ l. l ≡ spec.lent number interns.now m.now) }
{
    Ok(NamedMember {
        name: m.name,
        path: path_of(alloc, number, m.path.as_slice())?,
        ty: m.ty.copy(alloc)?,
        interns: both(alloc, interns, m.interns.as_slice())?,
    })
}

fn push_members(
    alloc: Global,
    w: &mut Walk,
    at: Place,
    number: u32,
    interns: &[u32],
    list: &[NamedMember],
) -> Result<(), NoMemory>
    ensures { OnOk result (w.new ≡ fold (spec.with_lent at number interns.now) w.old list.now) }
{
    for m in list {
        let member = lent(alloc, number, interns, m)?;
        w.push(at, member)?;
    }
    Ok(())
}

/// A function that the member of that number lends.
fn lent_function(
    alloc: Global,
    number: u32,
    interns: &[u32],
    f: &NamedFunction,
) -> Result<NamedFunction, NoMemory>
    ensures { IfOk result (λ l. l ≡ spec.lent_function number interns.now f.now) }
{
    Ok(NamedFunction {
        name: f.name,
        path: path_of(alloc, number, f.path.as_slice())?,
        interns: both(alloc, interns, f.interns.as_slice())?,
        passed: f.passed,
        signature: signature(alloc, &f.signature)?,
    })
}

fn push_functions(
    alloc: Global,
    w: &mut Walk,
    at: Place,
    number: u32,
    interns: &[u32],
    list: &[NamedFunction],
) -> Result<(), NoMemory>
    ensures { OnOk result (w.new ≡ fold (spec.with_lent_function at number interns.now) w.old list.now) }
{
    for f in list {
        let function = lent_function(alloc, number, interns, f)?;
        w.push_function(at, function)?;
    }
    Ok(())
}

/// Adds all that the member of that number lends.
pub(crate) fn push_lent(
    alloc: Global,
    w: &mut Walk,
    at: Place,
    number: u32,
    interns: &[u32],
    names: Option<&MemberNames>,
) -> Result<(), NoMemory>
    ensures { OnOk result (w.new ≡ spec.with_all_lent at number interns.now w.old (option_copied names.entry)) }
{
    match names {
        None => Ok(()),
        Some(names) => {
            push_members(alloc, w, at, number, interns, names.members.as_slice())?;
            push_functions(alloc, w, at, number, interns, names.functions.as_slice())
        }
    }
}
