//! Types by names.
ghost use Rattle.std.specs.Prelude.{◌≡◌, None, option_and_then, IfOk};
ghost use Rattle.al_poly.specs.Types.{type_of as meaning};
ghost use Rattle.al_layout.specs.Types.{ty_of as resolved};
ghost use Rattle.al_build_types.specs.Built as spec;

use al_base::{NoMemory, Place};
use al_form::Forms;
use al_items::Items;
use al_layout::ty_of;
use al_poly::{ConcreteType, Names, names_of, type_of};
use al_tree::{Tree, TypeTree};
use al_typed::Ty;
use std::alloc::Global;

fn written(alloc: Global, name: usize) -> Option<TypeTree>
    ensures { result ≡ spec.written name }
{
    if name <= 4_294_967_295 {
        Some(TypeTree::Named {
            at: Place { line: 1, col: 1 },
            name: name as u32,
            arguments: Items::new(alloc),
        })
    } else {
        None
    }
}

fn meaning_of(
    alloc: Global,
    names: &Names,
    written: Option<TypeTree>,
) -> Result<Option<ConcreteType>, NoMemory>
    ensures { IfOk result (λ t. t ≡ option_and_then (meaning names.now None) written) }
{
    match written {
        None => Ok(None),
        Some(t) => type_of(alloc, names, &None, &t),
    }
}

fn resolved_of(
    alloc: Global,
    forms: &Forms,
    numbers: &[usize],
    t: Option<ConcreteType>,
) -> Result<Option<Ty>, NoMemory>
    ensures { IfOk result (λ ty. ty ≡ option_and_then (resolved forms.now numbers.now) t) }
{
    match t {
        None => Ok(None),
        Some(t) => ty_of(alloc, forms, numbers, &t),
    }
}

/// What a name stands for outside of adts with parameters.
#[tactic(auto, unfolding(crate::specs::Built::named))]
fn named(
    alloc: Global,
    forms: &Forms,
    numbers: &[usize],
    names: &Names,
    name: usize,
) -> Result<Option<Ty>, NoMemory>
    ensures { IfOk result (λ ty. ty ≡ spec.named forms.now numbers.now names.now name) }
{
    let t = meaning_of(alloc, names, written(alloc, name))?;
    resolved_of(alloc, forms, numbers, t)
}

#[tactic(auto, using(crate::proofs::RangesAre::ranges_are))]
fn all_named(
    alloc: Global,
    forms: &Forms,
    numbers: &[usize],
    names: &Names,
    count: usize,
) -> Result<Items<Option<Ty>>, NoMemory>
    ensures { IfOk result (λ ts. ts ≡ spec.types forms.now numbers.now names.now count) }
{
    let mut types = Items::with_capacity(alloc, count)?;
    for name in 0..count {
        let ty = named(alloc, forms, numbers, names, name)?;
        types.push(ty)?;
    }
    Ok(types)
}

/// What each name of a text stands for as a type outside of adts with parameters, by the name's number. There is none where
/// it is no type's name, or names an adt with parameters.
#[tactic(auto, unfolding(crate::specs::Built::built))]
pub fn types(
    alloc: Global,
    tree: &Tree,
    forms: &Forms,
    numbers: &[usize],
) -> Result<Items<Option<Ty>>, NoMemory>
    ensures { IfOk result (λ ts. ts ≡ spec.built forms.now numbers.now tree.now) }
{
    let names = names_of(alloc, tree)?;
    all_named(alloc, forms, numbers, &names, tree.names.len())
}
