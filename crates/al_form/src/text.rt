//! The forms of a text.
ghost use Rattle.std.specs.Prelude.{◌≡◌, None, Some, [], fold, OnOk, IfOk};
ghost use Rattle.al_poly.specs.Instances.{belongs as belonging};
ghost use Rattle.al_form.specs.Forms as spec;

use crate::copy::copy_instance;
use crate::form::{Forms, InstanceForm};
use crate::found::Found;
use crate::member::{adt_members, plain_members};
use al_base::NoMemory;
use al_items::Items;
use al_poly::{Instance, Instances, Names, names_of, owner_of};
use al_tree::{AggregateKind, Item, Tree};
use std::alloc::Global;

/// Whether what belongs to `owner` belongs to the text or to the instance at hand.
fn belongs(owner: Option<u32>, inside: &Option<Instance>) -> bool
    ensures { result ≡ belonging owner inside.now }
{
    match inside {
        None => owner.is_none(),
        Some(i) => match owner {
            None => false,
            Some(adt) => adt == i.adt,
        },
    }
}

/// Adds the type whose members stand in an item.
#[tactic(auto, unfolding(crate::specs::Forms::with_body))]
fn body(
    alloc: Global,
    names: &Names,
    inside: &Option<Instance>,
    w: &mut Found,
    item: &Item,
) -> Result<(), NoMemory>
    ensures { OnOk result (w.new ≡ spec.with_body names.now inside.now w.old item.now) }
{
    match item {
        Item::Aggregate {
            at,
            kind,
            name,
            members,
        } => {
            w.open(alloc);
            plain_members(alloc, names, inside, w, members.as_slice())?;
            w.close_named(alloc, *at, *kind, name.name)
        }
        Item::Adt {
            at,
            name,
            parameters: _,
            members,
        } => {
            w.open(alloc);
            adt_members(alloc, names, inside, w, members.as_slice())?;
            w.close_named(alloc, *at, AggregateKind::Adt, name.name)
        }
        Item::Typedef { .. }
        | Item::FunctionType { .. }
        | Item::Forward { .. }
        | Item::Enum { .. }
        | Item::Declare { .. }
        | Item::Function { .. } => Ok(()),
    }
}

/// Adds the types whose members stand in items that belong to the text or to the instance at hand.
fn bodies(
    alloc: Global,
    names: &Names,
    inside: &Option<Instance>,
    w: &mut Found,
    items: &[Item],
) -> Result<(), NoMemory>
    ensures { OnOk result (w.new ≡ fold (spec.with_item names.now inside.now) w.old items.now) }
{
    for item in items {
        if belongs(owner_of(names, item), inside) {
            body(alloc, names, inside, w, item)?;
        }
    }
    Ok(())
}

/// Adds a type of which the text has the name alone.
#[tactic(auto, unfolding(crate::specs::Forms::with_name))]
fn name(alloc: Global, w: &mut Found, item: &Item) -> Result<(), NoMemory>
    ensures { OnOk result (w.new ≡ spec.with_name w.old item.now) }
{
    match item {
        Item::Forward { at, kind, name } => {
            if w.form_named(name.name).is_some() {
                return Ok(());
            }
            w.add_name(alloc, *at, *kind, name.name)
        }
        Item::Typedef { .. }
        | Item::FunctionType { .. }
        | Item::Aggregate { .. }
        | Item::Adt { .. }
        | Item::Enum { .. }
        | Item::Declare { .. }
        | Item::Function { .. } => Ok(()),
    }
}

fn names_alone(alloc: Global, w: &mut Found, items: &[Item]) -> Result<(), NoMemory>
    ensures { OnOk result (w.new ≡ fold spec.with_name w.old items.now) }
{
    for item in items {
        name(alloc, w, item)?;
    }
    Ok(())
}

/// Adds an instance.
fn instance(
    alloc: Global,
    names: &Names,
    w: &mut Found,
    items: &[Item],
    i: &Instance,
) -> Result<InstanceForm, NoMemory>
    ensures found { OnOk result (w.new ≡ fold (spec.with_item names.now (Some i.now)) w.old items.now) }
    ensures form { IfOk result (λ f. f ≡ record { instance = i.now; form = spec.form_named w.new.named i.now.adt }) }
{
    let inside = Some(copy_instance(alloc, i)?);
    bodies(alloc, names, &inside, w, items)?;
    Ok(InstanceForm {
        instance: copy_instance(alloc, i)?,
        form: w.form_named(i.adt),
    })
}

/// Adds the instances.
fn instances(
    alloc: Global,
    names: &Names,
    w: &mut Found,
    items: &[Item],
    list: &[Instance],
) -> Result<Items<InstanceForm>, NoMemory>
    ensures { IfOk result (λ is. record { found = w.new; instances = is } ≡ fold (spec.with_instance names.now items.now) (record { found = w.old; instances = [] }) list.now) }
{
    let mut instances = Items::new(alloc);
    for i in list {
        let form = instance(alloc, names, w, items, i)?;
        instances.push(form)?;
    }
    Ok(instances)
}

/// The types with members of a text with these instances.
#[tactic(auto, unfolding(crate::specs::Forms::forms))]
pub fn forms(alloc: Global, tree: &Tree, list: &Instances) -> Result<Forms, NoMemory>
    ensures { IfOk result (λ f. f ≡ spec.forms tree.now list.now.list) }
{
    let names = names_of(alloc, tree)?;
    let items = tree.items.as_slice();
    let mut w = Found::begun(alloc, tree.names.as_slice())?;
    bodies(alloc, &names, &None, &mut w, items)?;
    names_alone(alloc, &mut w, items)?;
    let instances = instances(alloc, &names, &mut w, items, list.list.as_slice())?;
    Ok(Forms {
        list: w.forms,
        named: w.named,
        instances,
    })
}
