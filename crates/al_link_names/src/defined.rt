//! The functions that a file defines for all files.
ghost use Rattle.std.specs.Prelude.{◌≡◌, ◌++◌, [], OnOk, IfOk};
ghost use Rattle.al_link_text.specs.Items as items;
ghost use Rattle.al_link_names.specs.Twice as spec;

use al_base::{NoMemory, Place};
use al_items::Items;
use al_link_text::{File, own_names};
use al_tree::{Head, Item, TypeNames};
use std::alloc::Global;

/// A function with a body. A function of an adt is named by the adt's name, a dot and its own.
#[derive(Debug, Drop)]
pub(crate) struct Defined {
    pub(crate) name: Items<u8>,
    pub(crate) at: Place,
}

/// The bytes of a name.
fn bytes_of_name(file: &File, n: u32) -> &[u8]
    ensures { result.now ≡ spec.bytes_of_name file.now n }
{
    match file.tree.names.get(n as usize) {
        Some(name) => name.as_slice(),
        None => &[],
    }
}

/// The function's name behind these bytes.
fn push_defined(
    list: &mut Items<Defined>,
    file: &File,
    head: &Head,
    before: Items<u8>,
) -> Result<(), NoMemory>
    ensures { OnOk result (list.new ≡ list.old ++ spec.defined file.now head.now before) }
{
    let mut name = before;
    name.extend_from_slice(bytes_of_name(file, head.name.name))?;
    list.push(Defined {
        name,
        at: head.name.at,
    })
}

fn push_head(
    alloc: Global,
    list: &mut Items<Defined>,
    file: &File,
    own: &TypeNames,
    head: &Head,
) -> Result<(), NoMemory>
    ensures { OnOk result (list.new ≡ list.old ++ spec.defined_of file.now own.now head.now head.now.owner) }
{
    match &head.owner {
        None if own.knows(head.name.name) => Ok(()),
        None => push_defined(list, file, head, Items::new(alloc)),
        Some(owner) => {
            let mut before = Items::from_slice(alloc, bytes_of_name(file, owner.adt.name))?;
            before.push(b'.')?;
            push_defined(list, file, head, before)
        }
    }
}

fn push_item(
    alloc: Global,
    list: &mut Items<Defined>,
    file: &File,
    own: &TypeNames,
    item: &Item,
) -> Result<(), NoMemory>
    ensures { OnOk result (list.new ≡ list.old ++ spec.defined_by file.now own.now item.now) }
{
    match item {
        Item::Function { head, .. } => push_head(alloc, list, file, own, head),
        _ => Ok(()),
    }
}

/// The functions that a file defines for all files.
pub(crate) fn all_defined(alloc: Global, file: &File) -> Result<Items<Defined>, NoMemory>
    ensures { IfOk result (λ list. list ≡ spec.all_defined file.now) }
{
    let own = own_names(alloc, file.tree.items.as_slice())?;
    let mut list = Items::new(alloc);
    for item in file.tree.items.as_slice() {
        push_item(alloc, &mut list, file, &own, item)?;
    }
    Ok(list)
}
