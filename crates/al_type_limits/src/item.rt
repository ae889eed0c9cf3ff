//! The types that items write.
ghost use Rattle.std.specs.Prelude.{◌≡◌, OnOk};
ghost use Rattle.al_type_limits.specs.Expressions as expressions;
ghost use Rattle.al_type_limits.specs.Items as spec;

use crate::by_name::ByName;
use crate::expression::{expr, optional};
use crate::member::{adt_members, members};
use crate::size::{Size, above, beside};
use crate::statement::stmt;
use crate::types::{declared, function_size, type_size};
use al_base::NoMemory;
use al_tree::{Constant, Declarator, Head, Initializer, Item};

/// What was found so far: the sizes of the typedefs' names, and the size of all types that are written.
#[derive(Drop)]
pub(crate) struct Found {
    pub(crate) names: ByName<Size>,
    pub(crate) sum: Size,
}

#[cycle(initializer)]
fn initializers(names: &ByName<Size>, sum: &mut Size, list: &[Initializer])
    ensures { sum.new ≡ expressions.each (spec.initializer names.now) list.now sum.old }
{
    for i in list {
        initializer(names, sum, i);
    }
}

/// The value that a global starts with.
#[cycle(initializer)]
#[tactic(auto, using(crate::proofs::ItemsAre::initializer_is))]
fn initializer(names: &ByName<Size>, sum: &mut Size, i: &Initializer)
    ensures { sum.new ≡ spec.initializer names.now i.now sum.old }
{
    match i {
        Initializer::Value(e) => expr(names, sum, e),
        Initializer::Braces { parts, .. } => initializers(names, sum, parts.as_slice()),
    }
}

fn head_size(names: &ByName<Size>, base: Size, head: &Head) -> Size
    ensures { result ≡ spec.head_size names.now base head.now }
{
    function_size(names, above(head.stars, base), head.parameters.as_slice())
}

/// What one declarator at file level declares.
#[tactic(auto, unfolding(crate::specs::Items::declarator_way))]
fn declarator(names: &ByName<Size>, base: Size, sum: &mut Size, d: &Declarator)
    ensures { sum.new ≡ spec.declarator_way names.now base d.now sum.old }
{
    match d {
        Declarator::Global { dcl, value } => {
            *sum = beside(*sum, declared(base, dcl));
            match value {
                None => {}
                Some(value) => initializer(names, sum, value),
            }
        }
        Declarator::Function(head) => *sum = beside(*sum, head_size(names, base, head)),
    }
}

fn declarators(names: &ByName<Size>, base: Size, sum: &mut Size, list: &[Declarator])
    ensures { sum.new ≡ expressions.each (spec.declarator_way names.now base) list.now sum.old }
{
    for d in list {
        declarator(names, base, sum, d);
    }
}

fn enum_constants(names: &ByName<Size>, sum: &mut Size, list: &[Constant])
    ensures { sum.new ≡ expressions.each (spec.enum_constant names.now) list.now sum.old }
{
    for constant in list {
        optional(names, sum, &constant.value);
    }
}

/// An item.
#[tactic(auto, unfolding(crate::specs::Items::item_way))]
fn item(names: &ByName<Size>, sum: &mut Size, i: &Item)
    ensures { sum.new ≡ spec.item_way names.now i.now sum.old }
{
    match i {
        Item::Typedef { base, dcl, .. } => {
            *sum = beside(*sum, declared(type_size(names, base), dcl));
        }
        Item::FunctionType {
            base,
            stars,
            parameters,
            ..
        } => {
            let returns = above(*stars, type_size(names, base));
            *sum = beside(*sum, function_size(names, returns, parameters.as_slice()));
        }
        Item::Forward { .. } => {}
        Item::Aggregate { members: list, .. } => members(names, sum, list.as_slice()),
        Item::Adt { members: list, .. } => adt_members(names, sum, list.as_slice()),
        Item::Enum { constants, .. } => enum_constants(names, sum, constants.as_slice()),
        Item::Declare {
            base,
            declarators: list,
            ..
        } => declarators(names, type_size(names, base), sum, list.as_slice()),
        Item::Function {
            base,
            head,
            body,
            ..
        } => {
            *sum = beside(*sum, head_size(names, type_size(names, base), head));
            stmt(names, sum, body);
        }
    }
}

/// Adds the name of a typedef.
#[tactic(auto, unfolding(crate::specs::Items::with_name))]
fn add_name(names: &mut ByName<Size>, i: &Item) -> Result<(), NoMemory>
    ensures { OnOk result (names.new ≡ spec.with_name names.old i.now) }
{
    match i {
        Item::Typedef { base, dcl, .. } => {
            let size = declared(type_size(names, base), dcl);
            names.insert(dcl.name.name, size)
        }
        Item::FunctionType {
            base,
            stars,
            name,
            parameters,
            ..
        } => {
            let returns = above(*stars, type_size(names, base));
            let size = function_size(names, returns, parameters.as_slice());
            names.insert(name.name, size)
        }
        Item::Forward { .. }
        | Item::Aggregate { .. }
        | Item::Adt { .. }
        | Item::Enum { .. }
        | Item::Declare { .. }
        | Item::Function { .. } => Ok(()),
    }
}

/// Adds what an item writes and declares.
pub(crate) fn add_item(found: &mut Found, i: &Item) -> Result<(), NoMemory>
    ensures { OnOk result (found.new ≡ spec.with_item found.old i.now) }
{
    item(&found.names, &mut found.sum, i);
    add_name(&mut found.names, i)
}
