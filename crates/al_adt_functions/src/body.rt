//! The bodies of functions of adts among the definitions of a text.
ghost use Rattle.std.specs.Prelude.{◌≡◌, slice_get};
ghost use Rattle.std.specs.Option.{option_copied};
ghost use Rattle.al_adt_functions.specs.Bodies as spec;

use al_declare::Defined;
use al_tree::{Head, Item, Owner};

#[tactic(auto, unfolding(crate::specs::Bodies::head_in))]
fn head_in(item: &Item) -> Option<&Head>
    ensures { option_copied result ≡ spec.head_in item.now }
{
    match item {
        Item::Function { head, .. } => Some(head),
        Item::Typedef { .. }
        | Item::FunctionType { .. }
        | Item::Forward { .. }
        | Item::Aggregate { .. }
        | Item::Adt { .. }
        | Item::Enum { .. }
        | Item::Declare { .. } => None,
    }
}

fn is_owner(owner: &Option<Owner>, adt: u32) -> bool
    ensures { result ≡ spec.is_owner owner.now adt }
{
    match owner {
        None => false,
        Some(owner) => owner.adt.name == adt,
    }
}

fn is_head_of(adt: u32, name: u32, head: Option<&Head>) -> bool
    ensures { result ≡ spec.is_head_of adt name (option_copied head.entry) }
{
    match head {
        None => false,
        Some(head) => is_owner(&head.owner, adt) && head.name.name == name,
    }
}

pub(crate) fn same_number(a: Option<usize>, b: Option<usize>) -> bool
    ensures { result ≡ spec.same_number a b }
{
    match a {
        None => b.is_none(),
        Some(a) => match b {
            None => false,
            Some(b) => a == b,
        },
    }
}

/// The item of that number.
pub(crate) fn item_at(items: &[Item], k: usize) -> Option<&Item>
    ensures { option_copied result ≡ slice_get items.now k }
{
    items.get(k)
}

fn head_at(items: &[Item], k: usize) -> Option<&Head>
    ensures { option_copied result ≡ spec.head_at items.now k }
{
    match items.get(k) {
        None => None,
        Some(item) => head_in(item),
    }
}

fn is_body_of(items: &[Item], adt: u32, instance: Option<usize>, name: u32, d: &Defined) -> bool
    ensures { result ≡ spec.is_body_of items.now adt instance name d.now }
{
    is_head_of(adt, name, head_at(items, d.item)) && same_number(d.instance, instance)
}

/// The number of the first body of the function of that name of that adt or instance.
#[tactic(auto, unfolding(crate::specs::Bodies::number_of_body))]
pub(crate) fn number_of_body(
    items: &[Item],
    defined: &[Defined],
    adt: u32,
    instance: Option<usize>,
    name: u32,
) -> Option<usize>
    ensures { result ≡ spec.number_of_body items.now defined.now adt instance name }
{
    defined
        .iter()
        .position(|d| is_body_of(items, adt, instance, name, d))
}
