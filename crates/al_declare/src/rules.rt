//! The rules, one function each.
ghost use Rattle.std.specs.Prelude.{◌≡◌};
ghost use Rattle.std.specs.Option.{option_copied};
ghost use Rattle.al_declare.specs.Rules as rule;

use crate::asked::{Declared, What};
use crate::text::Text;
use al_items::Items;
use al_tree::Name;

const MOST_ELEMENTS: u32 = 268_435_456;

const MOST_CAPACITY: u32 = 4_096;

fn what_number(what: What) -> u8
    ensures { result ≡ rule.what_number what }
{
    match what {
        What::Other => 0,
        What::Aggr => 1,
        What::Union => 2,
        What::Adt => 3,
        What::Global => 4,
        What::Function => 5,
    }
}

fn may_be_again(old: What, new: What) -> bool
    ensures { result ≡ rule.may_be_again old new }
{
    what_number(old) == what_number(new) && what_number(old) != 0
}

/// Rule 2 of a name at file level.
pub(crate) fn may_be_declared_again(old: Option<Declared>, new: Declared) -> bool
    ensures { result ≡ rule.rule_2_again old new }
{
    match old {
        None => true,
        Some(old) => may_be_again(old.what, new.what) && !(old.is_whole && new.is_whole),
    }
}

fn is_among(scope: &[u32], name: u32) -> bool
    ensures { result ≡ rule.is_among scope.now name }
{
    scope.iter().any(|n| *n == name)
}

/// Rule 2 of a name in a scope.
pub(crate) fn rule_2_new(scope: &[u32], name: u32) -> bool
    ensures { result ≡ rule.rule_2_new scope.now name }
{
    !is_among(scope, name)
}

fn is_own(own: Option<usize>, name: u32) -> bool
    ensures { result ≡ rule.is_own own name }
{
    match own {
        None => false,
        Some(own) => own == name as usize,
    }
}

pub(crate) fn rule_3_free(text: &Text, name: u32) -> bool
    ensures { result ≡ rule.rule_3_free text.now name }
{
    !(is_own(text.print, name) || is_own(text.terminate, name))
}

/// Rule 12, where an own parameter may stand in a function of `adt`.
pub(crate) fn rule_12_own(adt: Option<u32>, name: u32) -> bool
    ensures { result ≡ rule.rule_12_own adt name }
{
    match adt {
        None => false,
        Some(adt) => adt == name,
    }
}

#[tactic(auto, using(crate::proofs::NumbersAre::lists))]
fn same_numbers(written: &[Name], numbers: &[u32]) -> bool
    ensures { result ≡ rule.same_numbers written.now numbers.now }
{
    if written.len() != numbers.len() {
        return false;
    }
    for (i, n) in written.iter().enumerate() {
        if n.name != numbers[i] {
            return false;
        }
    }
    true
}

/// Rule 15 of a definition's parameter list.
pub(crate) fn rule_15_list(adt: Option<&Items<u32>>, written: &[Name]) -> bool
    ensures { result ≡ rule.rule_15_list (option_copied adt.entry) written.now }
{
    match adt {
        None => match written.split_first() {
            None => true,
            Some(_) => false,
        },
        Some(parameters) => same_numbers(written, parameters.as_slice()),
    }
}

pub(crate) fn rule_17_bound(bound: Option<u32>) -> bool
    ensures { result ≡ rule.rule_17_bound bound }
{
    match bound {
        None => false,
        Some(n) => 1 <= n && n <= MOST_ELEMENTS,
    }
}

pub(crate) fn rule_17_capacity(capacity: Option<u32>) -> bool
    ensures { result ≡ rule.rule_17_capacity capacity }
{
    match capacity {
        None => false,
        Some(n) => 1 <= n && n <= MOST_CAPACITY,
    }
}
