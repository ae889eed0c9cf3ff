//! The classes of functions that pointers of one type may name.
ghost use Rattle.std.specs.Prelude.{◌≡◌, ◌+◌, ◌<◌, false, length, map, slice_get, slice_index_or, IfOk, OnOk};
ghost use Rattle.al_typed.specs.Typed.{function_type, local_types};
ghost use Rattle.al_convert.specs.Same.{same_list};
ghost use Rattle.al_typed.specs.Alike as meaning;
ghost use Rattle.al_lower_code.specs.Classes as spec;
ghost use Rattle.al_lower.specs.Alike.{first_among, is_typed, lists_from, numbers_at, numbers_of, own_class, AreFirsts};

use crate::layouts::parameters_of;
use al_base::NoMemory;
use al_convert::same;
use al_ir::Functions;
use al_items::Items;
use al_lower_base::{slot_behind, some};
use al_typed::{Function, Local, Program};
use al_variables::word_of;
use std::alloc::Global;

// ---- functions of one type

/// Whether parameters are of the same types, one by one.
#[tactic(auto, using(crate::proofs::SameParameters::parameters))]
fn same_types(xs: &[Local], ys: &[Local]) -> bool
    ensures { result ≡ same_list false (local_types xs.now) (local_types ys.now) }
{
    if xs.len() != ys.len() {
        return false;
    }
    for (i, x) in xs.iter().enumerate() {
        if !same(false, &x.ty, &ys[i].ty) {
            return false;
        }
    }
    true
}

/// Whether two functions are of the same type.
#[tactic(auto, using(al_convert::proofs::Alikes::functions_alike))]
fn are_alike(f: &Function, g: &Function) -> bool
    ensures { result ≡ meaning.are_alike (function_type f.now) (function_type g.now) }
{
    same(false, &f.returns, &g.returns) && same_types(parameters_of(f), parameters_of(g))
}

/// Whether the function of that number is of the same type.
fn is_typed(functions: &[Function], f: &Function, number: u32) -> bool
    ensures { result ≡ is_typed (function_type f.now) (slice_get functions.now number) }
{
    let at = number as usize;
    at < functions.len() && are_alike(f, &functions[at])
}

/// The first of these numbers whose function is of the same type.
fn first_among(functions: &[Function], f: &Function, numbers: &[u32]) -> Option<u32>
    ensures { result ≡ first_among functions.now (function_type f.now) numbers.now }
{
    for number in numbers {
        if is_typed(functions, f, *number) {
            return Some(*number);
        }
    }
    None
}

/// The class of the next function, where these are the first ones of their types before it.
#[tactic(auto, using(crate::proofs::Firsts::nexts))]
fn class_of(p: &Program, number: u32, f: &Function, firsts: &mut Functions) -> Result<u32, NoMemory>
    requires there { number < length p.now.functions }
    requires next { f.now ≡ slice_index_or p.now.functions number f.now }
    requires firsts { AreFirsts p.now.functions number firsts.old }
    ensures class { IfOk result (λ class. class ≡ own_class p.now f.now) }
    ensures firsts { OnOk result (AreFirsts p.now.functions (number + 1) firsts.new) }
{
    let functions = p.functions.as_slice();
    if !f.around.is_empty() {
        return some(word_of(functions.len() as u64));
    }
    match first_among(functions, f, firsts.as_slice()) {
        Some(class) => Ok(class),
        None => {
            firsts.push(number)?;
            Ok(number)
        }
    }
}

/// The class of each function.
#[tactic(auto, using(crate::proofs::Firsts::no_firsts))]
fn classes_of(alloc: Global, p: &Program) -> Result<Functions, NoMemory>
    ensures { IfOk result (λ classes. classes ≡ map (own_class p.now) p.now.functions) }
{
    let mut classes = Items::with_capacity(alloc, p.functions.len())?;
    let mut firsts = Items::new(alloc);
    let mut number: u32 = 0;
    for f in p.functions.as_slice() {
        classes.push(class_of(p, number, f, &mut firsts)?)?;
        number = slot_behind(number, 1)?;
    }
    Ok(classes)
}

// ---- classes

/// The functions of a class, where these are the classes of all functions.
fn numbers_of(alloc: Global, class: u32, classes: &[u32]) -> Result<Functions, NoMemory>
    ensures { IfOk result (λ numbers. numbers ≡ numbers_of class 0 classes.now) }
{
    let mut numbers = Items::new(alloc);
    let mut number: u32 = 0;
    for other in classes {
        if *other == class {
            numbers.push(number)?;
        }
        number = slot_behind(number, 1)?;
    }
    Ok(numbers)
}

/// The functions of the class of that number, if there is one.
fn numbers_at(
    alloc: Global,
    classes: &[u32],
    number: u32,
    class: u32,
) -> Result<Functions, NoMemory>
    ensures { IfOk result (λ numbers. numbers ≡ numbers_at classes.now number class) }
{
    if class != number {
        return Ok(Items::new(alloc));
    }
    numbers_of(alloc, number, classes)
}

/// A list for each function and one behind them, where these are the classes of all functions.
fn lists(alloc: Global, classes: &[u32]) -> Result<Items<Functions>, NoMemory>
    ensures { IfOk result (λ lists. lists ≡ lists_from classes.now 0 classes.now) }
{
    let mut lists = Items::new(alloc);
    let mut number: u32 = 0;
    for class in classes {
        lists.push(numbers_at(alloc, classes, number, *class)?)?;
        number = slot_behind(number, 1)?;
    }
    lists.push(Items::new(alloc))?;
    Ok(lists)
}

/// The classes of a program. Each function is compared with the first ones of the types before it alone.
#[tactic(auto, using(crate::proofs::Members::lists_are))]
pub fn classes(alloc: Global, p: &Program) -> Result<Items<Functions>, NoMemory>
    ensures { IfOk result (λ classes. classes ≡ spec.classes p.now) }
{
    let classes = classes_of(alloc, p)?;
    lists(alloc, classes.as_slice())
}
