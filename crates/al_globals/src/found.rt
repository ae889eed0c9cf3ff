//! The globals and functions that were found so far.
ghost use Rattle.std.specs.Prelude.{◌≡◌, ◌++◌, IfOk, OnOk};
ghost use Rattle.std.specs.Option.{option_copied};
ghost use Rattle.al_globals.specs.Globals as spec;

use crate::number::number_of;
use crate::rules::{rule_2_6_function, rule_2_global, rule_19_private};
use al_base::{NoMemory, Place};
use al_environment::{Signature, Variable};
use al_items::Items;
use al_rules::{TypeFault, ask};
use al_scope::Declaration;
use al_typed::Ty;
use std::alloc::Global;

/// The globals and the functions outside of adts of a text as far as they were found, and the faults in them.
#[derive(Drop)]
pub struct Found {
    /// By the numbers of `Declaration::Global`.
    pub globals: Items<Variable>,
    /// Whether each has an initializer.
    pub values: Items<bool>,
    /// By the numbers of `Declaration::Function`.
    pub functions: Items<Signature>,
    pub faults: Items<TypeFault>,
}

pub(crate) fn global_in(declaration: Option<Declaration>) -> Option<usize>
    ensures { result ≡ spec.global_in declaration }
{
    match declaration {
        None => None,
        Some(declaration) => match declaration {
            Declaration::Global(n) => Some(n),
            Declaration::Function(_)
            | Declaration::Constant(_)
            | Declaration::Local(_)
            | Declaration::Outer { .. }
            | Declaration::Print
            | Declaration::Terminate => None,
        },
    }
}

pub(crate) fn function_in(declaration: Option<Declaration>) -> Option<usize>
    ensures { result ≡ spec.function_in declaration }
{
    match declaration {
        None => None,
        Some(declaration) => match declaration {
            Declaration::Function(n) => Some(n),
            Declaration::Global(_)
            | Declaration::Constant(_)
            | Declaration::Local(_)
            | Declaration::Outer { .. }
            | Declaration::Print
            | Declaration::Terminate => None,
        },
    }
}

fn capped(n: usize) -> u32
    ensures { result ≡ spec.capped n }
{
    if n <= 4_294_967_295 {
        n as u32
    } else {
        u32::MAX
    }
}

/// Whether a global that was declared so, or not yet, is private once it is declared again.
fn is_private_with(old: Option<&Variable>, is_private: bool) -> bool
    ensures { result ≡ spec.is_private_with (option_copied old.entry) is_private }
{
    match old {
        None => is_private,
        Some(old) => is_private || old.is_private,
    }
}

/// The same of its having a value.
fn has_value_with(old: Option<&bool>, has_value: bool) -> bool
    ensures { result ≡ spec.has_value_with (option_copied old.entry) has_value }
{
    match old {
        None => has_value,
        Some(old) => has_value || *old,
    }
}

fn put<T: Drop>(list: &mut Items<T>, n: usize, item: T) -> Result<(), NoMemory>
    ensures { OnOk result (list.new ≡ spec.put list.old n item) }
{
    if n < list.len() {
        list.set(n, item);
        Ok(())
    } else {
        list.push(item)
    }
}

/// One that is declared again keeps its type.
fn again(
    alloc: Global,
    old: Option<&Variable>,
    n: usize,
    ty: Ty,
    is_private: bool,
) -> Result<Variable, NoMemory>
    ensures { IfOk result (λ v. v ≡ spec.again (option_copied old.entry) n ty is_private) }
{
    match old {
        None => Ok(Variable {
            number: capped(n),
            ty,
            is_private,
        }),
        Some(old) => Ok(Variable {
            number: capped(n),
            ty: old.ty.copy(alloc)?,
            is_private,
        }),
    }
}

fn again_signature(
    alloc: Global,
    old: Option<&Signature>,
    s: Signature,
) -> Result<Signature, NoMemory>
    ensures { IfOk result (λ r. r ≡ spec.first_signature (option_copied old.entry) s) }
{
    match old {
        None => Ok(s),
        Some(old) => signature(alloc, old),
    }
}

fn types(alloc: Global, list: &[Ty]) -> Result<Items<Ty>, NoMemory>
    ensures { IfOk result (λ ts. ts ≡ list.now) }
{
    let mut types = Items::with_capacity(alloc, list.len())?;
    for ty in list {
        let ty = ty.copy(alloc)?;
        types.push(ty)?;
    }
    Ok(types)
}

fn signature(alloc: Global, s: &Signature) -> Result<Signature, NoMemory>
    ensures { IfOk result (λ c. c ≡ s.now) }
{
    Ok(Signature {
        number: s.number,
        returns: s.returns.copy(alloc)?,
        parameters: types(alloc, s.parameters.as_slice())?,
    })
}

/// The signature with the number of the function's body.
pub(crate) fn numbered(numbers: &[Option<u32>], name: u32, s: Signature) -> Signature
    ensures { result ≡ spec.numbered numbers.now name s }
{
    let Signature {
        number: _,
        returns,
        parameters,
    } = s;
    Signature {
        number: number_of(numbers, name),
        returns,
        parameters,
    }
}

/// The rule that the types of a function break.
pub(crate) fn rule_of(has_body: bool) -> u16
    ensures { result ≡ spec.rule_of has_body }
{
    if has_body { 6 } else { 2 }
}

fn ask_global(
    faults: &mut Items<TypeFault>,
    at: Place,
    is_same: bool,
    is_right: bool,
) -> Result<(), NoMemory>
    ensures { OnOk result (faults.new ≡ faults.old ++ spec.asked_global at is_same is_right) }
{
    ask(faults, 2, at, is_same)?;
    ask(faults, 19, at, is_right)
}

/// The global of that number has that type, and is private or has a value.
#[tactic(auto, unfolding(crate::specs::Globals::with_global))]
fn push_global(
    alloc: Global,
    w: &mut Found,
    at: Place,
    n: usize,
    ty: Ty,
    is_private: bool,
    has_value: bool,
) -> Result<(), NoMemory>
    ensures { OnOk result (w.new ≡ spec.with_global w.old at n ty is_private has_value) }
{
    let is_private = is_private_with(w.globals.get(n), is_private);
    let has_value = has_value_with(w.values.get(n), has_value);
    let is_same = rule_2_global(w.globals.get(n), &ty);
    let is_right = rule_19_private(is_private, has_value, &ty);
    ask_global(&mut w.faults, at, is_same, is_right)?;
    let variable = again(alloc, w.globals.get(n), n, ty, is_private)?;
    put(&mut w.values, n, has_value)?;
    put(&mut w.globals, n, variable)
}

pub(crate) fn push_global_if(
    alloc: Global,
    w: &mut Found,
    at: Place,
    n: Option<usize>,
    ty: Ty,
    is_private: bool,
    has_value: bool,
) -> Result<(), NoMemory>
    ensures { OnOk result (w.new ≡ spec.with_global_if w.old at n ty is_private has_value) }
{
    match n {
        None => Ok(()),
        Some(n) => push_global(alloc, w, at, n, ty, is_private, has_value),
    }
}

/// The function of that number has these types.
fn push_signature(
    alloc: Global,
    w: &mut Found,
    at: Place,
    rule: u16,
    n: usize,
    s: Signature,
) -> Result<(), NoMemory>
    ensures { OnOk result (w.new ≡ spec.with_signature w.old at rule n s) }
{
    let is_same = rule_2_6_function(w.functions.get(n), &s);
    ask(&mut w.faults, rule, at, is_same)?;
    let first = again_signature(alloc, w.functions.get(n), s)?;
    put(&mut w.functions, n, first)
}

pub(crate) fn push_signature_if(
    alloc: Global,
    w: &mut Found,
    at: Place,
    rule: u16,
    n: Option<usize>,
    s: Signature,
) -> Result<(), NoMemory>
    ensures { OnOk result (w.new ≡ spec.with_signature_if w.old at rule n s) }
{
    match n {
        None => Ok(()),
        Some(n) => push_signature(alloc, w, at, rule, n, s),
    }
}
