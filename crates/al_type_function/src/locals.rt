//! The parameters and locals of a function or par branch.
ghost use Rattle.std.specs.Prelude.{◌≡◌, ◌++◌, map, slice_get, IfOk, OnOk};
ghost use Rattle.al_flow.specs.Marks.{number_of};
ghost use Rattle.al_type_rules.specs.Types.{known};
ghost use Rattle.al_typed.specs.Types as types;
ghost use Rattle.al_type_function.specs.Locals as spec;

use crate::numbers::capped;
use al_base::NoMemory;
use al_body_parts::DeclaredLocal;
use al_environment::Variable;
use al_items::Items;
use al_tree::{Name, Parameter};
use al_typed::{Local, Ty};
use std::alloc::Global;

/// A parameter or a local as it is declared.
#[derive(Drop)]
pub(crate) struct Declared {
    /// Its name by its number.
    name: Option<u32>,
    ty: Ty,
}

// ---- what is declared

/// The bytes of a name by its number; what has no name has an empty one.
pub(crate) fn bytes_of(
    alloc: Global,
    names: &[Items<u8>],
    name: Option<u32>,
) -> Result<Items<u8>, NoMemory>
    ensures { IfOk result (λ bytes. bytes ≡ spec.bytes_of names.now name) }
{
    match name {
        None => Ok(Items::new(alloc)),
        Some(n) => match names.get(n as usize) {
            None => Ok(Items::new(alloc)),
            Some(bytes) => Items::from_slice(alloc, bytes.as_slice()),
        },
    }
}

fn name_number(name: &Option<Name>) -> Option<u32>
    ensures { result ≡ number_of name.now }
{
    match name {
        None => None,
        Some(name) => Some(name.name),
    }
}

#[tactic(auto, unfolding(crate::specs::Locals::parameter_name))]
fn parameter_name(p: &Parameter) -> Option<u32>
    ensures { result ≡ spec.parameter_name p.now }
{
    match p {
        Parameter::Plain { name, .. } => name_number(name),
        Parameter::OwnPointer { .. } | Parameter::OwnValue { .. } => None,
    }
}

/// The type of that number, and void where there is none.
fn type_at(alloc: Global, list: &[Ty], k: usize) -> Result<Ty, NoMemory>
    ensures { IfOk result (λ t. t ≡ known (slice_get list.now k)) }
{
    match list.get(k) {
        None => Ok(Ty::Void),
        Some(ty) => ty.copy(alloc),
    }
}

/// A parameter, where the parameters have these types.
fn declared_parameter(
    alloc: Global,
    list: &[Ty],
    k: usize,
    p: &Parameter,
) -> Result<Declared, NoMemory>
    ensures { IfOk result (λ d. d ≡ spec.declared_parameter list.now k p.now) }
{
    let ty = type_at(alloc, list, k)?;
    Ok(Declared {
        name: parameter_name(p),
        ty,
    })
}

/// Adds parameters that have these types.
#[tactic(auto, using(crate::proofs::IndexedAre::indexed_are))]
pub(crate) fn push_parameters(
    alloc: Global,
    list: &[Ty],
    parameters: &[Parameter],
    declared: &mut Items<Declared>,
) -> Result<(), NoMemory>
    ensures { OnOk result (declared.new ≡ declared.old ++ spec.declared_parameters list.now parameters.now) }
{
    for (k, p) in parameters.iter().enumerate() {
        let d = declared_parameter(alloc, list, k, p)?;
        declared.push(d)?;
    }
    Ok(())
}

/// Adds locals.
pub(crate) fn push_locals(
    alloc: Global,
    list: &[DeclaredLocal],
    declared: &mut Items<Declared>,
) -> Result<(), NoMemory>
    ensures { OnOk result (declared.new ≡ declared.old ++ map spec.declared_local list.now) }
{
    for l in list {
        let ty = l.ty.copy(alloc)?;
        declared.push(Declared {
            name: Some(l.name),
            ty,
        })?;
    }
    Ok(())
}

// ---- what expressions and the program know of them

fn variable(alloc: Global, k: usize, d: &Declared) -> Result<Variable, NoMemory>
    ensures { IfOk result (λ v. v ≡ spec.variable k d.now) }
{
    let ty = d.ty.copy(alloc)?;
    Ok(Variable {
        number: capped(k),
        ty,
        is_private: false,
    })
}

/// What expressions know of them.
#[tactic(auto, using(crate::proofs::IndexedAre::indexed_are))]
pub(crate) fn variables(alloc: Global, declared: &[Declared]) -> Result<Items<Variable>, NoMemory>
    ensures { IfOk result (λ vs. vs ≡ spec.variables declared.now) }
{
    let mut list = Items::with_capacity(alloc, declared.len())?;
    for (k, d) in declared.iter().enumerate() {
        let v = variable(alloc, k, d)?;
        list.push(v)?;
    }
    Ok(list)
}

fn is_marked(marks: &[bool], k: usize) -> bool
    ensures { result ≡ spec.is_marked marks.now k }
{
    match marks.get(k) {
        None => false,
        Some(is_marked) => *is_marked,
    }
}

#[tactic(auto, unfolding(al_typed::specs::Types::may_be_private))]
fn may_be_private(ty: &Ty) -> bool
    ensures { result ≡ types.may_be_private ty.now }
{
    match ty {
        Ty::Integer(_) | Ty::Pointer(_) | Ty::Chan { .. } | Ty::Tuple(_) => true,
        Ty::Void | Ty::Array { .. } | Ty::Aggregate(_) | Ty::Function { .. } => false,
    }
}

/// Whether it lies in the shared block: what the body makes shared, and what always is.
fn is_shared(is_marked: bool, ty: &Ty) -> bool
    ensures { result ≡ spec.is_shared is_marked ty.now }
{
    is_marked || !may_be_private(ty)
}

fn local(
    alloc: Global,
    names: &[Items<u8>],
    marks: &[bool],
    k: usize,
    d: &Declared,
) -> Result<Local, NoMemory>
    ensures { IfOk result (λ l. l ≡ spec.local names.now marks.now k d.now) }
{
    let name = bytes_of(alloc, names, d.name)?;
    let ty = d.ty.copy(alloc)?;
    Ok(Local {
        name,
        is_shared: is_shared(is_marked(marks, k), &ty),
        ty,
    })
}

/// What the program has of them, where the body makes those shared that are marked.
#[tactic(auto, using(crate::proofs::IndexedAre::indexed_are))]
pub(crate) fn locals(
    alloc: Global,
    names: &[Items<u8>],
    marks: &[bool],
    declared: &[Declared],
) -> Result<Items<Local>, NoMemory>
    ensures { IfOk result (λ ls. ls ≡ spec.locals names.now marks.now declared.now) }
{
    let mut list = Items::with_capacity(alloc, declared.len())?;
    for (k, d) in declared.iter().enumerate() {
        let l = local(alloc, names, marks, k, d)?;
        list.push(l)?;
    }
    Ok(list)
}
