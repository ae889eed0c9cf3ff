//! What a name in an expression is.
ghost use Rattle.std.specs.Prelude.{◌≡◌, IfOk};
ghost use Rattle.std.specs.Option.{option_copied};
ghost use Rattle.al_rules.specs.Outcome.{Answers};
ghost use Rattle.al_type_nodes.specs.Names as spec;

use crate::found::Found;
use crate::rules::rule_5_is_defined;
use crate::uses::{place_of, value};
use al_base::{NoMemory, Place};
use al_environment::{
    Environment, Here, Round, Signature, Variable, function, global, local, round,
};
use al_items::{Boxed, Items};
use al_operands::both;
use al_rules::{TypeStop, broken};
use al_scope::Declaration;
use al_tree::{EnumConstant, Integer};
use al_typed::{TExpr, TPlace, Ty};
use std::alloc::Global;

/// The number of a function in the program, and 0 where the text has no body of it.
pub fn number_of(f: &Signature) -> u32
    ensures { result ≡ spec.number_of f.now }
{
    f.number.unwrap_or(0)
}

#[tactic(auto, unfolding(crate::specs::Names::global_found), using(al_operands::proofs::Asking::asking))]
fn global_found(alloc: Global, at: Place, v: Option<&Variable>) -> Result<Found, TypeStop>
    ensures { Answers result (spec.global_found at (option_copied v.entry)) }
{
    match v {
        None => Err(broken(1, at)),
        Some(v) => {
            let ty = v.ty.copy(alloc)?;
            let place = TPlace::Global {
                ty,
                number: v.number,
            };
            Ok(Found::Place {
                place,
                is_private: v.is_private,
            })
        }
    }
}

#[tactic(auto, unfolding(crate::specs::Names::local_found), using(al_operands::proofs::Asking::asking))]
fn local_found(alloc: Global, at: Place, v: Option<&Variable>) -> Result<Found, TypeStop>
    ensures { Answers result (spec.local_found at (option_copied v.entry)) }
{
    match v {
        None => Err(broken(1, at)),
        Some(v) => {
            let ty = v.ty.copy(alloc)?;
            Ok(place_of(TPlace::Local {
                ty,
                number: v.number,
            }))
        }
    }
}

#[tactic(auto, unfolding(crate::specs::Names::outer_found), using(al_operands::proofs::Asking::asking))]
fn outer_found(
    alloc: Global,
    at: Place,
    around: u32,
    v: Option<&Variable>,
) -> Result<Found, TypeStop>
    ensures { Answers result (spec.outer_found at around (option_copied v.entry)) }
{
    match v {
        None => Err(broken(1, at)),
        Some(v) => {
            let ty = v.ty.copy(alloc)?;
            Ok(place_of(TPlace::Outer {
                ty,
                around,
                number: v.number,
            }))
        }
    }
}

#[tactic(auto, unfolding(crate::specs::Names::round_found), using(al_operands::proofs::Asking::asking))]
fn round_found(
    alloc: Global,
    at: Place,
    r: Option<&Round>,
    number: usize,
) -> Result<Found, TypeStop>
    ensures { Answers result (spec.round_found at (option_copied r.entry) number) }
{
    match r {
        None => Err(broken(1, at)),
        Some(r) => outer_found(alloc, at, r.number, r.locals.get(number)),
    }
}

/// The same types once more.
pub fn copies(alloc: Global, types: &[Ty]) -> Result<Items<Ty>, NoMemory>
    ensures { IfOk result (λ it. it ≡ types.now) }
{
    let mut out = Items::with_capacity(alloc, types.len())?;
    for ty in types {
        out.push(ty.copy(alloc)?)?;
    }
    Ok(out)
}

fn function_type(alloc: Global, f: &Signature) -> Result<Ty, NoMemory>
    ensures { IfOk result (λ t. t ≡ spec.function_type f.now) }
{
    let returns = f.returns.boxed(alloc);
    let parameters = copies(alloc, f.parameters.as_slice());
    let (returns, parameters) = both(returns, parameters)?;
    Ok(Ty::Function {
        returns,
        parameters,
    })
}

/// A function as a value, which is a pointer to it.
fn function_value(alloc: Global, f: &Signature) -> Result<Found, NoMemory>
    ensures { IfOk result (λ x. x ≡ spec.function_value f.now) }
{
    let of = function_type(alloc, f)?;
    let ty = Ty::Pointer(Boxed::new(alloc, of)?);
    let number = number_of(f);
    Ok(value(TExpr::Function { ty, number }))
}

#[tactic(auto, unfolding(crate::specs::Names::defined_function), using(al_operands::proofs::Asking::asking))]
fn defined_function(alloc: Global, at: Place, f: &Signature) -> Result<Found, TypeStop>
    ensures { Answers result (spec.defined_function at f.now) }
{
    if !rule_5_is_defined(f) {
        return Err(broken(5, at));
    }
    Ok(function_value(alloc, f)?)
}

#[tactic(auto, unfolding(crate::specs::Names::function_found), using(al_operands::proofs::Asking::asking))]
fn function_found(alloc: Global, at: Place, f: Option<&Signature>) -> Result<Found, TypeStop>
    ensures { Answers result (spec.function_found at (option_copied f.entry)) }
{
    match f {
        None => Err(broken(1, at)),
        Some(f) => defined_function(alloc, at, f),
    }
}

#[tactic(auto, using(al_operands::proofs::Asking::asking))]
fn integer_found(at: Place, i: Option<Integer>) -> Result<Found, TypeStop>
    ensures { Answers result (spec.integer_found at i) }
{
    match i {
        None => Err(broken(22, at)),
        Some(i) => Ok(value(TExpr::Constant {
            ty: Ty::Integer(i.kind),
            bits: i.bits,
        })),
    }
}

#[tactic(auto, unfolding(crate::specs::Names::constant_found), using(al_operands::proofs::Asking::asking))]
fn constant_found(at: Place, c: Option<&EnumConstant>) -> Result<Found, TypeStop>
    ensures { Answers result (spec.constant_found at (option_copied c.entry)) }
{
    match c {
        None => Err(broken(1, at)),
        Some(c) => integer_found(at, c.value),
    }
}

#[tactic(auto, unfolding(crate::specs::Names::declared_as), using(al_operands::proofs::Asking::asking))]
fn declared_as(
    alloc: Global,
    env: &Environment,
    here: &Here,
    at: Place,
    declaration: Declaration,
) -> Result<Found, TypeStop>
    ensures { Answers result (spec.declared_as env.now here.now at declaration) }
{
    match declaration {
        Declaration::Global(n) => global_found(alloc, at, global(env, n)),
        Declaration::Function(n) => function_found(alloc, at, function(env, n)),
        Declaration::Constant(n) => constant_found(at, env.scopes.constants.list.get(n)),
        Declaration::Local(n) => local_found(alloc, at, local(here, n)),
        Declaration::Outer { around, number } => {
            round_found(alloc, at, round(here, around), number)
        }
        Declaration::Print | Declaration::Terminate => Err(broken(9, at)),
    }
}

/// What a name that stands for that is, where it is not called.
#[tactic(auto, unfolding(crate::specs::Names::declared), using(al_operands::proofs::Asking::asking))]
pub fn declared(
    alloc: Global,
    env: &Environment,
    here: &Here,
    at: Place,
    declaration: Option<Declaration>,
) -> Result<Found, TypeStop>
    ensures { Answers result (spec.declared env.now here.now at declaration) }
{
    match declaration {
        None => Err(broken(1, at)),
        Some(declaration) => declared_as(alloc, env, here, at, declaration),
    }
}

/// What the name at a place is, where it is not called.
pub fn named(alloc: Global, env: &Environment, here: &Here, at: Place) -> Result<Found, TypeStop>
    ensures { Answers result (spec.named env.now here.now at) }
{
    declared(alloc, env, here, at, env.scopes.declaration(at))
}
