//! What is called, once the parts of its name are typed.
ghost use Rattle.std.specs.Prelude.{◌≡◌, IfOk};
ghost use Rattle.std.specs.Option.{option_copied};
ghost use Rattle.al_rules.specs.Outcome.{Answers};
ghost use Rattle.al_type_calls.specs.Callees as spec;

use crate::callee::Callee;
use al_base::{NoMemory, Place};
use al_convert::pointed;
use al_environment::{Environment, Here, NamedFunction, Signature, function};
use al_items::{Boxed, Items};
use al_operands::{Operand, asked, both, plain, present};
use al_rules::{TypeStop, broken};
use al_scope::Declaration;
use al_type_nodes::{
    Found, arrow, arrow_receiver, copies, declared, dot, dot_receiver, function_in, number_of,
    operand, parameters_behind, returns_behind, rule_5_is_defined,
};
use al_typed::{Aggregate, TExpr, TReceiver, Ty};
use std::alloc::Global;

fn function_called(alloc: Global, f: &Signature) -> Result<Callee, NoMemory>
    ensures { IfOk result (λ c. c ≡ spec.function_called f.now) }
{
    let returns = f.returns.copy(alloc);
    let parameters = copies(alloc, f.parameters.as_slice());
    let (returns, parameters) = both(returns, parameters)?;
    Ok(Callee::Function {
        returns,
        number: number_of(f),
        receiver: None,
        parameters,
    })
}

#[tactic(auto, unfolding(crate::specs::Callees::defined_callee), using(al_operands::proofs::Asking::asking))]
fn defined_callee(alloc: Global, at: Place, f: &Signature) -> Result<Callee, TypeStop>
    ensures { Answers result (spec.defined_callee at f.now) }
{
    if !rule_5_is_defined(f) {
        return Err(broken(5, at));
    }
    Ok(function_called(alloc, f)?)
}

/// A function outside of adts.
#[tactic(auto, unfolding(crate::specs::Callees::function_callee), using(al_operands::proofs::Asking::asking))]
fn function_callee(alloc: Global, at: Place, f: Option<&Signature>) -> Result<Callee, TypeStop>
    ensures { Answers result (spec.function_callee at (option_copied f.entry)) }
{
    match f {
        None => Err(broken(1, at)),
        Some(f) => defined_callee(alloc, at, f),
    }
}

#[tactic(auto, unfolding(crate::specs::Callees::pointed_callee), using(al_operands::proofs::Asking::asking))]
fn pointed_callee(
    at: Place,
    e: Boxed<TExpr>,
    returns: Option<Ty>,
    parameters: Option<Items<Ty>>,
) -> Result<Callee, TypeStop>
    ensures { Answers result (spec.pointed_callee at e returns parameters) }
{
    let (returns, kept) = present(35, at, returns, (e, parameters))?;
    let (e, parameters) = kept;
    let (parameters, kept) = present(35, at, parameters, (returns, e))?;
    let (returns, pointer) = kept;
    Ok(Callee::Pointer {
        returns,
        pointer,
        parameters,
    })
}

fn copied(alloc: Global, t: Option<&Ty>) -> Result<Option<Ty>, NoMemory>
    ensures { IfOk result (λ c. c ≡ option_copied t.entry) }
{
    match t {
        None => Ok(None),
        Some(t) => Ok(Some(t.copy(alloc)?)),
    }
}

fn all_copied(alloc: Global, types: Option<&Items<Ty>>) -> Result<Option<Items<Ty>>, NoMemory>
    ensures { IfOk result (λ c. c ≡ option_copied types.entry) }
{
    match types {
        None => Ok(None),
        Some(types) => Ok(Some(copies(alloc, types.as_slice())?)),
    }
}

fn value_callee(alloc: Global, at: Place, e: TExpr) -> Result<Callee, TypeStop>
    ensures { Answers result (spec.value_callee at e) }
{
    let returns = copied(alloc, returns_behind(e.ty()));
    let parameters = all_copied(alloc, parameters_behind(e.ty()));
    let types = both(returns, parameters);
    let e = Boxed::new(alloc, e);
    let (e, types) = both(e, types)?;
    let (returns, parameters) = types;
    pointed_callee(at, e, returns, parameters)
}

/// A value that is called as a pointer to a function.
#[tactic(auto, unfolding(crate::specs::Callees::pointer_callee), using(al_rules::proofs::Permits::permitted))]
pub fn pointer_callee(alloc: Global, at: Place, x: Operand) -> Result<Callee, TypeStop>
    ensures { Answers result (spec.pointer_callee at x) }
{
    let e = plain(x)?;
    value_callee(alloc, at, e)
}

/// What is found, called as a pointer to a function.
#[tactic(auto, unfolding(crate::specs::Callees::found_callee), using(al_rules::proofs::Permits::permitted))]
fn found_callee(
    alloc: Global,
    aggregates: &[Aggregate],
    at: Place,
    f: Found,
) -> Result<Callee, TypeStop>
    ensures { Answers result (spec.found_callee aggregates.now at f) }
{
    let x = operand(alloc, aggregates, at, f)?;
    pointer_callee(alloc, at, x)
}

#[tactic(auto, unfolding(crate::specs::Callees::variable_callee), using(al_rules::proofs::Permits::permitted))]
fn variable_callee(
    alloc: Global,
    env: &Environment,
    here: &Here,
    at: Place,
    d: Declaration,
) -> Result<Callee, TypeStop>
    ensures { Answers result (spec.variable_callee env.now here.now at d) }
{
    let f = declared(alloc, env, here, at, Some(d))?;
    found_callee(alloc, env.aggregates.as_slice(), at, f)
}

#[tactic(auto, unfolding(crate::specs::Callees::callee_as))]
fn callee_as(
    alloc: Global,
    env: &Environment,
    here: &Here,
    at: Place,
    d: Declaration,
) -> Result<Callee, TypeStop>
    ensures { Answers result (spec.callee_as env.now here.now at d) }
{
    match d {
        Declaration::Function(n) => function_callee(alloc, at, function(env, n)),
        Declaration::Print => Ok(Callee::Print),
        Declaration::Terminate => Ok(Callee::Terminate),
        Declaration::Global(_)
        | Declaration::Constant(_)
        | Declaration::Local(_)
        | Declaration::Outer { .. } => variable_callee(alloc, env, here, at, d),
    }
}

#[tactic(auto, unfolding(crate::specs::Callees::declared_callee), using(al_operands::proofs::Asking::asking))]
fn declared_callee(
    alloc: Global,
    env: &Environment,
    here: &Here,
    at: Place,
    d: Option<Declaration>,
) -> Result<Callee, TypeStop>
    ensures { Answers result (spec.declared_callee env.now here.now at d) }
{
    match d {
        None => Err(broken(1, at)),
        Some(d) => callee_as(alloc, env, here, at, d),
    }
}

/// A bare name at a place, called.
pub fn named_callee(
    alloc: Global,
    env: &Environment,
    here: &Here,
    at: Place,
) -> Result<Callee, TypeStop>
    ensures { Answers result (spec.named_callee env.now here.now at) }
{
    declared_callee(alloc, env, here, at, env.scopes.declaration(at))
}

fn method_called(alloc: Global, f: &NamedFunction, r: TReceiver) -> Result<Callee, NoMemory>
    ensures { IfOk result (λ c. c ≡ spec.method_called f.now r) }
{
    let returns = f.signature.returns.copy(alloc);
    let parameters = copies(alloc, f.signature.parameters.as_slice());
    let types = both(returns, parameters);
    let receiver = Boxed::new(alloc, r);
    let (receiver, types) = both(receiver, types)?;
    let (returns, parameters) = types;
    Ok(Callee::Function {
        returns,
        number: number_of(&f.signature),
        receiver: Some(receiver),
        parameters,
    })
}

/// A function of an adt, called for an object.
#[tactic(auto, unfolding(crate::specs::Callees::method_callee), using(al_operands::proofs::Asking::asking))]
fn method_callee(
    alloc: Global,
    at: Place,
    f: &NamedFunction,
    r: TReceiver,
) -> Result<Callee, TypeStop>
    ensures { Answers result (spec.method_callee at f.now r) }
{
    let is_defined = rule_5_is_defined(&f.signature);
    let r = asked(5, at, is_defined, r)?;
    Ok(method_called(alloc, f, r)?)
}

/// The type of what is found.
fn found_type(f: &Found) -> &Ty
    ensures { result.now ≡ spec.found_type f.now }
{
    match f {
        Found::Place {
            place,
            is_private: _,
        } => place.ty(),
        Found::Value(x) => x.value.ty(),
    }
}

#[tactic(auto, unfolding(crate::specs::Callees::dot_member), using(al_rules::proofs::Permits::permitted))]
fn dot_member(
    alloc: Global,
    env: &Environment,
    here: &Here,
    at: Place,
    name: u32,
    of: Found,
) -> Result<Callee, TypeStop>
    ensures { Answers result (spec.dot_member env.now here.now at name of) }
{
    let m = dot(alloc, env, here, at, name, of)?;
    found_callee(alloc, env.aggregates.as_slice(), at, m)
}

#[tactic(auto, unfolding(crate::specs::Callees::dot_method), using(al_rules::proofs::Permits::permitted))]
fn dot_method(
    alloc: Global,
    here: &Here,
    at: Place,
    of: Found,
    f: &NamedFunction,
) -> Result<Callee, TypeStop>
    ensures { Answers result (spec.dot_method here.now at of f.now) }
{
    let r = dot_receiver(alloc, here, at, of, f)?;
    method_callee(alloc, at, f, r)
}

#[tactic(auto, unfolding(crate::specs::Callees::dotted))]
fn dotted(
    alloc: Global,
    env: &Environment,
    here: &Here,
    at: Place,
    name: u32,
    of: Found,
    f: Option<&NamedFunction>,
) -> Result<Callee, TypeStop>
    ensures { Answers result (spec.dotted env.now here.now at name of (option_copied f.entry)) }
{
    match f {
        None => dot_member(alloc, env, here, at, name, of),
        Some(f) => dot_method(alloc, here, at, of, f),
    }
}

/// `x.name`, called.
#[tactic(auto, unfolding(crate::specs::Callees::dot_callee))]
pub fn dot_callee(
    alloc: Global,
    env: &Environment,
    here: &Here,
    at: Place,
    name: u32,
    of: Found,
) -> Result<Callee, TypeStop>
    ensures { Answers result (spec.dot_callee env.now here.now at name of) }
{
    let f = function_in(env, Some(found_type(&of)), name);
    dotted(alloc, env, here, at, name, of, f)
}

#[tactic(auto, unfolding(crate::specs::Callees::arrow_member), using(al_rules::proofs::Permits::permitted))]
fn arrow_member(
    alloc: Global,
    env: &Environment,
    here: &Here,
    at: Place,
    name: u32,
    x: Operand,
) -> Result<Callee, TypeStop>
    ensures { Answers result (spec.arrow_member env.now here.now at name x) }
{
    let m = arrow(alloc, env, here, at, name, x)?;
    found_callee(alloc, env.aggregates.as_slice(), at, m)
}

#[tactic(auto, unfolding(crate::specs::Callees::arrow_method), using(al_rules::proofs::Permits::permitted))]
fn arrow_method(
    alloc: Global,
    here: &Here,
    at: Place,
    x: Operand,
    f: &NamedFunction,
) -> Result<Callee, TypeStop>
    ensures { Answers result (spec.arrow_method here.now at x f.now) }
{
    let r = arrow_receiver(alloc, here, at, x, f)?;
    method_callee(alloc, at, f, r)
}

#[tactic(auto, unfolding(crate::specs::Callees::arrowed))]
fn arrowed(
    alloc: Global,
    env: &Environment,
    here: &Here,
    at: Place,
    name: u32,
    x: Operand,
    f: Option<&NamedFunction>,
) -> Result<Callee, TypeStop>
    ensures { Answers result (spec.arrowed env.now here.now at name x (option_copied f.entry)) }
{
    match f {
        None => arrow_member(alloc, env, here, at, name, x),
        Some(f) => arrow_method(alloc, here, at, x, f),
    }
}

/// `x->name`, called.
#[tactic(auto, unfolding(crate::specs::Callees::arrow_callee))]
pub fn arrow_callee(
    alloc: Global,
    env: &Environment,
    here: &Here,
    at: Place,
    name: u32,
    x: Operand,
) -> Result<Callee, TypeStop>
    ensures { Answers result (spec.arrow_callee env.now here.now at name x) }
{
    let f = function_in(env, pointed(x.value.ty()), name);
    arrowed(alloc, env, here, at, name, x, f)
}
