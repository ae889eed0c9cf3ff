//! A function before its body is typed.
ghost use Rattle.std.specs.Prelude.{◌≡◌, IfOk};
ghost use Rattle.al_rules.specs.Outcome.{Answers};
ghost use Rattle.al_typed.specs.Layout.{IsLaidOut};
ghost use Rattle.al_type_function.specs.Functions as spec;

use crate::frame::{Frame, frame_of};
use crate::locals::{bytes_of, push_locals, push_parameters};
use crate::numbers::{FunctionNumbers, capped};
use crate::outline::Outline;
use crate::own::{here_in, own_adt};
use crate::rule::{ask_locals, ask_result, ask_types};
use crate::texts::{text_bytes, text_numbers};
use al_base::NoMemory;
use al_body_parts::{Parts, body_parts};
use al_environment::{Environment, Here, Numbers, OwnAdt, Signature, Variable};
use al_items::Items;
use al_rules::{TypeFault, TypeStop, judged};
use al_tree::{Head, Stmt, TypeTree};
use al_type_rules::signature;
use al_typed::Ty;
use std::alloc::Global;

/// A function before its body is typed.
#[derive(Drop)]
pub(crate) struct Opened {
    pub(crate) own: Option<OwnAdt>,
    /// What expressions know of its parameters and locals.
    pub(crate) variables: Items<Variable>,
    /// The numbers of its string constants that have blocks.
    pub(crate) numbered: Numbers,
    pub(crate) outline: Outline,
    /// The bytes of its string constants that have blocks, without the final 0.
    pub(crate) texts: Items<Items<u8>>,
    /// The types of casts and sizeof in it, and of the locals of par branches in it.
    pub(crate) types: Items<Ty>,
}

fn function_frame(
    alloc: Global,
    env: &Environment,
    names: &[Items<u8>],
    head: &Head,
    body: &Stmt,
    s: &Signature,
    p: &Parts,
) -> Result<Frame, NoMemory>
    ensures { IfOk result (λ f. f ≡ spec.function_frame env.now names.now head.now body.now s.now p.now) }
{
    let mut declared = Items::new(alloc);
    let parameters = head.parameters.as_slice();
    push_parameters(alloc, s.parameters.as_slice(), parameters, &mut declared)?;
    push_locals(alloc, p.locals.as_slice(), &mut declared)?;
    let labels = p.labels.len();
    frame_of(
        alloc,
        names,
        &env.scopes.names,
        0,
        body,
        declared.as_slice(),
        labels,
    )
}

/// A function without its body, and what expressions know of its locals.
fn function_outline(
    alloc: Global,
    names: &[Items<u8>],
    head: &Head,
    returns: Ty,
    frame: Frame,
) -> Result<(Outline, Items<Variable>), NoMemory>
    ensures { IfOk result (λ p. (p.0 ≡ spec.outline names.now head.now returns frame) × (p.1 ≡ frame.variables)) }
{
    let name = bytes_of(alloc, names, Some(head.name.name))?;
    let Frame {
        variables,
        locals,
        labels,
    } = frame;
    let outline = Outline {
        name,
        line: head.name.at.line,
        returns,
        parameters: capped(head.parameters.len()),
        locals,
        around: Items::new(alloc),
        labels,
    };
    Ok((outline, variables))
}

/// The breaks of rules 7, 16, 18 and 20 in it.
fn faults_of(
    alloc: Global,
    env: &Environment,
    head: &Head,
    returns: &Ty,
    p: &Parts,
    frame: &Frame,
) -> Result<Items<TypeFault>, NoMemory>
    requires { IsLaidOut env.now.aggregates }
    ensures { IfOk result (λ fs. fs ≡ spec.faults_of env.now head.now returns.now p.now frame.now) }
{
    let mut faults = Items::from_slice(alloc, p.faults.as_slice())?;
    ask_locals(
        alloc,
        env.aggregates.as_slice(),
        head.name.at,
        frame.locals.as_slice(),
        &mut faults,
    )?;
    ask_types(
        env.aggregates.as_slice(),
        head.name.at,
        frame.locals.as_slice(),
        p.types.as_slice(),
        &mut faults,
    )?;
    ask_result(
        env.aggregates.as_slice(),
        head.name.at,
        returns,
        &mut faults,
    )?;
    Ok(faults)
}

/// Of its own adt, with that result, what its body declares and writes, and its parameters and locals.
#[tactic(auto, unfolding(crate::specs::Functions::opened_with))]
fn opened_with(
    alloc: Global,
    names: &[Items<u8>],
    numbers: FunctionNumbers,
    head: &Head,
    own: Option<OwnAdt>,
    returns: Ty,
    p: Parts,
    frame: Frame,
) -> Result<Opened, NoMemory>
    ensures { IfOk result (λ o. o ≡ spec.opened_with names.now numbers head.now own returns p frame) }
{
    let numbered = text_numbers(alloc, numbers.texts, p.texts.as_slice())?;
    let texts = text_bytes(alloc, p.texts.as_slice())?;
    let (outline, variables) = function_outline(alloc, names, head, returns, frame)?;
    let Parts {
        locals: _,
        texts: _,
        types,
        labels: _,
        faults: _,
    } = p;
    Ok(Opened {
        own,
        variables,
        numbered,
        outline,
        texts,
        types,
    })
}

/// A function before its body is typed, with its own adt at hand.
#[tactic(auto, unfolding(crate::specs::Functions::opened_in))]
fn open_in(
    alloc: Global,
    env: &Environment,
    names: &[Items<u8>],
    numbers: FunctionNumbers,
    base: &TypeTree,
    head: &Head,
    body: &Stmt,
    here: Here,
) -> Result<Opened, TypeStop>
    requires { IsLaidOut env.now.aggregates }
    ensures { Answers result (spec.opened_in env.now names.now numbers base.now head.now body.now here) }
{
    let mut dropped = Items::new(alloc);
    let parameters = head.parameters.as_slice();
    let at = head.name.at;
    let s = signature(
        alloc,
        env,
        &here,
        at,
        base,
        head.stars,
        parameters,
        &mut dropped,
    )?;
    let p = body_parts(alloc, env, &here, body)?;
    let frame = function_frame(alloc, env, names, head, body, &s, &p)?;
    let faults = faults_of(alloc, env, head, &s.returns, &p, &frame)?;
    let Here {
        own,
        locals: _,
        around: _,
        texts: _,
        iterators: _,
    } = here;
    let Signature {
        number: _,
        returns,
        parameters: _,
    } = s;
    let opened = opened_with(alloc, names, numbers, head, own, returns, p, frame)?;
    judged(faults.as_slice(), opened)
}

/// A function before its body is typed.
pub(crate) fn open_function(
    alloc: Global,
    env: &Environment,
    names: &[Items<u8>],
    numbers: FunctionNumbers,
    base: &TypeTree,
    head: &Head,
    body: &Stmt,
) -> Result<Opened, TypeStop>
    requires { IsLaidOut env.now.aggregates }
    ensures { Answers result (spec.opened env.now names.now numbers base.now head.now body.now) }
{
    let own = own_adt(alloc, env, &head.owner, numbers.instance)?;
    let here = here_in(alloc, own);
    open_in(alloc, env, names, numbers, base, head, body, here)
}
