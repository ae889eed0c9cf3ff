//! A branch of a par.
ghost use Rattle.std.specs.Prelude.{◌≡◌, [], IfOk};
ghost use Rattle.al_rules.specs.Outcome.{Answers};
ghost use Rattle.al_type_stmt.specs.Statements as statements;
ghost use Rattle.al_typed.specs.Layout.{IsLaidOut};
ghost use Rattle.al_type_function.specs.Branches as spec;

use crate::frame::{Frame, frame_of};
use crate::locals::push_locals;
use crate::outline::{Outline, with_body};
use crate::place::place_of;
use crate::rule::{ask_locals, ask_types};
use crate::site::{Site, enter};
use al_base::{NoMemory, Place};
use al_body_parts::{Parts, body_parts};
use al_environment::{Environment, Variable};
use al_items::Items;
use al_rules::{TypeFault, TypeStop, broken, judged};
use al_tree::Stmt;
use al_type_stmt::{Choice, Within, statement};
use al_typed::{Function, Ty};
use std::alloc::Global;

/// A par branch with its number as a function.
#[derive(Drop)]
pub struct NumberedBranch {
    pub number: u32,
    pub function: Function,
}

/// The parameters and locals of a branch of which that was gathered: it has no parameters.
fn branch_frame(
    alloc: Global,
    env: &Environment,
    names: &[Items<u8>],
    site: &Site,
    s: &Stmt,
    found: &Parts,
) -> Result<Frame, NoMemory>
    ensures { IfOk result (λ f. f ≡ spec.frame_with env.now names.now site.now s.now found.now) }
{
    let mut declared = Items::new(alloc);
    push_locals(alloc, found.locals.as_slice(), &mut declared)?;
    let round = site.around.len();
    let labels = found.labels.len();
    frame_of(
        alloc,
        names,
        &env.scopes.names,
        round,
        s,
        declared.as_slice(),
        labels,
    )
}

/// What breaks rule 18 in it, and in the types as wholes.
fn faults_of(
    alloc: Global,
    env: &Environment,
    s: &Stmt,
    found: &Parts,
    frame: &Frame,
) -> Result<Items<TypeFault>, NoMemory>
    requires { IsLaidOut env.now.aggregates }
    ensures { IfOk result (λ fs. fs ≡ spec.frame_faults env.now s.now found.now frame.now) }
{
    let mut faults = Items::new(alloc);
    let rows = env.aggregates.as_slice();
    let at = place_of(s);
    ask_locals(alloc, rows, at, frame.locals.as_slice(), &mut faults)?;
    ask_types(
        rows,
        at,
        frame.locals.as_slice(),
        found.types.as_slice(),
        &mut faults,
    )?;
    Ok(faults)
}

/// The same where it keeps rule 18.
#[tactic(auto, unfolding(crate::specs::Branches::framed, crate::specs::Branches::branch_frame), using(al_rules::proofs::Permits::permitted))]
fn framed(
    alloc: Global,
    env: &Environment,
    names: &[Items<u8>],
    site: &Site,
    s: &Stmt,
) -> Result<Frame, TypeStop>
    requires { IsLaidOut env.now.aggregates }
    ensures answer { Answers result (spec.framed env.now names.now site.now s.now) }
    ensures frame { IfOk result (λ f. f ≡ spec.branch_frame env.now names.now site.now s.now) }
{
    let found = body_parts(alloc, env, &site.here, s)?;
    let frame = branch_frame(alloc, env, names, site, s, &found)?;
    let faults = faults_of(alloc, env, s, &found, &frame)?;
    judged(faults.as_slice(), frame)
}

/// The function that the branch at a place is.
#[tactic(auto, unfolding(al_type_stmt::specs::Statements::branch_at), using(al_operands::proofs::Asking::asking))]
fn branch_number(w: &Within, at: Place) -> Result<u32, TypeStop>
    ensures { Answers result (statements.branch_at w.now at) }
{
    match w.branches.number(at) {
        None => Err(broken(54, at)),
        Some(n) => Ok(n),
    }
}

/// A branch without its body, and what expressions know of its locals.
fn branch_outline(
    alloc: Global,
    site: &Site,
    s: &Stmt,
    frame: Frame,
) -> Result<(Outline, Items<Variable>), NoMemory>
    ensures { IfOk result (λ p. (p.0 ≡ spec.branch_outline site.now s.now frame) × (p.1 ≡ frame.variables)) }
{
    let name = Items::from_slice(alloc, b"par")?;
    let around = Items::from_slice(alloc, site.around.as_slice())?;
    let Frame {
        variables,
        locals,
        labels,
    } = frame;
    let outline = Outline {
        name,
        line: place_of(s).line,
        returns: Ty::Void,
        parameters: 0,
        locals,
        around,
        labels,
    };
    Ok((outline, variables))
}

/// A branch without its body, with its number, once the site is in it.
#[tactic(auto, unfolding(crate::specs::Branches::opened_branch), using(al_rules::proofs::Permits::permitted))]
fn opened_branch(
    alloc: Global,
    env: &Environment,
    names: &[Items<u8>],
    w: &Within,
    site: &mut Site,
    s: &Stmt,
) -> Result<(u32, Outline), TypeStop>
    requires { IsLaidOut env.now.aggregates }
    ensures answer { Answers result (spec.opened_branch env.now names.now w.now site.old s.now) }
    ensures entered { IfOk result (λ p. site.new ≡ spec.inner_site env.now names.now site.old s.now p.0) }
{
    let number = branch_number(w, place_of(s))?;
    let frame = framed(alloc, env, names, site, s)?;
    let (outline, variables) = branch_outline(alloc, site, s, frame)?;
    enter(site, variables, number)?;
    Ok((number, outline))
}

/// A branch that stands there. The site is in it then.
#[tactic(auto, unfolding(crate::specs::Branches::typed_branch), using(al_rules::proofs::Permits::permitted))]
pub(crate) fn typed_branch(
    alloc: Global,
    env: &Environment,
    names: &[Items<u8>],
    w: &Within,
    site: &mut Site,
    s: &Stmt,
) -> Result<NumberedBranch, TypeStop>
    requires laid { IsLaidOut env.now.aggregates }
    requires none { site.old.here.iterators ≡ [] }
    ensures answer { Answers result (spec.typed_branch env.now names.now w.now site.old s.now) }
    ensures entered { IfOk result (λ b. site.new ≡ spec.inner_site env.now names.now site.old s.now b.number) }
{
    let (number, outline) = opened_branch(alloc, env, names, w, site, s)?;
    let body = statement(alloc, env, &mut site.here, w, Choice::Neither, s)?;
    Ok(NumberedBranch {
        number,
        function: with_body(outline, body),
    })
}
