//! A function with its body and the branches in it.
ghost use Rattle.std.specs.Prelude.{◌≡◌, [], IfOk, OnOk};
ghost use Rattle.al_rules.specs.Outcome.{Answers};
ghost use Rattle.al_typed.specs.Layout.{IsLaidOut};
ghost use Rattle.al_type_function.specs.Functions as spec;

use crate::branch::NumberedBranch;
use crate::branches::branches_in;
use crate::numbers::{FunctionNumbers, capped};
use crate::opened::{Opened, open_function};
use crate::outline::with_body;
use crate::site::Site;
use al_base::NoMemory;
use al_environment::{Environment, Here, Numbers, OwnAdt, Variable};
use al_flow::{Targets, find_targets};
use al_items::Items;
use al_operands::parts;
use al_rules::TypeStop;
use al_tree::{Head, Stmt, TypeTree};
use al_type_stmt::{Choice, Within, statement};
use al_typed::{Function, TStmt, Ty};
use std::alloc::Global;

/// A function of a text, and what is in it.
#[derive(Drop)]
pub struct TypedFunction {
    pub function: Function,
    /// The par branches in it, nested ones too, each before those in it.
    pub branches: Items<NumberedBranch>,
    /// The string constants in it that have blocks, in text order, without the final 0.
    pub texts: Items<Items<u8>>,
    /// The types of casts and sizeof in it, and of the locals of par branches in it.
    pub types: Items<Ty>,
}

/// What is at hand in a function of that adt, with these locals and texts.
fn here_of(alloc: Global, own: Option<OwnAdt>, locals: Items<Variable>, texts: Numbers) -> Here
    ensures { result ≡ spec.here_of own locals texts }
{
    Here {
        own,
        locals,
        around: Items::new(alloc),
        texts,
        iterators: Numbers::new(alloc),
    }
}

/// Where the branches in a function stand.
fn site_of(alloc: Global, here: Here, number: usize) -> Result<Site, NoMemory>
    ensures { IfOk result (λ site. site ≡ spec.site_of here number) }
{
    let mut around = Items::new(alloc);
    around.push(capped(number))?;
    Ok(Site { here, around })
}

/// The body of the function of that number, and the branches in it.
#[tactic(auto, unfolding(crate::specs::Functions::bodies), using(al_rules::proofs::Permits::permitted))]
fn bodies(
    alloc: Global,
    env: &Environment,
    names: &[Items<u8>],
    w: Within,
    number: usize,
    here: Here,
    body: &Stmt,
) -> Result<(TStmt, Items<NumberedBranch>), TypeStop>
    requires laid { IsLaidOut env.now.aggregates }
    requires none { here.iterators ≡ [] }
    ensures { Answers result (spec.bodies env.now names.now w number here body.now) }
{
    let mut w = w;
    let mut site = site_of(alloc, here, number)?;
    let typed = statement(alloc, env, &mut site.here, &w, Choice::Neither, body);
    w.returns = Ty::Void;
    let found = branches_in(alloc, env, names, &w, &mut site, body, Items::new(alloc));
    parts(typed, found)
}

/// A function, once what it declares is known and where its gotos, raises, breaks and continues go.
#[tactic(auto, unfolding(crate::specs::Functions::completed), using(al_rules::proofs::Permits::permitted))]
fn completed(
    alloc: Global,
    env: &Environment,
    names: &[Items<u8>],
    number: usize,
    numbers: Numbers,
    body: &Stmt,
    o: Opened,
    targets: Targets,
) -> Result<TypedFunction, TypeStop>
    requires { IsLaidOut env.now.aggregates }
    ensures { Answers result (spec.completed env.now names.now number numbers body.now o targets) }
{
    let Opened {
        own,
        variables,
        numbered,
        outline,
        texts,
        types,
    } = o;
    let w = Within {
        targets,
        returns: outline.returns.copy(alloc)?,
        branches: numbers,
    };
    let here = here_of(alloc, own, variables, numbered);
    let (body, branches) = bodies(alloc, env, names, w, number, here, body)?;
    Ok(TypedFunction {
        function: with_body(outline, body),
        branches,
        texts,
        types,
    })
}

/// The function of a head with that base type and body, as the program has it, with the par branches in it.
///
/// The branches have these numbers by their places. A fault is one that is in it: a rule that a node in the body breaks, with its place,
/// or one of rules 7, 16, 18 and 20 of the types that are written in it or declared. Those of the head are not asked again.
#[tactic(auto, unfolding(crate::specs::Functions::function), using(al_rules::proofs::Permits::permitted))]
pub fn typed_function(
    alloc: Global,
    env: &Environment,
    names: &[Items<u8>],
    numbers: FunctionNumbers,
    branches: Numbers,
    base: &TypeTree,
    head: &Head,
    body: &Stmt,
) -> Result<TypedFunction, TypeStop>
    requires { IsLaidOut env.now.aggregates }
    ensures { Answers result (spec.function env.now names.now numbers branches base.now head.now body.now) }
{
    let opened = open_function(alloc, env, names, numbers, base, head, body);
    let targets = find_targets(alloc, body);
    let (opened, targets) = parts(opened, targets)?;
    completed(
        alloc,
        env,
        names,
        numbers.number,
        branches,
        body,
        opened,
        targets,
    )
}
