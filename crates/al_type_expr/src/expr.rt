//! The typed expression of a tree.
ghost use Rattle.std.specs.Prelude.{◌≡◌, map};
ghost use Rattle.std.specs.Option.{option_copied};
ghost use Rattle.al_rules.specs.Outcome.{Answers, pair};
ghost use Rattle.al_tree.specs.declared.expression.Expr.TheVariants as tree;
ghost use Rattle.al_typed.specs.Layout.{IsLaidOut};
ghost use Rattle.al_type_expr.specs.Lists as lists;
ghost use Rattle.al_type_expr.specs.Nodes as spec;
ghost use Rattle.al_type_expr.specs.Nodes.{node};

use crate::columns::Columns;
use crate::leaves::{
    assigned_to, character, expr_place, iterator_found, nil_found, nil_target, number,
    place_target, target_rule, text_found,
};
use crate::lists::{
    and_part, more, no_columns, only, printed_value, sequenced, small_target, small_tuple,
};
use crate::parts::{
    cast_to, compound, member_callee, member_found, postfix_found, size_written, unary,
};
use al_base::Place;
use al_convert::parts_of;
use al_environment::{Environment, Here, written_type};
use al_items::Items;
use al_operands::{Operand, beside, parts, taken};
use al_operators::{binary, pieces, printed, sent, terminated};
use al_places::index;
use al_rules::{TypeStop, broken};
use al_tree::{Access, AssignOp, BinaryOp, Expr, Name, PostfixOp, TypeTree, UnaryOp};
use al_type_calls::{Callee, named_callee, pointer_callee};
use al_type_nodes::{Found, dropped, lacking, named, operand, place_of, placed, sized, value};
use al_typed::{TExpr, TPlace, TTarget, Ty};
use std::alloc::Global;

/// An expression as a value that is used.
#[cycle(expr)]
#[tactic(auto, using(crate::proofs::NodesAre::place_is, al_rules::proofs::Permits::permitted))]
pub fn value_of(
    alloc: Global,
    env: &Environment,
    here: &Here,
    e: &Expr,
) -> Result<Operand, TypeStop>
    requires { IsLaidOut env.now.aggregates }
    ensures { Answers result (spec.value_of env.now here.now e.now) }
{
    let f = found(alloc, env, here, e)?;
    operand(alloc, env.aggregates.as_slice(), expr_place(e), f)
}

/// An expression as a value that is dropped: it may be void.
#[cycle(expr)]
#[tactic(auto, using(crate::proofs::NodesAre::place_is, al_rules::proofs::Permits::permitted))]
pub fn dropped_value(
    alloc: Global,
    env: &Environment,
    here: &Here,
    e: &Expr,
) -> Result<TExpr, TypeStop>
    requires { IsLaidOut env.now.aggregates }
    ensures { Answers result (spec.dropped_value env.now here.now e.now) }
{
    let f = found(alloc, env, here, e)?;
    dropped(alloc, env.aggregates.as_slice(), expr_place(e), f)
}

/// The operand of an operator on places.
#[tactic(auto, using(al_rules::proofs::Permits::permitted))]
pub fn place_in(
    alloc: Global,
    env: &Environment,
    here: &Here,
    at: Place,
    e: &Expr,
) -> Result<TPlace, TypeStop>
    requires { IsLaidOut env.now.aggregates }
    ensures { Answers result (spec.place_in at (node env.now here.now e.now)) }
{
    let f = found(alloc, env, here, e)?;
    placed(at, f)
}

/// Two expressions as values.
#[cycle(expr)]
#[tactic(auto, using(al_rules::proofs::Permits::permitted))]
fn values(
    alloc: Global,
    env: &Environment,
    here: &Here,
    a: &Expr,
    b: &Expr,
) -> Result<(Operand, Operand), TypeStop>
    requires { IsLaidOut env.now.aggregates }
    ensures { Answers result (pair (spec.value_of env.now here.now a.now) (spec.value_of env.now here.now b.now)) }
{
    let x = value_of(alloc, env, here, a);
    let y = value_of(alloc, env, here, b);
    parts(x, y)
}

/// What one expression is, and another as a value.
#[cycle(expr)]
#[tactic(auto, using(al_rules::proofs::Permits::permitted))]
fn found_and_value(
    alloc: Global,
    env: &Environment,
    here: &Here,
    a: &Expr,
    b: &Expr,
) -> Result<(Found, Operand), TypeStop>
    requires { IsLaidOut env.now.aggregates }
    ensures { Answers result (pair (spec.found env.now here.now a.now) (spec.value_of env.now here.now b.now)) }
{
    let f = found(alloc, env, here, a);
    let x = value_of(alloc, env, here, b);
    parts(f, x)
}

/// What an expression is where it is called.
#[cycle(expr)]
#[tactic(auto, using(crate::proofs::NodesAre::callee_is, al_rules::proofs::Permits::permitted))]
fn callee(alloc: Global, env: &Environment, here: &Here, e: &Expr) -> Result<Callee, TypeStop>
    requires { IsLaidOut env.now.aggregates }
    ensures { Answers result (node env.now here.now e.now).callee }
{
    match e {
        Expr::Name { at, name: _ } => named_callee(alloc, env, here, *at),
        Expr::Member {
            at,
            of,
            access,
            name,
        } => {
            let of = of.get();
            let f = found(alloc, env, here, of)?;
            member_callee(alloc, env, here, *at, *access, name.name, expr_place(of), f)
        }
        _ => {
            let x = value_of(alloc, env, here, e)?;
            pointer_callee(alloc, expr_place(e), x)
        }
    }
}

/// The parts of a tuple.
#[cycle(expr)]
#[tactic(auto, unfolding(crate::specs::Lists::columns), using(crate::proofs::ListsAre::columns_are, al_rules::proofs::Permits::permitted, al_rules::proofs::Permits::fronts))]
fn columns(
    alloc: Global,
    env: &Environment,
    here: &Here,
    parts: &[Expr],
) -> Result<Columns, TypeStop>
    requires { IsLaidOut env.now.aggregates }
    ensures { Answers result (lists.columns (map (spec.value_of env.now here.now) parts.now)) }
{
    let mut done = no_columns(alloc);
    for part in parts {
        let x = value_of(alloc, env, here, part);
        let (kept, x) = beside(done, x)?;
        done = and_part(alloc, kept, x)?;
    }
    Ok(done)
}

/// The parts of a sequence.
#[cycle(expr)]
#[tactic(auto, unfolding(crate::specs::Lists::each), using(al_rules::proofs::Permits::permitted, al_rules::proofs::Permits::fronts))]
fn each_dropped(
    alloc: Global,
    env: &Environment,
    here: &Here,
    parts: &[Expr],
) -> Result<Items<TExpr>, TypeStop>
    requires { IsLaidOut env.now.aggregates }
    ensures { Answers result (lists.each (map (spec.dropped_value env.now here.now) parts.now)) }
{
    let mut done = Items::new(alloc);
    for part in parts {
        let e = dropped_value(alloc, env, here, part);
        let (list, e) = beside(done, e)?;
        done = more(list, e)?;
    }
    Ok(done)
}

/// An argument of a call, for its parameter.
#[cycle(expr)]
#[tactic(auto, using(al_rules::proofs::Permits::permitted))]
fn argument(
    alloc: Global,
    env: &Environment,
    here: &Here,
    at: Place,
    parameter: &Ty,
    written: &Expr,
) -> Result<TExpr, TypeStop>
    requires { IsLaidOut env.now.aggregates }
    ensures { Answers result (lists.argument at parameter.now (spec.value_of env.now here.now written.now)) }
{
    let x = value_of(alloc, env, here, written)?;
    taken(alloc, 35, at, parameter, x)
}

/// The arguments of a call, for these parameters.
#[cycle(expr)]
#[tactic(auto, unfolding(crate::specs::Lists::arguments), using(crate::proofs::ListsAre::too_few, al_rules::proofs::Permits::permitted, al_rules::proofs::Permits::fronts))]
fn arguments<'a>(
    alloc: Global,
    env: &Environment,
    here: &Here,
    at: Place,
    written: &[Expr],
    mut parameters: &'a [Ty],
) -> Result<Items<TExpr>, TypeStop>
    requires { IsLaidOut env.now.aggregates }
    ensures { Answers result (lists.arguments at parameters.entry.now (map (spec.value_of env.now here.now) written.now)) }
{
    let mut done = Items::new(alloc);
    for part in written {
        let [parameter, others @ ..] = parameters else {
            return lacking(35, at, done);
        };
        let e = argument(alloc, env, here, at, parameter, part);
        let (list, e) = beside(done, e)?;
        done = more(list, e)?;
        parameters = others;
    }
    if let [_, ..] = parameters {
        return lacking(35, at, done);
    }
    Ok(done)
}

/// What a print prints of one argument.
#[cycle(expr)]
#[tactic(auto, using(al_rules::proofs::Permits::permitted))]
fn print_of(
    alloc: Global,
    env: &Environment,
    here: &Here,
    written: &Expr,
) -> Result<TExpr, TypeStop>
    requires { IsLaidOut env.now.aggregates }
    ensures { Answers result (lists.print_of (spec.value_of env.now here.now written.now)) }
{
    let x = value_of(alloc, env, here, written)?;
    Ok(printed_value(alloc, x)?)
}

/// What a print prints.
#[cycle(expr)]
#[tactic(auto, unfolding(crate::specs::Lists::prints), using(al_rules::proofs::Permits::permitted, al_rules::proofs::Permits::fronts))]
fn prints(
    alloc: Global,
    env: &Environment,
    here: &Here,
    written: &[Expr],
) -> Result<Items<TExpr>, TypeStop>
    requires { IsLaidOut env.now.aggregates }
    ensures { Answers result (lists.prints (map (spec.value_of env.now here.now) written.now)) }
{
    let mut done = Items::new(alloc);
    for part in written {
        let e = print_of(alloc, env, here, part);
        let (list, e) = beside(done, e)?;
        done = more(list, e)?;
    }
    Ok(done)
}

/// A call of print with a format.
#[cycle(expr)]
#[tactic(auto, unfolding(crate::specs::Nodes::format_call), using(crate::proofs::NodesAre::operands_are, al_rules::proofs::Permits::permitted))]
fn format_call(
    alloc: Global,
    env: &Environment,
    here: &Here,
    at: Place,
    format: &[u8],
    written: &[Expr],
) -> Result<TExpr, TypeStop>
    requires { IsLaidOut env.now.aggregates }
    ensures { Answers result (spec.format_call env.now at (Some format.now) (map (node env.now here.now) written.now)) }
{
    let format = pieces(alloc, format)?;
    let arguments = prints(alloc, env, here, written);
    let (format, arguments) = beside(format, arguments)?;
    printed(at, format, arguments)
}

/// A call of print with what is written first and what stands behind it.
#[cycle(expr)]
#[tactic(auto, using(crate::proofs::NodesAre::text_is, al_operands::proofs::Asking::asking))]
fn print_with(
    alloc: Global,
    env: &Environment,
    here: &Here,
    at: Place,
    others: &[Expr],
    first: &Expr,
) -> Result<TExpr, TypeStop>
    requires { IsLaidOut env.now.aggregates }
    ensures { Answers result (spec.format_call env.now at (node env.now here.now first.now).text (map (node env.now here.now) others.now)) }
{
    match first {
        Expr::Text { at: _, bytes } => {
            format_call(alloc, env, here, at, bytes.as_slice(), others)
        }
        _ => Err(broken(36, at)),
    }
}

/// A call of print.
#[cycle(expr)]
#[tactic(auto, unfolding(crate::specs::Nodes::print_call), using(al_operands::proofs::Asking::asking))]
fn print_call(
    alloc: Global,
    env: &Environment,
    here: &Here,
    at: Place,
    written: &[Expr],
) -> Result<TExpr, TypeStop>
    requires { IsLaidOut env.now.aggregates }
    ensures { Answers result (spec.print_call env.now at (map (node env.now here.now) written.now)) }
{
    match written {
        [] => Err(broken(36, at)),
        [first, others @ ..] => print_with(alloc, env, here, at, others, first),
    }
}

/// A call of terminate.
#[cycle(expr)]
#[tactic(auto, unfolding(crate::specs::Nodes::terminate_call), using(al_rules::proofs::Permits::permitted))]
fn terminate_call(
    alloc: Global,
    env: &Environment,
    here: &Here,
    at: Place,
    written: &[Expr],
) -> Result<TExpr, TypeStop>
    requires { IsLaidOut env.now.aggregates }
    ensures { Answers result (spec.terminate_call env.now at (map (node env.now here.now) written.now)) }
{
    let [status] = written else {
        return Err(broken(37, at));
    };
    let x = value_of(alloc, env, here, status)?;
    terminated(alloc, at, x)
}

/// A call of what is called, with these arguments.
#[cycle(expr)]
#[tactic(auto, unfolding(crate::specs::Nodes::called), using(crate::proofs::NodesAre::operands_are, al_rules::proofs::Permits::permitted))]
fn called(
    alloc: Global,
    env: &Environment,
    here: &Here,
    at: Place,
    written: &[Expr],
    callee: Callee,
) -> Result<TExpr, TypeStop>
    requires { IsLaidOut env.now.aggregates }
    ensures { Answers result (spec.called env.now at (map (node env.now here.now) written.now) callee) }
{
    match callee {
        Callee::Print => print_call(alloc, env, here, at, written),
        Callee::Terminate => terminate_call(alloc, env, here, at, written),
        Callee::Function {
            returns,
            number,
            receiver,
            parameters,
        } => {
            let list = arguments(alloc, env, here, at, written, parameters.as_slice());
            let kept = only((returns, receiver), parameters);
            let (kept, arguments) = beside(kept, list)?;
            let (ty, receiver) = kept;
            Ok(TExpr::Call {
                ty,
                function: number,
                receiver,
                arguments,
            })
        }
        Callee::Pointer {
            returns,
            pointer,
            parameters,
        } => {
            let list = arguments(alloc, env, here, at, written, parameters.as_slice());
            let kept = only((returns, pointer), parameters);
            let (kept, arguments) = beside(kept, list)?;
            let (ty, pointer) = kept;
            Ok(TExpr::CallPointer {
                ty,
                pointer,
                arguments,
            })
        }
    }
}

/// The targets of a tuple on the left of `=`, for the types of the right side's parts.
#[cycle(expr)]
#[tactic(auto, unfolding(crate::specs::Nodes::targets), using(crate::proofs::ListsAre::targets_are, al_rules::proofs::Permits::permitted, al_rules::proofs::Permits::fronts))]
fn targets<'a>(
    alloc: Global,
    env: &Environment,
    here: &Here,
    at: Place,
    parts: &[Expr],
    mut types: &'a [Ty],
) -> Result<Items<TTarget>, TypeStop>
    requires { IsLaidOut env.now.aggregates }
    ensures { Answers result (spec.targets at (map (node env.now here.now) parts.now) types.entry.now) }
{
    let mut done = Items::new(alloc);
    for part in parts {
        let [ty, others @ ..] = types else {
            return lacking(40, at, done);
        };
        let into = target(alloc, env, here, true, at, part, ty);
        let (list, into) = beside(done, into)?;
        done = more(list, into)?;
        types = others;
    }
    if let [_, ..] = types {
        return lacking(40, at, done);
    }
    Ok(done)
}

/// A tuple on the left of `=`, for the type of the right side.
#[cycle(expr)]
#[tactic(auto, unfolding(crate::specs::Nodes::tuple_target), using(al_rules::proofs::Permits::permitted))]
fn tuple_target(
    alloc: Global,
    env: &Environment,
    here: &Here,
    at: Place,
    parts: &[Expr],
    types: Option<&Items<Ty>>,
) -> Result<TTarget, TypeStop>
    requires { IsLaidOut env.now.aggregates }
    ensures { Answers result (spec.tuple_target env.now.aggregates at (map (node env.now here.now) parts.now) (option_copied types.entry)) }
{
    match types {
        None => Err(broken(40, at)),
        Some(types) => {
            let parts = targets(alloc, env, here, at, parts, types.as_slice())?;
            small_target(alloc, env.aggregates.as_slice(), at, parts)
        }
    }
}

/// What stands on the left of `=`, whole or as a part of a tuple, for the type of what it takes.
#[cycle(expr)]
#[tactic(auto, using(crate::proofs::NodesAre::target_is, al_rules::proofs::Permits::permitted))]
fn target(
    alloc: Global,
    env: &Environment,
    here: &Here,
    is_part: bool,
    at: Place,
    e: &Expr,
    ty: &Ty,
) -> Result<TTarget, TypeStop>
    requires { IsLaidOut env.now.aggregates }
    ensures { Answers result ((node env.now here.now e.now).target is_part at ty.now) }
{
    match e {
        Expr::Nil { at: _ } => nil_target(alloc, is_part, at, ty),
        Expr::Tuple { at: _, parts } => {
            tuple_target(alloc, env, here, at, parts.as_slice(), parts_of(ty))
        }
        _ => {
            let f = found(alloc, env, here, e)?;
            place_target(alloc, target_rule(is_part), at, f)
        }
    }
}

/// `=`: the right side gives the types that the left side takes.
#[cycle(expr)]
#[tactic(auto, unfolding(crate::specs::Nodes::assigned), using(al_rules::proofs::Permits::permitted))]
fn assigned(
    alloc: Global,
    env: &Environment,
    here: &Here,
    at: Place,
    a: &Expr,
    b: &Expr,
) -> Result<TExpr, TypeStop>
    requires { IsLaidOut env.now.aggregates }
    ensures { Answers result (spec.assigned env.now at (node env.now here.now a.now) (node env.now here.now b.now)) }
{
    let x = value_of(alloc, env, here, b)?;
    let into = target(alloc, env, here, false, at, a, x.value.ty());
    let (x, into) = beside(x, into)?;
    assigned_to(alloc, at, into, x)
}

/// An assignment or a send.
#[cycle(expr)]
#[tactic(auto, unfolding(crate::specs::Nodes::assignment), using(al_rules::proofs::Permits::permitted))]
fn assignment(
    alloc: Global,
    env: &Environment,
    here: &Here,
    at: Place,
    op: AssignOp,
    a: &Expr,
    b: &Expr,
) -> Result<TExpr, TypeStop>
    requires { IsLaidOut env.now.aggregates }
    ensures { Answers result (spec.assignment env.now at op (node env.now here.now a.now) (node env.now here.now b.now)) }
{
    match op {
        AssignOp::Assign => assigned(alloc, env, here, at, a, b),
        AssignOp::Compound(how) => {
            let (f, x) = found_and_value(alloc, env, here, a, b)?;
            compound(alloc, env.aggregates.as_slice(), at, how, f, x)
        }
        AssignOp::Send => {
            let (c, x) = values(alloc, env, here, a, b)?;
            sent(alloc, at, c, x)
        }
    }
}

/// A tuple.
#[cycle(expr)]
#[tactic(auto, using(crate::proofs::NodesAre::tuple_node_is, al_rules::proofs::Permits::permitted))]
fn tuple_node(
    alloc: Global,
    env: &Environment,
    here: &Here,
    at: Place,
    parts: &[Expr],
) -> Result<Found, TypeStop>
    requires { IsLaidOut env.now.aggregates }
    ensures { Answers result (spec.found env.now here.now (tree.Tuple at parts.now)) }
{
    let parts = columns(alloc, env, here, parts)?;
    small_tuple(env.aggregates.as_slice(), at, parts)
}

/// An operator before its operand.
#[cycle(expr)]
#[tactic(auto, using(crate::proofs::NodesAre::unary_node_is, al_rules::proofs::Permits::permitted))]
fn unary_node(
    alloc: Global,
    env: &Environment,
    here: &Here,
    at: Place,
    op: UnaryOp,
    of: &Expr,
) -> Result<Found, TypeStop>
    requires { IsLaidOut env.now.aggregates }
    ensures { Answers result (spec.found env.now here.now (tree.Unary at op of.now)) }
{
    let f = found(alloc, env, here, of)?;
    unary(alloc, env.aggregates.as_slice(), at, op, expr_place(of), f)
}

/// A cast.
#[cycle(expr)]
#[tactic(auto, using(crate::proofs::NodesAre::cast_node_is, al_rules::proofs::Permits::permitted))]
fn cast_node(
    alloc: Global,
    env: &Environment,
    here: &Here,
    at: Place,
    to: &TypeTree,
    of: &Expr,
) -> Result<Found, TypeStop>
    requires { IsLaidOut env.now.aggregates }
    ensures { Answers result (spec.found env.now here.now (tree.Cast at to.now of.now)) }
{
    let to = written_type(alloc, env, here, to)?;
    let f = found(alloc, env, here, of);
    let (to, f) = beside(to, f)?;
    let e = cast_to(alloc, env.aggregates.as_slice(), at, to, expr_place(of), f)?;
    Ok(value(e))
}

/// `sizeof` of a value or place.
#[cycle(expr)]
#[tactic(auto, using(crate::proofs::NodesAre::sizeof_node_is, al_rules::proofs::Permits::permitted))]
fn sizeof_node(
    alloc: Global,
    env: &Environment,
    here: &Here,
    at: Place,
    of: &Expr,
) -> Result<Found, TypeStop>
    requires { IsLaidOut env.now.aggregates }
    ensures { Answers result (spec.found env.now here.now (tree.SizeofValue at of.now)) }
{
    let f = found(alloc, env, here, of)?;
    let e = sized(alloc, env.aggregates.as_slice(), at, f)?;
    Ok(value(e))
}

/// `of[by]`
#[cycle(expr)]
#[tactic(auto, using(crate::proofs::NodesAre::index_node_is, al_rules::proofs::Permits::permitted))]
fn index_node(
    alloc: Global,
    env: &Environment,
    here: &Here,
    at: Place,
    of: &Expr,
    by: &Expr,
) -> Result<Found, TypeStop>
    requires { IsLaidOut env.now.aggregates }
    ensures { Answers result (spec.found env.now here.now (tree.Index at of.now by.now)) }
{
    let (x, y) = values(alloc, env, here, of, by)?;
    let p = index(alloc, env.aggregates.as_slice(), at, x, y)?;
    Ok(place_of(p))
}

/// A member that is not called.
#[cycle(expr)]
#[tactic(auto, using(crate::proofs::NodesAre::member_node_is, al_rules::proofs::Permits::permitted))]
fn member_node(
    alloc: Global,
    env: &Environment,
    here: &Here,
    at: Place,
    of: &Expr,
    how: Access,
    name: Name,
) -> Result<Found, TypeStop>
    requires { IsLaidOut env.now.aggregates }
    ensures { Answers result (spec.found env.now here.now (tree.Member at of.now how name)) }
{
    let f = found(alloc, env, here, of)?;
    member_found(alloc, env, here, at, how, name.name, expr_place(of), f)
}

/// A call.
#[cycle(expr)]
#[tactic(auto, using(crate::proofs::NodesAre::call_node_is, al_rules::proofs::Permits::permitted))]
fn call_node(
    alloc: Global,
    env: &Environment,
    here: &Here,
    at: Place,
    written: &[Expr],
    f: &Expr,
) -> Result<Found, TypeStop>
    requires { IsLaidOut env.now.aggregates }
    ensures { Answers result (spec.found env.now here.now (tree.Call at f.now written.now)) }
{
    let f = callee(alloc, env, here, f)?;
    let e = called(alloc, env, here, at, written, f)?;
    Ok(value(e))
}

/// An operator behind its operand.
#[cycle(expr)]
#[tactic(auto, using(crate::proofs::NodesAre::postfix_node_is, al_rules::proofs::Permits::permitted))]
fn postfix_node(
    alloc: Global,
    env: &Environment,
    here: &Here,
    at: Place,
    op: PostfixOp,
    of: &Expr,
) -> Result<Found, TypeStop>
    requires { IsLaidOut env.now.aggregates }
    ensures { Answers result (spec.found env.now here.now (tree.Postfix at op of.now)) }
{
    let f = found(alloc, env, here, of)?;
    postfix_found(alloc, env.aggregates.as_slice(), at, op, expr_place(of), f)
}

/// An operator between two operands.
#[cycle(expr)]
#[tactic(auto, using(crate::proofs::NodesAre::binary_node_is, al_rules::proofs::Permits::permitted))]
fn binary_node(
    alloc: Global,
    env: &Environment,
    here: &Here,
    at: Place,
    op: BinaryOp,
    a: &Expr,
    b: &Expr,
) -> Result<Found, TypeStop>
    requires { IsLaidOut env.now.aggregates }
    ensures { Answers result (spec.found env.now here.now (tree.Binary at op a.now b.now)) }
{
    let (x, y) = values(alloc, env, here, a, b)?;
    let e = binary(alloc, env.aggregates.as_slice(), at, op, x, y)?;
    Ok(value(e))
}

/// An assignment or a send.
#[cycle(expr)]
#[tactic(auto, using(crate::proofs::NodesAre::assign_node_is, al_rules::proofs::Permits::permitted))]
fn assign_node(
    alloc: Global,
    env: &Environment,
    here: &Here,
    at: Place,
    op: AssignOp,
    a: &Expr,
    b: &Expr,
) -> Result<Found, TypeStop>
    requires { IsLaidOut env.now.aggregates }
    ensures { Answers result (spec.found env.now here.now (tree.Assign at op a.now b.now)) }
{
    let e = assignment(alloc, env, here, at, op, a, b)?;
    Ok(value(e))
}

/// Expressions with commas between them.
#[cycle(expr)]
#[tactic(auto, using(crate::proofs::NodesAre::sequence_node_is, al_rules::proofs::Permits::permitted))]
fn sequence_node(
    alloc: Global,
    env: &Environment,
    here: &Here,
    at: Place,
    parts: &[Expr],
) -> Result<Found, TypeStop>
    requires { IsLaidOut env.now.aggregates }
    ensures { Answers result (spec.found env.now here.now (tree.Sequence at parts.now)) }
{
    let parts = each_dropped(alloc, env, here, parts)?;
    let e = sequenced(alloc, at, parts)?;
    Ok(value(e))
}

/// What an expression is, before it is known how it is used.
#[cycle(expr)]
#[tactic(auto, using(crate::proofs::NodesAre::leaves_are))]
pub fn found(alloc: Global, env: &Environment, here: &Here, e: &Expr) -> Result<Found, TypeStop>
    requires { IsLaidOut env.now.aggregates }
    ensures { Answers result (spec.found env.now here.now e.now) }
{
    match e {
        Expr::Number { at: _, value } => Ok(number(*value)),
        Expr::Char { at: _, value } => Ok(character(*value)),
        Expr::Text { at, bytes: _ } => text_found(alloc, *at, here.texts.number(*at)),
        Expr::Nil { at } => nil_found(alloc, *at),
        Expr::Name { at, name: _ } => named(alloc, env, here, *at),
        Expr::Tuple { at, parts } => tuple_node(alloc, env, here, *at, parts.as_slice()),
        Expr::Unary { at, op, operand } => { unary_node(alloc, env, here, *at, *op, operand.get()) }
        Expr::Cast { at, to, operand } => cast_node(alloc, env, here, *at, to, operand.get()),
        Expr::SizeofType { at, of } => size_written(alloc, env, here, *at, of),
        Expr::SizeofValue { at, of } => sizeof_node(alloc, env, here, *at, of.get()),
        Expr::Index { at, of, index } => {
            index_node(alloc, env, here, *at, of.get(), index.get())
        }
        Expr::Member {
            at,
            of,
            access,
            name,
        } => member_node(alloc, env, here, *at, of.get(), *access, *name),
        Expr::Call {
            at,
            callee,
            arguments,
        } => call_node(alloc, env, here, *at, arguments.as_slice(), callee.get()),
        Expr::Postfix { at, op, operand } => {
            postfix_node(alloc, env, here, *at, *op, operand.get())
        }
        Expr::Binary {
            at,
            op,
            left,
            right,
        } => binary_node(alloc, env, here, *at, *op, left.get(), right.get()),
        Expr::Iterator { at, from: _, to: _ } => iterator_found(*at, here.iterators.number(*at)),
        Expr::Assign {
            at,
            op,
            left,
            right,
        } => assign_node(alloc, env, here, *at, *op, left.get(), right.get()),
        Expr::Sequence { at, parts } => sequence_node(alloc, env, here, *at, parts.as_slice()),
    }
}
