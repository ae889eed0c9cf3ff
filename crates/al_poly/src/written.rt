//! The types that expressions, statements and items write.
ghost use Rattle.std.specs.Prelude.{◌≡◌, ◌∷◌, ◌++◌, OnOk};
ghost use Rattle.std.specs.List.{flat_map};
ghost use Rattle.std.specs.Option.{option_map};
ghost use Rattle.al_poly.specs.Written as spec;

use crate::types::Types;
use al_base::NoMemory;
use al_items::{Boxed, Items};
use al_tree::{
    AdtMember, AdtPart, Constant, Declarator, Expr, Head, Initializer, Item, Member, Parameter,
    Stmt, Variable,
};

/// Adds those of expressions.
#[cycle(expressions)]
#[tactic(auto, using(crate::proofs::WrittenIs::types_more))]
fn in_exprs<'t>(types: &mut Types<'t>, exprs: &'t [Expr]) -> Result<(), NoMemory>
    ensures { OnOk result (types.new ≡ types.old ++ spec.in_exprs exprs.now) }
{
    for e in exprs {
        in_expr(types, e)?;
    }
    Ok(())
}

/// Adds those of an expression.
#[cycle(expressions)]
#[tactic(auto, using(crate::proofs::WrittenIs::in_expr_is, crate::proofs::WrittenIs::fronts))]
fn in_expr<'t>(types: &mut Types<'t>, e: &'t Expr) -> Result<(), NoMemory>
    ensures { OnOk result (types.new ≡ types.old ++ spec.in_expr e.now) }
{
    match e {
        Expr::Number { .. }
        | Expr::Char { .. }
        | Expr::Text { .. }
        | Expr::Nil { .. }
        | Expr::Name { .. } => Ok(()),
        Expr::Tuple { parts, .. } => in_exprs(types, parts.as_slice()),
        Expr::Unary { operand, .. } => in_expr(types, operand.get()),
        Expr::Cast { to, operand, .. } => {
            types.push(to)?;
            in_expr(types, operand.get())
        }
        Expr::SizeofType { of, .. } => types.push(of),
        Expr::SizeofValue { of, .. } => in_expr(types, of.get()),
        Expr::Index { of, index, .. } => {
            in_expr(types, of.get())?;
            in_expr(types, index.get())
        }
        Expr::Member { of, .. } => in_expr(types, of.get()),
        Expr::Call {
            callee,
            arguments,
            ..
        } => {
            in_expr(types, callee.get())?;
            in_exprs(types, arguments.as_slice())
        }
        Expr::Postfix { operand, .. } => in_expr(types, operand.get()),
        Expr::Binary { left, right, .. } => {
            in_expr(types, left.get())?;
            in_expr(types, right.get())
        }
        Expr::Iterator { from, to, .. } => {
            in_expr(types, from.get())?;
            in_expr(types, to.get())
        }
        Expr::Assign { left, right, .. } => {
            in_expr(types, left.get())?;
            in_expr(types, right.get())
        }
        Expr::Sequence { parts, .. } => in_exprs(types, parts.as_slice()),
    }
}

/// Adds those of an expression that may be missing.
#[tactic(auto, using(crate::proofs::WrittenIs::fronts))]
fn in_value<'t>(types: &mut Types<'t>, e: &'t Option<Expr>) -> Result<(), NoMemory>
    ensures { OnOk result (types.new ≡ types.old ++ spec.in_value e.now) }
{
    match e {
        None => Ok(()),
        Some(e) => in_expr(types, e),
    }
}

/// Adds those of a list of locals.
#[tactic(auto, using(crate::proofs::WrittenIs::types_more))]
fn in_variables<'t>(types: &mut Types<'t>, variables: &'t [Variable]) -> Result<(), NoMemory>
    ensures { OnOk result (types.new ≡ types.old ++ flat_map spec.in_variable variables.now) }
{
    for v in variables {
        in_value(types, &v.value)?;
    }
    Ok(())
}

/// Adds those of statements.
#[cycle(statements)]
#[tactic(auto, using(crate::proofs::WrittenIs::types_more))]
fn in_stmts<'t>(types: &mut Types<'t>, body: &'t [Stmt]) -> Result<(), NoMemory>
    ensures { OnOk result (types.new ≡ types.old ++ flat_map spec.in_stmt body.now) }
{
    for s in body {
        in_stmt(types, s)?;
    }
    Ok(())
}

/// Adds those of a statement that may be missing.
#[cycle(statements)]
#[tactic(auto, using(crate::proofs::WrittenIs::fronts))]
fn in_other<'t>(types: &mut Types<'t>, s: &'t Option<Boxed<Stmt>>) -> Result<(), NoMemory>
    ensures { OnOk result (types.new ≡ types.old ++ spec.of_part (option_map spec.in_stmt s.now)) }
{
    match s {
        None => Ok(()),
        Some(s) => in_stmt(types, s.get()),
    }
}

/// Adds those of a statement.
#[cycle(statements)]
#[tactic(auto, using(crate::proofs::WrittenIs::in_stmt_is, crate::proofs::WrittenIs::fronts))]
fn in_stmt<'t>(types: &mut Types<'t>, s: &'t Stmt) -> Result<(), NoMemory>
    ensures { OnOk result (types.new ≡ types.old ++ spec.in_stmt s.now) }
{
    match s {
        Stmt::Block { body, .. } => in_stmts(types, body.as_slice()),
        Stmt::Declare {
            base,
            variables,
            ..
        } => {
            types.push(base)?;
            in_variables(types, variables.as_slice())
        }
        Stmt::Value { value, .. } => in_expr(types, value),
        Stmt::Label { body, .. } => in_stmt(types, body.get()),
        Stmt::If {
            condition,
            then,
            other,
            ..
        } => {
            in_expr(types, condition)?;
            in_stmt(types, then.get())?;
            in_other(types, other)
        }
        Stmt::While {
            condition,
            body,
            ..
        } => {
            in_expr(types, condition)?;
            in_stmt(types, body.get())
        }
        Stmt::Do {
            body,
            condition,
            ..
        } => {
            in_stmt(types, body.get())?;
            in_expr(types, condition)
        }
        Stmt::For {
            start,
            condition,
            step,
            body,
            ..
        } => {
            in_value(types, start)?;
            in_value(types, condition)?;
            in_value(types, step)?;
            in_stmt(types, body.get())
        }
        Stmt::Switch { value, body, .. } => {
            in_expr(types, value)?;
            in_stmts(types, body.as_slice())
        }
        Stmt::Alt { body, .. } => in_stmts(types, body.as_slice()),
        Stmt::Case { value, .. } => in_expr(types, value),
        Stmt::Par { branches, .. } => in_stmts(types, branches.as_slice()),
        Stmt::Rescue { body, .. } => in_stmt(types, body.get()),
        Stmt::Return { value, .. } => in_value(types, value),
        Stmt::Become { value, .. } => in_expr(types, value),
        Stmt::Alloc { places, .. } => in_exprs(types, places.as_slice()),
        Stmt::Unalloc { values, .. } => in_exprs(types, values.as_slice()),
        Stmt::Check { value, .. } => in_expr(types, value),
        Stmt::Proc { calls, .. } => in_exprs(types, calls.as_slice()),
        Stmt::Task { calls, .. } => in_exprs(types, calls.as_slice()),
        Stmt::Empty { .. }
        | Stmt::Default { .. }
        | Stmt::Raise { .. }
        | Stmt::Break { .. }
        | Stmt::Continue { .. }
        | Stmt::Goto { .. } => Ok(()),
    }
}

/// Adds that of a parameter.
#[tactic(auto, using(crate::proofs::WrittenIs::fronts))]
fn in_parameter<'t>(types: &mut Types<'t>, p: &'t Parameter) -> Result<(), NoMemory>
    ensures { OnOk result (types.new ≡ types.old ++ spec.in_parameter p.now) }
{
    match p {
        Parameter::Plain { base, .. } => types.push(base),
        Parameter::OwnPointer { .. } | Parameter::OwnValue { .. } => Ok(()),
    }
}

/// Adds those of parameters.
#[tactic(auto, using(crate::proofs::WrittenIs::types_more))]
fn in_parameters<'t>(types: &mut Types<'t>, list: &'t [Parameter]) -> Result<(), NoMemory>
    ensures { OnOk result (types.new ≡ types.old ++ flat_map spec.in_parameter list.now) }
{
    for p in list {
        in_parameter(types, p)?;
    }
    Ok(())
}

fn in_head<'t>(types: &mut Types<'t>, head: &'t Head) -> Result<(), NoMemory>
    ensures { OnOk result (types.new ≡ types.old ++ spec.in_head head.now) }
{
    in_parameters(types, head.parameters.as_slice())
}

#[cycle(initializers)]
#[tactic(auto, using(crate::proofs::WrittenIs::types_more))]
fn in_initializers<'t>(types: &mut Types<'t>, parts: &'t [Initializer]) -> Result<(), NoMemory>
    ensures { OnOk result (types.new ≡ types.old ++ flat_map spec.in_initializer parts.now) }
{
    for i in parts {
        in_initializer(types, i)?;
    }
    Ok(())
}

#[cycle(initializers)]
#[tactic(auto, using(crate::proofs::WrittenIs::in_initializer_is))]
fn in_initializer<'t>(types: &mut Types<'t>, i: &'t Initializer) -> Result<(), NoMemory>
    ensures { OnOk result (types.new ≡ types.old ++ spec.in_initializer i.now) }
{
    match i {
        Initializer::Value(e) => in_expr(types, e),
        Initializer::Braces { parts, .. } => in_initializers(types, parts.as_slice()),
    }
}

#[tactic(auto, using(crate::proofs::WrittenIs::fronts))]
fn in_start<'t>(types: &mut Types<'t>, i: &'t Option<Initializer>) -> Result<(), NoMemory>
    ensures { OnOk result (types.new ≡ types.old ++ spec.in_start i.now) }
{
    match i {
        None => Ok(()),
        Some(i) => in_initializer(types, i),
    }
}

fn in_declarator<'t>(types: &mut Types<'t>, d: &'t Declarator) -> Result<(), NoMemory>
    ensures { OnOk result (types.new ≡ types.old ++ spec.in_declarator d.now) }
{
    match d {
        Declarator::Global { value, .. } => in_start(types, value),
        Declarator::Function(head) => in_head(types, head),
    }
}

#[tactic(auto, using(crate::proofs::WrittenIs::types_more))]
fn in_declarators<'t>(types: &mut Types<'t>, list: &'t [Declarator]) -> Result<(), NoMemory>
    ensures { OnOk result (types.new ≡ types.old ++ flat_map spec.in_declarator list.now) }
{
    for d in list {
        in_declarator(types, d)?;
    }
    Ok(())
}

#[cycle(members)]
#[tactic(auto, using(crate::proofs::WrittenIs::types_more))]
fn in_members<'t>(types: &mut Types<'t>, members: &'t [Member]) -> Result<(), NoMemory>
    ensures { OnOk result (types.new ≡ types.old ++ flat_map spec.in_member members.now) }
{
    for m in members {
        in_member(types, m)?;
    }
    Ok(())
}

#[cycle(members)]
#[tactic(auto, using(crate::proofs::WrittenIs::in_member_is))]
fn in_member<'t>(types: &mut Types<'t>, m: &'t Member) -> Result<(), NoMemory>
    ensures { OnOk result (types.new ≡ types.old ++ spec.in_member m.now) }
{
    match m {
        Member::Fields { base, .. } => types.push(base),
        Member::Unnamed { of, .. } => types.push(of),
        Member::Inner { members, .. } => in_members(types, members.as_slice()),
    }
}

#[tactic(auto, using(crate::proofs::WrittenIs::fronts))]
fn in_adt_part<'t>(types: &mut Types<'t>, part: &'t AdtPart) -> Result<(), NoMemory>
    ensures { OnOk result (types.new ≡ types.old ++ spec.in_adt_part part.now) }
{
    match part {
        AdtPart::Data(member) => in_member(types, member),
        AdtPart::Function {
            base,
            parameters,
            ..
        } => {
            types.push(base)?;
            in_parameters(types, parameters.as_slice())
        }
    }
}

#[tactic(auto, using(crate::proofs::WrittenIs::types_more))]
fn in_adt_members<'t>(types: &mut Types<'t>, members: &'t [AdtMember]) -> Result<(), NoMemory>
    ensures { OnOk result (types.new ≡ types.old ++ flat_map spec.in_adt_member members.now) }
{
    for m in members {
        in_adt_part(types, &m.part)?;
    }
    Ok(())
}

#[tactic(auto, using(crate::proofs::WrittenIs::types_more))]
fn in_constants<'t>(types: &mut Types<'t>, constants: &'t [Constant]) -> Result<(), NoMemory>
    ensures { OnOk result (types.new ≡ types.old ++ flat_map spec.in_constant constants.now) }
{
    for c in constants {
        in_value(types, &c.value)?;
    }
    Ok(())
}

/// Adds those of an item.
#[tactic(auto, using(crate::proofs::WrittenIs::fronts))]
pub(crate) fn in_item<'t>(types: &mut Types<'t>, item: &'t Item) -> Result<(), NoMemory>
    ensures { OnOk result (types.new ≡ types.old ++ spec.in_item item.now) }
{
    match item {
        Item::Typedef { base, .. } => types.push(base),
        Item::FunctionType {
            base,
            parameters,
            ..
        } => {
            types.push(base)?;
            in_parameters(types, parameters.as_slice())
        }
        Item::Forward { .. } => Ok(()),
        Item::Aggregate { members, .. } => in_members(types, members.as_slice()),
        Item::Adt { members, .. } => in_adt_members(types, members.as_slice()),
        Item::Enum { constants, .. } => in_constants(types, constants.as_slice()),
        Item::Declare {
            base,
            declarators,
            ..
        } => {
            types.push(base)?;
            in_declarators(types, declarators.as_slice())
        }
        Item::Function {
            base,
            head,
            body,
            ..
        } => {
            types.push(base)?;
            in_head(types, head)?;
            in_stmt(types, body)
        }
    }
}
