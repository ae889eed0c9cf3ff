//! Expressions without parts, and what stands on the left of `=`.
ghost use Rattle.std.specs.Prelude.{◌≡◌, IfOk};
ghost use Rattle.al_rules.specs.Outcome.{Answers, Good};
ghost use Rattle.al_type_expr.specs.Leaves as spec;
ghost use Rattle.al_type_expr.specs.Nodes as nodes;
ghost use Rattle.al_scope.specs.Expressions.{place as place_of_node};

use al_base::{Kind, NoMemory, Place};
use al_convert::Literal;
use al_items::Boxed;
use al_lex::number_kind;
use al_operands::{
    Operand, asked, beside, both, boxes, converted, rule_29_is_no_array, rule_33_converts,
};
use al_rules::{TypeStop, broken};
use al_tree::Expr;
use al_type_nodes::{Found, lacking, value};
use al_typed::{TExpr, TPlace, TTarget, Ty};
use std::alloc::Global;

/// Where an expression begins.
#[tactic(auto, unfolding(al_scope::specs::Expressions::place))]
pub fn expr_place(e: &Expr) -> Place
    ensures { result ≡ place_of_node e.now }
{
    match e {
        Expr::Number { at, .. }
        | Expr::Char { at, .. }
        | Expr::Text { at, .. }
        | Expr::Nil { at }
        | Expr::Name { at, .. }
        | Expr::Tuple { at, .. }
        | Expr::Unary { at, .. }
        | Expr::Cast { at, .. }
        | Expr::SizeofType { at, .. }
        | Expr::SizeofValue { at, .. }
        | Expr::Index { at, .. }
        | Expr::Member { at, .. }
        | Expr::Call { at, .. }
        | Expr::Postfix { at, .. }
        | Expr::Binary { at, .. }
        | Expr::Iterator { at, .. }
        | Expr::Assign { at, .. }
        | Expr::Sequence { at, .. } => *at,
    }
}

/// Whether a number is written as the constant 0.
fn zero(n: u64) -> Literal
    ensures { result ≡ spec.zero n }
{
    if n == 0 {
        Literal::Zero
    } else {
        Literal::Other
    }
}

#[tactic(auto, unfolding(crate::specs::Leaves::number))]
pub(crate) fn number(n: u64) -> Found
    ensures { result ≡ spec.number n }
{
    let value = TExpr::Constant {
        ty: Ty::Integer(number_kind(n)),
        bits: n,
    };
    Found::Value(Operand {
        value,
        written: zero(n),
    })
}

#[tactic(auto, unfolding(crate::specs::Leaves::character))]
pub(crate) fn character(n: u8) -> Found
    ensures { result ≡ spec.character n }
{
    value(TExpr::Constant {
        ty: Ty::Integer(Kind::Int),
        bits: n as u64,
    })
}

/// A string constant, by the number of its block.
#[tactic(auto, unfolding(crate::specs::Leaves::text_found), using(al_operands::proofs::Asking::asking))]
pub(crate) fn text_found(alloc: Global, at: Place, number: Option<u32>) -> Result<Found, TypeStop>
    ensures { Answers result (spec.text_found at number) }
{
    match number {
        None => Err(broken(36, at)),
        Some(number) => {
            let ty = Ty::Pointer(Boxed::new(alloc, Ty::Integer(Kind::Byte))?);
            Ok(value(TExpr::Text { ty, number }))
        }
    }
}

#[tactic(auto, unfolding(crate::specs::Leaves::nil_found))]
pub(crate) fn nil_found(alloc: Global, at: Place) -> Result<Found, TypeStop>
    ensures { Answers result (Good (spec.nil_found at)) }
{
    let ty = Ty::Pointer(Boxed::new(alloc, Ty::Void)?);
    Ok(Found::Value(Operand {
        value: TExpr::Nil { ty },
        written: Literal::Nil { at },
    }))
}

#[tactic(auto, unfolding(crate::specs::Leaves::iterator_found), using(al_operands::proofs::Asking::asking))]
pub(crate) fn iterator_found(at: Place, number: Option<u32>) -> Result<Found, TypeStop>
    ensures { Answers result (spec.iterator_found at number) }
{
    match number {
        None => Err(broken(42, at)),
        Some(number) => Ok(value(TExpr::Iterator {
            ty: Ty::Integer(Kind::Int),
            number,
        })),
    }
}

#[tactic(auto, unfolding(crate::specs::Leaves::whole_target), using(al_operands::proofs::Asking::asking))]
fn whole_target(alloc: Global, at: Place, place: TPlace) -> Result<TTarget, TypeStop>
    ensures { Answers result (spec.whole_target at place) }
{
    let is_whole = rule_29_is_no_array(place.ty());
    let place = asked(29, at, is_whole, place)?;
    let place = Boxed::new(alloc, place)?;
    Ok(TTarget::Into(place))
}

/// What is found as a target of an assignment; the rule of that number asks for a place.
#[tactic(auto, unfolding(crate::specs::Leaves::place_target))]
pub(crate) fn place_target(
    alloc: Global,
    number: u16,
    at: Place,
    found: Found,
) -> Result<TTarget, TypeStop>
    ensures { Answers result (spec.place_target number at found) }
{
    match found {
        Found::Place {
            place,
            is_private: _,
        } => whole_target(alloc, at, place),
        Found::Value(x) => lacking(number, at, x),
    }
}

/// The rule that a target breaks which is none.
pub(crate) fn target_rule(is_part: bool) -> u16
    ensures { result ≡ nodes.target_rule is_part }
{
    if is_part { 40 } else { 28 }
}

/// `nil` on the left of `=`, where it takes a value of that type.
#[tactic(auto, using(al_operands::proofs::Asking::asking))]
pub(crate) fn nil_target(
    alloc: Global,
    is_part: bool,
    at: Place,
    ty: &Ty,
) -> Result<TTarget, TypeStop>
    ensures { Answers result (nodes.nil_aim is_part at ty.now) }
{
    if !is_part {
        return Err(broken(28, at));
    }
    Ok(TTarget::Dropped(ty.copy(alloc)?))
}

fn assign_node(alloc: Global, target: TTarget, e: TExpr) -> Result<TExpr, NoMemory>
    ensures { IfOk result (λ t. t ≡ spec.assign_node target e) }
{
    let ty = target.ty().copy(alloc);
    let sides = boxes(alloc, target, e);
    let (ty, sides) = both(ty, sides)?;
    let (target, value) = sides;
    Ok(TExpr::Assign { ty, target, value })
}

fn assign(alloc: Global, target: TTarget, e: TExpr) -> Result<TExpr, NoMemory>
    ensures { IfOk result (λ t. t ≡ spec.assign target e) }
{
    let e = converted(alloc, target.ty(), e);
    let (target, e) = beside(target, e)?;
    assign_node(alloc, target, e)
}

#[tactic(auto, unfolding(crate::specs::Leaves::assigned_to), using(al_operands::proofs::Asking::asking))]
pub(crate) fn assigned_to(
    alloc: Global,
    at: Place,
    target: TTarget,
    x: Operand,
) -> Result<TExpr, TypeStop>
    ensures { Answers result (spec.assigned_to at target x) }
{
    let converts = rule_33_converts(&x, target.ty());
    let (target, e) = asked(33, at, converts, (target, x.value))?;
    Ok(assign(alloc, target, e)?)
}
