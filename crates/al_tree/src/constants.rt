//! The values of enum constants and bounds, by typing rule 22.
ghost use Rattle.std.specs.Prelude.{◌≡◌, ◌<◌, IsNone, IfOk, OnOk, true};
ghost use Rattle.std.specs.Option.{option_copied};
ghost use Rattle.al_tree.specs.Integers as integers;
ghost use Rattle.al_tree.specs.Constants as spec;

use crate::expression::{Expr, Name};
use crate::integer::{Integer, arithmetic, binary, in_kind, int, small, unary};
use crate::item::{Constant, Item, Tree};
use crate::type_tree::{BasicType, Bound, BoundOp, Dcl, TypeTree};
use al_base::{Kind, NoMemory, Op, Place};
use al_items::Items;
use al_lex::number_kind;
use std::alloc::Global;

/// An enum constant with its value, an int. It has none where the text gives it none that is constant.
#[derive(Clone, Copy, Debug, PartialEq, Eq)]
pub struct EnumConstant {
    pub name: Name,
    pub value: Option<Integer>,
}

/// The enum constants of a text, in text order.
#[derive(Debug, Drop)]
pub struct Constants {
    pub list: Items<EnumConstant>,
}

/// A type's name, with the integer kind that it stands for, if it stands for one.
#[derive(Clone, Copy)]
pub(crate) struct NamedKind {
    pub(crate) name: u32,
    pub(crate) kind: Option<Kind>,
}

/// What constants may name: the types and the enum constants before them.
#[derive(Drop)]
pub(crate) struct Known {
    pub(crate) types: Items<NamedKind>,
    pub(crate) constants: Items<EnumConstant>,
}

#[tactic(auto, unfolding(crate::specs::Constants::basic_kind))]
fn basic_kind(basic: BasicType) -> Option<Kind>
    ensures { result ≡ spec.basic_kind basic }
{
    match basic {
        BasicType::Byte => Some(Kind::Byte),
        BasicType::Sint => Some(Kind::Sint),
        BasicType::Usint => Some(Kind::Usint),
        BasicType::Int => Some(Kind::Int),
        BasicType::Uint => Some(Kind::Uint),
        BasicType::Lint => Some(Kind::Lint),
        BasicType::Ulint => Some(Kind::Ulint),
        BasicType::Void => None,
    }
}

#[tactic(auto, unfolding(crate::specs::Constants::latest_type))]
fn latest_type(types: &[NamedKind], name: u32) -> Option<&NamedKind>
    ensures { option_copied result ≡ spec.latest_type types.now name }
{
    types.iter().rev().find(|t| t.name == name)
}

fn latest_kind(types: &[NamedKind], name: u32) -> Option<Kind>
    ensures { result ≡ spec.latest_kind types.now name }
{
    match latest_type(types, name) {
        None => None,
        Some(t) => t.kind,
    }
}

/// The integer kind that a type is.
#[tactic(auto, unfolding(crate::specs::Constants::kind_of))]
fn kind_of(types: &[NamedKind], tree: &TypeTree) -> Option<Kind>
    ensures { result ≡ spec.kind_of types.now tree.now }
{
    match tree {
        TypeTree::Basic { basic, .. } => basic_kind(*basic),
        TypeTree::Named {
            name,
            arguments,
            ..
        } => match arguments.as_slice().split_first() {
            None => latest_kind(types, *name),
            Some(_) => None,
        },
        _ => None,
    }
}

#[tactic(auto, unfolding(crate::specs::Constants::latest))]
fn latest(constants: &[EnumConstant], name: u32) -> Option<&EnumConstant>
    ensures { option_copied result ≡ spec.latest constants.now name }
{
    constants.iter().rev().find(|c| c.name.name == name)
}

fn value_named(constants: &[EnumConstant], name: u32) -> Option<Integer>
    ensures { result ≡ spec.value_of (spec.latest constants.now name) }
{
    match latest(constants, name) {
        None => None,
        Some(c) => c.value,
    }
}

fn cast(kind: Option<Kind>, i: Option<Integer>) -> Option<Integer>
    ensures { result ≡ spec.cast kind i }
{
    match (kind, i) {
        (Some(kind), Some(i)) => Some(in_kind(kind, i)),
        _ => None,
    }
}

/// The value of an expression, where it is constant.
#[tactic(auto, using(crate::proofs::ConstantsAre::value_is))]
fn value(e: &Expr, known: &Known) -> Option<Integer>
    ensures { result ≡ spec.value e.now known.now }
{
    match e {
        Expr::Number { value, .. } => Some(Integer {
            kind: number_kind(*value),
            bits: *value,
        }),
        Expr::Char { value, .. } => Some(int(*value as u64)),
        Expr::Name { name, .. } => value_named(known.constants.as_slice(), *name),
        Expr::Unary { op, operand, .. } => match value(operand.get(), known) {
            None => None,
            Some(a) => unary(*op, a),
        },
        Expr::Cast { to, operand, .. } => cast(
            kind_of(known.types.as_slice(), to),
            value(operand.get(), known),
        ),
        Expr::Binary {
            op,
            left,
            right,
            ..
        } => match value(left.get(), known) {
            None => None,
            Some(a) => match value(right.get(), known) {
                None => None,
                Some(b) => binary(*op, a, b),
            },
        },
        Expr::Text { .. }
        | Expr::Nil { .. }
        | Expr::Tuple { .. }
        | Expr::SizeofType { .. }
        | Expr::SizeofValue { .. }
        | Expr::Index { .. }
        | Expr::Member { .. }
        | Expr::Call { .. }
        | Expr::Postfix { .. }
        | Expr::Iterator { .. }
        | Expr::Assign { .. }
        | Expr::Sequence { .. } => None,
    }
}

/// The value of a constant, where `next` is one more than the one before.
#[tactic(auto, unfolding(crate::specs::Constants::given))]
fn given(known: &Known, next: Option<Integer>, written: &Option<Expr>) -> Option<Integer>
    ensures { result ≡ spec.given known.now next written.now }
{
    match written {
        None => next,
        Some(e) => match value(e, known) {
            None => None,
            Some(i) => Some(in_kind(Kind::Int, i)),
        },
    }
}

#[tactic(auto, unfolding(crate::specs::Constants::one_more))]
fn one_more(i: Option<Integer>) -> Option<Integer>
    ensures { result ≡ spec.one_more i }
{
    match i {
        None => None,
        Some(a) => arithmetic(Op::Add, a, int(1)),
    }
}

/// Adds the constants of one enum.
fn number_constants(known: &mut Known, constants: &[Constant]) -> Result<(), NoMemory>
    ensures { OnOk result (known.new ≡ spec.numbered (Some (integers.int 0)) known.old constants.now) }
{
    let mut next = Some(int(0));
    for constant in constants {
        let value = given(known, next, &constant.value);
        known.constants.push(EnumConstant {
            name: constant.name,
            value,
        })?;
        next = one_more(value);
    }
    Ok(())
}

#[tactic(auto, unfolding(crate::specs::Constants::declared_kind))]
fn declared_kind(types: &[NamedKind], base: &TypeTree, dcl: &Dcl) -> Option<Kind>
    ensures { result ≡ spec.declared_kind types.now base.now dcl.now }
{
    match dcl.bounds.as_slice().split_first() {
        None if dcl.stars == 0 => kind_of(types, base),
        _ => None,
    }
}

fn add_type(known: &mut Known, name: u32, kind: Option<Kind>) -> Result<(), NoMemory>
    ensures { OnOk result (known.new ≡ spec.with_type known.old name kind) }
{
    known.types.push(NamedKind { name, kind })
}

/// Adds what an item declares.
#[tactic(auto, unfolding(crate::specs::Constants::with_item))]
fn add_item(known: &mut Known, item: &Item) -> Result<(), NoMemory>
    ensures { OnOk result (known.new ≡ spec.with_item known.old item.now) }
{
    match item {
        Item::Typedef { base, dcl, .. } => {
            let kind = declared_kind(known.types.as_slice(), base, dcl);
            add_type(known, dcl.name.name, kind)
        }
        Item::FunctionType { name, .. } => add_type(known, name.name, None),
        Item::Forward { name, .. } => add_type(known, name.name, None),
        Item::Aggregate { name, .. } => add_type(known, name.name, None),
        Item::Adt { name, .. } => add_type(known, name.name, None),
        Item::Enum {
            name,
            constants,
            ..
        } => {
            if let Some(name) = name {
                add_type(known, name.name, Some(Kind::Int))?;
            }
            number_constants(known, constants.as_slice())
        }
        Item::Declare { .. } | Item::Function { .. } => Ok(()),
    }
}

/// The enum constants of a text, in text order, each with its value.
#[tactic(auto, unfolding(crate::specs::Constants::values))]
pub fn enum_values(alloc: Global, tree: &Tree) -> Result<Constants, NoMemory>
    ensures { IfOk result (λ c. c.list ≡ spec.values tree.now.items) }
{
    let mut known = Known {
        types: Items::new(alloc),
        constants: Items::new(alloc),
    };
    for item in tree.items.as_slice() {
        add_item(&mut known, item)?;
    }
    Ok(Constants {
        list: known.constants,
    })
}

#[tactic(auto, unfolding(crate::specs::Constants::is_before))]
fn is_before(p: Place, q: Place) -> bool
    ensures { result ≡ spec.is_before p q }
{
    p.line < q.line || (p.line == q.line && p.col < q.col)
}

#[tactic(auto, unfolding(crate::specs::Constants::latest_before))]
fn latest_before(constants: &[EnumConstant], name: u32, at: Place) -> Option<&EnumConstant>
    ensures { option_copied result ≡ spec.latest_before constants.now name at }
{
    constants
        .iter()
        .rev()
        .find(|c| c.name.name == name && is_before(c.name.at, at))
}

fn value_before(constants: &[EnumConstant], name: u32, at: Place) -> Option<Integer>
    ensures { result ≡ spec.value_of (spec.latest_before constants.now name at) }
{
    match latest_before(constants, name, at) {
        None => None,
        Some(c) => c.value,
    }
}

#[tactic(auto, unfolding(crate::specs::Constants::bound_operation))]
fn bound_operation(op: BoundOp, a: Integer, b: Integer) -> Option<Integer>
    ensures { result ≡ spec.bound_operation op a b }
{
    match op {
        BoundOp::Plus => arithmetic(Op::Add, a, b),
        BoundOp::Minus => arithmetic(Op::Sub, a, b),
        BoundOp::Times => arithmetic(Op::Mul, a, b),
    }
}

/// The integer that a bound at that place is.
#[tactic(auto, using(crate::proofs::ConstantsAre::bound_is))]
fn bound_integer(b: &Bound, constants: &[EnumConstant], at: Place) -> Option<Integer>
    ensures { result ≡ spec.bound_integer b.now constants.now at }
{
    match b {
        Bound::Number { value, .. } => Some(Integer {
            kind: number_kind(*value),
            bits: *value,
        }),
        Bound::Name { name, .. } => value_before(constants, *name, at),
        Bound::Binary {
            op,
            left,
            right,
            ..
        } => match bound_integer(left.get(), constants, at) {
            None => None,
            Some(x) => match bound_integer(right.get(), constants, at) {
                None => None,
                Some(y) => bound_operation(*op, x, y),
            },
        },
    }
}

/// The value of a bound that stands at that place, where it is from 0 to 2^32 - 1. It takes no memory.
#[tactic(auto, unfolding(crate::specs::Constants::bound_number))]
pub fn bound_value(c: &Constants, b: &Bound, at: Place) -> Option<u32>
    ensures { result ≡ spec.bound_number c.now.list b.now at }
{
    match bound_integer(b, c.list.as_slice(), at) {
        None => None,
        Some(i) => small(i),
    }
}
