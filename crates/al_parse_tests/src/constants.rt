//! The values of enum constants and bounds, and the names of types.
use al_base::{Kind, NoMemory, Place};
use al_items::{Boxed, Items};
use al_tree::{
    BasicType, BinaryOp, Bound, BoundOp, Constant, Expr, Item, Name, Tree, TypeNames, TypeTree,
    UnaryOp, bound_value, enum_values,
};
use std::alloc::Global;
use std::test::Fail;

const AT: Place = Place { line: 1, col: 1 };

fn number(value: u64) -> Expr {
    Expr::Number { at: AT, value }
}

fn constant_named(name: u32) -> Expr {
    Expr::Name { at: AT, name }
}

fn unary(alloc: Global, op: UnaryOp, e: Expr) -> Result<Expr, NoMemory> {
    Ok(Expr::Unary {
        at: AT,
        op,
        operand: Boxed::new(alloc, e)?,
    })
}

fn binary(alloc: Global, op: BinaryOp, a: Expr, b: Expr) -> Result<Expr, NoMemory> {
    Ok(Expr::Binary {
        at: AT,
        op,
        left: Boxed::new(alloc, a)?,
        right: Boxed::new(alloc, b)?,
    })
}

fn cast(alloc: Global, basic: BasicType, e: Expr) -> Result<Expr, NoMemory> {
    Ok(Expr::Cast {
        at: AT,
        to: TypeTree::Basic { at: AT, basic },
        operand: Boxed::new(alloc, e)?,
    })
}

/// The text `enum { .. };` with these values, where the constants are numbered and stand in lines by their numbers.
fn one_enum(alloc: Global, values: Vec<Option<Expr>>) -> Result<Tree, NoMemory> {
    let mut constants = Items::new(alloc);
    let mut name = 0u32;
    for value in values {
        let at = Place {
            line: name.wrapping_add(1),
            col: 1,
        };
        constants.push(Constant {
            name: Name { at, name },
            value,
        })?;
        name = name.wrapping_add(1);
    }
    let mut items = Items::new(alloc);
    items.push(Item::Enum {
        at: AT,
        name: None,
        constants,
    })?;
    Ok(Tree {
        items,
        names: Items::new(alloc),
    })
}

fn division_by_zero(alloc: Global) -> Result<Expr, NoMemory> {
    binary(alloc, BinaryOp::Divide, number(1), number(0))
}

#[test]
fn enum_constants_have_these_values(rt: HostRuntime) -> Result<(), Fail> {
    let alloc = rt.alloc();
    let least = binary(alloc, BinaryOp::Add, number(2147483647), number(1))?;
    let mut values = Vec::new(alloc);
    values.push(None)?;
    values.push(Some(number(5)))?;
    values.push(None)?;
    values.push(Some(binary(
        alloc,
        BinaryOp::Multiply,
        constant_named(1),
        constant_named(2),
    )?))?;
    values.push(Some(division_by_zero(alloc)?))?;
    values.push(None)?;
    values.push(Some(binary(alloc, BinaryOp::And, number(0), division_by_zero(alloc)?)?))?;
    values.push(Some(constant_named(7)))?;
    values.push(Some(cast(alloc, BasicType::Byte, number(300))?))?;
    values.push(Some(cast(alloc, BasicType::Void, number(300))?))?;
    values.push(Some(unary(alloc, UnaryOp::Complement, number(0))?))?;
    values.push(Some(binary(
        alloc,
        BinaryOp::ShiftRight,
        unary(alloc, UnaryOp::Minus, number(4))?,
        number(33),
    )?))?;
    values.push(Some(binary(
        alloc,
        BinaryOp::Less,
        unary(alloc, UnaryOp::Minus, number(1))?,
        number(4294967295),
    )?))?;
    values.push(Some(binary(alloc, BinaryOp::Divide, least, number(2))?))?;
    values.push(Some(number(4294967296)))?;
    values.push(Some(number(2147483647)))?;
    values.push(None)?;
    let expected = [
        Some(0),
        Some(5),
        Some(6),
        Some(30),
        None,
        None,
        None,
        None,
        Some(44),
        None,
        Some(0xffff_ffff),
        Some(0xffff_fffe),
        Some(0),
        Some(0xc000_0000),
        Some(0),
        Some(0x7fff_ffff),
        Some(0x8000_0000),
    ];
    let tree = one_enum(alloc, values)?;
    let constants = enum_values(alloc, &tree)?;
    assert_eq!(rt; constants.list.len(), expected.len());
    for (constant, bits) in constants.list.as_slice().iter().zip(expected.iter()) {
        match constant.value {
            None => assert!(rt; bits.is_none()),
            Some(value) => {
                assert!(rt; value.kind == Kind::Int);
                assert_eq!(rt; Some(value.bits), *bits);
            }
        }
    }
    Ok(())
}

fn sum(alloc: Global, a: Bound, op: BoundOp, b: Bound) -> Result<Bound, NoMemory> {
    Ok(Bound::Binary {
        at: AT,
        op,
        left: Boxed::new(alloc, a)?,
        right: Boxed::new(alloc, b)?,
    })
}

fn size(value: u64) -> Bound {
    Bound::Number { at: AT, value }
}

fn named(name: u32) -> Bound {
    Bound::Name { at: AT, name }
}

#[test]
fn bounds_have_these_values(rt: HostRuntime) -> Result<(), Fail> {
    let alloc = rt.alloc();
    let mut values = Vec::new(alloc);
    values.push(Some(number(3)))?;
    values.push(Some(number(7)))?;
    values.push(Some(division_by_zero(alloc)?))?;
    let tree = one_enum(alloc, values)?;
    let constants = enum_values(alloc, &tree)?;
    let table = [
        (size(0), Some(0)),
        (size(4294967295), Some(4294967295)),
        (size(4294967296), None),
        (named(0), Some(3)),
        (named(1), None),
        (named(9), None),
        (sum(alloc, named(0), BoundOp::Times, size(5))?, Some(15)),
        (sum(alloc, size(2), BoundOp::Minus, named(0))?, None),
        (sum(alloc, size(2147483647), BoundOp::Plus, size(1))?, None),
        (
            sum(alloc, size(4294967295), BoundOp::Plus, size(1))?,
            Some(0),
        ),
    ];
    for (bound, expected) in &table {
        let at = Place { line: 2, col: 1 };
        assert_eq!(rt; bound_value(&constants, bound, at), *expected);
    }
    let end = Place { line: 9, col: 1 };
    assert_eq!(rt; bound_value(&constants, &named(1), end), Some(7));
    assert_eq!(rt; bound_value(&constants, &named(2), end), None);
    Ok(())
}

#[test]
fn names_of_types_are_known_once_declared(rt: HostRuntime) -> Result<(), Fail> {
    let mut types = TypeNames::new(rt.alloc());
    types.declare(7)?;
    types.declare(2)?;
    types.declare(7)?;
    assert_eq!(rt; types.len(), 2);
    assert!(rt; types.knows(7) && types.knows(2) && !types.knows(3));
    types.truncate(1);
    assert!(rt; types.knows(7) && !types.knows(2));
    Ok(())
}
