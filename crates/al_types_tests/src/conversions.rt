use al_base::{Kind, NoMemory, Place};
use al_convert::{Literal, common, converts, same};
use al_items::{Boxed, Items};
use al_typed::Ty;
use std::alloc::Global;
use std::test::Fail;

const AT: Place = Place { line: 2, col: 7 };

/// Types of the tables.
#[derive(Clone, Copy, Debug)]
enum Sample {
    Int,
    Byte,
    /// `byte*`
    Bytes,
    /// `int*`
    Ints,
    /// `void*`
    Any,
    /// `chan(int)`
    Plain,
    /// `chan(int)[4]`
    Roomy,
    /// `(byte*, chan(int))`
    Pair,
    /// `(void*, chan(int)[4])`
    Other,
    /// `(int, void*)`
    Written,
    First,
    Second,
}

fn pointer(alloc: Global, to: Ty) -> Result<Ty, NoMemory> {
    Ok(Ty::Pointer(Boxed::new(alloc, to)?))
}

fn chan(alloc: Global, capacity: u32) -> Result<Ty, NoMemory> {
    Ok(Ty::Chan {
        element: Boxed::new(alloc, Ty::Integer(Kind::Int))?,
        capacity,
    })
}

fn pair(alloc: Global, first: Ty, second: Ty) -> Result<Ty, NoMemory> {
    let mut parts = Items::new(alloc);
    parts.push(first)?;
    parts.push(second)?;
    Ok(Ty::Tuple(parts))
}

fn simple(alloc: Global, sample: Sample) -> Result<Ty, NoMemory> {
    match sample {
        Sample::Int => Ok(Ty::Integer(Kind::Int)),
        Sample::Byte => Ok(Ty::Integer(Kind::Byte)),
        Sample::Bytes => pointer(alloc, Ty::Integer(Kind::Byte)),
        Sample::Ints => pointer(alloc, Ty::Integer(Kind::Int)),
        Sample::Any => pointer(alloc, Ty::Void),
        Sample::Plain => chan(alloc, 0),
        Sample::Roomy => chan(alloc, 4),
        Sample::First => Ok(Ty::Aggregate(1)),
        _ => Ok(Ty::Aggregate(2)),
    }
}

fn pair_of(alloc: Global, first: Sample, second: Sample) -> Result<Ty, NoMemory> {
    let first = simple(alloc, first)?;
    let second = simple(alloc, second)?;
    pair(alloc, first, second)
}

fn ty(alloc: Global, sample: Sample) -> Result<Ty, NoMemory> {
    match sample {
        Sample::Pair => pair_of(alloc, Sample::Bytes, Sample::Plain),
        Sample::Other => pair_of(alloc, Sample::Any, Sample::Roomy),
        Sample::Written => pair_of(alloc, Sample::Int, Sample::Any),
        _ => simple(alloc, sample),
    }
}

/// What a value is written as: 0, nil, a pair of both, or else.
#[derive(Clone, Copy, Debug)]
enum Form {
    Zero,
    Nil,
    Both,
    Else,
}

fn literal(alloc: Global, form: Form) -> Result<Literal, NoMemory> {
    match form {
        Form::Zero => Ok(Literal::Zero),
        Form::Nil => Ok(Literal::Nil { at: AT }),
        Form::Else => Ok(Literal::Other),
        Form::Both => {
            let mut parts = Items::new(alloc);
            parts.push(Literal::Zero)?;
            parts.push(Literal::Nil { at: AT })?;
            Ok(Literal::Tuple(parts))
        }
    }
}

fn convert(alloc: Global, form: Form, from: Sample, to: Sample) -> Result<bool, NoMemory> {
    let written = literal(alloc, form)?;
    let from = ty(alloc, from)?;
    let to = ty(alloc, to)?;
    Ok(converts(&written, &from, &to))
}

#[test]
fn values_convert_by_rule_33(rt: HostRuntime) -> Result<(), Fail> {
    let alloc = rt.alloc();
    let table = [
        (Form::Else, Sample::Int, Sample::Byte, true),
        (Form::Else, Sample::Int, Sample::Bytes, false),
        (Form::Else, Sample::Bytes, Sample::Any, true),
        (Form::Else, Sample::Any, Sample::Ints, true),
        (Form::Else, Sample::Bytes, Sample::Ints, false),
        (Form::Else, Sample::Plain, Sample::Roomy, true),
        (Form::Else, Sample::Any, Sample::Plain, false),
        (Form::Else, Sample::Pair, Sample::Other, true),
        (Form::Else, Sample::Pair, Sample::Written, false),
        (Form::Else, Sample::First, Sample::First, true),
        (Form::Else, Sample::First, Sample::Second, false),
        (Form::Zero, Sample::Int, Sample::Plain, true),
        (Form::Zero, Sample::Int, Sample::First, false),
        (Form::Nil, Sample::Any, Sample::Plain, true),
        (Form::Nil, Sample::Any, Sample::Int, false),
        (Form::Both, Sample::Written, Sample::Pair, true),
        (Form::Else, Sample::Written, Sample::Pair, false),
    ];
    for (form, from, to, expected) in table {
        assert_eq!(rt;
            convert(alloc, form, from, to)?,
            expected,
            "{form:?} {from:?} {to:?}"
        );
    }
    let plain = chan(alloc, 0)?;
    assert_eq!(rt; same(true, &plain, &plain), true);
    Ok(())
}

#[test]
fn the_wider_kind_is_common_and_of_equal_widths_the_unsigned_one(
    rt: HostRuntime,
) -> Result<(), Fail> {
    let table = [
        (Kind::Byte, Kind::Sint, Kind::Int),
        (Kind::Int, Kind::Uint, Kind::Uint),
        (Kind::Uint, Kind::Lint, Kind::Lint),
        (Kind::Ulint, Kind::Lint, Kind::Ulint),
    ];
    for (a, b, expected) in table {
        assert_eq!(rt; common(a, b), expected);
        assert_eq!(rt; common(b, a), expected);
    }
    Ok(())
}
