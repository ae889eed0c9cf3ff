ghost use Rattle.std.specs.Prelude.{◌≡◌, [], IfOk};
ghost use Rattle.al_typed.specs.Layout.{IsLaidOut};

use al_base::{Kind, NoMemory};
use al_items::{Boxed, Items};
use al_typed::{
    Aggregate, Function, Limit, Program, TStmt, Ty, are_complete, room_of, size, units, weigh,
};
use std::alloc::Global;
use std::test::Fail;

/// A block of so many empty statements.
fn block(alloc: Global, count: usize) -> Result<TStmt, NoMemory> {
    let mut body = Items::new(alloc);
    for _ in 0..count {
        body.push(TStmt::Empty { line: 1 })?;
    }
    Ok(TStmt::Block { line: 1, body })
}

/// The type of so many bytes in a row.
fn bytes(alloc: Global, count: u32) -> Result<Ty, NoMemory> {
    let element = Boxed::new(alloc, Ty::Integer(Kind::Byte))?;
    Ok(Ty::Array { element, count })
}

/// A `main` of so many empty statements, in a program that names a channel whose element has so many bytes.
fn program(
    alloc: Global,
    aggregates: Items<Aggregate>,
    count: usize,
    wide: u32,
) -> Result<Program, NoMemory>
    ensures { IfOk result (λ p. p.aggregates ≡ aggregates) }
{
    let main = Function {
        name: Items::new(alloc),
        line: 1,
        returns: Ty::Void,
        parameters: 0,
        locals: Items::new(alloc),
        around: Items::new(alloc),
        labels: 0,
        body: block(alloc, count)?,
    };
    let mut functions = Items::new(alloc);
    functions.push(main)?;
    let mut elements = Items::new(alloc);
    elements.push(bytes(alloc, wide)?)?;
    Ok(Program {
        aggregates,
        globals: Items::new(alloc),
        strings: Items::new(alloc),
        elements,
        functions,
        main: 0,
    })
}

/// A type of one of the tables that a test cannot use.
#[derive(Debug, Drop)]
enum Unfit {
    Incomplete,
    TooLarge,
}

/// A row more.
fn with_row(
    rows: Items<Aggregate>,
    is_union: bool,
    members: Items<Ty>,
) -> Result<Items<Aggregate>, Fail>
    requires { IsLaidOut rows }
    ensures { IfOk result (λ more. IsLaidOut more) }
{
    if !are_complete(rows.as_slice(), members.as_slice()) {
        return Err(Fail::from(Unfit::Incomplete));
    }
    let Some(row) = Aggregate::laid_out(rows.as_slice(), is_union, Some(members)) else {
        return Err(Fail::from(Unfit::TooLarge));
    };
    let mut rows = rows;
    rows.push(row)?;
    Ok(rows)
}

/// These two types.
fn two(alloc: Global, first: Ty, second: Ty) -> Result<Items<Ty>, NoMemory> {
    let mut types = Items::new(alloc);
    types.push(first)?;
    types.push(second)?;
    Ok(types)
}

/// `aggr P{byte a;lint b;usint c;}; union U{int n;byte b[6];}; aggr Q{P p;byte a;}; adt E{void f();};
/// union V{usint n;byte b[3];};`
#[tactic(auto, using(al_typed::proofs::Layouts::none_laid_out))]
fn worked_rows(alloc: Global) -> Result<Items<Aggregate>, Fail>
    ensures { IfOk result (λ rows. IsLaidOut rows) }
{
    let mut p = two(alloc, Ty::Integer(Kind::Byte), Ty::Integer(Kind::Lint))?;
    p.push(Ty::Integer(Kind::Usint))?;
    let rows = with_row(Items::new(alloc), false, p)?;
    let rows = with_row(
        rows,
        true,
        two(alloc, Ty::Integer(Kind::Int), bytes(alloc, 6)?)?,
    )?;
    let rows = with_row(
        rows,
        false,
        two(alloc, Ty::Aggregate(0), Ty::Integer(Kind::Byte))?,
    )?;
    let rows = with_row(rows, false, Items::new(alloc))?;
    with_row(
        rows,
        true,
        two(alloc, Ty::Integer(Kind::Usint), bytes(alloc, 3)?)?,
    )
}

/// The size of a type, its alignment, and its units with a plus between place and size.
fn shown(alloc: Global, p: &Program, ty: &Ty) -> Result<String, Fail>
    requires { IsLaidOut p.now.aggregates }
{
    let room = room_of(p.aggregates.as_slice(), ty);
    if room.size > 1 << 28 {
        return Err(Fail::from(Unfit::TooLarge));
    }
    let mut text = format!(in alloc; "{} {}", size(p, ty), room.align)?;
    for unit in units(alloc, p, ty)? {
        text.push_str(&format!(in alloc; " {}+{}", unit.at, unit.size)?)?;
    }
    Ok(text)
}

#[test]
#[tactic(auto, using(al_typed::proofs::Layouts::none_laid_out))]
fn limits_are_as_written(rt: HostRuntime) -> Result<(), Fail> {
    let alloc = rt.alloc();
    let rows = [
        (4091, 1024, Ok(())),
        (4091, 1025, Err(Limit::Wide(1025))),
        (65536, 1028, Err(Limit::Wide(1028))),
        (65536, 1, Err(Limit::Weight(65537))),
        (65535, 1, Err(Limit::FunctionWeight(65536))),
        (4096, 1, Err(Limit::FunctionWeight(4097))),
        (4095, 1, Err(Limit::Slots(16400))),
        (4092, 1, Err(Limit::Slots(16388))),
    ];
    for (count, wide, want) in rows {
        assert_eq!(rt;
            weigh(&program(alloc, Items::new(alloc), count, wide)?),
            want
        );
    }
    Ok(())
}

#[test]
fn layouts_are_as_written(rt: HostRuntime) -> Result<(), Fail> {
    let alloc = rt.alloc();
    let p = program(alloc, worked_rows(alloc)?, 0, 1)?;
    let element = Boxed::new(alloc, Ty::Aggregate(4))?;
    let chan = Ty::Chan {
        element: Boxed::new(alloc, Ty::Integer(Kind::Int))?,
        capacity: 0,
    };
    let rows = [
        (Ty::Aggregate(0), "16 4 0+1 4+4 8+4 12+2"),
        (Ty::Aggregate(1), "8 4 0+4 4+4"),
        (Ty::Aggregate(2), "20 4 0+1 4+4 8+4 12+2 16+1"),
        (Ty::Aggregate(3), "1 1"),
        (Ty::Aggregate(4), "4 2 0+2 2+2"),
        (Ty::Array { element, count: 2 }, "8 2 0+2 2+2 4+2 6+2"),
        (
            Ty::Tuple(two(alloc, Ty::Integer(Kind::Byte), chan)?),
            "8 4 0+1 4+4",
        ),
        (Ty::Void, "0 1"),
    ];
    for (ty, want) in &rows {
        assert_eq!(rt; shown(alloc, &p, &ty.copy(alloc)?)?.as_str(), *want);
    }
    Ok(())
}
