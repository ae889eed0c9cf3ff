//! `void main() { int a; int b; int c; &a; c; par { b; } }` with each statement in a line of its own.
use crate::shared;
use al_base::{NoMemory, Place};
use al_items::{Boxed, Items};
use al_scope::resolve;
use al_tree::{BasicType, Dcl, Expr, Head, Item, Name, Stmt, Tree, TypeTree, UnaryOp, Variable};
use std::alloc::Global;
use std::test::Fail;

const A: u32 = 1;

const B: u32 = 2;

const C: u32 = 3;

fn at(line: u32, col: u32) -> Place {
    Place { line, col }
}

fn local(alloc: Global, line: u32, name: u32) -> Result<Stmt, NoMemory> {
    let dcl = Dcl {
        at: at(line, 1),
        stars: 0,
        name: Name {
            at: at(line, 2),
            name,
        },
        bounds: Items::new(alloc),
    };
    let mut variables = Items::new(alloc);
    variables.push(Variable { dcl, value: None })?;
    Ok(Stmt::Declare {
        at: at(line, 1),
        base: TypeTree::Basic {
            at: at(line, 1),
            basic: BasicType::Int,
        },
        variables,
    })
}

fn name(line: u32, name: u32) -> Expr {
    Expr::Name {
        at: at(line, 2),
        name,
    }
}

fn used(line: u32, of: u32) -> Stmt {
    Stmt::Value {
        at: at(line, 1),
        value: name(line, of),
    }
}

fn addressed(alloc: Global, line: u32, of: u32) -> Result<Stmt, NoMemory> {
    let operand = Boxed::new(alloc, name(line, of))?;
    Ok(Stmt::Value {
        at: at(line, 1),
        value: Expr::Unary {
            at: at(line, 1),
            op: UnaryOp::Address,
            operand,
        },
    })
}

fn body(alloc: Global) -> Result<Stmt, NoMemory> {
    let mut branches = Items::new(alloc);
    branches.push(used(8, B))?;
    let mut list = Items::new(alloc);
    list.push(local(alloc, 2, A)?)?;
    list.push(local(alloc, 3, B)?)?;
    list.push(local(alloc, 4, C)?)?;
    list.push(addressed(alloc, 5, A)?)?;
    list.push(used(6, C))?;
    list.push(Stmt::Par {
        at: at(7, 1),
        branches,
    })?;
    Ok(Stmt::Block {
        at: at(1, 9),
        body: list,
    })
}

fn text(alloc: Global) -> Result<Tree, NoMemory> {
    let head = Head {
        at: at(1, 2),
        stars: 0,
        owner: None,
        name: Name {
            at: at(1, 2),
            name: 0,
        },
        parameters: Items::new(alloc),
    };
    let mut items = Items::new(alloc);
    items.push(Item::Function {
        at: at(1, 1),
        scope: None,
        base: TypeTree::Basic {
            at: at(1, 1),
            basic: BasicType::Void,
        },
        head,
        body: body(alloc)?,
    })?;
    let mut names = Items::new(alloc);
    for bytes in [
        b"main".as_slice(),
        b"a".as_slice(),
        b"b".as_slice(),
        b"c".as_slice(),
    ] {
        names.push(Items::from_slice(alloc, bytes)?)?;
    }
    Ok(Tree { items, names })
}

#[test]
fn locals_are_shared_by_their_addresses_and_by_branches(rt: HostRuntime) -> Result<(), Fail> {
    let alloc = rt.alloc();
    match resolve(alloc, &text(alloc)?) {
        Err(_) => assert!(rt; false),
        Ok(scopes) => {
            let marks = shared(alloc, &scopes.names, 0, 3, &body(alloc)?)?;
            assert_eq!(rt; marks.as_slice(), [true, true, false].as_slice());
        }
    }
    Ok(())
}
