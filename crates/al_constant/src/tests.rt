use crate::constant;
use al_base::{Kind, NoMemory};
use al_items::Boxed;
use al_typed::{Aggregate, BinaryOp, TExpr, Ty};
use std::alloc::Global;
use std::test::Fail;

fn number(bits: u64) -> TExpr {
    TExpr::Constant {
        ty: Ty::Integer(Kind::Int),
        bits,
    }
}

/// `(byte)(left / right)`
fn quotient(alloc: Global, left: u64, right: u64) -> Result<TExpr, NoMemory> {
    let left = Boxed::new(alloc, number(left))?;
    let right = Boxed::new(alloc, number(right))?;
    let of = TExpr::Binary {
        ty: Ty::Integer(Kind::Int),
        op: BinaryOp::Divide,
        kind: Kind::Int,
        left,
        right,
    };
    let of = Boxed::new(alloc, of)?;
    Ok(TExpr::Cast {
        ty: Ty::Integer(Kind::Byte),
        of,
    })
}

#[test]
fn quotients_are_constant(rt: HostRuntime) -> Result<(), Fail> {
    let alloc = rt.alloc();
    let none: [Aggregate; 0] = [];
    let whole = quotient(alloc, 901, 3)?;
    assert_eq!(rt; constant(none.as_slice(), &whole), Some(44));
    let endless = quotient(alloc, 901, 0)?;
    assert_eq!(rt; constant(none.as_slice(), &endless), None);
    Ok(())
}
