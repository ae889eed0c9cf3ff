//! Conversions as nodes, and the kinds of arithmetic.
ghost use Rattle.std.specs.Prelude.{◌≡◌, IfOk};
ghost use Rattle.al_operands.specs.Operands as spec;

use crate::held::beside;
use al_base::{Kind, NoMemory};
use al_convert::{common, kind_of, promoted, same};
use al_items::Boxed;
use al_typed::{TExpr, Ty};
use std::alloc::Global;

fn conversion(alloc: Global, ty: Ty, e: TExpr) -> Result<TExpr, NoMemory>
    ensures { IfOk result (λ t. t ≡ spec.conversion ty e) }
{
    let of = Boxed::new(alloc, e)?;
    Ok(TExpr::Convert { ty, of })
}

/// A value as one of a type. It is converted by a node, unless it has the type, capacities of channels counted.
#[tactic(auto, unfolding(crate::specs::Operands::converted))]
pub fn converted(alloc: Global, to: &Ty, e: TExpr) -> Result<TExpr, NoMemory>
    ensures { IfOk result (λ t. t ≡ spec.converted to.now e) }
{
    if same(true, e.ty(), to) {
        return Ok(e);
    }
    let (e, ty) = beside(e, to.copy(alloc))?;
    conversion(alloc, ty, e)
}

/// A value as an integer of that kind.
#[tactic(auto, unfolding(crate::specs::Operands::in_kind))]
pub fn in_kind(alloc: Global, kind: Kind, e: TExpr) -> Result<TExpr, NoMemory>
    ensures { IfOk result (λ t. t ≡ spec.in_kind kind e) }
{
    let ty = Ty::Integer(kind);
    converted(alloc, &ty, e)
}

/// The kind of an integer type, and int for another.
fn number_kind(t: &Ty) -> Kind
    ensures { result ≡ spec.number_kind t.now }
{
    kind_of(t).unwrap_or(Kind::Int)
}

/// The kind of arithmetic on one integer.
pub fn promoted_kind(t: &Ty) -> Kind
    ensures { result ≡ spec.promoted_kind t.now }
{
    promoted(number_kind(t))
}

/// The kind of arithmetic on two integers.
pub fn arithmetic_kind(a: &Ty, b: &Ty) -> Kind
    ensures { result ≡ spec.arithmetic_kind a.now b.now }
{
    common(number_kind(a), number_kind(b))
}
