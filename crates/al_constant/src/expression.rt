//! Constant expressions.
ghost use Rattle.std.specs.Prelude.{◌≡◌};
ghost use Rattle.al_typed.specs.Layout.{IsLaidOut};
ghost use Rattle.al_constant.specs.Constants as spec;

use crate::integer::{cast, decided, negated, operated, operated_once};
use al_convert::kind_of;
use al_typed::{Aggregate, TExpr, Ty, room_of};

/// The size of a type.
#[tactic(auto, unfolding(crate::specs::Constants::size_constant), using(crate::proofs::Sizes::kept_size, crate::proofs::Sizes::great_size))]
fn size_constant(aggregates: &[Aggregate], t: &Ty) -> Option<u64>
    requires { IsLaidOut aggregates.now }
    ensures { result ≡ spec.size_constant aggregates.now t.now }
{
    let size = room_of(aggregates, t).size;
    if size > 0x1000_0000 {
        return None;
    }
    Some(size)
}

/// The bits of the value of an expression in the kind of its type, where it is constant.
///
/// Integers, enum constants, casts between integers, sizeof, and operators on them are constant, where nothing divides by 0.
#[cycle(constants)]
#[tactic(auto, using(crate::proofs::ConstantsAre::constant_is))]
pub fn constant(aggregates: &[Aggregate], e: &TExpr) -> Option<u64>
    requires { IsLaidOut aggregates.now }
    ensures { result ≡ spec.constant aggregates.now e.now }
{
    match e {
        TExpr::Constant { bits, .. } => Some(*bits),
        TExpr::SizeofType { of, .. } => size_constant(aggregates, of),
        TExpr::SizeofPlace { place, .. } => size_constant(aggregates, place.get().ty()),
        TExpr::SizeofValue { value, .. } => size_constant(aggregates, value.get().ty()),
        TExpr::Unary { ty, op, of } => operated_once(
            *op,
            kind_of(ty),
            constant(aggregates, of.get())?,
        ),
        TExpr::Not { of, .. } => negated(constant(aggregates, of.get())?),
        TExpr::Binary {
            op,
            kind,
            left,
            right,
            ..
        } => {
            let a = constant(aggregates, left.get())?;
            let b = constant(aggregates, right.get())?;
            operated(*op, *kind, a, b)
        }
        TExpr::Logical {
            op,
            left,
            right,
            ..
        } => {
            let a = constant(aggregates, left.get())?;
            let b = constant(aggregates, right.get())?;
            decided(*op, a, b)
        }
        TExpr::Cast { ty, of } | TExpr::Convert { ty, of } => {
            let a = constant(aggregates, of.get())?;
            cast(of.get().ty(), ty, a)
        }
        TExpr::Text { .. }
        | TExpr::Nil { .. }
        | TExpr::Function { .. }
        | TExpr::Load { .. }
        | TExpr::Decay { .. }
        | TExpr::Address { .. }
        | TExpr::Move { .. }
        | TExpr::Difference { .. }
        | TExpr::Assign { .. }
        | TExpr::Update { .. }
        | TExpr::Step { .. }
        | TExpr::Zerox { .. }
        | TExpr::Tuple { .. }
        | TExpr::Call { .. }
        | TExpr::CallPointer { .. }
        | TExpr::Print { .. }
        | TExpr::Terminate { .. }
        | TExpr::Receive { .. }
        | TExpr::Send { .. }
        | TExpr::CanReceive { .. }
        | TExpr::CanSend { .. }
        | TExpr::MemberOf { .. }
        | TExpr::Sequence { .. }
        | TExpr::Iterator { .. } => None,
    }
}
