//! What the case of an alt that went does with what it received.
ghost use Rattle.std.specs.Prelude.{◌≡◌, ◌++◌, OnOk};
ghost use Rattle.al_typed.specs.Layout.{IsLaidOut};
ghost use Rattle.al_typed.specs.Typed.{target_type};
ghost use Rattle.al_lower_code.specs.Expressions.{aimed};
ghost use Rattle.al_lower_code.specs.Heads as spec;
ghost use Rattle.al_lower_base.specs.Spots.{spot_of};

use al_base::NoMemory;
use al_lower_base::{Code, Spot, convert, slot_behind, stays, trims, units_of, words};
use al_lower_expr::target;
use al_lower_parts::save_target;
use al_typed::{TCommunication, TTarget, Ty};

/// The places of a target are found, and a value of its type, which stands from `from` on, goes there.
fn save_into(
    code: &mut Code,
    s: Spot<'_>,
    x: &TTarget,
    free: u32,
    from: u32,
) -> Result<(), NoMemory>
    requires { IsLaidOut s.program.now.aggregates }
    ensures { OnOk result (code.new ≡ code.old ++ ((aimed (spot_of s.entry) x.now).code free ++ (aimed (spot_of s.entry) x.now).save free from)) }
{
    target(code, s, x, free)?;
    save_target(code, s, x, free, from)
}

/// A value of a type that was received goes into a target, converted where it does not stay as it is.
fn receive_into(
    code: &mut Code,
    s: Spot<'_>,
    from: &Ty,
    x: &TTarget,
    got: u32,
    free: u32,
) -> Result<(), NoMemory>
    requires { IsLaidOut s.program.now.aggregates }
    ensures { OnOk result (code.new ≡ code.old ++ spec.received_code (spot_of s.entry) from.now (target_type x.now) (aimed (spot_of s.entry) x.now) got free) }
{
    let units = units_of(s, from)?;
    trims(code, s.line, got, &units)?;
    let into = x.ty();
    if stays(from, into) {
        return save_into(code, s, x, free, got);
    }
    convert(code, s, from, into, free, got)?;
    let behind = slot_behind(free, words(s, into)?)?;
    save_into(code, s, x, behind, free)
}

/// What the case that went does with what it received.
pub(crate) fn went(
    code: &mut Code,
    s: Spot<'_>,
    case: &TCommunication,
    got: u32,
    free: u32,
) -> Result<(), NoMemory>
    requires { IsLaidOut s.program.now.aggregates }
    ensures { OnOk result (code.new ≡ code.old ++ spec.went_code (spot_of s.entry) case.now got free) }
{
    match case {
        TCommunication::ReceiveInto { ty, target, .. } => {
            receive_into(code, s, ty, target, got, free)
        }
        TCommunication::Receive { .. } | TCommunication::Send { .. } => Ok(()),
    }
}
