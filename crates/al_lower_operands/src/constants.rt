//! Expressions that are made as constants, those with a value that is known, and those that are 0 or 1.
ghost use Rattle.std.specs.Prelude.{◌≡◌, IfOk};
ghost use Rattle.al_typed.specs.Layout.{IsLaidOut};
ghost use Rattle.al_meaning.specs.Places as places;
ghost use Rattle.al_typed.specs.Typed.{type_of};
ghost use Rattle.al_lower_code.specs.Values.{unary_coded, converted_coded};
ghost use Rattle.al_lower_code.specs.Expressions as spec;
ghost use Rattle.al_lower_base.specs.Spots.{spot_of};
ghost use Rattle.al_lower_operands.specs.Folded as folding;

use al_base::NoMemory;
use al_constant::constant;
use al_lower_base::{Spot, bytes, compares, some, stays};
use al_typed::{TExpr, Ty, UnaryOp};
use al_variables::{text_place, word_of};

/// The address of a string constant.
fn text_of(s: Spot<'_>, number: u32) -> Result<u32, NoMemory>
    requires { IsLaidOut s.program.now.aggregates }
    ensures { IfOk result (λ at. at ≡ places.text_place s.entry.program.now number) }
{
    some(word_of(text_place(s.program, number)))
}

/// The bits of an expression that is made as a constant.
#[tactic(auto, using(crate::proofs::Folding::folded_are))]
pub fn folded(s: Spot<'_>, e: &TExpr) -> Result<Option<u64>, NoMemory>
    requires { IsLaidOut s.program.now.aggregates }
    ensures { IfOk result (λ bits. bits ≡ folding.folded_bits (spot_of s.entry) e.now) }
{
    match e {
        TExpr::Constant { bits, .. } => Ok(Some(*bits)),
        TExpr::Text { number, .. } => Ok(Some(text_of(s, *number)? as u64)),
        TExpr::Nil { .. } => Ok(Some(0)),
        TExpr::Function { number, .. } => Ok(Some(0x0800_0000 + 4 * (*number as u64))),
        TExpr::SizeofType { of, .. } => Ok(Some(bytes(s, of)? as u64)),
        TExpr::SizeofPlace { place, .. } => Ok(Some(bytes(s, place.get().ty())? as u64)),
        TExpr::SizeofValue { value, .. } => Ok(Some(bytes(s, value.get().ty())? as u64)),
        TExpr::Unary { .. }
        | TExpr::Not { .. }
        | TExpr::Binary { .. }
        | TExpr::Logical { .. }
        | TExpr::Cast { .. }
        | TExpr::Convert { .. } => Ok(constant(s.program.aggregates.as_slice(), e)),
        _ => Ok(None),
    }
}

/// The bits of an operator's value that is no constant.
#[cycle(known)]
#[tactic(auto, using(crate::proofs::Plain::complement_rules))]
fn unary_known(s: Spot<'_>, ty: &Ty, op: UnaryOp, of: &TExpr) -> Result<Option<u64>, NoMemory>
    requires { IsLaidOut s.program.now.aggregates }
    ensures { IfOk result (λ bits. bits ≡ (unary_coded (spot_of s.entry) ty.now op (spec.coded (spot_of s.entry) of.now)).known) }
{
    match op {
        UnaryOp::Plus => known(s, of),
        UnaryOp::Minus | UnaryOp::Complement => Ok(None),
    }
}

/// The bits of a value of another type.
#[cycle(known)]
#[tactic(auto, using(crate::proofs::Plain::conversion_rules))]
fn converted_known(s: Spot<'_>, into: &Ty, of: &TExpr) -> Result<Option<u64>, NoMemory>
    requires { IsLaidOut s.program.now.aggregates }
    ensures { IfOk result (λ bits. bits ≡ (converted_coded (spot_of s.entry) (type_of of.now) into.now (spec.coded (spot_of s.entry) of.now)).known) }
{
    if stays(of.ty(), into) {
        known(s, of)
    } else {
        Ok(None)
    }
}

/// The bits of an expression whose value needs no operation but a constant.
#[cycle(known)]
#[tactic(auto, using(crate::proofs::Fields::known_are))]
pub fn known(s: Spot<'_>, e: &TExpr) -> Result<Option<u64>, NoMemory>
    requires { IsLaidOut s.program.now.aggregates }
    ensures { IfOk result (λ bits. bits ≡ (spec.coded (spot_of s.entry) e.now).known) }
{
    match folded(s, e)? {
        Some(bits) => Ok(Some(bits)),
        None => match e {
            TExpr::Unary { ty, op, of } => unary_known(s, ty, *op, of.get()),
            TExpr::Cast { ty, of } | TExpr::Convert { ty, of } => converted_known(s, ty, of.get()),
            _ => Ok(None),
        },
    }
}

/// Whether an operator's value is 0 or 1.
#[cycle(truths)]
#[tactic(auto, using(crate::proofs::Plain::complement_rules))]
fn unary_is_truth(s: Spot<'_>, ty: &Ty, op: UnaryOp, of: &TExpr) -> Result<bool, NoMemory>
    requires { IsLaidOut s.program.now.aggregates }
    ensures { IfOk result (λ is. is ≡ (unary_coded (spot_of s.entry) ty.now op (spec.coded (spot_of s.entry) of.now)).is_truth) }
{
    match op {
        UnaryOp::Plus => is_truth(s, of),
        UnaryOp::Minus | UnaryOp::Complement => Ok(false),
    }
}

/// Whether a value of another type is 0 or 1.
#[cycle(truths)]
#[tactic(auto, using(crate::proofs::Plain::conversion_rules))]
fn converted_is_truth(s: Spot<'_>, into: &Ty, of: &TExpr) -> Result<bool, NoMemory>
    requires { IsLaidOut s.program.now.aggregates }
    ensures { IfOk result (λ is. is ≡ (converted_coded (spot_of s.entry) (type_of of.now) into.now (spec.coded (spot_of s.entry) of.now)).is_truth) }
{
    if stays(of.ty(), into) {
        is_truth(s, of)
    } else {
        Ok(false)
    }
}

/// Whether an expression that has to be evaluated gives 0 or 1.
#[cycle(truths)]
#[tactic(auto, using(crate::proofs::Fields::truths_are))]
pub fn is_truth(s: Spot<'_>, e: &TExpr) -> Result<bool, NoMemory>
    requires { IsLaidOut s.program.now.aggregates }
    ensures { IfOk result (λ is. is ≡ (spec.coded (spot_of s.entry) e.now).is_truth) }
{
    match folded(s, e)? {
        Some(_) => Ok(false),
        None => match e {
            TExpr::Not { .. }
            | TExpr::Logical { .. }
            | TExpr::CanReceive { .. }
            | TExpr::CanSend { .. } => Ok(true),
            TExpr::Binary { op, .. } => Ok(compares(*op)),
            TExpr::Unary { ty, op, of } => unary_is_truth(s, ty, *op, of.get()),
            TExpr::Cast { ty, of } | TExpr::Convert { ty, of } => {
                converted_is_truth(s, ty, of.get())
            }
            _ => Ok(false),
        },
    }
}
