//! Cases of a switch and of an alt.
ghost use Rattle.std.specs.Prelude.{◌≡◌, ◌++◌, Some, OnOk};
ghost use Rattle.al_rules.specs.Outcome.{Answers};
ghost use Rattle.al_typed.specs.Layout.{IsLaidOut};
ghost use Rattle.al_constant.specs.Constants as constants;
ghost use Rattle.al_statements.specs.Cases as spec;

use crate::form::Form;
use crate::label::Label;
use crate::rules::rule_53_has_cases;
use crate::values::Values;
use al_base::{Kind, NoMemory, Place, convert};
use al_constant::constant;
use al_convert::kind_of;
use al_items::Items;
use al_operands::{Operand, plain, present};
use al_rules::{TypeFault, TypeStop, ask};
use al_typed::{Aggregate, TCommunication, TExpr, TStmt, TTarget, Ty};
use std::alloc::Global;

/// The bits of an integer of one kind in another.
fn cast_between(from: Option<Kind>, to: Kind, bits: u64) -> Option<u64>
    ensures { result ≡ constants.cast_between from (Some to) bits }
{
    match from {
        None => None,
        Some(from) => Some(convert(from, to, bits)),
    }
}

/// The value of a case in the kind of the switch, where it is constant.
#[tactic(auto, unfolding(crate::specs::Cases::case_bits))]
fn case_bits(aggregates: &[Aggregate], kind: Kind, e: &TExpr) -> Option<u64>
    requires { IsLaidOut aggregates.now }
    ensures { result ≡ spec.case_bits aggregates.now kind e.now }
{
    match constant(aggregates, e) {
        None => None,
        Some(bits) => cast_between(kind_of(e.ty()), kind, bits),
    }
}

#[tactic(auto, using(al_operands::proofs::Asking::asking))]
fn labelled(at: Place, label: TExpr, bits: Option<u64>) -> Result<TStmt, TypeStop>
    ensures { Answers result (spec.labelled at label bits) }
{
    let (bits, label) = present(22, at, bits, label)?;
    Ok(TStmt::Case { label, bits })
}

/// `case value:` in a switch of that kind.
#[tactic(auto, unfolding(crate::specs::Cases::case_label), using(al_rules::proofs::Permits::permitted))]
pub fn case_label(
    aggregates: &[Aggregate],
    kind: Kind,
    at: Place,
    x: Operand,
) -> Result<TStmt, TypeStop>
    requires { IsLaidOut aggregates.now }
    ensures { Answers result (spec.case_label aggregates.now kind at x) }
{
    let label = plain(x)?;
    let bits = case_bits(aggregates, kind, &label);
    labelled(at, label, bits)
}

/// The labels of a switch that were met.
#[derive(Drop)]
pub struct Cases {
    /// The values of cases.
    pub values: Values,
    pub has_default: bool,
}

/// No label was met.
pub fn no_cases(alloc: Global) -> Cases
    ensures { result ≡ spec.no_cases }
{
    Cases {
        values: Values::new(alloc),
        has_default: false,
    }
}

/// One more label, at a place. Rule 52 is asked of it.
#[tactic(auto, unfolding(crate::specs::Cases::with_label, crate::specs::Cases::label_fault, crate::specs::Rules::rule_52_is_new, crate::specs::Rules::rule_52_is_first))]
pub fn add_label(
    met: &mut Cases,
    faults: &mut Items<TypeFault>,
    at: Place,
    label: Label,
) -> Result<(), NoMemory>
    ensures cases { OnOk result (met.new ≡ spec.with_label met.old label) }
    ensures faults { OnOk result (faults.new ≡ faults.old ++ spec.label_fault met.old at label) }
{
    match label {
        Label::Case(bits) => {
            ask(faults, 52, at, !met.values.contains(bits))?;
            met.values.push(bits)
        }
        Label::Default => {
            ask(faults, 52, at, !met.has_default)?;
            met.has_default = true;
            Ok(())
        }
    }
}

/// One of two. The other is let go.
fn kept<T: Drop, U>(_other: T, kept: U) -> U
    ensures { result ≡ kept }
{
    kept
}

#[tactic(auto, using(crate::proofs::FormsAre::form_is))]
fn form_of(e: TExpr) -> Form
    ensures { result ≡ spec.form_of e }
{
    match e {
        TExpr::Receive { ty, chan } => Form::Receive(ty, chan.into_inner()),
        TExpr::Convert { ty, of } => kept(ty, Form::Convert(of.into_inner())),
        TExpr::Assign { ty, target, value } => {
            kept(ty, Form::Assign(target.into_inner(), value.into_inner()))
        }
        TExpr::Send { ty, chan, value } => {
            kept(ty, Form::Send(chan.into_inner(), value.into_inner()))
        }
        other => kept(other, Form::Other),
    }
}

/// `<-c`
fn received(f: Form) -> Option<(Ty, TExpr)>
    ensures { result ≡ spec.received f }
{
    match f {
        Form::Receive(ty, chan) => Some((ty, chan)),
        other => kept(other, None),
    }
}

/// `<-c`, which may be converted for its target.
fn received_for(f: Form) -> Option<(Ty, TExpr)>
    ensures { result ≡ spec.received_for f }
{
    match f {
        Form::Receive(ty, chan) => Some((ty, chan)),
        Form::Convert(of) => received(form_of(of)),
        other => kept(other, None),
    }
}

fn into(target: TTarget, value: Option<(Ty, TExpr)>) -> Option<TCommunication>
    ensures { result ≡ spec.into target value }
{
    match value {
        None => kept(target, None),
        Some((ty, chan)) => Some(TCommunication::ReceiveInto { ty, target, chan }),
    }
}

/// The communication that an expression is.
fn communication_of(f: Form) -> Option<TCommunication>
    ensures { result ≡ spec.communication_of f }
{
    match f {
        Form::Receive(ty, chan) => Some(TCommunication::Receive { ty, chan }),
        Form::Assign(target, value) => into(target, received_for(form_of(value))),
        Form::Send(chan, value) => Some(TCommunication::Send { chan, value }),
        other => kept(other, None),
    }
}

#[tactic(auto, using(al_operands::proofs::Asking::asking))]
fn communicating(at: Place, found: Option<TCommunication>) -> Result<TStmt, TypeStop>
    ensures { Answers result (spec.communicating at found) }
{
    let (communication, ()) = present(53, at, found, ())?;
    Ok(TStmt::AltCase { communication })
}

/// `case value:` in an alt.
#[tactic(auto, unfolding(crate::specs::Cases::alt_case))]
pub fn alt_case(at: Place, e: TExpr) -> Result<TStmt, TypeStop>
    ensures { Answers result (spec.alt_case at e) }
{
    communicating(at, communication_of(form_of(e)))
}

/// Asks rule 53 of an alt with so many cases.
#[tactic(auto, unfolding(crate::specs::Cases::case_faults))]
pub fn ask_cases(faults: &mut Items<TypeFault>, at: Place, count: usize) -> Result<(), NoMemory>
    ensures { OnOk result (faults.new ≡ faults.old ++ spec.case_faults at count) }
{
    ask(faults, 53, at, rule_53_has_cases(count))
}
