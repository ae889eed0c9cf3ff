//! Casts, and what is done with channels.
ghost use Rattle.std.specs.Prelude.{◌≡◌, IfOk};
ghost use Rattle.al_rules.specs.Outcome.{Answers};
ghost use Rattle.al_operators.specs.Operators as spec;

use al_base::{Kind, NoMemory, Place};
use al_convert::element_of;
use al_items::Boxed;
use al_operands::{
    Operand, asked, beside, both, boxes, converted, is_nil, plain, rule_38_casts,
    rule_43_is_channel, rule_43_sends,
};
use al_rules::TypeStop;
use al_typed::{TExpr, Ty};
use std::alloc::Global;

/// What may be cast, where its type allows it: nil too.
#[tactic(auto, unfolding(crate::specs::Operators::castable))]
fn castable(x: Operand) -> Result<TExpr, TypeStop>
    ensures { Answers result (spec.castable x) }
{
    if is_nil(&x.written) {
        return Ok(x.value);
    }
    plain(x)
}

/// A value that may be cast to a type.
#[tactic(auto, unfolding(crate::specs::Operators::cast_value), using(al_rules::proofs::Permits::permitted))]
fn cast_value(at: Place, to: &Ty, x: Operand) -> Result<TExpr, TypeStop>
    ensures { Answers result (spec.cast_value at to.now x) }
{
    let holds = rule_38_casts(&x, to);
    let a = castable(x)?;
    asked(38, at, holds, a)
}

fn cast_node(alloc: Global, to: Ty, a: TExpr) -> Result<TExpr, NoMemory>
    ensures { IfOk result (λ t. t ≡ spec.cast_node to a) }
{
    let of = Boxed::new(alloc, a)?;
    Ok(TExpr::Cast { ty: to, of })
}

/// A cast to a type.
#[tactic(auto, unfolding(crate::specs::Operators::cast), using(al_rules::proofs::Permits::permitted))]
pub fn cast(alloc: Global, at: Place, to: Ty, x: Operand) -> Result<TExpr, TypeStop>
    ensures { Answers result (spec.cast at to x) }
{
    let a = cast_value(at, &to, x)?;
    Ok(cast_node(alloc, to, a)?)
}

/// The element of a channel's type.
fn carried(alloc: Global, t: &Ty) -> Result<Ty, NoMemory>
    ensures { IfOk result (λ e. e ≡ spec.carried t.now) }
{
    match element_of(t) {
        None => t.copy(alloc),
        Some(element) => element.copy(alloc),
    }
}

#[tactic(auto, unfolding(crate::specs::Operators::channel), using(al_rules::proofs::Permits::permitted))]
fn channel(at: Place, x: Operand) -> Result<TExpr, TypeStop>
    ensures { Answers result (spec.channel at x) }
{
    let a = plain(x)?;
    let holds = rule_43_is_channel(a.ty());
    asked(43, at, holds, a)
}

fn receive(alloc: Global, c: TExpr) -> Result<TExpr, NoMemory>
    ensures { IfOk result (λ t. t ≡ spec.receive c) }
{
    let ty = carried(alloc, c.ty());
    let chan = Boxed::new(alloc, c);
    let (ty, chan) = both(ty, chan)?;
    Ok(TExpr::Receive { ty, chan })
}

/// `<-` before a channel.
#[tactic(auto, unfolding(crate::specs::Operators::received), using(al_rules::proofs::Permits::permitted))]
pub fn received(alloc: Global, at: Place, x: Operand) -> Result<TExpr, TypeStop>
    ensures { Answers result (spec.received at x) }
{
    let c = channel(at, x)?;
    Ok(receive(alloc, c)?)
}

/// `?` before a channel: whether a receive could go at once.
#[tactic(auto, unfolding(crate::specs::Operators::can_receive), using(al_rules::proofs::Permits::permitted))]
pub fn can_receive(alloc: Global, at: Place, x: Operand) -> Result<TExpr, TypeStop>
    ensures { Answers result (spec.can_receive at x) }
{
    let c = channel(at, x)?;
    let chan = Boxed::new(alloc, c)?;
    let ty = Ty::Integer(Kind::Int);
    Ok(TExpr::CanReceive { ty, chan })
}

/// `?` behind a channel: whether a send could go at once.
#[tactic(auto, unfolding(crate::specs::Operators::can_send), using(al_rules::proofs::Permits::permitted))]
pub fn can_send(alloc: Global, at: Place, x: Operand) -> Result<TExpr, TypeStop>
    ensures { Answers result (spec.can_send at x) }
{
    let c = channel(at, x)?;
    let chan = Boxed::new(alloc, c)?;
    let ty = Ty::Integer(Kind::Int);
    Ok(TExpr::CanSend { ty, chan })
}

fn send_node(alloc: Global, c: TExpr, e: TExpr) -> Result<TExpr, NoMemory>
    ensures { IfOk result (λ t. t ≡ spec.send_node c e) }
{
    let (chan, value) = boxes(alloc, c, e)?;
    let ty = Ty::Void;
    Ok(TExpr::Send { ty, chan, value })
}

/// The sending of a value, as one of that type.
fn send_as(alloc: Global, element: Ty, c: TExpr, e: TExpr) -> Result<TExpr, NoMemory>
    ensures { IfOk result (λ t. t ≡ spec.send_as element c e) }
{
    let e = converted(alloc, &element, e);
    let (c, e) = beside(c, e)?;
    send_node(alloc, c, e)
}

/// The sending of a value through a channel, which takes it as its element.
fn send(alloc: Global, c: TExpr, e: TExpr) -> Result<TExpr, NoMemory>
    ensures { IfOk result (λ t. t ≡ spec.send c e) }
{
    let element = carried(alloc, c.ty());
    let (sides, element) = beside((c, e), element)?;
    let (c, e) = sides;
    send_as(alloc, element, c, e)
}

#[tactic(auto, unfolding(crate::specs::Operators::sent_through), using(al_operands::proofs::Asking::asking))]
fn sent_through(alloc: Global, at: Place, c: TExpr, y: Operand) -> Result<TExpr, TypeStop>
    ensures { Answers result (spec.sent_through at c y) }
{
    let holds = rule_43_sends(c.ty(), &y);
    let (c, e) = asked(43, at, holds, (c, y.value))?;
    Ok(send(alloc, c, e)?)
}

/// `<-=`
#[tactic(auto, unfolding(crate::specs::Operators::sent), using(al_rules::proofs::Permits::permitted))]
pub fn sent(alloc: Global, at: Place, x: Operand, y: Operand) -> Result<TExpr, TypeStop>
    ensures { Answers result (spec.sent at x y) }
{
    let c = plain(x);
    let (y, c) = beside(y, c)?;
    sent_through(alloc, at, c, y)
}
