//! What a value starts a part of a global with.
ghost use Rattle.std.specs.Prelude.{◌≡◌, ◌<◌, ◌^◌, Some, option_map, IfOk, IfSome};
ghost use Rattle.al_base.specs.Arith.{width_of};
ghost use Rattle.al_rules.specs.Outcome.{Answers};
ghost use Rattle.al_typed.specs.Layout.{IsLaidOut};
ghost use Rattle.al_constant.specs.Constants as constants;
ghost use Rattle.al_operands.specs.Rules.{is_text as is_text_type};
ghost use Rattle.al_initial.specs.Start as spec;
ghost use Rattle.al_initial.specs.declared.start.Start.TheVariants as variant;

use al_base::{Kind, NoMemory, Place, convert};
use al_constant::constant;
use al_convert::{Literal, is_of_kind, kind_of, pointed};
use al_items::Items;
use al_operands::{Operand, rule_33_converts};
use al_rules::{TypeStop, broken};
use al_typed::{Aggregate, StartValue, StartWord, TExpr, Ty};
use std::alloc::Global;

/// What a part of a global starts with: an integer, a pointer or a channel.
#[derive(Clone, Copy)]
pub(crate) enum Start {
    /// One unit of so many bytes.
    One { size: u8, word: StartWord },
    /// The words of an integer of 8 bytes.
    Two { low: u32, high: u32 },
}

/// The bits of an integer of one kind in another.
fn cast_between(from: Option<Kind>, to: Kind, bits: u64) -> Option<u64>
    ensures value { result ≡ constants.cast_between from (Some to) bits }
    ensures fits { IfSome result (λ n. n < 2 ^ width_of to) }
{
    match from {
        None => None,
        Some(from) => Some(convert(from, to, bits)),
    }
}

/// The bits of an integer in a kind, where it is constant as a case is.
#[tactic(auto, unfolding(crate::specs::Start::integer_bits))]
fn integer_bits(aggregates: &[Aggregate], kind: Kind, e: &TExpr) -> Option<u64>
    requires { IsLaidOut aggregates.now }
    ensures value { result ≡ spec.integer_bits aggregates.now kind e.now }
    ensures fits { IfSome result (λ n. n < 2 ^ width_of kind) }
{
    match constant(aggregates, e) {
        None => None,
        Some(bits) => cast_between(kind_of(e.ty()), kind, bits),
    }
}

/// The units of an integer.
fn integer_start(kind: Kind, bits: u64) -> Start
    requires { bits < 2 ^ width_of kind }
    ensures { result ≡ spec.integer_start kind bits }
{
    match kind {
        Kind::Byte => Start::One {
            size: 1,
            word: StartWord::Number(bits as u32),
        },
        Kind::Sint | Kind::Usint => Start::One {
            size: 2,
            word: StartWord::Number(bits as u32),
        },
        Kind::Int | Kind::Uint => Start::One {
            size: 4,
            word: StartWord::Number(bits as u32),
        },
        Kind::Lint | Kind::Ulint => Start::Two {
            low: (bits % 0x1_0000_0000) as u32,
            high: (bits / 0x1_0000_0000) as u32,
        },
    }
}

/// What a constant integer starts a part of a kind with.
fn integer(aggregates: &[Aggregate], kind: Kind, e: &TExpr) -> Option<Start>
    requires { IsLaidOut aggregates.now }
    ensures { result ≡ option_map (spec.integer_start kind) (spec.integer_bits aggregates.now kind e.now) }
{
    match integer_bits(aggregates, kind, e) {
        None => None,
        Some(bits) => Some(integer_start(kind, bits)),
    }
}

/// Whether a value is written as nil or the constant 0.
#[tactic(auto, unfolding(crate::specs::Start::is_null))]
fn is_null(written: &Literal) -> bool
    ensures { result ≡ spec.is_null written.now }
{
    match written {
        Literal::Nil { at: _ } | Literal::Zero => true,
        Literal::Tuple(_) | Literal::Other => false,
    }
}

/// The number of the block of a string constant.
#[tactic(auto, unfolding(crate::specs::Start::text_of))]
fn text_of(e: &TExpr) -> Option<u32>
    ensures { result ≡ spec.text_of e.now }
{
    match e {
        TExpr::Text { ty: _, number } => Some(*number),
        _ => None,
    }
}

/// Whether a type is `byte*`.
fn is_text(t: &Ty) -> bool
    ensures { result ≡ is_text_type t.now }
{
    match pointed(t) {
        None => false,
        Some(to) => is_of_kind(Kind::Byte, to),
    }
}

fn text_word(is_text: bool, e: &TExpr) -> Option<StartWord>
    ensures { result ≡ spec.text_word is_text e.now }
{
    if !is_text {
        return None;
    }
    match text_of(e) {
        None => None,
        Some(number) => Some(StartWord::Text(number)),
    }
}

/// What nil, or a string for a `byte*`, starts a part with.
#[tactic(auto, unfolding(crate::specs::Start::word_of))]
fn word_of(t: &Ty, x: &Operand) -> Option<StartWord>
    ensures { result ≡ spec.word_of t.now x.now }
{
    if is_null(&x.written) {
        return Some(StartWord::Number(0));
    }
    text_word(is_text(t), &x.value)
}

fn word(t: &Ty, x: &Operand) -> Option<Start>
    ensures { result ≡ option_map (variant.One 4) (spec.word_of t.now x.now) }
{
    match word_of(t, x) {
        None => None,
        Some(word) => Some(Start::One { size: 4, word }),
    }
}

/// What a value that converts to a type starts a part of that type with, where it is constant.
#[tactic(auto, unfolding(crate::specs::Start::start_of))]
fn start_of(aggregates: &[Aggregate], t: &Ty, x: &Operand) -> Option<Start>
    requires { IsLaidOut aggregates.now }
    ensures { result ≡ spec.start_of aggregates.now t.now x.now }
{
    match kind_of(t) {
        None => word(t, x),
        Some(kind) => integer(aggregates, kind, &x.value),
    }
}

#[tactic(auto, using(al_operands::proofs::Asking::asking))]
fn constant_start(at: Place, start: Option<Start>) -> Result<Start, TypeStop>
    ensures { Answers result (spec.constant_start at start) }
{
    match start {
        None => Err(broken(21, at)),
        Some(start) => Ok(start),
    }
}

/// What a value starts a part of a type with.
#[tactic(auto, unfolding(crate::specs::Start::started), using(al_operands::proofs::Asking::asking))]
pub(crate) fn started(
    aggregates: &[Aggregate],
    at: Place,
    t: &Ty,
    x: &Operand,
) -> Result<Start, TypeStop>
    requires { IsLaidOut aggregates.now }
    ensures { Answers result (spec.started aggregates.now at t.now x.now) }
{
    if !rule_33_converts(x, t) {
        return Err(broken(33, at));
    }
    constant_start(at, start_of(aggregates, t, x))
}

/// The units of a part that stands at `at`.
fn values_at(alloc: Global, at: u32, start: Start) -> Result<Items<StartValue>, NoMemory>
    requires { at < 2 ^ 31 }
    ensures { IfOk result (λ values. values ≡ spec.values_at at start) }
{
    let mut values = Items::new(alloc);
    match start {
        Start::One { size, word } => values.push(StartValue { at, size, word })?,
        Start::Two { low, high } => {
            let size = 4;
            let word = StartWord::Number(low);
            values.push(StartValue { at, size, word })?;
            let at = at + 4;
            let word = StartWord::Number(high);
            values.push(StartValue { at, size, word })?;
        }
    }
    Ok(values)
}

/// The units of a part that stands so many bytes from the front of its global.
#[tactic(auto, unfolding(crate::specs::Start::placed), using(crate::proofs::RulesAre::stands, al_operands::proofs::Asking::asking))]
pub(crate) fn placed(
    alloc: Global,
    at: Place,
    offset: u64,
    start: Start,
) -> Result<Items<StartValue>, TypeStop>
    ensures { Answers result (spec.placed at offset start) }
{
    if offset > 0x1000_0000 {
        return Err(broken(18, at));
    }
    Ok(values_at(alloc, offset as u32, start)?)
}
