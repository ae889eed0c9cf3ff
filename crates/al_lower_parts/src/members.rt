//! Members of values, and what paths lead to.
ghost use Rattle.std.specs.Prelude.{◌≡◌, ◌++◌, IfOk, OnOk};
ghost use Rattle.al_typed.specs.Layout as layouts;
ghost use Rattle.al_typed.specs.Typed.{type_of, place_type};
ghost use Rattle.al_typed.specs.Layout.{IsLaidOut};
ghost use Rattle.al_meaning.specs.Here as here;
ghost use Rattle.al_meaning.specs.Words as spec;
ghost use Rattle.al_lower_code.specs.Homes as homes;
ghost use Rattle.al_lower_code.specs.Moving as moving;
ghost use Rattle.al_lower_code.specs.Expressions.{coded, received_object};
ghost use Rattle.al_lower_code.specs.Actions as acts;
ghost use Rattle.al_lower_operands.specs.Rows as rows;
ghost use Rattle.al_lower_parts.specs.Parts as parts;
ghost use Rattle.al_lower_base.specs.Spots.{spot_of};

use al_base::NoMemory;
use al_control_values::member_at;
use al_items::{Boxed, Items};
use al_lower_base::{Code, Spot, extracts, some, units_of, words};
use al_typed::{Passed, TExpr, TPlace, TReceiver, Ty, Unit};
use al_variables::word_of;

/// How many words the member of a type that a path leads to takes; none where it leads to none.
pub fn member_words(s: Spot<'_>, ty: &Ty, path: &[u32]) -> Result<u32, NoMemory>
    requires { IsLaidOut s.program.now.aggregates }
    ensures { IfOk result (λ n. n ≡ homes.words (spot_of s.entry) (here.member_type s.entry.program.now ty.now path.now)) }
{
    match member_at(s.program.aggregates.as_slice(), ty, path) {
        None => words(s, &Ty::Void),
        Some(reached) => words(s, reached.ty),
    }
}

/// The same of a type in a box.
fn boxed_words(s: Spot<'_>, ty: &Boxed<Ty>, path: &[u32]) -> Result<u32, NoMemory>
    requires { IsLaidOut s.program.now.aggregates }
    ensures { IfOk result (λ n. n ≡ homes.words (spot_of s.entry) (here.member_type s.entry.program.now ty.now path.now)) }
{
    member_words(s, ty.get(), path)
}

/// The same behind a pointer.
#[tactic(auto, unfolding(al_meaning::specs::Here::pointee))]
pub fn pointed_words(s: Spot<'_>, ty: &Ty, path: &[u32]) -> Result<u32, NoMemory>
    requires { IsLaidOut s.program.now.aggregates }
    ensures { IfOk result (λ n. n ≡ homes.words (spot_of s.entry) (here.member_type s.entry.program.now (here.pointee ty.now) path.now)) }
{
    match ty {
        Ty::Pointer(to) => boxed_words(s, to, path),
        Ty::Void
        | Ty::Integer(_)
        | Ty::Array { .. }
        | Ty::Chan { .. }
        | Ty::Tuple(_)
        | Ty::Aggregate(_)
        | Ty::Function { .. } => member_words(s, &Ty::Void, path),
    }
}

/// Units so many bytes further on.
fn moved(s: Spot<'_>, by: u32, units: &[Unit]) -> Result<Vec<Unit>, NoMemory>
    ensures { IfOk result (λ us. us.items ≡ layouts.moved by units.now) }
{
    let mut further = Vec::with_capacity(s.alloc, units.len())?;
    for unit in units {
        let at = some(by.checked_add(unit.at))?;
        further.push(Unit {
            at,
            size: unit.size,
        })?;
    }
    Ok(further)
}

/// The units of the member that a path leads to, as they stand in the whole.
fn member_units(s: Spot<'_>, ty: &Ty, path: &[u32]) -> Result<Vec<Unit>, NoMemory>
    requires { IsLaidOut s.program.now.aggregates }
    ensures { IfOk result (λ us. us.items ≡ spec.member_units s.entry.program.now.aggregates (layouts.member s.entry.program.now.aggregates path.now ty.now)) }
{
    match member_at(s.program.aggregates.as_slice(), ty, path) {
        None => Ok(Vec::new(s.alloc)),
        Some(reached) => {
            let units = units_of(s, reached.ty)?;
            moved(s, some(word_of(reached.at))?, &units)
        }
    }
}

/// The words of a member of a value, which stands from `from` on.
pub fn take_member(
    code: &mut Code,
    s: Spot<'_>,
    ty: &Ty,
    path: &[u32],
    to: u32,
    from: u32,
) -> Result<(), NoMemory>
    requires { IsLaidOut s.program.now.aggregates }
    ensures { OnOk result (code.new ≡ code.old ++ moving.extracts s.entry.line to from (homes.units (spot_of s.entry) ty.now) (spec.member_units s.entry.program.now.aggregates (layouts.member s.entry.program.now.aggregates path.now ty.now))) }
{
    let whole = units_of(s, ty)?;
    let part = member_units(s, ty, path)?;
    extracts(code, s.line, to, from, &whole, &part)
}

/// How many words of an object are passed that has so many.
fn passed_words(how: Passed, words: u32) -> u32
    ensures { result ≡ parts.passed_words how words }
{
    match how {
        Passed::Address => 1,
        Passed::Value => words,
        Passed::Nothing => 0,
    }
}

/// How many words the member of a place takes.
fn place_member_words(s: Spot<'_>, x: &Boxed<TPlace>, path: &Items<u32>) -> Result<u32, NoMemory>
    requires { IsLaidOut s.program.now.aggregates }
    ensures { IfOk result (λ n. n ≡ homes.words (spot_of s.entry) (here.member_type s.entry.program.now (place_type x.now) path.now)) }
{
    member_words(s, x.get().ty(), path.as_slice())
}

/// How many words the member of a value takes.
fn value_member_words(s: Spot<'_>, e: &Boxed<TExpr>, path: &Items<u32>) -> Result<u32, NoMemory>
    requires { IsLaidOut s.program.now.aggregates }
    ensures { IfOk result (λ n. n ≡ homes.words (spot_of s.entry) (here.member_type s.entry.program.now (type_of e.now) path.now)) }
{
    member_words(s, e.get().ty(), path.as_slice())
}

/// How many words the member behind a pointer takes.
fn pointed_member_words(s: Spot<'_>, e: &Boxed<TExpr>, path: &Items<u32>) -> Result<u32, NoMemory>
    requires { IsLaidOut s.program.now.aggregates }
    ensures { IfOk result (λ n. n ≡ homes.words (spot_of s.entry) (here.member_type s.entry.program.now (here.pointee (type_of e.now)) path.now)) }
{
    pointed_words(s, e.get().ty(), path.as_slice())
}

/// What an object at a place gives.
fn place_object_words(
    s: Spot<'_>,
    x: &Boxed<TPlace>,
    path: &Items<u32>,
    how: Passed,
) -> Result<u32, NoMemory>
    requires { IsLaidOut s.program.now.aggregates }
    ensures { IfOk result (λ n. n ≡ parts.passed_words how (homes.words (spot_of s.entry) (here.member_type s.entry.program.now (place_type x.now) path.now))) }
{
    let n = place_member_words(s, x, path)?;
    Ok(passed_words(how, n))
}

/// What an object behind a pointer gives.
fn pointed_object_words(
    s: Spot<'_>,
    e: &Boxed<TExpr>,
    path: &Items<u32>,
    how: Passed,
) -> Result<u32, NoMemory>
    requires { IsLaidOut s.program.now.aggregates }
    ensures { IfOk result (λ n. n ≡ parts.passed_words how (homes.words (spot_of s.entry) (here.member_type s.entry.program.now (here.pointee (type_of e.now)) path.now))) }
{
    let n = pointed_member_words(s, e, path)?;
    Ok(passed_words(how, n))
}

/// What an object that is a member of a value gives.
fn value_object_words(
    s: Spot<'_>,
    e: &Boxed<TExpr>,
    path: &Items<u32>,
    how: Passed,
) -> Result<u32, NoMemory>
    requires { IsLaidOut s.program.now.aggregates }
    ensures { IfOk result (λ n. n ≡ (acts.object_in (spot_of s.entry) how (type_of e.now) (here.member_type s.entry.program.now (type_of e.now) path.now) path.now (coded (spot_of s.entry) e.now)).words) }
{
    match how {
        Passed::Value => value_member_words(s, e, path),
        Passed::Address | Passed::Nothing => Ok(0),
    }
}

/// How many words the object before a function's name gives it.
fn received_words(s: Spot<'_>, receiver: &TReceiver) -> Result<u32, NoMemory>
    requires { IsLaidOut s.program.now.aggregates }
    ensures { IfOk result (λ n. n ≡ (received_object (spot_of s.entry) receiver.now).words) }
{
    match receiver {
        TReceiver::Place {
            place,
            path,
            passed,
        } => place_object_words(s, place, path, *passed),
        TReceiver::Value {
            value,
            path,
            passed,
        } => value_object_words(s, value, path, *passed),
        TReceiver::Pointer {
            pointer,
            path,
            passed,
        } => pointed_object_words(s, pointer, path, *passed),
    }
}

/// The same where it may be missing.
pub fn object_words(s: Spot<'_>, object: &Option<Boxed<TReceiver>>) -> Result<u32, NoMemory>
    requires { IsLaidOut s.program.now.aggregates }
    ensures { IfOk result (λ n. n ≡ (rows.object_of (spot_of s.entry) object.now).words) }
{
    match object {
        None => Ok(0),
        Some(receiver) => received_words(s, receiver.get()),
    }
}
