//! Tuples and sequences, once their parts are typed.
ghost use Rattle.std.specs.Prelude.{◌≡◌, ◌++◌, ◌∷◌, [], IfOk, nat_le};
ghost use Rattle.al_rules.specs.Outcome.{Answers};
ghost use Rattle.al_typed.specs.Layout.{IsLaidOut, size_of};
ghost use Rattle.al_typed.specs.Typed.{type_of};
ghost use Rattle.al_operators.specs.Operators.{printable as printable_of};
ghost use Rattle.al_typed.specs.declared.ty.Ty.TheVariants as ty;
ghost use Rattle.al_type_nodes.specs.declared.found.Found.TheVariants as found;
ghost use Rattle.al_type_expr.specs.Lists as spec;
ghost use Rattle.al_type_expr.specs.Lists.{with_last_part};
ghost use Rattle.al_type_expr.specs.Nodes as nodes;

use crate::columns::Columns;
use al_base::{NoMemory, Place};
use al_convert::Literal;
use al_items::{Boxed, Items};
use al_operands::{Operand, asked, beside, both, present};
use al_operators::printable;
use al_rules::TypeStop;
use al_type_nodes::Found;
use al_typed::{Aggregate, TExpr, TTarget, Ty, room_of};
use std::alloc::Global;

/// A list with one more at its end.
pub fn more<T: Drop>(list: Items<T>, item: T) -> Result<Items<T>, NoMemory>
    ensures { IfOk result (λ l. l ≡ list ++ item ∷ []) }
{
    let mut list = list;
    list.push(item)?;
    Ok(list)
}

/// What is kept, where something else is let go.
pub(crate) fn only<T, U: Drop>(kept: T, _let_go: U) -> T
    ensures { result ≡ kept }
{
    kept
}

/// What a print prints of an argument that is found.
pub(crate) fn printed_value(alloc: Global, x: Operand) -> Result<TExpr, NoMemory>
    ensures { IfOk result (λ e. e ≡ printable_of x.value) }
{
    printable(alloc, x.value)
}

/// The types, and that of one more part.
fn more_types(alloc: Global, types: Items<Ty>, e: &TExpr) -> Result<Items<Ty>, NoMemory>
    ensures { IfOk result (λ l. l ≡ types ++ type_of e.now ∷ []) }
{
    let ty = e.ty().copy(alloc);
    let (types, ty) = beside(types, ty)?;
    more(types, ty)
}

/// No parts.
pub(crate) fn no_columns(alloc: Global) -> Columns
    ensures { result ≡ spec.no_columns }
{
    Columns {
        types: Items::new(alloc),
        values: Items::new(alloc),
        written: Items::new(alloc),
    }
}

/// The parts, and one more behind them.
pub(crate) fn and_part(alloc: Global, columns: Columns, x: Operand) -> Result<Columns, NoMemory>
    ensures { IfOk result (λ c. c ≡ with_last_part columns x) }
{
    let Columns {
        types,
        values,
        written,
    } = columns;
    let types = more_types(alloc, types, &x.value);
    let values = more(values, x.value);
    let written = more(written, x.written);
    let trees = both(values, written);
    let (types, trees) = both(types, trees)?;
    let (values, written) = trees;
    Ok(Columns {
        types,
        values,
        written,
    })
}

/// Whether a type has at most 2^28 bytes.
#[tactic(auto, using(crate::proofs::SizesAre::small_size))]
fn is_small(rows: &[Aggregate], ty: &Ty) -> bool
    requires { IsLaidOut rows.now }
    ensures { result ≡ nat_le (size_of rows.now ty.now) 268435456 }
{
    room_of(rows, ty).size <= 268_435_456
}

/// The tuple of these parts.
#[tactic(auto, unfolding(crate::specs::Lists::tuple))]
fn tuple(columns: Columns) -> Operand
    ensures found { spec.tuple columns ≡ found.Value result }
    ensures types { type_of result.value ≡ ty.Tuple columns.types }
{
    let Columns {
        types,
        values,
        written,
    } = columns;
    let value = TExpr::Tuple {
        ty: Ty::Tuple(types),
        parts: values,
    };
    Operand {
        value,
        written: Literal::Tuple(written),
    }
}

/// The tuple of these parts, which stands at that place, where its type has at most 2^28 bytes.
#[tactic(auto, unfolding(crate::specs::Lists::small_tuple))]
pub(crate) fn small_tuple(
    rows: &[Aggregate],
    at: Place,
    columns: Columns,
) -> Result<Found, TypeStop>
    requires { IsLaidOut rows.now }
    ensures { Answers result (spec.small_tuple rows.now at columns) }
{
    let x = tuple(columns);
    let is_small = is_small(rows, x.value.ty());
    asked(18, at, is_small, Found::Value(x))
}

#[tactic(auto, unfolding(crate::specs::Lists::sequence))]
fn sequence(alloc: Global, first: Items<TExpr>, last: TExpr) -> Result<TExpr, NoMemory>
    ensures { IfOk result (λ t. t ≡ spec.sequence first last) }
{
    let ty = last.ty().copy(alloc);
    let last = Boxed::new(alloc, last);
    let sides = both(ty, last);
    let (first, sides) = beside(first, sides)?;
    let (ty, last) = sides;
    Ok(TExpr::Sequence { ty, first, last })
}

/// Expressions with commas between them.
#[tactic(auto, using(crate::proofs::ListsAre::sequences, al_operands::proofs::Asking::asking))]
pub(crate) fn sequenced(alloc: Global, at: Place, parts: Items<TExpr>) -> Result<TExpr, TypeStop>
    ensures { Answers result (spec.sequenced at parts) }
{
    let mut first = parts;
    let last = first.pop();
    let (last, first) = present(44, at, last, first)?;
    Ok(sequence(alloc, first, last)?)
}

/// The types of targets.
fn target_types(alloc: Global, parts: &[TTarget]) -> Result<Items<Ty>, NoMemory>
    ensures { IfOk result (λ it. it ≡ spec.target_types parts.now) }
{
    let mut out = Items::with_capacity(alloc, parts.len())?;
    for part in parts {
        out.push(part.ty().copy(alloc)?)?;
    }
    Ok(out)
}

/// Targets in parentheses.
fn all_parts(alloc: Global, parts: Items<TTarget>) -> Result<TTarget, NoMemory>
    ensures { IfOk result (λ t. t ≡ nodes.all_parts parts) }
{
    let types = target_types(alloc, parts.as_slice());
    let (parts, types) = beside(parts, types)?;
    let ty = Ty::Tuple(types);
    Ok(TTarget::Parts { ty, parts })
}

/// Targets in parentheses, which `=` at that place gives values, where their type has at most 2^28 bytes.
#[tactic(auto, unfolding(crate::specs::Nodes::small_target), using(al_rules::proofs::Permits::permitted))]
pub(crate) fn small_target(
    alloc: Global,
    rows: &[Aggregate],
    at: Place,
    parts: Items<TTarget>,
) -> Result<TTarget, TypeStop>
    requires { IsLaidOut rows.now }
    ensures { Answers result (nodes.small_target rows.now at parts) }
{
    let all = all_parts(alloc, parts)?;
    let is_small = is_small(rows, all.ty());
    asked(18, at, is_small, all)
}
