//! How many words values have.
ghost use Rattle.std.specs.Prelude.{◌≡◌, ℕ, sum_by, take, drop, slice_get};
ghost use Rattle.std.specs.Option.{option_copied};
ghost use Rattle.al_typed.specs.Capped.{capped};
ghost use Rattle.al_typed.specs.declared.ty.Ty.TheVariants as variant;
ghost use Rattle.al_value_text.specs.Values as spec;

use al_base::Kind;
use al_typed::{Aggregate, Ty};

/// The aggregate of that number.
pub(crate) fn row(aggregates: &[Aggregate], number: u32) -> Option<&Aggregate>
    ensures { option_copied result ≡ slice_get aggregates.now number }
{
    aggregates.get(number as usize)
}

fn integer_width(kind: Kind) -> u64
    ensures { result ≡ (spec.integer kind).words }
{
    match kind {
        Kind::Byte | Kind::Sint | Kind::Usint | Kind::Int | Kind::Uint => 1,
        Kind::Lint | Kind::Ulint => 2,
    }
}

/// How many words values of these types have, one after another.
#[cycle(width)]
fn widths(aggregates: &[Aggregate], types: &[Ty]) -> u64
    ensures { result ≡ capped (sum_by (spec.words_in aggregates.now) types.now) }
{
    let mut sum: u64 = 0;
    for ty in types {
        sum = sum.saturating_add(width(aggregates, ty));
    }
    sum
}

/// How many words a value of the aggregate of that number has.
#[cycle(width)]
fn aggregate_width(aggregates: &[Aggregate], number: u32) -> u64
    ensures { result ≡ capped (spec.words_in aggregates.now (variant.Aggregate number)) }
{
    match row(aggregates, number) {
        None => 0,
        Some(aggregate) => {
            if aggregate.is_union {
                return u64::from(aggregate.units);
            }
            match &aggregate.members {
                None => 0,
                Some(members) => widths(&aggregates[..number as usize], members.as_slice()),
            }
        }
    }
}

/// How many words a value of a type has. A number past 2^64 - 1 counts as that.
#[cycle(width)]
pub(crate) fn width(aggregates: &[Aggregate], ty: &Ty) -> u64
    ensures { result ≡ capped (spec.words_in aggregates.now ty.now) }
{
    match ty {
        Ty::Void => 0,
        Ty::Function { .. } => 0,
        Ty::Integer(kind) => integer_width(*kind),
        Ty::Pointer(_) => 1,
        Ty::Chan { .. } => 1,
        Ty::Array { element, count } => {
            u64::from(*count).saturating_mul(width(aggregates, element.get()))
        }
        Ty::Tuple(parts) => widths(aggregates, parts.as_slice()),
        Ty::Aggregate(number) => aggregate_width(aggregates, *number),
    }
}

/// The words of a value, of which there are so many, and those behind it.
pub(crate) fn cut(words: &[u32], count: u64) -> (&[u32], &[u32])
    ensures own { result.0.now ≡ take count words.now }
    ensures rest { result.1.now ≡ drop count words.now }
    // No list has more than 2^64 - 1 words.
    ensures capped { (n : ℕ) → count ≡ capped n → (take count words.now ≡ take n words.now) × (drop count words.now ≡ drop n words.now) }
{
    words.split_at(count.min(words.len() as u64) as usize)
}
